//! Turns that threads make under one lock, and that are kept together in a file under another; a file that fails.
ghost use Rattle.std.specs.Prelude.{◌≡◌, ◌<◌};
ghost use Rattle.wb_keep.specs.Disk.Calls.{seen_after, MayLeave};
ghost use Rattle.wb_keep.specs.Lines.{recovered};
ghost use Rattle.wb_keep.specs.Keep.{IsSettled};

use crate::files::{NEVER, opened};
use std::alloc::{AllocError, Global};
use std::marker::Brand;
use std::sync::ledger::Blank;
use std::sync::{Mutex, Wait};
use std::test::Fail;
use std::thread;
use std::thread::Threads;
use wb_keep::disk::MemoryFile;
use wb_keep::{AppendErr, LineLog};
use wb_kept::Changes;
use wb_kept_group::group::{Front, Keeper, Opened, Told, Waiting};
use wb_kept_group::{Journal, Opening};

const HELD: &[u8] = b"chapel-workbook 3\n up\n#";

type Place<O> = Mutex<Waiting<O, Changes>>;

type InFile<O> = Keeper<O, Changes, AppendErr, Journal<O, MemoryFile>>;

type ToldOf<O> = Told<O, Changes, AppendErr, Journal<O, MemoryFile>>;

/// The changes of a turn: one line.
fn one_line(alloc: Global) -> Result<Changes, AllocError> {
    let mut changes = Changes::new(alloc);
    changes.push(b"up")?;
    Ok(changes)
}

/// Makes a turn, which waits then.
fn turn_made<R: Wait, O: Opening>(
    rt: &R,
    alloc: Global,
    desk: &Place<O>,
) -> Option<Front<O, Changes>> {
    match one_line(alloc) {
        Ok(changes) => desk.lock(rt).add(changes).ok(),
        Err(_) => None,
    }
}

/// Makes a turn. Once it is kept, its number is told.
fn turn_kept<R: Wait, O: Opening>(
    rt: &R,
    alloc: Global,
    desk: &Place<O>,
    keeper: &Mutex<InFile<O>>,
    told: &ToldOf<O>,
) -> Option<u64>
    requires { (O.all ≡ O.parts) × (0 < O.all) }
{
    let front = turn_made(rt, alloc, desk)?;
    match wb_kept_group::group::keep(rt, alloc, desk, keeper, told, &front) {
        Ok(()) => Some(front.len()),
        Err(_) => None,
    }
}

/// The numbers of ten turns, or of those before one that was not kept.
fn ten_turns<R: Wait, O: Opening>(
    rt: &R,
    alloc: Global,
    desk: &Place<O>,
    keeper: &Mutex<InFile<O>>,
    told: &ToldOf<O>,
) -> Vec<u64>
    requires { (O.all ≡ O.parts) × (0 < O.all) }
{
    let mut numbers = Vec::new(alloc);
    for _ in 0..10 {
        match turn_kept(rt, alloc, desk, keeper, told) {
            Some(number) if numbers.push(number).is_ok() => {}
            _ => return numbers,
        }
    }
    numbers
}

/// What two threads were told, and what their file has at the end.
fn two_threads<O: Opening + Send + Sync, R: Threads + Wait + Sync>(
    rt: &R,
    alloc: Global,
    opened: Opened<Changes>,
    blank: Blank,
    log: LineLog<MemoryFile>,
) -> (Vec<u64>, Vec<u64>, Result<Vec<u8>, AllocError>)
    requires settled { IsSettled (λ f. seen_after f.calls) (λ f. MayLeave f.calls) log }
    requires opening { O.opening ≡ recovered (seen_after log.device.calls) }
    requires book { opened.seen.book ≡ O.book }
    requires ledger { (blank.name ≡ O.name) × (blank.parts ≡ O.parts) × (O.all ≡ O.parts) × (0 < O.all) }
{
    let (waiting, front, mark) = Waiting::<O, Changes>::open(alloc, opened, blank);
    let desk = Mutex::new(waiting);
    let keeper = Mutex::new(Keeper::new(Journal::new(alloc, log), front, mark));
    let told = Told::new();
    let (one, two) = thread::join(
        rt,
        || -> Vec<u64>
            requires { (O.all ≡ O.parts) × (0 < O.all) }
        { ten_turns(rt, alloc, &desk, &keeper, &told) },
        || -> Vec<u64>
            requires { (O.all ≡ O.parts) × (0 < O.all) }
        { ten_turns(rt, alloc, &desk, &keeper, &told) },
    );
    let left = file_of(alloc, desk.into_inner(), keeper.into_inner());
    (one, two, left)
}

/// What each of six threads was told, and what their file has at the end.
fn six_threads<O: Opening + Send + Sync, R: Threads + Wait + Sync>(
    rt: &R,
    alloc: Global,
    opened: Opened<Changes>,
    blank: Blank,
    log: LineLog<MemoryFile>,
) -> Result<(Vec<Vec<u64>>, Vec<u8>), AllocError>
    requires settled { IsSettled (λ f. seen_after f.calls) (λ f. MayLeave f.calls) log }
    requires opening { O.opening ≡ recovered (seen_after log.device.calls) }
    requires book { opened.seen.book ≡ O.book }
    requires ledger { (blank.name ≡ O.name) × (blank.parts ≡ O.parts) × (O.all ≡ O.parts) × (0 < O.all) }
{
    let (waiting, front, mark) = Waiting::<O, Changes>::open(alloc, opened, blank);
    let desk = Mutex::new(waiting);
    let keeper = Mutex::new(Keeper::new(Journal::new(alloc, log), front, mark));
    let told = Told::new();
    let numbers = thread::map_indices(
        rt,
        alloc,
        6,
        &|_place| -> Vec<u64>
            requires { (O.all ≡ O.parts) × (0 < O.all) }
        { ten_turns(rt, alloc, &desk, &keeper, &told) },
    );
    let left = file_of(alloc, desk.into_inner(), keeper.into_inner());
    Ok((numbers?, left?))
}

/// The journal once all turns are kept, or after a fault.
fn journal_of<O: Opening>(
    alloc: Global,
    desk: &mut Waiting<O, Changes>,
    keeper: InFile<O>,
) -> Journal<O, MemoryFile>
    requires { (O.all ≡ O.parts) × (0 < O.all) }
{
    match keeper.keep_all(alloc, desk) {
        Ok(journal) => journal,
        Err((_, journal)) => journal,
    }
}

/// What the file has once all turns are kept, or after a fault.
fn file_of<O: Opening>(
    alloc: Global,
    desk: Waiting<O, Changes>,
    keeper: InFile<O>,
) -> Result<Vec<u8>, AllocError>
    requires { (O.all ≡ O.parts) × (0 < O.all) }
{
    let mut desk = desk;
    let log = journal_of(alloc, &mut desk, keeper).into_log();
    log.device.left().to_vec(alloc)
}

/// How often a number was told.
fn times_told(told: &[u64], number: u64) -> usize {
    let mut times = 0usize;
    for one in told {
        if *one == number {
            times = times.saturating_add(1);
        }
    }
    times
}

/// A file with each line as a batch of its own.
fn each_alone(file: Vec<u8>) -> Vec<u8> {
    let mut file = file;
    for at in 0..file.len() {
        if file[at] == b'+' {
            file[at] = b' ';
        }
    }
    file
}

/// Whether each of the first twenty numbers was told once.
fn are_told_once(one: &[u64], two: &[u64]) -> bool {
    for number in 1..=20u64 {
        if times_told(one, number).saturating_add(times_told(two, number)) != 1 {
            return false;
        }
    }
    true
}

/// How many numbers each of two threads is told, whether they are the first twenty, and what their file has at the end, which
/// is cut off in the call after so many. None if it is refused.
fn told_and_left<R: Threads + Wait + Sync>(
    rt: &R,
    alloc: Global,
    calls: usize,
) -> Result<Option<(usize, usize, bool, Vec<u8>)>, AllocError> {
    let Ok(log) = opened(alloc, HELD, calls, 0)? else {
        return Ok(None);
    };
    let (one, two, left) = two_threads::<Brand, _>(rt, alloc, Opened::new(), Blank::new(1), log);
    let is_once = are_told_once(&one, &two);
    match left {
        Ok(left) => Ok(Some((one.len(), two.len(), is_once, each_alone(left)))),
        Err(error) => Err(error),
    }
}

/// The file of twenty turns, each as a batch of its own: one line from before, and one of each turn.
const KEPT: &[u8] =
    b"chapel-workbook 3\n up\n up\n up\n up\n up\n up\n up\n up\n up\n up\n up\n up\n up\n up\n up\n up\n up\n up\n up\n up\n up\n#";

#[test]
fn threads_are_kept_together(rt: HostRuntime) -> Result<(), Fail> {
    let Some((one, two, are_told_once, left)) = told_and_left(&rt, rt.alloc(), NEVER)? else {
        panic!(rt; "refused");
    };
    assert!(rt; one == 10 && two == 10 && are_told_once);
    // The turns are in some batches.
    assert!(rt; left.as_slice() == KEPT);
    Ok(())
}

/// How often a number was told to any of several threads.
fn times_told_to_all(told: &[Vec<u64>], number: u64) -> usize {
    let mut times = 0usize;
    for one in told {
        times = times.saturating_add(times_told(one, number));
    }
    times
}

/// A file of so many turns, each as a batch of its own, behind one line from before.
fn file_of_turns(alloc: Global, turns: usize) -> Result<Vec<u8>, AllocError> {
    let mut bytes = b"chapel-workbook 3\n up\n".to_vec(alloc)?;
    for _ in 0..turns {
        bytes.extend_from_slice(b" up\n")?;
    }
    bytes.push(b'#')?;
    Ok(bytes)
}

#[test]
fn six_threads_are_kept_together(rt: HostRuntime) -> Result<(), Fail> {
    let alloc = rt.alloc();
    let Ok(log) = opened(alloc, HELD, NEVER, 0)? else {
        panic!(rt; "refused");
    };
    let (told, left) = six_threads::<Brand, _>(&rt, alloc, Opened::new(), Blank::new(1), log)?;
    for number in 1..=60u64 {
        assert!(rt; times_told_to_all(&told, number) == 1);
    }
    assert!(rt; each_alone(left).as_slice() == file_of_turns(alloc, 60)?.as_slice());
    Ok(())
}

#[test]
fn nobody_is_told_after_a_fault(rt: HostRuntime) -> Result<(), Fail> {
    // To open the file takes three calls, a batch two more: the second batch fails in its second call.
    let Some((one, two, _, left)) = told_and_left(&rt, rt.alloc(), 6)? else {
        panic!(rt; "refused");
    };
    // At most the turns of one batch were told: one of each thread.
    let told = one.saturating_add(two);
    assert!(rt; told == 1 || told == 2);
    // The first batch is in the file, behind the line from before.
    assert!(rt; left.starts_with(b"chapel-workbook 3\n up\n up\n"));
    Ok(())
}

/// Makes a turn, if there is room.
fn make_one<O: Opening>(alloc: Global, desk: &mut Waiting<O, Changes>) -> Result<(), AllocError> {
    let _ = desk.add(one_line(alloc)?);
    Ok(())
}

/// Makes two turns, if there is room.
fn make_two<O: Opening>(alloc: Global, desk: &mut Waiting<O, Changes>) -> Result<(), AllocError> {
    make_one(alloc, desk)?;
    make_one(alloc, desk)
}

/// What is left of two turns whose file is cut off while both are brought to it.
fn two_turns<O: Opening>(
    alloc: Global,
    opened: Opened<Changes>,
    blank: Blank,
    log: LineLog<MemoryFile>,
) -> Result<Vec<u8>, AllocError>
    requires settled { IsSettled (λ f. seen_after f.calls) (λ f. MayLeave f.calls) log }
    requires opening { O.opening ≡ recovered (seen_after log.device.calls) }
    requires book { opened.seen.book ≡ O.book }
    requires ledger { (blank.name ≡ O.name) × (blank.parts ≡ O.parts) × (O.all ≡ O.parts) × (0 < O.all) }
{
    let (mut desk, front, mark) = Waiting::<O, Changes>::open(alloc, opened, blank);
    let made = make_two(alloc, &mut desk);
    let keeper = Keeper::new(Journal::new(alloc, log), front, mark);
    let left = file_of(alloc, desk, keeper);
    match made {
        Ok(()) => left,
        Err(error) => Err(error),
    }
}

/// Whether these bytes are left of two turns whose file is cut off in the call after so many, of which so many bytes reach it.
fn is_left(alloc: Global, calls: usize, torn: usize, bytes: &[u8]) -> Result<bool, AllocError> {
    match opened(alloc, HELD, calls, torn)? {
        Ok(log) => {
            let left = two_turns::<Brand>(alloc, Opened::new(), Blank::new(1), log)?;
            Ok(left.as_slice() == bytes)
        }
        Err(_) => Ok(false),
    }
}

/// How many calls are made, how many bytes of the next reach the file, and what is left.
const LEFT: &[(usize, usize, &[u8])] = &[
    (3, 0, b"chapel-workbook 3\n up\n#"),
    (3, 5, b"chapel-workbook 3\n up\n+up\n "),
    (3, 8, b"chapel-workbook 3\n up\n+up\n up\n"),
    (4, 0, b"chapel-workbook 3\n up\n+up\n up\n#"),
    (5, 0, b"chapel-workbook 3\n up\n+up\n up\n#"),
];

#[test]
fn turns_that_wait_are_kept_all_or_none(rt: HostRuntime) -> Result<(), Fail> {
    for (calls, torn, bytes) in LEFT {
        assert!(rt; is_left(rt.alloc(), *calls, *torn, bytes)?);
    }
    Ok(())
}
