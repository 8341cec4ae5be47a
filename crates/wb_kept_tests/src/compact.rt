//! Logs that are put in place of others: in memory, cut off in each step, and in a real file.
ghost use Rattle.std.specs.Prelude.{IfSome};
ghost use Rattle.wb_keep.specs.Disk.Calls.{seen_after, MayLeave};
ghost use Rattle.wb_keep.specs.Keep.{IsSettled};

use crate::files::{NEVER, left_with, opened, refusal};
use std::alloc::{AllocError, Global};
use std::os::unix::fs::symlink;
use std::string::String;
use std::test::Fail;
use std::{fs, process};
use wb_keep::disk::{DiskFile, MemoryFile, OpenDiskErr, open_file};
use wb_keep::{CompactErr, LineLog, START, open};

const HELD: &[u8] = b"chapel-workbook 3\n one\n two\n#";

const REPLACED: &[u8] = b"chapel-workbook 3\n both\n#";

const CONTINUED: &[u8] = b"chapel-workbook 3\n both\n three\n#";

const PATH: &str = "wb_kept_compact.log";

const LINK: &str = "wb_kept_compact.link";

/// Puts a new log with these lines in place and adds a line, until one of the two fails. Returns how many were acknowledged.
fn acknowledged(alloc: Global, log: &mut LineLog<MemoryFile>, lines: &[u8]) -> usize
    requires { IsSettled (λ f. seen_after f.calls) (λ f. MayLeave f.calls) log.old }
{
    if log.compact(alloc, &(), lines).is_err() {
        return 0;
    }
    if log.append(alloc, b"three\n").is_err() {
        return 1;
    }
    2
}

/// Opens the file, puts a new log in its place and adds a line, until it is cut off in the call after so many. Returns
/// what is left, and how many of the two were acknowledged.
fn cut_off(alloc: Global, calls: usize, torn: usize) -> Result<(Vec<u8>, usize), AllocError> {
    match opened(alloc, HELD, calls, torn)? {
        Ok(mut log) => {
            let count = acknowledged(alloc, &mut log, b"both\n");
            left_with(alloc, log.device.left(), count)
        }
        Err(file) => left_with(alloc, file.left(), 0),
    }
}

/// How many of the two these bytes have. None if they are in between.
fn count_of(bytes: &[u8]) -> Option<usize> {
    if bytes == HELD {
        return Some(0);
    }
    if bytes == REPLACED {
        return Some(1);
    }
    if bytes == CONTINUED {
        return Some(2);
    }
    None
}

/// How many of the two a file has that was cut off, by the lines that it stands for. None if it is refused, or in between.
fn found_in(alloc: Global, bytes: &[u8]) -> Result<Option<usize>, AllocError> {
    match opened(alloc, bytes, NEVER, 0)? {
        Ok(log) => Ok(count_of(log.device.bytes())),
        Err(_) => Ok(None),
    }
}

/// Puts a new log with these lines in place, and adds a line. Whether both are acknowledged, and the file has these bytes.
fn is_replaced(alloc: Global, lines: &[u8], bytes: &[u8]) -> Result<bool, AllocError> {
    match opened(alloc, HELD, NEVER, 0)? {
        Ok(mut log) => {
            let count = acknowledged(alloc, &mut log, lines);
            Ok(count == 2 && log.device.bytes() == bytes)
        }
        Err(_) => Ok(false),
    }
}

/// Lines, and the file of a new log that has them and a line behind.
const NEW_LOGS: &[(&[u8], &[u8])] = &[
    (b"a\n b\n", b"chapel-workbook 3\n+a\n  b\n three\n#"),
    (b"", b"chapel-workbook 3\n three\n#"),
    (b"no line", b"chapel-workbook 3\n three\n#"),
];

#[test]
fn a_new_log_has_its_lines_alone(rt: HostRuntime) -> Result<(), Fail> {
    for (lines, bytes) in NEW_LOGS {
        assert!(rt; is_replaced(rt.alloc(), lines, bytes)?);
    }
    Ok(())
}

/// How many of the two were acknowledged by a file that is cut off, and how many it has. None if it is refused then, or in
/// between.
fn counted(alloc: Global, calls: usize, torn: usize) -> Result<Option<(usize, usize)>, AllocError> {
    let (left, count) = cut_off(alloc, calls, torn)?;
    match found_in(alloc, &left)? {
        Some(found) => Ok(Some((count, found))),
        None => Ok(None),
    }
}

/// Whether a file that is cut off has the new log though it was not acknowledged. None if it has anything else that it may
/// not have.
fn is_new_by_chance(alloc: Global, calls: usize, torn: usize) -> Result<Option<bool>, AllocError> {
    let Some((count, found)) = counted(alloc, calls, torn)? else {
        return Ok(None);
    };
    // To open the file takes three calls, the new log four, and the line behind it two.
    if count <= found && (calls >= 5 || found == 0) && (calls < 7 || count >= 1) {
        return Ok(Some(count == 0 && found == 1));
    }
    Ok(None)
}

#[test]
fn a_crash_in_each_step_leaves_the_old_log_or_the_new_one(rt: HostRuntime) -> Result<(), Fail> {
    let mut new_by_chance = false;
    for calls in 0..10 {
        for torn in 0..10 {
            let Some(is_new) = is_new_by_chance(rt.alloc(), calls, torn)? else {
                panic!(rt; "in between");
            };
            new_by_chance |= is_new;
        }
    }
    assert!(rt; new_by_chance);
    Ok(())
}

/// Why no new log is put in place of a file that is cut off in the call after so many. None if it is, or if the file is
/// refused.
fn fault_after(alloc: Global, calls: usize) -> Result<Option<CompactErr>, AllocError> {
    match opened(alloc, HELD, calls, 0)? {
        Ok(mut log) => Ok(log.compact(alloc, &(), b"both\n").err()),
        Err(_) => Ok(None),
    }
}

/// After how many calls a file is cut off, and why no new log is put in its place then.
const FAULTS: &[(usize, CompactErr)] = &[
    (3, CompactErr::NotMade),
    (4, CompactErr::NotMade),
    (5, CompactErr::Failed),
    (6, CompactErr::Failed),
];

#[test]
fn a_log_goes_on_where_no_new_one_can_be_made(rt: HostRuntime) -> Result<(), Fail> {
    for (calls, error) in FAULTS {
        assert!(rt; fault_after(rt.alloc(), *calls)? == Some(*error));
    }
    Ok(())
}

/// Puts a new log in place of a real file's, and adds a line. Says how that went, or nothing where the line was not added.
fn compact_log(
    rt: &HostRuntime,
    log: &mut LineLog<DiskFile>,
    lines: &[u8],
    behind: &[u8],
) -> Option<Result<(), CompactErr>>
    requires { IsSettled (λ f. seen_after f.calls) (λ f. MayLeave f.calls) log.old }
{
    let compacted = log.compact(rt.alloc(), rt, lines);
    let is_added = match compacted {
        Ok(()) => log.append(rt.alloc(), behind).is_ok(),
        Err(CompactErr::NotMade) => log.append(rt.alloc(), behind).is_ok(),
        Err(_) => false,
    };
    if is_added { Some(compacted) } else { None }
}

/// Opens a real file and its log. None if one of them is refused.
fn open_log(rt: &HostRuntime, path: &str) -> Option<LineLog<DiskFile>>
    ensures { IfSome result (λ log. IsSettled (λ f. seen_after f.calls) (λ f. MayLeave f.calls) log) }
{
    let Ok((file, held)) = open_file(rt, path, &START) else {
        return None;
    };
    match open(rt.alloc(), file, &held) {
        Ok((log, _)) => Some(log),
        Err(_) => None,
    }
}

/// Opens the real file, puts a new log in its place and adds a line. Whether that went so, the line was added, and the file
/// was locked then.
fn is_compacted(
    rt: &HostRuntime,
    lines: &[u8],
    behind: &[u8],
    went: Result<(), CompactErr>,
) -> bool {
    let Some(mut log) = open_log(rt, PATH) else {
        return false;
    };
    let compacted = compact_log(rt, &mut log, lines, behind);
    let is_locked = matches!(refusal(rt, PATH, &START), Some(OpenDiskErr::Busy));
    is_locked && compacted == Some(went)
}

/// Opens the real file by its link, and puts a new log in its place. Whether that went well.
fn is_compacted_by_link(rt: &HostRuntime) -> bool {
    match open_log(rt, LINK) {
        Some(mut log) => log.compact(rt.alloc(), rt, b"linked\n").is_ok(),
        None => false,
    }
}

/// Whether the real file has these bytes.
fn has(rt: &HostRuntime, bytes: &[u8]) -> bool {
    match fs::read(rt, PATH) {
        Ok(read) => read.as_slice() == bytes,
        Err(_) => false,
    }
}

/// The name of the file that is made, before it is put in place.
fn beside(rt: &HostRuntime) -> Result<String, Fail> {
    Ok(format!(in rt.alloc(); "{PATH}.{}.new", process::id(rt.process()))?)
}

/// Puts a new log in place where a folder is in the way, and takes the folder away. Whether none can be made there.
fn is_not_made(rt: &HostRuntime, beside: &str) -> Result<bool, Fail> {
    fs::create_dir(rt, beside)?;
    let is_not_made = is_compacted(rt, b"lost\n", b"e\n", Err(CompactErr::NotMade));
    fs::remove_dir(rt, beside)?;
    Ok(is_not_made)
}

/// Puts new logs in place, with nothing in the way but, at last, a folder.
fn are_made(rt: &HostRuntime, beside: &str) -> Result<bool, Fail> {
    if !is_compacted(rt, b"a\nb\n", b"c\n", Ok(())) {
        return Ok(false);
    }
    if !has(rt, b"chapel-workbook 3\n+a\n b\n c\n#") || fs::exists(rt, beside)? {
        return Ok(false);
    }
    if !is_compacted(rt, b"abc\n", b"d\n", Ok(())) || !is_not_made(rt, beside)? {
        return Ok(false);
    }
    Ok(has(rt, b"chapel-workbook 3\n abc\n d\n e\n#"))
}

/// Begins without the real file, its link and the folder that was in the way. Returns the name of that folder.
fn cleared(rt: &HostRuntime) -> Result<String, Fail> {
    let _ = fs::remove_file(rt, PATH);
    let _ = fs::remove_file(rt, LINK);
    let beside = beside(rt)?;
    let _ = fs::remove_dir(rt, beside.as_str());
    Ok(beside)
}

/// Whether new logs are put in place of a real file's, each with its lines alone.
fn are_put_in_place(rt: &HostRuntime) -> Result<bool, Fail> {
    let beside = cleared(rt)?;
    are_made(rt, beside.as_str())
}

/// Whether it is the file behind a symbolic link that a new log is put in place of.
fn is_link_followed(rt: &HostRuntime) -> Result<bool, Fail> {
    symlink(rt, PATH, LINK)?;
    let is_followed = is_compacted_by_link(rt) && has(rt, b"chapel-workbook 3\n linked\n#");
    fs::remove_file(rt, LINK)?;
    fs::remove_file(rt, PATH)?;
    Ok(is_followed)
}

#[test]
fn a_real_file_is_put_in_place_of_another(rt: HostRuntime) -> Result<(), Fail> {
    assert!(rt; are_put_in_place(&rt)?);
    assert!(rt; is_link_followed(&rt)?);
    Ok(())
}
