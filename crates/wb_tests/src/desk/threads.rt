//! All seats of a desk at once, each in a thread of its own.

use crate::desk::days::ask;
use std::alloc::Global;
use std::sync::Wait;
use std::thread;
use std::thread::Threads;
use wb_arrays::Mover;
use wb_desk::{Desk, Opening, Pass};
use wb_history::Answer;
use wb_machine::Reply;

/// What each seat does.
#[derive(Clone, Copy, Debug, PartialEq, Eq)]
pub(crate) enum Work {
    /// Nothing.
    Nothing,
    /// It makes a domain and an array of its own, sets 48 elements, and reads the last one back.
    Sets,
    /// It adds a hundred numbers of its own to the set N, and undoes its own add of each number that 10 divides.
    Adds,
}

// The line of a round, where `@` stands for the seat and `#` for a number of its own, or nothing where the work is done.
fn round_of(work: Work, round: u32) -> Option<&'static str> {
    match (work, round) {
        (Work::Sets, 0) => Some(r##"{"op":"domain","d":"D@","is":"{1..48}"}"##),
        (Work::Sets, 1) => Some(r##"{"op":"array","a":"A@","d":"D@"}"##),
        (Work::Sets, 2..=49) => Some(r##"{"op":"set","a":"A@","i":#,"v":#}"##),
        (Work::Sets, 50) => Some(r##"{"op":"get","a":"A@","i":48}"##),
        (Work::Adds, 0..=99) => Some(r##"{"op":"add","d":"N","i":#}"##),
        _ => None,
    }
}

// The number of a round: the place of an element, from 1, or a number that no other seat adds.
fn number_of(work: Work, seat: usize, round: u32) -> usize {
    match work {
        Work::Adds => seat % 16 * 100 + round as usize,
        _ => round.saturating_sub(1) as usize,
    }
}

// The line that a seat asks in one of its rounds, or nothing where it is done.
fn line_of(alloc: Global, work: Work, seat: usize, round: u32) -> Option<String> {
    let line = round_of(work, round)?;
    let number = number_of(work, seat, round).to_string(alloc).ok()?;
    let seat = seat.to_string(alloc).ok()?;
    let seated = line.replace(alloc, '@', seat.as_str()).ok()?;
    seated.replace(alloc, '#', number.as_str()).ok()
}

// Does the work of one seat. Its pass, or nothing where a reply was another one.
fn worked<L: Opening, R: Wait, M: Mover>(
    rt: &R,
    alloc: Global,
    desk: &Desk<L>,
    pass: Pass<L>,
    work: Work,
    mover: &M,
) -> Option<Pass<L>> {
    let mut pass = pass;
    for round in 0..100u32 {
        let Some(line) = line_of(alloc, work, pass.seat(), round) else {
            return Some(pass);
        };
        let reply = ask(rt, alloc, desk, &mut pass, line.as_str(), mover);
        match &reply {
            Reply::Edited(number, _) if work == Work::Adds && round % 10 == 0 => {
                let undo = format!(in alloc; "{{\"op\":\"undo\",\"k\":{number}}}").ok()?;
                let undone = ask(rt, alloc, desk, &mut pass, undo.as_str(), mover);
                let Reply::Undone(_, _) = &undone else {
                    return None;
                };
            }
            Reply::Edited(_, _) => {}
            Reply::Answered(Answer::Value(48)) => {}
            _ => return None,
        }
    }
    Some(pass)
}

/// Does the work of every seat, each in a thread of its own: the passes, or nothing where one of them did not end well.
pub(crate) fn all_at_once<L: Opening + Send + Sync, R: Threads + Wait + Sync, M: Mover + Sync>(
    rt: &R,
    alloc: Global,
    desk: &Desk<L>,
    passes: Vec<Pass<L>>,
    work: Work,
    mover: &M,
) -> Option<Vec<Pass<L>>> {
    thread::scope(thread::scope_env(), rt, |scope| -> Option<Vec<Pass<L>>> {
        let mut handles = Vec::new(alloc);
        for pass in passes {
            let handle = scope
                .spawn(move || worked(rt, alloc, desk, pass, work, mover))
                .ok()?;
            handles.push(handle).ok()?;
        }
        let mut back = Vec::new(alloc);
        for handle in handles {
            back.push(handle.join(rt)?).ok()?;
        }
        Some(back)
    })
}
