//! What is told on standard error of connections and of seats. Where that fails, nothing is told.
use std::sync::Wait;
use std::time::{Clock, Instant};
use wb_company::{Company, Went};
use wb_desk::Difference;
use wb_sets::Label;
use wb_visits::{Left, Trace, Why};

/// Tells that a seat is retired, since its pass and the desk first differ there. Nobody has it then, and it is not free.
pub(crate) fn tell_retired<R: Wait + Eprint>(
    rt: &R,
    company: &Company,
    seat: usize,
    why: Difference,
) {
    company.come(rt, seat);
    let place = why.place;
    let _ = eprintln!(rt;
        "workbook: seat {seat} is lent no more, since its pass and the desk differ at entry {place}"
    );
}

/// Tells that the connection of a seat has left, which came then, and whose pass has so many entries.
pub(crate) fn tell_left<R: Wait + Clock + Eprint>(
    rt: &R,
    company: &Company,
    seat: usize,
    entries: usize,
    came: Option<Instant>,
    left: &Left,
) {
    let went = company.leave(rt, seat, entries as u64);
    if company.is_quiet() {
        return;
    }
    if let Some(trace) = left.trace() {
        tell_of(rt, seat, &went, seconds_since(rt, came), trace);
    }
}

// For how many whole seconds it was there; 0 where the clock tells nothing.
fn seconds_since<R: Clock>(rt: &R, came: Option<Instant>) -> u64 {
    let Some(came) = came else {
        return 0;
    };
    match came.elapsed(rt) {
        Ok(passed) => passed.as_secs(),
        Err(_) => 0,
    }
}

// Tells who has left, after how long and why, how many lines it was answered and how many edits it made, undid and redid. A name is
// quoted, which none can end, since it has no quote; what a terminal would obey in it is escaped.
fn tell_of<R: Eprint>(rt: &R, seat: usize, went: &Went, seconds: u64, trace: &Trace) {
    let why = words_of(trace.why());
    let (lines, edits) = (trace.lines(), went.edits);
    let _ = match name_of(&went.name) {
        Some(name) => eprintln!(rt;
            "workbook: seat {seat} ({name:?}) left after {seconds} s: {why}; {lines} lines, {edits} edits"
        ),
        None => eprintln!(rt;
            "workbook: seat {seat} left after {seconds} s: {why}; {lines} lines, {edits} edits"
        ),
    };
}

// The text of a name.
fn name_of(name: &Option<Label>) -> Option<&str> {
    match name {
        Some(name) => Some(name.as_str()),
        None => None,
    }
}

// Why a connection ended, in words.
fn words_of(why: Why) -> &'static str {
    match why {
        Why::Closed => "the desk closed it",
        Why::Ended => "it ended",
        Why::Idle => "it sent nothing for too long",
        Why::Unread => "it read nothing for too long",
        Why::Stopped => "the desk was stopped",
        Why::Failed => "it broke off",
    }
}
