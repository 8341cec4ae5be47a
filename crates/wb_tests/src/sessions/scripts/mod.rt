//! Worked histories, line by line, and what becomes of lines that are broken.

mod cascades;
mod examples;
mod explains;
mod histories;
mod loads;
mod mappings;
mod members;
mod puts;
mod reductions;
mod requests;
mod reshapes;
mod sessions;
mod texts;
mod transactions;

use std::alloc::Global;
use std::process::Abort;
use std::test::Fail;
use wb_arrays::{Crew, Mover};
use wb_history::History;
use wb_lines::{Input, Output, SessionEnd};
use wb_machine::session;

const NO_MEMORY: &str = "{\"error\":\"E90\",\"name\":\"no-memory\"}\n";

// Lines over which a history begins, and those that follow, each with ` -> ` and what it is replied; and how many edits
// there are then, and how many cells were set.
type Script = (&'static str, &'static str, u64, u128);

// What a session over these bytes writes.
fn replies_to<M: Mover>(
    alloc: Global,
    history: &mut History,
    bytes: &[u8],
    mover: &M,
) -> Result<String, Fail> {
    let mut output = Vec::new(alloc);
    session(
        alloc,
        history,
        mover,
        &mut Input::new(bytes),
        &mut Output::new(&mut output),
    );
    Ok(String::from_str(alloc, std::str::from_utf8(&output)?)?)
}

// What one line is replied. Where a growth is refused, nothing has changed, and the line is sent again.
fn answer<M: Mover>(
    rt: &impl Abort,
    alloc: Global,
    history: &mut History,
    line: &str,
    mover: &M,
) -> Result<String, Fail> {
    let before = (history.len(), history.book().writes());
    let reply = replies_to(alloc, history, line.as_bytes(), mover)?;
    if reply.as_str() != NO_MEMORY {
        return Ok(reply);
    }
    assert!(rt; before == (history.len(), history.book().writes()));
    replies_to(alloc, history, line.as_bytes(), mover)
}

/// That each line is replied as its row says.
pub fn play<M: Mover>(
    rt: &impl Abort,
    alloc: Global,
    history: &mut History,
    rows: &str,
    mover: &M,
) -> Result<(), Fail> {
    for row in rows.trim().lines() {
        let (line, reply) = row.split_once(" -> ").ok_or("an arrow")?;
        let answer = answer(rt, alloc, history, line, mover)?;
        assert!(rt;
            answer.as_str().strip_suffix('\n') == Some(reply),
            "{line} -> {answer}"
        );
    }
    Ok(())
}

// Plays lines over a new history, and counts its edits and the cells that were set.
fn played<M: Mover>(
    rt: &impl Abort,
    alloc: Global,
    opening: &str,
    rows: &str,
    mover: &M,
) -> Result<(u64, u128), Fail> {
    let mut history = History::new(alloc);
    play(rt, alloc, &mut history, opening, mover)?;
    play(rt, alloc, &mut history, rows, mover)?;
    Ok((history.len(), history.book().writes()))
}

// That each script, over a history of its own, goes as it says.
fn play_all<M: Mover>(
    rt: &impl Abort,
    alloc: Global,
    scripts: &[Script],
    mover: &M,
) -> Result<(), Fail> {
    for (opening, rows, edits, writes) in scripts {
        let counts = played(rt, alloc, opening, rows, mover)?;
        assert!(rt; counts == (*edits, *writes), "{rows}");
    }
    Ok(())
}

// That every script goes as it says.
fn play_each<M: Mover>(rt: &impl Abort, alloc: Global, mover: &M) -> Result<(), Fail> {
    for scripts in [
        sessions::SCRIPTS.as_slice(),
        requests::SCRIPTS.as_slice(),
        histories::SCRIPTS.as_slice(),
        cascades::SCRIPTS.as_slice(),
        members::SCRIPTS.as_slice(),
        puts::SCRIPTS.as_slice(),
        reshapes::SCRIPTS.as_slice(),
        mappings::SCRIPTS.as_slice(),
        reductions::SCRIPTS.as_slice(),
        texts::SCRIPTS.as_slice(),
        loads::SCRIPTS.as_slice(),
        examples::SCRIPTS.as_slice(),
        explains::SCRIPTS.as_slice(),
        transactions::SCRIPTS.as_slice(),
    ] {
        play_all(rt, alloc, scripts, mover)?;
    }
    Ok(())
}

// By one thread and by four workers alike.
#[test]
fn worked_histories(rt: HostRuntime) -> Result<(), Fail> {
    let alone = Crew::alone(&rt);
    play_each(&rt, rt.alloc(), &alone)?;
    play_each(&rt, rt.alloc(), &Crew::new(&rt, 4)?)
}

// That a session over these bytes writes this text, having answered so many lines.
fn goes_so<M: Mover>(
    rt: &impl Abort,
    alloc: Global,
    bytes: &[u8],
    text: &str,
    count: u64,
    mover: &M,
) {
    let mut output = Vec::new(alloc);
    let end = session(
        alloc,
        &mut History::new(alloc),
        mover,
        &mut Input::new(bytes),
        &mut Output::new(&mut output),
    );
    assert!(rt; end == SessionEnd::Done(count));
    assert!(rt; output.as_slice() == text.as_bytes());
}

const LONG_AMONG_OTHERS: &str =
    "{\"error\":\"E01\",\"name\":\"bad-request\"}\n{\"error\":\"E91\",\"name\":\"line-too-long\"}\n{\"error\":\"E04\",\"name\":\"no-such-name\"}\n{\"error\":\"E01\",\"name\":\"bad-request\"}\n";

const NO_TEXT: &[u8] =
    b"\n{\"op\":\"undo\",\"k\":\"\xff\"}\n\xef\xbb\xbf{\"op\":\"undo\"}\n{\"op\":\"undo\"}\r\n";

const NO_TEXT_REPLIES: &str =
    "{\"error\":\"E01\",\"name\":\"bad-request\"}\n{\"error\":\"E01\",\"name\":\"bad-request\"}\n{\"error\":\"E01\",\"name\":\"bad-request\"}\n{\"error\":\"E11\",\"name\":\"no-such-edit\"}\n";

// Lines that are empty, no text or no JSON, a line that is too long, and a line end of two bytes.
#[test]
fn broken_lines(rt: HostRuntime) -> Result<(), Fail> {
    let alloc = rt.alloc();
    let mut lines = Vec::from_slice(alloc, b"{\"op\":\"domain\",\"d\":\"D\"\n")?;
    for _ in 0..65_537u32 {
        lines.push(b' ')?;
    }
    lines.extend_from_slice(b"\n{\"op\":\"size\",\"d\":\"D\"}\n{\"op\":\"pri")?;
    let alone = Crew::alone(&rt);
    goes_so(&rt, alloc, lines.as_slice(), LONG_AMONG_OTHERS, 4, &alone);
    goes_so(&rt, alloc, NO_TEXT, NO_TEXT_REPLIES, 4, &alone);
    Ok(())
}
