//! Lines and sessions over devices that give or take a byte a call, fail, or hold bytes back.

use crate::devices::{AtLimit, Narrow, OneByOne};
use std::alloc::Global;
use std::io::{self, BufWriter, Read, Write};
use std::process::Abort;
use std::test::Fail;
use wb_arrays::{Crew, Mover};
use wb_history::History;
use wb_lines::{
    Input, Line, LineBuffer, LineFault, NothingHeld, Output, SessionEnd, Sink, next_line, read_all,
};
use wb_machine::session;

const LINES: &[u8] =
    b"{\"op\":\"domain\",\"d\":\"D\",\"is\":\"{1..4}\"}\n{\"op\":\"array\",\"a\":\"A\",\"d\":\"D\"}\n{\"op\":\"set\",\"a\":\"A\",\"i\":4,\"v\":9}\n{\"op\":\"undo\"}\n{\"op\":\"get\",\"a\":\"A\",\"i\":4}\n";

const REPLIES: &[u8] =
    b"{\"edit\":1,\"n\":3}\n{\"edit\":2,\"n\":7}\n{\"edit\":3,\"n\":1}\n{\"n\":1,\"undone\":3}\n{\"value\":0}\n";

// How many of the first bytes end a line.
fn line_ends(bytes: &[u8]) -> u64 {
    let mut ends = 0u64;
    for byte in bytes {
        if *byte == b'\n' {
            ends = ends.wrapping_add(1);
        }
    }
    ends
}

// How many bytes the replies to so many lines have.
fn reply_length(lines: u64) -> usize {
    match lines {
        0 => 0,
        1 => 17,
        2 => 34,
        3 => 51,
        4 => 70,
        _ => 82,
    }
}

// How a session over a new history ends, and how many edits the history has then.
fn ended<R: Read + Drop, W: Write, M: Mover>(
    alloc: Global,
    input: R,
    output: &mut W,
    mover: &M,
) -> (SessionEnd, u64) {
    let mut history = History::new(alloc);
    let end = session(
        alloc,
        &mut history,
        mover,
        &mut Input::new(input),
        &mut Output::new(output),
    );
    (end, history.len())
}

// That a session which reads up to a fault, if there is one, and writes so many bytes, ends so, when so many were sent,
// with so many lines answered, sent or not. The first three are edits.
fn ends_so<M: Mover>(
    rt: &impl Abort,
    alloc: Global,
    failing: Option<usize>,
    output: &mut Narrow,
    wanted: SessionEnd,
    sent: usize,
    answered: u64,
    mover: &M,
) {
    let (end, edits) = ended(alloc, OneByOne::new(LINES, failing), output, mover);
    assert!(rt; end == wanted);
    assert!(rt; REPLIES.get(..sent) == Some(output.taken.as_slice()));
    assert!(rt; edits == answered.min(3));
}

// A reader that fails at each of its bytes, and devices that never fail.
#[test]
fn failing_reads(rt: HostRuntime) {
    let alloc = rt.alloc();
    let alone = Crew::alone(&rt);
    for at in 0..LINES.len() {
        let whole = line_ends(&LINES[..at]);
        let mut output = Narrow::new(alloc, REPLIES.len(), AtLimit::FailsToWrite);
        let end = SessionEnd::ReadFault(whole);
        let sent = reply_length(whole);
        ends_so(&rt, alloc, Some(at), &mut output, end, sent, whole, &alone);
    }
    let mut output = Narrow::new(alloc, REPLIES.len(), AtLimit::FailsToWrite);
    let end = SessionEnd::Done(5);
    ends_so(&rt, alloc, None, &mut output, end, 82, 5, &alone);
}

// A writer that fails or takes nothing after each of its bytes: the line is done then, though its reply is not sent whole.
#[test]
fn failing_writes(rt: HostRuntime) {
    let alloc = rt.alloc();
    let alone = Crew::alone(&rt);
    for limit in 0..REPLIES.len() {
        let whole = line_ends(&REPLIES[..limit]);
        for then in [AtLimit::FailsToWrite, AtLimit::TakesNothing] {
            let mut output = Narrow::new(alloc, limit, then);
            let end = SessionEnd::WriteFault(whole);
            let answered = whole.wrapping_add(1);
            ends_so(&rt, alloc, None, &mut output, end, limit, answered, &alone);
        }
    }
}

// Before it waits for more input, a session sends on what its writer holds back; where that fails, it ends.
#[test]
fn flushes_before_it_waits(rt: HostRuntime) -> Result<(), Fail> {
    let alloc = rt.alloc();
    let alone = Crew::alone(&rt);
    for (failing, limit, wanted, sent) in [
        (Some(79), REPLIES.len(), SessionEnd::ReadFault(2), 34),
        (None, 5, SessionEnd::WriteFault(1), 5),
    ] {
        let narrow = Narrow::new(alloc, limit, AtLimit::FailsToWrite);
        let mut output = BufWriter::new(alloc, narrow)?;
        let input = OneByOne::new(LINES, failing);
        let (end, _) = ended(alloc, input, &mut output, &alone);
        assert!(rt; end == wanted);
        assert!(rt; REPLIES.get(..sent) == Some(output.get_ref().taken.as_slice()));
    }
    Ok(())
}

// A line may have 65,536 bytes, and the last one needs no end.
#[test]
fn gives_lines_at_their_limit(rt: HostRuntime) -> Result<(), Fail> {
    let alloc = rt.alloc();
    let mut text = Vec::new(alloc);
    text.resize(65_536, b'a')?;
    text.extend_from_slice(b"\nb")?;
    let mut input = Input::new(text.as_slice());
    let mut nowhere = Output::new(io::sink());
    nowhere.flush()?;
    let mut buffer = LineBuffer::new(alloc);
    for (line, length) in [
        (Line::Whole, 65_536),
        (Line::Whole, 1),
        (Line::End, 0),
        (Line::End, 0),
    ] {
        assert!(rt; next_line(&mut input, &nowhere, &NothingHeld, &mut buffer) == Ok(line));
        assert!(rt; buffer.line().len() == length);
        assert!(rt; !buffer.has_line());
    }
    Ok(())
}

// A device of a byte a call is read whole, or up to its fault.
#[test]
fn reads_a_byte_a_call(rt: HostRuntime) -> Result<(), Fail> {
    let alloc = rt.alloc();
    let read = read_all(alloc, &mut Input::new(OneByOne::new(LINES, None)))?;
    assert!(rt; read.as_slice() == LINES);
    let failed = read_all(alloc, &mut Input::new(OneByOne::new(LINES, Some(9))));
    assert!(rt; matches!(failed, Err(LineFault::ReadFault)));
    Ok(())
}
