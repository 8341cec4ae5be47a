//! A journal at a path that begins with the text of a history, or is made anew.

use crate::asked::OneFile;
use std::alloc::{AllocError, Global};
use std::net::{Net, TcpListener, TcpStream};
use std::sync::Wait;
use std::test::Fail;
use std::thread::Threads;
use wb_arrays::{Crew, Mover};
use wb_command::{Asked, FilePath};
use wb_connections::Ports;
use wb_keep::START;
use wb_lines::{Input, Output};
use wb_program::do_asked;
use wb_sessions::{FileFault, PutBack, Reason};

// More calls than are made here.
const NEVER: usize = 1000;

// A domain, which is undone.
const HELD: &[u8] =
    b"chapel-workbook 3\n {\"d\":\"D\",\"is\":\"{1..2}\",\"map\":\"none\",\"op\":\"domain\"}\n {\"k\":1,\"op\":\"undo\"}\n#";

// That journal, begun with the text of its history.
const ANEW: &[u8] =
    b"chapel-workbook 3\n {\"op\":\"resume\",\"text\":\"chapel-workbook 2\\nhistory 1\\n- {\\\"d\\\":\\\"D\\\",\\\"is\\\":\\\"{1..2}\\\",\\\"map\\\":\\\"none\\\",\\\"op\\\":\\\"domain\\\"}\\nend\\n\"}\n#";

const BEHIND: &[u8] = b" {\"k\":1,\"op\":\"redo\"}\n#";

const REFUSED: &[u8] = b"refused\n";

// The text of that history, and then two lines.
const INPUT: &[u8] =
    b"chapel-workbook 2\nhistory 1\n- {\"d\":\"D\",\"is\":\"{1..2}\",\"map\":\"none\",\"op\":\"domain\"}\nend\n{\"op\":\"redo\",\"k\":1}\n{\"op\":\"size\",\"d\":\"D\"}\n";

const REPLIES: &[u8] = b"{\"n\":3,\"redone\":1}\n{\"size\":2}\n";

const NO_HISTORY: &[u8] = b"chapel-workbook 2\nhistory 1\nend\n";

// What a command line did with one file.
#[derive(Drop)]
struct Done {
    status: u8,
    fault: Option<FileFault>,
    why: Option<Reason>,
    written: Vec<u8>,
    left: Option<Vec<u8>>,
}

// A session with a journal that begins with the text of a history.
fn begun() -> Asked<'static> {
    Asked::RunKept {
        journal: FilePath::new("plan.wb"),
        resume: true,
        workers: 1,
    }
}

// The journal at a path, made anew.
fn anew(path: &'static str) -> Asked<'static> {
    Asked::Compact {
        journal: FilePath::new(path),
    }
}

// What is asked for, done with one file at `plan.wb`.
fn done_with<
    R: Net<Listener = TcpListener, Stream = TcpStream> + Threads + Wait + Sync,
    M: Mover + Sync,
>(
    rt: &R,
    alloc: Global,
    asked: Asked<'static>,
    held: &'static [u8],
    calls: usize,
    input: &[u8],
    mover: &M,
) -> Result<Done, AllocError> {
    let mut ports = Ports::of(rt);
    let mut files = OneFile::of(alloc, held, calls);
    let mut written = Vec::new(alloc);
    let mut why = None;
    let status = do_asked(
        rt,
        alloc,
        asked,
        &mut ports,
        &mut files,
        &mut PutBack::new(alloc, Input::new(input)),
        &mut Output::new(&mut written),
        mover,
        &mut why,
    );
    let left = match &files.file {
        Some(file) => Some(file.left().to_vec(alloc)?),
        None => None,
    };
    Ok(Done {
        status,
        fault: files.told,
        why,
        written,
        left,
    })
}

// That the file that was given back is this one.
fn has_left(done: &Done, wanted: &[u8]) -> bool {
    match &done.left {
        Some(left) => left.as_slice() == wanted,
        None => false,
    }
}

#[test]
fn a_file_begins_with_a_history(rt: HostRuntime) -> Result<(), Fail> {
    let alone = Crew::alone(&rt);
    let mut wanted = ANEW.strip_suffix(b"#").ok_or("a mark")?.to_vec(rt.alloc())?;
    wanted.extend_from_slice(BEHIND)?;
    // A crash may have left a front of the header.
    for held in [START.as_slice(), b"", b"chapel-work"] {
        let run = done_with(&rt, rt.alloc(), begun(), held, NEVER, INPUT, &alone)?;
        assert!(rt; run.status == 0 && run.fault.is_none());
        assert_eq!(rt; run.written.as_slice(), REPLIES);
        assert!(rt; has_left(&run, &wanted));
    }
    Ok(())
}

#[test]
fn a_history_is_kept_before_anything_is_answered(rt: HostRuntime) -> Result<(), Fail> {
    let alone = Crew::alone(&rt);
    // To open the file takes three calls, and to add its first line two.
    for calls in 0..5 {
        let cut = done_with(&rt, rt.alloc(), begun(), &START, calls, INPUT, &alone)?;
        assert!(rt; cut.status == 3 && cut.fault == Some(FileFault::Failed));
        assert!(rt; cut.written.is_empty());
    }
    let cut = done_with(&rt, rt.alloc(), begun(), &START, 5, INPUT, &alone)?;
    assert!(rt; cut.status == 3 && cut.written.is_empty());
    assert!(rt; has_left(&cut, ANEW));
    Ok(())
}

#[test]
fn a_file_with_a_line_is_not_begun(rt: HostRuntime) -> Result<(), Fail> {
    let alone = Crew::alone(&rt);
    for held in [HELD, ANEW] {
        let refused = done_with(&rt, rt.alloc(), begun(), held, 0, INPUT, &alone)?;
        assert!(rt; refused.status == 3 && refused.fault == Some(FileFault::HasLines));
        assert!(rt; refused.written.is_empty());
        assert!(rt; has_left(&refused, held));
    }
    let foreign = done_with(&rt, rt.alloc(), begun(), b"hello\n", 0, INPUT, &alone)?;
    assert!(rt; foreign.status == 3 && foreign.fault == Some(FileFault::NotOurs));
    assert!(rt; foreign.written.is_empty());
    // Without a history no file is opened.
    for (input, reason) in [
        (NO_HISTORY, Reason::OtherHeading),
        (b"".as_slice(), Reason::NotOurs),
        (b"{\"op\":\"edits\"}\n".as_slice(), Reason::NotOurs),
    ] {
        let none = done_with(&rt, rt.alloc(), begun(), &START, 0, input, &alone)?;
        assert!(rt; none.status == 1 && none.left.is_none() && none.why == Some(reason));
        assert_eq!(rt; none.written.as_slice(), REFUSED);
    }
    Ok(())
}

#[test]
fn a_command_line_makes_a_journal_anew(rt: HostRuntime) -> Result<(), Fail> {
    let alone = Crew::alone(&rt);
    let made = done_with(&rt, rt.alloc(), anew("plan.wb"), HELD, NEVER, b"", &alone)?;
    assert!(rt; made.status == 0 && made.fault.is_none() && made.written.is_empty());
    assert!(rt; has_left(&made, ANEW));
    Ok(())
}

#[test]
fn a_journal_that_is_not_there_is_not_made_anew(rt: HostRuntime) -> Result<(), Fail> {
    let alone = Crew::alone(&rt);
    let none = done_with(&rt, rt.alloc(), anew("plam.wb"), HELD, NEVER, b"", &alone)?;
    assert!(rt; none.status == 3 && none.fault == Some(FileFault::Missing));
    assert!(rt; none.written.is_empty() && none.left.is_none());
    Ok(())
}
