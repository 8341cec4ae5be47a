//! Sessions with a journal in a file in memory: kept, gone on with, cut off in each call, and files that are refused.

use std::alloc::{AllocError, Global};
use std::io::{self, Read};
use std::process::Abort;
use std::test::Fail;
use wb_arrays::{Crew, Mover};
use wb_keep::START;
use wb_keep::disk::MemoryFile;
use wb_lines::{Input, Output};
use wb_sessions::{FileFault, Reason, check_with, run_kept_with};

// More calls than a session makes here.
const NEVER: usize = 1000;

const LINES: &[u8] =
    b"{\"op\":\"domain\",\"d\":\"D\",\"is\":\"{1..4}\"}\n{\"op\":\"array\",\"a\":\"A\",\"d\":\"D\"}\n{\"op\":\"set\",\"a\":\"A\",\"i\":1,\"v\":5}\n{\"op\":\"copy\",\"a\":\"A\",\"i\":2,\"b\":\"A\",\"j\":1,\"c\":1}\n{\"op\":\"get\",\"a\":\"A\",\"i\":2}\n{\"op\":\"undo\",\"k\":3}\n{\"op\":\"undo\"}\n{\"op\":\"redo\",\"k\":4}\n{\"op\":\"cascade\",\"k\":3}\n";

const REPLIES: &[u8] =
    b"{\"edit\":1,\"n\":3}\n{\"edit\":2,\"n\":7}\n{\"edit\":3,\"n\":1}\n{\"edit\":4,\"n\":1}\n{\"value\":6}\n{\"by\":4,\"error\":\"E14\",\"name\":\"blocked\"}\n{\"n\":1,\"undone\":4}\n{\"n\":1,\"redone\":4}\n{\"n\":2,\"undone\":[4,3]}\n";

// How many changes there are after so many of these lines. The question and the refusal make none, and the cascade two.
const CHANGES: [usize; 10] = [0, 1, 2, 3, 4, 4, 4, 5, 6, 8];

const JOURNAL: &[u8] =
    b"chapel-workbook 3\n {\"d\":\"D\",\"is\":\"{1..4}\",\"map\":\"none\",\"op\":\"domain\"}\n {\"a\":\"A\",\"d\":\"D\",\"op\":\"array\"}\n {\"a\":\"A\",\"i\":1,\"op\":\"set\",\"v\":5}\n {\"a\":\"A\",\"b\":\"A\",\"c\":1,\"i\":2,\"j\":1,\"op\":\"copy\"}\n {\"k\":4,\"op\":\"undo\"}\n {\"k\":4,\"op\":\"redo\"}\n+{\"k\":4,\"op\":\"undo\"}\n {\"k\":3,\"op\":\"undo\"}\n#";

const MORE: &[u8] = b"{\"op\":\"get\",\"a\":\"A\",\"i\":1}\n{\"op\":\"redo\",\"k\":3}\n";

const MORE_REPLIES: &[u8] = b"{\"value\":0}\n{\"n\":1,\"redone\":3}\n";

const REFUSED: &[u8] = b"refused\n";

// A front of the header.
const BEGUN: &[u8] = b"chapel-workbook 3";

// Files of another kind.
const FOREIGN: [&[u8]; 3] = [b"hello\n", b"chapel-workbook 2\nhistory 0\nend\n", b" "];

// Journals with a line that is not granted: an undo of no edit, a question, and no request.
const NOT_GRANTED: [&[u8]; 4] = [
    b"chapel-workbook 3\n {\"k\":1,\"op\":\"undo\"}\n#",
    b"chapel-workbook 3\n {\"op\":\"undo\"}\n#",
    b"chapel-workbook 3\n {\"op\":\"edits\"}\n#",
    b"chapel-workbook 3\n up\n#",
];

// Gives a line a read.
#[derive(Drop)]
struct ByLine<'a> {
    rest: &'a [u8],
}

impl<'a> Read for ByLine<'a> {
    fn read(&mut self, buf: &mut [u8]) -> io::Result<usize> {
        let line = match self.rest.iter().position(|byte| *byte == b'\n') {
            Some(at) => at + 1,
            None => self.rest.len(),
        };
        let n = line.min(buf.len());
        buf[..n].copy_from_slice(&self.rest[..n]);
        self.rest = &self.rest[n..];
        Ok(n)
    }
}

// How a session came out, what it wrote, and what is left of its file.
#[derive(Drop)]
struct Outcome {
    status: u8,
    fault: Option<FileFault>,
    written: Vec<u8>,
    left: Vec<u8>,
}

// A session of these lines on a file that holds these bytes, and does so many calls, and of the next write `torn` bytes.
fn session<M: Mover>(
    alloc: Global,
    held: &[u8],
    lines: &[u8],
    done: usize,
    torn: usize,
    mover: &M,
) -> Result<Outcome, AllocError> {
    let file = MemoryFile::new(alloc, held.to_vec(alloc)?, done, torn);
    let mut written = Vec::new(alloc);
    let mut input = Input::new(ByLine { rest: lines });
    let run = run_kept_with(
        alloc,
        file,
        held,
        &mut input,
        &mut Output::new(&mut written),
        mover,
    );
    let left = run.file.left().to_vec(alloc)?;
    Ok(Outcome {
        status: run.status,
        fault: run.fault,
        written,
        left,
    })
}

// The journal with its first so many changes.
fn front(alloc: Global, changes: usize) -> Result<Vec<u8>, AllocError> {
    let mut file = Vec::new(alloc);
    for line in JOURNAL
        .split(|byte| *byte == b'\n')
        .take(changes.saturating_add(1))
    {
        file.extend_from_slice(line)?;
        file.push(b'\n')?;
    }
    file.push(b'#')?;
    Ok(file)
}

#[test]
fn a_session_is_kept_and_gone_on_with(rt: HostRuntime) -> Result<(), Fail> {
    let alone = Crew::alone(&rt);
    let kept = session(rt.alloc(), &START, LINES, NEVER, 0, &alone)?;
    assert!(rt; kept.status == 0 && kept.fault.is_none());
    assert_eq!(rt; kept.written.as_slice(), REPLIES);
    assert_eq!(rt; kept.left.as_slice(), JOURNAL);
    let more = session(rt.alloc(), &kept.left, MORE, NEVER, 0, &alone)?;
    assert!(rt; more.status == 0 && more.fault.is_none());
    assert_eq!(rt; more.written.as_slice(), MORE_REPLIES);
    assert_eq!(rt;
        more.left
            .strip_prefix(JOURNAL.strip_suffix(b"#").ok_or("a mark")?)
            .ok_or("a front")?,
        b" {\"k\":3,\"op\":\"redo\"}\n#".as_slice()
    );
    Ok(())
}

// What a crash left of a session is opened: each change whose reply was written is there, and of the others those of one turn
// at most, all of them.
fn stands<M: Mover>(rt: &impl Abort, alloc: Global, cut: &Outcome, mover: &M) -> Result<(), Fail> {
    assert!(rt; REPLIES.starts_with(&cut.written));
    let told = cut.written.iter().filter(|byte| **byte == b'\n').count();
    let again = session(alloc, &cut.left, b"", NEVER, 0, mover)?;
    assert!(rt; again.status == 0);
    let least = CHANGES.get(told).ok_or("so many replies")?;
    let most = CHANGES.get(told + 1).unwrap_or(least);
    let (fewer, more) = (front(alloc, *least)?, front(alloc, *most)?);
    assert!(rt;
        again.left.as_slice() == fewer.as_slice() || again.left.as_slice() == more.as_slice()
    );
    Ok(())
}

// After how many bytes a call is cut off. To open a file takes the first three: to cut, to write, to sync. Then they come in twos: to
// write, to sync.
fn most_torn(call: usize) -> usize {
    if call % 2 == 1 { 60 } else { 2 }
}

#[test]
fn a_session_is_cut_off_in_each_call(rt: HostRuntime) -> Result<(), Fail> {
    let alone = Crew::alone(&rt);
    for call in 0..19 {
        for torn in 0..most_torn(call) {
            let cut = session(rt.alloc(), &START, LINES, call, torn, &alone)?;
            // (Seven lines make changes, and seventeen calls are all that are made.)
            assert!(rt; cut.status == if call < 17 { 3 } else { 0 });
            assert!(rt;
                cut.fault
                    == if call < 17 {
                        Some(FileFault::Failed)
                    } else {
                        None
                    }
            );
            stands(&rt, rt.alloc(), &cut, &alone)?;
        }
    }
    Ok(())
}

#[test]
fn an_end_that_a_crash_left_is_put_right(rt: HostRuntime) -> Result<(), Fail> {
    let alone = Crew::alone(&rt);
    let whole = front(rt.alloc(), 2)?;
    let mut torn = front(rt.alloc(), 2)?;
    torn.extend_from_slice(b" {\"a\":\"A\",\"i\":1,\"op\":\"se")?;
    let opened = session(rt.alloc(), &torn, b"", NEVER, 0, &alone)?;
    assert!(rt; opened.status == 0);
    assert_eq!(rt; opened.left.as_slice(), whole.as_slice());
    for held in [b"".as_slice(), BEGUN] {
        let begun = session(rt.alloc(), held, b"", NEVER, 0, &alone)?;
        assert!(rt; begun.status == 0);
        assert_eq!(rt; begun.left.as_slice(), START.as_slice());
    }
    Ok(())
}

#[test]
fn files_are_refused_untouched(rt: HostRuntime) -> Result<(), Fail> {
    let alone = Crew::alone(&rt);
    // (The file does no call, so a call on it would be told as a fault.)
    for held in &FOREIGN {
        let refused = session(rt.alloc(), held, LINES, 0, 0, &alone)?;
        assert!(rt; refused.status == 3 && refused.written.is_empty());
        assert!(rt; refused.fault == Some(FileFault::NotOurs));
        assert_eq!(rt; refused.left.as_slice(), *held);
    }
    for held in &NOT_GRANTED {
        let refused = session(rt.alloc(), held, LINES, 0, 0, &alone)?;
        assert!(rt; refused.status == 1 && refused.fault == Some(FileFault::NotGranted(0)));
        assert_eq!(rt; refused.written.as_slice(), REFUSED);
        assert_eq!(rt; refused.left.as_slice(), *held);
    }
    let mut later = front(rt.alloc(), 2)?;
    let _ = later.pop();
    later.extend_from_slice(b" up\n#")?;
    let refused = session(rt.alloc(), &later, LINES, 0, 0, &alone)?;
    assert!(rt; refused.status == 1 && refused.fault == Some(FileFault::NotGranted(2)));
    Ok(())
}

// The exit status of `check` of a text, what it prints, and why it refuses the text.
fn judged<M: Mover>(alloc: Global, text: &[u8], mover: &M) -> (u8, Vec<u8>, Option<Reason>) {
    let mut output = Vec::new(alloc);
    let mut why = None;
    let mut input = Input::new(text);
    let status = check_with(
        alloc,
        &mut input,
        &mut Output::new(&mut output),
        mover,
        &mut why,
    );
    (status, output, why)
}

// Journals with a line that is not granted behind so many that are, and one that is cut off behind it.
const NOT_GRANTED_LATER: [(&[u8], usize); 3] = [
    (
        b"chapel-workbook 3\n {\"d\":\"D\",\"is\":\"{1..4}\",\"map\":\"none\",\"op\":\"domain\"}\n up\n#",
        1,
    ),
    (
        b"chapel-workbook 3\n+{\"d\":\"D\",\"is\":\"{1..4}\",\"map\":\"none\",\"op\":\"domain\"}\n+{\"a\":\"A\",\"d\":\"D\",\"op\":\"array\"}\n {\"k\":3,\"op\":\"undo\"}\n up\n#",
        2,
    ),
    (
        b"chapel-workbook 3\n {\"d\":\"D\",\"is\":\"{1..4}\",\"map\":\"none\",\"op\":\"domain\"}\n {\"k\":1,\"op\":\"redo\"}\n half a li",
        1,
    ),
];

#[test]
fn journals_are_judged(rt: HostRuntime) -> Result<(), Fail> {
    let alloc = rt.alloc();
    let alone = Crew::alone(&rt);
    let mut torn = front(alloc, 2)?;
    torn.push(0xff)?;
    for (text, printed) in [
        (JOURNAL, b"ok 2 4\n".as_slice()),
        (START.as_slice(), b"ok 0 0\n".as_slice()),
        (torn.as_slice(), b"ok 2 2\n".as_slice()),
    ] {
        let (status, output, why) = judged(alloc, text, &alone);
        assert!(rt; status == 0 && why.is_none());
        assert_eq!(rt; output.as_slice(), printed);
    }
    for text in &NOT_GRANTED {
        let (status, output, why) = judged(alloc, text, &alone);
        assert!(rt; status == 1 && why == Some(Reason::NotGranted(0)));
        assert_eq!(rt; output.as_slice(), REFUSED);
    }
    for (text, place) in &NOT_GRANTED_LATER {
        let (status, output, why) = judged(alloc, text, &alone);
        assert!(rt; status == 1 && why == Some(Reason::NotGranted(*place)));
        assert_eq!(rt; output.as_slice(), REFUSED);
    }
    // It is opened as a journal that was begun, and is none as it stands.
    let (status, output, why) = judged(alloc, BEGUN, &alone);
    assert!(rt; status == 1 && why == Some(Reason::CutShort));
    assert_eq!(rt; output.as_slice(), REFUSED);
    Ok(())
}
