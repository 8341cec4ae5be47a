//! Days of a desk with a journal in a file in memory, on connections in memory: two seats, of which one is cut within a line; a
//! day that goes on from the journal; a file that fails in a call; files that are refused.
ghost use Rattle.std.specs.Prelude.{◌≡◌, ◌<◌, false};

use std::alloc::{AllocError, Global};
use std::io::{self, ErrorKind, Read, Write};
use std::sync::{Mutex, Wait};
use std::test::Fail;
use std::thread::{SpawnError, Threads};
use wb_arrays::{Crew, Mover};
use wb_connections::{AcceptErr, Accepts, Binds};
use wb_keep::START;
use wb_keep::disk::MemoryFile;
use wb_lines::{Input, Output};
use wb_program::host_kept_with;
use wb_sessions::{FileFault, KeptRun};

// More calls than a day makes here.
const NEVER: usize = 1000;

const LINES: &[u8] =
    b"{\"op\":\"domain\",\"d\":\"D\",\"is\":\"{1..2}\"}\n{\"op\":\"array\",\"a\":\"A\",\"d\":\"D\"}\n{\"op\":\"set\",\"a\":\"A\",\"i\":1,\"v\":5}\n{\"op\":\"get\",\"a\":\"A\",\"i\":1}\n";

const REPLIES: &[u8] =
    b"{\"edit\":1,\"n\":3}\n{\"edit\":2,\"n\":5}\n{\"edit\":3,\"n\":1}\n{\"value\":5}\n";

const JOURNAL: &[u8] =
    b"chapel-workbook 3\n {\"d\":\"D\",\"is\":\"{1..2}\",\"map\":\"none\",\"op\":\"domain\"}\n {\"a\":\"A\",\"d\":\"D\",\"op\":\"array\"}\n {\"a\":\"A\",\"i\":1,\"op\":\"set\",\"v\":5}\n#";

const PRINTED: &[u8] =
    b"listening on 127.0.0.1:7000\nsettled 4\nchapel-workbook 1\narray A over D [5, 0]\nrect D {1..2} none\nend\n";

// A line that is no request, and a part of one.
const CUT: &[u8] = b"hello\n{\"op\":\"ge";

const NO_REQUEST: &[u8] = b"{\"error\":\"E01\",\"name\":\"bad-request\"}\n";

const UNDO: &[u8] = b"{\"op\":\"undo\"}\n";

const UNDONE: &[u8] = b"{\"n\":1,\"undone\":3}\n";

const PRINTED_AFTER: &[u8] =
    b"listening on 127.0.0.1:7000\nsettled 1\nchapel-workbook 1\narray A over D [0, 0]\nrect D {1..2} none\nend\n";

const LAST_LINE: &[u8] = b" {\"k\":3,\"op\":\"undo\"}\n#";

// The journal before each of its changes, and behind the last.
const FRONTS: [&[u8]; 4] = [
    b"chapel-workbook 3\n#",
    b"chapel-workbook 3\n {\"d\":\"D\",\"is\":\"{1..2}\",\"map\":\"none\",\"op\":\"domain\"}\n#",
    b"chapel-workbook 3\n {\"d\":\"D\",\"is\":\"{1..2}\",\"map\":\"none\",\"op\":\"domain\"}\n {\"a\":\"A\",\"d\":\"D\",\"op\":\"array\"}\n#",
    JOURNAL,
];

// Gives a line a read, and fails after the last of them, which is a part of one.
#[derive(Drop)]
struct Lines<'a> {
    rest: &'a [u8],
}

impl<'a> Read for Lines<'a> {
    fn read(&mut self, buf: &mut [u8]) -> io::Result<usize> {
        let line = match self.rest.iter().position(|byte| *byte == b'\n') {
            Some(at) => at + 1,
            None => self.rest.len(),
        };
        if line == 0 || line < self.rest.len() || self.rest.ends_with(b"\n") {
            let n = line.min(buf.len());
            buf[..n].copy_from_slice(&self.rest[..n]);
            self.rest = &self.rest[n..];
            return Ok(n);
        }
        Err(io::Error::from(ErrorKind::ConnectionReset))
    }
}

// Writes to a text that another thread may look at.
#[derive(Drop)]
struct Pen<'a> {
    text: &'a Mutex<Vec<u8>>,
}

impl<'a> Write for Pen<'a> {
    fn write(&mut self, buf: &[u8]) -> io::Result<usize> {
        match self.text.try_lock() {
            Some(mut text) => {
                text.extend_from_slice(buf)?;
                Ok(buf.len())
            }
            None => Err(io::Error::from(ErrorKind::WouldBlock)),
        }
    }

    fn flush(&mut self) -> io::Result<()> {
        Ok(())
    }
}

// The connections of two seats, of which so many came.
#[derive(Drop)]
struct Pair<'a> {
    lines_one: &'a [u8],
    lines_two: &'a [u8],
    one: &'a Mutex<Vec<u8>>,
    two: &'a Mutex<Vec<u8>>,
    accepted: u64,
    has_failed: bool,
}

impl<'a> Accepts<Input<Lines<'a>>, Output<Pen<'a>>> for Pair<'a> {
    ghost came = { λ s k i o. k < s.accepted };

    ghost accepted = { λ s. s.accepted };

    ghost failed = { λ s. s.has_failed };

    fn accept(&mut self, _alloc: Global) -> Result<(Input<Lines<'a>>, Output<Pen<'a>>), AcceptErr> {
        self.has_failed = true;
        let Some(accepted) = self.accepted.checked_add(1) else {
            return Err(AcceptErr::Failed);
        };
        let (lines, text) = match accepted {
            1 => (self.lines_one, self.one),
            2 => (self.lines_two, self.two),
            _ => return Err(AcceptErr::Failed),
        };
        self.accepted = accepted;
        self.has_failed = false;
        Ok((Input::new(Lines { rest: lines }), Output::new(Pen { text })))
    }

    fn note_refused<F>(&mut self, refused: &SpawnError<F>) {
        let _ = refused;
        self.has_failed = true;
    }
}

// The port on which they come.
#[derive(Drop)]
struct Port<'a> {
    lines_one: &'a [u8],
    lines_two: &'a [u8],
    one: &'a Mutex<Vec<u8>>,
    two: &'a Mutex<Vec<u8>>,
}

impl<'a> Binds<Pair<'a>, Input<Lines<'a>>, Output<Pen<'a>>> for Port<'a> {
    ghost failed = { λ s. false };

    fn bind(&mut self, port: u16) -> Result<(Pair<'a>, u16), AcceptErr> {
        let pair = Pair {
            lines_one: self.lines_one,
            lines_two: self.lines_two,
            one: self.one,
            two: self.two,
            accepted: 0,
            has_failed: false,
        };
        Ok((pair, port))
    }
}

// How a day came out: the exit status, what was told of the file, what each seat was told, what was printed, and what is left of
// the file.
#[derive(Drop)]
struct Day {
    status: u8,
    fault: Option<FileFault>,
    one: Vec<u8>,
    two: Vec<u8>,
    printed: Vec<u8>,
    left: Vec<u8>,
}

// A day of two seats, on a file that holds these bytes and does so many calls.
fn served_day<R: Threads + Wait + Sync, M: Mover + Sync>(
    rt: &R,
    alloc: Global,
    held: &[u8],
    lines: [&[u8]; 2],
    done: usize,
    mover: &M,
) -> Result<Day, AllocError> {
    let one = Mutex::new(Vec::new(alloc));
    let two = Mutex::new(Vec::new(alloc));
    let file = MemoryFile::new(alloc, held.to_vec(alloc)?, done, 0);
    let mut printed = Vec::new(alloc);
    let KeptRun {
        status,
        fault,
        file,
    } = host_kept_with(
        rt,
        alloc,
        &mut Port {
            lines_one: lines[0],
            lines_two: lines[1],
            one: &one,
            two: &two,
        },
        7000,
        2,
        file,
        held,
        &mut Output::new(&mut printed),
        mover,
    );
    let left = file.left().to_vec(alloc)?;
    Ok(Day {
        status,
        fault,
        one: one.into_inner(),
        two: two.into_inner(),
        printed,
        left,
    })
}

#[test]
fn a_day_is_kept_and_gone_on_with(rt: HostRuntime) -> Result<(), Fail> {
    let alone = Crew::alone(&rt);
    let kept = served_day(&rt, rt.alloc(), &START, [LINES, CUT], NEVER, &alone)?;
    assert!(rt; kept.status == 0 && kept.fault.is_none());
    assert_eq!(rt; kept.one.as_slice(), REPLIES);
    assert_eq!(rt; kept.two.as_slice(), NO_REQUEST);
    assert_eq!(rt; kept.printed.as_slice(), PRINTED);
    assert_eq!(rt; kept.left.as_slice(), JOURNAL);
    let more = served_day(&rt, rt.alloc(), &kept.left, [UNDO, b""], NEVER, &alone)?;
    assert!(rt; more.status == 0 && more.fault.is_none());
    assert_eq!(rt; more.one.as_slice(), UNDONE);
    assert!(rt; more.two.is_empty());
    assert_eq!(rt; more.printed.as_slice(), PRINTED_AFTER);
    assert_eq!(rt;
        more.left
            .strip_prefix(JOURNAL.strip_suffix(b"#").ok_or("a mark")?)
            .ok_or("a front")?,
        LAST_LINE
    );
    Ok(())
}

// To open the file takes three calls, and each of the three turns that change something two. What was replied is in the file, and
// nothing was printed.
#[test]
fn a_file_fails_in_a_call(rt: HostRuntime) -> Result<(), Fail> {
    let alone = Crew::alone(&rt);
    for call in 3..9usize {
        let cut = served_day(&rt, rt.alloc(), &START, [LINES, b""], call, &alone)?;
        assert!(rt; cut.status == 3 && cut.fault == Some(FileFault::Failed));
        assert_eq!(rt;
            cut.printed.as_slice(),
            b"listening on 127.0.0.1:7000\n".as_slice()
        );
        assert!(rt; REPLIES.starts_with(&cut.one));
        let told = cut.one.iter().filter(|byte| **byte == b'\n').count();
        assert_eq!(rt; told, (call - 3) / 2);
        let again = served_day(&rt, rt.alloc(), &cut.left, [b"", b""], NEVER, &alone)?;
        assert!(rt; again.status == 0);
        let fewer = FRONTS.get(told).ok_or("so many changes")?;
        let more = FRONTS.get(told + 1).unwrap_or(fewer);
        assert!(rt; again.left.as_slice() == *fewer || again.left.as_slice() == *more);
    }
    Ok(())
}

#[test]
fn files_are_refused_before_a_port_is_told(rt: HostRuntime) -> Result<(), Fail> {
    let alone = Crew::alone(&rt);
    // (The file does no call, so a call on it would be told as a fault.)
    let foreign = served_day(&rt, rt.alloc(), b"hello\n", [LINES, b""], 0, &alone)?;
    assert!(rt; foreign.status == 3 && foreign.fault == Some(FileFault::NotOurs));
    assert!(rt; foreign.printed.is_empty() && foreign.one.is_empty());
    let strange = b"chapel-workbook 3\n {\"k\":1,\"op\":\"undo\"}\n#".as_slice();
    let refused = served_day(&rt, rt.alloc(), strange, [LINES, b""], 0, &alone)?;
    assert!(rt; refused.status == 1 && refused.fault == Some(FileFault::NotGranted(0)));
    assert_eq!(rt; refused.printed.as_slice(), b"refused\n".as_slice());
    assert_eq!(rt; refused.left.as_slice(), strange);
    Ok(())
}
