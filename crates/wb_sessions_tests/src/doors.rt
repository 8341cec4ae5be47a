//! What is heard of a connection at a desk: all of it where its first line begins as an object, and else that line alone.
ghost use Rattle.std.specs.Prelude.{◌≡◌, ◌<◌};

use std::alloc::{AllocError, Global};
use std::io::{self, Read, Write};
use std::sync::{Mutex, Wait};
use std::test::Fail;
use std::thread::{SpawnError, Threads};
use wb_arrays::{Crew, Mover};
use wb_connections::{AcceptErr, Accepts};
use wb_lines::{Input, Output};
use wb_seats::serve_on;

// Of a page in a browser.
const POST: &[u8] =
    b"POST / HTTP/1.1\r\nHost: 127.0.0.1:7000\r\nContent-Type: text/plain\r\nContent-Length: 38\r\n\r\n{\"op\":\"domain\",\"d\":\"D\",\"is\":\"{1..4}\"}\n";

const GET: &[u8] = b"GET / HTTP/1.1\r\nHost: 127.0.0.1:7000\r\n\r\n";

const BAD_REQUEST: &[u8] = b"{\"error\":\"E01\",\"name\":\"bad-request\"}\n";

const TOO_LONG: &[u8] = b"{\"error\":\"E91\",\"name\":\"line-too-long\"}\n";

const TOO_LONG_AND_EDITED: &[u8] =
    b"{\"error\":\"E91\",\"name\":\"line-too-long\"}\n{\"edit\":1,\"n\":3}\n";

const BAD_REQUEST_AND_EDITED: &[u8] =
    b"{\"error\":\"E01\",\"name\":\"bad-request\"}\n{\"edit\":1,\"n\":3}\n";

const EDITED: &[u8] = b"{\"edit\":1,\"n\":3}\n";

const EDIT: &[u8] = b"{\"op\":\"domain\",\"d\":\"D\",\"is\":\"{1..4}\"}\n";

const NOTHING_DONE: &[u8] = b"settled 0\nchapel-workbook 1\nend\n";

const ONE_EDIT: &[u8] = b"settled 1\nchapel-workbook 1\nrect D {1..4} none\nend\n";

// A front of what comes, with an edit behind it, and what is told. Where the edit is heard, it is the only entry.
const FRONTS: [(&[u8], &[u8]); 14] = [
    (POST, BAD_REQUEST),
    (GET, BAD_REQUEST),
    (b"hello\n", BAD_REQUEST),
    (b"\n", BAD_REQUEST),
    (b" \t\r\n", BAD_REQUEST),
    (b"[]\n", BAD_REQUEST),
    (b"1 {\n", BAD_REQUEST),
    (b"\xef\xbb\xbf", BAD_REQUEST),
    (b"x", BAD_REQUEST),
    (b"", EDITED),
    (b" \t\r", EDITED),
    (b"{\n", BAD_REQUEST_AND_EDITED),
    (b" {\"op\":\r\n", BAD_REQUEST_AND_EDITED),
    (b"{}\n", BAD_REQUEST_AND_EDITED),
];

// Gives so many bytes a read.
#[derive(Drop)]
struct Parts<'a> {
    rest: &'a [u8],
    size: usize,
}

impl<'a> Read for Parts<'a> {
    fn read(&mut self, buf: &mut [u8]) -> io::Result<usize> {
        let n = self.size.min(buf.len()).min(self.rest.len());
        buf[..n].copy_from_slice(&self.rest[..n]);
        self.rest = &self.rest[n..];
        Ok(n)
    }
}

// Writes to a text that another thread may look at.
#[derive(Drop)]
struct Pen<'a> {
    text: &'a Mutex<Vec<u8>>,
}

impl<'a> Write for Pen<'a> {
    fn write(&mut self, buf: &[u8]) -> io::Result<usize> {
        match self.text.try_lock() {
            Some(mut text) => {
                text.extend_from_slice(buf)?;
                Ok(buf.len())
            }
            None => Err(io::ErrorKind::WouldBlock.into()),
        }
    }

    fn flush(&mut self) -> io::Result<()> {
        Ok(())
    }
}

// The one connection that comes.
#[derive(Drop)]
struct Caller<'a> {
    says: &'a [u8],
    size: usize,
    told: &'a Mutex<Vec<u8>>,
    accepted: u64,
    has_failed: bool,
}

impl<'a> Accepts<Input<Parts<'a>>, Output<Pen<'a>>> for Caller<'a> {
    ghost came = { λ s k i o. k < s.accepted };

    ghost accepted = { λ s. s.accepted };

    ghost failed = { λ s. s.has_failed };

    fn accept(&mut self, _alloc: Global) -> Result<(Input<Parts<'a>>, Output<Pen<'a>>), AcceptErr> {
        self.has_failed = self.accepted > 0;
        if self.has_failed {
            return Err(AcceptErr::Failed);
        }
        self.accepted = 1;
        let parts = Parts {
            rest: self.says,
            size: self.size,
        };
        Ok((Input::new(parts), Output::new(Pen { text: self.told })))
    }

    fn note_refused<F>(&mut self, refused: &SpawnError<F>) {
        let _ = refused;
        self.has_failed = true;
    }
}

// What a caller is told who says this, and what the desk prints in the end.
fn told_to<R: Threads + Wait + Sync, M: Mover + Sync>(
    rt: &R,
    alloc: Global,
    says: &[u8],
    size: usize,
    mover: &M,
) -> (u8, Vec<u8>, Vec<u8>) {
    let told = Mutex::new(Vec::new(alloc));
    let mut printed = Vec::new(alloc);
    let caller = Caller {
        says,
        size,
        told: &told,
        accepted: 0,
        has_failed: false,
    };
    let status = serve_on(rt, alloc, caller, 1, &mut Output::new(&mut printed), mover);
    (status, told.into_inner(), printed)
}

// Two texts, one behind the other.
fn joined(alloc: Global, front: &[u8], rest: &[u8]) -> Result<Vec<u8>, AllocError> {
    let mut text = front.to_vec(alloc)?;
    text.extend_from_slice(rest)?;
    Ok(text)
}

#[test]
fn nothing_is_heard_behind_a_first_line_that_is_no_object(rt: HostRuntime) -> Result<(), Fail> {
    let alone = Crew::alone(&rt);
    for (front, replies) in FRONTS {
        let says = joined(rt.alloc(), front, EDIT)?;
        for size in [1, 5, 100_000] {
            let (status, told, printed) = told_to(&rt, rt.alloc(), &says, size, &alone);
            assert_eq!(rt; status, 0);
            assert_eq!(rt; told.as_slice(), replies);
            let is_heard = replies.ends_with(EDITED);
            assert_eq!(rt;
                printed.as_slice(),
                if is_heard { ONE_EDIT } else { NOTHING_DONE }
            );
        }
    }
    Ok(())
}

#[test]
fn a_first_line_that_is_too_long(rt: HostRuntime) -> Result<(), Fail> {
    let alone = Crew::alone(&rt);
    for (first, replies) in [(b'x', TOO_LONG), (b'{', TOO_LONG_AND_EDITED)] {
        let mut says = Vec::new(rt.alloc());
        for _ in 0..65_537u32 {
            says.push(first)?;
        }
        says.push(b'\n')?;
        says.extend_from_slice(EDIT)?;
        let (status, told, _) = told_to(&rt, rt.alloc(), &says, 8192, &alone);
        assert_eq!(rt; status, 0);
        assert_eq!(rt; told.as_slice(), replies);
    }
    Ok(())
}

#[test]
fn a_connection_that_says_nothing_or_no_whole_line(rt: HostRuntime) -> Result<(), Fail> {
    let alone = Crew::alone(&rt);
    let (status, told, printed) = told_to(&rt, rt.alloc(), b"", 1, &alone);
    assert!(rt; status == 0 && told.is_empty());
    assert_eq!(rt; printed.as_slice(), NOTHING_DONE);
    for says in [b"hello".as_slice(), b"  ".as_slice()] {
        let (status, told, printed) = told_to(&rt, rt.alloc(), says, 1, &alone);
        assert_eq!(rt; status, 0);
        assert_eq!(rt; told.as_slice(), BAD_REQUEST);
        assert_eq!(rt; printed.as_slice(), NOTHING_DONE);
    }
    Ok(())
}
