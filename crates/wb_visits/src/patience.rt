//! The reader and the writer of a connection, which fail where the desk is to end, or where it is idle for too long.
ghost use Rattle.std.specs.Prelude.{◌≤◌, IfOk, length};
ghost use Rattle.std.specs.Counts.{IsPrefixLen};

use crate::connection::Connection;
use crate::stop::Stop;
use crate::trace::{Trace, Why};
use std::io::{self, ErrorKind, Read, Write};
use std::net::Shutdown;

/// A reader of a connection whose reads wait a short while at a time. Before each wait it looks whether the desk is to end, and fails
/// then, so that no part of a line is taken for a whole one; it fails too after so many waits in a row without a byte.
pub struct Ear {
    connection: Connection,
    stop: Stop,
    most_waits: u64,
    trace: Trace,
}

impl Ear {
    /// The reader of this connection.
    pub fn of(connection: Connection, stop: Stop, most_waits: u64, trace: Trace) -> Ear {
        Ear {
            connection,
            stop,
            most_waits,
            trace,
        }
    }

    // The next bytes, or why there are none.
    fn heard(&mut self, bytes: &mut [u8]) -> io::Result<usize>
        ensures { IfOk result (λ n. IsPrefixLen n bytes.new) }
    {
        for _ in 0..self.most_waits {
            if self.stop.is_told() {
                return Err(ErrorKind::ConnectionAborted.into());
            }
            match self.connection.read(bytes) {
                Err(error) if has_waited(&error) => {}
                read => return read,
            }
        }
        Err(ErrorKind::TimedOut.into())
    }
}

// The connection is ended for its peer, whoever else has a handle of it.
impl Drop for Ear {
    fn drop(self) {
        let Ear {
            connection,
            stop: _,
            most_waits: _,
            trace: _,
        } = self;
        let _ = connection.end(Shutdown::Both);
    }
}

// Whether a call ended since nothing came for a while, or nothing could be sent.
fn has_waited(error: &io::Error) -> bool {
    matches!(error.kind(), ErrorKind::WouldBlock | ErrorKind::TimedOut)
}

impl Read for Ear {
    fn read(&mut self, bytes: &mut [u8]) -> io::Result<usize> {
        let read = self.heard(bytes);
        match &read {
            Ok(0) => self.trace.note_end(Why::Ended),
            Ok(_) => {}
            Err(error) => self.trace.note_end(why_of(error, Why::Idle)),
        }
        read
    }
}

// Why a call failed; this, where it waited for too long.
fn why_of(error: &io::Error, waited: Why) -> Why {
    match error.kind() {
        ErrorKind::TimedOut => waited,
        ErrorKind::ConnectionAborted => Why::Stopped,
        _ => Why::Failed,
    }
}

/// A writer of a connection whose writes wait a short while at a time. Where nothing can be sent it fails after so many waits in a
/// row, and at once where the desk is to end.
#[derive(Drop)]
pub struct Mouth {
    connection: Connection,
    stop: Stop,
    most_waits: u64,
    trace: Trace,
}

impl Mouth {
    /// The writer of this connection.
    pub fn of(connection: Connection, stop: Stop, most_waits: u64, trace: Trace) -> Mouth {
        Mouth {
            connection,
            stop,
            most_waits,
            trace,
        }
    }

    // How many bytes could be sent.
    fn sent(&mut self, bytes: &[u8]) -> io::Result<usize>
        ensures { IfOk result (λ n. n ≤ length bytes.now) }
    {
        for _ in 0..self.most_waits {
            match self.connection.write(bytes) {
                Err(error) if has_waited(&error) => {}
                written => return written,
            }
            if self.stop.is_told() {
                return Err(ErrorKind::ConnectionAborted.into());
            }
        }
        Err(ErrorKind::TimedOut.into())
    }
}

impl Write for Mouth {
    fn write(&mut self, bytes: &[u8]) -> io::Result<usize> {
        let sent = self.sent(bytes);
        match &sent {
            Ok(count) => self.trace.note_sent(bytes.get(..*count).unwrap_or(bytes)),
            Err(error) => self.trace.note_end(why_of(error, Why::Unread)),
        }
        sent
    }

    fn flush(&mut self) -> io::Result<()> {
        self.connection.flush()
    }
}
