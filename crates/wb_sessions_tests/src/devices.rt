//! A reader and a writer of a byte a call, which may fail.

use std::alloc::Global;
use std::io;
use std::io::{ErrorKind, Read, Write};

// Gives one byte a call, is interrupted before each of them, and fails at one of them, where it is told to.
#[derive(Drop)]
pub struct OneByOne<'a> {
    bytes: &'a [u8],
    at: usize,
    failing: Option<usize>,
    is_interrupted: bool,
}

impl<'a> OneByOne<'a> {
    pub fn new(bytes: &'a [u8], failing: Option<usize>) -> OneByOne<'a> {
        OneByOne {
            bytes,
            at: 0,
            failing,
            is_interrupted: false,
        }
    }
}

impl<'a> Read for OneByOne<'a> {
    fn read(&mut self, buf: &mut [u8]) -> io::Result<usize> {
        self.is_interrupted = !self.is_interrupted;
        if self.is_interrupted {
            return Err(io::Error::from(ErrorKind::Interrupted));
        }
        if self.failing == Some(self.at) {
            return Err(io::Error::from(ErrorKind::BrokenPipe));
        }
        match (self.bytes.get(self.at), buf.first_mut()) {
            (Some(byte), Some(place)) => {
                *place = *byte;
                self.at = self.at.saturating_add(1);
                Ok(1)
            }
            _ => Ok(0),
        }
    }
}

// What a writer does that has taken all it takes.
#[derive(Clone, Copy, Debug, PartialEq, Eq)]
pub enum AtLimit {
    // It takes no byte, and says so.
    TakesNothing,
    // It fails at each write.
    FailsToWrite,
    // It fails at each write and at each flush.
    FailsAtAll,
}

// Takes one byte a call, up to a limit.
#[derive(Drop)]
pub struct Narrow {
    pub taken: Vec<u8>,
    limit: usize,
    then: AtLimit,
}

impl Narrow {
    pub fn new(alloc: Global, limit: usize, then: AtLimit) -> Narrow {
        Narrow {
            taken: Vec::new(alloc),
            limit,
            then,
        }
    }
}

impl Write for Narrow {
    fn write(&mut self, buf: &[u8]) -> io::Result<usize> {
        if self.taken.len() >= self.limit {
            return match self.then {
                AtLimit::TakesNothing => Ok(0),
                AtLimit::FailsToWrite | AtLimit::FailsAtAll => {
                    Err(io::Error::from(ErrorKind::BrokenPipe))
                }
            };
        }
        match buf.first() {
            Some(byte) => {
                self.taken.push(*byte)?;
                Ok(1)
            }
            None => Ok(0),
        }
    }

    fn flush(&mut self) -> io::Result<()> {
        if self.then == AtLimit::FailsAtAll && self.taken.len() >= self.limit {
            return Err(io::Error::from(ErrorKind::BrokenPipe));
        }
        Ok(())
    }
}
