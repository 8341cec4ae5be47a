//! What bytes are read from.
ghost use Rattle.std.specs.Prelude.{◌≡◌, ◌<◌, ℕ, List, length, Bool, false, Option};
ghost use Rattle.std.specs.Io.KnownBytes.{ReadConsumes};
ghost use Rattle.std.specs.Io.{ReadsAtMost};

use std::io::{ErrorKind, Read};
use thiserror::Error;

/// Why a read gave nothing.
#[derive(Clone, Copy, Debug, PartialEq, Eq, Error)]
pub enum ReadErr {
    /// A signal interrupted it: it may be made again.
    #[error("read interrupted")]
    Interrupted,
    /// It failed.
    #[error("read failed")]
    Failed,
}

/// A reader that tells whether its latest read failed, and how many reads were made.
pub trait Source {
    ghost use Rattle.wb_lines.specs.Devices.{is_failed};
    ghost use Rattle.wb_lines.specs.Causes.{RisesBy};

    // The bytes that reads will give from here on, where they are known.
    ghost remaining: { Self → Option (List ℕ) };

    // Whether the read that was made last failed.
    ghost failed: { Self → Bool };

    // How many reads were made that asked for bytes; it stops at `u64::MAX`.
    ghost reads: { Self → ℕ };

    /// Reads into the front of the bytes: how many. None means the end of input.
    fn read(&mut self, bytes: &mut [u8]) -> Result<usize, ReadErr>
        ensures bound { ReadsAtMost result bytes.new }
        ensures bytes { ReadConsumes (remaining self.old) (remaining self.new) result bytes.new }
        ensures cause { failed self.new ≡ is_failed result }
        ensures counted { 0 < length bytes.old → RisesBy 1 (reads self.old) (reads self.new) }
        ensures idle { length bytes.old ≡ 0 → reads self.new ≡ reads self.old };
}

/// A source that reads from any reader. It alone says what a failed read is: where the reader's own read answers an error
/// that is no interruption.
#[derive(Drop)]
pub struct Input<R> {
    reader: R,
    has_failed: bool,
    read_count: u64,
}

impl<R> Input<R> {
    /// A source of what the reader gives from here on.
    pub fn new(reader: R) -> Input<R>
        ensures { result ≡ record { reader = reader; has_failed = false; read_count = 0 } }
    {
        Input {
            reader,
            has_failed: false,
            read_count: 0,
        }
    }
}

impl<R: Read> Source for Input<R> {
    ghost remaining = { λ s. R.remaining s.reader };

    ghost failed = { λ s. s.has_failed };

    ghost reads = { λ s. s.read_count };

    fn read(&mut self, bytes: &mut [u8]) -> Result<usize, ReadErr> {
        let result = match self.reader.read(bytes) {
            Ok(n) => Ok(n),
            Err(error) if error.kind() == ErrorKind::Interrupted => Err(ReadErr::Interrupted),
            Err(_) => Err(ReadErr::Failed),
        };
        self.has_failed = matches!(result, Err(ReadErr::Failed));
        if !bytes.is_empty() {
            self.read_count = self.read_count.saturating_add(1);
        }
        result
    }
}
