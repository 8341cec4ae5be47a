//! Calls that may wait, and what has to rest before them.
ghost use Rattle.std.specs.Prelude.{◌≡◌, ◌<◌, ℕ, List, length, Bool, true, false, Option, is_err, OnOk};
ghost use Rattle.std.specs.Io.KnownBytes.{Keeps, ReadConsumes, WriteAppends};
ghost use Rattle.std.specs.Io.{ReadsAtMost, WritesAtMost};
ghost use Rattle.wb_lines.specs.Causes.{RisesBy};
ghost use Rattle.wb_lines.specs.Devices.{is_failed, is_refused};

use crate::sink::Sink;
use crate::source::{ReadErr, Source};
use std::io;

/// What may be held while a line is answered, as a lock, for a turn of lines.
pub trait Holds {
    ghost held: { Self → Bool };

    // what the lines of the turn have cost, as was told with the reply to each
    ghost spent: { Self → ℕ };

    // how many they are
    ghost answered: { Self → ℕ };
}

/// Nothing, which is never held.
#[derive(Drop)]
pub struct NothingHeld;

impl Holds for NothingHeld {
    ghost held = { λ s. false };

    ghost spent = { λ s. 0 };

    ghost answered = { λ s. 0 };
}

/// A sink whose calls may wait, so each wants that nothing is held.
pub trait Sends<K: Holds> {
    // As for a `Sink`.
    ghost contents: { Self → Option (List ℕ) };

    ghost failed: { Self → Bool };

    ghost flushed: { Self → Bool };

    /// Writes a front of the bytes: how many.
    fn write(&mut self, hold: &K, bytes: &[u8]) -> io::Result<usize>
        requires free { K.held hold.now ≡ false }
        ensures bound { WritesAtMost result bytes.now }
        ensures bytes { WriteAppends (contents self.old) (contents self.new) result bytes.now }
        ensures cause { failed self.new ≡ is_refused bytes.now result }
        ensures held { flushed self.new ≡ false };

    /// Sends on what it holds back.
    fn flush(&mut self, hold: &K) -> io::Result<()>
        requires free { K.held hold.now ≡ false }
        ensures bytes { Keeps (contents self.old) (contents self.new) }
        ensures cause { failed self.new ≡ is_err result }
        ensures sent { OnOk result (flushed self.new ≡ true) };
}

impl<K: Holds, W: Sink> Sends<K> for W {
    ghost contents = { W.Sink.contents };

    ghost failed = { W.Sink.failed };

    ghost flushed = { W.Sink.flushed };

    fn write(&mut self, _: &K, bytes: &[u8]) -> io::Result<usize> {
        Sink::write(self, bytes)
    }

    fn flush(&mut self, _: &K) -> io::Result<()> {
        Sink::flush(self)
    }
}

/// A source beside a writer. A read may wait, so it wants that the writer was flushed since its latest write, and that nothing
/// is held. Who has the source only as this, and writes to that writer alone, reads with nothing held back.
pub trait Hears<K: Holds, W: Sends<K>> {
    // As for a `Source`.
    ghost remaining: { Self → Option (List ℕ) };

    ghost failed: { Self → Bool };

    ghost reads: { Self → ℕ };

    /// Reads into the front of the bytes: how many. None means the end of input.
    fn read(&mut self, writer: &W, hold: &K, bytes: &mut [u8]) -> Result<usize, ReadErr>
        // The writer is flushed and nothing is held, since a read may wait.
        requires flushed { W.flushed writer.now ≡ true }
        requires free { K.held hold.now ≡ false }

        // How many bytes came, and which.
        ensures bound { ReadsAtMost result bytes.new }
        ensures bytes { ReadConsumes (remaining self.old) (remaining self.new) result bytes.new }

        // What failed, and how often it was read.
        ensures cause { failed self.new ≡ is_failed result }
        ensures counted { 0 < length bytes.old → RisesBy 1 (reads self.old) (reads self.new) }
        ensures idle { length bytes.old ≡ 0 → reads self.new ≡ reads self.old };
}

impl<K: Holds, W: Sends<K>, R: Source> Hears<K, W> for R {
    ghost remaining = { R.Source.remaining };

    ghost failed = { R.Source.failed };

    ghost reads = { R.Source.reads };

    fn read(&mut self, _: &W, _: &K, bytes: &mut [u8]) -> Result<usize, ReadErr> {
        Source::read(self, bytes)
    }
}
