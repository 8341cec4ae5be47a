//! What bytes are written to.
ghost use Rattle.std.specs.Prelude.{◌≡◌, ℕ, List, Bool, true, false, Option, is_err, OnOk};
ghost use Rattle.std.specs.Io.KnownBytes.{Keeps, WriteAppends};
ghost use Rattle.std.specs.Io.{WritesAtMost};
ghost use Rattle.wb_lines.specs.Devices.{is_refused};

use std::io;
use std::io::Write;

/// A writer that tells whether its latest write or flush failed, and whether it was flushed since its latest write.
pub trait Sink {
    // The bytes that the writer holds, where they are known.
    ghost contents: { Self → Option (List ℕ) };

    // Whether the write or flush that was made last failed, or was a write of bytes that took none.
    ghost failed: { Self → Bool };

    // Whether it was flushed since its latest write.
    ghost flushed: { Self → Bool };

    /// Writes a front of the bytes: how many.
    fn write(&mut self, bytes: &[u8]) -> io::Result<usize>
        ensures bound { WritesAtMost result bytes.now }
        ensures bytes { WriteAppends (contents self.old) (contents self.new) result bytes.now }
        ensures cause { failed self.new ≡ is_refused bytes.now result }
        ensures held { flushed self.new ≡ false };

    /// Sends on what it holds back.
    fn flush(&mut self) -> io::Result<()>
        ensures bytes { Keeps (contents self.old) (contents self.new) }
        ensures cause { failed self.new ≡ is_err result }
        ensures sent { OnOk result (flushed self.new ≡ true) };
}

/// A sink that writes to any writer. It alone says what a failed write or flush is: where the writer's own answers an
/// error, or a write takes nothing.
#[derive(Drop)]
pub struct Output<W> {
    writer: W,
    has_failed: bool,
    is_flushed: bool,
}

impl<W> Output<W> {
    /// A sink that adds to what the writer has.
    pub fn new(writer: W) -> Output<W>
        ensures { result ≡ record { writer = writer; has_failed = false; is_flushed = false } }
    {
        Output {
            writer,
            has_failed: false,
            is_flushed: false,
        }
    }
}

impl<W: Write> Sink for Output<W> {
    ghost contents = { λ s. W.contents s.writer };

    ghost failed = { λ s. s.has_failed };

    ghost flushed = { λ s. s.is_flushed };

    fn write(&mut self, bytes: &[u8]) -> io::Result<usize> {
        let result = self.writer.write(bytes);
        self.has_failed = match result {
            Ok(n) => n == 0 && !bytes.is_empty(),
            Err(_) => true,
        };
        self.is_flushed = false;
        result
    }

    fn flush(&mut self) -> io::Result<()> {
        let result = self.writer.flush();
        self.has_failed = result.is_err();
        self.is_flushed = result.is_ok();
        result
    }
}
