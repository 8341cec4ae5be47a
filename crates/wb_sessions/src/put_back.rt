//! A source that takes bytes back.
ghost use Rattle.std.specs.Prelude.{◌≡◌, ◌++◌, OnOk, OnErr, option_map};
ghost use Rattle.wb_sessions.specs.Resuming.{left_in, reads_in};

use std::alloc::{AllocError, Global};
use std::collections::VecDeque;
use std::io::Read;
use wb_lines::{ReadErr, Source};

/// A source to which bytes can be put back: they are read again, before what its reader gives.
#[derive(Drop)]
pub struct PutBack<R> {
    alloc: Global,
    ahead: VecDeque<u8>,
    reader: R,
    has_failed: bool,
    read_count: u64,
}

impl<R: Source> PutBack<R> {
    /// A source of what the reader gives from here on.
    pub fn new(alloc: Global, reader: R) -> PutBack<R>
        ensures { left_in R.remaining result ≡ R.remaining reader }
    {
        PutBack {
            alloc,
            ahead: VecDeque::new(alloc),
            reader,
            has_failed: false,
            read_count: 0,
        }
    }

    /// Puts bytes back before all that is left.
    pub(crate) fn put_back(&mut self, bytes: &[u8]) -> Result<(), AllocError>
        ensures ok { OnOk result (left_in R.remaining self.new ≡ option_map (λ t. bytes.now ++ t) (left_in R.remaining self.old)) }
        ensures err { OnErr result (self.new ≡ self.old) }
        ensures reads { reads_in self.new ≡ reads_in self.old }
    {
        let mut all = Vec::from_slice(self.alloc, bytes)?;
        let (first, second) = self.ahead.as_slices();
        all.extend_from_slice(first)?;
        all.extend_from_slice(second)?;
        self.ahead = VecDeque::from(all);
        Ok(())
    }
}

impl<R: Source> Source for PutBack<R> {
    ghost remaining = { left_in R.remaining };

    ghost failed = { λ s. s.has_failed };

    ghost reads = { λ s. s.read_count };

    fn read(&mut self, bytes: &mut [u8]) -> Result<usize, ReadErr> {
        self.has_failed = false;
        if bytes.is_empty() {
            return Ok(0);
        }
        self.read_count = self.read_count.saturating_add(1);
        let Ok(n) = self.ahead.read(bytes) else {
            return Err(ReadErr::Interrupted);
        };
        if n > 0 {
            return Ok(n);
        }
        let result = self.reader.read(bytes);
        self.has_failed = matches!(result, Err(ReadErr::Failed));
        result
    }
}
