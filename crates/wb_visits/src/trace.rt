//! What is noted of a connection while it lasts, so that it can be told once it has left.
use std::alloc::{AllocError, Global};
use std::sync::Arc;
use std::sync::atomic::Ordering::SeqCst;
use std::sync::atomic::{AtomicU8, AtomicU64};

/// Why a connection ended.
#[derive(Clone, Copy, Debug, PartialEq, Eq)]
pub enum Why {
    /// The desk ended it, whose door was shut, or which had no memory.
    Closed,
    /// Its peer ended it.
    Ended,
    /// It sent no byte for too long.
    Idle,
    /// It took no byte for too long.
    Unread,
    /// The desk was to end.
    Stopped,
    /// It could not be read or written.
    Failed,
}

// What is noted.
#[derive(Drop)]
struct Noted {
    // How many lines were sent.
    lines: AtomicU64,
    // Why it ended, as its number; 0 where nothing was noted.
    why: AtomicU8,
}

/// What is noted of a connection, by its reader and its writer.
#[derive(Drop)]
pub struct Trace {
    noted: Arc<Noted, Global>,
}

impl Trace {
    /// Nothing is noted yet.
    pub fn new(alloc: Global) -> Result<Trace, AllocError> {
        let noted = Noted {
            lines: AtomicU64::new(0),
            why: AtomicU8::new(0),
        };
        Ok(Trace {
            noted: Arc::new(alloc, noted)?,
        })
    }

    /// Another handle of this trace: both note in one place.
    pub fn again(&self) -> Result<Trace, AllocError> {
        Ok(Trace {
            noted: Arc::try_clone(&self.noted)?,
        })
    }

    /// These bytes were sent.
    pub(crate) fn note_sent(&self, bytes: &[u8]) {
        let ends = bytes.iter().filter(|byte| **byte == b'\n').count() as u64;
        if ends == 0 {
            return;
        }
        let lines = self.noted.lines.load(SeqCst);
        self.noted.lines.store(lines.saturating_add(ends), SeqCst);
    }

    /// It ended for this cause, if it has not ended for another.
    pub(crate) fn note_end(&self, why: Why) {
        if self.noted.why.load(SeqCst) == 0 {
            self.noted.why.store(number_of(why), SeqCst);
        }
    }

    /// How many lines were sent.
    pub fn lines(&self) -> u64 {
        self.noted.lines.load(SeqCst)
    }

    /// Why it ended.
    pub fn why(&self) -> Why {
        match self.noted.why.load(SeqCst) {
            1 => Why::Ended,
            2 => Why::Idle,
            3 => Why::Unread,
            4 => Why::Stopped,
            5 => Why::Failed,
            _ => Why::Closed,
        }
    }
}

// The number of a cause.
fn number_of(why: Why) -> u8 {
    match why {
        Why::Closed => 0,
        Why::Ended => 1,
        Why::Idle => 2,
        Why::Unread => 3,
        Why::Stopped => 4,
        Why::Failed => 5,
    }
}
