//! Whether a desk is to end, and the line that tells so.
use std::alloc::{AllocError, Global};
use std::io::{ErrorKind, Input, Stdin};
use std::sync::Arc;
use std::sync::atomic::AtomicBool;
use std::sync::atomic::Ordering::SeqCst;

/// The line that ends a desk.
const STOP: &str = "stop";

/// Whether a desk is to end, which all its threads look at.
#[derive(Drop)]
pub struct Stop {
    is_told: Arc<AtomicBool, Global>,
}

impl Stop {
    /// Nothing was told yet.
    pub fn new(alloc: Global) -> Result<Stop, AllocError> {
        Ok(Stop {
            is_told: Arc::new(alloc, AtomicBool::new(false))?,
        })
    }

    /// Another handle of this word: what is told to one is told to both.
    pub fn again(&self) -> Result<Stop, AllocError> {
        Ok(Stop {
            is_told: Arc::try_clone(&self.is_told)?,
        })
    }

    /// Tells it.
    pub fn tell(&self) {
        self.is_told.store(true, SeqCst);
    }

    /// Whether it was told.
    pub fn is_told(&self) -> bool {
        self.is_told.load(SeqCst)
    }
}

/// Waits for the line `stop`, and tells it. The end of the input alone tells nothing, nor does an input that fails.
pub fn wait_for_stop(input: Stdin, alloc: Global, stop: Stop) {
    for line in input.lines(alloc) {
        match line {
            Ok(line) if line.as_str() == STOP => {
                stop.tell();
                return;
            }
            Ok(_) => {}
            Err(error) if error.kind() == ErrorKind::InvalidData => {}
            Err(_) => return,
        }
    }
}
