//! Where threads sleep until a batch ends.

use std::sync::Wait;
use std::sync::atomic::{AtomicU64, Ordering};

/// Ends of batches, and two places to sleep: those whose turns were taken last sleep in one, those whose turns come next in the
/// other. With each batch the places change their parts. So the end of a batch wakes all of the one, and of the other one thread
/// alone, which takes the next batch.
#[derive(Drop)]
pub(crate) struct Ends {
    /// Twice the number of turns that were taken, and one more where the batch that was taken last is an odd one.
    taken: AtomicU64,
    /// How often each place was woken: that of the even batches, and that of the odd ones.
    even: AtomicU64,
    odd: AtomicU64,
}

/// What was seen of them at once: which turns were taken, and how often each place had been woken before.
#[derive(Clone, Copy)]
pub(crate) struct Look {
    taken: u64,
    even: u64,
    odd: u64,
}

impl Look {
    /// Whether so many turns were taken.
    pub(crate) fn has_taken(self, turns: u64) -> bool {
        turns <= self.taken / 2
    }

    /// Whether the batch that was taken last is an odd one.
    fn is_odd(self) -> bool {
        self.taken % 2 == 1
    }
}

impl Ends {
    /// Nothing was taken yet.
    pub(crate) fn new() -> Ends {
        Ends {
            taken: AtomicU64::new(0),
            even: AtomicU64::new(0),
            odd: AtomicU64::new(0),
        }
    }

    /// A look. How often the places were woken is read first: so the end of a batch that is not over by then raises what was
    /// read.
    pub(crate) fn look(&self) -> Look {
        let even = self.even.load(Ordering::SeqCst);
        let odd = self.odd.load(Ordering::SeqCst);
        Look {
            taken: self.taken.load(Ordering::SeqCst),
            even,
            odd,
        }
    }

    /// The place of the odd batches, or that of the even ones.
    fn place(&self, is_odd: bool) -> &AtomicU64 {
        if is_odd { &self.odd } else { &self.even }
    }

    /// Notes that a batch was taken, up to so many turns. The lock under which it is kept is held.
    pub(crate) fn begin(&self, turns: u64) {
        let parity = 1 - self.taken.load(Ordering::SeqCst) % 2;
        let taken = turns.saturating_mul(2).saturating_add(parity);
        self.taken.store(taken, Ordering::SeqCst);
    }

    /// Ends the batch that was taken last at a look: one thread is woken that takes the next, and then all whose turns are in
    /// it. The lock under which it was kept is let go before, so that no thread finds it held after this.
    pub(crate) fn end(&self, look: Look) {
        let next = self.place(!look.is_odd());
        let _ = next.fetch_add(1, Ordering::SeqCst);
        next.wake_one();
        let last = self.place(look.is_odd());
        let _ = last.fetch_add(1, Ordering::SeqCst);
        last.wake_all();
    }

    /// Wakes all that sleep, since nothing is kept any more.
    pub(crate) fn close(&self) {
        let _ = self.even.fetch_add(1, Ordering::SeqCst);
        self.even.wake_all();
        let _ = self.odd.fetch_add(1, Ordering::SeqCst);
        self.odd.wake_all();
    }

    /// Sleeps until the batch ends that has so many turns, or, where they were not taken at a look, the one before; unless it
    /// ended since the look.
    pub(crate) fn wait<R: Wait>(&self, rt: &R, look: Look, turns: u64) {
        let is_odd = look.has_taken(turns) == look.is_odd();
        let woken = if is_odd { look.odd } else { look.even };
        self.place(is_odd).park(rt, (woken % 4_294_967_296) as u32);
    }
}
