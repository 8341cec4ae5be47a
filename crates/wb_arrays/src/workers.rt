ghost use Rattle.std.specs.Prelude.{◌≡◌, ◌≤◌, ◌↔◌, IsOk, IfOk};

use crate::mover::{Mover, Way};
use crate::team::Team;
use std::marker::Model;
use std::thread::Threads;
use thiserror::Error;

/// The number of workers isn't from 1 to 64.
#[derive(Clone, Copy, Debug, PartialEq, Eq, Error)]
#[error("the number of workers is not from 1 to 64")]
pub struct BadWorkers;

/// What each worker passes before it looks at its first element. It may hold
/// the worker back, and changes nothing of what is moved.
pub trait Gate {
    /// Worker number `worker`, from 0, has arrived.
    fn arrive(&self, worker: usize);
}

/// The gate that does nothing.
#[derive(Clone, Copy, Debug)]
pub struct Open;

impl Gate for Open {
    fn arrive(&self, _worker: usize) {}
}

/// A mover that shares the locales of the new mapping out among workers, each
/// a thread that makes the pieces of its own locales. Where no thread starts,
/// the caller's does the worker's part.
#[derive(Drop)]
pub struct Workers<R, G> {
    rt: R,
    gate: G,
    count: usize,
}

impl<R, G> Model for Workers<R, G> {
    ghost use Rattle.std.specs.Prelude.{ℕ, ◌≤◌};

    ghost Value = { ℕ };

    ghost view = { λ w. w.count };

    ghost invariant = { λ w. (1 ≤ w.count) × (w.count ≤ 64) };
}

impl<R: Drop, G: Drop> Workers<R, G> {
    /// `count` workers, from 1 to 64, that pass `gate`.
    pub fn new(rt: R, count: usize, gate: G) -> Result<Workers<R, G>, BadWorkers>
        ensures value { IfOk result (λ w. w ≡ count) }
        ensures ok { IsOk result ↔ ((1 ≤ count) × (count ≤ 64)) }
    {
        if count < 1 {
            return Err(BadWorkers);
        }
        if count > 64 {
            return Err(BadWorkers);
        }
        Ok(Workers { rt, gate, count })
    }
}

impl<R: Threads + Sync, G: Gate + Sync> Mover for Workers<R, G> {
    type R = R;

    type G = G;

    ghost may_lack_threads = { λ m. ⊥ };

    fn way(&self) -> Way<'_, R, G> {
        // For the proof: the invariant, which says that there are 1 to 64 workers.
        let _ = &self.count;
        Way::Team(Team::new(&self.rt, &self.gate, self.count))
    }
}
