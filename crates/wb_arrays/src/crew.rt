ghost use Rattle.std.specs.Prelude.{◌≡◌, ◌≤◌, ◌↔◌, IsOk, IfOk};

use crate::mover::{Mover, Way};
use crate::workers::{BadWorkers, Open, Workers};
use std::marker::Model;
use std::thread::Threads;

/// The mover of so many workers: one is the caller's own thread, so that none is started, and more are a team.
#[derive(Drop)]
pub struct Crew<R> {
    workers: Workers<R, Open>,
    is_alone: bool,
}

impl<R> Model for Crew<R> {
    ghost use Rattle.std.specs.Prelude.{ℕ};

    ghost Value = { ℕ };

    ghost view = { λ c. c.workers };
}

impl<R: Drop> Crew<R> {
    /// `count` workers, from 1 to 64.
    pub fn new(rt: R, count: usize) -> Result<Crew<R>, BadWorkers>
        ensures value { IfOk result (λ c. c ≡ count) }
        ensures ok { IsOk result ↔ ((1 ≤ count) × (count ≤ 64)) }
    {
        match Workers::new(rt, count, Open) {
            Ok(workers) => Ok(Crew {
                workers,
                is_alone: count == 1,
            }),
            Err(why) => Err(why),
        }
    }

    /// The caller's own thread. `rt` is what others would start threads by.
    pub fn alone(rt: R) -> Crew<R>
        ensures { result ≡ 1 }
    {
        match Crew::new(rt, 1) {
            Ok(crew) => crew,
            Err(_) => unreachable!(),
        }
    }
}

impl<R: Threads + Sync> Mover for Crew<R> {
    type R = R;

    type G = Open;

    ghost may_lack_threads = { λ c. ⊥ };

    fn way(&self) -> Way<'_, R, Open> {
        if self.is_alone {
            return Way::Here;
        }
        self.workers.way()
    }
}
