//! A file that has the changes of turns.
ghost use Rattle.std.specs.Prelude.{◌≡◌, ◌++◌, IfOk};
ghost use Rattle.wb_kept_group.specs.Together.{changes_in};

use crate::group::{Group, Store};
use std::alloc::{AllocError, Global};
use std::marker::{Brand, PhantomData};
use wb_keep::disk::Device;
use wb_keep::{AppendErr, LineLog};
use wb_kept::Changes;

/// A group of threads, and the lines that its file had when it was opened.
pub trait Opening: Group {
    ghost use Rattle.std.specs.Prelude.{List, ℕ};

    /// The lines.
    ghost opening: { List (List ℕ) };
}

/// Whoever opens a file picks them.
impl Opening for Brand {
    ghost use Rattle.std.specs.Prelude.{[]};

    ghost opening = { [] };
}

/// A file that has the lines with which it was opened, and behind them the changes of turns.
#[derive(Drop)]
pub struct Journal<O: Opening, D: Device> {
    alloc: Global,
    log: LineLog<D>,
    of: PhantomData<O>,
}

impl<O: Opening, D: Device> Journal<O, D> {
    /// The file of a log that has no turn yet.
    pub fn new(alloc: Global, log: LineLog<D>) -> Journal<O, D>
        ensures { result.log ≡ log }
    {
        Journal {
            alloc,
            log,
            of: PhantomData,
        }
    }

    /// The log.
    pub fn into_log(self) -> LineLog<D>
        ensures { result ≡ self.log }
    {
        self.log
    }
}

/// The changes of turns, in order.
fn all_of(alloc: Global, turns: &[Changes]) -> Result<Changes, AllocError>
    ensures { IfOk result (λ all. all ≡ changes_in turns.now) }
{
    let mut all = Changes::new(alloc);
    for turn in turns {
        all.append(turn)?;
    }
    Ok(all)
}

impl<O: Opening, D: Device> Store<Changes, AppendErr> for Journal<O, D> {
    ghost use Rattle.std.specs.Prelude.{◌≡◌, ◌++◌};
    ghost use Rattle.wb_keep.specs.Disk.Device.{LeavesOnly};
    ghost use Rattle.wb_keep.specs.Lines.{recovered, IsClosed};
    ghost use Rattle.wb_keep.specs.Keep.{IsSettled, IsBeforeOrAfter};
    ghost use Rattle.wb_kept_group.specs.Together.{changes_in, Tells};

    ghost has = { λ j turns. IsSettled D.seen D.may_leave j.log × (recovered (D.seen j.log.device) ≡ O.opening ++ changes_in turns) };

    ghost leaves = { λ old new before turns. LeavesOnly D.moment D.left_since old.log.device new.log.device (IsBeforeOrAfter (O.opening ++ changes_in before) (changes_in turns)) };

    ghost tells = { λ e old new. Tells D.faults e old.log new.log };

    ghost closed = { λ j. IsClosed (D.seen j.log.device) };

    fn add(&mut self, turns: &[Changes]) -> Result<(), AppendErr> {
        let all = all_of(self.alloc, turns)?;
        self.log.append_ahead(self.alloc, all.as_text(), D::ROOM)
    }

    fn finish(&mut self, turns: &[Changes]) -> Result<(), AppendErr> {
        let all = all_of(self.alloc, turns)?;
        self.log.append(self.alloc, all.as_text())?;
        // What is left of the room that earlier turns were to be written to is cut off.
        self.log.close()?;
        Ok(())
    }
}
