//! The file of a desk, since it was opened.
ghost use Rattle.std.specs.Prelude.{◌≡◌, []};
ghost use Rattle.wb_kept_seats.specs.Files.{HasTurns};

use crate::opening::{KeptOpening, Turns};
use std::alloc::Global;
use wb_keep::disk::Device;
use wb_keep::{AppendErr, LineLog};
use wb_kept::Changes;
use wb_kept_group::Journal;
use wb_kept_group::group::Store;

/// A file that has the lines with which a desk was opened, and behind them the changes of its turns.
#[derive(Drop)]
pub(crate) struct File<L: KeptOpening, D: Device> {
    journal: Journal<Turns<L>, D>,
}

impl<L: KeptOpening, D: Device> File<L, D> {
    /// The file of a log, at the opening of the desk.
    pub(crate) fn new(alloc: Global, log: LineLog<D>) -> File<L, D>
        ensures { result.journal.log ≡ log }
    {
        File {
            journal: Journal::new(alloc, log),
        }
    }

    /// The log.
    pub(crate) fn into_log(self) -> LineLog<D>
        ensures { result ≡ self.journal.log }
    {
        let File { journal } = self;
        journal.into_log()
    }
}

impl<L: KeptOpening, D: Device> Store<Changes, AppendErr> for File<L, D> {
    ghost use Rattle.std.specs.Prelude.{◌≡◌, ◌++◌};
    ghost use Rattle.wb_keep.specs.Disk.Device.{LeavesOnly};
    ghost use Rattle.wb_keep.specs.Lines.{IsClosed};
    ghost use Rattle.wb_keep.specs.Keep.{IsBeforeOrAfter};
    ghost use Rattle.wb_kept_group.specs.Together.{changes_in, Tells};
    ghost use Rattle.wb_kept_seats.specs.Files.{HasTurns};

    ghost has = { λ f turns. HasTurns D.seen D.may_leave D.moment D.left_since L.lines L.begun f.journal.log turns };

    ghost leaves = { λ old new before turns. LeavesOnly D.moment D.left_since old.journal.log.device new.journal.log.device
        (IsBeforeOrAfter (L.lines ++ changes_in before) (changes_in turns)) };

    ghost tells = { λ e old new. Tells D.faults e old.journal.log new.journal.log };

    ghost closed = { λ f. IsClosed (D.seen f.journal.log.device) };

    fn add(&mut self, turns: &[Changes]) -> Result<(), AppendErr> {
        self.journal.add(turns)
    }

    fn finish(&mut self, turns: &[Changes]) -> Result<(), AppendErr> {
        self.journal.finish(turns)
    }
}
