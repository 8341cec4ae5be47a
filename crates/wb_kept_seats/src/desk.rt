//! A desk whose changes are kept: opened at a file, and asked in turns under its lock.
ghost use Rattle.std.specs.Prelude.{◌≡◌, ◌≢◌, IfOk, IfErr, OnOk};
ghost use Rattle.wb_keep.specs.Lines.{recovered};
ghost use Rattle.wb_keep.specs.declared.keep.LineLog.{LineLog};
ghost use Rattle.wb_kept.specs.Keeping.{IsKept};
ghost use Rattle.wb_kept_group.specs.Together.{IsGivenUp};
ghost use Rattle.wb_keeping.specs.Granting.Granting.{Grants, no_edit};
ghost use Rattle.wb_desk.specs.Serving.{new_passes};
ghost use Rattle.wb_desk.specs.Seats.{IsNumberOfSeats, IsSeatsErr};
ghost use Rattle.wb_kept_seats.specs.Files.{WasKept};

use crate::commit::CommitErr;
use crate::file::File;
use crate::opening::{KeptOpening, Turns};
use crate::sealing::Receipt;
use crate::seats::{OpenedSeats, Seats};
use crate::turn::Turn;
use std::alloc::Global;
use std::sync::ledger::Blank;
use std::sync::{Mutex, Wait};
use wb_desk::{DeskErr, Pass};
use wb_history::History;
use wb_keep::AppendErr;
use wb_keep::disk::Device;
use wb_kept::{Changes, Kept};
use wb_kept_group::group::{Front, Keeper, Opened, Told};
use wb_locks::take_lock;

/// A workbook that several seats share, and whose changes are kept in a file. Turns are made under one lock and kept under
/// another: while some are brought to the disk, others are made.
#[derive(Drop)]
pub struct Desk<L: KeptOpening, D: Device + Drop> {
    pub(crate) alloc: Global,
    pub(crate) seats: Mutex<Seats<L>>,
    pub(crate) keeper: Mutex<Keeper<Turns<L>, Changes, AppendErr, File<L, D>>>,
    pub(crate) told: Told<Turns<L>, Changes, AppendErr, File<L, D>>,
}

impl<L: KeptOpening, D: Device + Drop> Desk<L, D> {
    /// A desk of 1 to 16 seats on the history that a file stands for, and a pass for each seat. Where there is none, the
    /// history and its log are given back. It takes a new book and two new ledgers, one for its entries and one for its turns.
    pub fn open_at(
        alloc: Global,
        opened: Opened<Changes>,
        blank: Blank,
        taking: Blank,
        seats: usize,
        kept: Kept<History, D>,
    ) -> Result<(Desk<L, D>, Vec<Pass<L>>), (Kept<History, D>, DeskErr)>
        // Two new ledgers and a new book, which are the desk's.
        requires name { blank.name ≡ L.name }
        requires parts { blank.parts ≡ L.parts }
        requires sixteen { blank.parts ≡ 16 }
        requires book { opened.seen.book ≡ L.book }
        requires taking { (taking.name ≡ L.taking) × (taking.parts ≡ 1) }

        // What the desk is opened on: the history that the file stands for, at this moment.
        requires opening { L.opening.history ≡ kept.state }
        requires seats { L.seats ≡ seats }
        requires begun { L.begun ≡ D.moment kept.log.device }
        requires lines { L.lines ≡ recovered (D.seen kept.log.device) }
        requires kept { IsKept no_edit Grants D.seen D.may_leave kept }

        // A pass for each seat, or why there is no desk; then the history and its log come back.
        ensures ok { IfOk result (λ r. IsNumberOfSeats seats × (r.1.items ≡ new_passes seats)) }
        ensures bad { IfErr result (λ e. IsSeatsErr seats e.1) }
        ensures back { IfErr result (λ e. e.0 ≡ kept) }
    {
        let Kept { state, log } = kept;
        match Seats::open_at(alloc, opened, blank, taking, seats, state) {
            Ok(
                OpenedSeats {
                    seats,
                    front,
                    mark,
                    passes,
                },
            ) => {
                let keeper = Keeper::new(File::new(alloc, log), front, mark);
                let desk = Desk {
                    alloc,
                    seats: Mutex::new(seats),
                    keeper: Mutex::new(keeper),
                    told: Told::new(),
                };
                Ok((desk, passes))
            }
            Err((state, why)) => Err((Kept { state, log }, why)),
        }
    }

    /// Takes the lock for a turn.
    pub fn turn<R: Wait>(&self, rt: &R) -> Turn<'_, L> {
        Turn::of(take_lock(&self.seats, rt))
    }

    /// Sees to it that all turns of a front are kept, with those that wait meanwhile, and gives a receipt for them. The desk's
    /// lock is not held while the disk works. After a fault nothing is kept any more.
    pub fn keep<R: Wait>(
        &self,
        rt: &R,
        front: Front<Turns<L>, Changes>,
    ) -> Result<Receipt<L, D>, CommitErr>
        ensures front { IfOk result (λ receipt. receipt ≡ front) }
        ensures kept { OnOk result (WasKept D.seen D.may_leave D.moment D.left_since L.lines L.begun front) }
        // What failed is a call that brought a batch of turns to the file, which it leaves with all of their changes or none.
        // Without memory or room it leaves it as it was.
        ensures failed { IfErr result (λ why. why ≢ CommitErr.Closed → (old new : LineLog D)
            × IsGivenUp D.seen D.may_leave D.moment D.left_since D.faults L.lines (why ≡ CommitErr.DiskFault) (why ≡ CommitErr.NoMemory) old new) }
    {
        match wb_kept_group::group::keep(
            rt,
            self.alloc,
            &self.seats,
            &self.keeper,
            &self.told,
            &front,
        ) {
            Ok(()) => Ok(Receipt::of(front)),
            Err(error) => Err(CommitErr::of(error)),
        }
    }
}
