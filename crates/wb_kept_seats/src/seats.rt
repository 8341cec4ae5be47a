//! What a desk keeps under its lock: what is shared, and the changes of its turns that are not in the file yet.
ghost use Rattle.std.specs.Prelude.{◌≡◌, ◌≢◌, ◌<◌, ◌↔◌, ◌++◌, ◌∷◌, [], true, false, List, Err, IfOk, IfErr, OnOk, OnErr, IsErrOf};
ghost use Rattle.wb_keep.specs.declared.keep.LineLog.{LineLog};
ghost use Rattle.wb_kept.specs.Runs.{Leads};
ghost use Rattle.wb_kept_group.specs.Together.{changes_in};
ghost use Rattle.wb_keeping.specs.Granting.Granting.{Grants, no_edit};
ghost use Rattle.wb_desk.specs.Courses.{IsCourse, Marked, Tells, empty_lists};
ghost use Rattle.wb_desk.specs.Early.{SettlesSeat, DiffersSeat, EndsWith};
ghost use Rattle.wb_desk.specs.Serving.{own_after, share_after, new_passes};
ghost use Rattle.wb_desk.specs.Seats.{IsNumberOfSeats, IsSeatsErr};
ghost use Rattle.wb_kept_seats.specs.KeptCourses.{EachFrontStandsIn};
ghost use Rattle.wb_kept_seats.specs.Files.{HasTurns, LeavesTurns};
ghost use Rattle.wb_kept_seats.specs.Answering.{AnswersKept};

use crate::commit::CommitErr;
use crate::file::File;
use crate::lines::let_wait;
use crate::opening::{KeptOpening, Turns};
use crate::said::Said;
use crate::sealing::Sealed;
use std::alloc::Global;
use std::marker::Model;
use std::mem;
use std::sync::ledger::{Blank, Share};
use wb_arrays::Mover;
use wb_desk::{DeskErr, Difference, Pass, Shared, serve, settle_seat};
use wb_history::History;
use wb_keep::disk::Device;
use wb_keep::{AppendErr, LineLog};
use wb_kept::Changes;
use wb_kept_group::group::{Batch, Desk, Front, Keeper, Opened, Waiting};
use wb_machine::Reply;

/// What a desk keeps under its lock: the history with its journal, the turns whose changes wait to be kept, and the changes of
/// the turn under way. It is closed for good where a line is missing.
#[derive(Drop)]
pub struct Seats<L: KeptOpening> {
    alloc: Global,
    shared: Shared<L>,
    turns: Waiting<Turns<L>, Changes>,
    changes: Changes,
    is_open: bool,
}

/// What is opened: what the desk keeps under its lock, what its file keeps under the other, and a pass for each seat.
pub(crate) struct OpenedSeats<L: KeptOpening> {
    pub(crate) seats: Seats<L>,
    pub(crate) front: Front<Turns<L>, Changes>,
    pub(crate) mark: Share<Turns<L>>,
    pub(crate) passes: Vec<Pass<L>>,
}

impl<L: KeptOpening> Model for Seats<L> {
    ghost use Rattle.wb_kept_seats.specs.KeptCourses.{KeptCourse, kept_course, IsKeptCourse};

    ghost Value = { KeptCourse };

    ghost view = { λ s. kept_course s.shared s.turns s.changes s.is_open };

    ghost invariant = { λ s. IsKeptCourse L.opening.history L.lines (kept_course s.shared s.turns s.changes s.is_open) };
}

impl<L: KeptOpening> Seats<L> {
    /// What a desk of 1 to 16 seats keeps, on a history that the lines of its file lead to, and a pass for each seat. Where
    /// there is no such desk, the history is given back.
    pub(crate) fn open_at(
        alloc: Global,
        opened: Opened<Changes>,
        blank: Blank,
        taking: Blank,
        seats: usize,
        history: History,
    ) -> Result<OpenedSeats<L>, (History, DeskErr)>
        // Two new ledgers and a new book, which are the desk's.
        requires name { blank.name ≡ L.name }
        requires parts { blank.parts ≡ L.parts }
        requires sixteen { blank.parts ≡ 16 }
        requires book { opened.seen.book ≡ L.book }
        requires taking { (taking.name ≡ L.taking) × (taking.parts ≡ 1) }

        // What the desk is opened on: a history that the lines of its file lead to.
        requires opening { L.opening.history ≡ history }
        requires seats { L.seats ≡ seats }
        requires leads { Leads Grants no_edit L.lines history }

        // The course without entries, no turn yet, and a pass for each seat.
        ensures opened { IfOk result (λ r. r.seats.course ≡ record { seats = seats; entries = empty_lists seats; settled = 0; history = history }) }
        ensures turns { IfOk result (λ r. (r.seats.made ≡ []) × (r.seats.taken ≡ []) × (r.seats.waiting ≡ []) × (r.seats.is_open ≡ true)) }
        ensures front { IfOk result (λ r. (r.front ≡ []) × (r.mark.parts ≡ 1) × (r.mark.amount ≡ 0)) }
        ensures ok { IfOk result (λ r. IsNumberOfSeats seats × (r.passes.items ≡ new_passes seats)) }

        // Why there is no desk; then the history comes back.
        ensures bad { IfErr result (λ e. IsSeatsErr seats e.1) }
        ensures back { IfErr result (λ e. e.0 ≡ history) }
    {
        let (shared, passes) = match Shared::open_at(alloc, blank, seats, history) {
            Ok(opened) => opened,
            Err(left) => return Err(left),
        };
        let (turns, front, mark) = Waiting::<Turns<L>, Changes>::open(alloc, opened, taking);
        let seats = Seats {
            alloc,
            shared,
            turns,
            changes: Changes::new(alloc),
            is_open: true,
        };
        Ok(OpenedSeats {
            seats,
            front,
            mark,
            passes,
        })
    }

    /// Answers one request of a pass. The lines of what it changed come to the changes of the turn under way, and the reply is
    /// sealed until these are kept.
    pub(crate) fn answer<M: Mover>(
        &mut self,
        pass: &mut Pass<L>,
        said: Said,
        mover: &M,
    ) -> Sealed<L, Reply>
        ensures course { IsCourse L.opening self.old.course × (self.old.course.seats ≡ L.seats) }
        ensures answers { AnswersKept self.old pass.old.seat pass.old.own said result.value self.new }
        ensures sealed { result.made ≡ self.old.made }
        ensures seat { pass.new.seat ≡ pass.old.seat }
        ensures own { pass.new.own ≡ own_after pass.old.seat pass.old.own said result.value }
        ensures share { pass.new.share ≡ share_after pass.old.share result.value }
    {
        let (request, ahead) = said.into_parts();
        let reply = serve(&mut self.shared, pass, request, mover);
        let was_open = self.is_open;
        self.is_open = let_wait(self.alloc, &mut self.changes, &ahead, &reply, was_open);
        Sealed::new(reply, self.turns.made().again())
    }

    /// Settles the seat of a pass early: where the entries of the pass are those that are kept of the seat, both are let go. The
    /// turns, and the changes that wait, are left as they are.
    pub(crate) fn settle_seat(&mut self, pass: &mut Pass<L>) -> Result<usize, Difference>
        requires { L.opening.early ≡ true }
        ensures course { IsCourse L.opening self.old.course × (self.old.course.seats ≡ L.seats) }
        ensures ok { IfOk result (λ n. SettlesSeat self.old.course pass.old n self.new.course pass.new) }
        ensures err { IfErr result (λ why. DiffersSeat self.old.course pass.old why self.new.course pass.new) }
        ensures turns { (self.new.made ≡ self.old.made) × (self.new.taken ≡ self.old.taken) × (self.new.waiting ≡ self.old.waiting) × (self.new.is_open ≡ self.old.is_open) }
        ensures stands { OnOk result ((all : List Marked) → Tells L.opening.history all self.old.course → EndsWith all pass.old.seat pass.old.own) }
    {
        settle_seat(&mut self.shared, pass)
    }

    /// Ends the turn under way: its changes wait then, behind those of all turns that were made. Without memory for that it
    /// stays under way, and nothing changes.
    pub(crate) fn end(&mut self) -> Result<Front<Turns<L>, Changes>, CommitErr>
        ensures made { IfOk result (λ front. (front ≡ self.old.made ++ self.old.waiting ∷ []) × (self.new ≡ record self.old { made = front; waiting = [] })) }
        ensures leads { IfOk result (λ front. Leads Grants no_edit (L.lines ++ changes_in front) self.old.course.history) }
        ensures left { OnErr result (self.new ≡ self.old) }
        ensures stays { (self.old.is_open ≡ false) ↔ (result ≡ Err CommitErr.Closed) }
        ensures no_fault { IfErr result (λ why. why ≢ CommitErr.DiskFault) }
    {
        if !self.is_open {
            return Err(CommitErr::Closed);
        }
        let changes = mem::replace(&mut self.changes, Changes::new(self.alloc));
        match self.turns.add(changes) {
            Ok(front) => Ok(front),
            Err(changes) => {
                self.changes = changes;
                Err(CommitErr::NoMemory)
            }
        }
    }

    /// Keeps all turns that wait, and gives the log of the file back.
    pub(crate) fn keep_all<D: Device + Drop>(
        &mut self,
        keeper: Keeper<Turns<L>, Changes, AppendErr, File<L, D>>,
    ) -> (LineLog<D>, Result<(), CommitErr>)
        ensures left { (self.new.course ≡ self.old.course) × (self.new.made ≡ self.old.made) × (self.new.is_open ≡ self.old.is_open) }
        ensures kept { OnOk result.1 (HasTurns D.seen D.may_leave D.moment D.left_since L.lines L.begun result.0 self.old.made) }
        ensures any_moment { LeavesTurns D.moment D.left_since L.lines L.begun result.0 self.old.made }
        ensures disk { IsErrOf result.1 CommitErr.DiskFault → (old : LineLog D) × (D.faults old.device < D.faults result.0.device) }
    {
        match keeper.keep_all(self.alloc, &mut self.turns) {
            Ok(file) => (file.into_log(), Ok(())),
            Err((error, file)) => (file.into_log(), Err(CommitErr::of(error))),
        }
    }

    /// Closes the desk for good.
    pub(crate) fn close(&mut self)
        ensures { self.new ≡ record self.old { is_open = false } }
    {
        self.is_open = false;
    }

    /// What is shared: the history and the journal.
    pub fn shared(&self) -> &Shared<L>
        ensures course { result.now.course ≡ self.now.course }
        ensures fronts { EachFrontStandsIn L.opening.history L.lines self.now.course self.now.made }
    {
        &self.shared
    }
}

impl<L: KeptOpening> Desk<Turns<L>, Changes> for Seats<L> {
    ghost made = { λ s. s.made };

    ghost taken = { λ s. s.taken };

    fn take(&mut self, alloc: Global, mark: &mut Share<Turns<L>>) -> Batch<Turns<L>, Changes> {
        self.turns.take(alloc, mark)
    }
}
