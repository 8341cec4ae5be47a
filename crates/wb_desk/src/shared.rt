//! What a desk keeps under its lock, and how it answers one request.

ghost use Rattle.std.specs.Prelude.{◌≡◌, ◌≤◌, ◌+◌, true, List, IfOk, IfErr, OnOk, MatchOption};
ghost use Rattle.wb_desk.specs.Entries.{leaves_all};
ghost use Rattle.wb_desk.specs.Courses.{IsCourse, Marked, Tells, count_of, empty_lists};
ghost use Rattle.wb_desk.specs.Settling.{IsSettled, IsCause};
ghost use Rattle.wb_desk.specs.Serving.{IsStrange, AnswersCourse, course_after, own_after, share_after, new_passes};
ghost use Rattle.wb_desk.specs.Early.{SettlesSeat, DiffersSeat, EndsWith, course_settled};
ghost use Rattle.wb_desk.specs.Seats.{IsNumberOfSeats, IsSeatsErr};

use crate::desk::DeskErr;
use crate::opening::Opening;
use crate::{Cause, Counted, Difference, Journal, Pass, Records};
use std::alloc::Global;
use std::marker::Model;
use std::sync::ledger::{Blank, Ledger, Share};
use wb_arrays::Mover;
use wb_history::History;
use wb_machine::Reply;
use wb_range::NoMemory;
use wb_requests::Request;

/// The locked value of a desk: the history, the journal, and the ledger's book.
pub struct Shared<L: Opening> {
    pub(crate) alloc: Global,
    pub(crate) kept: Counted<L>,
    pub(crate) rest: Share<L>,
}

// In a function of its own, so that a crate above need not prove anew how each field is let go.
impl<L: Opening> Drop for Shared<L> {
    fn drop(self) {
        let Shared {
            alloc: _,
            kept: _,
            rest: _,
        } = self;
    }
}

impl<L: Opening> Model for Shared<L> {
    ghost use Rattle.std.specs.Prelude.{◌≡◌, ◌+◌};
    ghost use Rattle.wb_desk.specs.Courses.{IsCourse, count_of};
    ghost use Rattle.wb_desk.specs.Locked.{Locked, locked_code};

    ghost Value = { Locked };

    ghost coded = { locked_code };

    ghost view = { λ a. record { course = a.kept.journal; total = a.kept.calls.total } };

    ghost invariant = { λ a. (a.kept.calls.total ≡ count_of a.kept.journal.entries) × (a.rest.amount ≡ 0) × (a.rest.parts + a.kept.journal.seats ≡ 16) ×
        (a.kept.journal.seats ≡ L.seats) × IsCourse L.opening a.kept.journal };
}

// A pass for each of so many seats, each with a part of a share.
fn first_passes<L: Ledger>(
    alloc: Global,
    rest: &mut Share<L>,
    seats: usize,
) -> Result<Vec<Pass<L>>, NoMemory>
    requires parts { seats ≤ rest.old.parts }
    requires amount { rest.old.amount ≡ 0 }
    ensures passes { IfOk result (λ v. v.items ≡ new_passes seats) }
    ensures parts { OnOk result (rest.new.parts + seats ≡ rest.old.parts) }
    ensures amount { OnOk result (rest.new.amount ≡ 0) }
{
    let mut passes = Vec::new(alloc);
    for seat in 0..seats {
        let share = rest.split_off(1, 0);
        let pass = Pass::of_parts(seat, Records::new(alloc, seat), share);
        if passes.push(pass).is_err() {
            return Err(NoMemory);
        }
    }
    Ok(passes)
}

impl<L: Opening> Shared<L> {
    /// What a desk of 1 to 16 seats keeps on the workbook of a history, with no entry yet, and a pass for each seat. Where
    /// there is no such desk, the history is given back.
    #[tactic(auto, using(crate::proofs::Opened::opened_course, crate::proofs::Opened::opened_count))]
    pub fn open_at(
        alloc: Global,
        blank: Blank,
        seats: usize,
        history: History,
    ) -> Result<(Shared<L>, Vec<Pass<L>>), (History, DeskErr)>
        // A new ledger of sixteen parts, and what the desk is opened on.
        requires name { blank.name ≡ L.name }
        requires parts { blank.parts ≡ L.parts }
        requires sixteen { blank.parts ≡ 16 }
        requires opening { L.opening.history ≡ history }
        requires seats { L.seats ≡ seats }
        ensures opened { IfOk result (λ r. r.0.course ≡ record { seats = seats; entries = empty_lists seats; settled = 0; history = history }) }
        ensures ok { IfOk result (λ r. IsNumberOfSeats seats × (r.1.items ≡ new_passes seats)) }

        // Why there is no desk; then the history comes back.
        ensures bad { IfErr result (λ e. IsSeatsErr seats e.1) }
        ensures back { IfErr result (λ e. e.0 ≡ history) }
    {
        if seats == 0 || seats > 16 {
            return Err((history, DeskErr::BadSeats));
        }
        let (calls, mut rest) = blank.open::<L>();
        let Ok(passes) = first_passes(alloc, &mut rest, seats) else {
            return Err((history, DeskErr::NoMemory));
        };
        match Journal::at(alloc, seats, history) {
            Ok(journal) => {
                let shared = Shared {
                    alloc,
                    kept: Counted { journal, calls },
                    rest,
                };
                Ok((shared, passes))
            }
            Err(history) => Err((history, DeskErr::NoMemory)),
        }
    }

    /// The number of entries that are kept.
    pub fn entries(&self) -> usize
        ensures count { result ≡ count_of self.now.course.entries }
        ensures total { self.now.total ≡ count_of self.now.course.entries }
    {
        self.kept.journal.len()
    }

    /// How many entries were settled early: exact below 2^64 - 1.
    pub fn settled(&self) -> u64
        ensures { result ≡ self.now.course.settled }
    {
        self.kept.journal.settled()
    }

    /// The history that came of the journal.
    pub fn history(&self) -> &History
        ensures history { result.now ≡ self.now.course.history }
        ensures course { IsCourse L.opening self.now.course }
        ensures seats { self.now.course.seats ≡ L.seats }
    {
        self.kept.journal.history()
    }

    /// Why these passes and the journal do not agree.
    pub fn cause(&self, passes: &[Pass<L>]) -> Option<Cause>
        ensures course { IsCourse L.opening self.now.course }
        ensures seats { self.now.course.seats ≡ L.seats }
        ensures cause { MatchOption result (IsSettled self.now.course.seats self.now.course.entries passes.now)
            (λ why. IsCause self.now.course.seats self.now.course.entries passes.now why) }
    {
        self.kept.journal.cause(passes)
    }
}

/// Answers one request of a pass. Whatever is all of the course goes on with this entry.
pub fn serve<L: Opening, M: Mover>(
    shared: &mut Shared<L>,
    pass: &mut Pass<L>,
    request: Request,
    mover: &M,
) -> Reply
    // What is kept before is a course of the desk.
    ensures course { IsCourse L.opening shared.old.course }
    ensures seats { shared.old.course.seats ≡ L.seats }
    ensures goes_on { (all : List Marked) → Tells L.opening.history all shared.old.course → Tells L.opening.history (course_after all pass.old.seat request result) shared.new.course }
    ensures strange { IsStrange shared.old.course pass.old.seat pass.old.own result }
    ensures answers { AnswersCourse shared.old.course pass.old.seat request result shared.new.course }
    ensures left { leaves_all result ≡ true → shared.new.course.history ≡ shared.old.course.history }

    // An entry is counted in the total and in the share of the pass, which has it.
    ensures total { shared.new.total ≡ share_after shared.old.total result }
    ensures seat { pass.new.seat ≡ pass.old.seat }
    ensures own { pass.new.own ≡ own_after pass.old.seat pass.old.own request result }
    ensures share { pass.new.share ≡ share_after pass.old.share result }
{
    shared.kept.answer(shared.alloc, pass, request, mover)
}

/// Settles the seat of a pass early: where the entries of the pass are those that are kept of the seat, both are let go. They
/// stand in the course as before, at the end of the seat's entries.
pub fn settle_seat<L: Opening>(
    shared: &mut Shared<L>,
    pass: &mut Pass<L>,
) -> Result<usize, Difference>
    requires { L.opening.early ≡ true }
    ensures course { IsCourse L.opening shared.old.course }
    ensures seats { shared.old.course.seats ≡ L.seats }
    ensures goes_on { (all : List Marked) → Tells L.opening.history all shared.old.course → Tells L.opening.history (course_settled all pass.old.seat result) shared.new.course }
    ensures ok { IfOk result (λ n. SettlesSeat shared.old.course pass.old n shared.new.course pass.new) }
    ensures total { IfOk result (λ n. shared.new.total + n ≡ shared.old.total) }
    ensures err { IfErr result (λ why. DiffersSeat shared.old.course pass.old why shared.new.course pass.new × (shared.new.total ≡ shared.old.total)) }
    ensures stands { OnOk result ((all : List Marked) → Tells L.opening.history all shared.old.course → EndsWith all pass.old.seat pass.old.own) }
{
    shared.kept.settle_seat(shared.alloc, pass)
}
