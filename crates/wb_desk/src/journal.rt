//! The history of a desk, and the journal of all that was asked there and replied, but for what was settled early.

ghost use Rattle.std.specs.Prelude.{◌≡◌, ◌+◌, true, [], ◌∷◌, ◌++◌, length, MatchBool, MatchOption, IfOk, IfErr, OnErr};
ghost use Rattle.wb_desk.specs.Entries.{is_entered};
ghost use Rattle.wb_desk.specs.Courses.{count_of, empty_lists, list_of};
ghost use Rattle.wb_desk.specs.Settling.{FirstDifference, IsSettled, IsCause};
ghost use Rattle.wb_desk.specs.Serving.{Knows, IsStrange, Enters, entry, own_after, share_after, AnswersCourse};
ghost use Rattle.wb_desk.specs.Early.{LetsGo};

use crate::entering::{let_go, no_memory};
use crate::pass::Pass;
use crate::records::{Records, answer_at, clear_at, difference_at, no_records};
use crate::replying::is_entered;
use crate::settling::{Cause, Difference, first_cause};
use std::alloc::Global;
use std::marker::Model;
use std::sync::ledger::Ledger;
use wb_arrays::Mover;
use wb_edit::Refusal;
use wb_history::History;
use wb_machine::Reply;
use wb_range::NoMemory;
use wb_requests::Request;

/// A history, and of each seat a list of what it asked and was replied since the opening, but for what was settled early.
/// Contracts see it as a course.
pub struct Journal {
    history: History,
    lists: Vec<Records>,
    // How many entries the lists have.
    count: usize,
    // How many entries were settled early: exact below 2^64 - 1.
    settled: u64,
}

// In a function of its own, so that a crate above need not prove anew how each field is let go.
impl Drop for Journal {
    fn drop(self) {
        let Journal {
            history: _,
            lists: _,
            count: _,
            settled: _,
        } = self;
    }
}

impl Model for Journal {
    ghost use Rattle.std.specs.Prelude.{◌≡◌, length};
    ghost use Rattle.wb_desk.specs.Courses.{Course, course_code, count_of};

    ghost Value = { Course };

    ghost coded = { course_code };

    ghost view = { λ a. record { seats = length a.lists.items; entries = a.lists.items; settled = a.settled; history = a.history } };

    ghost invariant = { λ a. a.count ≡ count_of a.lists.items };
}

impl Journal {
    /// An empty journal for so many seats, at a history, which is given back where there is no memory.
    pub fn at(alloc: Global, seats: usize, history: History) -> Result<Journal, History>
        ensures ok { IfOk result (λ j. j ≡ record { seats = seats; entries = empty_lists seats; settled = 0; history = history }) }
        ensures back { IfErr result (λ h. h ≡ history) }
    {
        match no_records(alloc, seats) {
            Ok(lists) => {
                Ok(Journal {
                    history,
                    lists,
                    count: 0,
                    settled: 0,
                })
            }
            Err(NoMemory) => Err(history),
        }
    }

    /// How many seats there are.
    pub fn seats(&self) -> usize
        ensures { result ≡ self.now.seats }
    {
        self.lists.len()
    }

    /// The number of entries that are kept.
    pub fn len(&self) -> usize
        ensures { result ≡ count_of self.now.entries }
    {
        self.count
    }

    /// How many entries were settled early: exact below 2^64 - 1.
    pub fn settled(&self) -> u64
        ensures { result ≡ self.now.settled }
    {
        self.settled
    }

    /// Why these passes and the journal do not agree.
    pub fn cause<L: Ledger>(&self, passes: &[Pass<L>]) -> Option<Cause>
        ensures { MatchOption result (IsSettled self.now.seats self.now.entries passes.now) (λ why. IsCause self.now.seats self.now.entries passes.now why) }
    {
        first_cause(self.lists.as_slice(), passes)
    }

    /// The history that came of the journal.
    pub fn history(&self) -> &History
        ensures { result.now ≡ self.now.history }
    {
        &self.history
    }

    // Whether a seat is one of the desk's, and so many of its entries are kept.
    fn knows(&self, seat: usize, own: &Records) -> bool
        ensures { MatchBool result (Knows self.now seat own.now) (¬ Knows self.now seat own.now) }
    {
        if seat >= self.lists.len() {
            return false;
        }
        self.lists[seat].len() == own.len()
    }

    /// Answers a request of a seat, whose own entries these are, and enters the reply in the journal and among them.
    pub(crate) fn answer<M: Mover>(
        &mut self,
        alloc: Global,
        seat: usize,
        own: &mut Records,
        request: Request,
        mover: &M,
    ) -> Reply
        ensures strange { IsStrange self.old seat own.old result }
        ensures answers { AnswersCourse self.old seat request result self.new }
        ensures count { count_of self.new.entries ≡ share_after (count_of self.old.entries) result }
        ensures own { own.new ≡ own_after seat own.old request result }
    {
        if !self.knows(seat, own) {
            let_go(request);
            return Reply::Refused(Refusal::StrangePass);
        }
        if self.count == usize::MAX {
            let_go(request);
            return no_memory();
        }
        let reply = answer_at(
            alloc,
            &mut self.history,
            seat,
            request,
            &mut self.lists,
            own,
            mover,
        );
        if is_entered(&reply) {
            self.count += 1;
        }
        reply
    }

    /// Settles a seat early, whose own entries these are: where they are those that are kept of the seat, both are let go.
    pub(crate) fn settle_seat(
        &mut self,
        alloc: Global,
        seat: usize,
        own: &mut Records,
    ) -> Result<usize, Difference>
        ensures ok { IfOk result (λ n. LetsGo self.old seat own.old n self.new × (own.new ≡ [])) }
        ensures count { IfOk result (λ n. count_of self.new.entries + n ≡ count_of self.old.entries) }
        ensures err { IfErr result (λ why. FirstDifference (list_of self.old.entries seat) own.old why.place × (self.new ≡ self.old) ×
            (own.new ≡ own.old)) }
    {
        if seat >= self.lists.len() {
            if own.len() == 0 {
                return Ok(0);
            }
            return Err(Difference { place: 0 });
        }
        match difference_at(self.lists.as_slice(), seat, own) {
            Some(place) => Err(Difference { place }),
            None => {
                let count = own.len();
                clear_at(&mut self.lists, seat, alloc);
                own.clear(alloc);
                self.count -= count;
                self.settled = self.settled.saturating_add(count as u64);
                Ok(count)
            }
        }
    }
}
