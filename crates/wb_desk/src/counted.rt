//! A journal, and the ledger that counts its entries.

ghost use Rattle.std.specs.Prelude.{◌≡◌, ◌+◌, true, List, IfOk, IfErr, OnOk};
ghost use Rattle.wb_history.specs.Past.{Past};
ghost use Rattle.wb_desk.specs.Entries.{leaves_all};
ghost use Rattle.wb_desk.specs.Courses.{Marked, Tells, count_of};
ghost use Rattle.wb_desk.specs.Serving.{IsStrange, AnswersCourse, course_after, own_after, share_after};
ghost use Rattle.wb_desk.specs.Early.{SettlesSeat, DiffersSeat, EndsWith, course_settled};

use crate::journal::Journal;
use crate::pass::Pass;
use crate::replying::is_entered;
use crate::settling::Difference;
use std::alloc::Global;
use std::sync::ledger::{Book, Ledger};
use wb_arrays::Mover;
use wb_machine::Reply;
use wb_requests::Request;

/// A journal, and the book of a ledger.
#[derive(Drop)]
pub struct Counted<L: Ledger> {
    pub journal: Journal,
    pub calls: Book<L>,
}

impl<L: Ledger> Counted<L> {
    /// Answers a request of a pass: the reply is entered in the journal and in the pass, and counted in the total and in the share of
    /// the pass. Whatever is all of the course goes on with this entry.
    pub fn answer<M: Mover>(
        &mut self,
        alloc: Global,
        pass: &mut Pass<L>,
        request: Request,
        mover: &M,
    ) -> Reply
        // The reply.
        ensures strange { IsStrange self.old.journal pass.old.seat pass.old.own result }
        ensures answers { AnswersCourse self.old.journal pass.old.seat request result self.new.journal }
        ensures left { leaves_all result ≡ true → self.new.journal.history ≡ self.old.journal.history }

        // The journal goes on with this entry.
        ensures course { (opening : Past) (all : List Marked) → Tells opening all self.old.journal → Tells opening (course_after all pass.old.seat request result) self.new.journal }
        ensures seats { self.new.journal.seats ≡ self.old.journal.seats }
        ensures settled { self.new.journal.settled ≡ self.old.journal.settled }
        ensures entries { count_of self.new.journal.entries ≡ share_after (count_of self.old.journal.entries) result }
        ensures total { self.new.calls.total ≡ share_after self.old.calls.total result }

        // The pass.
        ensures seat { pass.new.seat ≡ pass.old.seat }
        ensures own { pass.new.own ≡ own_after pass.old.seat pass.old.own request result }
        ensures share { pass.new.share ≡ share_after pass.old.share result }
    {
        let reply = self
            .journal
            .answer(alloc, pass.seat, &mut pass.own, request, mover);
        if is_entered(&reply) {
            self.calls.add(&mut pass.share, 1);
        }
        reply
    }

    /// Settles the seat of a pass early: where the entries of the pass are those that are kept of the seat, both are let go, and
    /// the total and the share go down by as many. Whatever is all of the course stays so, and the seat's entries in it end with
    /// those of the pass.
    pub fn settle_seat(&mut self, alloc: Global, pass: &mut Pass<L>) -> Result<usize, Difference>
        ensures course { (opening : Past) (all : List Marked) → Tells opening all self.old.journal → Tells opening (course_settled all pass.old.seat result) self.new.journal }
        ensures ok { IfOk result (λ n. SettlesSeat self.old.journal pass.old n self.new.journal pass.new) }
        ensures total { IfOk result (λ n. self.new.calls.total + n ≡ self.old.calls.total) }
        ensures err { IfErr result (λ why. DiffersSeat self.old.journal pass.old why self.new.journal pass.new × (self.new.calls.total ≡ self.old.calls.total)) }
        ensures seats { self.new.journal.seats ≡ self.old.journal.seats }
        ensures together { self.new.calls.total + count_of self.old.journal.entries ≡ self.old.calls.total + count_of self.new.journal.entries }
        ensures stands { OnOk result ((opening : Past) (all : List Marked) → Tells opening all self.old.journal → EndsWith all pass.old.seat pass.old.own) }
    {
        match self.journal.settle_seat(alloc, pass.seat, &mut pass.own) {
            Ok(count) => {
                self.calls.sub(&mut pass.share, count as u64);
                Ok(count)
            }
            Err(why) => Err(why),
        }
    }
}
