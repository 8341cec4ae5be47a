//! A turn at a desk: its lock, from the first request to the end of the turn.
ghost use Rattle.std.specs.Prelude.{◌≡◌, ◌≢◌, ◌↔◌, ◌++◌, ◌∷◌, [], true, false, Err, IfOk, IfErr, OnOk};
ghost use Rattle.std.specs.Sync.Mutex.{mutex_guard_value};
ghost use Rattle.wb_kept.specs.Runs.{Leads};
ghost use Rattle.wb_kept_group.specs.Together.{changes_in};
ghost use Rattle.wb_keeping.specs.Granting.Granting.{Grants, no_edit};
ghost use Rattle.wb_desk.specs.Early.{SettlesSeat, DiffersSeat};
ghost use Rattle.wb_desk.specs.Serving.{own_after, share_after};
ghost use Rattle.wb_desk.specs.Answering.{AnswersAmong, DiffersInSome, StandsInSome};
ghost use Rattle.wb_kept_seats.specs.Answering.{AnswersKept};

use crate::commit::CommitErr;
use crate::opening::{KeptOpening, Turns};
use crate::said::Said;
use crate::sealing::Sealed;
use crate::seats::Seats;
use std::sync::MutexGuard;
use wb_arrays::Mover;
use wb_desk::{Difference, Pass};
use wb_kept::Changes;
use wb_kept_group::group::Front;
use wb_machine::Reply;

/// A turn at a desk, which holds the desk's lock. Its replies are sealed until its changes are kept. It has to be ended.
pub struct Turn<'d, L: KeptOpening> {
    guard: MutexGuard<'d, Seats<L>>,
}

impl<'d, L: KeptOpening> Turn<'d, L> {
    /// A turn with a lock that was taken.
    pub(crate) fn of(guard: MutexGuard<'d, Seats<L>>) -> Turn<'d, L> {
        Turn { guard }
    }

    /// Answers one request of a pass. The reply is sealed until the changes of the turn are kept.
    pub fn call<M: Mover>(&mut self, pass: &mut Pass<L>, said: Said, mover: &M) -> Sealed<L, Reply>
        ensures reply { AnswersAmong L.seats L.opening pass.old.seat pass.old.own said result.value }
        ensures seat { pass.new.seat ≡ pass.old.seat }
        ensures own { pass.new.own ≡ own_after pass.old.seat pass.old.own said result.value }
        ensures share { pass.new.share ≡ share_after pass.old.share result.value }
        // What it does to what is locked, where the lines of its changes come to those of the turn.
        ensures answers { AnswersKept (mutex_guard_value self.old.guard) pass.old.seat pass.old.own said result.value (mutex_guard_value self.new.guard) }
        ensures sealed { result.made ≡ (mutex_guard_value self.old.guard).made }
    {
        self.guard.answer(pass, said, mover)
    }

    /// Settles the seat of a pass early: where the entries of the pass are those that are kept of the seat, both are let go. The
    /// turns, and the changes that wait, are left as they are.
    pub fn settle_seat(&mut self, pass: &mut Pass<L>) -> Result<usize, Difference>
        requires { L.opening.early ≡ true }
        ensures ok { IfOk result (λ n. SettlesSeat (mutex_guard_value self.old.guard).course pass.old n (mutex_guard_value self.new.guard).course pass.new) }
        ensures err { IfErr result (λ why. DiffersSeat (mutex_guard_value self.old.guard).course pass.old why (mutex_guard_value self.new.guard).course pass.new) }
        ensures stands { OnOk result (StandsInSome L.seats L.opening pass.old.seat pass.old.own) }
        ensures differs { IfErr result (λ why. DiffersInSome L.seats L.opening pass.old.seat pass.old.own why) }
        ensures turns { ((mutex_guard_value self.new.guard).made ≡ (mutex_guard_value self.old.guard).made) × ((mutex_guard_value self.new.guard).waiting ≡ (mutex_guard_value self.old.guard).waiting)
            × ((mutex_guard_value self.new.guard).is_open ≡ (mutex_guard_value self.old.guard).is_open) }
    {
        self.guard.settle_seat(pass)
    }

    /// Ends the turn, and lets the lock go. Its changes wait to be kept then, behind those of all turns that were made; the
    /// front ends with it. Without memory they come to the next turn.
    pub fn end(self) -> Result<Front<Turns<L>, Changes>, CommitErr>
        ensures made { IfOk result (λ front. front ≡ (mutex_guard_value self.entry.guard).made ++ (mutex_guard_value self.entry.guard).waiting ∷ []) }
        // The lines of the opening and the changes of the front lead to the history.
        ensures leads { IfOk result (λ front. Leads Grants no_edit (L.lines ++ changes_in front) (mutex_guard_value self.entry.guard).course.history) }
        ensures stays { ((mutex_guard_value self.entry.guard).is_open ≡ false) ↔ (result ≡ Err CommitErr.Closed) }
        ensures no_fault { IfErr result (λ why. why ≢ CommitErr.DiskFault) }
    {
        let Turn { mut guard } = self;
        guard.end()
    }
}
