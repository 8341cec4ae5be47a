//! A desk: opened, asked under its lock, and settled.

ghost use Rattle.std.specs.Prelude.{◌≡◌, true, false, List, length, IfOk, IfErr, OnOk, MatchResult};
ghost use Rattle.wb_desk.specs.Settling.{IsSettled, IsCause, total_of_passes};
ghost use Rattle.wb_desk.specs.Openings.{nothing_done};
ghost use Rattle.wb_desk.specs.Courses.{IsCourse, IsWhole, Marked, Tells, count_of};
ghost use Rattle.wb_desk.specs.Early.{EndsWithAll};
ghost use Rattle.wb_desk.specs.declared.entry.Entry.{Entry};
ghost use Rattle.wb_desk.specs.Seats.{IsNumberOfSeats, IsSeatsErr};
ghost use Rattle.wb_desk.specs.Answering.{AnswersAmong, DiffersInSome, StandsInSome};
ghost use Rattle.wb_desk.specs.Serving.{new_pass, own_after, share_after, new_passes};

use crate::opening::Opening;
use crate::shared::Shared;
use crate::turn::Turn;
use crate::{Cause, Difference, Pass};
use std::alloc::Global;
use std::sync::ledger::Blank;
use std::sync::{Mutex, MutexGuard, Wait};
use thiserror::Error;
use wb_arrays::Mover;
use wb_history::History;
use wb_locks::{look_for_lock, take_lock};
use wb_machine::Reply;
use wb_requests::Request;

/// Why there is no desk.
#[derive(Clone, Copy, Debug, PartialEq, Eq, Error)]
pub enum DeskErr {
    /// A desk has 1 to 16 seats.
    #[error("no desk of so many seats")]
    BadSeats,
    /// A growth was refused.
    #[error("no memory")]
    NoMemory,
}

/// So often a thread looks for the lock beside others, before it closes the door.
const LOOKS_AT_OPEN_DOOR: u32 = 2_048;

/// A workbook that several seats share. Whoever wants its lock closes the door first, a second lock, and keeps it closed until the
/// lock is had: who lets the lock go can't have it again before the one at the door had it. A turn behind one of many requests comes
/// through the open door and looks for the lock beside others first: so of seats that have much to ask any one whose thread runs at
/// the moment has it next.
#[derive(Drop)]
pub struct Desk<L: Opening> {
    door: Mutex<()>,
    shared: Mutex<Shared<L>>,
}

impl<L: Opening> Desk<L> {
    /// A desk of 1 to 16 seats on an empty workbook, and a pass for each seat.
    pub fn new(
        alloc: Global,
        blank: Blank,
        seats: usize,
    ) -> Result<(Desk<L>, Vec<Pass<L>>), DeskErr>
        // A new ledger of sixteen parts, and what the desk is opened on.
        requires name { blank.name ≡ L.name }
        requires parts { blank.parts ≡ L.parts }
        requires sixteen { blank.parts ≡ 16 }
        requires opening { L.opening.history ≡ nothing_done }
        requires seats { L.seats ≡ seats }

        // A pass for each seat, or why there is no desk.
        ensures ok { IfOk result (λ r. IsNumberOfSeats seats × (r.1.items ≡ new_passes seats)) }
        ensures bad { IfErr result (λ why. IsSeatsErr seats why) }
    {
        match Desk::open_at(alloc, blank, seats, History::new(alloc)) {
            Ok(opened) => Ok(opened),
            Err((_, why)) => Err(why),
        }
    }

    /// A desk of 1 to 16 seats on the workbook of a history, and a pass for each seat. Where there is none, the history is given back.
    pub fn open_at(
        alloc: Global,
        blank: Blank,
        seats: usize,
        history: History,
    ) -> Result<(Desk<L>, Vec<Pass<L>>), (History, DeskErr)>
        // A new ledger of sixteen parts, and what the desk is opened on.
        requires name { blank.name ≡ L.name }
        requires parts { blank.parts ≡ L.parts }
        requires sixteen { blank.parts ≡ 16 }
        requires opening { L.opening.history ≡ history }
        requires seats { L.seats ≡ seats }

        // A pass for each seat, or why there is no desk; then the history comes back.
        ensures ok { IfOk result (λ r. IsNumberOfSeats seats × (r.1.items ≡ new_passes seats)) }
        ensures bad { IfErr result (λ e. IsSeatsErr seats e.1) }
        ensures back { IfErr result (λ e. e.0 ≡ history) }
    {
        match Shared::open_at(alloc, blank, seats, history) {
            Ok((shared, passes)) => {
                let door = Mutex::new(());
                let shared = Mutex::new(shared);
                Ok((Desk { door, shared }, passes))
            }
            Err(left) => Err(left),
        }
    }

    // Takes the lock, behind the closed door; where that is asked for, after looks beside others once the door is open.
    pub(crate) fn taken<R: Wait>(&self, rt: &R, beside_others: bool) -> MutexGuard<'_, Shared<L>> {
        if beside_others {
            drop(take_lock(&self.door, rt));
            if let Some(guard) = look_for_lock(&self.shared, LOOKS_AT_OPEN_DOOR) {
                return guard;
            }
        }
        let door = take_lock(&self.door, rt);
        let guard = take_lock(&self.shared, rt);
        drop(door);
        guard
    }

    /// Takes the lock, and answers one request of a pass.
    pub fn call<M: Mover>(
        &self,
        rt: &impl Wait,
        pass: &mut Pass<L>,
        request: Request,
        mover: &M,
    ) -> Reply
        ensures reply { AnswersAmong L.seats L.opening pass.old.seat pass.old.own request result }
        ensures seat { pass.new.seat ≡ pass.old.seat }
        ensures own { pass.new.own ≡ own_after pass.old.seat pass.old.own request result }
        ensures share { pass.new.share ≡ share_after pass.old.share result }
    {
        let turn = Turn::at(self);
        let reply = turn.call(rt, pass, request, mover);
        turn.end();
        reply
    }

    /// Takes the lock, and settles the seat of a pass early: where the entries of the pass are those that are kept of the seat,
    /// both are let go.
    pub fn settle_seat<R: Wait>(&self, rt: &R, pass: &mut Pass<L>) -> Result<usize, Difference>
        requires { L.opening.early ≡ true }
        ensures ok { IfOk result (λ n. (n ≡ length pass.old.own) × (pass.new ≡ new_pass pass.old.seat)) }
        ensures stands { OnOk result (StandsInSome L.seats L.opening pass.old.seat pass.old.own) }
        ensures err { IfErr result (λ why. DiffersInSome L.seats L.opening pass.old.seat pass.old.own why × (pass.new ≡ pass.old)) }
    {
        let turn = Turn::at(self);
        let settled = turn.settle_seat(rt, pass);
        turn.end();
        settled
    }
}

/// What is left where a desk is not settled: the locked value, the passes as they were handed in, and why.
#[derive(Drop)]
pub struct Unsettled<L: Opening> {
    pub shared: Shared<L>,
    pub passes: Vec<Pass<L>>,
    pub cause: Cause,
}

/// Takes the locked value out of a desk, where each seat has one pass and the entries that are kept of the seat, in order, are
/// the list of that pass. In the course each seat's entries are then those that were settled early, and those of its pass; where
/// no seat may be settled early, those of its pass alone.
pub fn settle<L: Opening>(desk: Desk<L>, passes: Vec<Pass<L>>) -> Result<Shared<L>, Unsettled<L>>
    ensures course { MatchResult result (λ s. IsCourse L.opening s.course) (λ u. IsCourse L.opening u.shared.course) }
    ensures seats { MatchResult result (λ s. s.course.seats ≡ L.seats) (λ u. u.shared.course.seats ≡ L.seats) }
    ensures ok { IfOk result (λ s. IsSettled s.course.seats s.course.entries passes.items) }
    ensures whole { IfOk result (λ s. count_of s.course.entries ≡ total_of_passes s.course.seats passes.items) }
    ensures stands { IfOk result (λ s. (all : List Marked) × Tells L.opening.history all s.course × EndsWithAll all s.course.seats passes.items) }
    ensures plain { L.opening.early ≡ false → MatchResult result (λ s. (es : List Entry) × IsWhole L.opening.history es s.course)
        (λ u. (es : List Entry) × IsWhole L.opening.history es u.shared.course) }
    ensures passes { IfErr result (λ u. u.passes.items ≡ passes.items) }
    ensures cause { IfErr result (λ u. IsCause u.shared.course.seats u.shared.course.entries passes.items u.cause) }
{
    let Desk { door: _, shared } = desk;
    let shared = shared.into_inner();
    match shared.cause(&passes) {
        None => Ok(shared),
        Some(cause) => {
            Err(Unsettled {
                shared,
                passes,
                cause,
            })
        }
    }
}
