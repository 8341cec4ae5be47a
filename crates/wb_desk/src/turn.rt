//! A turn at a desk: its lock, held from one request to the next.

ghost use Rattle.std.specs.Prelude.{◌≡◌, true, length, IfOk, IfErr, OnOk};
ghost use Rattle.wb_desk.specs.Answering.{AnswersAmong, DiffersInSome, StandsInSome};
ghost use Rattle.wb_desk.specs.Serving.{new_pass, own_after, share_after};

use crate::desk::Desk;
use crate::opening::Opening;
use crate::shared::{Shared, serve, settle_seat};
use crate::{Difference, Pass};
use std::cell::Cell;
use std::sync::{MutexGuard, Wait};
use wb_arrays::Mover;
use wb_machine::Reply;
use wb_requests::Request;

/// So many requests at least had the lock together, where the next ones look for it beside others.
const MANY: u64 = 16;

/// A turn at a desk. It takes the desk's lock for its first request, and holds it until it is let go. It has to be ended.
pub struct Turn<'d, L: Opening> {
    desk: &'d Desk<L>,
    held: Cell<Option<MutexGuard<'d, Shared<L>>>>,
    // Whether many requests had the lock together when it was let go last.
    had_many: Cell<bool>,
}

impl<'d, L: Opening> Turn<'d, L> {
    /// A turn that does not hold the lock yet.
    pub fn at(desk: &'d Desk<L>) -> Turn<'d, L> {
        Turn {
            desk,
            held: Cell::new(None),
            had_many: Cell::new(false),
        }
    }

    /// Answers one request of a pass under the lock, which stays held.
    pub fn call<M: Mover>(
        &self,
        rt: &impl Wait,
        pass: &mut Pass<L>,
        request: Request,
        mover: &M,
    ) -> Reply
        ensures reply { AnswersAmong L.seats L.opening pass.old.seat pass.old.own request result }
        ensures seat { pass.new.seat ≡ pass.old.seat }
        ensures own { pass.new.own ≡ own_after pass.old.seat pass.old.own request result }
        ensures share { pass.new.share ≡ share_after pass.old.share result }
    {
        let mut guard = match self.held.take() {
            Some(guard) => guard,
            None => self.desk.taken(rt, self.had_many.get()),
        };
        let reply = serve(&mut guard, pass, request, mover);
        self.held.set(Some(guard));
        reply
    }

    /// Settles the seat of a pass early, under the lock, which stays held: where the entries of the pass are those that are kept
    /// of the seat, both are let go.
    pub fn settle_seat<R: Wait>(&self, rt: &R, pass: &mut Pass<L>) -> Result<usize, Difference>
        requires { L.opening.early ≡ true }
        ensures ok { IfOk result (λ n. (n ≡ length pass.old.own) × (pass.new ≡ new_pass pass.old.seat)) }
        ensures stands { OnOk result (StandsInSome L.seats L.opening pass.old.seat pass.old.own) }
        ensures err { IfErr result (λ why. DiffersInSome L.seats L.opening pass.old.seat pass.old.own why × (pass.new ≡ pass.old)) }
    {
        let mut guard = match self.held.take() {
            Some(guard) => guard,
            None => self.desk.taken(rt, self.had_many.get()),
        };
        let settled = settle_seat(&mut guard, pass);
        self.held.set(Some(guard));
        settled
    }

    /// Lets the lock go, if it is held, after so many requests.
    pub fn let_go_after(&self, requests: u64) {
        self.held.set(None);
        self.had_many.set(requests >= MANY);
    }

    /// Ends the turn, and with it lets the lock go.
    pub fn end(self) {
        let Turn {
            desk: _,
            held,
            had_many: _,
        } = self;
        let _ = held.into_inner();
    }
}
