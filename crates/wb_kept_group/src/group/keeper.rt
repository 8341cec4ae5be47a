//! What keeps turns, under a lock of its own, for the threads that wait for it.
ghost use Rattle.std.specs.Prelude.{◌≡◌, ◌<◌, ◌++◌, ◌↔◌, [], List, length, true, false, IfOk, IfErr, OnErr, OnOk, Err, Ok, Some, MatchBool};
ghost use mathlib.Core.List.{IsPrefix};
ghost use Rattle.wb_kept_group.specs.Group.Keeping.{Goes, IsGivenUp, IsLeft, WasHad};

use crate::group::book::{Front, Group};
use crate::group::store::Store;
use crate::group::told::Told;
use crate::group::waiting::Desk;
use std::alloc::Global;
use std::marker::{Model, PhantomData};
use std::sync::ledger::Share;
use std::sync::{Mutex, Wait};
use std::thread::yield_now;
use wb_locks::take_lock;

/// A store with the turns that it has. Once it failed it is asked for nothing more.
#[derive(Drop)]
pub struct Keeper<G: Group, C: Drop, E: Drop, T: Store<C, E> + Drop> {
    store: T,
    front: Front<G, C>,
    mark: Share<G>,
    is_open: bool,
    errors: PhantomData<E>,
}

impl<G: Group, C: Drop, E: Drop, T: Store<C, E> + Drop> Model for Keeper<G, C, E, T> {
    ghost use Rattle.std.specs.Prelude.{◌≡◌, length};
    ghost use Rattle.wb_kept_group.specs.Group.Keeping.{Keeping, IsKeeping};

    ghost Value = { Keeping C T };

    ghost view = { λ k. record { store = k.store; turns = k.front; is_open = k.is_open } };

    ghost invariant = { λ k. IsKeeping T.has T.leaves (record { store = k.store; turns = k.front; is_open = k.is_open })
        × (k.mark.parts ≡ G.all) × (k.mark.amount ≡ length k.front) };
}

/// Why turns are not kept. From then on none is: the store is to be opened again.
#[derive(Clone, Copy, Debug, PartialEq, Eq)]
pub enum KeepErr<E> {
    /// An earlier batch was not kept.
    Closed,
    /// The store failed.
    Failed(E),
}

impl<G: Group, C: Drop, E: Drop, T: Store<C, E> + Drop> Keeper<G, C, E, T> {
    /// A store that has no turn, with the front and the share of a book that has none.
    pub fn new(store: T, front: Front<G, C>, mark: Share<G>) -> Keeper<G, C, E, T>
        requires { T.has store [] × (front ≡ []) × (mark.parts ≡ G.all) × (mark.amount ≡ 0) }
        ensures { result ≡ record { store = store; turns = []; is_open = true } }
    {
        Keeper {
            store,
            front,
            mark,
            is_open: true,
            errors: PhantomData,
        }
    }

    /// Keeps all turns that wait at a desk that is shared, as one batch, unless it has those of the front already; and says
    /// whether it has them then. Only while the turns are taken the desk's lock is held.
    pub fn keep<W: Desk<G, C>>(
        &mut self,
        rt: &impl Wait,
        alloc: Global,
        desk: &Mutex<W>,
        told: &Told<G, C, E, T>,
        front: &Front<G, C>,
    ) -> Result<bool, KeepErr<E>>
        requires { (G.all ≡ G.parts) × (0 < G.all) }
        ensures kept { IfOk result (λ has. (self.old.is_open ≡ true) × (self.new.is_open ≡ true) × Goes T.leaves self.old self.new
            × T.has self.new.store self.new.turns × MatchBool has (IsPrefix front.now self.new.turns) (length self.new.turns < length front.now)) }
        // At each moment of a call that failed the store leaves what one leaves that is asked to add some turns.
        ensures failed { (error : E) → result ≡ Err (KeepErr.Failed error) → T.has self.old.store self.old.turns × ((turns : List C)
            × T.leaves self.old.store self.new.store self.old.turns turns × T.tells error self.old.store self.new.store) }
        ensures closed { OnErr result (self.new.is_open ≡ false) }
        ensures stays { (self.old.is_open ≡ false) ↔ (result ≡ Err KeepErr.Closed) }
        ensures untouched { self.old.is_open ≡ false → self.new ≡ self.old }
    {
        if !self.is_open {
            return Err(KeepErr::Closed);
        }
        if front.is_within(&self.front) {
            return Ok(true);
        }
        let batch = take_lock(desk, rt).take(alloc, &mut self.mark);
        self.front.agrees(&batch.before);
        self.front = batch.after;
        told.begin(&self.front);
        if let Err(error) = self.store.add(&batch.turns) {
            self.is_open = false;
            return Err(KeepErr::Failed(error));
        }
        told.note(rt, self.front.again());
        Ok(front.is_within(&self.front))
    }

    /// Keeps all turns that wait at a desk, and gives the store back, which has all that were made there then. After an error
    /// it is what is left of a call that added turns to it.
    pub fn keep_all<W: Desk<G, C>>(self, alloc: Global, desk: &mut W) -> Result<T, (KeepErr<E>, T)>
        // The group has all parts of its ledger, and there are some.
        requires { (G.all ≡ G.parts) × (0 < G.all) }

        // The store has all turns that were made, and leaves at any moment what one leaves that adds them.
        ensures kept { IfOk result (λ store. (self.is_open ≡ true) × T.has store (W.made desk.old)) }
        ensures any_moment { IfOk result (λ store. (turns : List C) × (W.made desk.old ≡ self.turns ++ turns) × T.leaves self.store store self.turns turns) }
        ensures closed { IfOk result (λ store. T.closed store) }

        // After an error: what is left, and why.
        ensures left { IfErr result (λ e. IsLeft T.has T.leaves (W.made desk.old) e.1) }
        ensures failed { IfErr result (λ e. (error : E) → e.0 ≡ KeepErr.Failed error → T.has self.store self.turns × ((turns : List C)
            × T.leaves self.store e.1 self.turns turns × T.tells error self.store e.1)) }

        // A keeper that is closed leaves the store untouched.
        ensures stays { IfErr result (λ e. (self.is_open ≡ false) ↔ (e.0 ≡ KeepErr.Closed)) }
        ensures untouched { self.is_open ≡ false → IfErr result (λ e. e.1 ≡ self.store) }

        // The desk has the turns that it had.
        ensures made { W.made desk.new ≡ W.made desk.old }
    {
        let Keeper {
            mut store,
            front,
            mut mark,
            is_open,
            errors: _,
        } = self;
        let batch = desk.take(alloc, &mut mark);
        front.agrees(&batch.before);
        if !is_open {
            return Err((KeepErr::Closed, store));
        }
        match store.finish(&batch.turns) {
            Ok(()) => Ok(store),
            Err(error) => Err((KeepErr::Failed(error), store)),
        }
    }
}

// Keeps all turns that wait, unless another thread keeps some now, and wakes those that wait for it. Its lock is let go before.
fn keep_if_free<R: Wait, G: Group, C: Drop, E: Drop, T: Store<C, E> + Drop, W: Desk<G, C>>(
    rt: &R,
    alloc: Global,
    desk: &Mutex<W>,
    keeper: &Mutex<Keeper<G, C, E, T>>,
    told: &Told<G, C, E, T>,
    front: &Front<G, C>,
) -> Option<Result<bool, KeepErr<E>>>
    requires { (G.all ≡ G.parts) × (0 < G.all) }
    ensures kept { result ≡ Some (Ok true) → WasHad T.has front.now }
    ensures failed { (error : E) → result ≡ Some (Err (KeepErr.Failed error)) → (old : T × List C) × T.has old.0 old.1 × IsGivenUp T.leaves T.tells old error }
{
    let mut guard = keeper.try_lock()?;
    let kept = guard.keep(rt, alloc, desk, told, front);
    let last = told.look();
    drop(guard);
    told.wake(last, kept.is_ok());
    Some(kept)
}

// So often a thread looks whether a batch has ended before it sleeps.
const LOOKS: u32 = 100;

/// Sees to it that all turns of a front are kept, with those that wait meanwhile. No clause can name what a lock guards, so
/// the store is one that was kept there. While another thread keeps some, this looks a while and lets others run, and then
/// sleeps.
pub fn keep<R: Wait, G: Group, C: Drop, E: Drop, T: Store<C, E> + Drop, W: Desk<G, C>>(
    rt: &R,
    alloc: Global,
    desk: &Mutex<W>,
    keeper: &Mutex<Keeper<G, C, E, T>>,
    told: &Told<G, C, E, T>,
    front: &Front<G, C>,
) -> Result<(), KeepErr<E>>
    requires { (G.all ≡ G.parts) × (0 < G.all) }
    ensures kept { OnOk result ((store : T) × (behind : List C) × T.has store (front.now ++ behind)) }
    ensures failed { (error : E) → result ≡ Err (KeepErr.Failed error) → (old : T × List C) × T.has old.0 old.1 × IsGivenUp T.leaves T.tells old error }
{
    let mut looks = LOOKS;
    for _ in rt.forever() {
        let look = told.look();
        if look.has_taken(front.len()) && told.has(rt, front) {
            return Ok(());
        }
        match keep_if_free(rt, alloc, desk, keeper, told, front) {
            Some(Ok(true)) => return Ok(()),
            Some(Ok(false)) => {}
            Some(Err(error)) => return Err(error),
            None if looks > 0 => {
                looks -= 1;
                yield_now();
            }
            None => told.wait(rt, look, front),
        }
    }
    Err(KeepErr::Closed)
}
