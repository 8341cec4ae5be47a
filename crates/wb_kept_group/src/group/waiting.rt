//! What waits to be kept.
ghost use Rattle.std.specs.Prelude.{◌≡◌, ◌<◌, List, ◌++◌, [], ◌∷◌, length, IfOk, IfErr};

use crate::group::book::{Count, Front, Group, Opened};
use std::alloc::Global;
use std::marker::Model;
use std::mem;
use std::sync::ledger::{Blank, Book, Share};

/// What lies under the lock under which turns are made.
pub trait Desk<G: Group, C: Drop> {
    /// All turns that were made.
    ghost made: { Self → List C };

    /// Those of them that were taken to be kept.
    ghost taken: { Self → List C };

    /// Takes all turns that wait. The share that says how many were taken says then that these were, too.
    fn take(&mut self, alloc: Global, mark: &mut Share<G>) -> Batch<G, C>
        // The share has all parts of the ledger, and there are some.
        requires whole { (mark.old.parts ≡ G.all) × (G.all ≡ G.parts) × (0 < G.all) }

        // The batch: all turns that were made, behind those that were taken before.
        ensures told { mark.old.amount ≡ length (taken self.old) }
        ensures before { result.before ≡ taken self.old }
        ensures after { result.after ≡ made self.old }
        ensures turns { made self.old ≡ taken self.old ++ result.turns.items }

        // All that were made are taken then, as the share says.
        ensures made { made self.new ≡ made self.old }
        ensures taken { taken self.new ≡ made self.old }
        ensures mark { (mark.new.parts ≡ mark.old.parts) × (mark.new.amount ≡ length (made self.old)) };
}

/// The turns that were made under a lock, of which those that wait to be kept are held. Contracts see it as the turns
/// that were taken, and all that were made.
#[derive(Drop)]
pub struct Waiting<G: Group, C: Drop> {
    count: Count<G, C>,
    made: Front<G, C>,
    taken: Front<G, C>,
    turns: Vec<C>,
    ledger: Book<G>,
}

impl<G: Group, C: Drop> Model for Waiting<G, C> {
    ghost use Rattle.std.specs.Prelude.{◌≡◌, ◌++◌, List, length};

    ghost Value = { List C × List C };

    ghost view = { λ w. (w.taken, w.made) };

    ghost invariant = { λ w. (w.made ≡ w.taken ++ w.turns.items) × (w.ledger.total ≡ length w.taken) };
}

/// Turns that were taken to be kept, behind those before.
#[derive(Drop)]
pub struct Batch<G: Group, C: Drop> {
    /// All turns before them.
    pub before: Front<G, C>,
    /// All turns up to their last.
    pub after: Front<G, C>,
    /// The turns.
    pub turns: Vec<C>,
}

impl<G: Group, C: Drop> Waiting<G, C> {
    /// No turn yet, and the share that says how many were taken.
    pub fn open(
        alloc: Global,
        opened: Opened<C>,
        blank: Blank,
    ) -> (Waiting<G, C>, Front<G, C>, Share<G>)
        requires book { opened.seen.book ≡ G.book }
        requires ledger { (blank.name ≡ G.name) × (blank.parts ≡ G.parts) }
        ensures waiting { result.0 ≡ ([], []) }
        ensures front { result.1 ≡ [] }
        ensures share { (result.2.parts ≡ G.parts) × (result.2.amount ≡ 0) }
    {
        let (count, front) = opened.of::<G>();
        let (ledger, share) = blank.open::<G>();
        let waiting = Waiting {
            count,
            made: front.again(),
            taken: front.again(),
            turns: Vec::new(alloc),
            ledger,
        };
        (waiting, front, share)
    }

    /// All turns that were made.
    pub fn made(&self) -> &Front<G, C>
        ensures { result.now ≡ self.now.1 }
    {
        &self.made
    }

    /// Adds a turn behind all that were made, which then waits. Where there is no room for it, it is given back.
    pub fn add(&mut self, turn: C) -> Result<Front<G, C>, C>
        ensures made { IfOk result (λ front. (front ≡ self.old.1 ++ turn ∷ []) × (self.new ≡ (self.old.0, front))) }
        ensures back { IfErr result (λ back. (back ≡ turn) × (self.new ≡ self.old)) }
    {
        if self.turns.reserve(1).is_err() {
            return Err(turn);
        }
        let mut made = self.made.again();
        if !made.add(&self.count, &turn) {
            return Err(turn);
        }
        self.turns.push_reserved(turn);
        self.made = made;
        Ok(self.made.again())
    }
}

impl<G: Group, C: Drop> Desk<G, C> for Waiting<G, C> {
    ghost made = { λ w. w.1 };

    ghost taken = { λ w. w.0 };

    fn take(&mut self, alloc: Global, mark: &mut Share<G>) -> Batch<G, C> {
        self.ledger.audit(mark);
        self.ledger.add(mark, self.made.len() - self.taken.len());
        let before = mem::replace(&mut self.taken, self.made.again());
        let turns = mem::replace(&mut self.turns, Vec::new(alloc));
        Batch {
            before,
            after: self.made.again(),
            turns,
        }
    }
}
