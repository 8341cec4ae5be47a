//! Values that are sealed until the changes are kept that they tell of.
ghost use Rattle.std.specs.Prelude.{◌≡◌, ◌<◌, ◌≤◌, ◌++◌, ◌∷◌, [], ℕ, List, length, IfOk, IfErr, OnOk};
ghost use mathlib.Core.List.{IsPrefix};
ghost use Rattle.wb_kept_seats.specs.Files.{WasKept};

use crate::opening::{KeptOpening, Turns};
use std::marker::{Model, PhantomData};
use wb_keep::disk::Device;
use wb_kept::Changes;
use wb_kept_group::group::Front;

/// A value that tells of changes of the turn under way. Only a receipt for that turn opens it.
#[derive(Drop)]
pub struct Sealed<L: KeptOpening, T> {
    value: T,
    made: Front<Turns<L>, Changes>,
}

/// That the file of a desk had some turns, all of it on the disk. Contracts see it as those turns.
#[derive(Drop)]
pub struct Receipt<L: KeptOpening, D: Device> {
    front: Front<Turns<L>, Changes>,
    of: PhantomData<D>,
}

impl<L: KeptOpening, D: Device> Model for Receipt<L, D> {
    ghost use Rattle.std.specs.Prelude.{ℕ, List};
    ghost use Rattle.wb_kept_seats.specs.Files.{WasKept};

    ghost Value = { List (List (List ℕ)) };

    ghost view = { λ r. r.front };

    ghost invariant = { λ r. WasKept D.seen D.may_leave D.moment D.left_since L.lines L.begun r.front };
}

impl<L: KeptOpening, T> Sealed<L, T> {
    /// Seals a value in the turn behind those that were made.
    pub(crate) fn new(value: T, made: Front<Turns<L>, Changes>) -> Sealed<L, T>
        ensures { (result.value ≡ value) × (result.made ≡ made) }
    {
        Sealed { value, made }
    }
}

impl<L: KeptOpening, D: Device> Receipt<L, D> {
    /// That these turns were kept.
    pub(crate) fn of(front: Front<Turns<L>, Changes>) -> Receipt<L, D>
        requires { WasKept D.seen D.may_leave D.moment D.left_since L.lines L.begun front }
        ensures { result ≡ front }
    {
        Receipt {
            front,
            of: PhantomData,
        }
    }

    /// The value, where the receipt is for the turn in which it was sealed. Else it is given back, sealed.
    pub fn open<T>(&self, sealed: Sealed<L, T>) -> Result<T, Sealed<L, T>>
        ensures opened { IfOk result (λ value. value ≡ sealed.value) }
        ensures before { OnOk result (IsPrefix sealed.made self.now × (length sealed.made < length self.now)) }
        ensures early { IfErr result (λ left. (left ≡ sealed) × (length self.now ≤ length sealed.made)) }
        // All turns before it and its own are on the disk.
        ensures kept { OnOk result ((turn : List (List ℕ)) × WasKept D.seen D.may_leave D.moment D.left_since L.lines L.begun (sealed.made ++ turn ∷ [])) }
    {
        if self.front.len() <= sealed.made.len() {
            return Err(sealed);
        }
        if !sealed.made.is_within(&self.front) {
            return Err(sealed);
        }
        let Sealed { value, made: _ } = sealed;
        Ok(value)
    }
}
