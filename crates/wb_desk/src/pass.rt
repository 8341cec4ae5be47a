//! What a seat holds.

ghost use Rattle.std.specs.Prelude.{◌≡◌, length};

use crate::records::Records;
use std::marker::Model;
use std::sync::ledger::{Ledger, Share};

/// One seat's pass: the list of its own entries that are not settled yet, and its share of the desk's ledger, which has as many units.
pub struct Pass<L: Ledger> {
    pub(crate) seat: usize,
    pub(crate) own: Records,
    pub(crate) share: Share<L>,
}

// In a function of its own, so that a crate above need not prove anew how each field is let go.
impl<L: Ledger> Drop for Pass<L> {
    fn drop(self) {
        let Pass {
            seat: _,
            own: _,
            share: _,
        } = self;
    }
}

impl<L: Ledger> Model for Pass<L> {
    ghost use Rattle.std.specs.Prelude.{◌≡◌, length};
    ghost use Rattle.wb_desk.specs.Serving.{Held, held_code};

    ghost Value = { Held };

    ghost coded = { held_code };

    ghost view = { λ a. record { seat = a.seat; own = a.own; share = a.share.amount } };

    ghost invariant = { λ a. (a.share.amount ≡ length a.own) × (a.share.parts ≡ 1) };
}

impl<L: Ledger> Pass<L> {
    /// A pass of its parts. A desk answers a pass that isn't one of its own, as it stands, that it is strange.
    pub fn of_parts(seat: usize, own: Records, share: Share<L>) -> Pass<L>
        requires amount { share.amount ≡ length own }
        requires parts { share.parts ≡ 1 }
        ensures { result ≡ record { seat = seat; own = own; share = share.amount } }
    {
        Pass { seat, own, share }
    }

    /// The seat, the entries and the share of a pass that is given up.
    pub fn into_parts(self) -> (usize, Records, Share<L>)
        ensures seat { result.0 ≡ self.seat }
        ensures own { result.1 ≡ self.own }
        ensures share { (result.2.amount ≡ self.share) × (result.2.amount ≡ length self.own) × (result.2.parts ≡ 1) }
    {
        let Pass { seat, own, share } = self;
        (seat, own, share)
    }

    /// The seat.
    pub fn seat(&self) -> usize
        ensures { result ≡ self.now.seat }
    {
        self.seat
    }

    /// The entries of the seat's own requests, in order.
    pub fn own(&self) -> &Records
        ensures own { result.now ≡ self.now.own }
        ensures share { self.now.share ≡ length self.now.own }
    {
        &self.own
    }
}
