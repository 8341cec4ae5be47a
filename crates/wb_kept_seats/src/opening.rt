//! What a desk is opened with: facts of its ledger that no value carries.

use std::marker::{Brand, PhantomData};
use std::sync::ledger::Ledger;
use wb_desk::Opening;
use wb_kept_group::group::Group;

/// A desk's ledger, with the history that the desk is opened with and its number of seats, and what else its opening fixes.
pub trait KeptOpening: Opening {
    ghost use Rattle.std.specs.Prelude.{ℕ, List};
    ghost use Rattle.logbook.specs.Pages.{Book};

    /// The moment of its file.
    ghost begun: { ℕ };

    /// The lines that its file has.
    ghost lines: { List (List ℕ) };

    /// The book of its turns.
    ghost book: { Book };

    /// The name of the ledger that counts the turns that were taken to be kept.
    ghost taking: { ℕ };
}

/// Whoever opens a desk picks them.
impl KeptOpening for Brand {
    ghost use Rattle.std.specs.Prelude.{[]};

    ghost begun = { 0 };

    ghost lines = { [] };

    ghost book = { record { number = 0; log_name = 0; cells_name = 0 } };

    ghost taking = { 0 };
}

/// The turns of a desk, with a book and a ledger of their own.
pub struct Turns<L: KeptOpening> {
    of: PhantomData<L>,
}

impl<L: KeptOpening> Ledger for Turns<L> {
    ghost name = { L.taking };

    ghost parts = { 1 };
}

impl<L: KeptOpening> Group for Turns<L> {
    ghost book = { L.book };

    ghost all = { 1 };
}

impl<L: KeptOpening> wb_kept_group::Opening for Turns<L> {
    ghost opening = { L.lines };
}
