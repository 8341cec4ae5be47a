//! How a desk is opened, and for how many seats: facts of its ledger that no value carries.

use std::marker::Brand;
use std::sync::ledger::Ledger;

/// A desk's ledger, and with it the history that the desk is opened with, whether seats may be settled before the desk is, and
/// its number of seats.
pub trait Opening: Ledger {
    ghost use Rattle.std.specs.Prelude.{ℕ};
    ghost use Rattle.wb_desk.specs.Courses.{Start};

    ghost opening: { Start };

    ghost seats: { ℕ };
}

/// Whoever opens a desk picks both.
impl Opening for Brand {
    ghost use Rattle.wb_desk.specs.Openings.{nothing_done, whole_from};

    ghost opening = { whole_from nothing_done };

    ghost seats = { 1 };
}
