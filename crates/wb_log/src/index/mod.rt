//! What a history keeps beside the list of its edits, so that no undo or redo goes through all of them. It is filled when
//! it is asked: each edit enters once, before the first question that needs it. To make an edit costs nothing here, and
//! never fails for its sake. Where no memory is left for an edit to enter, the edits are gone through.

mod bound;
mod by_footprint;
mod in_force;

ghost use Rattle.std.specs.Prelude.{◌≡◌, ℕ, ◌+◌, ◌^◌, ◌<◌, Some, None};
ghost use Rattle.wb_cells.specs.declared.cells.cell.Cell.TheVariants as cell;
ghost use Rattle.wb_footprints.specs.Footprints.{Footprints, footprint, with_footprint, element_reads};
ghost use Rattle.wb_log.specs.declared.entry.Before.{Before};
ghost use Rattle.wb_log.specs.Indexed.{Indexes};
ghost use Rattle.wb_log.specs.Records.{lent_kept, cell_before};

use crate::entry::{Before, ElementSet};
use crate::index::by_footprint::ByFootprint;
use crate::index::in_force::InForce;
use crate::lent::LentKept;
use std::alloc::Global;

/// Indexes over the edits in force.
pub(crate) struct EditIndex {
    pub(crate) by_footprint: ByFootprint,
    pub(crate) in_force: InForce,
}

// In a function of its own, so that a crate above need not prove anew how each field is let go.
impl Drop for EditIndex {
    fn drop(self) {
        let EditIndex {
            by_footprint: _,
            in_force: _,
        } = self;
    }
}

impl EditIndex {
    /// No edit has entered.
    pub(crate) fn new(alloc: Global) -> EditIndex
        ensures { (count : ℕ) (footprints : Footprints) → footprints 0 ≡ None → Indexes result count footprints }
    {
        EditIndex {
            by_footprint: ByFootprint::new(alloc),
            in_force: InForce::new(alloc),
        }
    }

    /// The edit at a place, which was in force, no longer is.
    pub(crate) fn left_force(&mut self, at: usize, kept: &LentKept<'_>)
        requires { at < 2 ^ 63 }
        ensures { (count : ℕ) (footprints : Footprints) → Indexes self.old count footprints → footprints (at + 1) ≡ Some (lent_kept kept.now) →
            Indexes self.new count (with_footprint footprints (at + 1) None) }
    {
        self.by_footprint.left_force(at, kept);
        self.in_force.left_force(at);
    }

    /// The edit at a place, a new value of an element that was in force, no longer is.
    pub(crate) fn set_left_force(&mut self, at: usize, element: &ElementSet, was: &Before)
        requires { at < 2 ^ 63 }
        ensures { (count : ℕ) (footprints : Footprints) → Indexes self.old count footprints →
            footprints (at + 1) ≡ Some (footprint (element_reads element.now.array element.now.place)
            (cell_before (cell.Element element.now.array element.now.place) was.now)) →
            Indexes self.new count (with_footprint footprints (at + 1) None) }
    {
        self.by_footprint.set_left_force(at, element, was);
        self.in_force.left_force(at);
    }

    /// The edit at a place, which was out of force, is in force again.
    pub(crate) fn back_in_force(&mut self, at: usize, kept: &LentKept<'_>)
        requires { at < 2 ^ 63 }
        ensures { (count : ℕ) (footprints : Footprints) → Indexes self.old count footprints → footprints (at + 1) ≡ None →
            Indexes self.new count (with_footprint footprints (at + 1) (Some (lent_kept kept.now))) }
    {
        self.by_footprint.back_in_force(at, kept);
        self.in_force.back_in_force(at);
    }

    /// The edit at a place, a new value of an element that was out of force, is in force again.
    pub(crate) fn set_back_in_force(&mut self, at: usize, element: &ElementSet)
        requires { at < 2 ^ 63 }
        ensures { (was : Before) (count : ℕ) (footprints : Footprints) → Indexes self.old count footprints → footprints (at + 1) ≡ None →
            Indexes self.new count (with_footprint footprints (at + 1) (Some (footprint (element_reads element.now.array element.now.place)
            (cell_before (cell.Element element.now.array element.now.place) was)))) }
    {
        self.by_footprint.set_back_in_force(at, element);
        self.in_force.back_in_force(at);
    }
}
