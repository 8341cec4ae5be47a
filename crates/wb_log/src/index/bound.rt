//! A bound on the latest edit in force, by which undos of the latest, one after another, ask no index.

ghost use Rattle.std.specs.Prelude.{◌≡◌, ℕ, ◌+◌, ◌<◌, ◌≤◌, ◌^◌, length, Some, None, IfSome};
ghost use Rattle.selective_undo.specs.Log.{Footprint};
ghost use Rattle.wb_cells.specs.Schema.{workbook};
ghost use Rattle.wb_footprints.specs.Footprints.{Footprints, with_footprint};
ghost use Rattle.wb_log.specs.Indexed.{IsBound};
ghost use Rattle.wb_log.specs.Kept.{by_number, kept_all, IsLatest};

use crate::entry::EditRecord;

/// Of the first `told` edits none is in force that comes after the first `bound`.
#[derive(Drop)]
pub(crate) struct LatestBound {
    told: usize,
    bound: usize,
}

impl LatestBound {
    /// Nothing is told of any edit.
    pub(crate) fn new() -> LatestBound
        ensures { (count : ℕ) (footprints : Footprints) → IsBound result count footprints }
    {
        LatestBound { told: 0, bound: 0 }
    }

    // All edits are told of.
    fn tell(&mut self, entries: &[EditRecord])
        requires bound { IsBound self.old (length entries.now) (by_number entries.now) }
        ensures bound { IsBound self.new (length entries.now) (by_number entries.now) }
        ensures all { length entries.now ≤ self.new.told }
    {
        if self.told < entries.len() {
            self.told = entries.len();
            self.bound = entries.len();
        }
    }

    /// The place of the latest edit in force, where it is the last within the bound.
    pub(crate) fn latest(&mut self, entries: &[EditRecord]) -> Option<usize>
        requires bound { IsBound self.old (length entries.now) (by_number entries.now) }
        ensures latest { IfSome result (λ at. IsLatest (kept_all entries.now) (Some at)) }
        ensures bound { IsBound self.new (length entries.now) (by_number entries.now) }
    {
        self.tell(entries);
        if self.bound == 0 {
            return None;
        }
        let at = self.bound - 1;
        if entries[at].is_in_force() {
            Some(at)
        } else {
            None
        }
    }

    /// The edit at a place is out of force.
    pub(crate) fn left_force(&mut self, at: usize)
        requires { at < 2 ^ 63 }
        ensures { (count : ℕ) (footprints : Footprints) → IsBound self.old count footprints →
            IsBound self.new count (with_footprint footprints (at + 1) None) }
    {
        if self.bound == at + 1 {
            self.bound = at;
        }
    }

    /// The edit at a place is in force again.
    pub(crate) fn back_in_force(&mut self, at: usize)
        requires { at < 2 ^ 63 }
        ensures { (count : ℕ) (footprints : Footprints) (f : Footprint workbook) → IsBound self.old count footprints →
            IsBound self.new count (with_footprint footprints (at + 1) (Some f)) }
    {
        if self.bound <= at && at < self.told {
            self.bound = at + 1;
        }
    }
}
