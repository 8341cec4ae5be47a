//! The index itself: footprints come and go by their numbers.

ghost use Rattle.std.specs.Prelude.{◌≡◌, ◌++◌, Option, Some, None, OnOk, OnErr};
ghost use Rattle.wb_cells.specs.declared.cells.value.Value.{Value};
ghost use Rattle.wb_cells.specs.Cells.{Changes};
ghost use Rattle.wb_cells.specs.Reads.{all_read, patterns_of};
ghost use Rattle.wb_cells.specs.Runs.{all_changes};
ghost use Rattle.wb_footprints.specs.Footprints.{Footprints, IsIndexOf, footprint, set_footprint, with_footprint};

use crate::marks::cell_lists::{
    mark_all, mark_element, mark_runs, unmark_all, unmark_element, unmark_runs,
};
use crate::marks::place_marks::PlaceMarks;
use crate::marks::reading::{mark_reads, read_each, unmark_reads, unread_each};
use crate::places::marking::Marking;
use crate::places::part::{Part, Slot};
use std::alloc::Global;
use wb_cells::{AnyIndex, ChangeRun, Changes, Name, Pattern, ReadRun};
use wb_range::NoMemory;

/// An index of footprints by the cells that they read and touched. It has no footprint in it: its contracts speak of those that it
/// is of.
pub struct FootIndex {
    pub(crate) touched: PlaceMarks,
    pub(crate) read: PlaceMarks,
}

// In a function of its own, so that a crate above need not prove anew how each field is let go.
impl Drop for FootIndex {
    fn drop(self) {
        let FootIndex {
            touched: _,
            read: _,
        } = self;
    }
}

impl FootIndex {
    /// The index without footprints.
    pub fn new(alloc: Global) -> FootIndex
        ensures { IsIndexOf result (λ n. None) }
    {
        FootIndex {
            touched: PlaceMarks::new(alloc),
            read: PlaceMarks::new(alloc),
        }
    }

    /// Adds a footprint at a number that has none, or nothing where no memory is left. What was read is the patterns that
    /// come first, and the runs of those behind them.
    pub fn add(
        &mut self,
        number: u64,
        reads: &[Pattern],
        runs: &[ReadRun],
        before: &Changes,
    ) -> Result<(), NoMemory>
        ensures ok { OnOk result ((footprints : Footprints) → IsIndexOf self.old footprints → footprints number ≡ None →
            IsIndexOf self.new (with_footprint footprints number (Some (footprint (reads.now ++ all_read runs.now) before.now)))) }
        ensures err { OnErr result ((footprints : Footprints) → IsIndexOf self.old footprints → footprints number ≡ None → IsIndexOf self.new footprints) }
    {
        if mark_all(&mut self.touched, Marking::Families, before, number).is_err() {
            unmark_all(&mut self.touched, Marking::Families, before, number);
            return Err(NoMemory);
        }
        if mark_reads(&mut self.read, reads, runs, number).is_err() {
            unmark_reads(&mut self.read, reads, runs, number);
            unmark_all(&mut self.touched, Marking::Families, before, number);
            return Err(NoMemory);
        }
        Ok(())
    }

    /// Adds the footprint of a new value of an element that was there, at a number that has none; or nothing where no memory is
    /// left. That it read the element is told by that it touched it.
    pub fn add_set(&mut self, number: u64, array: &Name, index: &AnyIndex) -> Result<(), NoMemory>
        ensures ok { OnOk result ((footprints : Footprints) (before : Option Value) → IsIndexOf self.old footprints → footprints number ≡ None →
            IsIndexOf self.new (with_footprint footprints number (Some (set_footprint array.now index.now before)))) }
        ensures err { OnErr result ((footprints : Footprints) → IsIndexOf self.old footprints → footprints number ≡ None → IsIndexOf self.new footprints) }
    {
        if mark_element(&mut self.touched, array, index, number).is_err() {
            unmark_element(&mut self.touched, array, index, number);
            return Err(NoMemory);
        }
        let object = Part::Slot(Slot::Object);
        if self.read.add_part(array, &object, number).is_err() {
            unmark_element(&mut self.touched, array, index, number);
            return Err(NoMemory);
        }
        Ok(())
    }

    /// Takes away the footprint at a number. It takes no memory.
    pub fn take(&mut self, number: u64, reads: &[Pattern], runs: &[ReadRun], before: &Changes)
        ensures { (footprints : Footprints) → IsIndexOf self.old footprints → footprints number ≡ Some (footprint (reads.now ++ all_read runs.now) before.now) →
            IsIndexOf self.new (with_footprint footprints number None) }
    {
        unmark_all(&mut self.touched, Marking::Families, before, number);
        unmark_reads(&mut self.read, reads, runs, number);
    }

    /// Takes away the footprint of a new value of an element that was there.
    pub fn take_set(&mut self, number: u64, array: &Name, index: &AnyIndex)
        ensures { (footprints : Footprints) (before : Option Value) → IsIndexOf self.old footprints →
            footprints number ≡ Some (set_footprint array.now index.now before) → IsIndexOf self.new (with_footprint footprints number None) }
    {
        unmark_element(&mut self.touched, array, index, number);
        let read = &mut self.read;
        read.take_part(array, &Part::Slot(Slot::Object), number);
        read.take_part(array, &Part::Element(*index), number);
    }

    /// Adds a footprint at a number that has none, which read the patterns and then the cells of runs, and touched just these cells;
    /// or nothing where no memory is left.
    pub fn add_runs(
        &mut self,
        number: u64,
        reads: &[Pattern],
        runs: &[ChangeRun],
    ) -> Result<(), NoMemory>
        ensures ok { OnOk result ((footprints : Footprints) (before : Changes) → IsIndexOf self.old footprints → footprints number ≡ None →
            patterns_of before ≡ patterns_of (all_changes runs.now) →
            IsIndexOf self.new (with_footprint footprints number (Some (footprint (reads.now ++ patterns_of before) before)))) }
        ensures err { OnErr result ((footprints : Footprints) → IsIndexOf self.old footprints → footprints number ≡ None → IsIndexOf self.new footprints) }
    {
        if mark_runs(&mut self.touched, Marking::Families, runs, number).is_err() {
            unmark_runs(&mut self.touched, Marking::Families, runs, number);
            return Err(NoMemory);
        }
        let read = &mut self.read;
        if read_each(read, reads, number).is_err() {
            unread_each(read, reads, number);
            unmark_runs(&mut self.touched, Marking::Families, runs, number);
            return Err(NoMemory);
        }
        Ok(())
    }

    /// Takes away the footprint of a number that read the patterns and then the cells of runs, and touched just these cells. It takes
    /// no memory.
    pub fn take_runs(&mut self, number: u64, reads: &[Pattern], runs: &[ChangeRun])
        ensures { (footprints : Footprints) (before : Changes) → IsIndexOf self.old footprints →
            patterns_of before ≡ patterns_of (all_changes runs.now) →
            footprints number ≡ Some (footprint (reads.now ++ patterns_of before) before) →
            IsIndexOf self.new (with_footprint footprints number None) }
    {
        unmark_runs(&mut self.touched, Marking::Families, runs, number);
        let read = &mut self.read;
        unread_each(read, reads, number);
        unmark_runs(read, Marking::Own, runs, number);
    }
}
