//! The first edit in the way of an undo or a redo.

ghost use Rattle.std.specs.Prelude.{◌≡◌, ℕ, ◌+◌, ◌^◌, ◌<◌, ◌++◌, Bool, ◌||◌, length, drop, Some, None, OnOk, OnErr, IfOk};
ghost use Rattle.selective_undo.specs.Log.{blocks_undo, blocks_redo, first_from};
ghost use Rattle.wb_book.specs.Kept.{element_set};
ghost use Rattle.wb_cells.specs.declared.cells.cell.Cell.TheVariants as cell;
ghost use Rattle.wb_cells.specs.Reads.{all_read};
ghost use Rattle.wb_log.specs.declared.entry.Before.{Before};
ghost use Rattle.wb_footprints.specs.Footprints.{Footprints, IsIndexOf, footprint, with_footprint, element_reads};
ghost use Rattle.wb_footprints.specs.Relation.{IsLeastAfter};
ghost use Rattle.wb_log.specs.Indexed.{IsByFootprint};
ghost use Rattle.wb_log.specs.Kept.{by_number, kept_in, kept_all, redo_blocker};
ghost use Rattle.wb_log.specs.Fills.{filled_in, array_reads};
ghost use Rattle.wb_log.specs.Records.{lent_footprint, lent_kept, lent_cells, cell_before};
ghost use Rattle.wb_log.specs.Needed.{AreFromFootprints};

use crate::blockers;
use crate::entry::{Before, EditRecord, ElementSet, LentFootprint};
use crate::filled_cells::{FilledCells, runs_of};
use crate::lent::{LentCells, LentKept};
use crate::sweep::needing;
use std::alloc::Global;
use wb_cells::{CellChange, Changes, Pattern, ReadRun, Value};
use wb_footprints::FootIndex;
use wb_range::NoMemory;

/// An index of the footprints of the first `entered` edits.
#[derive(Drop)]
pub(crate) struct ByFootprint {
    alloc: Global,
    index: FootIndex,
    entered: usize,
}

impl ByFootprint {
    /// No edit has entered.
    pub(crate) fn new(alloc: Global) -> ByFootprint
        ensures { (count : ℕ) (footprints : Footprints) → footprints 0 ≡ None → IsByFootprint result count footprints }
    {
        ByFootprint {
            alloc,
            index: FootIndex::new(alloc),
            entered: 0,
        }
    }

    /// The next edit enters, or none where no memory is left.
    fn enter(&mut self, entry: &EditRecord) -> Result<(), NoMemory>
        requires { self.old.entered < 2 ^ 63 }
        ensures ok { OnOk result ((count : ℕ) (footprints : Footprints) → IsByFootprint self.old count footprints → self.old.entered < count →
            footprints (self.old.entered + 1) ≡ kept_in entry.now → IsByFootprint self.new count footprints) }
        ensures next { OnOk result (self.new.entered ≡ self.old.entered + 1) }
        ensures err { OnErr result ((count : ℕ) (footprints : Footprints) → IsByFootprint self.old count footprints → IsByFootprint self.new count footprints) }
    {
        match add_entry(self.alloc, &mut self.index, self.entered as u64 + 1, entry) {
            Err(why) => Err(why),
            Ok(()) => {
                self.entered += 1;
                Ok(())
            }
        }
    }

    /// Edits enter up to the last, or as far as memory goes.
    fn fill(&mut self, entries: &[EditRecord])
        requires few { length entries.now < 2 ^ 63 }
        requires indexed { IsByFootprint self.old (length entries.now) (by_number entries.now) }
        ensures indexed { IsByFootprint self.new (length entries.now) (by_number entries.now) }
    {
        while self.entered < entries.len() {
            let next = &entries[self.entered];
            match self.enter(next) {
                Ok(()) => {}
                Err(_) => return,
            }
        }
    }

    /// The number of the first edit after a place that needs one that wrote the cells.
    pub(crate) fn first_to_block_undo(
        &mut self,
        entries: &[EditRecord],
        at: usize,
        before: &LentCells<'_>,
    ) -> Option<u64>
        requires in_log { at < length entries.now }
        requires few { length entries.now < 2 ^ 63 }
        requires indexed { IsByFootprint self.old (length entries.now) (by_number entries.now) }
        ensures first { result ≡ first_from (blocks_undo (lent_cells before.now)) (at + 2) (drop (at + 1) (kept_all entries.now)) }
        ensures indexed { IsByFootprint self.new (length entries.now) (by_number entries.now) }
    {
        self.fill(entries);
        if self.entered < entries.len() {
            return first_to_need(entries, at, before);
        }
        match before {
            LentCells::Listed(cells) => self.index.first_to_block_undo(cells, at as u64 + 1),
            LentCells::Filled(filled) => match filled.changes(self.alloc) {
                Ok(cells) => self.index.first_to_block_undo(&cells, at as u64 + 1),
                Err(_) => first_to_need(entries, at, before),
            },
        }
    }

    /// The number of the first edit after a place that needs one that wrote the element of a set.
    pub(crate) fn first_to_meet(
        &mut self,
        entries: &[EditRecord],
        at: usize,
        target: &ElementSet,
    ) -> Option<u64>
        requires in_log { at < length entries.now }
        requires few { length entries.now < 2 ^ 63 }
        requires indexed { IsByFootprint self.old (length entries.now) (by_number entries.now) }
        ensures first { (was : Before) → result ≡ first_from (blocks_undo (cell_before (cell.Element target.now.array target.now.place) was)) (at + 2) (drop (at + 1) (kept_all entries.now)) }
        ensures indexed { IsByFootprint self.new (length entries.now) (by_number entries.now) }
    {
        self.fill(entries);
        if self.entered < entries.len() {
            let later = later_than(entries, at);
            let one = Changes::one(CellChange::new(target.cell(), None));
            return blockers::first_to_block_undo(later, at as u64 + 2, &LentCells::Listed(&one));
        }
        self.index
            .element_met_after(&target.array, &target.place, at as u64 + 1)
    }

    /// The number of the first edit after a place that needs, or is needed by, a new value of an element that is there.
    pub(crate) fn first_to_block_set(
        &mut self,
        entries: &[EditRecord],
        at: usize,
        element: &ElementSet,
    ) -> Option<u64>
        requires in_log { at < length entries.now }
        requires few { length entries.now < 2 ^ 63 }
        requires indexed { IsByFootprint self.old (length entries.now) (by_number entries.now) }
        ensures first { result ≡ redo_blocker entries.now at (element_reads element.now.array element.now.place)
            (element_set element.now.array element.now.place element.now.value) }
        ensures indexed { IsByFootprint self.new (length entries.now) (by_number entries.now) }
    {
        self.fill(entries);
        if self.entered < entries.len() {
            return first_listed(entries, at, element);
        }
        let after = at as u64 + 1;
        earlier(
            self.index
                .element_met_after(&element.array, &element.place, after),
            self.index.object_touched_after(&element.array, after),
        )
    }

    /// The number of the first edit after a place that needs, or is needed by, one with these reads and changes.
    pub(crate) fn first_to_block_redo(
        &mut self,
        entries: &[EditRecord],
        at: usize,
        reads: &[Pattern],
        runs: &[ReadRun],
        delta: &Changes,
    ) -> Option<u64>
        requires in_log { at < length entries.now }
        requires few { length entries.now < 2 ^ 63 }
        requires indexed { IsByFootprint self.old (length entries.now) (by_number entries.now) }
        ensures first { result ≡ first_from (blocks_redo (footprint (reads.now ++ all_read runs.now) delta.now)) (at + 2) (drop (at + 1) (kept_all entries.now)) }
        ensures indexed { IsByFootprint self.new (length entries.now) (by_number entries.now) }
    {
        self.fill(entries);
        if self.entered < entries.len() {
            let later = later_than(entries, at);
            return blockers::first_to_block_redo(later, at as u64 + 2, reads, runs, delta);
        }
        self.index
            .first_to_block_redo(reads, runs, delta, at as u64 + 1)
    }

    /// The numbers of the edits that have to be undone with the one at a place, from the greatest down.
    pub(crate) fn needing(
        &mut self,
        entries: &[EditRecord],
        at: usize,
    ) -> Result<Vec<u64>, NoMemory>
        requires in_log { at < length entries.now }
        requires few { length entries.now < 2 ^ 63 }
        requires indexed { IsByFootprint self.old (length entries.now) (by_number entries.now) }
        ensures found { IfOk result (λ v. AreFromFootprints (by_number entries.now) (at + 1) v.items) }
        ensures indexed { IsByFootprint self.new (length entries.now) (by_number entries.now) }
    {
        self.fill(entries);
        if self.entered < entries.len() {
            return Err(NoMemory);
        }
        needing(self.alloc, &self.index, entries, at as u64 + 1)
    }

    /// The edit at a place is out of force. Where no memory is left to tell that, none has entered.
    pub(crate) fn left_force(&mut self, at: usize, kept: &LentKept<'_>)
        requires { at < 2 ^ 63 }
        ensures { (count : ℕ) (footprints : Footprints) → IsByFootprint self.old count footprints →
            footprints (at + 1) ≡ Some (lent_kept kept.now) → IsByFootprint self.new count (with_footprint footprints (at + 1) None) }
    {
        if at >= self.entered {
            return;
        }
        if take_kept(self.alloc, &mut self.index, at as u64 + 1, kept).is_err() {
            *self = ByFootprint::new(self.alloc);
        }
    }

    /// The edit at a place, a new value of an element, is out of force.
    pub(crate) fn set_left_force(&mut self, at: usize, element: &ElementSet, was: &Before)
        requires { at < 2 ^ 63 }
        ensures { (count : ℕ) (footprints : Footprints) → IsByFootprint self.old count footprints →
            footprints (at + 1) ≡ Some (footprint (element_reads element.now.array element.now.place)
            (cell_before (cell.Element element.now.array element.now.place) was.now)) →
            IsByFootprint self.new count (with_footprint footprints (at + 1) None) }
    {
        if at < self.entered {
            self.index
                .take_set(at as u64 + 1, &element.array, &element.place);
        }
    }

    /// The edit at a place is in force again. Where no memory is left for it, none has entered.
    pub(crate) fn back_in_force(&mut self, at: usize, kept: &LentKept<'_>)
        requires { at < 2 ^ 63 }
        ensures { (count : ℕ) (footprints : Footprints) → IsByFootprint self.old count footprints → footprints (at + 1) ≡ None →
            IsByFootprint self.new count (with_footprint footprints (at + 1) (Some (lent_kept kept.now))) }
    {
        if at >= self.entered {
            return;
        }
        if add_kept(self.alloc, &mut self.index, at as u64 + 1, kept).is_err() {
            *self = ByFootprint::new(self.alloc);
        }
    }

    /// The edit at a place, a new value of an element, is in force again. Where no memory is left for it, none has entered.
    pub(crate) fn set_back_in_force(&mut self, at: usize, element: &ElementSet)
        requires { at < 2 ^ 63 }
        ensures { (was : Before) (count : ℕ) (footprints : Footprints) → IsByFootprint self.old count footprints → footprints (at + 1) ≡ None →
            IsByFootprint self.new count (with_footprint footprints (at + 1) (Some (footprint (element_reads element.now.array element.now.place)
            (cell_before (cell.Element element.now.array element.now.place) was)))) }
    {
        if at >= self.entered {
            return;
        }
        let number = at as u64 + 1;
        if self
            .index
            .add_set(number, &element.array, &element.place)
            .is_err()
        {
            *self = ByFootprint::new(self.alloc);
        }
    }
}

// Adds what is kept of an edit at its number, which has no footprint, if it is in force.
fn add_entry(
    alloc: Global,
    index: &mut FootIndex,
    number: u64,
    entry: &EditRecord,
) -> Result<(), NoMemory>
    ensures ok { OnOk result ((footprints : Footprints) → IsIndexOf index.old footprints → footprints number ≡ None →
        IsIndexOf index.new (with_footprint footprints number (kept_in entry.now))) }
    ensures err { OnErr result ((footprints : Footprints) → IsIndexOf index.old footprints → footprints number ≡ None → IsIndexOf index.new footprints) }
{
    match entry.set_in_force() {
        Some(set) => index.add_set(number, &set.0.array, &set.0.place),
        None => add_any(alloc, index, number, entry),
    }
}

// Adds what is kept of any edit at its number, which has no footprint, if it is in force.
fn add_any(
    alloc: Global,
    index: &mut FootIndex,
    number: u64,
    entry: &EditRecord,
) -> Result<(), NoMemory>
    ensures ok { OnOk result ((footprints : Footprints) → IsIndexOf index.old footprints → footprints number ≡ None →
        IsIndexOf index.new (with_footprint footprints number (kept_in entry.now))) }
    ensures err { OnErr result ((footprints : Footprints) → IsIndexOf index.old footprints → footprints number ≡ None → IsIndexOf index.new footprints) }
{
    match entry.kept() {
        None => Ok(()),
        Some(kept) => add_kept(alloc, index, number, &kept),
    }
}

// Adds what is kept of an edit in force at its number, which has no footprint.
fn add_kept(
    alloc: Global,
    index: &mut FootIndex,
    number: u64,
    kept: &LentKept<'_>,
) -> Result<(), NoMemory>
    ensures ok { OnOk result ((footprints : Footprints) → IsIndexOf index.old footprints → footprints number ≡ None →
        IsIndexOf index.new (with_footprint footprints number (Some (lent_kept kept.now)))) }
    ensures err { OnErr result ((footprints : Footprints) → IsIndexOf index.old footprints → footprints number ≡ None → IsIndexOf index.new footprints) }
{
    match kept {
        LentKept::Listed(listed) => add_listed(index, number, listed),
        LentKept::Filled(filled) => add_filled(alloc, index, number, filled),
    }
}

// Adds what is kept of an edit, with a list of what its cells were, at its number, which has no footprint.
fn add_listed(index: &mut FootIndex, number: u64, kept: &LentFootprint<'_>) -> Result<(), NoMemory>
    ensures ok { OnOk result ((footprints : Footprints) → IsIndexOf index.old footprints → footprints number ≡ None →
        IsIndexOf index.new (with_footprint footprints number (Some (lent_footprint kept.now)))) }
    ensures err { OnErr result ((footprints : Footprints) → IsIndexOf index.old footprints → footprints number ≡ None → IsIndexOf index.new footprints) }
{
    let (reads, runs) = kept.reads();
    index.add(number, reads, runs, kept.before())
}

// Adds what is kept of a fill at its number, which has no footprint.
fn add_filled(
    alloc: Global,
    index: &mut FootIndex,
    number: u64,
    filled: &FilledCells<'_>,
) -> Result<(), NoMemory>
    ensures ok { OnOk result ((footprints : Footprints) → IsIndexOf index.old footprints → footprints number ≡ None →
        IsIndexOf index.new (with_footprint footprints number (Some (footprint (array_reads filled.now.array.now (filled_in filled.now)) (filled_in filled.now))))) }
    ensures err { OnErr result ((footprints : Footprints) → IsIndexOf index.old footprints → footprints number ≡ None → IsIndexOf index.new footprints) }
{
    let Ok(cells) = filled.changes(alloc) else {
        return Err(NoMemory);
    };
    match runs_of(&cells) {
        Some(runs) => index.add_runs(number, &[filled.object()], runs),
        None => Err(NoMemory),
    }
}

// Takes away what is kept of an edit at its number, or nothing where that wants memory and none is left.
fn take_kept(
    alloc: Global,
    index: &mut FootIndex,
    number: u64,
    kept: &LentKept<'_>,
) -> Result<(), NoMemory>
    ensures { OnOk result ((footprints : Footprints) → IsIndexOf index.old footprints → footprints number ≡ Some (lent_kept kept.now) →
        IsIndexOf index.new (with_footprint footprints number None)) }
{
    match kept {
        LentKept::Listed(listed) => {
            take_listed(index, number, listed);
            Ok(())
        }
        LentKept::Filled(filled) => take_filled(alloc, index, number, filled),
    }
}

// Takes away what is kept of an edit, with a list of what its cells were, at its number.
fn take_listed(index: &mut FootIndex, number: u64, kept: &LentFootprint<'_>)
    ensures { (footprints : Footprints) → IsIndexOf index.old footprints → footprints number ≡ Some (lent_footprint kept.now) →
        IsIndexOf index.new (with_footprint footprints number None) }
{
    let (reads, runs) = kept.reads();
    index.take(number, reads, runs, kept.before());
}

// Takes away what is kept of a fill at its number, or nothing where no memory is left for the list of its cells.
fn take_filled(
    alloc: Global,
    index: &mut FootIndex,
    number: u64,
    filled: &FilledCells<'_>,
) -> Result<(), NoMemory>
    ensures { OnOk result ((footprints : Footprints) → IsIndexOf index.old footprints →
        footprints number ≡ Some (footprint (array_reads filled.now.array.now (filled_in filled.now)) (filled_in filled.now)) →
        IsIndexOf index.new (with_footprint footprints number None)) }
{
    let Ok(cells) = filled.changes(alloc) else {
        return Err(NoMemory);
    };
    match runs_of(&cells) {
        Some(runs) => {
            index.take_runs(number, &[filled.object()], runs);
            Ok(())
        }
        None => Err(NoMemory),
    }
}

// The number of the first edit after a place that needs one that wrote the cells, where the edits are gone through.
fn first_to_need(entries: &[EditRecord], at: usize, before: &LentCells<'_>) -> Option<u64>
    requires in_log { at < length entries.now }
    requires few { length entries.now < 2 ^ 63 }
    ensures { result ≡ first_from (blocks_undo (lent_cells before.now)) (at + 2) (drop (at + 1) (kept_all entries.now)) }
{
    let later = later_than(entries, at);
    blockers::first_to_block_undo(later, at as u64 + 2, before)
}

fn later_than(entries: &[EditRecord], at: usize) -> &[EditRecord]
    requires { at < length entries.now }
    ensures { result.now ≡ drop (at + 1) entries.now }
{
    &entries[at + 1..]
}

// The number of the first edit after a place that needs, or is needed by, a new value of an element that is there, where the edits
// are gone through.
fn first_listed(entries: &[EditRecord], at: usize, element: &ElementSet) -> Option<u64>
    requires in_log { at < length entries.now }
    requires few { length entries.now < 2 ^ 63 }
    ensures { result ≡ redo_blocker entries.now at (element_reads element.now.array element.now.place)
        (element_set element.now.array element.now.place element.now.value) }
{
    let to = Some(Value::Number(element.value));
    let delta = Changes::one(CellChange::new(element.cell(), to));
    let later = later_than(entries, at);
    blockers::first_to_block_redo(later, at as u64 + 2, &element.reads(), &[], &delta)
}

// The lesser of two numbers, where there are some.
fn earlier(a: Option<u64>, b: Option<u64>) -> Option<u64>
    ensures { (p q : ℕ → Bool) (after : ℕ) → IsLeastAfter p after a → IsLeastAfter q after b → IsLeastAfter (λ n. p n || q n) after result }
{
    match (a, b) {
        (Some(i), Some(j)) => Some(if i < j { i } else { j }),
        (Some(i), None) => Some(i),
        (None, other) => other,
    }
}
