//! The latest edit in force.

ghost use Rattle.std.specs.Prelude.{◌≡◌, ℕ, ◌+◌, ◌^◌, ◌<◌, length, Some, None, OnOk, OnErr};
ghost use Rattle.selective_undo.specs.Log.{Footprint};
ghost use Rattle.wb_cells.specs.Schema.{workbook};
ghost use Rattle.wb_footprints.specs.Footprints.{Footprints, with_footprint};
ghost use Rattle.wb_log.specs.Indexed.{AreInForce};
ghost use Rattle.wb_log.specs.Kept.{IsLatest, by_number, kept_in, kept_all};

use crate::entry::EditRecord;
use crate::index::bound::LatestBound;
use std::alloc::Global;
use wb_footprints::Numbers;
use wb_range::NoMemory;

/// Which of the first `entered` edits are in force, and where the latest may be.
#[derive(Drop)]
pub(crate) struct InForce {
    alloc: Global,
    numbers: Numbers,
    entered: usize,
    bound: LatestBound,
}

impl InForce {
    /// No edit has entered.
    pub(crate) fn new(alloc: Global) -> InForce
        ensures { (count : ℕ) (footprints : Footprints) → footprints 0 ≡ None → AreInForce result count footprints }
    {
        let numbers = Numbers::new(alloc);
        let bound = LatestBound::new();
        InForce {
            alloc,
            numbers,
            entered: 0,
            bound,
        }
    }

    /// The next edit enters, or none where no memory is left.
    fn enter(&mut self, entry: &EditRecord) -> Result<(), NoMemory>
        requires { self.old.entered < 2 ^ 63 }
        ensures ok { OnOk result ((count : ℕ) (footprints : Footprints) → AreInForce self.old count footprints → self.old.entered < count →
            footprints (self.old.entered + 1) ≡ kept_in entry.now → AreInForce self.new count footprints) }
        ensures next { OnOk result (self.new.entered ≡ self.old.entered + 1) }
        ensures err { OnErr result ((count : ℕ) (footprints : Footprints) → AreInForce self.old count footprints → AreInForce self.new count footprints) }
    {
        if entry.is_in_force() {
            self.numbers.add(self.entered as u64 + 1)?;
        }
        self.entered += 1;
        Ok(())
    }

    /// Edits enter up to the last, or as far as memory goes.
    fn fill(&mut self, entries: &[EditRecord])
        requires few { length entries.now < 2 ^ 63 }
        requires indexed { AreInForce self.old (length entries.now) (by_number entries.now) }
        ensures indexed { AreInForce self.new (length entries.now) (by_number entries.now) }
    {
        while self.entered < entries.len() {
            let next = &entries[self.entered];
            match self.enter(next) {
                Ok(()) => {}
                Err(_) => return,
            }
        }
    }

    /// The place of the latest edit in force.
    pub(crate) fn latest(&mut self, entries: &[EditRecord]) -> Option<usize>
        requires few { length entries.now < 2 ^ 63 }
        requires indexed { AreInForce self.old (length entries.now) (by_number entries.now) }
        ensures latest { IsLatest (kept_all entries.now) result }
        ensures indexed { AreInForce self.new (length entries.now) (by_number entries.now) }
    {
        match self.bound.latest(entries) {
            Some(at) => Some(at),
            None => self.latest_of_all(entries),
        }
    }

    // The place of the latest edit in force, where it may be any.
    fn latest_of_all(&mut self, entries: &[EditRecord]) -> Option<usize>
        requires few { length entries.now < 2 ^ 63 }
        requires indexed { AreInForce self.old (length entries.now) (by_number entries.now) }
        ensures latest { IsLatest (kept_all entries.now) result }
        ensures indexed { AreInForce self.new (length entries.now) (by_number entries.now) }
    {
        self.fill(entries);
        if self.entered < entries.len() {
            return latest_from_the_end(entries);
        }
        match self.numbers.greatest() {
            None => None,
            Some(number) => Some((number - 1) as usize),
        }
    }

    /// The edit at a place is out of force.
    pub(crate) fn left_force(&mut self, at: usize)
        requires { at < 2 ^ 63 }
        ensures { (count : ℕ) (footprints : Footprints) → AreInForce self.old count footprints →
            AreInForce self.new count (with_footprint footprints (at + 1) None) }
    {
        if at < self.entered {
            self.numbers.take(at as u64 + 1);
        }
        self.bound.left_force(at);
    }

    /// The edit at a place is in force again. Where no memory is left for it, none has entered.
    pub(crate) fn back_in_force(&mut self, at: usize)
        requires { at < 2 ^ 63 }
        ensures { (count : ℕ) (footprints : Footprints) (f : Footprint workbook) → AreInForce self.old count footprints →
            AreInForce self.new count (with_footprint footprints (at + 1) (Some f)) }
    {
        self.bound.back_in_force(at);
        if at >= self.entered {
            return;
        }
        if self.numbers.add(at as u64 + 1).is_err() {
            *self = InForce::new(self.alloc);
        }
    }
}

/// The place of the latest edit in force, found from the end.
fn latest_from_the_end(entries: &[EditRecord]) -> Option<usize>
    ensures { IsLatest (kept_all entries.now) result }
{
    let mut at = entries.len();
    while at > 0 {
        at -= 1;
        if entries[at].is_in_force() {
            return Some(at);
        }
    }
    None
}
