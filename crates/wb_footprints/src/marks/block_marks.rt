//! Blocks of one object, of all reaches.

ghost use Rattle.std.specs.Prelude.{◌≡◌, ℕ, ◌+◌, ◌<◌, ◌≤◌, Bool, ◌&&◌, ◌==◌, true, false, [], ◌∷◌, ◌++◌, length, take, IsTrue, IfSome, OnOk, OnErr, slice_index_or};
ghost use Rattle.std.specs.List.{list_any};
ghost use Rattle.wb_footprints.specs.declared.marks.reach_marks.ReachMarks as own;
ghost use Rattle.wb_footprints.specs.Keys.{index_key};
ghost use Rattle.wb_cells.specs.declared.values.index.Index.{Index};
ghost use Rattle.wb_footprints.specs.Indices.{in_indices};
ghost use Rattle.wb_footprints.specs.Reaches.{in_reaches};
ghost use Rattle.wb_footprints.specs.Relation.{Sets, IsLeastAfter, JoinedAfter};

use crate::marks::blocks::NewBlock;
use crate::marks::earlier::earlier;
use crate::marks::numbers::Numbers;
use crate::marks::reach_marks::ReachMarks;
use crate::places::indices::Indices;
use crate::places::keys::reach_of;
use std::alloc::Global;
use wb_cells::AnyIndex;
use wb_range::NoMemory;

/// Blocks by their reaches: the few that `reach_of` gives.
#[derive(Drop)]
pub struct BlockMarks {
    alloc: Global,
    pub(crate) reaches: Vec<ReachMarks>,
}

impl BlockMarks {
    /// No blocks.
    pub fn new(alloc: Global) -> BlockMarks
        ensures { result.reaches.items ≡ [] }
    {
        BlockMarks {
            alloc,
            reaches: Vec::new(alloc),
        }
    }

    /// Adds a number at some indices, and says whether it did: not where there is no index, or no memory is left.
    pub fn add(&mut self, block: NewBlock) -> bool
        ensures { Sets (in_reaches self.old.reaches.items) (in_reaches self.new.reaches.items) (λ p. result && in_indices block.indices p) block.number true }
    {
        if block.indices.len() == 0 {
            return false;
        }
        let (low, high) = block.indices.ends();
        let reach = reach_of(high - low);
        match self.place_of(reach) {
            Some(place) => self.add_at(place, low, block),
            None => self.put(reach, low, block),
        }
    }

    // The place of a reach.
    fn place_of(&self, reach: u64) -> Option<usize>
        ensures { IfSome result (λ i. (i < length self.now.reaches.items) ×
            ((d : own.ReachMarks) → (slice_index_or self.now.reaches.items i d).reach ≡ reach)) }
    {
        let mut place = 0;
        for marks in &self.reaches {
            if marks.reach == reach {
                return Some(place);
            }
            place += 1;
        }
        None
    }

    // Adds a number at indices that begin at a key, to the reach at a place, and says whether there was memory for it.
    fn add_at(&mut self, place: usize, key: u64, block: NewBlock) -> bool
        requires place { place < length self.old.reaches.items }
        requires first { 0 < key }
        requires within { (d : own.ReachMarks) (p : Index) → in_indices block.indices p ≡ true →
            (key ≤ index_key p) × (index_key p ≤ key + (slice_index_or self.old.reaches.items place d).reach) }
        ensures { Sets (in_reaches self.old.reaches.items) (in_reaches self.new.reaches.items) (λ p. result && in_indices block.indices p) block.number true }
    {
        self.reaches[place].add(key, block)
    }

    // Adds a number at indices that begin at a key, by a reach of its own, and says whether there was memory for it.
    fn put(&mut self, reach: u64, key: u64, block: NewBlock) -> bool
        requires first { 0 < key }
        requires within { (p : Index) → in_indices block.indices p ≡ true → (key ≤ index_key p) × (index_key p ≤ key + reach) }
        ensures { Sets (in_reaches self.old.reaches.items) (in_reaches self.new.reaches.items) (λ p. result && in_indices block.indices p) block.number true }
    {
        let mut marks = ReachMarks::new(self.alloc, reach);
        if !marks.add(key, block) {
            return false;
        }
        match self.keep(marks) {
            Ok(()) => true,
            Err(_) => false,
        }
    }

    // Keeps the blocks of one more reach.
    fn keep(&mut self, marks: ReachMarks) -> Result<(), NoMemory>
        ensures ok { OnOk result (self.new.reaches.items ≡ self.old.reaches.items ++ marks ∷ []) }
        ensures err { OnErr result (self.new.reaches.items ≡ self.old.reaches.items) }
    {
        match self.reaches.push(marks) {
            Ok(()) => Ok(()),
            Err(_) => Err(NoMemory),
        }
    }

    /// Takes a number away from all blocks.
    pub fn take(&mut self, number: u64)
        ensures { Sets (in_reaches self.old.reaches.items) (in_reaches self.new.reaches.items) (λ p. true) number false }
    {
        let mut place = 0;
        while place < self.reaches.len() {
            self.take_at(place, number);
            place += 1;
        }
    }

    // Takes a number away from all blocks of the reach at a place.
    fn take_at(&mut self, place: usize, number: u64)
        requires { place < length self.old.reaches.items }
        ensures others { (p : Index) (n : ℕ) → (number == n) ≡ false → in_reaches self.new.reaches.items p n ≡ in_reaches self.old.reaches.items p n }
        ensures gone { (p : Index) → in_reaches (take place self.old.reaches.items) p number ≡ false →
            in_reaches (take (place + 1) self.new.reaches.items) p number ≡ false }
        ensures count { length self.new.reaches.items ≡ length self.old.reaches.items }
    {
        self.reaches[place].take(number);
    }

    /// Whether no block is seen to have the number.
    pub fn is_clear(&self, number: u64) -> bool
        ensures { IsTrue result → (p : Index) → in_reaches self.now.reaches.items p number ≡ false }
    {
        for marks in &self.reaches {
            if marks.may_have(number) {
                return false;
            }
        }
        true
    }

    /// The least number above `after` at one of several indices.
    pub fn least_in(&self, indices: &Indices, after: u64) -> Option<u64>
        ensures { IsLeastAfter (λ n. list_any (λ p. in_reaches self.now.reaches.items p n) indices.now) after result }
    {
        if indices.len() == 0 {
            return None;
        }
        let mut first = None;
        for marks in &self.reaches {
            first = earlier(first, marks.least_in(indices, after));
        }
        first
    }

    /// The least number above `after` at an index.
    pub fn least_after(&self, index: &AnyIndex, after: u64) -> Option<u64>
        ensures { IsLeastAfter (in_reaches self.now.reaches.items index.now) after result }
    {
        if self.reaches.is_empty() {
            return None;
        }
        self.least_in(&Indices::one(index), after)
    }

    /// Those above `after` at one of several indices join the numbers that wait.
    pub fn join_in(
        &self,
        indices: &Indices,
        after: u64,
        waiting: &mut Numbers,
    ) -> Result<(), NoMemory>
        ensures { OnOk result (JoinedAfter waiting.old waiting.new
            (λ n. list_any (λ p. in_reaches self.now.reaches.items p n) indices.now) after) }
    {
        if indices.len() == 0 {
            return Ok(());
        }
        for marks in &self.reaches {
            marks.join_in(indices, after, waiting)?;
        }
        Ok(())
    }

    /// Those above `after` at an index join the numbers that wait.
    pub fn join_after(
        &self,
        index: &AnyIndex,
        after: u64,
        waiting: &mut Numbers,
    ) -> Result<(), NoMemory>
        ensures { OnOk result (JoinedAfter waiting.old waiting.new (in_reaches self.now.reaches.items index.now) after) }
    {
        self.join_in(&Indices::one(index), after, waiting)
    }
}
