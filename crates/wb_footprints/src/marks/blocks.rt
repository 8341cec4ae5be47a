//! Blocks: many indices of one object, and the numbers that stand at all of them.

ghost use Rattle.std.specs.Prelude.{◌≡◌, ℕ, Bool, ◌&&◌, ◌||◌, ◌==◌, true, false, List, [], length, take, ◌<◌, ◌≤◌, ◌+◌, ◌-◌};
ghost use Rattle.std.specs.Prelude.{IfSome, IsSome, OnOk, IsTrue, slice_index_or, if◌then◌else◌};
ghost use Rattle.std.specs.List.{list_any};
ghost use Rattle.wb_footprints.specs.Relation.{Sets, IsLeastAfter, JoinedAfter};
ghost use Rattle.wb_cells.specs.declared.values.index.Index.{Index};
ghost use Rattle.wb_footprints.specs.Indices.{in_indices};
ghost use Rattle.wb_footprints.specs.Numbers.{numbered};
ghost use Rattle.wb_footprints.specs.Blocks.{in_blocks};

use crate::marks::numbers::Numbers;
use crate::places::indices::Indices;
use std::alloc::Global;
use wb_range::NoMemory;

/// A block as it comes: one number at some indices.
#[derive(Drop)]
pub struct NewBlock {
    pub(crate) number: u64,
    pub(crate) indices: Indices,
}

/// Indices at each of which the same numbers stand.
#[derive(Drop)]
pub struct MarkBlock {
    pub(crate) indices: Indices,
    pub(crate) numbers: Numbers,
}

impl MarkBlock {
    /// The lesser of the block's least number above `after`, where it stands at one of several indices, and of a first one.
    fn or_first_in(&self, first: Option<u64>, indices: &Indices, after: u64) -> Option<u64>
        ensures { (p : ℕ → Bool) → IsLeastAfter p after first →
            IsLeastAfter (λ n. p n || (list_any (in_indices self.now.indices) indices.now && numbered self.now.numbers n)) after result }
    {
        match self.numbers.least_after(after) {
            None => first,
            Some(number) => {
                if is_reached(first, number) {
                    return first;
                }
                if self.indices.meets(indices) {
                    Some(number)
                } else {
                    first
                }
            }
        }
    }

    /// The block's numbers above `after`, where they stand at one of several indices, join those that wait.
    fn join_in(&self, indices: &Indices, after: u64, waiting: &mut Numbers) -> Result<(), NoMemory>
        ensures { OnOk result (JoinedAfter waiting.old waiting.new
            (λ n. list_any (in_indices self.now.indices) indices.now && numbered self.now.numbers n) after) }
    {
        if self.numbers.least_after(after).is_none() {
            return Ok(());
        }
        if self.indices.meets(indices) {
            return self.numbers.join_after(after, waiting);
        }
        Ok(())
    }
}

// Whether a first number, if there is one, is no greater than another.
fn is_reached(first: Option<u64>, number: u64) -> bool
    ensures reached { IsTrue result → IfSome first (λ i. i ≤ number) }
    ensures some { IsTrue result → IsSome first }
    ensures before { result ≡ false → IfSome first (λ i. number < i) }
{
    match first {
        Some(least) => least <= number,
        None => false,
    }
}

/// Blocks in no order, no two of which are seen to be of the same indices.
#[derive(Drop)]
pub struct Blocks {
    alloc: Global,
    list: Vec<MarkBlock>,
}

impl Blocks {
    /// No blocks.
    pub fn new(alloc: Global) -> Blocks
        ensures { result.list.items ≡ [] }
    {
        Blocks {
            alloc,
            list: Vec::new(alloc),
        }
    }

    /// Adds a number at some indices: to the block of these, or as a block of its own. It says whether there was memory for it.
    pub fn add(&mut self, block: NewBlock) -> bool
        ensures { Sets (in_blocks self.old.list.items) (in_blocks self.new.list.items) (λ p. result && in_indices block.indices p) block.number true }
    {
        match self.place_of(&block.indices) {
            Some(place) => self.add_at(place, block.number),
            None => self.put(block),
        }
    }

    // The place of the block of some indices.
    fn place_of(&self, indices: &Indices) -> Option<usize>
        ensures { IfSome result (λ i. (i < length self.now.list.items) ×
            ((d : MarkBlock) → (slice_index_or self.now.list.items i d).indices ≡ indices.now)) }
    {
        let mut place = 0;
        for block in &self.list {
            if block.indices.is_same(indices) {
                return Some(place);
            }
            place += 1;
        }
        None
    }

    // Adds a number to the block at a place, and says whether there was memory for it.
    fn add_at(&mut self, place: usize, number: u64) -> bool
        requires { place < length self.old.list.items }
        ensures { (ps : List Index) → ((d : MarkBlock) → (slice_index_or self.old.list.items place d).indices ≡ ps) →
            Sets (in_blocks self.old.list.items) (in_blocks self.new.list.items) (λ p. result && in_indices ps p) number true }
    {
        match self.list[place].numbers.add(number) {
            Ok(()) => true,
            Err(_) => false,
        }
    }

    // Adds a block of one number, and says whether there was memory for it.
    fn put(&mut self, block: NewBlock) -> bool
        ensures { Sets (in_blocks self.old.list.items) (in_blocks self.new.list.items) (λ p. result && in_indices block.indices p) block.number true }
    {
        let mut numbers = Numbers::new(self.alloc);
        if numbers.add(block.number).is_err() {
            return false;
        }
        let indices = block.indices;
        match self.list.push(MarkBlock { indices, numbers }) {
            Ok(()) => true,
            Err(_) => false,
        }
    }

    /// Takes a number away from all blocks, and those blocks that have no number any more.
    pub fn take(&mut self, number: u64)
        ensures { Sets (in_blocks self.old.list.items) (in_blocks self.new.list.items) (λ p. true) number false }
    {
        let mut place = 0;
        while place < self.list.len() {
            if self.take_at(place, number) {
                place += 1;
            }
        }
    }

    // Takes a number away from the block at a place, and the block where it has none any more; says whether the block stays.
    fn take_at(&mut self, place: usize, number: u64) -> bool
        requires { place < length self.old.list.items }
        ensures others { (p : Index) (n : ℕ) → (number == n) ≡ false → in_blocks self.new.list.items p n ≡ in_blocks self.old.list.items p n }
        ensures gone { (p : Index) → in_blocks (take place self.old.list.items) p number ≡ false →
            in_blocks (take (if result then place + 1 else place) self.new.list.items) p number ≡ false }
        ensures count { length self.new.list.items ≡ (if result then length self.old.list.items else length self.old.list.items - 1) }
    {
        self.list[place].numbers.take(number);
        if self.list[place].numbers.is_empty() {
            self.list.remove(place);
            return false;
        }
        true
    }

    /// Whether there is no block.
    pub fn is_empty(&self) -> bool
        ensures { IsTrue result → (p : Index) (n : ℕ) → in_blocks self.now.list.items p n ≡ false }
    {
        self.list.is_empty()
    }

    /// The least number above `after` at one of several indices, block by block: one of a number that can't be the least is
    /// not looked into.
    pub fn least_in(&self, indices: &Indices, after: u64) -> Option<u64>
        ensures { IsLeastAfter (λ n. list_any (λ p. in_blocks self.now.list.items p n) indices.now) after result }
    {
        let mut first = None;
        for block in &self.list {
            first = block.or_first_in(first, indices, after);
        }
        first
    }

    /// Those above `after` at one of several indices join the numbers that wait, each block once.
    pub fn join_in(
        &self,
        indices: &Indices,
        after: u64,
        waiting: &mut Numbers,
    ) -> Result<(), NoMemory>
        ensures { OnOk result (JoinedAfter waiting.old waiting.new
            (λ n. list_any (λ p. in_blocks self.now.list.items p n) indices.now) after) }
    {
        for block in &self.list {
            block.join_in(indices, after, waiting)?;
        }
        Ok(())
    }
}
