//! Blocks of which none goes further than a reach, found by where they begin.

ghost use Rattle.std.specs.Prelude.{◌≡◌, ℕ, ◌+◌, ◌<◌, ◌≤◌, Bool, ◌&&◌, ◌==◌, true, false, length, OnOk};
ghost use Rattle.std.proofs.Props.{props};
ghost use Rattle.std.specs.List.{list_any};
ghost use Rattle.std.specs.BTreeMap.Range.{IsLeBy, IsLtBy, range_contains};
ghost use Rattle.std.specs.Ordering.{nat_cmp, eq_by_cmp};
ghost use Rattle.std.specs.Range.Bound.{IsForward};
ghost use Rattle.wb_footprints.specs.Groups.{in_groups, is_kept, AreAll};
ghost use Rattle.wb_footprints.specs.Keys.{index_key};
ghost use Rattle.wb_footprints.specs.Marks.{marked};
ghost use Rattle.wb_cells.specs.declared.values.index.Index.{Index};
ghost use Rattle.wb_footprints.specs.Indices.{in_indices};
ghost use Rattle.wb_footprints.specs.Relation.{Sets, IsLeastAfter, JoinedAfter};

use crate::marks::blocks::{Blocks, NewBlock};
use crate::marks::earlier::earlier;
use crate::marks::groups::{add_to, take_from};
use crate::marks::key_marks::Marks;
use crate::marks::numbers::Numbers;
use crate::places::indices::Indices;
use std::alloc::Global;
use std::collections::BTreeMap;
use std::ops::Bound;
use wb_range::NoMemory;

/// Blocks by the keys of their first indices; the key of no index of a block is further from that than the reach. A number that
/// some blocks have is kept with the keys of those.
#[derive(Drop)]
pub struct ReachMarks {
    alloc: Global,
    pub(crate) reach: u64,
    pub(crate) groups: BTreeMap<u64, Blocks>,
    homes: Marks<u64>,
    ghost kept: { AreAll (is_kept reach homes) groups.entries } by { Prim.hlevel props },
}

impl ReachMarks {
    /// No blocks.
    pub fn new(alloc: Global, reach: u64) -> ReachMarks
        ensures none { (p : Index) (n : ℕ) → in_groups result.groups.entries p n ≡ false }
        ensures reach { result.reach ≡ reach }
    {
        ReachMarks {
            alloc,
            reach,
            groups: BTreeMap::new(alloc),
            homes: Marks::new(alloc),
        }
    }

    /// Adds a number at indices that begin at a key, and says whether there was memory for it.
    pub fn add(&mut self, key: u64, block: NewBlock) -> bool
        requires first { 0 < key }
        requires within { (p : Index) → in_indices block.indices p ≡ true → (key ≤ index_key p) × (index_key p ≤ key + self.old.reach) }
        ensures { Sets (in_groups self.old.groups.entries) (in_groups self.new.groups.entries) (λ p. result && in_indices block.indices p) block.number true }
    {
        match self.homes.add(block.number, key) {
            Ok(()) => add_to(self.alloc, &mut self.groups, key, block),
            Err(_) => false,
        }
    }

    /// Takes a number away from all blocks, from the home with the least key on.
    pub fn take(&mut self, number: u64)
        ensures { Sets (in_groups self.old.groups.entries) (in_groups self.new.groups.entries) (λ p. true) number false }
    {
        let mut from = 0;
        while let Some(key) = self.homes.least_after(number, from) {
            self.take_home(key, number);
            from = key;
        }
    }

    // Takes a number away from the blocks of a key, which is its home no more.
    fn take_home(&mut self, key: u64, number: u64)
        ensures others { (p : Index) (n : ℕ) → (number == n) ≡ false →
            in_groups self.new.groups.entries p n ≡ in_groups self.old.groups.entries p n }
        ensures homes { Sets (marked nat_cmp self.old.homes) (marked nat_cmp self.new.homes) (eq_by_cmp nat_cmp number) key false }
    {
        take_from(&mut self.groups, key, number);
        self.homes.take(number, key);
    }

    /// Whether a block may have the number.
    pub fn may_have(&self, number: u64) -> bool
        ensures { result ≡ false → (p : Index) → in_groups self.now.groups.entries p number ≡ false }
    {
        self.homes.least_after(number, 0).is_some()
    }

    // The keys between which all blocks stand that meet some indices.
    fn near(&self, indices: &Indices) -> (Bound<u64>, Bound<u64>)
        requires { 0 < length indices.now }
        ensures forward { IsForward (IsLeBy nat_cmp) (IsLtBy nat_cmp) result.0 result.1 }
        ensures all { (p : Index) (k : ℕ) → in_indices indices.now p ≡ true → k ≤ index_key p → index_key p ≤ k + self.now.reach →
            range_contains nat_cmp result.0 result.1 k ≡ true }
    {
        let (low, high) = indices.ends();
        (
            Bound::Included(low.saturating_sub(self.reach)),
            Bound::Included(high),
        )
    }

    /// The least number above `after` at one of several indices, of the blocks that are near.
    pub fn least_in(&self, indices: &Indices, after: u64) -> Option<u64>
        requires { 0 < length indices.now }
        ensures { IsLeastAfter (λ n. list_any (λ p. in_groups self.now.groups.entries p n) indices.now) after result }
    {
        let mut first = None;
        for (_, blocks) in self.groups.range(self.near(indices)) {
            first = earlier(first, blocks.least_in(indices, after));
        }
        first
    }

    /// Those above `after` at one of several indices join the numbers that wait, of the blocks that are near.
    pub fn join_in(
        &self,
        indices: &Indices,
        after: u64,
        waiting: &mut Numbers,
    ) -> Result<(), NoMemory>
        requires { 0 < length indices.now }
        ensures { OnOk result (JoinedAfter waiting.old waiting.new
            (λ n. list_any (λ p. in_groups self.now.groups.entries p n) indices.now) after) }
    {
        for (_, blocks) in self.groups.range(self.near(indices)) {
            blocks.join_in(indices, after, waiting)?;
        }
        Ok(())
    }
}
