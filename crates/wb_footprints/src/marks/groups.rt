//! Blocks that are kept by keys.

ghost use Rattle.std.specs.Prelude.{◌≡◌, ℕ, Bool, ◌&&◌, ◌==◌, true, false, IsTrue, Some};
ghost use Rattle.std.specs.BTreeMap.{get};
ghost use Rattle.std.specs.Ordering.{nat_cmp};
ghost use Rattle.wb_footprints.specs.declared.marks.blocks.Blocks as own;
ghost use Rattle.wb_footprints.specs.Blocks.{in_blocks};
ghost use Rattle.wb_footprints.specs.Groups.{in_groups, is_apart, AreAll};
ghost use Rattle.wb_cells.specs.declared.values.index.Index.{Index};
ghost use Rattle.wb_footprints.specs.Indices.{in_indices};
ghost use Rattle.wb_footprints.specs.Relation.{Sets};

use crate::marks::blocks::{Blocks, NewBlock};
use std::alloc::Global;
use std::collections::BTreeMap;

/// Adds a number at some indices to the blocks of a key, and says whether there was memory for it.
pub(crate) fn add_to(
    alloc: Global,
    groups: &mut BTreeMap<u64, Blocks>,
    key: u64,
    block: NewBlock,
) -> bool
    ensures sets { Sets (in_groups groups.old.entries) (in_groups groups.new.entries) (λ p. result && in_indices block.indices p) block.number true }
    ensures all { (f : ℕ → Index → ℕ → Bool) → AreAll f groups.old.entries →
        ((p : Index) → in_indices block.indices p ≡ true → f key p block.number ≡ true) → AreAll f groups.new.entries }
{
    if let Some(blocks) = groups.get_mut(&key) {
        return blocks.add(block);
    }
    let mut blocks = Blocks::new(alloc);
    if !blocks.add(block) {
        return false;
    }
    match groups.insert(key, blocks) {
        Ok(_) => true,
        Err(_) => false,
    }
}

/// Takes a number away from the blocks of a key, and drops those that have none any more.
pub(crate) fn take_from(groups: &mut BTreeMap<u64, Blocks>, key: u64, number: u64)
    ensures others { (p : Index) (n : ℕ) → (number == n) ≡ false → in_groups groups.new.entries p n ≡ in_groups groups.old.entries p n }
    ensures all { (f : ℕ → Index → ℕ → Bool) → AreAll f groups.old.entries → AreAll (λ k p n. f k p n && is_apart key number k n) groups.new.entries }
{
    unmark_in(groups, key, number);
    drop_bare(groups, key);
}

// Takes a number away from the blocks of a key.
fn unmark_in(groups: &mut BTreeMap<u64, Blocks>, key: u64, number: u64)
    ensures others { (p : Index) (n : ℕ) → (number == n) ≡ false → in_groups groups.new.entries p n ≡ in_groups groups.old.entries p n }
    ensures all { (f : ℕ → Index → ℕ → Bool) → AreAll f groups.old.entries → AreAll (λ k p n. f k p n && is_apart key number k n) groups.new.entries }
{
    if let Some(blocks) = groups.get_mut(&key) {
        blocks.take(number);
    }
}

// Drops a key that has no blocks any more.
fn drop_bare(groups: &mut BTreeMap<u64, Blocks>, key: u64)
    ensures same { (p : Index) (n : ℕ) → in_groups groups.new.entries p n ≡ in_groups groups.old.entries p n }
    ensures all { (f : ℕ → Index → ℕ → Bool) → AreAll f groups.old.entries → AreAll f groups.new.entries }
{
    if is_bare(groups, key) {
        groups.remove(&key);
    }
}

// Whether a key has no blocks, or none any more.
fn is_bare(groups: &BTreeMap<u64, Blocks>, key: u64) -> bool
    ensures { IsTrue result → (v : own.Blocks) → get nat_cmp groups.now key ≡ Some v → (p : Index) (n : ℕ) → in_blocks v.list.items p n ≡ false }
{
    match groups.get(&key) {
        Some(blocks) => blocks.is_empty(),
        None => false,
    }
}
