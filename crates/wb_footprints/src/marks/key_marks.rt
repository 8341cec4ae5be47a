//! Which numbers stand at which keys.

ghost use Rattle.std.specs.Prelude.{◌≡◌, ℕ, false, true, IsTrue, IfNone, IfSome, OnOk, OnErr};
ghost use Rattle.std.specs.Ordering.{eq_by_cmp};
ghost use Rattle.std.specs.declared.cmp.Ordering.TheVariants.{Less};
ghost use Rattle.wb_footprints.specs.Relation.{Sets, IsLeastAfter, JoinedAfter};
ghost use Rattle.wb_footprints.specs.Marks.{marked, pair_cmp};

use crate::marks::numbers::Numbers;
use std::alloc::Global;
use std::collections::BTreeSet;
use std::ops::Bound;
use wb_range::NoMemory;

/// Numbers at keys.
#[derive(Drop)]
pub struct Marks<K: Copy + Ord> {
    set: BTreeSet<(K, u64)>,
}

impl<K: Copy + Ord> Marks<K> {
    /// No marks.
    pub fn new(alloc: Global) -> Marks<K>
        ensures { (k : K) (n : ℕ) → marked K.cmp result k n ≡ false }
    {
        Marks {
            set: BTreeSet::new(alloc),
        }
    }

    /// Whether no number stands at any key.
    pub fn is_empty(&self) -> bool
        ensures { IsTrue result → (k : K) (n : ℕ) → marked K.cmp self.now k n ≡ false }
    {
        self.set.is_empty()
    }

    /// Adds a number at a key.
    pub fn add(&mut self, key: K, number: u64) -> Result<(), NoMemory>
        ensures ok { OnOk result (Sets (marked K.cmp self.old) (marked K.cmp self.new) (eq_by_cmp K.cmp key) number true) }
        ensures err { OnErr result (self.new ≡ self.old) }
    {
        match self.set.insert((key, number)) {
            Ok(_) => Ok(()),
            Err(_) => Err(NoMemory),
        }
    }

    /// Takes a number away from a key.
    pub fn take(&mut self, key: K, number: u64)
        ensures { Sets (marked K.cmp self.old) (marked K.cmp self.new) (eq_by_cmp K.cmp key) number false }
    {
        self.set.remove(&(key, number));
    }

    /// The least number above `after` at a key.
    pub fn least_after(&self, key: K, after: u64) -> Option<u64>
        ensures { IsLeastAfter (marked K.cmp self.now key) after result }
    {
        if self.is_empty() {
            return None;
        }
        let from = (Bound::Excluded((key, after)), Bound::Unbounded);
        match self.set.range(from).next() {
            None => None,
            Some((found, number)) => { if *found == key { Some(*number) } else { None } }
        }
    }

    /// Those above `after` at a key join the numbers that wait.
    pub fn join_after(&self, key: K, after: u64, waiting: &mut Numbers) -> Result<(), NoMemory>
        ensures { OnOk result (JoinedAfter waiting.old waiting.new (marked K.cmp self.now key) after) }
    {
        let mut from = after;
        while let Some(number) = self.least_after(key, from) {
            waiting.add(number)?;
            from = number;
        }
        Ok(())
    }

    /// The first mark behind a key and a number: marks go by their keys, and those at one key by their numbers.
    pub fn first_behind(&self, key: K, after: u64) -> Option<(K, u64)>
        ensures behind { IfSome result (λ r. pair_cmp K.cmp (key, after) r ≡ Less) }
        ensures mark { IfSome result (λ r. marked K.cmp self.now r.0 r.1 ≡ true) }
        ensures first { IfSome result (λ r. (k : K) (n : ℕ) → pair_cmp K.cmp (key, after) (k, n) ≡ Less → pair_cmp K.cmp (k, n) r ≡ Less →
            marked K.cmp self.now k n ≡ false) }
        ensures none { IfNone result ((k : K) (n : ℕ) → pair_cmp K.cmp (key, after) (k, n) ≡ Less → marked K.cmp self.now k n ≡ false) }
    {
        let from = (Bound::Excluded((key, after)), Bound::Unbounded);
        match self.set.range(from).next() {
            None => None,
            Some((found, number)) => Some((*found, *number)),
        }
    }
}
