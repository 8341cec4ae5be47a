ghost use Rattle.std.specs.Prelude.{◌≡◌, ◌≢◌, ℕ, ◌+◌, ◌↔◌, ◌⊎◌, List, [], length, IfOk, IfErr, OnOk, OnErr, slice_get, Some};
ghost use Rattle.std.specs.List.{Contains};
ghost use Rattle.std.specs.List.Sorted.{IsStrictlySortedBy};
ghost use Rattle.wb_range.specs.Domain.{IsListedOnce};
ghost use Rattle.wb_sets.specs.Merge.{IsKept};
ghost use Rattle.wb_sets.specs.Places.{IsGap};

use crate::merging::{DIFFERENCE, INTERSECTION, KeptKeys, SYMMETRIC_DIFFERENCE, UNION, merge};
use std::alloc::Global;
use std::marker::Model;
use wb_range::{Domain, Key, NoMemory};

/// A finite set of indices in ascending order: an associative domain of the Chapel Language Specification ("Domains").
///
/// `K` is `i64` or [`Label`](crate::Label) where a caller names the indices, and `[i64; R]` for the indices of a
/// sparse domain. Contracts see a set as the ascending list of its indices.
///
/// [`nth`](Domain::nth) takes constant time, [`place_of`](Domain::place_of) and [`contains`](Domain::contains) a binary
/// search.
#[derive(Drop)]
pub struct Assoc<K: Key> {
    keys: Vec<K>,
    alloc: Global,
}

impl<K: Key> Model for Assoc<K> {
    ghost use Rattle.std.specs.Prelude.{List};
    ghost use Rattle.std.specs.List.Sorted.{IsStrictlySortedBy};

    ghost Value = { List K };

    ghost view = { λ a. a.keys.items };

    ghost invariant = { λ a. IsStrictlySortedBy K.cmp a.keys.items };
}

impl<K: Key> Assoc<K> {
    /// The set without indices. It takes no memory.
    pub fn empty(alloc: Global) -> Assoc<K>
        ensures { result ≡ [] }
    {
        Assoc {
            keys: Vec::new(alloc),
            alloc,
        }
    }

    /// The set of the indices in `keys`, which may stand in any order and more than once.
    ///
    /// It takes the time of a sort, where adding one by one moves the greater indices each time.
    pub fn from_slice(alloc: Global, keys: &[K]) -> Result<Assoc<K>, NoMemory>
        ensures members { IfOk result (λ r. (k : K) → Contains r k ↔ Contains keys.now k) }
        ensures ascending { IfOk result (λ r. IsStrictlySortedBy K.cmp r) }
    {
        let Ok(mut ascending) = Vec::from_slice(alloc, keys) else {
            return Err(NoMemory);
        };
        ascending.sort_unstable();
        ascending.dedup();
        Ok(Assoc {
            keys: ascending,
            alloc,
        })
    }

    /// The indices, in ascending order.
    pub fn as_slice(&self) -> &[K]
        ensures { result.now ≡ self.now }
    {
        &self.keys[..]
    }

    /// An equal set, or [`NoMemory`] where none is left for it.
    pub fn copy(&self, alloc: Global) -> Result<Assoc<K>, NoMemory>
        ensures { IfOk result (λ r. r ≡ self.now) }
    {
        let Ok(keys) = Vec::from_slice(alloc, self.keys.as_slice()) else {
            return Err(NoMemory);
        };
        Ok(Assoc { keys, alloc })
    }

    /// Adds `key`, and says how many indices that were not there: 0 or 1.
    ///
    /// Where `key` is there already nothing changes and no memory is taken. After [`NoMemory`] the set is as it was.
    pub fn add(&mut self, key: K) -> Result<usize, NoMemory>
        ensures members { OnOk result ((k : K) → Contains self.new k ↔ (Contains self.old k ⊎ (k ≡ key))) }
        ensures count { IfOk result (λ n. length self.new ≡ length self.old + n) }
        ensures ascending { IsStrictlySortedBy K.cmp self.new }
        ensures present { Contains self.old key → (result ≡ Ok 0) × (self.new ≡ self.old) }
        ensures absent { ¬ (Contains self.old key) → IfOk result (λ n. n ≡ 1) }
        ensures err { OnErr result (self.new ≡ self.old) }
    {
        match lookup(self.keys.as_slice(), key) {
            Ok(_) => Ok(0),
            Err(p) => {
                if self.keys.insert(p, key).is_err() {
                    return Err(NoMemory);
                }
                Ok(1)
            }
        }
    }

    /// Removes `key`, and says how many indices that were there: 0 or 1. It takes no memory.
    pub fn remove(&mut self, key: K) -> usize
        ensures members { (k : K) → Contains self.new k ↔ (Contains self.old k × (k ≢ key)) }
        ensures count { length self.old ≡ length self.new + result }
        ensures ascending { IsStrictlySortedBy K.cmp self.new }
        ensures present { Contains self.old key → result ≡ 1 }
        ensures absent { ¬ (Contains self.old key) → (result ≡ 0) × (self.new ≡ self.old) }
    {
        match lookup(self.keys.as_slice(), key) {
            Ok(p) => {
                self.keys.remove(p);
                1
            }
            Err(_) => 0,
        }
    }

    /// The indices of either set: Chapel's `|` and `+`.
    pub fn union(&self, other: &Assoc<K>) -> Result<Assoc<K>, NoMemory>
        ensures members { IfOk result (λ r. (k : K) → Contains r k ↔ (Contains self.now k ⊎ Contains other.now k)) }
        ensures ascending { IfOk result (λ r. IsStrictlySortedBy K.cmp r) }
    {
        self.merged_with(other, UNION)
    }

    /// The indices of both sets: Chapel's `&`.
    pub fn intersection(&self, other: &Assoc<K>) -> Result<Assoc<K>, NoMemory>
        ensures members { IfOk result (λ r. (k : K) → Contains r k ↔ (Contains self.now k × Contains other.now k)) }
        ensures ascending { IfOk result (λ r. IsStrictlySortedBy K.cmp r) }
    {
        self.merged_with(other, INTERSECTION)
    }

    /// The indices that the other set doesn't have: Chapel's `-`.
    pub fn difference(&self, other: &Assoc<K>) -> Result<Assoc<K>, NoMemory>
        ensures members { IfOk result (λ r. (k : K) → Contains r k ↔ (Contains self.now k × (¬ (Contains other.now k)))) }
        ensures ascending { IfOk result (λ r. IsStrictlySortedBy K.cmp r) }
    {
        self.merged_with(other, DIFFERENCE)
    }

    /// The indices of exactly one of the two sets: Chapel's `^`.
    pub fn symmetric(&self, other: &Assoc<K>) -> Result<Assoc<K>, NoMemory>
        ensures members { IfOk result (λ r. (k : K) → Contains r k
            ↔ ((Contains self.now k × (¬ (Contains other.now k))) ⊎ ((¬ (Contains self.now k)) × Contains other.now k))) }
        ensures ascending { IfOk result (λ r. IsStrictlySortedBy K.cmp r) }
    {
        self.merged_with(other, SYMMETRIC_DIFFERENCE)
    }

    // The indices that a set operation keeps, in one pass over both sets.
    fn merged_with(&self, other: &Assoc<K>, kept: KeptKeys) -> Result<Assoc<K>, NoMemory>
        ensures members { IfOk result (λ r. (k : K) → Contains r k ↔ IsKept kept self.now other.now k) }
        ensures ascending { IfOk result (λ r. IsStrictlySortedBy K.cmp r) }
    {
        let keys = merge(
            self.alloc,
            self.keys.as_slice(),
            other.keys.as_slice(),
            kept,
        )?;
        Ok(Assoc {
            keys,
            alloc: self.alloc,
        })
    }
}

impl<K: Key> Domain for Assoc<K> {
    type Index = K;

    ghost indices = { λ a. a };

    fn size(&self) -> usize
        ensures count { result ≡ length self.now }
        ensures once { IsListedOnce self.now }
        ensures ascending { IsStrictlySortedBy K.cmp self.now }
    {
        self.keys.len()
    }

    fn nth(&self, p: usize) -> Option<K> {
        self.keys.get(p).copied()
    }

    fn place_of(&self, i: K) -> Option<usize> {
        place_in(self.keys.as_slice(), i)
    }

    fn contains(&self, i: K) -> bool {
        self.place_of(i).is_some()
    }
}

// The place of `key` in ascending keys.
fn place_in<K: Key>(keys: &[K], key: K) -> Option<usize>
    requires { IsStrictlySortedBy K.cmp keys.now }
    ensures { (p : ℕ) → (result ≡ Some p) ↔ (slice_get keys.now p ≡ Some key) }
{
    lookup(keys, key).ok()
}

// The place of `key` in ascending keys, or the one where it would stand.
fn lookup<K: Key>(keys: &[K], key: K) -> Result<usize, usize>
    requires { IsStrictlySortedBy K.cmp keys.now }
    ensures found { IfOk result (λ p. slice_get keys.now p ≡ Some key) }
    ensures gap { IfErr result (λ p. IsGap K.cmp keys.now key p) }
{
    keys.binary_search(&key)
}
