ghost use Rattle.std.specs.Prelude.{◌≡◌, ◌≢◌, ℕ, ◌+◌, ◌↔◌, ◌⊎◌, List, ℤ, [], length, IfOk, OnOk, OnErr, IsTrue};
ghost use Rattle.std.specs.List.{Contains};
ghost use Rattle.std.specs.List.Sorted.{IsStrictlySortedBy};
ghost use Rattle.std.specs.Ordering.{int_cmp};
ghost use Rattle.std.specs.Cmp.Lexicographic.{slice_cmp};
ghost use Rattle.wb_range.specs.Domain.{IsListedOnce};
ghost use Rattle.wb_rect.specs.Product.{product};
ghost use Rattle.wb_sets.specs.Subset.{Subset, AreInside};

use crate::Assoc;
use std::alloc::Global;
use std::marker::Model;
use thiserror::Error;
use wb_range::Domain;
use wb_rect::Rect;

/// Why a change of a sparse set is refused.
#[derive(Clone, Copy, Debug, PartialEq, Eq, Error)]
pub enum SparseErr {
    /// An index is outside the parent.
    #[error("an index is outside the parent")]
    OutOfParent,
    /// A growth was refused for want of memory.
    #[error("out of memory")]
    NoMemory,
}

/// A finite set of indices of a rectangle, its parent, in ascending order, compared from the left: a sparse domain of the
/// Chapel Language Specification ("Domains"). `R` is the rank, from 1 to 3.
///
/// Contracts see the ranges of the parent and the ascending list of the indices, each of which lies in the parent.
/// [`nth`](Domain::nth) takes constant time, [`place_of`](Domain::place_of) and [`contains`](Domain::contains) a binary
/// search.
#[derive(Drop)]
pub struct Sparse<const R: usize> {
    parent: Rect<R>,
    indices: Assoc<[i64; R]>,
}

impl<const R: usize> Model for Sparse<R> {
    ghost use Rattle.wb_sets.specs.Subset.{Subset, AreInside};

    ghost Value = { Subset };

    ghost view = { λ s. record { parent = s.parent; indices = s.indices } };

    ghost invariant = { λ s. AreInside s.indices s.parent };
}

impl<const R: usize> Sparse<R> {
    /// The set of `parent` without indices. It takes no memory.
    pub fn empty(alloc: Global, parent: Rect<R>) -> Sparse<R>
        ensures parent { result.parent ≡ parent.entry }
        ensures indices { result.indices ≡ [] }
    {
        Sparse {
            parent,
            indices: Assoc::empty(alloc),
        }
    }

    /// The set of `parent` with the indices in `indices`, which may stand in any order and more than once.
    ///
    /// [`SparseErr::OutOfParent`] exactly where one of them is outside of `parent`. It takes the time of a sort, where
    /// adding one by one moves the greater indices each time.
    pub fn from_slice(
        alloc: Global,
        parent: Rect<R>,
        indices: &[[i64; R]],
    ) -> Result<Sparse<R>, SparseErr>
        ensures parent { IfOk result (λ s. s.parent ≡ parent.entry) }
        ensures members { IfOk result (λ s. (i : List ℤ) → Contains s.indices i ↔ Contains indices.now i) }
        ensures ascending { IfOk result (λ s. IsStrictlySortedBy (slice_cmp int_cmp) s.indices) }
        ensures inside { OnOk result (AreInside indices.now parent.entry) }
        ensures out_of_parent { (result ≡ Err SparseErr.OutOfParent) ↔ (¬ AreInside indices.now parent.entry) }
    {
        if !are_inside(indices, &parent) {
            return Err(SparseErr::OutOfParent);
        }
        match Assoc::from_slice(alloc, indices) {
            Ok(indices) => Ok(Sparse { parent, indices }),
            Err(_) => Err(SparseErr::NoMemory),
        }
    }

    /// The rectangle that the indices lie in.
    pub fn parent(&self) -> Rect<R>
        ensures value { result ≡ self.now.parent }
        ensures inside { AreInside self.now.indices self.now.parent }
    {
        self.parent
    }

    /// Adds `index`, and says how many indices that were not there: 0 or 1.
    ///
    /// [`SparseErr::OutOfParent`] where `index` is outside the parent. Where it is there already nothing changes and no
    /// memory is taken. After an error the set is as it was.
    pub fn add(&mut self, index: [i64; R]) -> Result<usize, SparseErr>
        // The index is there afterwards, and is counted where it was not; the parent stays.
        ensures members { OnOk result ((i : List ℤ) → Contains self.new.indices i
            ↔ (Contains self.old.indices i ⊎ (i ≡ index.entry))) }
        ensures count { IfOk result (λ n. length self.new.indices ≡ length self.old.indices + n) }
        ensures ascending { OnOk result (IsStrictlySortedBy (slice_cmp int_cmp) self.new.indices) }
        ensures present { Contains self.old.indices index.entry → (result ≡ Ok 0) × (self.new ≡ self.old) }
        ensures absent { ¬ (Contains self.old.indices index.entry) → IfOk result (λ n. n ≡ 1) }
        ensures parent { self.new.parent ≡ self.old.parent }

        // The index is inside the parent; outside it is refused, and nothing changes.
        ensures inside { OnOk result (Contains (product self.old.parent) index.entry) }
        ensures out_of_parent { (result ≡ Err SparseErr.OutOfParent) ↔ (¬ Contains (product self.old.parent) index.entry) }
        ensures err { OnErr result (self.new ≡ self.old) }
    {
        if !self.parent.contains(index) {
            return Err(SparseErr::OutOfParent);
        }
        match self.indices.add(index) {
            Ok(n) => Ok(n),
            Err(_) => Err(SparseErr::NoMemory),
        }
    }

    /// Removes `index`, and says how many indices that were there: 0 or 1. It takes no memory.
    pub fn remove(&mut self, index: [i64; R]) -> usize
        ensures members { (i : List ℤ) → Contains self.new.indices i ↔ (Contains self.old.indices i × (i ≢ index.entry)) }
        ensures count { length self.old.indices ≡ length self.new.indices + result }
        ensures ascending { IsStrictlySortedBy (slice_cmp int_cmp) self.new.indices }
        ensures present { Contains self.old.indices index.entry → result ≡ 1 }
        ensures absent { ¬ (Contains self.old.indices index.entry) → (result ≡ 0) × (self.new ≡ self.old) }
        ensures parent { self.new.parent ≡ self.old.parent }
    {
        self.indices.remove(index)
    }

    /// Whether each index lies in `parent`. It takes no memory.
    pub fn fits(&self, parent: &Rect<R>) -> bool
        ensures { IsTrue result ↔ AreInside self.now.indices parent.now }
    {
        all_inside(&self.indices, parent)
    }

    /// Makes `parent` the parent, or answers [`SparseErr::OutOfParent`] exactly where an index is outside of it, and
    /// then changes nothing. The indices stay, and no memory is taken.
    pub fn reparent(&mut self, parent: Rect<R>) -> Result<(), SparseErr>
        ensures indices { self.new.indices ≡ self.old.indices }
        ensures ok { OnOk result (self.new.parent ≡ parent.entry) }
        ensures inside { OnOk result (AreInside self.old.indices parent.entry) }
        ensures out_of_parent { (result ≡ Err SparseErr.OutOfParent) ↔ (¬ AreInside self.old.indices parent.entry) }
        ensures no_other_error { result ≢ Err SparseErr.NoMemory }
        ensures err { OnErr result (self.new ≡ self.old) }
    {
        if !all_inside(&self.indices, &parent) {
            return Err(SparseErr::OutOfParent);
        }
        self.parent = parent;
        Ok(())
    }
}

impl<const R: usize> Domain for Sparse<R> {
    type Index = [i64; R];

    ghost indices = { λ s. s.indices };

    fn size(&self) -> usize
        ensures count { result ≡ length self.now.indices }
        ensures once { IsListedOnce self.now.indices }
        ensures ascending { IsStrictlySortedBy (slice_cmp int_cmp) self.now.indices }
    {
        self.indices.size()
    }

    fn nth(&self, p: usize) -> Option<[i64; R]> {
        self.indices.nth(p)
    }

    fn place_of(&self, i: [i64; R]) -> Option<usize> {
        self.indices.place_of(i)
    }

    fn contains(&self, i: [i64; R]) -> bool {
        self.indices.contains(i)
    }
}

// Whether each index lies in the rectangle.
fn all_inside<const R: usize>(indices: &Assoc<[i64; R]>, parent: &Rect<R>) -> bool
    ensures { IsTrue result ↔ AreInside indices.now parent.now }
{
    for p in 0..indices.size() {
        if let Some(i) = indices.nth(p) {
            if !parent.contains(i) {
                return false;
            }
        }
    }
    true
}

// Whether each of these indices lies in the rectangle.
fn are_inside<const R: usize>(indices: &[[i64; R]], parent: &Rect<R>) -> bool
    ensures { IsTrue result ↔ AreInside indices.now parent.now }
{
    for i in indices {
        if !parent.contains(*i) {
            return false;
        }
    }
    true
}
