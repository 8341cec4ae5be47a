ghost use Rattle.std.specs.Prelude.{◌≡◌, ℕ, ℤ, List, length, map, IfOk, IfErr, OnErr, OnOk, MatchResult, Some, None};
ghost use Rattle.std.specs.List.Sorted.{IsStrictlySortedBy};
ghost use Rattle.std.specs.Map.{keys_of, set_value};
ghost use Rattle.std.specs.BTreeMap.{is_at};
ghost use Rattle.wb_arrays.specs.Elements.{value_at, HoldsExactly, HoldsDropped, AgreeOnCommon, reallocated, left_out, restored};

use std::marker::Model;
use thiserror::Error;
use wb_range::{Domain, Key, NoMemory};

/// There is no element at the index: it isn't in the store's domain.
#[derive(Clone, Copy, Debug, PartialEq, Eq, Error)]
#[error("the index is not in the domain")]
pub struct OutOfDomain;

/// The pairs of index and element that a change of domain dropped, ascending
/// by index. Handed back, they undo the change.
#[derive(Drop)]
pub struct Dropped<I> {
    pairs: Vec<(I, i64)>,
}

impl<I> Model for Dropped<I> {
    ghost use Rattle.std.specs.Prelude.{List, ℤ};

    ghost Value = { List (I × ℤ) };

    ghost view = { λ d. d.pairs.items };
}

impl<I> Dropped<I> {
    /// Wraps pairs that are left out of a store.
    pub fn from_pairs(pairs: Vec<(I, i64)>) -> Dropped<I>
        ensures { result ≡ pairs.items }
    {
        Dropped { pairs }
    }

    /// Lends the pairs.
    pub fn pairs(&self) -> &[(I, i64)]
        ensures { result.now ≡ self.now }
    {
        self.pairs.as_slice()
    }
}

/// What keeps an element for each index of a domain.
pub trait Store {
    type Index: Key;

    type Dom: Domain<Index = Self::Index>;

    /// The pairs of index and element, ascending by index.
    ghost contents: { Self → List (Self.Index × ℤ) };

    /// Both are laid out alike: no change of elements or domain touches that.
    ghost same_layout: { Self → Self → Type 0 };

    /// How many elements there are.
    fn len(&self) -> usize
        ensures count { result ≡ length (contents self.now) }
        ensures ascending { IsStrictlySortedBy Self.Index.cmp (keys_of (contents self.now)) };

    /// The element at `index`; `None` outside the domain.
    fn get(&self, index: Self::Index) -> Option<i64>
        ensures { result ≡ value_at Self.Index.cmp (contents self.now) index };

    /// Replaces the element at `index` by `value` and gives the old one.
    /// Outside the domain it changes nothing and is refused.
    fn set(&mut self, index: Self::Index, value: i64) -> Result<i64, OutOfDomain>
        ensures old { MatchResult result (λ v. value_at Self.Index.cmp (contents self.old) index ≡ Some v)
            (λ _. value_at Self.Index.cmp (contents self.old) index ≡ None) }
        ensures elements { contents self.new ≡ set_value (is_at (Self.Index.cmp index)) (contents self.old) value }
        ensures layout { same_layout self.old self.new }
        ensures holds { (xs : List Self.Index) → HoldsExactly Self.Index.cmp (contents self.old) xs → HoldsExactly Self.Index.cmp (contents self.new) xs }
        ensures err { OnErr result (self.new ≡ self.old) };

    /// Assigns the domain (Chapel Language Specification, "Arrays"): indices of
    /// both domains keep their elements, those of `new` alone get `default`,
    /// and the pairs of `old` alone come back.
    fn reshape(
        &mut self,
        old: &Self::Dom,
        new: &Self::Dom,
        default: i64,
    ) -> Result<Dropped<Self::Index>, NoMemory>
        // The array has an element at each index of `old`, and no other.
        requires { HoldsExactly Self.Index.cmp (contents self.old) (Self.Dom.indices old.now) }

        // The elements afterwards, and the pairs that come back.
        ensures elements { OnOk result ((q : Self.Index) → value_at Self.Index.cmp (contents self.new) q ≡ reallocated Self.Index.cmp (contents self.old)
            (Self.Dom.indices old.now) (Self.Dom.indices new.now) default q) }
        ensures dropped { IfOk result (λ d. d ≡ left_out Self.Index.cmp (contents self.old) (Self.Dom.indices new.now)) }

        // What stays, and what holds of both afterwards.
        ensures layout { same_layout self.old self.new }
        ensures holds { OnOk result (HoldsExactly Self.Index.cmp (contents self.new) (Self.Dom.indices new.now)) }
        ensures pairs { IfOk result (λ d. HoldsDropped Self.Index.cmp d (Self.Dom.indices old.now) (Self.Dom.indices new.now)) }

        // Without memory nothing changes.
        ensures err { OnErr result (self.new ≡ self.old) };

    /// Takes back a `reshape` from `old` to `new`: indices of both keep their
    /// elements, the `dropped` pairs come back, the rest are gone. Each store
    /// has its own way; callers hand the pairs over by `unreshape`.
    fn restore(
        &mut self,
        old: &Self::Dom,
        new: &Self::Dom,
        dropped: &Dropped<Self::Index>,
    ) -> Result<(), NoMemory>
        requires holds { HoldsExactly Self.Index.cmp (contents self.old) (Self.Dom.indices new.now) }
        requires pairs { HoldsDropped Self.Index.cmp dropped.now (Self.Dom.indices old.now) (Self.Dom.indices new.now) }
        ensures elements { OnOk result ((q : Self.Index) → value_at Self.Index.cmp (contents self.new) q ≡ restored Self.Index.cmp (contents self.old)
            dropped.now (Self.Dom.indices old.now) (Self.Dom.indices new.now) q) }
        ensures layout { same_layout self.old self.new }
        ensures holds { OnOk result (HoldsExactly Self.Index.cmp (contents self.new) (Self.Dom.indices old.now)) }
        ensures err { OnErr result (self.new ≡ self.old) };

    /// Takes back a `reshape` from `old` to `new`: indices of both keep their
    /// elements, the `dropped` pairs come back, the rest are gone. With the
    /// pairs of that `reshape` the elements are those before it, wherever the
    /// common ones are as they were. For want of memory nothing changes and the
    /// pairs are given back.
    final fn unreshape(
        &mut self,
        old: &Self::Dom,
        new: &Self::Dom,
        dropped: Dropped<Self::Index>,
    ) -> Result<(), (Dropped<Self::Index>, NoMemory)>
    where
        Self: Sized,
        // The array is over `new`, and the pairs are some that a `reshape` from `old` drops.
        requires holds { HoldsExactly Self.Index.cmp (contents self.old) (Self.Dom.indices new.now) }
        requires pairs { HoldsDropped Self.Index.cmp dropped (Self.Dom.indices old.now) (Self.Dom.indices new.now) }

        // The elements afterwards, and what stays.
        ensures elements { OnOk result ((q : Self.Index) → value_at Self.Index.cmp (contents self.new) q ≡ restored Self.Index.cmp (contents self.old) dropped
            (Self.Dom.indices old.now) (Self.Dom.indices new.now) q) }
        ensures layout { same_layout self.old self.new }
        ensures holds { OnOk result (HoldsExactly Self.Index.cmp (contents self.new) (Self.Dom.indices old.now)) }

        // Where a `reshape` dropped the pairs from an array, its elements are as before that.
        ensures undoes { OnOk result ((before : List (Self.Index × ℤ)) → HoldsExactly Self.Index.cmp before (Self.Dom.indices old.now) →
            dropped ≡ left_out Self.Index.cmp before (Self.Dom.indices new.now) → AgreeOnCommon Self.Index.cmp before (contents self.old) → (q : Self.Index) →
            value_at Self.Index.cmp (contents self.new) q ≡ value_at Self.Index.cmp before q) }

        // Without memory the pairs come back, and nothing changes.
        ensures back { IfErr result (λ e. e.0 ≡ dropped) }
        ensures err { OnErr result (self.new ≡ self.old) }
    {
        match self.restore(old, new, &dropped) {
            Ok(()) => Ok(()),
            Err(refusal) => Err((dropped, refusal)),
        }
    }
}
