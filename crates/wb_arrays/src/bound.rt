ghost use Rattle.std.specs.Prelude.{⊤, ◌≡◌, IfOk, OnOk, None, if◌then◌else◌};
ghost use Rattle.std.specs.Option.{option_or};
ghost use Rattle.std.specs.BTreeMap.{get};
ghost use Rattle.wb_range.specs.Lookup.{has};
ghost use Rattle.wb_arrays.specs.Elements.{value_at, HoldsExactly, zeros, left_out};

use crate::store::{Dropped, OutOfDomain, Store};
use std::alloc::{AllocError, Global};
use std::collections::BTreeMap;
use std::marker::Model;
use wb_range::{Domain, Key, NoMemory};

/// An array that is kept whole: one map from the indices of a domain to their
/// elements.
#[derive(Drop)]
pub struct Bound<D: Domain> {
    map: BTreeMap<D::Index, i64>,
    alloc: Global,
}

impl<D: Domain> Model for Bound<D> {
    ghost use Rattle.std.specs.Prelude.{List, ℤ};

    ghost Value = { List (D.Index × ℤ) };

    ghost view = { λ b. b.map.entries };
}

impl<D: Domain> Bound<D> {
    /// An array over `domain` whose elements are all 0.
    pub fn new(alloc: Global, domain: &D) -> Result<Bound<D>, NoMemory>
        ensures elements { IfOk result (λ b. (q : D.Index) → value_at D.Index.cmp b q ≡ zeros D.Index.cmp (D.indices domain.now) q) }
        ensures holds { IfOk result (λ b. HoldsExactly D.Index.cmp b (D.indices domain.now)) }
    {
        let none = BTreeMap::new(alloc);
        let map = filled::<D>(alloc, &none, domain, Some(0)).map_err(|_| NoMemory)?;
        Ok(Bound { map, alloc })
    }

    /// An array that holds the pairs of a map.
    pub fn from_map(alloc: Global, map: BTreeMap<D::Index, i64>) -> Bound<D>
        ensures { result ≡ map.entries }
    {
        Bound { map, alloc }
    }

    /// Lends the map from indices to elements.
    pub fn as_map(&self) -> &BTreeMap<D::Index, i64>
        ensures { result.now.entries ≡ self.now }
    {
        &self.map
    }
}

impl<D: Domain> Store for Bound<D> {
    type Index = D::Index;

    type Dom = D;

    ghost contents = { λ b. b };

    ghost same_layout = { λ _ _. ⊤ };

    fn len(&self) -> usize {
        self.map.len()
    }

    fn get(&self, index: D::Index) -> Option<i64> {
        self.map.get(&index).copied()
    }

    fn set(&mut self, index: D::Index, value: i64) -> Result<i64, OutOfDomain> {
        match self.map.get_mut(&index) {
            Some(element) => {
                let old = *element;
                *element = value;
                Ok(old)
            }
            None => Err(OutOfDomain),
        }
    }

    fn reshape(&mut self, _old: &D, new: &D, default: i64) -> Result<Dropped<D::Index>, NoMemory> {
        let map = filled::<D>(self.alloc, &self.map, new, Some(default)).map_err(|_| NoMemory)?;
        let pairs = outside::<D>(self.alloc, &self.map, new).map_err(|_| NoMemory)?;
        self.map = map;
        Ok(Dropped::from_pairs(pairs))
    }

    fn restore(&mut self, old: &D, _new: &D, dropped: &Dropped<D::Index>) -> Result<(), NoMemory> {
        let mut map = filled::<D>(self.alloc, &self.map, old, None).map_err(|_| NoMemory)?;
        put_absent(&mut map, dropped.pairs()).map_err(|_| NoMemory)?;
        self.map = map;
        Ok(())
    }
}

// A map over the domain: the elements that are there already, and elsewhere
// the default, if there is one.
fn filled<D: Domain>(
    alloc: Global,
    map: &BTreeMap<D::Index, i64>,
    domain: &D,
    default: Option<i64>,
) -> Result<BTreeMap<D::Index, i64>, AllocError>
    ensures { IfOk result (λ m. (q : D.Index) → get D.Index.cmp m
        q ≡ (if has D.Index.cmp (D.indices domain.now) q then option_or (get D.Index.cmp map.now q) default else None)) }
{
    let mut fresh = BTreeMap::new(alloc);
    for place in 0..domain.size() {
        if let Some(index) = domain.nth(place) {
            if let Some(value) = map.get(&index).copied().or(default) {
                fresh.insert(index, value)?;
            }
        }
    }
    Ok(fresh)
}

// The entries of the map that lie outside the domain, in order.
fn outside<D: Domain>(
    alloc: Global,
    map: &BTreeMap<D::Index, i64>,
    domain: &D,
) -> Result<Vec<(D::Index, i64)>, AllocError>
    ensures { IfOk result (λ v. v.items ≡ left_out D.Index.cmp map.now.entries (D.indices domain.now)) }
{
    let mut pairs = Vec::new(alloc);
    for (index, value) in map {
        if !is_in::<D>(domain, *index) {
            pairs.push((*index, *value))?;
        }
    }
    Ok(pairs)
}

/// Puts in the pairs at whose index the map has no element yet. For want of
/// memory some of them may be in.
pub fn put_absent<I: Key>(map: &mut BTreeMap<I, i64>, pairs: &[(I, i64)]) -> Result<(), AllocError>
    ensures { OnOk result ((q : I) → get I.cmp map.new q ≡ option_or (get I.cmp map.old q) (value_at I.cmp pairs.now q)) }
{
    for (index, value) in pairs {
        if !map.contains_key(index) {
            map.insert(*index, *value)?;
        }
    }
    Ok(())
}

// Whether the domain has the index, in the form that computes.
fn is_in<D: Domain>(domain: &D, index: D::Index) -> bool
    ensures { result ≡ has D.Index.cmp (D.indices domain.now) index }
{
    domain.contains(index)
}
