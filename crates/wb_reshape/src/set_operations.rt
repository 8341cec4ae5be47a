//! Lists of indices as sets.

ghost use Rattle.std.specs.Prelude.{◌≡◌, true, is_some, IfOk};
ghost use Rattle.wb_cells.specs.WellFormed.{has};
ghost use Rattle.wb_range.specs.Domain.{IsListedOnce};
ghost use Rattle.wb_reshape.specs.Resized.{without};
ghost use Rattle.wb_reshape.specs.Sources.{ascending};

use std::alloc::Global;
use wb_cells::AnyIndex;
use wb_range::{Domain, NoMemory};
use wb_sets::Assoc;

// Whether an index stands at a place of a set.
fn stands_at(set: &Assoc<AnyIndex>, index: &AnyIndex, place: usize) -> bool
    ensures { result ≡ true → has set.now index.now ≡ true }
{
    match set.nth(place) {
        Some(there) => there.is_same(index),
        None => false,
    }
}

// The place of an index in a set. It is first looked for where it may be: the search is short where a list that ascends,
// as the set does, is gone through.
fn place_near(set: &Assoc<AnyIndex>, index: &AnyIndex, near: usize) -> Option<usize>
    ensures { is_some result ≡ has set.now index.now }
{
    if stands_at(set, index, near) {
        return Some(near);
    }
    set.place_of(*index)
}

// Where the next index may be, after a search near a place.
fn after(found: Option<usize>, near: usize) -> usize {
    match found {
        Some(place) => place.saturating_add(1),
        None => near,
    }
}

// Those of `listed` that are not in a set.
fn kept_outside(
    alloc: Global,
    set: &Assoc<AnyIndex>,
    listed: &[AnyIndex],
) -> Result<Vec<AnyIndex>, NoMemory>
    ensures { IfOk result (λ v. v.items ≡ without set.now listed.now) }
{
    let mut kept = Vec::new(alloc);
    let mut near = 0;
    for index in listed {
        let found = place_near(set, index, near);
        if found.is_none() && kept.push(*index).is_err() {
            return Err(NoMemory);
        }
        near = after(found, near);
    }
    Ok(kept)
}

/// The indices of `listed` that are not among the others, in their order.
///
/// It takes the time of a sort of the others, and a binary search for each of `listed` that doesn't stand in the set right
/// behind the one before it.
pub fn without(
    alloc: Global,
    others: &[AnyIndex],
    listed: &[AnyIndex],
) -> Result<Vec<AnyIndex>, NoMemory>
    ensures same { IfOk result (λ v. v.items ≡ without others.now listed.now) }
    ensures once { IfOk result (λ v. IsListedOnce listed.now → IsListedOnce v.items) }
{
    let set = Assoc::from_slice(alloc, others)?;
    let kept = kept_outside(alloc, &set, listed)?;
    Ok(kept)
}

/// The set of these indices, which may stand in any order and more than once.
pub fn sorted_set(alloc: Global, listed: &[AnyIndex]) -> Result<Assoc<AnyIndex>, NoMemory>
    ensures { IfOk result (λ s. s ≡ ascending listed.now) }
{
    Assoc::from_slice(alloc, listed)
}
