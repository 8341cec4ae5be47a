//! What a pattern shows after changes, by what it shows before them.

ghost use Rattle.std.specs.Prelude.{◌≡◌, ◌<◌, length, map, IfOk};
ghost use Rattle.std.specs.BTreeMap.{IsOrdered};
ghost use Rattle.std.specs.FinMap.{entries};
ghost use Rattle.std.specs.List.{AllByRecursion, filter, list_any};
ghost use Rattle.selective_undo.specs.Changes.{apply, AllOnce};
ghost use Rattle.wb_cells.specs.Cells.{Cells, cell_cmp, matches, state_of};
ghost use Rattle.wb_layers.specs.Places.{AreCalled, IsFound, IsFamily, as_changes, change_at};

use crate::beginning::first;
use std::alloc::{AllocError, Global};
use std::collections::BTreeMap;
use wb_cells::{Cell, CellChange, Pattern, StoredCells, Value, store};
use wb_range::NoMemory;

/// Whether a pattern names one of the cells that have places: the first from where its cells begin, if any.
pub(crate) fn touches(places: &BTreeMap<Cell, usize>, pattern: &Pattern) -> bool
    requires { AreCalled places.now }
    ensures tells { result ≡ list_any (λ e. matches pattern.now e.0) places.now.entries }
    ensures ordered { IsOrdered cell_cmp places.now }
{
    match places.range(first(pattern)..).next() {
        Some((cell, _)) => pattern.matches(*cell),
        None => false,
    }
}

// The cells that a pattern names, with their places, in their order. No other cell is walked over, but the one behind them.
fn placed(
    alloc: Global,
    places: &BTreeMap<Cell, usize>,
    pattern: &Pattern,
) -> Result<Vec<(Cell, usize)>, AllocError>
    requires { AreCalled places.now }
    ensures { IfOk result (λ v. v.items ≡ filter (λ e. matches pattern.now e.0) places.now.entries) }
{
    places
        .range(first(pattern)..)
        .take_while(|x| pattern.matches(*x.0))
        .map(|x| (*x.0, *x.1))
        .collect(alloc)
}

// The changes at the places of cells.
fn at_places(
    alloc: Global,
    changes: &[CellChange],
    places: &[(Cell, usize)],
) -> Result<Vec<CellChange>, NoMemory>
    requires { AllByRecursion (λ e. e.1 < length changes.now) places.now }
    ensures { IfOk result (λ v. v.items ≡ map (change_at changes.now) places.now) }
{
    let mut found = Vec::with_capacity(alloc, places.len())?;
    for (_, place) in places {
        found.push(changes[*place])?;
    }
    Ok(found)
}

/// The changes of the cells that a pattern names, in the order of the cells; `NoMemory` where none is left.
pub(crate) fn named(
    alloc: Global,
    changes: &[CellChange],
    places: &BTreeMap<Cell, usize>,
    pattern: &Pattern,
) -> Result<Vec<CellChange>, NoMemory>
    requires { IsFound places.now changes.now }
    ensures { IfOk result (λ v. IsFamily pattern.now changes.now v.items) }
{
    // For the proof: the cells ascend.
    let _count = places.len();
    match placed(alloc, places, pattern) {
        Ok(found) => at_places(alloc, changes, &found),
        Err(_) => Err(NoMemory),
    }
}

// Cells with their values, as changes that set them.
fn settings(alloc: Global, shown: &[(Cell, Value)]) -> Result<Vec<CellChange>, NoMemory>
    ensures { IfOk result (λ v. v.items ≡ as_changes shown.now) }
{
    let mut found = Vec::with_capacity(alloc, shown.len())?;
    for (cell, value) in shown {
        found.push(CellChange::new(*cell, Some(*value)))?;
    }
    Ok(found)
}

/// What stands in cells after changes of them, where these stand there before; `NoMemory` where none is left.
pub(crate) fn over(
    alloc: Global,
    changes: &[CellChange],
    shown: Vec<(Cell, Value)>,
) -> Result<Vec<(Cell, Value)>, NoMemory>
    requires { AllOnce cell_cmp changes.now }
    ensures { (t : Cells) → shown.items ≡ entries t → IfOk result (λ v. v.items ≡ entries (apply changes.now t)) }
{
    if changes.is_empty() {
        return Ok(shown);
    }
    let before = settings(alloc, &shown)?;
    let mut cells = StoredCells::new(alloc);
    store::set_present(&mut cells, &before)?;
    store::set_present(&mut cells, changes)?;
    store::clear_absent(&mut cells, changes);
    cells.list(alloc)
}
