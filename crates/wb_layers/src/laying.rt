//! Changes laid over others, and their list.

ghost use Rattle.std.specs.Prelude.{◌≡◌, ◌∷◌, [], Some, cond, IfOk, IfSome, IfNone, OnOk};
ghost use Rattle.std.specs.BTreeMap as tree;
ghost use Rattle.std.specs.Ordering.{eq_by_cmp};
ghost use Rattle.selective_undo.specs.Changes.{AllOnce};
ghost use Rattle.selective_undo.specs.Together.{together};
ghost use Rattle.wb_cells.specs.declared.cells.cell.Cell.{Cell};
ghost use Rattle.wb_cells.specs.Cells.{cell_cmp};
ghost use Rattle.wb_cells.specs.Runs.{changes_in, all_changes};
ghost use Rattle.wb_layers.specs.Places.{IsFound};

use crate::beginning::is_called;
use std::alloc::Global;
use std::collections::BTreeMap;
use wb_cells::{Cell, CellChange, ChangeRun, Changes, Delta};
use wb_range::NoMemory;

// The place of a cell, if it has one. To a cell without a place the next one is given: one search for both.
fn place_or_next(
    places: &mut BTreeMap<Cell, usize>,
    cell: &Cell,
    next: usize,
) -> Result<Option<usize>, NoMemory>
    ensures place { IfOk result (λ o. o ≡ tree.get cell_cmp places.old cell.now) }
    ensures had { IfOk result (λ o. IfSome o (λ p. (c : Cell) → tree.get cell_cmp places.new c ≡ tree.get cell_cmp places.old c)) }
    ensures given { IfOk result (λ o. IfNone o ((c : Cell) →
        tree.get cell_cmp places.new c ≡ cond (eq_by_cmp cell_cmp c cell.now) (Some next) (tree.get cell_cmp places.old c))) }
{
    match places.insert(*cell, next) {
        Err(_) => Err(NoMemory),
        Ok(None) => Ok(None),
        Ok(Some(place)) => match places.insert(*cell, place) {
            Err(_) => Err(NoMemory),
            Ok(_) => Ok(Some(place)),
        },
    }
}

// Lays a change over the others: in the place of that of its cell, if there is one, and else behind them.
fn lay_one(
    changes: &mut Vec<CellChange>,
    places: &mut BTreeMap<Cell, usize>,
    change: &CellChange,
) -> Result<(), NoMemory>
    requires { IsFound places.old changes.old.items }
    ensures laid { OnOk result (changes.new.items ≡ together cell_cmp changes.old.items (change.now ∷ [])) }
    ensures found { OnOk result (IsFound places.new changes.new.items) }
{
    let cell = change.cell();
    is_called(&cell);
    let next = changes.len();
    let place = place_or_next(places, &cell, next)?;
    match place {
        Some(place) => changes[place] = *change,
        None => changes.push(*change)?,
    }
    Ok(())
}

// Lays the changes of a run over the others.
fn lay_run(
    changes: &mut Vec<CellChange>,
    places: &mut BTreeMap<Cell, usize>,
    run: &ChangeRun,
) -> Result<(), NoMemory>
    requires once { AllOnce cell_cmp (changes_in run.now.form) }
    requires found { IsFound places.old changes.old.items }
    ensures laid { OnOk result (changes.new.items ≡ together cell_cmp changes.old.items (changes_in run.now.form)) }
    ensures found { OnOk result (IsFound places.new changes.new.items) }
{
    changes.reserve(run.len())?;
    for at in 0..run.len() {
        let change = run.change(at);
        lay_one(changes, places, &change)?;
    }
    Ok(())
}

// Lays the changes of runs over the others.
fn lay_runs(
    changes: &mut Vec<CellChange>,
    places: &mut BTreeMap<Cell, usize>,
    runs: &[ChangeRun],
) -> Result<(), NoMemory>
    requires once { AllOnce cell_cmp (all_changes runs.now) }
    requires found { IsFound places.old changes.old.items }
    ensures laid { OnOk result (changes.new.items ≡ together cell_cmp changes.old.items (all_changes runs.now)) }
    ensures found { OnOk result (IsFound places.new changes.new.items) }
{
    for run in runs {
        lay_run(changes, places, run)?;
    }
    Ok(())
}

/// Lays changes, each cell once, over the others. It may stop midway.
pub(crate) fn lay_all(
    changes: &mut Vec<CellChange>,
    places: &mut BTreeMap<Cell, usize>,
    delta: &Changes,
) -> Result<(), NoMemory>
    requires once { AllOnce cell_cmp delta.now }
    requires found { IsFound places.old changes.old.items }
    ensures laid { OnOk result (changes.new.items ≡ together cell_cmp changes.old.items delta.now) }
    ensures found { OnOk result (IsFound places.new changes.new.items) }
{
    let (first, runs) = delta.parts();
    let Some(first) = first else {
        return lay_runs(changes, places, runs);
    };
    lay_one(changes, places, &first)?;
    lay_runs(changes, places, runs)
}

/// The changes, each cell once, in their order.
pub(crate) fn delta_of(alloc: Global, changes: &[CellChange]) -> Result<Delta, NoMemory>
    requires { AllOnce cell_cmp changes.now }
    ensures { IfOk result (λ d. d ≡ changes.now) }
{
    let mut delta = Delta::new(alloc);
    for change in changes {
        delta.put(change.cell(), change.value())?;
    }
    Ok(delta)
}
