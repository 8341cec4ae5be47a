//! Changes of the stored cells, made run by run. No list is made of them.

ghost use Rattle.std.specs.Prelude.{◌≡◌, ◌||◌, ℕ, List, [], ◌∷◌, ◌++◌, not, true, false, is_some, IfOk, IfSome, OnOk, IsSome};
ghost use Rattle.std.specs.FinMap as map;
ghost use Rattle.std.specs.List.{All, list_all};
ghost use Rattle.selective_undo.specs.Changes.{apply, inverse, sets, clears, changes, AllOnce, HasRoom};
ghost use Rattle.wb_cells.specs.Stored.{FitsChange};
ghost use Rattle.wb_cells.specs.declared.cells.cell.Cell.{Cell as cell_type};
ghost use Rattle.wb_cells.specs.Cells.{cell_cmp, state_of};
ghost use Rattle.wb_cells.specs.Runs.{changes_in, all_changes};
ghost use Rattle.wb_cells.specs.declared.cells.cell.Cell.TheVariants.{Object};
ghost use Rattle.wb_book.specs.Joined.{stored_part};

use crate::after::{are_stored, is_of_stored};
use std::alloc::Global;
use std::slice;
use wb_cells::{
    CellChange, ChangeRun, Changes, LabelChanges, RunForm, StoredCells, clear_whole,
    members_before, set_whole, store,
};
use wb_range::NoMemory;

// ---- runs that set nothing, or clear nothing

// Whether no change gives a number.
fn are_absent<const R: usize>(changes: &[([i64; R], Option<i64>)]) -> bool
    ensures { result ≡ true → list_all (λ e. not (is_some e.1)) changes.now ≡ true }
{
    for (_point, number) in changes {
        if number.is_some() {
            return false;
        }
    }
    true
}

// Whether each change gives a number.
fn are_present<const R: usize>(changes: &[([i64; R], Option<i64>)]) -> bool
    ensures { result ≡ true → list_all (λ e. is_some e.1) changes.now ≡ true }
{
    for (_point, number) in changes {
        if number.is_none() {
            return false;
        }
    }
    true
}

// Whether no change at a label gives a number.
fn are_labels_absent(labels: &LabelChanges) -> bool
    ensures { result ≡ true → list_all (λ e. not (is_some e.1)) labels.now.1 ≡ true }
{
    for at in 0..labels.len() {
        if labels.number(at).is_some() {
            return false;
        }
    }
    true
}

// Whether each change at a label gives a number.
fn are_labels_present(labels: &LabelChanges) -> bool
    ensures { result ≡ true → list_all (λ e. is_some e.1) labels.now.1 ≡ true }
{
    for at in 0..labels.len() {
        if labels.number(at).is_none() {
            return false;
        }
    }
    true
}

// Whether the changes of a run are known to set no cell: one look at each point.
fn sets_nothing(form: &RunForm) -> bool
    ensures { result ≡ true → sets (changes_in form.now) ≡ [] }
{
    match form {
        RunForm::One(_) => false,
        RunForm::Rank1(packed) => are_absent(packed.changes()),
        RunForm::Rank2(packed) => are_absent(packed.changes()),
        RunForm::Rank3(packed) => are_absent(packed.changes()),
        RunForm::Labels(labels) => are_labels_absent(labels),
        RunForm::Rectangle(_) => false,
        RunForm::Numbers(_) => false,
    }
}

// Whether the changes of a run are known to clear no cell: one look at each point.
fn clears_nothing(form: &RunForm) -> bool
    ensures { result ≡ true → clears (changes_in form.now) ≡ [] }
{
    match form {
        RunForm::One(_) => false,
        RunForm::Rank1(packed) => are_present(packed.changes()),
        RunForm::Rank2(packed) => are_present(packed.changes()),
        RunForm::Rank3(packed) => are_present(packed.changes()),
        RunForm::Labels(labels) => are_labels_present(labels),
        RunForm::Rectangle(_) => false,
        RunForm::Numbers(_) => false,
    }
}

// ---- set

// Sets the cell of a change that gives it a value.
fn set_one(cells: &mut StoredCells, change: &CellChange) -> Result<(), NoMemory>
    ensures others { (c : cell_type) → changes cell_cmp (sets (change.now ∷ [])) c ≡ false → map.get (state_of cells.new) c ≡ map.get (state_of cells.old) c }
    ensures stays { (c : cell_type) → IsSome (map.get (state_of cells.old) c) → IsSome (map.get (state_of cells.new) c) }
    ensures set { OnOk result (state_of cells.new ≡ apply (sets (change.now ∷ [])) (state_of cells.old)) }
{
    match change.value() {
        Some(_) => store::set_present(cells, slice::from_ref(change)),
        None => Ok(()),
    }
}

// Sets the cell of a change that gives it a value, if it is stored.
fn set_lone(cells: &mut StoredCells, change: &CellChange) -> Result<(), NoMemory>
    ensures others { (c : cell_type) → changes cell_cmp (sets (stored_part (change.now ∷ []))) c ≡ false → map.get (state_of cells.new) c ≡ map.get (state_of cells.old) c }
    ensures stays { (c : cell_type) → IsSome (map.get (state_of cells.old) c) → IsSome (map.get (state_of cells.new) c) }
    ensures set { OnOk result (state_of cells.new ≡ apply (sets (stored_part (change.now ∷ []))) (state_of cells.old)) }
{
    if is_of_stored(change) {
        return set_one(cells, change);
    }
    Ok(())
}

// Sets the cells that the changes of a run give a value, one by one.
fn set_each(cells: &mut StoredCells, run: &ChangeRun) -> Result<(), NoMemory>
    ensures others { (c : cell_type) → changes cell_cmp (sets (changes_in run.now.form)) c ≡ false → map.get (state_of cells.new) c ≡ map.get (state_of cells.old) c }
    ensures stays { (c : cell_type) → IsSome (map.get (state_of cells.old) c) → IsSome (map.get (state_of cells.new) c) }
    ensures set { OnOk result (state_of cells.new ≡ apply (sets (changes_in run.now.form)) (state_of cells.old)) }
{
    if sets_nothing(run.form()) {
        return Ok(());
    }
    if set_whole(cells, run.form())? {
        return Ok(());
    }
    for at in 0..run.len() {
        set_one(cells, &run.change(at))?;
    }
    Ok(())
}

// Sets the cells that the changes of a run give a value, if they are stored.
fn set_run(cells: &mut StoredCells, run: &ChangeRun) -> Result<(), NoMemory>
    ensures others { (c : cell_type) → changes cell_cmp (sets (stored_part (changes_in run.now.form))) c ≡ false → map.get (state_of cells.new) c ≡ map.get (state_of cells.old) c }
    ensures stays { (c : cell_type) → IsSome (map.get (state_of cells.old) c) → IsSome (map.get (state_of cells.new) c) }
    ensures set { OnOk result (state_of cells.new ≡ apply (sets (stored_part (changes_in run.now.form))) (state_of cells.old)) }
{
    if !are_stored(run.form()) {
        return Ok(());
    }
    set_each(cells, run)
}

// Sets the cells that the changes of runs give a value, as far as they are stored.
fn set_runs(cells: &mut StoredCells, runs: &[ChangeRun]) -> Result<(), NoMemory>
    ensures others { (c : cell_type) → changes cell_cmp (sets (stored_part (all_changes runs.now))) c ≡ false → map.get (state_of cells.new) c ≡ map.get (state_of cells.old) c }
    ensures stays { (c : cell_type) → IsSome (map.get (state_of cells.old) c) → IsSome (map.get (state_of cells.new) c) }
    ensures set { OnOk result (state_of cells.new ≡ apply (sets (stored_part (all_changes runs.now))) (state_of cells.old)) }
{
    for run in runs {
        set_run(cells, run)?;
    }
    Ok(())
}

/// Sets the stored cells that the changes give a value, and touches no other. It may stop midway.
pub(crate) fn set_given(cells: &mut StoredCells, delta: &Changes) -> Result<(), NoMemory>
    ensures others { (c : cell_type) → changes cell_cmp (sets (stored_part delta.now)) c ≡ false → map.get (state_of cells.new) c ≡ map.get (state_of cells.old) c }
    ensures stays { (c : cell_type) → IsSome (map.get (state_of cells.old) c) → IsSome (map.get (state_of cells.new) c) }
    ensures set { OnOk result (state_of cells.new ≡ apply (sets (stored_part delta.now)) (state_of cells.old)) }
{
    let (first, runs) = delta.parts();
    let Some(first) = first else {
        return set_runs(cells, runs);
    };
    set_lone(cells, &first)?;
    set_runs(cells, runs)
}

// ---- clear

// Clears the cells that the changes of a run give no value, one by one.
fn clear_each(cells: &mut StoredCells, run: &ChangeRun)
    ensures { state_of cells.new ≡ apply (clears (changes_in run.now.form)) (state_of cells.old) }
{
    if clears_nothing(run.form()) {
        return;
    }
    for at in 0..run.len() {
        store::clear_absent(cells, slice::from_ref(&run.change(at)));
    }
}

// Clears the cells that the changes of a run give no value, if they are stored: all members of a domain at once.
fn clear_run(cells: &mut StoredCells, run: &ChangeRun)
    ensures { state_of cells.new ≡ apply (clears (stored_part (changes_in run.now.form))) (state_of cells.old) }
{
    if !are_stored(run.form()) {
        return;
    }
    if clear_whole(cells, run.form()) {
        return;
    }
    clear_each(cells, run);
}

// Clears the cells that the changes of runs give no value, as far as they are stored.
fn clear_runs(cells: &mut StoredCells, runs: &[ChangeRun])
    ensures { state_of cells.new ≡ apply (clears (stored_part (all_changes runs.now))) (state_of cells.old) }
{
    for run in runs {
        clear_run(cells, run);
    }
}

// Clears the cell of a change that gives it no value, if it is stored.
fn clear_lone(cells: &mut StoredCells, change: &CellChange)
    ensures { state_of cells.new ≡ apply (clears (stored_part (change.now ∷ []))) (state_of cells.old) }
{
    if is_of_stored(change) {
        store::clear_absent(cells, slice::from_ref(change));
    }
}

/// Clears the stored cells that the changes give no value.
pub(crate) fn clear_given(cells: &mut StoredCells, delta: &Changes)
    ensures { state_of cells.new ≡ apply (clears (stored_part delta.now)) (state_of cells.old) }
{
    let (first, runs) = delta.parts();
    let Some(first) = first else {
        return clear_runs(cells, runs);
    };
    clear_lone(cells, &first);
    clear_runs(cells, runs);
}

// ---- what was there

// Adds the change that sets a cell to what it is now, where a change gives it a value.
fn add_before(
    alloc: Global,
    cells: &StoredCells,
    change: &CellChange,
    before: &mut Changes,
) -> Result<(), NoMemory>
    ensures { OnOk result (before.new ≡ before.old ++ inverse (sets (change.now ∷ [])) (state_of cells.now)) }
{
    match change.value() {
        Some(_) => {
            let cell = change.cell();
            let value = cells.get(&cell);
            before.push(alloc, CellChange::new(cell, value))
        }
        None => Ok(()),
    }
}

// Adds the change that sets a cell to what it is now, where a change gives it a value and it is stored.
fn add_lone_before(
    alloc: Global,
    cells: &StoredCells,
    change: &CellChange,
    before: &mut Changes,
) -> Result<(), NoMemory>
    ensures { OnOk result (before.new ≡ before.old ++ inverse (sets (stored_part (change.now ∷ []))) (state_of cells.now)) }
{
    if is_of_stored(change) {
        return add_before(alloc, cells, change, before);
    }
    Ok(())
}

// The changes that set the cells of a run to what they are now, as a run, where it sets all of them; `None` where they are to be
// told one by one.
fn whole_before(
    alloc: Global,
    cells: &StoredCells,
    form: &RunForm,
) -> Result<Option<RunForm>, NoMemory>
    ensures { IfOk result (λ o. IfSome o (λ f. changes_in f ≡ inverse (sets (changes_in form.now)) (state_of cells.now))) }
{
    if clears_nothing(form) {
        return members_before(alloc, cells, form);
    }
    Ok(None)
}

// Adds the changes that set the cells to which those of a run give a value to what they are now, one by one.
fn add_each_before(
    alloc: Global,
    cells: &StoredCells,
    run: &ChangeRun,
    before: &mut Changes,
) -> Result<(), NoMemory>
    ensures { OnOk result (before.new ≡ before.old ++ inverse (sets (changes_in run.now.form)) (state_of cells.now)) }
{
    for at in 0..run.len() {
        add_before(alloc, cells, &run.change(at), before)?;
    }
    Ok(())
}

// Adds the changes that set the cells to which those of a run give a value to what they are now, as a run where that can be.
fn add_form_before(
    alloc: Global,
    cells: &StoredCells,
    run: &ChangeRun,
    before: &mut Changes,
) -> Result<(), NoMemory>
    ensures { OnOk result (before.new ≡ before.old ++ inverse (sets (changes_in run.now.form)) (state_of cells.now)) }
{
    if sets_nothing(run.form()) {
        return Ok(());
    }
    match whole_before(alloc, cells, run.form()) {
        Ok(Some(form)) => before.push_run(alloc, form),
        Ok(None) => add_each_before(alloc, cells, run, before),
        Err(why) => Err(why),
    }
}

// Adds the changes that set the cells to which those of a run give a value to what they are now, if they are stored.
fn add_run_before(
    alloc: Global,
    cells: &StoredCells,
    run: &ChangeRun,
    before: &mut Changes,
) -> Result<(), NoMemory>
    ensures { OnOk result (before.new ≡ before.old ++ inverse (sets (stored_part (changes_in run.now.form))) (state_of cells.now)) }
{
    if !are_stored(run.form()) {
        return Ok(());
    }
    add_form_before(alloc, cells, run, before)
}

// Adds the changes that set the cells to which those of runs give a value to what they are now, as far as they are stored.
fn add_runs_before(
    alloc: Global,
    cells: &StoredCells,
    runs: &[ChangeRun],
    before: &mut Changes,
) -> Result<(), NoMemory>
    ensures { OnOk result (before.new ≡ before.old ++ inverse (sets (stored_part (all_changes runs.now))) (state_of cells.now)) }
{
    for run in runs {
        add_run_before(alloc, cells, run, before)?;
    }
    Ok(())
}

/// The changes that set the stored cells to which changes give a value to what they are now.
pub(crate) fn given_before(
    alloc: Global,
    cells: &StoredCells,
    delta: &Changes,
) -> Result<Changes, NoMemory>
    ensures { IfOk result (λ v. v ≡ inverse (sets (stored_part delta.now)) (state_of cells.now)) }
{
    let mut before = Changes::new();
    let (first, runs) = delta.parts();
    let Some(first) = first else {
        add_runs_before(alloc, cells, runs, &mut before)?;
        return Ok(before);
    };
    add_lone_before(alloc, cells, &first, &mut before)?;
    add_runs_before(alloc, cells, runs, &mut before)?;
    Ok(before)
}

/// Makes changes for which there is room, which takes no memory.
pub(crate) fn put_back(cells: &mut StoredCells, before: &Changes)
    requires once { AllOnce cell_cmp before.now }
    requires room { HasRoom before.now (state_of cells.old) }
    requires fits { All FitsChange before.now }
    ensures { state_of cells.new ≡ apply before.now (state_of cells.old) }
{
    let mut near = 0;
    for at in 0..before.len() {
        let change = before.change_near(at, &mut near);
        store::put_back(cells, slice::from_ref(&change));
    }
}

// ---- objects

// Adds the change of a run, if it stands alone.
fn add_alone(form: &RunForm, alone: &mut Vec<CellChange>) -> Result<(), NoMemory>
    ensures { OnOk result ((b : List ℕ) → changes cell_cmp alone.new.items (Object b) ≡
        changes cell_cmp alone.old.items (Object b) || changes cell_cmp (changes_in form.now) (Object b)) }
{
    match form {
        RunForm::One(change) => Ok(alone.push(*change)?),
        RunForm::Rank1(_) => Ok(()),
        RunForm::Rank2(_) => Ok(()),
        RunForm::Rank3(_) => Ok(()),
        RunForm::Labels(_) => Ok(()),
        RunForm::Rectangle(_) => Ok(()),
        RunForm::Numbers(_) => Ok(()),
    }
}

// Adds the changes of runs that stand alone.
fn add_all_alone(runs: &[ChangeRun], alone: &mut Vec<CellChange>) -> Result<(), NoMemory>
    ensures { OnOk result ((b : List ℕ) → changes cell_cmp alone.new.items (Object b) ≡
        changes cell_cmp alone.old.items (Object b) || changes cell_cmp (all_changes runs.now) (Object b)) }
{
    for run in runs {
        add_alone(run.form(), alone)?;
    }
    Ok(())
}

/// The changes that stand alone. Among them are those of all objects.
pub(crate) fn lone_changes(alloc: Global, delta: &Changes) -> Result<Vec<CellChange>, NoMemory>
    ensures { IfOk result (λ v. (b : List ℕ) → changes cell_cmp v.items (Object b) ≡ changes cell_cmp (stored_part delta.now) (Object b)) }
{
    let mut alone = Vec::new(alloc);
    let (first, runs) = delta.parts();
    let Some(first) = first else {
        add_all_alone(runs, &mut alone)?;
        return Ok(alone);
    };
    alone.push(first)?;
    add_all_alone(runs, &mut alone)?;
    Ok(alone)
}
