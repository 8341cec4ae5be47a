//! A list of changes, kept in runs.

ghost use Rattle.std.specs.Prelude.{◌≡◌, ◌<◌, ◌≤◌, ◌+◌, ◌-◌, ℕ, ℤ, [], ◌∷◌, ◌++◌, true, false, length, get_or, slice_get};
ghost use Rattle.std.specs.Prelude.{Option, Some, IfSome, option_map, Ok, OnOk, OnErr};
ghost use Rattle.wb_cells.specs.Cells.{count_of};
ghost use Rattle.std.specs.Bool.{Decides};
ghost use Rattle.selective_undo.specs.declared.Change.{Change};
ghost use Rattle.wb_cells.specs.declared.values.index.Index.{Index as index_type};
ghost use Rattle.wb_cells.specs.declared.cells.cell.Cell.{Cell as cell_type};
ghost use Rattle.wb_cells.specs.declared.cells.value.Value.{Value as value_type};
ghost use Rattle.wb_cells.specs.declared.changes.run.ChangeRun.{ChangeRun as change_run};
ghost use Rattle.wb_cells.specs.Runs.{HasPlace, cell_of, value_of, indexed_change, changes_in, all_changes, in_first, runs_in, changes_of, AreStarted};

use crate::cells::cell::Cell;
use crate::changes::change::{CellChange, counted_one};
use crate::changes::indexed::IndexedChange;
use crate::changes::row::IndexedRow;
use crate::changes::run::{ChangeRun, RunForm};
use std::alloc::Global;
use std::marker::Model;
use wb_range::NoMemory;

/// A list of changes. A first one that stands alone needs no memory; others that have an index and are of one row, one after
/// another, are kept by their points, and those of a rectangle by its ranges. Contracts see the list.
pub struct Changes {
    first: Option<CellChange>,
    runs: Option<Vec<ChangeRun>>,
    len: usize,
    counted: usize,
}

// In a function of its own, so that a crate above need not prove anew how each field is let go.
impl Drop for Changes {
    fn drop(self) {
        let Changes {
            first: _,
            runs: _,
            len: _,
            counted: _,
        } = self;
    }
}

impl Model for Changes {
    ghost use Rattle.std.specs.Prelude.{List};
    ghost use Rattle.selective_undo.specs.declared.Change.{Change};
    ghost use Rattle.wb_cells.specs.declared.cells.cell.Cell.{Cell};
    ghost use Rattle.wb_cells.specs.declared.cells.value.Value as held;
    ghost use Rattle.std.specs.Bool.{Decides};
    ghost use Rattle.wb_cells.specs.declared.changes.run.ChangeRun.{ChangeRun as change_run};
    ghost use Rattle.wb_cells.specs.Runs.{HasPlace, changes_of, IsList};

    ghost Value = { List (Change Cell held.Value) };

    ghost view = { λ a. changes_of a.first a.runs };

    ghost invariant = { λ a. IsList a.first a.runs a.len a.counted };
}

impl Changes {
    /// No changes.
    pub fn new() -> Changes
        ensures { result ≡ [] }
    {
        Changes {
            first: None,
            runs: None,
            len: 0,
            counted: 0,
        }
    }

    /// One change.
    pub fn one(change: CellChange) -> Changes
        ensures { result ≡ change ∷ [] }
    {
        let counted = counted_one(&change);
        Changes {
            first: Some(change),
            runs: None,
            len: 1,
            counted,
        }
    }

    /// Adds a change behind the others, or nothing where no memory is left.
    pub fn push(&mut self, alloc: Global, change: CellChange) -> Result<(), NoMemory>
        ensures ok { OnOk result (self.new ≡ self.old ++ change ∷ []) }
        ensures err { OnErr result (self.new ≡ self.old) }
    {
        let Some(len) = self.len.checked_add(1) else {
            return Err(NoMemory);
        };
        let counted = self.counted + counted_one(&change);
        if self.first.is_none() && self.runs.is_none() {
            self.first = Some(change);
        } else {
            put(alloc, &mut self.runs, self.len, &change)?;
        }
        self.len = len;
        self.counted = counted;
        Ok(())
    }

    /// Adds a change of a cell that has an index behind the others, or nothing where no memory is left.
    pub fn push_indexed(&mut self, alloc: Global, change: &IndexedChange) -> Result<(), NoMemory>
        ensures ok { OnOk result (self.new ≡ self.old ++ indexed_change change.now ∷ []) }
        ensures err { OnErr result (self.new ≡ self.old) }
    {
        let Some(len) = self.len.checked_add(1) else {
            return Err(NoMemory);
        };
        let counted = self.counted + counted_of(&change.row);
        if add_indexed(&mut self.runs, change)? {
            self.len = len;
            self.counted = counted;
            return Ok(());
        }
        self.push(alloc, change.change())
    }

    /// Adds the changes of a run behind the others, or nothing where no memory is left.
    pub fn push_run(&mut self, alloc: Global, form: RunForm) -> Result<(), NoMemory>
        ensures ok { OnOk result (self.new ≡ self.old ++ changes_in form) }
        ensures err { OnErr result (self.new ≡ self.old) }
    {
        let Some(len) = self.len.checked_add(form.len()) else {
            return Err(NoMemory);
        };
        let counted = self.counted + form.count();
        put_form(alloc, &mut self.runs, self.len, form)?;
        self.len = len;
        self.counted = counted;
        Ok(())
    }

    /// How many changes there are.
    pub fn len(&self) -> usize
        ensures { result ≡ length self.now }
    {
        self.len
    }

    /// How many cells change; the cells `In`, which follow from the shapes, are not counted.
    pub fn count(&self) -> usize
        ensures { result ≡ count_of self.now }
    {
        self.counted
    }

    /// The first change, if it stands alone, and the runs of the others.
    pub fn parts(&self) -> (Option<CellChange>, &[ChangeRun])
        ensures { self.now ≡ in_first result.0 ++ all_changes result.1.now }
    {
        let runs = match &self.runs {
            None => &[],
            Some(runs) => runs.as_slice(),
        };
        (self.first, runs)
    }

    /// The cell that changes at a place.
    pub fn cell_near(&self, at: usize, near: &mut usize) -> Cell
        requires { at < length self.now }
        ensures { (d : Change cell_type value_type) → result ≡ (get_or self.now at d).cell }
    {
        match &self.first {
            None => cell_behind(&self.runs, 0, at, near),
            Some(first) => {
                if at == 0 {
                    return first.cell();
                }
                cell_behind(&self.runs, 1, at, near)
            }
        }
    }

    /// The change at a place. `near` is a run to look at first, and becomes the run of the place.
    pub fn change_near(&self, at: usize, near: &mut usize) -> CellChange
        requires { at < length self.now }
        ensures { result ≡ get_or self.now at result }
    {
        match &self.first {
            None => change_behind(&self.runs, 0, at, near),
            Some(first) => {
                if at == 0 {
                    return *first;
                }
                change_behind(&self.runs, 1, at, near)
            }
        }
    }
}

// Adds a change of a cell that has an index to the last run, if there is one and the change may be packed with it.
fn add_indexed(runs: &mut Option<Vec<ChangeRun>>, change: &IndexedChange) -> Result<bool, NoMemory>
    ensures added { result ≡ Ok true → all_changes (runs_in runs.new) ≡ all_changes (runs_in runs.old) ++ indexed_change change.now ∷ [] }
    ensures other { result ≡ Ok false → all_changes (runs_in runs.new) ≡ all_changes (runs_in runs.old) }
    ensures err { OnErr result (all_changes (runs_in runs.new) ≡ all_changes (runs_in runs.old)) }
    ensures started { (n : ℕ) → AreStarted n (runs_in runs.old) → AreStarted n (runs_in runs.new) }
    ensures none { runs_in runs.old ≡ [] → runs_in runs.new ≡ [] }
{
    match runs {
        None => Ok(false),
        Some(runs) => add_indexed_to_last(runs, change),
    }
}

fn add_indexed_to_last(runs: &mut Vec<ChangeRun>, change: &IndexedChange) -> Result<bool, NoMemory>
    ensures added { result ≡ Ok true → all_changes runs.new.items ≡ all_changes runs.old.items ++ indexed_change change.now ∷ [] }
    ensures other { result ≡ Ok false → all_changes runs.new.items ≡ all_changes runs.old.items }
    ensures err { OnErr result (all_changes runs.new.items ≡ all_changes runs.old.items) }
    ensures started { (n : ℕ) → AreStarted n runs.old.items → AreStarted n runs.new.items }
    ensures none { runs.old.items ≡ [] → runs.new.items ≡ [] }
{
    match runs.last_mut() {
        Some(run) => run.form.add_indexed(change),
        None => Ok(false),
    }
}

// How many of the changes of one cell of a row are counted.
fn counted_of(row: &IndexedRow) -> usize
    ensures value { (i : index_type) (n : Option ℤ) → result ≡ count_of (record { cell = cell_of row.now i; value = option_map (value_of row.now) n } ∷ []) }
    ensures few { result ≤ 1 }
{
    match row {
        IndexedRow::Inside(_) => 0,
        IndexedRow::Members(_) => 1,
        IndexedRow::Elements(_) => 1,
    }
}

// The cell that changes at a place of the list, of which so many stand before the runs. `near` is a run to look at first, and
// becomes the run of the place.
fn cell_behind(runs: &Option<Vec<ChangeRun>>, before: usize, at: usize, near: &mut usize) -> Cell
    requires started { AreStarted before (runs_in runs.now) }
    requires behind { before ≤ at }
    requires within { at < before + length (all_changes (runs_in runs.now)) }
    ensures { (d : Change cell_type value_type) → result ≡ (get_or (all_changes (runs_in runs.now)) (at - before) d).cell }
{
    match runs {
        None => unreachable!(),
        Some(runs) => cell_in(runs.as_slice(), before, at, near),
    }
}

// The cell that changes at a place of the list, looked for in the runs, before which so many changes stand. `near` is a run to look
// at first, and becomes the run of the place.
fn cell_in(runs: &[ChangeRun], before: usize, at: usize, near: &mut usize) -> Cell
    requires started { AreStarted before runs.now }
    requires behind { before ≤ at }
    requires within { at < before + length (all_changes runs.now) }
    ensures { (d : Change cell_type value_type) → result ≡ (get_or (all_changes runs.now) (at - before) d).cell }
{
    let number = run_of(runs, before, at, *near);
    *near = number;
    let run = &runs[number];
    run.cell(at - run.start)
}

// The change at a place of the list, of which so many stand before the runs. `near` is a run to look at first, and becomes the run
// of the place.
fn change_behind(
    runs: &Option<Vec<ChangeRun>>,
    before: usize,
    at: usize,
    near: &mut usize,
) -> CellChange
    requires started { AreStarted before (runs_in runs.now) }
    requires behind { before ≤ at }
    requires within { at < before + length (all_changes (runs_in runs.now)) }
    ensures { result ≡ get_or (all_changes (runs_in runs.now)) (at - before) result }
{
    match runs {
        None => unreachable!(),
        Some(runs) => change_in(runs.as_slice(), before, at, near),
    }
}

// The change at a place of the list, looked for in the runs, before which so many changes stand. `near` is a run to look at first,
// and becomes the run of the place.
fn change_in(runs: &[ChangeRun], before: usize, at: usize, near: &mut usize) -> CellChange
    requires started { AreStarted before runs.now }
    requires behind { before ≤ at }
    requires within { at < before + length (all_changes runs.now) }
    ensures { result ≡ get_or (all_changes runs.now) (at - before) result }
{
    let number = run_of(runs, before, at, *near);
    *near = number;
    let run = &runs[number];
    run.change(at - run.start)
}

// The number of the run that has a place of the list, of which so many stand before the runs. It is looked for from a run on,
// and then from the first.
fn run_of(runs: &[ChangeRun], before: usize, at: usize, near: usize) -> usize
    requires started { AreStarted before runs.now }
    requires behind { before ≤ at }
    requires within { at < before + length (all_changes runs.now) }
    ensures number { result < length runs.now }
    ensures place { (r : change_run) → slice_get runs.now result ≡ Some r → HasPlace r at }
{
    if has_place(runs, near, at) {
        return near;
    }
    let next = near.saturating_add(1);
    if has_place(runs, next, at) {
        return next;
    }
    for number in 0..runs.len() {
        if has_place(runs, number, at) {
            return number;
        }
    }
    unreachable!()
}

// Whether the run of a number has a place of the list.
fn has_place(runs: &[ChangeRun], number: usize, at: usize) -> bool
    ensures within { result ≡ true → number < length runs.now }
    ensures place { (r : change_run) → slice_get runs.now number ≡ Some r → Decides result (HasPlace r at) }
{
    match runs.get(number) {
        Some(run) => run.has_place(at),
        None => false,
    }
}

// Adds a change that has a place of the list, to the last run or as a run of its own. The first run takes the room of one, since
// most lists have no more, and are kept for long.
fn put(
    alloc: Global,
    runs: &mut Option<Vec<ChangeRun>>,
    start: usize,
    change: &CellChange,
) -> Result<(), NoMemory>
    ensures ok { OnOk result (all_changes (runs_in runs.new) ≡ all_changes (runs_in runs.old) ++ change.now ∷ []) }
    ensures err { OnErr result (all_changes (runs_in runs.new) ≡ all_changes (runs_in runs.old)) }
    ensures started { (n : ℕ) → AreStarted n (runs_in runs.old) → start ≡ n + length (all_changes (runs_in runs.old)) → AreStarted n (runs_in runs.new) }
{
    match runs {
        None => {
            let mut list = Vec::with_capacity(alloc, 1)?;
            put_run(alloc, &mut list, start, change)?;
            *runs = Some(list);
            Ok(())
        }
        Some(list) => {
            if add_to_last(list, change)? {
                return Ok(());
            }
            put_run(alloc, list, start, change)
        }
    }
}

// Adds a run that has a place of the list, behind the others. The first takes the room of one.
fn put_form(
    alloc: Global,
    runs: &mut Option<Vec<ChangeRun>>,
    start: usize,
    form: RunForm,
) -> Result<(), NoMemory>
    ensures ok { OnOk result (all_changes (runs_in runs.new) ≡ all_changes (runs_in runs.old) ++ changes_in form) }
    ensures err { OnErr result (all_changes (runs_in runs.new) ≡ all_changes (runs_in runs.old)) }
    ensures started { (n : ℕ) → AreStarted n (runs_in runs.old) → start ≡ n + length (all_changes (runs_in runs.old)) → AreStarted n (runs_in runs.new) }
{
    match runs {
        None => {
            let mut list = Vec::with_capacity(alloc, 1)?;
            add_run(&mut list, start, form)?;
            *runs = Some(list);
            Ok(())
        }
        Some(list) => add_run(list, start, form),
    }
}

fn add_run(runs: &mut Vec<ChangeRun>, start: usize, form: RunForm) -> Result<(), NoMemory>
    ensures ok { OnOk result (all_changes runs.new.items ≡ all_changes runs.old.items ++ changes_in form) }
    ensures err { OnErr result (runs.new.items ≡ runs.old.items) }
    ensures started { (n : ℕ) → AreStarted n runs.old.items → start ≡ n + length (all_changes runs.old.items) → AreStarted n runs.new.items }
{
    match runs.push(ChangeRun { start, form }) {
        Ok(()) => Ok(()),
        Err(_) => Err(NoMemory),
    }
}

// Adds a run of one change.
fn put_run(
    alloc: Global,
    runs: &mut Vec<ChangeRun>,
    start: usize,
    change: &CellChange,
) -> Result<(), NoMemory>
    ensures ok { OnOk result (all_changes runs.new.items ≡ all_changes runs.old.items ++ change.now ∷ []) }
    ensures err { OnErr result (runs.new.items ≡ runs.old.items) }
    ensures started { (n : ℕ) → AreStarted n runs.old.items → start ≡ n + length (all_changes runs.old.items) → AreStarted n runs.new.items }
{
    let form = RunForm::of(alloc, change)?;
    add_run(runs, start, form)
}

// Adds a change to the last run, if it may be packed with that.
fn add_to_last(runs: &mut Vec<ChangeRun>, change: &CellChange) -> Result<bool, NoMemory>
    ensures added { result ≡ Ok true → all_changes runs.new.items ≡ all_changes runs.old.items ++ change.now ∷ [] }
    ensures other { result ≡ Ok false → all_changes runs.new.items ≡ all_changes runs.old.items }
    ensures err { OnErr result (all_changes runs.new.items ≡ all_changes runs.old.items) }
    ensures started { (n : ℕ) → AreStarted n runs.old.items → AreStarted n runs.new.items }
{
    match runs.last_mut() {
        Some(run) => run.form.add(change),
        None => Ok(false),
    }
}
