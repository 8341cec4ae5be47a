ghost use Rattle.std.specs.Prelude.{◌≡◌, List, [], ◌∷◌, ◌++◌, true, false, OnOk, OnErr};
ghost use Rattle.selective_undo.specs.Changes.{changes, AllOnce};
ghost use Rattle.wb_cells.specs.Cells.{cell_cmp, count_of};
ghost use Rattle.wb_cells.specs.Runs.{cell_of, changes_in, indexed_change, packed_changes, rectangle_entries, numbered_entries};
ghost use Rattle.wb_cells.specs.declared.cells.cell.Cell.{Cell as cell_type};
ghost use Rattle.wb_cells.specs.declared.values.index.Index.{Index};

use crate::cells::cell::Cell;
use crate::cells::value::Value;
use crate::changes::change::CellChange;
use crate::changes::indexed::IndexedChange;
use crate::changes::list::Changes;
use crate::changes::numbers::RectangleNumbers;
use crate::changes::rectangle::RectangleChanges;
use crate::changes::row::IndexedRow;
use crate::changes::run::RunForm;
use crate::values::rectangle::AnyRect;
use std::alloc::Global;
use std::marker::Model;
use wb_range::NoMemory;

/// Changes to cells, each cell once. Contracts see their list.
#[derive(Drop)]
pub struct Delta {
    alloc: Global,
    changes: Changes,
}

impl Model for Delta {
    ghost use Rattle.std.specs.Prelude.{List};
    ghost use Rattle.selective_undo.specs.declared.Change.{Change};
    ghost use Rattle.wb_cells.specs.declared.cells.cell.Cell.{Cell};
    ghost use Rattle.wb_cells.specs.declared.cells.value.Value as held;
    ghost use Rattle.selective_undo.specs.Changes.{AllOnce};
    ghost use Rattle.wb_cells.specs.Cells.{cell_cmp};

    ghost Value = { List (Change Cell held.Value) };

    ghost view = { λ a. a.changes };

    ghost invariant = { λ a. AllOnce cell_cmp a.changes };
}

impl Delta {
    /// No changes.
    pub fn new(alloc: Global) -> Delta
        ensures { result ≡ [] }
    {
        Delta {
            alloc,
            changes: Changes::new(),
        }
    }

    /// Adds a change of a cell that is not there yet: to a value, or to absent.
    pub fn put(&mut self, cell: Cell, value: Option<Value>) -> Result<(), NoMemory>
        requires { changes cell_cmp self.old cell ≡ false }
        ensures ok { OnOk result (self.new ≡ self.old ++ record { cell = cell; value = value } ∷ []) }
        ensures err { OnErr result (self.new ≡ self.old) }
    {
        put_in(self.alloc, &mut self.changes, &cell, &value)
    }

    /// Adds a change of a cell that has an index and is not there yet.
    pub fn put_indexed(&mut self, change: &IndexedChange) -> Result<(), NoMemory>
        requires { changes cell_cmp self.old (indexed_change change.now).cell ≡ false }
        ensures ok { OnOk result (self.new ≡ self.old ++ indexed_change change.now ∷ []) }
        ensures err { OnErr result (self.new ≡ self.old) }
    {
        self.changes.push_indexed(self.alloc, change)
    }

    /// Adds that the cells of a row at every index of a rectangle, none of which is there yet, become what a number stands
    /// for, or absent. However many there are, they take the room of their ranges.
    pub fn put_rectangle(
        &mut self,
        row: &IndexedRow,
        ranges: &AnyRect,
        number: Option<i64>,
    ) -> Result<(), NoMemory>
        requires { (i : Index) → changes cell_cmp self.old (cell_of row.now i) ≡ false }
        ensures ok { OnOk result (self.new ≡ self.old ++ packed_changes row.now (rectangle_entries ranges.now number)) }
        ensures err { OnErr result (self.new ≡ self.old) }
    {
        // For the proof: each index of the ranges is listed once.
        let _once = ranges.size();
        let made = RectangleChanges::new(*row, *ranges, number);
        self.changes.push_run(self.alloc, RunForm::Rectangle(made))
    }

    /// Adds that the cells of a row at the indices of a rectangle, none of which is there yet, become what numbers stand for,
    /// the first at the first index and so on. They take the room of the numbers.
    pub fn put_numbers(
        &mut self,
        row: &IndexedRow,
        ranges: &AnyRect,
        numbers: Vec<i64>,
    ) -> Result<(), NoMemory>
        requires { (i : Index) → changes cell_cmp self.old (cell_of row.now i) ≡ false }
        ensures ok { OnOk result (self.new ≡ self.old ++ packed_changes row.now (numbered_entries ranges.now numbers.items)) }
        ensures err { OnErr result (self.new ≡ self.old) }
    {
        // For the proof: each index of the ranges is listed once.
        let _once = ranges.size();
        let made = RectangleNumbers::new(*row, *ranges, numbers);
        self.changes.push_run(self.alloc, RunForm::Numbers(made))
    }

    /// Adds the changes of a run, each of a cell that is not there yet and each cell once.
    pub fn put_run(&mut self, run: RunForm) -> Result<(), NoMemory>
        requires once { AllOnce cell_cmp (changes_in run) }
        requires new { (c : cell_type) → changes cell_cmp (changes_in run) c ≡ true → changes cell_cmp self.old c ≡ false }
        ensures ok { OnOk result (self.new ≡ self.old ++ changes_in run) }
        ensures err { OnErr result (self.new ≡ self.old) }
    {
        self.changes.push_run(self.alloc, run)
    }

    /// How many cells change; the cells `In`, which follow from the shapes, are not counted.
    pub fn count(&self) -> usize
        ensures { result ≡ count_of self.now }
    {
        self.changes.count()
    }

    /// The changes, in the order in which they were put.
    pub fn changes(&self) -> &Changes
        ensures same { result.now ≡ self.now }
        ensures once { AllOnce cell_cmp self.now }
    {
        &self.changes
    }
}

// Adds the change of a cell behind others, by its index if it has one.
fn put_in(
    alloc: Global,
    changes: &mut Changes,
    cell: &Cell,
    value: &Option<Value>,
) -> Result<(), NoMemory>
    ensures ok { OnOk result (changes.new ≡ changes.old ++ record { cell = cell.now; value = value.now } ∷ []) }
    ensures err { OnErr result (changes.new ≡ changes.old) }
{
    match IndexedChange::of(cell, value) {
        Some(change) => changes.push_indexed(alloc, &change),
        None => changes.push(alloc, CellChange::new(*cell, *value)),
    }
}
