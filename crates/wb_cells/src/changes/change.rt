ghost use Rattle.std.specs.Prelude.{◌≡◌, ◌≤◌, [], ◌∷◌, option_map};
ghost use Rattle.wb_cells.specs.declared.cells.value.Value.TheVariants.{Number};
ghost use Rattle.wb_cells.specs.Cells.{is_counted, count_of};

use crate::cells::cell::{AnyCell, Cell};
use crate::cells::value::{AnyValue, Value};
use std::marker::Model;

/// A cell with its new value, or with none where it is to be absent. Contracts see it as a `Change`.
#[derive(Clone, Copy)]
pub struct CellChange {
    cell: AnyCell,
    value: Option<AnyValue>,
}

impl Model for CellChange {
    ghost use Rattle.wb_cells.specs.declared.cells.cell.Cell.{Cell};
    ghost use Rattle.wb_cells.specs.declared.cells.value.Value as held;
    ghost use Rattle.selective_undo.specs.declared.Change.{Change};

    ghost Value = { Change Cell held.Value };

    ghost view = { λ a. record { cell = a.cell; value = a.value } };

    ghost inverse = { λ v. record { cell = v.cell; value = v.value } };
}

impl CellChange {
    /// The change of a cell to a value, or to absent.
    pub fn new(cell: Cell, value: Option<Value>) -> CellChange
        ensures { result ≡ record { cell = cell; value = value } }
    {
        let cell = AnyCell::new(cell);
        match value {
            Some(value) => CellChange {
                cell,
                value: Some(AnyValue::new(value)),
            },
            None => CellChange { cell, value: None },
        }
    }

    /// The cell that changes.
    pub fn cell(&self) -> Cell
        ensures { result ≡ self.now.cell }
    {
        self.cell.cell()
    }

    /// The cell that changes, without a copy of it.
    pub fn as_cell(&self) -> &Cell
        ensures { result.now ≡ self.now.cell }
    {
        self.cell.as_cell()
    }

    /// The change of a cell to a number, or to absent.
    pub fn of_number(cell: Cell, number: Option<i64>) -> CellChange
        ensures { result ≡ record { cell = cell; value = option_map Number number } }
    {
        match number {
            Some(number) => CellChange {
                cell: AnyCell::new(cell),
                value: Some(AnyValue::new(Value::Number(number))),
            },
            None => CellChange {
                cell: AnyCell::new(cell),
                value: None,
            },
        }
    }

    /// What the cell is to hold, if it is to be present, without a copy of it.
    pub fn as_value(&self) -> Option<&Value>
        ensures { option_map (λ v. v.now) result ≡ self.now.value }
    {
        match &self.value {
            Some(value) => Some(value.as_value()),
            None => None,
        }
    }

    /// What the cell is to hold, if it is to be present.
    pub fn value(&self) -> Option<Value>
        ensures { result ≡ self.now.value }
    {
        match self.value {
            Some(value) => Some(value.value()),
            None => None,
        }
    }
}

fn is_counted(cell: Cell) -> bool
    ensures { result ≡ is_counted cell }
{
    !matches!(&cell, Cell::In(_, _))
}

/// 1 for a change of another cell than `In`, else 0.
pub(crate) fn counted_one(change: &CellChange) -> usize
    ensures value { result ≡ count_of (change.now ∷ []) }
    ensures few { result ≤ 1 }
{
    if is_counted(change.cell()) { 1 } else { 0 }
}
