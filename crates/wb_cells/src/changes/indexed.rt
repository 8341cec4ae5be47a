//! A change of a cell that has an index, without what a cell or a value of another kind takes.

ghost use Rattle.std.specs.Prelude.{◌≡◌, IfSome};
ghost use Rattle.wb_cells.specs.Runs.{indexed_change};

use crate::cells::cell::Cell;
use crate::cells::value::Value;
use crate::changes::change::CellChange;
use crate::changes::row::IndexedRow;
use crate::values::index::AnyIndex;

/// A change of a cell that has an index: to what a number stands for there, or to absent. An element is a number; where an
/// index is inside or a member, any number says so.
#[derive(Clone, Copy)]
pub struct IndexedChange {
    /// The cells of which it is one.
    pub row: IndexedRow,
    /// Its index.
    pub index: AnyIndex,
    /// The number that it becomes, if it is to be there.
    pub number: Option<i64>,
}

impl IndexedChange {
    /// The change, as one of any cell.
    pub fn change(&self) -> CellChange
        ensures { result ≡ indexed_change self.now }
    {
        self.row.change(self.index, self.number)
    }

    /// The change of a cell to a value, or to absent, if it is one of these.
    pub fn of(cell: &Cell, value: &Option<Value>) -> Option<IndexedChange>
        ensures { IfSome result (λ e. indexed_change e ≡ record { cell = cell.now; value = value.now }) }
    {
        let (row, index) = match cell {
            Cell::In(domain, index) => (IndexedRow::Inside(*domain), *index),
            Cell::Member(domain, index) => (IndexedRow::Members(*domain), *index),
            Cell::Element(array, index) => (IndexedRow::Elements(*array), *index),
            Cell::Object(_)
            | Cell::Shape(_)
            | Cell::Mapping(_)
            | Cell::Use(_, _)
            | Cell::Implicit(_) => return None,
        };
        let number = row.number(value)?;
        Some(IndexedChange { row, index, number })
    }
}
