//! The cells of one object that have an index each.

ghost use Rattle.std.specs.Prelude.{◌≡◌, true, IfSome, option_map};
ghost use Rattle.wb_cells.specs.declared.cells.value.Value.TheVariants.{Present};
ghost use Rattle.wb_cells.specs.Runs.{cell_of, kind_of_row, name_of_row, value_of};

use crate::cells::cell::Cell;
use crate::cells::value::Value;
use crate::changes::change::CellChange;
use crate::values::index::AnyIndex;
use crate::values::name::Name;

/// Which of the cells of an object that have an index each.
#[derive(Clone, Copy)]
pub enum RowKind {
    /// `In(d, i)`.
    Inside,
    /// `Member(d, i)`.
    Members,
    /// `Element(a, i)`.
    Elements,
}

/// The cells of one object that have an index each.
#[derive(Clone, Copy)]
pub enum IndexedRow {
    /// `In(d, i)` for each index i.
    Inside(Name),
    /// `Member(d, i)` for each index i.
    Members(Name),
    /// `Element(a, i)` for each index i.
    Elements(Name),
}

impl IndexedRow {
    /// The row of which the cell is one, if the cell has an index.
    pub(crate) fn of(cell: &Cell) -> Option<IndexedRow> {
        match cell {
            Cell::In(domain, _) => Some(IndexedRow::Inside(*domain)),
            Cell::Member(domain, _) => Some(IndexedRow::Members(*domain)),
            Cell::Element(array, _) => Some(IndexedRow::Elements(*array)),
            Cell::Object(_)
            | Cell::Shape(_)
            | Cell::Mapping(_)
            | Cell::Use(_, _)
            | Cell::Implicit(_) => None,
        }
    }

    /// The name of the object.
    pub fn name(&self) -> Name
        ensures { result ≡ name_of_row self.now }
    {
        match self {
            IndexedRow::Inside(name) => *name,
            IndexedRow::Members(name) => *name,
            IndexedRow::Elements(name) => *name,
        }
    }

    /// Which of its cells they are.
    pub fn kind(&self) -> RowKind
        ensures { result ≡ kind_of_row self.now }
    {
        match self {
            IndexedRow::Inside(_) => RowKind::Inside,
            IndexedRow::Members(_) => RowKind::Members,
            IndexedRow::Elements(_) => RowKind::Elements,
        }
    }

    /// True only where the rows are one; false tells nothing.
    pub fn is_same(&self, other: &IndexedRow) -> bool
        ensures { result ≡ true → self.now ≡ other.now }
    {
        match self {
            IndexedRow::Inside(name) => match other {
                IndexedRow::Inside(by) => name.is_same(by),
                IndexedRow::Members(_) => false,
                IndexedRow::Elements(_) => false,
            },
            IndexedRow::Members(name) => match other {
                IndexedRow::Inside(_) => false,
                IndexedRow::Members(by) => name.is_same(by),
                IndexedRow::Elements(_) => false,
            },
            IndexedRow::Elements(name) => match other {
                IndexedRow::Inside(_) => false,
                IndexedRow::Members(_) => false,
                IndexedRow::Elements(by) => name.is_same(by),
            },
        }
    }

    /// A number by which a value stands in one of these cells, or that none does, if the value may stand there.
    pub fn number(&self, value: &Option<Value>) -> Option<Option<i64>>
        ensures { IfSome result (λ n. option_map (value_of self.now) n ≡ value.now) }
    {
        match value {
            None => Some(None),
            Some(value) => {
                let number = self.number_for(value)?;
                Some(Some(number))
            }
        }
    }

    /// The cell of an index.
    pub fn cell(&self, index: AnyIndex) -> Cell
        ensures { result ≡ cell_of self.now index }
    {
        match self {
            IndexedRow::Inside(domain) => Cell::In(*domain, index),
            IndexedRow::Members(domain) => Cell::Member(*domain, index),
            IndexedRow::Elements(array) => Cell::Element(*array, index),
        }
    }

    /// The index of a cell, if the cell is one of the row.
    pub(crate) fn index_of(&self, cell: &Cell) -> Option<AnyIndex>
        ensures { IfSome result (λ i. cell.now ≡ cell_of self.now i) }
    {
        match self {
            IndexedRow::Inside(domain) => match cell {
                Cell::In(name, index) => under(domain, name, index),
                _ => None,
            },
            IndexedRow::Members(domain) => match cell {
                Cell::Member(name, index) => under(domain, name, index),
                _ => None,
            },
            IndexedRow::Elements(array) => match cell {
                Cell::Element(name, index) => under(array, name, index),
                _ => None,
            },
        }
    }

    /// The change of the cell of an index to what a number stands for, or to absent.
    pub(crate) fn change(&self, index: AnyIndex, number: Option<i64>) -> CellChange
        ensures { result ≡ record { cell = cell_of self.now index; value = option_map (value_of self.now) number } }
    {
        match self {
            IndexedRow::Elements(array) => CellChange::of_number(
                Cell::Element(*array, index),
                number,
            ),
            IndexedRow::Inside(domain) => present(Cell::In(*domain, index), number),
            IndexedRow::Members(domain) => present(Cell::Member(*domain, index), number),
        }
    }

    /// A number by which the value of a change stands in one of these cells, or that none does, if the value may stand there.
    pub(crate) fn number_of(&self, change: &CellChange) -> Option<Option<i64>>
        ensures { IfSome result (λ n. option_map (value_of self.now) n ≡ change.now.value) }
    {
        match change.as_value() {
            None => Some(None),
            Some(value) => {
                let number = self.number_for(value)?;
                Some(Some(number))
            }
        }
    }

    // A number by which a value stands in one of these cells, if it may stand there.
    fn number_for(&self, value: &Value) -> Option<i64>
        ensures { IfSome result (λ n. value_of self.now n ≡ value.now) }
    {
        match value {
            Value::Number(number) => match self {
                IndexedRow::Inside(_) | IndexedRow::Members(_) => None,
                IndexedRow::Elements(_) => Some(*number),
            },
            Value::Present => match self {
                IndexedRow::Inside(_) => Some(0),
                IndexedRow::Members(_) => Some(0),
                IndexedRow::Elements(_) => None,
            },
            Value::Domain(_)
            | Value::Array(_, _)
            | Value::Ranges(_)
            | Value::Mapping(_)
            | Value::Bound(_) => None,
        }
    }
}

// The change by which an index is there, or is not.
fn present(cell: Cell, number: Option<i64>) -> CellChange
    ensures { result ≡ record { cell = cell; value = option_map (λ _. Present) number } }
{
    match number {
        Some(_) => CellChange::new(cell, Some(Value::Present)),
        None => CellChange::new(cell, None),
    }
}

// An index, if the names are one.
fn under(name: &Name, other: &Name, index: &AnyIndex) -> Option<AnyIndex>
    ensures { IfSome result (λ i. (name.now ≡ other.now) × (i ≡ index.now)) }
{
    if name.is_same(other) {
        Some(*index)
    } else {
        None
    }
}
