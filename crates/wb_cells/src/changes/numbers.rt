//! A number at each index of a rectangle.

ghost use Rattle.std.specs.Prelude.{◌≡◌, ◌<◌, length, get_or, slice_get};
ghost use Rattle.selective_undo.specs.declared.Change.{Change};
ghost use Rattle.wb_cells.specs.declared.cells.cell.Cell.{Cell as cell_type};
ghost use Rattle.wb_cells.specs.declared.cells.value.Value.{Value as value_type};
ghost use Rattle.wb_cells.specs.Cells.{count_of};
ghost use Rattle.wb_cells.specs.Runs.{packed_changes, numbered_entries};

use crate::cells::cell::Cell;
use crate::changes::change::CellChange;
use crate::changes::rectangle::index_in;
use crate::changes::row::IndexedRow;
use crate::values::rectangle::AnyRect;

/// Changes of the cells of a row at the indices of a rectangle, to a number each: the first to the first index, and so on,
/// as far as there are both.
#[derive(Drop)]
pub struct RectangleNumbers {
    pub(crate) row: IndexedRow,
    pub(crate) ranges: AnyRect,
    pub(crate) numbers: Vec<i64>,
}

impl RectangleNumbers {
    /// The cells of the row at the indices of the ranges become what the numbers stand for, one after another.
    pub fn new(row: IndexedRow, ranges: AnyRect, numbers: Vec<i64>) -> RectangleNumbers
        ensures row { result.row ≡ row }
        ensures ranges { result.ranges ≡ ranges }
        ensures numbers { result.numbers.items ≡ numbers.items }
    {
        RectangleNumbers {
            row,
            ranges,
            numbers,
        }
    }

    /// The cells of which those that change are.
    pub fn row(&self) -> &IndexedRow
        ensures { result.now ≡ self.now.row }
    {
        &self.row
    }

    /// The ranges of the indices.
    pub fn ranges(&self) -> &AnyRect
        ensures { result.now ≡ self.now.ranges }
    {
        &self.ranges
    }

    /// The numbers, in the order of the indices.
    pub fn numbers(&self) -> &[i64]
        ensures { result.now ≡ self.now.numbers.items }
    {
        self.numbers.as_slice()
    }

    /// How many changes there are.
    pub(crate) fn len(&self) -> usize
        ensures { result ≡ length (packed_changes self.now.row (numbered_entries self.now.ranges self.now.numbers.items)) }
    {
        let size = self.ranges.size();
        if self.numbers.len() < size {
            self.numbers.len()
        } else {
            size
        }
    }

    // How many of the cells are counted: all but `In`.
    #[tactic(auto, using(crate::proofs::Counted::none_inside, crate::proofs::Counted::members_counted, crate::proofs::Counted::elements_counted))]
    pub(crate) fn count(&self) -> usize
        ensures { result ≡ count_of (packed_changes self.now.row (numbered_entries self.now.ranges self.now.numbers.items)) }
    {
        match &self.row {
            IndexedRow::Inside(_) => 0,
            IndexedRow::Members(_) => self.len(),
            IndexedRow::Elements(_) => self.len(),
        }
    }

    /// The change at a place.
    pub(crate) fn change(&self, at: usize) -> CellChange
        requires { at < length (packed_changes self.now.row (numbered_entries self.now.ranges self.now.numbers.items)) }
        ensures { result ≡ get_or (packed_changes self.now.row (numbered_entries self.now.ranges self.now.numbers.items)) at result }
    {
        let number = number_in(self.numbers.as_slice(), at);
        self.row.change(index_in(&self.ranges, at), number)
    }

    /// The cell that changes at a place.
    pub(crate) fn cell(&self, at: usize) -> Cell
        requires { at < length (packed_changes self.now.row (numbered_entries self.now.ranges self.now.numbers.items)) }
        ensures { (d : Change cell_type value_type) →
            result ≡ (get_or (packed_changes self.now.row (numbered_entries self.now.ranges self.now.numbers.items)) at d).cell }
    {
        self.row.cell(index_in(&self.ranges, at))
    }
}

// The number at a place.
fn number_in(numbers: &[i64], at: usize) -> Option<i64>
    ensures { result ≡ slice_get numbers.now at }
{
    numbers.get(at).copied()
}
