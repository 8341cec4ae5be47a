//! The same number, or none, at each index of a rectangle.

ghost use Rattle.std.specs.Prelude.{◌≡◌, ◌<◌, length, get_or};
ghost use Rattle.selective_undo.specs.declared.Change.{Change};
ghost use Rattle.wb_cells.specs.declared.cells.cell.Cell.{Cell as cell_type};
ghost use Rattle.wb_cells.specs.declared.cells.value.Value.{Value as value_type};
ghost use Rattle.wb_cells.specs.Cells.{count_of};
ghost use Rattle.wb_cells.specs.Runs.{packed_changes, rectangle_entries};
ghost use Rattle.wb_cells.specs.Shapes.{indices};
ghost use Rattle.std.specs.Prelude.{slice_get, Some};

use crate::cells::cell::Cell;
use crate::changes::change::CellChange;
use crate::changes::row::IndexedRow;
use crate::values::index::AnyIndex;
use crate::values::rectangle::AnyRect;

/// Changes of the cells of a row at every index of a rectangle, to the same number each, or to absent. However many there
/// are, they take the room of their ranges.
#[derive(Clone, Copy)]
pub struct RectangleChanges {
    pub(crate) row: IndexedRow,
    pub(crate) ranges: AnyRect,
    pub(crate) number: Option<i64>,
}

impl RectangleChanges {
    /// The cells of the row at every index of the ranges become what the number stands for, or absent.
    pub fn new(row: IndexedRow, ranges: AnyRect, number: Option<i64>) -> RectangleChanges
        ensures { result ≡ record { row = row; ranges = ranges; number = number } }
    {
        RectangleChanges {
            row,
            ranges,
            number,
        }
    }

    /// The cells of which those that change are.
    pub fn row(&self) -> &IndexedRow
        ensures { result.now ≡ self.now.row }
    {
        &self.row
    }

    /// The ranges of the indices.
    pub fn ranges(&self) -> &AnyRect
        ensures { result.now ≡ self.now.ranges }
    {
        &self.ranges
    }

    /// The number that each becomes, if they are to be there.
    pub fn number(&self) -> Option<i64>
        ensures { result ≡ self.now.number }
    {
        self.number
    }

    /// How many changes there are.
    pub(crate) fn len(&self) -> usize
        ensures { result ≡ length (packed_changes self.now.row (rectangle_entries self.now.ranges self.now.number)) }
    {
        self.ranges.size()
    }

    // How many of the cells are counted: all but `In`.
    #[tactic(auto, using(crate::proofs::Counted::none_inside, crate::proofs::Counted::members_counted, crate::proofs::Counted::elements_counted))]
    pub(crate) fn count(&self) -> usize
        ensures { result ≡ count_of (packed_changes self.now.row (rectangle_entries self.now.ranges self.now.number)) }
    {
        match &self.row {
            IndexedRow::Inside(_) => 0,
            IndexedRow::Members(_) => self.len(),
            IndexedRow::Elements(_) => self.len(),
        }
    }

    /// The change at a place.
    pub(crate) fn change(&self, at: usize) -> CellChange
        requires { at < length (packed_changes self.now.row (rectangle_entries self.now.ranges self.now.number)) }
        ensures { result ≡ get_or (packed_changes self.now.row (rectangle_entries self.now.ranges self.now.number)) at result }
    {
        self.row.change(index_in(&self.ranges, at), self.number)
    }

    /// The cell that changes at a place.
    pub(crate) fn cell(&self, at: usize) -> Cell
        requires { at < length (packed_changes self.now.row (rectangle_entries self.now.ranges self.now.number)) }
        ensures { (d : Change cell_type value_type) →
            result ≡ (get_or (packed_changes self.now.row (rectangle_entries self.now.ranges self.now.number)) at d).cell }
    {
        self.row.cell(index_in(&self.ranges, at))
    }
}

/// The index at a place of a rectangle.
pub(crate) fn index_in(ranges: &AnyRect, at: usize) -> AnyIndex
    requires { at < length (indices ranges.now) }
    ensures { slice_get (indices ranges.now) at ≡ Some result }
{
    match ranges.nth(at) {
        Some(index) => index,
        None => unreachable!(),
    }
}
