//! The elements that a fill changed, with the numbers that they were, lent.

ghost use Rattle.std.specs.Prelude.{◌≡◌, ◌<◌, length, get_or, slice_get, Some, IfOk, IfSome, OnOk};
ghost use Rattle.selective_undo.specs.declared.Change.{Change};
ghost use Rattle.selective_undo.specs.Changes.{AllOnce};
ghost use Rattle.wb_cells.specs.declared.cells.cell.Cell.{Cell as cell_type};
ghost use Rattle.wb_cells.specs.declared.cells.cell.Cell.TheVariants as cell;
ghost use Rattle.wb_cells.specs.declared.cells.pattern.Pattern.TheVariants as pattern;
ghost use Rattle.wb_cells.specs.declared.cells.value.Value.{Value as value_type};
ghost use Rattle.wb_cells.specs.Cells.{cell_cmp};
ghost use Rattle.wb_cells.specs.Runs.{all_changes};
ghost use Rattle.wb_cells.specs.Shapes.{indices};
ghost use Rattle.wb_log.specs.Fills.{filled_in};

use crate::entry::object_pattern;
use std::alloc::Global;
use wb_cells::{
    AnyIndex, AnyRect, Cell, ChangeRun, Changes, IndexedRow, Name, Pattern, RectangleNumbers,
    RunForm,
};
use wb_range::NoMemory;

/// The elements of an array at the indices of a rectangle, and the numbers that they were: the first at the first index and so on,
/// as far as there are both.
#[derive(Clone, Copy)]
pub(crate) struct FilledCells<'a> {
    pub(crate) array: &'a Name,
    pub(crate) on: &'a AnyRect,
    pub(crate) numbers: &'a [i64],
}

impl<'a> FilledCells<'a> {
    /// The pattern of the array.
    pub(crate) fn object(&self) -> Pattern
        ensures { result ≡ pattern.One (cell.Object self.now.array.now) }
    {
        object_pattern(self.array)
    }

    /// How many cells there are.
    pub(crate) fn len(&self) -> usize
        ensures { result ≡ length (filled_in self.now) }
    {
        let size = self.on.size();
        if self.numbers.len() < size {
            self.numbers.len()
        } else {
            size
        }
    }

    /// The cell at a place.
    pub(crate) fn cell(&self, at: usize) -> Cell
        requires { at < length (filled_in self.now) }
        ensures { (d : Change cell_type value_type) → result ≡ (get_or (filled_in self.now) at d).cell }
    {
        Cell::Element(*self.array, index_in(self.on, at))
    }

    /// The cells with what they were, each once, as a list that is made for the moment; `NoMemory` where none is left for it.
    pub(crate) fn changes(&self, alloc: Global) -> Result<Changes, NoMemory>
        ensures same { IfOk result (λ xs. xs ≡ filled_in self.now) }
        ensures once { OnOk result (AllOnce cell_cmp (filled_in self.now)) }
    {
        // For the proof: each index is listed once.
        let _once = self.on.size();
        let Ok(numbers) = self.numbers.to_vec(alloc) else {
            return Err(NoMemory);
        };
        let row = IndexedRow::Elements(*self.array);
        let mut changes = Changes::new();
        match changes.push_run(
            alloc,
            RunForm::Numbers(RectangleNumbers::new(row, *self.on, numbers)),
        ) {
            Ok(()) => Ok(changes),
            Err(why) => Err(why),
        }
    }
}

// The index at a place of a rectangle.
fn index_in(on: &AnyRect, at: usize) -> AnyIndex
    requires { at < length (indices on.now) }
    ensures { slice_get (indices on.now) at ≡ Some result }
{
    match on.nth(at) {
        Some(index) => index,
        None => unreachable!(),
    }
}

/// The runs that a list is, where no change stands alone before them.
pub(crate) fn runs_of(changes: &Changes) -> Option<&[ChangeRun]>
    ensures { IfSome result (λ runs. all_changes runs.now ≡ changes.now) }
{
    match changes.parts() {
        (None, runs) => Some(runs),
        (Some(_), _) => None,
    }
}
