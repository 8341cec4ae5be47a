//! Changes at the indices of a rectangle, whether to one number or to a number each.

ghost use Rattle.std.specs.Prelude.{◌≡◌, ◌<◌, ℤ, List, Option, true, false, length, min, get_or, slice_get, IfOk};
ghost use Rattle.wb_cells.specs.declared.changes.row.IndexedRow.{IndexedRow as row_type};
ghost use Rattle.wb_cells.specs.declared.values.index.Index.TheVariants.{Point as point_index};
ghost use Rattle.wb_cells.specs.Runs.{rectangle_entries, numbered_entries};
ghost use Rattle.wb_cells.specs.Shapes.{indices};
ghost use Rattle.std.specs.Map.{keys_of};
ghost use Rattle.wb_elements.specs.Blocks.{IsWhole, listed};
ghost use Rattle.wb_elements.specs.Entries.{with_all};
ghost use Rattle.wb_elements.specs.Piecewise.Marked.{as_changes};

use crate::elements::Elements;
use crate::kept::KeptChanges;
use std::alloc::Global;
use wb_cells::{AnyIndex, AnyRect, IndexedRow, RectangleChanges, RectangleNumbers};
use wb_range::NoMemory;

/// Changes of cells of a row at the indices of a rectangle.
pub trait ChangeBlock {
    ghost row_of: { Self → row_type };

    ghost ranges_of: { Self → List (List ℤ) };

    ghost entries: { Self → List (List ℤ × Option ℤ) };

    /// The cells of which those that change are.
    fn of_row(&self) -> IndexedRow
        ensures { result ≡ row_of self.now };

    /// The rectangle.
    fn over(&self) -> AnyRect
        ensures { result ≡ ranges_of self.now };

    /// How many changes there are.
    fn many(&self) -> usize
        ensures { result ≡ length (entries self.now) };

    /// The change at a place: its index, and the number that is set there, if one is.
    fn entry(&self, at: usize) -> (AnyIndex, Option<i64>)
        requires { at < length (entries self.now) }
        ensures { result ≡ get_or (as_changes point_index (entries self.now)) at result };

    /// True only where a number is set at each index of the rectangle; false tells nothing.
    fn is_whole(&self) -> bool
        ensures { result ≡ true → IsWhole (ranges_of self.now) (entries self.now) };

    /// Replaces the elements of an array over the rectangle, if there is a short way; says whether it did.
    fn write(&self, elements: &mut Elements) -> bool
        requires whole { IsWhole (ranges_of self.now) (entries self.now) }
        requires ranged { keys_of elements.old.0 ≡ indices (ranges_of self.now) }
        ensures done { result ≡ true → elements.new.0 ≡ with_all point_index elements.old.0 (entries self.now) }
        ensures left { result ≡ false → elements.new.0 ≡ elements.old.0 }
        ensures mapping { elements.new.1 ≡ elements.old.1 };

    /// The changes, copied.
    fn copied(&self, alloc: Global) -> Result<KeptChanges, NoMemory>
        ensures { IfOk result (λ k. listed k ≡ as_changes point_index (entries self.now)) };
}

impl ChangeBlock for RectangleChanges {
    ghost row_of = { λ b. b.row };

    ghost ranges_of = { λ b. b.ranges };

    ghost entries = { λ b. rectangle_entries b.ranges b.number };

    fn of_row(&self) -> IndexedRow {
        *self.row()
    }

    fn over(&self) -> AnyRect {
        *self.ranges()
    }

    fn many(&self) -> usize {
        self.ranges().size()
    }

    fn entry(&self, at: usize) -> (AnyIndex, Option<i64>) {
        match self.ranges().nth(at) {
            Some(index) => (index, self.number()),
            None => unreachable!(),
        }
    }

    fn is_whole(&self) -> bool {
        match self.number() {
            Some(_) => true,
            None => false,
        }
    }

    fn write(&self, elements: &mut Elements) -> bool {
        // For the proof: the indices of the elements ascend.
        let _ascending = elements.len();
        match self.number() {
            Some(number) => elements.fill(&number),
            None => false,
        }
    }

    fn copied(&self, _alloc: Global) -> Result<KeptChanges, NoMemory> {
        Ok(KeptChanges::Same(RectangleChanges::new(*self.row(), *self.ranges(), self.number())))
    }
}

// The number at a place.
fn number_at(numbers: &[i64], at: usize) -> Option<i64>
    ensures { result ≡ slice_get numbers.now at }
{
    numbers.get(at).copied()
}

fn lesser(one: usize, other: usize) -> usize
    ensures { result ≡ min one other }
{
    if one < other { one } else { other }
}

impl ChangeBlock for RectangleNumbers {
    ghost row_of = { λ b. b.row };

    ghost ranges_of = { λ b. b.ranges };

    ghost entries = { λ b. numbered_entries b.ranges b.numbers.items };

    fn of_row(&self) -> IndexedRow {
        *self.row()
    }

    fn over(&self) -> AnyRect {
        *self.ranges()
    }

    fn many(&self) -> usize {
        lesser(self.ranges().size(), self.numbers().len())
    }

    fn entry(&self, at: usize) -> (AnyIndex, Option<i64>) {
        match self.ranges().nth(at) {
            Some(index) => (index, number_at(self.numbers(), at)),
            None => unreachable!(),
        }
    }

    fn is_whole(&self) -> bool {
        self.numbers().len() == self.ranges().size()
    }

    fn write(&self, elements: &mut Elements) -> bool {
        // For the proof: the indices of the elements ascend.
        let _ascending = elements.len();
        elements.set_numbers(self.numbers())
    }

    fn copied(&self, alloc: Global) -> Result<KeptChanges, NoMemory> {
        let numbers = Vec::from_slice(alloc, self.numbers())?;
        Ok(KeptChanges::Each(RectangleNumbers::new(*self.row(), *self.ranges(), numbers)))
    }
}
