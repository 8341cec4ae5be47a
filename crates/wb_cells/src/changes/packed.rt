//! Changes of cells of one row at points of one rank: each takes its coordinates and a number.

ghost use Rattle.std.specs.Prelude.{◌≡◌, ◌<◌, ◌≤◌, [], ◌∷◌, ◌++◌, true, false, length, get_or, Ok, OnErr, IfOk, IfSome};
ghost use Rattle.selective_undo.specs.declared.Change.{Change};
ghost use Rattle.wb_cells.specs.declared.cells.cell.Cell.{Cell as cell_type};
ghost use Rattle.wb_cells.specs.declared.cells.value.Value.{Value as value_type};
ghost use Rattle.wb_cells.specs.Cells.{count_of};
ghost use Rattle.wb_cells.specs.Runs.{change_at, indexed_change, packed_changes};
ghost use Rattle.wb_cells.specs.declared.values.index.Index.TheVariants.{Point as at_point};

use crate::cells::cell::Cell;
use crate::changes::change::CellChange;
use crate::changes::indexed::IndexedChange;
use crate::changes::row::IndexedRow;
use crate::values::index::{AnyIndex, Index, coordinates_of};
use crate::values::point::Point;
use std::alloc::Global;
use wb_range::NoMemory;

/// Changes of cells of one row, each by its point and a number.
#[derive(Drop)]
pub struct Packed<const R: usize> {
    pub(crate) row: IndexedRow,
    pub(crate) changes: Vec<([i64; R], Option<i64>)>,
}

// The point and the number by which a change is one of a row, if it is one.
fn entry_of<const R: usize>(
    row: &IndexedRow,
    change: &CellChange,
) -> Option<([i64; R], Option<i64>)>
    requires { R ≤ 3 }
    ensures { IfSome result (λ e. change_at row.now e ≡ change.now) }
{
    let index = row.index_of(change.as_cell())?;
    let point = coordinates_of(&index)?;
    let number = row.number_of(change)?;
    Some((point, number))
}

// The index that a point of rank `R` is.
pub(crate) fn index_at<const R: usize>(point: &[i64; R]) -> AnyIndex
    requires { R ≤ 3 }
    ensures { result ≡ at_point point.now }
{
    AnyIndex::new(Index::Point(Point::of(point)))
}

// The change of a row that a point and a number stand for.
fn change_at<const R: usize>(row: &IndexedRow, entry: &([i64; R], Option<i64>)) -> CellChange
    requires { R ≤ 3 }
    ensures { result ≡ change_at row.now entry.now }
{
    row.change(index_at(&entry.0), entry.1)
}

// The cell that a point stands for.
fn cell_at<const R: usize>(row: &IndexedRow, entry: &([i64; R], Option<i64>)) -> Cell
    requires { R ≤ 3 }
    ensures { result ≡ (change_at row.now entry.now).cell }
{
    row.cell(index_at(&entry.0))
}

// The point and the number by which a change of a cell that has an index is one of a row, if it is one.
fn indexed_entry<const R: usize>(
    row: &IndexedRow,
    change: &IndexedChange,
) -> Option<([i64; R], Option<i64>)>
    requires { R ≤ 3 }
    ensures { IfSome result (λ e. change_at row.now e ≡ indexed_change change.now) }
{
    if !row.is_same(&change.row) {
        return None;
    }
    let point = coordinates_of(&change.index)?;
    Some((point, change.number))
}

impl<const R: usize> Packed<R> {
    /// Changes of cells of a row, each by its point and a number.
    pub fn new(row: IndexedRow, changes: Vec<([i64; R], Option<i64>)>) -> Packed<R>
        ensures row { result.row ≡ row }
        ensures changes { result.changes.items ≡ changes.entry.items }
    {
        Packed { row, changes }
    }

    /// The cells of which those that change are.
    pub fn row(&self) -> &IndexedRow
        ensures { result.now ≡ self.now.row }
    {
        &self.row
    }

    /// The changes, each by its point and a number.
    pub fn changes(&self) -> &[([i64; R], Option<i64>)]
        ensures { result.now ≡ self.now.changes.items }
    {
        self.changes.as_slice()
    }

    // How many of the cells are counted: all but `In`.
    #[tactic(auto, using(crate::proofs::Counted::none_inside, crate::proofs::Counted::all_members, crate::proofs::Counted::all_elements))]
    pub(crate) fn count(&self) -> usize
        ensures { result ≡ count_of (packed_changes self.now.row self.now.changes.items) }
    {
        match &self.row {
            IndexedRow::Inside(_) => 0,
            IndexedRow::Members(_) => self.changes.len(),
            IndexedRow::Elements(_) => self.changes.len(),
        }
    }

    /// One change, if it is one of such a row.
    pub(crate) fn of(
        alloc: Global,
        row: &IndexedRow,
        change: &CellChange,
    ) -> Result<Option<Packed<R>>, NoMemory>
        requires { R ≤ 3 }
        ensures { IfOk result (λ o. IfSome o (λ p. packed_changes p.row p.changes.items ≡ change.now ∷ [])) }
    {
        let Some(entry) = entry_of(row, change) else {
            return Ok(None);
        };
        let mut changes = Vec::new(alloc);
        if changes.push(entry).is_err() {
            return Err(NoMemory);
        }
        Ok(Some(Packed { row: *row, changes }))
    }

    /// Adds a change behind the others, if it is one of the row.
    pub(crate) fn add(&mut self, change: &CellChange) -> Result<bool, NoMemory>
        requires { R ≤ 3 }
        ensures added { result ≡ Ok true →
            packed_changes self.new.row self.new.changes.items ≡ packed_changes self.old.row self.old.changes.items ++ change.now ∷ [] }
        ensures other { result ≡ Ok false → packed_changes self.new.row self.new.changes.items ≡ packed_changes self.old.row self.old.changes.items }
        ensures err { OnErr result (packed_changes self.new.row self.new.changes.items ≡ packed_changes self.old.row self.old.changes.items) }
    {
        let Some(entry) = entry_of(&self.row, change) else {
            return Ok(false);
        };
        if self.changes.push(entry).is_err() {
            return Err(NoMemory);
        }
        Ok(true)
    }

    /// Adds a change of a cell that has an index behind the others, if it is one of the row.
    pub(crate) fn add_indexed(&mut self, change: &IndexedChange) -> Result<bool, NoMemory>
        requires { R ≤ 3 }
        ensures added { result ≡ Ok true →
            packed_changes self.new.row self.new.changes.items ≡ packed_changes self.old.row self.old.changes.items ++ indexed_change change.now ∷ [] }
        ensures other { result ≡ Ok false → packed_changes self.new.row self.new.changes.items ≡ packed_changes self.old.row self.old.changes.items }
        ensures err { OnErr result (packed_changes self.new.row self.new.changes.items ≡ packed_changes self.old.row self.old.changes.items) }
    {
        let Some(entry) = indexed_entry(&self.row, change) else {
            return Ok(false);
        };
        if self.changes.push(entry).is_err() {
            return Err(NoMemory);
        }
        Ok(true)
    }

    /// The cell that changes at a place.
    pub(crate) fn cell(&self, at: usize) -> Cell
        requires rank { R ≤ 3 }
        requires place { at < length (packed_changes self.now.row self.now.changes.items) }
        ensures { (d : Change cell_type value_type) → result ≡ (get_or (packed_changes self.now.row self.now.changes.items) at d).cell }
    {
        let changes = self.changes.as_slice();
        cell_at(&self.row, &changes[at])
    }

    /// How many changes there are.
    pub(crate) fn len(&self) -> usize
        ensures { result ≡ length (packed_changes self.now.row self.now.changes.items) }
    {
        self.changes.len()
    }

    /// The change at a place.
    pub(crate) fn change(&self, at: usize) -> CellChange
        requires rank { R ≤ 3 }
        requires place { at < length (packed_changes self.now.row self.now.changes.items) }
        ensures { result ≡ get_or (packed_changes self.now.row self.now.changes.items) at result }
    {
        let changes = self.changes.as_slice();
        change_at(&self.row, &changes[at])
    }
}
