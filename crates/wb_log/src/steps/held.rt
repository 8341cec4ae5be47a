//! What the cells of a plan hold, where it looked at one cell before each of them.

ghost use Rattle.std.specs.Prelude.{◌≡◌, ◌≤◌, ◌<◌, ◌+◌, ◌^◌, [], ◌∷◌, ◌++◌, true, length, Some, IfOk, IfSome};
ghost use Rattle.std.specs.Prelude.{slice_get};
ghost use Rattle.std.specs.FinMap.{get};
ghost use Rattle.selective_undo.specs.Changes.{inverse};
ghost use Rattle.wb_cells.specs.Reads.{patterns_of};
ghost use Rattle.wb_cells.specs.Runs.{changes_in, in_first, packed_changes};
ghost use Rattle.wb_cells.specs.declared.cells.cell.Cell.TheVariants as cell_kind;
ghost use Rattle.wb_cells.specs.declared.cells.pattern.Pattern.TheVariants.{One};
ghost use Rattle.wb_cells.specs.declared.cells.value.Value.TheVariants as value_kind;
ghost use Rattle.wb_cells.specs.declared.changes.row.IndexedRow.TheVariants as row_kind;
ghost use Rattle.wb_cells.specs.declared.values.index.Index.TheVariants as index_kind;
ghost use Rattle.wb_log.specs.Sets.{each_read};

use crate::cells_were::CellsWere;
use crate::steps::making::{is_same, is_same_pattern};
use std::alloc::Global;
use wb_book::Book;
use wb_cells::{
    AnyCell, AnyIndex, Cell, CellChange, Changes, Delta, Index, IndexedRow, Name, Packed, Pattern,
    Point, ReadRun, RunForm, Value,
};
use wb_edit::ReadFootprint;
use wb_range::NoMemory;

// The number that the element of an array at a point is, if it is there.
fn number_at<const R: usize>(book: &Book, array: &Name, point: &[i64; R]) -> Option<i64>
    requires { R ≤ 3 }
    ensures { IfSome result (λ n. get book.now.cells (cell_kind.Element array.now (index_kind.Point point.now)) ≡ Some (value_kind.Number n)) }
{
    let index = AnyIndex::new(Index::Point(Point::of(point)));
    match book.get(&Cell::Element(*array, index)) {
        Some(Value::Number(number)) => Some(number),
        _ => None,
    }
}

// The points of changes of elements of an array, each with the number that the element is, in a list that has room for no more.
// None where one is not there.
fn numbers_at<const R: usize>(
    alloc: Global,
    book: &Book,
    array: &Name,
    changed: &[([i64; R], Option<i64>)],
) -> Result<Option<Vec<([i64; R], Option<i64>)>>, NoMemory>
    requires { R ≤ 3 }
    ensures { IfOk result (λ o. IfSome o (λ v. packed_changes (row_kind.Elements array.now) v.items ≡
        inverse (packed_changes (row_kind.Elements array.now) changed.now) book.now.cells)) }
{
    let mut held = Vec::with_capacity(alloc, changed.len())?;
    for entry in changed {
        let Some(number) = number_at(book, array, &entry.0) else {
            return Ok(None);
        };
        if held.push((entry.0, Some(number))).is_err() {
            return Err(NoMemory);
        }
    }
    Ok(Some(held))
}

// The changes that set back those of elements of an array; none where the changes are of other cells, or one is not there.
fn held_at<const R: usize>(
    alloc: Global,
    book: &Book,
    changed: &Packed<R>,
) -> Result<Option<Packed<R>>, NoMemory>
    requires { R ≤ 3 }
    ensures { IfOk result (λ o. IfSome o (λ p. packed_changes p.row p.changes.items ≡
        inverse (packed_changes changed.now.row changed.now.changes.items) book.now.cells)) }
{
    match changed.row() {
        IndexedRow::Elements(array) => match numbers_at(alloc, book, array, changed.changes()) {
            Err(why) => Err(why),
            Ok(None) => Ok(None),
            Ok(Some(held)) => Ok(Some(Packed::new(IndexedRow::Elements(*array), held))),
        },
        IndexedRow::Inside(_) | IndexedRow::Members(_) => Ok(None),
    }
}

// The changes that set back those of a run; none where they are of other cells than elements, or one is not there.
fn held_run(alloc: Global, book: &Book, changed: &RunForm) -> Result<Option<RunForm>, NoMemory>
    ensures { IfOk result (λ o. IfSome o (λ f. changes_in f ≡ inverse (changes_in changed.now) book.now.cells)) }
{
    match changed {
        RunForm::Rank1(line) => match held_at(alloc, book, line) {
            Err(why) => Err(why),
            Ok(None) => Ok(None),
            Ok(Some(held)) => Ok(Some(RunForm::Rank1(held))),
        },
        RunForm::Rank2(plane) => match held_at(alloc, book, plane) {
            Err(why) => Err(why),
            Ok(None) => Ok(None),
            Ok(Some(held)) => Ok(Some(RunForm::Rank2(held))),
        },
        RunForm::Rank3(solid) => match held_at(alloc, book, solid) {
            Err(why) => Err(why),
            Ok(None) => Ok(None),
            Ok(Some(held)) => Ok(Some(RunForm::Rank3(held))),
        },
        RunForm::One(_) | RunForm::Labels(_) | RunForm::Rectangle(_) | RunForm::Numbers(_) => Ok(
            None,
        ),
    }
}

// The change that sets back a first one, if there is one.
fn held_first(book: &Book, first: Option<CellChange>) -> Changes
    ensures { result ≡ inverse (in_first first) book.now.cells }
{
    match first {
        None => Changes::new(),
        Some(change) => {
            let target = change.cell();
            Changes::one(CellChange::new(target, book.get(&target)))
        }
    }
}

// The changes that set back those of elements at points, in lists that have room for no more; none where some are of another kind.
fn held_all(alloc: Global, book: &Book, changes: &Changes) -> Result<Option<Changes>, NoMemory>
    ensures { IfOk result (λ o. IfSome o (λ h. h ≡ inverse changes.now book.now.cells)) }
{
    let (first, runs) = changes.parts();
    let mut held = held_first(book, first);
    for run in runs {
        match held_run(alloc, book, run.form()) {
            Err(why) => return Err(why),
            Ok(None) => return Ok(None),
            Ok(Some(form)) => match held.push_run(alloc, form) {
                Err(why) => return Err(why),
                Ok(()) => {}
            },
        }
    }
    Ok(Some(held))
}

// Whether the pattern at a place of a list, of which the later ones are those of some cells, is that of a cell.
fn is_at(first: &[Pattern], rest: &Changes, at: usize, near: &mut usize, cell: &Cell) -> bool
    requires { at < length (first.now ++ patterns_of rest.now) }
    ensures { result ≡ true → slice_get (first.now ++ patterns_of rest.now) at ≡ Some (One cell.now) }
{
    if at < first.len() {
        return is_same_pattern(&first[at], &Pattern::One(AnyCell::new(*cell)));
    }
    is_same(&rest.cell_near(at - first.len(), near), cell)
}

// Whether a list of patterns, of which the later ones are those of some cells, has two for each of others.
fn are_twice(first: &[Pattern], rest: &Changes, cells: &Changes) -> bool
    ensures long { result ≡ true → length (first.now ++ patterns_of rest.now) ≡ length cells.now + length cells.now }
    ensures few { result ≡ true → length cells.now + length cells.now < 2 ^ 64 }
{
    let Some(twice) = cells.len().checked_add(cells.len()) else {
        return false;
    };
    match first.len().checked_add(rest.len()) {
        Some(all) => all == twice,
        None => false,
    }
}

// Whether a list of patterns, of which the later ones are those of some cells, is a look at one cell before that at each of others.
fn are_each(first: &[Pattern], rest: &Changes, before: &Cell, cells: &Changes) -> bool
    ensures { result ≡ true → first.now ++ patterns_of rest.now ≡ each_read (One before.now ∷ []) cells.now }
{
    if !are_twice(first, rest, cells) {
        return false;
    }
    let mut near = 0;
    let mut near_rest = 0;
    for at in 0..cells.len() {
        if !is_at(first, rest, at + at, &mut near_rest, before) {
            return false;
        }
        let cell = cells.cell_near(at, &mut near);
        if !is_at(first, rest, at + at + 1, &mut near_rest, &cell) {
            return false;
        }
    }
    true
}

// Whether what a plan read is a look at one cell before that at each of others.
fn reads_each(footprint: &ReadFootprint, before: &Cell, cells: &Changes) -> bool
    ensures { result ≡ true → footprint.now ≡ each_read (One before.now ∷ []) cells.now }
{
    let (first, rest) = footprint.parts();
    if rest.is_empty() {
        return are_each(first, &Changes::new(), before, cells);
    }
    if rest.len() != 1 {
        return false;
    }
    match &rest[0] {
        ReadRun::Cells(cells_read) => are_each(first, cells_read, before, cells),
        ReadRun::Single(_) => false,
    }
}

/// What the cells of a plan hold, if they are elements at points, and a look at the cell `before` came before that at each of them,
/// and no others.
pub(crate) fn held_of(
    alloc: Global,
    book: &Book,
    before: &Cell,
    delta: &Delta,
    footprint: &ReadFootprint,
) -> Result<Option<CellsWere>, NoMemory>
    ensures { IfOk result (λ o. IfSome o (λ w. w ≡ record { footprint = footprint.now; inverse = inverse delta.now book.now.cells })) }
{
    match held_all(alloc, book, delta.changes()) {
        Err(why) => Err(why),
        Ok(None) => Ok(None),
        Ok(Some(held)) => {
            if held.len() == 0 {
                return Ok(None);
            }
            if !reads_each(footprint, before, &held) {
                return Ok(None);
            }
            Ok(Some(CellsWere::new(Pattern::One(AnyCell::new(*before)), held)))
        }
    }
}
