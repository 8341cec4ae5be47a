//! Marks for the cells of a list of changes.

ghost use Rattle.std.specs.Prelude.{◌≡◌, ◌&&◌, ◌<◌, true, length, IsTrue, OnOk, OnErr, IfOk};
ghost use Rattle.wb_footprints.specs.Relation.{Sets, Stays, Clears};
ghost use Rattle.wb_cells.specs.declared.values.index.Index.{Index};
ghost use Rattle.wb_footprints.specs.Places.{family, place_marked};
ghost use Rattle.wb_footprints.specs.declared.places.place.Place.{Place};
ghost use Rattle.wb_cells.specs.Runs.{changes_in, all_changes, in_first, cell_of};
ghost use Rattle.wb_cells.specs.declared.cells.cell.Cell.TheVariants as cell;
ghost use Rattle.wb_footprints.specs.declared.places.marking.Marking.TheVariants.{Families};
ghost use Rattle.wb_footprints.specs.Rows.{AreOfRow};
ghost use Rattle.wb_footprints.specs.Footprints.{at_cell, marked_at, run_marked, IsUnmarked};

use crate::marks::blocks::NewBlock;
use crate::marks::place_marks::PlaceMarks;
use crate::places::marking::Marking;
use crate::places::part::{Part, Slot};
use crate::places::place::own;
use crate::places::runs::{LEAST, Run, family_of, row_of};
use wb_cells::{AnyIndex, Cell, CellChange, ChangeRun, Changes, IndexedRow, Name};
use wb_range::NoMemory;

pub(crate) fn mark(
    marks: &mut PlaceMarks,
    marking: Marking,
    cell: &Cell,
    number: u64,
) -> Result<(), NoMemory>
    ensures ok { OnOk result (Sets (place_marked marks.old) (place_marked marks.new) (at_cell marking cell.now) number true) }
    ensures err { OnErr result (Stays (place_marked marks.old) (place_marked marks.new) (at_cell marking cell.now) number) }
{
    marks.add(&own(cell), number)?;
    match marking.family(cell) {
        Some(place) => marks.add(&place, number),
        None => Ok(()),
    }
}

pub(crate) fn unmark(marks: &mut PlaceMarks, marking: Marking, cell: &Cell, number: u64)
    ensures { Clears (place_marked marks.old) (place_marked marks.new) (at_cell marking cell.now) number }
{
    marks.take(&own(cell), number);
    if let Some(place) = marking.family(cell) {
        marks.take(&place, number);
    }
}

/// Marks an element, and the family of it: as `mark`, with no cell made.
pub(crate) fn mark_element(
    marks: &mut PlaceMarks,
    array: &Name,
    index: &AnyIndex,
    number: u64,
) -> Result<(), NoMemory>
    ensures ok { OnOk result (Sets (place_marked marks.old) (place_marked marks.new) (at_cell Families (cell.Element array.now index.now)) number true) }
    ensures err { OnErr result (Stays (place_marked marks.old) (place_marked marks.new) (at_cell Families (cell.Element array.now index.now)) number) }
{
    marks.add_part(array, &Part::Element(*index), number)?;
    marks.add_part(array, &Part::Slot(Slot::Elements), number)
}

/// Takes a number away from an element, and from the family of it: as `unmark`, with no cell made.
pub(crate) fn unmark_element(marks: &mut PlaceMarks, array: &Name, index: &AnyIndex, number: u64)
    ensures { Clears (place_marked marks.old) (place_marked marks.new) (at_cell Families (cell.Element array.now index.now)) number }
{
    marks.take_part(array, &Part::Element(*index), number);
    marks.take_part(array, &Part::Slot(Slot::Elements), number);
}

// Marks the cells of a run one by one.
fn mark_each(
    marks: &mut PlaceMarks,
    marking: Marking,
    cells: &ChangeRun,
    number: u64,
) -> Result<(), NoMemory>
    ensures ok { OnOk result (Sets (place_marked marks.old) (place_marked marks.new) (marked_at marking (changes_in cells.now.form)) number true) }
    ensures err { OnErr result (Stays (place_marked marks.old) (place_marked marks.new) (marked_at marking (changes_in cells.now.form)) number) }
{
    for at in 0..cells.len() {
        let cell = cells.cell(at);
        mark(marks, marking, &cell, number)?;
    }
    Ok(())
}

// Marks the cells of a run by one block, or, where there is no room for it, none.
fn mark_row(
    marks: &mut PlaceMarks,
    marking: Marking,
    run: Run,
    cells: &ChangeRun,
    number: u64,
) -> Result<bool, NoMemory>
    requires some { 0 < length run.indices }
    requires marked { (q : Place) → marked_at marking (changes_in cells.now.form) q ≡ run_marked marking run.row run.indices q }
    ensures ok { IfOk result (λ b. Sets (place_marked marks.old) (place_marked marks.new)
        (λ q. b && marked_at marking (changes_in cells.now.form) q) number true) }
    ensures err { OnErr result (Stays (place_marked marks.old) (place_marked marks.new) (marked_at marking (changes_in cells.now.form)) number) }
{
    let row = run.row;
    if !marks.add_block(
        &row,
        NewBlock {
            number,
            indices: run.indices,
        },
    ) {
        return Ok(false);
    }
    match family_of(&row, marking) {
        None => Ok(true),
        Some(place) => {
            marks.add(&place, number)?;
            Ok(true)
        }
    }
}

// Marks the cells of a run, by one block if there is room for it.
fn mark_part(
    marks: &mut PlaceMarks,
    marking: Marking,
    run: Run,
    cells: &ChangeRun,
    number: u64,
) -> Result<(), NoMemory>
    requires some { 0 < length run.indices }
    requires marked { (q : Place) → marked_at marking (changes_in cells.now.form) q ≡ run_marked marking run.row run.indices q }
    ensures ok { OnOk result (Sets (place_marked marks.old) (place_marked marks.new) (marked_at marking (changes_in cells.now.form)) number true) }
    ensures err { OnErr result (Stays (place_marked marks.old) (place_marked marks.new) (marked_at marking (changes_in cells.now.form)) number) }
{
    if mark_row(marks, marking, run, cells, number)? {
        return Ok(());
    }
    mark_each(marks, marking, cells, number)
}

// Marks the cells of a run: by one block if it is long and there is room for it, and else one by one.
fn mark_run(
    marks: &mut PlaceMarks,
    marking: Marking,
    cells: &ChangeRun,
    number: u64,
) -> Result<(), NoMemory>
    ensures ok { OnOk result (Sets (place_marked marks.old) (place_marked marks.new) (marked_at marking (changes_in cells.now.form)) number true) }
    ensures err { OnErr result (Stays (place_marked marks.old) (place_marked marks.new) (marked_at marking (changes_in cells.now.form)) number) }
{
    if cells.len() < LEAST {
        return mark_each(marks, marking, cells, number);
    }
    match Run::of_cells(marks.alloc, cells) {
        None => mark_each(marks, marking, cells, number),
        Some(run) => mark_part(marks, marking, run, cells, number),
    }
}

// Marks the cells of runs.
pub(crate) fn mark_runs(
    marks: &mut PlaceMarks,
    marking: Marking,
    runs: &[ChangeRun],
    number: u64,
) -> Result<(), NoMemory>
    ensures ok { OnOk result (Sets (place_marked marks.old) (place_marked marks.new) (marked_at marking (all_changes runs.now)) number true) }
    ensures err { OnErr result (Stays (place_marked marks.old) (place_marked marks.new) (marked_at marking (all_changes runs.now)) number) }
{
    for run in runs {
        mark_run(marks, marking, run, number)?;
    }
    Ok(())
}

// Marks the cell of a change, if there is one.
fn mark_first(
    marks: &mut PlaceMarks,
    marking: Marking,
    first: &Option<CellChange>,
    number: u64,
) -> Result<(), NoMemory>
    ensures ok { OnOk result (Sets (place_marked marks.old) (place_marked marks.new) (marked_at marking (in_first first.now)) number true) }
    ensures err { OnErr result (Stays (place_marked marks.old) (place_marked marks.new) (marked_at marking (in_first first.now)) number) }
{
    match first {
        None => Ok(()),
        Some(x) => mark(marks, marking, x.as_cell(), number),
    }
}

pub(crate) fn mark_all(
    marks: &mut PlaceMarks,
    marking: Marking,
    cells: &Changes,
    number: u64,
) -> Result<(), NoMemory>
    ensures ok { OnOk result (Sets (place_marked marks.old) (place_marked marks.new) (marked_at marking cells.now) number true) }
    ensures err { OnErr result (Stays (place_marked marks.old) (place_marked marks.new) (marked_at marking cells.now) number) }
{
    let (first, runs) = cells.parts();
    mark_first(marks, marking, &first, number)?;
    mark_runs(marks, marking, runs, number)
}

// Takes a number away from the cells of a run one by one.
fn unmark_each(marks: &mut PlaceMarks, marking: Marking, cells: &ChangeRun, number: u64)
    ensures { Clears (place_marked marks.old) (place_marked marks.new) (marked_at marking (changes_in cells.now.form)) number }
{
    for at in 0..cells.len() {
        let cell = cells.cell(at);
        unmark(marks, marking, &cell, number);
    }
}

// Takes a number away from a cell of a row, and says whether it is seen to stand at none of the row any more.
fn unmark_first(
    marks: &mut PlaceMarks,
    marking: Marking,
    row: &IndexedRow,
    cell: &Cell,
    number: u64,
) -> bool
    requires { (p : Index) → family (cell_of row.now p) ≡ family cell.now }
    ensures cell { Clears (place_marked marks.old) (place_marked marks.new) (at_cell marking cell.now) number }
    ensures row { IsTrue result → IsUnmarked marking row.now marks.new number }
{
    unmark(marks, marking, cell, number);
    marks.is_clear(row, number)
}

// Takes a number away from the cells of a run: from the first, and from the others where it may stand at one.
fn unmark_row(
    marks: &mut PlaceMarks,
    marking: Marking,
    row: &IndexedRow,
    cells: &ChangeRun,
    number: u64,
)
    requires { AreOfRow row.now (changes_in cells.now.form) }
    ensures { Clears (place_marked marks.old) (place_marked marks.new) (marked_at marking (changes_in cells.now.form)) number }
{
    if cells.len() == 0 {
        return;
    }
    if unmark_first(marks, marking, row, &cells.cell(0), number) {
        return;
    }
    unmark_each(marks, marking, cells, number);
}

// Takes a number away from the cells of a run.
fn unmark_run(marks: &mut PlaceMarks, marking: Marking, cells: &ChangeRun, number: u64)
    ensures { Clears (place_marked marks.old) (place_marked marks.new) (marked_at marking (changes_in cells.now.form)) number }
{
    match row_of(cells.form()) {
        None => unmark_each(marks, marking, cells, number),
        Some(row) => unmark_row(marks, marking, &row, cells, number),
    }
}

// Takes a number away from the cells of runs.
pub(crate) fn unmark_runs(marks: &mut PlaceMarks, marking: Marking, runs: &[ChangeRun], number: u64)
    ensures { Clears (place_marked marks.old) (place_marked marks.new) (marked_at marking (all_changes runs.now)) number }
{
    for run in runs {
        unmark_run(marks, marking, run, number);
    }
}

// Takes a number away from the cell of a change, if there is one.
fn unmark_change(marks: &mut PlaceMarks, marking: Marking, first: &Option<CellChange>, number: u64)
    ensures { Clears (place_marked marks.old) (place_marked marks.new) (marked_at marking (in_first first.now)) number }
{
    match first {
        None => {}
        Some(x) => unmark(marks, marking, x.as_cell(), number),
    }
}

pub(crate) fn unmark_all(marks: &mut PlaceMarks, marking: Marking, cells: &Changes, number: u64)
    ensures { Clears (place_marked marks.old) (place_marked marks.new) (marked_at marking cells.now) number }
{
    let (first, runs) = cells.parts();
    unmark_change(marks, marking, &first, number);
    unmark_runs(marks, marking, runs, number);
}
