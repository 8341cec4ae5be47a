//! A fill of several elements is made, and kept by the numbers that they were.

ghost use Rattle.std.specs.Prelude.{◌≡◌, ◌≤◌, ◌++◌, true, Some, IfSome, OnOk, OnErr};
ghost use Rattle.selective_undo.specs.Changes.{apply, inverse};
ghost use Rattle.wb_cells.specs.Cells.{saturating_add, count_of};
ghost use Rattle.wb_cells.specs.Reads.{patterns_of};
ghost use Rattle.wb_cells.specs.Runs.{changes_in, in_first, packed_changes, numbered_entries};
ghost use Rattle.wb_cells.specs.WellFormed.{IsWellFormed};
ghost use Rattle.wb_cells.specs.declared.changes.row.IndexedRow.TheVariants as row_kind;
ghost use Rattle.wb_edit.specs.declared.asked_rectangle.AskedRectangle.TheVariants as asked_for;
ghost use Rattle.wb_edit.specs.declared.command.Command.TheVariants as command;
ghost use Rattle.wb_edit.specs.declared.edit.Edit.TheVariants.{Command as OneCommand};
ghost use Rattle.wb_log.specs.Fills.{filled_cells, array_reads, values_in, values_of};
ghost use Rattle.wb_log.specs.Records.{shown};

use crate::entry::{FillsRecord, LoggedEdit, RecordForm, UndoData};
use crate::steps::making::is_same_pattern;
use std::alloc::Global;
use wb_arrays::Mover;
use wb_book::Book;
use wb_cells::{
    AnyCell, AnyRect, Cell, CellChange, Changes, Delta, IndexedRow, Inverse, Name, Packed, Pattern,
    ReadRun, RectangleChanges, RectangleNumbers, RunForm, Value,
};
use wb_edit::ReadFootprint;
use wb_range::NoMemory;

// Whether a run is of the elements of an array at the indices of a rectangle.
fn is_at(block: &RectangleChanges, array: &Name, on: &AnyRect) -> bool
    ensures row { result ≡ true → block.now.row ≡ row_kind.Elements array.now }
    ensures ranges { result ≡ true → block.now.ranges ≡ on.now }
{
    if !block.row().is_same(&IndexedRow::Elements(*array)) {
        return false;
    }
    block.ranges().is_same(on)
}

// Whether a list is seen to be of the elements of an array at the indices of a rectangle, in order.
fn are_at(cells: &Changes, array: &Name, on: &AnyRect) -> bool
    ensures { result ≡ true → patterns_of cells.now ≡ patterns_of (filled_cells array.now on.now) }
{
    let (first, runs) = cells.parts();
    if first.is_some() {
        return false;
    }
    if runs.len() != 1 {
        return false;
    }
    match runs[0].form() {
        RunForm::Rectangle(block) => is_at(block, array, on),
        _ => false,
    }
}

// Whether what a plan read is a look at an array, and then at its elements at the indices of a rectangle.
fn are_read(footprint: &ReadFootprint, array: &Name, on: &AnyRect) -> bool
    ensures { result ≡ true → footprint.now ≡ array_reads array.now (filled_cells array.now on.now) }
{
    let (first, rest) = footprint.parts();
    if first.len() != 1 {
        return false;
    }
    if rest.len() != 1 {
        return false;
    }
    if !is_same_pattern(&first[0], &Pattern::One(AnyCell::new(Cell::Object(*array)))) {
        return false;
    }
    match &rest[0] {
        ReadRun::Cells(cells) => are_at(cells, array, on),
        ReadRun::Single(_) => false,
    }
}

/// The fill of several elements that the edit of a form is, out of force, if it is one, and its plan reads the array and then these
/// elements, and changes them in the same order.
pub(crate) fn fill_in(
    form: &RecordForm,
    delta: &Delta,
    footprint: &ReadFootprint,
) -> Option<FillsRecord>
    ensures edit { IfSome result (λ f. (shown form.now).edit ≡ OneCommand (command.Fill f.array (asked_for.Ranges f.on) f.value)) }
    ensures reads { IfSome result (λ f. footprint.now ≡ array_reads f.array (filled_cells f.array f.on)) }
    ensures cells { IfSome result (λ f. patterns_of delta.now ≡ patterns_of (filled_cells f.array f.on)) }
{
    let RecordForm::Fills(fills) = form else {
        return None;
    };
    if !are_read(footprint, &fills.array, &fills.on) {
        return None;
    }
    if !are_at(delta.changes(), &fills.array, &fills.on) {
        return None;
    }
    Some(FillsRecord {
        array: fills.array,
        on: fills.on,
        value: fills.value,
        were: None,
    })
}

// Adds the number that a first change sets, if there is one; false where that is no number, or no memory is left.
fn add_first(numbers: &mut Vec<i64>, first: &Option<CellChange>) -> bool
    ensures { result ≡ true → values_of numbers.new.items ≡ values_of numbers.old.items ++ values_in (in_first first.now) }
{
    match first {
        None => true,
        Some(change) => match change.value() {
            Some(Value::Number(number)) => numbers.push(number).is_ok(),
            _ => false,
        },
    }
}

// Adds the numbers that changes of elements at points set; false where one sets none, or no memory is left.
fn add_numbers<const R: usize>(
    numbers: &mut Vec<i64>,
    array: &Name,
    changes: &[([i64; R], Option<i64>)],
) -> bool
    ensures { result ≡ true → values_of numbers.new.items ≡
        values_of numbers.old.items ++ values_in (packed_changes (row_kind.Elements array.now) changes.now) }
{
    for change in changes {
        let Some(number) = change.1 else {
            return false;
        };
        if numbers.push(number).is_err() {
            return false;
        }
    }
    true
}

// Adds the numbers that changes at points set, of any row; false where one is of another cell or sets none, or no memory is left.
fn add_packed<const R: usize>(numbers: &mut Vec<i64>, packed: &Packed<R>) -> bool
    requires { R ≤ 3 }
    ensures { result ≡ true → values_of numbers.new.items ≡
        values_of numbers.old.items ++ values_in (packed_changes packed.now.row packed.now.changes.items) }
{
    match packed.row() {
        IndexedRow::Elements(array) => add_numbers(numbers, array, packed.changes()),
        IndexedRow::Inside(_) | IndexedRow::Members(_) => false,
    }
}

// Adds the numbers of changes at each index of a rectangle; false where one is of another cell, or no memory is left.
fn add_block(numbers: &mut Vec<i64>, block: &RectangleNumbers) -> bool
    ensures { result ≡ true → values_of numbers.new.items ≡
        values_of numbers.old.items ++ values_in (packed_changes block.now.row (numbered_entries block.now.ranges block.now.numbers.items)) }
{
    if block.numbers().len() > block.ranges().size() {
        return false;
    }
    match block.row() {
        IndexedRow::Elements(_) => numbers.extend_from_slice(block.numbers()).is_ok(),
        IndexedRow::Inside(_) | IndexedRow::Members(_) => false,
    }
}

// Adds the numbers that the changes of a run set; false where it is of another kind, or no memory is left.
fn add_run(numbers: &mut Vec<i64>, form: &RunForm) -> bool
    ensures { result ≡ true → values_of numbers.new.items ≡ values_of numbers.old.items ++ values_in (changes_in form.now) }
{
    match form {
        RunForm::Rank1(line) => add_packed(numbers, line),
        RunForm::Rank2(plane) => add_packed(numbers, plane),
        RunForm::Rank3(solid) => add_packed(numbers, solid),
        RunForm::Numbers(block) => add_block(numbers, block),
        RunForm::One(_) | RunForm::Labels(_) | RunForm::Rectangle(_) => false,
    }
}

// The numbers that changes set, in a list that has room for no more; `None` where one sets none, or no memory is left.
fn numbers_in(alloc: Global, before: &Changes) -> Option<Vec<i64>>
    ensures { IfSome result (λ v. values_of v.items ≡ values_in before.now) }
{
    let (first, runs) = before.parts();
    let Ok(mut numbers) = Vec::with_capacity(alloc, before.len()) else {
        return None;
    };
    if !add_first(&mut numbers, &first) {
        return None;
    }
    for run in runs {
        if !add_run(&mut numbers, run.form()) {
            return None;
        }
    }
    Some(numbers)
}

// A fill in force, by the numbers that the elements were; `None` where one was none, or no memory is left.
fn fills_form(alloc: Global, fills: &FillsRecord, before: &Changes) -> Option<RecordForm>
    requires { patterns_of before.now ≡ patterns_of (filled_cells fills.now.array fills.now.on) }
    ensures { IfSome result (λ f. shown f ≡ record {
      edit = OneCommand (command.Fill fills.now.array (asked_for.Ranges fills.now.on) fills.now.value);
      kept =
          Some (record { footprint = array_reads fills.now.array before.now; inverse = before.now });
    }) }
{
    let numbers = numbers_in(alloc, before)?;
    let kept = FillsRecord {
        array: fills.array,
        on: fills.on,
        value: fills.value,
        were: Some(numbers),
    };
    match Box::new(alloc, kept) {
        Ok(kept) => Some(RecordForm::Fills(kept)),
        Err(_) => None,
    }
}

// A fill in force, by the numbers that the elements were, or else whole.
fn form_kept(
    alloc: Global,
    fills: &FillsRecord,
    whole: Box<LoggedEdit>,
    footprint: ReadFootprint,
    inverse: Inverse,
) -> RecordForm
    requires edit { whole.value.edit ≡ OneCommand (command.Fill fills.now.array (asked_for.Ranges fills.now.on) fills.now.value) }
    requires reads { footprint ≡ array_reads fills.now.array inverse }
    requires cells { patterns_of inverse ≡ patterns_of (filled_cells fills.now.array fills.now.on) }
    ensures { shown result ≡ record { edit = whole.value.edit; kept = Some (record { footprint = footprint; inverse = inverse }) } }
{
    match fills_form(alloc, fills, inverse.before()) {
        Some(form) => form,
        None => {
            let mut entry = whole;
            entry.kept = Some(UndoData { footprint, inverse });
            RecordForm::Whole(entry)
        }
    }
}

/// Makes the changes of a fill of several elements, and keeps the numbers that these were. Where one was none, or memory is left for
/// no more than that, all is kept whole that takes them back.
pub(crate) fn make_fill<M: Mover>(
    alloc: Global,
    book: &mut Book,
    form: &mut RecordForm,
    fills: &FillsRecord,
    delta: Delta,
    footprint: ReadFootprint,
    mover: &M,
) -> Result<(), NoMemory>
    requires well_formed { IsWellFormed (apply delta book.old.cells) }
    requires edit { (shown form.old).edit ≡ OneCommand (command.Fill fills.now.array (asked_for.Ranges fills.now.on) fills.now.value) }
    requires reads { footprint ≡ array_reads fills.now.array (filled_cells fills.now.array fills.now.on) }
    requires cells { patterns_of delta ≡ patterns_of (filled_cells fills.now.array fills.now.on) }
    ensures form { OnOk result (shown form.new ≡ record {
      edit = (shown form.old).edit;
      kept =
          Some (record { footprint = footprint; inverse = inverse delta book.old.cells });
    }) }
    ensures cells { OnOk result (book.new.cells ≡ apply delta book.old.cells) }
    ensures writes { OnOk result (book.new.writes ≡ saturating_add book.old.writes (count_of delta)) }
    ensures form_stays { OnErr result (shown form.new ≡ shown form.old) }
    ensures book_stays { OnErr result (book.new ≡ book.old) }
{
    let entry = LoggedEdit {
        edit: fills.edit(),
        kept: None,
    };
    match Box::new(alloc, entry) {
        Err(_) => Err(NoMemory),
        Ok(whole) => match book.apply(delta, mover) {
            Err(_) => Err(NoMemory),
            Ok(inverse) => {
                *form = form_kept(alloc, fills, whole, footprint, inverse);
                Ok(())
            }
        },
    }
}
