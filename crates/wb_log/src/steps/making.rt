//! The changes of a planned edit are made, and what takes them back is kept in the form that takes the least room.

ghost use Rattle.std.specs.Prelude.{◌≡◌, [], ◌∷◌, ◌++◌, Some, IfOk, IfSome, OnOk, OnErr, true};
ghost use Rattle.std.specs.FinMap.{get};
ghost use Rattle.std.specs.Ordering.{eq_by_cmp};
ghost use Rattle.selective_undo.specs.Changes.{apply, inverse};
ghost use Rattle.wb_cells.specs.Cells.{Cells, cell_cmp, saturating_add, count_of};
ghost use Rattle.wb_cells.specs.WellFormed.{IsWellFormed};
ghost use Rattle.wb_cells.specs.Reads.{read_in, all_read, patterns_of};
ghost use Rattle.wb_cells.specs.declared.cells.pattern.Pattern.TheVariants.{One};
ghost use Rattle.wb_log.specs.Records.{shown, kept_of, held_of, cell_before, value_before};

use crate::cells_were::CellsWere;
use crate::entry::{Before, EditRecord, LoggedEdit, RecordForm, UndoData};
use crate::steps::{filling, held};
use std::alloc::Global;
use wb_arrays::Mover;
use wb_book::Book;
use wb_cells::{Cell, Changes, Delta, Pattern, ReadRun, Value};
use wb_edit::{Edit, ReadFootprint};
use wb_range::NoMemory;

// Whether the cells are one.
pub(crate) fn is_same(a: &Cell, b: &Cell) -> bool
    ensures { result ≡ eq_by_cmp cell_cmp a.now b.now }
{
    *a == *b
}

// True only where the patterns are equal; false tells nothing.
pub(crate) fn is_same_pattern(pattern: &Pattern, other: &Pattern) -> bool
    ensures { result ≡ true → pattern.now ≡ other.now }
{
    match pattern {
        Pattern::One(one) => match other {
            Pattern::One(by) => is_same(&one.cell(), &by.cell()),
            _ => false,
        },
        Pattern::Uses(name) => match other {
            Pattern::Uses(by) => name.is_same(by),
            _ => false,
        },
        Pattern::Objects | Pattern::Members(_) | Pattern::Elements(_) => false,
    }
}

// Whether the patterns are these, in the same order.
fn are_same(reads: &[Pattern], others: &[Pattern]) -> bool
    ensures { result ≡ true → reads.now ≡ others.now }
{
    if reads.len() != others.len() {
        return false;
    }
    for at in 0..reads.len() {
        if !is_same_pattern(&reads[at], &others[at]) {
            return false;
        }
    }
    true
}

// Whether a list of changes is of one cell, this one.
fn changes_one(changes: &Changes, target: &Cell) -> bool
    ensures { result ≡ true → (s : Cells) → inverse changes.now s ≡ record { cell = target.now; value = get s target.now } ∷ [] }
{
    if changes.len() != 1 {
        return false;
    }
    let mut near = 0;
    is_same(&changes.cell_near(0, &mut near), target)
}

// Whether the cells of a list are one, this one.
fn lists_one(cells: &Changes, target: &Cell) -> bool
    ensures { result ≡ true → patterns_of cells.now ≡ One target.now ∷ [] }
{
    if cells.len() != 1 {
        return false;
    }
    let mut near = 0;
    is_same(&cells.cell_near(0, &mut near), target)
}

// Whether a run is of one pattern, this one.
fn is_run_of(run: &ReadRun, pattern: &Pattern) -> bool
    ensures { result ≡ true → read_in run.now ≡ pattern.now ∷ [] }
{
    match run {
        ReadRun::Single(one) => is_same_pattern(one, pattern),
        ReadRun::Cells(cells) => match pattern {
            Pattern::One(cell) => lists_one(cells, &cell.cell()),
            _ => false,
        },
    }
}

// Whether the patterns that were read first, and that of the one run behind them, are these.
fn are_of(first: &[Pattern], rest: &[ReadRun], reads: &[Pattern]) -> bool
    ensures { result ≡ true → first.now ++ all_read rest.now ≡ reads.now }
{
    if rest.len() != 1 {
        return false;
    }
    let Some((last, start)) = reads.split_last() else {
        return false;
    };
    if !are_same(first, start) {
        return false;
    }
    is_run_of(&rest[0], last)
}

// Whether the patterns of a footprint are these, of which the last may be kept in a run.
fn is_of(footprint: &ReadFootprint, reads: &[Pattern]) -> bool
    ensures { result ≡ true → footprint.now ≡ reads.now }
{
    let (first, rest) = footprint.parts();
    if rest.is_empty() {
        return are_same(first, reads);
    }
    are_of(first, rest, reads)
}

// What a cell held, where that is a number, that an index is there, or nothing.
fn held(book: &Book, target: &Cell) -> Option<Before>
    ensures { IfSome result (λ was. get book.now.cells target.now ≡ value_before was) }
{
    match book.get(target) {
        None => Some(Before::Nothing),
        Some(Value::Number(number)) => Some(Before::Number(number)),
        Some(Value::Present) => Some(Before::Present),
        Some(_) => None,
    }
}

// What a cell held, where all that a plan does is to change it, and these are all the patterns that it read.
fn old_value(
    book: &Book,
    reads: &[Pattern],
    target: &Cell,
    delta: &Delta,
    footprint: &ReadFootprint,
) -> Option<Before>
    ensures { IfSome result (λ was. (footprint.now ≡ reads.now) × (inverse delta.now book.now.cells ≡ cell_before target.now was)) }
{
    if !is_of(footprint, reads) {
        return None;
    }
    if !changes_one(delta.changes(), target) {
        return None;
    }
    held(book, target)
}

// What the cell held that the edit of a form changed, where what it read, and what takes it back, follow from that.
fn old_of(
    book: &Book,
    form: &RecordForm,
    delta: &Delta,
    footprint: &ReadFootprint,
) -> Option<Before>
    ensures { IfSome result (λ was. kept_of form.now (Some was) ≡ Some (record { footprint = footprint.now; inverse = inverse delta.now book.now.cells })) }
{
    match form {
        RecordForm::Set(record) => {
            let element = record.element();
            old_value(book, &element.reads(), &element.cell(), delta, footprint)
        }
        RecordForm::Copy(copied) => old_value(
            book,
            &copied.reads(),
            &copied.cell(),
            delta,
            footprint,
        ),
        RecordForm::Irv(implicit) => old_value(
            book,
            &implicit.reads(),
            &implicit.cell(),
            delta,
            footprint,
        ),
        RecordForm::Member(member) => old_value(
            book,
            &member.reads(),
            &member.cell(),
            delta,
            footprint,
        ),
        RecordForm::Fill(filled) => old_value(
            book,
            &filled.reads(),
            &filled.cell(),
            delta,
            footprint,
        ),
        RecordForm::Sets(_) => None,
        RecordForm::Fills(_) => None,
        RecordForm::Whole(_) => None,
    }
}

// What the cells held that sets as one edit changed, where what they read, and what takes them back, follow from that.
fn olds_of(
    alloc: Global,
    book: &Book,
    form: &RecordForm,
    delta: &Delta,
    footprint: &ReadFootprint,
) -> Result<Option<CellsWere>, NoMemory>
    ensures { IfOk result (λ o. IfSome o (λ were. held_of form.now were ≡ Some (record { footprint = footprint.now; inverse = inverse delta.now book.now.cells }))) }
{
    match form {
        RecordForm::Sets(sets) => held::held_of(alloc, book, &sets.edit.object(), delta, footprint),
        _ => Ok(None),
    }
}

// Makes the changes, and keeps all that takes them back.
fn make_whole<M: Mover>(
    book: &mut Book,
    entry: &mut LoggedEdit,
    delta: Delta,
    footprint: ReadFootprint,
    mover: &M,
) -> Result<(), NoMemory>
    requires well_formed { IsWellFormed (apply delta book.old.cells) }
    ensures entry { OnOk result (entry.new ≡ record {
      edit = entry.old.edit;
      kept =
          Some (record { footprint = footprint; inverse = inverse delta book.old.cells });
    }) }
    ensures cells { OnOk result (book.new.cells ≡ apply delta book.old.cells) }
    ensures writes { OnOk result (book.new.writes ≡ saturating_add book.old.writes (count_of delta)) }
    ensures entry_stays { OnErr result (entry.new ≡ entry.old) }
    ensures book_stays { OnErr result (book.new ≡ book.old) }
{
    match book.apply(delta, mover) {
        Err(_) => Err(NoMemory),
        Ok(inverse) => {
            entry.kept = Some(UndoData { footprint, inverse });
            Ok(())
        }
    }
}

// Makes the changes of an edit that has no entry yet: the form that keeps the edit and all that takes them back.
fn make_new<M: Mover>(
    alloc: Global,
    book: &mut Book,
    edit: Edit,
    delta: Delta,
    footprint: ReadFootprint,
    mover: &M,
) -> Result<RecordForm, NoMemory>
    requires well_formed { IsWellFormed (apply delta book.old.cells) }
    ensures form { IfOk result (λ f. shown f ≡ record { edit = edit; kept = Some (record { footprint = footprint; inverse = inverse delta book.old.cells }) }) }
    ensures cells { OnOk result (book.new.cells ≡ apply delta book.old.cells) }
    ensures writes { OnOk result (book.new.writes ≡ saturating_add book.old.writes (count_of delta)) }
    ensures book_stays { OnErr result (book.new ≡ book.old) }
{
    match Box::new(alloc, LoggedEdit { edit, kept: None }) {
        Err(_) => Err(NoMemory),
        Ok(mut entry) => match make_whole(book, &mut entry, delta, footprint, mover) {
            Err(why) => Err(why),
            Ok(()) => Ok(RecordForm::Whole(entry)),
        },
    }
}

// Makes the changes of a form, which is kept whole then, with all that takes them back.
fn make_unlike<M: Mover>(
    alloc: Global,
    book: &mut Book,
    form: &mut RecordForm,
    delta: Delta,
    footprint: ReadFootprint,
    mover: &M,
) -> Result<(), NoMemory>
    requires well_formed { IsWellFormed (apply delta book.old.cells) }
    ensures form { OnOk result (shown form.new ≡ record {
      edit = (shown form.old).edit;
      kept =
          Some (record { footprint = footprint; inverse = inverse delta book.old.cells });
    }) }
    ensures cells { OnOk result (book.new.cells ≡ apply delta book.old.cells) }
    ensures writes { OnOk result (book.new.writes ≡ saturating_add book.old.writes (count_of delta)) }
    ensures form_stays { OnErr result (shown form.new ≡ shown form.old) }
    ensures book_stays { OnErr result (book.new ≡ book.old) }
{
    match form {
        RecordForm::Whole(entry) => make_whole(book, entry, delta, footprint, mover),
        _ => match form.copy_of_edit(alloc) {
            Err(why) => Err(why),
            Ok(edit) => match make_new(alloc, book, edit, delta, footprint, mover) {
                Err(why) => Err(why),
                Ok(made) => {
                    *form = made;
                    Ok(())
                }
            },
        },
    }
}

// Makes the changes, and keeps what takes them back: of a fill of several elements the numbers that these were, and else all.
fn make_several<M: Mover>(
    alloc: Global,
    book: &mut Book,
    form: &mut RecordForm,
    delta: Delta,
    footprint: ReadFootprint,
    mover: &M,
) -> Result<(), NoMemory>
    requires well_formed { IsWellFormed (apply delta book.old.cells) }
    ensures form { OnOk result (shown form.new ≡ record {
      edit = (shown form.old).edit;
      kept =
          Some (record { footprint = footprint; inverse = inverse delta book.old.cells });
    }) }
    ensures cells { OnOk result (book.new.cells ≡ apply delta book.old.cells) }
    ensures writes { OnOk result (book.new.writes ≡ saturating_add book.old.writes (count_of delta)) }
    ensures form_stays { OnErr result (shown form.new ≡ shown form.old) }
    ensures book_stays { OnErr result (book.new ≡ book.old) }
{
    match filling::fill_in(form, &delta, &footprint) {
        None => make_unlike(alloc, book, form, delta, footprint, mover),
        Some(fills) => filling::make_fill(alloc, book, form, &fills, delta, footprint, mover),
    }
}

// Makes the changes, and keeps what takes them back: what the one cell held, where all else follows from it.
fn make_one<M: Mover>(
    alloc: Global,
    book: &mut Book,
    form: &mut RecordForm,
    delta: Delta,
    footprint: ReadFootprint,
    mover: &M,
) -> Result<(), NoMemory>
    requires well_formed { IsWellFormed (apply delta book.old.cells) }
    ensures form { OnOk result (shown form.new ≡ record {
      edit = (shown form.old).edit;
      kept =
          Some (record { footprint = footprint; inverse = inverse delta book.old.cells });
    }) }
    ensures cells { OnOk result (book.new.cells ≡ apply delta book.old.cells) }
    ensures writes { OnOk result (book.new.writes ≡ saturating_add book.old.writes (count_of delta)) }
    ensures form_stays { OnErr result (shown form.new ≡ shown form.old) }
    ensures book_stays { OnErr result (book.new ≡ book.old) }
{
    match old_of(book, form, &delta, &footprint) {
        None => make_several(alloc, book, form, delta, footprint, mover),
        Some(was) => match book.apply(delta, mover) {
            Err(_) => Err(NoMemory),
            Ok(_) => {
                form.keep(Some(was));
                Ok(())
            }
        },
    }
}

// Makes the changes, and keeps what takes them back: what the cells held, where all else follows from it.
fn make_form<M: Mover>(
    alloc: Global,
    book: &mut Book,
    form: &mut RecordForm,
    delta: Delta,
    footprint: ReadFootprint,
    mover: &M,
) -> Result<(), NoMemory>
    requires well_formed { IsWellFormed (apply delta book.old.cells) }
    ensures form { OnOk result (shown form.new ≡ record {
      edit = (shown form.old).edit;
      kept =
          Some (record { footprint = footprint; inverse = inverse delta book.old.cells });
    }) }
    ensures cells { OnOk result (book.new.cells ≡ apply delta book.old.cells) }
    ensures writes { OnOk result (book.new.writes ≡ saturating_add book.old.writes (count_of delta)) }
    ensures form_stays { OnErr result (shown form.new ≡ shown form.old) }
    ensures book_stays { OnErr result (book.new ≡ book.old) }
{
    match olds_of(alloc, book, form, &delta, &footprint) {
        Err(why) => Err(why),
        Ok(None) => make_one(alloc, book, form, delta, footprint, mover),
        Ok(Some(were)) => match book.apply(delta, mover) {
            Err(_) => Err(NoMemory),
            Ok(_) => {
                form.hold(were);
                Ok(())
            }
        },
    }
}

/// Makes the changes of a planned edit of a record, which is in force then. Want of threads is answered as want of memory.
pub(crate) fn make<M: Mover>(
    alloc: Global,
    book: &mut Book,
    entry: &mut EditRecord,
    delta: Delta,
    footprint: ReadFootprint,
    mover: &M,
) -> Result<(), NoMemory>
    requires well_formed { IsWellFormed (apply delta book.old.cells) }
    ensures entry { OnOk result (entry.new ≡ record {
      edit = entry.old.edit;
      kept =
          Some (record { footprint = footprint; inverse = inverse delta book.old.cells });
    }) }
    ensures cells { OnOk result (book.new.cells ≡ apply delta book.old.cells) }
    ensures writes { OnOk result (book.new.writes ≡ saturating_add book.old.writes (count_of delta)) }
    ensures entry_stays { OnErr result (entry.new ≡ entry.old) }
    ensures book_stays { OnErr result (book.new ≡ book.old) }
{
    make_form(alloc, book, &mut entry.form, delta, footprint, mover)
}
