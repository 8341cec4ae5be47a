//! A new value of an element is taken back, or made again, by one search for the element: with no plan and no list of changes.

ghost use Rattle.std.specs.Prelude.{◌≡◌, ℕ, ◌+◌, ◌^◌, ◌<◌, true, false, length, None, Some, Err, IfOk, IfErr, IfSome, IsSome, slice_get};
ghost use Rattle.std.specs.FinMap.{get};
ghost use Rattle.selective_undo.specs.Changes.{apply, inverse};
ghost use Rattle.wb_book.specs.Kept.{element_set};
ghost use Rattle.wb_cells.specs.declared.cells.cell.Cell.TheVariants as cell;
ghost use Rattle.wb_cells.specs.Cells.{saturating_add};
ghost use Rattle.wb_cells.specs.WellFormed.{IsWellFormed};
ghost use Rattle.wb_edit.specs.declared.command.Command.TheVariants as command;
ghost use Rattle.wb_edit.specs.declared.edit.Edit.TheVariants.{Command as OneCommand};
ghost use Rattle.wb_footprints.specs.Footprints.{Footprints, with_footprint, element_reads};
ghost use Rattle.wb_log.specs.declared.entry.RecordForm.TheVariants as form;
ghost use Rattle.wb_log.specs.Indexed.{Indexes, IsIndexed};
ghost use Rattle.wb_log.specs.Kept.{kept_in, Shows, TakenBack, LeavesWellFormed, PlansAgain, entries_meant, numbered_entries};
ghost use Rattle.wb_log.specs.Past.{AreValid};
ghost use Rattle.wb_log.specs.Records.{shown};
ghost use Rattle.wb_log.specs.Replies.{RedoReply};

use crate::entry::{Before, EditRecord, ElementSet, RecordForm, SetRecord, Was};
use crate::index::EditIndex;
use std::alloc::Global;
use wb_book::Book;
use wb_edit::Refusal;

/// Sets an element back that the edit at a place set, where that is in force and all that it did; says whether it is so.
pub(crate) fn set_back(
    book: &mut Book,
    entry: &mut EditRecord,
    index: &mut EditIndex,
    at: usize,
) -> bool
    // What the edit wrote can be set back.
    requires few { at < 2 ^ 63 }
    requires well_formed { LeavesWellFormed entry.old book.old.cells }

    // One cell is set back; the index has the edit no more.
    ensures ok { result ≡ true → TakenBack entry.old 1 entry.new book.old book.new }
    ensures taken { result ≡ true → (count : ℕ) (footprints : Footprints) → Indexes index.old count footprints → footprints (at + 1) ≡ kept_in entry.old →
        Indexes index.new count (with_footprint footprints (at + 1) None) }

    // Else nothing has changed.
    ensures entry_stays { result ≡ false → entry.new ≡ entry.old }
    ensures book_stays { result ≡ false → book.new ≡ book.old }
    ensures index_stays { result ≡ false → index.new ≡ index.old }
{
    let RecordForm::Set(change) = &mut entry.form else {
        return false;
    };
    set_element_back(book, change, index, at)
}

// Sets the element of a record back, where the edit is in force and the element is there.
fn set_element_back(
    book: &mut Book,
    change: &mut SetRecord,
    index: &mut EditIndex,
    at: usize,
) -> bool
    requires few { at < 2 ^ 63 }
    requires well_formed { LeavesWellFormed (shown (form.Set change.old)) book.old.cells }
    ensures ok { result ≡ true → TakenBack (shown (form.Set change.old)) 1 (shown (form.Set change.new)) book.old book.new }
    ensures taken { result ≡ true → (count : ℕ) (footprints : Footprints) → Indexes index.old count footprints →
        footprints (at + 1) ≡ kept_in (shown (form.Set change.old)) → Indexes index.new count (with_footprint footprints (at + 1) None) }
    ensures change_stays { result ≡ false → change.new ≡ change.old }
    ensures book_stays { result ≡ false → book.new ≡ book.old }
    ensures index_stays { result ≡ false → index.new ≡ index.old }
{
    let Was::Number(was) = change.was else {
        return false;
    };
    let element = change.element();
    match book.replace(&element.array, &element.place, was) {
        None => false,
        Some(_) => {
            index.set_left_force(at, &element, &Before::Number(was));
            change.was = Was::Untold;
            true
        }
    }
}

/// The new value of an element that the edit at a place is, where it is that and out of force, and no later edit meets it; or the
/// number of the first that does, as a refusal. Of another edit `None`, and where one meets it and the element is not there.
pub(crate) fn set_to_redo(
    book: &Book,
    entries: &[EditRecord],
    index: &mut EditIndex,
    at: usize,
) -> Option<Result<ElementSet, Refusal>>
    // The place is in the log, which belongs together with its workbook and its index.
    requires in_log { at < length entries.now }
    requires few { length entries.now < 2 ^ 63 }
    requires indexed { IsIndexed index.old entries.now }
    requires kept { Shows entries.now book.now.cells }
    requires valid { AreValid (numbered_entries entries.now) }

    // The edit, and what its plan would be where the element is there; or why it is not redone. The index is still the log's.
    ensures edit { IfSome result (λ r. IfOk r (λ e. slice_get entries.now at ≡ Some (record { edit = OneCommand (command.Set e.array e.place e.value); kept = None }))) }
    ensures ok { IfSome result (λ r. IfOk r (λ e. IsSome (get book.now.cells (cell.Element e.array e.place)) →
        PlansAgain entries.now at book.now.cells (element_set e.array e.place e.value) (element_reads e.array e.place) 1)) }
    ensures err { IfSome result (λ r. IfErr r (λ why. RedoReply (entries_meant entries.now) at (Err why))) }
    ensures indexed { IsIndexed index.new entries.now }
{
    match entries[at].set_undone() {
        None => None,
        Some(element) => match index.by_footprint.first_to_block_set(entries, at, &element) {
            None => Some(Ok(element)),
            Some(by) => {
                if book.get(&element.cell()).is_none() {
                    return None;
                }
                Some(Err(Refusal::Blocked(by)))
            }
        },
    }
}

/// Sets the element again that the edit at a place sets, which is out of force, and says whether it did: not where the element is
/// not there, nor without memory.
pub(crate) fn set_again(
    alloc: Global,
    book: &mut Book,
    entry: &mut EditRecord,
    index: &mut EditIndex,
    at: usize,
    element: &ElementSet,
) -> bool
    // The edit is the new value of the element, and leads to a well-formed workbook where the element is there.
    requires few { at < 2 ^ 63 }
    requires edit { entry.old.edit ≡ OneCommand (command.Set element.now.array element.now.place element.now.value) }
    requires well_formed { IsSome (get book.old.cells (cell.Element element.now.array element.now.place)) →
        IsWellFormed (apply (element_set element.now.array element.now.place element.now.value) book.old.cells) }

    // The edit is kept with what takes it back, and the workbook and the index have it.
    ensures there { result ≡ true → IsSome (get book.old.cells (cell.Element element.now.array element.now.place)) }
    ensures entry { result ≡ true → entry.new ≡ record {
      edit = entry.old.edit;
      kept =
          Some (record {
            footprint = element_reads element.now.array element.now.place;
            inverse = inverse (element_set element.now.array element.now.place element.now.value) book.old.cells;
          });
    } }
    ensures cells { result ≡ true → book.new.cells ≡ apply (element_set element.now.array element.now.place element.now.value) book.old.cells }
    ensures writes { result ≡ true → book.new.writes ≡ saturating_add book.old.writes 1 }
    ensures put { result ≡ true → (count : ℕ) (footprints : Footprints) → Indexes index.old count footprints → footprints (at + 1) ≡ None →
        Indexes index.new count (with_footprint footprints (at + 1) (kept_in entry.new)) }

    // Else nothing has changed.
    ensures entry_stays { result ≡ false → entry.new ≡ entry.old }
    ensures book_stays { result ≡ false → book.new ≡ book.old }
    ensures index_stays { result ≡ false → index.new ≡ index.old }
{
    let Ok(record) = SetRecord::undone(alloc, &element.array, &element.place, &element.value) else {
        return false;
    };
    match book.replace(&element.array, &element.place, element.value) {
        None => false,
        Some(was) => {
            *entry = EditRecord::set(record, &was);
            index.set_back_in_force(at, element);
            true
        }
    }
}
