//! The form in which an edit is kept, which is out of force.

ghost use Rattle.std.specs.Prelude.{◌≡◌, None, IfOk, IfSome};
ghost use Rattle.wb_edit.specs.declared.asked_rectangle.AskedRectangle.TheVariants as asked_for;
ghost use Rattle.wb_edit.specs.declared.command.Command.TheVariants as command;
ghost use Rattle.wb_edit.specs.declared.edit.Edit.TheVariants.{Command as OneCommand};
ghost use Rattle.wb_log.specs.Records.{member_edit, shown};

use crate::array_sets::ArraySets;
use crate::entry::{
    CopyRecord, FillRecord, FillsRecord, IrvRecord, LoggedEdit, MemberRecord, RecordForm,
    SetRecord, SetsRecord, Was,
};
use crate::kept_place::KeptPlace;
use std::alloc::Global;
use wb_cells::{AnyIndex, AnyRect, Name};
use wb_edit::{AskedRectangle, Command, Edit};
use wb_range::NoMemory;

// An index that comes to a domain, or leaves it, out of force.
fn member_undone(
    alloc: Global,
    domain: &Name,
    place: &AnyIndex,
    comes: bool,
) -> Result<RecordForm, NoMemory>
    ensures { IfOk result (λ f. shown f ≡ record { edit = member_edit comes domain.now place.now; kept = None }) }
{
    Ok(RecordForm::Member(MemberRecord {
        domain: *domain,
        place: KeptPlace::new(alloc, place)?,
        comes,
        was: Was::Untold,
    }))
}

// A new value of an element, out of force.
fn set_undone(
    alloc: Global,
    array: &Name,
    place: &AnyIndex,
    value: &i64,
) -> Result<RecordForm, NoMemory>
    ensures { IfOk result (λ f. shown f ≡ record { edit = OneCommand (command.Set array.now place.now value.now); kept = None }) }
{
    Ok(RecordForm::Set(SetRecord::undone(alloc, array, place, value)?))
}

// A fill at the one index of a rectangle, out of force.
fn one_filled(alloc: Global, array: &Name, on: &AnyRect, value: i64) -> Result<RecordForm, NoMemory>
    ensures { IfOk result (λ f. shown f ≡ record { edit = OneCommand (command.Fill array.now (asked_for.Ranges on.now) value); kept = None }) }
{
    let filled = FillRecord {
        array: *array,
        on: *on,
        value,
        was: Was::Untold,
    };
    Ok(RecordForm::Fill(Box::new(alloc, filled)?))
}

// A fill at several indices of a rectangle, out of force.
fn several_filled(
    alloc: Global,
    array: &Name,
    on: &AnyRect,
    value: i64,
) -> Result<RecordForm, NoMemory>
    ensures { IfOk result (λ f. shown f ≡ record { edit = OneCommand (command.Fill array.now (asked_for.Ranges on.now) value); kept = None }) }
{
    let filled = FillsRecord {
        array: *array,
        on: *on,
        value,
        were: None,
    };
    Ok(RecordForm::Fills(Box::new(alloc, filled)?))
}

// A fill at the indices of a rectangle, out of force.
fn fill_undone(
    alloc: Global,
    array: &Name,
    on: &AnyRect,
    value: i64,
) -> Result<RecordForm, NoMemory>
    ensures { IfOk result (λ f. shown f ≡ record { edit = OneCommand (command.Fill array.now (asked_for.Ranges on.now) value); kept = None }) }
{
    if on.size() == 1 {
        one_filled(alloc, array, on, value)
    } else {
        several_filled(alloc, array, on, value)
    }
}

// The ranges that are asked for, where they have an index.
fn ranges_of_some(asked: &AskedRectangle) -> Option<AnyRect>
    ensures { IfSome result (λ on. asked.now ≡ asked_for.Ranges on) }
{
    match asked {
        AskedRectangle::Ranges(on) => { if on.size() == 0 { None } else { Some(*on) } }
        AskedRectangle::Indices => None,
    }
}

// A transaction, out of force.
fn several_undone(alloc: Global, edit: Edit) -> Result<RecordForm, NoMemory>
    ensures { IfOk result (λ f. shown f ≡ record { edit = edit; kept = None }) }
{
    match sets_in(alloc, &edit) {
        Err(why) => Err(why),
        Ok(None) => whole_undone(alloc, edit),
        Ok(Some(sets)) => sets_undone(alloc, sets),
    }
}

// The sets of elements of one array that an edit is, if it is a transaction of these.
fn sets_in(alloc: Global, edit: &Edit) -> Result<Option<ArraySets>, NoMemory>
    ensures { IfOk result (λ o. IfSome o (λ s. s ≡ edit.now)) }
{
    match edit {
        Edit::Transaction(several) => ArraySets::of(alloc, several),
        Edit::Command(_) => Ok(None),
        Edit::Load(_) => Ok(None),
    }
}

// Sets of elements of one array as one edit, out of force.
fn sets_undone(alloc: Global, sets: ArraySets) -> Result<RecordForm, NoMemory>
    ensures { IfOk result (λ f. shown f ≡ record { edit = sets; kept = None }) }
{
    let sets = SetsRecord {
        edit: sets,
        were: None,
    };
    Ok(RecordForm::Sets(Box::new(alloc, sets)?))
}

// An edit that is kept whole, out of force.
fn whole_undone(alloc: Global, edit: Edit) -> Result<RecordForm, NoMemory>
    ensures { IfOk result (λ f. shown f ≡ record { edit = edit; kept = None }) }
{
    Ok(RecordForm::Whole(Box::new(alloc, LoggedEdit { edit, kept: None })?))
}

/// The form for an edit, which is out of force.
pub(crate) fn form_undone(alloc: Global, edit: Edit) -> Result<RecordForm, NoMemory>
    ensures { IfOk result (λ f. shown f ≡ record { edit = edit; kept = None }) }
{
    match &edit {
        Edit::Command(Command::Set(array, place, value)) => {
            set_undone(alloc, array, place, value)
        }
        Edit::Command(Command::Irv(array, value)) => Ok(RecordForm::Irv(IrvRecord {
            array: *array,
            value: *value,
            was: Was::Untold,
        })),
        Edit::Command(Command::Copy(array, place, source, from, more)) => {
            let copied = CopyRecord {
                array: *array,
                place: *place,
                source: *source,
                from: *from,
                more: *more,
                was: Was::Untold,
            };
            Ok(RecordForm::Copy(Box::new(alloc, copied)?))
        }
        Edit::Command(Command::Add(domain, place)) => member_undone(alloc, domain, place, true),
        Edit::Command(Command::Remove(domain, place)) => member_undone(alloc, domain, place, false),
        Edit::Command(Command::Fill(array, asked, value)) => match ranges_of_some(asked) {
            Some(on) => fill_undone(alloc, array, &on, *value),
            None => whole_undone(alloc, edit),
        },
        _ => several_undone(alloc, edit),
    }
}
