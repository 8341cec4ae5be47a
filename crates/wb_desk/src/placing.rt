//! The places of a request's name in the tables of two lists.

ghost use Rattle.std.specs.Prelude.{◌≡◌, IfOk, IfSome};
ghost use Rattle.wb_edit.specs.declared.command.Command.TheVariants as commands;
ghost use Rattle.wb_edit.specs.declared.edit.Edit.TheVariants as edits;
ghost use Rattle.wb_edit.specs.declared.query.Query.TheVariants as queries;
ghost use Rattle.wb_requests.specs.declared.requests.request.Request.TheVariants as asked;
ghost use Rattle.wb_desk.specs.Records.{IsKept, entries_in};
ghost use Rattle.wb_desk.specs.Placings.{AreNamed, IsPlaced};

use crate::brief::{Brief, brief_of, get_brief, set_brief};
use crate::register::Register;
use wb_cells::{AnyIndex, Name};
use wb_edit::{Command, Edit, Query};
use wb_range::NoMemory;
use wb_requests::Request;

/// A request of a name in few bytes, and where the name stands in the tables of two lists.
#[derive(Drop)]
pub(crate) struct Placed {
    pub name: Name,
    pub brief: Brief,
    pub first: u16,
    pub second: u16,
}

/// The places of a name in the tables of two lists of a seat; none, where a table is full.
pub(crate) fn both_places(
    seat: usize,
    name: &Name,
    list: &mut Register,
    own: &mut Register,
) -> Result<Option<(u16, u16)>, NoMemory>
    requires list { IsKept list.old }
    requires own { IsKept own.old }
    ensures list { IsKept list.new × (entries_in list.new ≡ entries_in list.old) × (list.new.forms ≡ list.old.forms) }
    ensures own { IsKept own.new × (entries_in own.new ≡ entries_in own.old) × (own.new.forms ≡ own.old.forms) }
    ensures named { IfOk result (λ o. IfSome o (λ p. AreNamed seat name.now list.new own.new p.0 p.1)) }
{
    let Some(first) = list.place_of(seat, name)? else {
        return Ok(None);
    };
    let Some(second) = own.place_of(seat, name)? else {
        return Ok(None);
    };
    Ok(Some((first, second)))
}

// The places of a name that is the latest one in both lists of a seat.
fn both_latest(seat: usize, name: &Name, list: &Register, own: &Register) -> Option<(u16, u16)>
    ensures { IfSome result (λ p. AreNamed seat name.now list.now own.now p.0 p.1) }
{
    let Some(first) = list.latest_place(seat, name) else {
        return None;
    };
    let Some(second) = own.latest_place(seat, name) else {
        return None;
    };
    Some((first, second))
}

// A new value of an element of the array whose name is the latest one in both lists.
fn latest_set(
    seat: usize,
    array: &Name,
    at: &AnyIndex,
    value: &i64,
    list: &Register,
    own: &Register,
) -> Option<Placed>
    ensures { IfSome result (λ p. IsPlaced seat (asked.Change (edits.Command (commands.Set array.now at.now value.now))) list.now own.now p) }
{
    let Some((first, second)) = both_latest(seat, array, list, own) else {
        return None;
    };
    let Some(brief) = set_brief(at, value) else {
        return None;
    };
    Some(Placed {
        name: *array,
        brief,
        first,
        second,
    })
}

// A question for an element of the array whose name is the latest one in both lists.
fn latest_get(
    seat: usize,
    array: &Name,
    at: &AnyIndex,
    list: &Register,
    own: &Register,
) -> Option<Placed>
    ensures { IfSome result (λ p. IsPlaced seat (asked.Ask (queries.Get array.now at.now)) list.now own.now p) }
{
    let Some((first, second)) = both_latest(seat, array, list, own) else {
        return None;
    };
    let Some(brief) = get_brief(at) else {
        return None;
    };
    Some(Placed {
        name: *array,
        brief,
        first,
        second,
    })
}

/// The places of a request's name in the tables of two lists of a seat, where the request is a new value of an element or a
/// question for one, and its name is the latest one in both. (The request is only looked at, and in a function of its own, so that
/// it isn't moved in parts.)
#[inline(never)]
pub(crate) fn latest_places(
    seat: usize,
    request: &Request,
    list: &Register,
    own: &Register,
) -> Option<Placed>
    ensures { IfSome result (λ p. IsPlaced seat request.now list.now own.now p) }
{
    match request {
        Request::Change(Edit::Command(Command::Set(array, at, value))) => {
            latest_set(seat, array, at, value, list, own)
        }
        Request::Ask(Query::Get(array, at)) => latest_get(seat, array, at, list, own),
        _ => None,
    }
}

/// The places of a request's name in the tables of two lists of a seat; none, where the request isn't brief, or a table is full.
pub(crate) fn places_of(
    seat: usize,
    request: &Request,
    list: &mut Register,
    own: &mut Register,
) -> Result<Option<Placed>, NoMemory>
    requires list { IsKept list.old }
    requires own { IsKept own.old }
    ensures list { IsKept list.new × (entries_in list.new ≡ entries_in list.old) × (list.new.forms ≡ list.old.forms) }
    ensures own { IsKept own.new × (entries_in own.new ≡ entries_in own.old) × (own.new.forms ≡ own.old.forms) }
    ensures placed { IfOk result (λ o. IfSome o (λ p. IsPlaced seat request.now list.new own.new p)) }
{
    let Some((name, brief)) = brief_of(request) else {
        return Ok(None);
    };
    let Some((first, second)) = both_places(seat, &name, list, own)? else {
        return Ok(None);
    };
    Ok(Some(Placed {
        name,
        brief,
        first,
        second,
    }))
}
