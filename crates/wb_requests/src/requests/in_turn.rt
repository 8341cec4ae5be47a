// A set, a get and an undo of the latest by their members in turn, which a map has in the ascending order of their keys: so no key
// is looked for.
ghost use Rattle.std.specs.Prelude.{◌≡◌, IfSome};
ghost use Rattle.serde_json.specs.View.{view};
ghost use Rattle.wb_requests.specs.InTurn.{Leads, set_data, get_data, undo_data, name_in, index_in, set_with, get_with};

use crate::requests::fields::{index_of, name_of};
use crate::requests::request::Request;
use serde_json::Value;
use std::collections::btree_map::Iter;
use wb_cells::{AnyIndex, Name};
use wb_edit::{Command, Edit, Query, Refusal};

// The next member, where it has this key.
fn next_member<'a>(members: &mut Iter<'a, String, Value>, key: &str) -> Option<&'a Value>
    ensures { IfSome result (λ v. Leads members.old key.now v.now members.new) }
{
    let (name, value) = members.next()?;
    if name.as_bytes() == key.as_bytes() {
        Some(value)
    } else {
        None
    }
}

/// The array, the index and the element of a set.
#[tactic(auto, using(crate::proofs::InTurn::led))]
pub(crate) fn set_members(value: &Value) -> Option<(&Value, &Value, &Value)>
    ensures { IfSome result (λ r. view value.now ≡ set_data (view r.0.now) (view r.1.now) (view r.2.now)) }
{
    let mut members = match value {
        Value::Object(members) => members.iter(),
        _ => return None,
    };
    let name = next_member(&mut members, "a")?;
    let index = next_member(&mut members, "i")?;
    let op = next_member(&mut members, "op")?.as_str()?;
    let element = next_member(&mut members, "v")?;
    match op {
        "set" => {}
        _ => return None,
    }
    if members.next().is_none() {
        Some((name, index, element))
    } else {
        None
    }
}

/// The array and the index of a get.
#[tactic(auto, using(crate::proofs::InTurn::led))]
pub(crate) fn get_members(value: &Value) -> Option<(&Value, &Value)>
    ensures { IfSome result (λ r. view value.now ≡ get_data (view r.0.now) (view r.1.now)) }
{
    let mut members = match value {
        Value::Object(members) => members.iter(),
        _ => return None,
    };
    let name = next_member(&mut members, "a")?;
    let index = next_member(&mut members, "i")?;
    let op = next_member(&mut members, "op")?.as_str()?;
    match op {
        "get" => {}
        _ => return None,
    }
    if members.next().is_none() {
        Some((name, index))
    } else {
        None
    }
}

/// Whether there is the one member of an undo of the latest.
#[tactic(auto, using(crate::proofs::InTurn::led))]
pub(crate) fn undo_member(value: &Value) -> Option<()>
    ensures { IfSome result (λ r. view value.now ≡ undo_data) }
{
    let mut members = match value {
        Value::Object(members) => members.iter(),
        _ => return None,
    };
    let op = next_member(&mut members, "op")?.as_str()?;
    match op {
        "undo" => {}
        _ => return None,
    }
    if members.next().is_none() {
        Some(())
    } else {
        None
    }
}

// The name that a value is.
fn name_in(value: &Value) -> Result<Name, Refusal>
    ensures { result ≡ name_in (view value.now) }
{
    let text = value.as_str().ok_or(Refusal::BadRequest)?;
    name_of(text)
}

// The index that a value is.
fn index_in(value: &Value) -> Result<AnyIndex, Refusal>
    ensures { result ≡ index_in (view value.now) }
{
    match index_of(value) {
        Some(index) => Ok(AnyIndex::new(index)),
        None => Err(Refusal::BadRequest),
    }
}

/// The set of an element.
pub(crate) fn set_with(name: &Value, index: &Value, element: &Value) -> Result<Request, Refusal>
    ensures { result ≡ set_with (view name.now) (view index.now) (view element.now) }
{
    let name = name_in(name)?;
    let index = index_in(index)?;
    let number = element.as_i64().ok_or(Refusal::BadRequest)?;
    Ok(Request::Change(Edit::Command(Command::Set(name, index, number))))
}

/// The element at an index.
pub(crate) fn get_with(name: &Value, index: &Value) -> Result<Request, Refusal>
    ensures { result ≡ get_with (view name.now) (view index.now) }
{
    let name = name_in(name)?;
    let index = index_in(index)?;
    Ok(Request::Ask(Query::Get(name, index)))
}
