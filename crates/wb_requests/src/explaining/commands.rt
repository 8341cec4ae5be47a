// What is wrong with the commands within a transaction.
ghost use Rattle.std.specs.Prelude.{◌≡◌, codes, option_map, IfOk, Some};
ghost use Rattle.serde_json.specs.View.{view, items_view};
ghost use Rattle.wb_requests.specs.Explained.{members_in, names_command, of_field, command_named, command_explained, at_place, commands_explained};
ghost use Rattle.wb_requests.specs.Explained.{listed_explained, edits_explained};

use crate::explaining::explanation::{Explanation, least_of};
use crate::explaining::fault::Fault;
use crate::explaining::members::{member, op_of};
use crate::explaining::objects::op_explained;
use crate::explaining::rules::Rule;
use crate::requests::transactions::is_command_op;
use serde_json::Value;
use std::alloc::Global;
use wb_range::NoMemory;

// What is wrong with an op that is no command's.
fn no_command(alloc: Global) -> Result<Option<Explanation>, NoMemory>
    ensures { IfOk result (λ x. x ≡ Some (of_field (codes "op") names_command)) }
{
    let wrong = Explanation::at_field(alloc, Fault::BadRequest, "op", Rule::NamesCommand)?;
    Ok(Some(wrong))
}

fn command_named(alloc: Global, op: &str, value: &Value) -> Result<Option<Explanation>, NoMemory>
    ensures { IfOk result (λ x. x ≡ command_named (members_in (view value.now)) (Some op.now)) }
{
    if is_command_op(op) {
        op_explained(alloc, op, value)
    } else {
        no_command(alloc)
    }
}

// What is wrong with a JSON value that is to be a command.
fn command_explained(alloc: Global, value: &Value) -> Result<Option<Explanation>, NoMemory>
    ensures { IfOk result (λ x. x ≡ command_explained (view value.now)) }
{
    if !value.is_object() {
        return Ok(Some(Explanation::of_whole(Rule::IsObject)));
    }
    match op_of(value) {
        Some(op) => command_named(alloc, op, value),
        None => no_command(alloc),
    }
}

// What is wrong with the command at a place.
fn placed(wrong: Option<Explanation>, place: usize) -> Option<Explanation>
    ensures { result ≡ option_map (at_place place) wrong }
{
    match wrong {
        Some(wrong) => Some(wrong.at_place(place)),
        None => None,
    }
}

// The first with the least code of what is wrong with several commands.
fn commands_explained(alloc: Global, items: &[Value]) -> Result<Option<Explanation>, NoMemory>
    ensures { IfOk result (λ x. x ≡ commands_explained 0 (items_view items.now)) }
{
    let mut wrong = None;
    let mut left = items.len();
    while left > 0 {
        left -= 1;
        let one = command_explained(alloc, &items[left])?;
        wrong = least_of(placed(one, left), wrong);
    }
    Ok(wrong)
}

fn listed_explained(alloc: Global, listed: Option<&Value>) -> Result<Option<Explanation>, NoMemory>
    ensures { IfOk result (λ x. x ≡ listed_explained (option_map (λ v. view v.now) listed.entry)) }
{
    match listed {
        Some(Value::Array(items)) => commands_explained(alloc, items.as_slice()),
        Some(Value::Null)
        | Some(Value::Bool(_))
        | Some(Value::Number(_))
        | Some(Value::String(_))
        | Some(Value::Object(_))
        | None => Ok(None),
    }
}

/// What is wrong with the commands within an object, where its op is that of a transaction.
pub(crate) fn edits_explained(
    alloc: Global,
    op: &str,
    value: &Value,
) -> Result<Option<Explanation>, NoMemory>
    ensures { IfOk result (λ x. x ≡ edits_explained op.now (members_in (view value.now))) }
{
    if op == "transaction" {
        return listed_explained(alloc, member(value, "edits"));
    }
    Ok(None)
}
