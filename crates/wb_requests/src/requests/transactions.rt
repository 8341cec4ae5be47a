// Requests for several commands as one.
ghost use Rattle.std.specs.Prelude.{◌≡◌, ◌≢◌, [], List, IfOk, Ok, Err};
ghost use Rattle.std.specs.Result.{result_map_both};
ghost use Rattle.serde_json.specs.View.{view, items_view};
ghost use Rattle.wb_edit.specs.declared.command.Command as commands;
ghost use Rattle.wb_requests.specs.Answers.{IsAnswer};
ghost use Rattle.wb_requests.specs.Encoding.Table.{command_ops};
ghost use Rattle.wb_requests.specs.Fields.{is_among};
ghost use Rattle.wb_requests.specs.Requests.{as_command, command_by, command_of, lesser_refusal, so_far, one_more, commands_after, transaction_of};

use crate::explaining::values::fault_told;
use crate::requests::fields::{has_fields_and, optional_note, several_field, text_field};
use crate::requests::request::Request;
use crate::requests::single::by_single_op;
use serde_json::Value;
use std::alloc::Global;
use wb_edit::{Command, Edit, Refusal, Transaction};
use wb_range::NoMemory;

/// Whether an op is that of a command.
pub(crate) fn is_command_op(op: &str) -> bool
    ensures { result ≡ is_among command_ops op.now }
{
    match op {
        "domain" => true,
        "remap" => true,
        "sparse" => true,
        "assoc" => true,
        "drop_domain" => true,
        "reshape" => true,
        "add" => true,
        "remove" => true,
        "array" => true,
        "drop_array" => true,
        "set" => true,
        "fill" => true,
        "put" => true,
        "fill_all" => true,
        "irv" => true,
        "copy" => true,
        "all" => true,
        _ => false,
    }
}

// The command that a request makes.
fn as_command(request: Request) -> Result<Command, Refusal>
    ensures { result ≡ as_command request }
{
    match request {
        Request::Change(edit) => edit.into_command().ok_or(Refusal::BadRequest),
        Request::Undo(_)
        | Request::Redo(_)
        | Request::Cascade(_)
        | Request::Dependents(_)
        | Request::Ask(_)
        | Request::Print
        | Request::History(_)
        | Request::Edits
        | Request::Explain(_) => Err(Refusal::BadRequest),
    }
}

// The command that an object asks for by its op.
fn command_by(alloc: Global, op: &str, value: &Value) -> Result<Command, Refusal>
    ensures { IsAnswer (command_by op.now (view value.now)) result }
{
    if !is_command_op(op) {
        return Err(Refusal::BadRequest);
    }
    let request = by_single_op(alloc, op, value)?;
    let command = as_command(request)?;
    Ok(command)
}

fn command_of(alloc: Global, value: &Value) -> Result<Command, Refusal>
    ensures { IsAnswer (command_of (view value.now)) result }
{
    let op = text_field(value, "op")?;
    command_by(alloc, op, value)
}

// The one of two refusals with the least code, or the first; `NoMemory` where memory ran out.
fn lesser_refusal(one: Refusal, more: Refusal) -> Result<Refusal, NoMemory>
    ensures { IfOk result (λ why. why ≡ lesser_refusal one more) }
{
    let first = fault_told(one)?;
    let second = fault_told(more)?;
    if second.code() < first.code() {
        return Ok(more);
    }
    Ok(one)
}

// What is wrong with commands of which one more is refused; `NoMemory` where memory ran out.
fn wrong_with(wrong: Option<Refusal>, why: Refusal) -> Result<Refusal, NoMemory>
    ensures least { IfOk result (λ w. (cs : List commands.Command) → one_more (so_far wrong cs) (Err why) ≡ Err w) }
    ensures memory { IfOk result (λ w. why ≢ Refusal.NoMemory) }
{
    match wrong {
        Some(one) => {
            fault_told(why)?;
            lesser_refusal(one, why)
        }
        None => {
            fault_told(why)?;
            Ok(why)
        }
    }
}

// The commands that values ask for, or the refusal with the least code.
#[tactic(auto, using(crate::proofs::Several::one_more_made))]
fn commands_of(alloc: Global, items: &[Value]) -> Result<Vec<Command>, Refusal>
    ensures { IsAnswer (commands_after (Ok []) (items_view items.now)) (result_map_both (λ v. v.items) (λ e. e) result) }
{
    let mut commands = Vec::new(alloc);
    let mut wrong = None;
    for item in items {
        match command_of(alloc, item) {
            Ok(command) => {
                if commands.push(command).is_err() {
                    return Err(Refusal::NoMemory);
                }
            }
            Err(why) => match wrong_with(wrong, why) {
                Ok(least) => wrong = Some(least),
                Err(_) => return Err(Refusal::NoMemory),
            },
        }
    }
    match wrong {
        Some(why) => Err(why),
        None => Ok(commands),
    }
}

/// Several commands as one edit, with a note or without.
#[tactic(auto, using(crate::proofs::OnTheWire::Found::several_commands))]
pub(crate) fn transaction_of(alloc: Global, value: &Value) -> Result<Request, Refusal>
    ensures { IsAnswer (transaction_of (view value.now)) result }
{
    let note = optional_note(alloc, value, "note")?;
    has_fields_and(value, 2, &note)?;
    let items = several_field(value, "edits")?;
    let commands = commands_of(alloc, items)?;
    match Transaction::new(commands, note) {
        Some(several) => Ok(Request::Change(Edit::Transaction(several))),
        None => Err(Refusal::BadRequest),
    }
}
