// Lines as requests.
ghost use Rattle.std.specs.Prelude.{◌≡◌, ◌≢◌, codes, IfOk, IfErr, Ok, Err};
ghost use Rattle.serde_json.specs.Errors.{IsMemory};
ghost use Rattle.serde_json.specs.View.{view};
ghost use Rattle.wb_requests.specs.Answers.{IsAnswer};
ghost use Rattle.wb_requests.specs.Requests.{by_op, request_of, request};

use crate::requests::arrays::set_of;
use crate::requests::fields::text_field;
use crate::requests::in_turn::{get_members, get_with, set_members, set_with, undo_member};
use crate::requests::queries::get_of;
use crate::requests::request::Request;
use crate::requests::single::{by_single_op, redo_of, undo_of};
use crate::requests::transactions::transaction_of;
use serde_json::{Category, Error, Value};
use std::alloc::Global;
use wb_edit::Refusal;

// What is asked by the word of an op. Those that come most are looked for first, since each look compares two words.
#[tactic(auto, using(crate::proofs::Lines::as_answer))]
fn by_op(alloc: Global, op: &str, value: &Value) -> Result<Request, Refusal>
    ensures { IsAnswer (by_op op.now (view value.now)) result }
{
    match op {
        "set" => set_of(value),
        "get" => get_of(value),
        "undo" => undo_of(value),
        "redo" => redo_of(value),
        "transaction" => transaction_of(alloc, value),
        _ => by_single_op(alloc, op, value),
    }
}

// What is asked by an object, by its op. It stands apart in the program too, so that what most lines run through is short.
#[inline(never)]
fn asked_by_op(alloc: Global, value: &Value) -> Result<Request, Refusal>
    ensures { IsAnswer (request_of (view value.now)) result }
{
    let op = text_field(value, "op")?;
    by_op(alloc, op, value)
}

// What is asked by an object. A set, a get and an undo of the latest, which come most, are read by their members in turn.
#[tactic(auto, using(crate::proofs::InTurn::set_answer, crate::proofs::InTurn::get_answer, crate::proofs::InTurn::undo_answer))]
fn request_of(alloc: Global, value: &Value) -> Result<Request, Refusal>
    ensures { IsAnswer (request_of (view value.now)) result }
{
    if let Some((name, index, element)) = set_members(value) {
        return set_with(name, index, element);
    }
    if let Some((name, index)) = get_members(value) {
        return get_with(name, index);
    }
    if let Some(_) = undo_member(value) {
        return Ok(Request::Undo(None));
    }
    asked_by_op(alloc, value)
}

// Why a text is no JSON, or that memory ran out.
fn refusal_of(error: &Error) -> Refusal
    ensures memory { IsMemory error.now → result ≡ Refusal.NoMemory }
    ensures other { ¬ IsMemory error.now → result ≡ Refusal.BadRequest }
{
    if error.classify() == Category::Memory {
        Refusal::NoMemory
    } else {
        Refusal::BadRequest
    }
}

/// The request that a line is, of any length: UTF-8 that is JSON (RFC 8259), an object with `op` and exactly the
/// fields of that op. Refused with E01 for the request, E02 for a literal, E09 for a limit, E15 for a mapping, the first
/// of these that any field has, also within the commands of a transaction; `NoMemory` (E90) may stand for any answer.
pub fn read_request(alloc: Global, line: &[u8]) -> Result<Request, Refusal>
    ensures ok { IfOk result (λ r. request line.now ≡ Ok r) }
    ensures err { IfErr result (λ why. why ≢ Refusal.NoMemory → request line.now ≡ Err why) }
{
    match Value::from_slice(alloc, line) {
        Ok(value) => request_of(alloc, &value),
        Err(error) => Err(refusal_of(&error)),
    }
}
