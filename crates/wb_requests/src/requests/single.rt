// Requests for anything but several commands as one, by the word of their op.
ghost use Rattle.std.specs.Prelude.{◌≡◌, codes};
ghost use Rattle.serde_json.specs.View.{view};
ghost use Rattle.wb_requests.specs.Answers.{IsAnswer};
ghost use Rattle.wb_requests.specs.Requests.{undo_by_number, undo_of, redo_of, cascade_of, dependents_of, by_history_op, by_array_op, by_single_op};

use crate::requests::arrays::{
    all_of, array_of, copy_of, drop_array_of, fill_all_of, fill_of, irv_of, put_of, set_of,
};
use crate::requests::books::load_of;
use crate::requests::domains::{domain_of, drop_domain_of, remap_of, reshape_of};
use crate::requests::explains::explain_of;
use crate::requests::fields::{field_count, has_fields, u64_field};
use crate::requests::queries::{
    edits_of, get_of, history_of, note_of, piece_of, print_of, reduce_of, size_of, state_of,
    where_of,
};
use crate::requests::request::Request;
use crate::requests::sets::{add_of, assoc_of, remove_of, sparse_of};
use serde_json::Value;
use std::alloc::Global;
use wb_edit::Refusal;

fn undo_by_number(value: &Value) -> Result<Request, Refusal>
    ensures { result ≡ undo_by_number (view value.now) }
{
    has_fields(value, 2)?;
    let number = u64_field(value, "k")?;
    Ok(Request::Undo(Some(number)))
}

/// The undo of an edit by its number, or of the latest.
pub(crate) fn undo_of(value: &Value) -> Result<Request, Refusal>
    ensures { result ≡ undo_of (view value.now) }
{
    if field_count(value) == 1 {
        Ok(Request::Undo(None))
    } else {
        undo_by_number(value)
    }
}

/// The redo of an edit.
pub(crate) fn redo_of(value: &Value) -> Result<Request, Refusal>
    ensures { result ≡ redo_of (view value.now) }
{
    has_fields(value, 2)?;
    let number = u64_field(value, "k")?;
    Ok(Request::Redo(number))
}

fn cascade_of(value: &Value) -> Result<Request, Refusal>
    ensures { result ≡ cascade_of (view value.now) }
{
    has_fields(value, 2)?;
    let number = u64_field(value, "k")?;
    Ok(Request::Cascade(number))
}

fn dependents_of(value: &Value) -> Result<Request, Refusal>
    ensures { result ≡ dependents_of (view value.now) }
{
    has_fields(value, 2)?;
    let number = u64_field(value, "k")?;
    Ok(Request::Dependents(number))
}

// What is asked of a history.
fn by_history_op(op: &str, value: &Value) -> Result<Request, Refusal>
    ensures { result ≡ by_history_op op.now (view value.now) }
{
    match op {
        "undo" => undo_of(value),
        "redo" => redo_of(value),
        "cascade" => cascade_of(value),
        "dependents" => dependents_of(value),
        "get" => get_of(value),
        "where" => where_of(value),
        "size" => size_of(value),
        "piece" => piece_of(value),
        "reduce" => reduce_of(value),
        "state" => state_of(value),
        "note" => note_of(value),
        "print" => print_of(value),
        "history" => history_of(value),
        "edits" => edits_of(value),
        _ => Err(Refusal::BadRequest),
    }
}

// What is asked by the word of an op: a change to an array, or what is asked of a history.
#[tactic(auto, using(crate::proofs::Lines::as_answer))]
fn by_array_op(alloc: Global, op: &str, value: &Value) -> Result<Request, Refusal>
    ensures { IsAnswer (by_array_op op.now (view value.now)) result }
{
    match op {
        "array" => array_of(value),
        "drop_array" => drop_array_of(value),
        "set" => set_of(value),
        "fill" => fill_of(alloc, value),
        "put" => put_of(alloc, value),
        "fill_all" => fill_all_of(value),
        "irv" => irv_of(value),
        "copy" => copy_of(value),
        "all" => all_of(value),
        _ => by_history_op(op, value),
    }
}

/// What is asked by the word of an op: a change to a domain, a workbook that is loaded, a line that is explained, a change to an
/// array, or what is asked of a history.
#[tactic(auto, using(crate::proofs::Lines::as_answer))]
pub(crate) fn by_single_op(alloc: Global, op: &str, value: &Value) -> Result<Request, Refusal>
    ensures { IsAnswer (by_single_op op.now (view value.now)) result }
{
    match op {
        "domain" => domain_of(alloc, value),
        "remap" => remap_of(value),
        "sparse" => sparse_of(value),
        "assoc" => assoc_of(value),
        "drop_domain" => drop_domain_of(value),
        "reshape" => reshape_of(alloc, value),
        "add" => add_of(value),
        "remove" => remove_of(value),
        "load" => load_of(alloc, value),
        "explain" => explain_of(alloc, value),
        _ => by_array_op(alloc, op, value),
    }
}
