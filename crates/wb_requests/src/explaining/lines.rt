// What is wrong with a line.
ghost use Rattle.std.specs.Prelude.{◌≡◌, codes, IfOk, Some};
ghost use Rattle.std.specs.Bool.{Decides};
ghost use Rattle.serde_json.specs.Errors.{IsMemory};
ghost use Rattle.serde_json.specs.View.{view};
ghost use Rattle.wb_requests.specs.Explained.{members_in, op_named, data_explained, explained};

use crate::explaining::commands::edits_explained;
use crate::explaining::explanation::Explanation;
use crate::explaining::members::op_of;
use crate::explaining::objects::{no_op, op_explained};
use crate::explaining::rules::Rule;
use serde_json::{Category, Error, Value};
use std::alloc::Global;
use wb_range::NoMemory;

// What is wrong with an object of an op, and else with the commands within it.
fn op_named(alloc: Global, op: &str, value: &Value) -> Result<Option<Explanation>, NoMemory>
    ensures { IfOk result (λ x. x ≡ op_named (members_in (view value.now)) (Some op.now)) }
{
    match op_explained(alloc, op, value)? {
        Some(wrong) => Ok(Some(wrong)),
        None => edits_explained(alloc, op, value),
    }
}

// What is wrong with a JSON value.
fn data_explained(alloc: Global, value: &Value) -> Result<Option<Explanation>, NoMemory>
    ensures { IfOk result (λ x. x ≡ data_explained (view value.now)) }
{
    if !value.is_object() {
        return Ok(Some(Explanation::of_whole(Rule::IsObject)));
    }
    match op_of(value) {
        Some(op) => op_named(alloc, op, value),
        None => no_op(alloc),
    }
}

// Whether it was memory that was missing.
fn is_memory(error: &Error) -> bool
    ensures { Decides result (IsMemory error.now) }
{
    error.classify() == Category::Memory
}

/// What is wrong with a line, if anything is, or `NoMemory`.
pub fn explained(alloc: Global, line: &[u8]) -> Result<Option<Explanation>, NoMemory>
    ensures { IfOk result (λ x. x ≡ explained line.now) }
{
    match Value::from_slice(alloc, line) {
        Ok(value) => data_explained(alloc, &value),
        Err(error) => {
            if is_memory(&error) {
                return Err(NoMemory);
            }
            Ok(Some(Explanation::of_whole(Rule::IsJson)))
        }
    }
}
