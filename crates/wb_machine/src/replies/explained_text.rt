// The text of what is wrong with a line.
ghost use Rattle.std.specs.Prelude.{◌≡◌, codes, option_map, IfOk, Some, string_bytes};
ghost use Rattle.serde_json.specs.Data.{object, number, unsigned, string, member, no_members};
ghost use Rattle.serde_json.specs.View.{view};
ghost use Rattle.wb_machine.specs.Replies.{field_data, wrong_data, reply_data, reply_of};
ghost use Rattle.wb_machine.specs.declared.replies.reply.Reply.TheVariants.{Explained};

use crate::replies::text::{code_of, name_of};
use serde_json::{Value, json};
use std::alloc::{AllocError, Global};
use wb_requests::Explanation;

fn field_value(alloc: Global, field: Option<&str>) -> Result<Value, AllocError>
    ensures { IfOk result (λ v. view v ≡ field_data (option_map (λ s. s.now) field.entry)) }
{
    match field {
        Some(key) => json!(in alloc; key),
        None => Ok(Value::Null),
    }
}

// The object of a code, a field, a name and a rule.
fn object_value(
    alloc: Global,
    error: &str,
    field: &Value,
    name: &str,
    rule: &str,
) -> Result<Value, AllocError>
    ensures { IfOk result (λ v. view v ≡ object (member (codes "error") (string error.now) (member (codes "field") (view field.now)
        (member (codes "name") (string name.now) (member (codes "rule") (string rule.now) no_members))))) }
{
    json!(in alloc; {"error": error, "field": field, "name": name, "rule": rule})
}

// The object of the place of a command, a code, a field, a name and a rule.
fn placed_value(
    alloc: Global,
    at: usize,
    error: &str,
    field: &Value,
    name: &str,
    rule: &str,
) -> Result<Value, AllocError>
    ensures { IfOk result (λ v. view v ≡ object (member (codes "at") (number (unsigned at)) (member (codes "error") (string error.now) (member (codes "field") (view field.now)
        (member (codes "name") (string name.now) (member (codes "rule") (string rule.now) no_members)))))) }
{
    let at = at as u64;
    json!(in alloc; {"at": at, "error": error, "field": field, "name": name, "rule": rule})
}

// What is wrong.
fn wrong_value(alloc: Global, wrong: &Explanation) -> Result<Value, AllocError>
    ensures { IfOk result (λ v. view v ≡ wrong_data (Some wrong.now)) }
{
    let field = field_value(alloc, wrong.field())?;
    let why = wrong.refusal();
    match wrong.at() {
        Some(at) => placed_value(alloc, at, code_of(why), &field, name_of(why), wrong.rule()),
        None => object_value(alloc, code_of(why), &field, name_of(why), wrong.rule()),
    }
}

fn explained_value(alloc: Global, wrong: &Option<Explanation>) -> Result<Value, AllocError>
    ensures { IfOk result (λ v. view v ≡ reply_data (Explained wrong.now)) }
{
    match wrong {
        Some(wrong) => {
            let told = wrong_value(alloc, wrong)?;
            json!(in alloc; {"wrong": &told})
        }
        None => json!(in alloc; {"wrong": null}),
    }
}

/// The object of what is wrong with a line, if anything is.
pub(crate) fn explained_text(
    alloc: Global,
    wrong: &Option<Explanation>,
) -> Result<String, AllocError>
    ensures { IfOk result (λ s. string_bytes s ≡ reply_of (Explained wrong.now)) }
{
    let value = explained_value(alloc, wrong)?;
    value.to_string(alloc)
}
