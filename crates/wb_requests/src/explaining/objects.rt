// What is wrong with an object of an op.
ghost use Rattle.std.specs.Prelude.{◌≡◌, codes, map, IfOk, Some};
ghost use Rattle.serde_json.specs.View.{view};
ghost use Rattle.wb_requests.specs.Explained.{members_in, form_in, foreign_in, missing_in, formless_by, forms_of, formed, op_explained, of_field, names_op};
ghost use Rattle.wb_requests.specs.Wire.Faults.{forms};

use crate::explaining::counts::op_counted;
use crate::explaining::explanation::{Explanation, least_of};
use crate::explaining::fault::Fault;
use crate::explaining::forms::forms_of;
use crate::explaining::keys::{form_in, formless};
use crate::explaining::rules::Rule;
use crate::explaining::values::values_explained;
use serde_json::Value;
use std::alloc::Global;
use wb_range::NoMemory;

// What is wrong with an object by the forms of its op, of which one is the first.
fn formed(
    alloc: Global,
    op: &str,
    value: &Value,
    first: &[&'static str],
    of_op: &[&'static [&'static str]],
) -> Result<Option<Explanation>, NoMemory>
    ensures { IfOk result (λ x. x ≡ formed (members_in (view value.now)) op.now
        (form_in (members_in (view value.now)) (map (λ f. map (λ k. k.now) f.now) of_op.now))
        (formless_by
        (foreign_in (map (λ f. map (λ k. k.now) f.now) of_op.now) (members_in (view value.now)))
        (missing_in (map (λ f. map (λ k. k.now) f.now) of_op.now) (members_in (view value.now)) (map (λ k. k.now) first.now)))) }
{
    match form_in(value, of_op) {
        Some(keys) => {
            let wrong = values_explained(alloc, op, value, keys)?;
            let count = op_counted(alloc, op, value)?;
            Ok(least_of(wrong, count))
        }
        None => {
            let wrong = formless(alloc, value, first, of_op)?;
            Ok(Some(wrong))
        }
    }
}

/// What is wrong with an op that is none.
pub(crate) fn no_op(alloc: Global) -> Result<Option<Explanation>, NoMemory>
    ensures { IfOk result (λ x. x ≡ Some (of_field (codes "op") names_op)) }
{
    let wrong = Explanation::at_field(alloc, Fault::BadRequest, "op", Rule::NamesOp)?;
    Ok(Some(wrong))
}

/// What is wrong with an object of an op, apart from the commands within it.
pub(crate) fn op_explained(
    alloc: Global,
    op: &str,
    value: &Value,
) -> Result<Option<Explanation>, NoMemory>
    ensures { IfOk result (λ x. x ≡ op_explained (members_in (view value.now)) op.now (forms_of op.now forms)) }
{
    let forms = forms_of(alloc, op)?;
    match forms.as_slice() {
        [] => no_op(alloc),
        [first, ..] => formed(alloc, op, value, first, forms.as_slice()),
    }
}
