// Whether a `put` has as many numbers as its rectangle has indices.
ghost use Rattle.std.specs.Prelude.{◌≡◌, codes, IfOk};
ghost use Rattle.serde_json.specs.View.{view};
ghost use Rattle.wb_requests.specs.Explained.{members_in, counted_on, counted_over, count_explained, op_counted};
ghost use Rattle.wb_requests.specs.Literals.{literal_domain, domain_within};

use crate::explaining::explanation::Explanation;
use crate::explaining::fault::Fault;
use crate::explaining::members::member;
use crate::explaining::rules::Rule;
use crate::explaining::values::fault_told;
use crate::requests::fields::integers_of;
use crate::requests::literals::{domain_within, literal_domain};
use serde_json::Value;
use std::alloc::Global;
use wb_literals::{DomainLiteral, RectangleLiteral};
use wb_range::NoMemory;

fn counted_on(
    alloc: Global,
    numbers: &[i64],
    literal: &RectangleLiteral,
) -> Result<Option<Explanation>, NoMemory>
    ensures { IfOk result (λ x. x ≡ counted_on numbers.now (domain_within literal.now)) }
{
    match domain_within(literal) {
        Ok(ranges) => {
            if numbers.len() == ranges.size() {
                return Ok(None);
            }
            let wrong = Explanation::at_field(alloc, Fault::BadRequest, "vs", Rule::AreCounted)?;
            Ok(Some(wrong))
        }
        Err(_) => Ok(None),
    }
}

fn counted_over(alloc: Global, numbers: &[i64], text: &str) -> Result<Option<Explanation>, NoMemory>
    ensures { IfOk result (λ x. x ≡ counted_over numbers.now (literal_domain text.now)) }
{
    match literal_domain(alloc, text) {
        Ok(DomainLiteral::Rectangle(literal)) => counted_on(alloc, numbers, &literal),
        Ok(DomainLiteral::Set(_)) => Ok(None),
        Err(why) => {
            fault_told(why)?;
            Ok(None)
        }
    }
}

fn count_explained(alloc: Global, value: &Value) -> Result<Option<Explanation>, NoMemory>
    ensures { IfOk result (λ x. x ≡ count_explained (members_in (view value.now))) }
{
    let numbers = match member(value, "vs") {
        Some(field) => integers_of(alloc, field),
        None => return Ok(None),
    };
    let numbers = match numbers {
        Ok(numbers) => numbers,
        Err(why) => {
            fault_told(why)?;
            return Ok(None);
        }
    };
    match member(value, "on").and_then(Value::as_str) {
        Some(text) => counted_over(alloc, numbers.as_slice(), text),
        None => Ok(None),
    }
}

/// What is wrong with how many numbers there are, where the op counts them.
pub(crate) fn op_counted(
    alloc: Global,
    op: &str,
    value: &Value,
) -> Result<Option<Explanation>, NoMemory>
    ensures { IfOk result (λ x. x ≡ op_counted op.now (members_in (view value.now))) }
{
    if op == "put" {
        return count_explained(alloc, value);
    }
    Ok(None)
}
