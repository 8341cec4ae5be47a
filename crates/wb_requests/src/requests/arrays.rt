// Requests for changes to arrays.
ghost use Rattle.std.specs.Prelude.{◌≡◌, codes};
ghost use Rattle.serde_json.specs.View.{view};
ghost use Rattle.wb_literals.specs.Said.{domain};
ghost use Rattle.wb_requests.specs.Answers.{IsAnswer};
ghost use Rattle.wb_requests.specs.Requests.{array_of, drop_array_of, set_of, fill_over, fill_of, put_on, put_over, put_of, fill_all_of, copy_of, irv_of, all_of};

use crate::requests::fields::{
    has_fields, i64_field, index_field, integers_field, name_field, operation_field, text_field,
};
use crate::requests::literals::{domain_within, literal_domain};
use crate::requests::request::Request;
use serde_json::Value;
use std::alloc::Global;
use wb_cells::{AnyRect, Name};
use wb_edit::{AskedNumbers, AskedRectangle, Command, Edit, NumberedRectangle, Refusal};
use wb_literals::DomainLiteral;

/// A new array.
pub(crate) fn array_of(value: &Value) -> Result<Request, Refusal>
    ensures { result ≡ array_of (view value.now) }
{
    has_fields(value, 3)?;
    let name = name_field(value, "a")?;
    let domain = name_field(value, "d")?;
    Ok(Request::Change(Edit::Command(Command::Array(name, domain))))
}

/// The end of an array.
pub(crate) fn drop_array_of(value: &Value) -> Result<Request, Refusal>
    ensures { result ≡ drop_array_of (view value.now) }
{
    has_fields(value, 2)?;
    let name = name_field(value, "a")?;
    Ok(Request::Change(Edit::Command(Command::DropArray(name))))
}

/// A new element.
pub(crate) fn set_of(value: &Value) -> Result<Request, Refusal>
    ensures { result ≡ set_of (view value.now) }
{
    has_fields(value, 4)?;
    let name = name_field(value, "a")?;
    let index = index_field(value, "i")?;
    let number = i64_field(value, "v")?;
    Ok(Request::Change(Edit::Command(Command::Set(name, index, number))))
}

// A number at each index of what a literal spells.
fn fill_over(name: Name, literal: &DomainLiteral, number: i64) -> Result<Request, Refusal>
    ensures { result ≡ fill_over name (domain literal.now) number }
{
    match literal {
        DomainLiteral::Rectangle(rectangle) => {
            let ranges = domain_within(rectangle)?;
            let asked = AskedRectangle::Ranges(ranges);
            Ok(Request::Change(Edit::Command(Command::Fill(name, asked, number))))
        }
        DomainLiteral::Set(_) => {
            Ok(Request::Change(Edit::Command(Command::Fill(name, AskedRectangle::Indices, number))))
        }
    }
}

/// A number at the indices of a rectangle.
pub(crate) fn fill_of(alloc: Global, value: &Value) -> Result<Request, Refusal>
    ensures { IsAnswer (fill_of (view value.now)) result }
{
    has_fields(value, 4)?;
    let name = name_field(value, "a")?;
    let text = text_field(value, "on")?;
    let number = i64_field(value, "v")?;
    let literal = literal_domain(alloc, text)?;
    let request = fill_over(name, &literal, number)?;
    Ok(request)
}

// A number for each index of a rectangle.
fn put_on(name: Name, on: AnyRect, numbers: Vec<i64>) -> Result<Request, Refusal>
    ensures { result ≡ put_on name on numbers.items }
{
    match NumberedRectangle::new(on, numbers) {
        Some(numbered) => {
            let asked = AskedNumbers::Rectangle(numbered);
            Ok(Request::Change(Edit::Command(Command::Put(name, asked))))
        }
        None => Err(Refusal::BadRequest),
    }
}

// Numbers at the indices of what a literal spells.
fn put_over(name: Name, literal: &DomainLiteral, numbers: Vec<i64>) -> Result<Request, Refusal>
    ensures { result ≡ put_over name (domain literal.now) numbers.items }
{
    match literal {
        DomainLiteral::Rectangle(rectangle) => {
            let ranges = domain_within(rectangle)?;
            put_on(name, ranges, numbers)
        }
        DomainLiteral::Set(_) => Ok(Request::Change(Edit::Command(Command::Put(
            name,
            AskedNumbers::Indices,
        )))),
    }
}

/// A number for each index of a rectangle.
pub(crate) fn put_of(alloc: Global, value: &Value) -> Result<Request, Refusal>
    ensures { IsAnswer (put_of (view value.now)) result }
{
    has_fields(value, 4)?;
    let name = name_field(value, "a")?;
    let text = text_field(value, "on")?;
    let numbers = integers_field(alloc, value, "vs")?;
    let literal = literal_domain(alloc, text)?;
    let request = put_over(name, &literal, numbers)?;
    Ok(request)
}

/// A number as every element of an array.
pub(crate) fn fill_all_of(value: &Value) -> Result<Request, Refusal>
    ensures { result ≡ fill_all_of (view value.now) }
{
    has_fields(value, 3)?;
    let name = name_field(value, "a")?;
    let number = i64_field(value, "v")?;
    Ok(Request::Change(Edit::Command(Command::FillAll(name, number))))
}

/// An element that becomes another one and a number more.
pub(crate) fn copy_of(value: &Value) -> Result<Request, Refusal>
    ensures { result ≡ copy_of (view value.now) }
{
    has_fields(value, 6)?;
    let name = name_field(value, "a")?;
    let index = index_field(value, "i")?;
    let source = name_field(value, "b")?;
    let place = index_field(value, "j")?;
    let more = i64_field(value, "c")?;
    Ok(Request::Change(Edit::Command(Command::Copy(name, index, source, place, more))))
}

/// A new implicit value.
pub(crate) fn irv_of(value: &Value) -> Result<Request, Refusal>
    ensures { result ≡ irv_of (view value.now) }
{
    has_fields(value, 3)?;
    let name = name_field(value, "a")?;
    let number = i64_field(value, "v")?;
    Ok(Request::Change(Edit::Command(Command::Irv(name, number))))
}

/// The elements of an array by those of another.
pub(crate) fn all_of(value: &Value) -> Result<Request, Refusal>
    ensures { result ≡ all_of (view value.now) }
{
    has_fields(value, 4)?;
    let name = name_field(value, "a")?;
    let how = operation_field(value, "how")?;
    let other = name_field(value, "b")?;
    Ok(Request::Change(Edit::Command(Command::All(name, how, other))))
}
