// Where the new value of a domain comes from.
ghost use Rattle.std.specs.Prelude.{◌≡◌, codes};
ghost use Rattle.serde_json.specs.View.{view};
ghost use Rattle.wb_literals.specs.Said.{items, domain};
ghost use Rattle.wb_requests.specs.Answers.{IsAnswer};
ghost use Rattle.wb_literals.specs.Limits.Literals.{listed_in};
ghost use Rattle.wb_requests.specs.Sources.{is_braced, given_within, given_literal, given_name, given_text, given_by, point_in, offsets_by, to_by, slice_by};
ghost use Rattle.wb_requests.specs.Sources.{displace_by, combine_by, combination_of, source_of};
ghost use Rattle.wb_reshape.specs.Sources.{ascending};
ghost use Rattle.wb_reshape.specs.declared.operand.Operand.TheVariants.{Items};

use crate::requests::fields::{index_of, name_of};
use crate::requests::literals::{domain_within, literal_domain};
use serde_json::Value;
use std::alloc::Global;
use wb_cells::{Index, Point};
use wb_edit::Refusal;
use wb_literals::limits::listed_in;
use wb_literals::{DomainLiteral, SetLiteral};
use wb_range::NoMemory;
use wb_reshape::set_operations::sorted_set;
use wb_reshape::{Displacement, NewIndices, Operand, SetOperation};

// Whether a text is a literal; others are names.
fn is_braced(text: &str) -> bool
    ensures { result ≡ is_braced text.now }
{
    match text.as_bytes() {
        [first, ..] => *first == b'{',
        [] => false,
    }
}

// The set of the indices that a literal lists.
fn given_set(alloc: Global, set: &SetLiteral) -> Result<Operand, Refusal>
    ensures { IsAnswer (Ok (Items (ascending (listed_in (items set.now))))) result }
{
    let listed = match listed_in(alloc, set) {
        Ok(listed) => listed,
        Err(_) => return Err(Refusal::NoMemory),
    };
    match sorted_set(alloc, &listed) {
        Ok(set) => Ok(Operand::Items(set)),
        Err(NoMemory) => Err(Refusal::NoMemory),
    }
}

// What a literal stands for.
fn given_within(alloc: Global, literal: &DomainLiteral) -> Result<Operand, Refusal>
    ensures { IsAnswer (given_within (domain literal.now)) result }
{
    match literal {
        DomainLiteral::Rectangle(rectangle) => {
            let ranges = domain_within(rectangle)?;
            Ok(Operand::Rectangle(ranges))
        }
        DomainLiteral::Set(set) => given_set(alloc, set),
    }
}

fn given_literal(alloc: Global, text: &str) -> Result<Operand, Refusal>
    ensures { IsAnswer (given_literal text.now) result }
{
    let literal = literal_domain(alloc, text)?;
    given_within(alloc, &literal)
}

fn given_name(text: &str) -> Result<Operand, Refusal>
    ensures { result ≡ given_name text.now }
{
    let name = name_of(text)?;
    Ok(Operand::Named(name))
}

fn given_text(alloc: Global, text: &str) -> Result<Operand, Refusal>
    ensures { IsAnswer (given_text text.now) result }
{
    if is_braced(text) {
        given_literal(alloc, text)
    } else {
        let given = given_name(text)?;
        Ok(given)
    }
}

/// What a field gives.
pub(crate) fn given_by(alloc: Global, field: &Value) -> Result<Operand, Refusal>
    ensures { IsAnswer (given_by (view field.now)) result }
{
    match field.as_str() {
        Some(text) => given_text(alloc, text),
        None => Err(Refusal::BadRequest),
    }
}

fn point_in(index: &Index) -> Option<Point>
    ensures { result ≡ point_in index.now }
{
    match index {
        Index::Point(point) => Some(*point),
        Index::Text(_) => None,
    }
}

/// An offset for each dimension.
pub(crate) fn offsets_by(field: &Value) -> Result<Point, Refusal>
    ensures { result ≡ offsets_by (view field.now) }
{
    match index_of(field) {
        Some(index) => point_in(&index).ok_or(Refusal::BadRequest),
        None => Err(Refusal::BadRequest),
    }
}

fn to_by(alloc: Global, field: &Value) -> Result<NewIndices, Refusal>
    ensures { IsAnswer (to_by (view field.now)) result }
{
    let given = given_by(alloc, field)?;
    Ok(NewIndices::To(given))
}

fn slice_by(alloc: Global, field: &Value) -> Result<NewIndices, Refusal>
    ensures { IsAnswer (slice_by (view field.now)) result }
{
    let given = given_by(alloc, field)?;
    Ok(NewIndices::Slice(given))
}

fn displace_by(how: Displacement, field: &Value) -> Result<NewIndices, Refusal>
    ensures { result ≡ displace_by how (view field.now) }
{
    let offsets = offsets_by(field)?;
    Ok(NewIndices::Displace(how, offsets))
}

fn combine_by(alloc: Global, how: SetOperation, field: &Value) -> Result<NewIndices, Refusal>
    ensures { IsAnswer (combine_by how (view field.now)) result }
{
    let given = given_by(alloc, field)?;
    Ok(NewIndices::Combine(how, given))
}

// The set operation that a request has a field for.
fn combination_of(alloc: Global, value: &Value) -> Result<NewIndices, Refusal>
    ensures { IsAnswer (combination_of (view value.now)) result }
{
    if let Some(field) = value.get("or") {
        return combine_by(alloc, SetOperation::Union, field);
    }
    if let Some(field) = value.get("and") {
        return combine_by(alloc, SetOperation::Intersection, field);
    }
    if let Some(field) = value.get("minus") {
        return combine_by(alloc, SetOperation::Difference, field);
    }
    match value.get("xor") {
        Some(field) => combine_by(alloc, SetOperation::SymmetricDifference, field),
        None => Err(Refusal::BadRequest),
    }
}

/// The source that a request has a field for.
pub(crate) fn source_of(alloc: Global, value: &Value) -> Result<NewIndices, Refusal>
    ensures { IsAnswer (source_of (view value.now)) result }
{
    if let Some(field) = value.get("to") {
        return to_by(alloc, field);
    }
    if let Some(field) = value.get("slice") {
        return slice_by(alloc, field);
    }
    if let Some(field) = value.get("translate") {
        let source = displace_by(Displacement::Translate, field)?;
        return Ok(source);
    }
    if let Some(field) = value.get("expand") {
        let source = displace_by(Displacement::Expand, field)?;
        return Ok(source);
    }
    combination_of(alloc, value)
}
