// What members of requests say, as texts and JSON values.
ghost use Rattle.std.specs.Prelude.{◌≡◌, map, IfOk, string_bytes};
ghost use Rattle.serde_json.specs.Data.{array};
ghost use Rattle.serde_json.specs.View.{view, items_of};
ghost use Rattle.wb_requests.specs.Encoding.Values.{integer_data, point_data, index_data};
ghost use Rattle.wb_text.specs.Literals.{rectangle_text, set_text, mapping_text};
ghost use Rattle.wb_requests.specs.Encoding.Encoded.{given_text};
ghost use Rattle.wb_requests.specs.Encoding.Table.{type_word, operation_word};

use serde_json::{Value, json};
use std::alloc::{AllocError, Global};
use wb_cells::{AnyIndex, AnyLayout, AnyRect, Index, KeyType};
use wb_edit::Operation;
use wb_reshape::Operand;
use wb_text::{push_any_layout, push_any_rect, push_set};

/// The canonical literal of a rectangle.
pub(crate) fn rectangle_text(alloc: Global, ranges: &AnyRect) -> Result<String, AllocError>
    ensures { IfOk result (λ s. string_bytes s ≡ rectangle_text ranges.now) }
{
    let mut out = String::new(alloc);
    push_any_rect(alloc, &mut out, ranges)?;
    Ok(out)
}

/// The canonical literal of a mapping.
pub(crate) fn mapping_text(alloc: Global, mapping: &AnyLayout) -> Result<String, AllocError>
    ensures { IfOk result (λ s. string_bytes s ≡ mapping_text mapping.now) }
{
    let mut out = String::new(alloc);
    push_any_layout(alloc, &mut out, mapping)?;
    Ok(out)
}

// The canonical literal of a set, its indices in this order.
fn set_text(alloc: Global, indices: &[AnyIndex]) -> Result<String, AllocError>
    ensures { IfOk result (λ s. string_bytes s ≡ set_text indices.now) }
{
    let mut out = String::new(alloc);
    push_set(&mut out, indices)?;
    Ok(out)
}

/// The canonical literal of what is given for a domain, or a name.
pub(crate) fn given_text(alloc: Global, given: &Operand) -> Result<String, AllocError>
    ensures { IfOk result (λ s. string_bytes s ≡ given_text given.now) }
{
    match given {
        Operand::Rectangle(ranges) => rectangle_text(alloc, ranges),
        Operand::Items(items) => set_text(alloc, items.as_slice()),
        Operand::Named(name) => String::from_str(alloc, name.as_str()),
    }
}

/// Integers as an array.
pub(crate) fn integers_value(alloc: Global, integers: &[i64]) -> Result<Value, AllocError>
    ensures { IfOk result (λ v. view v ≡ array (items_of (map integer_data integers.now))) }
{
    let mut items = Vec::new(alloc);
    for integer in integers {
        items.push(Value::from(*integer))?;
    }
    Ok(Value::Array(items))
}

// An integer alone, or an array of several.
#[tactic(auto, unfolding(crate::specs::Encoding::Values::point_data))]
fn point_value(alloc: Global, coordinates: &[i64]) -> Result<Value, AllocError>
    ensures { IfOk result (λ v. view v ≡ point_data coordinates.now) }
{
    match coordinates {
        [only] => Ok(Value::from(*only)),
        several => integers_value(alloc, several),
    }
}

/// An index: an integer, an array of several, or a text.
pub fn index_value(alloc: Global, index: &AnyIndex) -> Result<Value, AllocError>
    ensures { IfOk result (λ v. view v ≡ index_data index.now) }
{
    match index.index() {
        Index::Point(point) => point_value(alloc, point.coordinates()),
        Index::Text(label) => json!(in alloc; label.as_str()),
    }
}

/// The word for a type of indices.
pub(crate) fn type_word(key: KeyType) -> &'static str
    ensures { result.now ≡ type_word key }
{
    match key {
        KeyType::Int => "int",
        KeyType::Text => "text",
    }
}

/// The sign of an operation.
pub(crate) fn operation_word(how: Operation) -> &'static str
    ensures { result.now ≡ operation_word how }
{
    match how {
        Operation::Assign => "=",
        Operation::Sum => "+",
        Operation::Difference => "-",
        Operation::Product => "*",
    }
}
