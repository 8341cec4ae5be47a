// Fields of a JSON object, by their names.
ghost use Rattle.std.specs.Prelude.{◌≡◌, ◌<◌, ◌^◌, ℕ, List, codes, option_map};
ghost use Rattle.std.specs.Option.{ok_or};
ghost use Rattle.std.specs.Result.{result_map_both};
ghost use Rattle.serde_json.specs.View.{view, items_view};
ghost use Rattle.wb_requests.specs.Fields.{field_count, has_fields, has_fields_and, text_field, optional_text, i64_field, u64_field, name_of, name_field};
ghost use Rattle.wb_requests.specs.Fields.{integer_of, integers_of, integers_field, pair_of, triple_of, tuple_of, label_of, index_of, index_field, key_type_of};
ghost use Rattle.wb_requests.specs.Answers.{IsAnswer};
ghost use Rattle.wb_requests.specs.Fields.{integers_listed, key_type_field, operation_of, operation_field, reduction_of, reduction_field};
ghost use Rattle.wb_requests.specs.Fields.{note_in, optional_note, is_several, several_of, several_field};

use serde_json::Value;
use std::alloc::Global;
use wb_arrays::Op;
use wb_cells::{AnyIndex, Index, KeyType, Name, Point};
use wb_edit::{Note, Operation, Refusal};
use wb_sets::Label;

/// How many fields an object has.
pub(crate) fn field_count(value: &Value) -> usize
    ensures { result ≡ field_count (view value.now) }
{
    match value.as_object() {
        Some(fields) => fields.len(),
        None => 0,
    }
}

/// That an object has so many fields.
pub(crate) fn has_fields(value: &Value, count: usize) -> Result<(), Refusal>
    ensures { result ≡ has_fields count (view value.now) }
{
    if field_count(value) == count {
        Ok(())
    } else {
        Err(Refusal::BadRequest)
    }
}

/// A field that is a text.
pub(crate) fn text_field<'a>(value: &'a Value, key: &str) -> Result<&'a str, Refusal>
    ensures { result_map_both (λ s. s.now) (λ e. e) result ≡ text_field key.now (view value.now) }
{
    value
        .get(key)
        .and_then(Value::as_str)
        .ok_or(Refusal::BadRequest)
}

/// A field that is a text, or that isn't there.
pub(crate) fn optional_text<'a>(value: &'a Value, key: &str) -> Result<Option<&'a str>, Refusal>
    ensures { result_map_both (λ o. option_map (λ s. s.now) o) (λ e. e) result ≡ optional_text key.now (view value.now) }
{
    match value.get(key) {
        None => Ok(None),
        Some(field) => match field.as_str() {
            Some(text) => Ok(Some(text)),
            None => Err(Refusal::BadRequest),
        },
    }
}

/// That an object has so many fields, and one more where that one is there.
pub(crate) fn has_fields_and<X>(
    value: &Value,
    count: usize,
    more: &Option<X>,
) -> Result<(), Refusal>
    requires { count < 2 ^ 32 }
    ensures { result ≡ has_fields_and count more.now (view value.now) }
{
    match more {
        None => has_fields(value, count),
        Some(_) => has_fields(value, count + 1),
    }
}

/// A field that is an `i64`.
pub(crate) fn i64_field(value: &Value, key: &str) -> Result<i64, Refusal>
    ensures { result ≡ i64_field key.now (view value.now) }
{
    value
        .get(key)
        .and_then(Value::as_i64)
        .ok_or(Refusal::BadRequest)
}

/// A field that is a `u64`.
pub(crate) fn u64_field(value: &Value, key: &str) -> Result<u64, Refusal>
    ensures { result ≡ u64_field key.now (view value.now) }
{
    value
        .get(key)
        .and_then(Value::as_u64)
        .ok_or(Refusal::BadRequest)
}

/// The text, where it is a name.
pub(crate) fn name_of(text: &str) -> Result<Name, Refusal>
    ensures { result ≡ name_of text.now }
{
    match Name::new(text) {
        Ok(name) => Ok(name),
        Err(_) => Err(Refusal::BadRequest),
    }
}

/// A field that is a name.
pub(crate) fn name_field(value: &Value, key: &str) -> Result<Name, Refusal>
    ensures { result ≡ name_field key.now (view value.now) }
{
    let text = text_field(value, key)?;
    name_of(text)
}

// A pair of integers.
fn pair_of(first: &Value, second: &Value) -> Option<Index>
    ensures { result ≡ pair_of (view first.now) (view second.now) }
{
    let i = first.as_i64()?;
    let j = second.as_i64()?;
    Some(Index::Point(Point::pair(i, j)))
}

// A triple of integers.
fn triple_of(first: &Value, second: &Value, third: &Value) -> Option<Index>
    ensures { result ≡ triple_of (view first.now) (view second.now) (view third.now) }
{
    let i = first.as_i64()?;
    let j = second.as_i64()?;
    let k = third.as_i64()?;
    Some(Index::Point(Point::triple(i, j, k)))
}

// Two or three integers as a point.
fn tuple_of(items: &[Value]) -> Option<Index>
    ensures { result ≡ tuple_of (items_view items.now) }
{
    match items {
        [first, second] => pair_of(first, second),
        [first, second, third] => triple_of(first, second, third),
        [] => None,
        [_] => None,
        [_, _, _, _, ..] => None,
    }
}

// The text, where it is a label.
fn label_of(text: &str) -> Option<Index>
    ensures { result ≡ label_of text.now }
{
    match Label::new(text) {
        Ok(label) => Some(Index::Text(label)),
        Err(_) => None,
    }
}

/// The index that a value is: an integer, an array of two or three of them, or a text.
pub(crate) fn index_of(value: &Value) -> Option<Index>
    ensures { result ≡ index_of (view value.now) }
{
    match value {
        Value::Number(number) => {
            let i = number.as_i64()?;
            Some(Index::Point(Point::single(i)))
        }
        Value::Array(items) => tuple_of(items.as_slice()),
        Value::String(text) => label_of(text.as_str()),
        Value::Null => None,
        Value::Bool(_) => None,
        Value::Object(_) => None,
    }
}

// The integers that values are.
fn integers_listed(alloc: Global, items: &[Value]) -> Result<Vec<i64>, Refusal>
    ensures { IsAnswer (ok_or (integers_listed (items_view items.now)) Refusal.BadRequest) (result_map_both (λ v. v.items) (λ e. e) result) }
{
    let mut integers = match Vec::with_capacity(alloc, items.len()) {
        Ok(integers) => integers,
        Err(_) => return Err(Refusal::NoMemory),
    };
    for item in items {
        match item.as_i64() {
            Some(integer) => {
                if integers.push(integer).is_err() {
                    return Err(Refusal::NoMemory);
                }
            }
            None => return Err(Refusal::BadRequest),
        }
    }
    Ok(integers)
}

/// The integers that an array has.
pub(crate) fn integers_of(alloc: Global, value: &Value) -> Result<Vec<i64>, Refusal>
    ensures { IsAnswer (ok_or (integers_of (view value.now)) Refusal.BadRequest) (result_map_both (λ v. v.items) (λ e. e) result) }
{
    match value {
        Value::Array(items) => integers_listed(alloc, items.as_slice()),
        Value::Number(_) => Err(Refusal::BadRequest),
        Value::String(_) => Err(Refusal::BadRequest),
        Value::Null => Err(Refusal::BadRequest),
        Value::Bool(_) => Err(Refusal::BadRequest),
        Value::Object(_) => Err(Refusal::BadRequest),
    }
}

/// A field that is an array of integers.
pub(crate) fn integers_field(alloc: Global, value: &Value, key: &str) -> Result<Vec<i64>, Refusal>
    ensures { IsAnswer (integers_field key.now (view value.now)) (result_map_both (λ v. v.items) (λ e. e) result) }
{
    match value.get(key) {
        Some(field) => integers_of(alloc, field),
        None => Err(Refusal::BadRequest),
    }
}

/// A field that is an index: an integer, an array of two or three of them, or a text.
pub(crate) fn index_field(value: &Value, key: &str) -> Result<AnyIndex, Refusal>
    ensures { result ≡ index_field key.now (view value.now) }
{
    match value.get(key).and_then(index_of) {
        Some(index) => Ok(AnyIndex::new(index)),
        None => Err(Refusal::BadRequest),
    }
}

/// The type of an associative domain's indices, by its word.
pub(crate) fn key_type_of(text: &str) -> Result<KeyType, Refusal>
    ensures { result ≡ key_type_of text.now }
{
    match text {
        "int" => Ok(KeyType::Int),
        "text" => Ok(KeyType::Text),
        _ => Err(Refusal::BadRequest),
    }
}

/// A field that is the type of an associative domain's indices.
pub(crate) fn key_type_field(value: &Value, key: &str) -> Result<KeyType, Refusal>
    ensures { result ≡ key_type_field key.now (view value.now) }
{
    let text = text_field(value, key)?;
    key_type_of(text)
}

/// An operation on two arrays, by its word.
pub(crate) fn operation_of(text: &str) -> Result<Operation, Refusal>
    ensures { result ≡ operation_of text.now }
{
    match text {
        "=" => Ok(Operation::Assign),
        "+" => Ok(Operation::Sum),
        "-" => Ok(Operation::Difference),
        "*" => Ok(Operation::Product),
        _ => Err(Refusal::BadRequest),
    }
}

/// A field that is an operation on two arrays.
pub(crate) fn operation_field(value: &Value, key: &str) -> Result<Operation, Refusal>
    ensures { result ≡ operation_field key.now (view value.now) }
{
    let text = text_field(value, key)?;
    operation_of(text)
}

/// A reduction of an array, by its word.
pub(crate) fn reduction_of(text: &str) -> Result<Op, Refusal>
    ensures { result ≡ reduction_of text.now }
{
    match text {
        "+" => Ok(Op::Sum),
        "min" => Ok(Op::Min),
        "max" => Ok(Op::Max),
        _ => Err(Refusal::BadRequest),
    }
}

/// A field that is a reduction of an array.
pub(crate) fn reduction_field(value: &Value, key: &str) -> Result<Op, Refusal>
    ensures { result ≡ reduction_field key.now (view value.now) }
{
    let text = text_field(value, key)?;
    reduction_of(text)
}

/// The text, where it is a note.
pub(crate) fn note_in(alloc: Global, text: &str) -> Result<Note, Refusal>
    ensures { IsAnswer (note_in text.now) result }
{
    let text = match String::from_str(alloc, text) {
        Ok(text) => text,
        Err(_) => return Err(Refusal::NoMemory),
    };
    match Note::new(text) {
        Some(note) => Ok(note),
        None => Err(Refusal::BadRequest),
    }
}

/// A field that is a note, or that isn't there.
pub(crate) fn optional_note(
    alloc: Global,
    value: &Value,
    key: &str,
) -> Result<Option<Note>, Refusal>
    ensures { IsAnswer (optional_note key.now (view value.now)) result }
{
    match optional_text(value, key)? {
        Some(text) => {
            let note = note_in(alloc, text)?;
            Ok(Some(note))
        }
        None => Ok(None),
    }
}

// 1 to 4,096.
fn is_several(count: usize) -> bool
    ensures { result ≡ is_several count }
{
    1 <= count && count <= 4096
}

/// An array of so many values, whatever they are.
pub(crate) fn several_of(value: &Value) -> Option<&[Value]>
    ensures { option_map (λ s. items_view s.now) result ≡ several_of (view value.now) }
{
    match value {
        Value::Array(items) => {
            if is_several(items.len()) {
                Some(items.as_slice())
            } else {
                None
            }
        }
        Value::Number(_) => None,
        Value::String(_) => None,
        Value::Null => None,
        Value::Bool(_) => None,
        Value::Object(_) => None,
    }
}

/// A field that is an array of 1 to 4,096 values.
pub(crate) fn several_field<'a>(value: &'a Value, key: &str) -> Result<&'a [Value], Refusal>
    ensures { result_map_both (λ s. items_view s.now) (λ e. e) result ≡ several_field key.now (view value.now) }
{
    value
        .get(key)
        .and_then(several_of)
        .ok_or(Refusal::BadRequest)
}
