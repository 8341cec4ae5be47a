//! Lines that are for the desk itself.
ghost use Rattle.std.specs.Prelude.{◌≡◌, None, IfOk, OnOk, option_map};
ghost use Rattle.serde_json.specs.Errors.{IsMemory};
ghost use Rattle.serde_json.specs.View.{view};
ghost use Rattle.wb_company.specs.Words.{field_count, text_of, is_short, called, hello_of, edits_of, desk_of, by_op, word_of, word};

use serde_json::{Category, Error, Value};
use std::alloc::Global;
use wb_range::NoMemory;
use wb_sets::Label;

/// A name has at most so many bytes.
const MAX_BYTES: usize = 32;

/// What a line says to a desk that stays, and not to its workbook.
#[derive(Drop)]
pub enum Word {
    /// The name of who has the seat.
    Hello(Label),
    /// It asks who made each edit, undo and redo, from this one on.
    EditsFrom(u64),
    /// It asks how the desk stands.
    Desk,
}

// How many fields an object has.
fn field_count(value: &Value) -> usize
    ensures { result ≡ field_count (view value.now) }
{
    match value.as_object() {
        Some(fields) => fields.len(),
        None => 0,
    }
}

// A field that is a text.
fn text_of<'a>(value: &'a Value, key: &str) -> Option<&'a str>
    ensures { option_map (λ s. s.now) result ≡ text_of key.now (view value.now) }
{
    value.get(key).and_then(Value::as_str)
}

// Whether a text is short enough for a name.
fn is_short(text: &str) -> bool
    ensures { result ≡ is_short text.now }
{
    text.len() <= MAX_BYTES
}

// The word that says this name, where it is one.
fn called(text: &str) -> Option<Word>
    ensures { result ≡ called text.now }
{
    if !is_short(text) {
        return None;
    }
    match Label::new(text) {
        Ok(name) => Some(Word::Hello(name)),
        Err(_) => None,
    }
}

// A name that is said.
fn hello_of(value: &Value) -> Option<Word>
    ensures { result ≡ hello_of (view value.now) }
{
    if field_count(value) != 2 {
        return None;
    }
    let name = text_of(value, "name")?;
    called(name)
}

// Who made the edits from a number on.
fn edits_of(value: &Value) -> Option<Word>
    ensures { result ≡ edits_of (view value.now) }
{
    if field_count(value) != 2 {
        return None;
    }
    let from = value.get("from").and_then(Value::as_u64)?;
    Some(Word::EditsFrom(from))
}

// How the desk stands.
fn desk_of(value: &Value) -> Option<Word>
    ensures { result ≡ desk_of (view value.now) }
{
    if field_count(value) != 1 {
        return None;
    }
    Some(Word::Desk)
}

// The word of this op.
fn by_op(op: &str, value: &Value) -> Option<Word>
    ensures { result ≡ by_op op.now (view value.now) }
{
    match op {
        "hello" => hello_of(value),
        "edits" => edits_of(value),
        "desk" => desk_of(value),
        _ => None,
    }
}

// The word that a value is.
fn word_of(value: &Value) -> Option<Word>
    ensures { result ≡ word_of (view value.now) }
{
    let op = text_of(value, "op")?;
    by_op(op, value)
}

/// The word that a line is, if it is one: an object with `op` and exactly the fields of that op.
pub fn read_word(alloc: Global, line: &[u8]) -> Result<Option<Word>, NoMemory>
    ensures { IfOk result (λ o. o ≡ word line.now) }
{
    match Value::from_slice(alloc, line) {
        Ok(value) => Ok(word_of(&value)),
        Err(error) => none_of(&error),
    }
}

// That a text is no JSON, or that memory ran out.
fn none_of(error: &Error) -> Result<Option<Word>, NoMemory>
    ensures none { IfOk result (λ o. o ≡ None) }
    ensures memory { OnOk result (¬ IsMemory error.now) }
{
    if error.classify() == Category::Memory {
        Err(NoMemory)
    } else {
        Ok(None)
    }
}
