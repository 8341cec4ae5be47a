// The canonical objects of edits' requests, and their lines.
ghost use Rattle.std.specs.Prelude.{◌≡◌, ◌≤◌, IfOk, Some, true, false, string_bytes};
ghost use Rattle.std.specs.Str.{is_utf8};
ghost use Rattle.serde_json.specs.Data.{depth};
ghost use Rattle.serde_json.specs.Read.{read, max_depth};
ghost use Rattle.serde_json.specs.View.{view};
ghost use Rattle.serde_json.specs.Written.{compact_text, has_float};
ghost use Rattle.wb_edit.specs.declared.asked_numbers.AskedNumbers.TheVariants.{Rectangle as numbered_on, Indices as numbered_set};
ghost use Rattle.wb_edit.specs.declared.asked_rectangle.AskedRectangle.TheVariants.{Ranges, Indices};
ghost use Rattle.wb_edit.specs.declared.command.Command.TheVariants.{Domain as new_domain_command, Remap, Fill, Put};
ghost use Rattle.wb_edit.specs.declared.edit.Edit.TheVariants.{Command as one_command, Transaction as several_commands};
ghost use Rattle.wb_requests.specs.Encoding.Encoded.{command_data, commands_data, edit_data, edit_text};

use crate::encoding::literals::{
    integers_value, mapping_text, operation_word, rectangle_text, type_word,
};
use crate::encoding::objects::{
    array_with, combined, copied, domain_of, filled, index_of_domain, loaded, new_array,
    new_domain, new_element, noted, numbered, of_array, of_domain, remapped, unnoted,
};
use crate::encoding::sources::reshaped;
use serde_json::Value;
use std::alloc::{AllocError, Global};
use wb_cells::{AnyLayout, AnyRect, Name};
use wb_edit::{AskedNumbers, AskedRectangle, Command, Edit, NumberedRectangle, Transaction};
use wb_range::NoMemory;

fn rectangular_on(
    alloc: Global,
    d: &Name,
    is: &AnyRect,
    map: &AnyLayout,
) -> Result<Value, AllocError>
    ensures { IfOk result (λ v. view v ≡ command_data (new_domain_command d.now (Ranges is.now) map.now)) }
{
    let is = rectangle_text(alloc, is)?;
    let map = mapping_text(alloc, map)?;
    new_domain(alloc, d, &is, &map)
}

fn rectangular_on_set(alloc: Global, d: &Name, map: &AnyLayout) -> Result<Value, AllocError>
    ensures { IfOk result (λ v. view v ≡ command_data (new_domain_command d.now Indices map.now)) }
{
    let map = mapping_text(alloc, map)?;
    new_domain(alloc, d, "{}", &map)
}

fn rectangular(
    alloc: Global,
    d: &Name,
    is: &AskedRectangle,
    map: &AnyLayout,
) -> Result<Value, AllocError>
    ensures { IfOk result (λ v. view v ≡ command_data (new_domain_command d.now is.now map.now)) }
{
    match is {
        AskedRectangle::Ranges(ranges) => rectangular_on(alloc, d, ranges, map),
        AskedRectangle::Indices => rectangular_on_set(alloc, d, map),
    }
}

fn remap(alloc: Global, d: &Name, map: &AnyLayout) -> Result<Value, AllocError>
    ensures { IfOk result (λ v. view v ≡ command_data (Remap d.now map.now)) }
{
    let map = mapping_text(alloc, map)?;
    remapped(alloc, d, &map)
}

fn fill_on(alloc: Global, a: &Name, on: &AnyRect, v: i64) -> Result<Value, AllocError>
    ensures { IfOk result (λ x. view x ≡ command_data (Fill a.now (Ranges on.now) v)) }
{
    let on = rectangle_text(alloc, on)?;
    filled(alloc, a, &on, v)
}

fn fill(alloc: Global, a: &Name, on: &AskedRectangle, v: i64) -> Result<Value, AllocError>
    ensures { IfOk result (λ x. view x ≡ command_data (Fill a.now on.now v)) }
{
    match on {
        AskedRectangle::Ranges(ranges) => fill_on(alloc, a, ranges, v),
        AskedRectangle::Indices => filled(alloc, a, "{}", v),
    }
}

fn put_on(alloc: Global, a: &Name, by: &NumberedRectangle) -> Result<Value, AllocError>
    ensures { IfOk result (λ x. view x ≡ command_data (Put a.now (numbered_on by.now))) }
{
    let on = rectangle_text(alloc, &by.ranges())?;
    let vs = integers_value(alloc, by.numbers())?;
    numbered(alloc, a, &on, &vs)
}

fn put_on_set(alloc: Global, a: &Name) -> Result<Value, AllocError>
    ensures { IfOk result (λ x. view x ≡ command_data (Put a.now numbered_set)) }
{
    let vs = integers_value(alloc, &[])?;
    numbered(alloc, a, "{}", &vs)
}

fn put(alloc: Global, a: &Name, by: &AskedNumbers) -> Result<Value, AllocError>
    ensures { IfOk result (λ x. view x ≡ command_data (Put a.now by.now)) }
{
    match by {
        AskedNumbers::Rectangle(numbered) => put_on(alloc, a, numbered),
        AskedNumbers::Indices => put_on_set(alloc, a),
    }
}

// The canonical object of a command's request.
fn command_value(alloc: Global, command: &Command) -> Result<Value, AllocError>
    ensures { IfOk result (λ v. view v ≡ command_data command.now) }
{
    match command {
        Command::Domain(d, is, map) => rectangular(alloc, d, is, map),
        Command::Remap(d, map) => remap(alloc, d, map),
        Command::Sparse(d, parent) => domain_of(alloc, "sparse", d, parent.as_str()),
        Command::Assoc(d, key) => domain_of(alloc, "assoc", d, type_word(*key)),
        Command::DropDomain(d) => of_domain(alloc, "drop_domain", d),
        Command::Reshape(d, source) => reshaped(alloc, d, source),
        Command::Add(d, i) => index_of_domain(alloc, "add", d, i),
        Command::Remove(d, i) => index_of_domain(alloc, "remove", d, i),
        Command::Array(a, d) => new_array(alloc, a, d),
        Command::DropArray(a) => of_array(alloc, "drop_array", a),
        Command::Set(a, i, v) => new_element(alloc, a, i, *v),
        Command::Fill(a, on, v) => fill(alloc, a, on, *v),
        Command::Put(a, by) => put(alloc, a, by),
        Command::FillAll(a, v) => array_with(alloc, "fill_all", a, *v),
        Command::Irv(a, v) => array_with(alloc, "irv", a, *v),
        Command::Copy(a, i, b, j, c) => copied(alloc, a, i, b, j, *c),
        Command::All(a, how, b) => combined(alloc, a, operation_word(*how), b),
    }
}

// The canonical object of an edit that is one command.
#[tactic(auto, using(crate::proofs::Encodings::Commands::command_is))]
fn one_value(alloc: Global, command: &Command) -> Result<Value, AllocError>
    ensures { IfOk result (λ v. view v ≡ edit_data (one_command command.now)) }
{
    command_value(alloc, command)
}

// The canonical objects of commands, one after another.
fn commands_value(alloc: Global, commands: &[Command]) -> Result<Value, AllocError>
    ensures { IfOk result (λ v. view v ≡ commands_data commands.now) }
{
    let mut items = Vec::new(alloc);
    for command in commands {
        let value = command_value(alloc, command)?;
        items.push(value)?;
    }
    Ok(Value::Array(items))
}

fn transaction_value(alloc: Global, several: &Transaction) -> Result<Value, AllocError>
    ensures { IfOk result (λ v. view v ≡ edit_data (several_commands several.now)) }
{
    let edits = commands_value(alloc, several.commands())?;
    match several.note() {
        Some(note) => noted(alloc, &edits, note.as_str()),
        None => unnoted(alloc, &edits),
    }
}

/// The canonical object of an edit's request.
pub fn edit_value(alloc: Global, edit: &Edit) -> Result<Value, AllocError>
    ensures { IfOk result (λ v. view v ≡ edit_data edit.now) }
{
    match edit {
        Edit::Command(command) => one_value(alloc, command),
        Edit::Transaction(several) => transaction_value(alloc, several),
        Edit::Load(text) => loaded(alloc, text.as_str()),
    }
}

/// The compact text of a JSON value, which is read as the value.
pub fn line_of(alloc: Global, value: &Value) -> Result<String, AllocError>
    ensures text { IfOk result (λ s. has_float (view value.now) ≡ false → string_bytes s ≡ compact_text (view value.now)) }
    ensures read_back { IfOk result (λ s. depth (view value.now) ≤ max_depth → (is_utf8 (string_bytes s) ≡ true) ×
        (read (string_bytes s) ≡ Some (view value.now))) }
{
    let text = value.to_string(alloc)?;
    // For the proof: the text is UTF-8.
    let _line = text.as_str();
    Ok(text)
}

/// The canonical line of an edit's request, without a line end: compact JSON (RFC 8259) with every field, `map` of a new
/// domain too, keys ascending and literals canonical. It is UTF-8 that is read as its object.
pub fn edit_text(alloc: Global, edit: &Edit) -> Result<String, NoMemory>
    ensures text { IfOk result (λ s. string_bytes s ≡ edit_text edit.now) }
    ensures json { IfOk result (λ s. (is_utf8 (string_bytes s) ≡ true) × (read (string_bytes s) ≡ Some (edit_data edit.now))) }
{
    let value = edit_value(alloc, edit)?;
    match line_of(alloc, &value) {
        Ok(line) => Ok(line),
        Err(_) => Err(NoMemory),
    }
}
