//! The lines of objects, each put at the end of a text.
ghost use Rattle.std.specs.Prelude.{◌≡◌, ◌++◌, [], OnOk, string_bytes, unwrap_or};
ghost use Rattle.wb_text.specs.Literals.{rectangle_text};
ghost use Rattle.wb_text.specs.Lines.{rectangular_line, sparse_line, type_text, associative_line, implicit_text, array_line};

use crate::literals::{push_list, push_member_set};
use crate::mappings::{push_any_layout, push_any_rect};
use std::alloc::{AllocError, Global};
use std::fmt::Write;
use wb_cells::{AnyLayout, AnyRect, KeyType, MemberWalk, Name};

// The ranges of a rectangular domain in braces.
fn push_ranges(alloc: Global, out: &mut String, ranges: &Option<AnyRect>) -> Result<(), AllocError>
    ensures { OnOk result (string_bytes out.new ≡ string_bytes out.old ++ rectangle_text (unwrap_or ranges.now [])) }
{
    match ranges {
        None => out.push_str("{}"),
        Some(rect) => push_any_rect(alloc, out, rect),
    }
}

/// The line of a rectangular domain.
pub fn push_rectangular_line(
    alloc: Global,
    out: &mut String,
    domain: &Name,
    ranges: &Option<AnyRect>,
    layout: &AnyLayout,
) -> Result<(), AllocError>
    ensures { OnOk result (string_bytes out.new ≡ string_bytes out.old ++ rectangular_line domain.now (unwrap_or ranges.now []) layout.now) }
{
    let name = domain.as_str();
    write!(out, "rect {name} ")?;
    push_ranges(alloc, out, ranges)?;
    out.push_str(" ")?;
    push_any_layout(alloc, out, layout)?;
    out.push_str("\n")
}

/// The line of a sparse domain of the members that are left.
pub fn push_sparse_line(
    out: &mut String,
    domain: &Name,
    parent: &Name,
    members: &mut MemberWalk<'_>,
) -> Result<(), AllocError>
    ensures { OnOk result (string_bytes out.new ≡ string_bytes out.old ++ sparse_line domain.now parent.now members.old) }
{
    let name = domain.as_str();
    let within = parent.as_str();
    write!(out, "sparse {name} of {within} ")?;
    push_member_set(out, members)?;
    out.push_str("\n")
}

fn type_text(key: KeyType) -> &'static str
    ensures { result.now ≡ type_text key }
{
    match key {
        KeyType::Int => "int",
        KeyType::Text => "text",
    }
}

/// The line of an associative domain of the members that are left.
pub fn push_associative_line(
    out: &mut String,
    domain: &Name,
    key: KeyType,
    members: &mut MemberWalk<'_>,
) -> Result<(), AllocError>
    ensures { OnOk result (string_bytes out.new ≡ string_bytes out.old ++ associative_line domain.now key members.old) }
{
    let name = domain.as_str();
    let kind = type_text(key);
    write!(out, "assoc {name} of {kind} ")?;
    push_member_set(out, members)?;
    out.push_str("\n")
}

// The implicit value, where it is written.
fn push_implicit(out: &mut String, implicit: Option<i64>) -> Result<(), AllocError>
    ensures { OnOk result (string_bytes out.new ≡ string_bytes out.old ++ implicit_text implicit) }
{
    match implicit {
        None => Ok(()),
        Some(value) => write!(out, " irv {value}"),
    }
}

/// The line of an array.
pub fn push_array_line(
    out: &mut String,
    array: &Name,
    domain: &Name,
    elements: &[i64],
    implicit: Option<i64>,
) -> Result<(), AllocError>
    ensures { OnOk result (string_bytes out.new ≡ string_bytes out.old ++ array_line array.now domain.now elements.now implicit) }
{
    let name = array.as_str();
    let over = domain.as_str();
    write!(out, "array {name} over {over} ")?;
    push_list(out, elements)?;
    push_implicit(out, implicit)?;
    out.push_str("\n")
}
