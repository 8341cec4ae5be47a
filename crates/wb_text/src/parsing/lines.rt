//! The lines of objects at the front of a text.
ghost use Rattle.std.specs.Prelude.{◌≡◌, map, Some, None, IfOk, codes, option_map, option_and_then, bytes_eq};
ghost use Rattle.wb_text.specs.Said.{line_of};
ghost use Rattle.wb_text.specs.Parsed.Lines.{rectangular_at, sparse_at, associative_at, array_at, line_at, is_end, lines_at, lines_of};

use crate::ObjectLine;
use crate::parsing::parts::{
    elements_at, implicit_at, layout_at, members_at, name_at, names_at, ranges_at, typed_at,
};
use std::alloc::{AllocError, Global};
use wb_literals::after;

// A rectangular domain: its name, its ranges and its mapping.
fn rectangular_at(bytes: &[u8]) -> Option<(ObjectLine, &[u8])>
    ensures { option_map (λ x. (line_of x.0, x.1.now)) result ≡ rectangular_at bytes.now }
{
    let Some((name, rest)) = name_at(bytes) else {
        return None;
    };
    let Some((ranges, rest)) = ranges_at(rest) else {
        return None;
    };
    let Some((layout, rest)) = layout_at(rest) else {
        return None;
    };
    let rest = after(b"\n", rest)?;
    Some((ObjectLine::Rectangular(name, ranges, layout), rest))
}

// A sparse domain: its name, its parent and its indices.
fn sparse_at(alloc: Global, bytes: &[u8]) -> Result<Option<(ObjectLine, &[u8])>, AllocError>
    ensures { IfOk result (λ r. option_map (λ x. (line_of x.0, x.1.now)) r ≡ sparse_at bytes.now) }
{
    let (name, parent, rest) = match names_at(b" of ", bytes) {
        Some(read) => read,
        None => return Ok(None),
    };
    match members_at(alloc, rest)? {
        Some((set, rest)) => Ok(Some((ObjectLine::Sparse(name, parent, set), rest))),
        None => Ok(None),
    }
}

// An associative domain: its name, its type and its indices.
fn associative_at(alloc: Global, bytes: &[u8]) -> Result<Option<(ObjectLine, &[u8])>, AllocError>
    ensures { IfOk result (λ r. option_map (λ x. (line_of x.0, x.1.now)) r ≡ associative_at bytes.now) }
{
    let (name, key, rest) = match typed_at(bytes) {
        Some(read) => read,
        None => return Ok(None),
    };
    match members_at(alloc, rest)? {
        Some((set, rest)) => Ok(Some((ObjectLine::Associative(name, key, set), rest))),
        None => Ok(None),
    }
}

// An array: its name, its domain, its elements and its implicit value, where one is written.
fn array_at(alloc: Global, bytes: &[u8]) -> Result<Option<(ObjectLine, &[u8])>, AllocError>
    ensures { IfOk result (λ r. option_map (λ x. (line_of x.0, x.1.now)) r ≡ array_at bytes.now) }
{
    let (name, domain, rest) = match names_at(b" over ", bytes) {
        Some(read) => read,
        None => return Ok(None),
    };
    let (elements, rest) = match elements_at(alloc, rest)? {
        Some(read) => read,
        None => return Ok(None),
    };
    match implicit_at(rest) {
        Some((implicit, rest)) => {
            let line = ObjectLine::Array(name, domain, elements, implicit);
            Ok(Some((line, rest)))
        }
        None => Ok(None),
    }
}

// The line at the front, by its first word.
fn line_at(alloc: Global, bytes: &[u8]) -> Result<Option<(ObjectLine, &[u8])>, AllocError>
    ensures { IfOk result (λ r. option_map (λ x. (line_of x.0, x.1.now)) r ≡ line_at bytes.now) }
{
    if let Some(rest) = after(b"rect ", bytes) {
        return Ok(rectangular_at(rest));
    }
    if let Some(rest) = after(b"sparse ", bytes) {
        return sparse_at(alloc, rest);
    }
    if let Some(rest) = after(b"assoc ", bytes) {
        return associative_at(alloc, rest);
    }
    match after(b"array ", bytes) {
        Some(rest) => array_at(alloc, rest),
        None => Ok(None),
    }
}

// The last line is all that is left.
fn is_end(bytes: &[u8]) -> bool
    ensures { result ≡ is_end bytes.now }
{
    bytes == b"end\n".as_slice()
}

/// All lines up to the last one, which says nothing. There are no more of them than bytes.
pub(crate) fn lines_of(alloc: Global, bytes: &[u8]) -> Result<Option<Vec<ObjectLine>>, AllocError>
    ensures { IfOk result (λ r. option_map (λ v. map line_of v.items) r ≡ lines_of bytes.now) }
{
    let mut lines = Vec::new(alloc);
    let mut rest = bytes;
    for _ in 0..bytes.len() {
        if is_end(rest) {
            return Ok(Some(lines));
        }
        let (line, behind) = match line_at(alloc, rest)? {
            Some(read) => read,
            None => return Ok(None),
        };
        lines.push(line)?;
        rest = behind;
    }
    Ok(None)
}
