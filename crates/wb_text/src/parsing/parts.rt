//! The parts of a line at the front of a text.
ghost use Rattle.std.specs.Prelude.{◌≡◌, ℕ, ◌≤◌, ◌<◌, length, position, take, drop, Some, None, IfOk, IfSome, codes, option_map, option_and_then};
ghost use Rattle.wb_text.specs.Parsed.Parts.{is_space, name_of, name_up_to, name_at, names_at, type_at, typed_at, ranges_at, layout_at, members_at};
ghost use Rattle.wb_literals.specs.Said.{items};
ghost use Rattle.wb_literals.specs.Limits.Literals.{listed_in};
ghost use Rattle.wb_text.specs.Parsed.Parts.{elements_at, last_integer_at, implicit_at};

use crate::number_list::NumberList;
use std::alloc::{AllocError, Global};
use wb_cells::{AnyLayout, AnyRect, KeyType, Name};
use wb_literals::limits::{domain_within, mapping_within};
use wb_literals::{SetLiteral, after, integer_at, integers_at, mapping_at, rectangle_at, set_at};

// The place of the first space.
fn space_in(bytes: &[u8]) -> Option<usize>
    ensures place { result ≡ position is_space bytes.now }
    ensures within { IfSome result (λ n. n < length bytes.now) }
{
    bytes.iter().position(|b| *b == b' ')
}

// The bytes as a name.
#[tactic(auto, using(crate::proofs::Parsed::Names::name_yes, crate::proofs::Parsed::Names::name_no))]
fn name_of(bytes: &[u8]) -> Option<Name>
    ensures { result ≡ name_of bytes.now }
{
    match std::str::from_utf8(bytes) {
        Ok(text) => match Name::new(text) {
            Ok(name) => Some(name),
            Err(_) => None,
        },
        Err(_) => None,
    }
}

// The name that ends at this place.
fn name_up_to(bytes: &[u8], n: usize) -> Option<(Name, &[u8])>
    requires { n < length bytes.now }
    ensures { option_map (λ x. (x.0, x.1.now)) result ≡ name_up_to bytes.now n }
{
    let (front, rest) = bytes.split_at(n);
    let name = name_of(front)?;
    Some((name, rest))
}

/// A name up to the first space.
pub(crate) fn name_at(bytes: &[u8]) -> Option<(Name, &[u8])>
    ensures { option_map (λ x. (x.0, x.1.now)) result ≡ name_at bytes.now }
{
    let n = space_in(bytes)?;
    name_up_to(bytes, n)
}

/// A name, a word and a further name.
pub(crate) fn names_at<'a>(word: &[u8], bytes: &'a [u8]) -> Option<(Name, Name, &'a [u8])>
    ensures { option_map (λ x. (x.0, x.1, x.2.now)) result ≡ names_at word.now bytes.now }
{
    let Some((first, rest)) = name_at(bytes) else {
        return None;
    };
    let rest = after(word, rest)?;
    let Some((second, rest)) = name_at(rest) else {
        return None;
    };
    Some((first, second, rest))
}

fn type_at(bytes: &[u8]) -> Option<(KeyType, &[u8])>
    ensures { option_map (λ x. (x.0, x.1.now)) result ≡ type_at bytes.now }
{
    if let Some(rest) = after(b"int", bytes) {
        return Some((KeyType::Int, rest));
    }
    let rest = after(b"text", bytes)?;
    Some((KeyType::Text, rest))
}

/// A name and a type of indices.
pub(crate) fn typed_at(bytes: &[u8]) -> Option<(Name, KeyType, &[u8])>
    ensures { option_map (λ x. (x.0, x.1, x.2.now)) result ≡ typed_at bytes.now }
{
    let Some((name, rest)) = name_at(bytes) else {
        return None;
    };
    let rest = after(b" of ", rest)?;
    let (key, rest) = type_at(rest)?;
    Some((name, key, rest))
}

/// The ranges of a rectangle.
pub(crate) fn ranges_at(bytes: &[u8]) -> Option<(AnyRect, &[u8])>
    ensures { option_map (λ x. (x.0, x.1.now)) result ≡ ranges_at bytes.now }
{
    let literal = after(b" ", bytes)?;
    let (rectangle, rest) = rectangle_at(literal)?;
    let ranges = domain_within(&rectangle).ok()?;
    Some((ranges, rest))
}

/// A mapping.
pub(crate) fn layout_at(bytes: &[u8]) -> Option<(AnyLayout, &[u8])>
    ensures { option_map (λ x. (x.0, x.1.now)) result ≡ layout_at bytes.now }
{
    let literal = after(b" ", bytes)?;
    let (mapping, rest) = mapping_at(literal)?;
    let layout = mapping_within(&mapping).ok()?;
    Some((layout, rest))
}

/// A set of indices, and the end of the line.
pub(crate) fn members_at(
    alloc: Global,
    bytes: &[u8],
) -> Result<Option<(SetLiteral, &[u8])>, AllocError>
    ensures { IfOk result (λ r. option_map (λ x. (listed_in (items x.0), x.1.now)) r ≡ members_at bytes.now) }
{
    let literal = match after(b" ", bytes) {
        Some(literal) => literal,
        None => return Ok(None),
    };
    let (set, rest) = match set_at(alloc, literal)? {
        Some(read) => read,
        None => return Ok(None),
    };
    match after(b"\n", rest) {
        Some(rest) => Ok(Some((set, rest))),
        None => Ok(None),
    }
}

/// Integers in brackets.
pub(crate) fn elements_at(
    alloc: Global,
    bytes: &[u8],
) -> Result<Option<(NumberList, &[u8])>, AllocError>
    ensures { IfOk result (λ r. option_map (λ x. (x.0, x.1.now)) r ≡ elements_at bytes.now) }
{
    let literal = match after(b" ", bytes) {
        Some(literal) => literal,
        None => return Ok(None),
    };
    match integers_at(alloc, literal)? {
        Some((numbers, rest)) => Ok(Some((NumberList::of(alloc, numbers)?, rest))),
        None => Ok(None),
    }
}

fn last_integer_at(bytes: &[u8]) -> Option<(Option<i64>, &[u8])>
    ensures { option_map (λ x. (x.0, x.1.now)) result ≡ last_integer_at bytes.now }
{
    let (value, rest) = integer_at(bytes)?;
    let rest = after(b"\n", rest)?;
    Some((Some(value), rest))
}

/// An implicit value, where one is written, and the end of the line.
pub(crate) fn implicit_at(bytes: &[u8]) -> Option<(Option<i64>, &[u8])>
    ensures { option_map (λ x. (x.0, x.1.now)) result ≡ implicit_at bytes.now }
{
    if let Some(rest) = after(b" irv ", bytes) {
        return last_integer_at(rest);
    }
    let rest = after(b"\n", bytes)?;
    Some((None, rest))
}
