// Lists of integers.
ghost use Rattle.std.specs.Prelude.{◌≡◌, ℕ, ℤ, List, [], Option, Some, None, IfOk, codes, option_map, option_and_then};
ghost use Rattle.wb_literals.specs.Integers.{filled_at, integers_at};

use crate::set::items_at;
use crate::tokens::{after, after_token, close_at};
use std::alloc::{AllocError, Global};

// One or more integers and the closing bracket.
fn filled_at(alloc: Global, bytes: &[u8]) -> Result<Option<(Vec<i64>, &[u8])>, AllocError>
    ensures { IfOk result (λ r. option_map (λ x. (x.0.items, x.1.now)) r ≡ filled_at bytes.now) }
{
    let (items, rest) = match items_at(alloc, bytes)? {
        Some(read) => read,
        None => return Ok(None),
    };
    match close_at(b"]", rest) {
        Some(rest) => Ok(Some((items, rest))),
        None => Ok(None),
    }
}

/// The list of integers in brackets at the front, and what follows it.
pub fn integers_at(alloc: Global, bytes: &[u8]) -> Result<Option<(Vec<i64>, &[u8])>, AllocError>
    ensures { IfOk result (λ r. option_map (λ x. (x.0.items, x.1.now)) r ≡ integers_at bytes.now) }
{
    let inside = match after_token(b"[", bytes) {
        Some(inside) => inside,
        None => return Ok(None),
    };
    match after(b"]", inside) {
        Some(rest) => Ok(Some((Vec::new(alloc), rest))),
        None => filled_at(alloc, inside),
    }
}
