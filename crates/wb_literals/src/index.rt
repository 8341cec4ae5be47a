// Indices and grids.
ghost use Rattle.std.specs.Prelude.{◌≡◌, ℕ, ℤ, List, Some, None, codes, option_map, option_and_then};
ghost use Rattle.wb_literals.specs.Index.{next_integer_at, third_place_at, tuple_at, index_at, third_extent_at, second_extent_at, grid_at};

use crate::integer::integer_at;
use crate::tokens::{after_token, close_at, comma_at};

/// An index of numbers as it is spelled, of rank 1, 2 or 3.
#[derive(Clone, Copy, Debug, PartialEq, Eq)]
pub enum IndexLiteral {
    /// `i`
    Integer(i64),
    /// `(i, j)`
    Pair(i64, i64),
    /// `(i, j, k)`
    Triple(i64, i64, i64),
}

/// A grid of locales as it is spelled, of rank 1, 2 or 3.
#[derive(Clone, Copy, Debug, PartialEq, Eq)]
pub enum GridLiteral {
    /// `[n]`
    Rank1(i64),
    /// `[n, m]`
    Rank2(i64, i64),
    /// `[n, m, l]`
    Rank3(i64, i64, i64),
}

// A further integer, after a comma.
fn next_integer_at(bytes: &[u8]) -> Option<(i64, &[u8])>
    ensures { option_map (λ x. (x.0, x.1.now)) result ≡ next_integer_at bytes.now }
{
    let rest = comma_at(bytes)?;
    integer_at(rest)
}

fn third_place_at(i: i64, j: i64, bytes: &[u8]) -> Option<(IndexLiteral, &[u8])>
    ensures { option_map (λ x. (x.0, x.1.now)) result ≡ third_place_at i j bytes.now }
{
    if let Some((k, rest)) = next_integer_at(bytes) {
        let rest = close_at(b")", rest)?;
        return Some((IndexLiteral::Triple(i, j, k), rest));
    }
    let rest = close_at(b")", bytes)?;
    Some((IndexLiteral::Pair(i, j), rest))
}

// What follows an open parenthesis.
fn tuple_at(bytes: &[u8]) -> Option<(IndexLiteral, &[u8])>
    ensures { option_map (λ x. (x.0, x.1.now)) result ≡ tuple_at bytes.now }
{
    let (i, rest) = integer_at(bytes)?;
    let (j, rest) = next_integer_at(rest)?;
    third_place_at(i, j, rest)
}

/// The index at the front, and what follows it.
pub fn index_at(bytes: &[u8]) -> Option<(IndexLiteral, &[u8])>
    ensures { option_map (λ x. (x.0, x.1.now)) result ≡ index_at bytes.now }
{
    if let Some(rest) = after_token(b"(", bytes) {
        return tuple_at(rest);
    }
    let (i, rest) = integer_at(bytes)?;
    Some((IndexLiteral::Integer(i), rest))
}

fn third_extent_at(i: i64, j: i64, bytes: &[u8]) -> Option<(GridLiteral, &[u8])>
    ensures { option_map (λ x. (x.0, x.1.now)) result ≡ third_extent_at i j bytes.now }
{
    if let Some((k, rest)) = next_integer_at(bytes) {
        let rest = close_at(b"]", rest)?;
        return Some((GridLiteral::Rank3(i, j, k), rest));
    }
    let rest = close_at(b"]", bytes)?;
    Some((GridLiteral::Rank2(i, j), rest))
}

fn second_extent_at(i: i64, bytes: &[u8]) -> Option<(GridLiteral, &[u8])>
    ensures { option_map (λ x. (x.0, x.1.now)) result ≡ second_extent_at i bytes.now }
{
    if let Some((j, rest)) = next_integer_at(bytes) {
        return third_extent_at(i, j, rest);
    }
    let rest = close_at(b"]", bytes)?;
    Some((GridLiteral::Rank1(i), rest))
}

/// The grid at the front, and what follows it.
pub fn grid_at(bytes: &[u8]) -> Option<(GridLiteral, &[u8])>
    ensures { option_map (λ x. (x.0, x.1.now)) result ≡ grid_at bytes.now }
{
    let inside = after_token(b"[", bytes)?;
    let (i, rest) = integer_at(inside)?;
    second_extent_at(i, rest)
}
