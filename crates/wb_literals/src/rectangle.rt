// Rectangles: 1 to 3 ranges in braces.
ghost use Rattle.std.specs.Prelude.{◌≡◌, ◌↔◌, ℕ, List, Some, None, codes, option_map, option_and_then};
ghost use Rattle.wb_literals.specs.Rectangle.{next_range_at, third_range_at, second_range_at, rectangle_at, rectangle_of};
ghost use Rattle.wb_literals.specs.Grammar.{IsRectangle};
ghost use Rattle.wb_literals.specs.declared.rectangle.RectangleLiteral.{RectangleLiteral};

use crate::range::{RangeLiteral, range_at};
use crate::tokens::{after_token, close_at, comma_at};

/// A rectangle as it is spelled, of rank 1, 2 or 3.
#[derive(Clone, Copy, Debug, PartialEq, Eq)]
pub enum RectangleLiteral {
    Rank1(RangeLiteral),
    Rank2(RangeLiteral, RangeLiteral),
    Rank3(RangeLiteral, RangeLiteral, RangeLiteral),
}

fn next_range_at(bytes: &[u8]) -> Option<(RangeLiteral, &[u8])>
    ensures { option_map (λ x. (x.0, x.1.now)) result ≡ next_range_at bytes.now }
{
    let rest = comma_at(bytes)?;
    range_at(rest)
}

fn third_range_at(
    a: RangeLiteral,
    b: RangeLiteral,
    bytes: &[u8],
) -> Option<(RectangleLiteral, &[u8])>
    ensures { option_map (λ x. (x.0, x.1.now)) result ≡ third_range_at a b bytes.now }
{
    if let Some((c, rest)) = next_range_at(bytes) {
        let rest = close_at(b"}", rest)?;
        return Some((RectangleLiteral::Rank3(a, b, c), rest));
    }
    let rest = close_at(b"}", bytes)?;
    Some((RectangleLiteral::Rank2(a, b), rest))
}

fn second_range_at(a: RangeLiteral, bytes: &[u8]) -> Option<(RectangleLiteral, &[u8])>
    ensures { option_map (λ x. (x.0, x.1.now)) result ≡ second_range_at a bytes.now }
{
    if let Some((b, rest)) = next_range_at(bytes) {
        return third_range_at(a, b, rest);
    }
    let rest = close_at(b"}", bytes)?;
    Some((RectangleLiteral::Rank1(a), rest))
}

/// The rectangle at the front, and what follows it.
pub fn rectangle_at(bytes: &[u8]) -> Option<(RectangleLiteral, &[u8])>
    ensures { option_map (λ x. (x.0, x.1.now)) result ≡ rectangle_at bytes.now }
{
    let inside = after_token(b"{", bytes)?;
    let (a, rest) = range_at(inside)?;
    second_range_at(a, rest)
}

// The rectangle that all of the bytes spell.
fn whole_rectangle(bytes: &[u8]) -> Option<RectangleLiteral>
    ensures { result ≡ rectangle_of bytes.now }
{
    let (rectangle, rest) = rectangle_at(bytes)?;
    if rest.len() == 0 {
        Some(rectangle)
    } else {
        None
    }
}

/// The rectangle that a text spells: 1 to 3 ranges in braces. A text is read just where the grammar
/// spells the rectangle by it.
pub fn read_rectangle(text: &str) -> Option<RectangleLiteral>
    ensures value { result ≡ rectangle_of text.now }
    ensures spelling { (r : RectangleLiteral) → (result ≡ Some r) ↔ IsRectangle text.now r }
{
    whole_rectangle(text.as_bytes())
}
