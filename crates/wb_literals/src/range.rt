// Ranges.
ghost use Rattle.std.specs.Prelude.{◌≡◌, ℕ, ℤ, List, Some, None, codes, option_map, option_and_then};
ghost use Rattle.wb_literals.specs.Range.{upper_at, align_at, nonzero_at, stride_at, range_at};

use crate::integer::{integer_at, natural_at};
use crate::tokens::{after_token, after_word, skip_spaces};

/// How far a range goes.
#[derive(Clone, Copy, Debug, PartialEq, Eq)]
pub enum Upper {
    To(i64),
    Below(i64),
    Count(u64),
}

/// A stride, and an alignment where there is one.
#[derive(Clone, Copy, Debug, PartialEq, Eq)]
pub struct Stride {
    pub stride: i64,
    pub align: Option<i64>,
}

/// A range as it is spelled.
#[derive(Clone, Copy, Debug, PartialEq, Eq)]
pub struct RangeLiteral {
    pub low: i64,
    pub upper: Upper,
    pub stride: Option<Stride>,
}

fn upper_at(bytes: &[u8]) -> Option<(Upper, &[u8])>
    ensures { option_map (λ x. (x.0, x.1.now)) result ≡ upper_at bytes.now }
{
    if let Some(rest) = after_token(b"..<", bytes) {
        let (bound, rest) = integer_at(rest)?;
        return Some((Upper::Below(bound), rest));
    }
    if let Some(rest) = after_token(b"..#", bytes) {
        let (count, rest) = natural_at(rest)?;
        return Some((Upper::Count(count), rest));
    }
    let rest = after_token(b"..", bytes)?;
    let (bound, rest) = integer_at(rest)?;
    Some((Upper::To(bound), rest))
}

// After a stride, an alignment where there is one.
fn align_at(stride: i64, bytes: &[u8]) -> Option<(Option<Stride>, &[u8])>
    ensures { option_map (λ x. (x.0, x.1.now)) result ≡ align_at stride bytes.now }
{
    if let Some(rest) = after_word(b"align", bytes) {
        let (align, rest) = integer_at(rest)?;
        let align = Some(align);
        return Some((Some(Stride { stride, align }), rest));
    }
    let align = None;
    Some((Some(Stride { stride, align }), bytes))
}

fn nonzero_at(bytes: &[u8]) -> Option<(i64, &[u8])>
    ensures { option_map (λ x. (x.0, x.1.now)) result ≡ nonzero_at bytes.now }
{
    let (number, rest) = integer_at(bytes)?;
    if number == 0 {
        None
    } else {
        Some((number, rest))
    }
}

fn stride_at(bytes: &[u8]) -> Option<(Option<Stride>, &[u8])>
    ensures { option_map (λ x. (x.0, x.1.now)) result ≡ stride_at bytes.now }
{
    if let Some(rest) = after_word(b"by", bytes) {
        let (stride, rest) = nonzero_at(rest)?;
        return align_at(stride, rest);
    }
    Some((None, bytes))
}

/// The range at the front, and what follows it.
pub fn range_at(bytes: &[u8]) -> Option<(RangeLiteral, &[u8])>
    ensures { option_map (λ x. (x.0, x.1.now)) result ≡ range_at bytes.now }
{
    let (low, rest) = integer_at(bytes)?;
    let (upper, rest) = upper_at(skip_spaces(rest))?;
    let (stride, rest) = stride_at(rest)?;
    Some((RangeLiteral { low, upper, stride }, rest))
}
