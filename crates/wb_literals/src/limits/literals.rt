//! Rectangle literals, and the limits of what they spell.
ghost use Rattle.std.specs.Prelude.{◌≡◌, ◌≤◌, ℕ, ℤ, List, length};
ghost use Rattle.wb_literals.specs.Limits.Literals.{stride_in, align_in, range_within, range_of, rectangle_within, domain_within};

use crate::limits::limit::LimitErr;
use crate::{RangeLiteral, RectangleLiteral, Stride, Upper};
use wb_cells::AnyRect;
use wb_range::{Range, RangeErr, counted};
use wb_rect::RectErr;

fn stride_in(stride: &Option<Stride>) -> i64
    ensures { result ≡ stride_in stride.now }
{
    match stride {
        None => 1,
        Some(stride) => stride.stride,
    }
}

fn align_in(stride: &Option<Stride>) -> Option<i64>
    ensures { result ≡ align_in stride.now }
{
    match stride {
        None => None,
        Some(stride) => stride.align,
    }
}

fn range_within(low: i64, high: i64, stride: i64, align: Option<i64>) -> Result<Range, LimitErr>
    ensures { result ≡ range_within (low, high) stride align }
{
    match Range::new(low, high, stride, align) {
        Ok(range) => Ok(range),
        Err(RangeErr::TooLarge) => Err(LimitErr::TooLarge),
        Err(RangeErr::ZeroStride) => Err(LimitErr::TooLarge),
    }
}

/// The range that a literal stands for, within its limits.
pub(crate) fn range_of(literal: &RangeLiteral) -> Result<Range, LimitErr>
    ensures { result ≡ range_of literal.now }
{
    let low = literal.low;
    let stride = stride_in(&literal.stride);
    let align = align_in(&literal.stride);
    match literal.upper {
        Upper::To(high) => range_within(low, high, stride, align),
        Upper::Below(high) => match high.checked_sub(1) {
            Some(last) => range_within(low, last, stride, align),
            None => Err(LimitErr::TooLarge),
        },
        Upper::Count(count) => match counted(low, count) {
            Ok(bounds) => range_within(bounds.0, bounds.1, stride, align),
            Err(RangeErr::TooLarge) => Err(LimitErr::TooLarge),
            Err(RangeErr::ZeroStride) => Err(LimitErr::TooLarge),
        },
    }
}

fn rectangle_within(ranges: &[Range]) -> Result<AnyRect, LimitErr>
    requires low { 1 ≤ length ranges.now }
    requires high { length ranges.now ≤ 3 }
    ensures { result ≡ rectangle_within ranges.now }
{
    match AnyRect::from_ranges(ranges) {
        Ok(domain) => Ok(domain),
        Err(RectErr::TooLarge) => Err(LimitErr::TooLarge),
        Err(RectErr::Strided) => Err(LimitErr::TooLarge),
    }
}

/// The domain that a literal stands for, within all limits.
pub fn domain_within(literal: &RectangleLiteral) -> Result<AnyRect, LimitErr>
    ensures { result ≡ domain_within literal.now }
{
    match literal {
        RectangleLiteral::Rank1(first) => {
            let first = range_of(first)?;
            rectangle_within(&[first])
        }
        RectangleLiteral::Rank2(first, second) => {
            let first = range_of(first)?;
            let second = range_of(second)?;
            rectangle_within(&[first, second])
        }
        RectangleLiteral::Rank3(first, second, third) => {
            let first = range_of(first)?;
            let second = range_of(second)?;
            let third = range_of(third)?;
            rectangle_within(&[first, second, third])
        }
    }
}
