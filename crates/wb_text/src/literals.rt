//! Canonical literals, each put at the end of a text.
ghost use Rattle.std.specs.Prelude.{◌≡◌, ◌++◌, OnOk, string_bytes};
ghost use Rattle.wb_text.specs.Literals.{written_stride, text_of_range, rectangle_text, point_text, index_text, set_text, integers_text};

use crate::lists::{push_indices, push_integers, push_members, push_ranges};
use std::alloc::AllocError;
use std::fmt::Write;
use wb_cells::{AnyIndex, Index, MemberWalk};
use wb_range::Range;

// The stride, if it is written.
fn written_stride(stride: i64) -> Option<i64>
    ensures { result ≡ written_stride stride }
{
    if stride == 1 { None } else { Some(stride) }
}

/// The text of a range: its bounds, and its stride where it is not 1.
pub(crate) fn push_range(out: &mut String, range: &Range) -> Result<(), AllocError>
    ensures { OnOk result (string_bytes out.new ≡ string_bytes out.old ++ text_of_range range.now) }
{
    let (low, high) = range.bounds();
    match written_stride(range.stride()) {
        None => write!(out, "{low}..{high}"),
        Some(stride) => write!(out, "{low}..{high} by {stride}"),
    }
}

/// The text of the rectangle of these ranges.
pub(crate) fn push_rectangle(out: &mut String, ranges: &[Range]) -> Result<(), AllocError>
    ensures { OnOk result (string_bytes out.new ≡ string_bytes out.old ++ rectangle_text ranges.now) }
{
    out.push_str("{")?;
    push_ranges(out, ranges)?;
    out.push_str("}")
}

/// The text of an index by its coordinates: an integer alone, or several in parentheses.
#[tactic(auto, unfolding(crate::specs::Literals::point_text))]
pub(crate) fn push_point(out: &mut String, coordinates: &[i64]) -> Result<(), AllocError>
    ensures { OnOk result (string_bytes out.new ≡ string_bytes out.old ++ point_text coordinates.now) }
{
    match coordinates {
        [only] => write!(out, "{only}"),
        several => {
            out.push_str("(")?;
            push_integers(out, several)?;
            out.push_str(")")
        }
    }
}

/// The text of an index.
pub(crate) fn push_index(out: &mut String, index: &AnyIndex) -> Result<(), AllocError>
    ensures { OnOk result (string_bytes out.new ≡ string_bytes out.old ++ index_text index.now) }
{
    match index.index() {
        Index::Point(point) => push_point(out, point.coordinates()),
        Index::Text(label) => {
            out.push_str("\"")?;
            out.push_str(label.as_str())?;
            out.push_str("\"")
        }
    }
}

/// The text of a set, its indices in this order.
pub fn push_set(out: &mut String, indices: &[AnyIndex]) -> Result<(), AllocError>
    ensures { OnOk result (string_bytes out.new ≡ string_bytes out.old ++ set_text indices.now) }
{
    out.push_str("{")?;
    push_indices(out, indices)?;
    out.push_str("}")
}

/// The text of the set of the members that are left. No list is made of them.
pub(crate) fn push_member_set(
    out: &mut String,
    members: &mut MemberWalk<'_>,
) -> Result<(), AllocError>
    ensures { OnOk result (string_bytes out.new ≡ string_bytes out.old ++ set_text members.old) }
{
    out.push_str("{")?;
    push_members(out, members)?;
    out.push_str("}")
}

/// Integers in brackets.
pub(crate) fn push_list(out: &mut String, integers: &[i64]) -> Result<(), AllocError>
    ensures { OnOk result (string_bytes out.new ≡ string_bytes out.old ++ integers_text integers.now) }
{
    out.push_str("[")?;
    push_integers(out, integers)?;
    out.push_str("]")
}
