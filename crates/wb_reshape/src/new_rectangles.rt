//! Which indices a rectangle loses, and rectangles displaced by offsets.

ghost use Rattle.std.specs.Prelude.{◌≡◌, ◌↔◌, [], ◌∷◌, ◌++◌, true, false, length, IfOk, OnOk};
ghost use Rattle.wb_cells.specs.Shapes.{indices};
ghost use Rattle.wb_range.specs.Domain.{IsListedOnce};
ghost use Rattle.wb_rect.specs.ShiftTests.{has_unit_strides};
ghost use Rattle.wb_reshape.specs.Resized.{without};
ghost use Rattle.wb_reshape.specs.Sources.{displaced, can_displace};

use crate::new_indices::Displacement;
use std::alloc::Global;
use wb_cells::{AnyIndex, AnyRect, Point};
use wb_range::NoMemory;
use wb_rect::RectErr;

/// The indices of the old rectangle that are not in the new one, in row-major order.
pub fn left_out(alloc: Global, new: &AnyRect, old: &AnyRect) -> Result<Vec<AnyIndex>, NoMemory>
    ensures same { IfOk result (λ v. v.items ≡ without (indices new.now) (indices old.now)) }
    ensures once { IfOk result (λ v. IsListedOnce v.items) }
{
    let mut left = Vec::new(alloc);
    for p in 0..old.size() {
        if let Some(index) = old.nth(p) {
            push_outside(&mut left, new, index)?;
        }
    }
    Ok(left)
}

// Appends the index where it is not in the rectangle.
fn push_outside(
    left: &mut Vec<AnyIndex>,
    rectangle: &AnyRect,
    index: AnyIndex,
) -> Result<(), NoMemory>
    ensures { OnOk result (left.new.items ≡ left.old.items ++ without (indices rectangle.now) (index ∷ [])) }
{
    if !rectangle.contains(&index) {
        left.push(index)?;
    }
    Ok(())
}

/// A rectangle with each range displaced by the offset of its dimension (Chapel Language Specification, Domains:
/// `translate` and `expand`).
///
/// Fails with `Strided` where a range has another stride than 1, and else with `TooLarge` where a bound or the count of a
/// resulting range that isn't empty, or the size, is past its limit.
pub fn displaced(by: Displacement, offsets: &Point, ranges: &AnyRect) -> Result<AnyRect, RectErr>
    requires { length offsets.now ≡ length ranges.now }
    ensures ok { IfOk result (λ r. r ≡ displaced by offsets.now ranges.now) }
    ensures within { OnOk result ((has_unit_strides ranges.now ≡ true) × (can_displace by offsets.now ranges.now ≡ true)) }
    ensures strided { (result ≡ Err RectErr.Strided) ↔ (has_unit_strides ranges.now ≡ false) }
    ensures too_large { (result ≡ Err RectErr.TooLarge) ↔
        ((has_unit_strides ranges.now ≡ true) × (can_displace by offsets.now ranges.now ≡ false)) }
{
    match by {
        Displacement::Translate => ranges.translate(offsets.coordinates()),
        Displacement::Expand => ranges.expand(offsets.coordinates()),
    }
}
