//! The points of rectangles.

ghost use Rattle.std.specs.Prelude.{◌≡◌, ◌≢◌, ◌<◌, ◌≤◌, Bool, Some, length, slice_get};
ghost use Rattle.std.specs.List.{list_any};
ghost use Rattle.std.specs.List.Sorted.{IsStrictlySortedBy};
ghost use Rattle.wb_cells.specs.Ranks.{ranges_of};
ghost use Rattle.wb_footprints.specs.Points.{Coordinates, point_cmp, in_points};
ghost use Rattle.wb_rect.specs.Product.{product};

use wb_cells::{AnyRect, Point, Ranked};
use wb_range::Domain;
use wb_rect::Rect;

/// The rectangle of the same indices whose ranges go upward, so that its points ascend.
pub(crate) fn upward(ranked: &Ranked) -> AnyRect
    ensures ascending { IsStrictlySortedBy point_cmp (product result) }
    ensures alike { (f : Coordinates → Bool) → list_any f (product result) ≡ list_any f (product (ranges_of ranked.now)) }
{
    match ranked {
        Ranked::Rank1(rect) => AnyRect::line(upward_in(rect)),
        Ranked::Rank2(rect) => AnyRect::plane(upward_in(rect)),
        Ranked::Rank3(rect) => AnyRect::solid(upward_in(rect)),
    }
}

// The rectangle of one rank that has the same indices and whose ranges go upward, so that its points ascend.
fn upward_in<const R: usize>(rect: &Rect<R>) -> Rect<R>
    ensures ascending { IsStrictlySortedBy point_cmp (product result) }
    ensures alike { (f : Coordinates → Bool) → list_any f (product result) ≡ list_any f (product rect.now) }
{
    rect.slice(rect)
}

/// How many points a rectangle has.
pub(crate) fn count_in(ranked: &Ranked) -> usize
    ensures { result ≡ length (product (ranges_of ranked.now)) }
{
    match ranked {
        Ranked::Rank1(rect) => rect.size(),
        Ranked::Rank2(rect) => rect.size(),
        Ranked::Rank3(rect) => rect.size(),
    }
}

/// The point at a place of a rectangle.
pub(crate) fn point_in(ranked: &Ranked, at: usize) -> Point
    requires { at < length (product (ranges_of ranked.now)) }
    ensures { slice_get (product (ranges_of ranked.now)) at ≡ Some result }
{
    match ranked {
        Ranked::Rank1(rect) => point_at(rect, at),
        Ranked::Rank2(rect) => point_at(rect, at),
        Ranked::Rank3(rect) => point_at(rect, at),
    }
}

// The point at a place of a rectangle of one rank.
fn point_at<const R: usize>(rect: &Rect<R>, at: usize) -> Point
    requires within { at < length (product rect.now) }
    requires rank { R ≤ 3 }
    ensures { slice_get (product rect.now) at ≡ Some result }
{
    match rect.nth(at) {
        Some(index) => Point::of(&index),
        None => unreachable!(),
    }
}

/// Whether two rectangles have a point in common: by their ranges, with no pass over the points.
pub(crate) fn have_common(ranked: &Ranked, other: &Ranked) -> bool
    ensures { result ≡ list_any (in_points (product (ranges_of ranked.now))) (product (ranges_of other.now)) }
{
    match ranked {
        Ranked::Rank1(rect) => match other {
            Ranked::Rank1(by) => have_common_in(rect, by),
            Ranked::Rank2(by) => have_common_across(rect, by),
            Ranked::Rank3(by) => have_common_across(rect, by),
        },
        Ranked::Rank2(rect) => match other {
            Ranked::Rank1(by) => have_common_across(rect, by),
            Ranked::Rank2(by) => have_common_in(rect, by),
            Ranked::Rank3(by) => have_common_across(rect, by),
        },
        Ranked::Rank3(rect) => match other {
            Ranked::Rank1(by) => have_common_across(rect, by),
            Ranked::Rank2(by) => have_common_across(rect, by),
            Ranked::Rank3(by) => have_common_in(rect, by),
        },
    }
}

// Whether two rectangles of one rank have a point in common.
fn have_common_in<const R: usize>(rect: &Rect<R>, other: &Rect<R>) -> bool
    ensures { result ≡ list_any (in_points (product rect.now)) (product other.now) }
{
    rect.slice(other).nth(0).is_some()
}

// Whether two rectangles of different ranks have a point in common, which they never have.
fn have_common_across<const R: usize, const S: usize>(rect: &Rect<R>, other: &Rect<S>) -> bool
    requires { R ≢ S }
    ensures { result ≡ list_any (in_points (product rect.now)) (product other.now) }
{
    // For the proof: each rectangle has as many ranges as its rank says.
    let _rank = rect.rank();
    let _other = other.rank();
    false
}
