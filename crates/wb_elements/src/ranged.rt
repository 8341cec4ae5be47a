//! Whether elements stand at the indices of a rectangle, and where.

ghost use Rattle.std.specs.Prelude.{◌≡◌, Some, true, length};
ghost use Rattle.std.specs.List.{slice_get};
ghost use Rattle.std.specs.Map.{keys_of};
ghost use Rattle.wb_cells.specs.Shapes.{indices};

use wb_cells::{AnyIndex, AnyRect, Ranked, coordinates_of};
use wb_rect::Rect;

/// Whether pairs stand at the indices of a rectangle, one after another.
pub(crate) fn are_at(pairs: &[(AnyIndex, i64)], ranges: &AnyRect) -> bool
    ensures { result ≡ true → keys_of pairs.now ≡ indices ranges.now }
{
    if pairs.len() != ranges.size() {
        return false;
    }
    for at in 0..pairs.len() {
        if !stands_at(ranges, at, &pairs[at].0) {
            return false;
        }
    }
    true
}

// Whether the index at a place of a rectangle is this one.
fn stands_at(ranges: &AnyRect, at: usize, index: &AnyIndex) -> bool
    ensures { result ≡ true → slice_get (indices ranges.now) at ≡ Some index.now }
{
    match ranges.nth(at) {
        Some(found) => found.is_same(index),
        None => false,
    }
}

/// The place of an index among those of a rectangle, one after another. It is where to look first, and nothing rests on it: 0 where
/// the index is none of them.
pub(crate) fn likely_place(ranges: &AnyRect, index: &AnyIndex) -> usize {
    match ranges.ranked() {
        Ranked::Rank1(rect) => place_on(&rect, index),
        Ranked::Rank2(rect) => place_on(&rect, index),
        Ranked::Rank3(rect) => place_on(&rect, index),
    }
}

fn place_on<const R: usize>(rect: &Rect<R>, index: &AnyIndex) -> usize {
    match coordinates_of::<R>(index) {
        None => 0,
        Some(coordinates) => place_of(rect, &coordinates),
    }
}

// In row-major order: the place of a coordinate in its range counts the indices of the ranges behind it.
fn place_of<const R: usize>(rect: &Rect<R>, coordinates: &[i64; R]) -> usize {
    let mut place: usize = 0;
    for dimension in 0..R {
        if let Some(range) = rect.range(dimension) {
            let steps = range.place_of(coordinates[dimension]).unwrap_or(0);
            place = place.saturating_mul(range.count()).saturating_add(steps);
        }
    }
    place
}
