//! Points in ascending order.

ghost use Rattle.std.specs.Prelude.{◌≡◌, ℕ, ◌+◌, ◌-◌, ◌<◌, ◌≤◌, Bool, [], ◌∷◌, true, false, Some, IsTrue, IfSome, length, slice_get, slice_index_or};
ghost use Rattle.std.specs.List.{list_all, list_any};
ghost use Rattle.std.specs.List.Sorted.{IsStrictlySortedBy};
ghost use Rattle.std.specs.declared.cmp.Ordering.TheVariants.{Less};
ghost use Rattle.wb_footprints.specs.Keys.{key_of};
ghost use Rattle.wb_footprints.specs.Points.{Coordinates, point_cmp, in_points};
ghost use Rattle.wb_rect.specs.Product.{product};

use crate::places::areas::{count_in, have_common, point_in, upward};
use crate::places::keys::key_of;
use std::alloc::Global;
use std::marker::Model;
use wb_cells::{AnyIndex, AnyRect, Index, Point};

/// How points are kept.
#[derive(Drop)]
pub enum Held {
    /// One by one.
    Listed(Vec<Point>),
    /// As the indices of a rectangle whose ranges go upward, by its ranges alone.
    Within(AnyRect),
    /// One point alone.
    One(Point),
}

/// Points of which each is below the next. Contracts see the list of them.
#[derive(Drop)]
pub struct Points {
    held: Held,
}

impl Model for Points {
    ghost use Rattle.std.specs.Prelude.{List};
    ghost use Rattle.std.specs.List.Sorted.{IsStrictlySortedBy};
    ghost use Rattle.wb_footprints.specs.Held.{points_of};
    ghost use Rattle.wb_footprints.specs.Points.{Coordinates, point_cmp};

    ghost Value = { List Coordinates };

    ghost view = { λ a. points_of a.held };

    ghost invariant = { λ a. IsStrictlySortedBy point_cmp (points_of a.held) };
}

impl Points {
    /// These points in ascending order, each once, without the room that was left: a test that finds one of these finds one
    /// of those. Where they ascend or descend already, it takes two passes.
    pub fn sorted(points: Vec<Point>) -> Points
        ensures { (f : Coordinates → Bool) → list_any f result ≡ list_any f points.items }
    {
        let mut points = points;
        points.sort_unstable();
        points.dedup();
        points.shrink_to_fit();
        Points {
            held: Held::Listed(points),
        }
    }

    /// The indices of a rectangle as points, kept as its ranges: a test that finds one of these finds one of those.
    pub fn within(ranges: &AnyRect) -> Points
        ensures { (f : Coordinates → Bool) → list_any f result ≡ list_any f (product ranges.now) }
    {
        Points {
            held: Held::Within(upward(&ranges.ranked())),
        }
    }

    /// One point.
    pub fn one(point: &Point) -> Points
        ensures { result ≡ point.now ∷ [] }
    {
        Points {
            held: Held::One(*point),
        }
    }

    /// The keys of the first point and of the last: those of all are between them.
    pub fn ends(&self) -> (u64, u64)
        requires { 0 < length self.now }
        ensures within { (p : Coordinates) → in_points self.now p ≡ true → (result.0 ≤ key_of p) × (key_of p ≤ result.1) }
        ensures order { result.0 ≤ result.1 }
        ensures first { 0 < result.0 }
    {
        let first = self.point(0);
        let last = self.point(self.len() - 1);
        (key_of(&first), key_of(&last))
    }

    /// How many points there are.
    pub fn len(&self) -> usize
        ensures value { result ≡ length self.now }
        ensures ascending { IsStrictlySortedBy point_cmp self.now }
    {
        match &self.held {
            Held::Listed(points) => points.len(),
            Held::Within(area) => count_in(&area.ranked()),
            Held::One(_) => 1,
        }
    }

    /// The point at a place.
    pub fn point(&self, at: usize) -> Point
        requires { at < length self.now }
        ensures { slice_get self.now at ≡ Some result }
    {
        match &self.held {
            Held::Listed(points) => point_of(points.as_slice(), at),
            Held::Within(area) => point_in(&area.ranked(), at),
            Held::One(point) => *point,
        }
    }

    /// Whether one of the other points is one of these: of two rectangles by their ranges, and else by the points of one that is
    /// no rectangle, up to the first that is one of the other.
    pub fn meets(&self, others: &Points) -> bool
        ensures { result ≡ list_any (in_points self.now) others.now }
    {
        match &others.held {
            Held::Listed(points) => self.has_one(points.as_slice()),
            Held::Within(area) => self.meets_area(others, area),
            Held::One(point) => self.contains(point),
        }
    }

    // Whether one of the points of a rectangle is one of these.
    fn meets_area(&self, others: &Points, area: &AnyRect) -> bool
        requires { others.now ≡ product area.now }
        ensures { result ≡ list_any (in_points self.now) others.now }
    {
        match &self.held {
            Held::Listed(points) => others.has_one(points.as_slice()),
            Held::Within(own) => have_common(&own.ranked(), &area.ranked()),
            Held::One(point) => others.contains(point),
        }
    }

    // Whether one of the points of a list is one of these.
    fn has_one(&self, others: &[Point]) -> bool
        ensures { result ≡ list_any (in_points self.now) others.now }
    {
        for point in others {
            if self.contains(point) {
                return true;
            }
        }
        false
    }

    /// Whether the point is one of these: by the ranges of a rectangle, and else by a binary search where it lies between the
    /// first and the last.
    pub fn contains(&self, point: &Point) -> bool
        ensures { result ≡ in_points self.now point.now }
    {
        match &self.held {
            Held::Listed(points) => is_among(points.as_slice(), point),
            Held::Within(area) => area.contains(&AnyIndex::new(Index::Point(*point))),
            Held::One(own) => *own == *point,
        }
    }

    /// Whether all of the other points are among these, up to the first that is not.
    pub(crate) fn has_all(&self, others: &Points) -> bool
        ensures { IsTrue result → list_all (in_points self.now) others.now ≡ true }
    {
        for at in 0..others.len() {
            if !self.contains(&others.point(at)) {
                return false;
            }
        }
        true
    }

    /// Whether they are seen to be the same points: as ranges that are the same, or point by point.
    pub fn is_same(&self, others: &Points) -> bool
        ensures { IsTrue result → self.now ≡ others.now }
    {
        match &self.held {
            Held::Listed(points) => others.is_list(points.as_slice()),
            Held::Within(area) => others.is_area(area),
            Held::One(_) => false,
        }
    }

    // Whether they are seen to be the points of a list.
    fn is_list(&self, list: &[Point]) -> bool
        ensures { IsTrue result → list.now ≡ self.now }
    {
        match &self.held {
            Held::Listed(points) => are_same(list, points.as_slice()),
            Held::Within(_) | Held::One(_) => false,
        }
    }

    // Whether they are seen to be the points of a rectangle.
    fn is_area(&self, area: &AnyRect) -> bool
        ensures { IsTrue result → product area.now ≡ self.now }
    {
        match &self.held {
            Held::Within(own) => area.is_same(own),
            Held::Listed(_) | Held::One(_) => false,
        }
    }

    /// The first place, from another one on, whose point is not below a point: that one, or by a binary search.
    pub fn place_from(&self, from: usize, point: &Point) -> usize
        requires { from ≤ length self.now }
        ensures from { from ≤ result }
        ensures within { result ≤ length self.now }
        ensures below { (i : ℕ) (d : Coordinates) → from ≤ i → i < result → point_cmp (slice_index_or self.now i d) point.now ≡ Less }
    {
        let count = self.len();
        if from == count {
            return from;
        }
        if !self.point(from).cmp(point).is_lt() {
            return from;
        }
        let mut low = from;
        let mut high = count;
        while low < high {
            let half = self.half(low, high, point);
            low = half.0;
            high = half.1;
        }
        low
    }

    // The half of some places in which the search goes on for the first whose point is not below a point.
    fn half(&self, low: usize, high: usize, point: &Point) -> (usize, usize)
        // The points ascend, and the places are some of theirs.
        requires ascending { IsStrictlySortedBy point_cmp self.now }
        requires order { low < high }
        requires within { high ≤ length self.now }

        // The half lies within the places, and is shorter.
        ensures from { low ≤ result.0 }
        ensures order { result.0 ≤ result.1 }
        ensures within { result.1 ≤ high }
        ensures shorter { result.1 < high + (result.0 - low) }

        // The points before it are below the point.
        ensures below { (i : ℕ) (d : Coordinates) → low ≤ i → i < result.0 → point_cmp (slice_index_or self.now i d) point.now ≡ Less }
    {
        let middle = low + (high - low) / 2;
        if self.point(middle).cmp(point).is_lt() {
            return (middle + 1, high);
        }
        (low, middle)
    }
}

// Whether two lists have the same points, each at its place.
fn are_same(points: &[Point], others: &[Point]) -> bool
    ensures { IsTrue result → points.now ≡ others.now }
{
    points == others
}

// The point at a place of a list.
fn point_of(points: &[Point], at: usize) -> Point
    requires { at < length points.now }
    ensures { slice_get points.now at ≡ Some result }
{
    points[at]
}

// Whether the point is one of ascending ones.
fn is_among(points: &[Point], point: &Point) -> bool
    requires { IsStrictlySortedBy point_cmp points.now }
    ensures { result ≡ in_points points.now point.now }
{
    if is_outside(points, point) {
        return false;
    }
    points.binary_search(point).is_ok()
}

// Whether the point is below the first of ascending ones or above the last: it is none of them then.
fn is_outside(points: &[Point], point: &Point) -> bool
    requires { IsStrictlySortedBy point_cmp points.now }
    ensures { IsTrue result → in_points points.now point.now ≡ false }
{
    if points.is_empty() {
        return true;
    }
    if point.cmp(&points[0]).is_lt() {
        return true;
    }
    points[points.len() - 1].cmp(point).is_lt()
}

/// No points, with room for so many, if there is memory for them.
pub(crate) fn with_room(alloc: Global, count: usize) -> Option<Vec<Point>>
    ensures { IfSome result (λ points. points.items ≡ []) }
{
    match Vec::with_capacity(alloc, count) {
        Ok(points) => Some(points),
        Err(_) => None,
    }
}
