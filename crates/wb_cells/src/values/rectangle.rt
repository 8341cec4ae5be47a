ghost use Rattle.std.specs.Prelude.{◌≡◌, ◌≢◌, ◌↔◌, ◌<◌, ◌≤◌, true, false, length, slice_get, IfOk, OnOk, SomeIff};
ghost use Rattle.std.specs.Bool.{Decides};
ghost use Rattle.wb_range.specs.Domain.{IsListedOnce};
ghost use Rattle.wb_rect.specs.Offsets.{each_shifted, translated, expanded};
ghost use Rattle.wb_rect.specs.Product.{product, IsRectangle};
ghost use Rattle.wb_rect.specs.ShiftTests.{has_unit_strides, can_shift};
ghost use Rattle.wb_rect.specs.Slices.{sliced};
ghost use Rattle.wb_cells.specs.Ranks.{ranges_of};
ghost use Rattle.wb_cells.specs.Shapes.{indices};
ghost use Rattle.wb_cells.specs.WellFormed.{has};
ghost use Rattle.wb_cells.specs.declared.values.index.Index.TheVariants.{Point as point_index};

use crate::values::index::{AnyIndex, Index};
use crate::values::point::Point;
use crate::values::same::{is_line, is_plane, is_solid};
use std::marker::Model;
use wb_range::{Domain, Range};
use wb_rect::{Rect, RectErr};

/// A rectangular domain by its rank.
#[derive(Clone, Copy)]
pub enum Ranked {
    /// One range.
    Rank1(Rect<1>),
    /// Two ranges.
    Rank2(Rect<2>),
    /// Three ranges.
    Rank3(Rect<3>),
}

/// The value of a rectangular domain, of any rank that the workbook has: 1, 2 or 3.
///
/// Contracts see it as the list of its ranges, each as the list of its indices.
#[derive(Clone, Copy)]
pub struct AnyRect {
    ranked: Ranked,
}

impl Model for AnyRect {
    ghost use Rattle.std.specs.Prelude.{List, ℤ};
    ghost use Rattle.wb_cells.specs.Ranks.{ranges_of, IsRanked, of_ranges, of_ranges-ranges_of};

    ghost Value = { List (List ℤ) };

    ghost view = { λ a. ranges_of a.ranked };

    ghost invariant = { λ a. IsRanked a.ranked };

    ghost inverse = { λ v. record { ranked = of_ranges v } };

    ghost inverse_ok = { λ a h. λ i. record { ranked = of_ranges-ranges_of a.ranked h i } };
}

impl AnyRect {
    /// The domain of 1 to 3 dimensions that is the product of the ranges; `TooLarge` where it has more than 65,536
    /// indices (Chapel Language Specification, Domains: rectangular domains).
    pub fn from_ranges(ranges: &[Range]) -> Result<AnyRect, RectErr>
        requires low { 1 ≤ length ranges.now }
        requires high { length ranges.now ≤ 3 }
        ensures ok { IfOk result (λ r. r ≡ ranges.now) }
        ensures too_large { (result ≡ Err RectErr.TooLarge) ↔ (65536 < length (product ranges.now)) }
        ensures never { result ≢ Err RectErr.Strided }
    {
        match ranges {
            [first] => Ok(AnyRect::line(Rect::new([*first])?)),
            [first, second] => Ok(AnyRect::plane(Rect::new([*first, *second])?)),
            [first, second, third] => Ok(AnyRect::solid(Rect::new([*first, *second, *third])?)),
            _ => unreachable!(),
        }
    }

    /// A domain of rank 1.
    pub fn line(rect: Rect<1>) -> AnyRect
        ensures { result ≡ rect }
    {
        // For the proof: the ranges are those of a rectangle of rank 1.
        let _kept = rect.rank();
        AnyRect {
            ranked: Ranked::Rank1(rect),
        }
    }

    /// A domain of rank 2.
    pub fn plane(rect: Rect<2>) -> AnyRect
        ensures { result ≡ rect }
    {
        // For the proof: the ranges are those of a rectangle of rank 2.
        let _kept = rect.rank();
        AnyRect {
            ranked: Ranked::Rank2(rect),
        }
    }

    /// A domain of rank 3.
    pub fn solid(rect: Rect<3>) -> AnyRect
        ensures { result ≡ rect }
    {
        // For the proof: the ranges are those of a rectangle of rank 3.
        let _kept = rect.rank();
        AnyRect {
            ranked: Ranked::Rank3(rect),
        }
    }

    /// The domain by its rank: with the same ranges, as a rectangle of 1, 2 or 3 dimensions.
    pub fn ranked(&self) -> Ranked
        ensures { ranges_of result ≡ self.now }
    {
        self.ranked
    }

    /// How many dimensions there are: 1, 2 or 3. The ranges and the size are within their limits.
    pub fn rank(&self) -> u8
        ensures value { result ≡ length self.now }
        ensures kept { IsRectangle (length self.now) self.now }
    {
        match &self.ranked {
            Ranked::Rank1(_) => 1,
            Ranked::Rank2(_) => 2,
            Ranked::Rank3(_) => 3,
        }
    }

    /// How many indices there are. Each is listed once.
    pub fn size(&self) -> usize
        ensures count { result ≡ length (indices self.now) }
        ensures once { IsListedOnce (indices self.now) }
    {
        match &self.ranked {
            Ranked::Rank1(rect) => size_in(rect),
            Ranked::Rank2(rect) => size_in(rect),
            Ranked::Rank3(rect) => size_in(rect),
        }
    }

    /// The index at place `p` in row-major order, counted from 0.
    pub fn nth(&self, p: usize) -> Option<AnyIndex>
        ensures { result ≡ slice_get (indices self.now) p }
    {
        match &self.ranked {
            Ranked::Rank1(rect) => nth_in(rect, p),
            Ranked::Rank2(rect) => nth_in(rect, p),
            Ranked::Rank3(rect) => nth_in(rect, p),
        }
    }

    /// Whether an index is in the domain. A text is not, nor is an index of another rank.
    pub fn contains(&self, index: &AnyIndex) -> bool
        ensures { result ≡ has (indices self.now) index.now }
    {
        match index.index() {
            Index::Text(_) => false,
            Index::Point(point) => match &self.ranked {
                Ranked::Rank1(rect) => contains_in(rect, &point),
                Ranked::Rank2(rect) => contains_in(rect, &point),
                Ranked::Rank3(rect) => contains_in(rect, &point),
            },
        }
    }

    /// Range by range what both have in common, each upward, and `None` where they are of different ranks (Chapel
    /// Language Specification, Domains: domain slicing; that it runs upward is this repository's own rule).
    pub fn slice(&self, other: &AnyRect) -> Option<AnyRect>
        ensures { SomeIff result (length self.now ≡ length other.now) (sliced self.now other.now) }
    {
        match &self.ranked {
            Ranked::Rank1(rect) => match &other.ranked {
                Ranked::Rank1(by) => Some(AnyRect::line(rect.slice(by))),
                Ranked::Rank2(_) | Ranked::Rank3(_) => None,
            },
            Ranked::Rank2(rect) => match &other.ranked {
                Ranked::Rank2(by) => Some(AnyRect::plane(rect.slice(by))),
                Ranked::Rank1(_) | Ranked::Rank3(_) => None,
            },
            Ranked::Rank3(rect) => match &other.ranked {
                Ranked::Rank3(by) => Some(AnyRect::solid(rect.slice(by))),
                Ranked::Rank1(_) | Ranked::Rank2(_) => None,
            },
        }
    }

    /// Each range `lo..hi` as `lo + o..hi + o`, `o` being the offset of its dimension. An empty range stays empty (Chapel
    /// Language Specification, Domains: `translate`).
    ///
    /// Fails with `Strided` where a range has another stride than 1, and else with `TooLarge` where a bound of a resulting
    /// range that isn't empty lies below -10^18 or above 10^18.
    pub fn translate(&self, offsets: &[i64]) -> Result<AnyRect, RectErr>
        requires { length offsets.now ≡ length self.now }
        ensures ok { IfOk result (λ r. r ≡ translated offsets.now self.now) }
        ensures within { OnOk result ((has_unit_strides self.now ≡ true) × (can_shift false offsets.now self.now ≡ true)) }
        ensures strided { (result ≡ Err RectErr.Strided) ↔ (has_unit_strides self.now ≡ false) }
        ensures too_large { (result ≡ Err RectErr.TooLarge) ↔
            ((has_unit_strides self.now ≡ true) × (can_shift false offsets.now self.now ≡ false)) }
    {
        self.shift(offsets, false)
    }

    /// Each range `lo..hi` as `lo - o..hi + o`, `o` being the offset of its dimension. A range contracted past empty is
    /// empty, and an empty range stays empty (Chapel Language Specification, Domains: `expand`; the two are this
    /// repository's own rules).
    ///
    /// Fails with `Strided` where a range has another stride than 1, and else with `TooLarge` where a bound or the count
    /// of a resulting range that isn't empty, or the size, is past its limit.
    pub fn expand(&self, offsets: &[i64]) -> Result<AnyRect, RectErr>
        requires { length offsets.now ≡ length self.now }
        ensures ok { IfOk result (λ r. r ≡ expanded offsets.now self.now) }
        ensures within { OnOk result ((has_unit_strides self.now ≡ true) × (can_shift true offsets.now self.now ≡ true)) }
        ensures strided { (result ≡ Err RectErr.Strided) ↔ (has_unit_strides self.now ≡ false) }
        ensures too_large { (result ≡ Err RectErr.TooLarge) ↔
            ((has_unit_strides self.now ≡ true) × (can_shift true offsets.now self.now ≡ false)) }
    {
        self.shift(offsets, true)
    }

    /// Whether the domains have the same ranges.
    pub fn is_same(&self, other: &AnyRect) -> bool
        ensures { Decides result (self.now ≡ other.now) }
    {
        let ranked = other.ranked();
        match self.ranked() {
            Ranked::Rank1(rect) => is_line(&rect, &ranked),
            Ranked::Rank2(rect) => is_plane(&rect, &ranked),
            Ranked::Rank3(rect) => is_solid(&rect, &ranked),
        }
    }

    // Each range shifted, as `translate` does, or outward, as `expand` does.
    fn shift(&self, offsets: &[i64], outward: bool) -> Result<AnyRect, RectErr>
        requires { length offsets.now ≡ length self.now }
        ensures ok { IfOk result (λ r. r ≡ each_shifted outward offsets.now self.now) }
        ensures within { OnOk result ((has_unit_strides self.now ≡ true) × (can_shift outward offsets.now self.now ≡ true)) }
        ensures strided { (result ≡ Err RectErr.Strided) ↔ (has_unit_strides self.now ≡ false) }
        ensures too_large { (result ≡ Err RectErr.TooLarge) ↔
            ((has_unit_strides self.now ≡ true) × (can_shift outward offsets.now self.now ≡ false)) }
    {
        match &self.ranked {
            Ranked::Rank1(rect) => Ok(AnyRect::line(shift_in(rect, offsets, outward)?)),
            Ranked::Rank2(rect) => Ok(AnyRect::plane(shift_in(rect, offsets, outward)?)),
            Ranked::Rank3(rect) => Ok(AnyRect::solid(shift_in(rect, offsets, outward)?)),
        }
    }
}

// How many indices a rectangle has.
fn size_in<const R: usize>(rect: &Rect<R>) -> usize
    ensures count { result ≡ length (indices rect.now) }
    ensures once { IsListedOnce (indices rect.now) }
{
    rect.size()
}

// The index of a rectangle at a place.
fn nth_in<const R: usize>(rect: &Rect<R>, p: usize) -> Option<AnyIndex>
    requires { R ≤ 3 }
    ensures { result ≡ slice_get (indices rect.now) p }
{
    let index = rect.nth(p)?;
    Some(AnyIndex::new(Index::Point(Point::of(&index))))
}

// Whether a point is an index of a rectangle.
fn contains_in<const R: usize>(rect: &Rect<R>, point: &Point) -> bool
    ensures { result ≡ has (indices rect.now) (point_index point.now) }
{
    // For the proof: the ranges are those of a rectangle of the rank R.
    let _kept = rect.rank();
    let coordinates = point.coordinates();
    if coordinates.len() != R {
        return false;
    }
    let mut index = [0; R];
    index.copy_from_slice(coordinates);
    rect.contains(index)
}

// Each range of a rectangle shifted by the offset of its dimension, outward or not.
fn shift_in<const R: usize>(
    rect: &Rect<R>,
    offsets: &[i64],
    outward: bool,
) -> Result<Rect<R>, RectErr>
    requires { length offsets.now ≡ R }
    ensures ok { IfOk result (λ r. r ≡ each_shifted outward offsets.now rect.now) }
    ensures within { OnOk result ((has_unit_strides rect.now ≡ true) × (can_shift outward offsets.now rect.now ≡ true)) }
    ensures strided { (result ≡ Err RectErr.Strided) ↔ (has_unit_strides rect.now ≡ false) }
    ensures too_large { (result ≡ Err RectErr.TooLarge) ↔
        ((has_unit_strides rect.now ≡ true) × (can_shift outward offsets.now rect.now ≡ false)) }
{
    let mut by = [0; R];
    by.copy_from_slice(offsets);
    if outward {
        rect.expand(by)
    } else {
        rect.translate(by)
    }
}
