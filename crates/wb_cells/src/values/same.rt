//! Whether rectangles and mappings are equal, by their ranks.

ghost use Rattle.std.specs.Prelude.{◌≡◌, ◌≢◌};
ghost use Rattle.std.specs.Bool.{Decides};
ghost use Rattle.wb_dist.specs.Maps.{whole};
ghost use Rattle.wb_cells.specs.Layouts.{map_of};
ghost use Rattle.wb_cells.specs.Ranks.{ranges_of};

use crate::values::layout::LayoutByRank;
use crate::values::rectangle::Ranked;
use wb_dist::{Distribution, Layout};
use wb_range::Mapping;
use wb_rect::Rect;

// Whether a rectangle of rank 1 is the other one, which may be of any rank.
pub(crate) fn is_line(one: &Rect<1>, two: &Ranked) -> bool
    ensures { Decides result (one.now ≡ ranges_of two.now) }
{
    // For the proof: it has one range.
    let _one = one.rank();
    match two {
        Ranked::Rank1(rect) => one == rect,
        Ranked::Rank2(rect) => {
            // For the proof: it has two ranges.
            let _two = rect.rank();
            false
        }
        Ranked::Rank3(rect) => {
            // For the proof: it has three ranges.
            let _two = rect.rank();
            false
        }
    }
}

// Whether a rectangle of rank 2 is the other one, which may be of any rank.
pub(crate) fn is_plane(one: &Rect<2>, two: &Ranked) -> bool
    ensures { Decides result (one.now ≡ ranges_of two.now) }
{
    // For the proof: it has two ranges.
    let _one = one.rank();
    match two {
        Ranked::Rank1(rect) => {
            // For the proof: it has one range.
            let _two = rect.rank();
            false
        }
        Ranked::Rank2(rect) => one == rect,
        Ranked::Rank3(rect) => {
            // For the proof: it has three ranges.
            let _two = rect.rank();
            false
        }
    }
}

// Whether a rectangle of rank 3 is the other one, which may be of any rank.
pub(crate) fn is_solid(one: &Rect<3>, two: &Ranked) -> bool
    ensures { Decides result (one.now ≡ ranges_of two.now) }
{
    // For the proof: it has three ranges.
    let _one = one.rank();
    match two {
        Ranked::Rank1(rect) => {
            // For the proof: it has one range.
            let _two = rect.rank();
            false
        }
        Ranked::Rank2(rect) => {
            // For the proof: it has two ranges.
            let _two = rect.rank();
            false
        }
        Ranked::Rank3(rect) => one == rect,
    }
}

// Whether all is on one locale.
fn is_on_one<const R: usize>(layout: &Layout<R>) -> bool
    ensures { Decides result (layout.now ≡ whole) }
{
    match layout.distribution() {
        Distribution::Whole => true,
        Distribution::Block(_) => false,
        Distribution::Cyclic(_) => false,
        Distribution::BlockCyclic(_) => false,
    }
}

// Mappings for domains of different ranks are equal where both keep all on one locale.
#[tactic(auto, using(crate::proofs::TwoRanks::of_two_ranks))]
fn are_whole<const R: usize, const S: usize>(one: &Layout<R>, two: &Layout<S>) -> bool
    requires { R ≢ S }
    ensures { Decides result (one.now ≡ two.now) }
{
    // For the proof: each is a mapping for its own rank.
    let _one = one.locales();
    let _two = two.locales();
    if !is_on_one(one) {
        return false;
    }
    is_on_one(two)
}

// Whether a mapping for rank 1 is the other one, which may be for any rank.
pub(crate) fn is_laid_line(one: &Layout<1>, two: &LayoutByRank) -> bool
    ensures { Decides result (one.now ≡ map_of two.now) }
{
    match two {
        LayoutByRank::Whole => is_on_one(one),
        LayoutByRank::Rank1(layout) => one == layout,
        LayoutByRank::Rank2(layout) => are_whole(one, layout),
        LayoutByRank::Rank3(layout) => are_whole(one, layout),
    }
}

// Whether a mapping for rank 2 is the other one, which may be for any rank.
pub(crate) fn is_laid_plane(one: &Layout<2>, two: &LayoutByRank) -> bool
    ensures { Decides result (one.now ≡ map_of two.now) }
{
    match two {
        LayoutByRank::Whole => is_on_one(one),
        LayoutByRank::Rank1(layout) => are_whole(one, layout),
        LayoutByRank::Rank2(layout) => one == layout,
        LayoutByRank::Rank3(layout) => are_whole(one, layout),
    }
}

// Whether a mapping for rank 3 is the other one, which may be for any rank.
pub(crate) fn is_laid_solid(one: &Layout<3>, two: &LayoutByRank) -> bool
    ensures { Decides result (one.now ≡ map_of two.now) }
{
    match two {
        LayoutByRank::Whole => is_on_one(one),
        LayoutByRank::Rank1(layout) => are_whole(one, layout),
        LayoutByRank::Rank2(layout) => are_whole(one, layout),
        LayoutByRank::Rank3(layout) => one == layout,
    }
}

pub(crate) fn is_laid_whole(two: &LayoutByRank) -> bool
    ensures { Decides result (whole ≡ map_of two.now) }
{
    match two {
        LayoutByRank::Whole => true,
        LayoutByRank::Rank1(layout) => is_on_one(layout),
        LayoutByRank::Rank2(layout) => is_on_one(layout),
        LayoutByRank::Rank3(layout) => is_on_one(layout),
    }
}
