ghost use Rattle.std.specs.Prelude.{◌≡◌, ◌≤◌, true, false, FitsSigned};
ghost use Rattle.std.specs.Bool.{Decides};
ghost use Rattle.std.specs.Int.{w64};
ghost use Rattle.std.specs.List.{All};
ghost use Rattle.wb_dist.specs.Maps.{whole};
ghost use Rattle.wb_cells.specs.Layouts.{map_of, is_of_rank, IsLayout, IsDealt, locale_in};
ghost use Rattle.wb_cells.specs.declared.values.index.Index.TheVariants.{Point as point_index};

use crate::values::index::{AnyIndex, Index};
use crate::values::point::Point;
use crate::values::same::{is_laid_line, is_laid_plane, is_laid_solid, is_laid_whole};
use crate::values::validity::numbers_validity;
use std::marker::Model;
use wb_dist::{Distribution, Layout};
use wb_range::Mapping;

/// A mapping by its rank.
#[derive(Clone, Copy)]
pub enum LayoutByRank {
    /// All on one locale, at any rank.
    Whole,
    /// Of rank 1.
    Rank1(Layout<1>),
    /// Of rank 2.
    Rank2(Layout<2>),
    /// Of rank 3.
    Rank3(Layout<3>),
}

/// The mapping of a rectangular domain, of any rank that the workbook has: 1, 2 or 3. The one that keeps all on one
/// locale is for every rank (Chapel Language Specification, Domain Maps).
///
/// Contracts see it as its `LayoutMap`.
#[derive(Clone, Copy)]
pub struct AnyLayout {
    laid: LayoutByRank,
}

impl Model for AnyLayout {
    ghost use Rattle.wb_dist.specs.Maps.{LayoutMap};
    ghost use Rattle.wb_cells.specs.Layouts.{map_of, IsLaid, of_map, of_map-map_of};

    ghost Value = { LayoutMap };

    ghost view = { λ a. map_of a.laid };

    ghost invariant = { λ a. IsLaid a.laid };

    ghost inverse = { λ v. record { laid = of_map v } };

    ghost inverse_ok = { λ a h. λ i. record { laid = of_map-map_of a.laid h i } };
}

impl AnyLayout {
    /// All indices on one locale, at any rank.
    pub fn whole() -> AnyLayout
        ensures { result ≡ whole }
    {
        AnyLayout {
            laid: LayoutByRank::Whole,
        }
    }

    /// A mapping of rank 1.
    pub fn line(layout: Layout<1>) -> AnyLayout
        ensures { result ≡ layout }
    {
        if is_whole(&layout) {
            return AnyLayout::whole();
        }
        AnyLayout {
            laid: LayoutByRank::Rank1(layout),
        }
    }

    /// A mapping of rank 2.
    pub fn plane(layout: Layout<2>) -> AnyLayout
        ensures { result ≡ layout }
    {
        if is_whole(&layout) {
            return AnyLayout::whole();
        }
        AnyLayout {
            laid: LayoutByRank::Rank2(layout),
        }
    }

    /// A mapping of rank 3.
    pub fn solid(layout: Layout<3>) -> AnyLayout
        ensures { result ≡ layout }
    {
        if is_whole(&layout) {
            return AnyLayout::whole();
        }
        AnyLayout {
            laid: LayoutByRank::Rank3(layout),
        }
    }

    /// Whether it is a mapping for domains of the rank. It is one for some rank, within the limits.
    pub fn is_of_rank(&self, rank: u8) -> bool
        ensures value { result ≡ is_of_rank rank self.now }
        ensures kept { IsLayout self.now }
    {
        match &self.laid {
            LayoutByRank::Whole => true,
            LayoutByRank::Rank1(_) => rank == 1,
            LayoutByRank::Rank2(_) => rank == 2,
            LayoutByRank::Rank3(_) => rank == 3,
        }
    }

    /// The mapping by its rank.
    pub fn laid(&self) -> LayoutByRank
        ensures { map_of result ≡ self.now }
    {
        self.laid
    }

    /// The locale of an index; `None` for a text and for an index of another rank.
    pub fn locale_of(&self, index: &AnyIndex) -> Option<usize>
        ensures { result ≡ locale_in self.now index.now }
    {
        match index.index() {
            Index::Text(_) => None,
            Index::Point(point) => match &self.laid {
                LayoutByRank::Whole => Some(0),
                LayoutByRank::Rank1(layout) => locale_on(layout, &point),
                LayoutByRank::Rank2(layout) => locale_on(layout, &point),
                LayoutByRank::Rank3(layout) => locale_on(layout, &point),
            },
        }
    }

    /// Whether the mappings are equal. Those that keep all on one locale are, whatever their ranks.
    pub fn is_same(&self, other: &AnyLayout) -> bool
        ensures { Decides result (self.now ≡ other.now) }
    {
        let laid = other.laid();
        match self.laid() {
            LayoutByRank::Whole => is_laid_whole(&laid),
            LayoutByRank::Rank1(layout) => is_laid_line(&layout, &laid),
            LayoutByRank::Rank2(layout) => is_laid_plane(&layout, &laid),
            LayoutByRank::Rank3(layout) => is_laid_solid(&layout, &laid),
        }
    }
}

// Whether all is on one locale; if not, the mapping is for domains of its rank and no other.
fn is_whole<const R: usize>(layout: &Layout<R>) -> bool
    ensures is { result ≡ true → layout.now ≡ whole }
    ensures other { result ≡ false → IsDealt R layout.now }
{
    // For the proof: the mapping is one for the rank R.
    let _kept = layout.locales();
    match layout.distribution() {
        Distribution::Whole => true,
        Distribution::Block(block) => {
            // For the proof: the box is a rectangle of the rank R.
            let _kept = block.bounds().rank();
            false
        }
        Distribution::Cyclic(cyclic) => {
            // For the proof: the numbers of the start are of 64 bits.
            numbers_validity(&cyclic.start());
            false
        }
        Distribution::BlockCyclic(block_cyclic) => {
            // For the proof: the numbers of the start and of the size are of 64 bits.
            numbers_validity(&block_cyclic.start());
            numbers_validity(&block_cyclic.size());
            false
        }
    }
}

// The locale of a point, if it is of the mapping's rank.
fn locale_on<const R: usize>(layout: &Layout<R>, point: &Point) -> Option<usize>
    requires { IsDealt R layout.now }
    ensures { result ≡ locale_in layout.now (point_index point.now) }
{
    let coordinates = point.coordinates();
    if coordinates.len() != R {
        return None;
    }
    let mut index = [0; R];
    index.copy_from_slice(coordinates);
    Some(layout.locale_of(index))
}
