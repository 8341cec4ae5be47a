//! The standard Block distribution.
ghost use Rattle.std.specs.Prelude.{◌≡◌, ◌↔◌, ◌≤◌, ◌<◌, ◌&&◌, length, true, IsTrue, IfOk, IfSome, OnSome, is_ok, slice_get, Some, is_some};
ghost use Rattle.std.specs.List.{list_all};
ghost use Rattle.std.specs.Cmp.{partial_equiv_from_equiv};
ghost use Rattle.wb_dist.specs.Grid.{size_of_grid, points, is_grid};
ghost use Rattle.wb_dist.specs.Maps.{BlockMap, block_coordinates, low_corner, high_corner, is_filled, has_unit_stride, is_box, is_block, block_locale_of};
ghost use Rattle.wb_dist.specs.Same.{same_block, same_block-exact, equivalence_from_exact};

use crate::errors::BadMapping;
use crate::grid::locales_on;
use crate::place::block_place;
use std::marker::Model;
use wb_range::{Domain, Mapping};
use wb_rect::Rect;

/// A box cut into blocks as even as may be, one for each locale of a grid. In a dimension with the box `low..high` and
/// `n` locales the index `i` lies on locale `floor((i - low) * n / (high - low + 1))`, below the box on the first and
/// above it on the last. Each dimension is dealt out by itself, and the locales of the grid are numbered row by row.
/// Chapel Language Specification, Domain Maps; standard distribution Block.
#[derive(Clone, Copy)]
pub struct Block<const R: usize> {
    bounds: Rect<R>,
    low: [i64; R],
    high: [i64; R],
    grid: [i64; R],
    locales: usize,
}

impl<const R: usize> Model for Block<R> {
    ghost use Rattle.wb_dist.specs.Grid.{size_of_grid};
    ghost use Rattle.wb_dist.specs.Maps.{BlockMap, low_corner, high_corner};
    ghost use Rattle.wb_dist.specs.Kept.{IsKeptGrid, IsKeptBox};

    ghost Value = { BlockMap };

    ghost view = { λ b. record { box = b.bounds; grid = b.grid } };

    ghost invariant = { λ b. IsKeptBox R b.bounds b.low b.high × IsKeptGrid R b.grid b.locales };

    ghost inverse = { λ m. record {
      bounds = m.box;
      low = low_corner m.box;
      high = high_corner m.box;
      grid = m.grid;
      locales = size_of_grid m.grid;
    } };

    ghost use Rattle.wb_dist.specs.Inverse.{block_fields};

    ghost inverse_ok = { λ b h. block_fields R b h.0 h.1 };
}

impl<const R: usize> Block<R> {
    /// The box `bounds` cut into blocks for the locales of `grid`, whose entry `d` is the number of locales along
    /// dimension `d`. Refused where a range of the box is empty or has another stride than 1, where an entry of the
    /// grid is below 1, and where their product is above 256. `R` is 1, 2 or 3.
    pub fn new(bounds: Rect<R>, grid: [i64; R]) -> Result<Block<R>, BadMapping>
        requires low { 1 ≤ R }
        requires high { R ≤ 3 }
        ensures ok { IfOk result (λ m. m ≡ record { box = bounds.entry; grid = grid.entry }) }
        ensures accepts { is_ok result ≡ (is_box bounds.entry && is_grid grid.entry) }
    {
        let Some(both) = corners(&bounds) else {
            return Err(BadMapping);
        };
        if !has_unit_strides(&bounds) {
            return Err(BadMapping);
        }
        let Some(locales) = locales_on(&grid) else {
            return Err(BadMapping);
        };
        let low = both.0;
        let high = both.1;
        Ok(Block {
            bounds,
            low,
            high,
            grid,
            locales: locales as usize,
        })
    }

    /// The box that `new` was given.
    pub fn bounds(&self) -> Rect<R>
        ensures { result ≡ self.now.box }
    {
        self.bounds
    }

    /// The number of locales along each dimension, as `new` was given it.
    pub fn grid(&self) -> [i64; R]
        ensures { result ≡ self.now.grid }
    {
        self.grid
    }

    // Whether both are the same mapping.
    fn is_same(&self, other: &Block<R>) -> bool
        ensures { result ≡ same_block self.now other.now }
    {
        let same_bounds = self.bounds == other.bounds;
        same_bounds && self.grid == other.grid
    }
}

impl<const R: usize> PartialEq for Block<R> {
    ghost eq = { same_block };

    ghost laws = { partial_equiv_from_equiv (equivalence_from_exact same_block same_block-exact) };

    fn eq(&self, other: &Block<R>) -> bool
        ensures value { result ≡ same_block self.now other.now }
        ensures exact { IsTrue result ↔ (self.now ≡ other.now) }
    {
        self.is_same(other)
    }
}

impl<const R: usize> Eq for Block<R> {
    ghost laws = { equivalence_from_exact same_block same_block-exact };
}

impl<const R: usize> Mapping for Block<R> {
    type Index = [i64; R];

    ghost locale = { λ m i. block_locale_of m i };

    ghost locale_count = { λ m. size_of_grid m.grid };

    fn locales(&self) -> usize
        ensures count { result ≡ size_of_grid self.now.grid }
        ensures some { 0 < result }
        ensures good { IsTrue (is_block R self.now) }
    {
        self.locales
    }

    fn locale_of(&self, i: [i64; R]) -> usize
        ensures value { result ≡ block_locale_of self.now i.entry }
        ensures below { result < size_of_grid self.now.grid }

        // The locale at these coordinates of the grid, in row-major order.
        ensures row_major { slice_get (points self.now.grid) result
            ≡ Some (block_coordinates (low_corner self.now.box) (high_corner self.now.box) self.now.grid i.entry) }
    {
        block_place(&self.low, &self.high, &self.grid, &i) as usize
    }
}

// The first and the last index of the box, if no range of it is empty.
fn corners<const R: usize>(bounds: &Rect<R>) -> Option<([i64; R], [i64; R])>
    ensures filled { is_some result ≡ list_all is_filled bounds.now }
    ensures low { IfSome result (λ c. c.0 ≡ low_corner bounds.now) }
    ensures high { IfSome result (λ c. c.1 ≡ high_corner bounds.now) }
    ensures rank { OnSome result (length bounds.now ≡ R) }
{
    let low = bounds.nth(0)?;
    let high = bounds.nth(bounds.size() - 1)?;
    Some((low, high))
}

// Whether each range of the box has stride 1.
fn has_unit_strides<const R: usize>(bounds: &Rect<R>) -> bool
    requires { length bounds.now ≡ R }
    ensures { result ≡ list_all has_unit_stride bounds.now }
{
    for k in 0..R {
        if let Some(range) = bounds.range(k) {
            if range.stride() != 1 {
                return false;
            }
        }
    }
    true
}
