//! The standard Block-Cyclic distribution.
ghost use Rattle.std.specs.Prelude.{◌≡◌, ◌↔◌, ◌≤◌, ◌<◌, ◌&&◌, IsTrue, IfOk, is_ok, slice_get, Some};
ghost use Rattle.std.specs.Cmp.{partial_equiv_from_equiv};
ghost use Rattle.wb_dist.specs.Grid.{size_of_grid, points, are_positive, is_grid};
ghost use Rattle.wb_dist.specs.Maps.{BlockCyclicMap, block_cyclic_coordinates, is_block_cyclic, block_cyclic_locale_of};
ghost use Rattle.wb_dist.specs.Same.{same_block_cyclic, same_block_cyclic-exact, equivalence_from_exact};

use crate::errors::BadMapping;
use crate::grid::locales_on;
use crate::place::block_cyclic_place;
use std::marker::Model;
use wb_range::Mapping;

/// Indices dealt out in blocks to the locales of a grid. In a dimension with the start `s`, the block size `b` and `n`
/// locales the index `i` lies on locale `floor((i - s) / b) mod n`, from 0 to `n - 1`, below the start too. Each
/// dimension is dealt out by itself, and the locales of the grid are numbered row by row. Chapel Language Specification,
/// Domain Maps; standard distribution Block-Cyclic.
#[derive(Clone, Copy)]
pub struct BlockCyclic<const R: usize> {
    start: [i64; R],
    size: [i64; R],
    grid: [i64; R],
    locales: usize,
}

impl<const R: usize> Model for BlockCyclic<R> {
    ghost use Rattle.std.specs.Prelude.{◌≡◌, true};
    ghost use Rattle.wb_dist.specs.Grid.{size_of_grid, are_positive};
    ghost use Rattle.wb_dist.specs.Maps.{BlockCyclicMap};
    ghost use Rattle.wb_dist.specs.Kept.{IsKeptGrid};

    ghost Value = { BlockCyclicMap };

    ghost view = { λ c. record { start = c.start; size = c.size; grid = c.grid } };

    ghost invariant = { λ c. (are_positive c.size ≡ true) × IsKeptGrid R c.grid c.locales };

    ghost inverse = { λ m. record {
      start = m.start;
      size = m.size;
      grid = m.grid;
      locales = size_of_grid m.grid;
    } };

    ghost use Rattle.wb_dist.specs.Inverse.{block_cyclic_fields};

    ghost inverse_ok = { λ c h. block_cyclic_fields R c h.1 };
}

impl<const R: usize> BlockCyclic<R> {
    /// The indices dealt out from `start` on, in blocks whose entry `d` of `size` is their extent along dimension `d`, to
    /// the locales of `grid`, whose entry `d` is the number of locales along dimension `d`. Refused where a block size or
    /// an entry of the grid is below 1, and where the product of the grid is above 256. `R` is 1, 2 or 3.
    pub fn new(
        start: [i64; R],
        size: [i64; R],
        grid: [i64; R],
    ) -> Result<BlockCyclic<R>, BadMapping>
        requires low { 1 ≤ R }
        requires high { R ≤ 3 }
        ensures ok { IfOk result (λ m. m ≡ record { start = start.entry; size = size.entry; grid = grid.entry }) }
        ensures accepts { is_ok result ≡ (are_positive size.entry && is_grid grid.entry) }
    {
        if !are_positive(&size) {
            return Err(BadMapping);
        }
        match locales_on(&grid) {
            Some(locales) => Ok(BlockCyclic {
                start,
                size,
                grid,
                locales: locales as usize,
            }),
            None => Err(BadMapping),
        }
    }

    /// The first index of a block on locale 0, as `new` was given it.
    pub fn start(&self) -> [i64; R]
        ensures { result ≡ self.now.start }
    {
        self.start
    }

    /// The extent of a block along each dimension, as `new` was given it.
    pub fn size(&self) -> [i64; R]
        ensures { result ≡ self.now.size }
    {
        self.size
    }

    /// The number of locales along each dimension, as `new` was given it.
    pub fn grid(&self) -> [i64; R]
        ensures { result ≡ self.now.grid }
    {
        self.grid
    }

    // Whether both are the same mapping.
    fn is_same(&self, other: &BlockCyclic<R>) -> bool
        ensures { result ≡ same_block_cyclic self.now other.now }
    {
        let same_start = self.start == other.start;
        same_start && self.size == other.size && self.grid == other.grid
    }
}

impl<const R: usize> PartialEq for BlockCyclic<R> {
    ghost eq = { same_block_cyclic };

    ghost laws = { partial_equiv_from_equiv (equivalence_from_exact same_block_cyclic same_block_cyclic-exact) };

    fn eq(&self, other: &BlockCyclic<R>) -> bool
        ensures value { result ≡ same_block_cyclic self.now other.now }
        ensures exact { IsTrue result ↔ (self.now ≡ other.now) }
    {
        self.is_same(other)
    }
}

impl<const R: usize> Eq for BlockCyclic<R> {
    ghost laws = { equivalence_from_exact same_block_cyclic same_block_cyclic-exact };
}

impl<const R: usize> Mapping for BlockCyclic<R> {
    type Index = [i64; R];

    ghost locale = { λ m i. block_cyclic_locale_of m i };

    ghost locale_count = { λ m. size_of_grid m.grid };

    fn locales(&self) -> usize
        ensures count { result ≡ size_of_grid self.now.grid }
        ensures some { 0 < result }
        ensures good { IsTrue (is_block_cyclic R self.now) }
    {
        self.locales
    }

    fn locale_of(&self, i: [i64; R]) -> usize
        ensures value { result ≡ block_cyclic_locale_of self.now i.entry }
        ensures below { result < size_of_grid self.now.grid }

        // The locale at these coordinates of the grid, in row-major order.
        ensures row_major { slice_get (points self.now.grid) result
            ≡ Some (block_cyclic_coordinates self.now.start self.now.size self.now.grid i.entry) }
    {
        block_cyclic_place(&self.start, &self.size, &self.grid, &i) as usize
    }
}

fn are_positive(ns: &[i64]) -> bool
    ensures { result ≡ are_positive ns.now }
{
    ns.iter().all(|n| *n >= 1)
}
