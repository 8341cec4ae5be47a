//! The standard Cyclic distribution.
ghost use Rattle.std.specs.Prelude.{◌≡◌, ◌↔◌, ◌≤◌, ◌<◌, IsTrue, IfOk, is_ok, slice_get, Some};
ghost use Rattle.std.specs.Cmp.{partial_equiv_from_equiv};
ghost use Rattle.wb_dist.specs.Grid.{size_of_grid, points, is_grid};
ghost use Rattle.wb_dist.specs.Maps.{CyclicMap, cyclic_coordinates, is_cyclic, cyclic_locale_of};
ghost use Rattle.wb_dist.specs.Same.{same_cyclic, same_cyclic-exact, equivalence_from_exact};

use crate::errors::BadMapping;
use crate::grid::locales_on;
use crate::place::cyclic_place;
use std::marker::Model;
use wb_range::Mapping;

/// Indices dealt out one by one to the locales of a grid. In a dimension with the start `s` and `n` locales the index
/// `i` lies on locale `(i - s) mod n`, from 0 to `n - 1`. Each dimension is dealt out by itself, and the locales of the
/// grid are numbered row by row. Chapel Language Specification, Domain Maps; standard distribution Cyclic.
#[derive(Clone, Copy)]
pub struct Cyclic<const R: usize> {
    start: [i64; R],
    grid: [i64; R],
    locales: usize,
}

impl<const R: usize> Model for Cyclic<R> {
    ghost use Rattle.wb_dist.specs.Grid.{size_of_grid};
    ghost use Rattle.wb_dist.specs.Maps.{CyclicMap};
    ghost use Rattle.wb_dist.specs.Kept.{IsKeptGrid};

    ghost Value = { CyclicMap };

    ghost view = { λ c. record { start = c.start; grid = c.grid } };

    ghost invariant = { λ c. IsKeptGrid R c.grid c.locales };

    ghost inverse = { λ m. record { start = m.start; grid = m.grid; locales = size_of_grid m.grid } };

    ghost use Rattle.wb_dist.specs.Inverse.{cyclic_fields};

    ghost inverse_ok = { λ c h. cyclic_fields R c h };
}

impl<const R: usize> Cyclic<R> {
    /// The indices dealt out from `start` on to the locales of `grid`, whose entry `d` is the number of locales along
    /// dimension `d`. Refused where an entry of the grid is below 1, and where their product is above 256. `R` is 1, 2
    /// or 3.
    pub fn new(start: [i64; R], grid: [i64; R]) -> Result<Cyclic<R>, BadMapping>
        requires low { 1 ≤ R }
        requires high { R ≤ 3 }
        ensures ok { IfOk result (λ m. m ≡ record { start = start.entry; grid = grid.entry }) }
        ensures accepts { is_ok result ≡ is_grid grid.entry }
    {
        match locales_on(&grid) {
            Some(locales) => Ok(Cyclic {
                start,
                grid,
                locales: locales as usize,
            }),
            None => Err(BadMapping),
        }
    }

    /// The index that lies on locale 0, as `new` was given it.
    pub fn start(&self) -> [i64; R]
        ensures { result ≡ self.now.start }
    {
        self.start
    }

    /// The number of locales along each dimension, as `new` was given it.
    pub fn grid(&self) -> [i64; R]
        ensures { result ≡ self.now.grid }
    {
        self.grid
    }

    // Whether both are the same mapping.
    fn is_same(&self, other: &Cyclic<R>) -> bool
        ensures { result ≡ same_cyclic self.now other.now }
    {
        let same_start = self.start == other.start;
        same_start && self.grid == other.grid
    }
}

impl<const R: usize> PartialEq for Cyclic<R> {
    ghost eq = { same_cyclic };

    ghost laws = { partial_equiv_from_equiv (equivalence_from_exact same_cyclic same_cyclic-exact) };

    fn eq(&self, other: &Cyclic<R>) -> bool
        ensures value { result ≡ same_cyclic self.now other.now }
        ensures exact { IsTrue result ↔ (self.now ≡ other.now) }
    {
        self.is_same(other)
    }
}

impl<const R: usize> Eq for Cyclic<R> {
    ghost laws = { equivalence_from_exact same_cyclic same_cyclic-exact };
}

impl<const R: usize> Mapping for Cyclic<R> {
    type Index = [i64; R];

    ghost locale = { λ m i. cyclic_locale_of m i };

    ghost locale_count = { λ m. size_of_grid m.grid };

    fn locales(&self) -> usize
        ensures count { result ≡ size_of_grid self.now.grid }
        ensures some { 0 < result }
        ensures good { IsTrue (is_cyclic R self.now) }
    {
        self.locales
    }

    fn locale_of(&self, i: [i64; R]) -> usize
        ensures value { result ≡ cyclic_locale_of self.now i.entry }
        ensures below { result < size_of_grid self.now.grid }

        // The locale at these coordinates of the grid, in row-major order.
        ensures row_major { slice_get (points self.now.grid) result
            ≡ Some (cyclic_coordinates self.now.start self.now.grid i.entry) }
    {
        cyclic_place(&self.start, &self.grid, &i) as usize
    }
}
