//! The row-major place on the grid of the locale on which an index lies, for each distribution.
ghost use Rattle.std.specs.Prelude.{◌≡◌, ◌<◌, ◌≤ℤ◌, pos, true, Some, length, slice_get};
ghost use Rattle.wb_dist.specs.Grid.{size_of_grid, place, points, are_positive, is_grid};
ghost use Rattle.wb_dist.specs.Maps.{block_coordinates, cyclic_coordinates, block_cyclic_coordinates};

use crate::axis::{block_coordinate, block_cyclic_coordinate, cyclic_coordinate};

// The place of `index` where the box between the corners is cut into blocks.
pub(crate) fn block_place(low: &[i64], high: &[i64], grid: &[i64], index: &[i64]) -> u64
    // The grid is one, and all are of its rank.
    requires low_rank { length low.now ≡ length grid.now }
    requires high_rank { length high.now ≡ length grid.now }
    requires index_rank { length index.now ≡ length grid.now }
    requires good { is_grid grid.now ≡ true }

    // The place is that of the coordinates of `index` among the points of the grid.
    ensures value { result ≡ place grid.now (block_coordinates low.now high.now grid.now index.now) }
    ensures row_major { slice_get (points grid.now) result
        ≡ Some (block_coordinates low.now high.now grid.now index.now) }
    ensures below { result < size_of_grid grid.now }
{
    let mut at = 0;
    for k in 0..grid.len() {
        let count = unsigned(grid[k]);
        at = at * count + block_coordinate(low[k], high[k], count, index[k]);
    }
    at
}

// The place of `index` where the indices are dealt out one by one from `start` on.
pub(crate) fn cyclic_place(start: &[i64], grid: &[i64], index: &[i64]) -> u64
    requires start_rank { length start.now ≡ length grid.now }
    requires index_rank { length index.now ≡ length grid.now }
    requires good { is_grid grid.now ≡ true }
    ensures value { result ≡ place grid.now (cyclic_coordinates start.now grid.now index.now) }
    ensures row_major { slice_get (points grid.now) result
        ≡ Some (cyclic_coordinates start.now grid.now index.now) }
    ensures below { result < size_of_grid grid.now }
{
    let mut at = 0;
    for k in 0..grid.len() {
        let count = unsigned(grid[k]);
        at = at * count + cyclic_coordinate(start[k], count, index[k]);
    }
    at
}

// The place of `index` where the indices are dealt out in blocks of `size` from `start` on.
pub(crate) fn block_cyclic_place(start: &[i64], size: &[i64], grid: &[i64], index: &[i64]) -> u64
    // The grid is one, all are of its rank, and no block is empty.
    requires start_rank { length start.now ≡ length grid.now }
    requires size_rank { length size.now ≡ length grid.now }
    requires index_rank { length index.now ≡ length grid.now }
    requires filled { are_positive size.now ≡ true }
    requires good { is_grid grid.now ≡ true }

    // The place is that of the coordinates of `index` among the points of the grid.
    ensures value { result ≡ place grid.now (block_cyclic_coordinates start.now size.now grid.now index.now) }
    ensures row_major { slice_get (points grid.now) result
        ≡ Some (block_cyclic_coordinates start.now size.now grid.now index.now) }
    ensures below { result < size_of_grid grid.now }
{
    let mut at = 0;
    for k in 0..grid.len() {
        let count = unsigned(grid[k]);
        at = at * count + block_cyclic_coordinate(start[k], unsigned(size[k]), count, index[k]);
    }
    at
}

fn unsigned(n: i64) -> u64
    requires { pos 0 ≤ℤ n }
    ensures { pos result ≡ n }
{
    n as u64
}
