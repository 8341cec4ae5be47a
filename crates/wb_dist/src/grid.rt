//! Grids of locales.
ghost use Rattle.std.specs.Prelude.{◌≡◌, ◌≤◌, ◌<◌, ◌*◌, pos, int_le, nat_le, ◌&&◌, Some, None, if◌then◌else◌};
ghost use Rattle.wb_range.specs.Sequence.{or_zero};
ghost use Rattle.wb_dist.specs.Grid.{size_of_grid, is_grid};

/// A grid has at most so many locales.
const MAX_LOCALES: u64 = 256;

// How many locales the grid has, if it is a grid.
pub(crate) fn locales_on(grid: &[i64]) -> Option<u64>
    ensures { result ≡ (if is_grid grid.now then Some (size_of_grid grid.now) else None) }
{
    let mut locales = 1;
    for k in 0..grid.len() {
        match times(locales, grid[k]) {
            Some(more) => locales = more,
            None => return None,
        }
    }
    Some(locales)
}

// The locales of a grid with one dimension more, if it has a locale along it and they are no more than a grid may have.
fn times(locales: u64, count: i64) -> Option<u64>
    requires some { 0 < locales }
    requires few { locales ≤ 256 }
    ensures { let more = locales * or_zero count in
        result ≡ (if int_le (pos 1) count && nat_le more 256 then Some more else None) }
{
    if count < 1 || count > MAX_LOCALES as i64 {
        return None;
    }
    let more = locales * count as u64;
    if more > MAX_LOCALES {
        return None;
    }
    Some(more)
}
