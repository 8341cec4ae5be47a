//! Mapping literals, and the mappings that they stand for.
ghost use Rattle.std.specs.Prelude.{◌≡◌, ◌≤◌};
ghost use Rattle.wb_literals.specs.Limits.Literals.{rectangle_within};
ghost use Rattle.wb_literals.specs.Limits.Mappings.{coordinates_of, counts_of, blocks, dealt, dealt_in_blocks, mapping_within, of_rank};

use crate::limits::limit::LimitErr;
use crate::limits::literals::range_of;
use crate::{GridLiteral, IndexLiteral, MappingLiteral, RectangleLiteral};
use wb_cells::AnyLayout;
use wb_dist::{Block, BlockCyclic, Cyclic, Distribution, Layout};
use wb_range::Range;
use wb_rect::{Rect, RectErr};

// The coordinates of a literal of rank 1.
fn single(index: &IndexLiteral) -> Result<[i64; 1], LimitErr>
    ensures { result ≡ of_rank 1 (coordinates_of index.now) }
{
    match index {
        IndexLiteral::Integer(i) => Ok([*i]),
        IndexLiteral::Pair(_, _) => Err(LimitErr::BadMapping),
        IndexLiteral::Triple(_, _, _) => Err(LimitErr::BadMapping),
    }
}

// The coordinates of a literal of rank 2.
fn pair(index: &IndexLiteral) -> Result<[i64; 2], LimitErr>
    ensures { result ≡ of_rank 2 (coordinates_of index.now) }
{
    match index {
        IndexLiteral::Integer(_) => Err(LimitErr::BadMapping),
        IndexLiteral::Pair(i, j) => Ok([*i, *j]),
        IndexLiteral::Triple(_, _, _) => Err(LimitErr::BadMapping),
    }
}

// The coordinates of a literal of rank 3.
fn triple(index: &IndexLiteral) -> Result<[i64; 3], LimitErr>
    ensures { result ≡ of_rank 3 (coordinates_of index.now) }
{
    match index {
        IndexLiteral::Integer(_) => Err(LimitErr::BadMapping),
        IndexLiteral::Pair(_, _) => Err(LimitErr::BadMapping),
        IndexLiteral::Triple(i, j, k) => Ok([*i, *j, *k]),
    }
}

// The box of these ranges, within the limits of a rectangular domain.
fn rectangle<const R: usize>(ranges: [Range; R]) -> Result<Rect<R>, LimitErr>
    requires low { 1 ≤ R }
    requires high { R ≤ 3 }
    ensures { result ≡ rectangle_within ranges.entry }
{
    match Rect::new(ranges) {
        Ok(bounds) => Ok(bounds),
        Err(RectErr::TooLarge) => Err(LimitErr::TooLarge),
        Err(RectErr::Strided) => Err(LimitErr::TooLarge),
    }
}

// Blocks of a box, for a grid of its rank.
fn block_layout<const R: usize>(bounds: Rect<R>, grid: [i64; R]) -> Result<Layout<R>, LimitErr>
    requires low { 1 ≤ R }
    requires high { R ≤ 3 }
    ensures { result ≡ blocks bounds.entry grid.entry }
{
    // For the proof: the box is a rectangle of the rank R.
    let _kept = bounds.rank();
    match Block::new(bounds, grid) {
        Ok(block) => Ok(Layout::new(Distribution::Block(block))),
        Err(_) => Err(LimitErr::BadMapping),
    }
}

// Indices dealt out one by one, for a grid of the start's rank.
fn cyclic_layout<const R: usize>(start: [i64; R], grid: [i64; R]) -> Result<Layout<R>, LimitErr>
    requires low { 1 ≤ R }
    requires high { R ≤ 3 }
    ensures { result ≡ dealt start.entry grid.entry }
{
    match Cyclic::new(start, grid) {
        Ok(cyclic) => Ok(Layout::new(Distribution::Cyclic(cyclic))),
        Err(_) => Err(LimitErr::BadMapping),
    }
}

// Indices dealt out in blocks, for sizes and a grid of the start's rank.
fn block_cyclic_layout<const R: usize>(
    start: [i64; R],
    size: [i64; R],
    grid: [i64; R],
) -> Result<Layout<R>, LimitErr>
    requires low { 1 ≤ R }
    requires high { R ≤ 3 }
    ensures { result ≡ dealt_in_blocks start.entry size.entry grid.entry }
{
    match BlockCyclic::new(start, size, grid) {
        Ok(dealt) => Ok(Layout::new(Distribution::BlockCyclic(dealt))),
        Err(_) => Err(LimitErr::BadMapping),
    }
}

// Blocks of a box of rank 1.
fn line_blocks(bounds: Rect<1>, grid: &GridLiteral) -> Result<AnyLayout, LimitErr>
    ensures { result ≡ blocks bounds (counts_of grid.now) }
{
    // For the proof: the box is a rectangle of rank 1.
    let _kept = bounds.rank();
    match grid {
        GridLiteral::Rank1(n) => Ok(AnyLayout::line(block_layout(bounds, [*n])?)),
        GridLiteral::Rank2(_, _) => Err(LimitErr::BadMapping),
        GridLiteral::Rank3(_, _, _) => Err(LimitErr::BadMapping),
    }
}

// Blocks of a box of rank 2.
fn plane_blocks(bounds: Rect<2>, grid: &GridLiteral) -> Result<AnyLayout, LimitErr>
    ensures { result ≡ blocks bounds (counts_of grid.now) }
{
    // For the proof: the box is a rectangle of rank 2.
    let _kept = bounds.rank();
    match grid {
        GridLiteral::Rank1(_) => Err(LimitErr::BadMapping),
        GridLiteral::Rank2(n, m) => Ok(AnyLayout::plane(block_layout(bounds, [*n, *m])?)),
        GridLiteral::Rank3(_, _, _) => Err(LimitErr::BadMapping),
    }
}

// Blocks of a box of rank 3.
fn solid_blocks(bounds: Rect<3>, grid: &GridLiteral) -> Result<AnyLayout, LimitErr>
    ensures { result ≡ blocks bounds (counts_of grid.now) }
{
    // For the proof: the box is a rectangle of rank 3.
    let _kept = bounds.rank();
    match grid {
        GridLiteral::Rank1(_) => Err(LimitErr::BadMapping),
        GridLiteral::Rank2(_, _) => Err(LimitErr::BadMapping),
        GridLiteral::Rank3(n, m, l) => Ok(AnyLayout::solid(block_layout(bounds, [*n, *m, *l])?)),
    }
}

// The mapping by blocks of the box that a literal spells.
fn blocks_of(bounds: &RectangleLiteral, grid: &GridLiteral) -> Result<AnyLayout, LimitErr>
    ensures { result ≡ mapping_within (MappingLiteral.Block bounds.now grid.now) }
{
    match bounds {
        RectangleLiteral::Rank1(first) => {
            let first = range_of(first)?;
            line_blocks(rectangle([first])?, grid)
        }
        RectangleLiteral::Rank2(first, second) => {
            let first = range_of(first)?;
            let second = range_of(second)?;
            plane_blocks(rectangle([first, second])?, grid)
        }
        RectangleLiteral::Rank3(first, second, third) => {
            let first = range_of(first)?;
            let second = range_of(second)?;
            let third = range_of(third)?;
            solid_blocks(rectangle([first, second, third])?, grid)
        }
    }
}

// The cyclic mapping that literals spell.
fn cyclic_of(start: &IndexLiteral, grid: &GridLiteral) -> Result<AnyLayout, LimitErr>
    ensures { result ≡ dealt (coordinates_of start.now) (counts_of grid.now) }
{
    match grid {
        GridLiteral::Rank1(n) => Ok(AnyLayout::line(cyclic_layout(single(start)?, [*n])?)),
        GridLiteral::Rank2(n, m) => Ok(AnyLayout::plane(cyclic_layout(pair(start)?, [*n, *m])?)),
        GridLiteral::Rank3(n, m, l) => {
            Ok(AnyLayout::solid(cyclic_layout(triple(start)?, [*n, *m, *l])?))
        }
    }
}

// The block-cyclic mapping that literals spell.
fn block_cyclic_of(
    start: &IndexLiteral,
    size: &IndexLiteral,
    grid: &GridLiteral,
) -> Result<AnyLayout, LimitErr>
    ensures { result ≡ dealt_in_blocks (coordinates_of start.now) (coordinates_of size.now) (counts_of grid.now) }
{
    match grid {
        GridLiteral::Rank1(n) => {
            let layout = block_cyclic_layout(single(start)?, single(size)?, [*n])?;
            Ok(AnyLayout::line(layout))
        }
        GridLiteral::Rank2(n, m) => {
            let layout = block_cyclic_layout(pair(start)?, pair(size)?, [*n, *m])?;
            Ok(AnyLayout::plane(layout))
        }
        GridLiteral::Rank3(n, m, l) => {
            let layout = block_cyclic_layout(triple(start)?, triple(size)?, [*n, *m, *l])?;
            Ok(AnyLayout::solid(layout))
        }
    }
}

/// The mapping that a literal stands for, within all limits.
pub fn mapping_within(literal: &MappingLiteral) -> Result<AnyLayout, LimitErr>
    ensures { result ≡ mapping_within literal.now }
{
    match literal {
        MappingLiteral::Whole => Ok(AnyLayout::whole()),
        MappingLiteral::Block(bounds, grid) => blocks_of(bounds, grid),
        MappingLiteral::Cyclic(start, grid) => cyclic_of(start, grid),
        MappingLiteral::BlockCyclic(start, size, grid) => block_cyclic_of(start, size, grid),
    }
}
