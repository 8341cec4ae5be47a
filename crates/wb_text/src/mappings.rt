//! Canonical texts of rectangles and mappings, by their rank.
ghost use Rattle.std.specs.Prelude.{◌≡◌, ◌++◌, codes, IfOk, OnOk, string_bytes};
ghost use Rattle.wb_dist.specs.Maps.{block, cyclic, block_cyclic};
ghost use Rattle.wb_text.specs.Literals.{rectangle_text, point_text, last_grid_text, mapping_text};

use crate::literals::{push_list, push_point, push_rectangle};
use std::alloc::{AllocError, Global};
use wb_cells::{AnyLayout, AnyRect, LayoutByRank, Ranked};
use wb_dist::{Block, BlockCyclic, Cyclic, Distribution, Layout};
use wb_range::Range;
use wb_rect::Rect;

// The ranges of a rectangle.
fn ranges_of<const R: usize>(alloc: Global, rect: &Rect<R>) -> Result<Vec<Range>, AllocError>
    ensures { IfOk result (λ v. v.items ≡ rect.now) }
{
    let mut ranges = Vec::new(alloc);
    for p in 0..rect.rank() {
        if let Some(range) = rect.range(p) {
            ranges.push(range)?;
        }
    }
    Ok(ranges)
}

fn push_rect<const R: usize>(
    alloc: Global,
    out: &mut String,
    rect: &Rect<R>,
) -> Result<(), AllocError>
    ensures { OnOk result (string_bytes out.new ≡ string_bytes out.old ++ rectangle_text rect.now) }
{
    let ranges = ranges_of(alloc, rect)?;
    push_rectangle(out, &ranges)
}

// A comma, a grid and the closing parenthesis.
fn push_last_grid(out: &mut String, grid: &[i64]) -> Result<(), AllocError>
    ensures { OnOk result (string_bytes out.new ≡ string_bytes out.old ++ last_grid_text grid.now) }
{
    out.push_str(", ")?;
    push_list(out, grid)?;
    out.push_str(")")
}

fn push_block<const R: usize>(
    alloc: Global,
    out: &mut String,
    dealt: &Block<R>,
) -> Result<(), AllocError>
    ensures { OnOk result (string_bytes out.new ≡ string_bytes out.old ++ mapping_text (block dealt.now)) }
{
    out.push_str("blockDist(")?;
    push_rect(alloc, out, &dealt.bounds())?;
    push_last_grid(out, &dealt.grid())
}

// A word, and an index after it.
fn push_part(out: &mut String, word: &str, point: &[i64]) -> Result<(), AllocError>
    ensures { OnOk result (string_bytes out.new ≡ string_bytes out.old ++ (word.now ++ point_text point.now)) }
{
    out.push_str(word)?;
    push_point(out, point)
}

fn push_cyclic<const R: usize>(out: &mut String, dealt: &Cyclic<R>) -> Result<(), AllocError>
    ensures { OnOk result (string_bytes out.new ≡ string_bytes out.old ++ mapping_text (cyclic dealt.now)) }
{
    push_part(out, "cyclicDist(", &dealt.start())?;
    push_last_grid(out, &dealt.grid())
}

// A comma, the sizes of the blocks and a grid.
fn push_sizes(out: &mut String, sizes: &[i64], grid: &[i64]) -> Result<(), AllocError>
    ensures { OnOk result (string_bytes out.new ≡ string_bytes out.old ++ (codes ", " ++ (point_text sizes.now ++ last_grid_text grid.now))) }
{
    push_part(out, ", ", sizes)?;
    push_last_grid(out, grid)
}

fn push_block_cyclic<const R: usize>(
    out: &mut String,
    dealt: &BlockCyclic<R>,
) -> Result<(), AllocError>
    ensures { OnOk result (string_bytes out.new ≡ string_bytes out.old ++ mapping_text (block_cyclic dealt.now)) }
{
    push_part(out, "blockCycDist(", &dealt.start())?;
    push_sizes(out, &dealt.size(), &dealt.grid())
}

fn push_layout<const R: usize>(
    alloc: Global,
    out: &mut String,
    layout: &Layout<R>,
) -> Result<(), AllocError>
    ensures { OnOk result (string_bytes out.new ≡ string_bytes out.old ++ mapping_text layout.now) }
{
    match layout.distribution() {
        Distribution::Whole => out.push_str("none"),
        Distribution::Block(dealt) => push_block(alloc, out, &dealt),
        Distribution::Cyclic(dealt) => push_cyclic(out, &dealt),
        Distribution::BlockCyclic(dealt) => push_block_cyclic(out, &dealt),
    }
}

/// The text of a rectangle of any rank.
pub fn push_any_rect(alloc: Global, out: &mut String, rect: &AnyRect) -> Result<(), AllocError>
    ensures { OnOk result (string_bytes out.new ≡ string_bytes out.old ++ rectangle_text rect.now) }
{
    match rect.ranked() {
        Ranked::Rank1(line) => push_rect(alloc, out, &line),
        Ranked::Rank2(plane) => push_rect(alloc, out, &plane),
        Ranked::Rank3(solid) => push_rect(alloc, out, &solid),
    }
}

/// The text of a mapping of any rank.
pub fn push_any_layout(
    alloc: Global,
    out: &mut String,
    layout: &AnyLayout,
) -> Result<(), AllocError>
    ensures { OnOk result (string_bytes out.new ≡ string_bytes out.old ++ mapping_text layout.now) }
{
    match layout.laid() {
        LayoutByRank::Whole => out.push_str("none"),
        LayoutByRank::Rank1(line) => push_layout(alloc, out, &line),
        LayoutByRank::Rank2(plane) => push_layout(alloc, out, &plane),
        LayoutByRank::Rank3(solid) => push_layout(alloc, out, &solid),
    }
}
