//! The locales on which mappings put indices.
ghost use Rattle.std.specs.Prelude.{◌≤◌};

use crate::index_sets::rectangles::rectangle;
use crate::index_sets::rows::{Subject, Words, play, shown, unknown};
use std::alloc::Global;
use std::test::Fail;
use wb_dist::{BadMapping, Block, BlockCyclic, Cyclic, Distribution, Layout, SingleLocale};
use wb_range::Mapping;

// The locale of an index, and how many locales there are. A box is a range a dimension, which is low, high, stride and
// alignment, and a mapping is a box and a grid, a start and a grid, or a start, the extents of a block and a grid. The
// distance from the least integer to the greatest is 2^64 - 1: 5 modulo 10, and 3 whole blocks of 2^62.
const LINES: &str = r"
block 1 10 1 _ 4 0 -> (0, 4)
block 1 10 1 _ 4 1 -> (0, 4)
block 1 10 1 _ 4 2 -> (0, 4)
block 1 10 1 _ 4 3 -> (0, 4)
block 1 10 1 _ 4 4 -> (1, 4)
block 1 10 1 _ 4 5 -> (1, 4)
block 1 10 1 _ 4 6 -> (2, 4)
block 1 10 1 _ 4 7 -> (2, 4)
block 1 10 1 _ 4 8 -> (2, 4)
block 1 10 1 _ 4 9 -> (3, 4)
block 1 10 1 _ 4 10 -> (3, 4)
block 1 10 1 _ 4 11 -> (3, 4)
block 1 10 1 _ 4 -9223372036854775808 -> (0, 4)
block 1 10 1 _ 4 9223372036854775807 -> (3, 4)
block 1 4 2 _ 2 -> BadMapping
cyclic 1 3 -1 -> (1, 3)
cyclic 1 3 0 -> (2, 3)
cyclic 1 3 1 -> (0, 3)
cyclic -9223372036854775808 10 9223372036854775807 -> (5, 10)
cyclic 9223372036854775807 10 -9223372036854775808 -> (5, 10)
block_cyclic 1 2 3 0 -> (2, 3)
block_cyclic 1 2 3 7 -> (0, 3)
block_cyclic -9223372036854775808 4611686018427387904 5 9223372036854775807 -> (3, 5)
block_cyclic 9223372036854775807 4611686018427387904 5 -9223372036854775808 -> (1, 5)
block_cyclic 1 0 3 -> BadMapping
block_cyclic 1 1 0 -> BadMapping
block_cyclic 1 1 257 -> BadMapping
block_cyclic 1 1 256 1 -> (0, 256)
";

// The locale of an index at rank 2, and how many locales there are, also by the layout that a mapping is put into; and whether two
// layouts are the same.
const PLANES: &str = r"
block 1 4 1 _ 1 4 1 _ 2 2 3 2 -> (2, 4)
block 1 4 1 _ 1 0 1 _ 2 2 -> BadMapping
cyclic 1 1 16 17 -> BadMapping
layout block 1 6 1 _ 1 4 1 _ 3 2 6 1 -> (4, 6)
layout block_cyclic 1 5 2 1 3 2 3 4 -> (3, 6)
layout cyclic 1 5 3 2 3 4 -> (5, 6)
layout whole 7 7 -> (0, 1)
same cyclic 1 5 3 2 cyclic 1 5 3 2 -> true
same cyclic 1 5 3 2 cyclic 1 5 2 3 -> false
same cyclic 1 5 3 2 block_cyclic 1 5 2 1 3 2 -> false
";

fn block<const R: usize>(words: &mut Words<'_>) -> Result<Block<R>, BadMapping>
    requires low { 1 ≤ R }
    requires high { R ≤ 3 }
{
    match rectangle(words) {
        Ok(bounds) => Block::new(bounds, words.index()),
        Err(_) => Err(BadMapping),
    }
}

fn cyclic<const R: usize>(words: &mut Words<'_>) -> Result<Cyclic<R>, BadMapping>
    requires low { 1 ≤ R }
    requires high { R ≤ 3 }
{
    Cyclic::new(words.index(), words.index())
}

fn block_cyclic<const R: usize>(words: &mut Words<'_>) -> Result<BlockCyclic<R>, BadMapping>
    requires low { 1 ≤ R }
    requires high { R ≤ 3 }
{
    BlockCyclic::new(words.index(), words.index(), words.index())
}

/// The layout of the next words, of which the first says its kind.
pub fn layout<const R: usize>(words: &mut Words<'_>) -> Result<Layout<R>, BadMapping>
    requires low { 1 ≤ R }
    requires high { R ≤ 3 }
{
    let distribution = match words.word() {
        "block" => Distribution::Block(block(words)?),
        "cyclic" => Distribution::Cyclic(cyclic(words)?),
        "block_cyclic" => Distribution::BlockCyclic(block_cyclic(words)?),
        _ => Distribution::Whole,
    };
    Ok(Layout::new(distribution))
}

// The locale of the index of the next words, by any mapping, and how many there are; or that there is no such mapping.
fn locale_of<const R: usize, M: Mapping<Index = [i64; R]>>(
    alloc: Global,
    made: &Result<M, BadMapping>,
    words: &mut Words<'_>,
) -> Result<String, Fail>
    requires { R ≤ 3 }
{
    match made {
        Ok(mapping) => shown(
            alloc,
            &(mapping.locale_of(words.index()), mapping.locales()),
        ),
        Err(error) => shown(alloc, error),
    }
}

#[derive(Drop)]
struct Ranked<const R: usize>;

impl<const R: usize> Subject for Ranked<R> {
    fn answer(&mut self, alloc: Global, call: &str, words: &mut Words<'_>) -> Result<String, Fail> {
        if R == 0 || R > 3 {
            return unknown();
        }
        match call {
            "same" => shown(alloc, &(layout::<R>(words)? == layout::<R>(words)?)),
            "layout" => locale_of(alloc, &layout::<R>(words), words),
            "block" => locale_of(alloc, &block::<R>(words), words),
            "cyclic" => locale_of(alloc, &cyclic::<R>(words), words),
            "block_cyclic" => locale_of(alloc, &block_cyclic::<R>(words), words),
            _ => unknown(),
        }
    }
}

#[test]
fn rows_of_mappings(rt: HostRuntime) -> Result<(), Fail> {
    play(&rt, rt.alloc(), &mut Ranked::<1>, LINES)?;
    play(&rt, rt.alloc(), &mut Ranked::<2>, PLANES)?;
    let bounds = rectangle(&mut Words::of("1 10 1 _"))?;
    let blocks = Block::new(bounds, [4])?;
    assert!(rt; blocks.bounds() == bounds && blocks.grid() == [4]);
    let home: SingleLocale<i64> = SingleLocale::new();
    assert_eq!(rt; home.locale_of(7), 0);
    Ok(())
}
