//! Rectangles: their order, their limits, slices and offsets.

use crate::index_sets::ranges::{range, told};
use crate::index_sets::rows::{Subject, Words, place, play, runs, shown, unknown};
use std::alloc::Global;
use std::test::Fail;
use wb_range::Domain;
use wb_rect::{Rect, RectErr};

// A rectangle is a range a dimension. Rectangles of one range.
const LINES: &str = r"
rectangle 1 65536 1 _ -> (65536, [((1, 65536), 1, 65536, Some(1))])
translate 1 4 1 _ 2 -> (4, [((3, 6), 1, 4, Some(3))])
translate 1 4 1 _ -2 -> (4, [((-1, 2), 1, 4, Some(-1))])
translate 1 4 1 _ 32766 -> (4, [((32767, 32770), 1, 4, Some(32767))])
translate 1 4 1 _ 32767 -> (4, [((32768, 32771), 1, 4, Some(32768))])
translate 1 4 1 _ 1000000000000000000 -> TooLarge
translate 1 10 2 _ 1 -> Strided
expand 1 4 1 _ 2 -> (8, [((-1, 6), 1, 8, Some(-1))])
expand 1 4 1 _ -2 -> (0, [((1, 0), 1, 0, None)])
expand 1 4 1 _ 32766 -> (65536, [((-32765, 32770), 1, 65536, Some(-32765))])
expand 1 4 1 _ 32767 -> TooLarge
expand 1 4 1 _ 1000000000000000000 -> TooLarge
expand 1 10 2 _ 9223372036854775807 -> Strided
slice 1 10 2 _ 1 10 3 _ -> (2, [((1, 7), 6, 2, Some(1))])
";

// Rectangles of two ranges.
const PLANES: &str = r"
rectangle 1 4 2 _ 1 10 -3 _ -> (8, [((1, 3), 2, 2, Some(1)), ((1, 10), -3, 4, Some(10))])
runs 1 4 2 _ 1 10 -3 _ -> [[1, 10], [1, 7], [1, 4], [1, 1], [3, 10], [3, 7], [3, 4], [3, 1]]
place 1 4 2 _ 1 10 -3 _ 3 7 -> (Some(5), true)
place 1 4 2 _ 1 10 -3 _ 2 7 -> (None, false)
place 1 4 2 _ 1 10 -3 _ 3 1 -> (Some(7), true)
place 1 4 2 _ 1 10 -3 _ 3 2 -> (None, false)
rectangle 1 0 1 _ 1 5 1 _ -> (0, [((1, 0), 1, 0, None), ((1, 5), 1, 5, Some(1))])
runs 1 0 1 _ 1 5 1 _ -> []
place 1 0 1 _ 1 5 1 _ 1 1 -> (None, false)
equal 1 0 1 _ 1 5 1 _ 1 5 1 _ 1 0 1 _ -> false
equal 1 0 1 _ 1 5 1 _ 3 2 1 _ 1 5 1 _ -> true
translate 1 0 1 _ 1 5 1 _ 9223372036854775807 1 -> (0, [((1, 0), 1, 0, None), ((2, 6), 1, 5, Some(2))])
expand 1 0 1 _ 1 5 1 _ 0 9223372036854775807 -> TooLarge
rectangle 1 256 1 _ 1 256 1 _ -> (65536, [((1, 256), 1, 256, Some(1)), ((1, 256), 1, 256, Some(1))])
expand 1 4 1 _ 1 4 1 _ 126 127 -> TooLarge
translate 1 4 1 _ 1 4 1 _ 2 -1 -> (16, [((3, 6), 1, 4, Some(3)), ((0, 3), 1, 4, Some(0))])
slice 1 4 1 _ 1 4 1 _ 3 6 1 _ 0 3 1 _ -> (6, [((3, 4), 1, 2, Some(3)), ((1, 3), 1, 3, Some(1))])
";

// Rectangles of three ranges.
const CUBES: &str = r"
rectangle 1 0 1 _ 1 0 1 _ 1 0 1 _ -> (0, [((1, 0), 1, 0, None), ((1, 0), 1, 0, None), ((1, 0), 1, 0, None)])
rectangle 1 40 1 _ 1 40 1 _ 1 40 1 _ -> (64000, [((1, 40), 1, 40, Some(1)), ((1, 40), 1, 40, Some(1)), ((1, 40), 1, 40, Some(1))])
rectangle 1 41 1 _ 1 41 1 _ 1 41 1 _ -> TooLarge
rectangle 1 65536 1 _ 1 65536 1 _ 1 65536 1 _ -> TooLarge
";

/// The rectangle of the next words.
pub fn rectangle<const R: usize>(words: &mut Words<'_>) -> Result<Rect<R>, RectErr> {
    let Ok(first) = range(words) else {
        words.refuse();
        return Err(RectErr::TooLarge);
    };
    let mut ranges = [first; R];
    for p in 1..R {
        match range(words) {
            Ok(range) => ranges[p] = range,
            Err(_) => words.refuse(),
        }
    }
    if R == 0 || R > 3 {
        return Err(RectErr::TooLarge);
    }
    Rect::new(ranges)
}

// Its size and each of its ranges, as many as its rank.
fn spelled<const R: usize>(alloc: Global, made: &Result<Rect<R>, RectErr>) -> Result<String, Fail> {
    let rectangle = match made {
        Ok(rectangle) => rectangle,
        Err(error) => return shown(alloc, error),
    };
    let mut ranges = Vec::new(alloc);
    for p in 0..rectangle.rank() {
        if let Some(range) = rectangle.range(p) {
            ranges.push(told(&range))?;
        }
    }
    shown(alloc, &(rectangle.size(), ranges.as_slice()))
}

#[derive(Drop)]
struct Ranked<const R: usize>;

impl<const R: usize> Ranked<R> {
    // What a call answers of two rectangles.
    fn of_two(
        &self,
        alloc: Global,
        call: &str,
        one: &Rect<R>,
        other: &Rect<R>,
    ) -> Result<String, Fail> {
        match call {
            "equal" => shown(alloc, &(one == other)),
            _ => spelled(alloc, &Ok(one.slice(other))),
        }
    }
}

impl<const R: usize> Subject for Ranked<R> {
    fn answer(&mut self, alloc: Global, call: &str, words: &mut Words<'_>) -> Result<String, Fail> {
        if R == 0 || R > 3 {
            return unknown();
        }
        let made = rectangle::<R>(words);
        let Ok(rectangle) = &made else {
            return spelled(alloc, &made);
        };
        match call {
            "rectangle" => spelled(alloc, &made),
            "runs" => runs(alloc, rectangle),
            "place" => place(alloc, rectangle, words.index()),
            "translate" => spelled(alloc, &rectangle.translate(words.index())),
            "expand" => spelled(alloc, &rectangle.expand(words.index())),
            _ => self.of_two(alloc, call, rectangle, &self::rectangle(words)?),
        }
    }
}

#[test]
fn rows_of_rectangles(rt: HostRuntime) -> Result<(), Fail> {
    play(&rt, rt.alloc(), &mut Ranked::<1>, LINES)?;
    play(&rt, rt.alloc(), &mut Ranked::<2>, PLANES)?;
    play(&rt, rt.alloc(), &mut Ranked::<3>, CUBES)
}
