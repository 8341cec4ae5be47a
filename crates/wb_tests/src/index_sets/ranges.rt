//! Ranges: which integers they run through, how they are spelled, and which are refused.

use crate::index_sets::rows::{Subject, Words, place, play, runs, shown, unknown};
use std::alloc::Global;
use std::test::Fail;
use wb_range::{Range, RangeErr, counted};

// A range is low, high, stride and alignment, which is _ for none.
const RANGES: &str = r"
runs -5 5 4 1 -> [-3, 1, 5]
runs -5 5 4 -9223372036854775808 -> [-4, 0, 4]
runs -5 5 4 9223372036854775807 -> [-5, -1, 3]
runs -5 5 -4 9223372036854775807 -> [3, -1, -5]
runs -5 5 9223372036854775807 5 -> [5]
runs -5 5 9223372036854775807 -9223372036854775808 -> [-1]
runs -5 5 -9223372036854775808 -9223372036854775808 -> [0]
runs -5 5 -9223372036854775808 9223372036854775807 -> [-1]
runs -5 5 -9223372036854775808 6 -> []
runs 1 10 -3 _ -> [10, 7, 4, 1]
place -5 5 4 1 -5 -> (None, false)
range 1 10 -3 _ -> ((1, 10), -3, 4, Some(10))
range 1 10 -2 _ -> ((2, 10), -2, 5, Some(10))
range -3 7 4 _ -> ((-3, 5), 4, 3, Some(-3))
range 3 2 7 _ -> ((1, 0), 1, 0, None)
range 1 10 -9223372036854775808 _ -> ((10, 10), 1, 1, Some(10))
range -1000000000000000000 1000000000000000000 1000000000000000000 _ -> ((-1000000000000000000, 1000000000000000000), 1000000000000000000, 3, Some(-1000000000000000000))
equal 1 10 -3 _ 1 10 -3 _ -> true
equal 1 10 -2 _ 2 10 -2 _ -> true
equal -3 7 4 _ -3 5 4 _ -> true
equal 3 2 7 _ 1 0 1 _ -> true
equal 1 10 -9223372036854775808 _ 10 10 1 _ -> true
equal -1000000000000000000 1000000000000000000 1000000000000000000 _ -1000000000000000000 1000000000000000000 1000000000000000000 _ -> true
equal 1 10 -3 _ 1 10 3 _ -> false
range 1 10 0 _ -> ZeroStride
range 1 9223372036854775807 0 _ -> ZeroStride
range 1 65536 1 _ -> ((1, 65536), 1, 65536, Some(1))
range 1 65537 1 _ -> TooLarge
range 1 65537 -2 _ -> ((1, 65537), -2, 32769, Some(65537))
range 1000000000000000001 5 1 _ -> TooLarge
range 5 -1000000000000000001 1 _ -> TooLarge
counted 5 3 -> Ok((5, 7))
counted 5 0 -> Ok((1, 0))
counted 9223372036854775807 0 -> Ok((1, 0))
counted 1000000000000000000 1 -> Ok((1000000000000000000, 1000000000000000000))
counted 1000000000000000000 2 -> Err(TooLarge)
counted -1000000000000000000 2000000000000000001 -> Ok((-1000000000000000000, 1000000000000000000))
counted -1000000000000000000 2000000000000000002 -> Err(TooLarge)
counted -9223372036854775808 1 -> Err(TooLarge)
counted 0 18446744073709551615 -> Err(TooLarge)
intersect 1 10 2 _ 1 10 3 _ -> ((1, 7), 6, 2, Some(1))
intersect 1 10 -3 _ 1 10 2 _ -> ((1, 7), 6, 2, Some(1))
intersect 2 10 2 _ 1 10 2 _ -> ((1, 0), 1, 0, None)
intersect 2 10 2 _ 4 5 1 _ -> ((4, 4), 1, 1, Some(4))
";

/// The range of the next words.
pub fn range(words: &mut Words<'_>) -> Result<Range, RangeErr> {
    let (low, high, stride) = (words.number(), words.number(), words.number());
    Range::new(low, high, stride, words.word().parse().ok())
}

/// The canonical bounds and the stride, how many integers there are, and the first.
pub fn told(range: &Range) -> ((i64, i64), i64, usize, Option<i64>) {
    (range.bounds(), range.stride(), range.count(), range.first())
}

#[derive(Drop)]
struct Ranges;

impl Subject for Ranges {
    fn answer(&mut self, alloc: Global, call: &str, words: &mut Words<'_>) -> Result<String, Fail> {
        if call == "counted" {
            return shown(alloc, &counted(words.number(), words.number()));
        }
        let range = match range(words) {
            Ok(range) => range,
            Err(error) => return shown(alloc, &error),
        };
        match call {
            "range" => shown(alloc, &told(&range)),
            "runs" => runs(alloc, &range),
            "place" => place(alloc, &range, words.number()),
            "equal" => shown(alloc, &(Ok(range) == self::range(words))),
            "intersect" => shown(alloc, &told(&range.intersect(&self::range(words)?))),
            _ => unknown(),
        }
    }
}

#[test]
fn rows_of_ranges(rt: HostRuntime) -> Result<(), Fail> {
    play(&rt, rt.alloc(), &mut Ranges, RANGES)
}
