//! Where indices stand: points by their first coordinate, labels by their first bytes.

ghost use Rattle.std.specs.Prelude.{◌≡◌, ◌<◌, ◌≤◌, ◌^◌, max, pos, ◌+ℤ◌, get_or};
ghost use Rattle.wb_footprints.specs.Keys.{above_least, key_of, text_key};

use wb_cells::Point;

/// The key of a point: it goes by the first coordinate.
pub(crate) fn key_of(point: &Point) -> u64
    ensures { result ≡ key_of point.now }
{
    match point.coordinates() {
        [first, ..] => key_at(*first),
        _ => 1,
    }
}

// The key of the points that begin with a coordinate.
fn key_at(first: i64) -> u64
    ensures { result ≡ max 1 (above_least first) }
{
    let above = above_least(first);
    if above == 0 { 1 } else { above }
}

// How far a coordinate is above the least that there may be.
fn above_least(first: i64) -> u64
    ensures { pos result ≡ first +ℤ pos (2 ^ 63) }
{
    first.abs_diff(i64::MIN)
}

// The byte at a place of a text, or 0 behind its end.
fn byte_at(text: &[u8], at: usize) -> u64
    ensures value { result ≡ get_or text.now at 0 }
    ensures byte { result < 256 }
{
    match text.get(at) {
        Some(byte) => *byte as u64,
        None => 0,
    }
}

/// The key of a label: its first seven bytes as a number, with zeros behind a shorter one. Labels that begin alike have one key.
pub(crate) fn text_key(text: &[u8]) -> u64
    ensures { result ≡ text_key text.now }
{
    let mut key: u64 = 0;
    for at in 0..7 {
        key = key * 256 + byte_at(text, at);
    }
    key + 1
}

/// A reach that is no less than a width, and of which there are few: each is about twice the one before.
pub(crate) fn reach_of(width: u64) -> u64
    ensures { width ≤ result }
{
    let mut reach: u64 = 0;
    while reach < width {
        reach = reach.saturating_mul(2).saturating_add(1);
    }
    reach
}
