//! The arithmetic of ranges: where the congruent integers between two bounds begin, how many they
//! are, and how many strides lead from one integer to another.
ghost use Rattle.std.specs.Prelude.{◌≡◌, ◌≢◌, ℕ, ◌+◌, ◌-◌, ◌*◌, ◌^◌, ◌<◌, ◌≤◌, pos, ◌+ℤ◌, ◌-ℤ◌, ◌*ℤ◌, ◌↔◌, unsigned_abs, FitsSigned, IsTrue};
ghost use Rattle.std.specs.Int.{w64};
ghost use Rattle.wb_range.specs.Steps.{steps};
ghost use Rattle.wb_range.specs.Sequence.{start, direction, or_zero, is_congruent, sequence, IsBound};

/// A bound lies from `-LIMIT` to `LIMIT`.
pub const LIMIT: i64 = 1_000_000_000_000_000_000;

/// Whether a bound is within its limits.
pub fn is_bound(i: i64) -> bool
    ensures { IsTrue result ↔ IsBound i }
{
    -LIMIT <= i && i <= LIMIT
}

// The bound at which a range begins.
fn start_of(lo: i64, hi: i64, stride: i64) -> i64
    ensures { result ≡ start lo hi stride }
{
    if stride < 0 { hi } else { lo }
}

// How many integers lie from `lo` to `hi`.
fn integers_between(lo: i64, hi: i64) -> u64
    requires low { IsBound lo }
    requires high { IsBound hi }
    ensures { result ≡ or_zero (hi -ℤ lo +ℤ pos 1) }
{
    if lo <= hi { hi.abs_diff(lo) + 1 } else { 0 }
}

// How far from `start`, in the direction of `stride`, the first integer lies that is congruent to
// `align`.
fn offset_of(start: i64, stride: i64, align: i64) -> u64
    requires { stride ≢ pos 0 }
    ensures below { result < unsigned_abs stride }
    ensures congruent { IsTrue (is_congruent stride align (start +ℤ pos result *ℤ direction stride)) }
{
    let step = stride.unsigned_abs();
    let rest = align.abs_diff(start) % step;
    if rest == 0 {
        return 0;
    }
    let is_ahead = if stride < 0 {
        align <= start
    } else {
        start <= align
    };
    if is_ahead { rest } else { step - rest }
}

// How many of `offset`, `offset + step`, .. are below `places`.
fn count_of(places: u64, offset: u64, step: u64) -> u64
    requires few { places < 2 ^ 63 }
    requires below { offset < step }
    ensures reached { places ≤ offset + result * step }
    ensures not_passed { offset + result * step < places + step }
{
    if places <= offset {
        0
    } else {
        (places - offset - 1) / step + 1
    }
}

// The integer `offset` from `start`, in the direction of `stride`.
fn advance(start: i64, stride: i64, offset: u64) -> i64
    requires small { offset < 2 ^ 63 }
    requires fits { FitsSigned w64 (start +ℤ pos offset *ℤ direction stride) }
    ensures { result ≡ start +ℤ pos offset *ℤ direction stride }
{
    if stride < 0 {
        start - offset as i64
    } else {
        start + offset as i64
    }
}

/// The first integer of the sequence of a range, and how many it has.
pub fn first_and_count(lo: i64, hi: i64, stride: i64, align: Option<i64>) -> (i64, u64)
    requires nonzero { stride ≢ pos 0 }
    requires low { IsBound lo }
    requires high { IsBound hi }
    ensures all { sequence lo hi stride align ≡ steps result.0 stride result.1 }
    ensures first { 0 < result.1 → IsBound result.0 }
    ensures last { 0 < result.1 → IsBound (result.0 +ℤ pos (result.1 - 1) *ℤ stride) }
{
    let start = start_of(lo, hi, stride);
    let offset = offset_of(start, stride, align.unwrap_or(start));
    let count = count_of(integers_between(lo, hi), offset, stride.unsigned_abs());
    if count == 0 {
        return (1, 0);
    }
    (advance(start, stride, offset), count)
}

/// How many strides lead from `first` to `i`, if whole strides do.
pub fn steps_between(first: i64, stride: i64, i: i64) -> Option<u64>
    requires { stride ≢ pos 0 }
    ensures { (k : ℕ) → (result ≡ Some k) ↔ (i ≡ first +ℤ pos k *ℤ stride) }
{
    let is_behind = if stride > 0 { i < first } else { first < i };
    if is_behind {
        return None;
    }
    let distance = i.abs_diff(first);
    let step = stride.unsigned_abs();
    if distance % step == 0 {
        Some(distance / step)
    } else {
        None
    }
}
