//! Numbers below 64 in a word: a bit for each.

ghost use Rattle.std.specs.Prelude.{◌≡◌, ℕ, ◌==◌, ◌<◌, true, false, IfSome, if◌then◌else◌};
ghost use Rattle.wb_footprints.specs.Relation.{IsLeastAfter};
ghost use Rattle.wb_footprints.specs.Numbers.{in_word};

/// The word with a bit set.
pub(crate) fn with_bit(word: u64, at: u64) -> u64
    requires { at < 64 }
    ensures bits { (i : ℕ) → in_word result i ≡ (if at == i then true else in_word word i) }
    ensures some { 0 < result }
{
    word | (1 << at)
}

/// The word with a bit cleared.
pub(crate) fn without_bit(word: u64, at: u64) -> u64
    requires { at < 64 }
    ensures { (i : ℕ) → i < 64 → in_word result i ≡ (if at == i then false else in_word word i) }
{
    word & !(1 << at)
}

/// Whether a bit is set.
pub(crate) fn has_bit(word: u64, at: u64) -> bool
    requires { at < 64 }
    ensures { result ≡ in_word word at }
{
    (word >> at) & 1 == 1
}

/// The lowest bit that is set.
pub(crate) fn lowest(word: u64) -> u64
    requires { 0 < word }
    ensures below { result < 64 }
    ensures set { in_word word result ≡ true }
    ensures lowest { (i : ℕ) → i < result → in_word word i ≡ false }
{
    word.trailing_zeros() as u64
}

/// The highest bit that is set.
pub(crate) fn highest(word: u64) -> u64
    requires { 0 < word }
    ensures below { result < 64 }
    ensures set { in_word word result ≡ true }
    ensures highest { (i : ℕ) → result < i → in_word word i ≡ false }
{
    (63 - word.leading_zeros()) as u64
}

/// The lowest bit above a place that is set.
pub(crate) fn lowest_above(word: u64, at: u64) -> Option<u64>
    requires { at < 64 }
    ensures least { IsLeastAfter (in_word word) at result }
    ensures below { IfSome result (λ i. i < 64) }
{
    let left = word >> at >> 1;
    if left == 0 {
        return None;
    }
    Some(at + 1 + lowest(left))
}
