ghost use Rattle.std.specs.Prelude.{◌≡◌, ℕ, ◌+◌, ◌<◌, Bool, true, ◌||◌, Some, IfSome};
ghost use Rattle.wb_footprints.specs.Relation.{IsLeastAfter};

/// The lesser of two numbers, where there are some.
pub(crate) fn earlier(a: Option<u64>, b: Option<u64>) -> Option<u64>
    ensures least { (p q : ℕ → Bool) (after : ℕ) → IsLeastAfter p after a → IsLeastAfter q after b → IsLeastAfter (λ n. p n || q n) after result }
    ensures above { (after : ℕ) → IfSome a (λ i. after < i) → IfSome b (λ i. after < i) → IfSome result (λ i. after < i) }
{
    match (a, b) {
        (Some(i), Some(j)) => Some(if i < j { i } else { j }),
        (Some(i), None) => Some(i),
        (None, other) => other,
    }
}

/// Whether the number is the one right above another: none above that is less.
pub(crate) fn is_next(first: Option<u64>, after: u64) -> bool
    ensures { result ≡ true → first ≡ Some (after + 1) }
{
    match first {
        None => false,
        Some(number) => match after.checked_add(1) {
            None => false,
            Some(next) => number == next,
        },
    }
}
