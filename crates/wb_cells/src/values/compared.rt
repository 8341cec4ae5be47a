ghost use Rattle.std.specs.Prelude.{◌≡◌};
ghost use Rattle.std.specs.Cmp.Lexicographic.{slice_cmp};

use std::cmp::Ordering;

/// How short lists compare: by the first pair that is not equal, and else by their lengths. The names, coordinates and the
/// like that cells have are too short for the standard order's longer strides to pay.
pub(crate) fn compared<T: Ord>(a: &[T], b: &[T]) -> Ordering
    ensures { result ≡ slice_cmp T.cmp a.now b.now }
{
    for i in 0..a.len().min(b.len()) {
        let found = a[i].cmp(&b[i]);
        if found.is_ne() {
            return found;
        }
    }
    a.len().cmp(&b.len())
}
