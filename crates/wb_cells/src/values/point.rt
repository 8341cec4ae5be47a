ghost use Rattle.std.specs.Prelude.{◌≡◌, ◌≤◌, [], ◌∷◌, length};
ghost use Rattle.std.specs.Bool.{Decides};
ghost use Rattle.std.specs.Ordering.{int_cmp, as_partial_cmp, eq_by_cmp};
ghost use Rattle.std.specs.Cmp.Lexicographic.{slice_cmp, lists_total};
ghost use Rattle.std.specs.Cmp.{partial_order_from_total, partial_equiv_from_equiv, eq_by_cmp_equiv, int_cmp_total};
ghost use Rattle.std.specs.Cmp.Rules.{comparing};
ghost use Rattle.std.proofs.Common.{rules};

use crate::values::compared::compared;
use std::cmp::Ordering;
use std::marker::Model;

/// An integer, a pair or a triple: an index of a domain of rank 1, 2 or 3.
///
/// Points are ordered by their coordinates, compared from the left. Contracts see a point as the list of them.
#[derive(Clone, Copy, Debug)]
pub struct Point {
    at: [i64; 3],
    rank: u8,
}

impl Model for Point {
    ghost use Rattle.std.specs.Prelude.{◌≡◌, ℤ, pos, ◌≤◌, ◌-◌, List, length, take, drop, replicate};
    ghost use Rattle.wb_cells.specs.Packed.{packed, packed-take, length-take};

    ghost Value = { List ℤ };

    ghost view = { λ n. take n.rank n.at };

    ghost invariant = { λ n. (n.rank ≤ 3) × (drop n.rank n.at ≡ replicate (3 - n.rank) (pos 0)) × (length n.at ≡ 3) };

    ghost inverse = { λ v. record { at = packed 3 (pos 0) v; rank = length v } };

    ghost inverse_ok = { λ a h. λ i. record { at = packed-take 3 (pos 0) a.at a.rank h.0 h.1 h.2 i; rank = length-take 3 a.at a.rank h.0 h.2 i } };
}

impl Point {
    // No coordinates: less than all others.
    pub(crate) fn empty() -> Point
        ensures { result ≡ [] }
    {
        Point {
            at: [0, 0, 0],
            rank: 0,
        }
    }

    /// The integer `i`.
    pub fn single(i: i64) -> Point
        ensures { result ≡ i ∷ [] }
    {
        Point {
            at: [i, 0, 0],
            rank: 1,
        }
    }

    /// The pair `(i, j)`.
    pub fn pair(i: i64, j: i64) -> Point
        ensures { result ≡ i ∷ j ∷ [] }
    {
        Point {
            at: [i, j, 0],
            rank: 2,
        }
    }

    /// The triple `(i, j, k)`.
    pub fn triple(i: i64, j: i64, k: i64) -> Point
        ensures { result ≡ i ∷ j ∷ k ∷ [] }
    {
        Point {
            at: [i, j, k],
            rank: 3,
        }
    }

    /// The point with these coordinates, of which there are at most 3.
    pub fn of(coordinates: &[i64]) -> Point
        requires { length coordinates.now ≤ 3 }
        ensures { result ≡ coordinates.now }
    {
        let mut at = [0; 3];
        let rank = coordinates.len();
        at[..rank].copy_from_slice(coordinates);
        Point {
            at,
            rank: rank as u8,
        }
    }

    /// The coordinates, 1 to 3 of them.
    pub fn coordinates(&self) -> &[i64]
        ensures { result.now ≡ self.now }
    {
        &self.at[..self.rank as usize]
    }

    /// Whether the points are equal.
    pub fn is_same(&self, other: &Point) -> bool
        ensures { Decides result (self.now ≡ other.now) }
    {
        self.coordinates() == other.coordinates()
    }
}

impl PartialEq for Point {
    ghost eq = { eq_by_cmp (slice_cmp int_cmp) };

    ghost laws = { partial_equiv_from_equiv (eq_by_cmp_equiv (lists_total int_cmp_total)) };

    fn eq(&self, other: &Point) -> bool {
        self.cmp(other).is_eq()
    }
}

impl Eq for Point {
    ghost laws = { eq_by_cmp_equiv (lists_total int_cmp_total) };
}

impl PartialOrd for Point {
    ghost partial_cmp = { as_partial_cmp (slice_cmp int_cmp) };

    ghost laws = { partial_order_from_total (lists_total int_cmp_total) };

    fn partial_cmp(&self, other: &Point) -> Option<Ordering> {
        Some(self.cmp(other))
    }
}

impl Ord for Point {
    ghost cmp = { slice_cmp int_cmp };

    ghost total = { lists_total int_cmp_total };

    ghost matches_partial_cmp = { Prim.search (comparing, rules) };

    ghost matches_eq = { Prim.search (comparing, rules) };

    fn cmp(&self, other: &Point) -> Ordering {
        compared(self.coordinates(), other.coordinates())
    }
}
