//! Labels of few bytes, in less room.

ghost use Rattle.std.specs.Prelude.{◌≡◌, ℕ, ◌≤◌, nat_le, List, length, IfSome, is_some};
ghost use Rattle.std.specs.Ordering.{nat_cmp, as_partial_cmp, eq_by_cmp};
ghost use Rattle.std.specs.Cmp.Lexicographic.{slice_cmp, nat_list_cmp_total};
ghost use Rattle.std.specs.FinMap.{slice_cmp-IsAntisymmetric, nat_cmp-IsAntisymmetric};
ghost use Rattle.std.proofs.Common.{rules};
ghost use Rattle.std.specs.Cmp.{partial_order_from_total, partial_equiv_from_equiv, eq_by_cmp_equiv};
ghost use Rattle.std.specs.Cmp.Rules.{comparing};
ghost use Rattle.wb_sets.specs.Labels.{IsLabel};

use crate::label::{Label, over_zeros, packed};
use std::cmp::Ordering;
use std::fmt;
use std::marker::Model;
use wb_range::Key;

/// A short label has at most so many bytes.
const MAX_BYTES: usize = 23;

/// A [`Label`] of at most 23 bytes, in the room of 24.
///
/// Short labels are ordered as labels are, by their bytes, and contracts see one as its bytes.
#[derive(Clone, Copy)]
pub struct ShortLabel {
    bytes: [u8; MAX_BYTES],
    len: u8,
}

impl Model for ShortLabel {
    ghost use Rattle.std.specs.Prelude.{ℕ, List, length, take};
    ghost use Rattle.wb_sets.specs.Labels.{padded};
    ghost use Rattle.wb_sets.specs.Packed.{IsPacked, padded-take, length-take};

    ghost Value = { List ℕ };

    ghost view = { λ n. take n.len n.bytes };

    ghost invariant = { λ n. IsPacked 23 n.bytes n.len };

    ghost inverse = { λ v. record { bytes = padded 23 v; len = length v } };

    ghost inverse_ok = { λ a h. λ i. record { bytes = padded-take 23 a.bytes a.len h i; len = length-take 23 a.bytes a.len h i } };
}

impl ShortLabel {
    /// The short label with the bytes of `label`, or `None` exactly where they are more than 23.
    pub fn of(label: &Label) -> Option<ShortLabel>
        ensures value { IfSome result (λ k. k ≡ label.now) }
        ensures short { is_some result ≡ nat_le (length label.now) 23 }
    {
        ShortLabel::of_bytes(label.as_bytes())
    }

    /// The short label with these bytes, or `None` exactly where they are more than 23.
    pub fn of_bytes(bytes: &[u8]) -> Option<ShortLabel>
        requires { IsLabel bytes.now }
        ensures value { IfSome result (λ k. k ≡ bytes.now) }
        ensures short { is_some result ≡ nat_le (length bytes.now) 23 }
    {
        if bytes.len() > MAX_BYTES {
            return None;
        }
        Some(short(bytes))
    }

    /// The label with the same bytes.
    pub fn label(&self) -> Label
        ensures { result ≡ self.now }
    {
        packed(self.as_bytes())
    }

    /// The bytes of the text.
    pub fn as_bytes(&self) -> &[u8]
        ensures value { result.now ≡ self.now }
        ensures label { IsLabel self.now }
        ensures few { length self.now ≤ 23 }
    {
        &self.bytes[..self.len as usize]
    }
}

// The short label with these bytes.
fn short(source: &[u8]) -> ShortLabel
    requires label { IsLabel source.now }
    requires few { length source.now ≤ 23 }
    ensures { result ≡ source.now }
{
    ShortLabel {
        bytes: over_zeros(source),
        len: source.len() as u8,
    }
}

impl fmt::Debug for ShortLabel {
    fn fmt<W: fmt::Write>(&self, f: &mut fmt::Formatter<W>) -> fmt::Result {
        write!(f, "{:?}", self.label())
    }
}

impl PartialEq for ShortLabel {
    ghost eq = { eq_by_cmp (slice_cmp nat_cmp) };

    ghost laws = { partial_equiv_from_equiv (eq_by_cmp_equiv nat_list_cmp_total) };

    fn eq(&self, other: &ShortLabel) -> bool {
        self.cmp(other).is_eq()
    }
}

impl Eq for ShortLabel {
    ghost laws = { eq_by_cmp_equiv nat_list_cmp_total };
}

impl PartialOrd for ShortLabel {
    ghost partial_cmp = { as_partial_cmp (slice_cmp nat_cmp) };

    ghost laws = { partial_order_from_total nat_list_cmp_total };

    fn partial_cmp(&self, other: &ShortLabel) -> Option<Ordering> {
        Some(self.cmp(other))
    }
}

impl Ord for ShortLabel {
    ghost cmp = { slice_cmp nat_cmp };

    ghost total = { nat_list_cmp_total };

    ghost matches_partial_cmp = { Prim.search (comparing, rules) };

    ghost matches_eq = { Prim.search (comparing, rules) };

    fn cmp(&self, other: &ShortLabel) -> Ordering {
        self.as_bytes().cmp(other.as_bytes())
    }
}

impl Key for ShortLabel {
    ghost exact = { slice_cmp-IsAntisymmetric nat_cmp-IsAntisymmetric };
}
