ghost use Rattle.std.specs.Prelude.{◌≡◌, ℕ, ◌≤◌, List, [], ◌∷◌, length, take, true, IfOk, is_ok};
ghost use Rattle.std.specs.Bool.{Decides};
ghost use Rattle.std.specs.Ordering.{nat_cmp, as_partial_cmp, eq_by_cmp};
ghost use Rattle.std.specs.Cmp.Lexicographic.{slice_cmp, nat_list_cmp_total};
ghost use Rattle.std.specs.Cmp.{partial_order_from_total, partial_equiv_from_equiv, eq_by_cmp_equiv};
ghost use Rattle.std.specs.Cmp.Rules.{comparing};
ghost use Rattle.std.specs.List.{list_all};
ghost use Rattle.std.specs.Str.{IsUtf8};
ghost use Rattle.std.proofs.Common.{rules};
ghost use Rattle.wb_cells.specs.Names.{is_letter, is_name_part, is_name};

use crate::values::compared::compared;
use std::cmp::Ordering;
use std::marker::Model;
use thiserror::Error;

/// A text that is no name.
#[derive(Clone, Copy, Debug, PartialEq, Eq, Error)]
#[error("not a name: 1 to 32 bytes, a letter and then letters, digits and underscores")]
pub struct BadName;

/// The name of a domain or an array: an ASCII letter, then letters, digits and `_`, 1 to 32 bytes in all.
///
/// Names are ordered by their bytes. Contracts see a name as the list of its bytes.
#[derive(Clone, Copy, Debug)]
pub struct Name {
    bytes: [u8; 32],
    len: u8,
}

impl Model for Name {
    ghost use Rattle.std.specs.Prelude.{◌≡◌, ℕ, ◌≤◌, ◌-◌, List, length, take, drop, replicate};
    ghost use Rattle.wb_cells.specs.Packed.{packed, packed-take, length-take};
    ghost use Rattle.wb_cells.specs.Names.{IsName};

    ghost Value = { List ℕ };

    ghost view = { λ n. take n.len n.bytes };

    ghost invariant = { λ n. (n.len ≤ 32) × (drop n.len n.bytes ≡ replicate (32 - n.len) 0) × (length n.bytes ≡ 32) × IsName (take n.len n.bytes) };

    ghost inverse = { λ v. record { bytes = packed 32 0 v; len = length v } };

    ghost inverse_ok = { λ a h. λ i. record { bytes = packed-take 32 0 a.bytes a.len h.0 h.1 h.2 i; len = length-take 32 a.bytes a.len h.0 h.2 i } };
}

impl Name {
    /// The text as a name, or `BadName` where it is none.
    pub fn new(text: &str) -> Result<Name, BadName>
        ensures name { IfOk result (λ n. n ≡ text.now) }
        ensures accepts { is_ok result ≡ is_name text.now }
    {
        let source = text.as_bytes();
        if !is_name_text(source) {
            return Err(BadName);
        }
        Ok(kept(source))
    }

    // `A`, the least name.
    pub(crate) fn least() -> Name
        ensures { result ≡ 65 ∷ [] }
    {
        kept(b"A")
    }

    /// The name as a text.
    pub fn as_str(&self) -> &str
        ensures same { result.now ≡ self.now }
        ensures name { is_name self.now ≡ true }
    {
        match std::str::from_utf8(&self.bytes[..self.len as usize]) {
            Ok(text) => text,
            Err(_) => "",
        }
    }

    /// The bytes of the name.
    pub fn as_bytes(&self) -> &[u8]
        ensures same { result.now ≡ self.now }
        ensures name { is_name self.now ≡ true }
    {
        &self.bytes[..self.len as usize]
    }

    /// Whether the names are equal.
    pub fn is_same(&self, other: &Name) -> bool
        ensures { Decides result (self.now ≡ other.now) }
    {
        self.as_bytes() == other.as_bytes()
    }
}

// The bytes, kept in place.
fn kept(source: &[u8]) -> Name
    requires few { length source.now ≤ 32 }
    requires text { IsUtf8 source.now }
    requires name { is_name source.now ≡ true }
    ensures { result ≡ source.now }
{
    let mut bytes = [0; 32];
    let len = source.len();
    bytes[..len].copy_from_slice(source);
    Name {
        bytes,
        len: len as u8,
    }
}

fn is_letter(c: u8) -> bool
    ensures { result ≡ is_letter c }
{
    (65 <= c && c <= 90) || (97 <= c && c <= 122)
}

fn is_name_part(c: u8) -> bool
    ensures { result ≡ is_name_part c }
{
    is_letter(c) || (48 <= c && c <= 57) || c == 95
}

fn are_name_parts(s: &[u8]) -> bool
    ensures { result ≡ list_all is_name_part s.now }
{
    s.iter().all(|c| is_name_part(*c))
}

fn is_name_text(s: &[u8]) -> bool
    ensures name { result ≡ is_name s.now }
    ensures few { result ≡ true → length s.now ≤ 32 }
{
    let Some((first, rest)) = s.split_first() else {
        return false;
    };
    if rest.len() > 31 || !is_letter(*first) {
        return false;
    }
    are_name_parts(rest)
}

impl PartialEq for Name {
    ghost eq = { eq_by_cmp (slice_cmp nat_cmp) };

    ghost laws = { partial_equiv_from_equiv (eq_by_cmp_equiv nat_list_cmp_total) };

    fn eq(&self, other: &Name) -> bool {
        self.cmp(other).is_eq()
    }
}

impl Eq for Name {
    ghost laws = { eq_by_cmp_equiv nat_list_cmp_total };
}

impl PartialOrd for Name {
    ghost partial_cmp = { as_partial_cmp (slice_cmp nat_cmp) };

    ghost laws = { partial_order_from_total nat_list_cmp_total };

    fn partial_cmp(&self, other: &Name) -> Option<Ordering> {
        Some(self.cmp(other))
    }
}

impl Ord for Name {
    ghost cmp = { slice_cmp nat_cmp };

    ghost total = { nat_list_cmp_total };

    ghost matches_partial_cmp = { Prim.search (comparing, rules) };

    ghost matches_eq = { Prim.search (comparing, rules) };

    fn cmp(&self, other: &Name) -> Ordering {
        compared(self.as_bytes(), other.as_bytes())
    }
}
