ghost use Rattle.std.specs.Prelude.{◌≡◌, ℕ, ◌≤◌, List, ◌++◌, length, drop, replicate, IfOk, is_ok};
ghost use Rattle.std.specs.Ordering.{nat_cmp, as_partial_cmp, eq_by_cmp};
ghost use Rattle.std.specs.Cmp.Lexicographic.{slice_cmp, nat_list_cmp_total};
ghost use Rattle.std.specs.FinMap.{slice_cmp-IsAntisymmetric, nat_cmp-IsAntisymmetric};
ghost use Rattle.std.proofs.Common.{rules};
ghost use Rattle.std.specs.Cmp.{partial_order_from_total, partial_equiv_from_equiv, eq_by_cmp_equiv};
ghost use Rattle.std.specs.Cmp.Rules.{comparing};
ghost use Rattle.std.specs.List.{list_all};
ghost use Rattle.wb_sets.specs.Labels.{is_plain, is_label, IsLabel};

use std::cmp::Ordering;
use std::fmt;
use std::marker::Model;
use std::str::from_utf8;
use thiserror::Error;
use wb_range::Key;

/// A label has at most so many bytes.
const MAX_BYTES: usize = 64;

/// A text is no label: it is too long, or it holds a character that no label holds.
#[derive(Clone, Copy, Debug, PartialEq, Eq, Error)]
#[error("not at most 64 bytes without quotes, backslashes and control characters")]
pub struct BadLabel;

/// A short text that is an index: at most 64 bytes of UTF-8 without `"`, `\`, characters below U+0020 and U+007F.
///
/// It has a fixed size and takes no memory. Labels are ordered by their bytes, and contracts see one as its bytes.
#[derive(Clone, Copy)]
pub struct Label {
    bytes: [u8; MAX_BYTES],
    len: u8,
}

impl Model for Label {
    ghost use Rattle.std.specs.Prelude.{ℕ, List, length, take};
    ghost use Rattle.wb_sets.specs.Labels.{padded};
    ghost use Rattle.wb_sets.specs.Packed.{IsPacked, padded-take, length-take};

    ghost Value = { List ℕ };

    ghost view = { λ n. take n.len n.bytes };

    ghost invariant = { λ n. IsPacked 64 n.bytes n.len };

    ghost inverse = { λ v. record { bytes = padded 64 v; len = length v } };

    ghost inverse_ok = { λ a h. λ i. record { bytes = padded-take 64 a.bytes a.len h i; len = length-take 64 a.bytes a.len h i } };
}

impl Label {
    /// The label with this text, or [`BadLabel`] exactly where `text` is none.
    pub fn new(text: &str) -> Result<Label, BadLabel>
        ensures value { IfOk result (λ n. n ≡ text.now) }
        ensures accepted { is_ok result ≡ is_label text.now }
    {
        let source = text.as_bytes();
        if !is_label(source) {
            return Err(BadLabel);
        }
        Ok(packed(source))
    }

    /// The text of the label.
    pub fn as_str(&self) -> &str
        ensures value { result.now ≡ self.now }
        ensures label { IsLabel self.now }
    {
        match from_utf8(self.as_bytes()) {
            Ok(text) => text,
            Err(_) => unreachable!(),
        }
    }

    /// The label with these bytes.
    pub fn of_bytes(bytes: &[u8]) -> Label
        requires { IsLabel bytes.now }
        ensures { result ≡ bytes.now }
    {
        packed(bytes)
    }

    /// The bytes of the text.
    pub fn as_bytes(&self) -> &[u8]
        ensures value { result.now ≡ self.now }
        ensures label { IsLabel self.now }
    {
        &self.bytes[..self.len as usize]
    }
}

// The label with these bytes.
pub(crate) fn packed(source: &[u8]) -> Label
    requires { IsLabel source.now }
    ensures { result ≡ source.now }
{
    Label {
        bytes: over_zeros(source),
        len: source.len() as u8,
    }
}

// These bytes and zeros behind them.
pub(crate) fn over_zeros<const N: usize>(source: &[u8]) -> [u8; N]
    requires { length source.now ≤ N }
    ensures { result ≡ source.now ++ drop (length source.now) (replicate N 0) }
{
    let mut bytes = [0; N];
    bytes[..source.len()].copy_from_slice(source);
    bytes
}

// Whether these bytes of a text are those of a label.
fn is_label(source: &[u8]) -> bool
    ensures { result ≡ is_label source.now }
{
    if source.len() > MAX_BYTES {
        return false;
    }
    are_plain(source)
}

/// Whether each of these bytes may stand in a label: none is `"`, `\`, below U+0020 or U+007F.
///
/// Bytes from 0x80 on are parts of longer characters.
pub fn are_plain(source: &[u8]) -> bool
    ensures { result ≡ list_all is_plain source.now }
{
    source.iter().all(|c| is_plain(*c))
}

// Whether this byte may stand in a label.
fn is_plain(c: u8) -> bool
    ensures { result ≡ is_plain c }
{
    b' ' <= c && (c != b'"' && (c != b'\\' && c != 0x7f))
}

impl fmt::Debug for Label {
    fn fmt<W: fmt::Write>(&self, f: &mut fmt::Formatter<W>) -> fmt::Result {
        write!(f, "{:?}", self.as_str())
    }
}

impl PartialEq for Label {
    ghost eq = { eq_by_cmp (slice_cmp nat_cmp) };

    ghost laws = { partial_equiv_from_equiv (eq_by_cmp_equiv nat_list_cmp_total) };

    fn eq(&self, other: &Label) -> bool {
        self.cmp(other).is_eq()
    }
}

impl Eq for Label {
    ghost laws = { eq_by_cmp_equiv nat_list_cmp_total };
}

impl PartialOrd for Label {
    ghost partial_cmp = { as_partial_cmp (slice_cmp nat_cmp) };

    ghost laws = { partial_order_from_total nat_list_cmp_total };

    fn partial_cmp(&self, other: &Label) -> Option<Ordering> {
        Some(self.cmp(other))
    }
}

impl Ord for Label {
    ghost cmp = { slice_cmp nat_cmp };

    ghost total = { nat_list_cmp_total };

    ghost matches_partial_cmp = { Prim.search (comparing, rules) };

    ghost matches_eq = { Prim.search (comparing, rules) };

    fn cmp(&self, other: &Label) -> Ordering {
        self.as_bytes().cmp(other.as_bytes())
    }
}

impl Key for Label {
    ghost exact = { slice_cmp-IsAntisymmetric nat_cmp-IsAntisymmetric };
}
