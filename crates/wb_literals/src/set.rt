// Sets of indices or of texts.
ghost use Rattle.std.specs.Prelude.{◌≡◌, ◌↔◌, ◌+◌, ◌-◌, ◌≤◌, ◌<◌, ℕ, ℤ, List, length, take, drop, position, Option, Some, None, IfOk, IfSome, codes};
ghost use Rattle.std.specs.Prelude.{option_map, option_and_then};
ghost use Rattle.wb_literals.specs.Integer.{integer_at};
ghost use Rattle.wb_literals.specs.Set.{Items, items_at, listed_at, as_pair, pair_at, as_triple, triple_at, label_of, is_quote, quoted_at, text_at, short_of, short_text_at, indices_at};
ghost use Rattle.wb_literals.specs.Set.{short_texts_at, texts_at, filled_at, set_at, set_literal_of};
ghost use Rattle.wb_literals.specs.Said.{items};
ghost use Rattle.wb_literals.specs.Grammar.{IsSet};

use crate::index::{IndexLiteral, index_at};
use crate::integer::integer_at;
use crate::tokens::{after, after_token, close_at, comma_at};
use std::alloc::{AllocError, Global};
use wb_sets::{Label, ShortLabel};

/// A set as it is spelled: its items in the order of the text, repeats included.
#[derive(Drop)]
pub enum SetLiteral {
    /// `{}`, the empty set of any type
    Empty,
    /// Integers
    Integers(Vec<i64>),
    /// Indices of rank 2
    Pairs(Vec<[i64; 2]>),
    /// Indices of rank 3
    Triples(Vec<[i64; 3]>),
    /// Texts in quotes, of at most 23 bytes each
    ShortTexts(Vec<ShortLabel>),
    /// Texts in quotes, one of them longer
    Texts(Vec<Label>),
}

// What a list may hold.
pub(crate) trait Item: Copy {
    // The item at the front, and what follows it.
    ghost reads: { List ℕ → Option (Self × List ℕ) };

    fn item_at(bytes: &[u8]) -> Option<(Self, &[u8])>
    where
        Self: Sized,
        ensures { option_map (λ x. (x.0, x.1.now)) result ≡ reads bytes.now };
}

impl Item for i64 {
    ghost reads = { integer_at };

    fn item_at(bytes: &[u8]) -> Option<(i64, &[u8])> {
        integer_at(bytes)
    }
}

impl Item for [i64; 2] {
    ghost reads = { pair_at };

    fn item_at(bytes: &[u8]) -> Option<([i64; 2], &[u8])> {
        let (index, rest) = index_at(bytes)?;
        let pair = as_pair(index)?;
        Some((pair, rest))
    }
}

impl Item for [i64; 3] {
    ghost reads = { triple_at };

    fn item_at(bytes: &[u8]) -> Option<([i64; 3], &[u8])> {
        let (index, rest) = index_at(bytes)?;
        let triple = as_triple(index)?;
        Some((triple, rest))
    }
}

impl Item for Label {
    ghost reads = { text_at };

    fn item_at(bytes: &[u8]) -> Option<(Label, &[u8])> {
        text_at(bytes)
    }
}

impl Item for ShortLabel {
    ghost reads = { short_text_at };

    fn item_at(bytes: &[u8]) -> Option<(ShortLabel, &[u8])> {
        match text_at(bytes) {
            Some((text, rest)) => match short_of(&text) {
                Some(short) => Some((short, rest)),
                None => None,
            },
            None => None,
        }
    }
}

// The text in less room, if it is short.
fn short_of(text: &Label) -> Option<ShortLabel>
    ensures { result ≡ short_of text.now }
{
    ShortLabel::of(text)
}

fn as_pair(index: IndexLiteral) -> Option<[i64; 2]>
    ensures { result ≡ as_pair index }
{
    match index {
        IndexLiteral::Pair(i, j) => Some([i, j]),
        IndexLiteral::Integer(_) => None,
        IndexLiteral::Triple(_, _, _) => None,
    }
}

fn as_triple(index: IndexLiteral) -> Option<[i64; 3]>
    ensures { result ≡ as_triple index }
{
    match index {
        IndexLiteral::Triple(i, j, k) => Some([i, j, k]),
        IndexLiteral::Integer(_) => None,
        IndexLiteral::Pair(_, _) => None,
    }
}

// The bytes as a text.
#[tactic(auto, using(crate::proofs::Texts::label_yes, crate::proofs::Texts::label_no))]
fn label_of(bytes: &[u8]) -> Option<Label>
    ensures { result ≡ label_of bytes.now }
{
    match std::str::from_utf8(bytes) {
        Ok(text) => match Label::new(text) {
            Ok(label) => Some(label),
            Err(_) => None,
        },
        Err(_) => None,
    }
}

// The place of the next quote.
fn quote_in(bytes: &[u8]) -> Option<usize>
    ensures place { result ≡ position is_quote bytes.now }
    ensures within { IfSome result (λ n. n < length bytes.now) }
{
    bytes.iter().position(|b| *b == b'"')
}

// The text that ends at this place, and what follows the quote there.
fn quoted_at(bytes: &[u8], n: usize) -> Option<(Label, &[u8])>
    requires { n < length bytes.now }
    ensures { option_map (λ x. (x.0, x.1.now)) result ≡ quoted_at bytes.now n }
{
    let (front, _) = bytes.split_at(n);
    let text = label_of(front)?;
    Some((text, &bytes[n + 1..]))
}

// A text in quotes, and what follows it.
fn text_at(bytes: &[u8]) -> Option<(Label, &[u8])>
    ensures { option_map (λ x. (x.0, x.1.now)) result ≡ text_at bytes.now }
{
    let inside = after(b"\"", bytes)?;
    let n = quote_in(inside)?;
    quoted_at(inside, n)
}

// One or more items, separated by commas. There are no more of them than bytes.
pub(crate) fn items_at<T: Item>(
    alloc: Global,
    bytes: &[u8],
) -> Result<Option<(Vec<T>, &[u8])>, AllocError>
    ensures { IfOk result (λ r. option_map (λ x. (x.0.items, x.1.now)) r ≡ items_at T.reads (length bytes.now) bytes.now) }
{
    let mut items = Vec::new(alloc);
    let mut rest = bytes;
    for _ in 0..bytes.len() {
        let (item, behind) = match T::item_at(rest) {
            Some(read) => read,
            None => return Ok(None),
        };
        items.push(item)?;
        rest = match comma_at(behind) {
            Some(next) => next,
            None => return Ok(Some((items, behind))),
        };
    }
    Ok(None)
}

// One or more items and the closing brace, in no more room than they take.
fn listed_at<T: Item>(alloc: Global, bytes: &[u8]) -> Result<Option<(Vec<T>, &[u8])>, AllocError>
    ensures { IfOk result (λ r. option_map (λ x. (x.0.items, x.1.now)) r ≡ listed_at T.reads bytes.now) }
{
    let (mut items, rest) = match items_at(alloc, bytes)? {
        Some(read) => read,
        None => return Ok(None),
    };
    match close_at(b"}", rest) {
        Some(rest) => {
            items.shrink_to_fit();
            Ok(Some((items, rest)))
        }
        None => Ok(None),
    }
}

// Indices like the first one.
fn indices_at(
    alloc: Global,
    first: IndexLiteral,
    bytes: &[u8],
) -> Result<Option<(SetLiteral, &[u8])>, AllocError>
    ensures { IfOk result (λ r. option_map (λ x. (items x.0, x.1.now)) r ≡ indices_at first bytes.now) }
{
    match first {
        IndexLiteral::Integer(_) => {
            let read = listed_at(alloc, bytes)?;
            Ok(read.map(|(list, rest)| (SetLiteral::Integers(list), rest)))
        }
        IndexLiteral::Pair(_, _) => {
            let read = listed_at(alloc, bytes)?;
            Ok(read.map(|(list, rest)| (SetLiteral::Pairs(list), rest)))
        }
        IndexLiteral::Triple(_, _, _) => {
            let read = listed_at(alloc, bytes)?;
            Ok(read.map(|(list, rest)| (SetLiteral::Triples(list), rest)))
        }
    }
}

// Short texts.
fn short_texts_at(alloc: Global, bytes: &[u8]) -> Result<Option<(SetLiteral, &[u8])>, AllocError>
    ensures { IfOk result (λ r. option_map (λ x. (items x.0, x.1.now)) r ≡ short_texts_at bytes.now) }
{
    let read = listed_at(alloc, bytes)?;
    Ok(read.map(|(list, rest)| (SetLiteral::ShortTexts(list), rest)))
}

// Texts of any length.
fn any_texts_at(alloc: Global, bytes: &[u8]) -> Result<Option<(SetLiteral, &[u8])>, AllocError>
    ensures { IfOk result (λ r. option_map (λ x. (items x.0, x.1.now)) r ≡ texts_at bytes.now) }
{
    let read = listed_at(alloc, bytes)?;
    Ok(read.map(|(list, rest)| (SetLiteral::Texts(list), rest)))
}

// Texts are read as short ones, in less room; where one of them is longer, all are read anew.
#[tactic(auto, using(crate::proofs::ShortTexts::texts_short))]
fn texts_at(alloc: Global, bytes: &[u8]) -> Result<Option<(SetLiteral, &[u8])>, AllocError>
    ensures { IfOk result (λ r. option_map (λ x. (items x.0, x.1.now)) r ≡ texts_at bytes.now) }
{
    match short_texts_at(alloc, bytes)? {
        Some(read) => Ok(Some(read)),
        None => any_texts_at(alloc, bytes),
    }
}

// One or more items and the closing brace.
fn filled_at(alloc: Global, bytes: &[u8]) -> Result<Option<(SetLiteral, &[u8])>, AllocError>
    ensures { IfOk result (λ r. option_map (λ x. (items x.0, x.1.now)) r ≡ filled_at bytes.now) }
{
    if after(b"\"", bytes).is_some() {
        return texts_at(alloc, bytes);
    }
    match index_at(bytes) {
        Some((first, _)) => indices_at(alloc, first, bytes),
        None => Ok(None),
    }
}

/// The set at the front, and what follows it.
pub fn set_at(alloc: Global, bytes: &[u8]) -> Result<Option<(SetLiteral, &[u8])>, AllocError>
    ensures { IfOk result (λ r. option_map (λ x. (items x.0, x.1.now)) r ≡ set_at bytes.now) }
{
    let inside = match after_token(b"{", bytes) {
        Some(inside) => inside,
        None => return Ok(None),
    };
    match after(b"}", inside) {
        Some(rest) => Ok(Some((SetLiteral::Empty, rest))),
        None => filled_at(alloc, inside),
    }
}

// The set that all of the bytes spell.
fn whole_set(alloc: Global, bytes: &[u8]) -> Result<Option<SetLiteral>, AllocError>
    ensures { IfOk result (λ r. option_map items r ≡ set_literal_of bytes.now) }
{
    match set_at(alloc, bytes)? {
        Some((set, rest)) => {
            if rest.len() == 0 {
                Ok(Some(set))
            } else {
                Ok(None)
            }
        }
        None => Ok(None),
    }
}

/// The set that a text spells: any number of indices of one rank, or of texts, in braces. A text is
/// read just where the grammar spells the set by it.
pub fn read_set(alloc: Global, text: &str) -> Result<Option<SetLiteral>, AllocError>
    ensures value { IfOk result (λ r. option_map items r ≡ set_literal_of text.now) }
    ensures spelling { IfOk result (λ r. (x : Items) → (option_map items r ≡ Some x) ↔ IsSet text.now x) }
{
    whole_set(alloc, text.as_bytes())
}
