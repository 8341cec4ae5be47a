//! Pieces of arrays: the elements that lie on one locale.

ghost use Rattle.std.specs.Prelude.{◌≡◌, IfOk};
ghost use Rattle.std.specs.Bool.{Decides};
ghost use Rattle.wb_book.specs.Piecewise.Indexed.{indexed};
ghost use Rattle.wb_book.specs.Piecewise.Lent.{lent};
ghost use Rattle.wb_history.specs.Pieces.{piece_of, piece_answer, OrNoMemory};

use crate::query::{Answer, refused};
use std::alloc::Global;
use std::marker::Model;
use wb_book::Book;
use wb_cells::{AnyIndex, AsIndex, Cell, Name};
use wb_edit::{Refusal, judgements};
use wb_elements::Pairs;
use wb_range::NoMemory;

/// The elements of an array on one locale, each after its index, ascending by index. Contracts see the list of them.
#[derive(Debug, Drop)]
pub struct Piece {
    pairs: Vec<(AnyIndex, i64)>,
}

impl Model for Piece {
    ghost use Rattle.std.specs.Prelude.{List, ℤ};
    ghost use Rattle.wb_cells.specs.declared.values.index.Index.{Index};

    ghost Value = { List (Index × ℤ) };

    ghost view = { λ a. a.pairs.items };
}

impl Piece {
    pub(crate) fn new(pairs: Vec<(AnyIndex, i64)>) -> Piece
        ensures { result ≡ pairs.items }
    {
        Piece { pairs }
    }

    /// The elements, each after its index, ascending by index.
    pub fn pairs(&self) -> &[(AnyIndex, i64)]
        ensures { result.now ≡ self.now }
    {
        self.pairs.as_slice()
    }

    /// An equal piece, or `NoMemory`.
    pub fn copy(&self, alloc: Global) -> Result<Piece, NoMemory>
        ensures { IfOk result (λ p. p ≡ self.now) }
    {
        Ok(Piece::new(Vec::from_slice(alloc, self.pairs())?))
    }

    /// Whether the pieces are equal.
    pub fn is_same(&self, other: &Piece) -> bool
        ensures { Decides result (self.now ≡ other.now) }
    {
        are_same(self.pairs(), other.pairs())
    }
}

fn is_same_pair(pair: &(AnyIndex, i64), other: &(AnyIndex, i64)) -> bool
    ensures { Decides result (pair.now ≡ other.now) }
{
    if pair.1 != other.1 {
        return false;
    }
    pair.0.is_same(&other.0)
}

// Whether these are the same pairs, in the same order.
fn are_same(pairs: &[(AnyIndex, i64)], others: &[(AnyIndex, i64)]) -> bool
    ensures { Decides result (pairs.now ≡ others.now) }
{
    if pairs.len() != others.len() {
        return false;
    }
    for at in 0..pairs.len() {
        if !is_same_pair(&pairs[at], &others[at]) {
            return false;
        }
    }
    true
}

// Elements that are lent, each after its index.
fn listed<K: AsIndex>(alloc: Global, pairs: &[(K, i64)]) -> Result<Vec<(AnyIndex, i64)>, NoMemory>
    ensures { IfOk result (λ v. v.items ≡ indexed K.as_index pairs.now) }
{
    let mut found = Vec::new(alloc);
    for (key, value) in pairs {
        found.push((key.any(), *value))?;
    }
    Ok(found)
}

// The piece of elements that are lent, each after its index, whatever the form of the indices.
fn piece_of(alloc: Global, pairs: Pairs<'_>) -> Result<Piece, NoMemory>
    ensures { IfOk result (λ p. p ≡ lent pairs.entry) }
{
    let pairs = match pairs {
        Pairs::Rank1(pairs) => listed(alloc, pairs)?,
        Pairs::Rank2(pairs) => listed(alloc, pairs)?,
        Pairs::Rank3(pairs) => listed(alloc, pairs)?,
        Pairs::Text(pairs) => listed(alloc, pairs)?,
    };
    Ok(Piece::new(pairs))
}

/// The piece of an array on a locale as an answer, or why there is none, or that memory ran out. No element of another
/// locale is looked at.
pub(crate) fn piece_answer(
    alloc: Global,
    book: &Book,
    array: Name,
    locale: u64,
) -> Result<Answer, Refusal>
    ensures { OrNoMemory (piece_answer (piece_of book.now.cells array locale)) result }
{
    // For the proof: the workbook is well formed.
    let _formed = book.writes();
    match judgements::array_kind(book.get(&Cell::Object(array))) {
        Ok(_) => {}
        Err(why) => return Err(refused(why)),
    }
    match book.piece(&array, locale as usize) {
        None => Err(refused(wb_cells::WhyRefused::OutOfDomain)),
        Some(pairs) => match piece_of(alloc, pairs) {
            Ok(piece) => Ok(Answer::Piece(piece)),
            Err(_) => Err(Refusal::NoMemory),
        },
    }
}
