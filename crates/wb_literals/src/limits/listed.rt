//! The indices that set literals list.
ghost use Rattle.std.specs.Prelude.{◌≡◌, ◌∷◌, [], IfOk, length, map, option_map, slice_get};
ghost use Rattle.wb_cells.specs.declared.values.index.Index.TheVariants.{Point as point_index, Text as text_index};
ghost use Rattle.wb_literals.specs.Said.{items};
ghost use Rattle.wb_literals.specs.Limits.Literals.{listed_in};

use crate::SetLiteral;
use std::alloc::{AllocError, Global};
use wb_cells::{AnyIndex, Index, Point};
use wb_sets::{Label, ShortLabel};

fn of_integer(integer: &i64) -> AnyIndex
    ensures { result ≡ point_index (integer.now ∷ []) }
{
    AnyIndex::new(Index::Point(Point::single(*integer)))
}

fn integers(alloc: Global, listed: &[i64]) -> Result<Vec<AnyIndex>, AllocError>
    ensures { IfOk result (λ v. v.items ≡ map (λ i. point_index (i ∷ [])) listed.now) }
{
    listed
        .iter()
        .map(
            |integer: &i64| -> AnyIndex
                ensures { result ≡ point_index (integer.now ∷ []) }
            { of_integer(integer) },
        )
        .collect(alloc)
}

fn of_pair(pair: &[i64; 2]) -> AnyIndex
    ensures { result ≡ point_index pair.now }
{
    let [i, j] = *pair;
    AnyIndex::new(Index::Point(Point::pair(i, j)))
}

fn pairs(alloc: Global, listed: &[[i64; 2]]) -> Result<Vec<AnyIndex>, AllocError>
    ensures { IfOk result (λ v. v.items ≡ map point_index listed.now) }
{
    listed
        .iter()
        .map(
            |pair: &[i64; 2]| -> AnyIndex
                ensures { result ≡ point_index pair.now }
            { of_pair(pair) },
        )
        .collect(alloc)
}

fn of_triple(triple: &[i64; 3]) -> AnyIndex
    ensures { result ≡ point_index triple.now }
{
    let [i, j, k] = *triple;
    AnyIndex::new(Index::Point(Point::triple(i, j, k)))
}

fn triples(alloc: Global, listed: &[[i64; 3]]) -> Result<Vec<AnyIndex>, AllocError>
    ensures { IfOk result (λ v. v.items ≡ map point_index listed.now) }
{
    listed
        .iter()
        .map(
            |triple: &[i64; 3]| -> AnyIndex
                ensures { result ≡ point_index triple.now }
            { of_triple(triple) },
        )
        .collect(alloc)
}

fn of_text(text: &Label) -> AnyIndex
    ensures { result ≡ text_index text.now }
{
    AnyIndex::new(Index::Text(*text))
}

fn texts(alloc: Global, listed: &[Label]) -> Result<Vec<AnyIndex>, AllocError>
    ensures { IfOk result (λ v. v.items ≡ map text_index listed.now) }
{
    listed
        .iter()
        .map(
            |text: &Label| -> AnyIndex
                ensures { result ≡ text_index text.now }
            { of_text(text) },
        )
        .collect(alloc)
}

fn short_texts(alloc: Global, listed: &[ShortLabel]) -> Result<Vec<AnyIndex>, AllocError>
    ensures { IfOk result (λ v. v.items ≡ map text_index listed.now) }
{
    listed
        .iter()
        .map(
            |text: &ShortLabel| -> AnyIndex
                ensures { result ≡ text_index text.now }
            { of_text(&text.label()) },
        )
        .collect(alloc)
}

/// The indices that a set lists, in the order of its text, repeats included.
pub fn listed_in(alloc: Global, set: &SetLiteral) -> Result<Vec<AnyIndex>, AllocError>
    ensures { IfOk result (λ v. v.items ≡ listed_in (items set.now)) }
{
    match set {
        SetLiteral::Empty => Ok(Vec::new(alloc)),
        SetLiteral::Integers(listed) => integers(alloc, listed),
        SetLiteral::Pairs(listed) => pairs(alloc, listed),
        SetLiteral::Triples(listed) => triples(alloc, listed),
        SetLiteral::ShortTexts(listed) => short_texts(alloc, listed),
        SetLiteral::Texts(listed) => texts(alloc, listed),
    }
}

impl SetLiteral {
    /// How many indices the set lists, repeats included.
    pub fn len(&self) -> usize
        ensures { result ≡ length (listed_in (items self.now)) }
    {
        match self {
            SetLiteral::Empty => 0,
            SetLiteral::Integers(listed) => listed.len(),
            SetLiteral::Pairs(listed) => listed.len(),
            SetLiteral::Triples(listed) => listed.len(),
            SetLiteral::ShortTexts(listed) => listed.len(),
            SetLiteral::Texts(listed) => listed.len(),
        }
    }

    /// The index that the set lists at a place, counted from 0; `None` behind the last one.
    pub fn nth(&self, place: usize) -> Option<AnyIndex>
        ensures { result ≡ slice_get (listed_in (items self.now)) place }
    {
        match self {
            SetLiteral::Empty => None,
            SetLiteral::Integers(listed) => Some(of_integer(listed.get(place)?)),
            SetLiteral::Pairs(listed) => Some(of_pair(listed.get(place)?)),
            SetLiteral::Triples(listed) => Some(of_triple(listed.get(place)?)),
            SetLiteral::ShortTexts(listed) => Some(of_text(&listed.get(place)?.label())),
            SetLiteral::Texts(listed) => Some(of_text(listed.get(place)?)),
        }
    }
}
