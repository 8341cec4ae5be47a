ghost use Rattle.std.specs.Prelude.{◌≡◌, ◌<◌, [], ◌∷◌, ◌++◌, OnOk, IfOk, vec_len, slice_index_or, slice_set};
ghost use Rattle.std.specs.Prelude.{replicate};
ghost use Rattle.wb_arrays.specs.Pieces.{pieces_from, lists_of, LieBelow};

use std::alloc::{AllocError, Global};
use wb_range::{Key, Mapping, NoMemory};

/// The pieces of `count` locales from `first` on, in one pass over the pairs of an array: piece l has those whose index
/// has locale l, in their order.
pub fn part_of<I: Key, M: Mapping<Index = I>>(
    alloc: Global,
    mapping: &M,
    pairs: &[(I, i64)],
    first: usize,
    count: usize,
) -> Result<Vec<Vec<(I, i64)>>, NoMemory>
    ensures pieces { IfOk result (λ v. lists_of v.items ≡ pieces_from (M.locale mapping.now) pairs.now first count) }
    ensures below { OnOk result (LieBelow (M.locale mapping.now) (M.locale_count mapping.now) pairs.now) }
{
    distributed(alloc, mapping, pairs, first, count).map_err(|_| NoMemory)
}

// The pieces of `count` locales from `first` on.
fn distributed<I: Key, M: Mapping<Index = I>>(
    alloc: Global,
    mapping: &M,
    pairs: &[(I, i64)],
    first: usize,
    count: usize,
) -> Result<Vec<Vec<(I, i64)>>, AllocError>
    ensures pieces { IfOk result (λ v. lists_of v.items ≡ pieces_from (M.locale mapping.now) pairs.now first count) }
    ensures below { OnOk result (LieBelow (M.locale mapping.now) (M.locale_count mapping.now) pairs.now) }
{
    let mut pieces = empty_pieces(alloc, count)?;
    for (index, value) in pairs {
        let locale = mapping.locale_of(*index);
        if first <= locale {
            let place = locale - first;
            if place < count {
                push_at(&mut pieces, place, (*index, *value))?;
            }
        }
    }
    Ok(pieces)
}

// Vectors without pairs.
fn empty_pieces<I: Copy>(alloc: Global, count: usize) -> Result<Vec<Vec<(I, i64)>>, AllocError>
    ensures { IfOk result (λ v. lists_of v.items ≡ replicate count []) }
{
    let mut pieces = Vec::new(alloc);
    for _ in 0..count {
        pieces.push(Vec::new(alloc))?;
    }
    Ok(pieces)
}

// Adds a pair to one of the pieces.
fn push_at<I: Copy>(
    pieces: &mut Vec<Vec<(I, i64)>>,
    place: usize,
    pair: (I, i64),
) -> Result<(), AllocError>
    requires { place < vec_len pieces.old }
    ensures { OnOk result (lists_of pieces.new.items ≡ slice_set (lists_of pieces.old.items) place
        (slice_index_or (lists_of pieces.old.items) place [] ++ pair ∷ [])) }
{
    pieces[place].push(pair)?;
    Ok(())
}
