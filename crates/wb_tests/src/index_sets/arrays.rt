//! Arrays: in one map and in pieces, over every kind of domain, and what a change of domain does to them.
ghost use Rattle.std.specs.Prelude.{IfOk};
ghost use Rattle.wb_arrays.specs.Elements.{HoldsExactly};

use crate::index_sets::mappings::layout;
use crate::index_sets::rectangles::rectangle;
use crate::index_sets::rows::{Subject, Words, play, shown};
use crate::index_sets::sets::{integers, sparse};
use std::alloc::Global;
use std::fmt::Debug;
use std::test::Fail;
use wb_arrays::{Bound, Pieces, Store};
use wb_dist::{Cyclic, Layout, SingleLocale};
use wb_range::{Domain, Key, Mapping, NoMemory};
use wb_rect::Rect;

// The moves take an array from a domain to another and back: the first element and that of new indices, the mapping, the
// domains, an index outside the old one, and those to look at. The answer is what setting a 9 outside gave, the elements
// over the new domain, the pairs that were lost, the elements over the old domain again, and how many there are. `move_whole`
// does so with an array in one map; a 9 is set outside behind the moves, and the elements follow. `piece` is the pairs of a
// locale, whose elements count up from 1.
const ROWS: &str = r"
move 1 0 block 2 5 1 _ 2 1 4 1 _ 3 6 1 _ 5 6 1 2 3 4 5 7 -> Err(OutOfDomain) [None, None, Some(3), Some(4), Some(0), None] [([1], 1), ([2], 2)] [Some(1), Some(2), Some(3), Some(4), None, None] 4
move_whole 1 0 1 4 1 _ 3 6 1 _ 5 6 1 2 3 4 5 6 -> [None, None, Some(3), Some(4), Some(0), Some(0)] [([1], 1), ([2], 2)] [Some(1), Some(2), Some(3), Some(4), None, None] 4 Err(OutOfDomain) [Some(1), Some(2), Some(3), Some(4), None, None]
move_sparse 7 5 1 1 2 2 1 4 1 _ 1 4 1 _ 2 1 1 2 3 1 4 1 _ 1 4 1 _ 2 2 3 4 4 4 4 2 1 1 4 4 -> Err(OutOfDomain) [None, Some(5)] [([1, 1], 7)] [Some(7), None] 2
move_integers 7 5 2 1 2 2 2 3 3 2 1 3 -> Err(OutOfDomain) [None, Some(5)] [(1, 7)] [Some(7), None] 2
piece 1 0 cyclic 1 4 1 10 1 _ 1 -> Ok([([2], 2), ([6], 6), ([10], 10)])
piece 1 0 cyclic 1 4 1 10 1 _ 3 -> Ok([([4], 4), ([8], 8)])
piece 1 0 cyclic 1 4 1 10 1 _ 4 -> Err(NoLocale)
piece 1 0 block 1 10 1 _ 4 1 10 1 _ 1 -> Ok([([4], 4), ([5], 5)])
piece 1 0 block 1 10 1 _ 4 1 10 1 _ 3 -> Ok([([9], 9), ([10], 10)])
piece 1 0 block 1 10 1 _ 4 1 10 1 _ 4 -> Err(NoLocale)
";

// The elements count up from the first, in the order of the domain.
fn numbered<D: Domain>(alloc: Global, domain: &D, first: i64) -> Result<Bound<D>, Fail>
    ensures { IfOk result (λ b. HoldsExactly D.Index.cmp b (D.indices domain.now)) }
{
    let mut whole = Bound::new(alloc, domain)?;
    let mut element = first;
    for p in 0..domain.size() {
        if let Some(i) = domain.nth(p) {
            if whole.set(i, element) != Ok(0) {
                return Err(Fail::new("an element is not 0 at first"));
            }
            element = element.wrapping_add(1);
        }
    }
    Ok(whole)
}

/// The elements at these indices.
pub(crate) fn elements<S: Store>(
    alloc: Global,
    array: &S,
    indices: &[S::Index],
) -> Result<String, Fail> {
    let mut elements = Vec::new(alloc);
    for i in indices {
        elements.push(array.get(*i))?;
    }
    shown(alloc, &elements.as_slice())
}

// What becomes of an array over `old` that goes to `new` and back, at these indices.
fn there_and_back<I: Key + Debug, S: Store<Index = I>>(
    alloc: Global,
    array: &mut S,
    old: &S::Dom,
    new: &S::Dom,
    default: i64,
    indices: &[I],
) -> Result<String, Fail>
    requires { HoldsExactly I.cmp (S.contents array.old) (S.Dom.indices old.now) }
{
    let dropped = array.reshape(old, new, default)?;
    let between = elements(alloc, array, indices)?;
    let lost = shown(alloc, &dropped.pairs())?;
    if array.unreshape(old, new, dropped).is_err() {
        return Err(NoMemory)?;
    }
    let back = elements(alloc, array, indices)?;
    let count = array.len();
    Ok(format!(in alloc; "{between} {lost} {back} {count}")?)
}

// What becomes of an array in pieces over `old` that goes to `new` and back, at these indices, and before it what setting a 9
// outside gave. The first element and that of new indices are given.
fn in_pieces<I: Key + Debug, D: Domain<Index = I>, M: Mapping<Index = I>>(
    alloc: Global,
    given: (i64, i64),
    mapping: &M,
    (old, new): (&D, &D),
    outside: I,
    indices: &[I],
) -> Result<String, Fail> {
    let mut whole = numbered(alloc, old, given.0)?;
    let refused = whole.set(outside, 9);
    let mut pieces = Pieces::split(alloc, mapping, &whole)?;
    let moved = there_and_back(alloc, &mut pieces, old, new, given.1, indices)?;
    Ok(format!(in alloc; "{refused:?} {moved}")?)
}

// What becomes of an array in one map over `old` that goes to `new` and back, at these indices, and then what setting a 9 outside
// gives, and the elements.
fn in_one_map<D: Domain>(
    alloc: Global,
    given: (i64, i64),
    (old, new): (&D, &D),
    outside: D::Index,
    indices: &[D::Index],
) -> Result<String, Fail>
where
    D::Index: Debug,
{
    let mut whole = numbered(alloc, old, given.0)?;
    let moved = there_and_back(alloc, &mut whole, old, new, given.1, indices)?;
    let refused = whole.set(outside, 9);
    let after = elements(alloc, &whole, indices)?;
    Ok(format!(in alloc; "{moved} {refused:?} {after}")?)
}

fn by_one_map(alloc: Global, given: (i64, i64), words: &mut Words<'_>) -> Result<String, Fail> {
    let (old, new): (Rect<1>, Rect<1>) = (rectangle(words)?, rectangle(words)?);
    let outside = words.index();
    let looks = words.indices(alloc)?;
    in_one_map(alloc, given, (&old, &new), outside, looks.as_slice())
}

fn by_rectangles(alloc: Global, given: (i64, i64), words: &mut Words<'_>) -> Result<String, Fail> {
    let blocks: Layout<1> = layout(words)?;
    let (old, new): (Rect<1>, Rect<1>) = (rectangle(words)?, rectangle(words)?);
    let outside = words.index();
    let looks = words.indices(alloc)?;
    in_pieces(
        alloc,
        given,
        &blocks,
        (&old, &new),
        outside,
        looks.as_slice(),
    )
}

fn by_sparse_sets(alloc: Global, given: (i64, i64), words: &mut Words<'_>) -> Result<String, Fail> {
    let cyclic: Cyclic<2> = Cyclic::new(words.index(), words.index())?;
    let old = sparse(alloc, words)?;
    let new = sparse(alloc, words)?;
    let outside = words.index();
    let looks = words.indices(alloc)?;
    in_pieces(
        alloc,
        given,
        &cyclic,
        (&old, &new),
        outside,
        looks.as_slice(),
    )
}

fn by_integer_sets(
    alloc: Global,
    given: (i64, i64),
    words: &mut Words<'_>,
) -> Result<String, Fail> {
    let old = integers(alloc, words)?;
    let new = integers(alloc, words)?;
    let outside = words.number();
    let looks = integers(alloc, words)?;
    in_pieces(
        alloc,
        given,
        &SingleLocale::new(),
        (&old, &new),
        outside,
        looks.as_slice(),
    )
}

// The pairs of a locale.
fn piece(alloc: Global, first: i64, words: &mut Words<'_>) -> Result<String, Fail> {
    let layout: Layout<1> = layout(words)?;
    let domain: Rect<1> = rectangle(words)?;
    let array = Pieces::split(alloc, &layout, &numbered(alloc, &domain, first)?)?;
    shown(alloc, &array.piece(words.number()))
}

#[derive(Drop)]
struct Arrays;

impl Subject for Arrays {
    fn answer(&mut self, alloc: Global, call: &str, words: &mut Words<'_>) -> Result<String, Fail> {
        let given = (words.number(), words.number());
        match call {
            "move" => by_rectangles(alloc, given, words),
            "move_whole" => by_one_map(alloc, given, words),
            "move_sparse" => by_sparse_sets(alloc, given, words),
            "move_integers" => by_integer_sets(alloc, given, words),
            _ => piece(alloc, given.0, words),
        }
    }
}

#[test]
fn rows_of_arrays(rt: HostRuntime) -> Result<(), Fail> {
    play(&rt, rt.alloc(), &mut Arrays, ROWS)
}
