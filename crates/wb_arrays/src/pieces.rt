ghost use Rattle.std.specs.Prelude.{◌≡◌, ◌≢◌, ℕ, ℤ, ◌<◌, ◌≤◌, ◌↔◌, List, length, IfOk, IfSome, MatchOption, MatchResult, OnOk, OnErr, IfNone, Err};
ghost use Rattle.std.specs.Prelude.{Some, None, [], map, true, false, slice_index_or, slice_set};
ghost use Rattle.std.specs.List.Sorted.{IsStrictlySortedBy};
ghost use Rattle.std.specs.Map.{keys_of, set_value};
ghost use Rattle.std.specs.List.{flat_map, zip};
ghost use Rattle.std.specs.BTreeMap.{is_at, IsFromIterResult};
ghost use Rattle.wb_arrays.specs.Elements.{value_at};
ghost use Rattle.wb_arrays.specs.Pieces.{piece_of, pieces_of, lists_of, LieBelow};

use crate::part::part_of;
use crate::{Bound, Dropped, OutOfDomain, Store};
use std::alloc::{AllocError, Global};
use std::collections::BTreeMap;
use std::marker::{Model, PhantomData};
use wb_dist::PieceErr;
use wb_range::{Domain, Key, Mapping, NoMemory};

/// An array kept in pieces: for each locale of the mapping the pairs whose
/// index has that locale, ascending by index.
#[derive(Drop)]
pub struct Pieces<D: Domain, M: Mapping<Index = D::Index>> {
    pieces: Vec<Vec<(D::Index, i64)>>,
    size: usize,
    mapping: M,
    alloc: Global,
    of: PhantomData<D>,
}

impl<D: Domain, M: Mapping<Index = D::Index>> Model for Pieces<D, M> {
    ghost use Rattle.std.specs.Prelude.{List, ℤ};
    ghost use Rattle.wb_arrays.specs.Pieces.{merged, lists_of, IsSplit};

    ghost Value = { List (D.Index × ℤ) × M };

    ghost view = { λ p. (merged D.Index.cmp (lists_of p.pieces.items), p.mapping) };

    ghost invariant = { λ p. IsSplit D.Index.cmp (M.locale p.mapping) (M.locale_count p.mapping) p.size (lists_of p.pieces.items) };
}

impl<D: Domain, M: Mapping<Index = D::Index>> Pieces<D, M> {
    /// The array split by the mapping, in one pass over its elements.
    pub fn split(alloc: Global, mapping: &M, whole: &Bound<D>) -> Result<Pieces<D, M>, NoMemory>
        ensures { IfOk result (λ p. p ≡ (whole.now, mapping.now)) }
    {
        let pairs = pairs_in(alloc, whole.as_map())?;
        Pieces::of_pairs(alloc, mapping, pairs.as_slice())
    }

    /// The array of these pairs, which ascend, split by the mapping in one pass over them.
    pub fn of_pairs(
        alloc: Global,
        mapping: &M,
        pairs: &[(D::Index, i64)],
    ) -> Result<Pieces<D, M>, NoMemory>
        requires { IsStrictlySortedBy D.Index.cmp (keys_of pairs.now) }
        ensures { IfOk result (λ p. p ≡ (pairs.now, mapping.now)) }
    {
        let pieces = part_of(alloc, mapping, pairs, 0, mapping.locales())?;
        Ok(Pieces::from_lists(alloc, mapping, pairs, pieces))
    }

    /// The array of these pairs, which ascend, from the vectors that `part_of` made of them.
    pub fn from_lists(
        alloc: Global,
        mapping: &M,
        pairs: &[(D::Index, i64)],
        pieces: Vec<Vec<(D::Index, i64)>>,
    ) -> Pieces<D, M>
        requires ascending { IsStrictlySortedBy D.Index.cmp (keys_of pairs.now) }
        requires are_pieces { lists_of pieces.items ≡ pieces_of (M.locale mapping.now) (M.locale_count mapping.now) pairs.now }
        requires below { LieBelow (M.locale mapping.now) (M.locale_count mapping.now) pairs.now }
        ensures { result ≡ (pairs.now, mapping.now) }
    {
        Pieces {
            pieces,
            size: pairs.len(),
            mapping: *mapping,
            alloc,
            of: PhantomData,
        }
    }

    /// The whole array.
    pub fn gather(&self) -> Result<Bound<D>, NoMemory>
        ensures { IfOk result (λ b. b ≡ self.now.0) }
    {
        let map = gathered(self.alloc, self.pieces.as_slice())?;
        Ok(Bound::from_map(self.alloc, map))
    }

    /// Lends all pairs, ascending by index, where the mapping has one locale alone; `None` where it has another number.
    pub fn only_piece(&self) -> Option<&[(D::Index, i64)]>
        ensures cases { MatchOption result (M.locale_count self.now.1 ≢ 1) (λ s. (M.locale_count self.now.1 ≡ 1) × (s.now ≡ self.now.0)) }
        ensures ascending { IfSome result (λ s. IsStrictlySortedBy D.Index.cmp (keys_of s.now)) }
    {
        if self.mapping().locales() != 1 {
            return None;
        }
        Some(self.list_of(0))
    }

    /// A copy of all pairs, ascending by index. `NoMemory` where there is none for it.
    pub fn all_pairs(&self) -> Result<Vec<(D::Index, i64)>, NoMemory>
        ensures pairs { IfOk result (λ v. v.items ≡ self.now.0) }
        ensures ascending { IfOk result (λ v. IsStrictlySortedBy D.Index.cmp (keys_of v.items)) }
    {
        if let Some(pairs) = self.only_piece() {
            let copy = Vec::from_slice(self.alloc, pairs)?;
            return Ok(copy);
        }
        let whole = self.gather()?;
        pairs_in(self.alloc, whole.as_map())
    }

    /// Lends the pairs of locale `locale`, ascending by index; `None` where the
    /// mapping has no such locale.
    pub fn pairs(&self, locale: usize) -> Option<&[(D::Index, i64)]>
        ensures cases { MatchOption result (M.locale_count self.now.1 ≤ locale)
            (λ s. (locale < M.locale_count self.now.1) × (s.now ≡ piece_of (M.locale self.now.1) self.now.0 locale)) }
        ensures ascending { IfSome result (λ s. IsStrictlySortedBy D.Index.cmp (keys_of s.now)) }
    {
        if self.mapping().locales() <= locale {
            return None;
        }
        Some(self.list_of(locale))
    }

    /// A copy of the pairs of locale `locale`, ascending by index.
    pub fn piece(&self, locale: usize) -> Result<Vec<(D::Index, i64)>, PieceErr>
        ensures ok { IfOk result (λ v. (locale < M.locale_count self.now.1) × (v.items ≡ piece_of (M.locale self.now.1) self.now.0 locale)) }
        ensures ascending { IfOk result (λ v. IsStrictlySortedBy D.Index.cmp (keys_of v.items)) }
        ensures no_locale { (result ≡ Err PieceErr.NoLocale) ↔ (M.locale_count self.now.1 ≤ locale) }
    {
        match self.pairs(locale) {
            None => Err(PieceErr::NoLocale),
            Some(pairs) => match Vec::from_slice(self.alloc, pairs) {
                Ok(copy) => Ok(copy),
                Err(_) => Err(PieceErr::NoMemory),
            },
        }
    }

    /// The mapping that says on which locale each index lies.
    pub fn mapping(&self) -> M
        ensures value { result ≡ self.now.1 }
        ensures below { LieBelow (M.locale self.now.1) (M.locale_count self.now.1) self.now.0 }
    {
        // For the proof: the invariant, which speaks of the pieces too.
        let _ = &self.pieces;
        self.mapping
    }

    // The pairs of a locale that the mapping has.
    fn list_of(&self, locale: usize) -> &[(D::Index, i64)]
        requires { locale < M.locale_count self.now.1 }
        ensures value { result.now ≡ piece_of (M.locale self.now.1) self.now.0 locale }
        ensures ascending { IsStrictlySortedBy D.Index.cmp (keys_of result.now) }
    {
        // For the proof: the invariant, which speaks of the mapping too.
        let _ = &self.mapping;
        list_at(self.pieces.as_slice(), locale)
    }

    /// The element at `index`, as by `get`, and the place to pass for the index
    /// after it: such a call makes no search where the index stands in its
    /// piece at the place that was passed, or at the next one.
    pub fn get_from(&self, index: D::Index, near: usize) -> (Option<i64>, usize)
        ensures { result.0 ≡ value_at D.Index.cmp self.now.0 index }
    {
        value_near(self.list_of(self.mapping().locale_of(index)), index, near)
    }

    /// Replaces the element at `index`, if there is one, and gives the place
    /// to pass for the index after it, as `get_from` does.
    pub fn set_near(&mut self, index: D::Index, value: i64, near: usize) -> usize
        ensures elements { self.new.0 ≡ set_value (is_at (D.Index.cmp index)) self.old.0 value }
        ensures mapping { self.new.1 ≡ self.old.1 }
    {
        let locale = self.mapping().locale_of(index);
        match place_near(self.list_of(locale), index, near) {
            Some(place) => {
                // What was there is not wanted.
                let _old = self.write(locale, place, (index, value));
                place
            }
            None => near,
        }
    }

    /// Replaces all elements by one number, where the mapping has one locale alone; says whether it did.
    pub fn fill(&mut self, number: &i64) -> bool
        ensures done { result ≡ true → self.new.0 ≡ map (λ e. (e.0, number.now)) self.old.0 }
        ensures left { result ≡ false → self.new.0 ≡ self.old.0 }
        ensures indices { keys_of self.new.0 ≡ keys_of self.old.0 }
        ensures mapping { self.new.1 ≡ self.old.1 }
    {
        if self.mapping().locales() != 1 {
            return false;
        }
        fill_first(&mut self.pieces, number);
        true
    }

    /// Replaces all elements, in the order of their indices, where the mapping has one locale alone and there are as many
    /// numbers; says whether it did.
    pub fn set_all(&mut self, numbers: &[i64]) -> bool
        ensures done { result ≡ true → self.new.0 ≡ zip (keys_of self.old.0) numbers.now }
        ensures many { result ≡ true → length numbers.now ≡ length self.old.0 }
        ensures left { result ≡ false → self.new.0 ≡ self.old.0 }
        ensures indices { keys_of self.new.0 ≡ keys_of self.old.0 }
        ensures mapping { self.new.1 ≡ self.old.1 }
    {
        if self.mapping().locales() != 1 {
            return false;
        }
        if self.size != numbers.len() {
            return false;
        }
        set_first(&mut self.pieces, numbers);
        true
    }

    // Replaces the pair at `place` of the piece of its own locale, and gives the
    // old element.
    fn write(&mut self, locale: usize, place: usize, pair: (D::Index, i64)) -> i64
        requires locale { (locale < M.locale_count self.old.1) × (locale ≡ M.locale self.old.1 pair.0) }
        requires place { place < length (piece_of (M.locale self.old.1) self.old.0 locale) }
        requires index { (d : D.Index × ℤ) → (slice_index_or (piece_of (M.locale self.old.1) self.old.0 locale) place d).0 ≡ pair.0 }
        ensures elements { self.new ≡ (set_value (is_at (D.Index.cmp pair.0)) self.old.0 pair.1, self.old.1) }
        ensures old { value_at D.Index.cmp self.old.0 pair.0 ≡ Some result }
    {
        let old = self.list_of(locale)[place].1;
        write_at(&mut self.pieces, locale, place, pair);
        old
    }
}

impl<D: Domain, M: Mapping<Index = D::Index>> Store for Pieces<D, M> {
    type Index = D::Index;

    type Dom = D;

    ghost contents = { λ p. p.0 };

    ghost same_layout = { λ p q. p.1 ≡ q.1 };

    fn len(&self) -> usize {
        // For the proof: the invariant, which speaks of the mapping too.
        let _ = &self.mapping;
        self.size
    }

    fn get(&self, index: D::Index) -> Option<i64> {
        self.get_from(index, 0).0
    }

    fn set(&mut self, index: D::Index, value: i64) -> Result<i64, OutOfDomain> {
        let locale = self.mapping().locale_of(index);
        match place_in(self.list_of(locale), index) {
            Some(place) => Ok(self.write(locale, place, (index, value))),
            None => Err(OutOfDomain),
        }
    }

    fn reshape(&mut self, old: &D, new: &D, default: i64) -> Result<Dropped<D::Index>, NoMemory> {
        let mut whole = self.gather()?;
        let dropped = whole.reshape(old, new, default)?;
        let fresh = Pieces::split(self.alloc, &self.mapping(), &whole)?;
        *self = fresh;
        Ok(dropped)
    }

    fn restore(&mut self, old: &D, new: &D, dropped: &Dropped<D::Index>) -> Result<(), NoMemory> {
        let mut whole = self.gather()?;
        whole.restore(old, new, dropped)?;
        let fresh = Pieces::split(self.alloc, &self.mapping(), &whole)?;
        *self = fresh;
        Ok(())
    }
}

// The pairs of all pieces in one map, which is made of all at once.
fn gathered<I: Key>(alloc: Global, pieces: &[Vec<(I, i64)>]) -> Result<BTreeMap<I, i64>, AllocError>
    ensures { IfOk result (IsFromIterResult I.cmp (flat_map (λ p. p) (lists_of pieces.now))) }
{
    let pairs = chained(alloc, pieces)?;
    pairs.into_iter().collect(alloc)
}

// The pairs of all pieces, one piece behind the other.
fn chained<I: Copy>(alloc: Global, pieces: &[Vec<(I, i64)>]) -> Result<Vec<(I, i64)>, AllocError>
    ensures { IfOk result (λ v. v.items ≡ flat_map (λ p. p) (lists_of pieces.now)) }
{
    let mut pairs = Vec::new(alloc);
    for piece in pieces {
        pairs.extend_from_slice(piece)?;
    }
    Ok(pairs)
}

// The pairs of a map.
fn pairs_in<I: Key>(alloc: Global, map: &BTreeMap<I, i64>) -> Result<Vec<(I, i64)>, NoMemory>
    ensures pairs { IfOk result (λ v. v.items ≡ map.now.entries) }
    ensures ascending { IfOk result (λ v. IsStrictlySortedBy I.cmp (keys_of v.items)) }
{
    let mut pairs = Vec::with_capacity(alloc, map.len())?;
    for (index, value) in map {
        pairs.push((*index, *value))?;
    }
    Ok(pairs)
}

// The pairs of one of the pieces.
fn list_at<I: Copy>(pieces: &[Vec<(I, i64)>], place: usize) -> &[(I, i64)]
    requires { place < length pieces.now }
    ensures { result.now ≡ slice_index_or (lists_of pieces.now) place [] }
{
    pieces[place].as_slice()
}

// Replaces one pair of one of the pieces.
fn write_at<I: Copy>(pieces: &mut Vec<Vec<(I, i64)>>, locale: usize, place: usize, pair: (I, i64))
    requires locale { locale < length pieces.old.items }
    requires place { place < length (slice_index_or (lists_of pieces.old.items) locale []) }
    ensures { lists_of pieces.new.items ≡ slice_set (lists_of pieces.old.items) locale
        (slice_set (slice_index_or (lists_of pieces.old.items) locale []) place pair) }
{
    pieces[locale][place] = pair;
}

// Replaces the numbers of the first piece by one.
fn fill_first<I: Copy>(pieces: &mut Vec<Vec<(I, i64)>>, number: &i64)
    requires { 0 < length pieces.old.items }
    ensures { lists_of pieces.new.items ≡ slice_set (lists_of pieces.old.items) 0
        (map (λ e. (e.0, number.now)) (slice_index_or (lists_of pieces.old.items) 0 [])) }
{
    fill_pairs(pieces[0].as_mut_slice(), number);
}

// Replaces the numbers of pairs by one.
fn fill_pairs<I: Copy>(pairs: &mut [(I, i64)], number: &i64)
    ensures { pairs.new ≡ map (λ e. (e.0, number.now)) pairs.old }
{
    for pair in pairs.iter_mut() {
        pair.1 = *number;
    }
}

// Replaces the numbers of the first piece.
fn set_first<I: Copy>(pieces: &mut Vec<Vec<(I, i64)>>, numbers: &[i64])
    requires some { 0 < length pieces.old.items }
    requires many { length (slice_index_or (lists_of pieces.old.items) 0 []) ≡ length numbers.now }
    ensures { lists_of pieces.new.items ≡ slice_set (lists_of pieces.old.items) 0
        (zip (keys_of (slice_index_or (lists_of pieces.old.items) 0 [])) numbers.now) }
{
    set_pairs(pieces[0].as_mut_slice(), numbers);
}

// Replaces the numbers of pairs.
fn set_pairs<I: Copy>(pairs: &mut [(I, i64)], numbers: &[i64])
    requires { length pairs.old ≡ length numbers.now }
    ensures { pairs.new ≡ zip (keys_of pairs.old) numbers.now }
{
    for at in 0..pairs.len() {
        pairs[at].1 = numbers[at];
    }
}

// The element at `index` among ascending pairs, and where it stands, or else `near`, where it is tried first.
fn value_near<I: Key>(pairs: &[(I, i64)], index: I, near: usize) -> (Option<i64>, usize)
    requires { IsStrictlySortedBy I.cmp (keys_of pairs.now) }
    ensures { result.0 ≡ value_at I.cmp pairs.now index }
{
    match place_near(pairs, index, near) {
        Some(place) => (Some(pairs[place].1), place),
        None => (None, near),
    }
}

// The place of `index` among ascending pairs, tried first at `near` and at the next place.
fn place_near<I: Key>(pairs: &[(I, i64)], index: I, near: usize) -> Option<usize>
    requires { IsStrictlySortedBy I.cmp (keys_of pairs.now) }
    ensures found { IfSome result (λ p. (p < length pairs.now) × ((d : I × ℤ) → (slice_index_or pairs.now p d).0 ≡ index)) }
    ensures absent { IfNone result (value_at I.cmp pairs.now index ≡ None) }
{
    let next = near.saturating_add(1);
    if stands_at(pairs, index, near) {
        return Some(near);
    }
    if stands_at(pairs, index, next) {
        return Some(next);
    }
    place_in(pairs, index)
}

// Whether `index` stands at a place.
fn stands_at<I: Key>(pairs: &[(I, i64)], index: I, place: usize) -> bool
    ensures { result ≡ true → (place < length pairs.now) × ((d : I × ℤ) → (slice_index_or pairs.now place d).0 ≡ index) }
{
    if place < pairs.len() {
        pairs[place].0.cmp(&index).is_eq()
    } else {
        false
    }
}

// The place of `index` among ascending pairs.
fn place_in<I: Key>(pairs: &[(I, i64)], index: I) -> Option<usize>
    requires { IsStrictlySortedBy I.cmp (keys_of pairs.now) }
    ensures found { IfSome result (λ p. (p < length pairs.now) × ((d : I × ℤ) → (slice_index_or pairs.now p d).0 ≡ index)) }
    ensures absent { IfNone result (value_at I.cmp pairs.now index ≡ None) }
{
    pairs.binary_search_by_key(&index, |&(key, _)| key).ok()
}
