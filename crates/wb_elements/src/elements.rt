ghost use Rattle.std.specs.Prelude.{◌≡◌, ◌≤◌, true, false, length, map, option_map, Err, IsSome, IfOk, IfSome};
ghost use Rattle.std.specs.List.{zip};
ghost use Rattle.wb_cells.specs.Layouts.{is_of_rank};
ghost use Rattle.std.specs.List.Sorted.{IsStrictlySortedBy};
ghost use Rattle.std.specs.Map.{set_value, keys_of};
ghost use Rattle.std.specs.BTreeMap.{is_at};
ghost use Rattle.wb_arrays.specs.Elements.{value_at};
ghost use Rattle.wb_cells.specs.Cells.{index_cmp};
ghost use Rattle.wb_cells.specs.Shapes.{indices};
ghost use Rattle.wb_elements.specs.Piecewise.Changed.{changed_at, all_set};
ghost use Rattle.wb_elements.specs.Piecewise.Lent.{lent, piece_in};
ghost use Rattle.wb_elements.specs.Piecewise.Indexed.{indexed, AllOf};
ghost use Rattle.wb_elements.specs.Piecewise.Marked.{as_changes};
ghost use Rattle.wb_elements.specs.Piecewise.Seen.{seen_of, is_of_form, MayLie, IsKept};
ghost use Rattle.wb_arrays.specs.Reductions.{IsReduced};
ghost use Rattle.wb_cells.specs.declared.values.index.Index.{Index as any_index};
ghost use Rattle.wb_cells.specs.declared.values.index.Index.TheVariants.{Point as point_index};

pub(crate) mod typed;

use crate::block::ChangeBlock;
use crate::filled::filled;
use crate::made::made;
use crate::piece::{Pairs, points_on, texts_on};
use crate::ranged::{are_at, likely_place};
use std::alloc::Global;
use std::collections::BTreeMap;
use std::marker::Model;
use wb_arrays::{MoveErr, Mover, Op, Pieces, ReduceErr, Store, reduce};
use wb_cells::{AnyIndex, AnyLayout, AnyRect, AsIndex, LayoutByRank};
use wb_dist::{Distribution, Layout, SingleLocale};
use wb_range::{Domain, Mapping, NoMemory};
use wb_rect::Rect;
use wb_sets::{Assoc, Label};

/// The elements of an array, by the form of its indices.
#[derive(Drop)]
pub enum ElementsForm {
    /// Integers.
    Rank1(Pieces<Rect<1>, Layout<1>>),
    /// Pairs.
    Rank2(Pieces<Rect<2>, Layout<2>>),
    /// Triples.
    Rank3(Pieces<Rect<3>, Layout<3>>),
    /// Texts.
    Text(Pieces<Assoc<Label>, SingleLocale<Label>>),
}

/// The elements of an array, kept in pieces. Where they were made at the indices of a rectangle, the ranges of that are known.
pub struct Elements {
    form: ElementsForm,
    ranges: Option<AnyRect>,
}

// In a function of its own, so that a crate above need not prove anew how each field is let go.
impl Drop for Elements {
    fn drop(self) {
        let Elements { form: _, ranges: _ } = self;
    }
}

impl Model for Elements {
    ghost use Rattle.std.specs.Prelude.{List, ℕ, ℤ};
    ghost use Rattle.wb_cells.specs.declared.values.index.Index.{Index};
    ghost use Rattle.wb_dist.specs.Maps.{LayoutMap};

    ghost Value = { List (Index × ℤ) × (LayoutMap × ℕ) };

    ghost use Rattle.wb_elements.specs.Piecewise.Seen.{seen_of, AreElements};

    ghost view = { λ a. seen_of a.form };

    ghost invariant = { λ a. AreElements a.form a.ranges };
}

impl Elements {
    /// The element at an index, and the place to pass for the index after it: from place to place there is no search.
    pub fn get_from(&self, index: &AnyIndex, near: usize) -> (Option<i64>, usize)
        ensures { result.0 ≡ value_at index_cmp self.now.0 index.now }
    {
        match &self.form {
            ElementsForm::Rank1(pieces) => value_near(pieces, index, near),
            ElementsForm::Rank2(pieces) => value_near(pieces, index, near),
            ElementsForm::Rank3(pieces) => value_near(pieces, index, near),
            ElementsForm::Text(pieces) => value_near(pieces, index, near),
        }
    }

    /// The element at an index, and the place to pass for the index after it. Where the ranges of the elements are known, it is
    /// looked for first where it stands among these: so there is no search where all elements lie on one locale.
    pub fn find(&self, index: &AnyIndex) -> (Option<i64>, usize)
        ensures { result.0 ≡ value_at index_cmp self.now.0 index.now }
    {
        match &self.ranges {
            None => self.get_from(index, 0),
            Some(ranges) => self.get_from(index, likely_place(ranges, index)),
        }
    }

    /// Replaces the element at an index, if there is one, and gives the place to pass for the index after it.
    pub fn set_near(&mut self, index: &AnyIndex, value: i64, near: usize) -> usize
        ensures elements { self.new.0 ≡ set_value (is_at (index_cmp index.now)) self.old.0 value }
        ensures mapping { self.new.1 ≡ self.old.1 }
    {
        set_form(&mut self.form, index, value, near)
    }

    /// The rank of the indices, 0 for texts.
    pub fn rank(&self) -> u8
        ensures { result ≡ self.now.1.1 }
    {
        match &self.form {
            ElementsForm::Rank1(_) => 1,
            ElementsForm::Rank2(_) => 2,
            ElementsForm::Rank3(_) => 3,
            ElementsForm::Text(_) => 0,
        }
    }

    /// True only where the elements lie by a mapping, for indices of a rank; false tells nothing.
    pub fn lies_by(&self, to: &AnyLayout, rank: u8) -> bool
        ensures { result ≡ true → self.now.1 ≡ (to.now, rank) }
    {
        match &self.form {
            ElementsForm::Rank1(pieces) => {
                if rank == 1 && to.is_of_rank(1) {
                    pieces.mapping() == line_of(to)
                } else {
                    false
                }
            }
            ElementsForm::Rank2(pieces) => {
                if rank == 2 && to.is_of_rank(2) {
                    pieces.mapping() == plane_of(to)
                } else {
                    false
                }
            }
            ElementsForm::Rank3(pieces) => {
                if rank == 3 && to.is_of_rank(3) {
                    pieces.mapping() == solid_of(to)
                } else {
                    false
                }
            }
            ElementsForm::Text(_) => match to.laid() {
                LayoutByRank::Whole => rank == 0,
                _ => false,
            },
        }
    }

    /// The elements in the pieces of another mapping.
    pub fn remapped<V: Mover>(
        &self,
        alloc: Global,
        to: &AnyLayout,
        mover: &V,
    ) -> Result<Elements, MoveErr>
        requires points { 1 ≤ self.now.1.1 }
        requires rank { is_of_rank self.now.1.1 to.now ≡ true }
        ensures moved { IfOk result (λ e. e ≡ (self.now.0, (to.now, self.now.1.1))) }
        ensures no_thread { result ≡ Err MoveErr.NoThread → V.may_lack_threads mover.now }
    {
        match &self.form {
            ElementsForm::Rank1(pieces) => match mover.move_pieces(alloc, pieces, &line_of(to)) {
                Ok(pieces) => Ok(Elements {
                    form: ElementsForm::Rank1(pieces),
                    ranges: self.ranges,
                }),
                Err(why) => Err(why),
            },
            ElementsForm::Rank2(pieces) => match mover.move_pieces(alloc, pieces, &plane_of(to)) {
                Ok(pieces) => Ok(Elements {
                    form: ElementsForm::Rank2(pieces),
                    ranges: self.ranges,
                }),
                Err(why) => Err(why),
            },
            ElementsForm::Rank3(pieces) => match mover.move_pieces(alloc, pieces, &solid_of(to)) {
                Ok(pieces) => Ok(Elements {
                    form: ElementsForm::Rank3(pieces),
                    ranges: self.ranges,
                }),
                Err(why) => Err(why),
            },
            ElementsForm::Text(_) => unreachable!(),
        }
    }

    /// Elements by a mapping, for indices of a rank, 0 for texts: those that are given, with changes. What is given or removed
    /// may have indices of another form, as long as no element stays at one.
    pub fn made(
        alloc: Global,
        old: &[(AnyIndex, i64)],
        changes: &[(AnyIndex, Option<i64>)],
        to: &AnyLayout,
        rank: u8,
    ) -> Result<Elements, NoMemory>
        requires ascending { IsStrictlySortedBy index_cmp (keys_of old.now) }
        requires may_lie { MayLie to.now rank }
        requires formed { (i : any_index) → IsSome (changed_at changes.now (value_at index_cmp old.now i) i) → is_of_form rank i ≡ true }
        ensures elements { IfOk result (λ e. (i : any_index) → value_at index_cmp e.0 i ≡ changed_at changes.now (value_at index_cmp old.now i) i) }
        ensures lies { IfOk result (λ e. e.1 ≡ (to.now, rank)) }
    {
        if rank == 1 {
            let pieces = made(alloc, old, changes, &line_of(to))?;
            return Ok(Elements {
                form: ElementsForm::Rank1(pieces),
                ranges: None,
            });
        }
        if rank == 2 {
            let pieces = made(alloc, old, changes, &plane_of(to))?;
            return Ok(Elements {
                form: ElementsForm::Rank2(pieces),
                ranges: None,
            });
        }
        if rank == 3 {
            let pieces = made(alloc, old, changes, &solid_of(to))?;
            return Ok(Elements {
                form: ElementsForm::Rank3(pieces),
                ranges: None,
            });
        }
        let pieces = made(alloc, old, changes, &SingleLocale::new())?;
        Ok(Elements {
            form: ElementsForm::Text(pieces),
            ranges: None,
        })
    }

    /// The ranges of the rectangle at whose indices the elements stand, one after another, if they are known.
    pub fn ranges(&self) -> Option<AnyRect>
        ensures { IfSome result (λ rs. keys_of self.now.0 ≡ indices rs) }
    {
        // For the proof: the invariant, which says that the elements stand at the ranges.
        let _ = &self.form;
        self.ranges
    }

    /// True only where the elements stand at the indices of a rectangle, one after another; false tells nothing.
    pub fn has_ranges(&self, ranges: &AnyRect) -> bool
        ensures same { result ≡ true → keys_of self.now.0 ≡ indices ranges.now }
        ensures ascending { IsStrictlySortedBy index_cmp (keys_of self.now.0) }
    {
        // For the proof: the indices of the elements ascend.
        let _ascending = self.len();
        match self.ranges() {
            Some(known) => known.is_same(ranges),
            None => false,
        }
    }

    // True only where the elements stand at the indices of a rectangle, one after another; false without memory too.
    fn stand_at(&self, alloc: Global, ranges: &AnyRect) -> bool
        ensures { result ≡ true → keys_of self.now.0 ≡ indices ranges.now }
    {
        match self.pairs(alloc) {
            Ok(pairs) => are_at(pairs.as_slice(), ranges),
            Err(_) => false,
        }
    }

    /// Notes the ranges of a rectangle, if the elements stand at its indices, one after another. Without memory it notes nothing.
    pub fn note_ranges(&mut self, alloc: Global, ranges: &AnyRect)
        ensures { self.new ≡ self.old }
    {
        if self.stand_at(alloc, ranges) {
            self.ranges = Some(*ranges);
        }
    }

    /// Replaces all elements by a number, if there is a short way; says whether it did.
    pub fn fill(&mut self, number: &i64) -> bool
        ensures done { result ≡ true → self.new.0 ≡ map (λ e. (e.0, number.now)) self.old.0 }
        ensures left { result ≡ false → self.new.0 ≡ self.old.0 }
        ensures mapping { self.new.1 ≡ self.old.1 }
    {
        fill_form(&mut self.form, number)
    }

    /// Replaces all elements, one after another, if there are as many numbers and there is a short way; says whether it did.
    pub fn set_numbers(&mut self, numbers: &[i64]) -> bool
        ensures done { result ≡ true → self.new.0 ≡ zip (keys_of self.old.0) numbers.now }
        ensures many { result ≡ true → length numbers.now ≡ length self.old.0 }
        ensures left { result ≡ false → self.new.0 ≡ self.old.0 }
        ensures mapping { self.new.1 ≡ self.old.1 }
    {
        number_form(&mut self.form, numbers)
    }

    /// The elements without their indices, in their order.
    pub fn numbers(&self, alloc: Global) -> Result<Vec<i64>, NoMemory>
        ensures { IfOk result (λ v. v.items ≡ map (λ e. e.1) self.now.0) }
    {
        match &self.form {
            ElementsForm::Rank1(pieces) => numbers_of(alloc, pieces),
            ElementsForm::Rank2(pieces) => numbers_of(alloc, pieces),
            ElementsForm::Rank3(pieces) => numbers_of(alloc, pieces),
            ElementsForm::Text(pieces) => numbers_of(alloc, pieces),
        }
    }

    /// Elements by a mapping, for indices of a rank: at each index of a rectangle the number that is set there. `None` where
    /// that can't be done in a short way.
    pub fn of_block<B: ChangeBlock>(
        alloc: Global,
        block: &B,
        to: &AnyLayout,
        rank: u8,
    ) -> Result<Option<Elements>, NoMemory>
        ensures elements { IfOk result (λ o. IfSome o (λ e. all_set e.0 ≡ as_changes point_index (B.entries block.now))) }
        ensures lies { IfOk result (λ o. IfSome o (λ e. e.1 ≡ (to.now, rank))) }
    {
        if !block.is_whole() {
            return Ok(None);
        }
        let ranges = block.over();
        if rank == 1 && to.is_of_rank(1) {
            return match filled(alloc, block, &line_of(to)) {
                Ok(Some(pieces)) => Ok(Some(Elements {
                    form: ElementsForm::Rank1(pieces),
                    ranges: Some(ranges),
                })),
                Ok(None) => Ok(None),
                Err(why) => Err(why),
            };
        }
        if rank == 2 && to.is_of_rank(2) {
            return match filled(alloc, block, &plane_of(to)) {
                Ok(Some(pieces)) => Ok(Some(Elements {
                    form: ElementsForm::Rank2(pieces),
                    ranges: Some(ranges),
                })),
                Ok(None) => Ok(None),
                Err(why) => Err(why),
            };
        }
        if rank == 3 && to.is_of_rank(3) {
            return match filled(alloc, block, &solid_of(to)) {
                Ok(Some(pieces)) => Ok(Some(Elements {
                    form: ElementsForm::Rank3(pieces),
                    ranges: Some(ranges),
                })),
                Ok(None) => Ok(None),
                Err(why) => Err(why),
            };
        }
        Ok(None)
    }

    /// How many elements there are. They stand in the order of their indices.
    pub fn len(&self) -> usize
        ensures count { result ≡ length self.now.0 }
        ensures ascending { IsStrictlySortedBy index_cmp (keys_of self.now.0) }
    {
        match &self.form {
            ElementsForm::Rank1(pieces) => len_of(pieces),
            ElementsForm::Rank2(pieces) => len_of(pieces),
            ElementsForm::Rank3(pieces) => len_of(pieces),
            ElementsForm::Text(pieces) => len_of(pieces),
        }
    }

    /// The elements on a locale, lent; `None` where the mapping has no such locale.
    pub fn piece(&self, locale: usize) -> Option<Pairs<'_>>
        ensures { option_map lent result ≡ piece_in self.now.1.0 self.now.0 locale }
    {
        match &self.form {
            ElementsForm::Rank1(pieces) => match points_on(pieces, locale) {
                Some(pairs) => Some(Pairs::Rank1(pairs)),
                None => None,
            },
            ElementsForm::Rank2(pieces) => match points_on(pieces, locale) {
                Some(pairs) => Some(Pairs::Rank2(pairs)),
                None => None,
            },
            ElementsForm::Rank3(pieces) => match points_on(pieces, locale) {
                Some(pairs) => Some(Pairs::Rank3(pairs)),
                None => None,
            },
            ElementsForm::Text(pieces) => match texts_on(pieces, locale) {
                Some(pairs) => Some(Pairs::Text(pairs)),
                None => None,
            },
        }
    }

    /// The sum, the least or the greatest of the elements, the same by every mover: `Empty` exactly where there is no
    /// least or greatest one, `Overflow` exactly where the whole sum is no i64 (Chapel Language Specification, Reductions
    /// and Scans).
    pub fn reduce<V: Mover>(&self, op: Op, mover: &V) -> Result<i64, ReduceErr>
        ensures answer { IsReduced op self.now.0 result }
        ensures overflow { result ≡ Err ReduceErr.Overflow → op ≡ Op.Sum }
    {
        match &self.form {
            ElementsForm::Rank1(pieces) => reduction_of(pieces, op, mover),
            ElementsForm::Rank2(pieces) => reduction_of(pieces, op, mover),
            ElementsForm::Rank3(pieces) => reduction_of(pieces, op, mover),
            ElementsForm::Text(pieces) => reduction_of(pieces, op, mover),
        }
    }

    /// The elements, each after its index, in the order of the indices.
    pub fn pairs(&self, alloc: Global) -> Result<Vec<(AnyIndex, i64)>, NoMemory>
        ensures pairs { IfOk result (λ v. v.items ≡ self.now.0) }
        ensures ascending { IfOk result (λ v. IsStrictlySortedBy index_cmp (keys_of v.items)) }
    {
        match &self.form {
            ElementsForm::Rank1(pieces) => pairs_of(alloc, pieces),
            ElementsForm::Rank2(pieces) => pairs_of(alloc, pieces),
            ElementsForm::Rank3(pieces) => pairs_of(alloc, pieces),
            ElementsForm::Text(pieces) => pairs_of(alloc, pieces),
        }
    }
}

fn set_form(form: &mut ElementsForm, index: &AnyIndex, value: i64, near: usize) -> usize
    requires { IsKept form.old }
    ensures elements { (seen_of form.new).0 ≡ set_value (is_at (index_cmp index.now)) (seen_of form.old).0 value }
    ensures mapping { (seen_of form.new).1 ≡ (seen_of form.old).1 }
    ensures kept { IsKept form.new }
{
    match form {
        ElementsForm::Rank1(pieces) => set_in(pieces, index, value, near),
        ElementsForm::Rank2(pieces) => set_in(pieces, index, value, near),
        ElementsForm::Rank3(pieces) => set_in(pieces, index, value, near),
        ElementsForm::Text(pieces) => set_in(pieces, index, value, near),
    }
}

fn fill_form(form: &mut ElementsForm, number: &i64) -> bool
    requires { IsKept form.old }
    ensures done { result ≡ true → (seen_of form.new).0 ≡ map (λ e. (e.0, number.now)) (seen_of form.old).0 }
    ensures left { result ≡ false → (seen_of form.new).0 ≡ (seen_of form.old).0 }
    ensures mapping { (seen_of form.new).1 ≡ (seen_of form.old).1 }
    ensures kept { IsKept form.new }
    ensures names { keys_of (seen_of form.new).0 ≡ keys_of (seen_of form.old).0 }
{
    match form {
        ElementsForm::Rank1(pieces) => fill_in(pieces, number),
        ElementsForm::Rank2(pieces) => fill_in(pieces, number),
        ElementsForm::Rank3(pieces) => fill_in(pieces, number),
        ElementsForm::Text(pieces) => fill_in(pieces, number),
    }
}

fn number_form(form: &mut ElementsForm, numbers: &[i64]) -> bool
    // The indices have the form that they are kept in.
    requires { IsKept form.old }

    // The elements become the numbers, in order, if there are as many; else they stay.
    ensures done { result ≡ true → (seen_of form.new).0 ≡ zip (keys_of (seen_of form.old).0) numbers.now }
    ensures many { result ≡ true → length numbers.now ≡ length (seen_of form.old).0 }
    ensures left { result ≡ false → (seen_of form.new).0 ≡ (seen_of form.old).0 }

    // What stays.
    ensures mapping { (seen_of form.new).1 ≡ (seen_of form.old).1 }
    ensures kept { IsKept form.new }
    ensures names { keys_of (seen_of form.new).0 ≡ keys_of (seen_of form.old).0 }
{
    match form {
        ElementsForm::Rank1(pieces) => set_numbers_in(pieces, numbers),
        ElementsForm::Rank2(pieces) => set_numbers_in(pieces, numbers),
        ElementsForm::Rank3(pieces) => set_numbers_in(pieces, numbers),
        ElementsForm::Text(pieces) => set_numbers_in(pieces, numbers),
    }
}

// A mapping of rank 1 as what it is.
fn line_of(to: &AnyLayout) -> Layout<1>
    requires { is_of_rank 1 to.now ≡ true }
    ensures { result ≡ to.now }
{
    match to.laid() {
        LayoutByRank::Rank1(layout) => layout,
        LayoutByRank::Rank2(layout) => {
            // For the proof: the mapping is one for rank 2.
            let _good = layout.locales();
            Layout::new(Distribution::Whole)
        }
        LayoutByRank::Rank3(layout) => {
            // For the proof: the mapping is one for rank 3.
            let _good = layout.locales();
            Layout::new(Distribution::Whole)
        }
        LayoutByRank::Whole => Layout::new(Distribution::Whole),
    }
}

// A mapping of rank 2 as what it is.
fn plane_of(to: &AnyLayout) -> Layout<2>
    requires { is_of_rank 2 to.now ≡ true }
    ensures { result ≡ to.now }
{
    match to.laid() {
        LayoutByRank::Rank1(layout) => {
            // For the proof: the mapping is one for rank 1.
            let _good = layout.locales();
            Layout::new(Distribution::Whole)
        }
        LayoutByRank::Rank2(layout) => layout,
        LayoutByRank::Rank3(layout) => {
            // For the proof: the mapping is one for rank 3.
            let _good = layout.locales();
            Layout::new(Distribution::Whole)
        }
        LayoutByRank::Whole => Layout::new(Distribution::Whole),
    }
}

// A mapping of rank 3 as what it is.
fn solid_of(to: &AnyLayout) -> Layout<3>
    requires { is_of_rank 3 to.now ≡ true }
    ensures { result ≡ to.now }
{
    match to.laid() {
        LayoutByRank::Rank1(layout) => {
            // For the proof: the mapping is one for rank 1.
            let _good = layout.locales();
            Layout::new(Distribution::Whole)
        }
        LayoutByRank::Rank2(layout) => {
            // For the proof: the mapping is one for rank 2.
            let _good = layout.locales();
            Layout::new(Distribution::Whole)
        }
        LayoutByRank::Rank3(layout) => layout,
        LayoutByRank::Whole => Layout::new(Distribution::Whole),
    }
}

pub(crate) fn set_in<D: Domain, M: Mapping<Index = D::Index>>(
    pieces: &mut Pieces<D, M>,
    index: &AnyIndex,
    value: i64,
    near: usize,
) -> usize
where
    D::Index: AsIndex,
    requires { AllOf D.Index.as_index D.Index.is_of pieces.old.0 }
    ensures elements { indexed D.Index.as_index pieces.new.0 ≡ set_value (is_at (index_cmp index.now)) (indexed D.Index.as_index pieces.old.0) value }
    ensures mapping { pieces.new.1 ≡ pieces.old.1 }
    ensures kept { AllOf D.Index.as_index D.Index.is_of pieces.new.0 }
{
    match D::Index::of(index) {
        Some(key) => pieces.set_near(key, value, near),
        None => near,
    }
}

fn len_of<D: Domain, M: Mapping<Index = D::Index>>(pieces: &Pieces<D, M>) -> usize
where
    D::Index: AsIndex,
    ensures count { result ≡ length (indexed D.Index.as_index pieces.now.0) }
    ensures ascending { IsStrictlySortedBy index_cmp (keys_of (indexed D.Index.as_index pieces.now.0)) }
{
    pieces.len()
}

fn reduction_of<V: Mover, D: Domain, M: Mapping<Index = D::Index>>(
    pieces: &Pieces<D, M>,
    op: Op,
    mover: &V,
) -> Result<i64, ReduceErr>
where
    D::Index: AsIndex + Send + Sync,
    ensures answer { IsReduced op (indexed D.Index.as_index pieces.now.0) result }
    ensures overflow { result ≡ Err ReduceErr.Overflow → op ≡ Op.Sum }
{
    reduce(mover, op, pieces)
}

fn pairs_of<D: Domain, M: Mapping<Index = D::Index>>(
    alloc: Global,
    pieces: &Pieces<D, M>,
) -> Result<Vec<(AnyIndex, i64)>, NoMemory>
where
    D::Index: AsIndex,
    ensures pairs { IfOk result (λ v. v.items ≡ indexed D.Index.as_index pieces.now.0) }
    ensures ascending { IfOk result (λ v. IsStrictlySortedBy index_cmp (keys_of v.items)) }
{
    // For the proof: the indices of the elements ascend.
    let _ = len_of(pieces);
    if let Some(all) = only_piece(pieces) {
        let pairs = pairs_on(alloc, all)?;
        return Ok(pairs);
    }
    let whole = pieces.gather()?;
    pairs_in(alloc, whole.as_map())
}

fn fill_in<D: Domain, M: Mapping<Index = D::Index>>(pieces: &mut Pieces<D, M>, number: &i64) -> bool
where
    D::Index: AsIndex,
    requires { AllOf D.Index.as_index D.Index.is_of pieces.old.0 }
    ensures done { result ≡ true → indexed D.Index.as_index pieces.new.0 ≡ map (λ e. (e.0, number.now)) (indexed D.Index.as_index pieces.old.0) }
    ensures left { result ≡ false → indexed D.Index.as_index pieces.new.0 ≡ indexed D.Index.as_index pieces.old.0 }
    ensures mapping { pieces.new.1 ≡ pieces.old.1 }
    ensures kept { AllOf D.Index.as_index D.Index.is_of pieces.new.0 }
    ensures names { keys_of (indexed D.Index.as_index pieces.new.0) ≡ keys_of (indexed D.Index.as_index pieces.old.0) }
{
    pieces.fill(number)
}

fn set_numbers_in<D: Domain, M: Mapping<Index = D::Index>>(
    pieces: &mut Pieces<D, M>,
    numbers: &[i64],
) -> bool
where
    D::Index: AsIndex,
    // The indices have the form that they are kept in.
    requires { AllOf D.Index.as_index D.Index.is_of pieces.old.0 }

    // The elements become the numbers, in order, if there are as many; else they stay.
    ensures done { result ≡ true → indexed D.Index.as_index pieces.new.0 ≡ zip (keys_of (indexed D.Index.as_index pieces.old.0)) numbers.now }
    ensures many { result ≡ true → length numbers.now ≡ length (indexed D.Index.as_index pieces.old.0) }
    ensures left { result ≡ false → indexed D.Index.as_index pieces.new.0 ≡ indexed D.Index.as_index pieces.old.0 }

    // What stays.
    ensures mapping { pieces.new.1 ≡ pieces.old.1 }
    ensures kept { AllOf D.Index.as_index D.Index.is_of pieces.new.0 }
    ensures names { keys_of (indexed D.Index.as_index pieces.new.0) ≡ keys_of (indexed D.Index.as_index pieces.old.0) }
{
    pieces.set_all(numbers)
}

#[tactic(auto, using(crate::proofs::ByRank::numbers_indexed))]
fn numbers_of<D: Domain, M: Mapping<Index = D::Index>>(
    alloc: Global,
    pieces: &Pieces<D, M>,
) -> Result<Vec<i64>, NoMemory>
where
    D::Index: AsIndex,
    ensures { IfOk result (λ v. v.items ≡ map (λ e. e.1) (indexed D.Index.as_index pieces.now.0)) }
{
    if let Some(all) = only_piece(pieces) {
        return numbers_on(alloc, all);
    }
    let whole = pieces.all_pairs()?;
    numbers_on(alloc, whole.as_slice())
}

fn numbers_on<I>(alloc: Global, pairs: &[(I, i64)]) -> Result<Vec<i64>, NoMemory>
    ensures { IfOk result (λ v. v.items ≡ map (λ e. e.1) pairs.now) }
{
    let numbers = pairs.iter().map(|pair| number_of(pair)).collect(alloc)?;
    Ok(numbers)
}

fn number_of<I>(pair: &(I, i64)) -> i64
    ensures { result ≡ pair.now.1 }
{
    pair.1
}

// All pairs, where one locale has them.
fn only_piece<D: Domain, M: Mapping<Index = D::Index>>(
    pieces: &Pieces<D, M>,
) -> Option<&[(D::Index, i64)]>
    ensures { IfSome result (λ s. s.now ≡ pieces.now.0) }
{
    if pieces.mapping().locales() != 1 {
        return None;
    }
    pieces.pairs(0)
}

fn pairs_on<I: AsIndex>(alloc: Global, pairs: &[(I, i64)]) -> Result<Vec<(AnyIndex, i64)>, NoMemory>
    ensures { IfOk result (λ v. v.items ≡ indexed I.as_index pairs.now) }
{
    let mut found = Vec::with_capacity(alloc, pairs.len())?;
    for (index, value) in pairs {
        if found.push((index.any(), *value)).is_err() {
            return Err(NoMemory);
        }
    }
    Ok(found)
}

fn pairs_in<I: AsIndex>(
    alloc: Global,
    map: &BTreeMap<I, i64>,
) -> Result<Vec<(AnyIndex, i64)>, NoMemory>
    ensures pairs { IfOk result (λ v. v.items ≡ indexed I.as_index map.now.entries) }
    ensures ascending { IfOk result (λ v. IsStrictlySortedBy index_cmp (keys_of v.items)) }
{
    let mut pairs = Vec::with_capacity(alloc, map.len())?;
    for (index, value) in map {
        if pairs.push((index.any(), *value)).is_err() {
            return Err(NoMemory);
        }
    }
    Ok(pairs)
}

fn value_near<D: Domain, M: Mapping<Index = D::Index>>(
    pieces: &Pieces<D, M>,
    index: &AnyIndex,
    near: usize,
) -> (Option<i64>, usize)
where
    D::Index: AsIndex,
    requires { AllOf D.Index.as_index D.Index.is_of pieces.now.0 }
    ensures { result.0 ≡ value_at index_cmp (indexed D.Index.as_index pieces.now.0) index.now }
{
    match D::Index::of(index) {
        Some(key) => pieces.get_from(key, near),
        None => (None, near),
    }
}
