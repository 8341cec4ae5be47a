//! The indices of a sparse or associative domain, ascending: by their form, as integers, pairs, triples, short texts or texts.

ghost use Rattle.std.specs.Prelude.{◌≡◌, ◌||◌, ◌&&◌, not, List, [], ◌∷◌, true, false, map, length, slice_get, IfOk, OnOk, OnErr};
ghost use Rattle.std.specs.Bool.{Decides};
ghost use Rattle.std.specs.List.{list_all};
ghost use Rattle.std.specs.List.Sorted.{IsStrictlySortedBy};
ghost use Rattle.wb_cells.specs.declared.values.index.Index.{Index as any_index};
ghost use Rattle.wb_cells.specs.declared.values.index.Index.TheVariants.{Text as text_index};
ghost use Rattle.wb_cells.specs.Cells.{index_cmp, is_same_index};
ghost use Rattle.wb_cells.specs.WellFormed.{has};
ghost use Rattle.wb_cells.specs.MemberSets.{listed, is_of_form, IsKept};

use crate::book::member_walk::{MemberWalk, WalkForm};
use crate::values::index::AnyIndex;
use crate::values::key::AsIndex;
use std::alloc::{AllocError, Global};
use std::collections::BTreeSet;
use std::marker::Model;
use wb_range::NoMemory;
use wb_sets::{Label, ShortLabel};

/// Indices by their form.
#[derive(Drop)]
pub(crate) enum MemberForm {
    /// Integers.
    Rank1(BTreeSet<[i64; 1]>),
    /// Pairs.
    Rank2(BTreeSet<[i64; 2]>),
    /// Triples.
    Rank3(BTreeSet<[i64; 3]>),
    /// Texts of at most 23 bytes.
    Short(BTreeSet<ShortLabel>),
    /// Texts.
    Text(BTreeSet<Label>),
    /// Indices of more than one form, which no domain has.
    Mixed(BTreeSet<AnyIndex>),
}

/// Indices, ascending. Contracts see the list of them.
pub(crate) struct MemberSet {
    form: MemberForm,
}

impl Drop for MemberSet {
    fn drop(self) {
        let MemberSet { form: _ } = self;
    }
}

impl Model for MemberSet {
    ghost use Rattle.std.specs.Prelude.{List};
    ghost use Rattle.wb_cells.specs.declared.values.index.Index.{Index};
    ghost use Rattle.wb_cells.specs.MemberSets.{listed, IsKept};

    ghost Value = { List Index };

    ghost view = { λ a. listed a.form };

    ghost invariant = { λ a. IsKept a.form };
}

// ---- keys of one form

// Whether an index has the form.
fn has_form<K: AsIndex>(index: &AnyIndex) -> bool
    ensures { result ≡ K.is_of index.now }
{
    K::of(index).is_some()
}

// Whether the index of a key is among those of the set.
fn has_in<K: AsIndex>(set: &BTreeSet<K>, index: &AnyIndex) -> bool
    requires { list_all K.is_of (map K.as_index set.now.keys) ≡ true }
    ensures { result ≡ has (map K.as_index set.now.keys) index.now }
{
    match K::of(index) {
        Some(key) => set.contains(&key),
        None => false,
    }
}

// Adds an index, which has the form.
fn put_in<K: AsIndex>(set: &mut BTreeSet<K>, index: &AnyIndex) -> Result<(), NoMemory>
    requires form { K.is_of index.now ≡ true }
    requires kept { list_all K.is_of (map K.as_index set.old.keys) ≡ true }
    ensures ok { OnOk result ((j : any_index) → has (map K.as_index set.new.keys) j ≡ is_same_index j index.now || has (map K.as_index set.old.keys) j) }
    ensures absent { OnErr result (has (map K.as_index set.old.keys) index.now ≡ false) }
    ensures err { OnErr result (set.new.keys ≡ set.old.keys) }
    ensures kept { list_all K.is_of (map K.as_index set.new.keys) ≡ true }
    ensures ascending { IsStrictlySortedBy index_cmp (map K.as_index set.new.keys) }
{
    match K::of(index) {
        Some(key) => match set.insert(key) {
            Ok(_) => Ok(()),
            Err(_) => Err(NoMemory),
        },
        None => unreachable!(),
    }
}

// Takes an index out, if it is there.
fn take_in<K: AsIndex>(set: &mut BTreeSet<K>, index: &AnyIndex)
    requires { list_all K.is_of (map K.as_index set.old.keys) ≡ true }
    ensures taken { (j : any_index) → has (map K.as_index set.new.keys) j ≡ not (is_same_index j index.now) && has (map K.as_index set.old.keys) j }
    ensures kept { list_all K.is_of (map K.as_index set.new.keys) ≡ true }
    ensures ascending { IsStrictlySortedBy index_cmp (map K.as_index set.new.keys) }
{
    // For the proof: the keys ascend.
    let _count = set.len();
    match K::of(index) {
        Some(key) => {
            set.remove(&key);
        }
        None => {}
    }
}

fn count_in<K: AsIndex>(set: &BTreeSet<K>) -> usize
    ensures count { result ≡ length (map K.as_index set.now.keys) }
    ensures ascending { IsStrictlySortedBy index_cmp (map K.as_index set.now.keys) }
{
    set.len()
}

fn nth_in<K: AsIndex>(set: &BTreeSet<K>, p: usize) -> Option<AnyIndex>
    ensures { result ≡ slice_get (map K.as_index set.now.keys) p }
{
    match set.iter().nth(p) {
        Some(key) => Some(key.any()),
        None => None,
    }
}

fn list_in<K: AsIndex>(alloc: Global, set: &BTreeSet<K>) -> Result<Vec<AnyIndex>, AllocError>
    ensures { IfOk result (λ v. v.items ≡ map K.as_index set.now.keys) }
{
    set.iter()
        .map(
            |key: &K| -> AnyIndex
                ensures { result ≡ K.as_index key.now }
            { key.any() },
        )
        .collect(alloc)
}

// The same indices by other keys, which stand for each of them.
fn same_in<K: AsIndex, L: AsIndex>(
    alloc: Global,
    set: &BTreeSet<K>,
) -> Result<BTreeSet<L>, NoMemory>
    requires { list_all L.is_of (map K.as_index set.now.keys) ≡ true }
    ensures same { IfOk result (λ s. (j : any_index) → has (map L.as_index s.keys) j ≡ has (map K.as_index set.now.keys) j) }
    ensures kept { IfOk result (λ s. list_all L.is_of (map L.as_index s.keys) ≡ true) }
{
    let mut same = BTreeSet::new(alloc);
    for key in set {
        put_in(&mut same, &key.any())?;
    }
    Ok(same)
}

// The same indices and one more, by other keys, which stand for each of them.
fn more_in<K: AsIndex, L: AsIndex>(
    alloc: Global,
    set: &BTreeSet<K>,
    index: &AnyIndex,
) -> Result<BTreeSet<L>, NoMemory>
    requires form { L.is_of index.now ≡ true }
    requires kept { list_all L.is_of (map K.as_index set.now.keys) ≡ true }
    ensures added { IfOk result (λ s. (j : any_index) → has (map L.as_index s.keys) j ≡ is_same_index j index.now || has (map K.as_index set.now.keys) j) }
    ensures kept { IfOk result (λ s. list_all L.is_of (map L.as_index s.keys) ≡ true) }
    ensures ascending { IfOk result (λ s. IsStrictlySortedBy index_cmp (map L.as_index s.keys)) }
{
    let mut more = same_in(alloc, set)?;
    put_in(&mut more, index)?;
    Ok(more)
}

// A set of one index, which has the form.
fn one_in<K: AsIndex>(alloc: Global, index: &AnyIndex) -> Result<BTreeSet<K>, NoMemory>
    requires { K.is_of index.now ≡ true }
    ensures { IfOk result (λ s. map K.as_index s.keys ≡ index.now ∷ []) }
{
    let mut set = BTreeSet::new(alloc);
    match K::of(index) {
        Some(key) => match set.insert(key) {
            Ok(_) => Ok(set),
            Err(_) => Err(NoMemory),
        },
        None => unreachable!(),
    }
}

// ---- forms

// Whether an index may be among those of the form.
fn fits(form: &MemberForm, index: &AnyIndex) -> bool
    ensures { result ≡ is_of_form form.now index.now }
{
    match form {
        MemberForm::Rank1(_) => has_form::<[i64; 1]>(index),
        MemberForm::Rank2(_) => has_form::<[i64; 2]>(index),
        MemberForm::Rank3(_) => has_form::<[i64; 3]>(index),
        MemberForm::Short(_) => has_form::<ShortLabel>(index),
        MemberForm::Text(_) => has_form::<Label>(index),
        MemberForm::Mixed(_) => has_form::<AnyIndex>(index),
    }
}

// Adds an index, which has the form.
fn put_form(form: &mut MemberForm, index: &AnyIndex) -> Result<(), NoMemory>
    requires form { is_of_form form.old index.now ≡ true }
    requires kept { IsKept form.old }
    ensures ok { OnOk result ((j : any_index) → has (listed form.new) j ≡ is_same_index j index.now || has (listed form.old) j) }
    ensures absent { OnErr result (has (listed form.old) index.now ≡ false) }
    ensures err { OnErr result (listed form.new ≡ listed form.old) }
    ensures kept { IsKept form.new }
    ensures ascending { IsStrictlySortedBy index_cmp (listed form.new) }
{
    match form {
        MemberForm::Rank1(set) => put_in(set, index),
        MemberForm::Rank2(set) => put_in(set, index),
        MemberForm::Rank3(set) => put_in(set, index),
        MemberForm::Short(set) => put_in(set, index),
        MemberForm::Text(set) => put_in(set, index),
        MemberForm::Mixed(set) => put_in(set, index),
    }
}

// Takes an index out, if it is there.
fn take_form(form: &mut MemberForm, index: &AnyIndex)
    requires { IsKept form.old }
    ensures taken { (j : any_index) → has (listed form.new) j ≡ not (is_same_index j index.now) && has (listed form.old) j }
    ensures kept { IsKept form.new }
    ensures ascending { IsStrictlySortedBy index_cmp (listed form.new) }
{
    match form {
        MemberForm::Rank1(set) => take_in(set, index),
        MemberForm::Rank2(set) => take_in(set, index),
        MemberForm::Rank3(set) => take_in(set, index),
        MemberForm::Short(set) => take_in(set, index),
        MemberForm::Text(set) => take_in(set, index),
        MemberForm::Mixed(set) => take_in(set, index),
    }
}

// One index, by its form.
fn form_of(alloc: Global, index: &AnyIndex) -> Result<MemberForm, NoMemory>
    ensures one { IfOk result (λ f. listed f ≡ index.now ∷ []) }
    ensures kept { IfOk result IsKept }
{
    if has_form::<[i64; 1]>(index) {
        return Ok(MemberForm::Rank1(one_in(alloc, index)?));
    }
    if has_form::<[i64; 2]>(index) {
        return Ok(MemberForm::Rank2(one_in(alloc, index)?));
    }
    if has_form::<[i64; 3]>(index) {
        return Ok(MemberForm::Rank3(one_in(alloc, index)?));
    }
    if has_form::<ShortLabel>(index) {
        return Ok(MemberForm::Short(one_in(alloc, index)?));
    }
    if has_form::<Label>(index) {
        return Ok(MemberForm::Text(one_in(alloc, index)?));
    }
    Ok(MemberForm::Mixed(one_in(alloc, index)?))
}

// Indices and one more, whatever their forms.
fn mixed_with<K: AsIndex>(
    alloc: Global,
    set: &BTreeSet<K>,
    index: &AnyIndex,
) -> Result<MemberForm, NoMemory>
    ensures added { IfOk result (λ f. (j : any_index) → has (listed f) j ≡ is_same_index j index.now || has (map K.as_index set.now.keys) j) }
    ensures kept { IfOk result IsKept }
    ensures ascending { IfOk result (λ f. IsStrictlySortedBy index_cmp (listed f)) }
{
    Ok(MemberForm::Mixed(more_in(alloc, set, index)?))
}

// Short texts and an index that is none: as texts, if it is a text.
fn short_with(
    alloc: Global,
    set: &BTreeSet<ShortLabel>,
    index: &AnyIndex,
) -> Result<MemberForm, NoMemory>
    ensures added { IfOk result (λ f. (j : any_index) → has (listed f) j ≡ is_same_index j index.now || has (map text_index set.now.keys) j) }
    ensures kept { IfOk result IsKept }
    ensures ascending { IfOk result (λ f. IsStrictlySortedBy index_cmp (listed f)) }
{
    if has_form::<Label>(index) {
        return Ok(MemberForm::Text(more_in(alloc, set, index)?));
    }
    mixed_with(alloc, set, index)
}

// Indices, with one that is not of their form: by a form that they all have.
fn form_with(alloc: Global, form: &MemberForm, index: &AnyIndex) -> Result<MemberForm, NoMemory>
    ensures added { IfOk result (λ f. (j : any_index) → has (listed f) j ≡ is_same_index j index.now || has (listed form.now) j) }
    ensures kept { IfOk result IsKept }
    ensures ascending { IfOk result (λ f. IsStrictlySortedBy index_cmp (listed f)) }
{
    match form {
        MemberForm::Rank1(set) => mixed_with(alloc, set, index),
        MemberForm::Rank2(set) => mixed_with(alloc, set, index),
        MemberForm::Rank3(set) => mixed_with(alloc, set, index),
        MemberForm::Short(set) => short_with(alloc, set, index),
        MemberForm::Text(set) => mixed_with(alloc, set, index),
        MemberForm::Mixed(set) => mixed_with(alloc, set, index),
    }
}

impl MemberSet {
    /// The set of these indices.
    pub(crate) fn of_form(form: MemberForm) -> MemberSet
        requires { IsKept form }
        ensures { result ≡ listed form }
    {
        MemberSet { form }
    }

    /// The indices by their form.
    pub(crate) fn form(&self) -> &MemberForm
        ensures listed { listed result.now ≡ self.now }
        ensures kept { IsKept result.now }
    {
        &self.form
    }

    /// The set of one index.
    pub(crate) fn of(alloc: Global, index: &AnyIndex) -> Result<MemberSet, NoMemory>
        ensures { IfOk result (λ s. s ≡ index.now ∷ []) }
    {
        Ok(MemberSet {
            form: form_of(alloc, index)?,
        })
    }

    /// Whether the set has an index.
    pub(crate) fn has(&self, index: &AnyIndex) -> bool
        ensures { result ≡ has self.now index.now }
    {
        match &self.form {
            MemberForm::Rank1(set) => has_in(set, index),
            MemberForm::Rank2(set) => has_in(set, index),
            MemberForm::Rank3(set) => has_in(set, index),
            MemberForm::Short(set) => has_in(set, index),
            MemberForm::Text(set) => has_in(set, index),
            MemberForm::Mixed(set) => has_in(set, index),
        }
    }

    /// Adds an index. Where it is there, that takes no memory and can't fail.
    pub(crate) fn put(&mut self, alloc: Global, index: &AnyIndex) -> Result<(), NoMemory>
        ensures ok { OnOk result ((j : any_index) → has self.new j ≡ is_same_index j index.now || has self.old j) }
        ensures absent { OnErr result (has self.old index.now ≡ false) }
        ensures err { OnErr result (self.new ≡ self.old) }
        ensures ascending { IsStrictlySortedBy index_cmp self.new }
    {
        // For the proof: the indices ascend.
        let _count = self.count();
        if fits(&self.form, index) {
            return put_form(&mut self.form, index);
        }
        self.form = form_with(alloc, &self.form, index)?;
        Ok(())
    }

    /// Takes an index out, if it is there. It takes no memory.
    pub(crate) fn take(&mut self, index: &AnyIndex)
        ensures taken { (j : any_index) → has self.new j ≡ not (is_same_index j index.now) && has self.old j }
        ensures ascending { IsStrictlySortedBy index_cmp self.new }
    {
        take_form(&mut self.form, index);
    }

    /// How many indices there are.
    pub(crate) fn count(&self) -> usize
        ensures count { result ≡ length self.now }
        ensures ascending { IsStrictlySortedBy index_cmp self.now }
    {
        match &self.form {
            MemberForm::Rank1(set) => count_in(set),
            MemberForm::Rank2(set) => count_in(set),
            MemberForm::Rank3(set) => count_in(set),
            MemberForm::Short(set) => count_in(set),
            MemberForm::Text(set) => count_in(set),
            MemberForm::Mixed(set) => count_in(set),
        }
    }

    /// The index at place `p`, ascending.
    pub(crate) fn nth(&self, p: usize) -> Option<AnyIndex>
        ensures { result ≡ slice_get self.now p }
    {
        match &self.form {
            MemberForm::Rank1(set) => nth_in(set, p),
            MemberForm::Rank2(set) => nth_in(set, p),
            MemberForm::Rank3(set) => nth_in(set, p),
            MemberForm::Short(set) => nth_in(set, p),
            MemberForm::Text(set) => nth_in(set, p),
            MemberForm::Mixed(set) => nth_in(set, p),
        }
    }

    /// The indices, ascending.
    pub(crate) fn list(&self, alloc: Global) -> Result<Vec<AnyIndex>, AllocError>
        ensures { IfOk result (λ v. v.items ≡ self.now) }
    {
        match &self.form {
            MemberForm::Rank1(set) => list_in(alloc, set),
            MemberForm::Rank2(set) => list_in(alloc, set),
            MemberForm::Rank3(set) => list_in(alloc, set),
            MemberForm::Short(set) => list_in(alloc, set),
            MemberForm::Text(set) => list_in(alloc, set),
            MemberForm::Mixed(set) => list_in(alloc, set),
        }
    }

    /// A walk over the indices, ascending. It takes no memory.
    pub(crate) fn walk(&self) -> MemberWalk<'_>
        ensures { result ≡ self.now }
    {
        let form = match &self.form {
            MemberForm::Rank1(set) => WalkForm::Rank1(set.iter()),
            MemberForm::Rank2(set) => WalkForm::Rank2(set.iter()),
            MemberForm::Rank3(set) => WalkForm::Rank3(set.iter()),
            MemberForm::Short(set) => WalkForm::Short(set.iter()),
            MemberForm::Text(set) => WalkForm::Text(set.iter()),
            MemberForm::Mixed(set) => WalkForm::Mixed(set.iter()),
        };
        MemberWalk { form }
    }
}
