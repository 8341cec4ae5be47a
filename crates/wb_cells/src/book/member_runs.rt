//! Runs of changes of the members of one domain, told and made whole.

ghost use Rattle.std.specs.Prelude.{◌≡◌, ℕ, List, [], true, false, is_some, map, unwrap_or, Option, None, Some, Ok, IfOk, IfSome, OnErr};
ghost use Rattle.std.specs.BTreeMap.{is_at};
ghost use Rattle.std.specs.List.{list_all};
ghost use Rattle.std.specs.Map.{lookup};
ghost use Rattle.selective_undo.specs.Changes.{apply, clears, sets};
ghost use Rattle.wb_cells.specs.declared.cells.cell.Cell.{Cell as any_cell};
ghost use Rattle.wb_cells.specs.declared.cells.cell.Cell.TheVariants.{Member};
ghost use Rattle.wb_cells.specs.declared.cells.value.Value.{Value as any_value};
ghost use Rattle.wb_cells.specs.declared.changes.row.IndexedRow.TheVariants.{Members as members_row};
ghost use Rattle.wb_cells.specs.declared.values.index.Index.{Index as any_index};
ghost use Rattle.wb_cells.specs.declared.values.index.Index.TheVariants.{Text as text_index};
ghost use Rattle.wb_cells.specs.Cells.{cell_cmp, state_of};
ghost use Rattle.wb_cells.specs.MemberRuns.{members_to, member_found, keyed_changes};
ghost use Rattle.wb_cells.specs.MemberSets.{listed, IsKept};
ghost use Rattle.wb_cells.specs.Readers.{members};
ghost use Rattle.wb_cells.specs.Runs.{changes_in, labelled_changes};
ghost use Rattle.wb_cells.specs.Stored.{indices_in};
ghost use Rattle.wb_cells.specs.WellFormed.{has};

use crate::book::key_runs::{clearing_keys, keys_absent, keys_set};
use crate::book::label_runs::{
    clearing_labels, clears_labels, labels_absent, labels_found, texts_set,
};
use crate::book::member_key::{MemberKey, TextKey};
use crate::book::member_set::{MemberForm, MemberSet};
use crate::book::stored::StoredCells;
use crate::changes::labels::LabelChanges;
use crate::changes::packed::Packed;
use crate::changes::row::IndexedRow;
use crate::changes::run::RunForm;
use crate::values::name::Name;
use std::alloc::Global;
use std::collections::{BTreeMap, BTreeSet};
use wb_range::NoMemory;
use wb_sets::{Label, ShortLabel};

// The domain of which the cells of a row are members, if they are.
fn domain_of(row: &IndexedRow) -> Option<Name>
    ensures { IfSome result (λ d. row.now ≡ members_row d) }
{
    match row {
        IndexedRow::Inside(_) => None,
        IndexedRow::Members(domain) => Some(*domain),
        IndexedRow::Elements(_) => None,
    }
}

// ---- what members were

// The keys of changes of members of a domain, each with a number if it is a member; `None` where the members are kept by others.
fn keys_before<K: MemberKey>(
    alloc: Global,
    sets: &BTreeMap<Name, MemberSet>,
    domain: &Name,
    changes: &[(K, Option<i64>)],
) -> Result<Option<Vec<(K, Option<i64>)>>, NoMemory>
    ensures { IfOk result (λ o. IfSome o (λ v. v.items ≡ map (member_found K.as_index sets.now.entries domain.now) changes.now)) }
{
    match sets.get(domain) {
        Some(set) => K::found_in(alloc, set.form(), changes),
        None => match keys_absent(alloc, changes) {
            Ok(absent) => Ok(Some(absent)),
            Err(why) => Err(why),
        },
    }
}

// The changes that set members to what they are now, each by its key; `None` where the cells are no members, or are kept by other
// keys.
fn row_before<K: MemberKey>(
    alloc: Global,
    cells: &StoredCells,
    row: &IndexedRow,
    changes: &[(K, Option<i64>)],
) -> Result<Option<Vec<(K, Option<i64>)>>, NoMemory>
    ensures { IfOk result (λ o. IfSome o (λ v. (answers : any_cell → Option any_value) →
        ((d : List ℕ) (i : any_index) → answers (Member d i) ≡ lookup (is_at (cell_cmp (Member d i))) cells.now.entries) →
        keyed_changes K.as_index row.now v.items ≡ map (λ x. record { cell = x.cell; value = answers x.cell }) (keyed_changes K.as_index row.now changes.now))) }
{
    match domain_of(row) {
        Some(domain) => keys_before(alloc, &cells.members, &domain, changes),
        None => Ok(None),
    }
}

// The labels of changes of members of a domain, each with a number if it is a member; `None` where the members are no labels, or
// a label has no place.
fn texts_before(
    alloc: Global,
    sets: &BTreeMap<Name, MemberSet>,
    domain: &Name,
    labels: &LabelChanges,
) -> Result<Option<LabelChanges>, NoMemory>
    ensures { IfOk result (λ o. IfSome o (λ l. l ≡ (members_row domain.now, map (member_found text_index sets.now.entries domain.now) labels.now.1))) }
{
    match sets.get(domain) {
        Some(set) => match set.form() {
            MemberForm::Rank1(_) => Ok(None),
            MemberForm::Rank2(_) => Ok(None),
            MemberForm::Rank3(_) => Ok(None),
            MemberForm::Short(keys) => labels_found(alloc, domain, keys, labels),
            MemberForm::Text(keys) => labels_found(alloc, domain, keys, labels),
            MemberForm::Mixed(_) => Ok(None),
        },
        None => labels_absent(alloc, domain, labels),
    }
}

// The changes that set members at labels to what they are now; `None` where the cells are no members.
fn labelled_before(
    alloc: Global,
    cells: &StoredCells,
    labels: &LabelChanges,
) -> Result<Option<LabelChanges>, NoMemory>
    ensures { IfOk result (λ o. IfSome o (λ l. (answers : any_cell → Option any_value) →
        ((d : List ℕ) (i : any_index) → answers (Member d i) ≡ lookup (is_at (cell_cmp (Member d i))) cells.now.entries) →
        labelled_changes l.0 l.1 ≡ map (λ x. record { cell = x.cell; value = answers x.cell }) (labelled_changes labels.now.0 labels.now.1))) }
{
    match domain_of(labels.row()) {
        Some(domain) => texts_before(alloc, &cells.members, &domain, labels),
        None => Ok(None),
    }
}

/// The changes that set the members of a run to what they are now, as a run; `None` where they are to be told one by one, or
/// the cells are no members.
pub fn members_before(
    alloc: Global,
    cells: &StoredCells,
    form: &RunForm,
) -> Result<Option<RunForm>, NoMemory>
    ensures { IfOk result (λ o. IfSome o (λ f. (answers : any_cell → Option any_value) →
        ((d : List ℕ) (i : any_index) → answers (Member d i) ≡ lookup (is_at (cell_cmp (Member d i))) cells.now.entries) →
        changes_in f ≡ map (λ x. record { cell = x.cell; value = answers x.cell }) (changes_in form.now))) }
{
    match form {
        RunForm::One(_) => Ok(None),
        RunForm::Rank1(packed) => {
            match row_before(alloc, cells, packed.row(), packed.changes())? {
                Some(found) => Ok(Some(RunForm::Rank1(Packed::new(*packed.row(), found)))),
                None => Ok(None),
            }
        }
        RunForm::Rank2(packed) => {
            match row_before(alloc, cells, packed.row(), packed.changes())? {
                Some(found) => Ok(Some(RunForm::Rank2(Packed::new(*packed.row(), found)))),
                None => Ok(None),
            }
        }
        RunForm::Rank3(packed) => {
            match row_before(alloc, cells, packed.row(), packed.changes())? {
                Some(found) => Ok(Some(RunForm::Rank3(Packed::new(*packed.row(), found)))),
                None => Ok(None),
            }
        }
        RunForm::Labels(labels) => match labelled_before(alloc, cells, labels)? {
            Some(before) => Ok(Some(RunForm::Labels(before))),
            None => Ok(None),
        },
        RunForm::Rectangle(_) => Ok(None),
        RunForm::Numbers(_) => Ok(None),
    }
}

// ---- a domain that loses all members

// Changes at the labels of keys, which are the members of a domain, as a run that clears them.
fn clearing_texts<K: TextKey>(
    alloc: Global,
    domain: &Name,
    keys: &BTreeSet<K>,
) -> Result<Option<RunForm>, NoMemory>
    ensures { IfOk result (λ o. IfSome o (λ f. changes_in f ≡ members_to domain.now None (map K.as_index keys.now.keys))) }
{
    match clearing_labels(alloc, domain, keys)? {
        Some(labels) => Ok(Some(RunForm::Labels(labels))),
        None => Ok(None),
    }
}

// The changes that clear the members of a domain, which are these, as one run.
fn clearing_form(
    alloc: Global,
    domain: &Name,
    form: &MemberForm,
) -> Result<Option<RunForm>, NoMemory>
    ensures { IfOk result (λ o. IfSome o (λ f. changes_in f ≡ members_to domain.now None (listed form.now))) }
{
    let row = IndexedRow::Members(*domain);
    match form {
        MemberForm::Rank1(keys) => match clearing_keys(alloc, keys) {
            Ok(found) => Ok(Some(RunForm::Rank1(Packed::new(row, found)))),
            Err(why) => Err(why),
        },
        MemberForm::Rank2(keys) => match clearing_keys(alloc, keys) {
            Ok(found) => Ok(Some(RunForm::Rank2(Packed::new(row, found)))),
            Err(why) => Err(why),
        },
        MemberForm::Rank3(keys) => match clearing_keys(alloc, keys) {
            Ok(found) => Ok(Some(RunForm::Rank3(Packed::new(row, found)))),
            Err(why) => Err(why),
        },
        MemberForm::Short(keys) => clearing_texts(alloc, domain, keys),
        MemberForm::Text(keys) => clearing_texts(alloc, domain, keys),
        MemberForm::Mixed(_) => Ok(None),
    }
}

// The changes that clear all members of a domain, as one run.
fn clearing_set(
    alloc: Global,
    sets: &BTreeMap<Name, MemberSet>,
    domain: &Name,
) -> Result<Option<RunForm>, NoMemory>
    ensures { IfOk result (λ o. IfSome o (λ f. changes_in f ≡ members_to domain.now None (unwrap_or (indices_in sets.now.entries domain.now) []))) }
{
    match sets.get(domain) {
        Some(set) => clearing_form(alloc, domain, set.form()),
        None => Ok(None),
    }
}

/// The changes that clear all members of a domain, in their order, as one run; `None` where they are to be listed one by one.
pub fn clearing_run(
    alloc: Global,
    cells: &StoredCells,
    domain: &Name,
) -> Result<Option<RunForm>, NoMemory>
    ensures { IfOk result (λ o. IfSome o (λ f. changes_in f ≡ members_to domain.now None (members (state_of cells.now) domain.now))) }
{
    clearing_set(alloc, &cells.members, domain)
}

// Whether changes clear all members of a domain, one after another, and nothing else. False where they are kept by other keys.
fn empties_keys<K: MemberKey>(
    sets: &BTreeMap<Name, MemberSet>,
    domain: &Name,
    changes: &[(K, Option<i64>)],
) -> bool
    ensures { result ≡ true → keyed_changes K.as_index (members_row domain.now) changes.now ≡
        members_to domain.now None (unwrap_or (indices_in sets.now.entries domain.now) []) }
{
    match sets.get(domain) {
        Some(set) => K::clear_all(set.form(), changes),
        None => false,
    }
}

// Whether changes at labels clear all members of a domain, one after another, and nothing else. False where these are no labels.
fn empties_labels(sets: &BTreeMap<Name, MemberSet>, domain: &Name, labels: &LabelChanges) -> bool
    ensures { result ≡ true → labelled_changes (members_row domain.now) labels.now.1 ≡
        members_to domain.now None (unwrap_or (indices_in sets.now.entries domain.now) []) }
{
    match sets.get(domain) {
        Some(set) => match set.form() {
            MemberForm::Rank1(_) => false,
            MemberForm::Rank2(_) => false,
            MemberForm::Rank3(_) => false,
            MemberForm::Short(keys) => clears_labels(keys, labels),
            MemberForm::Text(keys) => clears_labels(keys, labels),
            MemberForm::Mixed(_) => false,
        },
        None => false,
    }
}

// The domain all of whose members the changes clear, in their order, if there is one.
fn row_emptied<K: MemberKey>(
    cells: &StoredCells,
    row: &IndexedRow,
    changes: &[(K, Option<i64>)],
) -> Option<Name>
    ensures { IfSome result (λ d. keyed_changes K.as_index row.now changes.now ≡ members_to d None (members (state_of cells.now) d)) }
{
    let domain = domain_of(row)?;
    if empties_keys(&cells.members, &domain, changes) {
        Some(domain)
    } else {
        None
    }
}

// The domain all of whose members the changes clear, in their order, if there is one.
fn labelled_emptied(cells: &StoredCells, labels: &LabelChanges) -> Option<Name>
    ensures { IfSome result (λ d. labelled_changes labels.now.0 labels.now.1 ≡ members_to d None (members (state_of cells.now) d)) }
{
    let domain = domain_of(labels.row())?;
    if empties_labels(&cells.members, &domain, labels) {
        Some(domain)
    } else {
        None
    }
}

// The domain all of whose members the changes of a run clear, in their order, if there is one.
fn emptied(cells: &StoredCells, form: &RunForm) -> Option<Name>
    ensures { IfSome result (λ d. changes_in form.now ≡ members_to d None (members (state_of cells.now) d)) }
{
    match form {
        RunForm::One(_) => None,
        RunForm::Rank1(packed) => row_emptied(cells, packed.row(), packed.changes()),
        RunForm::Rank2(packed) => row_emptied(cells, packed.row(), packed.changes()),
        RunForm::Rank3(packed) => row_emptied(cells, packed.row(), packed.changes()),
        RunForm::Labels(labels) => labelled_emptied(cells, labels),
        RunForm::Rectangle(_) => None,
        RunForm::Numbers(_) => None,
    }
}

/// Clears the cells of a run at once, where these are all members of a domain, in their order; says whether they are. Else it
/// changes nothing.
pub fn clear_whole(cells: &mut StoredCells, form: &RunForm) -> bool
    ensures cleared { result ≡ true → state_of cells.new ≡ apply (clears (changes_in form.now)) (state_of cells.old) }
    ensures left { result ≡ false → state_of cells.new ≡ state_of cells.old }
{
    match emptied(cells, form) {
        Some(domain) => {
            cells.remove_members(&domain);
            true
        }
        None => false,
    }
}

// ---- a domain that gets its first members

// The set of the keys of changes, each of which gives a number; `None` where one gives none.
fn key_set<K: MemberKey>(
    alloc: Global,
    changes: &[(K, Option<i64>)],
) -> Result<Option<MemberSet>, NoMemory>
    ensures same { IfOk result (λ o. IfSome o (λ s. (j : any_index) → has s j ≡ has (map (λ e. K.as_index e.0) changes.now) j)) }
    ensures set { IfOk result (λ o. IfSome o (λ s. list_all (λ e. is_some e.1) changes.now ≡ true)) }
{
    match keys_set(alloc, changes) {
        Ok(Some(keys)) => match K::form_of(alloc, keys) {
            Ok(form) => Ok(Some(MemberSet::of_form(form))),
            Err(why) => Err(why),
        },
        Ok(None) => Ok(None),
        Err(why) => Err(why),
    }
}

// The set of the labels of changes, each of which gives a number; `None` where one gives none, or has no key of this form.
fn text_set<K: TextKey>(
    alloc: Global,
    labels: &LabelChanges,
) -> Result<Option<MemberForm>, NoMemory>
    ensures same { IfOk result (λ o. IfSome o (λ f. (j : any_index) → has (listed f) j ≡ has (map (λ e. text_index e.0) labels.now.1) j)) }
    ensures kept { IfOk result (λ o. IfSome o IsKept) }
    ensures set { IfOk result (λ o. IfSome o (λ f. list_all (λ e. is_some e.1) labels.now.1 ≡ true)) }
{
    let found: Result<Option<Vec<K>>, NoMemory> = texts_set(alloc, labels);
    match found {
        Ok(Some(keys)) => match K::form_of(alloc, keys) {
            Ok(form) => Ok(Some(form)),
            Err(why) => Err(why),
        },
        Ok(None) => Ok(None),
        Err(why) => Err(why),
    }
}

// The set of the labels of changes, each of which gives a number; `None` where one gives none.
fn label_set(alloc: Global, labels: &LabelChanges) -> Result<Option<MemberSet>, NoMemory>
    ensures same { IfOk result (λ o. IfSome o (λ s. (j : any_index) → has s j ≡ has (map (λ e. text_index e.0) labels.now.1) j)) }
    ensures set { IfOk result (λ o. IfSome o (λ s. list_all (λ e. is_some e.1) labels.now.1 ≡ true)) }
{
    match text_set::<ShortLabel>(alloc, labels) {
        Ok(Some(form)) => return Ok(Some(MemberSet::of_form(form))),
        Ok(None) => {}
        Err(why) => return Err(why),
    }
    match text_set::<Label>(alloc, labels) {
        Ok(Some(form)) => Ok(Some(MemberSet::of_form(form))),
        Ok(None) => Ok(None),
        Err(why) => Err(why),
    }
}

// Sets cells at once, where these are members of a domain that has none, and all of them are set; says whether they are. Else, and
// where memory ran out, it changes nothing.
fn set_row<K: MemberKey>(
    cells: &mut StoredCells,
    row: &IndexedRow,
    changes: &[(K, Option<i64>)],
) -> Result<bool, NoMemory>
    ensures set { result ≡ Ok true → state_of cells.new ≡ apply (sets (keyed_changes K.as_index row.now changes.now)) (state_of cells.old) }
    ensures left { result ≡ Ok false → state_of cells.new ≡ state_of cells.old }
    ensures err { OnErr result (state_of cells.new ≡ state_of cells.old) }
{
    let Some(domain) = domain_of(row) else {
        return Ok(false);
    };
    if cells.has_members(&domain) {
        return Ok(false);
    }
    match key_set(cells.alloc, changes) {
        Ok(Some(set)) => cells.put_members(&domain, set),
        Ok(None) => Ok(false),
        Err(why) => Err(why),
    }
}

// Sets cells at labels at once, where these are members of a domain that has none, and all of them are set; says whether they are.
// Else, and where memory ran out, it changes nothing.
fn set_labels(cells: &mut StoredCells, labels: &LabelChanges) -> Result<bool, NoMemory>
    ensures set { result ≡ Ok true → state_of cells.new ≡ apply (sets (labelled_changes labels.now.0 labels.now.1)) (state_of cells.old) }
    ensures left { result ≡ Ok false → state_of cells.new ≡ state_of cells.old }
    ensures err { OnErr result (state_of cells.new ≡ state_of cells.old) }
{
    let Some(domain) = domain_of(labels.row()) else {
        return Ok(false);
    };
    if cells.has_members(&domain) {
        return Ok(false);
    }
    match label_set(cells.alloc, labels) {
        Ok(Some(set)) => cells.put_members(&domain, set),
        Ok(None) => Ok(false),
        Err(why) => Err(why),
    }
}

/// Sets the cells of a run at once, where these are members of a domain that has none, and all of them are set; says whether
/// they are. Else, and where memory ran out, it changes nothing.
pub fn set_whole(cells: &mut StoredCells, form: &RunForm) -> Result<bool, NoMemory>
    ensures set { result ≡ Ok true → state_of cells.new ≡ apply (sets (changes_in form.now)) (state_of cells.old) }
    ensures left { result ≡ Ok false → state_of cells.new ≡ state_of cells.old }
    ensures err { OnErr result (state_of cells.new ≡ state_of cells.old) }
{
    match form {
        RunForm::One(_) => Ok(false),
        RunForm::Rank1(packed) => set_row(cells, packed.row(), packed.changes()),
        RunForm::Rank2(packed) => set_row(cells, packed.row(), packed.changes()),
        RunForm::Rank3(packed) => set_row(cells, packed.row(), packed.changes()),
        RunForm::Labels(labels) => set_labels(cells, labels),
        RunForm::Rectangle(_) => Ok(false),
        RunForm::Numbers(_) => Ok(false),
    }
}
