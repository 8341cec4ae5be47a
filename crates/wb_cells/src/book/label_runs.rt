//! Changes of the members of one domain at labels: compared with the keys of a set, and made of them.

ghost use Rattle.std.specs.Prelude.{◌≡◌, ℕ, List, ◌∷◌, true, false, is_some, map, None, Some, IfOk, IfSome};
ghost use Rattle.std.specs.List.{list_all};
ghost use Rattle.wb_sets.specs.Labels.{IsLabel};
ghost use Rattle.wb_cells.specs.declared.values.index.Index.{Index as any_index};
ghost use Rattle.wb_cells.specs.declared.values.index.Index.TheVariants.{Text as text_index};
ghost use Rattle.wb_cells.specs.declared.changes.row.IndexedRow.TheVariants.{Members as members_row};
ghost use Rattle.wb_cells.specs.MemberRuns.{members_to, key_found};
ghost use Rattle.wb_cells.specs.Runs.{labelled_changes};
ghost use Rattle.wb_cells.specs.WellFormed.{has};

use crate::book::key_runs::number_if;
use crate::book::member_key::TextKey;
use crate::changes::labels::LabelChanges;
use crate::changes::row::IndexedRow;
use crate::values::name::Name;
use std::alloc::Global;
use std::collections::BTreeSet;
use std::collections::btree_set::Iter;
use wb_range::NoMemory;

// Whether lists of few bytes are equal, told byte by byte: labels are mostly short.
fn are_same(bytes: &[u8], others: &[u8]) -> bool
    ensures { result ≡ true → bytes.now ≡ others.now }
{
    if bytes.len() != others.len() {
        return false;
    }
    for at in 0..bytes.len() {
        if bytes[at] != others[at] {
            return false;
        }
    }
    true
}

// ---- all members are cleared

/// The changes that clear the members of all keys of a domain, in their order; `None` where a label has no place.
pub(crate) fn clearing_labels<K: TextKey>(
    alloc: Global,
    domain: &Name,
    keys: &BTreeSet<K>,
) -> Result<Option<LabelChanges>, NoMemory>
    ensures { IfOk result (λ o. IfSome o (λ l. labelled_changes l.0 l.1 ≡ members_to domain.now None (map K.as_index keys.now.keys))) }
{
    let mut found = LabelChanges::new(alloc, IndexedRow::Members(*domain));
    for key in keys {
        if !found.push_text(key.text(), None)? {
            return Ok(None);
        }
    }
    Ok(Some(found))
}

// Whether a walk goes on with the label of these bytes. It takes a step.
fn is_next<K: TextKey>(left: &mut Iter<'_, K>, text: &[u8]) -> bool
    ensures { result ≡ true → map K.as_index left.old ≡ text_index text.now ∷ map K.as_index left.new }
{
    match left.next() {
        Some(next) => are_same(next.text(), text),
        None => false,
    }
}

/// Whether changes clear the members of all keys, one after another, and nothing else.
pub(crate) fn clears_labels<K: TextKey>(keys: &BTreeSet<K>, labels: &LabelChanges) -> bool
    ensures { result ≡ true → (d : List ℕ) → labelled_changes (members_row d) labels.now.1 ≡ members_to d None (map K.as_index keys.now.keys) }
{
    let mut left = keys.iter();
    for at in 0..labels.len() {
        if labels.number(at).is_some() {
            return false;
        }
        if !is_next(&mut left, labels.text(at)) {
            return false;
        }
    }
    left.next().is_none()
}

// ---- what members were

// Whether a set has the label of these bytes.
fn has_text<K: TextKey>(keys: &BTreeSet<K>, text: &[u8]) -> bool
    requires label { IsLabel text.now }
    requires kept { list_all K.is_of (map K.as_index keys.now.keys) ≡ true }
    ensures { result ≡ has (map K.as_index keys.now.keys) (text_index text.now) }
{
    match K::of_text(text) {
        Some(key) => keys.contains(&key),
        None => false,
    }
}

// Whether a set has the label of these bytes. The next key of a walk over it is looked at first, since it mostly is that.
fn is_there<K: TextKey>(left: &mut Iter<'_, K>, keys: &BTreeSet<K>, text: &[u8]) -> bool
    requires label { IsLabel text.now }
    requires kept { list_all K.is_of (map K.as_index keys.now.keys) ≡ true }
    requires left { (j : any_index) → has (map K.as_index left.old) j ≡ true → has (map K.as_index keys.now.keys) j ≡ true }
    ensures found { result ≡ has (map K.as_index keys.now.keys) (text_index text.now) }
    ensures left { (j : any_index) → has (map K.as_index left.new) j ≡ true → has (map K.as_index keys.now.keys) j ≡ true }
{
    match left.next() {
        Some(next) => {
            if are_same(next.text(), text) {
                return true;
            }
            has_text(keys, text)
        }
        None => has_text(keys, text),
    }
}

/// The labels of changes of members of a domain, each with a number if it is one of a set; `None` where a label has no place.
pub(crate) fn labels_found<K: TextKey>(
    alloc: Global,
    domain: &Name,
    keys: &BTreeSet<K>,
    labels: &LabelChanges,
) -> Result<Option<LabelChanges>, NoMemory>
    requires { list_all K.is_of (map K.as_index keys.now.keys) ≡ true }
    ensures { IfOk result (λ o. IfSome o (λ l. l ≡ (members_row domain.now, map (key_found text_index (map K.as_index keys.now.keys)) labels.now.1))) }
{
    let mut left = keys.iter();
    let mut found = LabelChanges::new(alloc, IndexedRow::Members(*domain));
    for at in 0..labels.len() {
        let text = labels.text(at);
        let there = is_there(&mut left, keys, text);
        if !found.push_text(text, number_if(there))? {
            return Ok(None);
        }
    }
    Ok(Some(found))
}

/// The labels of changes of members of a domain, each without a number; `None` where a label has no place.
pub(crate) fn labels_absent(
    alloc: Global,
    domain: &Name,
    labels: &LabelChanges,
) -> Result<Option<LabelChanges>, NoMemory>
    ensures { IfOk result (λ o. IfSome o (λ l. l ≡ (members_row domain.now, map (λ e. (e.0, None)) labels.now.1))) }
{
    let mut found = LabelChanges::new(alloc, IndexedRow::Members(*domain));
    for at in 0..labels.len() {
        if !found.push_text(labels.text(at), None)? {
            return Ok(None);
        }
    }
    Ok(Some(found))
}

// ---- a set of the members that come

/// The keys of changes; `None` where one of them gives no number, or is of another form.
pub(crate) fn texts_set<K: TextKey>(
    alloc: Global,
    labels: &LabelChanges,
) -> Result<Option<Vec<K>>, NoMemory>
    ensures keys { IfOk result (λ o. IfSome o (λ v. map K.as_index v.items ≡ map (λ e. text_index e.0) labels.now.1)) }
    ensures formed { IfOk result (λ o. IfSome o (λ v. list_all K.is_of (map K.as_index v.items) ≡ true)) }
    ensures set { IfOk result (λ o. IfSome o (λ v. list_all (λ e. is_some e.1) labels.now.1 ≡ true)) }
{
    let mut keys = Vec::with_capacity(alloc, labels.len())?;
    for at in 0..labels.len() {
        if labels.number(at).is_none() {
            return Ok(None);
        }
        match K::of_text(labels.text(at)) {
            Some(key) => {
                key.formed();
                if keys.push(key).is_err() {
                    return Err(NoMemory);
                }
            }
            None => return Ok(None),
        }
    }
    Ok(Some(keys))
}
