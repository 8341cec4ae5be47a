//! Changes of the members of one domain, each by its key: compared with the keys of a set, and made of them.

ghost use Rattle.std.specs.Prelude.{◌≡◌, ℕ, List, ◌∷◌, true, false, is_some, map, None, IfOk, IfSome};
ghost use Rattle.std.specs.List.{list_all};
ghost use Rattle.wb_cells.specs.declared.changes.row.IndexedRow.TheVariants.{Members as members_row};
ghost use Rattle.wb_cells.specs.declared.values.index.Index.{Index as any_index};
ghost use Rattle.wb_cells.specs.MemberRuns.{members_to, number_if, key_found, keyed_changes};
ghost use Rattle.wb_cells.specs.WellFormed.{has};

use crate::book::member_key::MemberKey;
use crate::values::key::AsIndex;
use std::alloc::Global;
use std::collections::BTreeSet;
use std::collections::btree_set::Iter;
use wb_range::NoMemory;

/// A number that says that an index is there, or none.
pub(crate) fn number_if(there: bool) -> Option<i64>
    ensures { result ≡ number_if there }
{
    if there { Some(0) } else { None }
}

// Whether keys are equal.
fn are_one<K: AsIndex>(key: &K, other: &K) -> bool
    ensures { result ≡ true → key.now ≡ other.now }
{
    key.cmp(other).is_eq()
}

// ---- all members are cleared

/// The changes that clear the members of all keys, in their order.
pub(crate) fn clearing_keys<K: AsIndex>(
    alloc: Global,
    keys: &BTreeSet<K>,
) -> Result<Vec<(K, Option<i64>)>, NoMemory>
    ensures { IfOk result (λ v. v.items ≡ map (λ k. (k, None)) keys.now.keys) }
{
    let mut found = Vec::with_capacity(alloc, keys.len())?;
    for key in keys {
        if found.push((*key, None)).is_err() {
            return Err(NoMemory);
        }
    }
    Ok(found)
}

// Whether a walk goes on with a key. It takes a step.
fn is_next<K: AsIndex>(left: &mut Iter<'_, K>, key: &K) -> bool
    ensures { result ≡ true → left.old ≡ key.now ∷ left.new }
{
    match left.next() {
        Some(next) => are_one(next, key),
        None => false,
    }
}

// Whether changes are of all keys, one after another, without a number.
fn are_cleared<K: AsIndex>(keys: &BTreeSet<K>, changes: &[(K, Option<i64>)]) -> bool
    ensures { result ≡ true → changes.now ≡ map (λ k. (k, None)) keys.now.keys }
{
    let mut left = keys.iter();
    for (key, number) in changes {
        if number.is_some() {
            return false;
        }
        if !is_next(&mut left, key) {
            return false;
        }
    }
    left.next().is_none()
}

/// Whether changes clear the members of all keys, one after another, and nothing else.
pub(crate) fn clears_keys<K: AsIndex>(keys: &BTreeSet<K>, changes: &[(K, Option<i64>)]) -> bool
    ensures { result ≡ true → (d : List ℕ) → keyed_changes K.as_index (members_row d) changes.now ≡ members_to d None (map K.as_index keys.now.keys) }
{
    are_cleared(keys, changes)
}

// ---- what members were

// Whether a key is one of a set. The next one of a walk over it is looked at first, since it mostly is that.
fn is_there<K: AsIndex>(left: &mut Iter<'_, K>, keys: &BTreeSet<K>, key: &K) -> bool
    requires { (j : any_index) → has (map K.as_index left.old) j ≡ true → has (map K.as_index keys.now.keys) j ≡ true }
    ensures found { result ≡ has (map K.as_index keys.now.keys) (K.as_index key.now) }
    ensures left { (j : any_index) → has (map K.as_index left.new) j ≡ true → has (map K.as_index keys.now.keys) j ≡ true }
{
    match left.next() {
        Some(next) => {
            if are_one(next, key) {
                return true;
            }
            keys.contains(key)
        }
        None => keys.contains(key),
    }
}

/// The keys of changes, each with a number if it is one of a set.
pub(crate) fn keys_found<K: AsIndex>(
    alloc: Global,
    keys: &BTreeSet<K>,
    changes: &[(K, Option<i64>)],
) -> Result<Vec<(K, Option<i64>)>, NoMemory>
    ensures { IfOk result (λ v. v.items ≡ map (key_found K.as_index (map K.as_index keys.now.keys)) changes.now) }
{
    let mut left = keys.iter();
    let mut found = Vec::with_capacity(alloc, changes.len())?;
    for (key, _) in changes {
        let there = is_there(&mut left, keys, key);
        if found.push((*key, number_if(there))).is_err() {
            return Err(NoMemory);
        }
    }
    Ok(found)
}

/// The keys of changes, each without a number.
pub(crate) fn keys_absent<K: AsIndex>(
    alloc: Global,
    changes: &[(K, Option<i64>)],
) -> Result<Vec<(K, Option<i64>)>, NoMemory>
    ensures { IfOk result (λ v. v.items ≡ map (λ e. (e.0, None)) changes.now) }
{
    let mut found = Vec::with_capacity(alloc, changes.len())?;
    for (key, _) in changes {
        if found.push((*key, None)).is_err() {
            return Err(NoMemory);
        }
    }
    Ok(found)
}

// ---- a set of the members that come

/// The keys of changes; `None` where one of them gives no number.
pub(crate) fn keys_set<K: MemberKey>(
    alloc: Global,
    changes: &[(K, Option<i64>)],
) -> Result<Option<Vec<K>>, NoMemory>
    ensures keys { IfOk result (λ o. IfSome o (λ v. v.items ≡ map (λ e. e.0) changes.now)) }
    ensures formed { IfOk result (λ o. IfSome o (λ v. list_all K.is_of (map K.as_index v.items) ≡ true)) }
    ensures set { IfOk result (λ o. IfSome o (λ v. list_all (λ e. is_some e.1) changes.now ≡ true)) }
{
    let mut keys = Vec::with_capacity(alloc, changes.len())?;
    for (key, number) in changes {
        if number.is_none() {
            return Ok(None);
        }
        key.formed();
        if keys.push(*key).is_err() {
            return Err(NoMemory);
        }
    }
    Ok(Some(keys))
}

/// The set of keys, which may stand in any order.
pub(crate) fn set_of<K: AsIndex>(alloc: Global, keys: Vec<K>) -> Result<BTreeSet<K>, NoMemory>
    requires { list_all K.is_of (map K.as_index keys.items) ≡ true }
    ensures same { IfOk result (λ s. (j : any_index) → has (map K.as_index s.keys) j ≡ has (map K.as_index keys.items) j) }
    ensures kept { IfOk result (λ s. list_all K.is_of (map K.as_index s.keys) ≡ true) }
{
    match BTreeSet::from_iter(alloc, keys) {
        Ok(set) => Ok(set),
        Err(_) => Err(NoMemory),
    }
}
