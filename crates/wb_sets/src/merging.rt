ghost use Rattle.std.specs.Prelude.{◌≡◌, ◌↔◌, List, ◌++◌, OnOk, IfOk};
ghost use Rattle.std.specs.List.{Contains};
ghost use Rattle.std.specs.List.Sorted.{IsStrictlySortedBy};
ghost use Rattle.wb_sets.specs.Merge.{IsKept, with_if, all_if};

use std::alloc::Global;
use std::cmp::Ordering;
use wb_range::{Key, NoMemory};

/// Which keys of two sets a set operation keeps: those of the first alone, of both, of the second alone.
#[derive(Clone, Copy)]
pub(crate) struct KeptKeys {
    pub(crate) first: bool,
    pub(crate) both: bool,
    pub(crate) second: bool,
}

/// The keys of either set.
pub(crate) const UNION: KeptKeys = KeptKeys {
    first: true,
    both: true,
    second: true,
};

/// The keys of both sets.
pub(crate) const INTERSECTION: KeptKeys = KeptKeys {
    first: false,
    both: true,
    second: false,
};

/// The keys that the second set doesn't have.
pub(crate) const DIFFERENCE: KeptKeys = KeptKeys {
    first: true,
    both: false,
    second: false,
};

/// The keys of exactly one of the sets.
pub(crate) const SYMMETRIC_DIFFERENCE: KeptKeys = KeptKeys {
    first: true,
    both: false,
    second: true,
};

/// The keys of two ascending slices that `kept` says, ascending, in one pass over both.
pub(crate) fn merge<K: Key>(
    alloc: Global,
    xs: &[K],
    ys: &[K],
    kept: KeptKeys,
) -> Result<Vec<K>, NoMemory>
    requires first { IsStrictlySortedBy K.cmp xs.now }
    requires second { IsStrictlySortedBy K.cmp ys.now }
    ensures members { IfOk result (λ v. (k : K) → Contains v.items k ↔ IsKept kept xs.now ys.now k) }
    ensures ascending { IfOk result (λ v. IsStrictlySortedBy K.cmp v.items) }
{
    let mut keys = Vec::new(alloc);
    let mut i = 0;
    let mut j = 0;
    while i < xs.len() && j < ys.len() {
        let x = xs[i];
        let y = ys[j];
        match x.cmp(&y) {
            Ordering::Less => {
                push_if(&mut keys, x, kept.first)?;
                i += 1;
            }
            Ordering::Equal => {
                push_if(&mut keys, x, kept.both)?;
                i += 1;
                j += 1;
            }
            Ordering::Greater => {
                push_if(&mut keys, y, kept.second)?;
                j += 1;
            }
        }
    }
    append_if(&mut keys, &xs[i..], kept.first)?;
    append_if(&mut keys, &ys[j..], kept.second)?;
    Ok(keys)
}

// Appends `key` where `keep` says so.
fn push_if<K: Key>(keys: &mut Vec<K>, key: K, keep: bool) -> Result<(), NoMemory>
    ensures { OnOk result ((ys : List K) → keys.new.items ++ ys ≡ keys.old.items ++ with_if keep key ys) }
{
    if keep {
        keys.push(key)?;
    }
    Ok(())
}

// Appends `rest` where `keep` says so.
fn append_if<K: Key>(keys: &mut Vec<K>, rest: &[K], keep: bool) -> Result<(), NoMemory>
    ensures { OnOk result (keys.new.items ≡ keys.old.items ++ all_if keep rest.now) }
{
    if keep {
        keys.extend_from_slice(rest)?;
    }
    Ok(())
}
