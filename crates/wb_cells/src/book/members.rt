//! The members of sparse and associative domains, in a set for each domain.

ghost use Rattle.std.specs.Prelude.{◌≡◌, ◌||◌, ◌&&◌, not, cond, List, ℕ, [], true, false, None, Some, length, slice_get, unwrap_or, Ok, IfOk, OnOk, OnErr};
ghost use Rattle.std.specs.BTreeMap.{IsOrdered};
ghost use Rattle.std.specs.Cmp.Lexicographic.{slice_cmp};
ghost use Rattle.std.specs.Ordering.{nat_cmp};
ghost use Rattle.wb_cells.specs.declared.values.index.Index.{Index as any_index};
ghost use Rattle.wb_cells.specs.Cells.{is_same_name, is_same_index};
ghost use Rattle.wb_cells.specs.Stored.{indices_in, is_member, AscendEach};

use crate::book::member_set::MemberSet;
use crate::book::member_walk::MemberWalk;
use crate::values::index::AnyIndex;
use crate::values::name::Name;
use std::alloc::{AllocError, Global};
use std::collections::BTreeMap;
use wb_range::NoMemory;

/// Whether an index is a member of a domain.
pub(crate) fn is_member(sets: &BTreeMap<Name, MemberSet>, domain: &Name, index: &AnyIndex) -> bool
    ensures { result ≡ is_member sets.now.entries domain.now index.now }
{
    match sets.get(domain) {
        Some(set) => set.has(index),
        None => false,
    }
}

// Makes an index the first member of a domain.
fn put_first(
    alloc: Global,
    sets: &mut BTreeMap<Name, MemberSet>,
    domain: &Name,
    index: &AnyIndex,
) -> Result<(), NoMemory>
    requires none { indices_in sets.old.entries domain.now ≡ None }
    requires each { AscendEach sets.old.entries }
    ensures ok { OnOk result ((d : List ℕ) (i : any_index) → is_member sets.new.entries d i ≡
        (is_same_name d domain.now && is_same_index i index.now) || is_member sets.old.entries d i) }
    ensures err { OnErr result (sets.new.entries ≡ sets.old.entries) }
    ensures ordered { IsOrdered (slice_cmp nat_cmp) sets.new }
    ensures each { AscendEach sets.new.entries }
{
    // For the proof: the names ascend.
    let _count = sets.len();
    let set = MemberSet::of(alloc, index)?;
    match sets.insert(*domain, set) {
        Ok(_) => Ok(()),
        Err(_) => Err(NoMemory),
    }
}

/// Makes an index a member of a domain. Where it is one, that takes no memory and can't fail.
pub(crate) fn put_member(
    alloc: Global,
    sets: &mut BTreeMap<Name, MemberSet>,
    domain: &Name,
    index: &AnyIndex,
) -> Result<(), NoMemory>
    requires { AscendEach sets.old.entries }
    ensures ok { OnOk result ((d : List ℕ) (i : any_index) → is_member sets.new.entries d i ≡
        (is_same_name d domain.now && is_same_index i index.now) || is_member sets.old.entries d i) }
    ensures absent { OnErr result (is_member sets.old.entries domain.now index.now ≡ false) }
    ensures err { OnErr result (sets.new.entries ≡ sets.old.entries) }
    ensures ordered { IsOrdered (slice_cmp nat_cmp) sets.new }
    ensures each { AscendEach sets.new.entries }
{
    match sets.get_mut(domain) {
        Some(set) => set.put(alloc, index),
        None => put_first(alloc, sets, domain, index),
    }
}

// Takes an index out of the members of a domain, and says whether none is left.
fn take_one(sets: &mut BTreeMap<Name, MemberSet>, domain: &Name, index: &AnyIndex) -> bool
    requires { AscendEach sets.old.entries }
    ensures taken { (d : List ℕ) (i : any_index) → is_member sets.new.entries d i ≡
        not (is_same_name d domain.now && is_same_index i index.now) && is_member sets.old.entries d i }
    ensures empty { result ≡ true → indices_in sets.new.entries domain.now ≡ Some [] }
    ensures ordered { IsOrdered (slice_cmp nat_cmp) sets.new }
    ensures each { AscendEach sets.new.entries }
{
    match sets.get_mut(domain) {
        Some(set) => {
            set.take(index);
            set.count() == 0
        }
        None => false,
    }
}

/// Takes an index out of the members of a domain, if it is one. It takes no memory.
pub(crate) fn take_member(sets: &mut BTreeMap<Name, MemberSet>, domain: &Name, index: &AnyIndex)
    requires { AscendEach sets.old.entries }
    ensures taken { (d : List ℕ) (i : any_index) → is_member sets.new.entries d i ≡
        not (is_same_name d domain.now && is_same_index i index.now) && is_member sets.old.entries d i }
    ensures ordered { IsOrdered (slice_cmp nat_cmp) sets.new }
    ensures each { AscendEach sets.new.entries }
{
    if take_one(sets, domain, index) {
        sets.remove(domain);
    }
}

/// Takes all members of a domain out. It takes no memory.
pub(crate) fn drop_members(sets: &mut BTreeMap<Name, MemberSet>, domain: &Name)
    requires { AscendEach sets.old.entries }
    ensures dropped { (d : List ℕ) → indices_in sets.new.entries d ≡ cond (is_same_name d domain.now) None (indices_in sets.old.entries d) }
    ensures ordered { IsOrdered (slice_cmp nat_cmp) sets.new }
    ensures each { AscendEach sets.new.entries }
{
    sets.remove(domain);
}

/// Makes these indices the members of a domain, where none are kept of it; says whether none were.
pub(crate) fn put_set(
    sets: &mut BTreeMap<Name, MemberSet>,
    domain: &Name,
    set: MemberSet,
) -> Result<bool, NoMemory>
    requires { AscendEach sets.old.entries }
    ensures put { result ≡ Ok true → (d : List ℕ) → indices_in sets.new.entries d ≡ cond (is_same_name d domain.now) (Some set) (indices_in sets.old.entries d) }
    ensures none { result ≡ Ok true → indices_in sets.old.entries domain.now ≡ None }
    ensures left { result ≡ Ok false → sets.new.entries ≡ sets.old.entries }
    ensures err { OnErr result (sets.new.entries ≡ sets.old.entries) }
    ensures ordered { IsOrdered (slice_cmp nat_cmp) sets.new }
    ensures each { AscendEach sets.new.entries }
{
    // For the proof: the names ascend, and so do the indices.
    let _names = sets.len();
    let _count = set.count();
    if sets.contains_key(domain) {
        return Ok(false);
    }
    match sets.insert(*domain, set) {
        Ok(_) => Ok(true),
        Err(_) => Err(NoMemory),
    }
}

/// How many members a domain has.
pub(crate) fn count_members(sets: &BTreeMap<Name, MemberSet>, domain: &Name) -> usize
    ensures { result ≡ length (unwrap_or (indices_in sets.now.entries domain.now) []) }
{
    match sets.get(domain) {
        Some(set) => set.count(),
        None => 0,
    }
}

/// The member of a domain at place `p`, ascending.
pub(crate) fn nth_member(
    sets: &BTreeMap<Name, MemberSet>,
    domain: &Name,
    p: usize,
) -> Option<AnyIndex>
    ensures { result ≡ slice_get (unwrap_or (indices_in sets.now.entries domain.now) []) p }
{
    match sets.get(domain) {
        Some(set) => set.nth(p),
        None => None,
    }
}

/// The members of a domain, ascending.
pub(crate) fn list_members(
    alloc: Global,
    sets: &BTreeMap<Name, MemberSet>,
    domain: &Name,
) -> Result<Vec<AnyIndex>, AllocError>
    ensures { IfOk result (λ v. v.items ≡ unwrap_or (indices_in sets.now.entries domain.now) []) }
{
    match sets.get(domain) {
        Some(set) => set.list(alloc),
        None => Ok(Vec::new(alloc)),
    }
}

/// A walk over the members of a domain, ascending.
pub(crate) fn walk_members<'a>(sets: &'a BTreeMap<Name, MemberSet>, domain: &Name) -> MemberWalk<'a>
    ensures { result ≡ unwrap_or (indices_in sets.now.entries domain.now) [] }
{
    match sets.get(domain) {
        Some(set) => set.walk(),
        None => MemberWalk::nothing(),
    }
}
