//! The stored cells of a workbook, with the members of its domains in sets of indices.

ghost use Rattle.std.specs.Prelude.{◌≡◌, ◌++◌, ◌&&◌, ◌||◌, ℕ, List, [], true, false, is_some, cond, Some, None, Ok, IfOk, OnOk, OnErr};
ghost use Rattle.std.specs.Cmp.Lexicographic.{slice_cmp};
ghost use Rattle.std.specs.List.{flat_map};
ghost use Rattle.std.specs.BTreeMap.{IsOrdered, is_at};
ghost use Rattle.std.specs.FinMap as map;
ghost use Rattle.std.specs.List.Sorted.{IsStrictlySortedBy};
ghost use Rattle.std.specs.Map.{keys_of, lookup};
ghost use Rattle.std.specs.Ordering.{eq_by_cmp, nat_cmp};
ghost use Rattle.wb_cells.specs.declared.cells.cell.Cell.{Cell as any_cell};
ghost use Rattle.wb_cells.specs.declared.cells.value.Value.TheVariants.{Present};
ghost use Rattle.wb_cells.specs.declared.values.index.Index.{Index as any_index};
ghost use Rattle.wb_cells.specs.Cells.{cell_cmp, is_same_name, is_same_index, state_of};
ghost use Rattle.wb_cells.specs.Stored.{Fits, AscendEach, is_low, member_of, is_member, value_in, member_cells};
ghost use Rattle.wb_cells.specs.WellFormed.{present_if};
ghost use Rattle.wb_cells.specs.Readers.{members};
ghost use Rattle.wb_cells.specs.MemberRuns.{members_to};
ghost use Rattle.selective_undo.specs.Changes.{apply, clears};

use crate::book::member_set::MemberSet;
use crate::book::members::{drop_members, is_member, put_member, put_set, take_member};
use crate::cells::cell::Cell;
use crate::cells::value::Value;
use crate::values::index::AnyIndex;
use crate::values::name::Name;
use std::alloc::{AllocError, Global};
use std::collections::BTreeMap;
use std::marker::Model;
use wb_range::NoMemory;

/// Stored cells with what stands in them, ascending. A member of a domain is kept by its index alone.
pub struct StoredCells {
    pub(crate) alloc: Global,
    pub(crate) low: BTreeMap<Cell, Value>,
    pub(crate) members: BTreeMap<Name, MemberSet>,
    pub(crate) high: BTreeMap<Cell, Value>,
}

// In a function of its own, so that a crate above need not prove anew how each field is let go.
impl Drop for StoredCells {
    fn drop(self) {
        let StoredCells {
            alloc: _,
            low: _,
            members: _,
            high: _,
        } = self;
    }
}

impl Model for StoredCells {
    ghost use Rattle.wb_cells.specs.Cells.{Stored, stored_code};
    ghost use Rattle.wb_cells.specs.Stored.{stored_of, IsStored};

    ghost Value = { Stored };

    ghost coded = { stored_code };

    ghost view = { λ a. stored_of a.low a.members a.high };

    ghost invariant = { λ a. IsStored a.low a.members a.high };
}

// The domain and the index that a member tells of.
fn member_of(cell: &Cell) -> Option<(Name, AnyIndex)>
    ensures { result ≡ member_of cell.now }
{
    match *cell {
        Cell::Member(domain, index) => Some((domain, index)),
        Cell::Object(_)
        | Cell::Shape(_)
        | Cell::In(_, _)
        | Cell::Mapping(_)
        | Cell::Use(_, _)
        | Cell::Implicit(_)
        | Cell::Element(_, _) => None,
    }
}

// Whether a cell comes before all members.
fn is_low(cell: &Cell) -> bool
    ensures { result ≡ is_low cell.now }
{
    match cell {
        Cell::Object(_) | Cell::Shape(_) | Cell::In(_, _) => true,
        Cell::Member(_, _)
        | Cell::Mapping(_)
        | Cell::Use(_, _)
        | Cell::Implicit(_)
        | Cell::Element(_, _) => false,
    }
}

// Sets a cell.
fn put(cells: &mut BTreeMap<Cell, Value>, cell: Cell, value: Value) -> Result<(), NoMemory>
    ensures ok { OnOk result ((c : any_cell) → value_in cells.new.entries c ≡ cond (eq_by_cmp cell_cmp c cell) (Some value) (value_in cells.old.entries c)) }
    ensures absent { OnErr result (value_in cells.old.entries cell ≡ None) }
    ensures err { OnErr result (cells.new.entries ≡ cells.old.entries) }
    ensures ordered { IsOrdered cell_cmp cells.new }
{
    match cells.insert(cell, value) {
        Ok(_) => Ok(()),
        Err(_) => Err(NoMemory),
    }
}

// Clears a cell.
fn take(cells: &mut BTreeMap<Cell, Value>, cell: &Cell)
    ensures taken { (c : any_cell) → value_in cells.new.entries c ≡ cond (eq_by_cmp cell_cmp c cell.now) None (value_in cells.old.entries c) }
    ensures ordered { IsOrdered cell_cmp cells.new }
{
    cells.remove(cell);
}

// Makes an index a member of a domain, if that is the value.
fn put_value(
    alloc: Global,
    sets: &mut BTreeMap<Name, MemberSet>,
    domain: &Name,
    index: &AnyIndex,
    value: &Value,
) -> Result<(), NoMemory>
    requires { AscendEach sets.old.entries }
    ensures ok { OnOk result ((d : List ℕ) (i : any_index) → is_member sets.new.entries d i ≡
        (is_same_name d domain.now && is_same_index i index.now) || is_member sets.old.entries d i) }
    ensures value { OnOk result (value.now ≡ Present) }
    ensures absent { OnErr result (value.now ≡ Present → is_member sets.old.entries domain.now index.now ≡ false) }
    ensures err { OnErr result (sets.new.entries ≡ sets.old.entries) }
    ensures ordered { IsOrdered (slice_cmp nat_cmp) sets.new }
    ensures each { AscendEach sets.new.entries }
{
    // For the proof: the names ascend.
    let _count = sets.len();
    match value {
        Value::Present => put_member(alloc, sets, domain, index),
        Value::Domain(_)
        | Value::Array(_, _)
        | Value::Ranges(_)
        | Value::Mapping(_)
        | Value::Bound(_)
        | Value::Number(_) => Err(NoMemory),
    }
}

// That an index is there.
fn present_if(there: bool) -> Option<Value>
    ensures { result ≡ present_if there }
{
    if there { Some(Value::Present) } else { None }
}

impl StoredCells {
    /// No cells. It takes no memory.
    pub fn new(alloc: Global) -> StoredCells
        ensures { result.entries ≡ [] }
    {
        StoredCells {
            alloc,
            low: BTreeMap::new(alloc),
            members: BTreeMap::new(alloc),
            high: BTreeMap::new(alloc),
        }
    }

    /// What stands in a cell.
    pub fn get(&self, cell: &Cell) -> Option<Value>
        ensures { result ≡ lookup (is_at (cell_cmp cell.now)) self.now.entries }
    {
        match member_of(cell) {
            Some(member) => present_if(is_member(&self.members, &member.0, &member.1)),
            None => self.get_other(cell),
        }
    }

    // What stands in a cell that is no member.
    fn get_other(&self, cell: &Cell) -> Option<Value>
        requires { member_of cell.now ≡ None }
        ensures { result ≡ lookup (is_at (cell_cmp cell.now)) self.now.entries }
    {
        if is_low(cell) {
            return self.low.get(cell).copied();
        }
        self.high.get(cell).copied()
    }

    /// Whether something stands in a cell.
    pub fn contains_key(&self, cell: &Cell) -> bool
        ensures { result ≡ is_some (lookup (is_at (cell_cmp cell.now)) self.now.entries) }
    {
        self.get(cell).is_some()
    }

    /// Sets a cell. Where it is there already, that takes no memory and can't fail. `NoMemory` also where another value than
    /// `Present` is to stand in a member, since for that none is kept.
    pub fn insert(&mut self, cell: Cell, value: Value) -> Result<(), NoMemory>
        ensures ok { OnOk result (state_of self.new ≡ map.insert (state_of self.old) cell value) }
        ensures absent { OnErr result (Fits cell value → map.get (state_of self.old) cell ≡ None) }
        ensures err { OnErr result (state_of self.new ≡ state_of self.old) }
    {
        match member_of(&cell) {
            Some(member) => {
                put_value(self.alloc, &mut self.members, &member.0, &member.1, &value)
            }
            None => self.insert_other(cell, value),
        }
    }

    // Sets a cell that is no member.
    fn insert_other(&mut self, cell: Cell, value: Value) -> Result<(), NoMemory>
        requires { member_of cell ≡ None }
        ensures ok { OnOk result (state_of self.new ≡ map.insert (state_of self.old) cell value) }
        ensures absent { OnErr result (Fits cell value → map.get (state_of self.old) cell ≡ None) }
        ensures err { OnErr result (state_of self.new ≡ state_of self.old) }
    {
        if is_low(&cell) {
            return put(&mut self.low, cell, value);
        }
        put(&mut self.high, cell, value)
    }

    /// Clears a cell. It takes no memory.
    pub fn remove(&mut self, cell: &Cell)
        ensures { state_of self.new ≡ map.remove (state_of self.old) cell.now }
    {
        match member_of(cell) {
            Some(member) => take_member(&mut self.members, &member.0, &member.1),
            None => self.remove_other(cell),
        }
    }

    // Clears a cell that is no member.
    fn remove_other(&mut self, cell: &Cell)
        requires { member_of cell.now ≡ None }
        ensures { state_of self.new ≡ map.remove (state_of self.old) cell.now }
    {
        if is_low(cell) {
            return take(&mut self.low, cell);
        }
        take(&mut self.high, cell)
    }

    /// Clears all members of a domain. It takes no memory.
    pub(crate) fn remove_members(&mut self, domain: &Name)
        ensures { state_of self.new ≡ apply (clears (members_to domain.now None (members (state_of self.old) domain.now))) (state_of self.old) }
    {
        drop_members(&mut self.members, domain);
    }

    /// Whether members of a domain are kept.
    pub(crate) fn has_members(&self, domain: &Name) -> bool {
        self.members.contains_key(domain)
    }

    /// Makes these indices the members of a domain, where none are kept of it; says whether none were. Else, and where memory
    /// ran out, it changes nothing.
    pub(crate) fn put_members(&mut self, domain: &Name, set: MemberSet) -> Result<bool, NoMemory>
        ensures put { result ≡ Ok true → state_of self.new ≡ apply (members_to domain.now (Some Present) set) (state_of self.old) }
        ensures left { result ≡ Ok false → state_of self.new ≡ state_of self.old }
        ensures err { OnErr result (state_of self.new ≡ state_of self.old) }
    {
        put_set(&mut self.members, domain, set)
    }

    /// Computes nothing. Callers learn that the cells ascend.
    pub fn ascend(&self)
        ensures { IsStrictlySortedBy cell_cmp (keys_of self.now.entries) }
    {
        // For the proof: the invariant.
        let _ = &self.low;
    }

    /// The cells with their values, ascending.
    pub fn list(&self, alloc: Global) -> Result<Vec<(Cell, Value)>, NoMemory>
        ensures { IfOk result (λ v. v.items ≡ map.entries (state_of self.now)) }
    {
        let mut found = Vec::new(alloc);
        list_map(&self.low, &mut found)?;
        list_sets(alloc, &self.members, &mut found)?;
        list_map(&self.high, &mut found)?;
        Ok(found)
    }
}

// Adds the cells of a map to the others.
fn list_map(cells: &BTreeMap<Cell, Value>, found: &mut Vec<(Cell, Value)>) -> Result<(), NoMemory>
    ensures { OnOk result (found.new.items ≡ found.old.items ++ cells.now.entries) }
{
    for (cell, value) in cells {
        if found.push((*cell, *value)).is_err() {
            return Err(NoMemory);
        }
    }
    Ok(())
}

// The cells that say that indices are members of a domain.
pub(crate) fn cells_of(
    alloc: Global,
    domain: &Name,
    indices: &[AnyIndex],
) -> Result<Vec<(Cell, Value)>, AllocError>
    ensures { IfOk result (λ v. v.items ≡ member_cells (domain.now, indices.now)) }
{
    indices
        .iter()
        .map(|i| (Cell::Member(*domain, *i), Value::Present))
        .collect(alloc)
}

// Adds the members of all domains as cells to the others.
fn list_sets(
    alloc: Global,
    sets: &BTreeMap<Name, MemberSet>,
    found: &mut Vec<(Cell, Value)>,
) -> Result<(), NoMemory>
    ensures { OnOk result (found.new.items ≡ found.old.items ++ flat_map member_cells sets.now.entries) }
{
    for (domain, set) in sets {
        list_set(alloc, domain, set, found)?;
    }
    Ok(())
}

// Adds the members of a domain as cells to the others.
fn list_set(
    alloc: Global,
    domain: &Name,
    set: &MemberSet,
    found: &mut Vec<(Cell, Value)>,
) -> Result<(), NoMemory>
    ensures { OnOk result (found.new.items ≡ found.old.items ++ member_cells (domain.now, set.now)) }
{
    let Ok(indices) = set.list(alloc) else {
        return Err(NoMemory);
    };
    list_indices(domain, &indices, found)
}

// Adds the cells that say that indices are members of a domain to the others.
fn list_indices(
    domain: &Name,
    indices: &[AnyIndex],
    found: &mut Vec<(Cell, Value)>,
) -> Result<(), NoMemory>
    ensures { OnOk result (found.new.items ≡ found.old.items ++ member_cells (domain.now, indices.now)) }
{
    for index in indices {
        let cell = Cell::Member(*domain, *index);
        if found.push((cell, Value::Present)).is_err() {
            return Err(NoMemory);
        }
    }
    Ok(())
}
