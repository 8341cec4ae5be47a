//! The cells that a pattern names stand together, so a look at them walks over no others.

ghost use Rattle.std.specs.List.{filter_map};
ghost use Rattle.std.specs.Prelude.{◌≡◌, length, slice_get, IfOk};
ghost use Rattle.wb_cells.specs.Cells.{matches, map_state, state_of};
ghost use Rattle.wb_cells.specs.Families.{Begins, AreNamed};
ghost use Rattle.wb_cells.specs.declared.cells.pattern.Pattern.TheVariants.{One, Members};
ghost use Rattle.wb_cells.specs.Readers.{seen, member_in, members, element_in, elements};

use crate::book::member_walk::MemberWalk;
use crate::book::members::{count_members, list_members, nth_member, walk_members};
use crate::book::stored::{StoredCells, cells_of};
use crate::cells::cell::Cell;
use crate::cells::pattern::Pattern;
use crate::cells::value::Value;
use crate::values::index::AnyIndex;
use crate::values::name::Name;
use std::alloc::{AllocError, Global};
use std::collections::BTreeMap;
use wb_range::NoMemory;

/// A cell from which on the cells that the pattern names stand before all others.
pub(crate) fn first(pattern: &Pattern) -> Cell
    ensures { Begins pattern.now result }
{
    match pattern {
        Pattern::Objects => Cell::Object(Name::least()),
        Pattern::One(cell) => cell.cell(),
        Pattern::Members(domain) => Cell::Member(*domain, AnyIndex::least()),
        Pattern::Uses(domain) => Cell::Use(*domain, Name::least()),
        Pattern::Elements(array) => Cell::Element(*array, AnyIndex::least()),
    }
}

// The cells of a map that the pattern names, with their values, in their order.
fn seen_in(
    alloc: Global,
    cells: &BTreeMap<Cell, Value>,
    pattern: &Pattern,
) -> Result<Vec<(Cell, Value)>, NoMemory>
    requires { AreNamed (map_state cells.now) }
    ensures { IfOk result (λ v. v.items ≡ seen (map_state cells.now) pattern.now) }
{
    let found = cells
        .range(first(pattern)..)
        .take_while(|x| pattern.matches(*x.0))
        .map(|x| (*x.0, *x.1))
        .collect(alloc);
    match found {
        Ok(shown) => Ok(shown),
        Err(_) => Err(NoMemory),
    }
}

// A cell with its value, if it is there.
fn seen_one(alloc: Global, cells: &StoredCells, cell: &Cell) -> Result<Vec<(Cell, Value)>, NoMemory>
    ensures { IfOk result (λ v. v.items ≡ seen (state_of cells.now) (One cell.now)) }
{
    let mut shown = Vec::new(alloc);
    match cells.get(cell) {
        Some(value) => {
            shown.push((*cell, value))?;
            Ok(shown)
        }
        None => Ok(shown),
    }
}

// The members of a domain, as cells.
fn seen_members(
    alloc: Global,
    cells: &StoredCells,
    domain: &Name,
) -> Result<Vec<(Cell, Value)>, NoMemory>
    ensures { IfOk result (λ v. v.items ≡ seen (state_of cells.now) (Members domain.now)) }
{
    let Ok(indices) = list_members(alloc, &cells.members, domain) else {
        return Err(NoMemory);
    };
    match cells_of(alloc, domain, &indices) {
        Ok(shown) => Ok(shown),
        Err(_) => Err(NoMemory),
    }
}

/// The cells that the pattern names and that are there, with their values, in their order.
pub fn seen(
    alloc: Global,
    cells: &StoredCells,
    pattern: &Pattern,
) -> Result<Vec<(Cell, Value)>, NoMemory>
    requires { AreNamed (state_of cells.now) }
    ensures { IfOk result (λ v. v.items ≡ seen (state_of cells.now) pattern.now) }
{
    match pattern {
        Pattern::Objects => seen_in(alloc, &cells.low, pattern),
        Pattern::One(cell) => seen_one(alloc, cells, cell.as_cell()),
        Pattern::Members(domain) => seen_members(alloc, cells, domain),
        Pattern::Uses(_) => seen_in(alloc, &cells.high, pattern),
        Pattern::Elements(_) => seen_in(alloc, &cells.high, pattern),
    }
}

/// The members of a sparse or associative domain, ascending, told one after another. It takes no memory.
pub fn members_of<'a>(cells: &'a StoredCells, domain: &Name) -> MemberWalk<'a>
    ensures { result ≡ members (state_of cells.now) domain.now }
{
    walk_members(&cells.members, domain)
}

/// How many members a sparse or associative domain has.
pub(crate) fn member_count(cells: &StoredCells, domain: Name) -> usize
    ensures { result ≡ length (members (state_of cells.now) domain) }
{
    count_members(&cells.members, &domain)
}

// The index that a cell tells of, as a member of a domain.
fn member_in(cell: &Cell, value: &Value) -> Option<AnyIndex>
    ensures { result ≡ member_in (cell.now, value.now) }
{
    match *cell {
        Cell::Member(_, index) => Some(index),
        Cell::Object(_)
        | Cell::Shape(_)
        | Cell::In(_, _)
        | Cell::Mapping(_)
        | Cell::Use(_, _)
        | Cell::Implicit(_)
        | Cell::Element(_, _) => None,
    }
}

/// The indices that cells tell of, as members of a domain, in their order.
pub fn members_in(alloc: Global, shown: &[(Cell, Value)]) -> Result<Vec<AnyIndex>, AllocError>
    ensures { IfOk result (λ v. v.items ≡ filter_map member_in shown.now) }
{
    shown
        .iter()
        .filter_map(
            |x: &(Cell, Value)| -> Option<AnyIndex>
                ensures { result ≡ member_in x.now }
            { member_in(&x.0, &x.1) },
        )
        .collect(alloc)
}

/// The member of a sparse or associative domain at place `p`, ascending.
pub(crate) fn member_at(cells: &StoredCells, domain: Name, p: usize) -> Option<AnyIndex>
    ensures { result ≡ slice_get (members (state_of cells.now) domain) p }
{
    nth_member(&cells.members, &domain, p)
}
