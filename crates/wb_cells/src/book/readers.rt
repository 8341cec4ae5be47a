//! Answers about the objects of a book, from the map of its cells. They take no memory.

ghost use Rattle.std.specs.Prelude.{◌≡◌, is_some, length, slice_get};
ghost use Rattle.std.specs.FinMap as map;
ghost use Rattle.wb_cells.specs.Cells.{map_state, state_of};
ghost use Rattle.wb_cells.specs.Families.{AreNamed};
ghost use Rattle.wb_cells.specs.Readers.{object_of, objects, user_of, users, size_at, index_at};
ghost use Rattle.wb_cells.specs.WellFormed.{domain_at, ranges_in};
ghost use Rattle.wb_cells.specs.declared.cells.cell.Cell.TheVariants.{Shape};

use crate::book::families::{first, member_at, member_count};
use crate::book::store::look;
use crate::book::stored::StoredCells;
use crate::cells::cell::Cell;
use crate::cells::kind::{AnyDomain, DomainKind};
use crate::cells::pattern::Pattern;
use crate::cells::value::Value;
use crate::values::index::AnyIndex;
use crate::values::name::Name;
use crate::values::rectangle::AnyRect;
use std::collections::BTreeMap;

/// The object that a cell tells of.
pub fn object_of(cell: &Cell) -> Option<Name>
    ensures { result ≡ object_of cell.now }
{
    match *cell {
        Cell::Object(name) => Some(name),
        Cell::Shape(_)
        | Cell::In(_, _)
        | Cell::Member(_, _)
        | Cell::Mapping(_)
        | Cell::Use(_, _)
        | Cell::Implicit(_)
        | Cell::Element(_, _) => None,
    }
}

/// The user of a domain that a cell tells of.
fn user_of(domain: Name, cell: &Cell) -> Option<Name>
    ensures { result ≡ user_of domain cell.now }
{
    match *cell {
        Cell::Use(other, user) => { if domain == other { Some(user) } else { None } }
        Cell::Object(_)
        | Cell::Shape(_)
        | Cell::In(_, _)
        | Cell::Member(_, _)
        | Cell::Mapping(_)
        | Cell::Implicit(_)
        | Cell::Element(_, _) => None,
    }
}

fn is_object(cell: &Cell) -> bool
    ensures { result ≡ is_some (object_of cell.now) }
{
    object_of(cell).is_some()
}

// How many objects a map has. They stand in front of all other cells.
fn count_objects(cells: &BTreeMap<Cell, Value>) -> usize
    ensures { result ≡ length (objects (map_state cells.now)) }
{
    cells.keys().take_while(|c| is_object(c)).count()
}

/// How many objects there are.
pub fn object_count(cells: &StoredCells) -> usize
    ensures { result ≡ length (objects (state_of cells.now)) }
{
    count_objects(&cells.low)
}

// The object of a map at place `p`, ascending.
fn nth_object(cells: &BTreeMap<Cell, Value>, p: usize) -> Option<Name>
    ensures { result ≡ slice_get (objects (map_state cells.now)) p }
{
    object_of(cells.keys().nth(p)?)
}

/// The object at place `p`, ascending.
pub fn object_at(cells: &StoredCells, p: usize) -> Option<Name>
    ensures { result ≡ slice_get (objects (state_of cells.now)) p }
{
    nth_object(&cells.low, p)
}

// The user of a domain at place `p` by a map, ascending. The users stand together.
fn nth_user(cells: &BTreeMap<Cell, Value>, domain: Name, p: usize) -> Option<Name>
    requires { AreNamed (map_state cells.now) }
    ensures { result ≡ slice_get (users (map_state cells.now) domain) p }
{
    let (cell, _) = cells.range(first(&Pattern::Uses(domain))..).nth(p)?;
    user_of(domain, cell)
}

/// The user of a domain at place `p`, ascending.
pub fn user_at(cells: &StoredCells, domain: Name, p: usize) -> Option<Name>
    requires { AreNamed (state_of cells.now) }
    ensures { result ≡ slice_get (users (state_of cells.now) domain) p }
{
    nth_user(&cells.high, domain, p)
}

/// What the domain of a name is.
pub(crate) fn domain_at(cells: &StoredCells, domain: Name) -> Option<AnyDomain>
    ensures { result ≡ domain_at (state_of cells.now) domain }
{
    match look(cells, Cell::Object(domain))? {
        Value::Domain(kind) => Some(kind),
        Value::Array(_, _)
        | Value::Ranges(_)
        | Value::Mapping(_)
        | Value::Present
        | Value::Bound(_)
        | Value::Number(_) => None,
    }
}

/// The ranges of a rectangular domain.
pub(crate) fn ranges_at(cells: &StoredCells, domain: Name) -> Option<AnyRect>
    ensures { result ≡ ranges_in (map.get (state_of cells.now) (Shape domain)) }
{
    match look(cells, Cell::Shape(domain))? {
        Value::Ranges(rect) => Some(rect),
        Value::Domain(_)
        | Value::Array(_, _)
        | Value::Mapping(_)
        | Value::Present
        | Value::Bound(_)
        | Value::Number(_) => None,
    }
}

/// How many indices a domain has.
pub fn size_at(cells: &StoredCells, domain: Name) -> Option<usize>
    ensures { result ≡ size_at (state_of cells.now) domain }
{
    let kind = domain_at(cells, domain)?;
    match kind.domain_kind() {
        DomainKind::Rectangular(_) => Some(ranges_at(cells, domain)?.size()),
        DomainKind::Sparse(_, _) => Some(member_count(cells, domain)),
        DomainKind::Associative(_) => Some(member_count(cells, domain)),
    }
}

/// The index of a domain at place `p`, in the domain's order.
pub fn index_at(cells: &StoredCells, domain: Name, p: usize) -> Option<AnyIndex>
    ensures { result ≡ index_at (state_of cells.now) domain p }
{
    let kind = domain_at(cells, domain)?;
    match kind.domain_kind() {
        DomainKind::Rectangular(_) => ranges_at(cells, domain)?.nth(p),
        DomainKind::Sparse(_, _) => member_at(cells, domain, p),
        DomainKind::Associative(_) => member_at(cells, domain, p),
    }
}
