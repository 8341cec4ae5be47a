//! Looks of changes of which indices a domain has, and what new indices bring to the arrays over it.

ghost use Rattle.std.specs.Prelude.{◌≡◌, List, [], ◌∷◌, ◌++◌, map, is_some, OnOk, IfOk, IfErr};
ghost use Rattle.std.specs.FinMap.{get};
ghost use Rattle.std.specs.List.{list_all};
ghost use Rattle.std.specs.Map.{keys_of};
ghost use Rattle.wb_cells.specs.declared.cells.cell.Cell.TheVariants.{Implicit};
ghost use Rattle.wb_range.specs.Domain.{IsListedOnce};
ghost use Rattle.wb_edit.specs.Changed.{items_of};
ghost use Rattle.wb_edit.specs.Plans.{Looks};
ghost use Rattle.wb_cells.specs.Reads.{one_of};
ghost use Rattle.wb_cells.specs.Runs.{cell_of};
ghost use Rattle.wb_edit.specs.Resizing.{has_members, inside_if, number_or_zero, zeros, all_in_domain, all_in_parent, implicits, defaults, fills};
ghost use Rattle.wb_edit.specs.declared.attempt_err.AttemptErr.TheVariants.{NoMemory};

use crate::attempt_err::{AttemptErr, or_refused};
use crate::footprint::FootprintBuilder;
use crate::looks::rectangles::{both_answers, is_present};
use crate::looks::users::{arrays, uses};
use std::alloc::{AllocError, Global};
use wb_cells::{
    AnyCell, AnyDomain, AnyIndex, Cell, DomainKind, IndexedRow, Name, Pattern, Value, WhyRefused,
};
use wb_layers::Layered;

/// That a domain is sparse or associative; `WrongKind` where it is rectangular.
pub(crate) fn has_members(kind: &AnyDomain) -> Result<(), WhyRefused>
    ensures { result ≡ has_members kind.now }
{
    match kind.domain_kind() {
        DomainKind::Rectangular(_) => Err(WhyRefused::WrongKind),
        DomainKind::Sparse(_, _) => Ok(()),
        DomainKind::Associative(_) => Ok(()),
    }
}

/// All indices are in the parent; `OutOfParent` where one is not.
pub(crate) fn inside_if(all: bool) -> Result<(), WhyRefused>
    ensures { result ≡ inside_if all }
{
    if all {
        Ok(())
    } else {
        Err(WhyRefused::OutOfParent)
    }
}

/// Whether the cells of some indices are all there; each of them is looked at.
pub(crate) fn are_there(
    book: &Layered<'_>,
    footprint: &mut FootprintBuilder,
    row: &IndexedRow,
    listed: &[AnyIndex],
) -> Result<bool, AttemptErr>
    ensures read { OnOk result (footprint.new ≡ footprint.old ++ map one_of (map (cell_of row.now) listed.now)) }
    ensures there { IfOk result (λ b. b ≡ list_all is_some (map (get book.now.cells) (map (cell_of row.now) listed.now))) }
    ensures only { IfErr result (λ e. e ≡ NoMemory) }
{
    let mut all = true;
    for index in listed {
        let here = is_present(book, footprint, &row.cell(*index))?;
        all = both_answers(all, here);
    }
    Ok(all)
}

/// All indices are in a rectangular domain.
fn all_in_domain(
    book: &Layered<'_>,
    footprint: &mut FootprintBuilder,
    parent: Name,
    listed: &[AnyIndex],
) -> Result<(), AttemptErr>
    ensures { Looks (all_in_domain parent listed.now) book.now.cells footprint.old result footprint.new }
{
    let all = are_there(book, footprint, &IndexedRow::Inside(parent), listed)?;
    or_refused(inside_if(all))
}

/// The domain may have the indices: if it is sparse, they are in its parent.
pub(crate) fn all_in_parent(
    book: &Layered<'_>,
    footprint: &mut FootprintBuilder,
    kind: &AnyDomain,
    listed: &[AnyIndex],
) -> Result<(), AttemptErr>
    ensures { Looks (all_in_parent kind.now listed.now) book.now.cells footprint.old result footprint.new }
{
    match kind.domain_kind() {
        DomainKind::Rectangular(_) => Ok(()),
        DomainKind::Sparse(parent, _) => all_in_domain(book, footprint, parent, listed),
        DomainKind::Associative(_) => Ok(()),
    }
}

/// The number that a cell holds, and 0 where it holds none.
fn number_or_zero(value: Option<Value>) -> i64
    ensures { result ≡ number_or_zero value }
{
    match value {
        None => 0,
        Some(value) => match value {
            Value::Number(number) => number,
            Value::Domain(_) => 0,
            Value::Array(_, _) => 0,
            Value::Ranges(_) => 0,
            Value::Mapping(_) => 0,
            Value::Present => 0,
            Value::Bound(_) => 0,
        },
    }
}

// An array with its implicit value, which is looked at.
fn with_implicit(
    book: &Layered<'_>,
    footprint: &mut FootprintBuilder,
    array: Name,
) -> Result<(Name, i64), AttemptErr>
    ensures read { OnOk result (footprint.new ≡ footprint.old ++ one_of (Implicit array) ∷ []) }
    ensures value { IfOk result (λ f. f ≡ (array, number_or_zero (get book.now.cells (Implicit array)))) }
    ensures only { IfErr result (λ e. e ≡ NoMemory) }
{
    let cell = Cell::Implicit(array);
    match footprint.keep(Pattern::One(AnyCell::new(cell))) {
        Ok(()) => Ok((array, number_or_zero(book.get(&cell)))),
        Err(_) => Err(AttemptErr::NoMemory),
    }
}

// Each array with its implicit value; each of these is looked at.
fn with_implicits(
    alloc: Global,
    book: &Layered<'_>,
    footprint: &mut FootprintBuilder,
    arrays: &[Name],
) -> Result<Vec<(Name, i64)>, AttemptErr>
    ensures read { OnOk result (footprint.new ≡ footprint.old ++ map one_of (map Implicit arrays.now)) }
    ensures values { IfOk result (λ v. v.items ≡ map (λ a. (a, number_or_zero (get book.now.cells (Implicit a)))) arrays.now) }
    ensures only { IfErr result (λ e. e ≡ NoMemory) }
{
    let mut found = Vec::new(alloc);
    for array in arrays {
        let fill = with_implicit(book, footprint, *array)?;
        if found.push(fill).is_err() {
            return Err(AttemptErr::NoMemory);
        }
    }
    Ok(found)
}

fn zeros_of(alloc: Global, arrays: &[Name]) -> Result<Vec<(Name, i64)>, AllocError>
    ensures { IfOk result (λ v. v.items ≡ zeros arrays.now) }
{
    arrays.iter().map(|array| (*array, 0)).collect(alloc)
}

/// Each array with 0.
pub(crate) fn zeros(alloc: Global, arrays: &[Name]) -> Result<Vec<(Name, i64)>, AttemptErr>
    ensures same { IfOk result (λ v. v.items ≡ zeros arrays.now) }
    ensures only { IfErr result (λ e. e ≡ NoMemory) }
{
    match zeros_of(alloc, arrays) {
        Ok(found) => Ok(found),
        Err(_) => Err(AttemptErr::NoMemory),
    }
}

fn defaults(
    alloc: Global,
    book: &Layered<'_>,
    footprint: &mut FootprintBuilder,
    kind: &AnyDomain,
    arrays: &[Name],
) -> Result<Vec<(Name, i64)>, AttemptErr>
    ensures looks { Looks (defaults kind.now arrays.now) book.now.cells footprint.old (items_of result) footprint.new }
    ensures keys { IfOk result (λ v. keys_of v.items ≡ arrays.now) }
{
    match kind.domain_kind() {
        DomainKind::Rectangular(_) => zeros(alloc, arrays),
        DomainKind::Sparse(_, _) => with_implicits(alloc, book, footprint, arrays),
        DomainKind::Associative(_) => zeros(alloc, arrays),
    }
}

/// The arrays over a domain, each with what a new index brings to it.
pub(crate) fn fills(
    alloc: Global,
    book: &Layered<'_>,
    footprint: &mut FootprintBuilder,
    domain: Name,
    kind: &AnyDomain,
) -> Result<Vec<(Name, i64)>, AttemptErr>
    ensures looks { Looks (fills domain kind.now) book.now.cells footprint.old (items_of result) footprint.new }
    ensures once { IfOk result (λ v. IsListedOnce (keys_of v.items)) }
{
    let users = uses(alloc, book, footprint, domain)?;
    let names = arrays(alloc, &users)?;
    defaults(alloc, book, footprint, kind, &names)
}
