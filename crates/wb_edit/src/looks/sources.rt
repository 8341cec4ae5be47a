//! Tests on where the new value of a domain comes from, and looks at what is given.

ghost use Rattle.std.specs.Prelude.{◌≡◌, IfOk, IfErr};
ghost use Rattle.std.specs.List.{list_all};
ghost use Rattle.std.specs.List.Sorted.{IsStrictlySortedBy};
ghost use Rattle.wb_cells.specs.Cells.{index_cmp};
ghost use Rattle.wb_cells.specs.Kinds.{is_key};
ghost use Rattle.wb_range.specs.Domain.{IsListedOnce};
ghost use Rattle.wb_edit.specs.Plans.{Looks, found_members};
ghost use Rattle.wb_edit.specs.declared.attempt_err.AttemptErr.TheVariants.{NoMemory};
ghost use Rattle.wb_edit.specs.Sources.{same_rank, slice_of, displacement_of, is_same_type, is_alike, alike, all_fit, names_rectangle, gives_rectangle};
ghost use Rattle.wb_edit.specs.Sources.{ranges_given, names_set, gives_set, indices_given};

use crate::attempt_err::{AttemptErr, or_refused};
use crate::footprint::FootprintBuilder;
use crate::looks::indices::members;
use crate::looks::one_cell::domain_named;
use crate::looks::rectangles::{both_answers, of_rank};
use crate::looks::reshaping::shape;
use std::alloc::Global;
use wb_cells::{AnyIndex, AnyRect, KeyType, Kind, Name, Point, WhyRefused};
use wb_layers::Layered;
use wb_range::Domain;
use wb_rect::RectErr;
use wb_reshape::new_rectangles::displaced;
use wb_reshape::{Displacement, Operand};
use wb_sets::Assoc;

/// That there are so many dimensions as a domain of the rank has; `WrongKind` where there are not.
pub(crate) fn same_rank(rank: usize, dimensions: usize) -> Result<(), WhyRefused>
    ensures { result ≡ same_rank rank dimensions }
{
    if dimensions == rank {
        Ok(())
    } else {
        Err(WhyRefused::WrongKind)
    }
}

/// What two rectangles have in common; `WrongKind` where they are of different ranks.
pub(crate) fn slice_of(old: &AnyRect, by: &AnyRect) -> Result<AnyRect, WhyRefused>
    ensures { result ≡ slice_of old.now by.now }
{
    match old.slice(by) {
        Some(new) => Ok(new),
        None => Err(WhyRefused::WrongKind),
    }
}

/// A rectangle displaced by an offset for each dimension; `WrongKind` where the offsets are more or fewer or a range has
/// another stride than 1, `TooLarge` where it would be outside the limits.
pub(crate) fn displacement_of(
    how: Displacement,
    offsets: &Point,
    old: &AnyRect,
) -> Result<AnyRect, WhyRefused>
    ensures { result ≡ displacement_of how offsets.now old.now }
{
    if offsets.coordinates().len() != old.rank() as usize {
        return Err(WhyRefused::WrongKind);
    }
    match displaced(how, offsets, old) {
        Ok(new) => Ok(new),
        Err(RectErr::Strided) => Err(WhyRefused::WrongKind),
        Err(RectErr::TooLarge) => Err(WhyRefused::TooLarge),
    }
}

fn is_same_type(key: KeyType, other: KeyType) -> bool
    ensures { result ≡ is_same_type key other }
{
    match key {
        KeyType::Int => match other {
            KeyType::Int => true,
            KeyType::Text => false,
        },
        KeyType::Text => match other {
            KeyType::Int => false,
            KeyType::Text => true,
        },
    }
}

fn is_alike(kind: Kind, other: Kind) -> bool
    ensures { result ≡ is_alike kind other }
{
    match kind {
        Kind::Rectangular(_) => false,
        Kind::Sparse(rank) => match other {
            Kind::Rectangular(_) => false,
            Kind::Sparse(of_other) => rank == of_other,
            Kind::Associative(_) => false,
        },
        Kind::Associative(key) => match other {
            Kind::Rectangular(_) => false,
            Kind::Sparse(_) => false,
            Kind::Associative(of_other) => is_same_type(key, of_other),
        },
    }
}

/// That two domains are both sparse, of one rank, or both associative, of one type; `WrongKind` where they are not.
pub(crate) fn alike(kind: Kind, other: Kind) -> Result<(), WhyRefused>
    ensures { result ≡ alike kind other }
{
    if is_alike(kind, other) {
        Ok(())
    } else {
        Err(WhyRefused::WrongKind)
    }
}

fn all_keys(kind: Kind, listed: &[AnyIndex]) -> bool
    ensures { result ≡ list_all (is_key kind) listed.now }
{
    let mut all = true;
    for index in listed {
        all = both_answers(all, kind.is_key(&index.index()));
    }
    all
}

/// That all indices are of the rank or type of the indices of a domain of this kind; `WrongKind` where one is not.
pub(crate) fn all_fit(kind: Kind, listed: &[AnyIndex]) -> Result<(), WhyRefused>
    ensures { result ≡ all_fit kind listed.now }
{
    if all_keys(kind, listed) {
        Ok(())
    } else {
        Err(WhyRefused::WrongKind)
    }
}

// The name is that of a rectangular domain of the rank.
fn names_rectangle(
    book: &Layered<'_>,
    footprint: &mut FootprintBuilder,
    rank: u8,
    name: Name,
) -> Result<(), AttemptErr>
    ensures { Looks (names_rectangle rank name) book.now.cells footprint.old result footprint.new }
{
    let kind = domain_named(book, footprint, name)?;
    or_refused(of_rank(rank, kind.kind()))
}

/// A rectangle of the rank is given.
pub(crate) fn gives_rectangle(
    book: &Layered<'_>,
    footprint: &mut FootprintBuilder,
    rank: u8,
    given: &Operand,
) -> Result<(), AttemptErr>
    ensures { Looks (gives_rectangle rank given.now) book.now.cells footprint.old result footprint.new }
{
    match given {
        Operand::Rectangle(ranges) => or_refused(same_rank(rank as usize, ranges.rank() as usize)),
        Operand::Items(_) => Err(AttemptErr::Refused(WhyRefused::WrongKind)),
        Operand::Named(name) => names_rectangle(book, footprint, rank, *name),
    }
}

/// The ranges that are given.
pub(crate) fn ranges_given(
    book: &Layered<'_>,
    footprint: &mut FootprintBuilder,
    given: &Operand,
) -> Result<AnyRect, AttemptErr>
    ensures { Looks (ranges_given given.now) book.now.cells footprint.old result footprint.new }
{
    match given {
        Operand::Rectangle(ranges) => Ok(*ranges),
        Operand::Items(_) => Err(AttemptErr::Refused(WhyRefused::WrongKind)),
        Operand::Named(name) => shape(book, footprint, *name),
    }
}

// The name is that of a domain like one of the kind.
fn names_set(
    book: &Layered<'_>,
    footprint: &mut FootprintBuilder,
    kind: Kind,
    name: Name,
) -> Result<(), AttemptErr>
    ensures { Looks (names_set kind name) book.now.cells footprint.old result footprint.new }
{
    let other = domain_named(book, footprint, name)?;
    or_refused(alike(kind, other.kind()))
}

/// A set for a domain of the kind is given.
pub(crate) fn gives_set(
    book: &Layered<'_>,
    footprint: &mut FootprintBuilder,
    kind: Kind,
    given: &Operand,
) -> Result<(), AttemptErr>
    ensures { Looks (gives_set kind given.now) book.now.cells footprint.old result footprint.new }
{
    match given {
        Operand::Rectangle(_) => Err(AttemptErr::Refused(WhyRefused::WrongKind)),
        Operand::Items(listed) => or_refused(all_fit(kind, listed.as_slice())),
        Operand::Named(name) => names_set(book, footprint, kind, *name),
    }
}

// The indices, one by one.
fn listed(alloc: Global, items: &Assoc<AnyIndex>) -> Result<Vec<AnyIndex>, AttemptErr>
    ensures same { IfOk result (λ v. v.items ≡ items.now) }
    ensures once { IfOk result (λ v. IsListedOnce v.items) }
    ensures ascending { IfOk result (λ v. IsStrictlySortedBy index_cmp v.items) }
    ensures only { IfErr result (λ e. e ≡ NoMemory) }
{
    // For the proof: each index of the set is listed once.
    let _once = items.size();
    match Vec::from_slice(alloc, items.as_slice()) {
        Ok(found) => Ok(found),
        Err(_) => Err(AttemptErr::NoMemory),
    }
}

/// The indices that are given.
pub(crate) fn indices_given(
    alloc: Global,
    book: &Layered<'_>,
    footprint: &mut FootprintBuilder,
    given: &Operand,
) -> Result<Vec<AnyIndex>, AttemptErr>
    ensures looks { Looks (indices_given given.now) book.now.cells footprint.old (found_members result) footprint.new }
    ensures once { IfOk result (λ v. IsListedOnce v.items) }
    ensures ascending { IfOk result (λ v. IsStrictlySortedBy index_cmp v.items) }
{
    match given {
        Operand::Rectangle(_) => Err(AttemptErr::Refused(WhyRefused::WrongKind)),
        Operand::Items(items) => listed(alloc, items),
        Operand::Named(name) => members(alloc, book, footprint, *name),
    }
}
