//! New indices of a sparse or associative domain, by their source.

ghost use Rattle.wb_range.specs.Domain.{IsListedOnce};
ghost use Rattle.wb_cells.specs.declared.cells.kind.DomainKind.TheVariants.{Associative};
ghost use Rattle.wb_cells.specs.Readers.{members};
ghost use Rattle.wb_edit.specs.Plans.{Attempts};
ghost use Rattle.wb_edit.specs.Commands.Reshape.{with_indices, to_set, reshape_sparse, reshape_associative};

use crate::attempt_err::AttemptErr;
use crate::commands::reshape::no_source::plan_no_source;
use crate::commands::reshape::operations::plan_combine;
use crate::commands::resized::{plan_emptied, plan_resized};
use crate::footprint::FootprintBuilder;
use crate::looks::indices::{listed_members, look_at_members};
use crate::looks::sources::{gives_set, indices_given};
use std::alloc::Global;
use wb_cells::{AnyDomain, AnyIndex, Delta, DomainKind, KeyType, Name, WhyRefused};
use wb_layers::Layered;
use wb_reshape::set_operations::without;
use wb_reshape::{NewIndices, Operand};

// A domain with some indices gets others.
fn plan_with_indices(
    alloc: Global,
    book: &Layered<'_>,
    footprint: &mut FootprintBuilder,
    domain: Name,
    kind: &AnyDomain,
    old: &[AnyIndex],
    new: &[AnyIndex],
) -> Result<Delta, AttemptErr>
    requires old { IsListedOnce old.now }
    requires new { IsListedOnce new.now }
    ensures { Attempts (with_indices domain kind.now old.now new.now) book.now.cells footprint.old result footprint.new }
{
    let Ok(leaving) = without(alloc, new, old) else {
        return Err(AttemptErr::NoMemory);
    };
    let Ok(coming) = without(alloc, old, new) else {
        return Err(AttemptErr::NoMemory);
    };
    plan_resized(alloc, book, footprint, domain, kind, new, &leaving, &coming)
}

// A sparse or associative domain gets other indices.
fn plan_replaced(
    alloc: Global,
    book: &Layered<'_>,
    footprint: &mut FootprintBuilder,
    domain: Name,
    kind: &AnyDomain,
    new: &[AnyIndex],
) -> Result<Delta, AttemptErr>
    requires { IsListedOnce new.now }
    ensures { Attempts (with_indices domain kind.now (members book.now.cells domain) new.now) book.now.cells footprint.old result footprint.new }
{
    if new.is_empty() {
        return plan_emptied(alloc, book, footprint, domain, kind);
    }
    let Ok(old) = listed_members(alloc, book, domain) else {
        return Err(AttemptErr::NoMemory);
    };
    plan_with_indices(alloc, book, footprint, domain, kind, &old, new)
}

// What is given takes the place of the indices.
fn plan_to(
    alloc: Global,
    book: &Layered<'_>,
    footprint: &mut FootprintBuilder,
    domain: Name,
    kind: &AnyDomain,
    given: &Operand,
) -> Result<Delta, AttemptErr>
    ensures { Attempts (to_set domain kind.now given.now) book.now.cells footprint.old result footprint.new }
{
    gives_set(book, footprint, kind.kind(), given)?;
    look_at_members(footprint, domain)?;
    let new = indices_given(alloc, book, footprint, given)?;
    plan_replaced(alloc, book, footprint, domain, kind, &new)
}

/// A new value of a sparse domain.
pub(crate) fn plan_reshape_sparse(
    alloc: Global,
    book: &Layered<'_>,
    footprint: &mut FootprintBuilder,
    domain: Name,
    kind: &AnyDomain,
    source: &NewIndices,
) -> Result<Delta, AttemptErr>
    ensures { Attempts (reshape_sparse domain kind.now source.now) book.now.cells footprint.old result footprint.new }
{
    match source {
        NewIndices::To(given) => plan_to(alloc, book, footprint, domain, kind, given),
        NewIndices::Slice(given) => plan_no_source(book, footprint, given),
        NewIndices::Displace(_, _) => Err(AttemptErr::Refused(WhyRefused::WrongKind)),
        NewIndices::Combine(_, given) => plan_no_source(book, footprint, given),
    }
}

/// A new value of an associative domain with indices of a type.
pub(crate) fn plan_reshape_associative(
    alloc: Global,
    book: &Layered<'_>,
    footprint: &mut FootprintBuilder,
    domain: Name,
    key: KeyType,
    source: &NewIndices,
) -> Result<Delta, AttemptErr>
    ensures { Attempts (reshape_associative domain (Associative key) source.now) book.now.cells footprint.old result footprint.new }
{
    match source {
        NewIndices::To(given) => {
            let kind = AnyDomain::new(DomainKind::Associative(key));
            plan_to(alloc, book, footprint, domain, &kind, given)
        }
        NewIndices::Slice(given) => plan_no_source(book, footprint, given),
        NewIndices::Displace(_, _) => Err(AttemptErr::Refused(WhyRefused::WrongKind)),
        NewIndices::Combine(how, given) => {
            plan_combine(alloc, book, footprint, domain, key, *how, given)
        }
    }
}
