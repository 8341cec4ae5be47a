//! Set operations with the indices of an associative domain.
//!
//! What leaves and what comes is found by looking up each given index, so that a union, a difference or a symmetric difference
//! with a few indices takes no time that grows with the domain. An intersection lists the indices of the domain.

ghost use Rattle.std.specs.Prelude.{◌≡◌, List, [], true, IfOk};
ghost use Rattle.std.specs.List.Sorted.{IsStrictlySortedBy};
ghost use Rattle.wb_cells.specs.Cells.{index_cmp};
ghost use Rattle.wb_cells.specs.Readers.{members};
ghost use Rattle.wb_cells.specs.WellFormed.{has};
ghost use Rattle.wb_cells.specs.declared.values.index.Index.{Index};
ghost use Rattle.wb_cells.specs.declared.cells.kind.DomainKind.TheVariants.{Associative};
ghost use Rattle.wb_reshape.specs.Resized.{without};
ghost use Rattle.wb_reshape.specs.Sources.{among, combined};
ghost use Rattle.wb_edit.specs.Commands.Reshape.{with_indices, combine_set};
ghost use Rattle.wb_edit.specs.Plans.{Attempts};

use crate::attempt_err::AttemptErr;
use crate::commands::resized::{plan_emptied, plan_exchanged};
use crate::footprint::FootprintBuilder;
use crate::looks::indices::{listed_members, look_at_members};
use crate::looks::sources::{gives_set, indices_given};
use std::alloc::Global;
use wb_cells::{AnyDomain, AnyIndex, Cell, Delta, DomainKind, KeyType, Kind, Name};
use wb_layers::Layered;
use wb_range::NoMemory;
use wb_reshape::set_operations::without;
use wb_reshape::{Operand, SetOperation};

// Whether a sparse or associative domain has an index.
fn has_member(book: &Layered<'_>, domain: Name, index: &AnyIndex) -> bool
    ensures { result ≡ has (members book.now.cells domain) index.now }
{
    book.get(&Cell::Member(domain, *index)).is_some()
}

// Indices by whether a domain has them.
#[derive(Drop)]
struct Parted {
    inside: Vec<AnyIndex>,
    outside: Vec<AnyIndex>,
}

// Those of `given` that a domain has and those that it doesn't have, in their order.
fn part(
    alloc: Global,
    book: &Layered<'_>,
    domain: Name,
    given: &[AnyIndex],
) -> Result<Parted, NoMemory>
    ensures inside { IfOk result (λ r. r.inside.items ≡ among (members book.now.cells domain) given.now) }
    ensures outside { IfOk result (λ r. r.outside.items ≡ without (members book.now.cells domain) given.now) }
{
    let mut inside = Vec::new(alloc);
    let mut outside = Vec::new(alloc);
    for index in given {
        let here = has_member(book, domain, index);
        if here && inside.push(*index).is_err() {
            return Err(NoMemory);
        }
        if !here && outside.push(*index).is_err() {
            return Err(NoMemory);
        }
    }
    Ok(Parted { inside, outside })
}

// Indices that leave a domain, and others that come to it.
#[derive(Drop)]
struct Exchange {
    leaving: Vec<AnyIndex>,
    coming: Vec<AnyIndex>,
}

// What the indices of a domain and those that are given have in common stays.
fn intersection(
    alloc: Global,
    book: &Layered<'_>,
    domain: Name,
    given: &[AnyIndex],
) -> Result<Exchange, NoMemory>
    ensures leaving { IfOk result (λ x. x.leaving.items ≡ without given.now (members book.now.cells domain)) }
    ensures coming { IfOk result (λ x. x.coming.items ≡ []) }
{
    let old = listed_members(alloc, book, domain)?;
    let leaving = without(alloc, given, &old)?;
    Ok(Exchange {
        leaving,
        coming: Vec::new(alloc),
    })
}

// Which indices leave a domain and which come to it, so that it has what the operation makes of its indices and the given ones,
// which ascend.
fn exchange_by(
    alloc: Global,
    book: &Layered<'_>,
    domain: Name,
    how: SetOperation,
    given: &[AnyIndex],
) -> Result<Exchange, NoMemory>
    requires { IsStrictlySortedBy index_cmp given.now }
    ensures leaving { IfOk result (λ x. x.leaving.items ≡
        without (combined how given.now (members book.now.cells domain)) (members book.now.cells domain)) }
    ensures coming { IfOk result (λ x. x.coming.items ≡
        without (members book.now.cells domain) (combined how given.now (members book.now.cells domain))) }
{
    match how {
        SetOperation::Union => {
            let parts = part(alloc, book, domain, given)?;
            Ok(Exchange {
                leaving: Vec::new(alloc),
                coming: parts.outside,
            })
        }
        SetOperation::Intersection => intersection(alloc, book, domain, given),
        SetOperation::Difference => {
            let parts = part(alloc, book, domain, given)?;
            Ok(Exchange {
                leaving: parts.inside,
                coming: Vec::new(alloc),
            })
        }
        SetOperation::SymmetricDifference => {
            let parts = part(alloc, book, domain, given)?;
            Ok(Exchange {
                leaving: parts.inside,
                coming: parts.outside,
            })
        }
    }
}

// Whether it is known that the operation makes nothing of any indices and the given ones.
fn leaves_nothing(how: SetOperation, given: &[AnyIndex]) -> bool
    ensures { result ≡ true → (old : List Index) → combined how given.now old ≡ [] }
{
    match how {
        SetOperation::Union => false,
        SetOperation::Intersection => given.is_empty(),
        SetOperation::Difference => false,
        SetOperation::SymmetricDifference => false,
    }
}

// The domain gets what the operation makes of its indices and the given ones, which ascend.
fn plan_combined(
    alloc: Global,
    book: &Layered<'_>,
    footprint: &mut FootprintBuilder,
    domain: Name,
    key: KeyType,
    how: SetOperation,
    given: &[AnyIndex],
) -> Result<Delta, AttemptErr>
    requires { IsStrictlySortedBy index_cmp given.now }
    ensures { Attempts (with_indices domain (Associative key) (members book.now.cells domain) (combined how given.now (members book.now.cells domain)))
        book.now.cells footprint.old result footprint.new }
{
    let kind = AnyDomain::new(DomainKind::Associative(key));
    if leaves_nothing(how, given) {
        return plan_emptied(alloc, book, footprint, domain, &kind);
    }
    let Ok(exchange) = exchange_by(alloc, book, domain, how, given) else {
        return Err(AttemptErr::NoMemory);
    };
    plan_exchanged(
        alloc,
        book,
        footprint,
        domain,
        &kind,
        &exchange.leaving,
        &exchange.coming,
    )
}

/// The indices of an associative domain become what they and those that are given make.
pub(crate) fn plan_combine(
    alloc: Global,
    book: &Layered<'_>,
    footprint: &mut FootprintBuilder,
    domain: Name,
    key: KeyType,
    how: SetOperation,
    given: &Operand,
) -> Result<Delta, AttemptErr>
    ensures { Attempts (combine_set domain (Associative key) how given.now) book.now.cells footprint.old result footprint.new }
{
    gives_set(book, footprint, Kind::Associative(key), given)?;
    look_at_members(footprint, domain)?;
    let other = indices_given(alloc, book, footprint, given)?;
    plan_combined(alloc, book, footprint, domain, key, how, &other)
}
