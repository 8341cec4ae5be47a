//! Looks at the indices of a domain.

ghost use Rattle.std.specs.Prelude.{◌≡◌, [], ◌∷◌, ◌++◌, IfOk, IfErr, OnOk};
ghost use Rattle.std.specs.List.Sorted.{IsStrictlySortedBy};
ghost use Rattle.wb_range.specs.Domain.{IsListedOnce};
ghost use Rattle.wb_cells.specs.Cells.{index_cmp};
ghost use Rattle.wb_cells.specs.Readers as readers;
ghost use Rattle.wb_cells.specs.declared.cells.pattern.Pattern.TheVariants.{Members};
ghost use Rattle.wb_edit.specs.Looks.{members, points, indices_of, domain_indices};
ghost use Rattle.wb_edit.specs.Plans.{Looks, found_members, indices_in, shown_indices};

use crate::attempt_err::AttemptErr;
use crate::footprint::FootprintBuilder;
use crate::looks::judgements;
use crate::looks::one_cell::read;
use std::alloc::Global;
use wb_cells::{AnyDomain, AnyIndex, AnyRect, Cell, DomainKind, Name, Pattern};
use wb_layers::Layered;
use wb_range::NoMemory;

/// The indices of a domain, in its order.
#[derive(Drop)]
pub(crate) enum Indices {
    /// The indices of a rectangular domain with these ranges.
    Product(AnyRect),
    /// One by one, each once.
    Listed(Vec<AnyIndex>),
}

/// All indices of a sparse or associative domain are looked at, whether or not they are listed.
pub(crate) fn look_at_members(
    footprint: &mut FootprintBuilder,
    domain: Name,
) -> Result<(), AttemptErr>
    ensures read { OnOk result (footprint.new ≡ footprint.old ++ Members domain ∷ []) }
    ensures only { IfErr result (λ e. e ≡ AttemptErr.NoMemory) }
{
    match footprint.keep(Pattern::Members(domain)) {
        Ok(()) => Ok(()),
        Err(_) => Err(AttemptErr::NoMemory),
    }
}

/// The indices that a sparse or associative domain has, ascending.
pub(crate) fn listed_members(
    alloc: Global,
    book: &Layered<'_>,
    domain: Name,
) -> Result<Vec<AnyIndex>, NoMemory>
    ensures same { IfOk result (λ v. v.items ≡ readers.members book.now.cells domain) }
    ensures ascending { IfOk result (λ v. IsStrictlySortedBy index_cmp v.items) }
{
    book.members(alloc, &domain)
}

/// The indices of a sparse or associative domain.
pub(crate) fn members(
    alloc: Global,
    book: &Layered<'_>,
    footprint: &mut FootprintBuilder,
    domain: Name,
) -> Result<Vec<AnyIndex>, AttemptErr>
    ensures looks { Looks (members domain) book.now.cells footprint.old (found_members result) footprint.new }
    ensures once { IfOk result (λ v. IsListedOnce v.items) }
    ensures ascending { IfOk result (λ v. IsStrictlySortedBy index_cmp v.items) }
{
    look_at_members(footprint, domain)?;
    match listed_members(alloc, book, domain) {
        Ok(found) => Ok(found),
        Err(_) => Err(AttemptErr::NoMemory),
    }
}

/// The indices of a rectangular domain.
pub(crate) fn points(
    alloc: Global,
    book: &Layered<'_>,
    footprint: &mut FootprintBuilder,
    domain: Name,
) -> Result<Indices, AttemptErr>
    ensures looks { Looks (points domain) book.now.cells footprint.old (shown_indices result) footprint.new }
    ensures once { IfOk result (λ f. IsListedOnce (indices_in f)) }
{
    let shape = read(book, footprint, &Cell::Shape(domain))?;
    Ok(indices_of(alloc, judgements::ranges_in(shape)))
}

// The indices of ranges; none where there are no ranges.
fn indices_of(alloc: Global, ranges: Option<AnyRect>) -> Indices
    ensures same { indices_in result ≡ indices_of ranges }
    ensures once { IsListedOnce (indices_in result) }
{
    match ranges {
        Some(ranges) => {
            // For the proof: each index of the ranges is listed once.
            let _once = ranges.size();
            Indices::Product(ranges)
        }
        None => Indices::Listed(Vec::new(alloc)),
    }
}

fn listed(found: Result<Vec<AnyIndex>, AttemptErr>) -> Result<Indices, AttemptErr>
    requires { IfOk found (λ v. IsListedOnce v.items) }
    ensures same { shown_indices result ≡ found_members found }
    ensures once { IfOk result (λ f. IsListedOnce (indices_in f)) }
{
    match found {
        Ok(found) => Ok(Indices::Listed(found)),
        Err(why) => Err(why),
    }
}

/// The indices of a domain.
pub(crate) fn domain_indices(
    alloc: Global,
    book: &Layered<'_>,
    footprint: &mut FootprintBuilder,
    domain: Name,
    kind: &AnyDomain,
) -> Result<Indices, AttemptErr>
    ensures looks { Looks (domain_indices domain kind.now) book.now.cells footprint.old (shown_indices result) footprint.new }
    ensures once { IfOk result (λ f. IsListedOnce (indices_in f)) }
{
    match kind.domain_kind() {
        DomainKind::Rectangular(_) => points(alloc, book, footprint, domain),
        DomainKind::Sparse(_, _) => listed(members(alloc, book, footprint, domain)),
        DomainKind::Associative(_) => listed(members(alloc, book, footprint, domain)),
    }
}
