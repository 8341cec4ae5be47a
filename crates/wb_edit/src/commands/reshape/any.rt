//! A new value of a domain of any kind.

ghost use Rattle.wb_edit.specs.Plans.{Attempts};
ghost use Rattle.wb_edit.specs.Commands.Reshape.{reshape, reshape_kind};

use crate::attempt_err::AttemptErr;
use crate::commands::reshape::rectangles::plan_reshape_rectangle;
use crate::commands::reshape::sets::{plan_reshape_associative, plan_reshape_sparse};
use crate::footprint::FootprintBuilder;
use crate::looks::one_cell::domain_named;
use std::alloc::Global;
use wb_cells::{AnyDomain, Delta, DomainKind, Name};
use wb_layers::Layered;
use wb_reshape::NewIndices;

fn plan_reshape_kind(
    alloc: Global,
    book: &Layered<'_>,
    footprint: &mut FootprintBuilder,
    domain: Name,
    kind: &AnyDomain,
    source: &NewIndices,
) -> Result<Delta, AttemptErr>
    ensures { Attempts (reshape_kind domain kind.now source.now) book.now.cells footprint.old result footprint.new }
{
    match kind.domain_kind() {
        DomainKind::Rectangular(rank) => {
            plan_reshape_rectangle(alloc, book, footprint, domain, rank, source)
        }
        DomainKind::Sparse(_, _) => plan_reshape_sparse(
            alloc, book, footprint, domain, kind, source,
        ),
        DomainKind::Associative(key) => {
            plan_reshape_associative(alloc, book, footprint, domain, key, source)
        }
    }
}

/// A new value of a domain.
pub(crate) fn plan_reshape(
    alloc: Global,
    book: &Layered<'_>,
    footprint: &mut FootprintBuilder,
    domain: Name,
    source: &NewIndices,
) -> Result<Delta, AttemptErr>
    ensures { Attempts (reshape domain source.now) book.now.cells footprint.old result footprint.new }
{
    let kind = domain_named(book, footprint, domain)?;
    plan_reshape_kind(alloc, book, footprint, domain, &kind, source)
}
