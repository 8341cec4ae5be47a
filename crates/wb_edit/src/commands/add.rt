ghost use Rattle.std.specs.Prelude.{◌≡◌};
ghost use Rattle.wb_edit.specs.Commands.{add, add_unless};
ghost use Rattle.wb_edit.specs.Plans.{Attempts};

use crate::attempt_err::{AttemptErr, or_refused};
use crate::commands::resized::plan_resized;
use crate::footprint::FootprintBuilder;
use crate::looks::resizing::has_members;
use crate::looks::{judgements, one_cell};
use std::alloc::Global;
use wb_cells::{AnyDomain, AnyIndex, Cell, Delta, Name, Value};
use wb_layers::Layered;

/// A new index of a sparse or associative domain.
pub(crate) fn plan_add(
    alloc: Global,
    book: &Layered<'_>,
    footprint: &mut FootprintBuilder,
    domain: Name,
    index: AnyIndex,
) -> Result<Delta, AttemptErr>
    ensures { Attempts (add domain index) book.now.cells footprint.old result footprint.new }
{
    let kind = one_cell::domain_named(book, footprint, domain)?;
    or_refused(has_members(&kind))?;
    or_refused(judgements::fits(kind.kind(), index))?;
    let there = one_cell::read(book, footprint, &Cell::Member(domain, index))?;
    add_unless(alloc, book, footprint, there, domain, &kind, index)
}

fn add_unless(
    alloc: Global,
    book: &Layered<'_>,
    footprint: &mut FootprintBuilder,
    there: Option<Value>,
    domain: Name,
    kind: &AnyDomain,
    index: AnyIndex,
) -> Result<Delta, AttemptErr>
    ensures { Attempts (add_unless there domain kind.now index) book.now.cells footprint.old result footprint.new }
{
    match there {
        Some(_) => Ok(Delta::new(alloc)),
        None => plan_resized(
            alloc,
            book,
            footprint,
            domain,
            kind,
            &[index],
            &[],
            &[index],
        ),
    }
}
