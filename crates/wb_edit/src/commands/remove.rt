ghost use Rattle.std.specs.Prelude.{◌≡◌};
ghost use Rattle.wb_edit.specs.Commands.{left, remove, remove_if};
ghost use Rattle.wb_edit.specs.Plans.{Attempts};

use crate::attempt_err::{AttemptErr, or_refused};
use crate::commands::resized::resize_changes;
use crate::footprint::FootprintBuilder;
use crate::looks::resizing::{has_members, zeros};
use crate::looks::users::{arrays, uses};
use crate::looks::{judgements, one_cell};
use std::alloc::Global;
use wb_cells::{AnyDomain, AnyIndex, Cell, Delta, Name, Value};
use wb_layers::Layered;

/// The end of an index of a sparse or associative domain.
pub(crate) fn plan_remove(
    alloc: Global,
    book: &Layered<'_>,
    footprint: &mut FootprintBuilder,
    domain: Name,
    index: AnyIndex,
) -> Result<Delta, AttemptErr>
    ensures { Attempts (remove domain index) book.now.cells footprint.old result footprint.new }
{
    let kind = one_cell::domain_named(book, footprint, domain)?;
    or_refused(has_members(&kind))?;
    or_refused(judgements::fits(kind.kind(), index))?;
    let there = one_cell::read(book, footprint, &Cell::Member(domain, index))?;
    remove_if(alloc, book, footprint, there, domain, &kind, index)
}

fn remove_if(
    alloc: Global,
    book: &Layered<'_>,
    footprint: &mut FootprintBuilder,
    there: Option<Value>,
    domain: Name,
    kind: &AnyDomain,
    index: AnyIndex,
) -> Result<Delta, AttemptErr>
    ensures { Attempts (remove_if there domain kind.now index) book.now.cells footprint.old result footprint.new }
{
    match there {
        None => Ok(Delta::new(alloc)),
        Some(_) => plan_left(alloc, book, footprint, domain, kind, index),
    }
}

// The index, which is there, leaves the domain.
fn plan_left(
    alloc: Global,
    book: &Layered<'_>,
    footprint: &mut FootprintBuilder,
    domain: Name,
    kind: &AnyDomain,
    index: AnyIndex,
) -> Result<Delta, AttemptErr>
    ensures { Attempts (left domain kind.now index) book.now.cells footprint.old result footprint.new }
{
    let users = uses(alloc, book, footprint, domain)?;
    let names = arrays(alloc, &users)?;
    let cleared = zeros(alloc, &names)?;
    resize_changes(alloc, domain, kind, &cleared, &[index], &[])
}
