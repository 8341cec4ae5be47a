//! New ranges of a rectangular domain, where indices leave it and others come to it.

ghost use Rattle.std.specs.Prelude.{◌≡◌};
ghost use Rattle.wb_range.specs.Domain.{IsListedOnce};
ghost use Rattle.wb_edit.specs.Changed.{AreApart};
ghost use Rattle.wb_edit.specs.Plans.{Attempts, Makes};
ghost use Rattle.wb_edit.specs.Reshaping.{reshaped_cells, replaced};

use crate::attempt_err::AttemptErr;
use crate::commands::writes::{NamedDomain, put, resize};
use crate::footprint::FootprintBuilder;
use crate::looks::reshaping::none_there;
use crate::looks::resizing::zeros;
use crate::looks::users::{arrays, sparse_domains, uses};
use std::alloc::Global;
use wb_cells::{AnyIndex, AnyRect, Cell, Delta, Kind, Name, Value};
use wb_layers::Layered;

/// A rectangular domain gets new ranges, so that indices leave it and others come to it.
pub(crate) fn plan_replaced(
    alloc: Global,
    book: &Layered<'_>,
    footprint: &mut FootprintBuilder,
    domain: Name,
    new: &AnyRect,
    leaving: &[AnyIndex],
    coming: &[AnyIndex],
) -> Result<Delta, AttemptErr>
    requires leaving { IsListedOnce leaving.now }
    requires coming { IsListedOnce coming.now }
    requires apart { AreApart leaving.now coming.now }
    ensures { Attempts (replaced domain new.now leaving.now coming.now) book.now.cells footprint.old result footprint.new }
{
    let users = uses(alloc, book, footprint, domain)?;
    let inner = sparse_domains(alloc, &users)?;
    none_there(book, footprint, &inner, leaving)?;
    let names = arrays(alloc, &users)?;
    replace_changes(alloc, domain, new, &names, leaving, coming)
}

fn replace_changes(
    alloc: Global,
    domain: Name,
    new: &AnyRect,
    names: &[Name],
    leaving: &[AnyIndex],
    coming: &[AnyIndex],
) -> Result<Delta, AttemptErr>
    requires once { IsListedOnce names.now }
    requires leaving { IsListedOnce leaving.now }
    requires coming { IsListedOnce coming.now }
    requires apart { AreApart leaving.now coming.now }
    ensures { Makes (reshaped_cells domain new.now names.now leaving.now coming.now) result }
{
    let cleared = zeros(alloc, names)?;
    let mut delta = Delta::new(alloc);
    put(&mut delta, Cell::Shape(domain), Value::Ranges(*new))?;
    let over = NamedDomain {
        name: domain,
        kind: Kind::Rectangular(new.rank()),
    };
    resize(&mut delta, &over, &cleared, leaving, coming)?;
    Ok(delta)
}
