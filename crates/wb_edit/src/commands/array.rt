ghost use Rattle.std.specs.Prelude.{◌≡◌};
ghost use Rattle.wb_range.specs.Domain.{IsListedOnce};
ghost use Rattle.wb_edit.specs.Commands.{array, new_array_changes};
ghost use Rattle.wb_edit.specs.Plans.{Attempts, Makes, indices_in};

use crate::attempt_err::AttemptErr;
use crate::commands::writes::{put, put_found};
use crate::footprint::FootprintBuilder;
use crate::looks::indices::{Indices, domain_indices};
use crate::looks::one_cell;
use std::alloc::Global;
use wb_cells::{Binding, Cell, Delta, IndexedRow, Kind, Name, Value};
use wb_layers::Layered;

/// A new array over a domain.
pub(crate) fn plan_array(
    alloc: Global,
    book: &Layered<'_>,
    footprint: &mut FootprintBuilder,
    name: Name,
    domain: Name,
) -> Result<Delta, AttemptErr>
    ensures { Attempts (array name domain) book.now.cells footprint.old result footprint.new }
{
    one_cell::free_name(book, footprint, name)?;
    let kind = one_cell::domain_named(book, footprint, domain)?;
    let found = domain_indices(alloc, book, footprint, domain, &kind)?;
    array_changes(alloc, name, domain, kind.kind(), &found)
}

fn array_changes(
    alloc: Global,
    name: Name,
    domain: Name,
    kind: Kind,
    found: &Indices,
) -> Result<Delta, AttemptErr>
    requires { IsListedOnce (indices_in found.now) }
    ensures { Makes (new_array_changes name domain kind (indices_in found.now)) result }
{
    let mut delta = Delta::new(alloc);
    put(&mut delta, Cell::Object(name), Value::Array(domain, kind))?;
    put(
        &mut delta,
        Cell::Use(domain, name),
        Value::Bound(Binding::Array),
    )?;
    put(&mut delta, Cell::Implicit(name), Value::Number(0))?;
    put_found(
        &mut delta,
        &IndexedRow::Elements(name),
        found,
        &Value::Number(0),
    )?;
    Ok(delta)
}
