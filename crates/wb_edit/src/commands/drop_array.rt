ghost use Rattle.std.specs.Prelude.{◌≡◌};
ghost use Rattle.wb_range.specs.Domain.{IsListedOnce};
ghost use Rattle.wb_edit.specs.Commands.{drop_array, dropped_cells};
ghost use Rattle.wb_edit.specs.Plans.{Attempts, Makes, indices_in};

use crate::attempt_err::AttemptErr;
use crate::commands::writes::{become_found, change};
use crate::footprint::FootprintBuilder;
use crate::looks::indices::Indices;
use crate::looks::{elements, one_cell};
use std::alloc::Global;
use wb_cells::{Cell, Delta, IndexedRow, Name};
use wb_layers::Layered;

/// The end of an array.
pub(crate) fn plan_drop_array(
    alloc: Global,
    book: &Layered<'_>,
    footprint: &mut FootprintBuilder,
    array: Name,
) -> Result<Delta, AttemptErr>
    ensures { Attempts (drop_array array) book.now.cells footprint.old result footprint.new }
{
    let (domain, _kind) = one_cell::array_named(book, footprint, array)?;
    let found = elements::element_indices(alloc, book, footprint, array)?;
    drop_changes(alloc, array, domain, &found)
}

fn drop_changes(
    alloc: Global,
    array: Name,
    domain: Name,
    found: &Indices,
) -> Result<Delta, AttemptErr>
    requires { IsListedOnce (indices_in found.now) }
    ensures { Makes (dropped_cells array domain (indices_in found.now)) result }
{
    let mut delta = Delta::new(alloc);
    change(&mut delta, Cell::Object(array), None)?;
    change(&mut delta, Cell::Use(domain, array), None)?;
    change(&mut delta, Cell::Implicit(array), None)?;
    become_found(&mut delta, &IndexedRow::Elements(array), found, &None)?;
    Ok(delta)
}
