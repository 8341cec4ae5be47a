ghost use Rattle.std.specs.Prelude.{◌≡◌, map};
ghost use Rattle.wb_range.specs.Domain.{IsListedOnce};
ghost use Rattle.wb_cells.specs.declared.cells.cell.Cell.TheVariants.{Element};
ghost use Rattle.wb_cells.specs.declared.cells.value.Value.TheVariants.{Number};
ghost use Rattle.wb_edit.specs.Commands.{fill_all};
ghost use Rattle.wb_edit.specs.Plans.{Attempts, Makes, indices_in};
ghost use Rattle.wb_edit.specs.Writes.{put_all};

use crate::attempt_err::AttemptErr;
use crate::commands::writes::put_found;
use crate::footprint::FootprintBuilder;
use crate::looks::indices::Indices;
use crate::looks::{elements, one_cell};
use std::alloc::Global;
use wb_cells::{Delta, IndexedRow, Name, Value};
use wb_layers::Layered;

/// One number as every element of an array.
pub(crate) fn plan_fill_all(
    alloc: Global,
    book: &Layered<'_>,
    footprint: &mut FootprintBuilder,
    array: Name,
    value: i64,
) -> Result<Delta, AttemptErr>
    ensures { Attempts (fill_all array value) book.now.cells footprint.old result footprint.new }
{
    one_cell::array_named(book, footprint, array)?;
    let found = elements::element_indices(alloc, book, footprint, array)?;
    fill_changes(alloc, array, &found, &Value::Number(value))
}

fn fill_changes(
    alloc: Global,
    array: Name,
    found: &Indices,
    value: &Value,
) -> Result<Delta, AttemptErr>
    requires { IsListedOnce (indices_in found.now) }
    ensures { Makes (put_all (map (Element array) (indices_in found.now)) value.now) result }
{
    let mut delta = Delta::new(alloc);
    put_found(&mut delta, &IndexedRow::Elements(array), found, value)?;
    Ok(delta)
}
