ghost use Rattle.std.specs.Prelude.{◌≡◌, [], ◌∷◌};
ghost use Rattle.wb_cells.specs.declared.cells.cell.Cell.TheVariants.{Element};
ghost use Rattle.wb_cells.specs.declared.cells.value.Value.TheVariants.{Number};
ghost use Rattle.wb_edit.specs.Commands.{set};
ghost use Rattle.wb_edit.specs.Plans.{Attempts, Makes};
ghost use Rattle.wb_edit.specs.Writes.{set_to};

use crate::attempt_err::{AttemptErr, or_refused};
use crate::commands::writes::put;
use crate::footprint::FootprintBuilder;
use crate::looks::{judgements, one_cell};
use std::alloc::Global;
use wb_cells::{AnyIndex, Cell, Delta, Name, Value};
use wb_layers::Layered;

/// A new element.
pub(crate) fn plan_set(
    alloc: Global,
    book: &Layered<'_>,
    footprint: &mut FootprintBuilder,
    array: Name,
    index: AnyIndex,
    value: i64,
) -> Result<Delta, AttemptErr>
    ensures { Attempts (set array index value) book.now.cells footprint.old result footprint.new }
{
    let (_domain, kind) = one_cell::array_named(book, footprint, array)?;
    or_refused(judgements::fits(kind, index))?;
    one_cell::element(book, footprint, array, index)?;
    element_change(alloc, array, index, value)
}

/// One element gets a value.
pub(crate) fn element_change(
    alloc: Global,
    array: Name,
    index: AnyIndex,
    value: i64,
) -> Result<Delta, AttemptErr>
    ensures { Makes (set_to (Element array index) (Number value) ∷ []) result }
{
    let mut delta = Delta::new(alloc);
    put(
        &mut delta,
        Cell::Element(array, index),
        Value::Number(value),
    )?;
    Ok(delta)
}
