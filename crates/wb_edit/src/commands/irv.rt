ghost use Rattle.std.specs.Prelude.{◌≡◌, [], ◌∷◌};
ghost use Rattle.wb_cells.specs.declared.cells.cell.Cell.TheVariants.{Implicit};
ghost use Rattle.wb_cells.specs.declared.cells.value.Value.TheVariants.{Number};
ghost use Rattle.wb_edit.specs.Commands.{irv};
ghost use Rattle.wb_edit.specs.Plans.{Attempts, Makes};
ghost use Rattle.wb_edit.specs.Writes.{set_to};

use crate::attempt_err::{AttemptErr, or_refused};
use crate::commands::writes::put;
use crate::footprint::FootprintBuilder;
use crate::looks::{kinds, one_cell};
use std::alloc::Global;
use wb_cells::{Cell, Delta, Name, Value};
use wb_layers::Layered;

/// A new implicit value.
pub(crate) fn plan_irv(
    alloc: Global,
    book: &Layered<'_>,
    footprint: &mut FootprintBuilder,
    array: Name,
    value: i64,
) -> Result<Delta, AttemptErr>
    ensures { Attempts (irv array value) book.now.cells footprint.old result footprint.new }
{
    let (_domain, kind) = one_cell::array_named(book, footprint, array)?;
    or_refused(kinds::is_sparse(&kind))?;
    implicit_change(alloc, array, value)
}

fn implicit_change(alloc: Global, array: Name, value: i64) -> Result<Delta, AttemptErr>
    ensures { Makes (set_to (Implicit array) (Number value) ∷ []) result }
{
    let mut delta = Delta::new(alloc);
    put(&mut delta, Cell::Implicit(array), Value::Number(value))?;
    Ok(delta)
}
