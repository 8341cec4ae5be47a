ghost use Rattle.std.specs.Prelude.{◌≡◌, map};
ghost use Rattle.wb_cells.specs.Shapes.{indices};
ghost use Rattle.wb_cells.specs.declared.cells.cell.Cell.TheVariants.{Element};
ghost use Rattle.wb_cells.specs.declared.cells.value.Value.TheVariants.{Number};
ghost use Rattle.wb_edit.specs.Commands.{fill};
ghost use Rattle.wb_edit.specs.Plans.{Attempts, Makes};
ghost use Rattle.wb_edit.specs.Writes.{put_all};

use crate::asked_rectangle::AskedRectangle;
use crate::attempt_err::AttemptErr;
use crate::commands::writes::put_all;
use crate::footprint::FootprintBuilder;
use crate::looks::{one_cell, rectangles};
use std::alloc::Global;
use wb_cells::{AnyRect, Delta, IndexedRow, Name, Value};
use wb_layers::Layered;

/// One number at the indices of a rectangle.
pub(crate) fn plan_fill(
    alloc: Global,
    book: &Layered<'_>,
    footprint: &mut FootprintBuilder,
    array: Name,
    asked: &AskedRectangle,
    value: i64,
) -> Result<Delta, AttemptErr>
    ensures { Attempts (fill array asked.now value) book.now.cells footprint.old result footprint.new }
{
    let (_domain, kind) = one_cell::array_named(book, footprint, array)?;
    let on = rectangles::asked_ranges(asked)?;
    rectangles::over_rectangle(&on, kind)?;
    rectangles::all_elements(book, footprint, array, &on)?;
    fill_changes(alloc, array, &on, value)
}

fn fill_changes(alloc: Global, array: Name, on: &AnyRect, value: i64) -> Result<Delta, AttemptErr>
    ensures { Makes (put_all (map (Element array) (indices on.now)) (Number value)) result }
{
    let mut delta = Delta::new(alloc);
    put_all(
        &mut delta,
        &IndexedRow::Elements(array),
        on,
        &Value::Number(value),
    )?;
    Ok(delta)
}
