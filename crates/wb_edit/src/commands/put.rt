ghost use Rattle.std.specs.Prelude.{◌≡◌};
ghost use Rattle.std.specs.List.{zip};
ghost use Rattle.wb_cells.specs.Shapes.{indices};
ghost use Rattle.wb_edit.specs.Commands.{number_cells, put, put_numbers};
ghost use Rattle.wb_edit.specs.Plans.{Attempts, Makes};

use crate::asked_numbers::AskedNumbers;
use crate::attempt_err::AttemptErr;
use crate::commands::all::rectangle_changes;
use crate::footprint::FootprintBuilder;
use crate::looks::{one_cell, rectangles};
use crate::numbered_rectangle::NumberedRectangle;
use std::alloc::Global;
use wb_cells::{Delta, Kind, Name, WhyRefused};
use wb_layers::Layered;

/// A number for each index of a rectangle.
pub(crate) fn plan_put(
    alloc: Global,
    book: &Layered<'_>,
    footprint: &mut FootprintBuilder,
    array: Name,
    asked: &AskedNumbers,
) -> Result<Delta, AttemptErr>
    ensures { Attempts (put array asked.now) book.now.cells footprint.old result footprint.new }
{
    let (_domain, kind) = one_cell::array_named(book, footprint, array)?;
    match asked {
        AskedNumbers::Rectangle(numbered) => {
            plan_numbers(alloc, book, footprint, array, kind, numbered)
        }
        AskedNumbers::Indices => Err(AttemptErr::Refused(WhyRefused::WrongKind)),
    }
}

// A number for each index of a rectangle, where the array is there, over a domain of this kind.
fn plan_numbers(
    alloc: Global,
    book: &Layered<'_>,
    footprint: &mut FootprintBuilder,
    array: Name,
    kind: Kind,
    numbered: &NumberedRectangle,
) -> Result<Delta, AttemptErr>
    ensures { Attempts (put_numbers array kind numbered.now.0 numbered.now.1) book.now.cells footprint.old result footprint.new }
{
    let on = numbered.ranges();
    rectangles::over_rectangle(&on, kind)?;
    rectangles::all_elements(book, footprint, array, &on)?;
    put_changes(alloc, array, numbered)
}

// The elements at the indices become the numbers, one after another.
fn put_changes(
    alloc: Global,
    array: Name,
    numbered: &NumberedRectangle,
) -> Result<Delta, AttemptErr>
    ensures { Makes (number_cells array (zip (indices numbered.now.0) numbered.now.1)) result }
{
    let on = numbered.ranges();
    match Vec::from_slice(alloc, numbered.numbers()) {
        Ok(numbers) => rectangle_changes(alloc, array, &on, numbers),
        Err(_) => Err(AttemptErr::NoMemory),
    }
}
