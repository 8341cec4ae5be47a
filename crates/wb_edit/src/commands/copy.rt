ghost use Rattle.std.specs.Prelude.{◌≡◌};
ghost use Rattle.wb_edit.specs.Commands.{copy};
ghost use Rattle.wb_edit.specs.Plans.{Attempts};

use crate::attempt_err::{AttemptErr, or_refused};
use crate::commands::set::element_change;
use crate::footprint::FootprintBuilder;
use crate::looks::implicit::{ArrayRef, element_or_implicit};
use crate::looks::{judgements, numbers, one_cell};
use std::alloc::Global;
use wb_cells::{AnyIndex, Delta, Name};
use wb_layers::Layered;

/// An element that is another one and a number more.
pub(crate) fn plan_copy(
    alloc: Global,
    book: &Layered<'_>,
    footprint: &mut FootprintBuilder,
    target: (Name, AnyIndex),
    source: (Name, AnyIndex),
    more: i64,
) -> Result<Delta, AttemptErr>
    ensures { Attempts (copy target.0 target.1 source.0 source.1 more) book.now.cells footprint.old result footprint.new }
{
    let (array, index) = target;
    let (other, place) = source;
    let (_domain, kind) = one_cell::array_named(book, footprint, array)?;
    let (over, kind_of_other) = one_cell::array_named(book, footprint, other)?;
    or_refused(judgements::fits(kind, index))?;
    or_refused(judgements::fits(kind_of_other, place))?;
    one_cell::element(book, footprint, array, index)?;
    let from = ArrayRef {
        array: other,
        domain: over,
        kind: kind_of_other,
    };
    let number = element_or_implicit(book, footprint, &from, place)?;
    let sum = or_refused(numbers::sum(number, more))?;
    element_change(alloc, array, index, sum)
}
