//! New ranges of a rectangular domain, by their source.

ghost use Rattle.wb_edit.specs.Plans.{Attempts};
ghost use Rattle.wb_edit.specs.Reshaping.{reshaped};
ghost use Rattle.wb_edit.specs.Commands.Reshape.{to_rectangle, slice_rectangle, displace_rectangle, reshape_rectangle};

use crate::attempt_err::{AttemptErr, or_refused};
use crate::commands::reshape::no_source::plan_no_source;
use crate::commands::reshape::replaced::plan_replaced;
use crate::footprint::FootprintBuilder;
use crate::looks::reshaping::shape;
use crate::looks::sources::{displacement_of, gives_rectangle, ranges_given, same_rank, slice_of};
use std::alloc::Global;
use wb_cells::{AnyRect, Delta, Name, Point};
use wb_layers::Layered;
use wb_reshape::new_rectangles::left_out;
use wb_reshape::{Displacement, NewIndices, Operand};

// A rectangular domain with some ranges gets new ones.
fn plan_reshaped(
    alloc: Global,
    book: &Layered<'_>,
    footprint: &mut FootprintBuilder,
    domain: Name,
    old: &AnyRect,
    new: &AnyRect,
) -> Result<Delta, AttemptErr>
    ensures { Attempts (reshaped domain old.now new.now) book.now.cells footprint.old result footprint.new }
{
    let Ok(leaving) = left_out(alloc, new, old) else {
        return Err(AttemptErr::NoMemory);
    };
    let Ok(coming) = left_out(alloc, old, new) else {
        return Err(AttemptErr::NoMemory);
    };
    plan_replaced(alloc, book, footprint, domain, new, &leaving, &coming)
}

// What is given takes the place of the ranges.
fn plan_to(
    alloc: Global,
    book: &Layered<'_>,
    footprint: &mut FootprintBuilder,
    domain: Name,
    rank: u8,
    given: &Operand,
) -> Result<Delta, AttemptErr>
    ensures { Attempts (to_rectangle domain rank given.now) book.now.cells footprint.old result footprint.new }
{
    gives_rectangle(book, footprint, rank, given)?;
    let old = shape(book, footprint, domain)?;
    let new = ranges_given(book, footprint, given)?;
    plan_reshaped(alloc, book, footprint, domain, &old, &new)
}

// The ranges become what they have in common with those that are given.
fn plan_slice(
    alloc: Global,
    book: &Layered<'_>,
    footprint: &mut FootprintBuilder,
    domain: Name,
    rank: u8,
    given: &Operand,
) -> Result<Delta, AttemptErr>
    ensures { Attempts (slice_rectangle domain rank given.now) book.now.cells footprint.old result footprint.new }
{
    gives_rectangle(book, footprint, rank, given)?;
    let old = shape(book, footprint, domain)?;
    let by = ranges_given(book, footprint, given)?;
    let new = or_refused(slice_of(&old, &by))?;
    plan_reshaped(alloc, book, footprint, domain, &old, &new)
}

// The ranges move by an offset for each dimension.
fn plan_displace(
    alloc: Global,
    book: &Layered<'_>,
    footprint: &mut FootprintBuilder,
    domain: Name,
    rank: u8,
    how: Displacement,
    offsets: &Point,
) -> Result<Delta, AttemptErr>
    ensures { Attempts (displace_rectangle domain rank how offsets.now) book.now.cells footprint.old result footprint.new }
{
    or_refused(same_rank(rank as usize, offsets.coordinates().len()))?;
    let old = shape(book, footprint, domain)?;
    let new = or_refused(displacement_of(how, offsets, &old))?;
    plan_reshaped(alloc, book, footprint, domain, &old, &new)
}

/// A new value of a rectangular domain of a rank.
pub(crate) fn plan_reshape_rectangle(
    alloc: Global,
    book: &Layered<'_>,
    footprint: &mut FootprintBuilder,
    domain: Name,
    rank: u8,
    source: &NewIndices,
) -> Result<Delta, AttemptErr>
    ensures { Attempts (reshape_rectangle domain rank source.now) book.now.cells footprint.old result footprint.new }
{
    match source {
        NewIndices::To(given) => plan_to(alloc, book, footprint, domain, rank, given),
        NewIndices::Slice(given) => plan_slice(alloc, book, footprint, domain, rank, given),
        NewIndices::Displace(how, offsets) => {
            plan_displace(alloc, book, footprint, domain, rank, *how, offsets)
        }
        NewIndices::Combine(_, given) => plan_no_source(book, footprint, given),
    }
}
