ghost use Rattle.std.specs.Prelude.{◌≡◌};
ghost use Rattle.wb_edit.specs.Commands.{domain, new_domain_changes};
ghost use Rattle.wb_edit.specs.Plans.{Attempts, Makes};

use crate::asked_rectangle::AskedRectangle;
use crate::attempt_err::AttemptErr;
use crate::commands::writes::{put, put_all};
use crate::footprint::FootprintBuilder;
use crate::looks::{layouts, one_cell, rectangles};
use std::alloc::Global;
use wb_cells::{AnyDomain, AnyLayout, AnyRect, Cell, Delta, DomainKind, IndexedRow, Name, Value};
use wb_layers::Layered;

/// A new rectangular domain.
pub(crate) fn plan_domain(
    alloc: Global,
    book: &Layered<'_>,
    footprint: &mut FootprintBuilder,
    name: Name,
    asked: &AskedRectangle,
    mapping: &AnyLayout,
) -> Result<Delta, AttemptErr>
    ensures { Attempts (domain name asked.now mapping.now) book.now.cells footprint.old result footprint.new }
{
    one_cell::free_name(book, footprint, name)?;
    let rectangle = rectangles::asked_ranges(asked)?;
    layouts::for_rectangle(&rectangle, mapping)?;
    domain_changes(alloc, name, &rectangle, mapping)
}

fn domain_changes(
    alloc: Global,
    name: Name,
    ranges: &AnyRect,
    mapping: &AnyLayout,
) -> Result<Delta, AttemptErr>
    ensures { Makes (new_domain_changes name ranges.now mapping.now) result }
{
    let mut delta = Delta::new(alloc);
    let kind = AnyDomain::new(DomainKind::Rectangular(ranges.rank()));
    put(&mut delta, Cell::Object(name), Value::Domain(kind))?;
    put(&mut delta, Cell::Shape(name), Value::Ranges(*ranges))?;
    put(&mut delta, Cell::Mapping(name), Value::Mapping(*mapping))?;
    put_all(
        &mut delta,
        &IndexedRow::Inside(name),
        ranges,
        &Value::Present,
    )?;
    Ok(delta)
}
