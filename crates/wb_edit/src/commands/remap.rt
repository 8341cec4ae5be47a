ghost use Rattle.std.specs.Prelude.{◌≡◌, [], ◌∷◌};
ghost use Rattle.wb_cells.specs.declared.cells.cell.Cell.TheVariants.{Mapping};
ghost use Rattle.wb_cells.specs.declared.cells.value.Value.TheVariants.{Mapping as mapping_value};
ghost use Rattle.wb_edit.specs.Commands.{remap};
ghost use Rattle.wb_edit.specs.Plans.{Attempts, Makes};
ghost use Rattle.wb_edit.specs.Writes.{set_to};

use crate::attempt_err::{AttemptErr, or_refused};
use crate::commands::writes::put;
use crate::footprint::FootprintBuilder;
use crate::looks::{kinds, layouts, one_cell};
use std::alloc::Global;
use wb_cells::{AnyLayout, Cell, Delta, Name, Value};
use wb_layers::Layered;

/// A new mapping of a rectangular domain.
pub(crate) fn plan_remap(
    alloc: Global,
    book: &Layered<'_>,
    footprint: &mut FootprintBuilder,
    domain: Name,
    mapping: &AnyLayout,
) -> Result<Delta, AttemptErr>
    ensures { Attempts (remap domain mapping.now) book.now.cells footprint.old result footprint.new }
{
    let kind = one_cell::domain_named(book, footprint, domain)?;
    let rank = or_refused(kinds::rank_of(&kind))?;
    or_refused(layouts::for_rank(rank, mapping))?;
    remap_changes(alloc, domain, mapping)
}

fn remap_changes(alloc: Global, domain: Name, mapping: &AnyLayout) -> Result<Delta, AttemptErr>
    ensures { Makes (set_to (Mapping domain) (mapping_value mapping.now) ∷ []) result }
{
    let mut delta = Delta::new(alloc);
    put(&mut delta, Cell::Mapping(domain), Value::Mapping(*mapping))?;
    Ok(delta)
}
