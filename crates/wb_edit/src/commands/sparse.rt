ghost use Rattle.std.specs.Prelude.{◌≡◌, [], ◌∷◌};
ghost use Rattle.wb_cells.specs.declared.cells.cell.Cell.TheVariants.{Object, Use};
ghost use Rattle.wb_cells.specs.declared.cells.kind.DomainKind.TheVariants.{Sparse};
ghost use Rattle.wb_cells.specs.declared.cells.value.Binding.TheVariants.{Sparse as bound_sparse};
ghost use Rattle.wb_cells.specs.declared.cells.value.Value.TheVariants.{Domain, Bound};
ghost use Rattle.wb_edit.specs.Commands.{sparse};
ghost use Rattle.wb_edit.specs.Plans.{Attempts, Makes};
ghost use Rattle.wb_edit.specs.Writes.{set_to};

use crate::attempt_err::{AttemptErr, or_refused};
use crate::commands::writes::put;
use crate::footprint::FootprintBuilder;
use crate::looks::{kinds, one_cell};
use std::alloc::Global;
use wb_cells::{AnyDomain, Binding, Cell, Delta, DomainKind, Name, Value};
use wb_layers::Layered;

/// A new sparse domain in a rectangular one.
pub(crate) fn plan_sparse(
    alloc: Global,
    book: &Layered<'_>,
    footprint: &mut FootprintBuilder,
    name: Name,
    parent: Name,
) -> Result<Delta, AttemptErr>
    ensures { Attempts (sparse name parent) book.now.cells footprint.old result footprint.new }
{
    one_cell::free_name(book, footprint, name)?;
    let kind = one_cell::domain_named(book, footprint, parent)?;
    let rank = or_refused(kinds::rank_of(&kind))?;
    sparse_changes(alloc, name, parent, rank)
}

fn sparse_changes(alloc: Global, name: Name, parent: Name, rank: u8) -> Result<Delta, AttemptErr>
    ensures { Makes (set_to (Object name) (Domain (Sparse parent rank)) ∷ set_to (Use parent name) (Bound bound_sparse) ∷ []) result }
{
    let mut delta = Delta::new(alloc);
    let kind = AnyDomain::new(DomainKind::Sparse(parent, rank));
    put(&mut delta, Cell::Object(name), Value::Domain(kind))?;
    put(
        &mut delta,
        Cell::Use(parent, name),
        Value::Bound(Binding::Sparse),
    )?;
    Ok(delta)
}
