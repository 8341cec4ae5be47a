ghost use Rattle.std.specs.Prelude.{◌≡◌, [], ◌∷◌};
ghost use Rattle.wb_cells.specs.declared.cells.cell.Cell.TheVariants.{Object};
ghost use Rattle.wb_cells.specs.declared.cells.kind.DomainKind.TheVariants.{Associative};
ghost use Rattle.wb_cells.specs.declared.cells.value.Value.TheVariants.{Domain};
ghost use Rattle.wb_edit.specs.Commands.{assoc};
ghost use Rattle.wb_edit.specs.Plans.{Attempts, Makes};
ghost use Rattle.wb_edit.specs.Writes.{set_to};

use crate::attempt_err::AttemptErr;
use crate::commands::writes::put;
use crate::footprint::FootprintBuilder;
use crate::looks::one_cell;
use std::alloc::Global;
use wb_cells::{AnyDomain, Cell, Delta, DomainKind, KeyType, Name, Value};
use wb_layers::Layered;

/// A new associative domain.
pub(crate) fn plan_assoc(
    alloc: Global,
    book: &Layered<'_>,
    footprint: &mut FootprintBuilder,
    name: Name,
    key: &KeyType,
) -> Result<Delta, AttemptErr>
    ensures { Attempts (assoc name key.now) book.now.cells footprint.old result footprint.new }
{
    one_cell::free_name(book, footprint, name)?;
    assoc_changes(alloc, name, key)
}

fn assoc_changes(alloc: Global, name: Name, key: &KeyType) -> Result<Delta, AttemptErr>
    ensures { Makes (set_to (Object name) (Domain (Associative key.now)) ∷ []) result }
{
    let mut delta = Delta::new(alloc);
    let kind = AnyDomain::new(DomainKind::Associative(*key));
    put(&mut delta, Cell::Object(name), Value::Domain(kind))?;
    Ok(delta)
}
