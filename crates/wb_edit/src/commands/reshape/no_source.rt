//! Sources that are none for a kind of domain.

ghost use Rattle.wb_edit.specs.Plans.{Attempts};
ghost use Rattle.wb_edit.specs.Commands.Reshape.{no_source};

use crate::attempt_err::AttemptErr;
use crate::footprint::FootprintBuilder;
use crate::looks::one_cell::domain_named;
use wb_cells::{Delta, WhyRefused};
use wb_layers::Layered;
use wb_reshape::Operand;

/// There is no such source for the domain; a name that is given is tested first.
pub(crate) fn plan_no_source(
    book: &Layered<'_>,
    footprint: &mut FootprintBuilder,
    given: &Operand,
) -> Result<Delta, AttemptErr>
    ensures { Attempts (no_source given.now) book.now.cells footprint.old result footprint.new }
{
    match given {
        Operand::Rectangle(_) => Err(AttemptErr::Refused(WhyRefused::WrongKind)),
        Operand::Items(_) => Err(AttemptErr::Refused(WhyRefused::WrongKind)),
        Operand::Named(name) => {
            // The domain is only looked for: its kind doesn't matter.
            let _kind = domain_named(book, footprint, *name)?;
            Err(AttemptErr::Refused(WhyRefused::WrongKind))
        }
    }
}
