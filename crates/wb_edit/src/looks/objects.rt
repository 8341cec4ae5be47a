//! Whether a workbook has objects.

ghost use Rattle.std.specs.Prelude.{◌≡◌, slice_get, IfOk, IfErr};
ghost use Rattle.wb_cells.specs.Cells.{Cells};
ghost use Rattle.wb_cells.specs.Readers.{seen, objects};
ghost use Rattle.wb_cells.specs.declared.cells.pattern.Pattern.TheVariants.{Objects};
ghost use Rattle.wb_edit.specs.Objects.{is_empty, no_object};
ghost use Rattle.wb_edit.specs.Plans.{Looks};
ghost use Rattle.wb_edit.specs.declared.attempt_err.AttemptErr.TheVariants.{NoMemory};

use crate::attempt_err::{AttemptErr, or_refused};
use crate::footprint::FootprintBuilder;
use wb_cells::{Name, Pattern, WhyRefused};
use wb_layers::Layered;

// That a look at all objects shows none, by the first of them; `NotEmpty` where it shows one.
fn is_empty(first: Option<Name>) -> Result<(), WhyRefused>
    ensures { (s : Cells) → first ≡ slice_get (objects s) 0 → result ≡ is_empty (seen s Objects) }
{
    match first {
        None => Ok(()),
        Some(_) => Err(WhyRefused::NotEmpty),
    }
}

// The first object, if there is one.
fn shown_first(book: &Layered<'_>) -> Result<Option<Name>, AttemptErr>
    ensures first { IfOk result (λ o. o ≡ slice_get (objects book.now.cells) 0) }
    ensures only { IfErr result (λ e. e ≡ NoMemory) }
{
    match book.first_object() {
        Ok(first) => Ok(first),
        Err(_) => Err(AttemptErr::NoMemory),
    }
}

/// There is no object. However many there are, it takes no memory for them where no change of an object is laid over them.
pub(crate) fn no_object(
    book: &Layered<'_>,
    footprint: &mut FootprintBuilder,
) -> Result<(), AttemptErr>
    ensures { Looks no_object book.now.cells footprint.old result footprint.new }
{
    match footprint.keep(Pattern::Objects) {
        Ok(()) => {
            let first = shown_first(book)?;
            or_refused(is_empty(first))
        }
        Err(_) => Err(AttemptErr::NoMemory),
    }
}
