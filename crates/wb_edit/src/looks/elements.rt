//! Looks at all elements of an array at once.

ghost use Rattle.std.specs.Prelude.{◌≡◌, [], ◌∷◌, ◌++◌, IfOk, IfErr, OnOk};
ghost use Rattle.std.specs.Map.{keys_of};
ghost use Rattle.wb_range.specs.Domain.{IsListedOnce};
ghost use Rattle.wb_cells.specs.Readers as readers;
ghost use Rattle.wb_cells.specs.declared.cells.pattern.Pattern.TheVariants.{Elements};
ghost use Rattle.wb_edit.specs.Elements.{element_indices, same_domain};
ghost use Rattle.wb_edit.specs.Plans.{Looks, indices_in, shown_indices};

use crate::attempt_err::AttemptErr;
use crate::footprint::FootprintBuilder;
use crate::looks::indices::Indices;
use std::alloc::Global;
use wb_cells::{AnyIndex, Name, Pattern, WhyRefused};
use wb_layers::Layered;
use wb_range::NoMemory;

/// All elements of an array are looked at, whether or not they are listed.
pub(crate) fn look_at_elements(
    footprint: &mut FootprintBuilder,
    array: Name,
) -> Result<(), AttemptErr>
    ensures read { OnOk result (footprint.new ≡ footprint.old ++ Elements array ∷ []) }
    ensures only { IfErr result (λ e. e ≡ AttemptErr.NoMemory) }
{
    match footprint.keep(Pattern::Elements(array)) {
        Ok(()) => Ok(()),
        Err(_) => Err(AttemptErr::NoMemory),
    }
}

// The index of an element.
fn index_of(element: &(AnyIndex, i64)) -> AnyIndex
    ensures { result ≡ element.now.0 }
{
    element.0
}

// The indices of the elements of an array, one by one.
fn listed_indices(alloc: Global, book: &Layered<'_>, array: Name) -> Result<Vec<AnyIndex>, NoMemory>
    ensures { IfOk result (λ v. v.items ≡ keys_of (readers.elements book.now.cells array)) }
{
    let elements = book.elements(&array)?;
    match elements.iter().map(|e| index_of(e)).collect(alloc) {
        Ok(indices) => Ok(indices),
        Err(_) => Err(NoMemory),
    }
}

// The indices of the elements of an array: by their ranges where they are those of a rectangle, and else one by one.
fn indices_there(alloc: Global, book: &Layered<'_>, array: Name) -> Result<Indices, NoMemory>
    ensures same { IfOk result (λ f. indices_in f ≡ keys_of (readers.elements book.now.cells array)) }
{
    match book.rectangle(&array) {
        Some(ranges) => Ok(Indices::Product(ranges)),
        None => Ok(Indices::Listed(listed_indices(alloc, book, array)?)),
    }
}

/// The indices of the elements of an array, in their order.
pub(crate) fn element_indices(
    alloc: Global,
    book: &Layered<'_>,
    footprint: &mut FootprintBuilder,
    array: Name,
) -> Result<Indices, AttemptErr>
    ensures looks { Looks (element_indices array) book.now.cells footprint.old (shown_indices result) footprint.new }
    ensures once { IfOk result (λ f. IsListedOnce (indices_in f)) }
{
    look_at_elements(footprint, array)?;
    match indices_there(alloc, book, array) {
        Ok(found) => Ok(found),
        Err(_) => Err(AttemptErr::NoMemory),
    }
}

/// That two arrays are over one domain, by the names of their domains; `WrongKind` where they are not.
pub(crate) fn same_domain(domain: Name, other: Name) -> Result<(), WhyRefused>
    ensures { result ≡ same_domain domain other }
{
    if domain == other {
        Ok(())
    } else {
        Err(WhyRefused::WrongKind)
    }
}
