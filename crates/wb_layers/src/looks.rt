//! What the cells that a look shows tell of.

ghost use Rattle.std.specs.Prelude.{◌≡◌, map, slice_get, IfOk};
ghost use Rattle.std.specs.List.{filter_map};
ghost use Rattle.wb_cells.specs.Readers.{element_in, object_of};

use std::alloc::{AllocError, Global};
use wb_cells::{AnyIndex, Cell, MemberWalk, Name, Value, object_of};
use wb_range::NoMemory;

// The element that a cell with its value tells of, after its index.
fn element_in(shown: &(Cell, Value)) -> Option<(AnyIndex, i64)>
    ensures { result ≡ element_in shown.now }
{
    match shown {
        (Cell::Element(_, index), Value::Number(number)) => Some((*index, *number)),
        _ => None,
    }
}

/// The elements that cells with their values tell of, each after its index.
pub(crate) fn elements(
    alloc: Global,
    shown: &[(Cell, Value)],
) -> Result<Vec<(AnyIndex, i64)>, AllocError>
    ensures { IfOk result (λ v. v.items ≡ filter_map element_in shown.now) }
{
    shown
        .iter()
        .filter_map(
            |x: &(Cell, Value)| -> Option<(AnyIndex, i64)>
                ensures { result ≡ element_in x.now }
            { element_in(x) },
        )
        .collect(alloc)
}

/// The elements without their indices.
pub(crate) fn numbers(alloc: Global, elements: &[(AnyIndex, i64)]) -> Result<Vec<i64>, NoMemory>
    ensures { IfOk result (λ v. v.items ≡ map (λ e. e.1) elements.now) }
{
    let mut found = Vec::with_capacity(alloc, elements.len())?;
    for element in elements {
        found.push(element.1)?;
    }
    Ok(found)
}

/// The members that are left, as a list.
pub(crate) fn listed(alloc: Global, members: &mut MemberWalk<'_>) -> Result<Vec<AnyIndex>, NoMemory>
    ensures { IfOk result (λ v. v.items ≡ members.old) }
{
    let mut found = Vec::new(alloc);
    while let Some(index) = members.next() {
        found.push(index)?;
    }
    Ok(found)
}

/// The objects that cells tell of.
pub(crate) fn objects(alloc: Global, shown: &[(Cell, Value)]) -> Result<Vec<Name>, AllocError>
    ensures { IfOk result (λ v. v.items ≡ filter_map (λ x. object_of x.0) shown.now) }
{
    shown
        .iter()
        .filter_map(
            |x: &(Cell, Value)| -> Option<Name>
                ensures { result ≡ object_of x.now.0 }
            { object_of(&x.0) },
        )
        .collect(alloc)
}

/// The first of names, if there is one.
pub(crate) fn first_of(names: &[Name]) -> Option<Name>
    ensures { result ≡ slice_get names.now 0 }
{
    names.first().copied()
}
