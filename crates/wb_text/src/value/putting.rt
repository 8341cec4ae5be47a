//! The elements of arrays, put into a map of cells.
ghost use Rattle.std.specs.Prelude.{◌≡◌, length, OnOk};
ghost use Rattle.std.specs.List.{zip};
ghost use Rattle.wb_cells.specs.Cells.{state_of};
ghost use Rattle.wb_text.specs.FromLines.Inserted.{inserted};
ghost use Rattle.wb_text.specs.FromLines.Told.{element_cells};

use crate::put;
use wb_cells::{AnyIndex, Cell, Name, StoredCells, Value};
use wb_range::NoMemory;

/// Sets the elements of an array at the indices.
pub(crate) fn put_numbers(
    cells: &mut StoredCells,
    array: Name,
    indices: &[AnyIndex],
    elements: &[i64],
) -> Result<(), NoMemory>
    requires { length indices.now ≡ length elements.now }
    ensures { OnOk result (state_of cells.new ≡ inserted (element_cells array (zip indices.now elements.now)) (state_of cells.old)) }
{
    for p in 0..indices.len() {
        put(
            cells,
            Cell::Element(array, indices[p]),
            Value::Number(elements[p]),
        )?;
    }
    Ok(())
}
