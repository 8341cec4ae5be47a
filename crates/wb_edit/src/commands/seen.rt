//! Changes of all the elements that a look showed.

ghost use Rattle.std.specs.Prelude.{◌≡◌, ◌++◌, false, T, Some, OnOk, IfErr};
ghost use Rattle.std.specs.FinMap.{is_sorted};
ghost use Rattle.selective_undo.specs.Changes.{changes};
ghost use Rattle.wb_cells.specs.Cells.{cell_cmp, index_cmp};
ghost use Rattle.wb_cells.specs.declared.cells.cell.Cell.TheVariants.{Element};
ghost use Rattle.wb_cells.specs.declared.values.index.Index.{Index};
ghost use Rattle.wb_edit.specs.Commands.{number_cells};
ghost use Rattle.wb_edit.specs.declared.attempt_err.AttemptErr.TheVariants.{NoMemory};

use crate::attempt_err::AttemptErr;
use crate::commands::writes::change_indexed;
use wb_cells::{AnyIndex, Delta, IndexedChange, IndexedRow, Name};

// The number of an element, which is to be there.
fn number_of(element: &(AnyIndex, i64)) -> Option<i64>
    ensures { result ≡ Some element.now.1 }
{
    Some(element.1)
}

/// Adds that the elements of an array at these indices, none of which is there yet, become the numbers beside them.
pub(crate) fn put_elements(
    delta: &mut Delta,
    array: Name,
    elements: &[(AnyIndex, i64)],
) -> Result<(), AttemptErr>
    requires ascending { T (is_sorted index_cmp elements.now) }
    requires fresh { (i : Index) → changes cell_cmp delta.old (Element array i) ≡ false }
    ensures ok { OnOk result (delta.new ≡ delta.old ++ number_cells array elements.now) }
    ensures only { IfErr result (λ e. e ≡ NoMemory) }
{
    for e in elements {
        let change = IndexedChange {
            row: IndexedRow::Elements(array),
            index: e.0,
            number: number_of(e),
        };
        change_indexed(delta, &change)?;
    }
    Ok(())
}
