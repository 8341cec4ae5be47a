//! A workbook from its parts.

ghost use Rattle.std.specs.Prelude.{◌≡◌};
ghost use Rattle.wb_cells.specs.Cells.{Cells};
ghost use Rattle.wb_book.specs.Parts.{AreParts};

use crate::shelf::Book;
use std::alloc::Global;
use std::collections::BTreeMap;
use wb_cells::{Name, StoredCells};
use wb_elements::Elements;

impl Book {
    /// The workbook of these stored cells and arrays, which were set by no change. Who reads a workbook's text makes each
    /// array at once, so that no element is ever a cell.
    pub fn of_parts(alloc: Global, cells: StoredCells, arrays: BTreeMap<Name, Elements>) -> Book
        requires { (s : Cells) × AreParts cells arrays s }
        ensures { (s : Cells) → AreParts cells arrays s → result ≡ record { cells = s; writes = 0 } }
    {
        // For the proof: the cells ascend.
        cells.ascend();
        // For the proof: the names of the arrays ascend.
        let _arrays = arrays.keys();
        Book {
            alloc,
            cells,
            arrays,
            writes: 0,
        }
    }
}
