//! What the cells held that an edit changed, where that tells what it read too.

ghost use Rattle.std.specs.Prelude.{◌≡◌, ◌≢◌, [], ◌∷◌, ◌++◌};
ghost use Rattle.selective_undo.specs.Changes.{AllOnce};
ghost use Rattle.wb_cells.specs.Cells.{cell_cmp};
ghost use Rattle.wb_cells.specs.Reads.{all_read};
ghost use Rattle.wb_log.specs.Sets.{each_read, NameAlike};

use std::marker::Model;
use wb_cells::{Changes, Pattern, ReadRun};

/// What the cells held, one at least, that an edit changed which looked at one pattern and then at the cell, for each cell in
/// turn. The cells are the pattern's and their own, so they are kept once. Contracts see what is kept of the edit.
#[derive(Drop)]
pub(crate) struct CellsWere {
    first: [Pattern; 1],
    cells: [ReadRun; 1],
}

impl Model for CellsWere {
    ghost use Rattle.wb_log.specs.declared.entry.UndoData.{UndoData};
    ghost use Rattle.wb_log.specs.Sets.{each_read, cells_in, AreCells};

    ghost Value = { UndoData };

    ghost view = { λ a. record { footprint = each_read a.first (cells_in a.cells); inverse = cells_in a.cells } };

    ghost invariant = { λ a. AreCells a.cells };
}

impl CellsWere {
    /// What the cells held, each cell once, which were looked at in turn, each after the pattern.
    pub(crate) fn new(pattern: Pattern, held: Changes) -> CellsWere
        requires some { held ≢ [] }
        requires once { AllOnce cell_cmp held }
        ensures { result ≡ record { footprint = each_read (pattern ∷ []) held; inverse = held } }
    {
        CellsWere {
            first: [pattern],
            cells: [ReadRun::Cells(held)],
        }
    }

    /// Patterns, and runs of those behind them, that name what the edit read.
    pub(crate) fn reads(&self) -> (&[Pattern], &[ReadRun])
        ensures { NameAlike self.now.footprint (result.0.now ++ all_read result.1.now) }
    {
        (&self.first, &self.cells)
    }

    /// The cells that the edit wrote, each once, with what they were.
    pub(crate) fn before(&self) -> &Changes
        ensures same { result.now ≡ self.now.inverse }
        ensures once { AllOnce cell_cmp self.now.inverse }
    {
        match &self.cells[0] {
            ReadRun::Cells(held) => held,
            ReadRun::Single(_) => unreachable!(),
        }
    }
}
