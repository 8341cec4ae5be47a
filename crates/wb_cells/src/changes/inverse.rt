ghost use Rattle.std.specs.Prelude.{◌≡◌, ℕ, List, length};
ghost use Rattle.selective_undo.specs.Changes.{AllOnce};
ghost use Rattle.wb_cells.specs.Cells.{cell_cmp, count_of};

use crate::changes::list::Changes;
use std::marker::Model;

/// What the cells of a delta were before it, each cell once. Contracts see the changes that set them back.
#[derive(Drop)]
pub struct Inverse {
    before: Changes,
}

impl Model for Inverse {
    ghost use Rattle.std.specs.Prelude.{List};
    ghost use Rattle.selective_undo.specs.declared.Change.{Change};
    ghost use Rattle.wb_cells.specs.declared.cells.cell.Cell.{Cell};
    ghost use Rattle.wb_cells.specs.declared.cells.value.Value as held;
    ghost use Rattle.selective_undo.specs.Changes.{AllOnce};
    ghost use Rattle.wb_cells.specs.Cells.{cell_cmp};

    ghost Value = { List (Change Cell held.Value) };

    ghost view = { λ a. a.before };

    ghost invariant = { λ a. AllOnce cell_cmp a.before };
}

impl Inverse {
    /// What the cells were, each cell once.
    pub fn new(before: Changes) -> Inverse
        requires { AllOnce cell_cmp before }
        ensures { result ≡ before }
    {
        Inverse { before }
    }

    /// How many cells are set back; the cells `In`, which follow from the shapes, are not counted.
    pub fn count(&self) -> usize
        ensures { result ≡ count_of self.now }
    {
        self.before.count()
    }

    /// The cells with what they were, in the order of the delta.
    pub fn before(&self) -> &Changes
        ensures same { result.now ≡ self.now }
        ensures once { AllOnce cell_cmp self.now }
    {
        &self.before
    }
}
