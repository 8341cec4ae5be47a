//! What is kept of an edit in force, and the cells that it wrote, lent.

ghost use Rattle.std.specs.Prelude.{◌≡◌, ◌<◌, length, get_or};
ghost use Rattle.selective_undo.specs.declared.Change.{Change};
ghost use Rattle.wb_cells.specs.declared.cells.cell.Cell.{Cell as cell_type};
ghost use Rattle.wb_cells.specs.declared.cells.value.Value.{Value as value_type};
ghost use Rattle.wb_log.specs.Records.{lent_kept, lent_cells};

use crate::entry::LentFootprint;
use crate::filled_cells::FilledCells;
use wb_cells::{Cell, Changes};

/// What is kept of an edit in force. To lend it takes no memory.
#[derive(Drop)]
pub(crate) enum LentKept<'a> {
    /// With a list of what the cells were.
    Listed(LentFootprint<'a>),
    /// Of a fill of several elements, which read the array and then these.
    Filled(FilledCells<'a>),
}

/// Cells that an edit wrote, each once, with what they were.
#[derive(Drop)]
pub(crate) enum LentCells<'a> {
    /// As a list.
    Listed(&'a Changes),
    /// Those of a fill of several elements.
    Filled(FilledCells<'a>),
}

impl<'a> LentKept<'a> {
    /// The cells that the edit wrote.
    pub(crate) fn cells(&self) -> LentCells<'_>
        ensures { lent_cells result ≡ (lent_kept self.now).touched }
    {
        match self {
            LentKept::Listed(listed) => LentCells::Listed(listed.before()),
            LentKept::Filled(filled) => LentCells::Filled(*filled),
        }
    }
}

impl<'a> LentCells<'a> {
    /// How many cells there are.
    pub(crate) fn len(&self) -> usize
        ensures { result ≡ length (lent_cells self.now) }
    {
        match self {
            LentCells::Listed(cells) => cells.len(),
            LentCells::Filled(filled) => filled.len(),
        }
    }

    /// The cell at a place. `near` is a run of a list to look at first, and becomes the run of the place.
    pub(crate) fn cell_near(&self, at: usize, near: &mut usize) -> Cell
        requires { at < length (lent_cells self.now) }
        ensures { (d : Change cell_type value_type) → result ≡ (get_or (lent_cells self.now) at d).cell }
    {
        match self {
            LentCells::Listed(cells) => cells.cell_near(at, near),
            LentCells::Filled(filled) => filled.cell(at),
        }
    }
}
