//! At which places the cells of a list are marked.

ghost use Rattle.std.specs.Prelude.{◌≡◌};
ghost use Rattle.wb_footprints.specs.Footprints.{family_by};

use crate::places::place::{Place, family};
use wb_cells::Cell;

/// At which places a cell is marked.
#[derive(Clone, Copy)]
pub enum Marking {
    /// At its own: what is read.
    Own,
    /// At that of its family too, where patterns name it: what is touched.
    Families,
}

impl Marking {
    /// The place of the family of a cell, if the cell is marked at that too.
    pub(crate) fn family(&self, cell: &Cell) -> Option<Place>
        ensures { result ≡ family_by self.now cell.now }
    {
        match self {
            Marking::Own => None,
            Marking::Families => family(cell),
        }
    }
}
