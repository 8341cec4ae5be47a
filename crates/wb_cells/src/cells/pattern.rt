ghost use Rattle.std.specs.Prelude.{◌≡◌};
ghost use Rattle.wb_cells.specs.Cells.{matches};

use crate::cells::cell::{AnyCell, Cell};
use crate::values::name::Name;

/// A name for some of the cells: one, or a whole family, present or not.
#[derive(Clone, Copy, Debug, Default)]
pub enum Pattern {
    /// `Object(n)` for each name n.
    #[default]
    Objects,
    /// One cell.
    One(AnyCell),
    /// `Member(d, i)` for each index i.
    Members(Name),
    /// `Use(d, n)` for each name n.
    Uses(Name),
    /// `Element(a, i)` for each index i.
    Elements(Name),
}

impl Pattern {
    /// Whether the pattern names the cell.
    pub fn matches(&self, cell: Cell) -> bool
        ensures { result ≡ matches self.now cell }
    {
        match *self {
            Pattern::Objects => matches!(&cell, Cell::Object(_)),
            Pattern::One(c) => c.cell() == cell,
            Pattern::Members(d) => matches!(&cell, Cell::Member(e, _) if d == *e),
            Pattern::Uses(d) => matches!(&cell, Cell::Use(e, _) if d == *e),
            Pattern::Elements(a) => matches!(&cell, Cell::Element(b, _) if a == *b),
        }
    }
}
