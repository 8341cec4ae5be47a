//! What a cell or a family of cells is to the object that its name tells.

use wb_cells::{AnyIndex, Name};

/// The cells of an object of which there is one, and its families.
#[derive(Clone, Copy, PartialEq, Eq, PartialOrd, Ord)]
pub enum Slot {
    Object,
    Shape,
    Mapping,
    Implicit,
    Members,
    Uses,
    Elements,
}

/// A cell or a family of cells, without the name.
#[derive(Clone, Copy)]
pub enum Part {
    Slot(Slot),
    In(AnyIndex),
    Member(AnyIndex),
    User(Name),
    Element(AnyIndex),
}
