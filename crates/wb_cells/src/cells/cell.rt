ghost use Rattle.std.specs.Prelude.{◌≡◌};

use crate::values::index::AnyIndex;
use crate::values::name::Name;
use std::marker::Model;

/// A cell of a workbook: what an edit may look at, and what it may write.
#[derive(Clone, Copy, Debug, PartialEq, Eq, PartialOrd, Ord)]
pub enum Cell {
    /// What stands under a name.
    Object(Name),
    /// The ranges of a rectangular domain.
    Shape(Name),
    /// That an index is in a rectangular domain. It follows from the shape.
    In(Name, AnyIndex),
    /// That an index is in a sparse or associative domain.
    Member(Name, AnyIndex),
    /// The mapping of a rectangular domain.
    Mapping(Name),
    /// What the second name is to the domain that the first one names.
    Use(Name, Name),
    /// The implicit value of an array.
    Implicit(Name),
    /// The element of an array at an index.
    Element(Name, AnyIndex),
}

/// A cell, in a form that other enums may hold. Contracts see it as its `Cell`.
#[derive(Clone, Copy, Debug, PartialEq, Eq, PartialOrd, Ord)]
pub struct AnyCell {
    cell: Cell,
}

impl Model for AnyCell {
    ghost use Rattle.wb_cells.specs.declared.cells.cell.Cell.{Cell};

    ghost Value = { Cell };

    ghost view = { λ a. a.cell };

    ghost inverse = { λ v. record { cell = v } };
}

impl AnyCell {
    /// The cell, to be held by another value.
    pub fn new(cell: Cell) -> AnyCell
        ensures { result ≡ cell }
    {
        AnyCell { cell }
    }

    /// The cell.
    pub fn cell(&self) -> Cell
        ensures { result ≡ self.now }
    {
        self.cell
    }

    /// The cell, without a copy of it.
    pub fn as_cell(&self) -> &Cell
        ensures { result.now ≡ self.now }
    {
        &self.cell
    }
}
