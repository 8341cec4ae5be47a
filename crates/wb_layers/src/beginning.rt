//! The cells that a pattern names stand together, and this is where they begin.

ghost use Rattle.std.specs.Prelude.{◌≡◌, ◌∷◌, []};
ghost use Rattle.wb_cells.specs.Families.{Begins, HasName};
ghost use Rattle.wb_cells.specs.declared.values.index.Index.TheVariants.{Point as point_index};

use wb_cells::{AnyIndex, Cell, Index, Name, Pattern, Point};

// `A`, the least name.
fn least_name() -> Name
    ensures { result ≡ 65 ∷ [] }
{
    match Name::new("A") {
        Ok(name) => name,
        Err(_) => unreachable!(),
    }
}

// The empty list of coordinates: no index of a domain, and less than all of them.
fn least_index() -> AnyIndex
    ensures { result ≡ point_index [] }
{
    AnyIndex::new(Index::Point(Point::of(&[])))
}

/// A cell from which on the cells that the pattern names stand before all others.
pub(crate) fn first(pattern: &Pattern) -> Cell
    ensures { Begins pattern.now result }
{
    match pattern {
        Pattern::Objects => Cell::Object(least_name()),
        Pattern::One(cell) => cell.cell(),
        Pattern::Members(domain) => Cell::Member(*domain, least_index()),
        Pattern::Uses(domain) => Cell::Use(*domain, least_name()),
        Pattern::Elements(array) => Cell::Element(*array, least_index()),
    }
}

/// What an object or a user is called by is a name, which is asked of it here.
pub(crate) fn is_called(cell: &Cell)
    ensures { HasName cell.now }
{
    match cell {
        Cell::Object(name) | Cell::Use(_, name) => {
            // For the proof: it is a name.
            let _ = name.as_bytes();
        }
        Cell::Shape(_)
        | Cell::In(_, _)
        | Cell::Member(_, _)
        | Cell::Mapping(_)
        | Cell::Implicit(_)
        | Cell::Element(_, _) => {}
    }
}
