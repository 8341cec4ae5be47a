//! Where the marks of a cell and of a pattern stand.

ghost use Rattle.std.specs.Prelude.{◌≡◌};
ghost use Rattle.wb_footprints.specs.Places.{own, family, place_of};

use crate::places::part::{Part, Slot};
use wb_cells::{Cell, Name, Pattern};

/// A part of the object of a name, or all objects.
#[derive(Clone, Copy)]
pub enum Place {
    Objects,
    Of(Name, Part),
}

/// The place of one cell.
pub(crate) fn own(cell: &Cell) -> Place
    ensures { result ≡ own cell.now }
{
    match *cell {
        Cell::Object(name) => Place::Of(name, Part::Slot(Slot::Object)),
        Cell::Shape(name) => Place::Of(name, Part::Slot(Slot::Shape)),
        Cell::In(name, index) => Place::Of(name, Part::In(index)),
        Cell::Member(name, index) => Place::Of(name, Part::Member(index)),
        Cell::Mapping(name) => Place::Of(name, Part::Slot(Slot::Mapping)),
        Cell::Use(name, user) => Place::Of(name, Part::User(user)),
        Cell::Implicit(name) => Place::Of(name, Part::Slot(Slot::Implicit)),
        Cell::Element(name, index) => Place::Of(name, Part::Element(index)),
    }
}

/// The place of the family of a cell, where patterns name it.
pub(crate) fn family(cell: &Cell) -> Option<Place>
    ensures { result ≡ family cell.now }
{
    match *cell {
        Cell::Object(_) => Some(Place::Objects),
        Cell::Member(name, _) => Some(Place::Of(name, Part::Slot(Slot::Members))),
        Cell::Use(name, _) => Some(Place::Of(name, Part::Slot(Slot::Uses))),
        Cell::Element(name, _) => Some(Place::Of(name, Part::Slot(Slot::Elements))),
        Cell::Shape(_) | Cell::In(_, _) | Cell::Mapping(_) | Cell::Implicit(_) => None,
    }
}

/// The place of a pattern.
pub(crate) fn place_of(pattern: &Pattern) -> Place
    ensures { result ≡ place_of pattern.now }
{
    match pattern {
        Pattern::Objects => Place::Objects,
        Pattern::One(cell) => own(&cell.cell()),
        Pattern::Members(name) => Place::Of(*name, Part::Slot(Slot::Members)),
        Pattern::Uses(name) => Place::Of(*name, Part::Slot(Slot::Uses)),
        Pattern::Elements(name) => Place::Of(*name, Part::Slot(Slot::Elements)),
    }
}
