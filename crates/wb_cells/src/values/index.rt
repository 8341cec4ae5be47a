ghost use Rattle.std.specs.Prelude.{◌≡◌, [], None, true, false, IfSome};
ghost use Rattle.wb_cells.specs.Kinds.{is_point};
ghost use Rattle.std.specs.Bool.{Decides};
ghost use Rattle.wb_cells.specs.declared.values.index.Index.TheVariants.{Point as point_index};

use crate::values::point::Point;
use std::marker::Model;
use wb_sets::Label;

/// An index of some domain: of a rectangular or sparse one, or an integer or a text of an associative one.
#[derive(Clone, Copy, Debug, PartialEq, Eq, PartialOrd, Ord)]
pub enum Index {
    /// 1 to 3 coordinates.
    Point(Point),
    /// A text.
    Text(Label),
}

/// An index of any domain, in a form that cells may hold. Contracts see it as its `Index`.
#[derive(Clone, Copy, Debug, PartialEq, Eq, PartialOrd, Ord)]
pub struct AnyIndex {
    index: Index,
}

impl Model for AnyIndex {
    ghost use Rattle.wb_cells.specs.declared.values.index.Index.{Index};

    ghost Value = { Index };

    ghost view = { λ a. a.index };

    ghost inverse = { λ v. record { index = v } };
}

impl AnyIndex {
    /// The index, to be held by a cell.
    pub fn new(index: Index) -> AnyIndex
        ensures { result ≡ index }
    {
        AnyIndex { index }
    }

    // The empty list of coordinates: no index of a domain, and less than all of them.
    pub(crate) fn least() -> AnyIndex
        ensures { result ≡ point_index [] }
    {
        AnyIndex::new(Index::Point(Point::empty()))
    }

    /// The index.
    pub fn index(&self) -> Index
        ensures { result ≡ self.now }
    {
        self.index
    }

    /// Whether the indices are equal.
    pub fn is_same(&self, other: &AnyIndex) -> bool
        ensures { Decides result (self.now ≡ other.now) }
    {
        let index = other.index();
        match self.index() {
            Index::Point(point) => is_point(&point, &index),
            Index::Text(text) => is_text(&text, &index),
        }
    }
}

// Whether the index is this point.
fn is_point(point: &Point, index: &Index) -> bool
    ensures { Decides result (Index.Point point.now ≡ index.now) }
{
    match index {
        Index::Point(other) => point.is_same(other),
        Index::Text(_) => false,
    }
}

// Whether the index is this text.
fn is_text(text: &Label, index: &Index) -> bool
    ensures { Decides result (Index.Text text.now ≡ index.now) }
{
    match index {
        Index::Point(_) => false,
        Index::Text(other) => text.as_str() == other.as_str(),
    }
}

/// The coordinates of a point of rank `R`.
pub fn coordinates_of<const R: usize>(index: &AnyIndex) -> Option<[i64; R]>
    ensures value { IfSome result (λ k. point_index k ≡ index.now) }
    ensures formed { IfSome result (λ k. is_point R index.now ≡ true) }
    ensures none { result ≡ None → is_point R index.now ≡ false }
{
    match index.index() {
        Index::Text(_) => None,
        Index::Point(point) => {
            let coordinates = point.coordinates();
            if coordinates.len() != R {
                return None;
            }
            let mut at = [0; R];
            at.copy_from_slice(coordinates);
            Some(at)
        }
    }
}
