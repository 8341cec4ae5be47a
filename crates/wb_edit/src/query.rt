ghost use Rattle.std.specs.Prelude.{◌≡◌};
ghost use Rattle.std.specs.Bool.{Decides};

use crate::same::is_same_place;
use wb_arrays::Op;
use wb_cells::{AnyIndex, Name};

/// A question about the workbook or its history.
#[derive(Clone, Copy, Debug)]
pub enum Query {
    /// The element of an array at an index, or the implicit value of one over a sparse domain at an index of its parent.
    Get(Name, AnyIndex),
    /// How many indices a domain has.
    Size(Name),
    /// On which locale an index of a domain lies.
    Where(Name, AnyIndex),
    /// The elements of an array on a locale, numbered from 0.
    Piece(Name, u64),
    /// The sum, the least or the greatest of the elements of an array.
    Reduce(Name, Op),
    /// Whether the edit of a number is in force.
    State(u64),
    /// The note of the edit of a number.
    Note(u64),
}

impl Query {
    /// Whether the queries are equal.
    pub fn is_same(&self, other: &Query) -> bool
        ensures { Decides result (self.now ≡ other.now) }
    {
        match (self, other) {
            (Query::Get(array, at), Query::Get(by, index)) => is_same_place(array, at, by, index),
            (Query::Size(domain), Query::Size(by)) => domain.is_same(by),
            (Query::Where(domain, at), Query::Where(by, index)) => {
                is_same_place(domain, at, by, index)
            }
            (Query::Piece(array, locale), Query::Piece(by, number)) => {
                if !array.is_same(by) {
                    return false;
                }
                *locale == *number
            }
            (Query::Reduce(array, op), Query::Reduce(by, other)) => {
                if !array.is_same(by) {
                    return false;
                }
                *op == *other
            }
            (Query::State(number), Query::State(by)) => *number == *by,
            (Query::Note(number), Query::Note(by)) => *number == *by,
            _ => false,
        }
    }
}
