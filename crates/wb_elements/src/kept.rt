//! Changes of the elements of an array, kept in the least room.

use wb_cells::{AnyIndex, RectangleChanges, RectangleNumbers};

/// How changes of the elements of an array are kept.
#[derive(Drop)]
pub enum KeptChanges {
    /// Each by its index, to a number or to absent.
    Listed(Vec<(AnyIndex, Option<i64>)>),
    /// The same number, or none, at each index of a rectangle.
    Same(RectangleChanges),
    /// A number at each index of a rectangle.
    Each(RectangleNumbers),
}
