//! An index of footprints: which edits read or touched which cells, so that the first edit in the way of an undo or a
//! redo is found without going through all.
//!
//! A number stands at the places that its edit read or touched. A place is one cell, or a family of cells that a pattern
//! names; to touch a cell is to touch its family too.
#![tactic(auto)]

mod foot_index;
mod marks;
mod places;
mod questions;

pub use crate::foot_index::FootIndex;
pub use crate::marks::numbers::Numbers;
pub use crate::questions::swept::SweptCells;
