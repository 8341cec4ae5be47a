//! Questions: which edits stand in the way, by the marks of cells and patterns.

pub mod blockers;
pub mod queries;
pub mod swept;
