//! The log of a history: its edits, with what is kept of each in force; the index over them; and the steps by which it goes on, an
//! edit at the end, an undo or a redo at a place.
//!
//! Its tests are in the crate `wb_tests`.
#![tactic(auto)]

mod array_sets;
mod blockers;
mod cells_were;
mod entry;
mod filled_cells;
mod index;
mod kept_place;
mod lent;
mod log;
mod steps;
mod sweep;
mod undone;

pub use crate::entry::LentEdit;
pub use crate::log::Log;
pub use crate::steps::undoer::Undoer;
