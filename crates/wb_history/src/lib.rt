//! Numbered edits over one workbook: each can be undone and redone by its number.
//!
//! Its tests are in the crate `wb_tests`.
#![tactic(auto)]

mod history;
pub mod laws;
mod locale;
mod note;
mod piece;
mod query;
mod reduction;
mod restore;

pub use crate::history::History;
pub use crate::piece::Piece;
pub use crate::query::Answer;
pub use crate::restore::{RestoreErr, put_in};
