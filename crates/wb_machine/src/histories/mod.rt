//! The text of a history: printing it, and a history from its text.
//!
//! The edits are read from the lines of the text, the history is made again, and its own text is compared with the one
//! that was given. So a text is read just where it is the text of a history.

pub mod laws;
mod lines;
mod printed;
mod reading;

pub use crate::histories::lines::{edit_of, marked_at};
pub use crate::histories::printed::print_history;
pub use crate::histories::reading::{HistoryErr, read_history};
