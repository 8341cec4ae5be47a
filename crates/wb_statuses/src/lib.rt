//! The exit statuses of the program, and a text that is told with one.
#![tactic(auto)]

mod statuses;
mod telling;

pub use crate::statuses::{BAD_COMMAND_LINE, DONE, INPUT_OR_OUTPUT_FAILED, NO_MEMORY, REFUSED};
pub use crate::telling::tell;
