//! The exit statuses of the program.

/// The exit status of a session that was answered to its end.
pub const DONE: u8 = 0;
/// The exit status where the input is no text that is wanted.
pub const REFUSED: u8 = 1;
/// The exit status after a command line that asks for nothing that there is.
pub const BAD_COMMAND_LINE: u8 = 2;
/// The exit status where input or output failed.
pub const INPUT_OR_OUTPUT_FAILED: u8 = 3;
/// The exit status where a growth was refused.
pub const NO_MEMORY: u8 = 4;
