//! Lines read from any reader, replies sent to any writer, and the session that joins them.
//!
//! Its tests are in the crate `wb_program_tests`.
#![tactic(auto)]

mod buffer;
mod machine;
mod resting;
mod sending;
mod serving;
mod session;
mod sink;
mod source;
mod turns;
mod whole;

pub use buffer::{LINE_LIMIT, Line, LineBuffer, LineFault, READ_LIMIT, next_line};
pub use machine::{Asks, Machine, SessionEnd, Stop, Tells};
pub use resting::{Hears, Holds, NothingHeld, Sends};
pub use sending::{WriteFault, send};
pub use serving::{Turns, serve};
pub use session::{reply_to_too_long, serve_lines};
pub use sink::{Output, Sink};
pub use source::{Input, ReadErr, Source};
pub use turns::serve_turns;
pub use whole::{read_all, read_more};
