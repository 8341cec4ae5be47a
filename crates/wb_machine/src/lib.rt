//! How a history answers requests, with replies as JSON lines, and the text of a history, printed and read.
//!
//! Its tests are in the crate `wb_tests`.
#![tactic(auto)]

pub mod encoding;
pub mod histories;
mod replies;
mod serving;

pub use crate::replies::edit_numbers::EditNumbers;
pub use crate::replies::printed_text::PrintedText;
pub use crate::replies::reply::Reply;
pub use crate::replies::text::reply_text;
pub use crate::serving::lines::answer_line;
pub use crate::serving::session::session;
pub use crate::serving::steps::answer_request;
