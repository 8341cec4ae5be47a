//! A history as a machine whose changes are kept: what a line that is answered changed, as canonical lines of requests, and a
//! history from these.
#![tactic(auto)]

mod answering;
mod beginning;
mod compacting;
pub mod granting;
mod lines;
mod machine;
mod making;
mod opening;
mod stepping;

pub use answering::answer;
pub use beginning::{Opening, opening_of, resume_line};
pub use compacting::compact;
pub use lines::{push_edit, push_made};
pub use machine::KeptHistory;
pub use making::make;
pub use opening::{BeginErr, begin_kept};
