//! Requests as JSON lines: which request a line is, what is wrong with a line that is none, and the canonical line of a request.
//!
//! Its tests are in the crate `wb_tests`.
#![tactic(auto)]

pub mod encoding;
mod explaining;
mod requests;
pub mod wire;

pub use crate::explaining::explanation::Explanation;
pub use crate::explaining::lines::explained;
pub use crate::requests::line_text::LineText;
pub use crate::requests::reading::read_request;
pub use crate::requests::request::Request;
