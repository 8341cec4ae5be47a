//! The canonical line of each edit's request (`specs/Encoding/Table.antt` has its members), and JSON values of its parts.
//!
//! Its tests are in the crate `wb_tests`.

mod edits;
mod literals;
mod objects;
mod sources;

pub use crate::encoding::edits::{edit_text, edit_value, line_of};
pub use crate::encoding::literals::index_value;
pub use crate::encoding::objects::{index_of_domain, of_domain};
