//! What a history is written as: its text (`specs/Encoding/Text.antt`), and the line of each of its edits with its mark.
//!
//! Its tests are in the crate `wb_tests`.

mod loads;
mod printed;

pub use crate::encoding::loads::load_line;
pub use crate::encoding::printed::{objects_in, print_edits_from, print_history};
