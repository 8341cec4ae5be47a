//! The text of a workbook: one for each workbook.
//!
//! Every literal in it is canonical. `specs/Literals.antt` has the texts of the literals, and `specs/Lines.antt` those
//! of the lines and of the workbook; [`laws`] has what the text tells.
//!
//! Its tests are in the crate `wb_tests`.
#![tactic(auto)]

pub mod laws;
pub mod lines;
mod lists;
mod literals;
mod mappings;
mod number_list;
mod parsing;
mod said;
pub mod value;
mod workbook;

pub use crate::literals::push_set;
pub use crate::mappings::{push_any_layout, push_any_rect};
pub use crate::number_list::NumberList;
pub use crate::parsing::read_lines;
pub use crate::said::ObjectLine;
pub use crate::value::BookText;
pub use crate::workbook::{
    find, indices_of, line_validity, places_of, points_of, put, put_presents, put_stored,
};
