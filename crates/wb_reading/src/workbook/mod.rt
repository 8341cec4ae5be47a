//! The workbook that lines tell of: its stored cells, and each array made at once by the mapping of its domain, so that no
//! element is ever a cell. `specs/Laid.antt` says how its arrays lie.
//!
//! Its tests are in the crate `wb_tests`.
mod arrays;
mod columns;
mod rebuilding;

pub use crate::workbook::rebuilding::rebuild;
