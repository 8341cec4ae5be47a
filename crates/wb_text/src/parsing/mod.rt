//! The lines of a workbook's text, read back.
//!
//! What `wb_text` writes is read: `specs/Parts.antt` and `specs/Lines.antt` have the readers as functions, and
//! `ReadsLines` says that the lines of each workbook's text are read.
//!
//! Its tests are in the crate `wb_tests`.
mod lines;
mod parts;
mod text;

pub use crate::parsing::text::read_lines;
