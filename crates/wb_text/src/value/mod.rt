//! Texts of workbooks as values, and the cells that they tell of.
//!
//! `specs/Texts/Books.antt` has the workbook of a text as a function of the text, and [`laws`] that each workbook is found in
//! its text. A [`BookText`] is the text of some workbook, and nothing else is one.
mod book_text;
pub mod laws;
mod putting;
mod told;

pub use crate::value::book_text::BookText;
