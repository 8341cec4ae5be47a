//! The workbook: its cells, kept by shapes and arrays.
#![tactic(auto)]

mod after;
mod change;
mod groups;
mod keep;
mod looks;
mod moving;
mod shelf;
mod storing;

pub use crate::shelf::Book;
