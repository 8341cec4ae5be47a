//! A workbook as it would be after changes that are not made: they are laid over it, and it stays as it is.
#![tactic(auto)]

mod beginning;
mod layer;
mod layered;
mod laying;
mod looks;
mod overlaid;

pub use crate::layered::Layered;
