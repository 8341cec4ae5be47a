//! Associative index sets: finite sets of integers or of short texts, in ascending order.
//!
//! These are the associative domains of the Chapel Language Specification ("Domains"), with an order of their own:
//! indices ascend, texts by their bytes. An [`Assoc`] is seen by contracts as the ascending list of its indices.
//!
//! Sparse index sets: finite subsets of a rectangle, in ascending order.
//!
//! These are the sparse domains of the Chapel Language Specification ("Domains"), with a rectangle as parent and an order
//! of their own: indices ascend, compared from the left.
//!
//! Its tests are in the crate `wb_tests`.
#![tactic(auto)]

mod assoc;
mod label;
mod merging;
mod short_label;
mod sparse;

pub use crate::assoc::Assoc;
pub use crate::label::{BadLabel, Label, are_plain};
pub use crate::short_label::ShortLabel;
pub use crate::sparse::{Sparse, SparseErr};
