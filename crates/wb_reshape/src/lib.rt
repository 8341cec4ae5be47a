//! What a change of a domain's indices writes, and the end of a domain, and that both leave a workbook well formed.
//!
//! Commands that change the indices of a domain, one or many, write the same kinds of cells: those that say which indices
//! are in it, and the elements of the arrays over it. `specs/Resized.antt` says which, `specs/Dropped.antt` what the end of a
//! domain writes, and `specs/Laws.antt` what holds of them. A [`NewIndices`] says where the new value of a domain comes from.
#![tactic(auto)]

pub mod laws;
mod new_indices;
pub mod new_rectangles;
mod operand;
pub mod set_operations;

pub use crate::new_indices::{Displacement, NewIndices, SetOperation};
pub use crate::operand::Operand;
