//! The elements of an array of a workbook, kept in pieces, whatever the kind of its domain.
//!
//! Its tests are in the crate `wb_tests`.
#![tactic(auto)]

mod block;
mod elements;
mod filled;
mod kept;
mod made;
mod piece;
mod ranged;
mod walk;

pub use crate::block::ChangeBlock;
pub use crate::elements::typed::PieceKey;
pub use crate::elements::{Elements, ElementsForm};
pub use crate::kept::KeptChanges;
pub use crate::piece::Pairs;
pub use crate::walk::{is_block_there, list_block, write_block};
