//! Mappings of indices to locales: the standard distributions of the chapter Domain Maps of the Chapel Language
//! Specification. `specs/Maps.antt` says on which locale each of them puts an index.
//!
//! Making a mapping and asking it for the locale of an index takes no memory, and time in the number of dimensions.
//!
//! Its tests are in the crate `wb_tests`.
#![tactic(auto)]

mod axis;
mod block;
mod block_cyclic;
mod cyclic;
mod errors;
mod grid;
mod layout;
mod place;
mod single_locale;

pub use block::Block;
pub use block_cyclic::BlockCyclic;
pub use cyclic::Cyclic;
pub use errors::{BadMapping, PieceErr};
pub use layout::{Distribution, Layout};
pub use single_locale::SingleLocale;
