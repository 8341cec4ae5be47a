//! Why a literal stands for nothing.

use thiserror::Error;

/// Why a literal stands for no range, domain or mapping.
#[derive(Clone, Copy, Debug, PartialEq, Eq, Error)]
pub enum LimitErr {
    /// A limit of ranges or of rectangular domains.
    #[error("too-large")]
    TooLarge,
    /// Parts of different ranks, or a box, sizes or a grid that no mapping has.
    #[error("bad-mapping")]
    BadMapping,
}
