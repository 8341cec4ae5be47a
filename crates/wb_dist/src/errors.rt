use thiserror::Error;

/// Why a mapping is refused: a range of its box is empty or has another stride than 1, a block size or an entry of its
/// grid is below 1, or its grid has more than 256 locales.
#[derive(Clone, Copy, Debug, PartialEq, Eq, Error)]
#[error("no mapping: an empty or strided box, a block size or grid entry below 1, or more than 256 locales")]
pub struct BadMapping;

/// Why the piece of a locale isn't given.
#[derive(Clone, Copy, Debug, PartialEq, Eq, Error)]
pub enum PieceErr {
    /// The mapping has no such locale.
    #[error("no such locale")]
    NoLocale,
    /// A growth was refused.
    #[error("no memory")]
    NoMemory,
}
