//! Why places were not lent.

/// Why places were not lent.
#[derive(Clone, Copy, Debug, PartialEq, Eq)]
pub enum LendErr {
    /// A thread could not be had.
    NoThread,
    /// A growth was refused.
    NoMemory,
}
