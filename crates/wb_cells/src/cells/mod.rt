//! Cells, what may stand in them, and names for families of them.

pub mod cell;
pub mod kind;
pub mod pattern;
pub mod value;
