//! Turns that several threads make under one lock, and that are kept together under another.

mod book;
mod ends;
mod keeper;
mod store;
mod told;
mod waiting;

pub use book::{Front, Group, Opened};
pub use keeper::{KeepErr, Keeper, keep};
pub use store::Store;
pub use told::Told;
pub use waiting::{Batch, Desk, Waiting};
