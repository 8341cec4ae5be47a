//! A log of batches of lines in a file, each batch on the disk before it is acknowledged.
#![tactic(auto)]

mod compacting;
pub mod disk;
mod keep;
mod lines;

pub use compacting::CompactErr;
pub use keep::{AppendErr, LineLog, OpenErr, START, open, read, resume};
