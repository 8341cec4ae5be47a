//! Turns in a file, each the changes that it made: a store to which several are added as one batch.
#![tactic(auto)]

pub mod group;
mod journal;

pub use journal::{Journal, Opening};
