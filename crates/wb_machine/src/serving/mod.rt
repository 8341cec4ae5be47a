//! Requests answered by a history, one after another.

pub mod lines;
pub mod session;
pub mod steps;
