//! What the log does to its book and its entries: each step keeps that the book is the replay.

mod append;
mod cascade;
mod edit;
mod filling;
mod held;
pub(crate) mod making;
mod redo;
mod straight;
mod undo;
pub(crate) mod undoer;
