//! What is wrong with a line: the field, and the rule that it breaks (`specs/Explained.antt`).

mod commands;
mod counts;
pub mod explanation;
pub mod fault;
mod forms;
mod keys;
mod kinds;
pub mod lines;
mod members;
mod objects;
mod rules;
pub mod values;
