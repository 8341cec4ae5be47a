//! Edits of a workbook: each is planned by looking at cells, and then it is refused or says what to write.
//!
//! What each command means stands in `specs/Commands.antt`, a tree of the looks of `specs/Looks.antt`. [`plan`] is
//! proved to do what the tree says, and [`laws`] what holds of every command.
#![tactic(auto)]

mod asked_numbers;
mod asked_rectangle;
mod attempt_err;
mod command;
mod commands;
mod edit;
mod footprint;
pub mod laws;
mod looks;
mod note;
mod numbered_rectangle;
mod operation;
mod planning;
mod query;
mod refusal;
mod same;
mod several;
mod transaction;

pub use crate::asked_numbers::AskedNumbers;
pub use crate::asked_rectangle::AskedRectangle;
pub use crate::command::Command;
pub use crate::edit::Edit;
pub use crate::footprint::ReadFootprint;
pub use crate::looks::implicit::{has_implicit, parent_in};
pub use crate::looks::judgements;
pub use crate::looks::numbers::element_or_refusal;
pub use crate::note::Note;
pub use crate::numbered_rectangle::NumberedRectangle;
pub use crate::operation::Operation;
pub use crate::planning::{PlanErr, plan};
pub use crate::query::Query;
pub use crate::refusal::Refusal;
pub use crate::several::{PlanAllErr, plan_all};
pub use crate::transaction::Transaction;
