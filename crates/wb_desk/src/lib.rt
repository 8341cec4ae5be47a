//! The journal of a desk: what was asked and replied, the passes of the seats, and whether both agree.
//!
//! A desk: one workbook that several seats share, with the journal of all that was asked and replied.
#![tactic(auto)]

mod alike;
mod at_index;
mod brief;
mod counted;
mod desk;
mod entering;
mod entry;
mod form;
mod journal;
mod opening;
mod pass;
mod placing;
mod plain;
mod records;
mod register;
mod replying;
mod settling;
mod shared;
mod turn;

pub use crate::counted::Counted;
pub use crate::desk::{Desk, DeskErr, Unsettled, settle};
pub use crate::entry::{Entry, LentEntry};
pub use crate::journal::Journal;
pub use crate::opening::Opening;
pub use crate::pass::Pass;
pub use crate::records::Records;
pub use crate::settling::{Cause, Difference};
pub use crate::shared::{Shared, serve, settle_seat};
pub use crate::turn::Turn;
