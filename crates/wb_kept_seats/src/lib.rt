//! A desk whose changes are kept: one workbook that several seats share, and a file that its changes are in before a reply
//! that tells of them can be read.
#![tactic(auto)]

mod commit;
mod desk;
mod file;
mod lines;
mod opening;
mod said;
mod sealing;
mod seats;
mod settling;
mod turn;

pub use crate::commit::CommitErr;
pub use crate::desk::Desk;
pub use crate::opening::{KeptOpening, Turns};
pub use crate::said::Said;
pub use crate::sealing::{Receipt, Sealed};
pub use crate::seats::Seats;
pub use crate::settling::{SettleErr, Settled, Unsettled, settle};
pub use crate::turn::Turn;
