//! What the program does over one reader and one writer: a session on an empty workbook, from the text of a history or on a journal, a
//! journal made anew, the judging of a text, and the text of a workbook made that of a history; each with the exit status that comes of
//! it.
#![tactic(auto)]

mod beginning;
mod checking;
mod compacting;
mod files;
mod keeping;
mod places;
mod put_back;
mod reasons;
mod resuming;
mod running;
mod upgrading;

pub use crate::beginning::{begin_kept_with, opening_from, resume_kept_at};
pub use crate::checking::{Verdict, check_with, status_of_verdict, verdict_on};
pub use crate::compacting::{compact_at, compact_with};
pub use crate::files::{FileFault, Files, OpensFiles};
pub use crate::keeping::{KeptRun, opened, run_kept_at, run_kept_with, turned_away};
pub use crate::put_back::PutBack;
pub use crate::reasons::Reason;
pub use crate::resuming::{history_from, resume_with};
pub use crate::running::{run_with, status_of};
pub use crate::upgrading::upgrade_with;
