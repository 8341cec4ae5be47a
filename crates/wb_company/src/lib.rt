//! Who is at a desk that stays: the names that its connections say, what each of them did, and how the desk stands. A workbook has none of
//! this, and no law speaks of it.
#![tactic(auto)]

mod company;
mod doings;
mod telling;
mod words;

pub use crate::company::{Company, Guest, Standing, Went};
pub use crate::doings::{Deed, Doing, Doings, Told};
pub use crate::telling::{Answer, answer_text};
pub use crate::words::{Word, read_word};
