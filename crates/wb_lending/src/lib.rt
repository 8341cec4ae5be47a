//! Places that are lent to one guest after another: what guests come from, what it means that a place is lent, and who turns guests
//! away while no place is free.
#![tactic(auto)]

mod guests;
mod refused;
mod sitting;

pub use crate::guests::{Guests, Hosts, Next, TurnsAway};
pub use crate::refused::LendErr;
pub use crate::sitting::{taken, turn_away_all};
