//! Connections for the seats of a desk: each has a seat until it ends, and is told so where none is free.
#![tactic(auto)]

mod binding;
mod connection;
mod listening;
mod parting;
mod patience;
mod porter;
mod stop;
mod trace;
mod visit;

pub use crate::connection::Connection;
pub use crate::listening::{BindErr, Landings, Lands, Visits};
pub use crate::parting::Parting;
pub use crate::patience::{Ear, Mouth};
pub use crate::porter::{Porter, rest};
pub use crate::stop::{Stop, wait_for_stop};
pub use crate::trace::{Trace, Why};
pub use crate::visit::{Left, Surplus, Visit};
