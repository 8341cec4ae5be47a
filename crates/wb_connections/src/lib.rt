//! What the connections of a desk come from, and the door of each: what is heard of it.
#![tactic(auto)]

mod accepting;
mod door;

pub use crate::accepting::{AcceptErr, Accepts, Binds, Connections, Ports};
pub use crate::door::Door;
