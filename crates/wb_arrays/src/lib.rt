//! Arrays over index sets: what every store of elements promises, and the
//! store that keeps one whole map.
//!
//! A store holds one element for each index of its domain. It is seen as the
//! list of its pairs, ascending by index, and read by a look-up. When its
//! domain is assigned, common indices keep their elements, new ones get a
//! default and the rest are handed back, so that the change can be undone.
//!
//! Arrays kept per locale: one vector of pairs for each locale of a mapping,
//! ascending by index.
//!
//! A [`Pieces`] is seen as its pairs in one ascending list, and its mapping. It
//! makes the promises of a [`crate::Store`]; beside them, piece l is exactly
//! the pairs whose index has locale l.
//!
//! Moving arrays from one mapping to another, by one thread or by several, and
//! reducing them.
//!
//! Its tests are in the crate `wb_tests`.
#![tactic(auto)]

mod bound;
mod crew;
mod mover;
mod part;
mod pieces;
mod reduction;
mod share;
mod store;
mod team;
mod workers;

pub use crate::bound::{Bound, put_absent};
pub use crate::crew::Crew;
pub use crate::mover::{MoveErr, Mover, Way};
pub use crate::part::part_of;
pub use crate::pieces::Pieces;
pub use crate::reduction::{Op, ReduceErr, reduce};
pub use crate::store::{Dropped, OutOfDomain, Store};
pub use crate::team::Team;
pub use crate::workers::{BadWorkers, Gate, Open, Workers};
