//! What is read of the stored cells, and how they are changed.

pub(crate) mod families;
pub(crate) mod key_runs;
pub(crate) mod label_runs;
pub(crate) mod locales;
pub(crate) mod member_key;
pub(crate) mod member_runs;
pub(crate) mod member_set;
pub(crate) mod member_walk;
pub(crate) mod members;
pub(crate) mod readers;
pub mod store;
pub(crate) mod stored;
