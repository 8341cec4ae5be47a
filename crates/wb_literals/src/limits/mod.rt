//! What literals stand for, within the limits of ranges, domains and mappings.

mod limit;
mod listed;
mod literals;
mod mappings;

pub use crate::limits::limit::LimitErr;
pub use crate::limits::listed::listed_in;
pub use crate::limits::literals::domain_within;
pub use crate::limits::mappings::mapping_within;
