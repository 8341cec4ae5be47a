//! The literals of ranges, domains, indices and mappings, read from texts exactly by their grammar.
//!
//! A reader gives what was written: bounds, counts, strides, lists. What it means, and the limits that it has to
//! keep, come after it.
//!
//! Its tests are in the crate `wb_tests`.
#![tactic(auto)]

mod domain;
mod index;
mod integer;
pub mod limits;
mod list;
mod mapping;
mod range;
mod rectangle;
mod set;
mod tokens;

pub use domain::{DomainLiteral, read_domain};
pub use index::{GridLiteral, IndexLiteral, grid_at, index_at};
pub use integer::{integer_at, integer_spelling, natural_at};
pub use list::integers_at;
pub use mapping::{MappingLiteral, mapping_at, read_mapping};
pub use range::{RangeLiteral, Stride, Upper, range_at};
pub use rectangle::{RectangleLiteral, read_rectangle, rectangle_at};
pub use set::{SetLiteral, read_set, set_at};
pub use tokens::after;
