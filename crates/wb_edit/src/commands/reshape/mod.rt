//! A new value of a domain, by the kind of the domain and the source.

pub mod any;
pub mod no_source;
pub mod operations;
pub mod rectangles;
pub mod replaced;
pub mod sets;
