//! Index sets, mappings and arrays: the crates from `wb_range` to `wb_arrays`.
mod arrays;
mod mappings;
pub(crate) mod movers;
mod moves;
mod ranges;
mod rectangles;
mod rows;
mod sets;
