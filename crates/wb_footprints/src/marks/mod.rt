//! Marks: which numbers stand at which places.

pub mod block_marks;
pub mod blocks;
pub mod cell_lists;
pub mod earlier;
pub mod groups;
pub mod index_marks;
pub mod key_marks;
pub mod name_marks;
pub mod numbers;
pub mod object_marks;
pub mod place_marks;
pub mod point_marks;
pub mod reach_marks;
pub mod reading;
pub mod slot_marks;
pub mod text_marks;
mod word;
mod words;
