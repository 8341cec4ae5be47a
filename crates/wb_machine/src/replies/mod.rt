//! What a request is answered.

pub mod digits;
pub mod edit_numbers;
pub mod explained_text;
pub mod numbers_text;
pub mod pieces;
pub mod printed_text;
pub mod reply;
pub mod text;
