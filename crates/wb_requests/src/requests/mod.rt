//! What a line asks for.

pub mod arrays;
pub mod books;
pub mod domains;
pub mod explains;
pub mod fields;
pub mod in_turn;
pub mod line_text;
pub mod literals;
pub mod queries;
pub mod reading;
pub mod request;
pub mod sets;
pub mod single;
pub mod sources;
pub mod transactions;
