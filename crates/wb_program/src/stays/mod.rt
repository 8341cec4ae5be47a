//! A desk that stays: its seats are lent to one connection after another, until it is told to end; with a journal and without.

pub mod kept_seating;
pub mod kept_staying;
pub mod landing;
pub mod seating;
pub mod staying;
pub mod telling;
