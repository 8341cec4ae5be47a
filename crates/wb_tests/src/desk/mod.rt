//! Days of a desk: `wb_desk`.
mod days;
mod early;
mod forms;
mod openings;
mod threads;
