//! The seats of a desk on connections: what their lines are answered, what a line costs, when a seat is settled; and the day of a desk
//! without a journal, from its port to what is printed.
#![tactic(auto)]

mod cost;
mod early;
mod hosting;
mod seat;
mod serving;
mod words;

pub use crate::cost::{cost_of_both, cost_of_last, cost_of_request};
pub use crate::early::{CanSettle, Early, LEFT_LIMIT, Settlings, Staying, WithItsDesk};
pub use crate::hosting::{host, host_history, listen};
pub use crate::seat::{Hold, serve_seat, text_of};
pub use crate::serving::{
    Promised, print_all, print_settled, serve_connection, serve_history, serve_on,
};
pub use crate::words::{Answered, AnyWord, Heard, cost_of_word, text_of_word, word_or_why};
