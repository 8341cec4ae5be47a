//! The lines of requests, apart from how they are read: which members each request has and what their values spell
//! (`specs/Wire/Table.antt` and `specs/Wire/Spelled.antt`), and the canonical line of each request.
//!
//! Its tests are in the crate `wb_tests`.

pub mod laws;
mod objects;
mod requests;

pub use crate::wire::requests::{edit_text, request_text};
