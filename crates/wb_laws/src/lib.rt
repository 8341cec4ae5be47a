//! What holds of every workbook and its history, and is promised by no one crate below: each law is the contract of a function
//! that does nothing.
#![tactic(auto)]

pub mod laws;
