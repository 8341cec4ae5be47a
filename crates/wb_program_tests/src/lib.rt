//! Tests of the program: what its command line asks for with a journal, and days of a desk with one.
#![tactic(auto)]

#[cfg(test)]
mod asked;
#[cfg(test)]
mod begun;
#[cfg(test)]
mod kept_desks;
