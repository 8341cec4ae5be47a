//! Tests of the libraries below the program, through their public calls: index sets, mappings and arrays; the index of footprints,
//! and worked histories as request lines with their replies; and days of a desk.
//!
//! They are one crate, since a crate of tests is a program, for which all that it reaches is read, linked and compiled; and a
//! library with tests is proved twice.
#![tactic(auto)]

#[cfg(test)]
mod desk;
#[cfg(test)]
mod index_sets;
#[cfg(test)]
mod sessions;
