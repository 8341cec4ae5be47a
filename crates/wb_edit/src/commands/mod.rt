//! The commands, each in a file named by its op: its tests in their order, and then the changes that it makes.
//! `resized`, `seen` and `writes` are what several commands write.

pub mod add;
pub mod all;
pub mod array;
pub mod assoc;
pub mod copy;
pub mod domain;
pub mod drop_array;
pub mod drop_domain;
pub mod fill;
pub mod fill_all;
pub mod irv;
pub mod load;
pub mod put;
pub mod remap;
pub mod remove;
pub mod reshape;
pub mod resized;
pub mod seen;
pub mod set;
pub mod sparse;
pub mod writes;
