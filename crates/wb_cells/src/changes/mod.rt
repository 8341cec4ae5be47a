//! Changes of cells, each cell once, and what takes them back.

pub mod change;
pub mod delta;
pub mod indexed;
pub mod inverse;
pub mod labels;
pub mod list;
pub mod numbers;
pub mod packed;
pub mod rectangle;
pub mod row;
pub mod run;
