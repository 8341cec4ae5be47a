//! Places: cells, families and indices of one object, by which marks stand.

pub mod areas;
pub mod indices;
pub mod keys;
pub mod label_list;
pub mod labels;
pub mod marking;
pub mod part;
pub mod place;
pub mod points;
pub mod runs;
