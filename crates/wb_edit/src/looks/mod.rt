//! The looks that commands are made of: each looks at cells, keeps that it did, judges what it saw, and goes on or stops.

pub mod elements;
pub mod implicit;
pub mod indices;
pub mod judgements;
pub mod kinds;
pub mod layouts;
pub mod numbers;
pub mod objects;
pub mod one_cell;
pub mod rectangles;
pub mod reshaping;
pub mod resizing;
pub mod sources;
pub mod users;
