//! The fixed-size values that cells are made of.

mod compared;
pub mod index;
pub mod key;
pub mod layout;
pub mod name;
pub mod point;
pub mod rectangle;
mod same;
pub mod validity;
