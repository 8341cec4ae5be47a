//! What a line of the text of a workbook says.

use crate::number_list::NumberList;
use wb_cells::{AnyLayout, AnyRect, KeyType, Name};
use wb_literals::SetLiteral;

/// What the line of an object says.
#[derive(Drop)]
pub enum ObjectLine {
    /// A rectangular domain: its ranges and its mapping.
    Rectangular(Name, AnyRect, AnyLayout),
    /// A sparse domain: its parent and its indices, ascending.
    Sparse(Name, Name, SetLiteral),
    /// An associative domain: the type of its indices, and its indices, ascending.
    Associative(Name, KeyType, SetLiteral),
    /// An array: its domain, its elements in the domain's order, and its implicit value if its domain is sparse.
    Array(Name, Name, NumberList, Option<i64>),
}
