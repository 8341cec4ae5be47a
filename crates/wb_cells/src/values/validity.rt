//! What values are made of, for who has to know it of each. These functions compute nothing.

ghost use Rattle.std.specs.Prelude.{FitsSigned};
ghost use Rattle.std.specs.Int.{w64};
ghost use Rattle.std.specs.List.{All};
ghost use Rattle.wb_cells.specs.Kinds.{IsIndex};

use crate::values::index::{AnyIndex, Index};

/// Computes nothing. Callers learn that the numbers are of 64 bits.
pub fn numbers_validity(numbers: &[i64])
    ensures { All (FitsSigned w64) numbers.now }
{
    for number in numbers {
        // For the proof: a number that is read is one of 64 bits.
        let _number = *number;
    }
}

/// Computes nothing. Callers learn what an index is made of.
pub fn index_validity(index: &AnyIndex)
    ensures { IsIndex index.now }
{
    match index.index() {
        Index::Point(point) => numbers_validity(point.coordinates()),
        Index::Text(label) => {
            // For the proof: the text is that of a label.
            let _label = label.as_str();
        }
    }
}

/// Computes nothing. Callers learn what the indices are made of.
pub fn indices_validity(indices: &[AnyIndex])
    ensures { All IsIndex indices.now }
{
    for index in indices {
        index_validity(index);
    }
}
