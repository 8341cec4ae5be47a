//! What lines are made of.
ghost use Rattle.std.specs.List.{All};
ghost use Rattle.wb_cells.specs.Kinds.{IsIndex};
ghost use Rattle.wb_literals.specs.Said.{items};
ghost use Rattle.wb_literals.specs.Limits.Literals.{listed_in};
ghost use Rattle.wb_text.specs.Said.{line_of};
ghost use Rattle.wb_text.specs.FromLines.Made.{IsMade};

use crate::ObjectLine;
use crate::workbook::putting::index_at;
use wb_cells::index_validity;
use wb_literals::SetLiteral;

// Computes nothing. Callers learn what the indices of a set are made of.
fn set_validity(set: &SetLiteral)
    ensures { All IsIndex (listed_in (items set.now)) }
{
    for place in 0..set.len() {
        index_validity(&index_at(set, place));
    }
}

/// Computes nothing. Callers learn what a line is made of.
pub fn line_validity(line: &ObjectLine)
    ensures { IsMade (line_of line.now) }
{
    match line {
        ObjectLine::Rectangular(domain, ranges, mapping) => {
            // For the proof: the bytes are those of a name.
            let _name = domain.as_bytes();
            let rank = ranges.rank();
            // For the proof: the mapping is within the limits.
            let _fits = mapping.is_of_rank(rank);
        }
        ObjectLine::Sparse(domain, _, _) => {
            // For the proof: the bytes are those of a name.
            let _name = domain.as_bytes();
        }
        ObjectLine::Associative(domain, _, set) => {
            // For the proof: the bytes are those of a name.
            let _name = domain.as_bytes();
            set_validity(set);
        }
        ObjectLine::Array(array, _, elements, implicit) => {
            // For the proof: the bytes are those of a name.
            let _name = array.as_bytes();
            // For the proof: the numbers are of 64 bits.
            let _count = elements.len();
            if let Some(value) = implicit {
                // For the proof: the number is one of 64 bits.
                let _value = *value;
            }
        }
    }
}
