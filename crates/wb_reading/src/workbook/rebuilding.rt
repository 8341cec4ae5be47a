//! The workbook of lines.
ghost use Rattle.std.specs.Prelude.{◌≡◌, map, is_some, IfOk, IfSome};
ghost use Rattle.std.specs.FinMap as maps;
ghost use Rattle.std.specs.List.{list_all, AllByRecursion};
ghost use Rattle.wb_cells.specs.Cells.{state_of};
ghost use Rattle.wb_text.specs.Said.{line_of};
ghost use Rattle.wb_text.specs.FromLines.Found.{Finds};
ghost use Rattle.wb_text.specs.FromLines.Made.{IsMade};
ghost use Rattle.wb_text.specs.FromLines.Told.{is_sound, are_sound, stored_put, cells_told};
ghost use Rattle.wb_text.specs.FromLines.Rebuilt.{ComesBack};

use crate::workbook::arrays::arrays_told;
use std::alloc::Global;
use std::collections::BTreeMap;
use wb_book::Book;
use wb_cells::{Name, StoredCells};
use wb_range::NoMemory;
use wb_text::{ObjectLine, line_validity, places_of, put_stored};

// Computes nothing. Callers learn what the lines are made of.
fn lines_validity(lines: &[ObjectLine])
    ensures { AllByRecursion IsMade (map line_of lines.now) }
{
    for line in lines {
        line_validity(line);
    }
}

// The stored cells that the lines tell of, and `None` where one of them is not sound.
fn stored_told(
    alloc: Global,
    lines: &[ObjectLine],
    places: &BTreeMap<Name, usize>,
) -> Result<Option<StoredCells>, NoMemory>
    requires { Finds places.now (map line_of lines.now) (map line_of lines.now) }
    ensures sound { IfOk result (λ r. is_some r ≡ list_all (is_sound (map line_of lines.now)) (map line_of lines.now)) }
    ensures cells { IfOk result (λ r. IfSome r (λ m.
        state_of m ≡ stored_put (map line_of lines.now) (map line_of lines.now) maps.empty)) }
{
    let mut cells = StoredCells::new(alloc);
    for line in lines {
        if !put_stored(&mut cells, lines, places, line)? {
            return Ok(None);
        }
    }
    Ok(Some(cells))
}

/// The workbook that the lines tell of: a well-formed workbook comes back from what its lines say.
///
/// Lines that no workbook says may give some other workbook: only what a workbook needs is tested (`are_sound`), so a caller
/// that takes lines from elsewhere compares them with what the made workbook says. Each array is made at once by the mapping of
/// its domain, so no element is ever a cell: beside the lines it takes the memory of the workbook and of one array more;
/// `NoMemory` where none is left.
pub fn rebuild(alloc: Global, lines: &[ObjectLine]) -> Result<Option<Book>, NoMemory>
    ensures back { IfOk result (λ r. ComesBack lines.now r) }
    ensures sound { IfOk result (λ r. is_some r ≡ are_sound (map line_of lines.now)) }
    ensures cells { IfOk result (λ r. IfSome r (λ b. b.cells ≡ cells_told (map line_of lines.now))) }
{
    // For the proof: what the lines are made of.
    lines_validity(lines);
    let Some(places) = places_of(alloc, lines)? else {
        return Ok(None);
    };
    let Some(cells) = stored_told(alloc, lines, &places)? else {
        return Ok(None);
    };
    let arrays = arrays_told(alloc, lines, &places)?;
    Ok(Some(Book::of_parts(alloc, cells, arrays)))
}
