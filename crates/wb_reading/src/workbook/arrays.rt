//! The arrays of a workbook's lines.

ghost use Rattle.std.specs.Prelude.{◌≡◌, ◌∷◌, map, List, None, true, IfOk, OnOk};
ghost use Rattle.std.specs.List.{list_all, AllByRecursion};
ghost use Rattle.wb_text.specs.FromLines.Found.{Finds};
ghost use Rattle.wb_text.specs.FromLines.Made.{IsMade};
ghost use Rattle.wb_text.specs.FromLines.Told.{are_distinct, is_sound};
ghost use Rattle.wb_reading.specs.Laid.{AreArraysTold};
ghost use Rattle.wb_text.specs.Said.{Line, name_of, first_line_of, line_of};

use crate::workbook::columns::column;
use std::alloc::Global;
use std::collections::BTreeMap;
use wb_cells::Name;
use wb_elements::Elements;
use wb_range::NoMemory;
use wb_text::ObjectLine;

// Puts in the array of a line in front of others, if it is the line of an array.
fn put_array(
    alloc: Global,
    arrays: &mut BTreeMap<Name, Elements>,
    lines: &[ObjectLine],
    places: &BTreeMap<Name, usize>,
    line: &ObjectLine,
) -> Result<(), NoMemory>
    requires finds { Finds places.now (map line_of lines.now) (map line_of lines.now) }
    requires sound { list_all (is_sound (map line_of lines.now)) (map line_of lines.now) ≡ true }
    requires are_made { AllByRecursion IsMade (map line_of lines.now) }
    ensures { OnOk result ((more : List Line) → first_line_of (name_of (line_of line.now)) more ≡ None →
        AreArraysTold (map line_of lines.now) more arrays.old.entries → AreArraysTold (map line_of lines.now) (line_of line.now ∷ more) arrays.new.entries) }
{
    match line {
        ObjectLine::Rectangular(_, _, _) => Ok(()),
        ObjectLine::Sparse(_, _, _) => Ok(()),
        ObjectLine::Associative(_, _, _) => Ok(()),
        ObjectLine::Array(array, domain, elements, _) => {
            let Ok(made) = column(alloc, lines, places, domain, elements) else {
                return Err(NoMemory);
            };
            match arrays.insert(*array, made) {
                Ok(_) => Ok(()),
                Err(_) => Err(NoMemory),
            }
        }
    }
}

/// The arrays that the lines tell of.
pub(crate) fn arrays_told(
    alloc: Global,
    lines: &[ObjectLine],
    places: &BTreeMap<Name, usize>,
) -> Result<BTreeMap<Name, Elements>, NoMemory>
    requires finds { Finds places.now (map line_of lines.now) (map line_of lines.now) }
    requires sound { list_all (is_sound (map line_of lines.now)) (map line_of lines.now) ≡ true }
    requires are_made { AllByRecursion IsMade (map line_of lines.now) }
    requires distinct { are_distinct (map line_of lines.now) ≡ true }
    ensures { IfOk result (λ m. AreArraysTold (map line_of lines.now) (map line_of lines.now) m.entries) }
{
    let mut arrays = BTreeMap::new(alloc);
    for done in 0..lines.len() {
        let place = lines.len() - 1 - done;
        put_array(alloc, &mut arrays, lines, places, &lines[place])?;
    }
    Ok(arrays)
}
