//! The line of a name among the lines, found by its place.
ghost use Rattle.std.specs.Prelude.{◌≡◌, map, option_map, is_some, IfOk, IfSome};
ghost use Rattle.wb_text.specs.Said as said;
ghost use Rattle.wb_text.specs.Said.{first_line_of, line_of};
ghost use Rattle.wb_text.specs.FromLines.Found.{Finds};
ghost use Rattle.wb_text.specs.FromLines.Told.{are_distinct};

use crate::ObjectLine;
use std::alloc::Global;
use std::collections::BTreeMap;
use wb_cells::Name;
use wb_range::NoMemory;

// The name of the object that a line tells of.
fn name_of(line: &ObjectLine) -> Name
    ensures { result ≡ said.name_of (line_of line.now) }
{
    match line {
        ObjectLine::Rectangular(name, _, _) => *name,
        ObjectLine::Sparse(name, _, _) => *name,
        ObjectLine::Associative(name, _, _) => *name,
        ObjectLine::Array(name, _, _, _) => *name,
    }
}

/// The places of the lines by their names; `None` where two of them are of one name.
pub fn places_of(
    alloc: Global,
    lines: &[ObjectLine],
) -> Result<Option<BTreeMap<Name, usize>>, NoMemory>
    ensures distinct { IfOk result (λ r. is_some r ≡ are_distinct (map line_of lines.now)) }
    ensures finds { IfOk result (λ r. IfSome r (λ m. Finds m (map line_of lines.now) (map line_of lines.now))) }
{
    let mut places = BTreeMap::new(alloc);
    for done in 0..lines.len() {
        let place = lines.len() - 1 - done;
        match places.insert(name_of(&lines[place]), place) {
            Ok(None) => {}
            Ok(Some(_)) => return Ok(None),
            Err(_) => return Err(NoMemory),
        }
    }
    Ok(Some(places))
}

/// The line of a name.
pub fn find<'a>(
    lines: &'a [ObjectLine],
    places: &BTreeMap<Name, usize>,
    name: &Name,
) -> Option<&'a ObjectLine>
    requires { Finds places.now (map line_of lines.now) (map line_of lines.now) }
    ensures { option_map (λ l. line_of l.now) result ≡ first_line_of name.now (map line_of lines.now) }
{
    let place = *places.get(name)?;
    lines.get(place)
}
