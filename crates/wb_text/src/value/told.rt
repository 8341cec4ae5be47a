//! The cells that lines tell of.
ghost use Rattle.std.specs.Prelude.{◌≡◌, map, is_some, true, IfOk, OnOk, IfSome};
ghost use Rattle.std.specs.FinMap as maps;
ghost use Rattle.std.specs.List.{list_all};
ghost use Rattle.wb_cells.specs.Cells.{state_of};
ghost use Rattle.wb_text.specs.FromLines.Found.{Finds};
ghost use Rattle.wb_text.specs.FromLines.Inserted.{inserted};
ghost use Rattle.wb_text.specs.FromLines.Told.{is_sound, are_sound, derived_told, cells_of, cells_put, cells_told};
ghost use Rattle.wb_text.specs.Said.{line_of};

use crate::value::putting::put_numbers;
use crate::{ObjectLine, indices_of, places_of, points_of, put_presents, put_stored};
use std::alloc::Global;
use std::collections::BTreeMap;
use wb_cells::{Kind, Name, StoredCells};
use wb_range::NoMemory;

// Puts in the cells that a sound line tells of beside the stored ones.
fn put_derived(
    alloc: Global,
    cells: &mut StoredCells,
    lines: &[ObjectLine],
    places: &BTreeMap<Name, usize>,
    line: &ObjectLine,
) -> Result<(), NoMemory>
    requires finds { Finds places.now (map line_of lines.now) (map line_of lines.now) }
    requires sound { is_sound (map line_of lines.now) (line_of line.now) ≡ true }
    ensures { OnOk result (state_of cells.new ≡ inserted (derived_told (map line_of lines.now) (line_of line.now)) (state_of cells.old)) }
{
    match line {
        ObjectLine::Rectangular(domain, ranges, _) => {
            let Ok(points) = points_of(alloc, ranges) else {
                return Err(NoMemory);
            };
            put_presents(cells, Kind::Rectangular(ranges.rank()), *domain, &points)
        }
        ObjectLine::Sparse(_, _, _) => Ok(()),
        ObjectLine::Associative(_, _, _) => Ok(()),
        ObjectLine::Array(array, domain, elements, _) => {
            let Ok(indices) = indices_of(alloc, lines, places, domain) else {
                return Err(NoMemory);
            };
            let Ok(numbers) = elements.list(alloc) else {
                return Err(NoMemory);
            };
            put_numbers(cells, *array, &indices, &numbers)
        }
    }
}

// Puts in the cells that a line tells of. `false` where it is not sound, and then the cells are of no use.
fn put_line(
    alloc: Global,
    cells: &mut StoredCells,
    lines: &[ObjectLine],
    places: &BTreeMap<Name, usize>,
    line: &ObjectLine,
) -> Result<bool, NoMemory>
    requires { Finds places.now (map line_of lines.now) (map line_of lines.now) }
    ensures sound { IfOk result (λ b. b ≡ is_sound (map line_of lines.now) (line_of line.now)) }
    ensures cells { IfOk result (λ b. b ≡ true →
        state_of cells.new ≡ inserted (cells_of (map line_of lines.now) (line_of line.now)) (state_of cells.old)) }
{
    if !put_stored(cells, lines, places, line)? {
        return Ok(false);
    }
    put_derived(alloc, cells, lines, places, line)?;
    Ok(true)
}

// The cells that the lines tell of, by the places of their names; `None` where one of the lines is not sound.
fn put_lines(
    alloc: Global,
    lines: &[ObjectLine],
    places: &BTreeMap<Name, usize>,
) -> Result<Option<StoredCells>, NoMemory>
    requires { Finds places.now (map line_of lines.now) (map line_of lines.now) }
    ensures sound { IfOk result (λ r. is_some r ≡ list_all (is_sound (map line_of lines.now)) (map line_of lines.now)) }
    ensures cells { IfOk result (λ r. IfSome r (λ m.
        state_of m ≡ cells_put (map line_of lines.now) (map line_of lines.now) maps.empty)) }
{
    let mut cells = StoredCells::new(alloc);
    for line in lines {
        if !put_line(alloc, &mut cells, lines, places, line)? {
            return Ok(None);
        }
    }
    Ok(Some(cells))
}

/// The cells that the lines tell of; `None` where two of them are of one name, or one is not sound.
pub(crate) fn cells_told(
    alloc: Global,
    lines: &[ObjectLine],
) -> Result<Option<StoredCells>, NoMemory>
    ensures sound { IfOk result (λ r. is_some r ≡ are_sound (map line_of lines.now)) }
    ensures cells { IfOk result (λ r. IfSome r (λ m. state_of m ≡ cells_told (map line_of lines.now))) }
{
    let Some(places) = places_of(alloc, lines)? else {
        return Ok(None);
    };
    put_lines(alloc, lines, &places)
}
