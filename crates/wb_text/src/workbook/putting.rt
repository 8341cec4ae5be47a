//! Cells put into a map.
ghost use Rattle.std.specs.Prelude.{◌≡◌, ◌<◌, get_or, length, IfOk, OnOk};
ghost use Rattle.std.specs.FinMap as map;
ghost use Rattle.wb_cells.specs.Cells.{state_of};
ghost use Rattle.wb_cells.specs.Shapes.{indices as product_indices};
ghost use Rattle.wb_cells.specs.WellFormed.{index_cell};
ghost use Rattle.wb_literals.specs.Said.{items};
ghost use Rattle.wb_literals.specs.Limits.Literals.{listed_in};
ghost use Rattle.wb_text.specs.FromLines.Inserted.{inserted};
ghost use Rattle.wb_text.specs.FromLines.Told.{presents};

use std::alloc::{AllocError, Global};
use wb_cells::{AnyIndex, AnyRect, Cell, Kind, Name, StoredCells, Value};
use wb_literals::SetLiteral;
use wb_range::NoMemory;

/// Sets a cell.
pub fn put(cells: &mut StoredCells, cell: Cell, value: Value) -> Result<(), NoMemory>
    ensures { OnOk result (state_of cells.new ≡ map.insert (state_of cells.old) cell value) }
{
    cells.insert(cell, value)
}

/// Sets the cells that say that the indices are in a domain of the kind.
pub fn put_presents(
    cells: &mut StoredCells,
    kind: Kind,
    domain: Name,
    indices: &[AnyIndex],
) -> Result<(), NoMemory>
    ensures { OnOk result (state_of cells.new ≡ inserted (presents (index_cell kind domain) indices.now) (state_of cells.old)) }
{
    for index in indices {
        put(cells, kind.index_cell(domain, *index), Value::Present)?;
    }
    Ok(())
}

/// The index that a set lists at a place.
pub(crate) fn index_at(set: &SetLiteral, place: usize) -> AnyIndex
    requires { place < length (listed_in (items set.now)) }
    ensures { result ≡ get_or (listed_in (items set.now)) place result }
{
    match set.nth(place) {
        Some(index) => index,
        None => unreachable!(),
    }
}

/// Sets the cells that say that the indices of a set are in a domain of the kind.
pub(crate) fn put_members(
    cells: &mut StoredCells,
    kind: Kind,
    domain: Name,
    set: &SetLiteral,
) -> Result<(), NoMemory>
    ensures { OnOk result (state_of cells.new ≡ inserted (presents (index_cell kind domain) (listed_in (items set.now))) (state_of cells.old)) }
{
    for place in 0..set.len() {
        let index = index_at(set, place);
        put(cells, kind.index_cell(domain, index), Value::Present)?;
    }
    Ok(())
}

/// The indices of a rectangle, row by row.
pub fn points_of(alloc: Global, ranges: &AnyRect) -> Result<Vec<AnyIndex>, AllocError>
    ensures { IfOk result (λ v. v.items ≡ product_indices ranges.now) }
{
    let mut points = Vec::new(alloc);
    for p in 0..ranges.size() {
        if let Some(index) = ranges.nth(p) {
            points.push(index)?;
        }
    }
    Ok(points)
}
