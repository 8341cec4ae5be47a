//! Changes of a map of cells.

ghost use Rattle.std.specs.Prelude.{◌≡◌, ℕ, ◌+◌, List, [], ◌∷◌, Some, None, false, IfOk, OnOk, OnErr, IsSome, length};
ghost use Rattle.std.specs.FinMap as map;
ghost use Rattle.std.specs.Ordering.{eq_by_cmp};
ghost use Rattle.selective_undo.specs.Changes.{applied, apply, changes, AllOnce, RoomFor, HasRoom, sets, clears};
ghost use Rattle.wb_cells.specs.Cells.{cell_cmp, state_of};
ghost use Rattle.wb_cells.specs.Stored.{Fits, FitsChange};
ghost use Rattle.std.specs.List.{All};

use crate::book::stored::StoredCells;
use crate::cells::cell::Cell;
use crate::cells::value::Value;
use crate::changes::change::CellChange;
use wb_range::NoMemory;

pub(crate) fn look(cells: &StoredCells, cell: Cell) -> Option<Value>
    ensures { result ≡ map.get (state_of cells.now) cell }
{
    cells.get(&cell)
}

fn set_cell(cells: &mut StoredCells, cell: Cell, value: Value) -> Result<(), NoMemory>
    ensures ok { OnOk result (state_of cells.new ≡ map.insert (state_of cells.old) cell value) }
    ensures absent { OnErr result (Fits cell value → map.get (state_of cells.old) cell ≡ None) }
    ensures err { OnErr result (state_of cells.new ≡ state_of cells.old) }
{
    cells.insert(cell, value)
}

fn clear_cell(cells: &mut StoredCells, cell: Cell)
    ensures { state_of cells.new ≡ map.remove (state_of cells.old) cell }
{
    cells.remove(&cell);
}

/// Sets a cell, if the change gives it a value.
fn set_one(cells: &mut StoredCells, change: &CellChange) -> Result<(), NoMemory>
    ensures ok { OnOk result (state_of cells.new ≡ apply (sets (change.now ∷ [])) (state_of cells.old)) }
    ensures err { OnErr result (state_of cells.new ≡ state_of cells.old) }
{
    match change.value() {
        Some(value) => set_cell(cells, change.cell(), value),
        None => Ok(()),
    }
}

/// Sets the cells that the changes give a value. It may stop midway.
pub fn set_present(cells: &mut StoredCells, delta: &[CellChange]) -> Result<(), NoMemory>
    ensures ok { OnOk result (state_of cells.new ≡ apply (sets delta.now) (state_of cells.old)) }
    ensures others { (c : Cell) → changes cell_cmp delta.now c ≡ false → map.get (state_of cells.new) c ≡ map.get (state_of cells.old) c }
    ensures stays { (c : Cell) → IsSome (map.get (state_of cells.old) c) → IsSome (map.get (state_of cells.new) c) }
{
    for x in delta {
        set_one(cells, x)?;
    }
    Ok(())
}

/// Clears the cells that the changes give no value.
pub fn clear_absent(cells: &mut StoredCells, delta: &[CellChange])
    ensures { state_of cells.new ≡ apply (clears delta.now) (state_of cells.old) }
{
    for x in delta {
        clear_one(cells, x);
    }
}

fn clear_one(cells: &mut StoredCells, change: &CellChange)
    ensures { state_of cells.new ≡ apply (clears (change.now ∷ [])) (state_of cells.old) }
{
    match change.value() {
        Some(_) => {}
        None => clear_cell(cells, change.cell()),
    }
}

/// Makes a change for which there is room.
fn put_back_one(cells: &mut StoredCells, change: &CellChange)
    requires room { RoomFor change.now.value (map.get (state_of cells.old) change.now.cell) }
    requires fits { FitsChange change.now }
    ensures { state_of cells.new ≡ applied change.now (state_of cells.old) }
{
    match change.value() {
        Some(value) => match set_cell(cells, change.cell(), value) {
            Ok(()) => {}
            Err(_) => unreachable!(),
        },
        None => clear_cell(cells, change.cell()),
    }
}

/// Makes changes for which there is room, which takes no memory.
pub fn put_back(cells: &mut StoredCells, before: &[CellChange])
    requires once { AllOnce cell_cmp before.now }
    requires room { HasRoom before.now (state_of cells.old) }
    requires fits { All FitsChange before.now }
    ensures { state_of cells.new ≡ apply before.now (state_of cells.old) }
{
    for x in before {
        put_back_one(cells, x);
    }
}
