//! What was read, one pattern after another, packed where it may be.

ghost use Rattle.std.specs.Prelude.{◌≡◌, [], ◌∷◌, ◌++◌, true, false, map, Ok, OnOk, OnErr, IfOk};
ghost use Rattle.wb_cells.specs.Runs.{cell_of};
ghost use Rattle.wb_cells.specs.Shapes.{indices};
ghost use Rattle.wb_cells.specs.declared.cells.pattern.Pattern.TheVariants.{One};
ghost use Rattle.wb_cells.specs.Reads.{one_of};
ghost use Rattle.wb_cells.specs.Reads.{all_read, read_in, patterns_of};

use crate::{
    AnyRect, Cell, CellChange, Changes, IndexedChange, IndexedRow, Pattern, RectangleChanges,
    RunForm,
};
use std::alloc::Global;
use wb_range::NoMemory;

/// Patterns that were read one after another.
#[derive(Drop)]
pub enum ReadRun {
    /// One pattern.
    Single(Pattern),
    /// Patterns of single cells, kept as the changes that clear the cells, since a list of changes is packed.
    Cells(Changes),
}

impl ReadRun {
    // Adds the pattern of a cell behind the others, if they are such patterns too.
    fn add(&mut self, alloc: Global, cell: &Cell) -> Result<bool, NoMemory>
        ensures added { result ≡ Ok true → read_in self.new ≡ read_in self.old ++ One cell.now ∷ [] }
        ensures other { result ≡ Ok false → read_in self.new ≡ read_in self.old }
        ensures err { OnErr result (read_in self.new ≡ read_in self.old) }
    {
        match self {
            ReadRun::Single(_) => Ok(false),
            ReadRun::Cells(cells) => {
                add_cell(alloc, cells, cell)?;
                Ok(true)
            }
        }
    }
}

// Adds a cell to a list of cells.
fn add_cell(alloc: Global, cells: &mut Changes, cell: &Cell) -> Result<(), NoMemory>
    ensures ok { OnOk result (patterns_of cells.new ≡ patterns_of cells.old ++ One cell.now ∷ []) }
    ensures err { OnErr result (patterns_of cells.new ≡ patterns_of cells.old) }
{
    match IndexedChange::of(cell, &None) {
        Some(change) => cells.push_indexed(alloc, &change),
        None => cells.push(alloc, CellChange::new(*cell, None)),
    }
}

// Adds a cell to the last run, if that is one of cells.
fn add_to_last(alloc: Global, runs: &mut Vec<ReadRun>, cell: &Cell) -> Result<bool, NoMemory>
    ensures added { result ≡ Ok true → all_read runs.new.items ≡ all_read runs.old.items ++ One cell.now ∷ [] }
    ensures other { result ≡ Ok false → all_read runs.new.items ≡ all_read runs.old.items }
    ensures err { OnErr result (all_read runs.new.items ≡ all_read runs.old.items) }
{
    match runs.last_mut() {
        Some(run) => run.add(alloc, cell),
        None => Ok(false),
    }
}

// Adds a run of one pattern.
fn put_run(runs: &mut Vec<ReadRun>, run: ReadRun) -> Result<(), NoMemory>
    ensures ok { OnOk result (all_read runs.new.items ≡ all_read runs.old.items ++ read_in run) }
    ensures err { OnErr result (all_read runs.new.items ≡ all_read runs.old.items) }
{
    // A list of one run is common, and kept for long: it takes the room of one.
    if runs.is_empty() && runs.reserve_exact(1).is_err() {
        return Err(NoMemory);
    }
    match runs.push(run) {
        Ok(()) => Ok(()),
        Err(_) => Err(NoMemory),
    }
}

// Adds a cell, to the last run or as one of its own.
fn put_cell(alloc: Global, runs: &mut Vec<ReadRun>, cell: &Cell) -> Result<(), NoMemory>
    ensures ok { OnOk result (all_read runs.new.items ≡ all_read runs.old.items ++ One cell.now ∷ []) }
    ensures err { OnErr result (all_read runs.new.items ≡ all_read runs.old.items) }
{
    if add_to_last(alloc, runs, cell)? {
        return Ok(());
    }
    let cells = Changes::one(CellChange::new(*cell, None));
    put_run(runs, ReadRun::Cells(cells))
}

/// Adds a pattern behind the others, or nothing where no memory is left.
pub fn put(alloc: Global, runs: &mut Vec<ReadRun>, pattern: &Pattern) -> Result<(), NoMemory>
    ensures ok { OnOk result (all_read runs.new.items ≡ all_read runs.old.items ++ pattern.now ∷ []) }
    ensures err { OnErr result (all_read runs.new.items ≡ all_read runs.old.items) }
{
    match pattern {
        Pattern::One(cell) => put_cell(alloc, runs, &cell.cell()),
        Pattern::Objects | Pattern::Members(_) | Pattern::Uses(_) | Pattern::Elements(_) => {
            put_run(runs, ReadRun::Single(*pattern))
        }
    }
}

// The cells of a row at every index of a rectangle, as a list of cells.
fn rectangle_cells(alloc: Global, row: &IndexedRow, ranges: &AnyRect) -> Result<Changes, NoMemory>
    ensures { IfOk result (λ cells. patterns_of cells ≡ map one_of (map (cell_of row.now) (indices ranges.now))) }
{
    let mut cells = Changes::new();
    let cleared = RectangleChanges::new(*row, *ranges, None);
    cells.push_run(alloc, RunForm::Rectangle(cleared))?;
    Ok(cells)
}

/// Adds the patterns of the cells of a row at every index of a rectangle behind the others, or nothing where no memory is left.
/// However many there are, they take the room of their ranges.
pub fn put_rectangle(
    alloc: Global,
    runs: &mut Vec<ReadRun>,
    row: &IndexedRow,
    ranges: &AnyRect,
) -> Result<(), NoMemory>
    ensures ok { OnOk result (all_read runs.new.items ≡ all_read runs.old.items ++ map one_of (map (cell_of row.now) (indices ranges.now))) }
    ensures err { OnErr result (all_read runs.new.items ≡ all_read runs.old.items) }
{
    let cells = rectangle_cells(alloc, row, ranges)?;
    put_run(runs, ReadRun::Cells(cells))
}
