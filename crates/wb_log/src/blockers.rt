//! The least later edit that stands in the way of an undo or a redo, found by testing one after another: where no memory is
//! left for the index.

ghost use Rattle.std.specs.Prelude.{◌≡◌, ℕ, ◌+◌, ◌^◌, ◌<◌, ◌||◌, [], ◌∷◌, ◌++◌, length, map};
ghost use Rattle.selective_undo.specs.Changes.{changes};
ghost use Rattle.selective_undo.specs.Edit.{covers};
ghost use Rattle.selective_undo.specs.Log.{meets_any, blocks_undo, blocks_redo, first_from};
ghost use Rattle.wb_cells.specs.Cells.{cell_cmp};
ghost use Rattle.wb_cells.specs.Reads.{all_read, read_in, patterns_of};
ghost use Rattle.wb_cells.specs.Schema.{workbook};
ghost use Rattle.wb_log.specs.Kept.{footprint, kept_in, kept_all};
ghost use Rattle.wb_log.specs.Records.{lent_footprint, lent_kept, lent_cells};

use crate::entry::{EditRecord, LentFootprint};
use crate::lent::{LentCells, LentKept};
use crate::steps::making::is_same;
use wb_cells::{Cell, Changes, Pattern, ReadRun};

fn is_changed(wrote: &LentCells<'_>, cell: &Cell) -> bool
    ensures { result ≡ changes cell_cmp (lent_cells wrote.now) cell.now }
{
    let mut near = 0;
    for at in 0..wrote.len() {
        if is_same(cell, &wrote.cell_near(at, &mut near)) {
            return true;
        }
    }
    false
}

fn is_covered(reads: &[Pattern], cell: &Cell) -> bool
    ensures { result ≡ covers workbook reads.now cell.now }
{
    reads.iter().any(|p| p.matches(*cell))
}

// Whether the pattern, alone, names the cell.
fn is_named(pattern: &Pattern, cell: &Cell) -> bool
    ensures { result ≡ covers workbook (pattern.now ∷ []) cell.now }
{
    pattern.matches(*cell)
}

// Whether the cell is one of some cells.
fn is_listed(cells: &Changes, cell: &Cell) -> bool
    ensures { result ≡ covers workbook (patterns_of cells.now) cell.now }
{
    is_changed(&LentCells::Listed(cells), cell)
}

// Whether a pattern of a run names the cell.
fn is_covered_in(run: &ReadRun, cell: &Cell) -> bool
    ensures { result ≡ covers workbook (read_in run.now) cell.now }
{
    match run {
        ReadRun::Single(pattern) => is_named(pattern, cell),
        ReadRun::Cells(cells) => is_listed(cells, cell),
    }
}

fn is_covered_by(runs: &[ReadRun], cell: &Cell) -> bool
    ensures { result ≡ covers workbook (all_read runs.now) cell.now }
{
    for run in runs {
        if is_covered_in(run, cell) {
            return true;
        }
    }
    false
}

// Whether one of the patterns, or of those of the runs behind them, names the cell.
fn is_read(reads: &[Pattern], runs: &[ReadRun], cell: &Cell) -> bool
    ensures { result ≡ covers workbook (reads.now ++ all_read runs.now) cell.now }
{
    is_covered(reads, cell) || is_covered_by(runs, cell)
}

fn meets(reads: &[Pattern], runs: &[ReadRun], wrote: &LentCells<'_>, cell: &Cell) -> bool
    ensures { result ≡ (changes cell_cmp (lent_cells wrote.now) cell.now || covers workbook (reads.now ++ all_read runs.now) cell.now) }
{
    is_changed(wrote, cell) || is_read(reads, runs, cell)
}

// Whether an edit that read these patterns and wrote `wrote` reads or writes one of the cells.
fn meets_any(
    reads: &[Pattern],
    runs: &[ReadRun],
    wrote: &LentCells<'_>,
    cells: &LentCells<'_>,
) -> bool
    ensures { result ≡ meets_any (footprint (reads.now ++ all_read runs.now) (lent_cells wrote.now)) (lent_cells cells.now) }
{
    let mut near = 0;
    for at in 0..cells.len() {
        let cell = cells.cell_near(at, &mut near);
        if meets(reads, runs, wrote, &cell) {
            return true;
        }
    }
    false
}

// Whether an edit of which this is kept reads or writes one of the cells. A fill reads the array beside the elements that it writes.
fn is_met(kept: &LentKept<'_>, cells: &LentCells<'_>) -> bool
    ensures { result ≡ meets_any (lent_kept kept.now) (lent_cells cells.now) }
{
    match kept {
        LentKept::Listed(listed) => is_listed_met(listed, cells),
        LentKept::Filled(filled) => {
            meets_any(&[filled.object()], &[], &LentCells::Filled(*filled), cells)
        }
    }
}

// Whether an edit of which this footprint is kept reads or writes one of the cells.
fn is_listed_met(kept: &LentFootprint<'_>, cells: &LentCells<'_>) -> bool
    ensures { result ≡ meets_any (lent_footprint kept.now) (lent_cells cells.now) }
{
    let (reads, runs) = kept.reads();
    meets_any(reads, runs, &LentCells::Listed(kept.before()), cells)
}

fn blocks_undo(x: &EditRecord, before: &LentCells<'_>) -> bool
    ensures { result ≡ blocks_undo (lent_cells before.now) (kept_in x.now) }
{
    match x.kept() {
        None => false,
        Some(kept) => is_met(&kept, before),
    }
}

fn blocks_redo(x: &EditRecord, reads: &[Pattern], runs: &[ReadRun], delta: &Changes) -> bool
    ensures { result ≡ blocks_redo (footprint (reads.now ++ all_read runs.now) delta.now) (kept_in x.now) }
{
    match x.kept() {
        None => false,
        Some(kept) => {
            let made = LentCells::Listed(delta);
            if is_met(&kept, &made) {
                return true;
            }
            meets_any(reads, runs, &made, &kept.cells())
        }
    }
}

/// The number of the first edit in force that needs one that wrote the cells.
pub(crate) fn first_to_block_undo(
    later: &[EditRecord],
    from: u64,
    before: &LentCells<'_>,
) -> Option<u64>
    requires { from + length later.now < 2 ^ 64 }
    ensures { result ≡ first_from (blocks_undo (lent_cells before.now)) from (kept_all later.now) }
{
    let mut number = from;
    for x in later {
        if blocks_undo(x, before) {
            return Some(number);
        }
        number += 1;
    }
    None
}

/// The number of the first edit in force that needs, or is needed by, one with these reads and changes.
pub(crate) fn first_to_block_redo(
    later: &[EditRecord],
    from: u64,
    reads: &[Pattern],
    runs: &[ReadRun],
    delta: &Changes,
) -> Option<u64>
    requires { from + length later.now < 2 ^ 64 }
    ensures { result ≡ first_from (blocks_redo (footprint (reads.now ++ all_read runs.now) delta.now)) from (kept_all later.now) }
{
    let mut number = from;
    for x in later {
        if blocks_redo(x, reads, runs, delta) {
            return Some(number);
        }
        number += 1;
    }
    None
}
