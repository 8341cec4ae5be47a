//! All edits that stand in the way of an undo, found in one pass over its cells.

ghost use Rattle.std.specs.Prelude.{OnOk, IfOk};
ghost use Rattle.std.specs.List.{list_any};
ghost use Rattle.selective_undo.specs.Log.{blocks_undo};
ghost use Rattle.wb_cells.specs.Runs.{changes_in, all_changes, in_first, cell_of};
ghost use Rattle.wb_footprints.specs.Numbers.{Numbers};
ghost use Rattle.wb_footprints.specs.Relation.{AreAllAfter, JoinedAfter};
ghost use Rattle.wb_footprints.specs.Footprints.{Footprints, IsIndexOf, marked_own, marked_family, marked_met};
ghost use Rattle.wb_footprints.specs.Swept.{AreSwept};

use crate::foot_index::FootIndex;
use crate::marks::numbers::Numbers;
use crate::places::place::{family, own};
use crate::places::runs::{LEAST, Run};
use crate::questions::swept::{SweptCells, of_family};
use std::alloc::Global;
use wb_cells::{Cell, CellChange, ChangeRun, Changes};
use wb_range::NoMemory;

impl FootIndex {
    /// Those above `after` at the own place of the cell join the numbers that wait.
    fn join_own(&self, cell: &Cell, after: u64, waiting: &mut Numbers) -> Result<(), NoMemory>
        ensures { OnOk result (JoinedAfter waiting.old waiting.new (marked_own self.now cell.now) after) }
    {
        let place = own(cell);
        self.touched.join_after(&place, after, waiting)?;
        self.read.join_after(&place, after, waiting)
    }

    /// Those above `after` at the own place of one of the cells of a run join the numbers that wait; the cells are asked together.
    fn join_own_together(
        &self,
        run: &Run,
        after: u64,
        waiting: &mut Numbers,
    ) -> Result<(), NoMemory>
        ensures { OnOk result (JoinedAfter waiting.old waiting.new
            (λ n. list_any (λ p. marked_own self.now (cell_of run.now.row p) n) run.now.indices) after) }
    {
        self.touched
            .join_in(&run.row, &run.indices, after, waiting)?;
        self.read.join_in(&run.row, &run.indices, after, waiting)
    }

    /// Those above `after` at the own place of the cell join the numbers that wait. A cell that the sweep went through before is
    /// not asked: they wait already.
    fn join_own_once(
        &self,
        cell: &Cell,
        after: u64,
        waiting: &mut Numbers,
        swept: &mut SweptCells,
    ) -> Result<(), NoMemory>
        requires { AreSwept self.now swept.old waiting.old after }
        ensures joined { OnOk result (JoinedAfter waiting.old waiting.new (marked_own self.now cell.now) after) }
        ensures swept { OnOk result (AreSwept self.now swept.new waiting.new after) }
    {
        if swept.has(cell) {
            return Ok(());
        }
        self.join_own(cell, after, waiting)?;
        swept.add(cell)
    }

    /// Those above `after` at the own place of one of the cells of a run join the numbers that wait; the cells are asked one by
    /// one, each once in a sweep.
    fn join_own_each(
        &self,
        cells: &ChangeRun,
        after: u64,
        waiting: &mut Numbers,
        swept: &mut SweptCells,
    ) -> Result<(), NoMemory>
        requires { AreSwept self.now swept.old waiting.old after }
        ensures joined { OnOk result (JoinedAfter waiting.old waiting.new
            (λ n. list_any (λ x. marked_own self.now x.cell n) (changes_in cells.now.form)) after) }
        ensures swept { OnOk result (AreSwept self.now swept.new waiting.new after) }
    {
        for at in 0..cells.len() {
            let cell = cells.cell(at);
            self.join_own_once(&cell, after, waiting, swept)?;
        }
        Ok(())
    }

    /// Those above `after` at the own place of one of the cells of a run join the numbers that wait; the sweep comes to the cells
    /// for the first time.
    fn join_own_new(
        &self,
        run: &Run,
        after: u64,
        waiting: &mut Numbers,
        swept: &mut SweptCells,
    ) -> Result<(), NoMemory>
        requires { AreSwept self.now swept.old waiting.old after }
        ensures joined { OnOk result (JoinedAfter waiting.old waiting.new
            (λ n. list_any (λ p. marked_own self.now (cell_of run.now.row p) n) run.now.indices) after) }
        ensures swept { OnOk result (AreSwept self.now swept.new waiting.new after) }
    {
        self.join_own_together(run, after, waiting)?;
        swept.add_run(run)
    }

    /// Those above `after` at the own place of one of the cells of a run join the numbers that wait; those cells are asked that the
    /// sweep did not mark.
    fn join_own_left(
        &self,
        run: &Run,
        after: u64,
        waiting: &mut Numbers,
        swept: &mut SweptCells,
    ) -> Result<(), NoMemory>
        requires { AreSwept self.now swept.old waiting.old after }
        ensures joined { OnOk result (JoinedAfter waiting.old waiting.new
            (λ n. list_any (λ p. marked_own self.now (cell_of run.now.row p) n) run.now.indices) after) }
        ensures swept { OnOk result (AreSwept self.now swept.new waiting.new after) }
    {
        match swept.new_indices(self.touched.alloc, run) {
            None => Err(NoMemory),
            Some(indices) => {
                let row = run.row;
                self.join_own_new(&Run { row, indices }, after, waiting, swept)
            }
        }
    }

    /// Those above `after` at the own place of one of the cells of a run join the numbers that wait; the run is asked, and kept,
    /// whole. Some of its cells may have been asked before.
    fn join_own_whole(
        &self,
        run: Run,
        after: u64,
        waiting: &mut Numbers,
        swept: &mut SweptCells,
    ) -> Result<(), NoMemory>
        requires { AreSwept self.now swept.old waiting.old after }
        ensures joined { OnOk result (JoinedAfter waiting.old waiting.new
            (λ n. list_any (λ p. marked_own self.now (cell_of run.row p) n) run.indices) after) }
        ensures swept { OnOk result (AreSwept self.now swept.new waiting.new after) }
    {
        self.join_own_together(&run, after, waiting)?;
        swept.keep(run)
    }

    /// Those above `after` at the own place of one of the cells of a run join the numbers that wait. Nothing is asked of a run that
    /// lies within one that the sweep keeps whole: they wait already.
    fn join_own_run(
        &self,
        run: Run,
        after: u64,
        waiting: &mut Numbers,
        swept: &mut SweptCells,
    ) -> Result<(), NoMemory>
        requires { AreSwept self.now swept.old waiting.old after }
        ensures joined { OnOk result (JoinedAfter waiting.old waiting.new
            (λ n. list_any (λ p. marked_own self.now (cell_of run.row p) n) run.indices) after) }
        ensures swept { OnOk result (AreSwept self.now swept.new waiting.new after) }
    {
        if swept.covers(&run) {
            return Ok(());
        }
        if swept.has_room() {
            self.join_own_whole(run, after, waiting, swept)
        } else {
            self.join_own_left(&run, after, waiting, swept)
        }
    }

    /// Those above `after` at the own place of one of the cells of a run join the numbers that wait; few cells are asked one by
    /// one, others all together.
    fn join_own_in(
        &self,
        cells: &ChangeRun,
        after: u64,
        waiting: &mut Numbers,
        swept: &mut SweptCells,
    ) -> Result<(), NoMemory>
        requires { AreSwept self.now swept.old waiting.old after }
        ensures joined { OnOk result (JoinedAfter waiting.old waiting.new
            (λ n. list_any (λ x. marked_own self.now x.cell n) (changes_in cells.now.form)) after) }
        ensures swept { OnOk result (AreSwept self.now swept.new waiting.new after) }
    {
        if cells.len() < LEAST {
            return self.join_own_each(cells, after, waiting, swept);
        }
        match Run::of_cells(self.touched.alloc, cells) {
            None => self.join_own_each(cells, after, waiting, swept),
            Some(run) => self.join_own_run(run, after, waiting, swept),
        }
    }

    /// Those above `after` at the own place of one of the cells of runs join the numbers that wait.
    fn join_own_all(
        &self,
        runs: &[ChangeRun],
        after: u64,
        waiting: &mut Numbers,
        swept: &mut SweptCells,
    ) -> Result<(), NoMemory>
        requires { AreSwept self.now swept.old waiting.old after }
        ensures joined { OnOk result (JoinedAfter waiting.old waiting.new
            (λ n. list_any (λ x. marked_own self.now x.cell n) (all_changes runs.now)) after) }
        ensures swept { OnOk result (AreSwept self.now swept.new waiting.new after) }
    {
        for run in runs {
            self.join_own_in(run, after, waiting, swept)?;
        }
        Ok(())
    }

    /// Those above `after` that read the family of the cell join the numbers that wait.
    fn join_family(&self, cell: &Cell, after: u64, waiting: &mut Numbers) -> Result<(), NoMemory>
        ensures { OnOk result (JoinedAfter waiting.old waiting.new (marked_family self.now cell.now) after) }
    {
        match family(cell) {
            Some(place) => self.read.join_after(&place, after, waiting),
            None => Ok(()),
        }
    }

    /// Those above `after` that read the family of the cell join the numbers that wait; the family is asked for by this cell once
    /// in a sweep.
    fn join_family_by(
        &self,
        cell: &Cell,
        after: u64,
        waiting: &mut Numbers,
        swept: &mut SweptCells,
    ) -> Result<(), NoMemory>
        requires { AreSwept self.now swept.old waiting.old after }
        ensures joined { OnOk result (JoinedAfter waiting.old waiting.new (marked_family self.now cell.now) after) }
        ensures swept { OnOk result (AreSwept self.now swept.new waiting.new after) }
    {
        if swept.has_family(cell) {
            return Ok(());
        }
        self.join_family(cell, after, waiting)?;
        swept.add_family(cell)
    }

    /// Those above `after` that read the family of the cell join the numbers that wait; the family is asked for once in a sweep.
    fn join_family_once(
        &self,
        cell: &Cell,
        after: u64,
        waiting: &mut Numbers,
        swept: &mut SweptCells,
    ) -> Result<(), NoMemory>
        requires { AreSwept self.now swept.old waiting.old after }
        ensures joined { OnOk result (JoinedAfter waiting.old waiting.new (marked_family self.now cell.now) after) }
        ensures swept { OnOk result (AreSwept self.now swept.new waiting.new after) }
    {
        self.join_family_by(&of_family(cell), after, waiting, swept)
    }

    /// Those above `after` that read the family of the cells of a run, which are of one, join the numbers that wait.
    fn join_family_of(
        &self,
        cells: &ChangeRun,
        after: u64,
        waiting: &mut Numbers,
        swept: &mut SweptCells,
    ) -> Result<(), NoMemory>
        requires { AreSwept self.now swept.old waiting.old after }
        ensures joined { OnOk result (JoinedAfter waiting.old waiting.new
            (λ n. list_any (λ x. marked_family self.now x.cell n) (changes_in cells.now.form)) after) }
        ensures swept { OnOk result (AreSwept self.now swept.new waiting.new after) }
    {
        if cells.len() == 0 {
            return Ok(());
        }
        self.join_family_once(&cells.cell(0), after, waiting, swept)
    }

    /// Those above `after` that read the family of one of the cells of runs join the numbers that wait.
    fn join_families(
        &self,
        runs: &[ChangeRun],
        after: u64,
        waiting: &mut Numbers,
        swept: &mut SweptCells,
    ) -> Result<(), NoMemory>
        requires { AreSwept self.now swept.old waiting.old after }
        ensures joined { OnOk result (JoinedAfter waiting.old waiting.new
            (λ n. list_any (λ x. marked_family self.now x.cell n) (all_changes runs.now)) after) }
        ensures swept { OnOk result (AreSwept self.now swept.new waiting.new after) }
    {
        for run in runs {
            self.join_family_of(run, after, waiting, swept)?;
        }
        Ok(())
    }

    /// Those above `after` at the own place of the change's cell, or at that of its family, join the numbers that wait.
    fn join_first(
        &self,
        first: &Option<CellChange>,
        after: u64,
        waiting: &mut Numbers,
        swept: &mut SweptCells,
    ) -> Result<(), NoMemory>
        requires { AreSwept self.now swept.old waiting.old after }
        ensures joined { OnOk result (JoinedAfter waiting.old waiting.new
            (λ n. list_any (λ x. marked_met self.now x.cell n) (in_first first.now)) after) }
        ensures swept { OnOk result (AreSwept self.now swept.new waiting.new after) }
    {
        match first {
            None => Ok(()),
            Some(x) => self.join_once(x.as_cell(), after, waiting, swept),
        }
    }

    /// Those above `after` at the own place of the cell, or at that of its family, join the numbers that wait.
    fn join_once(
        &self,
        cell: &Cell,
        after: u64,
        waiting: &mut Numbers,
        swept: &mut SweptCells,
    ) -> Result<(), NoMemory>
        requires { AreSwept self.now swept.old waiting.old after }
        ensures joined { OnOk result (JoinedAfter waiting.old waiting.new (marked_met self.now cell.now) after) }
        ensures swept { OnOk result (AreSwept self.now swept.new waiting.new after) }
    {
        self.join_own_once(cell, after, waiting, swept)?;
        self.join_family_once(cell, after, waiting, swept)
    }

    /// Those above `after` at the own place of one of the cells of runs, or at that of its family, join the numbers that wait.
    fn join_runs(
        &self,
        runs: &[ChangeRun],
        after: u64,
        waiting: &mut Numbers,
        swept: &mut SweptCells,
    ) -> Result<(), NoMemory>
        requires { AreSwept self.now swept.old waiting.old after }
        ensures joined { OnOk result (JoinedAfter waiting.old waiting.new
            (λ n. list_any (λ x. marked_met self.now x.cell n) (all_changes runs.now)) after) }
        ensures swept { OnOk result (AreSwept self.now swept.new waiting.new after) }
    {
        self.join_own_all(runs, after, waiting, swept)?;
        self.join_families(runs, after, waiting, swept)
    }

    /// All numbers above `after` whose footprints need one that wrote the cells join those that wait, in one pass over the
    /// cells; a run within one that a sweep keeps, a cell that it marked, and a family that it asked for, is not asked for again,
    /// since what met it waits. Where memory runs out, some of them may have.
    pub fn join_blockers(
        &self,
        before: &Changes,
        after: u64,
        waiting: &mut Numbers,
        swept: &mut SweptCells,
    ) -> Result<(), NoMemory>
        requires { AreSwept self.now swept.old waiting.old after }
        ensures joined { OnOk result ((footprints : Footprints) → IsIndexOf self.now footprints →
            JoinedAfter waiting.old waiting.new (λ n. blocks_undo before.now (footprints n)) after) }
        ensures swept { OnOk result (AreSwept self.now swept.new waiting.new after) }
    {
        let (first, runs) = before.parts();
        self.join_first(&first, after, waiting, swept)?;
        self.join_runs(runs, after, waiting, swept)
    }

    /// All numbers above `after` whose footprints need one that wrote the cells, ascending.
    pub fn blockers(
        &self,
        alloc: Global,
        before: &Changes,
        after: u64,
    ) -> Result<Vec<u64>, NoMemory>
        ensures { IfOk result (λ v. (footprints : Footprints) → IsIndexOf self.now footprints →
            AreAllAfter (λ n. blocks_undo before.now (footprints n)) after v.items) }
    {
        let mut waiting = Numbers::new(alloc);
        let mut swept = SweptCells::new(alloc);
        self.join_blockers(before, after, &mut waiting, &mut swept)?;
        waiting.above(alloc, after)
    }
}
