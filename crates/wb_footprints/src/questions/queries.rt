//! The first edits that stand in the way of an undo or a redo.

ghost use Rattle.std.specs.Prelude.{◌≡◌, ◌<◌, [], ◌∷◌, ◌++◌, length, IfSome};
ghost use Rattle.selective_undo.specs.Log.{blocks_undo, blocks_redo};
ghost use Rattle.wb_cells.specs.declared.cells.cell.Cell.TheVariants as cell;
ghost use Rattle.wb_cells.specs.declared.cells.pattern.Pattern.TheVariants as pattern;
ghost use Rattle.wb_cells.specs.Reads.{all_read, read_in, patterns_of};
ghost use Rattle.wb_footprints.specs.Relation.{IsLeastAfter};
ghost use Rattle.wb_footprints.specs.Footprints.{Footprints, IsIndexOf, footprint, any_met, met_by, touched_by, touched_under, touched_one_of};
ghost use Rattle.wb_footprints.specs.Places.{own, place_of};
ghost use Rattle.wb_cells.specs.Runs.{changes_in, all_changes, in_first, cell_of};
ghost use Rattle.std.specs.List.{list_any};

use crate::foot_index::FootIndex;
use crate::marks::earlier::{earlier, is_next};
use crate::places::marking::Marking;
use crate::places::part::{Part, Slot};
use crate::places::place::{family, own, place_of};
use crate::places::runs::{LEAST, Run, family_of};
use wb_cells::{AnyIndex, Cell, CellChange, ChangeRun, Changes, Name, Pattern, ReadRun};

impl FootIndex {
    /// The least number above `after` whose footprint read or touched the cell.
    pub fn met_after(&self, cell: &Cell, after: u64) -> Option<u64>
        ensures least { (footprints : Footprints) → IsIndexOf self.now footprints → IsLeastAfter (λ n. met_by (footprints n) cell.now) after result }
        ensures above { IfSome result (λ j. after < j) }
    {
        let place = own(cell);
        let touched = self.touched.least_after(&place, after);
        let first = earlier(touched, self.read.least_after(&place, after));
        match family(cell) {
            Some(family) => earlier(first, self.read.least_after(&family, after)),
            None => first,
        }
    }

    /// The least number above `after` whose footprint read or touched an element: as `met_after`, with no cell made.
    pub fn element_met_after(&self, array: &Name, index: &AnyIndex, after: u64) -> Option<u64>
        ensures { (footprints : Footprints) → IsIndexOf self.now footprints →
            IsLeastAfter (λ n. met_by (footprints n) (cell.Element array.now index.now)) after result }
    {
        let element = Part::Element(*index);
        let touched = self.touched.part_after(array, &element, after);
        let first = earlier(touched, self.read.part_after(array, &element, after));
        let elements = Part::Slot(Slot::Elements);
        earlier(first, self.read.part_after(array, &elements, after))
    }

    /// The least number above `after` whose footprint touched what stands under a name: as `first_writer`, with no pattern made.
    pub fn object_touched_after(&self, name: &Name, after: u64) -> Option<u64>
        ensures { (footprints : Footprints) → IsIndexOf self.now footprints →
            IsLeastAfter (λ n. touched_one_of (footprints n) (pattern.One (cell.Object name.now) ∷ [])) after result }
    {
        let object = Part::Slot(Slot::Object);
        self.touched.part_after(name, &object, after)
    }

    /// The least number above `after` whose footprint touched the place of the pattern.
    fn touched_after(&self, pattern: &Pattern, after: u64) -> Option<u64>
        ensures { (footprints : Footprints) → IsIndexOf self.now footprints →
            IsLeastAfter (λ n. touched_by (footprints n) (place_of pattern.now)) after result }
    {
        self.touched.least_after(&place_of(pattern), after)
    }

    /// The least number above `after` whose footprint read or touched one of the cells of a run.
    fn met_together(&self, run: &Run, after: u64) -> Option<u64>
        requires { 0 < length run.now.indices }
        ensures least { (footprints : Footprints) → IsIndexOf self.now footprints →
            IsLeastAfter (λ n. list_any (λ p. met_by (footprints n) (cell_of run.now.row p)) run.now.indices) after result }
        ensures above { IfSome result (λ j. after < j) }
    {
        let touched = self.touched.least_in(&run.row, &run.indices, after);
        let first = earlier(touched, self.read.least_in(&run.row, &run.indices, after));
        match family_of(&run.row, Marking::Families) {
            Some(family) => earlier(first, self.read.least_after(&family, after)),
            None => first,
        }
    }

    /// The least number above `after` whose footprint read or touched one of the cells, asked one by one.
    fn met_each(&self, cells: &ChangeRun, after: u64) -> Option<u64>
        ensures least { (footprints : Footprints) → IsIndexOf self.now footprints →
            IsLeastAfter (λ n. any_met (footprints n) (changes_in cells.now.form)) after result }
        ensures above { IfSome result (λ j. after < j) }
    {
        let mut first = None;
        for at in 0..cells.len() {
            let cell = cells.cell(at);
            first = earlier(first, self.met_after(&cell, after));
            if is_next(first, after) {
                return first;
            }
        }
        first
    }

    /// The least number above `after` whose footprint read or touched one of the cells. Few cells are
    /// asked one by one; others all together, but for the first, which may be met by the number right above already.
    fn met_in(&self, cells: &ChangeRun, after: u64) -> Option<u64>
        ensures least { (footprints : Footprints) → IsIndexOf self.now footprints →
            IsLeastAfter (λ n. any_met (footprints n) (changes_in cells.now.form)) after result }
        ensures above { IfSome result (λ j. after < j) }
    {
        if cells.len() < LEAST {
            return self.met_each(cells, after);
        }
        let first = self.met_after(&cells.cell(0), after);
        if is_next(first, after) {
            return first;
        }
        match Run::of_cells(self.touched.alloc, cells) {
            None => self.met_each(cells, after),
            Some(run) => self.met_together(&run, after),
        }
    }

    /// The least number above `after` whose footprint read or touched one of the cells of runs.
    fn met_in_runs(&self, runs: &[ChangeRun], after: u64) -> Option<u64>
        ensures least { (footprints : Footprints) → IsIndexOf self.now footprints →
            IsLeastAfter (λ n. any_met (footprints n) (all_changes runs.now)) after result }
        ensures above { IfSome result (λ j. after < j) }
    {
        let mut first = None;
        for run in runs {
            first = earlier(first, self.met_in(run, after));
            if is_next(first, after) {
                return first;
            }
        }
        first
    }

    /// The least number above `after` whose footprint read or touched the cell of a change; none where there is no change.
    fn met_first(&self, first: &Option<CellChange>, after: u64) -> Option<u64>
        ensures least { (footprints : Footprints) → IsIndexOf self.now footprints →
            IsLeastAfter (λ n. any_met (footprints n) (in_first first.now)) after result }
        ensures above { IfSome result (λ j. after < j) }
    {
        match first {
            None => None,
            Some(x) => self.met_after(x.as_cell(), after),
        }
    }

    /// The least number above `after` whose footprint needs one that wrote the cells.
    pub fn first_to_block_undo(&self, before: &Changes, after: u64) -> Option<u64>
        ensures least { (footprints : Footprints) → IsIndexOf self.now footprints → IsLeastAfter (λ n. blocks_undo before.now (footprints n)) after result }
        ensures above { IfSome result (λ j. after < j) }
    {
        let (first, runs) = before.parts();
        earlier(self.met_first(&first, after), self.met_in_runs(runs, after))
    }

    /// The least number above `after` whose footprint touched the place of one of the patterns.
    fn first_to_touch(&self, reads: &[Pattern], after: u64) -> Option<u64>
        ensures { (footprints : Footprints) → IsIndexOf self.now footprints → IsLeastAfter (λ n. touched_under (footprints n) reads.now) after result }
    {
        let mut first = None;
        for x in reads {
            first = earlier(first, self.touched_after(x, after));
        }
        first
    }

    /// The least number above `after` whose footprint touched the cell.
    fn touched_at(&self, cell: &Cell, after: u64) -> Option<u64>
        ensures { (footprints : Footprints) → IsIndexOf self.now footprints → IsLeastAfter (λ n. touched_by (footprints n) (own cell.now)) after result }
    {
        self.touched.least_after(&own(cell), after)
    }

    /// The least number above `after` whose footprint touched one of the cells of a run.
    fn touched_together(&self, run: &Run, after: u64) -> Option<u64>
        ensures { (footprints : Footprints) → IsIndexOf self.now footprints →
            IsLeastAfter (λ n. list_any (λ p. touched_by (footprints n) (own (cell_of run.now.row p))) run.now.indices) after result }
    {
        self.touched.least_in(&run.row, &run.indices, after)
    }

    /// The least number above `after` whose footprint touched one of the cells, asked one by one.
    fn touched_each(&self, cells: &ChangeRun, after: u64) -> Option<u64>
        ensures { (footprints : Footprints) → IsIndexOf self.now footprints →
            IsLeastAfter (λ n. list_any (λ x. touched_by (footprints n) (own x.cell)) (changes_in cells.now.form)) after result }
    {
        let mut first = None;
        for at in 0..cells.len() {
            let cell = cells.cell(at);
            first = earlier(first, self.touched_at(&cell, after));
            if is_next(first, after) {
                return first;
            }
        }
        first
    }

    /// The least number above `after` whose footprint touched one of the cells. Few cells are asked one by one;
    /// others all together, but for the first, which may be touched by the number right above already.
    fn touched_in(&self, cells: &ChangeRun, after: u64) -> Option<u64>
        ensures { (footprints : Footprints) → IsIndexOf self.now footprints →
            IsLeastAfter (λ n. list_any (λ x. touched_by (footprints n) (own x.cell)) (changes_in cells.now.form)) after result }
    {
        if cells.len() < LEAST {
            return self.touched_each(cells, after);
        }
        let first = self.touched_at(&cells.cell(0), after);
        if is_next(first, after) {
            return first;
        }
        match Run::of_cells(self.touched.alloc, cells) {
            None => self.touched_each(cells, after),
            Some(run) => self.touched_together(&run, after),
        }
    }

    /// The least number above `after` whose footprint touched one of the cells of runs.
    fn touched_in_runs(&self, runs: &[ChangeRun], after: u64) -> Option<u64>
        ensures { (footprints : Footprints) → IsIndexOf self.now footprints →
            IsLeastAfter (λ n. list_any (λ x. touched_by (footprints n) (own x.cell)) (all_changes runs.now)) after result }
    {
        let mut first = None;
        for run in runs {
            first = earlier(first, self.touched_in(run, after));
            if is_next(first, after) {
                return first;
            }
        }
        first
    }

    /// The least number above `after` whose footprint touched the cell of a change; none where there is no change.
    fn touched_first(&self, first: &Option<CellChange>, after: u64) -> Option<u64>
        ensures { (footprints : Footprints) → IsIndexOf self.now footprints →
            IsLeastAfter (λ n. list_any (λ x. touched_by (footprints n) (own x.cell)) (in_first first.now)) after result }
    {
        match first {
            None => None,
            Some(x) => self.touched_at(x.as_cell(), after),
        }
    }

    /// The least number above `after` whose footprint touched the place of one of the patterns that name the cells, one each.
    fn first_to_touch_cells(&self, cells: &Changes, after: u64) -> Option<u64>
        ensures { (footprints : Footprints) → IsIndexOf self.now footprints →
            IsLeastAfter (λ n. touched_under (footprints n) (patterns_of cells.now)) after result }
    {
        let (first, runs) = cells.parts();
        earlier(
            self.touched_first(&first, after),
            self.touched_in_runs(runs, after),
        )
    }

    /// The least number above `after` whose footprint touched the place of a pattern that stands alone.
    fn first_to_touch_one(&self, pattern: &Pattern, after: u64) -> Option<u64>
        ensures { (footprints : Footprints) → IsIndexOf self.now footprints →
            IsLeastAfter (λ n. touched_under (footprints n) (pattern.now ∷ [])) after result }
    {
        self.touched_after(pattern, after)
    }

    /// The least number above `after` whose footprint touched the place of one of the patterns of a run.
    fn first_to_touch_run(&self, run: &ReadRun, after: u64) -> Option<u64>
        ensures { (footprints : Footprints) → IsIndexOf self.now footprints →
            IsLeastAfter (λ n. touched_under (footprints n) (read_in run.now)) after result }
    {
        match run {
            ReadRun::Single(pattern) => self.first_to_touch_one(pattern, after),
            ReadRun::Cells(cells) => self.first_to_touch_cells(cells, after),
        }
    }

    /// The least number above `after` whose footprint touched the place of one of the patterns of runs.
    fn first_to_touch_runs(&self, runs: &[ReadRun], after: u64) -> Option<u64>
        ensures { (footprints : Footprints) → IsIndexOf self.now footprints →
            IsLeastAfter (λ n. touched_under (footprints n) (all_read runs.now)) after result }
    {
        let mut first = None;
        for run in runs {
            first = earlier(first, self.first_to_touch_run(run, after));
        }
        first
    }

    /// The least number above `after` whose footprint touched a cell that one of the patterns names, or one of those of the runs
    /// behind them.
    pub fn first_writer(&self, reads: &[Pattern], runs: &[ReadRun], after: u64) -> Option<u64>
        ensures { (footprints : Footprints) → IsIndexOf self.now footprints →
            IsLeastAfter (λ n. touched_one_of (footprints n) (reads.now ++ all_read runs.now)) after result }
    {
        earlier(
            self.first_to_touch(reads, after),
            self.first_to_touch_runs(runs, after),
        )
    }

    /// The least number above `after` whose footprint needs, or is needed by, one with these reads and changes.
    pub fn first_to_block_redo(
        &self,
        reads: &[Pattern],
        runs: &[ReadRun],
        delta: &Changes,
        after: u64,
    ) -> Option<u64>
        ensures { (footprints : Footprints) → IsIndexOf self.now footprints →
            IsLeastAfter (λ n. blocks_redo (footprint (reads.now ++ all_read runs.now) delta.now) (footprints n)) after result }
    {
        earlier(
            self.first_to_block_undo(delta, after),
            self.first_writer(reads, runs, after),
        )
    }
}
