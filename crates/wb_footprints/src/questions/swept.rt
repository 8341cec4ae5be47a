//! The cells that a sweep over the index went through, and the families that it asked for.

ghost use Rattle.std.specs.Prelude.{◌≡◌, ℕ, ◌||◌, Bool, true, IsTrue, IfSome, OnOk};
ghost use Rattle.std.specs.List.{list_any, Contains};
ghost use Rattle.std.specs.Ordering.{eq_by_cmp};
ghost use Rattle.wb_cells.specs.Cells.{cell_cmp};
ghost use Rattle.wb_footprints.specs.declared.foot_index.FootIndex.{FootIndex};
ghost use Rattle.wb_footprints.specs.Numbers.{Numbers};
ghost use Rattle.wb_footprints.specs.Marks.{marked};
ghost use Rattle.wb_footprints.specs.Places.{family};
ghost use Rattle.wb_cells.specs.declared.values.index.Index.{Index};
ghost use Rattle.wb_cells.specs.declared.values.index.Index.TheVariants.{Point as at_point, Text as at_text};
ghost use Rattle.wb_footprints.specs.Relation.{Sets};
ghost use Rattle.wb_footprints.specs.Swept.{AreSwept, AreWaiting, FailsBehind};

use crate::marks::key_marks::Marks;
use crate::places::indices::{HeldIndices, Indices};
use crate::places::label_list::LabelList;
use crate::places::labels::Labels;
use crate::places::points::Points;
use crate::places::runs::Run;
use std::alloc::Global;
use wb_cells::{AnyIndex, Cell, Index, IndexedRow, Point};
use wb_range::NoMemory;
use wb_sets::Label;

// So many runs at most are kept whole: each run that comes is compared with them.
const MOST: usize = 64;

/// The cells that a sweep over the index went through, from the least number up, and the families that it asked for, each by
/// one cell of it: what met one of them waits already, so that each is asked for once, however many edits touched it. The first
/// runs that it went through are kept whole, with no cell of theirs alone, so that one whose cells are among those of another is
/// known without a search for each of them.
#[derive(Drop)]
pub struct SweptCells {
    pub(crate) cells: Marks<Cell>,
    pub(crate) runs: Vec<Run>,
    pub(crate) families: Marks<Cell>,
}

impl SweptCells {
    /// A sweep that went through no cell and asked for no family.
    pub fn new(alloc: Global) -> SweptCells
        ensures { (index : FootIndex) (waiting : Numbers) (after : ℕ) → AreSwept index result waiting after }
    {
        let cells = Marks::new(alloc);
        let runs = Vec::new(alloc);
        let families = Marks::new(alloc);
        SweptCells {
            cells,
            runs,
            families,
        }
    }

    /// Whether the sweep went through the cell.
    pub(crate) fn has(&self, cell: &Cell) -> bool
        ensures { IsTrue result → (k : ℕ) × (marked cell_cmp self.now.cells cell.now k ≡ true) }
    {
        self.cells.least_after(*cell, 0).is_some()
    }

    /// Whether the sweep asked for a family by the cell.
    pub(crate) fn has_family(&self, cell: &Cell) -> bool
        ensures { IsTrue result → (k : ℕ) × (marked cell_cmp self.now.families cell.now k ≡ true) }
    {
        self.families.least_after(*cell, 0).is_some()
    }

    /// The sweep goes through the cell.
    pub(crate) fn add(&mut self, cell: &Cell) -> Result<(), NoMemory>
        ensures cells { OnOk result (Sets (marked cell_cmp self.old.cells) (marked cell_cmp self.new.cells) (eq_by_cmp cell_cmp cell.now) 1 true) }
        ensures runs { self.new.runs ≡ self.old.runs }
        ensures families { self.new.families ≡ self.old.families }
    {
        self.cells.add(*cell, 1)
    }

    /// The sweep asks for a family by the cell.
    pub(crate) fn add_family(&mut self, cell: &Cell) -> Result<(), NoMemory>
        ensures families { OnOk result (Sets (marked cell_cmp self.old.families) (marked cell_cmp self.new.families) (eq_by_cmp cell_cmp cell.now) 1 true) }
        ensures cells { self.new.cells ≡ self.old.cells }
        ensures runs { self.new.runs ≡ self.old.runs }
    {
        self.families.add(*cell, 1)
    }

    /// Whether the sweep keeps a run whole among whose cells all cells of this one are.
    pub(crate) fn covers(&self, run: &Run) -> bool
        ensures { IsTrue result → (index : FootIndex) (waiting : Numbers) (after : ℕ) → AreSwept index self.now waiting after →
            AreWaiting index run.now.row run.now.indices waiting after }
    {
        for kept in &self.runs {
            if kept.has_all(run) {
                return true;
            }
        }
        false
    }

    /// Whether there is room for a run more that is kept whole.
    pub(crate) fn has_room(&self) -> bool {
        self.runs.len() < MOST
    }

    /// The sweep keeps a run whole of whose cells all wait, as long as it has room for one.
    pub(crate) fn keep(&mut self, run: Run) -> Result<(), NoMemory>
        ensures { OnOk result ((index : FootIndex) (waiting : Numbers) (after : ℕ) → AreSwept index self.old waiting after →
            AreWaiting index run.row run.indices waiting after → AreSwept index self.new waiting after) }
    {
        if self.runs.len() >= MOST {
            return Ok(());
        }
        match self.runs.push(run) {
            Ok(()) => Ok(()),
            Err(_) => Err(NoMemory),
        }
    }

    /// The sweep goes through the cells of a run.
    pub(crate) fn add_run(&mut self, run: &Run) -> Result<(), NoMemory>
        ensures { OnOk result ((index : FootIndex) (waiting : Numbers) (after : ℕ) → AreSwept index self.old waiting after →
            AreWaiting index run.now.row run.now.indices waiting after → AreSwept index self.new waiting after) }
    {
        for at in 0..run.indices.len() {
            let index = run.indices.index(at);
            self.add(&run.row.cell(index))?;
        }
        Ok(())
    }

    // Adds a point to others where the sweep did not go through its cell.
    fn add_point(
        &self,
        row: &IndexedRow,
        point: &Point,
        points: &mut Vec<Point>,
    ) -> Result<(), NoMemory>
        ensures { OnOk result ((f : Index → Bool) → FailsBehind self.now row.now f →
            list_any (λ p. f (at_point p)) points.new.items ≡ (list_any (λ p. f (at_point p)) points.old.items || f (at_point point.now))) }
    {
        let index = AnyIndex::new(Index::Point(*point));
        if self.has(&row.cell(index)) {
            return Ok(());
        }
        match points.push(*point) {
            Ok(()) => Ok(()),
            Err(_) => Err(NoMemory),
        }
    }

    // Those of the points of a row whose cells the sweep did not go through, if there is memory for them.
    fn new_points(&self, alloc: Global, row: &IndexedRow, all: &Points) -> Option<Points>
        ensures { IfSome result (λ ps. (f : Index → Bool) → FailsBehind self.now row.now f →
            list_any (λ p. f (at_point p)) ps ≡ list_any (λ p. f (at_point p)) all.now) }
    {
        let mut points = Vec::new(alloc);
        for at in 0..all.len() {
            match self.add_point(row, &all.point(at), &mut points) {
                Ok(()) => {}
                Err(_) => return None,
            }
        }
        Some(Points::sorted(points))
    }

    // Adds a label to others where the sweep did not go through its cell.
    fn add_label(
        &self,
        row: &IndexedRow,
        label: &Label,
        list: &mut LabelList,
    ) -> Result<(), NoMemory>
        ensures { OnOk result ((f : Index → Bool) → FailsBehind self.now row.now f →
            list_any (λ t. f (at_text t)) list.new ≡ (list_any (λ t. f (at_text t)) list.old || f (at_text label.now))) }
    {
        let index = AnyIndex::new(Index::Text(*label));
        if self.has(&row.cell(index)) {
            return Ok(());
        }
        list.push_label(label)
    }

    // Those of the labels of a row whose cells the sweep did not go through, if there is memory for them.
    fn new_labels(&self, alloc: Global, row: &IndexedRow, all: &Labels) -> Option<Labels>
        ensures { IfSome result (λ ts. (f : Index → Bool) → FailsBehind self.now row.now f →
            list_any (λ t. f (at_text t)) ts ≡ list_any (λ t. f (at_text t)) all.now) }
    {
        let mut list = LabelList::new(alloc);
        for at in 0..all.len() {
            match self.add_label(row, &all.label(at), &mut list) {
                Ok(()) => {}
                Err(_) => return None,
            }
        }
        Labels::sorted(alloc, list)
    }

    /// The indices of a run whose cells the sweep did not go through, if there is memory for them.
    pub(crate) fn new_indices(&self, alloc: Global, run: &Run) -> Option<Indices>
        ensures { IfSome result (λ is. (f : Index → Bool) → FailsBehind self.now run.now.row f →
            list_any f is ≡ list_any f run.now.indices) }
    {
        match run.indices.held() {
            HeldIndices::Points(points) => {
                let points_left = self.new_points(alloc, &run.row, points)?;
                Some(Indices::points(points_left))
            }
            HeldIndices::Labels(labels) => {
                let labels_left = self.new_labels(alloc, &run.row, labels)?;
                Some(Indices::labels(labels_left))
            }
        }
    }
}

/// A cell by which the family of another is asked for: the same for all cells of a name that are of one kind.
pub(crate) fn of_family(cell: &Cell) -> Cell
    ensures { family result ≡ family cell.now }
{
    let first = AnyIndex::new(Index::Point(Point::single(0)));
    match *cell {
        Cell::Object(name) => Cell::Object(name),
        Cell::Member(name, _) => Cell::Member(name, first),
        Cell::Use(name, _) => Cell::Use(name, name),
        Cell::Element(name, _) => Cell::Element(name, first),
        Cell::Shape(name) => Cell::Shape(name),
        Cell::In(name, _) => Cell::Shape(name),
        Cell::Mapping(name) => Cell::Mapping(name),
        Cell::Implicit(name) => Cell::Implicit(name),
    }
}
