//! Runs: the elements, members or indices inside of one object, by their indices in ascending order.

ghost use Rattle.std.specs.Prelude.{◌≡◌, ◌<◌, ◌≤◌, Bool, true, IfSome, IsTrue, length, map};
ghost use Rattle.std.specs.List.{list_any};
ghost use Rattle.wb_cells.specs.Runs.{cell_of, changes_in, packed_changes, labelled_changes, rectangle_entries, numbered_entries};
ghost use Rattle.wb_cells.specs.Shapes.{indices};
ghost use Rattle.wb_footprints.specs.declared.places.marking.Marking.{Marking};
ghost use Rattle.wb_footprints.specs.declared.places.place.Place.{Place};
ghost use Rattle.wb_cells.specs.declared.values.index.Index.{Index};
ghost use Rattle.wb_footprints.specs.Points.{Coordinates};
ghost use Rattle.wb_footprints.specs.Places.{family};
ghost use Rattle.wb_footprints.specs.Rows.{AreOfRow, AreAt};
ghost use Rattle.wb_footprints.specs.Footprints.{family_by, marked_at, run_marked};

use crate::places::indices::Indices;
use crate::places::label_list::LabelList;
use crate::places::labels::Labels;
use crate::places::marking::Marking;
use crate::places::part::{Part, Slot};
use crate::places::place::Place;
use crate::places::points::{Points, with_room};
use std::alloc::Global;
use wb_cells::{
    ChangeRun, IndexedRow, LabelChanges, Packed, Point, RectangleChanges, RectangleNumbers, RunForm,
};

/// So many cells at least go into one block.
pub(crate) const LEAST: usize = 64;

/// The row that the cells of a run are of, if they are of one.
pub(crate) fn row_of(form: &RunForm) -> Option<IndexedRow>
    ensures { IfSome result (λ row. AreOfRow row (changes_in form.now)) }
{
    match form {
        RunForm::One(_) => None,
        RunForm::Rank1(line) => Some(*line.row()),
        RunForm::Rank2(plane) => Some(*plane.row()),
        RunForm::Rank3(solid) => Some(*solid.row()),
        RunForm::Labels(labels) => Some(*labels.row()),
        RunForm::Rectangle(rectangle) => Some(*rectangle.row()),
        RunForm::Numbers(rectangle) => Some(*rectangle.row()),
    }
}

/// The place of the family of the cells of a row, if they are marked at that too.
pub(crate) fn family_of(row: &IndexedRow, marking: Marking) -> Option<Place>
    ensures { (i : Index) → result ≡ family_by marking (cell_of row.now i) }
{
    match marking {
        Marking::Own => None,
        Marking::Families => named_family(row),
    }
}

// The place of their family, where patterns name it.
fn named_family(row: &IndexedRow) -> Option<Place>
    ensures { (i : Index) → result ≡ family (cell_of row.now i) }
{
    match row {
        IndexedRow::Inside(_) => None,
        IndexedRow::Members(domain) => Some(Place::Of(*domain, Part::Slot(Slot::Members))),
        IndexedRow::Elements(array) => Some(Place::Of(*array, Part::Slot(Slot::Elements))),
    }
}

/// Cells of one row, by their indices in ascending order.
#[derive(Drop)]
pub struct Run {
    pub(crate) row: IndexedRow,
    pub(crate) indices: Indices,
}

impl Run {
    /// Whether the other cells are seen to be among these.
    pub(crate) fn has_all(&self, other: &Run) -> bool
        ensures { IsTrue result → (self.now.row ≡ other.now.row) × ((f : Index → Bool) → list_any f other.now.indices ≡ true → list_any f self.now.indices ≡ true) }
    {
        if !self.row.is_same(&other.row) {
            return false;
        }
        if self.indices.is_same(&other.indices) {
            return true;
        }
        self.indices.has_all(&other.indices)
    }

    /// The run that cells are, in whichever order, if all are of one row, and there is memory.
    pub(crate) fn of_cells(alloc: Global, cells: &ChangeRun) -> Option<Run>
        ensures some { IfSome result (λ run. 0 < length run.indices) }
        ensures cells { IfSome result (λ run. AreAt run.row run.indices (changes_in cells.now.form)) }
        ensures marked { IfSome result (λ run. (m : Marking) (q : Place) →
            marked_at m (changes_in cells.now.form) q ≡ run_marked m run.row run.indices q) }
    {
        let run = Run::of_form(alloc, cells.form())?;
        if run.indices.len() == 0 {
            return None;
        }
        Some(run)
    }

    // The run that cells are, in whichever order, if all are of one row, and there is memory; it may be of no cells.
    fn of_form(alloc: Global, form: &RunForm) -> Option<Run>
        ensures { IfSome result (λ run. AreAt run.row run.indices (changes_in form.now)) }
    {
        match form {
            RunForm::One(_) => None,
            RunForm::Rank1(line) => packed_run(alloc, line),
            RunForm::Rank2(plane) => packed_run(alloc, plane),
            RunForm::Rank3(solid) => packed_run(alloc, solid),
            RunForm::Labels(labels) => labelled_run(alloc, labels),
            RunForm::Rectangle(rectangle) => Some(rectangle_run(rectangle)),
            RunForm::Numbers(rectangle) => numbers_run(rectangle),
        }
    }
}

// The run that packed cells are, if there is memory.
fn packed_run<const R: usize>(alloc: Global, packed: &Packed<R>) -> Option<Run>
    requires { R ≤ 3 }
    ensures { IfSome result (λ run. AreAt run.row run.indices (packed_changes packed.now.row packed.now.changes.items)) }
{
    let points = packed_points(alloc, packed.changes())?;
    Some(Run {
        row: *packed.row(),
        indices: Indices::points(points),
    })
}

// The points of packed changes, if there is memory.
fn packed_points<const R: usize>(
    alloc: Global,
    changes: &[([i64; R], Option<i64>)],
) -> Option<Points>
    requires { R ≤ 3 }
    ensures { IfSome result (λ ps. (f : Coordinates → Bool) → list_any f ps ≡ list_any f (map (λ e. e.0) changes.now)) }
{
    let mut points = with_room(alloc, changes.len())?;
    for change in changes {
        match points.push(Point::of(&change.0)) {
            Ok(()) => {}
            Err(_) => return None,
        }
    }
    Some(Points::sorted(points))
}

// The labels of changes, if there is memory for them.
fn labels_of(alloc: Global, changes: &LabelChanges) -> Option<LabelList>
    ensures { IfSome result (λ list. list ≡ map (λ e. e.0) changes.now.1) }
{
    let mut list = LabelList::new(alloc);
    for at in 0..changes.len() {
        match list.push(changes.text(at)) {
            Ok(()) => {}
            Err(_) => return None,
        }
    }
    Some(list)
}

// The run that the cells at labels are, if there is memory.
fn labelled_run(alloc: Global, changes: &LabelChanges) -> Option<Run>
    ensures { IfSome result (λ run. AreAt run.row run.indices (labelled_changes changes.now.0 changes.now.1)) }
{
    let list = labels_of(alloc, changes)?;
    let labels = Labels::sorted(alloc, list)?;
    Some(Run {
        row: *changes.row(),
        indices: Indices::labels(labels),
    })
}

// The run that the cells at the indices of a rectangle are: as its ranges.
fn rectangle_run(rectangle: &RectangleChanges) -> Run
    ensures { AreAt result.row result.indices
        (packed_changes rectangle.now.row (rectangle_entries rectangle.now.ranges rectangle.now.number)) }
{
    Run {
        row: *rectangle.row(),
        indices: Indices::points(Points::within(rectangle.ranges())),
    }
}

// Whether there is a number for each index of a rectangle, and no more.
fn is_full(rectangle: &RectangleNumbers) -> bool
    ensures { IsTrue result → length rectangle.now.numbers.items ≡ length (indices rectangle.now.ranges) }
{
    rectangle.numbers().len() == rectangle.ranges().size()
}

// The run that the cells at the indices of a rectangle are that get a number each, if each does: as its ranges.
fn numbers_run(rectangle: &RectangleNumbers) -> Option<Run>
    ensures { IfSome result (λ run. AreAt run.row run.indices
        (packed_changes rectangle.now.row (numbered_entries rectangle.now.ranges rectangle.now.numbers.items))) }
{
    if !is_full(rectangle) {
        return None;
    }
    Some(Run {
        row: *rectangle.row(),
        indices: Indices::points(Points::within(rectangle.ranges())),
    })
}
