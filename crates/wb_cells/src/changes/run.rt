//! Changes that stand one after another, packed where they may be.

ghost use Rattle.std.specs.Prelude.{◌≡◌, ◌<◌, [], ◌∷◌, ◌++◌, true, false, length, get_or, Ok, OnErr, IfOk};
ghost use Rattle.std.specs.Bool.{Decides};
ghost use Rattle.selective_undo.specs.declared.Change.{Change};
ghost use Rattle.wb_cells.specs.declared.cells.cell.Cell.{Cell as cell_type};
ghost use Rattle.wb_cells.specs.declared.cells.value.Value.{Value as value_type};
ghost use Rattle.wb_cells.specs.Cells.{count_of};
ghost use Rattle.wb_cells.specs.Runs.{changes_in, indexed_change, HasPlace};

use crate::cells::cell::Cell;
use crate::changes::change::{CellChange, counted_one};
use crate::changes::indexed::IndexedChange;
use crate::changes::labels::LabelChanges;
use crate::changes::numbers::RectangleNumbers;
use crate::changes::packed::Packed;
use crate::changes::rectangle::RectangleChanges;
use crate::changes::row::IndexedRow;
use std::alloc::Global;
use wb_range::NoMemory;

/// How the changes of a run are kept.
#[derive(Drop)]
pub enum RunForm {
    /// One change.
    One(CellChange),
    /// Changes at integers.
    Rank1(Packed<1>),
    /// Changes at pairs.
    Rank2(Packed<2>),
    /// Changes at triples.
    Rank3(Packed<3>),
    /// Changes at labels.
    Labels(LabelChanges),
    /// The same number, or none, at each index of a rectangle.
    Rectangle(RectangleChanges),
    /// A number at each index of a rectangle.
    Numbers(RectangleNumbers),
}

/// Changes that stand one after another in a list, from a place on.
#[derive(Drop)]
pub struct ChangeRun {
    pub(crate) start: usize,
    pub(crate) form: RunForm,
}

impl RunForm {
    // One change.
    pub(crate) fn of(alloc: Global, change: &CellChange) -> Result<RunForm, NoMemory>
        ensures { IfOk result (λ f. changes_in f ≡ change.now ∷ []) }
    {
        let Some(row) = IndexedRow::of(change.as_cell()) else {
            return Ok(RunForm::One(*change));
        };
        if let Some(line) = Packed::of(alloc, &row, change)? {
            return Ok(RunForm::Rank1(line));
        }
        if let Some(plane) = Packed::of(alloc, &row, change)? {
            return Ok(RunForm::Rank2(plane));
        }
        if let Some(solid) = Packed::of(alloc, &row, change)? {
            return Ok(RunForm::Rank3(solid));
        }
        if let Some(labels) = LabelChanges::of(alloc, &row, change)? {
            return Ok(RunForm::Labels(labels));
        }
        Ok(RunForm::One(*change))
    }

    // Adds a change behind the others, if it may be packed with them.
    pub(crate) fn add(&mut self, change: &CellChange) -> Result<bool, NoMemory>
        ensures added { result ≡ Ok true → changes_in self.new ≡ changes_in self.old ++ change.now ∷ [] }
        ensures other { result ≡ Ok false → changes_in self.new ≡ changes_in self.old }
        ensures err { OnErr result (changes_in self.new ≡ changes_in self.old) }
    {
        match self {
            RunForm::One(_) => Ok(false),
            RunForm::Rank1(line) => line.add(change),
            RunForm::Rank2(plane) => plane.add(change),
            RunForm::Rank3(solid) => solid.add(change),
            RunForm::Labels(labels) => labels.add(change),
            RunForm::Rectangle(_) => Ok(false),
            RunForm::Numbers(_) => Ok(false),
        }
    }
}

impl RunForm {
    // Adds a change of a cell that has an index behind the others, if it may be packed with them.
    pub(crate) fn add_indexed(&mut self, change: &IndexedChange) -> Result<bool, NoMemory>
        ensures added { result ≡ Ok true → changes_in self.new ≡ changes_in self.old ++ indexed_change change.now ∷ [] }
        ensures other { result ≡ Ok false → changes_in self.new ≡ changes_in self.old }
        ensures err { OnErr result (changes_in self.new ≡ changes_in self.old) }
    {
        match self {
            RunForm::One(_) => Ok(false),
            RunForm::Rank1(line) => line.add_indexed(change),
            RunForm::Rank2(plane) => plane.add_indexed(change),
            RunForm::Rank3(solid) => solid.add_indexed(change),
            RunForm::Labels(labels) => labels.add_indexed(change),
            RunForm::Rectangle(_) => Ok(false),
            RunForm::Numbers(_) => Ok(false),
        }
    }
}

impl RunForm {
    /// How many changes there are.
    pub fn len(&self) -> usize
        ensures { result ≡ length (changes_in self.now) }
    {
        match self {
            RunForm::One(_) => 1,
            RunForm::Rank1(line) => line.len(),
            RunForm::Rank2(plane) => plane.len(),
            RunForm::Rank3(solid) => solid.len(),
            RunForm::Labels(labels) => labels.len(),
            RunForm::Rectangle(rectangle) => rectangle.len(),
            RunForm::Numbers(rectangle) => rectangle.len(),
        }
    }

    // How many of the cells are counted: all but `In`.
    pub(crate) fn count(&self) -> usize
        ensures { result ≡ count_of (changes_in self.now) }
    {
        match self {
            RunForm::One(change) => counted_one(change),
            RunForm::Rank1(line) => line.count(),
            RunForm::Rank2(plane) => plane.count(),
            RunForm::Rank3(solid) => solid.count(),
            RunForm::Labels(labels) => labels.count(),
            RunForm::Rectangle(rectangle) => rectangle.count(),
            RunForm::Numbers(rectangle) => rectangle.count(),
        }
    }
}

impl ChangeRun {
    /// How the changes are kept.
    pub fn form(&self) -> &RunForm
        ensures { result.now ≡ self.now.form }
    {
        &self.form
    }

    /// How many changes there are.
    pub fn len(&self) -> usize
        ensures { result ≡ length (changes_in self.now.form) }
    {
        self.form.len()
    }

    /// The change at a place, counted from the first of the run.
    pub fn change(&self, at: usize) -> CellChange
        requires { at < length (changes_in self.now.form) }
        ensures { result ≡ get_or (changes_in self.now.form) at result }
    {
        match &self.form {
            RunForm::One(change) => *change,
            RunForm::Rank1(line) => line.change(at),
            RunForm::Rank2(plane) => plane.change(at),
            RunForm::Rank3(solid) => solid.change(at),
            RunForm::Labels(labels) => labels.change(at),
            RunForm::Rectangle(rectangle) => rectangle.change(at),
            RunForm::Numbers(rectangle) => rectangle.change(at),
        }
    }

    /// The cell that changes at a place, counted from the first of the run.
    pub fn cell(&self, at: usize) -> Cell
        requires { at < length (changes_in self.now.form) }
        ensures { (d : Change cell_type value_type) → result ≡ (get_or (changes_in self.now.form) at d).cell }
    {
        match &self.form {
            RunForm::One(change) => change.cell(),
            RunForm::Rank1(line) => line.cell(at),
            RunForm::Rank2(plane) => plane.cell(at),
            RunForm::Rank3(solid) => solid.cell(at),
            RunForm::Labels(labels) => labels.cell(at),
            RunForm::Rectangle(rectangle) => rectangle.cell(at),
            RunForm::Numbers(rectangle) => rectangle.cell(at),
        }
    }

    // Whether the run has a place of the list.
    pub(crate) fn has_place(&self, at: usize) -> bool
        ensures { Decides result (HasPlace self.now at) }
    {
        if at < self.start {
            return false;
        }
        at - self.start < self.len()
    }
}
