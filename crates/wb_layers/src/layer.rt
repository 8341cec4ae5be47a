//! Changes that are laid over a workbook.

ghost use Rattle.std.specs.Prelude.{◌≡◌, [], Option, IfOk};
ghost use Rattle.std.specs.Bool.{Decides};
ghost use Rattle.std.specs.List.{list_any};
ghost use Rattle.selective_undo.specs.Changes.{apply};
ghost use Rattle.selective_undo.specs.Together.{left_in, together};
ghost use Rattle.wb_cells.specs.Cells.{Cells, cell_cmp, matches};
ghost use Rattle.wb_cells.specs.Readers.{seen};
ghost use Rattle.wb_cells.specs.declared.cells.value.Value.{Value as value_type};
ghost use Rattle.wb_layers.specs.Places.{left_by};

use crate::{laying, overlaid};
use std::alloc::Global;
use std::collections::BTreeMap;
use std::marker::Model;
use wb_cells::{Cell, CellChange, Delta, Pattern, Value};
use wb_range::NoMemory;

/// Changes, each cell once, of which each is found by its cell. Contracts see their list.
pub(crate) struct Layer {
    alloc: Global,
    changes: Vec<CellChange>,
    places: BTreeMap<Cell, usize>,
}

// In a function of its own, so that what holds one need not prove anew how each field is let go.
impl Drop for Layer {
    fn drop(self) {
        let Layer {
            alloc: _,
            changes: _,
            places: _,
        } = self;
    }
}

impl Model for Layer {
    ghost use Rattle.std.specs.Prelude.{List};
    ghost use Rattle.selective_undo.specs.declared.Change.{Change};
    ghost use Rattle.wb_cells.specs.declared.cells.cell.Cell.{Cell};
    ghost use Rattle.wb_cells.specs.declared.cells.value.Value as held;
    ghost use Rattle.wb_layers.specs.Places.{IsFound};

    ghost Value = { List (Change Cell held.Value) };

    ghost view = { λ a. a.changes.items };

    ghost invariant = { λ a. IsFound a.places a.changes.items };
}

impl Layer {
    /// No changes.
    pub(crate) fn new(alloc: Global) -> Layer
        ensures { result ≡ [] }
    {
        Layer {
            alloc,
            changes: Vec::new(alloc),
            places: BTreeMap::new(alloc),
        }
    }

    /// Whether there are no changes.
    pub(crate) fn is_empty(&self) -> bool
        ensures { Decides result (self.now ≡ []) }
    {
        // For the proof: the invariant, which speaks of the places too.
        let _ = &self.places;
        self.changes.is_empty()
    }

    /// The change of a cell, if there is one.
    pub(crate) fn change(&self, cell: &Cell) -> Option<CellChange>
        ensures { (there : Option value_type) → left_in cell_cmp self.now cell.now there ≡ left_by result there }
    {
        match self.places.get(cell) {
            Some(place) => Some(self.changes[*place]),
            None => None,
        }
    }

    /// Whether a pattern names the cell of one of the changes.
    pub(crate) fn touches(&self, pattern: &Pattern) -> bool
        ensures { result ≡ list_any (λ x. matches pattern.now x.cell) self.now }
    {
        // For the proof: the invariant, which speaks of the changes too.
        let _ = &self.changes;
        overlaid::touches(&self.places, pattern)
    }

    /// What a look at a pattern shows after the changes, where it shows these cells before them; `NoMemory` where none is left.
    pub(crate) fn over(
        &self,
        shown: Vec<(Cell, Value)>,
        pattern: &Pattern,
    ) -> Result<Vec<(Cell, Value)>, NoMemory>
        ensures { (s : Cells) → shown.items ≡ seen s pattern.now → IfOk result (λ v. v.items ≡ seen (apply self.now s) pattern.now) }
    {
        let own = overlaid::named(self.alloc, &self.changes, &self.places, pattern)?;
        overlaid::over(self.alloc, &own, shown)
    }

    /// These changes and then others, each cell once; `NoMemory` where none is left.
    pub(crate) fn lay(self, delta: &Delta) -> Result<Layer, NoMemory>
        ensures { IfOk result (λ l. l ≡ together cell_cmp self delta.now) }
    {
        let Layer {
            alloc,
            mut changes,
            mut places,
        } = self;
        match laying::lay_all(&mut changes, &mut places, delta.changes()) {
            Ok(()) => Ok(Layer {
                alloc,
                changes,
                places,
            }),
            Err(_) => Err(NoMemory),
        }
    }

    /// The changes, in the order in which their cells came; `NoMemory` where none is left.
    pub(crate) fn into_delta(self) -> Result<Delta, NoMemory>
        ensures { IfOk result (λ d. d ≡ self) }
    {
        // For the proof: the invariant, which speaks of the places too.
        let _ = &self.places;
        laying::delta_of(self.alloc, &self.changes)
    }
}
