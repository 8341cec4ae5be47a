ghost use Rattle.std.specs.Prelude.{◌≡◌, IfOk, IfErr, OnOk, OnErr, Err, None, IfSome, IfNone, IsSome, option_map};
ghost use Rattle.selective_undo.specs.Changes.{apply, inverse, AllOnce};
ghost use Rattle.wb_cells.specs.Cells.{cell_cmp, saturating_add, count_of};
ghost use Rattle.wb_cells.specs.declared.cells.cell.Cell.TheVariants.{Element};
ghost use Rattle.wb_cells.specs.declared.cells.value.Value.TheVariants.{Number};
ghost use Rattle.wb_book.specs.Kept.{element_set};
ghost use Rattle.wb_cells.specs.MemberRuns.{members_to};
ghost use Rattle.wb_cells.specs.Readers.{elements, members, seen};
ghost use Rattle.wb_cells.specs.Runs.{changes_in};
ghost use Rattle.wb_cells.specs.WellFormed.{IsWellFormed};
ghost use Rattle.std.specs.FinMap as map;

mod parts;
mod readers;

use crate::{after, change, keep, looks};
use std::alloc::Global;
use std::collections::BTreeMap;
use std::marker::Model;
use std::mem;
use wb_arrays::{MoveErr, Mover};
use wb_cells::{
    AnyIndex, Cell, Changes, Delta, Inverse, MemberWalk, Name, Pattern, RunForm, StoredCells,
    Value, clearing_run, members_of,
};
use wb_elements::Elements;
use wb_range::NoMemory;

/// A workbook: its cells, well formed, and how many were set so far.
pub struct Book {
    alloc: Global,
    cells: StoredCells,
    arrays: BTreeMap<Name, Elements>,
    writes: u128,
}

// In a function of its own, so that a crate above need not prove anew how each field is let go.
impl Drop for Book {
    fn drop(self) {
        let Book {
            alloc: _,
            cells: _,
            arrays: _,
            writes: _,
        } = self;
    }
}

impl Model for Book {
    ghost use Rattle.wb_cells.specs.Cells.{Contents, contents_code};

    ghost Value = { Contents };

    ghost coded = { contents_code };

    ghost use Rattle.wb_book.specs.Shelf.{cells_of, IsShelf};

    ghost view = { λ a. record { cells = cells_of a.cells a.arrays; writes = a.writes } };

    ghost invariant = { λ a. IsShelf a.cells a.arrays };
}

impl Book {
    /// The empty workbook.
    pub fn new(alloc: Global) -> Book
        ensures { result ≡ record { cells = map.empty; writes = 0 } }
    {
        Book {
            alloc,
            cells: StoredCells::new(alloc),
            arrays: BTreeMap::new(alloc),
            writes: 0,
        }
    }

    /// What stands in a cell.
    pub fn get(&self, cell: &Cell) -> Option<Value>
        ensures { result ≡ map.get self.now.cells cell.now }
    {
        keep::look(&self.cells, &self.arrays, cell)
    }

    /// The element of an array at an index, if there is one: what stands in its cell, with no value made of it.
    pub fn element(&self, array: &Name, index: &AnyIndex) -> Option<i64>
        ensures { map.get self.now.cells (Element array.now index.now) ≡ option_map Number result }
    {
        // For the proof: the invariant, which speaks of the cells too.
        let _ = &self.cells;
        keep::element(&self.arrays, array, index)
    }

    /// What a look at a pattern shows: the cells that it names and that are there, with their values, in their order.
    pub fn seen(&self, alloc: Global, pattern: &Pattern) -> Result<Vec<(Cell, Value)>, NoMemory>
        ensures { IfOk result (λ v. v.items ≡ seen self.now.cells pattern.now) }
    {
        match pattern {
            Pattern::Elements(array) => {
                let pairs = looks::elements(alloc, &self.arrays, array)?;
                looks::element_cells(alloc, array, pairs.as_slice())
            }
            Pattern::One(cell) => {
                let cell = cell.cell();
                looks::one_cell(alloc, cell, keep::look(&self.cells, &self.arrays, &cell))
            }
            Pattern::Objects => wb_cells::seen(alloc, &self.cells, pattern),
            Pattern::Members(_) => wb_cells::seen(alloc, &self.cells, pattern),
            Pattern::Uses(_) => wb_cells::seen(alloc, &self.cells, pattern),
        }
    }

    /// The members of the sparse or associative domain of a name, ascending, told one after another. No list is made of them,
    /// and it takes no memory.
    pub fn members<'a>(&'a self, domain: &Name) -> MemberWalk<'a>
        ensures { result ≡ members self.now.cells domain.now }
    {
        // For the proof: the invariant, which speaks of the arrays too.
        let _ = &self.arrays;
        members_of(&self.cells, domain)
    }

    /// The changes that clear all members of the sparse or associative domain of a name, in their order, as one run; `None`
    /// where they are to be listed one by one.
    pub fn clearing_run(&self, alloc: Global, domain: &Name) -> Result<Option<RunForm>, NoMemory>
        ensures { IfOk result (λ o. IfSome o (λ f. changes_in f ≡ members_to domain.now None (members self.now.cells domain.now))) }
    {
        // For the proof: the invariant, which speaks of the arrays too.
        let _ = &self.arrays;
        clearing_run(alloc, &self.cells, domain)
    }

    /// The elements of the array of a name, each after its index, in the order of the indices; `NoMemory` where none is
    /// left.
    pub fn elements(&self, name: &Name) -> Result<Vec<(AnyIndex, i64)>, NoMemory>
        ensures { IfOk result (λ v. v.items ≡ elements self.now.cells name.now) }
    {
        // For the proof: the invariant, which speaks of the cells too.
        let _ = &self.cells;
        looks::elements(self.alloc, &self.arrays, name)
    }

    /// Replaces the element of an array at an index, if there is one: what it was. Else nothing changes.
    pub fn replace(&mut self, array: &Name, index: &AnyIndex, value: i64) -> Option<i64>
        // Where the element is there, the change leads to a well-formed workbook.
        requires { IsSome (map.get self.old.cells (Element array.now index.now)) → IsWellFormed (apply (element_set array.now index.now value) self.old.cells) }

        // What it was, the cells, and how many were set so far.
        ensures was { map.get self.old.cells (Element array.now index.now) ≡ option_map Number result }
        ensures cells { IfSome result (λ was. self.new.cells ≡ apply (element_set array.now index.now value) self.old.cells) }
        ensures writes { IfSome result (λ was. self.new.writes ≡ saturating_add self.old.writes 1) }

        // Where there is no element, nothing has changed.
        ensures none { IfNone result (self.new ≡ self.old) }
    {
        // For the proof: the invariant, which speaks of the cells too.
        let _ = &self.cells;
        match keep::replace(&mut self.arrays, array, index, &value) {
            Some(was) => {
                self.writes = self.writes.saturating_add(1);
                Some(was)
            }
            None => None,
        }
    }

    // Makes the changes, or none where the mover refuses or no memory is left.
    fn change<V: Mover>(&mut self, changes: &Changes, mover: &V) -> Result<(), MoveErr>
        requires once { AllOnce cell_cmp changes.now }
        requires formed { IsWellFormed (apply changes.now self.old.cells) }
        ensures cells { OnOk result (self.new.cells ≡ apply changes.now self.old.cells) }
        ensures writes { self.new.writes ≡ self.old.writes }
        ensures err { OnErr result (self.new ≡ self.old) }
        ensures no_thread { result ≡ Err MoveErr.NoThread → V.may_lack_threads mover.now }
    {
        let mut arrays = mem::replace(&mut self.arrays, BTreeMap::new(self.alloc));
        let made = change::change_all(self.alloc, &mut self.cells, &mut arrays, changes, mover);
        self.arrays = arrays;
        made
    }

    /// Makes the changes, or none where the mover refuses or no memory is left, and gives what takes them back.
    pub fn apply<V: Mover>(&mut self, delta: Delta, mover: &V) -> Result<Inverse, (Delta, MoveErr)>
        // The changes lead to a well-formed workbook.
        requires { IsWellFormed (apply delta self.old.cells) }

        // What takes them back, the cells, and how many were set so far.
        ensures inverse { IfOk result (λ i. i ≡ inverse delta self.old.cells) }
        ensures cells { OnOk result (self.new.cells ≡ apply delta self.old.cells) }
        ensures writes { OnOk result (self.new.writes ≡ saturating_add self.old.writes (count_of delta)) }

        // After an error nothing has changed, and the changes come back.
        ensures err { OnErr result (self.new ≡ self.old) }
        ensures given_back { IfErr result (λ e. e.0 ≡ delta) }

        // Only by a mover that may lack threads does it fail for want of one.
        ensures no_thread { IfErr result (λ e. e.1 ≡ MoveErr.NoThread → V.may_lack_threads mover.now) }
    {
        let Ok(before) = after::values_before(
            self.alloc,
            &self.cells,
            &self.arrays,
            delta.changes(),
        ) else {
            return Err((delta, MoveErr::NoMemory));
        };
        match self.change(delta.changes(), mover) {
            Ok(()) => {
                self.writes = self.writes.saturating_add(delta.count() as u128);
                Ok(Inverse::new(before))
            }
            Err(why) => Err((delta, why)),
        }
    }

    /// Sets the cells back to what they were before, each cell once, or none where the mover refuses or no memory is left.
    pub fn revert<V: Mover>(&mut self, before: &Changes, mover: &V) -> Result<(), MoveErr>
        requires once { AllOnce cell_cmp before.now }
        requires well_formed { IsWellFormed (apply before.now self.old.cells) }
        ensures cells { OnOk result (self.new.cells ≡ apply before.now self.old.cells) }
        ensures writes { OnOk result (self.new.writes ≡ saturating_add self.old.writes (count_of before.now)) }
        ensures err { OnErr result (self.new ≡ self.old) }
        ensures no_thread { result ≡ Err MoveErr.NoThread → V.may_lack_threads mover.now }
    {
        match self.change(before, mover) {
            Ok(()) => {
                self.writes = self.writes.saturating_add(before.count() as u128);
                Ok(())
            }
            Err(why) => Err(why),
        }
    }
}
