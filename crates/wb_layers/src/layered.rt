ghost use Rattle.std.specs.Prelude.{◌≡◌, [], map, slice_get, None, IfOk, IfSome};
ghost use Rattle.std.specs.FinMap.{get};
ghost use Rattle.std.specs.Map.{keys_of};
ghost use Rattle.selective_undo.specs.Changes.{apply};
ghost use Rattle.selective_undo.specs.Together.{together};
ghost use Rattle.wb_cells.specs.Cells.{cell_cmp};
ghost use Rattle.wb_cells.specs.MemberRuns.{members_to};
ghost use Rattle.wb_cells.specs.Readers.{seen, members, elements, objects};
ghost use Rattle.wb_cells.specs.Runs.{changes_in};
ghost use Rattle.wb_cells.specs.Shapes.{indices};
ghost use Rattle.wb_cells.specs.WellFormed.{IsWellFormed};

use crate::layer::Layer;
use crate::looks;
use std::alloc::Global;
use std::marker::Model;
use wb_book::Book;
use wb_cells::{AnyIndex, AnyRect, Cell, Delta, Name, Pattern, RunForm, Value, members_in};
use wb_range::NoMemory;

/// A workbook with changes laid over it: it looks as the workbook would after them, which stays as it is. Contracts see the
/// cells after the changes, and the changes.
pub struct Layered<'a> {
    alloc: Global,
    book: &'a Book,
    layer: Layer,
}

impl<'a> Drop for Layered<'a> {
    fn drop(self) {
        let Layered {
            alloc: _,
            book: _,
            layer: _,
        } = self;
    }
}

impl<'a> Model for Layered<'a> {
    ghost use Rattle.selective_undo.specs.Changes.{apply};
    ghost use Rattle.wb_cells.specs.WellFormed.{IsWellFormed};
    ghost use Rattle.wb_layers.specs.Laid.{Laid, laid_code};

    ghost Value = { Laid };

    ghost coded = { laid_code };

    ghost view = { λ a. record { cells = apply a.layer a.book.now.cells; laid = a.layer } };

    ghost invariant = { λ a. IsWellFormed (apply a.layer a.book.now.cells) };
}

impl<'a> Layered<'a> {
    /// A workbook with no changes.
    pub fn of(alloc: Global, book: &'a Book) -> Layered<'a>
        ensures cells { result.cells ≡ book.now.cells }
        ensures laid { result.laid ≡ [] }
    {
        // For the proof: the workbook is well formed.
        let _writes = book.writes();
        Layered {
            alloc,
            book,
            layer: Layer::new(alloc),
        }
    }

    /// What stands in a cell.
    pub fn get(&self, cell: &Cell) -> Option<Value>
        ensures { result ≡ get self.now.cells cell.now }
    {
        // Of a single command nothing is laid over the workbook, and nothing is searched.
        if self.layer.is_empty() {
            return self.book.get(cell);
        }
        match self.layer.change(cell) {
            Some(change) => change.value(),
            None => self.book.get(cell),
        }
    }

    /// What a look at a pattern shows: the cells that it names and that are there, with their values, in their order.
    pub fn seen(&self, alloc: Global, pattern: &Pattern) -> Result<Vec<(Cell, Value)>, NoMemory>
        ensures { IfOk result (λ v. v.items ≡ seen self.now.cells pattern.now) }
    {
        let shown = self.book.seen(alloc, pattern)?;
        self.layer.over(shown, pattern)
    }

    /// The members of the sparse or associative domain of a name, ascending; `NoMemory` where none is left.
    pub fn members(&self, alloc: Global, domain: &Name) -> Result<Vec<AnyIndex>, NoMemory>
        ensures { IfOk result (λ v. v.items ≡ members self.now.cells domain.now) }
    {
        let pattern = Pattern::Members(*domain);
        if !self.layer.touches(&pattern) {
            return looks::listed(alloc, &mut self.book.members(domain));
        }
        let shown = self.seen(alloc, &pattern)?;
        match members_in(alloc, &shown) {
            Ok(found) => Ok(found),
            Err(_) => Err(NoMemory),
        }
    }

    /// The changes that clear all members of the sparse or associative domain of a name, in their order, as one run; `None`
    /// where they are to be listed one by one, as where changes are laid over members of the domain.
    pub fn clearing_run(&self, alloc: Global, domain: &Name) -> Result<Option<RunForm>, NoMemory>
        ensures { IfOk result (λ o. IfSome o (λ f. changes_in f ≡ members_to domain.now None (members self.now.cells domain.now))) }
    {
        if self.layer.touches(&Pattern::Members(*domain)) {
            return Ok(None);
        }
        self.book.clearing_run(alloc, domain)
    }

    /// The elements of the array of a name, each after its index, in the order of the indices; `NoMemory` where none is
    /// left.
    pub fn elements(&self, name: &Name) -> Result<Vec<(AnyIndex, i64)>, NoMemory>
        ensures { IfOk result (λ v. v.items ≡ elements self.now.cells name.now) }
    {
        let pattern = Pattern::Elements(*name);
        if !self.layer.touches(&pattern) {
            return self.book.elements(name);
        }
        let shown = self.seen(self.alloc, &pattern)?;
        match looks::elements(self.alloc, &shown) {
            Ok(found) => Ok(found),
            Err(_) => Err(NoMemory),
        }
    }

    /// The elements of the array of a name without their indices, in the order of these; `NoMemory` where none is left.
    pub fn numbers(&self, array: &Name) -> Result<Vec<i64>, NoMemory>
        ensures { IfOk result (λ v. v.items ≡ map (λ e. e.1) (elements self.now.cells array.now)) }
    {
        if !self.layer.touches(&Pattern::Elements(*array)) {
            return self.book.numbers(array);
        }
        let pairs = self.elements(array)?;
        looks::numbers(self.alloc, &pairs)
    }

    /// The ranges of the rectangle at whose indices the elements of the array of a name stand, one after another in that order,
    /// if they are known.
    pub fn rectangle(&self, array: &Name) -> Option<AnyRect>
        ensures { IfSome result (λ rs. keys_of (elements self.now.cells array.now) ≡ indices rs) }
    {
        if self.layer.touches(&Pattern::Elements(*array)) {
            return None;
        }
        self.book.rectangle(array)
    }

    /// The name of the first object, if there is one; `NoMemory` where none is left.
    pub fn first_object(&self) -> Result<Option<Name>, NoMemory>
        ensures { IfOk result (λ o. o ≡ slice_get (objects self.now.cells) 0) }
    {
        if !self.layer.touches(&Pattern::Objects) {
            return Ok(self.book.object(0));
        }
        let shown = self.seen(self.alloc, &Pattern::Objects)?;
        match looks::objects(self.alloc, &shown) {
            Ok(found) => Ok(looks::first_of(&found)),
            Err(_) => Err(NoMemory),
        }
    }

    /// It is well formed.
    pub fn is_formed(&self)
        ensures { IsWellFormed self.now.cells }
    {
        // For the proof: the invariant.
        let _ = &self.layer;
    }

    /// The workbook with the changes and then others; `NoMemory` where none is left.
    pub fn lay(self, delta: &Delta) -> Result<Layered<'a>, NoMemory>
        requires { IsWellFormed (apply delta.now self.cells) }
        ensures cells { IfOk result (λ l. l.cells ≡ apply delta.now self.entry.cells) }
        ensures laid { IfOk result (λ l. l.laid ≡ together cell_cmp self.entry.laid delta.now) }
    {
        let Layered { alloc, book, layer } = self;
        match layer.lay(delta) {
            Ok(layer) => Ok(Layered { alloc, book, layer }),
            Err(_) => Err(NoMemory),
        }
    }

    /// The changes, each cell once, in the order in which their cells came; `NoMemory` where none is left.
    pub fn into_delta(self) -> Result<Delta, NoMemory>
        ensures { IfOk result (λ d. d ≡ self.entry.laid) }
    {
        let Layered {
            alloc: _,
            book: _,
            layer,
        } = self;
        layer.into_delta()
    }
}
