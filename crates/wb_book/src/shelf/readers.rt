//! What a workbook answers about its objects, its domains, and where their indices lie.

ghost use Rattle.std.specs.Prelude.{◌≡◌, is_some, length, map, option_map, slice_get, IfOk, IfSome, Err};
ghost use Rattle.std.specs.Map.{keys_of};
ghost use Rattle.wb_cells.specs.Shapes.{indices};
ghost use Rattle.wb_cells.specs.Locales.{is_index_at, locale_at};
ghost use Rattle.wb_cells.specs.Readers.{objects, users, size_at, index_at, elements};
ghost use Rattle.wb_cells.specs.WellFormed.{IsWellFormed, domain_at};
ghost use Rattle.wb_elements.specs.Piecewise.Lent.{lent};
ghost use Rattle.wb_arrays.specs.Reductions.{IsReduced};
ghost use Rattle.wb_book.specs.Shelf.{piece_at};

use crate::looks;
use crate::shelf::Book;
use wb_arrays::{Mover, Op, ReduceErr};
use wb_cells::{
    AnyIndex, AnyRect, Name, index_at, locale_at, object_at, object_count, size_at, user_at,
};
use wb_elements::Pairs;
use wb_range::NoMemory;

impl Book {
    /// How many objects there are: domains and arrays.
    pub fn objects(&self) -> usize
        ensures { result ≡ length (objects self.now.cells) }
    {
        // For the proof: the invariant, which speaks of the arrays too.
        let _ = &self.arrays;
        object_count(&self.cells)
    }

    /// The name of the object at place `p`, counted from 0; the names ascend.
    pub fn object(&self, p: usize) -> Option<Name>
        ensures { result ≡ slice_get (objects self.now.cells) p }
    {
        // For the proof: the invariant, which speaks of the arrays too.
        let _ = &self.arrays;
        object_at(&self.cells, p)
    }

    /// The name at place `p` of what is bound to the domain of a name, counted from 0; the names ascend.
    pub fn user(&self, name: &Name, p: usize) -> Option<Name>
        ensures { result ≡ slice_get (users self.now.cells name.now) p }
    {
        // For the proof: the invariant, which speaks of the arrays too.
        let _ = &self.arrays;
        user_at(&self.cells, *name, p)
    }

    /// How many indices the domain of a name has, whatever its kind, and `None` exactly where there is no such domain
    /// (Chapel Language Specification, Domains).
    pub fn size(&self, name: &Name) -> Option<usize>
        ensures value { result ≡ size_at self.now.cells name.now }
        ensures there { is_some result ≡ is_some (domain_at self.now.cells name.now) }
    {
        // For the proof: the invariant, which speaks of the arrays too.
        let _ = &self.arrays;
        size_at(&self.cells, *name)
    }

    /// The index at place `p` of the domain of a name, counted from 0 in the domain's order: row by row in a rectangular
    /// domain, ascending in another one (Chapel Language Specification, Domains).
    pub fn index(&self, name: &Name, p: usize) -> Option<AnyIndex>
        ensures { result ≡ index_at self.now.cells name.now p }
    {
        // For the proof: the invariant, which speaks of the arrays too.
        let _ = &self.arrays;
        index_at(&self.cells, *name, p)
    }

    /// On which locale an index of the domain of a name lies, and `None` exactly where there is no such domain or it
    /// doesn't have the index. A rectangular domain goes by its mapping, a sparse one by its parent's, and an associative
    /// one has all on locale 0 (Chapel Language Specification, Domain Maps).
    pub fn locale_of(&self, domain: &Name, index: &AnyIndex) -> Option<usize>
        ensures value { result ≡ locale_at self.now.cells domain.now index.now }
        ensures there { is_some result ≡ is_index_at self.now.cells domain.now index.now }
    {
        // For the proof: the invariant, which speaks of the arrays too.
        let _ = &self.arrays;
        locale_at(&self.cells, *domain, index)
    }

    /// The elements of the array of a name on a locale, each after its index, ascending, lent. They are those that lie there by
    /// the mapping of the array's domain: a sparse domain goes by its parent's, and an associative one has all on locale 0.
    /// `None` where there is no such array or no such locale (Chapel Language Specification, Domain Maps).
    pub fn piece(&self, array: &Name, locale: usize) -> Option<Pairs<'_>>
        ensures { option_map lent result ≡ piece_at self.now.cells array.now locale }
    {
        // For the proof: the invariant, which speaks of the cells too.
        let _ = &self.cells;
        looks::piece(&self.arrays, array, locale)
    }

    /// The ranges of the rectangle at whose indices the elements of the array of a name stand, one after another in that order,
    /// if they are known.
    pub fn rectangle(&self, array: &Name) -> Option<AnyRect>
        ensures { IfSome result (λ rs. keys_of (elements self.now.cells array.now) ≡ indices rs) }
    {
        // For the proof: the invariant, which speaks of the cells too.
        let _ = &self.cells;
        looks::ranges(&self.arrays, array)
    }

    /// The elements of the array of a name without their indices, in the order of these; `NoMemory` where none is left.
    pub fn numbers(&self, array: &Name) -> Result<Vec<i64>, NoMemory>
        ensures { IfOk result (λ v. v.items ≡ map (λ e. e.1) (elements self.now.cells array.now)) }
    {
        // For the proof: the invariant, which speaks of the cells too.
        let _ = &self.cells;
        looks::numbers(self.alloc, &self.arrays, array)
    }

    /// The sum, the least or the greatest of the elements of the array of a name, the same by every mover: `Empty` exactly
    /// where there is no least or greatest one, `Overflow` exactly where the whole sum is no i64. There are no elements
    /// where there is no such array (Chapel Language Specification, Reductions and Scans).
    pub fn reduce<V: Mover>(&self, array: &Name, op: Op, mover: &V) -> Result<i64, ReduceErr>
        ensures answer { IsReduced op (elements self.now.cells array.now) result }
        ensures overflow { result ≡ Err ReduceErr.Overflow → op ≡ Op.Sum }
    {
        // For the proof: the invariant, which speaks of the cells too.
        let _ = &self.cells;
        looks::reduce(&self.arrays, array, op, mover)
    }

    /// How many cells were set so far by `apply` and `revert`, up to the type's greatest value; the cells `In` are not
    /// counted. A book is well formed.
    pub fn writes(&self) -> u128
        ensures value { result ≡ self.now.writes }
        ensures kept { IsWellFormed self.now.cells }
    {
        // For the proof: the invariant, which says that the book is well formed.
        let _ = &self.arrays;
        self.writes
    }
}
