//! What a look at a pattern shows.

ghost use Rattle.std.specs.Prelude.{◌≡◌, ◌≢◌, [], map, option_map, IfOk, IfSome, Err};
ghost use Rattle.wb_cells.specs.Shapes.{indices};
ghost use Rattle.std.specs.List.Sorted.{IsStrictlySortedBy};
ghost use Rattle.std.specs.Map.{keys_of};
ghost use Rattle.wb_cells.specs.Cells.{index_cmp};
ghost use Rattle.wb_cells.specs.declared.values.index.Index.{Index as index};
ghost use Rattle.wb_elements.specs.Piecewise.Lent.{lent};
ghost use Rattle.wb_arrays.specs.Reductions.{IsReduced};
ghost use Rattle.wb_book.specs.Shelf.{piece_by};
ghost use Rattle.wb_book.specs.Kept.{array_in, pairs_of, element_cells, one_cell};

use std::alloc::Global;
use std::collections::BTreeMap;
use wb_arrays::{Mover, Op, ReduceErr};
use wb_cells::{AnyIndex, AnyRect, Cell, Name, Value};
use wb_elements::{Elements, Pairs};
use wb_range::NoMemory;

/// The elements of an array, each after its index, ascending.
pub(crate) fn elements(
    alloc: Global,
    arrays: &BTreeMap<Name, Elements>,
    array: &Name,
) -> Result<Vec<(AnyIndex, i64)>, NoMemory>
    ensures pairs { IfOk result (λ v. v.items ≡ pairs_of (array_in arrays.now.entries array.now)) }
    ensures ascending { IfOk result (λ v. IsStrictlySortedBy index_cmp (keys_of v.items)) }
{
    match arrays.get(array) {
        Some(elements) => elements.pairs(alloc),
        None => Ok(Vec::new(alloc)),
    }
}

/// The ranges of the rectangle at whose indices the elements of an array stand, if they are known.
pub(crate) fn ranges(arrays: &BTreeMap<Name, Elements>, array: &Name) -> Option<AnyRect>
    ensures ranges { IfSome result (λ rs. keys_of (pairs_of (array_in arrays.now.entries array.now)) ≡ indices rs) }
    ensures ascending { IsStrictlySortedBy index_cmp (keys_of (pairs_of (array_in arrays.now.entries array.now))) }
{
    match arrays.get(array) {
        Some(elements) => {
            // For the proof: the indices of the elements ascend.
            let _ = elements.len();
            elements.ranges()
        }
        None => None,
    }
}

/// The elements of an array without their indices, in their order.
pub(crate) fn numbers(
    alloc: Global,
    arrays: &BTreeMap<Name, Elements>,
    array: &Name,
) -> Result<Vec<i64>, NoMemory>
    ensures numbers { IfOk result (λ v. v.items ≡ map (λ e. e.1) (pairs_of (array_in arrays.now.entries array.now))) }
    ensures ascending { IsStrictlySortedBy index_cmp (keys_of (pairs_of (array_in arrays.now.entries array.now))) }
{
    match arrays.get(array) {
        Some(elements) => {
            // For the proof: the indices of the elements ascend.
            let _ = elements.len();
            elements.numbers(alloc)
        }
        None => Ok(Vec::new(alloc)),
    }
}

/// The elements of an array on a locale, lent.
pub(crate) fn piece<'a>(
    arrays: &'a BTreeMap<Name, Elements>,
    array: &Name,
    locale: usize,
) -> Option<Pairs<'a>>
    ensures piece { option_map lent result ≡ piece_by (option_map (λ p. p.1) (array_in arrays.now.entries array.now))
        (pairs_of (array_in arrays.now.entries array.now)) locale }
    ensures ascending { IsStrictlySortedBy index_cmp (keys_of (pairs_of (array_in arrays.now.entries array.now))) }
{
    match arrays.get(array) {
        Some(elements) => {
            // For the proof: the indices of the elements ascend.
            let _ = elements.len();
            elements.piece(locale)
        }
        None => None,
    }
}

// The reduction of no elements.
fn of_nothing(op: Op) -> Result<i64, ReduceErr>
    ensures answer { IsReduced {I = index} op [] result }
    ensures overflow { result ≢ Err ReduceErr.Overflow }
{
    match op {
        Op::Sum => Ok(0),
        Op::Min => Err(ReduceErr::Empty),
        Op::Max => Err(ReduceErr::Empty),
    }
}

/// The sum, the least or the greatest of the elements of an array; of no elements where there is no such array.
pub(crate) fn reduce<V: Mover>(
    arrays: &BTreeMap<Name, Elements>,
    array: &Name,
    op: Op,
    mover: &V,
) -> Result<i64, ReduceErr>
    ensures answer { IsReduced op (pairs_of (array_in arrays.now.entries array.now)) result }
    ensures overflow { result ≡ Err ReduceErr.Overflow → op ≡ Op.Sum }
    ensures ascending { IsStrictlySortedBy index_cmp (keys_of (pairs_of (array_in arrays.now.entries array.now))) }
{
    match arrays.get(array) {
        Some(elements) => {
            // For the proof: the indices of the elements ascend.
            let _ = elements.len();
            elements.reduce(op, mover)
        }
        None => of_nothing(op),
    }
}

/// Elements of an array as cells.
pub(crate) fn element_cells(
    alloc: Global,
    array: &Name,
    pairs: &[(AnyIndex, i64)],
) -> Result<Vec<(Cell, Value)>, NoMemory>
    ensures { IfOk result (λ v. v.items ≡ element_cells array.now pairs.now) }
{
    let mut cells = Vec::with_capacity(alloc, pairs.len())?;
    for (index, value) in pairs {
        if cells
            .push((Cell::Element(*array, *index), Value::Number(*value)))
            .is_err()
        {
            return Err(NoMemory);
        }
    }
    Ok(cells)
}

/// One cell, if there is something in it.
pub(crate) fn one_cell(
    alloc: Global,
    cell: Cell,
    value: Option<Value>,
) -> Result<Vec<(Cell, Value)>, NoMemory>
    ensures { IfOk result (λ v. v.items ≡ one_cell cell value) }
{
    let mut cells = Vec::new(alloc);
    if let Some(value) = value {
        cells.push((cell, value))?;
    }
    Ok(cells)
}
