//! Changes are made whole or not at all.

ghost use Rattle.std.specs.Prelude.{◌≡◌, ℕ, ℤ, ◌&&◌, List, [], ◌∷◌, ◌++◌, Option, Some, None, false, true, not, cond, is_some, IsSome, IfOk, OnOk, OnErr, Err};
ghost use Rattle.std.specs.List.{All};
ghost use Rattle.std.specs.FinMap as map;
ghost use Rattle.std.specs.Map.{keys_of};
ghost use Rattle.std.specs.List.Sorted.{IsStrictlySortedBy};
ghost use Rattle.std.specs.Cmp.Lexicographic.{slice_cmp};
ghost use Rattle.std.specs.Ordering.{nat_cmp, eq_by_cmp};
ghost use Rattle.selective_undo.specs.Changes.{apply, sets, clears, changes, AllOnce, HasRoom};
ghost use Rattle.wb_cells.specs.declared.cells.cell.Cell.{Cell as cell_type};
ghost use Rattle.wb_cells.specs.declared.cells.cell.Cell.TheVariants.{Object};
ghost use Rattle.wb_cells.specs.declared.cells.value.Value.{Value as value_type};
ghost use Rattle.wb_cells.specs.declared.values.index.Index.{Index};
ghost use Rattle.wb_cells.specs.Stored.{FitsChange};
ghost use Rattle.wb_cells.specs.Cells.{Stored, cell_cmp, state_of, is_same_name};
ghost use Rattle.wb_cells.specs.WellFormed.{IsWellFormed};
ghost use Rattle.wb_book.specs.Joined.{stored_in, element_in, stored_part};
ghost use Rattle.wb_book.specs.After.{lies_at, AreFormed, AreAfter, is_array};
ghost use Rattle.wb_book.specs.Kept.{Pieced, array_in};
ghost use Rattle.wb_book.specs.Moved.{put_over};
ghost use Rattle.wb_book.specs.Shelf.{cells_of, IsShelf};

use crate::groups::Group;
use crate::{after, groups, keep, moving, storing};
use std::alloc::Global;
use std::collections::BTreeMap;
use wb_arrays::{MoveErr, Mover};
use wb_cells::{AnyIndex, AnyLayout, Cell, CellChange, Changes, Name, StoredCells, Value};
use wb_elements::Elements;
use wb_range::NoMemory;

// Whether an object is an array.
fn is_array(cells: &StoredCells, name: &Name) -> bool
    ensures { result ≡ is_array (stored_in cells.now.entries (Object name.now)) }
{
    match cells.get(&Cell::Object(*name)) {
        Some(Value::Array(_, _)) => true,
        _ => false,
    }
}

/// Puts an empty array of a name, where there is none.
fn put_empty(
    alloc: Global,
    arrays: &mut BTreeMap<Name, Elements>,
    name: &Name,
) -> Result<(), NoMemory>
    ensures others { (b : List ℕ) → is_same_name name.now b ≡ false → array_in arrays.new.entries b ≡ array_in arrays.old.entries b }
    ensures stays { (b : List ℕ) (p : Pieced) → array_in arrays.old.entries b ≡ Some p → array_in arrays.new.entries b ≡ Some p }
    ensures elements { (b : List ℕ) (i : Index) → element_in arrays.new.entries b i ≡ element_in arrays.old.entries b i }
    ensures there { OnOk result (IsSome (array_in arrays.new.entries name.now)) }
{
    if arrays.contains_key(name) {
        return Ok(());
    }
    let pairs: Vec<(AnyIndex, i64)> = Vec::new(alloc);
    let changes: Vec<(AnyIndex, Option<i64>)> = Vec::new(alloc);
    let whole = AnyLayout::whole();
    let Ok(empty) = Elements::made(alloc, pairs.as_slice(), changes.as_slice(), &whole, 1) else {
        return Err(NoMemory);
    };
    match arrays.insert(*name, empty) {
        Ok(_) => Ok(()),
        Err(_) => Err(NoMemory),
    }
}

fn put_new_one(
    alloc: Global,
    cells: &StoredCells,
    arrays: &mut BTreeMap<Name, Elements>,
    change: &CellChange,
) -> Result<(), NoMemory>
    ensures others { (b : List ℕ) → eq_by_cmp cell_cmp (Object b) change.now.cell ≡ false → array_in arrays.new.entries b ≡ array_in arrays.old.entries b }
    ensures stays { (b : List ℕ) (p : Pieced) → array_in arrays.old.entries b ≡ Some p → array_in arrays.new.entries b ≡ Some p }
    ensures elements { (b : List ℕ) (i : Index) → element_in arrays.new.entries b i ≡ element_in arrays.old.entries b i }
    ensures there { OnOk result ((b : List ℕ) → eq_by_cmp cell_cmp (Object b) change.now.cell ≡ true →
        is_array (stored_in cells.now.entries (Object b)) ≡ true → IsSome (array_in arrays.new.entries b)) }
{
    match change.as_cell() {
        Cell::Object(name) => {
            if is_array(cells, name) {
                return put_empty(alloc, arrays, name);
            }
            Ok(())
        }
        _ => Ok(()),
    }
}

/// Puts an empty array of each name that the changes make an array's and that has none. It may stop midway.
fn put_new(
    alloc: Global,
    cells: &StoredCells,
    arrays: &mut BTreeMap<Name, Elements>,
    stored: &[CellChange],
) -> Result<(), NoMemory>
    ensures others { (b : List ℕ) → changes cell_cmp stored.now (Object b) ≡ false → array_in arrays.new.entries b ≡ array_in arrays.old.entries b }
    ensures stays { (b : List ℕ) (p : Pieced) → array_in arrays.old.entries b ≡ Some p → array_in arrays.new.entries b ≡ Some p }
    ensures elements { (b : List ℕ) (i : Index) → element_in arrays.new.entries b i ≡ element_in arrays.old.entries b i }
    ensures there { OnOk result ((b : List ℕ) → changes cell_cmp stored.now (Object b) ≡ true → is_array (stored_in cells.now.entries (Object b)) ≡ true →
        IsSome (array_in arrays.new.entries b)) }
{
    for change in stored {
        put_new_one(alloc, cells, arrays, change)?;
    }
    Ok(())
}

fn drop_array(arrays: &mut BTreeMap<Name, Elements>, name: &Name)
    ensures { (b : List ℕ) → array_in arrays.new.entries b ≡ cond (is_same_name name.now b) None (array_in arrays.old.entries b) }
{
    arrays.remove(name);
}

fn drop_one(cells: &StoredCells, arrays: &mut BTreeMap<Name, Elements>, change: &CellChange)
    ensures { (b : List ℕ) → array_in arrays.new.entries b ≡ cond
        (eq_by_cmp cell_cmp (Object b) change.now.cell && not (is_array (stored_in cells.now.entries (Object b)))) None (array_in arrays.old.entries b) }
{
    match change.as_cell() {
        Cell::Object(name) => {
            if is_array(cells, name) {
                return;
            }
            drop_array(arrays, name);
        }
        _ => {}
    }
}

/// Drops the array of each name among the changes that is no array's.
fn drop_gone(cells: &StoredCells, arrays: &mut BTreeMap<Name, Elements>, stored: &[CellChange])
    ensures arrays { (b : List ℕ) → array_in arrays.new.entries b ≡ cond
        (changes cell_cmp stored.now (Object b) && not (is_array (stored_in cells.now.entries (Object b)))) None (array_in arrays.old.entries b) }
    ensures ascending { IsStrictlySortedBy (slice_cmp nat_cmp) (keys_of arrays.new.entries) }
{
    for change in stored {
        drop_one(cells, arrays, change);
    }
    // For the proof: the names of the arrays ascend.
    let _ = arrays.len();
}

/// What can fail of changes: sets the stored cells that they give a value, puts an array of each new name, and makes the
/// arrays that are others afterwards. It may stop midway.
fn prepare<V: Mover>(
    alloc: Global,
    cells: &mut StoredCells,
    arrays: &mut BTreeMap<Name, Elements>,
    groups: &BTreeMap<Name, Group>,
    all: &Changes,
    alone: &[CellChange],
    mover: &V,
) -> Result<Vec<(Name, Elements)>, MoveErr>
    // Each element that the changes leave stands at an index of its array's form, once the cells are set.
    requires { (ready : Stored) (grown : List (List ℕ × Pieced)) → state_of ready ≡ apply (sets (stored_part all.now)) (state_of cells.old) →
        ((b : List ℕ) (i : Index) → element_in grown b i ≡ element_in arrays.old.entries b i) →
        AreFormed (lies_at (stored_in ready.entries)) grown groups.now.entries }

    // What stays, also where it stops midway.
    ensures others_cells { (c : cell_type) → changes cell_cmp (sets (stored_part all.now)) c ≡ false → map.get (state_of cells.new) c ≡ map.get (state_of cells.old) c }
    ensures stays_cells { (c : cell_type) → IsSome (map.get (state_of cells.old) c) → IsSome (map.get (state_of cells.new) c) }
    ensures others { (b : List ℕ) → changes cell_cmp alone.now (Object b) ≡ false → array_in arrays.new.entries b ≡ array_in arrays.old.entries b }
    ensures stays { (b : List ℕ) (p : Pieced) → array_in arrays.old.entries b ≡ Some p → array_in arrays.new.entries b ≡ Some p }
    ensures elements { (b : List ℕ) (i : Index) → element_in arrays.new.entries b i ≡ element_in arrays.old.entries b i }

    // What is set, put and made at the end.
    ensures set { OnOk result (state_of cells.new ≡ apply (sets (stored_part all.now)) (state_of cells.old)) }
    ensures there { OnOk result ((b : List ℕ) → changes cell_cmp alone.now (Object b) ≡ true → is_array (stored_in cells.new.entries (Object b)) ≡ true →
        IsSome (array_in arrays.new.entries b)) }
    ensures built { IfOk result (λ v. AreAfter (lies_at (stored_in cells.new.entries)) arrays.new.entries groups.now.entries v.items) }

    // Only by a mover that may lack threads does it fail for want of one.
    ensures no_thread { result ≡ Err MoveErr.NoThread → V.may_lack_threads mover.now }
{
    if storing::set_given(cells, all).is_err() {
        return Err(MoveErr::NoMemory);
    }
    if put_new(alloc, cells, arrays, alone).is_err() {
        return Err(MoveErr::NoMemory);
    }
    after::build_arrays(alloc, cells, arrays, groups, mover)
}

/// What can't fail of changes: clears the stored cells that they give no value, puts the arrays in that are others, and
/// drops those that are none any more.
fn finish(
    cells: &mut StoredCells,
    arrays: &mut BTreeMap<Name, Elements>,
    all: &Changes,
    alone: &[CellChange],
    built: Vec<(Name, Elements)>,
)
    requires { IsStrictlySortedBy (slice_cmp nat_cmp) (keys_of built.items) }
    ensures cells { state_of cells.new ≡ apply (clears (stored_part all.now)) (state_of cells.old) }
    ensures arrays { (b : List ℕ) → array_in arrays.new.entries b ≡ cond
        (changes cell_cmp alone.now (Object b) && not (is_array (stored_in cells.new.entries (Object b)))) None
        (put_over (array_in arrays.old.entries b) (array_in built.items b)) }
    ensures ascending_cells { IsStrictlySortedBy cell_cmp (keys_of cells.new.entries) }
    ensures ascending { IsStrictlySortedBy (slice_cmp nat_cmp) (keys_of arrays.new.entries) }
{
    storing::clear_given(cells, all);
    moving::put_in(arrays, built);
    drop_gone(cells, arrays, alone);
    // For the proof: the cells ascend.
    cells.ascend();
}

/// Sets the stored cells back, and drops the arrays that were put.
fn take_back(
    cells: &mut StoredCells,
    arrays: &mut BTreeMap<Name, Elements>,
    alone: &[CellChange],
    before: &Changes,
)
    requires once { AllOnce cell_cmp before.now }
    requires room { HasRoom before.now (state_of cells.old) }
    requires fits { All FitsChange before.now }
    ensures cells { state_of cells.new ≡ apply before.now (state_of cells.old) }
    ensures arrays { (b : List ℕ) → array_in arrays.new.entries b ≡ cond
        (changes cell_cmp alone.now (Object b) && not (is_array (stored_in cells.new.entries (Object b)))) None (array_in arrays.old.entries b) }
    ensures ascending_cells { IsStrictlySortedBy cell_cmp (keys_of cells.new.entries) }
    ensures ascending { IsStrictlySortedBy (slice_cmp nat_cmp) (keys_of arrays.new.entries) }
{
    storing::put_back(cells, before);
    drop_gone(cells, arrays, alone);
    // For the proof: the cells ascend.
    cells.ascend();
}

/// Makes all the changes, or none where the mover refuses or no memory is left. Where they do no more than set elements
/// that are there, it takes no memory.
pub(crate) fn change_all<V: Mover>(
    alloc: Global,
    cells: &mut StoredCells,
    arrays: &mut BTreeMap<Name, Elements>,
    list: &Changes,
    mover: &V,
) -> Result<(), MoveErr>
    // Each cell changes once, and the changes lead from a workbook to one.
    requires once { AllOnce cell_cmp list.now }
    requires shelf { IsShelf cells.old arrays.old }
    requires formed { IsWellFormed (apply list.now (cells_of cells.old arrays.old)) }

    // All changes are made, or none, and the parts are a workbook's.
    ensures ok { OnOk result (cells_of cells.new arrays.new ≡ apply list.now (cells_of cells.old arrays.old)) }
    ensures err { OnErr result (cells_of cells.new arrays.new ≡ cells_of cells.old arrays.old) }
    ensures shelf { IsShelf cells.new arrays.new }

    // Only by a mover that may lack threads does it fail for want of one.
    ensures no_thread { result ≡ Err MoveErr.NoThread → V.may_lack_threads mover.now }
{
    if keep::set_lone(arrays, list) {
        return Ok(());
    }
    change_any(alloc, cells, arrays, list, mover)
}

// Makes all the changes, whatever they are, or none where the mover refuses or no memory is left.
fn change_any<V: Mover>(
    alloc: Global,
    cells: &mut StoredCells,
    arrays: &mut BTreeMap<Name, Elements>,
    delta: &Changes,
    mover: &V,
) -> Result<(), MoveErr>
    // Each cell changes once, and the changes lead from a workbook to one.
    requires once { AllOnce cell_cmp delta.now }
    requires shelf { IsShelf cells.old arrays.old }
    requires formed { IsWellFormed (apply delta.now (cells_of cells.old arrays.old)) }

    // All changes are made, or none, and the parts are a workbook's.
    ensures ok { OnOk result (cells_of cells.new arrays.new ≡ apply delta.now (cells_of cells.old arrays.old)) }
    ensures err { OnErr result (cells_of cells.new arrays.new ≡ cells_of cells.old arrays.old) }
    ensures shelf { IsShelf cells.new arrays.new }

    // Only by a mover that may lack threads does it fail for want of one.
    ensures no_thread { result ≡ Err MoveErr.NoThread → V.may_lack_threads mover.now }
{
    if keep::are_set(arrays, delta) {
        keep::set_all(arrays, delta);
        return Ok(());
    }
    let Ok(lone) = storing::lone_changes(alloc, delta) else {
        return Err(MoveErr::NoMemory);
    };
    let alone = lone.as_slice();
    let Ok(before) = storing::given_before(alloc, cells, delta) else {
        return Err(MoveErr::NoMemory);
    };
    let Ok(groups) = groups::group_changes(alloc, cells, arrays, delta) else {
        return Err(MoveErr::NoMemory);
    };
    match prepare(alloc, cells, arrays, &groups, delta, alone, mover) {
        Ok(built) => {
            finish(cells, arrays, delta, alone, built);
            Ok(())
        }
        Err(why) => {
            take_back(cells, arrays, alone, &before);
            Err(why)
        }
    }
}
