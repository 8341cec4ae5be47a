//! What is known of the arrays after changes, before these are made.

ghost use Rattle.std.specs.Prelude.{◌≡◌, ◌<◌, ℕ, ℤ, List, [], ◌∷◌, ◌++◌, true, false, length, filter, map, Option, Some, option_and_then, IfSome, IfOk, OnOk, Err};
ghost use Rattle.selective_undo.specs.declared.Change.{Change};
ghost use Rattle.wb_cells.specs.declared.cells.cell.Cell.{Cell as cell_type};
ghost use Rattle.wb_cells.specs.declared.cells.value.Value.{Value as value_type};
ghost use Rattle.wb_cells.specs.declared.cells.cell.Cell.TheVariants.{Mapping as mapping_cell, Object as object_cell, Shape as shape_cell};
ghost use Rattle.wb_cells.specs.declared.cells.kind.Kind.{Kind};
ghost use Rattle.wb_cells.specs.declared.cells.value.Value.TheVariants.{Array as array_value};
ghost use Rattle.wb_cells.specs.declared.changes.row.IndexedRow.TheVariants.{Inside as inside_row, Elements as element_row};
ghost use Rattle.wb_cells.specs.WellFormed.{ranges_in};
ghost use Rattle.wb_dist.specs.Maps.{LayoutMap};
ghost use Rattle.wb_cells.specs.Locales.{mapping_in};
ghost use Rattle.wb_cells.specs.declared.values.index.Index.{Index as index_type};
ghost use Rattle.wb_cells.specs.Runs.{cell_of, changes_in, all_changes, packed_changes, rectangle_entries, numbered_entries};
ghost use Rattle.wb_book.specs.Joined.{answer, stored_in, element_in, is_stored, with_answer};
ghost use Rattle.wb_book.specs.Kept.{Pieced, array_in};
ghost use Rattle.wb_elements.specs.Entries.{element_at};
ghost use Rattle.wb_elements.specs.Piecewise.Marked.{as_changes};
ghost use Rattle.wb_cells.specs.declared.values.index.Index.TheVariants.{Point as point_index};
ghost use Rattle.wb_elements.specs.Piecewise.Seen.{MayLie};
ghost use Rattle.wb_book.specs.After.{is_for, lies_for, kind_lies, domain_lies, lies_at, IsAfter, IsFormed, AreFormed, AreAfter};

use crate::groups::{Group, list_of};
use crate::keep;
use std::alloc::Global;
use std::collections::BTreeMap;
use wb_arrays::{MoveErr, Mover};
use wb_cells::{
    AnyIndex, AnyLayout, AnyRect, Cell, CellChange, ChangeRun, Changes, DomainKind, IndexedRow,
    KeyType, Name, Packed, RectangleChanges, RectangleNumbers, RunForm, StoredCells, Value,
    members_before,
};
use wb_elements::{ChangeBlock, Elements, KeptChanges};
use wb_range::NoMemory;

fn mapping_in(cells: &StoredCells, domain: &Name) -> Option<AnyLayout>
    ensures { result ≡ mapping_in (stored_in cells.now.entries (mapping_cell domain.now)) }
{
    let mapping = cells.get(&Cell::Mapping(*domain));
    match &mapping {
        Some(Value::Mapping(mapping)) => Some(*mapping),
        _ => None,
    }
}

// Whether a mapping is for rectangles of so many dimensions.
fn is_for(mapping: &AnyLayout, rank: u8) -> bool
    ensures { result ≡ is_for rank mapping.now }
{
    0 < rank && rank < 4 && mapping.is_of_rank(rank)
}

fn with_rank(mapping: Option<AnyLayout>, rank: u8) -> Option<(AnyLayout, u8)>
    ensures { result ≡ option_and_then (lies_for rank) mapping }
{
    match mapping {
        Some(mapping) => {
            if is_for(&mapping, rank) {
                Some((mapping, rank))
            } else {
                None
            }
        }
        None => None,
    }
}

// The mapping of a domain of a kind, with the rank of its indices; `None` also where it is for another rank, as can be midway
// through changes, of a domain that they clear.
fn kind_lies(cells: &StoredCells, domain: &Name, kind: &DomainKind) -> Option<(AnyLayout, u8)>
    ensures { result ≡ kind_lies (stored_in cells.now.entries) domain.now (Some kind.now) }
{
    match kind {
        DomainKind::Rectangular(rank) => with_rank(mapping_in(cells, domain), *rank),
        DomainKind::Sparse(parent, rank) => with_rank(mapping_in(cells, parent), *rank),
        DomainKind::Associative(KeyType::Int) => Some((AnyLayout::whole(), 1)),
        DomainKind::Associative(KeyType::Text) => Some((AnyLayout::whole(), 0)),
    }
}

fn domain_lies(cells: &StoredCells, domain: &Name) -> Option<(AnyLayout, u8)>
    ensures { result ≡ domain_lies (stored_in cells.now.entries) domain.now }
{
    let object = cells.get(&Cell::Object(*domain));
    match &object {
        Some(Value::Domain(kind)) => kind_lies(cells, domain, &kind.domain_kind()),
        _ => None,
    }
}

/// How an array lies, by the stored cells.
pub(crate) fn lies(cells: &StoredCells, array: &Name) -> Option<(AnyLayout, u8)>
    ensures { result ≡ lies_at (stored_in cells.now.entries) array.now }
{
    let object = cells.get(&Cell::Object(*array));
    match &object {
        Some(Value::Array(domain, _)) => domain_lies(cells, domain),
        _ => None,
    }
}

/// Whether a change is of a stored cell.
pub(crate) fn is_of_stored(change: &CellChange) -> bool
    ensures { result ≡ is_stored change.now.cell }
{
    is_stored(change.as_cell())
}

/// Whether the changes of a run are of stored cells: all are, or none is.
pub(crate) fn are_stored(form: &RunForm) -> bool
    ensures all { result ≡ true → filter (λ x. is_stored x.cell) (changes_in form.now) ≡ changes_in form.now }
    ensures none { result ≡ false → filter (λ x. is_stored x.cell) (changes_in form.now) ≡ [] }
{
    match form {
        RunForm::One(change) => is_of_stored(change),
        RunForm::Rank1(packed) => is_row_stored(packed.row()),
        RunForm::Rank2(packed) => is_row_stored(packed.row()),
        RunForm::Rank3(packed) => is_row_stored(packed.row()),
        RunForm::Labels(labels) => is_row_stored(labels.row()),
        RunForm::Rectangle(rectangle) => is_row_stored(rectangle.row()),
        RunForm::Numbers(rectangle) => is_row_stored(rectangle.row()),
    }
}

// Whether the cells of a row are stored.
fn is_row_stored(row: &IndexedRow) -> bool
    ensures { (i : index_type) → result ≡ is_stored (cell_of row.now i) }
{
    match row {
        IndexedRow::Inside(_) => false,
        IndexedRow::Members(_) => true,
        IndexedRow::Elements(_) => false,
    }
}

fn is_stored(cell: &Cell) -> bool
    ensures { result ≡ is_stored cell.now }
{
    match cell {
        Cell::In(_, _) | Cell::Element(_, _) => false,
        Cell::Object(_)
        | Cell::Shape(_)
        | Cell::Member(_, _)
        | Cell::Mapping(_)
        | Cell::Use(_, _)
        | Cell::Implicit(_) => true,
    }
}

// The change that sets a cell to what it is now.
fn value_before(
    cells: &StoredCells,
    arrays: &BTreeMap<Name, Elements>,
    change: &CellChange,
) -> CellChange
    ensures { result ≡ with_answer (answer (stored_in cells.now.entries) (element_in arrays.now.entries)) change.now }
{
    let cell = change.cell();
    CellChange::new(cell, keep::look(cells, arrays, &cell))
}

// The ranges of a domain, if it has some.
fn ranges_in(cells: &StoredCells, domain: &Name) -> Option<AnyRect>
    ensures { result ≡ ranges_in (stored_in cells.now.entries (shape_cell domain.now)) }
{
    let shape = cells.get(&Cell::Shape(*domain));
    match &shape {
        Some(Value::Ranges(ranges)) => Some(*ranges),
        _ => None,
    }
}

// The changes that set the cells `In` of a domain at the indices of a rectangle to what they are now, as a run: either all of
// them are in the domain, or none is. `None` where neither is known.
fn inside_before(cells: &StoredCells, domain: &Name, ranges: &AnyRect) -> Option<RunForm>
    ensures { IfSome result (λ f. (element : List ℕ → index_type → Option ℤ) (n : Option ℤ) →
        changes_in f ≡ map (with_answer (answer (stored_in cells.now.entries) element)) (packed_changes (inside_row domain.now)
        (rectangle_entries ranges.now n))) }
{
    match ranges_in(cells, domain) {
        Some(there) => {
            if there.is_same(ranges) {
                Some(RunForm::Rectangle(RectangleChanges::new(
                    IndexedRow::Inside(*domain),
                    *ranges,
                    Some(0),
                )))
            } else {
                None
            }
        }
        None => Some(RunForm::Rectangle(RectangleChanges::new(
            IndexedRow::Inside(*domain),
            *ranges,
            None,
        ))),
    }
}

// The changes that set the elements at the indices of a rectangle to what they are now, as a run; `None` where the elements are
// not known to be those.
fn known_before(
    alloc: Global,
    elements: &Elements,
    array: &Name,
    ranges: &AnyRect,
) -> Result<Option<RunForm>, NoMemory>
    ensures { IfOk result (λ o. IfSome o (λ f. (stored : cell_type → Option value_type) (element : List ℕ → index_type → Option ℤ) (n : Option ℤ) →
        ((i : index_type) → element array.now i ≡ element_at elements.now.0 i) →
        changes_in f ≡ map (with_answer (answer stored element)) (packed_changes (element_row array.now) (rectangle_entries ranges.now n)))) }
{
    if !elements.has_ranges(ranges) {
        return Ok(None);
    }
    match elements.numbers(alloc) {
        Ok(numbers) => Ok(Some(RunForm::Numbers(RectangleNumbers::new(
            IndexedRow::Elements(*array),
            *ranges,
            numbers,
        )))),
        Err(why) => Err(why),
    }
}

// The changes that set the elements of an array at the indices of a rectangle to what they are now, as a run; `None` where they
// are to be told one by one.
fn elements_before(
    alloc: Global,
    arrays: &BTreeMap<Name, Elements>,
    array: &Name,
    ranges: &AnyRect,
) -> Result<Option<RunForm>, NoMemory>
    ensures { IfOk result (λ o. IfSome o (λ f. (stored : cell_type → Option value_type) (n : Option ℤ) →
        changes_in f ≡ map (with_answer (answer stored (element_in arrays.now.entries))) (packed_changes (element_row array.now)
        (rectangle_entries ranges.now n)))) }
{
    match arrays.get(array) {
        Some(elements) => known_before(alloc, elements, array, ranges),
        None => Ok(Some(RunForm::Rectangle(RectangleChanges::new(
            IndexedRow::Elements(*array),
            *ranges,
            None,
        )))),
    }
}

// The changes that set the cells of a row at the indices of a rectangle to what they are now, as a run; `None` where they are to
// be told one by one.
fn rectangle_before(
    alloc: Global,
    cells: &StoredCells,
    arrays: &BTreeMap<Name, Elements>,
    row: &IndexedRow,
    ranges: &AnyRect,
) -> Result<Option<RunForm>, NoMemory>
    ensures { IfOk result (λ o. IfSome o (λ f. (n : Option ℤ) →
        changes_in f ≡ map (with_answer (answer (stored_in cells.now.entries) (element_in arrays.now.entries))) (packed_changes row.now
        (rectangle_entries ranges.now n)))) }
{
    match row {
        IndexedRow::Inside(domain) => Ok(inside_before(cells, domain, ranges)),
        IndexedRow::Members(_) => Ok(None),
        IndexedRow::Elements(array) => elements_before(alloc, arrays, array, ranges),
    }
}

// The changes that take back a rectangle of changes to one number, or to absent: they set its cells to what they are now, as a
// run. `None` where they are to be told one by one.
fn same_before(
    alloc: Global,
    cells: &StoredCells,
    arrays: &BTreeMap<Name, Elements>,
    block: &RectangleChanges,
) -> Result<Option<RunForm>, NoMemory>
    ensures { IfOk result (λ o. IfSome o (λ f.
        changes_in f ≡ map (with_answer (answer (stored_in cells.now.entries) (element_in arrays.now.entries))) (packed_changes block.now.row
        (rectangle_entries block.now.ranges block.now.number)))) }
{
    rectangle_before(alloc, cells, arrays, block.row(), block.ranges())
}

// The changes that take back a rectangle of changes to a number each: they set its cells to what they are now, as a run. `None`
// where they are to be told one by one.
fn each_before(
    alloc: Global,
    cells: &StoredCells,
    arrays: &BTreeMap<Name, Elements>,
    block: &RectangleNumbers,
) -> Result<Option<RunForm>, NoMemory>
    ensures { IfOk result (λ o. IfSome o (λ f.
        changes_in f ≡ map (with_answer (answer (stored_in cells.now.entries) (element_in arrays.now.entries))) (packed_changes block.now.row
        (numbered_entries block.now.ranges block.now.numbers.items)))) }
{
    let ranges = block.ranges();
    let count = block.numbers().len();
    if count < ranges.size() {
        return Ok(None);
    }
    rectangle_before(alloc, cells, arrays, block.row(), ranges)
}

// The array of a row of elements.
fn array_of(row: &IndexedRow) -> Option<Name>
    ensures { IfSome result (λ a. row.now ≡ element_row a) }
{
    match row {
        IndexedRow::Inside(_) => None,
        IndexedRow::Members(_) => None,
        IndexedRow::Elements(array) => Some(*array),
    }
}

// The changes that set elements at integers to what they are now, as a run; `None` where the cells are no elements.
fn line_before(
    alloc: Global,
    arrays: &BTreeMap<Name, Elements>,
    packed: &Packed<1>,
) -> Result<Option<RunForm>, NoMemory>
    ensures { IfOk result (λ o. IfSome o (λ f. (stored : cell_type → Option value_type) →
        changes_in f ≡ map (with_answer (answer stored (element_in arrays.now.entries))) (packed_changes packed.now.row packed.now.changes.items))) }
{
    let Some(array) = array_of(packed.row()) else {
        return Ok(None);
    };
    match keep::elements_at(alloc, arrays, &array, packed.changes()) {
        Ok(found) => Ok(Some(RunForm::Rank1(Packed::new(IndexedRow::Elements(array), found)))),
        Err(why) => Err(why),
    }
}

// The changes that set elements at pairs to what they are now, as a run; `None` where the cells are no elements.
fn plane_before(
    alloc: Global,
    arrays: &BTreeMap<Name, Elements>,
    packed: &Packed<2>,
) -> Result<Option<RunForm>, NoMemory>
    ensures { IfOk result (λ o. IfSome o (λ f. (stored : cell_type → Option value_type) →
        changes_in f ≡ map (with_answer (answer stored (element_in arrays.now.entries))) (packed_changes packed.now.row packed.now.changes.items))) }
{
    let Some(array) = array_of(packed.row()) else {
        return Ok(None);
    };
    match keep::elements_at(alloc, arrays, &array, packed.changes()) {
        Ok(found) => Ok(Some(RunForm::Rank2(Packed::new(IndexedRow::Elements(array), found)))),
        Err(why) => Err(why),
    }
}

// The changes that set elements at triples to what they are now, as a run; `None` where the cells are no elements.
fn solid_before(
    alloc: Global,
    arrays: &BTreeMap<Name, Elements>,
    packed: &Packed<3>,
) -> Result<Option<RunForm>, NoMemory>
    ensures { IfOk result (λ o. IfSome o (λ f. (stored : cell_type → Option value_type) →
        changes_in f ≡ map (with_answer (answer stored (element_in arrays.now.entries))) (packed_changes packed.now.row packed.now.changes.items))) }
{
    let Some(array) = array_of(packed.row()) else {
        return Ok(None);
    };
    match keep::elements_at(alloc, arrays, &array, packed.changes()) {
        Ok(found) => Ok(Some(RunForm::Rank3(Packed::new(IndexedRow::Elements(array), found)))),
        Err(why) => Err(why),
    }
}

// The changes that set the cells of a run to what they are now, as a run; `None` where they are to be told one by one.
fn form_before(
    alloc: Global,
    cells: &StoredCells,
    arrays: &BTreeMap<Name, Elements>,
    form: &RunForm,
) -> Result<Option<RunForm>, NoMemory>
    ensures { IfOk result (λ o. IfSome o (λ f.
        changes_in f ≡ map (with_answer (answer (stored_in cells.now.entries) (element_in arrays.now.entries))) (changes_in form.now))) }
{
    match form {
        RunForm::One(_) => Ok(None),
        RunForm::Rank1(packed) => line_before(alloc, arrays, packed),
        RunForm::Rank2(packed) => plane_before(alloc, arrays, packed),
        RunForm::Rank3(packed) => solid_before(alloc, arrays, packed),
        RunForm::Labels(_) => Ok(None),
        RunForm::Rectangle(block) => same_before(alloc, cells, arrays, block),
        RunForm::Numbers(block) => each_before(alloc, cells, arrays, block),
    }
}

// The changes that set the cells of a run to what they are now, as a run, also where they are members; `None` where they are to
// be told one by one.
fn run_before(
    alloc: Global,
    cells: &StoredCells,
    arrays: &BTreeMap<Name, Elements>,
    form: &RunForm,
) -> Result<Option<RunForm>, NoMemory>
    ensures { IfOk result (λ o. IfSome o (λ f.
        changes_in f ≡ map (with_answer (answer (stored_in cells.now.entries) (element_in arrays.now.entries))) (changes_in form.now))) }
{
    match members_before(alloc, cells, form) {
        Ok(Some(before)) => Ok(Some(before)),
        Ok(None) => form_before(alloc, cells, arrays, form),
        Err(why) => Err(why),
    }
}

// Adds the changes that set the cells of a run to what they are now, one by one.
fn add_each_before(
    alloc: Global,
    cells: &StoredCells,
    arrays: &BTreeMap<Name, Elements>,
    changes: &ChangeRun,
    before: &mut Changes,
) -> Result<(), NoMemory>
    ensures { OnOk result (before.new ≡ before.old ++
        map (with_answer (answer (stored_in cells.now.entries) (element_in arrays.now.entries))) (changes_in changes.now.form)) }
{
    for at in 0..changes.len() {
        before.push(alloc, value_before(cells, arrays, &changes.change(at)))?;
    }
    Ok(())
}

// Adds the changes that set the cells of a run to what they are now, as a run where that can be.
fn add_run_before(
    alloc: Global,
    cells: &StoredCells,
    arrays: &BTreeMap<Name, Elements>,
    run: &ChangeRun,
    before: &mut Changes,
) -> Result<(), NoMemory>
    ensures { OnOk result (before.new ≡ before.old ++
        map (with_answer (answer (stored_in cells.now.entries) (element_in arrays.now.entries))) (changes_in run.now.form)) }
{
    match run_before(alloc, cells, arrays, run.form()) {
        Ok(Some(form)) => before.push_run(alloc, form),
        Ok(None) => add_each_before(alloc, cells, arrays, run, before),
        Err(why) => Err(why),
    }
}

// Adds the changes that set the cells of runs to what they are now, one run after another.
fn add_runs_before(
    alloc: Global,
    cells: &StoredCells,
    arrays: &BTreeMap<Name, Elements>,
    runs: &[ChangeRun],
    before: &mut Changes,
) -> Result<(), NoMemory>
    ensures { OnOk result (before.new ≡ before.old ++
        map (with_answer (answer (stored_in cells.now.entries) (element_in arrays.now.entries))) (all_changes runs.now)) }
{
    for run in runs {
        add_run_before(alloc, cells, arrays, run, before)?;
    }
    Ok(())
}

/// The changes that set the cells to what they are now.
pub(crate) fn values_before(
    alloc: Global,
    cells: &StoredCells,
    arrays: &BTreeMap<Name, Elements>,
    delta: &Changes,
) -> Result<Changes, NoMemory>
    ensures { IfOk result (λ v. v ≡
        map (λ x. record { cell = x.cell; value = answer (stored_in cells.now.entries) (element_in arrays.now.entries) x.cell }) delta.now) }
{
    let (first, runs) = delta.parts();
    let Some(first) = first else {
        let mut before = Changes::new();
        add_runs_before(alloc, cells, arrays, runs, &mut before)?;
        return Ok(before);
    };
    let mut before = Changes::one(value_before(cells, arrays, &first));
    add_runs_before(alloc, cells, arrays, runs, &mut before)?;
    Ok(before)
}

/// The elements of an array after changes of them, by how it lies then; `None` where they are as they were.
pub(crate) fn after_one<V: Mover>(
    alloc: Global,
    changes: &[(AnyIndex, Option<i64>)],
    elements: &Elements,
    lies: &(AnyLayout, u8),
    mover: &V,
) -> Result<Option<Elements>, MoveErr>
    requires may_lie { MayLie lies.now.0 lies.now.1 }
    requires formed { IsFormed changes.now lies.now elements.now.0 }
    ensures after { IfOk result (IsAfter changes.now lies.now elements.now) }
    ensures no_thread { result ≡ Err MoveErr.NoThread → V.may_lack_threads mover.now }
{
    let (to, rank) = *lies;
    if changes.is_empty() {
        if elements.lies_by(&to, rank) {
            return Ok(None);
        }
        if 1 <= rank && elements.rank() == rank && to.is_of_rank(rank) {
            let moved = elements.remapped(alloc, &to, mover)?;
            return Ok(Some(moved));
        }
    }
    let Ok(pairs) = elements.pairs(alloc) else {
        return Err(MoveErr::NoMemory);
    };
    match Elements::made(alloc, pairs.as_slice(), changes, &to, rank) {
        Ok(fresh) => Ok(Some(fresh)),
        Err(_) => Err(MoveErr::NoMemory),
    }
}

// The elements of an array after changes at the indices of a rectangle, by how it lies then; `None` where they are as they were.
fn after_block<V: Mover, B: ChangeBlock>(
    alloc: Global,
    block: &B,
    elements: &Elements,
    lies: &(AnyLayout, u8),
    mover: &V,
) -> Result<Option<Elements>, MoveErr>
    requires may_lie { MayLie lies.now.0 lies.now.1 }
    requires formed { IsFormed (as_changes point_index (B.entries block.now)) lies.now elements.now.0 }
    ensures after { IfOk result (IsAfter (as_changes point_index (B.entries block.now)) lies.now elements.now) }
    ensures no_thread { result ≡ Err MoveErr.NoThread → V.may_lack_threads mover.now }
{
    if elements.len() == 0 {
        match Elements::of_block(alloc, block, &lies.0, lies.1) {
            Ok(Some(fresh)) => {
                // For the proof: the elements stand in the order of their indices.
                let _ascending = fresh.len();
                return Ok(Some(fresh));
            }
            Ok(None) => {}
            Err(_) => return Err(MoveErr::NoMemory),
        }
    }
    let Ok(changes) = list_of(alloc, block) else {
        return Err(MoveErr::NoMemory);
    };
    after_one(alloc, changes.as_slice(), elements, lies, mover)
}

// The elements of an array after the changes that are kept for it, by how it lies then; `None` where they are as they were.
fn after_group<V: Mover>(
    alloc: Global,
    group: &Group,
    elements: &Elements,
    lies: &(AnyLayout, u8),
    mover: &V,
) -> Result<Option<Elements>, MoveErr>
    requires may_lie { MayLie lies.now.0 lies.now.1 }
    requires formed { IsFormed group.now lies.now elements.now.0 }
    ensures after { IfOk result (IsAfter group.now lies.now elements.now) }
    ensures no_thread { result ≡ Err MoveErr.NoThread → V.may_lack_threads mover.now }
{
    match group.kept() {
        KeptChanges::Listed(changes) => after_one(alloc, changes.as_slice(), elements, lies, mover),
        KeptChanges::Same(block) => after_block(alloc, block, elements, lies, mover),
        KeptChanges::Each(block) => after_block(alloc, block, elements, lies, mover),
    }
}

// The ranges of the domain of an array, where that is rectangular.
fn ranges_over(cells: &StoredCells, array: &Name) -> Option<AnyRect>
    ensures { (d : List ℕ) (k : Kind) → stored_in cells.now.entries (object_cell array.now) ≡ Some (array_value d k) →
        result ≡ ranges_in (stored_in cells.now.entries (shape_cell d)) }
{
    let object = cells.get(&Cell::Object(*array));
    match &object {
        Some(Value::Array(domain, _)) => ranges_in(cells, domain),
        _ => None,
    }
}

// An array that was made, with the ranges of its domain noted, where it stands at their indices.
fn noted(
    alloc: Global,
    cells: &StoredCells,
    name: &Name,
    made: Option<Elements>,
) -> Option<Elements>
    ensures { result ≡ made }
{
    let mut made = made?;
    if made.ranges().is_some() {
        return Some(made);
    }
    if let Some(ranges) = ranges_over(cells, name) {
        made.note_ranges(alloc, &ranges);
    }
    Some(made)
}

// The array of a name after changes of its elements, as `after_one`, by how it lies by the stored cells.
fn after_named<V: Mover>(
    alloc: Global,
    cells: &StoredCells,
    arrays: &BTreeMap<Name, Elements>,
    name: &Name,
    group: &Group,
    mover: &V,
) -> Result<Option<Elements>, MoveErr>
    requires { (p : Pieced) (l : LayoutMap × ℕ) → array_in arrays.now.entries name.now ≡ Some p →
        lies_at (stored_in cells.now.entries) name.now ≡ Some l → IsFormed group.now l p.0 }
    ensures after { IfOk result (λ o. (p : Pieced) (l : LayoutMap × ℕ) → array_in arrays.now.entries name.now ≡ Some p →
        lies_at (stored_in cells.now.entries) name.now ≡ Some l → IsAfter group.now l p o) }
    ensures no_thread { result ≡ Err MoveErr.NoThread → V.may_lack_threads mover.now }
{
    match arrays.get(name) {
        Some(elements) => match lies(cells, name) {
            Some(lies) => {
                let made = after_group(alloc, group, elements, &lies, mover)?;
                Ok(noted(alloc, cells, name, made))
            }
            None => Ok(None),
        },
        None => Ok(None),
    }
}

/// The arrays that are named and are others after changes, in the order of their names.
pub(crate) fn build_arrays<V: Mover>(
    alloc: Global,
    cells: &StoredCells,
    arrays: &BTreeMap<Name, Elements>,
    groups: &BTreeMap<Name, Group>,
    mover: &V,
) -> Result<Vec<(Name, Elements)>, MoveErr>
    requires { AreFormed (lies_at (stored_in cells.now.entries)) arrays.now.entries groups.now.entries }
    ensures built { IfOk result (λ v. AreAfter (lies_at (stored_in cells.now.entries)) arrays.now.entries groups.now.entries v.items) }
    ensures no_thread { result ≡ Err MoveErr.NoThread → V.may_lack_threads mover.now }
{
    let mut built = Vec::new(alloc);
    for (name, group) in groups {
        let fresh = after_named(alloc, cells, arrays, name, group, mover)?;
        match fresh {
            Some(fresh) => {
                if built.push((*name, fresh)).is_err() {
                    return Err(MoveErr::NoMemory);
                }
            }
            None => {}
        }
    }
    Ok(built)
}
