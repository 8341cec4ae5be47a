//! What is kept of a workbook.

ghost use Rattle.std.specs.Prelude.{◌≡◌, ℕ, List, cond, true, false, None, is_some, option_map, IfOk, IfNone};
ghost use Rattle.std.specs.List.{list_all};
ghost use Rattle.selective_undo.specs.Changes.{applied, apply};
ghost use Rattle.wb_cells.specs.declared.values.index.Index.{Index};
ghost use Rattle.std.specs.BTreeMap.{is_at};
ghost use Rattle.std.specs.Map.{keys_of, set_value};
ghost use Rattle.wb_arrays.specs.Elements.{value_at};
ghost use Rattle.wb_cells.specs.Cells.{Cells, index_cmp, is_same_name};
ghost use Rattle.wb_cells.specs.Runs.{changes_in, all_changes, packed_changes, labelled_changes};
ghost use Rattle.wb_cells.specs.declared.values.index.Index.TheVariants.{Point as point_index};
ghost use Rattle.wb_book.specs.Kept.{array_in, with_element, with_elements, Agree, number_in, is_set};
ghost use Rattle.wb_elements.specs.Entries.{row_changes, read_at};
ghost use Rattle.wb_cells.specs.declared.cells.cell.Cell.TheVariants.{Shape};
ghost use Rattle.wb_cells.specs.declared.cells.value.Value.TheVariants.{Number};
ghost use Rattle.wb_cells.specs.WellFormed.{inside_of, ranges_in};
ghost use Rattle.wb_book.specs.Joined.{answer, stored_in, element_in};

use std::alloc::Global;
use std::collections::BTreeMap;
use wb_cells::{
    AnyIndex, AsIndex, Cell, CellChange, ChangeRun, Changes, IndexedRow, LabelChanges, Name,
    RunForm, StoredCells, Value,
};
use wb_elements::{ChangeBlock, Elements, PieceKey, is_block_there, write_block};
use wb_range::NoMemory;

// Whether an index is in a rectangular domain.
fn inside(cells: &StoredCells, domain: &Name, index: &AnyIndex) -> Option<Value>
    ensures { result ≡ inside_of (ranges_in (stored_in cells.now.entries (Shape domain.now))) index.now }
{
    let shape = cells.get(&Cell::Shape(*domain));
    match &shape {
        Some(Value::Ranges(rect)) => {
            if rect.contains(index) {
                Some(Value::Present)
            } else {
                None
            }
        }
        _ => None,
    }
}

/// The element of an array at an index.
pub(crate) fn element(
    arrays: &BTreeMap<Name, Elements>,
    array: &Name,
    index: &AnyIndex,
) -> Option<i64>
    ensures { result ≡ element_in arrays.now.entries array.now index.now }
{
    match arrays.get(array) {
        Some(elements) => elements.find(index).0,
        None => None,
    }
}

// A number that is there, as a value.
fn as_value(number: Option<i64>) -> Option<Value>
    ensures { result ≡ option_map Number number }
{
    match number {
        Some(number) => Some(Value::Number(number)),
        None => None,
    }
}

/// What stands in a cell.
pub(crate) fn look(
    cells: &StoredCells,
    arrays: &BTreeMap<Name, Elements>,
    cell: &Cell,
) -> Option<Value>
    ensures { result ≡ answer (stored_in cells.now.entries) (element_in arrays.now.entries) cell.now }
{
    match cell {
        Cell::In(domain, index) => inside(cells, domain, index),
        Cell::Element(array, index) => as_value(element(arrays, array, index)),
        Cell::Object(_)
        | Cell::Shape(_)
        | Cell::Member(_, _)
        | Cell::Mapping(_)
        | Cell::Use(_, _)
        | Cell::Implicit(_) => cells.get(cell),
    }
}

/// The elements of an array at the keys of changes, each after its key.
pub(crate) fn elements_at<I: PieceKey>(
    alloc: Global,
    arrays: &BTreeMap<Name, Elements>,
    array: &Name,
    changes: &[(I, Option<i64>)],
) -> Result<Vec<(I, Option<i64>)>, NoMemory>
    ensures { IfOk result (λ v. v.items ≡ read_at I.as_index (element_in arrays.now.entries array.now) changes.now) }
{
    match arrays.get(array) {
        Some(elements) => I::read_all(alloc, elements, changes),
        None => absent_at(alloc, changes),
    }
}

fn absent_at<I: AsIndex>(
    alloc: Global,
    changes: &[(I, Option<i64>)],
) -> Result<Vec<(I, Option<i64>)>, NoMemory>
    ensures { IfOk result (λ v. v.items ≡ read_at I.as_index (λ i. None) changes.now) }
{
    let mut found = Vec::with_capacity(alloc, changes.len())?;
    for (index, _) in changes {
        if found.push((*index, None)).is_err() {
            return Err(NoMemory);
        }
    }
    Ok(found)
}

// Replaces the element of an array at an index that it has.
fn set_element(arrays: &mut BTreeMap<Name, Elements>, array: &Name, index: &AnyIndex, value: &i64)
    ensures arrays { (b : List ℕ) → array_in arrays.new.entries b ≡ cond (is_same_name array.now b)
        (with_element (array_in arrays.old.entries b) index.now value.now) (array_in arrays.old.entries b) }
    ensures names { keys_of arrays.new.entries ≡ keys_of arrays.old.entries }
{
    let number = *value;
    match arrays.get_mut(array) {
        Some(elements) => {
            elements.set_near(index, number, 0);
        }
        None => {}
    }
}

/// Replaces the element of an array at an index, if there is one: what it was. It is looked for once.
pub(crate) fn replace(
    arrays: &mut BTreeMap<Name, Elements>,
    array: &Name,
    index: &AnyIndex,
    value: &i64,
) -> Option<i64>
    ensures was { result ≡ element_in arrays.old.entries array.now index.now }
    ensures arrays { (b : List ℕ) → array_in arrays.new.entries b ≡ cond (is_same_name array.now b)
        (with_element (array_in arrays.old.entries b) index.now value.now) (array_in arrays.old.entries b) }
    ensures names { keys_of arrays.new.entries ≡ keys_of arrays.old.entries }
    ensures none { IfNone result (arrays.new.entries ≡ arrays.old.entries) }
{
    match arrays.get_mut(array) {
        Some(elements) => replace_in(elements, index, value),
        None => None,
    }
}

// Replaces the element at an index, if there is one: what it was. The place where it was found is where it is written.
fn replace_in(elements: &mut Elements, index: &AnyIndex, value: &i64) -> Option<i64>
    ensures was { result ≡ value_at index_cmp elements.old.0 index.now }
    ensures elements { elements.new ≡ (set_value (is_at (index_cmp index.now)) elements.old.0 value.now, elements.old.1) }
{
    let number = *value;
    let (was, place) = elements.find(index);
    match was {
        Some(_) => {
            elements.set_near(index, number, place);
            was
        }
        None => None,
    }
}

// The number that a change sets, if it sets one.
fn number_in(change: &CellChange) -> Option<i64>
    ensures { result ≡ number_in change.now.value }
{
    match change.as_value() {
        Some(Value::Number(number)) => Some(*number),
        Some(
            Value::Domain(_)
            | Value::Array(_, _)
            | Value::Ranges(_)
            | Value::Mapping(_)
            | Value::Present
            | Value::Bound(_),
        ) => None,
        None => None,
    }
}

// Makes a change that sets an element that is there; says whether it is such a one.
fn set_if_there(arrays: &mut BTreeMap<Name, Elements>, change: &CellChange) -> bool
    ensures set { result ≡ is_set (element_in arrays.old.entries) change.now }
    ensures agree { result ≡ true → (s : Cells) → Agree arrays.old.entries s → Agree arrays.new.entries (applied change.now s) }
    ensures names { keys_of arrays.new.entries ≡ keys_of arrays.old.entries }
    ensures lie { (b : List ℕ) → option_map (λ p. p.1) (array_in arrays.new.entries b) ≡ option_map (λ p. p.1) (array_in arrays.old.entries b) }
    ensures left { result ≡ false → arrays.new.entries ≡ arrays.old.entries }
{
    match change.as_cell() {
        Cell::Element(array, index) => match number_in(change) {
            Some(number) => replace(arrays, array, index, &number).is_some(),
            None => false,
        },
        Cell::Object(_)
        | Cell::Shape(_)
        | Cell::In(_, _)
        | Cell::Member(_, _)
        | Cell::Mapping(_)
        | Cell::Use(_, _)
        | Cell::Implicit(_) => false,
    }
}

/// Makes the changes where they are one that sets an element that is there; says whether they are. The element is looked for
/// once.
pub(crate) fn set_lone(arrays: &mut BTreeMap<Name, Elements>, delta: &Changes) -> bool
    ensures set { result ≡ true → list_all (is_set (element_in arrays.old.entries)) delta.now ≡ true }
    ensures agree { result ≡ true → (s : Cells) → Agree arrays.old.entries s → Agree arrays.new.entries (apply delta.now s) }
    ensures names { keys_of arrays.new.entries ≡ keys_of arrays.old.entries }
    ensures lie { (b : List ℕ) → option_map (λ p. p.1) (array_in arrays.new.entries b) ≡ option_map (λ p. p.1) (array_in arrays.old.entries b) }
    ensures left { result ≡ false → arrays.new.entries ≡ arrays.old.entries }
{
    let (first, runs) = delta.parts();
    let Some(first) = first else {
        return false;
    };
    if !runs.is_empty() {
        return false;
    }
    set_if_there(arrays, &first)
}

// Whether a change sets an element that is there.
fn is_set(arrays: &BTreeMap<Name, Elements>, change: &CellChange) -> bool
    ensures { result ≡ is_set (element_in arrays.now.entries) change.now }
{
    match change.as_cell() {
        Cell::Element(array, index) => {
            let found = element(arrays, array, index);
            number_in(change).is_some() && found.is_some()
        }
        Cell::Object(_)
        | Cell::Shape(_)
        | Cell::In(_, _)
        | Cell::Member(_, _)
        | Cell::Mapping(_)
        | Cell::Use(_, _)
        | Cell::Implicit(_) => false,
    }
}

// Whether each change of cells of a row sets an element that is there.
fn are_entries_set<I: PieceKey>(
    arrays: &BTreeMap<Name, Elements>,
    row: &IndexedRow,
    changes: &[(I, Option<i64>)],
) -> bool
    ensures { result ≡ list_all (is_set (element_in arrays.now.entries)) (row_changes I.as_index row.now changes.now) }
{
    match row {
        IndexedRow::Inside(_) => changes.is_empty(),
        IndexedRow::Members(_) => changes.is_empty(),
        IndexedRow::Elements(array) => match arrays.get(array) {
            Some(elements) => I::are_set(elements, changes),
            None => changes.is_empty(),
        },
    }
}

// Whether each change at the indices of a rectangle sets an element that is there.
fn is_block_set<B: ChangeBlock>(arrays: &BTreeMap<Name, Elements>, block: &B) -> bool
    ensures { result ≡ list_all (is_set (element_in arrays.now.entries)) (packed_changes (B.row_of block.now) (B.entries block.now)) }
{
    match block.of_row() {
        IndexedRow::Inside(_) => block.many() == 0,
        IndexedRow::Members(_) => block.many() == 0,
        IndexedRow::Elements(array) => match arrays.get(&array) {
            Some(elements) => is_block_there(elements, block),
            None => block.many() == 0,
        },
    }
}

// Whether each change at labels sets an element that is there.
fn are_labels_set(arrays: &BTreeMap<Name, Elements>, labels: &LabelChanges) -> bool
    ensures { result ≡ list_all (is_set (element_in arrays.now.entries)) (labelled_changes labels.now.0 labels.now.1) }
{
    for at in 0..labels.len() {
        if !is_set(arrays, &labels.change(at)) {
            return false;
        }
    }
    true
}

// Whether each change of a run sets an element that is there.
fn is_run_set(arrays: &BTreeMap<Name, Elements>, form: &RunForm) -> bool
    ensures { result ≡ list_all (is_set (element_in arrays.now.entries)) (changes_in form.now) }
{
    match form {
        RunForm::One(change) => is_set(arrays, change),
        RunForm::Rank1(packed) => are_entries_set(arrays, packed.row(), packed.changes()),
        RunForm::Rank2(packed) => are_entries_set(arrays, packed.row(), packed.changes()),
        RunForm::Rank3(packed) => are_entries_set(arrays, packed.row(), packed.changes()),
        RunForm::Labels(labels) => are_labels_set(arrays, labels),
        RunForm::Rectangle(block) => is_block_set(arrays, block),
        RunForm::Numbers(block) => is_block_set(arrays, block),
    }
}

// Whether each change of runs sets an element that is there.
fn are_runs_set(arrays: &BTreeMap<Name, Elements>, runs: &[ChangeRun]) -> bool
    ensures { result ≡ list_all (is_set (element_in arrays.now.entries)) (all_changes runs.now) }
{
    for run in runs {
        if !is_run_set(arrays, run.form()) {
            return false;
        }
    }
    true
}

/// Whether each of the changes sets an element that is there.
pub(crate) fn are_set(arrays: &BTreeMap<Name, Elements>, delta: &Changes) -> bool
    ensures { result ≡ list_all (is_set (element_in arrays.now.entries)) delta.now }
{
    let (first, runs) = delta.parts();
    let Some(first) = first else {
        return are_runs_set(arrays, runs);
    };
    if !is_set(arrays, &first) {
        return false;
    }
    are_runs_set(arrays, runs)
}

// Sets an element that is there.
fn set_one(arrays: &mut BTreeMap<Name, Elements>, change: &CellChange)
    requires { is_set (element_in arrays.old.entries) change.now ≡ true }
    ensures agree { (s : Cells) → Agree arrays.old.entries s → Agree arrays.new.entries (applied change.now s) }
    ensures there { (b : List ℕ) (i : Index) → is_some (element_in arrays.new.entries b i) ≡ is_some (element_in arrays.old.entries b i) }
    ensures names { keys_of arrays.new.entries ≡ keys_of arrays.old.entries }
    ensures lie { (b : List ℕ) → option_map (λ p. p.1) (array_in arrays.new.entries b) ≡ option_map (λ p. p.1) (array_in arrays.old.entries b) }
{
    match change.as_cell() {
        Cell::Element(array, index) => match number_in(change) {
            Some(number) => set_element(arrays, array, index, &number),
            None => unreachable!(),
        },
        _ => unreachable!(),
    }
}

// Sets the elements of an array that are there.
fn set_elements<I: PieceKey>(
    arrays: &mut BTreeMap<Name, Elements>,
    array: &Name,
    changes: &[(I, Option<i64>)],
)
    ensures arrays { (b : List ℕ) → array_in arrays.new.entries b ≡ cond (is_same_name array.now b)
        (with_elements I.as_index (array_in arrays.old.entries b) changes.now) (array_in arrays.old.entries b) }
    ensures names { keys_of arrays.new.entries ≡ keys_of arrays.old.entries }
{
    match arrays.get_mut(array) {
        Some(elements) => I::set_all(elements, changes),
        None => {}
    }
}

// Makes changes of cells of a row, each of which sets an element that is there.
fn set_entries<I: PieceKey>(
    arrays: &mut BTreeMap<Name, Elements>,
    row: &IndexedRow,
    changes: &[(I, Option<i64>)],
)
    requires { list_all (is_set (element_in arrays.old.entries)) (row_changes I.as_index row.now changes.now) ≡ true }
    ensures agree { (s : Cells) → Agree arrays.old.entries s → Agree arrays.new.entries (apply (row_changes I.as_index row.now changes.now) s) }
    ensures there { (b : List ℕ) (i : Index) → is_some (element_in arrays.new.entries b i) ≡ is_some (element_in arrays.old.entries b i) }
    ensures names { keys_of arrays.new.entries ≡ keys_of arrays.old.entries }
    ensures lie { (b : List ℕ) → option_map (λ p. p.1) (array_in arrays.new.entries b) ≡ option_map (λ p. p.1) (array_in arrays.old.entries b) }
{
    match row {
        IndexedRow::Inside(_) => {}
        IndexedRow::Members(_) => {}
        IndexedRow::Elements(array) => set_elements(arrays, array, changes),
    }
}

// Sets the elements of an array that are there at indices of a rectangle.
fn set_over<B: ChangeBlock>(arrays: &mut BTreeMap<Name, Elements>, array: &Name, block: &B)
    ensures arrays { (b : List ℕ) → array_in arrays.new.entries b ≡ cond (is_same_name array.now b)
        (with_elements point_index (array_in arrays.old.entries b) (B.entries block.now)) (array_in arrays.old.entries b) }
    ensures names { keys_of arrays.new.entries ≡ keys_of arrays.old.entries }
{
    match arrays.get_mut(array) {
        Some(elements) => write_block(elements, block),
        None => {}
    }
}

// Makes changes of cells of a row at the indices of a rectangle, each of which sets an element that is there.
fn set_block<B: ChangeBlock>(arrays: &mut BTreeMap<Name, Elements>, block: &B)
    requires { list_all (is_set (element_in arrays.old.entries)) (packed_changes (B.row_of block.now) (B.entries block.now)) ≡ true }
    ensures agree { (s : Cells) → Agree arrays.old.entries s → Agree arrays.new.entries (apply (packed_changes (B.row_of block.now) (B.entries block.now)) s) }
    ensures there { (b : List ℕ) (i : Index) → is_some (element_in arrays.new.entries b i) ≡ is_some (element_in arrays.old.entries b i) }
    ensures names { keys_of arrays.new.entries ≡ keys_of arrays.old.entries }
    ensures lie { (b : List ℕ) → option_map (λ p. p.1) (array_in arrays.new.entries b) ≡ option_map (λ p. p.1) (array_in arrays.old.entries b) }
{
    match block.of_row() {
        IndexedRow::Inside(_) => {}
        IndexedRow::Members(_) => {}
        IndexedRow::Elements(array) => set_over(arrays, &array, block),
    }
}

// Makes changes at labels, one by one, each of which sets an element that is there.
fn set_labels(arrays: &mut BTreeMap<Name, Elements>, labels: &LabelChanges)
    requires { list_all (is_set (element_in arrays.old.entries)) (labelled_changes labels.now.0 labels.now.1) ≡ true }
    ensures agree { (s : Cells) → Agree arrays.old.entries s → Agree arrays.new.entries (apply (labelled_changes labels.now.0 labels.now.1) s) }
    ensures there { (b : List ℕ) (i : Index) → is_some (element_in arrays.new.entries b i) ≡ is_some (element_in arrays.old.entries b i) }
    ensures names { keys_of arrays.new.entries ≡ keys_of arrays.old.entries }
    ensures lie { (b : List ℕ) → option_map (λ p. p.1) (array_in arrays.new.entries b) ≡ option_map (λ p. p.1) (array_in arrays.old.entries b) }
{
    for at in 0..labels.len() {
        set_one(arrays, &labels.change(at));
    }
}

// Makes the changes of a run, each of which sets an element that is there.
fn set_run(arrays: &mut BTreeMap<Name, Elements>, form: &RunForm)
    requires { list_all (is_set (element_in arrays.old.entries)) (changes_in form.now) ≡ true }
    ensures agree { (s : Cells) → Agree arrays.old.entries s → Agree arrays.new.entries (apply (changes_in form.now) s) }
    ensures there { (b : List ℕ) (i : Index) → is_some (element_in arrays.new.entries b i) ≡ is_some (element_in arrays.old.entries b i) }
    ensures names { keys_of arrays.new.entries ≡ keys_of arrays.old.entries }
    ensures lie { (b : List ℕ) → option_map (λ p. p.1) (array_in arrays.new.entries b) ≡ option_map (λ p. p.1) (array_in arrays.old.entries b) }
{
    match form {
        RunForm::One(change) => set_one(arrays, change),
        RunForm::Rank1(packed) => set_entries(arrays, packed.row(), packed.changes()),
        RunForm::Rank2(packed) => set_entries(arrays, packed.row(), packed.changes()),
        RunForm::Rank3(packed) => set_entries(arrays, packed.row(), packed.changes()),
        RunForm::Labels(labels) => set_labels(arrays, labels),
        RunForm::Rectangle(block) => set_block(arrays, block),
        RunForm::Numbers(block) => set_block(arrays, block),
    }
}

// Makes the changes of runs, one run after another, each of which sets an element that is there.
fn set_runs(arrays: &mut BTreeMap<Name, Elements>, runs: &[ChangeRun])
    requires { list_all (is_set (element_in arrays.old.entries)) (all_changes runs.now) ≡ true }
    ensures agree { (s : Cells) → Agree arrays.old.entries s → Agree arrays.new.entries (apply (all_changes runs.now) s) }
    ensures names { keys_of arrays.new.entries ≡ keys_of arrays.old.entries }
    ensures lie { (b : List ℕ) → option_map (λ p. p.1) (array_in arrays.new.entries b) ≡ option_map (λ p. p.1) (array_in arrays.old.entries b) }
{
    for run in runs {
        set_run(arrays, run.form());
    }
}

/// Sets elements that are there, in place.
pub(crate) fn set_all(arrays: &mut BTreeMap<Name, Elements>, delta: &Changes)
    requires { list_all (is_set (element_in arrays.old.entries)) delta.now ≡ true }
    ensures agree { (s : Cells) → Agree arrays.old.entries s → Agree arrays.new.entries (apply delta.now s) }
    ensures names { keys_of arrays.new.entries ≡ keys_of arrays.old.entries }
    ensures lie { (b : List ℕ) → option_map (λ p. p.1) (array_in arrays.new.entries b) ≡ option_map (λ p. p.1) (array_in arrays.old.entries b) }
{
    let (first, runs) = delta.parts();
    let Some(first) = first else {
        set_runs(arrays, runs);
        return;
    };
    set_one(arrays, &first);
    set_runs(arrays, runs);
}
