//! Changes by the arrays that they concern.

ghost use Rattle.std.specs.Prelude.{◌≡◌, ◌<◌, ℕ, List, [], ◌∷◌, ◌++◌, Option, None, true, false, cond, length, get_or, option_map, IsSome, IfOk, OnOk};
ghost use Rattle.std.specs.List.{list_all};
ghost use Rattle.std.specs.List.Sorted.{IsStrictlySortedBy};
ghost use Rattle.std.specs.Map.{keys_of};
ghost use Rattle.std.specs.Cmp.Lexicographic.{slice_cmp};
ghost use Rattle.std.specs.Ordering.{nat_cmp, eq_by_cmp};
ghost use Rattle.selective_undo.specs.declared.Change.{Change};
ghost use Rattle.selective_undo.specs.Changes.{changes};
ghost use Rattle.wb_cells.specs.declared.cells.cell.Cell.{Cell as cell_type};
ghost use Rattle.wb_cells.specs.declared.cells.cell.Cell.TheVariants.{Object};
ghost use Rattle.wb_cells.specs.declared.cells.value.Value.{Value as value_type};
ghost use Rattle.wb_cells.specs.declared.cells.value.Value.TheVariants.{Number as number_value};
ghost use Rattle.wb_cells.specs.Cells.{cell_cmp, is_same_name};
ghost use Rattle.wb_cells.specs.Runs.{changes_in as run_changes, all_changes, packed_changes, labelled_changes};
ghost use Rattle.wb_cells.specs.declared.values.index.Index.TheVariants.{Point as point_index};
ghost use Rattle.wb_elements.specs.Blocks.{listed};
ghost use Rattle.wb_elements.specs.Entries.{row_changes};
ghost use Rattle.wb_elements.specs.Piecewise.Marked.{as_changes};
ghost use Rattle.wb_book.specs.Joined.{stored_in};
ghost use Rattle.wb_book.specs.Groups.{group_in, changes_in, is_plain, is_numeric, LeadTo, leaves};
ghost use Rattle.wb_book.specs.Kept.{array_in};

use std::alloc::Global;
use std::collections::BTreeMap;
use std::marker::Model;
use std::mem;
use wb_cells::{
    AnyIndex, AsIndex, Cell, CellChange, ChangeRun, Changes, IndexedRow, LabelChanges, Name,
    RunForm, StoredCells, Value,
};
use wb_elements::{ChangeBlock, Elements, KeptChanges, list_block};
use wb_range::NoMemory;

/// Changes of the elements of an array: to a number, or to absent.
#[derive(Drop)]
pub(crate) struct Group {
    kept: KeptChanges,
}

impl Model for Group {
    ghost use Rattle.std.specs.Prelude.{List, Option, ℤ};
    ghost use Rattle.wb_cells.specs.declared.values.index.Index.{Index};
    ghost use Rattle.wb_elements.specs.Blocks.{listed};

    ghost Value = { List (Index × Option ℤ) };

    ghost view = { λ a. listed a.kept };
}

/// The changes, each by its index.
pub(crate) fn list_of<B: ChangeBlock>(
    alloc: Global,
    block: &B,
) -> Result<Vec<(AnyIndex, Option<i64>)>, NoMemory>
    ensures { IfOk result (λ v. v.items ≡ as_changes point_index (B.entries block.now)) }
{
    let mut list = Vec::with_capacity(alloc, block.many())?;
    list_block(&mut list, block)?;
    Ok(list)
}

// Changes that are kept, each by its index.
fn into_list(alloc: Global, kept: KeptChanges) -> Result<Vec<(AnyIndex, Option<i64>)>, NoMemory>
    ensures { IfOk result (λ v. v.items ≡ listed kept) }
{
    match kept {
        KeptChanges::Listed(list) => Ok(list),
        KeptChanges::Same(block) => list_of(alloc, &block),
        KeptChanges::Each(block) => list_of(alloc, &block),
    }
}

impl Group {
    fn new(alloc: Global) -> Group
        ensures { result ≡ [] }
    {
        Group {
            kept: KeptChanges::Listed(Vec::new(alloc)),
        }
    }

    // The changes, each by its index; none is left.
    fn take(&mut self, alloc: Global) -> Result<Vec<(AnyIndex, Option<i64>)>, NoMemory>
        ensures { IfOk result (λ v. v.items ≡ self.old) }
    {
        let kept = mem::replace(&mut self.kept, KeptChanges::Listed(Vec::new(alloc)));
        into_list(alloc, kept)
    }

    fn add(&mut self, alloc: Global, index: AnyIndex, number: Option<i64>) -> Result<(), NoMemory>
        ensures { OnOk result (self.new ≡ self.old ++ (index, number) ∷ []) }
    {
        let mut list = self.take(alloc)?;
        list.push((index, number))?;
        self.kept = KeptChanges::Listed(list);
        Ok(())
    }

    fn add_all<I: AsIndex>(
        &mut self,
        alloc: Global,
        changes: &[(I, Option<i64>)],
    ) -> Result<(), NoMemory>
        ensures { OnOk result (self.new ≡ self.old ++ as_changes I.as_index changes.now) }
    {
        let mut list = self.take(alloc)?;
        push_all(&mut list, changes)?;
        self.kept = KeptChanges::Listed(list);
        Ok(())
    }

    fn add_block<B: ChangeBlock>(&mut self, alloc: Global, block: &B) -> Result<(), NoMemory>
        ensures { OnOk result (self.new ≡ self.old ++ as_changes point_index (B.entries block.now)) }
    {
        let mut list = self.take(alloc)?;
        if list.is_empty() {
            self.kept = block.copied(alloc)?;
            return Ok(());
        }
        list_block(&mut list, block)?;
        self.kept = KeptChanges::Listed(list);
        Ok(())
    }

    pub(crate) fn kept(&self) -> &KeptChanges
        ensures { listed result.now ≡ self.now }
    {
        &self.kept
    }
}

// Adds changes to a list, each by its index.
fn push_all<I: AsIndex>(
    list: &mut Vec<(AnyIndex, Option<i64>)>,
    changes: &[(I, Option<i64>)],
) -> Result<(), NoMemory>
    ensures { OnOk result (list.new.items ≡ list.old.items ++ as_changes I.as_index changes.now) }
{
    for (index, number) in changes {
        list.push((index.any(), *number))?;
    }
    Ok(())
}

// Names an array, if it isn't named yet.
fn put_group(alloc: Global, groups: &mut BTreeMap<Name, Group>, name: &Name) -> Result<(), NoMemory>
    ensures same { (b : List ℕ) → changes_in groups.new.entries b ≡ changes_in groups.old.entries b }
    ensures stays { (b : List ℕ) → IsSome (group_in groups.old.entries b) → IsSome (group_in groups.new.entries b) }
    ensures there { OnOk result (IsSome (group_in groups.new.entries name.now)) }
{
    if groups.contains_key(name) {
        return Ok(());
    }
    match groups.insert(*name, Group::new(alloc)) {
        Ok(_) => Ok(()),
        Err(_) => Err(NoMemory),
    }
}

// Adds a change to those of an array that is named.
fn add_to(
    alloc: Global,
    groups: &mut BTreeMap<Name, Group>,
    name: &Name,
    index: &AnyIndex,
    number: Option<i64>,
) -> Result<(), NoMemory>
    requires { IsSome (group_in groups.old.entries name.now) }
    ensures stays { (b : List ℕ) → IsSome (group_in groups.old.entries b) → IsSome (group_in groups.new.entries b) }
    ensures added { OnOk result ((b : List ℕ) → changes_in groups.new.entries b ≡ cond (is_same_name name.now b)
        (changes_in groups.old.entries b ++ (index.now, number) ∷ []) (changes_in groups.old.entries b)) }
{
    match groups.get_mut(name) {
        Some(group) => group.add(alloc, *index, number),
        None => unreachable!(),
    }
}

// The number that a change of an element sets; `None` where it clears the element.
fn number_of(value: Option<Value>) -> Option<i64>
    requires { is_plain value ≡ true }
    ensures { option_map number_value result ≡ value }
{
    match value {
        Some(Value::Number(number)) => Some(number),
        Some(
            Value::Domain(_)
            | Value::Array(_, _)
            | Value::Ranges(_)
            | Value::Mapping(_)
            | Value::Present
            | Value::Bound(_),
        ) => unreachable!(),
        None => None,
    }
}

fn add_change(
    alloc: Global,
    groups: &mut BTreeMap<Name, Group>,
    change: &CellChange,
) -> Result<(), NoMemory>
    requires { is_numeric change.now ≡ true }
    ensures lead { (before : List (Change cell_type value_type)) → ((b : List ℕ) → LeadTo before b (changes_in groups.old.entries b)) →
        OnOk result ((b : List ℕ) → LeadTo (before ++ change.now ∷ []) b (changes_in groups.new.entries b)) }
    ensures stays { (b : List ℕ) → IsSome (group_in groups.old.entries b) → IsSome (group_in groups.new.entries b) }
    ensures object { OnOk result ((b : List ℕ) → eq_by_cmp cell_cmp (Object b) change.now.cell ≡ true → IsSome (group_in groups.new.entries b)) }
{
    match change.as_cell() {
        Cell::Element(name, index) => {
            let number = number_of(change.value());
            put_group(alloc, groups, name)?;
            add_to(alloc, groups, name, index, number)
        }
        Cell::Object(name) => put_group(alloc, groups, name),
        _ => Ok(()),
    }
}

// Adds changes of elements to those of an array that is named.
fn add_all<I: AsIndex>(
    alloc: Global,
    groups: &mut BTreeMap<Name, Group>,
    name: &Name,
    changes: &[(I, Option<i64>)],
) -> Result<(), NoMemory>
    requires { IsSome (group_in groups.old.entries name.now) }
    ensures stays { (b : List ℕ) → IsSome (group_in groups.old.entries b) → IsSome (group_in groups.new.entries b) }
    ensures added { OnOk result ((b : List ℕ) → changes_in groups.new.entries b ≡ cond (is_same_name name.now b)
        (changes_in groups.old.entries b ++ as_changes I.as_index changes.now) (changes_in groups.old.entries b)) }
{
    match groups.get_mut(name) {
        Some(group) => group.add_all(alloc, changes),
        None => unreachable!(),
    }
}

// Adds changes of cells of a row to those of their array, which it names; where the cells are no elements, it adds nothing.
fn add_entries<I: AsIndex>(
    alloc: Global,
    groups: &mut BTreeMap<Name, Group>,
    row: &IndexedRow,
    changes: &[(I, Option<i64>)],
) -> Result<(), NoMemory>
    ensures lead { (before : List (Change cell_type value_type)) → ((b : List ℕ) → LeadTo before b (changes_in groups.old.entries b)) →
        OnOk result ((b : List ℕ) → LeadTo (before ++ row_changes I.as_index row.now changes.now) b (changes_in groups.new.entries b)) }
    ensures stays { (b : List ℕ) → IsSome (group_in groups.old.entries b) → IsSome (group_in groups.new.entries b) }
{
    match row {
        IndexedRow::Inside(_) => Ok(()),
        IndexedRow::Members(_) => Ok(()),
        IndexedRow::Elements(name) => {
            put_group(alloc, groups, name)?;
            add_all(alloc, groups, name, changes)
        }
    }
}

// Adds changes of elements at the indices of a rectangle to those of an array that is named.
fn add_over<B: ChangeBlock>(
    alloc: Global,
    groups: &mut BTreeMap<Name, Group>,
    name: &Name,
    block: &B,
) -> Result<(), NoMemory>
    requires { IsSome (group_in groups.old.entries name.now) }
    ensures stays { (b : List ℕ) → IsSome (group_in groups.old.entries b) → IsSome (group_in groups.new.entries b) }
    ensures added { OnOk result ((b : List ℕ) → changes_in groups.new.entries b ≡ cond (is_same_name name.now b)
        (changes_in groups.old.entries b ++ as_changes point_index (B.entries block.now)) (changes_in groups.old.entries b)) }
{
    match groups.get_mut(name) {
        Some(group) => group.add_block(alloc, block),
        None => unreachable!(),
    }
}

// Adds changes of cells of a row at the indices of a rectangle to those of their array, which it names; where the cells are no
// elements, it adds nothing.
fn add_block<B: ChangeBlock>(
    alloc: Global,
    groups: &mut BTreeMap<Name, Group>,
    block: &B,
) -> Result<(), NoMemory>
    ensures lead { (before : List (Change cell_type value_type)) → ((b : List ℕ) → LeadTo before b (changes_in groups.old.entries b)) →
        OnOk result ((b : List ℕ) → LeadTo (before ++ packed_changes (B.row_of block.now) (B.entries block.now)) b (changes_in groups.new.entries b)) }
    ensures stays { (b : List ℕ) → IsSome (group_in groups.old.entries b) → IsSome (group_in groups.new.entries b) }
{
    match block.of_row() {
        IndexedRow::Inside(_) => Ok(()),
        IndexedRow::Members(_) => Ok(()),
        IndexedRow::Elements(name) => {
            put_group(alloc, groups, &name)?;
            add_over(alloc, groups, &name, block)
        }
    }
}

// Adds changes at labels, one by one, to those of the arrays whose elements they set.
fn add_each_label(
    alloc: Global,
    groups: &mut BTreeMap<Name, Group>,
    labels: &LabelChanges,
) -> Result<(), NoMemory>
    requires { list_all is_numeric (labelled_changes labels.now.0 labels.now.1) ≡ true }
    ensures lead { (before : List (Change cell_type value_type)) → ((b : List ℕ) → LeadTo before b (changes_in groups.old.entries b)) →
        OnOk result ((b : List ℕ) → LeadTo (before ++ labelled_changes labels.now.0 labels.now.1) b (changes_in groups.new.entries b)) }
    ensures stays { (b : List ℕ) → IsSome (group_in groups.old.entries b) → IsSome (group_in groups.new.entries b) }
{
    for at in 0..labels.len() {
        add_change(alloc, groups, &labels.change(at))?;
    }
    Ok(())
}

// Adds changes at labels to those of the arrays whose elements they set; where the cells are no elements, it adds nothing.
fn add_labels(
    alloc: Global,
    groups: &mut BTreeMap<Name, Group>,
    labels: &LabelChanges,
) -> Result<(), NoMemory>
    requires { list_all is_numeric (labelled_changes labels.now.0 labels.now.1) ≡ true }
    ensures lead { (before : List (Change cell_type value_type)) → ((b : List ℕ) → LeadTo before b (changes_in groups.old.entries b)) →
        OnOk result ((b : List ℕ) → LeadTo (before ++ labelled_changes labels.now.0 labels.now.1) b (changes_in groups.new.entries b)) }
    ensures stays { (b : List ℕ) → IsSome (group_in groups.old.entries b) → IsSome (group_in groups.new.entries b) }
{
    match labels.row() {
        IndexedRow::Inside(_) => Ok(()),
        IndexedRow::Members(_) => Ok(()),
        IndexedRow::Elements(_) => add_each_label(alloc, groups, labels),
    }
}

// Adds the changes of a run to those of the arrays whose elements they set; each object that changes is named as well.
fn add_run(
    alloc: Global,
    groups: &mut BTreeMap<Name, Group>,
    form: &RunForm,
) -> Result<(), NoMemory>
    requires { list_all is_numeric (run_changes form.now) ≡ true }
    ensures lead { (before : List (Change cell_type value_type)) → ((b : List ℕ) → LeadTo before b (changes_in groups.old.entries b)) →
        OnOk result ((b : List ℕ) → LeadTo (before ++ run_changes form.now) b (changes_in groups.new.entries b)) }
    ensures stays { (b : List ℕ) → IsSome (group_in groups.old.entries b) → IsSome (group_in groups.new.entries b) }
    ensures object { OnOk result ((b : List ℕ) → changes cell_cmp (run_changes form.now) (Object b) ≡ true → IsSome (group_in groups.new.entries b)) }
{
    match form {
        RunForm::One(change) => add_change(alloc, groups, change),
        RunForm::Rank1(packed) => add_entries(alloc, groups, packed.row(), packed.changes()),
        RunForm::Rank2(packed) => add_entries(alloc, groups, packed.row(), packed.changes()),
        RunForm::Rank3(packed) => add_entries(alloc, groups, packed.row(), packed.changes()),
        RunForm::Labels(labels) => add_labels(alloc, groups, labels),
        RunForm::Rectangle(block) => add_block(alloc, groups, block),
        RunForm::Numbers(block) => add_block(alloc, groups, block),
    }
}

// Adds the changes of runs, one run after another, to those of the arrays whose elements they set; each object that changes is
// named as well.
fn add_runs(
    alloc: Global,
    groups: &mut BTreeMap<Name, Group>,
    runs: &[ChangeRun],
) -> Result<(), NoMemory>
    requires { list_all is_numeric (all_changes runs.now) ≡ true }
    ensures lead { (before : List (Change cell_type value_type)) → ((b : List ℕ) → LeadTo before b (changes_in groups.old.entries b)) →
        OnOk result ((b : List ℕ) → LeadTo (before ++ all_changes runs.now) b (changes_in groups.new.entries b)) }
    ensures stays { (b : List ℕ) → IsSome (group_in groups.old.entries b) → IsSome (group_in groups.new.entries b) }
    ensures object { OnOk result ((b : List ℕ) → changes cell_cmp (all_changes runs.now) (Object b) ≡ true → IsSome (group_in groups.new.entries b)) }
{
    for run in runs {
        add_run(alloc, groups, run.form())?;
    }
    Ok(())
}

// The changes of elements by their arrays; each object that changes is named as well.
fn grouped(alloc: Global, delta: &Changes) -> Result<BTreeMap<Name, Group>, NoMemory>
    requires { list_all is_numeric delta.now ≡ true }
    ensures lead { IfOk result (λ m. (b : List ℕ) → LeadTo delta.now b (changes_in m.entries b)) }
    ensures objects { IfOk result (λ m. (b : List ℕ) → changes cell_cmp delta.now (Object b) ≡ true → IsSome (group_in m.entries b)) }
{
    let mut groups = BTreeMap::new(alloc);
    let (first, runs) = delta.parts();
    let Some(first) = first else {
        add_runs(alloc, &mut groups, runs)?;
        return Ok(groups);
    };
    add_change(alloc, &mut groups, &first)?;
    add_runs(alloc, &mut groups, runs)?;
    Ok(groups)
}

// Names all arrays.
fn name_all(
    alloc: Global,
    groups: &mut BTreeMap<Name, Group>,
    arrays: &BTreeMap<Name, Elements>,
) -> Result<(), NoMemory>
    ensures same { (b : List ℕ) → changes_in groups.new.entries b ≡ changes_in groups.old.entries b }
    ensures stays { (b : List ℕ) → IsSome (group_in groups.old.entries b) → IsSome (group_in groups.new.entries b) }
    ensures all { OnOk result ((b : List ℕ) → IsSome (array_in arrays.now.entries b) → IsSome (group_in groups.new.entries b)) }
{
    for (name, _) in arrays {
        put_group(alloc, groups, name)?;
    }
    Ok(())
}

// Whether a change leaves each object and each mapping that is there as it is, or clears it.
fn leaves(cells: &StoredCells, change: &CellChange) -> bool
    ensures { result ≡ leaves (stored_in cells.now.entries) change.now }
{
    let cell = change.as_cell();
    match cell {
        Cell::Object(_) | Cell::Mapping(_) => {
            !(change.value().is_some() && cells.contains_key(cell))
        }
        Cell::Shape(_)
        | Cell::In(_, _)
        | Cell::Member(_, _)
        | Cell::Use(_, _)
        | Cell::Implicit(_)
        | Cell::Element(_, _) => true,
    }
}

// Whether each change of a run leaves each object and each mapping that is there as it is, or clears it. No cell of a row, and
// none of a rectangle, is an object or a mapping.
fn run_leaves(cells: &StoredCells, form: &RunForm) -> bool
    ensures { result ≡ list_all (leaves (stored_in cells.now.entries)) (run_changes form.now) }
{
    match form {
        RunForm::One(change) => leaves(cells, change),
        RunForm::Rank1(_) => true,
        RunForm::Rank2(_) => true,
        RunForm::Rank3(_) => true,
        RunForm::Labels(_) => true,
        RunForm::Rectangle(_) => true,
        RunForm::Numbers(_) => true,
    }
}

// Whether each change of runs leaves each object and each mapping that is there as it is, or clears it.
fn runs_leave(cells: &StoredCells, runs: &[ChangeRun]) -> bool
    ensures { result ≡ list_all (leaves (stored_in cells.now.entries)) (all_changes runs.now) }
{
    for run in runs {
        if !run_leaves(cells, run.form()) {
            return false;
        }
    }
    true
}

fn are_left(cells: &StoredCells, delta: &Changes) -> bool
    ensures { result ≡ list_all (leaves (stored_in cells.now.entries)) delta.now }
{
    let (first, runs) = delta.parts();
    let Some(first) = first else {
        return runs_leave(cells, runs);
    };
    if !leaves(cells, &first) {
        return false;
    }
    runs_leave(cells, runs)
}

/// The changes of elements by their arrays. Named are all arrays that may become others: where no object and no mapping
/// that is there changes, those that the changes name, and else all.
pub(crate) fn group_changes(
    alloc: Global,
    cells: &StoredCells,
    arrays: &BTreeMap<Name, Elements>,
    delta: &Changes,
) -> Result<BTreeMap<Name, Group>, NoMemory>
    requires { list_all is_numeric delta.now ≡ true }
    ensures lead { IfOk result (λ m. (b : List ℕ) → LeadTo delta.now b (changes_in m.entries b)) }
    ensures objects { IfOk result (λ m. (b : List ℕ) → changes cell_cmp delta.now (Object b) ≡ true → IsSome (group_in m.entries b)) }
    ensures others { IfOk result (λ m. (b : List ℕ) → IsSome (array_in arrays.now.entries b) → group_in m.entries b ≡ None →
        list_all (leaves (stored_in cells.now.entries)) delta.now ≡ true) }
    ensures ascending { IfOk result (λ m. IsStrictlySortedBy (slice_cmp nat_cmp) (keys_of m.entries)) }
{
    let mut groups = grouped(alloc, delta)?;
    if !are_left(cells, delta) {
        name_all(alloc, &mut groups, arrays)?;
    }
    // For the proof: the names ascend.
    let _ = groups.len();
    Ok(groups)
}
