//! Changes of cells of one row at labels: each takes the bytes of its label, and 16 more.

ghost use Rattle.std.specs.Prelude.{◌≡◌, ◌≢◌, ℕ, ◌+◌, ◌<◌, ◌≤◌, [], ◌∷◌, ◌++◌, true, false, length, take, drop, map, get_or, slice_get};
ghost use Rattle.std.specs.Prelude.{Some, IfSome, Ok, OnErr, IfOk};
ghost use Rattle.std.specs.List.{All};
ghost use Rattle.selective_undo.specs.declared.Change.{Change};
ghost use Rattle.wb_sets.specs.Labels.{IsLabel};
ghost use Rattle.wb_cells.specs.declared.cells.cell.Cell.{Cell as cell_type};
ghost use Rattle.wb_cells.specs.declared.cells.value.Value.{Value as value_type};
ghost use Rattle.wb_cells.specs.declared.values.index.Index.TheVariants.{Text as at_text};
ghost use Rattle.wb_cells.specs.Cells.{count_of};
ghost use Rattle.wb_cells.specs.Labelled.{label_in, number_in, entries_in, IsKept};
ghost use Rattle.wb_cells.specs.Runs.{labelled_at, labelled_changes, indexed_change};

use crate::cells::cell::Cell;
use crate::changes::change::CellChange;
use crate::changes::indexed::IndexedChange;
use crate::changes::row::IndexedRow;
use crate::values::index::{AnyIndex, Index};
use std::alloc::Global;
use std::marker::Model;
use wb_range::NoMemory;
use wb_sets::Label;

/// Where a label stands among bytes, and the number that its cell becomes, if it is to be there.
#[derive(Clone, Copy)]
pub(crate) struct LabelEntry {
    start: u32,
    len: u8,
    is_there: bool,
    number: i64,
}

/// Changes of cells of one row, each by its label and a number, or none. Contracts see the row and the list of both.
#[derive(Drop)]
pub struct LabelChanges {
    row: IndexedRow,
    bytes: Vec<u8>,
    entries: Vec<LabelEntry>,
}

impl Model for LabelChanges {
    ghost use Rattle.std.specs.Prelude.{ℕ, ℤ, List, Option};
    ghost use Rattle.std.specs.List.{All};
    ghost use Rattle.wb_cells.specs.declared.changes.row.IndexedRow.{IndexedRow};
    ghost use Rattle.wb_cells.specs.Labelled.{entries_in, IsKept};

    ghost Value = { IndexedRow × List (List ℕ × Option ℤ) };

    ghost view = { λ a. (a.row, entries_in a.bytes.items a.entries.items) };

    ghost invariant = { λ a. All (IsKept a.bytes.items) a.entries.items };
}

// The last place at which a label may begin.
const LAST_START: usize = 0xffff_ffff;

// Where a text that begins at a place stands, with a number; `None` where the place is too far.
fn entry_of(start: usize, text: &[u8], number: Option<i64>) -> Option<LabelEntry>
    requires { length text.now ≤ 64 }
    ensures start { IfSome result (λ e. e.start ≡ start) }
    ensures len { IfSome result (λ e. e.len ≡ length text.now) }
    ensures number { IfSome result (λ e. number_in e ≡ number) }
{
    if start > LAST_START {
        return None;
    }
    let start = start as u32;
    let len = text.len() as u8;
    match number {
        Some(number) => Some(LabelEntry {
            start,
            len,
            is_there: true,
            number,
        }),
        None => Some(LabelEntry {
            start,
            len,
            is_there: false,
            number: 0,
        }),
    }
}

// The number of an entry, if its cell is to be there.
fn number_in(entry: &LabelEntry) -> Option<i64>
    ensures { result ≡ number_in entry.now }
{
    if entry.is_there {
        Some(entry.number)
    } else {
        None
    }
}

// So many bytes, from a place on.
fn part(bytes: &[u8], start: usize, len: usize) -> &[u8]
    requires { start + len ≤ length bytes.now }
    ensures { result.now ≡ take len (drop start bytes.now) }
{
    &bytes[start..start + len]
}

// The bytes of the label at a place.
fn text_at<'a>(bytes: &'a [u8], entries: &[LabelEntry], at: usize) -> &'a [u8]
    requires kept { All (IsKept bytes.now) entries.now }
    requires place { at < length entries.now }
    ensures text { slice_get (map (label_in bytes.now) entries.now) at ≡ Some result.now }
    ensures label { IsLabel result.now }
{
    let entry = entries[at];
    part(bytes, entry.start as usize, entry.len as usize)
}

// The number at a place, or none.
fn number_at(entries: &[LabelEntry], at: usize) -> Option<i64>
    requires { at < length entries.now }
    ensures { slice_get (map number_in entries.now) at ≡ Some result }
{
    let entry = entries[at];
    number_in(&entry)
}

// The label at a place, with its number, or none.
fn entry_at(bytes: &[u8], entries: &[LabelEntry], at: usize) -> (Label, Option<i64>)
    requires kept { All (IsKept bytes.now) entries.now }
    requires place { at < length entries.now }
    ensures { slice_get (entries_in bytes.now entries.now) at ≡ Some result }
{
    let entry = entries[at];
    let text = part(bytes, entry.start as usize, entry.len as usize);
    (Label::of_bytes(text), number_in(&entry))
}

// The label that an index is, if it is one.
fn text_of(index: &AnyIndex) -> Option<Label>
    ensures { IfSome result (λ text. at_text text ≡ index.now) }
{
    match index.index() {
        Index::Text(label) => Some(label),
        Index::Point(_) => None,
    }
}

// The label and the number by which a change is one of a row, if it is one.
fn label_entry(row: &IndexedRow, change: &CellChange) -> Option<(Label, Option<i64>)>
    ensures { IfSome result (λ e. labelled_at row.now e ≡ change.now) }
{
    let index = row.index_of(change.as_cell())?;
    let label = text_of(&index)?;
    let number = row.number_of(change)?;
    Some((label, number))
}

// The label and the number by which a change of a cell that has an index is one of a row, if it is one.
fn indexed_label(row: &IndexedRow, change: &IndexedChange) -> Option<(Label, Option<i64>)>
    ensures { IfSome result (λ e. labelled_at row.now e ≡ indexed_change change.now) }
{
    if !row.is_same(&change.row) {
        return None;
    }
    let label = text_of(&change.index)?;
    Some((label, change.number))
}

impl LabelChanges {
    // No changes of cells of a row.
    pub(crate) fn new(alloc: Global, row: IndexedRow) -> LabelChanges
        ensures { result ≡ (row, []) }
    {
        LabelChanges {
            row,
            bytes: Vec::new(alloc),
            entries: Vec::new(alloc),
        }
    }

    // Adds a label with its number, or none, behind the others, if its bytes have a place.
    pub(crate) fn push(&mut self, label: &Label, number: Option<i64>) -> Result<bool, NoMemory>
        ensures added { result ≡ Ok true → self.new ≡ (self.old.0, self.old.1 ++ (label.now, number) ∷ []) }
        ensures other { result ≡ Ok false → self.new ≡ self.old }
        ensures err { OnErr result (self.new ≡ self.old) }
    {
        self.push_text(label.as_bytes(), number)
    }

    // Adds the label with these bytes with its number, or none, behind the others, if the bytes have a place.
    pub(crate) fn push_text(&mut self, text: &[u8], number: Option<i64>) -> Result<bool, NoMemory>
        requires { IsLabel text.now }
        ensures added { result ≡ Ok true → self.new ≡ (self.old.0, self.old.1 ++ (text.now, number) ∷ []) }
        ensures other { result ≡ Ok false → self.new ≡ self.old }
        ensures err { OnErr result (self.new ≡ self.old) }
    {
        let Some(entry) = entry_of(self.bytes.len(), text, number) else {
            return Ok(false);
        };
        if self.bytes.extend_from_slice(text).is_err() {
            return Err(NoMemory);
        }
        if self.entries.push(entry).is_err() {
            return Err(NoMemory);
        }
        Ok(true)
    }

    /// The cells of which those that change are.
    pub fn row(&self) -> &IndexedRow
        ensures { result.now ≡ self.now.0 }
    {
        &self.row
    }

    // The label at a place, with its number, or none.
    pub(crate) fn entry(&self, at: usize) -> (Label, Option<i64>)
        requires { at < length self.now.1 }
        ensures { slice_get self.now.1 at ≡ Some result }
    {
        entry_at(self.bytes.as_slice(), self.entries.as_slice(), at)
    }

    /// The bytes of the label at a place.
    pub fn text(&self, at: usize) -> &[u8]
        requires { at < length self.now.1 }
        ensures text { slice_get (map (λ e. e.0) self.now.1) at ≡ Some result.now }
        ensures label { IsLabel result.now }
    {
        text_at(self.bytes.as_slice(), self.entries.as_slice(), at)
    }

    /// The number at a place, or none.
    pub fn number(&self, at: usize) -> Option<i64>
        requires { at < length self.now.1 }
        ensures { slice_get (map (λ e. e.1) self.now.1) at ≡ Some result }
    {
        number_at(self.entries.as_slice(), at)
    }

    /// How many changes there are.
    pub fn len(&self) -> usize
        ensures { result ≡ length (labelled_changes self.now.0 self.now.1) }
    {
        self.entries.len()
    }

    /// The change at a place.
    pub fn change(&self, at: usize) -> CellChange
        requires { at < length (labelled_changes self.now.0 self.now.1) }
        ensures { result ≡ get_or (labelled_changes self.now.0 self.now.1) at result }
    {
        let (label, number) = self.entry(at);
        self.row.change(AnyIndex::new(Index::Text(label)), number)
    }

    /// The cell that changes at a place.
    pub(crate) fn cell(&self, at: usize) -> Cell
        requires { at < length (labelled_changes self.now.0 self.now.1) }
        ensures { (d : Change cell_type value_type) → result ≡ (get_or (labelled_changes self.now.0 self.now.1) at d).cell }
    {
        let (label, _) = self.entry(at);
        self.row.cell(AnyIndex::new(Index::Text(label)))
    }

    // How many of the cells are counted: all but `In`.
    #[tactic(auto, using(crate::proofs::Labels::none_inside, crate::proofs::Labels::members_counted, crate::proofs::Labels::elements_counted))]
    pub(crate) fn count(&self) -> usize
        ensures { result ≡ count_of (labelled_changes self.now.0 self.now.1) }
    {
        match &self.row {
            IndexedRow::Inside(_) => 0,
            IndexedRow::Members(_) => self.len(),
            IndexedRow::Elements(_) => self.len(),
        }
    }

    /// One change, if it is one of such a row.
    pub(crate) fn of(
        alloc: Global,
        row: &IndexedRow,
        change: &CellChange,
    ) -> Result<Option<LabelChanges>, NoMemory>
        ensures { IfOk result (λ o. IfSome o (λ l. labelled_changes l.0 l.1 ≡ change.now ∷ [])) }
    {
        let Some((label, number)) = label_entry(row, change) else {
            return Ok(None);
        };
        let mut changes = LabelChanges::new(alloc, *row);
        if changes.push(&label, number)? {
            Ok(Some(changes))
        } else {
            Ok(None)
        }
    }

    /// Adds a change behind the others, if it is one of the row.
    pub(crate) fn add(&mut self, change: &CellChange) -> Result<bool, NoMemory>
        ensures added { result ≡ Ok true →
            labelled_changes self.new.0 self.new.1 ≡ labelled_changes self.old.0 self.old.1 ++ change.now ∷ [] }
        ensures other { result ≡ Ok false → labelled_changes self.new.0 self.new.1 ≡ labelled_changes self.old.0 self.old.1 }
        ensures err { OnErr result (labelled_changes self.new.0 self.new.1 ≡ labelled_changes self.old.0 self.old.1) }
    {
        let Some((label, number)) = label_entry(&self.row, change) else {
            return Ok(false);
        };
        self.push(&label, number)
    }

    /// Adds a change of a cell that has an index behind the others, if it is one of the row.
    pub(crate) fn add_indexed(&mut self, change: &IndexedChange) -> Result<bool, NoMemory>
        ensures added { result ≡ Ok true →
            labelled_changes self.new.0 self.new.1 ≡ labelled_changes self.old.0 self.old.1 ++ indexed_change change.now ∷ [] }
        ensures other { result ≡ Ok false → labelled_changes self.new.0 self.new.1 ≡ labelled_changes self.old.0 self.old.1 }
        ensures err { OnErr result (labelled_changes self.new.0 self.new.1 ≡ labelled_changes self.old.0 self.old.1) }
    {
        let Some((label, number)) = indexed_label(&self.row, change) else {
            return Ok(false);
        };
        self.push(&label, number)
    }
}
