//! The entries of a history, and the records in which they are kept.

ghost use Rattle.std.specs.Prelude.{◌≡◌, [], ◌∷◌, ◌++◌, Some, None, IfOk, IfSome, is_some, option_map};
ghost use Rattle.selective_undo.specs.Changes.{AllOnce};
ghost use Rattle.wb_cells.specs.declared.cells.cell.Cell.TheVariants as cell;
ghost use Rattle.wb_cells.specs.declared.cells.pattern.Pattern.TheVariants as pattern;
ghost use Rattle.wb_cells.specs.Cells.{cell_cmp};
ghost use Rattle.wb_edit.specs.declared.command.Command.TheVariants as command;
ghost use Rattle.wb_edit.specs.declared.edit.Edit.TheVariants.{Command as OneCommand};
ghost use Rattle.wb_edit.specs.Edits.{note_of};
ghost use Rattle.wb_cells.specs.Reads.{all_read};
ghost use Rattle.wb_footprints.specs.Footprints.{element_reads, set_footprint};
ghost use Rattle.wb_log.specs.declared.entry.Before.TheVariants as before;
ghost use Rattle.wb_log.specs.Kept.{kept_in};
ghost use Rattle.wb_edit.specs.declared.asked_rectangle.AskedRectangle.TheVariants as asked_for;
ghost use Rattle.wb_log.specs.Records.{copy_reads, implicit_reads, member_edit, member_reads, filled_cell, fill_reads, value_before, before_in, cell_before};
ghost use Rattle.wb_log.specs.Records.{lent_edit, lent_footprint, lent_kept, shown, kept_of, held_of};
ghost use Rattle.wb_log.specs.Sets.{NameAlike};

use crate::array_sets::ArraySets;
use crate::cells_were::CellsWere;
use crate::filled_cells::FilledCells;
use crate::kept_place::KeptPlace;
use crate::lent::LentKept;
use crate::undone::form_undone;
use std::alloc::Global;
use std::marker::Model;
use wb_cells::{
    AnyCell, AnyIndex, AnyRect, Cell, CellChange, Changes, Inverse, Name, Pattern, ReadRun, Value,
};
use wb_edit::{AskedRectangle, Command, Edit, Note, ReadFootprint};
use wb_range::NoMemory;

/// What an edit in force read, and what takes it back.
#[derive(Drop)]
pub(crate) struct UndoData {
    pub(crate) footprint: ReadFootprint,
    pub(crate) inverse: Inverse,
}

/// An edit, with what is kept of it while it is in force.
#[derive(Drop)]
pub(crate) struct LoggedEdit {
    pub(crate) edit: Edit,
    pub(crate) kept: Option<UndoData>,
}

/// What a cell held before an edit that changed no other.
#[derive(Clone, Copy)]
pub(crate) enum Before {
    /// A number.
    Number(i64),
    /// That an index is there.
    Present,
    /// Nothing.
    Nothing,
}

/// What a cell held, while the edit is in force, in the room of a `Before`.
#[derive(Clone, Copy)]
pub(crate) enum Was {
    /// The edit is out of force.
    Untold,
    /// A number.
    Number(i64),
    /// That an index is there.
    Present,
    /// Nothing.
    Nothing,
}

/// A new value of an element.
#[derive(Clone, Copy)]
pub(crate) struct ElementSet {
    pub(crate) array: Name,
    pub(crate) place: AnyIndex,
    pub(crate) value: i64,
}

/// A new value of an element that was there, and what it was, while the edit is in force.
#[derive(Drop)]
pub(crate) struct SetRecord {
    pub(crate) array: Name,
    pub(crate) place: KeptPlace,
    pub(crate) value: i64,
    pub(crate) was: Was,
}

/// An element that became another one and a number more, and what it was, while the edit is in force.
#[derive(Drop)]
pub(crate) struct CopyRecord {
    pub(crate) array: Name,
    pub(crate) place: AnyIndex,
    pub(crate) source: Name,
    pub(crate) from: AnyIndex,
    pub(crate) more: i64,
    pub(crate) was: Was,
}

/// A new implicit value of an array, and what it was, while the edit is in force.
#[derive(Drop)]
pub(crate) struct IrvRecord {
    pub(crate) array: Name,
    pub(crate) value: i64,
    pub(crate) was: Was,
}

/// An index that came to a domain over which no array is, or left it, and what was there, while the edit is in force.
#[derive(Drop)]
pub(crate) struct MemberRecord {
    pub(crate) domain: Name,
    pub(crate) place: KeptPlace,
    pub(crate) comes: bool,
    pub(crate) was: Was,
}

/// A number as the element at the one index of a rectangle, and what it was, while the edit is in force.
#[derive(Drop)]
pub(crate) struct FillRecord {
    pub(crate) array: Name,
    pub(crate) on: AnyRect,
    pub(crate) value: i64,
    pub(crate) was: Was,
}

/// A number as each of the elements at the indices of a rectangle, and what they were, while the edit is in force.
#[derive(Drop)]
pub(crate) struct FillsRecord {
    pub(crate) array: Name,
    pub(crate) on: AnyRect,
    pub(crate) value: i64,
    pub(crate) were: Option<Vec<i64>>,
}

/// Sets of elements of one array as one edit, and what the elements were, while the edit is in force.
#[derive(Drop)]
pub(crate) struct SetsRecord {
    pub(crate) edit: ArraySets,
    pub(crate) were: Option<CellsWere>,
}

/// How an entry is kept. Of all forms but the last, what the edit read, and what takes it back, follow from what the cells held
/// that it changed: one, or of sets as one edit, and of a fill, as many as there are.
#[derive(Drop)]
pub(crate) enum RecordForm {
    /// A new value of an element that was there.
    Set(SetRecord),
    /// A copy of an element that was there to one that was there.
    Copy(Box<CopyRecord>),
    /// A new implicit value.
    Irv(IrvRecord),
    /// An index that comes to a domain over which no array is, or leaves it.
    Member(MemberRecord),
    /// One number as one element.
    Fill(Box<FillRecord>),
    /// New values of elements that were there, of one array, as one edit.
    Sets(Box<SetsRecord>),
    /// One number as each of several elements.
    Fills(Box<FillsRecord>),
    /// Any edit.
    Whole(Box<LoggedEdit>),
}

/// An entry, kept in the form that takes the least room. Contracts see the entry.
pub(crate) struct EditRecord {
    pub(crate) form: RecordForm,
}

// In a function of its own, so that a crate above need not prove anew how each field is let go.
impl Drop for EditRecord {
    fn drop(self) {
        let EditRecord { form: _ } = self;
    }
}

impl Model for EditRecord {
    ghost use Rattle.wb_log.specs.declared.entry.LoggedEdit.{LoggedEdit};
    ghost use Rattle.wb_log.specs.Records.{shown};

    ghost Value = { LoggedEdit };

    ghost view = { λ a. shown a.form };
}

/// The edit of an entry, lent, or made for the moment.
#[derive(Drop)]
pub enum LentEdit<'a> {
    Own(Edit),
    Lent(&'a Edit),
}

impl<'a> LentEdit<'a> {
    /// The edit.
    pub fn as_edit(&self) -> &Edit
        ensures { result.now ≡ lent_edit self.now }
    {
        match self {
            LentEdit::Own(edit) => edit,
            LentEdit::Lent(edit) => edit,
        }
    }
}

/// What is kept of an edit in force that has a list of what its cells were, lent, or made for the moment.
#[derive(Drop)]
pub(crate) enum LentFootprint<'a> {
    Set([Pattern; 2], Inverse),
    Copy([Pattern; 4], Inverse),
    Irv([Pattern; 1], Inverse),
    Member([Pattern; 3], Inverse),
    Fill([Pattern; 2], Inverse),
    Sets(&'a CellsWere),
    Lent(&'a UndoData),
}

impl<'a> LentFootprint<'a> {
    /// Patterns, and runs of those behind them, that name the same places and cells as those that the edit read.
    pub(crate) fn reads(&self) -> (&[Pattern], &[ReadRun])
        ensures { NameAlike (lent_footprint self.now).reads (result.0.now ++ all_read result.1.now) }
    {
        match self {
            LentFootprint::Set(reads, _) => (reads, &[]),
            LentFootprint::Copy(reads, _) => (reads, &[]),
            LentFootprint::Irv(reads, _) => (reads, &[]),
            LentFootprint::Member(reads, _) => (reads, &[]),
            LentFootprint::Fill(reads, _) => (reads, &[]),
            LentFootprint::Sets(were) => were.reads(),
            LentFootprint::Lent(kept) => kept.footprint.parts(),
        }
    }

    /// The cells that the edit wrote, each once, with what they were.
    pub(crate) fn before(&self) -> &Changes
        ensures same { result.now ≡ (lent_footprint self.now).touched }
        ensures once { AllOnce cell_cmp (lent_footprint self.now).touched }
    {
        match self {
            LentFootprint::Set(_, inverse) => inverse.before(),
            LentFootprint::Copy(_, inverse) => inverse.before(),
            LentFootprint::Irv(_, inverse) => inverse.before(),
            LentFootprint::Member(_, inverse) => inverse.before(),
            LentFootprint::Fill(_, inverse) => inverse.before(),
            LentFootprint::Sets(were) => were.before(),
            LentFootprint::Lent(kept) => kept.inverse.before(),
        }
    }
}

impl Before {
    // What the cell held, as a value.
    fn value(&self) -> Option<Value>
        ensures { result ≡ value_before self.now }
    {
        match self {
            Before::Number(number) => Some(Value::Number(*number)),
            Before::Present => Some(Value::Present),
            Before::Nothing => None,
        }
    }
}

impl Was {
    // What a cell held, or that nothing is told of it.
    fn of(was: Option<Before>) -> Was
        ensures { before_in result ≡ was }
    {
        match was {
            None => Was::Untold,
            Some(Before::Number(number)) => Was::Number(number),
            Some(Before::Present) => Was::Present,
            Some(Before::Nothing) => Was::Nothing,
        }
    }

    // What the cell held, if it is told.
    fn before(&self) -> Option<Before>
        ensures { result ≡ before_in self.now }
    {
        match self {
            Was::Untold => None,
            Was::Number(number) => Some(Before::Number(*number)),
            Was::Present => Some(Before::Present),
            Was::Nothing => Some(Before::Nothing),
        }
    }
}

// What sets a cell back.
fn set_back(changed: Cell, was: &Before) -> Inverse
    ensures { result ≡ cell_before changed was.now }
{
    Inverse::new(Changes::one(CellChange::new(changed, was.value())))
}

/// The pattern of what stands under a name.
pub(crate) fn object_pattern(name: &Name) -> Pattern
    ensures { result ≡ pattern.One (cell.Object name.now) }
{
    Pattern::One(AnyCell::new(Cell::Object(*name)))
}

// The pattern of an element.
fn element_pattern(array: &Name, place: &AnyIndex) -> Pattern
    ensures { result ≡ pattern.One (cell.Element array.now place.now) }
{
    Pattern::One(AnyCell::new(Cell::Element(*array, *place)))
}

impl ElementSet {
    /// The edit.
    pub(crate) fn edit(&self) -> Edit
        ensures { result ≡ OneCommand (command.Set self.now.array self.now.place self.now.value) }
    {
        Edit::Command(Command::Set(self.array, self.place, self.value))
    }

    /// The cell that the edit changes.
    pub(crate) fn cell(&self) -> Cell
        ensures { result ≡ cell.Element self.now.array self.now.place }
    {
        Cell::Element(self.array, self.place)
    }

    /// What the edit reads.
    pub(crate) fn reads(&self) -> [Pattern; 2]
        ensures { result ≡ element_reads self.now.array self.now.place }
    {
        [
            object_pattern(&self.array),
            element_pattern(&self.array, &self.place),
        ]
    }
}

impl SetRecord {
    /// A new value of an element, out of force; `NoMemory` where none is left for its index.
    pub(crate) fn undone(
        alloc: Global,
        array: &Name,
        place: &AnyIndex,
        value: &i64,
    ) -> Result<SetRecord, NoMemory>
        ensures { IfOk result (λ e. e ≡ record { array = array.now; place = place.now; value = value.now; was = Was.Untold }) }
    {
        Ok(SetRecord {
            array: *array,
            place: KeptPlace::new(alloc, place)?,
            value: *value,
            was: Was::Untold,
        })
    }

    /// What the edit does.
    pub(crate) fn element(&self) -> ElementSet
        ensures { result ≡ record { array = self.now.array; place = self.now.place; value = self.now.value } }
    {
        ElementSet {
            array: self.array,
            place: self.place.index(),
            value: self.value,
        }
    }
}

impl CopyRecord {
    /// The edit.
    pub(crate) fn edit(&self) -> Edit
        ensures { result ≡ OneCommand (command.Copy self.now.array self.now.place self.now.source self.now.from self.now.more) }
    {
        Edit::Command(Command::Copy(self.array, self.place, self.source, self.from, self.more))
    }

    /// The cell that the edit changes.
    pub(crate) fn cell(&self) -> Cell
        ensures { result ≡ cell.Element self.now.array self.now.place }
    {
        Cell::Element(self.array, self.place)
    }

    /// What the edit reads, where both elements are there.
    pub(crate) fn reads(&self) -> [Pattern; 4]
        ensures { result ≡ copy_reads self.now.array self.now.place self.now.source self.now.from }
    {
        [
            object_pattern(&self.array),
            object_pattern(&self.source),
            element_pattern(&self.array, &self.place),
            element_pattern(&self.source, &self.from),
        ]
    }
}

impl IrvRecord {
    /// The edit.
    pub(crate) fn edit(&self) -> Edit
        ensures { result ≡ OneCommand (command.Irv self.now.array self.now.value) }
    {
        Edit::Command(Command::Irv(self.array, self.value))
    }

    /// The cell that the edit changes.
    pub(crate) fn cell(&self) -> Cell
        ensures { result ≡ cell.Implicit self.now.array }
    {
        Cell::Implicit(self.array)
    }

    /// What the edit reads.
    pub(crate) fn reads(&self) -> [Pattern; 1]
        ensures { result ≡ implicit_reads self.now.array }
    {
        [object_pattern(&self.array)]
    }
}

impl MemberRecord {
    /// The edit.
    pub(crate) fn edit(&self) -> Edit
        ensures { result ≡ member_edit self.now.comes self.now.domain self.now.place }
    {
        let place = self.place.index();
        if self.comes {
            Edit::Command(Command::Add(self.domain, place))
        } else {
            Edit::Command(Command::Remove(self.domain, place))
        }
    }

    /// The cell that the edit changes.
    pub(crate) fn cell(&self) -> Cell
        ensures { result ≡ cell.Member self.now.domain self.now.place }
    {
        Cell::Member(self.domain, self.place.index())
    }

    /// What the edit reads, where nothing is bound to the domain and it has no parent to be asked.
    pub(crate) fn reads(&self) -> [Pattern; 3]
        ensures { result ≡ member_reads self.now.domain self.now.place }
    {
        [
            object_pattern(&self.domain),
            Pattern::One(AnyCell::new(self.cell())),
            Pattern::Uses(self.domain),
        ]
    }
}

impl FillRecord {
    /// The edit.
    pub(crate) fn edit(&self) -> Edit
        ensures { result ≡ OneCommand (command.Fill self.now.array (asked_for.Ranges self.now.on) self.now.value) }
    {
        Edit::Command(Command::Fill(self.array, AskedRectangle::Ranges(self.on), self.value))
    }

    /// The cell that the edit changes.
    pub(crate) fn cell(&self) -> Cell
        ensures { result ≡ filled_cell self.now.array self.now.on }
    {
        match self.on.nth(0) {
            Some(index) => Cell::Element(self.array, index),
            None => Cell::Object(self.array),
        }
    }

    /// What the edit reads.
    pub(crate) fn reads(&self) -> [Pattern; 2]
        ensures { result ≡ fill_reads self.now.array self.now.on }
    {
        [
            object_pattern(&self.array),
            Pattern::One(AnyCell::new(self.cell())),
        ]
    }
}

impl FillsRecord {
    /// The edit.
    pub(crate) fn edit(&self) -> Edit
        ensures { result ≡ OneCommand (command.Fill self.now.array (asked_for.Ranges self.now.on) self.now.value) }
    {
        Edit::Command(Command::Fill(self.array, AskedRectangle::Ranges(self.on), self.value))
    }
}

impl RecordForm {
    /// Keeps what the one cell held, or none, where the edit is out of force. One of another form is out of force then.
    pub(crate) fn keep(&mut self, was: Option<Before>)
        ensures { shown self.new ≡ record { edit = (shown self.old).edit; kept = kept_of self.old was } }
    {
        let told = Was::of(was);
        match self {
            RecordForm::Set(element) => element.was = told,
            RecordForm::Copy(copied) => copied.was = told,
            RecordForm::Irv(implicit) => implicit.was = told,
            RecordForm::Member(member) => member.was = told,
            RecordForm::Fill(filled) => filled.was = told,
            RecordForm::Sets(sets) => sets.were = None,
            RecordForm::Fills(fills) => fills.were = None,
            RecordForm::Whole(entry) => entry.kept = None,
        }
    }

    /// Keeps what the cells held of sets as one edit, which are in force then. Another form stays.
    pub(crate) fn hold(&mut self, were: CellsWere)
        ensures { shown self.new ≡ record { edit = (shown self.old).edit; kept = held_of self.old were } }
    {
        match self {
            RecordForm::Sets(sets) => sets.were = Some(were),
            RecordForm::Set(_)
            | RecordForm::Copy(_)
            | RecordForm::Irv(_)
            | RecordForm::Member(_)
            | RecordForm::Fill(_)
            | RecordForm::Fills(_)
            | RecordForm::Whole(_) => {}
        }
    }

    /// The edit, as a value of its own; `NoMemory` where none is left for one that is kept whole, or for several commands.
    pub(crate) fn copy_of_edit(&self, alloc: Global) -> Result<Edit, NoMemory>
        ensures { IfOk result (λ e. e ≡ (shown self.now).edit) }
    {
        match self {
            RecordForm::Set(record) => Ok(record.element().edit()),
            RecordForm::Copy(copied) => Ok(copied.edit()),
            RecordForm::Irv(implicit) => Ok(implicit.edit()),
            RecordForm::Member(member) => Ok(member.edit()),
            RecordForm::Fill(filled) => Ok(filled.edit()),
            RecordForm::Sets(sets) => sets.edit.edit(alloc),
            RecordForm::Fills(fills) => Ok(fills.edit()),
            RecordForm::Whole(entry) => entry.edit.copy(alloc),
        }
    }
}

impl EditRecord {
    /// A new value of an element, in force, by what the element was.
    pub(crate) fn set(element: SetRecord, was: &i64) -> EditRecord
        ensures { result ≡ record {
          edit = OneCommand (command.Set element.array element.place element.value);
          kept = Some (record { footprint = element_reads element.array element.place; inverse = cell_before (cell.Element element.array element.place) (before.Number was.now) });
        } }
    {
        let mut element = element;
        element.was = Was::Number(*was);
        EditRecord {
            form: RecordForm::Set(element),
        }
    }

    /// An edit out of force; `NoMemory` where none is left for one that isn't a new value of an element or of an array.
    pub(crate) fn undone(alloc: Global, edit: Edit) -> Result<EditRecord, NoMemory>
        ensures { IfOk result (λ x. x ≡ record { edit = edit; kept = None }) }
    {
        match form_undone(alloc, edit) {
            Ok(form) => Ok(EditRecord { form }),
            Err(why) => Err(why),
        }
    }

    /// The edit; `NoMemory` where none is left for several commands that are made for the moment.
    pub(crate) fn edit(&self, alloc: Global) -> Result<LentEdit<'_>, NoMemory>
        ensures { IfOk result (λ e. lent_edit e ≡ self.now.edit) }
    {
        match &self.form {
            RecordForm::Set(record) => Ok(LentEdit::Own(record.element().edit())),
            RecordForm::Copy(copied) => Ok(LentEdit::Own(copied.edit())),
            RecordForm::Irv(implicit) => Ok(LentEdit::Own(implicit.edit())),
            RecordForm::Member(member) => Ok(LentEdit::Own(member.edit())),
            RecordForm::Fill(filled) => Ok(LentEdit::Own(filled.edit())),
            RecordForm::Sets(sets) => match sets.edit.edit(alloc) {
                Ok(edit) => Ok(LentEdit::Own(edit)),
                Err(why) => Err(why),
            },
            RecordForm::Fills(fills) => Ok(LentEdit::Own(fills.edit())),
            RecordForm::Whole(entry) => Ok(LentEdit::Lent(&entry.edit)),
        }
    }

    /// The note of the edit, if it has one.
    pub(crate) fn note(&self) -> Option<&Note>
        ensures { option_map (λ n. n.now) result ≡ note_of self.now.edit }
    {
        match &self.form {
            RecordForm::Set(_)
            | RecordForm::Copy(_)
            | RecordForm::Irv(_)
            | RecordForm::Member(_)
            | RecordForm::Fill(_)
            | RecordForm::Fills(_) => None,
            RecordForm::Sets(sets) => sets.edit.note(),
            RecordForm::Whole(entry) => entry.edit.note(),
        }
    }

    /// Whether the edit is in force.
    pub(crate) fn is_in_force(&self) -> bool
        ensures { result ≡ is_some self.now.kept }
    {
        match &self.form {
            RecordForm::Set(element) => element.was.before().is_some(),
            RecordForm::Copy(copied) => copied.was.before().is_some(),
            RecordForm::Irv(implicit) => implicit.was.before().is_some(),
            RecordForm::Member(member) => member.was.before().is_some(),
            RecordForm::Fill(filled) => filled.was.before().is_some(),
            RecordForm::Sets(sets) => sets.were.is_some(),
            RecordForm::Fills(fills) => fills.were.is_some(),
            RecordForm::Whole(entry) => entry.kept.is_some(),
        }
    }

    /// The new value of an element that the edit is, with what the element was, if that is all that it is, and it is in force.
    pub(crate) fn set_in_force(&self) -> Option<(ElementSet, Before)>
        ensures { IfSome result (λ r. kept_in self.now ≡ Some (set_footprint r.0.array r.0.place (value_before r.1))) }
    {
        let RecordForm::Set(record) = &self.form else {
            return None;
        };
        match record.was.before() {
            None => None,
            Some(was) => Some((record.element(), was)),
        }
    }

    /// The new value of an element that the edit is, if that is all that it is, and it is out of force.
    pub(crate) fn set_undone(&self) -> Option<ElementSet>
        ensures { IfSome result (λ e. self.now ≡ record { edit = OneCommand (command.Set e.array e.place e.value); kept = None }) }
    {
        let RecordForm::Set(record) = &self.form else {
            return None;
        };
        match record.was.before() {
            Some(_) => None,
            None => Some(record.element()),
        }
    }

    /// What is kept of the edit, if it is in force.
    pub(crate) fn kept(&self) -> Option<LentKept<'_>>
        ensures { option_map lent_kept result ≡ kept_in self.now }
    {
        match &self.form {
            RecordForm::Set(record) => match record.was.before() {
                None => None,
                Some(was) => {
                    let element = record.element();
                    Some(LentKept::Listed(LentFootprint::Set(
                        element.reads(),
                        set_back(element.cell(), &was),
                    )))
                }
            },
            RecordForm::Copy(copied) => match copied.was.before() {
                None => None,
                Some(was) => Some(LentKept::Listed(LentFootprint::Copy(
                    copied.reads(),
                    set_back(copied.cell(), &was),
                ))),
            },
            RecordForm::Irv(implicit) => match implicit.was.before() {
                None => None,
                Some(was) => Some(LentKept::Listed(LentFootprint::Irv(
                    implicit.reads(),
                    set_back(implicit.cell(), &was),
                ))),
            },
            RecordForm::Member(member) => match member.was.before() {
                None => None,
                Some(was) => Some(LentKept::Listed(LentFootprint::Member(
                    member.reads(),
                    set_back(member.cell(), &was),
                ))),
            },
            RecordForm::Fill(filled) => match filled.was.before() {
                None => None,
                Some(was) => Some(LentKept::Listed(LentFootprint::Fill(
                    filled.reads(),
                    set_back(filled.cell(), &was),
                ))),
            },
            RecordForm::Sets(sets) => match &sets.were {
                None => None,
                Some(were) => Some(LentKept::Listed(LentFootprint::Sets(were))),
            },
            RecordForm::Fills(fills) => match &fills.were {
                None => None,
                Some(were) => Some(LentKept::Filled(FilledCells {
                    array: &fills.array,
                    on: &fills.on,
                    numbers: were,
                })),
            },
            RecordForm::Whole(entry) => match &entry.kept {
                None => None,
                Some(kept) => Some(LentKept::Listed(LentFootprint::Lent(kept))),
            },
        }
    }

    /// Nothing is kept any more: the edit is out of force.
    #[tactic(auto, using(crate::proofs::Numbers::none_kept))]
    pub(crate) fn end(&mut self)
        ensures { self.new ≡ record { edit = self.old.edit; kept = None } }
    {
        self.form.keep(None);
    }
}
