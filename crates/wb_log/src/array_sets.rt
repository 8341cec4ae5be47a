//! Sets of elements of one array as one edit, kept by their points and numbers.

ghost use Rattle.std.specs.Prelude.{◌≡◌, ◌≤◌, map, IfOk, IfSome, option_map};
ghost use Rattle.wb_cells.specs.declared.values.index.Index.TheVariants.{Point as at_point};
ghost use Rattle.wb_edit.specs.declared.edit.Edit.TheVariants.{Transaction as Together};
ghost use Rattle.wb_edit.specs.Edits.{note_of};
ghost use Rattle.wb_log.specs.Sets.{set_at, set_command, sets_in, set_commands};

use std::alloc::Global;
use std::marker::Model;
use wb_cells::{AnyIndex, Cell, Index, Name, Point, coordinates_of};
use wb_edit::{Command, Edit, Note, Transaction};
use wb_range::NoMemory;

/// Sets of elements at points of one rank, in order, each by its point and the number that the element becomes.
#[derive(Drop)]
pub(crate) struct PointSets<const R: usize> {
    pub(crate) sets: Vec<([i64; R], i64)>,
}

/// Sets of elements, in order.
#[derive(Drop)]
pub(crate) enum SetList {
    /// At integers.
    Rank1(PointSets<1>),
    /// At pairs.
    Rank2(PointSets<2>),
    /// At triples.
    Rank3(PointSets<3>),
}

/// Sets of elements of one array as one edit, with a note. Contracts see the edit.
#[derive(Drop)]
pub(crate) struct ArraySets {
    array: Name,
    list: SetList,
    note: Option<Note>,
}

impl Model for ArraySets {
    ghost use Rattle.wb_edit.specs.declared.edit.Edit.{Edit};
    ghost use Rattle.wb_edit.specs.Transactions.{AreSeveral};
    ghost use Rattle.wb_log.specs.Sets.{sets_in, sets_edit};

    ghost Value = { Edit };

    ghost view = { λ a. sets_edit a.array a.list a.note };

    ghost invariant = { λ a. AreSeveral (sets_in a.list) };
}

// The index that a point of rank `R` is.
fn index_at<const R: usize>(point: &[i64; R]) -> AnyIndex
    requires { R ≤ 3 }
    ensures { result ≡ at_point point.now }
{
    AnyIndex::new(Index::Point(Point::of(point)))
}

// The point and the number of a command, if it sets an element of the array at a point of the rank.
fn entry_of<const R: usize>(array: &Name, command: &Command) -> Option<([i64; R], i64)>
    ensures { IfSome result (λ e. command.now ≡ set_command array.now (set_at e)) }
{
    match command {
        Command::Set(name, place, value) => {
            if !name.is_same(array) {
                return None;
            }
            match coordinates_of(place) {
                Some(point) => Some((point, *value)),
                None => None,
            }
        }
        _ => None,
    }
}

// The command by which an element is set.
fn command_at<const R: usize>(array: &Name, entry: &([i64; R], i64)) -> Command
    requires { R ≤ 3 }
    ensures { result ≡ set_command array.now (set_at entry.now) }
{
    Command::Set(*array, index_at(&entry.0), entry.1)
}

impl<const R: usize> PointSets<R> {
    // The sets that commands are, if each of them sets an element of the array at a point of the rank.
    fn of(
        alloc: Global,
        array: &Name,
        commands: &[Command],
    ) -> Result<Option<PointSets<R>>, NoMemory>
        ensures { IfOk result (λ o. IfSome o (λ p. commands.now ≡ set_commands array.now (map set_at p.sets.items))) }
    {
        let mut sets = Vec::with_capacity(alloc, commands.len())?;
        for command in commands {
            let Some(entry) = entry_of(array, command) else {
                return Ok(None);
            };
            if sets.push(entry).is_err() {
                return Err(NoMemory);
            }
        }
        Ok(Some(PointSets { sets }))
    }

    // The commands.
    fn commands(&self, alloc: Global, array: &Name) -> Result<Vec<Command>, NoMemory>
        requires { R ≤ 3 }
        ensures { IfOk result (λ v. v.items ≡ set_commands array.now (map set_at self.now.sets.items)) }
    {
        let sets = self.sets.as_slice();
        let mut commands = Vec::with_capacity(alloc, sets.len())?;
        for entry in sets {
            if commands.push(command_at(array, entry)).is_err() {
                return Err(NoMemory);
            }
        }
        Ok(commands)
    }
}

impl SetList {
    // The sets that commands are, if each of them sets an element of the array at a point, and the points are of one rank.
    fn of(alloc: Global, array: &Name, commands: &[Command]) -> Result<Option<SetList>, NoMemory>
        ensures { IfOk result (λ o. IfSome o (λ l. commands.now ≡ set_commands array.now (sets_in l))) }
    {
        if let Some(line) = PointSets::of(alloc, array, commands)? {
            return Ok(Some(SetList::Rank1(line)));
        }
        if let Some(plane) = PointSets::of(alloc, array, commands)? {
            return Ok(Some(SetList::Rank2(plane)));
        }
        if let Some(solid) = PointSets::of(alloc, array, commands)? {
            return Ok(Some(SetList::Rank3(solid)));
        }
        Ok(None)
    }

    // The commands.
    fn commands(&self, alloc: Global, array: &Name) -> Result<Vec<Command>, NoMemory>
        ensures { IfOk result (λ v. v.items ≡ set_commands array.now (sets_in self.now)) }
    {
        match self {
            SetList::Rank1(line) => line.commands(alloc, array),
            SetList::Rank2(plane) => plane.commands(alloc, array),
            SetList::Rank3(solid) => solid.commands(alloc, array),
        }
    }
}

// The array of which a command sets an element at a point, if it does.
fn array_of(command: &Command) -> Option<Name> {
    match command {
        Command::Set(array, _, _) => Some(*array),
        _ => None,
    }
}

impl ArraySets {
    /// The sets that a transaction is, if each of its commands sets an element of one array at a point.
    pub(crate) fn of(alloc: Global, several: &Transaction) -> Result<Option<ArraySets>, NoMemory>
        ensures { IfOk result (λ o. IfSome o (λ s. s ≡ Together several.now)) }
    {
        let commands = several.commands();
        let Some(array) = array_of(&commands[0]) else {
            return Ok(None);
        };
        match SetList::of(alloc, &array, commands) {
            Err(why) => Err(why),
            Ok(None) => Ok(None),
            Ok(Some(list)) => match Note::copied(alloc, several.note()) {
                Err(why) => Err(why),
                Ok(note) => Ok(Some(ArraySets { array, list, note })),
            },
        }
    }

    /// The cell that tells what stands under the array's name.
    pub(crate) fn object(&self) -> Cell {
        Cell::Object(self.array)
    }

    /// The edit, as a value of its own; `NoMemory` where none is left.
    pub(crate) fn edit(&self, alloc: Global) -> Result<Edit, NoMemory>
        ensures { IfOk result (λ e. e ≡ self.now) }
    {
        match self.list.commands(alloc, &self.array) {
            Err(why) => Err(why),
            Ok(made) => match Note::copied(alloc, self.note()) {
                Err(why) => Err(why),
                Ok(note) => match Transaction::new(made, note) {
                    Some(several) => Ok(Edit::Transaction(several)),
                    None => unreachable!(),
                },
            },
        }
    }

    /// The note, if there is one.
    pub(crate) fn note(&self) -> Option<&Note>
        ensures { option_map (λ n. n.now) result ≡ note_of self.now }
    {
        self.note.as_ref()
    }
}
