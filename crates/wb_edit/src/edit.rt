ghost use Rattle.std.specs.Prelude.{◌≡◌, IfOk, option_map};
ghost use Rattle.std.specs.Bool.{Decides};
ghost use Rattle.wb_edit.specs.Edits.{command_in, note_of, IsValid, ListsOnce};

use crate::command::Command;
use crate::note::Note;
use crate::transaction::Transaction;
use std::alloc::Global;
use wb_range::NoMemory;
use wb_text::BookText;

/// A change of a workbook, as it is asked for. Each is made whole or not at all.
///
/// What it tests, reads and writes is its `meaning` in `specs/Edits.antt`.
pub enum Edit {
    /// One command.
    Command(Command),
    /// Several commands as one, with a note.
    Transaction(Transaction),
    /// The workbook of a text, where there is no object yet.
    Load(BookText),
}

// In a function of its own, so that a crate above need not prove anew how each field is let go.
impl Drop for Edit {
    fn drop(self) {
        match self {
            Edit::Command(_) | Edit::Transaction(_) | Edit::Load(_) => {}
        }
    }
}

impl Edit {
    /// An equal edit, or `NoMemory` where none is left for a list of commands, a set of indices, numbers or a text in it. All else is of a fixed size and takes none.
    pub fn copy(&self, alloc: Global) -> Result<Edit, NoMemory>
        ensures { IfOk result (λ e. e ≡ self.now) }
    {
        match self {
            Edit::Command(command) => Ok(Edit::Command(command.copy(alloc)?)),
            Edit::Transaction(several) => Ok(Edit::Transaction(several.copy(alloc)?)),
            Edit::Load(text) => Ok(Edit::Load(text.copy(alloc)?)),
        }
    }

    /// Whether the edits are equal.
    pub fn is_same(&self, other: &Edit) -> bool
        ensures { Decides result (self.now ≡ other.now) }
    {
        match (self, other) {
            (Edit::Command(command), Edit::Command(by)) => command.is_same(by),
            (Edit::Transaction(several), Edit::Transaction(by)) => several.is_same(by),
            (Edit::Load(text), Edit::Load(by)) => text.is_same(by),
            _ => false,
        }
    }

    /// The command that the edit is, if it is one alone.
    pub fn into_command(self) -> Option<Command>
        ensures { result ≡ command_in self }
    {
        match self {
            Edit::Command(command) => Some(command),
            Edit::Transaction(_) => None,
            Edit::Load(_) => None,
        }
    }

    /// The note of the edit, if it has one.
    pub fn note(&self) -> Option<&Note>
        ensures { option_map (λ n. n.now) result ≡ note_of self.now }
    {
        match self {
            Edit::Transaction(several) => several.note(),
            Edit::Command(_) => None,
            Edit::Load(_) => None,
        }
    }

    /// Computes nothing. Callers learn what every edit is: of each command the new name is a name, the ranges and the mapping are
    /// within the limits, the numbers are of 64 bits and as many as the indices that they are for; and a text is a workbook's.
    pub fn validity(&self)
        ensures { IsValid self.now }
    {
        match self {
            Edit::Command(command) => command.validity(),
            Edit::Transaction(several) => {
                // For the proof: each command is valid.
                let _commands = several.commands();
            }
            Edit::Load(text) => {
                // For the proof: the text is a workbook's.
                let _text = text.as_str();
            }
        }
    }

    /// Computes nothing. Callers learn that the indices that each command of an edit carries are listed once each.
    pub fn listing(&self)
        ensures { ListsOnce self.now }
    {
        match self {
            Edit::Command(command) => command.listing(),
            Edit::Transaction(several) => {
                // For the proof: each command lists its indices once.
                let _commands = several.commands();
            }
            Edit::Load(_) => {}
        }
    }
}
