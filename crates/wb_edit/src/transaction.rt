ghost use Rattle.std.specs.Prelude.{◌≡◌, IfOk, IfSome, IfNone, map, option_map};
ghost use Rattle.std.specs.Bool.{Decides};
ghost use Rattle.std.specs.List.{AllByRecursion};
ghost use Rattle.wb_edit.specs.Transactions.{AreSeveral};
ghost use Rattle.wb_edit.specs.Valid.{IsValidCommand, CommandListsOnce};

use crate::command::Command;
use crate::note::Note;
use std::alloc::Global;
use std::marker::Model;
use wb_range::NoMemory;

/// A transaction has at most so many commands.
const MOST: usize = 4096;

/// Several commands as one edit: all are made, in their order, or none is. A note may tell what for.
///
/// It has 1 to 4,096 commands. Contracts see them with the note.
pub struct Transaction {
    commands: Vec<Command>,
    note: Option<Note>,
}

// In a function of its own, so that a crate above need not prove anew how each field is let go.
impl Drop for Transaction {
    fn drop(self) {
        let Transaction {
            commands: _,
            note: _,
        } = self;
    }
}

impl Model for Transaction {
    ghost use Rattle.std.specs.Prelude.{ℕ, List, Option};
    ghost use Rattle.std.specs.List.{AllByRecursion};
    ghost use Rattle.wb_edit.specs.declared.command.Command.{Command};
    ghost use Rattle.wb_edit.specs.Transactions.{AreSeveral};
    ghost use Rattle.wb_edit.specs.Valid.{IsValidCommand, CommandListsOnce};

    ghost Value = { List Command × Option (List ℕ) };

    ghost view = { λ a. (a.commands.items, a.note) };

    ghost invariant = { λ a. AreSeveral a.commands.items × AllByRecursion IsValidCommand a.commands.items × AllByRecursion CommandListsOnce a.commands.items };
}

impl Transaction {
    /// The commands as one edit, with a note; `None` where there are none of them, or too many.
    pub fn new(commands: Vec<Command>, note: Option<Note>) -> Option<Transaction>
        ensures some { IfSome result (λ t. t ≡ (commands.items, note)) }
        ensures several { IfSome result (λ t. AreSeveral commands.items) }
        ensures none { IfNone result (AreSeveral commands.items → ⊥) }
    {
        if commands.is_empty() {
            return None;
        }
        if commands.len() > MOST {
            return None;
        }
        commands_validity(&commands);
        commands_listing(&commands);
        Some(Transaction { commands, note })
    }

    /// The commands, in their order.
    pub fn commands(&self) -> &[Command]
        ensures same { result.now ≡ self.now.0 }
        ensures several { AreSeveral self.now.0 }
        ensures valid { AllByRecursion IsValidCommand self.now.0 }
        ensures listed { AllByRecursion CommandListsOnce self.now.0 }
    {
        self.commands.as_slice()
    }

    /// The note, if there is one.
    pub fn note(&self) -> Option<&Note>
        ensures { option_map (λ n. n.now) result ≡ self.now.1 }
    {
        // For the proof: the invariant, which speaks of the commands.
        let _ = &self.commands;
        self.note.as_ref()
    }

    /// An equal transaction, or `NoMemory`.
    pub fn copy(&self, alloc: Global) -> Result<Transaction, NoMemory>
        ensures { IfOk result (λ t. t ≡ self.now) }
    {
        let commands = copied(alloc, self.commands())?;
        let note = Note::copied(alloc, self.note())?;
        Ok(Transaction { commands, note })
    }

    /// Whether the transactions are equal: the commands, and the notes.
    pub fn is_same(&self, other: &Transaction) -> bool
        ensures { Decides result (self.now ≡ other.now) }
    {
        if !are_same(self.commands(), other.commands()) {
            return false;
        }
        Note::are_same(&self.note, &other.note)
    }
}

fn copied(alloc: Global, commands: &[Command]) -> Result<Vec<Command>, NoMemory>
    ensures { IfOk result (λ v. v.items ≡ commands.now) }
{
    let mut copies = Vec::new(alloc);
    for command in commands {
        let copy = command.copy(alloc)?;
        if copies.push(copy).is_err() {
            return Err(NoMemory);
        }
    }
    Ok(copies)
}

fn are_same(commands: &[Command], others: &[Command]) -> bool
    ensures { Decides result (commands.now ≡ others.now) }
{
    if commands.len() != others.len() {
        return false;
    }
    for at in 0..commands.len() {
        if !commands[at].is_same(&others[at]) {
            return false;
        }
    }
    true
}

// Computes nothing. Callers learn what each command is.
fn commands_validity(commands: &[Command])
    ensures { AllByRecursion IsValidCommand commands.now }
{
    for command in commands {
        command.validity();
    }
}

// Computes nothing. Callers learn that the indices that each command carries are listed once each.
fn commands_listing(commands: &[Command])
    ensures { AllByRecursion CommandListsOnce commands.now }
{
    for command in commands {
        command.listing();
    }
}
