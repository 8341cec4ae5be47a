ghost use Rattle.std.specs.Prelude.{◌≡◌, IfOk};
ghost use Rattle.std.specs.Bool.{Decides};

use crate::requests::line_text::LineText;
use std::alloc::Global;
use wb_edit::{Edit, Query};
use wb_range::NoMemory;

/// What a user asks for.
#[derive(Drop)]
pub enum Request {
    /// A change to the workbook.
    Change(Edit),
    /// Undo of the edit of a number, or of the latest one in force.
    Undo(Option<u64>),
    /// Redo of the edit of a number.
    Redo(u64),
    /// Undo of the edit of a number with all that need it.
    Cascade(u64),
    /// Which edits have to be undone with the edit of a number.
    Dependents(u64),
    /// A question.
    Ask(Query),
    /// The text of the workbook.
    Print,
    /// The text of the history, or the lines of its edits from a number on.
    History(Option<u64>),
    /// How many edits there are, and how many cells were set.
    Edits,
    /// What is wrong with a line.
    Explain(LineText),
}

impl Request {
    /// An equal request, or `NoMemory`.
    pub fn copy(&self, alloc: Global) -> Result<Request, NoMemory>
        ensures { IfOk result (λ r. r ≡ self.now) }
    {
        match self {
            Request::Change(edit) => Ok(Request::Change(edit.copy(alloc)?)),
            Request::Undo(number) => Ok(Request::Undo(*number)),
            Request::Redo(number) => Ok(Request::Redo(*number)),
            Request::Cascade(number) => Ok(Request::Cascade(*number)),
            Request::Dependents(number) => Ok(Request::Dependents(*number)),
            Request::Ask(query) => Ok(Request::Ask(*query)),
            Request::Print => Ok(Request::Print),
            Request::History(from) => Ok(Request::History(*from)),
            Request::Edits => Ok(Request::Edits),
            Request::Explain(line) => Ok(Request::Explain(line.copy(alloc)?)),
        }
    }

    /// Whether the requests are equal.
    pub fn is_same(&self, other: &Request) -> bool
        ensures { Decides result (self.now ≡ other.now) }
    {
        match (self, other) {
            (Request::Change(edit), Request::Change(by)) => edit.is_same(by),
            (Request::Undo(number), Request::Undo(by)) => is_same_number(*number, *by),
            (Request::Redo(number), Request::Redo(by)) => *number == *by,
            (Request::Cascade(number), Request::Cascade(by)) => *number == *by,
            (Request::Dependents(number), Request::Dependents(by)) => *number == *by,
            (Request::Ask(query), Request::Ask(by)) => query.is_same(by),
            (Request::Print, Request::Print) => true,
            (Request::History(from), Request::History(by)) => is_same_number(*from, *by),
            (Request::Edits, Request::Edits) => true,
            (Request::Explain(line), Request::Explain(by)) => line.is_same(by),
            _ => false,
        }
    }
}

fn is_same_number(number: Option<u64>, other: Option<u64>) -> bool
    ensures { Decides result (number ≡ other) }
{
    match (number, other) {
        (Some(number), Some(by)) => number == by,
        (None, None) => true,
        _ => false,
    }
}
