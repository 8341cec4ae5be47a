ghost use Rattle.std.specs.Prelude.{◌≡◌, IfOk};
ghost use Rattle.std.specs.Bool.{Decides};

use crate::replies::edit_numbers::EditNumbers;
use crate::replies::printed_text::PrintedText;
use std::alloc::Global;
use wb_edit::Refusal;
use wb_history::Answer;
use wb_range::NoMemory;
use wb_requests::Explanation;

/// What a request is answered.
#[derive(Debug)]
pub enum Reply {
    /// The number of a new edit, and how many cells it changed.
    Edited(u64, usize),
    /// The number of the edit that was undone, and how many cells were set back.
    Undone(u64, usize),
    /// The numbers of the edits that were undone with their dependents, from the greatest down, and how many cells were set
    /// back.
    Cascaded(EditNumbers, usize),
    /// The number of the edit that was redone, and how many cells it changed.
    Redone(u64, usize),
    /// The numbers of the dependents of an edit, from the greatest down.
    Listed(EditNumbers),
    /// The answer of a query.
    Answered(Answer),
    /// The text of the workbook, or of the history.
    Printed(PrintedText),
    /// How many edits there are, and the lines of those from a number on.
    PrintedFrom(u64, PrintedText),
    /// How many edits there are, and how many cells were set.
    Counted(u64, u128),
    /// What is wrong with a line, if anything is.
    Explained(Option<Explanation>),
    /// Why nothing was done.
    Refused(Refusal),
}

// In a function of its own, so that a crate above need not prove anew how each field is let go.
impl Drop for Reply {
    fn drop(self) {
        match self {
            Reply::Edited(_, _)
            | Reply::Undone(_, _)
            | Reply::Cascaded(_, _)
            | Reply::Redone(_, _)
            | Reply::Listed(_)
            | Reply::Answered(_)
            | Reply::Printed(_)
            | Reply::PrintedFrom(_, _)
            | Reply::Counted(_, _)
            | Reply::Explained(_)
            | Reply::Refused(_) => {}
        }
    }
}

impl Reply {
    /// An equal reply, or `NoMemory`.
    pub fn copy(&self, alloc: Global) -> Result<Reply, NoMemory>
        ensures { IfOk result (λ r. r ≡ self.now) }
    {
        match self {
            Reply::Edited(edit, n) => Ok(Reply::Edited(*edit, *n)),
            Reply::Undone(edit, n) => Ok(Reply::Undone(*edit, *n)),
            Reply::Cascaded(edits, n) => Ok(Reply::Cascaded(edits.copy(alloc)?, *n)),
            Reply::Redone(edit, n) => Ok(Reply::Redone(*edit, *n)),
            Reply::Listed(edits) => Ok(Reply::Listed(edits.copy(alloc)?)),
            Reply::Answered(answer) => Ok(Reply::Answered(answer.copy(alloc)?)),
            Reply::Printed(text) => Ok(Reply::Printed(text.copy(alloc)?)),
            Reply::PrintedFrom(edits, text) => Ok(Reply::PrintedFrom(*edits, text.copy(alloc)?)),
            Reply::Counted(edits, writes) => Ok(Reply::Counted(*edits, *writes)),
            Reply::Explained(Some(wrong)) => Ok(Reply::Explained(Some(wrong.copy(alloc)?))),
            Reply::Explained(None) => Ok(Reply::Explained(None)),
            Reply::Refused(why) => Ok(Reply::Refused(*why)),
        }
    }

    /// Whether the replies are equal.
    pub fn is_same(&self, other: &Reply) -> bool
        ensures { Decides result (self.now ≡ other.now) }
    {
        match (self, other) {
            (Reply::Edited(edit, n), Reply::Edited(by, m)) => are_same(*edit, *n, *by, *m),
            (Reply::Undone(edit, n), Reply::Undone(by, m)) => are_same(*edit, *n, *by, *m),
            (Reply::Cascaded(edits, n), Reply::Cascaded(by, m)) => {
                if !edits.is_same(by) {
                    return false;
                }
                *n == *m
            }
            (Reply::Redone(edit, n), Reply::Redone(by, m)) => are_same(*edit, *n, *by, *m),
            (Reply::Listed(edits), Reply::Listed(by)) => edits.is_same(by),
            (Reply::Answered(answer), Reply::Answered(by)) => answer.is_same(by),
            (Reply::Printed(text), Reply::Printed(by)) => text.as_str() == by.as_str(),
            (Reply::PrintedFrom(edits, text), Reply::PrintedFrom(by, of)) => {
                if *edits != *by {
                    return false;
                }
                text.as_str() == of.as_str()
            }
            (Reply::Counted(edits, writes), Reply::Counted(by, to)) => {
                if *edits != *by {
                    return false;
                }
                *writes == *to
            }
            (Reply::Explained(wrong), Reply::Explained(by)) => are_equal(wrong, by),
            (Reply::Refused(why), Reply::Refused(by)) => why.is_same(*by),
            _ => false,
        }
    }
}

fn are_same(edit: u64, n: usize, by: u64, m: usize) -> bool
    ensures { Decides result ((edit ≡ by) × (n ≡ m)) }
{
    edit == by && n == m
}

fn are_equal(wrong: &Option<Explanation>, by: &Option<Explanation>) -> bool
    ensures { Decides result (wrong.now ≡ by.now) }
{
    match (wrong, by) {
        (Some(wrong), Some(by)) => wrong.is_same(by),
        (None, None) => true,
        _ => false,
    }
}
