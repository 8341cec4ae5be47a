//! A history from its text.
ghost use Rattle.std.specs.Prelude.{◌≡◌, List, IfOk, IfErr, IfSome, IfNone};
ghost use Rattle.wb_history.specs.Past.{Numbered};
ghost use Rattle.wb_history.specs.Restored.{IsCounted, marked};
ghost use Rattle.wb_machine.specs.Histories.Text.{history_text, AreAsked, IsHistory, IsNoHistory};

use crate::histories::lines::read_edits;
use crate::histories::printed::print_history;
use std::alloc::Global;
use thiserror::Error;
use wb_arrays::Mover;
use wb_edit::Edit;
use wb_history::{History, RestoreErr};
use wb_range::NoMemory;

/// Why a text is not read.
#[derive(Clone, Copy, Debug, PartialEq, Eq, Error)]
pub enum HistoryErr {
    /// No history has this text.
    #[error("no text of a history")]
    Bad,
    /// A growth was refused.
    #[error("no memory")]
    NoMemory,
}

// The text of a history is given back with it, and nothing else is.
fn same_text(alloc: Global, history: History, text: &str) -> Result<Option<History>, NoMemory>
    ensures same { IfOk result (λ r. IfSome r (λ h. text.now ≡ history_text h.entries)) }
    ensures other { IfOk result (λ r. IfNone r (text.now ≡ history_text history.entries → ⊥)) }
    ensures kept { IfOk result (λ r. IfSome r (λ h. h ≡ history)) }
    ensures asked { IfOk result (λ r. IfSome r (λ h. AreAsked history.entries → IsHistory history.entries)) }
{
    let printed = print_history(alloc, &history)?;
    if printed.as_str() == text {
        Ok(Some(history))
    } else {
        Ok(None)
    }
}

// The history of these edits, if this is its text.
fn history_of_edits<M: Mover>(
    alloc: Global,
    edits: Vec<(Edit, bool)>,
    text: &str,
    mover: &M,
) -> Result<Option<History>, NoMemory>
    requires { AreAsked (marked edits.items) }
    ensures some { IfOk result (λ r. IfSome r (λ h. (text.now ≡ history_text h.entries) × IsCounted h)) }
    ensures asked { IfOk result (λ r. IfSome r (λ h. IsHistory h.entries)) }
    ensures none { IfOk result (λ r. IfNone r (IsHistory (marked edits.items) → text.now ≡ history_text (marked edits.items) → ⊥)) }
{
    match History::restore(alloc, edits, mover) {
        Ok(history) => same_text(alloc, history, text),
        Err(RestoreErr::NotLegal) => Ok(None),
        Err(RestoreErr::NoMemory) => Err(NoMemory),
    }
}

// The history of this text, if there is one.
fn history_of<M: Mover>(alloc: Global, text: &str, mover: &M) -> Result<Option<History>, NoMemory>
    ensures some { IfOk result (λ r. IfSome r (λ h. (text.now ≡ history_text h.entries) × IsCounted h)) }
    ensures asked { IfOk result (λ r. IfSome r (λ h. IsHistory h.entries)) }
    ensures none { IfOk result (λ r. IfNone r (IsNoHistory text.now)) }
{
    match read_edits(alloc, text)? {
        Some(edits) => history_of_edits(alloc, edits, text, mover),
        None => Ok(None),
    }
}

/// The history of this text, or `Bad` just where no history has it. No two histories share a text, so it is the only one.
/// Each edit in force is made once, and nothing else is counted in `writes`.
pub fn read_history<M: Mover>(alloc: Global, text: &str, mover: &M) -> Result<History, HistoryErr>
    ensures ok { IfOk result (λ h. text.now ≡ history_text h.entries) }
    ensures history { IfOk result (λ h. IsHistory h.entries) }
    ensures counted { IfOk result (λ h. IsCounted h) }
    ensures bad { IfErr result (λ why. why ≡ HistoryErr.Bad → IsNoHistory text.now) }
{
    match history_of(alloc, text, mover) {
        Ok(Some(history)) => Ok(history),
        Ok(None) => Err(HistoryErr::Bad),
        Err(NoMemory) => Err(HistoryErr::NoMemory),
    }
}
