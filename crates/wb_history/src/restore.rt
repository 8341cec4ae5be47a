//! A history from the list of its edits.
ghost use Rattle.std.specs.Prelude.{◌≡◌, [], ◌∷◌, ◌++◌, OnOk, OnErr, IfErr};
ghost use Rattle.wb_history.specs.Restored.{one_of, marked, stopped, IsCounted, BeginsNone, RestoreReply};

use crate::history::History;
use std::alloc::Global;
use thiserror::Error;
use wb_arrays::Mover;
use wb_edit::{Edit, Refusal};

/// Why a list of edits gives no history.
#[derive(Clone, Copy, Debug, PartialEq, Eq, Error)]
pub enum RestoreErr {
    /// An edit in force is not accepted in its place.
    #[error("an edit in force is not accepted in its place")]
    NotLegal,
    /// A growth was refused, or a mover had no thread.
    #[error("no memory")]
    NoMemory,
}

// Why an edit in force is not put in.
fn stopped(why: Refusal) -> RestoreErr
    ensures { result ≡ stopped why }
{
    match why {
        Refusal::NoMemory => RestoreErr::NoMemory,
        Refusal::BadRequest
        | Refusal::BadLiteral
        | Refusal::Refused(_)
        | Refusal::NoSuchEdit
        | Refusal::NotInForce
        | Refusal::InForce
        | Refusal::Blocked(_)
        | Refusal::RefusedInPlace(_)
        | Refusal::StrangePass => RestoreErr::NotLegal,
    }
}

/// Puts an edit in as the last one, in force or out of force: one in force is made, one out of force is not tried. `NotLegal` just where
/// no history has edits that begin so.
pub fn put_in<M: Mover>(
    history: &mut History,
    edit: Edit,
    in_force: bool,
    mover: &M,
) -> Result<(), RestoreErr>
    ensures entries { OnOk result (history.new.entries ≡ history.old.entries ++ one_of edit in_force ∷ []) }
    ensures counted { OnOk result (IsCounted history.old → IsCounted history.new) }
    ensures refused { IfErr result (λ why. why ≡ RestoreErr.NotLegal → BeginsNone (history.old.entries ++ one_of edit in_force ∷ [])) }
    ensures err { OnErr result (history.new ≡ history.old) }
{
    if in_force {
        match history.edit(edit, mover) {
            Ok(_) => Ok(()),
            Err(why) => Err(stopped(why)),
        }
    } else {
        match history.append_undone(edit) {
            Ok(()) => Ok(()),
            Err(_) => Err(RestoreErr::NoMemory),
        }
    }
}

impl History {
    /// The history of the edits of a list, each with whether it is in force. Each edit in force is made once, in its
    /// place; one out of force is not tried.
    pub fn restore<M: Mover>(
        alloc: Global,
        edits: Vec<(Edit, bool)>,
        mover: &M,
    ) -> Result<History, RestoreErr>
        ensures { RestoreReply (marked edits.items) result }
    {
        let mut history = History::new(alloc);
        for (edit, in_force) in edits {
            if let Err(why) = put_in(&mut history, edit, in_force, mover) {
                return Err(why);
            }
        }
        // For the proof: the history is legal.
        let _legal = history.book();
        Ok(history)
    }
}
