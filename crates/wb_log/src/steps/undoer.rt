//! What makes the undos of a cascade, and alone says which of them wanted memory.

ghost use Rattle.std.specs.Prelude.{◌≡◌, false, Ok, OnOk, OnErr, IfOk, is_err};
ghost use Rattle.wb_cells.specs.Cells.{saturating_add};
ghost use Rattle.wb_log.specs.Cascades.{IsFree};
ghost use Rattle.wb_log.specs.Past.{meant, out_of_force};
ghost use Rattle.wb_log.specs.Replies.{UndoReply};
ghost use Rattle.wb_log.specs.Wants.{has_wanted};

use crate::log::Log;
use wb_arrays::Mover;
use wb_range::NoMemory;

/// What undoes edits that may be undone, one by one, and takes down whether the undo that it made last wanted memory. Its
/// field is written by `undo` alone: outside of this file nothing can say that there was such a want.
#[derive(Drop)]
pub struct Undoer {
    wanted: bool,
}

impl Undoer {
    /// An undoer that made no undo.
    pub fn new() -> Undoer
        ensures { has_wanted result ≡ false }
    {
        Undoer { wanted: false }
    }

    /// Undoes the edit at a place, which may be undone: how many cells are set back. Want of threads counts as want of memory.
    pub(crate) fn undo<M: Mover>(
        &mut self,
        log: &mut Log,
        at: usize,
        mover: &M,
    ) -> Result<usize, NoMemory>
        requires { IsFree (meant log.old.entries) at }

        // The answer; the edit is out of force, and the cells that were set back are counted.
        ensures reply { IfOk result (λ n. UndoReply (meant log.old.entries) at (Ok n)) }
        ensures entries { OnOk result (log.new.entries ≡ out_of_force at log.old.entries) }
        ensures writes { IfOk result (λ n. log.new.writes ≡ saturating_add log.old.writes n) }

        // Without memory nothing has changed, and the undoer knows that an undo wanted it.
        ensures err { OnErr result (log.new ≡ log.old) }
        ensures cause { has_wanted self.new ≡ is_err result }
    {
        match log.undo_at(at, mover) {
            Ok(count) => {
                self.wanted = false;
                Ok(count)
            }
            Err(_) => {
                self.wanted = true;
                Err(NoMemory)
            }
        }
    }
}
