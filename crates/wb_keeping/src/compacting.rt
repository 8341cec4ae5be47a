// A log made anew, of the text of its history.
ghost use Rattle.std.specs.Prelude.{◌≡◌, ◌≢◌, ◌<◌, ◌≤◌, ℕ, List, ◌∷◌, [], IfErr, OnOk, IsErrOf};
ghost use Rattle.wb_keep.specs.Disk.Device.{LeavesOnly};
ghost use Rattle.wb_keep.specs.Keep.{IsSettled};
ghost use Rattle.wb_keep.specs.Lines.{recovered};
ghost use Rattle.wb_kept.specs.Runs.{Leads};
ghost use Rattle.wb_keeping.specs.Granting.Granting.{Grants, no_edit};
ghost use Rattle.wb_keeping.specs.Anew.{HasEdits};

use crate::beginning::resume_line;
use std::alloc::Global;
use wb_history::History;
use wb_keep::disk::Replaces;
use wb_keep::{CompactErr, LineLog};

/// Puts a log that has the text of a history alone in place of the one whose changes led to it.
pub fn compact<D: Replaces>(
    alloc: Global,
    host: &D::Host,
    history: &History,
    log: &mut LineLog<D>,
) -> Result<(), CompactErr>
    requires settled { IsSettled D.seen D.may_leave log.old }
    requires leads { Leads Grants no_edit (recovered (D.seen log.old.device)) history.now }

    ensures settled { OnOk result (IsSettled D.seen D.may_leave log.new) }

    // A crash at any moment leaves a file that stands for a history with the same edits, and so does the new log.
    ensures any_moment { LeavesOnly D.moment D.left_since log.old.device log.new.device (HasEdits history.now.entries) }
    ensures has_edits { OnOk result (HasEdits history.now.entries (D.seen log.new.device)) }
    ensures one_line { OnOk result ((line : List ℕ) × (recovered (D.seen log.new.device) ≡ line ∷ [])) }

    // Without memory nothing has changed. It doesn't give up by itself.
    ensures memory { IsErrOf result CompactErr.Memory → log.new ≡ log.old }
    ensures failed { IfErr result (λ e. e ≢ CompactErr.Memory → D.faults log.old.device < D.faults log.new.device) }
{
    let Ok(line) = resume_line(alloc, history) else {
        return Err(CompactErr::Memory);
    };
    let mut lines = line.into_bytes();
    if lines.push(b'\n').is_err() {
        return Err(CompactErr::Memory);
    }
    log.compact(alloc, host, &lines)
}
