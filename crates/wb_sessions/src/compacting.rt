//! Journals that are made anew, and the exit status after each.
ghost use Rattle.std.specs.Prelude.{◌≡◌};
ghost use Rattle.wb_keep.specs.Disk.Device.{LeavesOnly, Only};
ghost use Rattle.wb_keeping.specs.Anew.{HasEdits};
ghost use Rattle.wb_sessions.specs.Compacting.{Compacts, CompactsAt, EndsAnew, TellsOfAnew};
ghost use Rattle.wb_sessions.specs.Keeping.{FailsKept, IsKeptHistory, writer_alone};

use crate::files::{FileFault, OpensFiles};
use crate::keeping::{KeptRun, opened, turned_away};
use std::alloc::Global;
use wb_arrays::Mover;
use wb_history::History;
use wb_keep::CompactErr;
use wb_keep::disk::Replaces;
use wb_keeping::compact;
use wb_kept::Kept;
use wb_lines::Sink;
use wb_statuses::{DONE, INPUT_OR_OUTPUT_FAILED, NO_MEMORY};

// The exit status after a journal was to be made anew, and what is told of its file.
fn outcome_of(made: Result<(), CompactErr>) -> (u8, Option<FileFault>)
    ensures { TellsOfAnew made result.0 result.1 }
{
    match made {
        Ok(()) => (DONE, None),
        Err(CompactErr::Memory) => (NO_MEMORY, None),
        Err(CompactErr::NotMade) => (INPUT_OR_OUTPUT_FAILED, Some(FileFault::Failed)),
        Err(CompactErr::Failed) => (INPUT_OR_OUTPUT_FAILED, Some(FileFault::Failed)),
    }
}

// A journal that is open, made anew.
fn anew<D: Replaces>(alloc: Global, host: &D::Host, kept: Kept<History, D>) -> KeptRun<D>
    requires { IsKeptHistory D.Device kept }
    ensures any_moment { LeavesOnly D.Device.moment D.Device.left_since kept.log.device result.file (HasEdits kept.state.entries) }
    ensures ends { EndsAnew D.Device kept.log.device kept.state.entries result }
{
    let Kept { state, log } = kept;
    let mut log = log;
    let made = compact(alloc, host, &state, &mut log);
    let (status, fault) = outcome_of(made);
    KeptRun {
        status,
        fault,
        file: log.device,
    }
}

/// Makes a journal anew, whose file holds these bytes, of one line that has its whole history. A crash at any moment leaves the
/// old file or the new one, each of which stands for a history with the same edits. Nothing is printed, but `refused` with
/// status 1 where the file has a line that is not granted; that file, and one of another kind, stays as it was. Status 3 comes only
/// where the file or a write failed, or the file is of another kind; 4 where a growth was refused.
pub fn compact_with<D: Replaces, W: Sink, M: Mover>(
    alloc: Global,
    host: &D::Host,
    file: D,
    held: &[u8],
    writer: &mut W,
    mover: &M,
) -> KeptRun<D>
    requires read { D.Device.seen file ≡ held.now }
    requires durable { Only (D.Device.seen file) (D.Device.may_leave file) }
    ensures compacts { Compacts D.Device file held.now result (writer_alone W.Sink writer.old writer.new) }
    ensures failed { FailsKept result.status result.fault (writer_alone W.Sink writer.old writer.new) }
{
    match opened(alloc, file, held, mover) {
        Ok(kept) => anew(alloc, host, kept),
        Err((why, file)) => turned_away(alloc, why, file, writer),
    }
}

/// The journal that is found at a path, made anew as by `compact_with`; the file is given back. None is made where none is found.
pub fn compact_at<D: Replaces, J: OpensFiles<D>, W: Sink, M: Mover>(
    alloc: Global,
    files: &mut J,
    path: &str,
    writer: &mut W,
    mover: &M,
) -> u8
    ensures keeps { CompactsAt D.Device J.OpensFiles path.now result files.new (writer_alone W.Sink writer.old writer.new) }
{
    match files.open_found(path) {
        Ok((file, held)) => {
            let KeptRun {
                status,
                fault,
                file,
            } = compact_with(alloc, files.host(), file, &held, writer, mover);
            files.close(file, fault);
            status
        }
        Err(FileFault::NoMemory) => NO_MEMORY,
        Err(_) => INPUT_OR_OUTPUT_FAILED,
    }
}
