//! Sessions whose changes are kept in a journal, and the exit status after each.
ghost use Rattle.std.specs.Prelude.{◌≡◌, ◌≢◌, ◌++◌, ℕ, List, true, false, IfOk, IfErr};
ghost use Rattle.wb_keep.specs.Disk.Device.{Only};
ghost use Rattle.wb_kept.specs.Sessions.{KeepsUntil, ReadsUntil, WritesUntil};
ghost use Rattle.wb_history.specs.Past.{Past};
ghost use Rattle.wb_keeping.specs.Granting.Granting.{Answers, Grants};
ghost use Rattle.wb_sessions.specs.Keeping.{IsCause, IsKeptHistory, IsOpened, KeepsSession, TurnsAway, fault_of_end, status_of_end};
ghost use Rattle.wb_sessions.specs.Keeping.{FailsKept, FinishesKept, RunsKept, ServesOn, UsesFile, streams};

use crate::checking::{Verdict, say};
use crate::files::{FileFault, OpensFiles};
use std::alloc::{AllocError, Global};
use wb_arrays::Mover;
use wb_history::History;
use wb_keep::disk::{Device, Replaces};
use wb_keeping::{KeptHistory, answer, make};
use wb_kept::{Changes, Kept, KeptEnd, OpenKeptErr, open, serve_kept};
use wb_lines::{Sink, Source};
use wb_statuses::{DONE, INPUT_OR_OUTPUT_FAILED, NO_MEMORY};

/// How a session with a journal came out.
#[derive(Drop)]
pub struct KeptRun<D> {
    /// The exit status.
    pub status: u8,
    /// Why the journal isn't kept, or no more of it.
    pub fault: Option<FileFault>,
    /// The file.
    pub file: D,
}

// The exit status after a session with a journal.
fn status_of_end(end: KeptEnd) -> u8
    ensures status { result ≡ status_of_end end }
    ensures no_refusal { result ≢ 1 }
{
    match end {
        KeptEnd::Done(_) => DONE,
        KeptEnd::ReadFault(_) => INPUT_OR_OUTPUT_FAILED,
        KeptEnd::TooManyReads(_) => INPUT_OR_OUTPUT_FAILED,
        KeptEnd::WriteFault(_) => INPUT_OR_OUTPUT_FAILED,
        KeptEnd::DiskFault(_) => INPUT_OR_OUTPUT_FAILED,
        KeptEnd::NoMemory(_) => NO_MEMORY,
    }
}

// What is told of the file after a session with a journal.
fn fault_of_end(end: KeptEnd) -> Option<FileFault>
    ensures { result ≡ fault_of_end end }
{
    match end {
        KeptEnd::DiskFault(_) => Some(FileFault::Failed),
        _ => None,
    }
}

/// The history that a journal has.
pub fn opened<D: Device, M: Mover>(
    alloc: Global,
    file: D,
    held: &[u8],
    mover: &M,
) -> Result<Kept<History, D>, (OpenKeptErr, D)>
    requires read { D.seen file ≡ held.now }
    requires durable { Only (D.seen file) (D.may_leave file) }
    ensures ok { IfOk result (λ kept. IsOpened D.Device file held.now kept) }
    ensures err { IfErr result (λ e. IsCause D.Device file held.now e.0 e.1) }
{
    let make = |history: &mut History, change: &[u8]| -> Result<bool, AllocError>
        ensures granted { IfOk result (λ is. is ≡ true → Grants history.old change.now history.new) }
        ensures refused { IfOk result (λ is. is ≡ false → (next : Past) → Grants history.old change.now next → ⊥) }
    { make(alloc, history, change, mover) };
    open::<KeptHistory, History, D, _>(alloc, &make, History::new(alloc), file, held)
}

// A session on a history that is kept.
fn served<D: Device, R: Source, W: Sink, M: Mover>(
    alloc: Global,
    kept: &mut Kept<History, D>,
    reader: &mut R,
    writer: &mut W,
    mover: &M,
) -> KeptEnd
    requires kept { IsKeptHistory D.Device kept.old }
    ensures session { KeepsSession D.Device result kept.old kept.new (R.remaining reader.old) (R.remaining reader.new) (W.contents writer.old)
        (W.contents writer.new) }
    ensures read { ReadsUntil result (R.remaining reader.new) (R.failed reader.new) (R.reads reader.old) (R.reads reader.new) }
    ensures written { WritesUntil result (W.flushed writer.new) (W.failed writer.new) }
    ensures disk { KeepsUntil result (D.faults kept.old.log.device) (D.faults kept.new.log.device) }
{
    let answer = |history: &mut History, line: &[u8], changes: &mut Changes| -> Result<
        Vec<u8>,
        AllocError,
    >
        ensures { IfOk result (λ reply. (made : List (List ℕ)) × Answers history.old line.now reply.items made history.new
            × (changes.new ≡ changes.old ++ made)) }
    { answer(alloc, history, line, changes, mover) };
    serve_kept::<KeptHistory, History, D, _, R, W>(alloc, &answer, kept, reader, writer)
}

/// A session on a history that is kept in a file, and what is told of the file.
pub(crate) fn serve_from<D: Device, R: Source, W: Sink, M: Mover>(
    alloc: Global,
    kept: Kept<History, D>,
    reader: &mut R,
    writer: &mut W,
    mover: &M,
) -> KeptRun<D>
    requires { IsKeptHistory D.Device kept }
    ensures serves { ServesOn D.Device kept result (streams R.Source W.Sink reader.old reader.new writer.old writer.new) }
    ensures done { FinishesKept result.status (streams R.Source W.Sink reader.old reader.new writer.old writer.new) }
    ensures failed { FailsKept result.status result.fault (streams R.Source W.Sink reader.old reader.new writer.old writer.new) }
    ensures no_refusal { result.status ≢ 1 }
{
    let mut kept = kept;
    let end = served(alloc, &mut kept, reader, writer, mover);
    KeptRun {
        status: status_of_end(end),
        fault: fault_of_end(end),
        file: kept.log.device,
    }
}

/// How a command comes out whose journal is not opened.
pub fn turned_away<D, W: Sink>(
    alloc: Global,
    why: OpenKeptErr,
    file: D,
    writer: &mut W,
) -> KeptRun<D>
    ensures told { TurnsAway why result.status result.fault (W.contents writer.old) (W.contents writer.new) (W.flushed writer.new) (W.failed writer.new) }
    ensures file { result.file ≡ file }
{
    let (status, fault) = match why {
        OpenKeptErr::NotOurs => (INPUT_OR_OUTPUT_FAILED, Some(FileFault::NotOurs)),
        OpenKeptErr::NotGranted(place) => (
            say(alloc, Verdict::Refused, writer),
            Some(FileFault::NotGranted(place)),
        ),
        OpenKeptErr::Memory => (NO_MEMORY, None),
        OpenKeptErr::Failed => (INPUT_OR_OUTPUT_FAILED, Some(FileFault::Failed)),
    };
    KeptRun {
        status,
        fault,
        file,
    }
}

/// Answers each line of the reader on the history that a journal has, whose file holds these bytes, and keeps there what a line
/// changed before its reply is written. A crash at any moment leaves the history after the first so many lines. Where the file has a
/// line that is not granted, it prints `refused`, with status 1, and tells which; that file, and one of another kind, stays as it was. Status 3 comes
/// only where a read, a write, a flush or the file failed, all reads that are allowed were made, or the file is of another kind; 4
/// where a growth was refused.
pub fn run_kept_with<D: Device, R: Source, W: Sink, M: Mover>(
    alloc: Global,
    file: D,
    held: &[u8],
    reader: &mut R,
    writer: &mut W,
    mover: &M,
) -> KeptRun<D>
    requires read { D.seen file ≡ held.now }
    requires durable { Only (D.seen file) (D.may_leave file) }
    ensures runs { RunsKept D.Device file held.now result (streams R.Source W.Sink reader.old reader.new writer.old writer.new) }
    ensures done { FinishesKept result.status (streams R.Source W.Sink reader.old reader.new writer.old writer.new) }
    ensures failed { FailsKept result.status result.fault (streams R.Source W.Sink reader.old reader.new writer.old writer.new) }
{
    match opened(alloc, file, held, mover) {
        Ok(kept) => serve_from(alloc, kept, reader, writer, mover),
        Err((why, file)) => turned_away(alloc, why, file, writer),
    }
}

/// A session on the history that the journal at a path has, as `run_kept_with` serves it; the file is given back.
pub fn run_kept_at<D: Replaces, J: OpensFiles<D>, R: Source, W: Sink, M: Mover>(
    alloc: Global,
    files: &mut J,
    path: &str,
    reader: &mut R,
    writer: &mut W,
    mover: &M,
) -> u8
    ensures keeps { UsesFile D.Device J.OpensFiles (RunsKept D.Device) path.now result files.new
        (streams R.Source W.Sink reader.old reader.new writer.old writer.new) }
    ensures done { FinishesKept result (streams R.Source W.Sink reader.old reader.new writer.old writer.new) }
{
    match files.open(path) {
        Ok((file, held)) => {
            let KeptRun {
                status,
                fault,
                file,
            } = run_kept_with(alloc, file, &held, reader, writer, mover);
            files.close(file, fault);
            status
        }
        Err(FileFault::NoMemory) => NO_MEMORY,
        Err(_) => INPUT_OR_OUTPUT_FAILED,
    }
}
