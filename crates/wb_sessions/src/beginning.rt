//! Sessions whose journal begins with the history whose text comes first.
ghost use Rattle.std.specs.Prelude.{◌≡◌, ◌≢◌, ◌⊎◌, ℕ, List, [], true, IfOk, IfErr, IfSome, IfNone};
ghost use Rattle.std.specs.Io.KnownBytes.{Appends, Consumes, IsAtEnd};
ghost use Rattle.wb_keep.specs.Disk.Device.{Only};
ghost use Rattle.wb_keeping.specs.Opening.{IsOpening};
ghost use Rattle.wb_lines.specs.Causes.{RisesBy};
ghost use Rattle.wb_sessions.specs.Beginning.{BeginsAt, RunsBegun, TellsOf};
ghost use Rattle.wb_sessions.specs.Checking.{IsAnswered, IsNoRecord, Says};
ghost use Rattle.wb_statuses.specs.Statuses.{IsFault};
ghost use Rattle.wb_sessions.specs.Keeping.{FailsKept, FinishesKept, UsesFile, streams};
ghost use Rattle.wb_sessions.specs.Reasons.{Tells, WhyNoOpening};
ghost use Rattle.wb_sessions.specs.Resuming.{left_in, failed_in, reads_in, IsRecord, IsUpToEnd, NoOpening};
ghost use Rattle.wb_sessions.specs.Running.{HasFailedByNow};
ghost use Rattle.wb_sessions.specs.declared.checking.Verdict.TheVariants.{Refused};

use crate::checking::{Verdict, say};
use crate::files::{FileFault, OpensFiles};
use crate::keeping::{KeptRun, serve_from};
use crate::put_back::PutBack;
use crate::reasons::{Reason, look_of};
use crate::resuming::{parts, read_opening, refuse};
use std::alloc::Global;
use std::str::from_utf8;
use wb_arrays::Mover;
use wb_keep::disk::{Device, Replaces};
use wb_keeping::{BeginErr, Opening, begin_kept, opening_of};
use wb_lines::{LineFault, Sink, Source};
use wb_range::NoMemory;
use wb_statuses::{INPUT_OR_OUTPUT_FAILED, NO_MEMORY};

// The history of these bytes, with the line that it begins with, if they are the text of one.
fn opening_in<M: Mover>(alloc: Global, bytes: &[u8], mover: &M) -> Result<Option<Opening>, NoMemory>
    ensures some { IfOk result (λ r. IfSome r (λ o. IsOpening o × IsRecord bytes.now o.history)) }
    ensures none { IfOk result (λ r. IfNone r (IsNoRecord bytes.now)) }
{
    let Ok(text) = from_utf8(bytes) else {
        return Ok(None);
    };
    match opening_of(alloc, text, mover) {
        Ok(found) => Ok(found),
        Err(_) => Err(NoMemory),
    }
}

/// Reads the text of a history up to its line `end`, and leaves what comes behind it: the history, with the line that it begins
/// with. Or the exit status, after `refused` was printed, where there is no such text, or after a fault. With 1 it tells why.
pub fn opening_from<R: Source, W: Sink, M: Mover>(
    alloc: Global,
    reader: &mut PutBack<R>,
    writer: &mut W,
    mover: &M,
    why: &mut Option<Reason>,
) -> Result<Opening, u8>
    // The history, by its text up to the end; nothing is printed.
    ensures opening { IfOk result (λ o. IsOpening o) }
    ensures text { IfOk result (λ o. (front : List ℕ) × Consumes (left_in R.remaining reader.old) (left_in R.remaining reader.new) front
        × IsUpToEnd front × IsRecord front o.history) }
    ensures counted { IfOk result (λ _. (made : ℕ) × RisesBy made (reads_in reader.old) (reads_in reader.new)) }
    ensures silent { IfOk result (λ _. writer.new ≡ writer.old) }

    // The exit status, with what was read and printed, and what failed.
    ensures refused { IfErr result (λ status. (read : List ℕ) × Consumes (left_in R.remaining reader.old) (left_in R.remaining reader.new) read
        × ((text : List ℕ) × Appends (W.contents writer.old) (W.contents writer.new) text
        × ((NoOpening read × Says Refused status text) ⊎ (IsFault status × (text ≡ []))))) }
    ensures flushed { IfErr result (λ status. IsAnswered status → W.flushed writer.new ≡ true) }
    ensures failed { IfErr result (λ status. status ≡ 3
        → HasFailedByNow (failed_in reader.new) (reads_in reader.old) (reads_in reader.new) (W.failed writer.new)) }
    ensures why { IfErr result (λ status. status ≡ 1
        → Tells WhyNoOpening (left_in R.remaining reader.old) (left_in R.remaining reader.new) why.new) }
{
    let bytes = match read_opening(alloc, reader) {
        Ok(bytes) => bytes,
        Err(LineFault::NoMemory) => return Err(NO_MEMORY),
        Err(LineFault::ReadFault) => return Err(INPUT_OR_OUTPUT_FAILED),
        Err(LineFault::TooManyReads) => return Err(INPUT_OR_OUTPUT_FAILED),
    };
    let Some((front, behind)) = parts(&bytes) else {
        *why = Some(look_of(&bytes));
        return Err(say(alloc, Verdict::Refused, writer));
    };
    match opening_in(alloc, front, mover) {
        Ok(Some(opening)) => match reader.put_back(behind) {
            Ok(()) => Ok(opening),
            Err(_) => Err(NO_MEMORY),
        },
        Ok(None) => Err(refuse(alloc, front, writer, mover, why)),
        Err(NoMemory) => Err(NO_MEMORY),
    }
}

// How it comes out where a file is not begun with a history.
fn not_begun<D>(why: BeginErr, file: D) -> KeptRun<D>
    ensures told { TellsOf why result.status result.fault }
    ensures file { result.file ≡ file }
    ensures no_refusal { result.status ≢ 1 }
{
    let (status, fault) = match why {
        BeginErr::NotOurs => (INPUT_OR_OUTPUT_FAILED, Some(FileFault::NotOurs)),
        BeginErr::HasLines => (INPUT_OR_OUTPUT_FAILED, Some(FileFault::HasLines)),
        BeginErr::Memory => (NO_MEMORY, None),
        BeginErr::Failed => (INPUT_OR_OUTPUT_FAILED, Some(FileFault::Failed)),
    };
    KeptRun {
        status,
        fault,
        file,
    }
}

/// Begins a file that holds these bytes with a history, and then answers each line of the reader on it, as `run_kept_with` does.
/// A file that has a line, and one of another kind, stays as it was, and nothing is printed. A crash leaves the lines from before or the
/// history, and after the first reply the history after the first so many lines. Nothing is refused: status 1 doesn't come.
pub fn begin_kept_with<D: Device, R: Source, W: Sink, M: Mover>(
    alloc: Global,
    opening: Opening,
    file: D,
    held: &[u8],
    reader: &mut R,
    writer: &mut W,
    mover: &M,
) -> KeptRun<D>
    requires opening { IsOpening opening }
    requires read { D.seen file ≡ held.now }
    requires durable { Only (D.seen file) (D.may_leave file) }
    ensures runs { RunsBegun D.Device opening.history file held.now result (streams R.Source W.Sink reader.old reader.new writer.old writer.new) }
    ensures done { FinishesKept result.status (streams R.Source W.Sink reader.old reader.new writer.old writer.new) }
    ensures failed { FailsKept result.status result.fault (streams R.Source W.Sink reader.old reader.new writer.old writer.new) }
    ensures no_refusal { result.status ≢ 1 }
{
    match begin_kept(alloc, opening, file, held) {
        Ok(kept) => serve_from(alloc, kept, reader, writer, mover),
        Err((why, file)) => not_begun(why, file),
    }
}

// A session on a history with which the file at a path is begun.
fn begin_kept_at<D: Replaces, J: OpensFiles<D>, R: Source, W: Sink, M: Mover>(
    alloc: Global,
    files: &mut J,
    path: &str,
    opening: Opening,
    reader: &mut R,
    writer: &mut W,
    mover: &M,
) -> u8
    requires opening { IsOpening opening }
    ensures keeps { UsesFile D.Device J.OpensFiles (RunsBegun D.Device opening.history) path.now result files.new
        (streams R.Source W.Sink reader.old reader.new writer.old writer.new) }
    ensures done { FinishesKept result (streams R.Source W.Sink reader.old reader.new writer.old writer.new) }
    ensures no_refusal { result ≢ 1 }
{
    match files.open(path) {
        Ok((file, held)) => {
            let KeptRun {
                status,
                fault,
                file,
            } = begin_kept_with(alloc, opening, file, &held, reader, writer, mover);
            files.close(file, fault);
            status
        }
        Err(FileFault::NoMemory) => NO_MEMORY,
        Err(_) => INPUT_OR_OUTPUT_FAILED,
    }
}

/// A session on the history whose text comes first, with which the file at a path is begun, as by `opening_from` and `begin_kept_with`; the file
/// is given back.
pub fn resume_kept_at<D: Replaces, J: OpensFiles<D>, R: Source, W: Sink, M: Mover>(
    alloc: Global,
    files: &mut J,
    path: &str,
    reader: &mut PutBack<R>,
    writer: &mut W,
    mover: &M,
    why: &mut Option<Reason>,
) -> u8
    ensures keeps { BeginsAt D.Device J.OpensFiles path.now result files.old files.new (record {
      unread = left_in R.remaining reader.old;
      left = left_in R.remaining reader.new;
      reads_before = reads_in reader.old;
      reads_after = reads_in reader.new;
      read_failed = failed_in reader.new;
      sent = W.contents writer.old;
      told = W.contents writer.new;
      flushed = W.flushed writer.new;
      write_failed = W.failed writer.new;
    }) }
    ensures done { result ≡ 0 → IsAtEnd (left_in R.remaining reader.new) × (W.flushed writer.new ≡ true) }
    ensures why { result ≡ 1 → Tells WhyNoOpening (left_in R.remaining reader.old) (left_in R.remaining reader.new) why.new }
{
    match opening_from(alloc, reader, writer, mover, why) {
        Ok(opening) => begin_kept_at::<D, J, PutBack<R>, W, M>(
            alloc, files, path, opening, reader, writer, mover,
        ),
        Err(status) => status,
    }
}
