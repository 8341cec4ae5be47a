//! Whether an input is the text of a workbook or of a history, or a journal.

ghost use Rattle.std.specs.Prelude.{◌≡◌, ℕ, List, true, IfOk, IfErr, OnErr, string_bytes};
ghost use Rattle.std.specs.Io.KnownBytes.{Appends, Consumes, IsAtEnd};
ghost use Rattle.wb_reading.specs.Reading.{IsNoBook};
ghost use Rattle.wb_sessions.specs.Checking.{IsJournalOf, IsNoJournal, IsTextVerdict, IsVerdict, verdict_text, status_of_verdict, Says, Judges, IsAnswered};
ghost use Rattle.wb_sessions.specs.Reasons.{IsToldOf, StopsJournal, Tells, WhyNothing};
ghost use Rattle.wb_sessions.specs.Running.{HasFailed};

use crate::keeping::opened;
use crate::reasons::{Reason, why_no_text};
use std::alloc::{AllocError, Global};
use std::str::from_utf8;
use wb_arrays::Mover;
use wb_keep::disk::MemoryFile;
use wb_kept::OpenKeptErr;
use wb_lines::{LineFault, NothingHeld, Sink, Source, read_all, send};
use wb_machine::histories::{HistoryErr, read_history};
use wb_range::NoMemory;
use wb_reading::{BookErr, read_book};
use wb_statuses::{DONE, INPUT_OR_OUTPUT_FAILED, NO_MEMORY, REFUSED};

// How long the header of a journal is.
const HEADER_LENGTH: usize = 18;

/// What `check` finds.
#[derive(Clone, Copy, Debug, PartialEq, Eq)]
pub enum Verdict {
    /// The text of a workbook with so many objects.
    Workbook(usize),
    /// The text of a history: how many objects its workbook has, and how many edits there are.
    History(usize, u64),
    /// A journal: how many objects the workbook of its history has, and how many edits there are.
    Journal(usize, u64),
    /// The text of no workbook and of no history, and no journal.
    Refused,
}

// Whether a text that no workbook has is that of a history.
fn verdict_on_history<M: Mover>(alloc: Global, text: &str, mover: &M) -> Result<Verdict, NoMemory>
    ensures { IfOk result (λ v. IsNoBook text.now → IsTextVerdict text.now v) }
{
    match read_history(alloc, text, mover) {
        Ok(history) => {
            let book = history.book();
            Ok(Verdict::History(book.objects(), history.len()))
        }
        Err(HistoryErr::Bad) => Ok(Verdict::Refused),
        Err(HistoryErr::NoMemory) => Err(NoMemory),
    }
}

// Whether a text is that of a workbook or of a history.
fn verdict_on_text<M: Mover>(alloc: Global, text: &str, mover: &M) -> Result<Verdict, NoMemory>
    ensures { IfOk result (λ v. IsTextVerdict text.now v) }
{
    match read_book(alloc, text) {
        Ok(book) => {
            // For the proof: the workbook is well formed.
            let _well_formed = book.writes();
            Ok(Verdict::Workbook(book.objects()))
        }
        Err(BookErr::Bad) => verdict_on_history(alloc, text, mover),
        Err(BookErr::NoMemory) => Err(NoMemory),
    }
}

// What the bytes are as a text.
fn verdict_as_text<M: Mover>(alloc: Global, bytes: &[u8], mover: &M) -> Result<Verdict, NoMemory>
    ensures { IfOk result (λ v. IsTextVerdict bytes.now v) }
{
    match from_utf8(bytes) {
        Ok(text) => verdict_on_text(alloc, text, mover),
        Err(_) => Ok(Verdict::Refused),
    }
}

// How many objects and edits a journal has, if the bytes are one; or the first change, from 0, that is not granted, if they have its
// header.
fn counts_of_journal<M: Mover>(
    alloc: Global,
    bytes: &[u8],
    mover: &M,
) -> Result<Result<(usize, u64), Option<usize>>, NoMemory>
    ensures ok { IfOk result (λ r. IfOk r (λ counts. IsJournalOf bytes.now counts.0 counts.1)) }
    ensures none { IfOk result (λ r. OnErr r (IsNoJournal bytes.now)) }
    ensures stop { IfOk result (λ r. IfErr r (λ stop. StopsJournal bytes.now stop)) }
{
    if bytes.len() < HEADER_LENGTH {
        return Ok(Err(None));
    }
    let Ok(held) = bytes.to_vec(alloc) else {
        return Err(NoMemory);
    };
    match opened(
        alloc,
        MemoryFile::new(alloc, held, usize::MAX, 0),
        bytes,
        mover,
    ) {
        Ok(kept) => {
            let book = kept.state.book();
            Ok(Ok((book.objects(), kept.state.len())))
        }
        Err((OpenKeptErr::NotOurs, _)) => Ok(Err(None)),
        Err((OpenKeptErr::NotGranted(place), _)) => Ok(Err(Some(place))),
        // A file in memory fails only for want of it.
        Err(_) => Err(NoMemory),
    }
}

// Why bytes are refused that are no journal, by the first change that is not granted, if they have its header.
fn why_nothing<M: Mover>(
    alloc: Global,
    bytes: &[u8],
    stop: Option<usize>,
    mover: &M,
) -> Result<Reason, NoMemory>
    requires { StopsJournal bytes.now stop }
    ensures { IfOk result (λ why. WhyNothing bytes.now why) }
{
    match stop {
        Some(place) => Ok(Reason::NotGranted(place)),
        None => why_no_text(alloc, bytes, mover),
    }
}

// What is told beside a verdict on bytes that are no journal.
fn told_of<M: Mover>(
    alloc: Global,
    bytes: &[u8],
    verdict: Verdict,
    stop: Option<usize>,
    mover: &M,
) -> Result<Option<Reason>, NoMemory>
    requires { StopsJournal bytes.now stop }
    ensures { IfOk result (λ told. IsToldOf bytes.now verdict told) }
{
    match verdict {
        Verdict::Workbook(_) | Verdict::History(_, _) | Verdict::Journal(_, _) => Ok(None),
        Verdict::Refused => match why_nothing(alloc, bytes, stop, mover) {
            Ok(why) => Ok(Some(why)),
            Err(NoMemory) => Err(NoMemory),
        },
    }
}

/// Whether bytes are the text of a workbook or of a history, or a journal, and how many objects and edits there are; and why they are
/// refused, if they are.
pub fn verdict_on<M: Mover>(
    alloc: Global,
    bytes: &[u8],
    mover: &M,
) -> Result<(Verdict, Option<Reason>), NoMemory>
    ensures verdict { IfOk result (λ found. IsVerdict bytes.now found.0) }
    ensures told { IfOk result (λ found. IsToldOf bytes.now found.0 found.1) }
{
    let stop = match counts_of_journal(alloc, bytes, mover) {
        Ok(Ok((objects, edits))) => return Ok((Verdict::Journal(objects, edits), None)),
        Ok(Err(stop)) => stop,
        Err(NoMemory) => return Err(NoMemory),
    };
    let verdict = match verdict_as_text(alloc, bytes, mover) {
        Ok(verdict) => verdict,
        Err(NoMemory) => return Err(NoMemory),
    };
    match told_of(alloc, bytes, verdict, stop, mover) {
        Ok(told) => Ok((verdict, told)),
        Err(NoMemory) => Err(NoMemory),
    }
}

fn verdict_text(alloc: Global, verdict: Verdict) -> Result<String, AllocError>
    ensures { IfOk result (λ t. string_bytes t ≡ verdict_text verdict) }
{
    match verdict {
        Verdict::Workbook(count) => format!(in alloc; "ok {count}\n"),
        Verdict::History(count, edits) => format!(in alloc; "ok {count} {edits}\n"),
        Verdict::Journal(count, edits) => format!(in alloc; "ok {count} {edits}\n"),
        Verdict::Refused => String::from_str(alloc, "refused\n"),
    }
}

/// The exit status after a verdict.
pub fn status_of_verdict(verdict: Verdict) -> u8
    ensures { result ≡ status_of_verdict verdict }
{
    match verdict {
        Verdict::Workbook(_) | Verdict::History(_, _) | Verdict::Journal(_, _) => DONE,
        Verdict::Refused => REFUSED,
    }
}

/// Prints a verdict: the exit status.
pub(crate) fn say<W: Sink>(alloc: Global, verdict: Verdict, writer: &mut W) -> u8
    ensures says { (text : List ℕ) × Appends (W.contents writer.old) (W.contents writer.new) text × Says verdict result text }
    ensures flushed { IsAnswered result → W.flushed writer.new ≡ true }
    ensures failed { result ≡ 3 → W.failed writer.new ≡ true }
{
    let text = match verdict_text(alloc, verdict) {
        Ok(text) => text,
        Err(_) => return NO_MEMORY,
    };
    if send(writer, &NothingHeld, text.as_bytes()).is_err() {
        return INPUT_OR_OUTPUT_FAILED;
    }
    if writer.flush().is_err() {
        return INPUT_OR_OUTPUT_FAILED;
    }
    status_of_verdict(verdict)
}

/// Reads the reader to its end and prints whether that is the text of a workbook or of a history, or a journal: `ok` and the number
/// of its objects, for a history and a journal then that of its edits, with exit status 0; or `refused` with status 1; 3 only where the latest
/// read, write or flush failed, or all reads that are allowed were made, and 4 where a growth was refused. With 1 it tells why.
pub fn check_with<R: Source, W: Sink, M: Mover>(
    alloc: Global,
    reader: &mut R,
    writer: &mut W,
    mover: &M,
    why: &mut Option<Reason>,
) -> u8
    ensures judged { (read : List ℕ) × Consumes (R.remaining reader.old) (R.remaining reader.new) read
        × ((text : List ℕ) × Appends (W.contents writer.old) (W.contents writer.new) text
        × Judges read result text) }
    ensures done { IsAnswered result → IsAtEnd (R.remaining reader.new) × (W.flushed writer.new ≡ true) }
    ensures failed { result ≡ 3
        → HasFailed (R.failed reader.new) (R.reads reader.old) (R.reads reader.new) (W.failed writer.new) }
    ensures why { result ≡ 1 → Tells WhyNothing (R.remaining reader.old) (R.remaining reader.new) why.new }
{
    let bytes = match read_all(alloc, reader) {
        Ok(bytes) => bytes,
        Err(LineFault::NoMemory) => return NO_MEMORY,
        Err(LineFault::ReadFault) => return INPUT_OR_OUTPUT_FAILED,
        Err(LineFault::TooManyReads) => return INPUT_OR_OUTPUT_FAILED,
    };
    match verdict_on(alloc, &bytes, mover) {
        Ok((verdict, told)) => {
            *why = told;
            say(alloc, verdict, writer)
        }
        Err(NoMemory) => NO_MEMORY,
    }
}
