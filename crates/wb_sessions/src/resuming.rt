//! Sessions and desks that go on from the text of a history.
ghost use Rattle.std.specs.Prelude.{◌≡◌, ◌++◌, ◌⊎◌, ℕ, List, [], Some, true, IfOk, IfErr, IfSome, IfNone, OnOk, OnErr, option_map};
ghost use Rattle.std.specs.Io.KnownBytes.{Appends, Consumes, IsAtEnd};
ghost use Rattle.wb_lines.specs.Causes.{RisesBy, StopsReading};
ghost use Rattle.wb_sessions.specs.Checking.{IsAnswered, IsNoRecord, Says};
ghost use Rattle.wb_statuses.specs.Statuses.{IsFault};
ghost use Rattle.wb_sessions.specs.Reasons.{Tells, WhyNoHistory, WhyNoOpening};
ghost use Rattle.wb_sessions.specs.Running.{HasFailed, HasFailedByNow};
ghost use Rattle.wb_sessions.specs.Resuming.{left_in, failed_in, reads_in, IsRecord, IsUpToEnd, HasNoEnd, IsServed, IsResumed, IsOpening};
ghost use Rattle.wb_sessions.specs.declared.checking.Verdict.TheVariants.{Refused};
ghost use Rattle.wb_sessions.specs.declared.reasons.Reason.{Reason};

use crate::checking::{Verdict, say};
use crate::put_back::PutBack;
use crate::reasons::{Reason, look_of, why_no_history};
use crate::running::status_of;
use memchr::memmem;
use std::alloc::Global;
use std::str::from_utf8;
use wb_arrays::Mover;
use wb_history::History;
use wb_lines::{LineFault, READ_LIMIT, Sink, Source, read_all, read_more};
use wb_machine::histories::{HistoryErr, read_history};
use wb_machine::session;
use wb_range::NoMemory;
use wb_statuses::{INPUT_OR_OUTPUT_FAILED, NO_MEMORY};

// The last line of the text of a history, with the line end before it.
const LAST_LINE: &[u8] = b"\nend\n";

// The history of these bytes, if they are the text of one.
fn history_of<M: Mover>(alloc: Global, bytes: &[u8], mover: &M) -> Result<Option<History>, NoMemory>
    ensures some { IfOk result (λ r. IfSome r (λ h. IsRecord bytes.now h)) }
    ensures none { IfOk result (λ r. IfNone r (IsNoRecord bytes.now)) }
{
    let Ok(text) = from_utf8(bytes) else {
        return Ok(None);
    };
    match read_history(alloc, text, mover) {
        Ok(history) => {
            // For the proof: the history is legal.
            let _legal = history.book();
            Ok(Some(history))
        }
        Err(HistoryErr::Bad) => Ok(None),
        Err(HistoryErr::NoMemory) => Err(NoMemory),
    }
}

/// Prints that bytes are refused, which are the text of no history, and tells why: the exit status.
pub(crate) fn refuse<W: Sink, M: Mover>(
    alloc: Global,
    bytes: &[u8],
    writer: &mut W,
    mover: &M,
    why: &mut Option<Reason>,
) -> u8
    ensures says { (text : List ℕ) × Appends (W.contents writer.old) (W.contents writer.new) text
        × (Says Refused result text ⊎ (IsFault result × (text ≡ []))) }
    ensures flushed { IsAnswered result → W.flushed writer.new ≡ true }
    ensures failed { result ≡ 3 → W.failed writer.new ≡ true }
    ensures why { result ≡ 1 → (reason : Reason) × WhyNoHistory bytes.now reason × (why.new ≡ Some reason) }
{
    match why_no_history(alloc, bytes, mover) {
        Ok(reason) => {
            *why = Some(reason);
            say(alloc, Verdict::Refused, writer)
        }
        Err(NoMemory) => NO_MEMORY,
    }
}

/// Reads the reader to its end: the history of that text, or the exit status after `refused` was printed, where it is the
/// text of no history, or after a fault. With 1 it tells why.
pub fn history_from<R: Source, W: Sink, M: Mover>(
    alloc: Global,
    reader: &mut R,
    writer: &mut W,
    mover: &M,
    why: &mut Option<Reason>,
) -> Result<History, u8>
    ensures opens { (read : List ℕ) × Consumes (R.remaining reader.old) (R.remaining reader.new) read
        × ((text : List ℕ) × Appends (W.contents writer.old) (W.contents writer.new) text
        × IsOpening result read text) }
    ensures ended { IfOk result (λ _. IsAtEnd (R.remaining reader.new)) }
    ensures failed { IfErr result (λ status. status ≡ 3
        → HasFailed (R.failed reader.new) (R.reads reader.old) (R.reads reader.new) (W.failed writer.new)) }
    ensures why { IfErr result (λ status. status ≡ 1
        → Tells WhyNoHistory (R.remaining reader.old) (R.remaining reader.new) why.new) }
{
    let bytes = match read_all(alloc, reader) {
        Ok(bytes) => bytes,
        Err(LineFault::NoMemory) => return Err(NO_MEMORY),
        Err(LineFault::ReadFault) => return Err(INPUT_OR_OUTPUT_FAILED),
        Err(LineFault::TooManyReads) => return Err(INPUT_OR_OUTPUT_FAILED),
    };
    match history_of(alloc, &bytes, mover) {
        Ok(Some(history)) => Ok(history),
        Ok(None) => Err(refuse(alloc, &bytes, writer, mover, why)),
        Err(NoMemory) => Err(NO_MEMORY),
    }
}

// Whether a line `end` came among the latest bytes, from a place on.
fn has_end(bytes: &[u8], from: usize) -> bool
    ensures { result ≡ true → HasNoEnd bytes.now → ⊥ }
{
    match bytes.get(from.saturating_sub(LAST_LINE.len())..) {
        Some(latest) => memmem::find(latest, LAST_LINE).is_some()
            && memmem::find(bytes, LAST_LINE).is_some(),
        None => false,
    }
}

/// Reads to the first line `end`, or to the end of input, and perhaps further.
pub(crate) fn read_opening<R: Source>(alloc: Global, reader: &mut R) -> Result<Vec<u8>, LineFault>
    ensures ok { IfOk result (λ bytes. Consumes (R.remaining reader.old) (R.remaining reader.new) bytes.items
        × (HasNoEnd bytes.items → IsAtEnd (R.remaining reader.new))) }
    ensures err { OnErr result ((got : List ℕ) × Consumes (R.remaining reader.old) (R.remaining reader.new) got) }
    ensures cause { IfErr result (λ fault. StopsReading fault (R.failed reader.new) (R.reads reader.old) (R.reads reader.new)) }
    ensures counted { OnOk result ((made : ℕ) × RisesBy made (R.reads reader.old) (R.reads reader.new)) }
{
    let mut bytes = Vec::new(alloc);
    for _ in 0..READ_LIMIT {
        let from = bytes.len();
        match read_more(reader, &mut bytes) {
            Ok(true) => {
                if has_end(&bytes, from) {
                    return Ok(bytes);
                }
            }
            Ok(false) => return Ok(bytes),
            Err(fault) => return Err(fault),
        }
    }
    Err(LineFault::TooManyReads)
}

/// What stands up to the first line `end`, and what comes behind it.
pub(crate) fn parts(bytes: &[u8]) -> Option<(&[u8], &[u8])>
    ensures some { IfSome result (λ r. (bytes.now ≡ r.0.now ++ r.1.now) × IsUpToEnd r.0.now) }
    ensures none { IfNone result (HasNoEnd bytes.now) }
{
    match memmem::find(bytes, LAST_LINE) {
        Some(at) => Some(bytes.split_at(at + LAST_LINE.len())),
        None => None,
    }
}

// A session from a history, over bytes that were read already and those that come.
fn go_on<R: Source, W: Sink, M: Mover>(
    alloc: Global,
    history: History,
    ahead: &[u8],
    reader: &mut PutBack<R>,
    writer: &mut W,
    mover: &M,
) -> u8
    ensures serves { ((asked : List ℕ) × Consumes (option_map (λ t. ahead.now ++ t) (left_in R.remaining reader.old)) (left_in R.remaining reader.new) asked
        × ((text : List ℕ) × Appends (W.contents writer.old) (W.contents writer.new) text
        × IsServed history result asked (left_in R.remaining reader.new) text))
        ⊎ ((left_in R.remaining reader.new ≡ left_in R.remaining reader.old) × (W.contents writer.new ≡ W.contents writer.old) × IsFault result) }
    ensures done { result ≡ 0 → IsAtEnd (left_in R.remaining reader.new) × (W.flushed writer.new ≡ true) }
    ensures failed { result ≡ 3
        → HasFailed (failed_in reader.new) (reads_in reader.old) (reads_in reader.new) (W.failed writer.new) }
{
    if reader.put_back(ahead).is_err() {
        return NO_MEMORY;
    }
    let mut history = history;
    status_of(session(alloc, &mut history, mover, reader, writer))
}

/// Reads the text of a history up to its line `end`, and then answers each line behind it on that history: the exit status.
/// What was read and written is a session from the history, a run of the machine over its lines. Where there is no such
/// text it prints `refused`, with status 1; 3 only where the latest read, write or flush failed, or as many reads as are allowed
/// were made in the call, or more, and 4 where a growth was refused. With 1 it tells why.
pub fn resume_with<R: Source, W: Sink, M: Mover>(
    alloc: Global,
    reader: &mut PutBack<R>,
    writer: &mut W,
    mover: &M,
    why: &mut Option<Reason>,
) -> u8
    ensures resumes { (read : List ℕ) × Consumes (left_in R.remaining reader.old) (left_in R.remaining reader.new) read
        × ((text : List ℕ) × Appends (W.contents writer.old) (W.contents writer.new) text
        × IsResumed result read (left_in R.remaining reader.new) text) }
    ensures done { result ≡ 0 → IsAtEnd (left_in R.remaining reader.new) × (W.flushed writer.new ≡ true) }
    ensures failed { result ≡ 3
        → HasFailedByNow (failed_in reader.new) (reads_in reader.old) (reads_in reader.new) (W.failed writer.new) }
    ensures why { result ≡ 1 → Tells WhyNoOpening (left_in R.remaining reader.old) (left_in R.remaining reader.new) why.new }
{
    let bytes = match read_opening(alloc, reader) {
        Ok(bytes) => bytes,
        Err(LineFault::NoMemory) => return NO_MEMORY,
        Err(LineFault::ReadFault) => return INPUT_OR_OUTPUT_FAILED,
        Err(LineFault::TooManyReads) => return INPUT_OR_OUTPUT_FAILED,
    };
    match parts(&bytes) {
        Some((front, behind)) => match history_of(alloc, front, mover) {
            Ok(Some(history)) => go_on(alloc, history, behind, reader, writer, mover),
            Ok(None) => refuse(alloc, front, writer, mover, why),
            Err(NoMemory) => NO_MEMORY,
        },
        None => {
            *why = Some(look_of(&bytes));
            say(alloc, Verdict::Refused, writer)
        }
    }
}
