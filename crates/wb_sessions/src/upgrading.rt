//! The text of a workbook, made the text of a history: that of its load.
ghost use Rattle.std.specs.Prelude.{◌≡◌, ◌⊎◌, ◌++◌, ℕ, List, [], Some, true, IfOk, IfErr, OnOk, OnErr, IfSome, IfNone};
ghost use Rattle.std.specs.Io.KnownBytes.{Appends, Consumes, IsAtEnd};
ghost use Rattle.wb_reading.specs.Reading.{IsNoBook};
ghost use Rattle.wb_sessions.specs.Checking.{IsAnswered, Says};
ghost use Rattle.wb_statuses.specs.Statuses.{IsFault, IsPrinted};
ghost use Rattle.wb_sessions.specs.Reasons.{Tells, WhyNoBook};
ghost use Rattle.wb_sessions.specs.Running.{HasFailed};
ghost use Rattle.wb_sessions.specs.Upgrading.{AppendsFront, HasNoBook, Upgrades, UpgradesBook, text_by_lines};
ghost use Rattle.wb_sessions.specs.declared.checking.Verdict.TheVariants.{Refused};
ghost use Rattle.wb_sessions.specs.declared.reasons.Reason.{Reason};
ghost use Rattle.wb_text.specs.Texts.Books.{IsBookText};

use crate::checking::{Verdict, say};
use crate::reasons::{Reason, why_no_book};
use std::alloc::Global;
use std::str::from_utf8;
use wb_arrays::Mover;
use wb_lines::{LineFault, NothingHeld, Sink, Source, WriteFault, read_all, send};
use wb_machine::encoding::{load_line, objects_in};
use wb_range::NoMemory;
use wb_reading::{BookErr, read_book};
use wb_statuses::{DONE, INPUT_OR_OUTPUT_FAILED, NO_MEMORY};

// That a text is the text of a workbook. The workbook is let go.
fn check_book(alloc: Global, text: &str) -> Result<(), BookErr>
    ensures book { OnOk result (IsBookText text.now) }
    ensures bad { IfErr result (λ why. why ≡ BookErr.Bad → IsNoBook text.now) }
{
    let book = read_book(alloc, text)?;
    // For the proof: the workbook is well formed.
    let _well_formed = book.writes();
    Ok(())
}

// The bytes as a text, where they are the text of a workbook.
fn text_of_book(alloc: Global, bytes: &[u8]) -> Result<Option<&str>, NoMemory>
    ensures some { IfOk result (λ r. IfSome r (λ text. (text.now ≡ bytes.now) × IsBookText bytes.now)) }
    ensures none { IfOk result (λ r. IfNone r (HasNoBook bytes.now)) }
{
    let Ok(text) = from_utf8(bytes) else {
        return Ok(None);
    };
    match check_book(alloc, text) {
        Ok(()) => Ok(Some(text)),
        Err(BookErr::Bad) => Ok(None),
        Err(BookErr::NoMemory) => Err(NoMemory),
    }
}

// Sends two texts, one after the other. After a fault a front of them went out.
fn send_two<W: Sink>(first: &[u8], second: &[u8], writer: &mut W) -> Result<(), WriteFault>
    ensures sent { OnOk result (Appends (W.contents writer.old) (W.contents writer.new) (first.now ++ second.now)) }
    ensures part { OnErr result (AppendsFront (W.contents writer.old) (W.contents writer.new) (first.now ++ second.now)) }
    ensures failed { OnErr result (W.failed writer.new ≡ true) }
{
    send(writer, &NothingHeld, first)?;
    send(writer, &NothingHeld, second)
}

// Sends the text of a history of one edit in pieces, by the lines of its objects and the line of the edit.
fn send_history<W: Sink>(objects: &str, line: &[u8], writer: &mut W) -> Result<(), WriteFault>
    ensures sent { OnOk result (Appends (W.contents writer.old) (W.contents writer.new) (text_by_lines objects.now line.now)) }
    ensures part { OnErr result (AppendsFront (W.contents writer.old) (W.contents writer.new) (text_by_lines objects.now line.now)) }
    ensures failed { OnErr result (W.failed writer.new ≡ true) }
{
    send_two(b"chapel-workbook 2\n", objects.as_bytes(), writer)?;
    send_two(b"history 1\n", line, writer)?;
    send(writer, &NothingHeld, b"end\n")
}

// Prints the text of a history of one edit: the exit status.
fn tell_history<W: Sink>(objects: &str, line: &[u8], writer: &mut W) -> u8
    ensures told { (text : List ℕ) × Appends (W.contents writer.old) (W.contents writer.new) text
        × IsPrinted (text_by_lines objects.now line.now) result text }
    ensures flushed { result ≡ 0 → W.flushed writer.new ≡ true }
    ensures failed { result ≡ 3 → W.failed writer.new ≡ true }
{
    if send_history(objects, line, writer).is_err() {
        return INPUT_OR_OUTPUT_FAILED;
    }
    if writer.flush().is_err() {
        return INPUT_OR_OUTPUT_FAILED;
    }
    DONE
}

// Prints the text of the history whose one edit is the load of a workbook's text: the exit status. The history is not made: its
// workbook has this text. What takes memory is made before anything is printed: the line of the load.
fn upgrade_text<W: Sink>(alloc: Global, text: &str, writer: &mut W) -> u8
    requires { IsBookText text.now }
    ensures upgrades { (printed : List ℕ) × Appends (W.contents writer.old) (W.contents writer.new) printed
        × UpgradesBook text.now result printed }
    ensures flushed { result ≡ 0 → W.flushed writer.new ≡ true }
    ensures failed { result ≡ 3 → W.failed writer.new ≡ true }
{
    let Some(objects) = objects_in(text) else {
        unreachable!();
    };
    match load_line(alloc, text, true) {
        Ok(line) => tell_history(objects, &line, writer),
        Err(NoMemory) => NO_MEMORY,
    }
}

// Prints that bytes are refused, which are the text of no workbook, and tells why: the exit status.
fn refuse<W: Sink, M: Mover>(
    alloc: Global,
    bytes: &[u8],
    writer: &mut W,
    mover: &M,
    why: &mut Option<Reason>,
) -> u8
    ensures says { (text : List ℕ) × Appends (W.contents writer.old) (W.contents writer.new) text
        × (Says Refused result text ⊎ (IsFault result × (text ≡ []))) }
    ensures flushed { IsAnswered result → W.flushed writer.new ≡ true }
    ensures failed { result ≡ 3 → W.failed writer.new ≡ true }
    ensures why { result ≡ 1 → (reason : Reason) × WhyNoBook bytes.now reason × (why.new ≡ Some reason) }
{
    match why_no_book(alloc, bytes, mover) {
        Ok(reason) => {
            *why = Some(reason);
            say(alloc, Verdict::Refused, writer)
        }
        Err(NoMemory) => NO_MEMORY,
    }
}

/// Reads the reader to its end, the text of a workbook, and prints the text of a history of the same workbook: one edit, the
/// load of what was read, in force. It can be undone and redone as others are, and the history gone on from. Where no
/// workbook has that text, it prints `refused`, with status 1; 3 only where the latest read, write or flush failed, or all reads
/// that are allowed were made, and 4 where a growth was refused. With 1 it tells why.
pub fn upgrade_with<R: Source, W: Sink, M: Mover>(
    alloc: Global,
    reader: &mut R,
    writer: &mut W,
    mover: &M,
    why: &mut Option<Reason>,
) -> u8
    ensures upgrades { (read : List ℕ) × Consumes (R.remaining reader.old) (R.remaining reader.new) read
        × ((text : List ℕ) × Appends (W.contents writer.old) (W.contents writer.new) text
        × Upgrades read result text) }
    ensures done { IsAnswered result → IsAtEnd (R.remaining reader.new) × (W.flushed writer.new ≡ true) }
    ensures failed { result ≡ 3
        → HasFailed (R.failed reader.new) (R.reads reader.old) (R.reads reader.new) (W.failed writer.new) }
    ensures why { result ≡ 1 → Tells WhyNoBook (R.remaining reader.old) (R.remaining reader.new) why.new }
{
    let bytes = match read_all(alloc, reader) {
        Ok(bytes) => bytes,
        Err(LineFault::NoMemory) => return NO_MEMORY,
        Err(LineFault::ReadFault) => return INPUT_OR_OUTPUT_FAILED,
        Err(LineFault::TooManyReads) => return INPUT_OR_OUTPUT_FAILED,
    };
    match text_of_book(alloc, &bytes) {
        Ok(Some(text)) => upgrade_text(alloc, text, writer),
        Ok(None) => refuse(alloc, &bytes, writer, mover, why),
        Err(NoMemory) => NO_MEMORY,
    }
}
