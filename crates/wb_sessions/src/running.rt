//! Sessions on an empty workbook, and the exit status after each.

ghost use Rattle.std.specs.Prelude.{◌≡◌, ℕ, List, true};
ghost use Rattle.std.specs.Io.KnownBytes.{Appends, Consumes, IsAtEnd};
ghost use Rattle.wb_lines.specs.Causes.{ReadsUntil, WritesUntil};
ghost use Rattle.wb_lines.specs.declared.machine.SessionEnd.{SessionEnd};
ghost use Rattle.wb_sessions.specs.Running.{status_of, HasFailed, ServesFromEmpty};

use std::alloc::Global;
use wb_arrays::Mover;
use wb_history::History;
use wb_lines::{SessionEnd, Sink, Source};
use wb_machine::session;
use wb_statuses::{DONE, INPUT_OR_OUTPUT_FAILED, NO_MEMORY};

/// Answers each line of the reader on an empty workbook: the exit status. What was read and written is a session from
/// the empty history, a run of the machine over its lines. Status 0 comes only at the end of input, with every line
/// answered and the writer flushed; 3 only where the latest read, write or flush failed, or all reads that are allowed were
/// made; 4 where a growth was refused.
pub fn run_with<R: Source, W: Sink, M: Mover>(
    alloc: Global,
    reader: &mut R,
    writer: &mut W,
    mover: &M,
) -> u8
    ensures serves { (end : SessionEnd) × (result ≡ status_of end)
        × ReadsUntil end (R.remaining reader.new) (R.failed reader.new) (R.reads reader.old) (R.reads reader.new)
        × WritesUntil end (W.flushed writer.new) (W.failed writer.new)
        × ((read : List ℕ) × Consumes (R.remaining reader.old) (R.remaining reader.new) read
        × ((text : List ℕ) × Appends (W.contents writer.old) (W.contents writer.new) text
        × ServesFromEmpty end read (R.remaining reader.new) text)) }
    ensures done { result ≡ 0 → IsAtEnd (R.remaining reader.new) × (W.flushed writer.new ≡ true) }
    ensures failed { result ≡ 3
        → HasFailed (R.failed reader.new) (R.reads reader.old) (R.reads reader.new) (W.failed writer.new) }
{
    let mut history = History::new(alloc);
    status_of(session(alloc, &mut history, mover, reader, writer))
}

/// The exit status after a session.
pub fn status_of(end: SessionEnd) -> u8
    ensures { result ≡ status_of end }
{
    match end {
        SessionEnd::Done(_) => DONE,
        SessionEnd::ReadFault(_) => INPUT_OR_OUTPUT_FAILED,
        SessionEnd::WriteFault(_) => INPUT_OR_OUTPUT_FAILED,
        SessionEnd::TooManyReads(_) => INPUT_OR_OUTPUT_FAILED,
        SessionEnd::NoMemory(_) => NO_MEMORY,
    }
}
