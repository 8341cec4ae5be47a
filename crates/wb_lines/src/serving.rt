//! The loop of every session: it reads a line, has a turn of lines served, and ends at the end of input or at a fault.
ghost use Rattle.std.specs.Prelude.{◌≡◌, ◌⊎◌, ℕ, List, ◌∷◌, true, false, IfOk, IfErr, OnOk, OnErr};
ghost use Rattle.std.specs.Io.KnownBytes.{Appends, Consumes, Keeps};
ghost use Rattle.wb_lines.specs.Causes.{ReadsUntil, WritesUntil};
ghost use Rattle.wb_lines.specs.Lines.{BeginsWithLine};
ghost use Rattle.wb_lines.specs.Reading.{IsText};
ghost use Rattle.wb_lines.specs.Serving.{AreTurns, ServesBy};
ghost use Rattle.wb_lines.specs.Turns.{TakesLines, IsUnspent};
ghost use Rattle.wb_lines.specs.declared.machine.Stop.{Stop};

use crate::buffer::{Line, LineBuffer, LineFault, next_line};
use crate::machine::{SessionEnd, Stop};
use crate::resting::{Hears, Holds, Sends};
use crate::sending::WriteFault;
use std::alloc::Global;

/// What serves the lines of a session, a turn of them at a time, and why it may fail besides.
pub trait Turns<S, K: Holds, W: Sends<K>, E> {
    // What is known of the functions that it calls.
    ghost ready: { Self → Type 0 };

    // In such a state a turn may begin.
    ghost rests: { S → Type 0 };

    // From a state these lines are answered, this text is written, and so many lines were told, which leads to a state.
    ghost goes: { S → List (List ℕ) → List ℕ → ℕ → S → Type 0 };

    // For this cause not all of these lines are; of them so many were told.
    ghost halts: { Stop E → S → List (List ℕ) → List ℕ → ℕ → S → Type 0 };

    /// Serves the line that was read last, and perhaps lines that lie ahead with their ends: how many were answered and told. It
    /// reads nothing.
    fn serve_turn(
        &self,
        state: &mut S,
        hold: &mut K,
        writer: &mut W,
        buffer: &mut LineBuffer,
        line: Line,
    ) -> Result<u64, (u64, Stop<E>)>
        requires ready { ready self.now }
        requires rests { rests state.old }
        requires text { (text : List ℕ) × IsText line buffer.old.line text }

        // Nothing is held or spent, before and afterwards.
        requires free { K.held hold.old ≡ false }
        requires unspent { IsUnspent K.spent K.answered hold.old }
        ensures free { K.held hold.new ≡ false }
        ensures unspent { IsUnspent K.spent K.answered hold.new }

        // The line and those that it took were answered, or not all of them.
        ensures ok { IfOk result (λ count. (first : List ℕ) → IsText line buffer.old.line first → (more : List (List ℕ))
            × TakesLines buffer.old buffer.new more
            × ((text : List ℕ) × Appends (W.contents writer.old) (W.contents writer.new) text
            × goes state.old (first ∷ more) text count state.new)) }
        ensures err { IfErr result (λ halt. (first : List ℕ) → IsText line buffer.old.line first → (more : List (List ℕ))
            × TakesLines buffer.old buffer.new more
            × ((text : List ℕ) × Appends (W.contents writer.old) (W.contents writer.new) text
            × halts halt.1 state.old (first ∷ more) text halt.0 state.new)) }
        ensures rests { OnOk result (rests state.new) }

        // A write fault is the writer's.
        ensures failed { IfErr result (λ halt. halt.1 ≡ Stop.WriteFault → W.failed writer.new ≡ true) };

    ghost turns: { AreTurns rests goes halts };
}

// Sends on what a writer holds back, where the next line takes a read.
fn flush_before_wait<K: Holds, W: Sends<K>>(
    writer: &mut W,
    hold: &K,
    buffer: &LineBuffer,
) -> Result<(), WriteFault>
    requires free { K.held hold.now ≡ false }
    ensures bytes { Keeps (W.contents writer.old) (W.contents writer.new) }
    ensures flushed { OnOk result ((W.flushed writer.new ≡ true) ⊎ BeginsWithLine buffer.now.ahead) }
    ensures failed { OnErr result (W.failed writer.new ≡ true) }
{
    if buffer.has_line() {
        return Ok(());
    }
    match writer.flush(hold) {
        Ok(()) => Ok(()),
        Err(_) => Err(WriteFault),
    }
}

// Sends on what a writer holds back, if it can, where a session ends for another fault.
fn flush_at_fault<K: Holds, W: Sends<K>>(writer: &mut W, hold: &K)
    requires free { K.held hold.now ≡ false }
    ensures { Keeps (W.contents writer.old) (W.contents writer.new) }
{
    let _ = writer.flush(hold);
}

/// Has each line that is read served, in order, until the end of input or a fault. A writer that holds bytes back is flushed
/// before each read that may wait, and at the end. An `Err` tells how many lines were answered and told before a turn failed for
/// a cause of its own.
pub fn serve<T: Turns<S, K, W, E>, S, K: Holds, R: Hears<K, W>, W: Sends<K>, E>(
    alloc: Global,
    turns: &T,
    state: &mut S,
    hold: &mut K,
    reader: &mut R,
    writer: &mut W,
) -> Result<SessionEnd, (u64, E)>
    requires ready { T.ready turns.now }
    requires rests { T.rests state.old }

    // Nothing is held or spent, before and afterwards.
    requires free { K.held hold.old ≡ false }
    requires unspent { IsUnspent K.spent K.answered hold.old }
    ensures free { K.held hold.new ≡ false }
    ensures unspent { IsUnspent K.spent K.answered hold.new }

    // What was read, answered and sent.
    ensures serves { (read : List ℕ) × Consumes (R.remaining reader.old) (R.remaining reader.new) read
        × ((text : List ℕ) × Appends (W.contents writer.old) (W.contents writer.new) text
        × ServesBy T.goes T.halts result state.old read (R.remaining reader.new) text state.new) }

    // Why the session ended, by the reader and the writer.
    ensures read { IfOk result (λ end. ReadsUntil end (R.remaining reader.new) (R.failed reader.new) (R.reads reader.old) (R.reads reader.new)) }
    ensures written { IfOk result (λ end. WritesUntil end (W.flushed writer.new) (W.failed writer.new)) }
{
    let mut buffer = LineBuffer::new(alloc);
    let mut answered = 0;
    'turns: loop {
        if flush_before_wait(writer, hold, &buffer).is_err() {
            return Ok(SessionEnd::WriteFault(answered));
        }
        match next_line(reader, writer, hold, &mut buffer) {
            Ok(Line::End) => return Ok(SessionEnd::Done(answered)),
            Ok(line) => match turns.serve_turn(state, hold, writer, &mut buffer, line) {
                Ok(count) => answered += count,
                Err((count, Stop::WriteFault)) => {
                    return Ok(SessionEnd::WriteFault(answered + count));
                }
                Err((count, Stop::NoMemory)) => {
                    flush_at_fault(writer, hold);
                    return Ok(SessionEnd::NoMemory(answered + count));
                }
                Err((count, Stop::Other(cause))) => {
                    flush_at_fault(writer, hold);
                    return Err((answered + count, cause));
                }
            },
            Err(LineFault::ReadFault) => return Ok(SessionEnd::ReadFault(answered)),
            Err(LineFault::TooManyReads) => return Ok(SessionEnd::TooManyReads(answered)),
            Err(LineFault::NoMemory) => {
                flush_at_fault(writer, hold);
                return Ok(SessionEnd::NoMemory(answered));
            }
        }
    }
}
