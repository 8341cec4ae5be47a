//! Sessions over any reader and writer.

ghost use Rattle.std.specs.Prelude.{ℕ, List, IfOk, OnErr};
ghost use Rattle.std.specs.Io.KnownBytes.{Appends, Consumes};
ghost use Rattle.wb_lines.specs.Causes.{ReadsUntil, WritesUntil};
ghost use Rattle.wb_lines.specs.Session.{MayAnswer, Serves};
ghost use Rattle.wb_machine.specs.Machine.{AnswersText};

use crate::serving::lines::answer_line;
use std::alloc::{AllocError, Global};
use wb_arrays::Mover;
use wb_history::History;
use wb_lines::{Machine, SessionEnd, Sink, Source, serve_lines};

/// A history answers a line with the text of a reply to its request.
struct HistoryMachine;

impl Machine<History> for HistoryMachine {
    ghost answers = { AnswersText };
}

/// Answers each line that is read, in order, until the end of input or a fault: it writes exactly the texts of the
/// replies, each with a line end, which are a run of the machine from the history as it was. Done comes only at the end
/// of input, with the writer flushed; ReadFault only where the latest read failed, TooManyReads only after all reads that
/// are allowed, and WriteFault only where the latest write or flush failed. At a fault a front of those texts was written,
/// and the history is that after the lines answered whole, or after one more, whose reply was not sent whole.
pub fn session<M: Mover, R: Source, W: Sink>(
    alloc: Global,
    history: &mut History,
    mover: &M,
    reader: &mut R,
    writer: &mut W,
) -> SessionEnd
    ensures serves { (read : List ℕ) × Consumes (R.remaining reader.old) (R.remaining reader.new) read
        × ((text : List ℕ) × Appends (W.contents writer.old) (W.contents writer.new) text
        × Serves AnswersText result history.old read (R.remaining reader.new) text history.new) }
    ensures read { ReadsUntil result (R.remaining reader.new) (R.failed reader.new) (R.reads reader.old) (R.reads reader.new) }
    ensures written { WritesUntil result (W.flushed writer.new) (W.failed writer.new) }
{
    let answer = |history: &mut History, line: &[u8]| -> Result<Vec<u8>, AllocError>
        ensures ok { IfOk result (λ reply. AnswersText history.old line.now reply.items history.new) }
        ensures err { OnErr result (MayAnswer AnswersText history.old line.now history.new) }
    { answer_line(alloc, history, line, mover) };
    serve_lines::<HistoryMachine, History, _, R, W>(alloc, history, &answer, reader, writer)
}
