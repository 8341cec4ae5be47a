//! A session whose replies are given out only when their changes are kept.
ghost use Rattle.std.specs.Prelude.{◌≡◌, ◌<◌, ◌≤◌, ℕ, List, [], ◌∷◌, ◌++◌, length, true, IfOk, OnOk, OnErr};
ghost use Rattle.std.specs.Io.KnownBytes.{Appends};
ghost use Rattle.wb_keep.specs.Lines.{recovered};
ghost use Rattle.wb_keep.specs.Keep.{IsSettled};
ghost use Rattle.wb_lines.specs.Reading.{IsText};
ghost use Rattle.wb_lines.specs.Turns.{TakesLines};
ghost use Rattle.wb_kept.specs.Runs.{Step, Run, lines_asked, replies_of, changes_of};
ghost use Rattle.wb_kept.specs.Answering.{AnswersBy};
ghost use Rattle.wb_kept.specs.Keeping.{IsKept};
ghost use Rattle.wb_kept.specs.Sessions.{IsFront, Session, ReadsUntil, WritesUntil, KeepsUntil};
ghost use Rattle.wb_kept.specs.Turning.{AnswersTurn};

use crate::changes::Changes;
use crate::kept::{Acknowledged, Kept, Turn};
use crate::machine::Machine;
use std::alloc::{AllocError, Global};
use std::marker::PhantomData;
use wb_keep::disk::Device;
use wb_keep::{AppendErr, LineLog};
use wb_lines::{
    Hears, Line, LineBuffer, NothingHeld, Sends, SessionEnd, Stop, Turns, WriteFault, send, serve,
};

// Behind the first line of a turn come at most so many.
const AHEAD_LIMIT: u64 = 255;

/// How a session ended, each with the number of lines that were answered and kept, and whose replies were given out.
#[derive(Clone, Copy, Debug, PartialEq, Eq)]
pub enum KeptEnd {
    /// The input ended, and every line was answered.
    Done(u64),
    /// A read failed. The line that was not finished is not answered.
    ReadFault(u64),
    /// The reader was read too often. The line that was not finished is not answered.
    TooManyReads(u64),
    /// A write or a flush failed, or a write took nothing.
    WriteFault(u64),
    /// There was no memory for a line, for its reply or for its changes. Open the file again.
    NoMemory(u64),
    /// The file failed. Open it again.
    DiskFault(u64),
}

/// The file failed, so that a turn can't be kept.
#[derive(Clone, Copy)]
struct DiskFault;

/// Answers the lines that lie ahead with their ends, up to the limit of a turn. Says how many.
fn answer_ahead<
    M: Machine<S>,
    S,
    D: Device,
    F: Fn(&mut S, &[u8], &mut Changes) -> Result<Vec<u8>, AllocError>,
>(
    alloc: Global,
    answer: &F,
    kept: &mut Kept<S, D>,
    buffer: &mut LineBuffer,
    turn: &mut Turn,
) -> Result<u64, AllocError>
    requires callable { F.IsAlwaysCallable answer.now }
    requires answers { AnswersBy F.Fn answer.now M.answers }
    ensures ok { IfOk result (λ count. (steps : List Step) × TakesLines buffer.old buffer.new (lines_asked steps)
        × Run M.answers kept.old.state steps kept.new.state
        × (turn.new.replies.items ≡ turn.old.replies.items ++ replies_of steps)
        × (turn.new.changes ≡ turn.old.changes ++ changes_of steps)
        × (count ≡ length steps)) }
    ensures few { IfOk result (λ count. count ≤ 255) }
    ensures taken { (more : List (List ℕ)) × TakesLines buffer.old buffer.new more }
    ensures log { kept.new.log ≡ kept.old.log }
{
    for count in 0..AHEAD_LIMIT {
        let Some(line) = buffer.ready_line() else {
            return Ok(count);
        };
        kept.answer::<M, F>(alloc, answer, line, buffer.line(), turn)?;
    }
    Ok(AHEAD_LIMIT)
}

/// Answers the line that was read last and those that lie ahead, up to the limit of a turn. Says how many.
fn answer_turn<
    M: Machine<S>,
    S,
    D: Device,
    F: Fn(&mut S, &[u8], &mut Changes) -> Result<Vec<u8>, AllocError>,
>(
    alloc: Global,
    answer: &F,
    kept: &mut Kept<S, D>,
    buffer: &mut LineBuffer,
    line: Line,
    turn: &mut Turn,
) -> Result<u64, AllocError>
    requires callable { F.IsAlwaysCallable answer.now }
    requires answers { AnswersBy F.Fn answer.now M.answers }
    requires text { (text : List ℕ) × IsText line buffer.old.line text }
    requires empty { (turn.old.replies.items ≡ []) × (turn.old.changes ≡ []) }
    ensures ok { IfOk result (λ count. (first : List ℕ) → IsText line buffer.old.line first
        → AnswersTurn M.answers kept.old.state kept.new.state first buffer.old buffer.new turn.new.replies.items turn.new.changes count) }
    ensures taken { (more : List (List ℕ)) × TakesLines buffer.old buffer.new more }
    ensures log { kept.new.log ≡ kept.old.log }
{
    kept.answer::<M, F>(alloc, answer, line, buffer.line(), turn)?;
    let ahead = answer_ahead::<M, S, D, F>(alloc, answer, kept, buffer, turn)?;
    Ok(ahead + 1)
}

/// Gives replies out. It is the only write of a session, and then the changes that they tell of are on the disk, the last
/// in the log.
fn give_out<D: Device, W: Sends<NothingHeld>>(
    log: &LineLog<D>,
    acknowledged: &Acknowledged,
    writer: &mut W,
) -> Result<(), WriteFault>
    requires on_disk { IsSettled D.seen D.may_leave log.now
        × ((earlier : List (List ℕ)) × (recovered (D.seen log.now.device) ≡ earlier ++ acknowledged.now.turn.changes)) }
    ensures sent { OnOk result (Appends (W.contents writer.old) (W.contents writer.new) acknowledged.now.turn.replies.items) }
    ensures part { OnErr result ((text : List ℕ) × Appends (W.contents writer.old) (W.contents writer.new) text
        × IsFront text acknowledged.now.turn.replies.items) }
    ensures failed { OnErr result (W.failed writer.new ≡ true) }
{
    // The log is there for the contract alone, which says what it has on the disk.
    let _log = log;
    send(writer, &NothingHeld, acknowledged.replies())
}

// Turns of the lines that lie ahead: they are answered, their changes kept, and then their replies given out.
#[derive(Drop)]
struct KeptTurns<'a, M, F> {
    alloc: Global,
    answer: &'a F,
    of: PhantomData<M>,
}

impl<
    'a,
    M: Machine<S>,
    S,
    D: Device,
    F: Fn(&mut S, &[u8], &mut Changes) -> Result<Vec<u8>, AllocError>,
    W: Sends<NothingHeld>,
> Turns<Kept<S, D>, NothingHeld, W, DiskFault> for KeptTurns<'a, M, F> {
    ghost use Rattle.wb_kept.specs.Turning.{Goes, Halts};
    ghost use Rattle.wb_kept.specs.TurnLaws.{kept_turns};

    ghost ready = { λ turns. F.IsAlwaysCallable turns.answer.now × AnswersBy F.Fn turns.answer.now M.answers };

    ghost rests = { λ kept. IsSettled D.seen D.may_leave kept.log };

    ghost goes = { Goes M.answers D.seen D.may_leave D.moment D.left_since D.faults };

    ghost halts = { Halts M.answers D.seen D.may_leave D.moment D.left_since D.faults };

    fn serve_turn(
        &self,
        kept: &mut Kept<S, D>,
        _hold: &mut NothingHeld,
        writer: &mut W,
        buffer: &mut LineBuffer,
        line: Line,
    ) -> Result<u64, (u64, Stop<DiskFault>)> {
        let mut turn = Turn::new(self.alloc);
        let Ok(count) = answer_turn::<M, S, D, F>(
            self.alloc,
            self.answer,
            kept,
            buffer,
            line,
            &mut turn,
        ) else {
            return Err((0, Stop::NoMemory));
        };
        match kept.commit(self.alloc, turn) {
            Ok(acknowledged) => match give_out(&kept.log, &acknowledged, writer) {
                Ok(()) => Ok(count),
                Err(_) => Err((count, Stop::WriteFault)),
            },
            Err(AppendErr::Failed) => Err((0, Stop::Other(DiskFault))),
            // A log of 2^60 bytes counts as no memory.
            Err(_) => Err((0, Stop::NoMemory)),
        }
    }

    ghost turns = { kept_turns M.answers D.seen D.may_leave D.moment D.left_since D.faults D.only_now };
}

/// Answers each line that is read, in order, by `answer`, until the end of input or a fault. Lines that lie ahead are answered in one
/// turn, whose changes are kept together, and no reply is given out before its changes are on the disk. A writer that
/// holds bytes back is flushed before each read and at the end.
pub fn serve_kept<
    M: Machine<S>,
    S,
    D: Device,
    F: Fn(&mut S, &[u8], &mut Changes) -> Result<Vec<u8>, AllocError>,
    R: Hears<NothingHeld, W>,
    W: Sends<NothingHeld>,
>(alloc: Global, answer: &F, kept: &mut Kept<S, D>, reader: &mut R, writer: &mut W) -> KeptEnd
    // `answer` answers as the machine does, and the file stands for the state.
    requires callable { F.IsAlwaysCallable answer.now }
    requires answers { AnswersBy F.Fn answer.now M.answers }
    requires kept { IsKept M.start M.grants D.seen D.may_leave kept.old }

    // What was read, answered, kept and given out.
    ensures session { Session M.start M.grants M.answers D.seen D.may_leave D.moment D.left_since result kept.old kept.new
        (R.remaining reader.old) (R.remaining reader.new) (W.contents writer.old) (W.contents writer.new) }

    // Why the session ended, by the reader, the writer and the device.
    ensures read { ReadsUntil result (R.remaining reader.new) (R.failed reader.new) (R.reads reader.old) (R.reads reader.new) }
    ensures written { WritesUntil result (W.flushed writer.new) (W.failed writer.new) }
    ensures disk { KeepsUntil result (D.faults kept.old.log.device) (D.faults kept.new.log.device) }
{
    let turns: KeptTurns<'_, M, F> = KeptTurns {
        alloc,
        answer,
        of: PhantomData,
    };
    match serve(alloc, &turns, kept, &mut NothingHeld, reader, writer) {
        Ok(SessionEnd::Done(count)) => KeptEnd::Done(count),
        Ok(SessionEnd::ReadFault(count)) => KeptEnd::ReadFault(count),
        Ok(SessionEnd::TooManyReads(count)) => KeptEnd::TooManyReads(count),
        Ok(SessionEnd::WriteFault(count)) => KeptEnd::WriteFault(count),
        Ok(SessionEnd::NoMemory(count)) => KeptEnd::NoMemory(count),
        Err((count, DiskFault)) => KeptEnd::DiskFault(count),
    }
}
