//! A session that answers its lines one by one.
ghost use Rattle.std.specs.Prelude.{◌≡◌, ◌≢◌, ◌⊎◌, ◌<◌, ℕ, List, [], length, take, true, IfOk, OnOk, OnErr, IsErrOf};
ghost use Rattle.std.specs.Io.KnownBytes.{Appends, Consumes};
ghost use Rattle.wb_lines.specs.Causes.{ReadsUntil, WritesUntil};
ghost use Rattle.wb_lines.specs.Lines.{ended};
ghost use Rattle.wb_lines.specs.Reading.{IsText};
ghost use Rattle.wb_lines.specs.Session.{AnswersLine, AnswersBy, MayAnswer, Serves, too_long};

use crate::buffer::{Line, LineBuffer};
use crate::machine::{Machine, SessionEnd, Stop};
use crate::resting::{Hears, NothingHeld, Sends};
use crate::sending::send_reply;
use crate::serving::{Turns, serve};
use std::alloc::{AllocError, Global};
use std::convert::Infallible;
use std::marker::PhantomData;

/// The reply to a line that is too long.
pub fn reply_to_too_long(alloc: Global) -> Result<Vec<u8>, AllocError>
    ensures { IfOk result (λ reply. reply.items ≡ too_long) }
{
    Vec::from_slice(alloc, b"{\"error\":\"E91\",\"name\":\"line-too-long\"}")
}

// The reply to a line that is no end.
fn reply_to<M: Machine<S>, S, F: Fn(&mut S, &[u8]) -> Result<Vec<u8>, AllocError>>(
    alloc: Global,
    state: &mut S,
    answer: &F,
    line: Line,
    bytes: &[u8],
) -> Result<Vec<u8>, AllocError>
    requires some { line ≢ Line.End }
    requires callable { F.IsAlwaysCallable answer.now }
    requires answers { AnswersBy F.Fn answer.now M.answers }
    ensures ok { IfOk result (λ reply. (text : List ℕ) → IsText line bytes.now text
        → AnswersLine M.answers state.old text reply.items state.new) }
    ensures err { OnErr result ((text : List ℕ) → IsText line bytes.now text
        → MayAnswer (AnswersLine M.answers) state.old text state.new) }
{
    match line {
        Line::TooLong => reply_to_too_long(alloc),
        _ => answer(state, bytes),
    }
}

// Answers a line: the reply and a line end.
fn answer_line<
    M: Machine<S>,
    S,
    F: Fn(&mut S, &[u8]) -> Result<Vec<u8>, AllocError>,
    W: Sends<NothingHeld>,
>(
    alloc: Global,
    state: &mut S,
    answer: &F,
    writer: &mut W,
    line: Line,
    bytes: &[u8],
) -> Result<(), Stop<Infallible>>
    requires some { line ≢ Line.End }
    requires callable { F.IsAlwaysCallable answer.now }
    requires answers { AnswersBy F.Fn answer.now M.answers }
    ensures ok { OnOk result ((text : List ℕ) → IsText line bytes.now text → (reply : List ℕ)
        × AnswersLine M.answers state.old text reply state.new
        × Appends (W.contents writer.old) (W.contents writer.new) (ended reply)) }
    ensures err { OnErr result ((text : List ℕ) → IsText line bytes.now text
        → ((state.new ≡ state.old) × Appends (W.contents writer.old) (W.contents writer.new) [])
        ⊎ ((reply : List ℕ) × AnswersLine M.answers state.old text reply state.new
        × ((k : ℕ) × (k < length (ended reply))
        × Appends (W.contents writer.old) (W.contents writer.new) (take k (ended reply))))) }
    ensures failed { IsErrOf result Stop.WriteFault → W.failed writer.new ≡ true }
{
    match reply_to::<M, S, F>(alloc, state, answer, line, bytes) {
        Ok(reply) => send_reply(writer, &NothingHeld, reply),
        Err(_) => Err(Stop::NoMemory),
    }
}

// Turns of one line each, which is answered by the function that is handed in, and its reply sent.
#[derive(Drop)]
struct OneByOne<'a, M, F> {
    alloc: Global,
    answer: &'a F,
    of: PhantomData<M>,
}

impl<
    'a,
    M: Machine<S>,
    S,
    F: Fn(&mut S, &[u8]) -> Result<Vec<u8>, AllocError>,
    W: Sends<NothingHeld>,
> Turns<S, NothingHeld, W, Infallible> for OneByOne<'a, M, F> {
    ghost use Rattle.wb_lines.specs.Session.{AnswersAll};
    ghost use Rattle.wb_lines.specs.Turns.{AnswersTold};
    ghost use Rattle.wb_lines.specs.TurnLaws.{told_turns};

    ghost ready = { λ turns. F.IsAlwaysCallable turns.answer.now × AnswersBy F.Fn turns.answer.now M.answers };

    ghost rests = { λ state. Unit {0} };

    ghost goes = { AnswersAll M.answers };

    ghost halts = { λ stop. AnswersTold 1 M.answers };

    fn serve_turn(
        &self,
        state: &mut S,
        _hold: &mut NothingHeld,
        writer: &mut W,
        buffer: &mut LineBuffer,
        line: Line,
    ) -> Result<u64, (u64, Stop<Infallible>)> {
        match answer_line::<M, S, F, W>(
            self.alloc,
            state,
            self.answer,
            writer,
            line,
            buffer.line(),
        ) {
            Ok(()) => Ok(1),
            Err(stop) => Err((0, stop)),
        }
    }

    ghost turns = { told_turns 1 M.answers };
}

/// Answers each line that is read, in order, until the end of input or a fault. A line that is too
/// long is answered E91, and the state stays. A writer that holds bytes back is flushed before
/// each read and at the end.
pub fn serve_lines<
    M: Machine<S>,
    S,
    F: Fn(&mut S, &[u8]) -> Result<Vec<u8>, AllocError>,
    R: Hears<NothingHeld, W>,
    W: Sends<NothingHeld>,
>(alloc: Global, state: &mut S, answer: &F, reader: &mut R, writer: &mut W) -> SessionEnd
    requires callable { F.IsAlwaysCallable answer.now }
    requires answers { AnswersBy F.Fn answer.now M.answers }
    ensures serves { (read : List ℕ) × Consumes (R.remaining reader.old) (R.remaining reader.new) read
        × ((text : List ℕ) × Appends (W.contents writer.old) (W.contents writer.new) text
        × Serves M.answers result state.old read (R.remaining reader.new) text state.new) }
    ensures read { ReadsUntil result (R.remaining reader.new) (R.failed reader.new) (R.reads reader.old) (R.reads reader.new) }
    ensures written { WritesUntil result (W.flushed writer.new) (W.failed writer.new) }
{
    let turns: OneByOne<'_, M, F> = OneByOne {
        alloc,
        answer,
        of: PhantomData,
    };
    match serve(alloc, &turns, state, &mut NothingHeld, reader, writer) {
        Ok(end) => end,
        Err((_, never)) => match never {},
    }
}
