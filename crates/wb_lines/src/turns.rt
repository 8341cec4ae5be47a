//! The session that takes the lines that lie ahead together, answers them in turns, and tells each turn's replies after it.
ghost use Rattle.std.specs.Prelude.{◌≡◌, ◌≢◌, ◌⊎◌, ◌+◌, ◌<◌, ◌≤◌, ◌^◌, ℕ, List, [], ◌∷◌, ◌++◌, length, take, true, false, IfOk, IfErr, OnOk, OnErr};
ghost use Rattle.std.specs.Prelude.{Option, IsErrOf};
ghost use Rattle.std.specs.Io.KnownBytes.{Appends, Consumes};
ghost use Rattle.wb_lines.specs.Causes.{ReadsUntil, WritesUntil};
ghost use Rattle.wb_lines.specs.Lines.{ended};
ghost use Rattle.wb_lines.specs.Reading.{IsText};
ghost use Rattle.wb_lines.specs.Replies.{Replies};
ghost use Rattle.wb_lines.specs.Session.{AnswersLine, AnswersAll};
ghost use Rattle.wb_lines.specs.Turns.{TakesLines, ReadsBy, AnswersReadBy, AnswersWithin, CountsCost, TellsBy, TellsWhileFree, LetsGo};
ghost use Rattle.wb_lines.specs.Turns.{IsTaken, AreTaken, HasRoom, IsUnspent};
ghost use Rattle.wb_lines.specs.Turns.{reply_text, all_texts, GetReplies, AnswersTold, ServesTurns, turn_limit};

use crate::buffer::{Line, LineBuffer};
use crate::machine::{Asks, Machine, SessionEnd, Stop, Tells};
use crate::resting::{Hears, Holds, Sends};
use crate::sending::send_reply;
use crate::serving::{Turns, serve};
use crate::session::reply_to_too_long;
use std::alloc::{AllocError, Global};
use std::collections::VecDeque;
use std::convert::Infallible;
use std::marker::PhantomData;

// So many lines are taken together at most, so a turn has no more.
const TURN_LIMIT: usize = 256;

// A turn ends once its lines have cost so much.
const COST_LIMIT: u64 = 65_536;

// What a line is read as, or nothing where it is too long.
fn taken<M: Asks<P>, P, G: Fn(&[u8]) -> P>(parse: &G, line: Line, bytes: &[u8]) -> Option<P>
    requires callable { G.IsAlwaysCallable parse.now }
    requires reads { ReadsBy G.Fn parse.now M.reads }
    ensures { (text : List ℕ) → IsText line bytes.now text → IsTaken M.reads text result }
{
    match line {
        Line::Whole => Some(parse(bytes)),
        Line::TooLong => None,
        Line::End => None,
    }
}

// Takes the lines that lie ahead, up to the limit of a turn.
fn take_ahead<M: Asks<P>, P: Drop, G: Fn(&[u8]) -> P>(
    buffer: &mut LineBuffer,
    parse: &G,
    turn: &mut VecDeque<Option<P>>,
) -> Result<(), AllocError>
    requires callable { G.IsAlwaysCallable parse.now }
    requires reads { ReadsBy G.Fn parse.now M.reads }
    requires short { length turn.old.items ≤ 256 }
    ensures short { length turn.new.items ≤ 256 }
    ensures taken { (more : List (List ℕ)) × TakesLines buffer.old buffer.new more
        × OnOk result ((first : List (List ℕ)) → AreTaken M.reads first turn.old.items → AreTaken M.reads (first ++ more) turn.new.items) }
{
    while turn.len() < TURN_LIMIT {
        match buffer.ready_line() {
            Some(line) => {
                let next = taken::<M, P, G>(parse, line, buffer.line());
                if turn.push_back(next).is_err() {
                    return Err(AllocError);
                }
            }
            None => return Ok(()),
        }
    }
    Ok(())
}

// Takes the line that was read last, and those that lie ahead, up to the limit of a turn.
fn take_turn<M: Asks<P>, P: Drop, G: Fn(&[u8]) -> P>(
    buffer: &mut LineBuffer,
    parse: &G,
    line: Line,
    turn: &mut VecDeque<Option<P>>,
) -> Result<(), AllocError>
    requires callable { G.IsAlwaysCallable parse.now }
    requires reads { ReadsBy G.Fn parse.now M.reads }
    requires empty { turn.old.items ≡ [] }
    ensures short { length turn.new.items ≤ 256 }
    ensures taken { (more : List (List ℕ)) × TakesLines buffer.old buffer.new more
        × OnOk result ((first : List ℕ) → IsText line buffer.old.line first → AreTaken M.reads (first ∷ more) turn.new.items) }
{
    let first = taken::<M, P, G>(parse, line, buffer.line());
    if turn.push_back(first).is_err() {
        return Err(AllocError);
    }
    take_ahead::<M, P, G>(buffer, parse, turn)
}

// Answers a line that was taken: the reply, or nothing where it is too long, and what it cost.
fn answer_one<
    M: Machine<S> + Asks<P> + Tells<Q>,
    S,
    K: Holds,
    P,
    Q,
    F: Fn(&mut S, &mut K, P) -> (Q, u64),
>(state: &mut S, hold: &mut K, answer: &F, asked: Option<P>) -> (Option<Q>, u64)
    // `answer` answers as the machine does, and counts what it costs; a turn has room for one more.
    requires callable { AnswersWithin F.Fn answer.now K.spent K.answered }
    requires answers { AnswersReadBy F.Fn answer.now M.reads M.text M.answers }
    requires spends { CountsCost F.Fn answer.now K.spent K.answered }
    requires room { HasRoom K.spent K.answered hold.old }

    // The reply, and what it cost.
    ensures reply { (line : List ℕ) → IsTaken M.reads line asked → AnswersLine M.answers state.old line (reply_text M.text result.0) state.new }
    ensures spent { K.spent hold.new ≡ K.spent hold.old + result.1 }
    ensures answered { K.answered hold.new ≤ K.answered hold.old + 1 }
{
    match asked {
        None => (None, 0),
        Some(asked) => {
            let (reply, cost) = answer(state, hold, asked);
            (Some(reply), cost)
        }
    }
}

// Answers lines that were taken, in order, until all are or they have cost so much.
fn answer_lines<
    M: Machine<S> + Asks<P> + Tells<Q>,
    S,
    K: Holds,
    P: Drop,
    Q: Drop,
    F: Fn(&mut S, &mut K, P) -> (Q, u64),
>(
    state: &mut S,
    hold: &mut K,
    answer: &F,
    taken: &mut VecDeque<Option<P>>,
    replies: &mut VecDeque<Option<Q>>,
) -> Result<(), AllocError>
    // `answer` answers as the machine does, and counts what it costs.
    requires callable { AnswersWithin F.Fn answer.now K.spent K.answered }
    requires answers { AnswersReadBy F.Fn answer.now M.reads M.text M.answers }
    requires spends { CountsCost F.Fn answer.now K.spent K.answered }

    // Nothing is spent, 256 lines at most were taken, and no reply waits.
    requires unspent { IsUnspent K.spent K.answered hold.old }
    requires short { length taken.old.items ≤ 256 }
    requires empty { replies.old.items ≡ [] }

    // The first of the lines are answered, in order, and the others stay.
    ensures ok { OnOk result ((asked : List (List ℕ)) → AreTaken M.reads asked taken.old.items → (done rest : List (List ℕ))
        × (asked ≡ done ++ rest) × AreTaken M.reads rest taken.new.items
        × GetReplies M.answers M.text state.old done replies.new.items state.new) }
    ensures err { OnErr result ((asked : List (List ℕ)) → AreTaken M.reads asked taken.old.items → (done rest : List (List ℕ))
        × (asked ≡ done ++ rest) × ((texts : List ℕ) × Replies (AnswersLine M.answers) state.old done texts state.new)) }

    // Each line is answered or stays, and of some lines one is answered at least.
    ensures count { OnOk result (length replies.new.items + length taken.new.items ≡ length taken.old.items) }
    ensures some { OnOk result (0 < length taken.old.items → 0 < length replies.new.items) }
{
    let mut spent: u64 = 0;
    while let Some(next) = taken.pop_front() {
        let (reply, cost) = answer_one::<M, S, K, P, Q, F>(state, hold, answer, next);
        if replies.push_back(reply).is_err() {
            return Err(AllocError);
        }
        spent = spent.saturating_add(cost);
        if spent >= COST_LIMIT {
            return Ok(());
        }
    }
    Ok(())
}

// The text of a reply.
fn text_of<M: Tells<Q>, K: Holds, Q, T: Fn(&K, Q) -> Result<Vec<u8>, AllocError>>(
    alloc: Global,
    hold: &K,
    tell: &T,
    reply: Option<Q>,
) -> Result<Vec<u8>, AllocError>
    requires callable { TellsWhileFree T.Fn tell.now K.held }
    requires free { K.held hold.now ≡ false }
    requires tells { TellsBy T.Fn tell.now M.text }
    ensures { IfOk result (λ made. made.items ≡ reply_text M.text reply) }
{
    match reply {
        None => reply_to_too_long(alloc),
        Some(reply) => tell(hold, reply),
    }
}

// Sends the text of a reply.
fn tell_reply<M: Tells<Q>, K: Holds, Q, T: Fn(&K, Q) -> Result<Vec<u8>, AllocError>, W: Sends<K>>(
    alloc: Global,
    hold: &K,
    tell: &T,
    writer: &mut W,
    reply: Option<Q>,
) -> Result<(), Stop<Infallible>>
    requires callable { TellsWhileFree T.Fn tell.now K.held }
    requires tells { TellsBy T.Fn tell.now M.text }
    requires free { K.held hold.now ≡ false }
    ensures ok { OnOk result (Appends (W.contents writer.old) (W.contents writer.new) (ended (reply_text M.text reply))) }
    ensures err { OnErr result ((k : ℕ) × (k < length (ended (reply_text M.text reply)))
        × Appends (W.contents writer.old) (W.contents writer.new) (take k (ended (reply_text M.text reply)))) }
    ensures failed { IsErrOf result Stop.WriteFault → W.failed writer.new ≡ true }
{
    match text_of::<M, K, Q, T>(alloc, hold, tell, reply) {
        Ok(text) => send_reply(writer, hold, text),
        Err(_) => Err(Stop::NoMemory),
    }
}

// Sends the texts of replies in order: how many were sent whole.
fn tell_replies<
    M: Tells<Q>,
    K: Holds,
    Q: Drop,
    T: Fn(&K, Q) -> Result<Vec<u8>, AllocError>,
    W: Sends<K>,
>(
    alloc: Global,
    hold: &K,
    tell: &T,
    writer: &mut W,
    replies: &mut VecDeque<Option<Q>>,
) -> Result<u64, (u64, Stop<Infallible>)>
    // `tell` makes the text of a reply while nothing is held; there are 256 at most.
    requires callable { TellsWhileFree T.Fn tell.now K.held }
    requires tells { TellsBy T.Fn tell.now M.text }
    requires free { K.held hold.now ≡ false }
    requires short { length replies.old.items ≤ 256 }

    // All were sent; or the first so many, and a part of the next.
    ensures ok { IfOk result (λ count. Appends (W.contents writer.old) (W.contents writer.new) (all_texts M.text replies.old.items)
        × (count ≡ length replies.old.items)) }
    ensures err { IfErr result (λ halt. (sent left : List (Option Q)) × (first : Option Q) × (k : ℕ)
        × (replies.old.items ≡ sent ++ first ∷ left) × (halt.0 ≡ length sent) × (k < length (ended (reply_text M.text first)))
        × Appends (W.contents writer.old) (W.contents writer.new) (all_texts M.text sent ++ take k (ended (reply_text M.text first)))) }

    // A write fault is the writer's.
    ensures failed { IfErr result (λ halt. halt.1 ≡ Stop.WriteFault → W.failed writer.new ≡ true) }
{
    let mut told = 0;
    while let Some(reply) = replies.pop_front() {
        match tell_reply::<M, K, Q, T, W>(alloc, hold, tell, writer, reply) {
            Ok(()) => told += 1,
            Err(stop) => return Err((told, stop)),
        }
    }
    Ok(told)
}

// Lets go what is held.
fn free<K: Holds, H: Fn(&mut K)>(hold: &mut K, let_go: &H)
    requires callable { H.IsAlwaysCallable let_go.now }
    requires lets_go { LetsGo H.Fn let_go.now K.held K.spent K.answered }
    ensures free { K.held hold.new ≡ false }
    ensures unspent { IsUnspent K.spent K.answered hold.new }
{
    let_go(hold);
}

// Answers lines that were taken, in one turn: until all are or they have cost so much. What is taken hold of for that is let go,
// and then the texts of the replies are made and sent. Says how many lines were answered and told.
fn answer_turn<
    M: Machine<S> + Asks<P> + Tells<Q>,
    S,
    K: Holds,
    P: Drop,
    Q: Drop,
    F: Fn(&mut S, &mut K, P) -> (Q, u64),
    T: Fn(&K, Q) -> Result<Vec<u8>, AllocError>,
    H: Fn(&mut K),
    W: Sends<K>,
>(
    alloc: Global,
    state: &mut S,
    hold: &mut K,
    answer: &F,
    tell: &T,
    let_go: &H,
    writer: &mut W,
    taken: &mut VecDeque<Option<P>>,
) -> Result<u64, (u64, Stop<Infallible>)>
    // What `answer`, `tell` and `let_go` do, which are handed in.
    requires callable { AnswersWithin F.Fn answer.now K.spent K.answered }
    requires answers { AnswersReadBy F.Fn answer.now M.reads M.text M.answers }
    requires spends { CountsCost F.Fn answer.now K.spent K.answered }
    requires tellable { TellsWhileFree T.Fn tell.now K.held }
    requires tells { TellsBy T.Fn tell.now M.text }
    requires let_go_at_any_time { H.IsAlwaysCallable let_go.now }
    requires lets_go { LetsGo H.Fn let_go.now K.held K.spent K.answered }

    // 256 lines at most were taken, and nothing is spent.
    requires short { length taken.old.items ≤ 256 }
    requires unspent { IsUnspent K.spent K.answered hold.old }

    // Nothing is held or spent afterwards.
    ensures free { K.held hold.new ≡ false }
    ensures unspent { IsUnspent K.spent K.answered hold.new }

    // What was answered and sent, of the lines that were taken.
    ensures ok { IfOk result (λ count. (asked : List (List ℕ)) → AreTaken M.reads asked taken.old.items → (done rest : List (List ℕ))
        × (asked ≡ done ++ rest) × AreTaken M.reads rest taken.new.items
        × ((text : List ℕ) × Appends (W.contents writer.old) (W.contents writer.new) text
        × AnswersAll M.answers state.old done text count state.new)) }
    ensures err { IfErr result (λ halt. (asked : List (List ℕ)) → AreTaken M.reads asked taken.old.items → (text : List ℕ)
        × Appends (W.contents writer.old) (W.contents writer.new) text
        × AnswersTold turn_limit M.answers state.old asked text halt.0 state.new) }

    // How many lines that are, and whose a write fault is.
    ensures count { IfOk result (λ count. count + length taken.new.items ≡ length taken.old.items) }
    ensures halted { IfErr result (λ halt. halt.0 ≤ length taken.old.items) }
    ensures some { IfOk result (λ count. 0 < length taken.old.items → 0 < count) }
    ensures failed { IfErr result (λ halt. halt.1 ≡ Stop.WriteFault → W.failed writer.new ≡ true) }
{
    let mut replies = VecDeque::new(alloc);
    let answered = answer_lines::<M, S, K, P, Q, F>(state, hold, answer, taken, &mut replies);
    free(hold, let_go);
    if answered.is_err() {
        return Err((0, Stop::NoMemory));
    }
    tell_replies::<M, K, Q, T, W>(alloc, hold, tell, writer, &mut replies)
}

// Answers all lines that were taken, in as many turns as they cost. Says how many were answered and told.
fn answer_taken<
    M: Machine<S> + Asks<P> + Tells<Q>,
    S,
    K: Holds,
    P: Drop,
    Q: Drop,
    F: Fn(&mut S, &mut K, P) -> (Q, u64),
    T: Fn(&K, Q) -> Result<Vec<u8>, AllocError>,
    H: Fn(&mut K),
    W: Sends<K>,
>(
    alloc: Global,
    state: &mut S,
    hold: &mut K,
    answer: &F,
    tell: &T,
    let_go: &H,
    writer: &mut W,
    taken: &mut VecDeque<Option<P>>,
) -> Result<u64, (u64, Stop<Infallible>)>
    // What `answer`, `tell` and `let_go` do, which are handed in.
    requires callable { AnswersWithin F.Fn answer.now K.spent K.answered }
    requires answers { AnswersReadBy F.Fn answer.now M.reads M.text M.answers }
    requires spends { CountsCost F.Fn answer.now K.spent K.answered }
    requires tellable { TellsWhileFree T.Fn tell.now K.held }
    requires tells { TellsBy T.Fn tell.now M.text }
    requires let_go_at_any_time { H.IsAlwaysCallable let_go.now }
    requires lets_go { LetsGo H.Fn let_go.now K.held K.spent K.answered }

    // 256 lines at most were taken, and nothing is held or spent.
    requires short { length taken.old.items ≤ 256 }
    requires free { K.held hold.old ≡ false }
    requires unspent { IsUnspent K.spent K.answered hold.old }

    // Nothing is held or spent afterwards.
    ensures free { K.held hold.new ≡ false }
    ensures unspent { IsUnspent K.spent K.answered hold.new }

    // What was answered and sent, of the lines that were taken.
    ensures ok { IfOk result (λ count. (asked : List (List ℕ)) → AreTaken M.reads asked taken.old.items → (text : List ℕ)
        × Appends (W.contents writer.old) (W.contents writer.new) text
        × AnswersAll M.answers state.old asked text count state.new) }
    ensures err { IfErr result (λ halt. (asked : List (List ℕ)) → AreTaken M.reads asked taken.old.items → (text : List ℕ)
        × Appends (W.contents writer.old) (W.contents writer.new) text
        × AnswersTold turn_limit M.answers state.old asked text halt.0 state.new) }

    // A write fault is the writer's.
    ensures failed { IfErr result (λ halt. halt.1 ≡ Stop.WriteFault → W.failed writer.new ≡ true) }
{
    let mut answered = 0;
    while !taken.is_empty() {
        match answer_turn::<M, S, K, P, Q, F, T, H, W>(
            alloc, state, hold, answer, tell, let_go, writer, taken,
        ) {
            Ok(count) => answered += count,
            Err((count, stop)) => return Err((answered + count, stop)),
        }
    }
    Ok(answered)
}

// Turns of the lines that lie ahead, by the functions that are handed in.
#[derive(Drop)]
struct LinesAhead<'a, M, P, Q, G, F, T, H> {
    alloc: Global,
    parse: &'a G,
    answer: &'a F,
    tell: &'a T,
    let_go: &'a H,
    of: PhantomData<(M, P, Q)>,
}

impl<
    'a,
    M: Machine<S> + Asks<P> + Tells<Q>,
    S,
    K: Holds,
    P: Drop,
    Q: Drop,
    G: Fn(&[u8]) -> P,
    F: Fn(&mut S, &mut K, P) -> (Q, u64),
    T: Fn(&K, Q) -> Result<Vec<u8>, AllocError>,
    H: Fn(&mut K),
    W: Sends<K>,
> Turns<S, K, W, Infallible> for LinesAhead<'a, M, P, Q, G, F, T, H> {
    ghost use Rattle.wb_lines.specs.TurnLaws.{told_turns};

    // What `parse`, `answer`, `tell` and `let_go` do.
    ghost ready = { λ turns. G.IsAlwaysCallable turns.parse.now × ReadsBy G.Fn turns.parse.now M.reads
        × AnswersWithin F.Fn turns.answer.now K.spent K.answered × AnswersReadBy F.Fn turns.answer.now M.reads M.text M.answers
        × CountsCost F.Fn turns.answer.now K.spent K.answered
        × TellsWhileFree T.Fn turns.tell.now K.held × TellsBy T.Fn turns.tell.now M.text
        × H.IsAlwaysCallable turns.let_go.now × LetsGo H.Fn turns.let_go.now K.held K.spent K.answered };

    ghost rests = { λ state. Unit {0} };

    ghost goes = { AnswersAll M.answers };

    ghost halts = { λ stop. AnswersTold turn_limit M.answers };

    fn serve_turn(
        &self,
        state: &mut S,
        hold: &mut K,
        writer: &mut W,
        buffer: &mut LineBuffer,
        line: Line,
    ) -> Result<u64, (u64, Stop<Infallible>)> {
        let mut turn = VecDeque::new(self.alloc);
        if take_turn::<M, P, G>(buffer, self.parse, line, &mut turn).is_err() {
            return Err((0, Stop::NoMemory));
        }
        answer_taken::<M, S, K, P, Q, F, T, H, W>(
            self.alloc,
            state,
            hold,
            self.answer,
            self.tell,
            self.let_go,
            writer,
            &mut turn,
        )
    }

    ghost turns = { told_turns turn_limit M.answers };
}

/// Answers each line that is read, in order, until the end of input or a fault. Lines that lie ahead are first read, each by
/// itself, and then answered in turns: a turn ends when its lines, of which it has 256 at most, have cost 65,536, as `answer`
/// tells with each reply and counts in what it holds, and `answer` may be called only before that. What it takes hold of stays
/// held for a turn, and is let go by `let_go` then: before the texts of the turn's replies are made, by `tell`, which may be
/// called only while nothing is held, and sent. Lines that the turn did not come to are the first of the next.
pub fn serve_turns<
    M: Machine<S> + Asks<P> + Tells<Q>,
    S,
    K: Holds,
    P: Drop,
    Q: Drop,
    G: Fn(&[u8]) -> P,
    F: Fn(&mut S, &mut K, P) -> (Q, u64),
    T: Fn(&K, Q) -> Result<Vec<u8>, AllocError>,
    H: Fn(&mut K),
    R: Hears<K, W>,
    W: Sends<K>,
>(
    alloc: Global,
    state: &mut S,
    hold: &mut K,
    parse: &G,
    answer: &F,
    tell: &T,
    let_go: &H,
    reader: &mut R,
    writer: &mut W,
) -> SessionEnd
    // What `parse`, `answer`, `tell` and `let_go` do, which are handed in.
    requires readable { G.IsAlwaysCallable parse.now }
    requires reads { ReadsBy G.Fn parse.now M.reads }
    requires callable { AnswersWithin F.Fn answer.now K.spent K.answered }
    requires answers { AnswersReadBy F.Fn answer.now M.reads M.text M.answers }
    requires spends { CountsCost F.Fn answer.now K.spent K.answered }
    requires tellable { TellsWhileFree T.Fn tell.now K.held }
    requires tells { TellsBy T.Fn tell.now M.text }
    requires let_go_at_any_time { H.IsAlwaysCallable let_go.now }
    requires lets_go { LetsGo H.Fn let_go.now K.held K.spent K.answered }

    // Nothing is held or spent, before and afterwards.
    requires free { K.held hold.old ≡ false }
    requires unspent { IsUnspent K.spent K.answered hold.old }
    ensures free { K.held hold.new ≡ false }
    ensures unspent { IsUnspent K.spent K.answered hold.new }

    // What was read, answered and sent.
    ensures serves { (read : List ℕ) × Consumes (R.remaining reader.old) (R.remaining reader.new) read
        × ((text : List ℕ) × Appends (W.contents writer.old) (W.contents writer.new) text
        × ServesTurns M.answers result state.old read (R.remaining reader.new) text state.new) }

    // Why the session ended, by the reader and the writer.
    ensures read { ReadsUntil result (R.remaining reader.new) (R.failed reader.new) (R.reads reader.old) (R.reads reader.new) }
    ensures written { WritesUntil result (W.flushed writer.new) (W.failed writer.new) }
{
    let turns: LinesAhead<'_, M, P, Q, G, F, T, H> = LinesAhead {
        alloc,
        parse,
        answer,
        tell,
        let_go,
        of: PhantomData,
    };
    match serve(alloc, &turns, state, hold, reader, writer) {
        Ok(end) => end,
        Err((_, never)) => match never {},
    }
}
