//! A seat at a desk as what answers lines.
ghost use Rattle.std.specs.Prelude.{◌≡◌, ◌⊎◌, ◌+◌, ◌<◌, ◌≤◌, ℕ, List, true, false, IfOk};
ghost use Rattle.std.specs.Io.KnownBytes.{Appends, Consumes};
ghost use Rattle.wb_lines.specs.Causes.{ReadsUntil, WritesUntil};
ghost use Rattle.wb_lines.specs.Turns.{ServesTurns, cost_limit, turn_limit};
ghost use Rattle.wb_lines.specs.declared.machine.SessionEnd.{SessionEnd};
ghost use Rattle.wb_machine.specs.Replies.{reply_of};
ghost use Rattle.wb_requests.specs.Requests.{request};
ghost use Rattle.wb_seats.specs.Costs.{line_cost};
ghost use Rattle.wb_connections.specs.Door.{left_at, failed_at, reads_at};
ghost use Rattle.wb_seats.specs.Serving.{RepliesIfRead, NothingAsked, IsReadAs};
ghost use Rattle.wb_seats.specs.Words.{IsHeardAs, heard_cost, heard_text};

use crate::cost::{cost_of, cost_of_both, cost_to_answer};
use crate::early::{Settlings, Waiting};
use crate::words::{Answered, AnyWord, Heard, cost_of_word, text_of_word, word_or_why};
use std::alloc::{AllocError, Global};
use std::marker::PhantomData;
use std::sync::Wait;
use wb_arrays::Mover;
use wb_company::Word;
use wb_connections::Door;
use wb_desk::{Desk, Opening, Pass, Turn};
use wb_edit::Refusal;
use wb_lines::{Asks, Holds, Machine, Sink, Source, Tells, serve_turns};
use wb_machine::{Reply, reply_text};
use wb_requests::{Request, read_request};

// What a seat at a desk of this name may answer that is settled so.
struct Seat<L, S> {
    of: PhantomData<(L, S)>,
}

/// Whether a turn may hold the desk's lock, what its lines have cost, and how many they are. Each function of a seat that has the turn
/// take the lock, answer a line, or let the lock go, says so here.
#[derive(Drop)]
pub struct Hold {
    /// Whether it may hold the lock.
    pub is_held: bool,
    /// What its lines have cost.
    pub spent: u64,
    /// How many lines it has answered.
    pub answered: u64,
}

impl Holds for Hold {
    ghost held = { λ h. h.is_held };

    ghost spent = { λ h. h.spent };

    ghost answered = { λ h. h.answered };
}

impl Hold {
    /// What is held and spent of a turn that has not begun: nothing.
    pub fn unspent() -> Hold
        ensures { result ≡ record { is_held = false; spent = 0; answered = 0 } }
    {
        Hold {
            is_held: false,
            spent: 0,
            answered: 0,
        }
    }

    /// The turn may have taken the lock, for a line that cost so much.
    pub fn answer(&mut self, cost: u64)
        requires room { (self.old.spent < cost_limit) × (self.old.answered < turn_limit) }
        requires cost { cost ≤ cost_limit }
        ensures { self.new ≡ record { is_held = true; spent = self.old.spent + cost; answered = self.old.answered + 1 } }
    {
        self.is_held = true;
        self.spent += cost;
        self.answered += 1;
    }

    /// The turn let the lock go, and is over.
    pub fn let_go(&mut self)
        ensures { self.new ≡ record { is_held = false; spent = 0; answered = 0 } }
    {
        self.is_held = false;
        self.spent = 0;
        self.answered = 0;
    }
}

impl<L: Opening, S: Settlings<L>> Machine<Pass<L>> for Seat<L, S> {
    ghost answers = { S.answers };
}

impl<L: Opening, S: Settlings<L>> Asks<Heard<Request>> for Seat<L, S> {
    ghost reads = { IsHeardAs IsReadAs S.hears };
}

impl<L: Opening, S> Tells<Answered<Reply>> for Seat<L, S> {
    ghost text = { heard_text reply_of };
}

// What a line is: its request, or why it is none, or a word for the desk.
fn heard<L: Opening, S: Settlings<L>>(alloc: Global, settlings: &S, line: &[u8]) -> Heard<Request>
    ensures { IsHeardAs IsReadAs S.hears line.now result }
{
    match read_request(alloc, line) {
        Ok(request) => Heard::Asked(Ok(request)),
        Err(why) => match word_or_why::<L, S>(alloc, settlings, line, why) {
            Ok(word) => Heard::Word(AnyWord::new(word)),
            Err(why) => Heard::Asked(Err(why)),
        },
    }
}

// The reply to a line that was read: that of the desk to its request, or why it is none.
fn reply_to<L: Opening, R: Wait, M: Mover>(
    rt: &R,
    turn: &Turn<'_, L>,
    pass: &mut Pass<L>,
    asked: Result<Request, Refusal>,
    mover: &M,
) -> Reply
    ensures { (line : List ℕ) → IsReadAs line asked → RepliesIfRead L.opening pass.old (request line) result pass.new ⊎ NothingAsked pass.old result pass.new }
{
    match asked {
        Ok(request) => turn.call(rt, pass, request, mover),
        Err(why) => Reply::Refused(why),
    }
}

// The reply to a line that was read, and what it cost.
fn answer_asked<L: Opening, S: Settlings<L>, R: Wait, M: Mover>(
    rt: &R,
    turn: &Turn<'_, L>,
    settlings: &S,
    pass: &mut Pass<L>,
    asked: Result<Request, Refusal>,
    mover: &M,
) -> (Reply, u64)
    ensures answers { (line : List ℕ) → IsReadAs line asked → S.answers pass.old line (reply_of result.0) pass.new }
    ensures cost { result.1 ≡ line_cost asked result.0 }
{
    let least = cost_to_answer(&asked);
    let mut waiting = Waiting { rt, turn };
    settlings.before_line(&mut waiting, pass);
    let found = pass.own().len();
    let reply = reply_to(rt, turn, pass, asked, mover);
    settlings.note(pass, found);
    let cost = cost_of_both(least, cost_of(&reply));
    (reply, cost)
}

// What a word is answered at a pass, and what it cost.
fn answer_word<L: Opening, S: Settlings<L>>(
    settlings: &S,
    pass: &Pass<L>,
    word: Word,
) -> (Answered<Reply>, u64)
    ensures answers { (line : List ℕ) → S.hears line word → S.answers pass.now line (heard_text reply_of result.0) pass.now }
    ensures cost { result.1 ≡ heard_cost line_cost (Heard.Word word) result.0 }
{
    match settlings.answer_word(pass, word) {
        Ok(answer) => {
            let cost = cost_of_word(&answer);
            (Answered::Word(answer), cost)
        }
        Err(why) => (Answered::Reply(Reply::Refused(why)), 0),
    }
}

// What a line that was heard is answered, and what it cost.
fn answer_heard<L: Opening, S: Settlings<L>, R: Wait, M: Mover>(
    rt: &R,
    turn: &Turn<'_, L>,
    settlings: &S,
    pass: &mut Pass<L>,
    heard: Heard<Request>,
    mover: &M,
) -> (Answered<Reply>, u64)
    ensures answers { (line : List ℕ) → IsHeardAs IsReadAs S.hears line heard → S.answers pass.old line (heard_text reply_of result.0) pass.new }
    ensures cost { result.1 ≡ heard_cost line_cost heard result.0 }
{
    match heard {
        Heard::Asked(asked) => {
            let (reply, cost) = answer_asked(rt, turn, settlings, pass, asked, mover);
            (Answered::Reply(reply), cost)
        }
        Heard::Word(word) => answer_word(settlings, pass, word.into_word()),
    }
}

/// The text of a reply.
pub fn text_of(alloc: Global, reply: &Reply) -> Result<Vec<u8>, AllocError>
    ensures { IfOk result (λ text. text.items ≡ reply_of reply.now) }
{
    match reply_text(alloc, reply) {
        Ok(text) => Ok(text.into_bytes()),
        Err(_) => Err(AllocError),
    }
}

// The text of a reply, or of what a word is answered.
fn text_of_answered(alloc: Global, told: &Answered<Reply>) -> Result<Vec<u8>, AllocError>
    ensures { IfOk result (λ text. text.items ≡ heard_text reply_of told.now) }
{
    match told {
        Answered::Reply(reply) => text_of(alloc, reply),
        Answered::Word(answer) => text_of_word(alloc, answer),
    }
}

// Answers each line that comes through the door by turns of a seat at a desk, as `serve_seat` does, and gives the pass back.
fn serve_in_turns<L: Opening, S: Settlings<L>, R: Wait, I: Source, O: Sink, M: Mover>(
    rt: &R,
    alloc: Global,
    turn: &Turn<'_, L>,
    settlings: &S,
    pass: Pass<L>,
    door: &mut Door<I>,
    writer: &mut O,
    mover: &M,
) -> Pass<L>
    ensures { (end : SessionEnd)
        × ReadsUntil end (left_at I.remaining door.new) (failed_at I.failed door.new) (reads_at I.reads door.old) (reads_at I.reads door.new)
        × WritesUntil end (O.flushed writer.new) (O.failed writer.new)
        × ((read : List ℕ) × Consumes (left_at I.remaining door.old) (left_at I.remaining door.new) read
        × ((text : List ℕ) × Appends (O.contents writer.old) (O.contents writer.new) text
        × ServesTurns S.answers end pass read (left_at I.remaining door.new) text result)) }
{
    // (each of the functions borrows variables of its own)
    let mut pass = pass;
    let mut hold = Hold::unspent();
    let to_read = alloc;
    let ear = settlings;
    let parse = |line: &[u8]| -> Heard<Request>
        ensures { IsHeardAs IsReadAs S.hears line.now result }
    { heard::<L, S>(to_read, ear, line) };
    let answer = |pass: &mut Pass<L>, hold: &mut Hold, asked: Heard<Request>| -> (
        Answered<Reply>,
        u64,
    )
        requires room { (hold.old.spent < cost_limit) × (hold.old.answered < turn_limit) }
        ensures answers { (line : List ℕ) → IsHeardAs IsReadAs S.hears line asked → S.answers pass.old line (heard_text reply_of result.0) pass.new }
        ensures cost { result.1 ≡ heard_cost line_cost asked result.0 }
        ensures spends { (hold.new.spent ≡ hold.old.spent + result.1) × (hold.new.answered ≡ hold.old.answered + 1) }
    {
        let (told, cost) = answer_heard(rt, turn, settlings, pass, asked, mover);
        hold.answer(cost);
        (told, cost)
    };
    let to_tell = alloc;
    let tell = |_hold: &Hold, told: Answered<Reply>| -> Result<Vec<u8>, AllocError>
        ensures { IfOk result (λ text. text.items ≡ heard_text reply_of told) }
    { text_of_answered(to_tell, &told) };
    let held = turn;
    let let_go = |hold: &mut Hold|
        ensures free { hold.new.is_held ≡ false }
        ensures unspent { (hold.new.spent ≡ 0) × (hold.new.answered ≡ 0) }
    {
        held.let_go_after(hold.answered);
        hold.let_go();
    };
    let _ = serve_turns::<
        Seat<L, S>,
        Pass<L>,
        Hold,
        Heard<Request>,
        Answered<Reply>,
        _,
        _,
        _,
        _,
        Door<I>,
        O,
    >(
        alloc, &mut pass, &mut hold, &parse, &answer, &tell, &let_go, door, writer,
    );
    pass
}

/// Answers each line that comes through the door at a seat of a desk, in order, until the end of input or a fault, and gives the
/// pass back: it writes exactly the texts of the replies, each with a line end, and each the desk's to the pass as it was then, or as an early
/// settlement left it.
/// Lines that lie ahead are read first, and then answered in turns of the lock. A turn ends after 256 lines, or once they have
/// cost 65,536 by the cells that they touched, the numbers that they list and the texts that they print; a reduction is as dear
/// as a whole turn. Texts are made and sent after the lock is let go.
pub fn serve_seat<L: Opening, S: Settlings<L>, R: Wait, I: Source, O: Sink, M: Mover>(
    rt: &R,
    alloc: Global,
    desk: &Desk<L>,
    settlings: &S,
    pass: Pass<L>,
    door: &mut Door<I>,
    writer: &mut O,
    mover: &M,
) -> Pass<L>
    ensures { (end : SessionEnd)
        × ReadsUntil end (left_at I.remaining door.new) (failed_at I.failed door.new) (reads_at I.reads door.old) (reads_at I.reads door.new)
        × WritesUntil end (O.flushed writer.new) (O.failed writer.new)
        × ((read : List ℕ) × Consumes (left_at I.remaining door.old) (left_at I.remaining door.new) read
        × ((text : List ℕ) × Appends (O.contents writer.old) (O.contents writer.new) text
        × ServesTurns S.answers end pass read (left_at I.remaining door.new) text result)) }
{
    let turn = Turn::at(desk);
    let pass = serve_in_turns(rt, alloc, &turn, settlings, pass, door, writer, mover);
    turn.end();
    pass
}
