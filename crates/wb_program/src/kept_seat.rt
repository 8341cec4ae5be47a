//! A seat at a desk whose changes are kept, as what answers lines: a reply is told only after the changes of its turn are in the
//! file.
ghost use Rattle.std.specs.Prelude.{◌≡◌, ◌⊎◌, ◌+◌, ◌<◌, ℕ, List, true, false, IfOk, IfSome};
ghost use Rattle.std.specs.Io.KnownBytes.{Appends, Consumes};
ghost use Rattle.wb_lines.specs.Causes.{ReadsUntil, WritesUntil};
ghost use Rattle.wb_lines.specs.Turns.{ServesTurns, cost_limit, turn_limit};
ghost use Rattle.wb_lines.specs.declared.machine.SessionEnd.{SessionEnd};
ghost use Rattle.wb_company.specs.Texts.{answer_text};
ghost use Rattle.wb_machine.specs.Replies.{reply_of};
ghost use Rattle.wb_seats.specs.Costs.{asked_cost, kept_line_cost};
ghost use Rattle.wb_seats.specs.Early.{IsSettledFrom};
ghost use Rattle.wb_connections.specs.Door.{left_at, failed_at, reads_at};
ghost use Rattle.wb_seats.specs.Serving.{AnswersSeat, IsReadAs};
ghost use Rattle.wb_seats.specs.Words.{IsHeardAs, heard_cost, heard_text};
ghost use Rattle.wb_program.specs.KeptSeats.{FailsOnce, told_text};

use std::alloc::{AllocError, Global};
use std::cell::Cell;
use std::marker::{Model, PhantomData};
use std::sync::atomic::AtomicBool;
use std::sync::atomic::Ordering::SeqCst;
use std::sync::{Mutex, Wait};
use wb_arrays::Mover;
use wb_company::{Answer, Word};
use wb_connections::Door;
use wb_desk::{Difference, Pass};
use wb_edit::Refusal;
use wb_keep::disk::Device;
use wb_kept_seats::{CommitErr, Desk, KeptOpening, Receipt, Said, Sealed, SettleErr, Turn};
use wb_lines::{Asks, Machine, Sink, Source, Tells, serve_turns};
use wb_machine::Reply;
use wb_seats::{
    Answered, AnyWord, CanSettle, Early, Heard, Hold, LEFT_LIMIT, Settlings, cost_of_both,
    cost_of_last, cost_of_request, cost_of_word, text_of, text_of_word, word_or_why,
};

/// Whether a commit was refused since the file failed.
#[derive(Drop)]
pub struct Failing<D: Device> {
    has_failed: bool,
    of: PhantomData<D>,
}

impl<D: Device> Model for Failing<D> {
    ghost use Rattle.std.specs.Prelude.{◌≡◌, Bool, true};
    ghost use Rattle.wb_program.specs.KeptSeats.{FailsOnce};

    ghost Value = { Bool };

    ghost view = { λ f. f.has_failed };

    ghost invariant = { λ f. f.has_failed ≡ true → FailsOnce D.faults };
}

impl<D: Device> Failing<D> {
    // No commit was refused.
    fn not_yet() -> Failing<D>
        ensures { result ≡ false }
    {
        Failing {
            has_failed: false,
            of: PhantomData,
        }
    }

    // A commit was refused, since the file failed.
    fn noted() -> Failing<D>
        requires { FailsOnce D.faults }
    {
        Failing {
            has_failed: true,
            of: PhantomData,
        }
    }

    /// Whether a commit was refused since the file failed, after a desk was not settled for this cause.
    pub(crate) fn after(self, cause: SettleErr) -> Failing<D>
        requires { cause ≡ SettleErr.NotKept CommitErr.DiskFault → FailsOnce D.faults }
    {
        match cause {
            SettleErr::NotKept(CommitErr::DiskFault) => Failing::noted(),
            SettleErr::NotKept(CommitErr::NoMemory)
            | SettleErr::NotKept(CommitErr::Closed)
            | SettleErr::Passes(_) => self,
        }
    }

    /// Whether a commit was refused since the file failed.
    pub fn has_failed(&self) -> bool
        ensures { result ≡ true → FailsOnce D.faults }
    {
        self.has_failed
    }
}

/// A desk whose changes are kept, whether its file has failed, and whether it keeps nothing more.
#[derive(Drop)]
pub struct KeptDesk<L: KeptOpening, D: Device + Drop> {
    desk: Desk<L, D>,
    failing: Mutex<Failing<D>>,
    is_shut: AtomicBool,
}

impl<L: KeptOpening, D: Device + Drop> KeptDesk<L, D> {
    /// A desk whose file has not failed.
    pub fn of(desk: Desk<L, D>) -> KeptDesk<L, D> {
        KeptDesk {
            desk,
            failing: Mutex::new(Failing::not_yet()),
            is_shut: AtomicBool::new(false),
        }
    }

    /// The desk, and whether its file has failed.
    pub(crate) fn into_parts(self) -> (Desk<L, D>, Failing<D>) {
        let KeptDesk {
            desk,
            failing,
            is_shut: _,
        } = self;
        (desk, failing.into_inner())
    }

    /// Whether a turn could not be kept, for whatever cause, so that no later one is.
    pub(crate) fn is_shut(&self) -> bool {
        self.is_shut.load(SeqCst)
    }

    /// Settles the seat of a pass whose connection ended, in a turn of its own, or tells where the pass and the desk first differ.
    pub fn settle_left<R: Wait>(
        &self,
        rt: &R,
        early: &Early<L>,
        pass: &mut Pass<L>,
    ) -> Option<Difference>
        ensures { IsSettledFrom 1 L.seats L.opening pass.old result pass.new }
    {
        // (only a desk whose opening allows it is settled early)
        let _ = early;
        if pass.own().len() < LEFT_LIMIT {
            return None;
        }
        let mut under_way = self.turn(rt);
        let told = under_way.settle(pass);
        end_turn(Some(under_way));
        told
    }

    // A turn at the desk, with its lock.
    fn turn<R: Wait>(&self, rt: &R) -> UnderWay<'_, L> {
        UnderWay {
            turn: self.desk.turn(rt),
        }
    }

    // Notes why nothing more is kept, where the file is the cause.
    fn note<R: Wait>(&self, rt: &R, why: CommitErr)
        requires { why ≡ CommitErr.DiskFault → FailsOnce D.faults }
    {
        match why {
            CommitErr::DiskFault => {
                let mut failing = self.failing.lock(rt);
                *failing = Failing::noted();
            }
            CommitErr::NoMemory | CommitErr::Closed => {}
        }
    }

    // Ends a turn, which lets the desk's lock go, and waits until its changes are kept. The receipt opens its replies; where they
    // can't be kept there is none.
    fn keep<R: Wait>(&self, rt: &R, turn: Turn<'_, L>) -> Option<Receipt<L, D>> {
        let front = match turn.end() {
            Ok(front) => front,
            Err(CommitErr::Closed) => {
                self.is_shut.store(true, SeqCst);
                return None;
            }
            // (without memory the changes come to the next turn)
            Err(CommitErr::NoMemory) | Err(CommitErr::DiskFault) => return None,
        };
        match self.desk.keep(rt, front) {
            Ok(receipt) => Some(receipt),
            Err(why) => {
                self.is_shut.store(true, SeqCst);
                self.note(rt, why);
                None
            }
        }
    }
}

// A turn at the desk, which has its lock. It has to be ended.
struct UnderWay<'d, L: KeptOpening> {
    turn: Turn<'d, L>,
}

impl<'d, L: KeptOpening> CanSettle<L> for UnderWay<'d, L> {
    fn settle(&mut self, pass: &mut Pass<L>) -> Option<Difference> {
        match self.turn.settle_seat(pass) {
            Ok(_) => None,
            Err(why) => Some(why),
        }
    }
}

// The turns of a seat, one after another. Each takes the desk's lock for its first line, and holds it until it is let go. Of the
// last that was let go there is a receipt, if it was kept.
struct Turns<'d, L: KeptOpening, D: Device + Drop> {
    desk: &'d KeptDesk<L, D>,
    under_way: Cell<Option<UnderWay<'d, L>>>,
    receipt: Cell<Option<Receipt<L, D>>>,
}

// A reply that the desk sealed, or why a line is no request.
type Told<L> = Result<Sealed<L, Reply>, Refusal>;

// What a seat at a desk of this name may answer that is settled so.
struct KeptSeat<L, S> {
    of: PhantomData<(L, S)>,
}

impl<L: KeptOpening, S: Settlings<L>> Machine<Pass<L>> for KeptSeat<L, S> {
    ghost answers = { S.answers };
}

impl<L: KeptOpening, S: Settlings<L>> Asks<Heard<Said>> for KeptSeat<L, S> {
    ghost reads = { IsHeardAs IsReadAs S.hears };
}

impl<L: KeptOpening, S> Tells<Answered<Result<Sealed<L, Reply>, Refusal>>> for KeptSeat<L, S> {
    ghost text = { heard_text told_text };
}

// Ends a turn, if one is under way, and lets the desk's lock go.
fn end_turn<L: KeptOpening>(under_way: Option<UnderWay<'_, L>>) {
    if let Some(UnderWay { turn }) = under_way {
        let _ = turn.end();
    }
}

// What it costs to answer what a line was read as, where that can be kept, beyond what the reply tells of.
fn cost_to_answer_said(asked: &Result<Said, Refusal>) -> u64
    ensures { result ≡ asked_cost asked.now }
{
    match asked {
        Ok(said) => cost_of_request(said.request()),
        Err(_) => 0,
    }
}

// The reply to a line that was read: that of the desk to its request, sealed, or why it is none.
fn reply_in<L: KeptOpening, M: Mover>(
    turn: &mut Turn<'_, L>,
    pass: &mut Pass<L>,
    asked: Result<Said, Refusal>,
    mover: &M,
) -> Told<L>
    ensures { (line : List ℕ) → IsReadAs line asked → AnswersSeat L.opening pass.old line (told_text result) pass.new }
{
    match asked {
        Ok(said) => Ok(turn.call(pass, said, mover)),
        Err(why) => Err(why),
    }
}

impl<'d, L: KeptOpening, D: Device + Drop> Turns<'d, L, D> {
    // The turns at a desk, of which none is under way.
    fn at(desk: &'d KeptDesk<L, D>) -> Turns<'d, L, D> {
        Turns {
            desk,
            under_way: Cell::new(None),
            receipt: Cell::new(None),
        }
    }

    // The reply to a line that was read, in the turn that is under way or in a new one, and what it cost.
    fn answer<S: Settlings<L>, R: Wait, M: Mover>(
        &self,
        rt: &R,
        settlings: &S,
        pass: &mut Pass<L>,
        asked: Result<Said, Refusal>,
        mover: &M,
    ) -> (Told<L>, u64)
        ensures answers { (line : List ℕ) → IsReadAs line asked → S.answers pass.old line (told_text result.0) pass.new }
        ensures cost { result.1 ≡ kept_line_cost asked pass.new.own }
    {
        let least = cost_to_answer_said(&asked);
        let mut under_way = match self.under_way.take() {
            Some(under_way) => under_way,
            None => self.desk.turn(rt),
        };
        settlings.before_line(&mut under_way, pass);
        let found = pass.own().len();
        let told = reply_in(&mut under_way.turn, pass, asked, mover);
        settlings.note(pass, found);
        end_turn(self.under_way.replace(Some(under_way)));
        let cost = cost_of_both(least, cost_of_last(pass));
        (told, cost)
    }

    // What a word is answered at a pass, in the turn that is under way or in a new one, and what it cost.
    fn answer_word<S: Settlings<L>, R: Wait>(
        &self,
        rt: &R,
        settlings: &S,
        pass: &Pass<L>,
        word: Word,
    ) -> (Answered<Told<L>>, u64)
        ensures answers { (line : List ℕ) → S.hears line word → S.answers pass.now line (heard_text told_text result.0) pass.now }
        ensures cost { result.1 ≡ heard_cost (λ asked told. kept_line_cost asked pass.now.own) (Heard.Word word) result.0 }
    {
        let under_way = match self.under_way.take() {
            Some(under_way) => under_way,
            None => self.desk.turn(rt),
        };
        let said = settlings.answer_word(pass, word);
        end_turn(self.under_way.replace(Some(under_way)));
        match said {
            Ok(answer) => {
                let cost = cost_of_word(&answer);
                (Answered::Word(answer), cost)
            }
            Err(why) => (Answered::Reply(Err(why)), 0),
        }
    }

    // What a line that was heard is answered, and what it cost.
    fn answer_heard<S: Settlings<L>, R: Wait, M: Mover>(
        &self,
        rt: &R,
        settlings: &S,
        pass: &mut Pass<L>,
        heard: Heard<Said>,
        mover: &M,
    ) -> (Answered<Told<L>>, u64)
        ensures answers { (line : List ℕ) → IsHeardAs IsReadAs S.hears line heard → S.answers pass.old line (heard_text told_text result.0) pass.new }
        ensures cost { result.1 ≡ heard_cost (λ asked told. kept_line_cost asked pass.new.own) heard result.0 }
    {
        match heard {
            Heard::Asked(asked) => {
                let (told, cost) = self.answer(rt, settlings, pass, asked, mover);
                (Answered::Reply(told), cost)
            }
            Heard::Word(word) => self.answer_word(rt, settlings, pass, word.into_word()),
        }
    }

    // Lets the lock go, if it is held, and waits until what the replies tell of is kept. Where it can't be, no receipt is left.
    fn let_go<R: Wait>(&self, rt: &R) {
        let receipt = match self.under_way.take() {
            None => None,
            Some(UnderWay { turn }) => self.desk.keep(rt, turn),
        };
        self.receipt.set(receipt);
    }

    // The text of a reply, where its turn was kept.
    fn text(&self, alloc: Global, told: Told<L>) -> Result<Vec<u8>, AllocError>
        ensures { IfOk result (λ text. text.items ≡ told_text told) }
    {
        let Some(receipt) = self.receipt.take() else {
            return Err(AllocError);
        };
        let reply = opened(&receipt, told);
        self.receipt.set(Some(receipt));
        match reply {
            Some(reply) => text_of(alloc, &reply),
            None => Err(AllocError),
        }
    }

    // The text of a reply, or of what a word is answered, where its turn was kept.
    fn text_of_answered(
        &self,
        alloc: Global,
        told: Answered<Told<L>>,
    ) -> Result<Vec<u8>, AllocError>
        ensures { IfOk result (λ text. text.items ≡ heard_text told_text told) }
    {
        match told {
            Answered::Reply(told) => self.text(alloc, told),
            Answered::Word(answer) => self.word_text(alloc, &answer),
        }
    }

    // The text of what a word is answered, where its turn was kept.
    fn word_text(&self, alloc: Global, answer: &Answer) -> Result<Vec<u8>, AllocError>
        ensures { IfOk result (λ text. text.items ≡ answer_text answer.now) }
    {
        let Some(receipt) = self.receipt.take() else {
            return Err(AllocError);
        };
        self.receipt.set(Some(receipt));
        text_of_word(alloc, answer)
    }

    // Ends the turn that is under way, if one is.
    fn end(self) {
        let Turns {
            desk: _,
            under_way,
            receipt: _,
        } = self;
        end_turn(under_way.into_inner());
    }
}

// A reply, where its turn was kept.
fn opened<L: KeptOpening, D: Device + Drop>(receipt: &Receipt<L, D>, told: Told<L>) -> Option<Reply>
    ensures { IfSome result (λ reply. told_text told ≡ reply_of reply) }
{
    match told {
        Ok(sealed) => match receipt.open(sealed) {
            Ok(reply) => Some(reply),
            Err(_) => None,
        },
        Err(why) => Some(Reply::Refused(why)),
    }
}

// What a line is: its request, or why it is none, or a word for the desk.
fn heard<L: KeptOpening, S: Settlings<L>>(alloc: Global, settlings: &S, line: &[u8]) -> Heard<Said>
    ensures { IsHeardAs IsReadAs S.hears line.now result }
{
    match Said::read(alloc, line) {
        Ok(said) => Heard::Asked(Ok(said)),
        Err(why) => match word_or_why::<L, S>(alloc, settlings, line, why) {
            Ok(word) => Heard::Word(AnyWord::new(word)),
            Err(why) => Heard::Asked(Err(why)),
        },
    }
}

// Answers each line that is read, in turns at the desk, of which none is under way yet.
fn serve_in_kept_turns<
    L: KeptOpening,
    S: Settlings<L>,
    D: Device + Drop,
    R: Wait,
    I: Source,
    O: Sink,
    M: Mover,
>(
    rt: &R,
    alloc: Global,
    turns: &Turns<'_, L, D>,
    settlings: &S,
    pass: Pass<L>,
    door: &mut Door<I>,
    writer: &mut O,
    mover: &M,
) -> Pass<L>
    ensures { (end : SessionEnd)
        × ReadsUntil end (left_at I.remaining door.new) (failed_at I.failed door.new) (reads_at I.reads door.old) (reads_at I.reads door.new)
        × WritesUntil end (O.flushed writer.new) (O.failed writer.new)
        × ((read : List ℕ) × Consumes (left_at I.remaining door.old) (left_at I.remaining door.new) read
        × ((text : List ℕ) × Appends (O.contents writer.old) (O.contents writer.new) text
        × ServesTurns S.answers end pass read (left_at I.remaining door.new) text result)) }
{
    // (each of the functions borrows variables of its own)
    let mut pass = pass;
    let mut hold = Hold::unspent();
    let to_read = alloc;
    let ear = settlings;
    let parse = |line: &[u8]| -> Heard<Said>
        ensures { IsHeardAs IsReadAs S.hears line.now result }
    { heard::<L, S>(to_read, ear, line) };
    let answer = |pass: &mut Pass<L>, hold: &mut Hold, asked: Heard<Said>| -> (
        Answered<Told<L>>,
        u64,
    )
        requires room { (hold.old.spent < cost_limit) × (hold.old.answered < turn_limit) }
        ensures answers { (line : List ℕ) → IsHeardAs IsReadAs S.hears line asked → S.answers pass.old line (heard_text told_text result.0) pass.new }
        ensures cost { result.1 ≡ heard_cost (λ asked told. kept_line_cost asked pass.new.own) asked result.0 }
        ensures spends { (hold.new.spent ≡ hold.old.spent + result.1) × (hold.new.answered ≡ hold.old.answered + 1) }
    {
        let (told, cost) = turns.answer_heard(rt, settlings, pass, asked, mover);
        hold.answer(cost);
        (told, cost)
    };
    let to_tell = alloc;
    let kept = turns;
    let tell = |_hold: &Hold, told: Answered<Told<L>>| -> Result<Vec<u8>, AllocError>
        ensures { IfOk result (λ text. text.items ≡ heard_text told_text told) }
    { kept.text_of_answered(to_tell, told) };
    let held = turns;
    let at = rt;
    let let_go = |hold: &mut Hold|
        ensures free { hold.new.is_held ≡ false }
        ensures unspent { (hold.new.spent ≡ 0) × (hold.new.answered ≡ 0) }
    {
        held.let_go(at);
        hold.let_go();
    };
    let _ = serve_turns::<
        KeptSeat<L, S>,
        Pass<L>,
        Hold,
        Heard<Said>,
        Answered<Told<L>>,
        _,
        _,
        _,
        _,
        Door<I>,
        O,
    >(
        alloc, &mut pass, &mut hold, &parse, &answer, &tell, &let_go, door, writer,
    );
    pass
}

/// Answers each line that comes through the door at a seat of a desk whose changes are kept, as `serve_seat` does at another: it
/// writes exactly the texts of the replies, each with a line end, and each the desk's to the pass as it was then. The changes of
/// a turn are in the file before its replies are made texts. Where they can't be kept, nothing more is told, and the session ends.
pub(crate) fn serve_kept_seat<
    L: KeptOpening,
    S: Settlings<L>,
    D: Device + Drop,
    R: Wait,
    I: Source,
    O: Sink,
    M: Mover,
>(
    rt: &R,
    alloc: Global,
    desk: &KeptDesk<L, D>,
    settlings: &S,
    pass: Pass<L>,
    door: &mut Door<I>,
    writer: &mut O,
    mover: &M,
) -> Pass<L>
    ensures { (end : SessionEnd)
        × ReadsUntil end (left_at I.remaining door.new) (failed_at I.failed door.new) (reads_at I.reads door.old) (reads_at I.reads door.new)
        × WritesUntil end (O.flushed writer.new) (O.failed writer.new)
        × ((read : List ℕ) × Consumes (left_at I.remaining door.old) (left_at I.remaining door.new) read
        × ((text : List ℕ) × Appends (O.contents writer.old) (O.contents writer.new) text
        × ServesTurns S.answers end pass read (left_at I.remaining door.new) text result)) }
{
    let turns = Turns::at(desk);
    let pass = serve_in_kept_turns(rt, alloc, &turns, settlings, pass, door, writer, mover);
    turns.end();
    pass
}
