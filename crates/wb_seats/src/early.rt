//! How a seat is served: when it is settled, with its desk or early too; and which words for the desk are heard there.
ghost use Rattle.std.specs.Prelude.{◌≡◌, true};
ghost use Rattle.wb_seats.specs.Early.{IsSettledEarly, IsSettledFrom, kept_limit};
ghost use Rattle.wb_seats.specs.Words.{IsSaidTo};

use crate::cost::cost_of_last;
use std::alloc::Global;
use std::marker::PhantomData;
use std::sync::Wait;
use wb_company::{Answer, Company, Deed, Word, read_word};
use wb_desk::{Desk, Difference, Opening, Pass, Turn};
use wb_edit::Refusal;
use wb_machine::Reply;
use wb_range::NoMemory;

/// So many entries has a pass at least whose seat is settled before its next line.
const KEPT_LIMIT: usize = 64;

/// A reply that tells of so many bytes is let go before the next line.
const LONG_REPLY: u64 = 4_096;

/// So many entries has a pass at least whose seat is settled once its connection ended.
pub const LEFT_LIMIT: usize = 1;

/// A turn at a desk in which a seat can be settled early.
pub trait CanSettle<L: Opening> {
    ghost use Rattle.std.specs.Prelude.{◌≡◌, true};
    ghost use Rattle.wb_seats.specs.Early.{IsSettledEarly};

    /// Settles the seat of a pass early, or tells where the pass and the desk first differ.
    fn settle(&mut self, pass: &mut Pass<L>) -> Option<Difference>
        requires { L.opening.early ≡ true }
        ensures { IsSettledEarly L.seats L.opening pass.old result pass.new };
}

/// When a seat is settled that is served, and which words for the desk are heard there.
pub trait Settlings<L: Opening> {
    ghost use Rattle.std.specs.Prelude.{◌≡◌, ℕ, List, Err, IfOk, IfSome};
    ghost use Rattle.wb_company.specs.declared.words.Word.{Word};
    ghost use Rattle.wb_desk.specs.Serving.{Held};
    ghost use Rattle.wb_edit.specs.declared.refusal.Refusal.TheVariants.{BadRequest};
    ghost use Rattle.wb_requests.specs.Requests.{request};
    ghost use Rattle.wb_seats.specs.Serving.{AnswersSeat};
    ghost use Rattle.wb_seats.specs.Words.{said_text};

    /// A line is answered to a pass with this text, and the pass is another one then.
    ghost answers: { Held → List ℕ → List ℕ → Held → Type 0 };

    /// What is done before a line, in the turn that answers it.
    fn before_line<T: CanSettle<L>>(&self, turn: &mut T, pass: &mut Pass<L>)
        ensures { (line text : List ℕ) (k : Held) → AnswersSeat L.opening pass.new line text k → answers pass.old line text k };

    /// A line is heard as this word for the desk.
    ghost hears: { List ℕ → Word → Type 0 };

    /// The word that a line is heard as which is no request of the protocol, if it is one.
    fn word_of(&self, alloc: Global, line: &[u8]) -> Result<Option<Word>, NoMemory>
        requires { request line.now ≡ Err BadRequest }
        ensures { IfOk result (λ o. IfSome o (hears line.now)) };

    /// What a word is answered at a pass, or why it is refused. Nothing is done to the pass.
    fn answer_word(&self, pass: &Pass<L>, word: Word) -> Result<Answer, Refusal>
        ensures { (line : List ℕ) → hears line word → answers pass.now line (said_text result) pass.now };

    /// Notes what was done by a line, which found so many entries in the pass.
    fn note(&self, pass: &Pass<L>, found: usize);
}

/// With its desk alone: a line finds the pass as the one before it left it, and no line is a word for the desk.
#[derive(Clone, Copy)]
pub struct WithItsDesk;

impl<L: Opening> Settlings<L> for WithItsDesk {
    ghost use Rattle.wb_seats.specs.Serving.{AnswersSeat};

    ghost answers = { AnswersSeat L.opening };

    fn before_line<T: CanSettle<L>>(&self, _turn: &mut T, _pass: &mut Pass<L>) {}

    ghost hears = { λ line w. ⊥ };

    fn word_of(&self, _alloc: Global, _line: &[u8]) -> Result<Option<Word>, NoMemory> {
        Ok(None)
    }

    fn answer_word(&self, _pass: &Pass<L>, _word: Word) -> Result<Answer, Refusal> {
        Err(Refusal::BadRequest)
    }

    fn note(&self, _pass: &Pass<L>, _found: usize) {}
}

/// That seats may be settled early, as the opening of a desk allows: once a connection ended that leaves any entry, and by `Staying`.
#[derive(Drop)]
pub struct Early<L: Opening> {
    of: PhantomData<L>,
    ghost allowed: { L.opening.early ≡ true },
}

impl<L: Opening> Early<L> {
    /// At a desk whose opening allows it.
    pub fn allowed() -> Early<L>
        requires { L.opening.early ≡ true }
    {
        Early { of: PhantomData }
    }

    /// Settles the seat of a pass whose connection ended, or tells where the pass and the desk first differ.
    pub fn settle_left<R: Wait>(
        &self,
        rt: &R,
        desk: &Desk<L>,
        pass: &mut Pass<L>,
    ) -> Option<Difference>
        ensures { IsSettledFrom 1 L.seats L.opening pass.old result pass.new }
    {
        if pass.own().len() < LEFT_LIMIT {
            return None;
        }
        match desk.settle_seat(rt, pass) {
            Ok(_) => None,
            Err(why) => Some(why),
        }
    }
}

// How many entries a pass has at least whose seat is settled before its next line: 64, or one, where its last reply tells of much.
fn kept_limit<L: Opening>(pass: &Pass<L>) -> usize
    ensures { result ≡ kept_limit pass.now.own }
{
    if cost_of_last(pass) >= LONG_REPLY {
        1
    } else {
        KEPT_LIMIT
    }
}

// Settles the seat of a pass with so many entries or more. Another stays as it is.
fn settle_from<L: Opening, T: CanSettle<L>>(
    limit: usize,
    turn: &mut T,
    pass: &mut Pass<L>,
) -> Option<Difference>
    requires { L.opening.early ≡ true }
    ensures { IsSettledFrom limit L.seats L.opening pass.old result pass.new }
{
    if pass.own().len() < limit {
        return None;
    }
    turn.settle(pass)
}

/// At a desk that stays: a seat is settled early too, before each line that finds 64 entries or more, or a last reply that tells of much.
/// Its connection may say its name, and ask who did what and how the desk stands.
#[derive(Drop)]
pub struct Staying<'c, L: Opening, R> {
    rt: &'c R,
    company: &'c Company,
    of: PhantomData<L>,
    ghost allowed: { L.opening.early ≡ true },
}

impl<'c, L: Opening, R> Staying<'c, L, R> {
    /// At a desk whose opening allows it, by who is at it.
    pub fn of(rt: &'c R, early: &Early<L>, company: &'c Company) -> Staying<'c, L, R> {
        // (only a desk whose opening allows it is settled early)
        let _ = early;
        Staying {
            rt,
            company,
            of: PhantomData,
        }
    }
}

impl<'c, L: Opening, R: Wait> Settlings<L> for Staying<'c, L, R> {
    ghost use Rattle.wb_seats.specs.Words.{AnswersStaying, IsWord};

    ghost answers = { AnswersStaying L.seats L.opening };

    fn before_line<T: CanSettle<L>>(&self, turn: &mut T, pass: &mut Pass<L>) {
        // (a difference is told again once the connection ended)
        let _ = settle_from(kept_limit(pass), turn, pass);
    }

    ghost hears = { IsWord };

    fn word_of(&self, alloc: Global, line: &[u8]) -> Result<Option<Word>, NoMemory> {
        read_word(alloc, line)
    }

    fn answer_word(&self, pass: &Pass<L>, word: Word) -> Result<Answer, Refusal> {
        answer_at(self.rt, self.company, pass.seat(), word)
    }

    fn note(&self, pass: &Pass<L>, found: usize) {
        if pass.own().len() > found {
            note_last(self.rt, self.company, pass);
        }
    }
}

// What a word is answered at a seat. A connection says its name once.
fn answer_at<R: Wait>(rt: &R, company: &Company, seat: usize, word: Word) -> Result<Answer, Refusal>
    ensures { IsSaidTo seat word result }
{
    match word {
        Word::Hello(name) => match company.hello(rt, seat, name) {
            true => Ok(Answer::Seat(seat)),
            false => Err(Refusal::BadRequest),
        },
        Word::EditsFrom(from) => match company.since(rt, from) {
            Ok(told) => Ok(Answer::Done(told)),
            Err(_) => Err(Refusal::NoMemory),
        },
        Word::Desk => match company.standing(rt) {
            Ok(desk) => Ok(Answer::Desk(desk)),
            Err(_) => Err(Refusal::NoMemory),
        },
    }
}

// Notes what the line did whose entry is the last of a pass.
fn note_last<L: Opening, R: Wait>(rt: &R, company: &Company, pass: &Pass<L>) {
    let Some(last) = pass.own().last() else {
        return;
    };
    let (seat, entries) = (pass.seat(), pass.own().len() as u64);
    match last.reply() {
        Reply::Edited(number, _) => company.note(rt, seat, entries, Deed::Edited, &[*number]),
        Reply::Undone(number, _) => company.note(rt, seat, entries, Deed::Undone, &[*number]),
        Reply::Redone(number, _) => company.note(rt, seat, entries, Deed::Redone, &[*number]),
        Reply::Cascaded(numbers, _) => {
            company.note(rt, seat, entries, Deed::Undone, numbers.as_slice())
        }
        Reply::Listed(_)
        | Reply::Answered(_)
        | Reply::Printed(_)
        | Reply::PrintedFrom(_, _)
        | Reply::Explained(_)
        | Reply::Counted(_, _)
        | Reply::Refused(_) => company.note(rt, seat, entries, Deed::Edited, &[]),
    }
}

/// A turn at a desk, which waits for the desk's lock.
#[derive(Drop)]
pub(crate) struct Waiting<'t, 'd, L: Opening, R: Wait> {
    pub(crate) rt: &'t R,
    pub(crate) turn: &'t Turn<'d, L>,
}

impl<'t, 'd, L: Opening, R: Wait> CanSettle<L> for Waiting<'t, 'd, L, R> {
    fn settle(&mut self, pass: &mut Pass<L>) -> Option<Difference> {
        match self.turn.settle_seat(self.rt, pass) {
            Ok(_) => None,
            Err(why) => Some(why),
        }
    }
}
