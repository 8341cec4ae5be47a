//! Lines that are for a desk itself, beside those that are for its workbook.
ghost use Rattle.std.specs.Prelude.{◌≡◌, ◌≢◌, Err, IfOk, MatchResult};
ghost use Rattle.wb_company.specs.Texts.{answer_text};
ghost use Rattle.wb_requests.specs.Requests.{request};
ghost use Rattle.wb_seats.specs.Serving.{IsReadAs};
ghost use Rattle.wb_seats.specs.Words.{word_cost};

use crate::cost::cost_of_many;
use crate::early::Settlings;
use std::alloc::{AllocError, Global};
use std::marker::Model;
use wb_company::{Answer, Word};
use wb_desk::Opening;
use wb_edit::Refusal;

// A thing that was done is about so many bytes of text.
const DOING: u64 = 64;

/// What a line is: what it was read as, or a word for the desk.
#[derive(Drop)]
pub enum Heard<Q> {
    /// A request, or why it is none.
    Asked(Result<Q, Refusal>),
    /// A word for the desk.
    Word(AnyWord),
}

/// A word for the desk, in a form that other enums may hold. Contracts see it as its `Word`.
#[derive(Drop)]
pub struct AnyWord {
    word: Word,
}

impl Model for AnyWord {
    ghost use Rattle.wb_company.specs.declared.words.Word.{Word};

    ghost Value = { Word };

    ghost view = { λ a. a.word };

    ghost inverse = { λ v. record { word = v } };
}

impl AnyWord {
    /// The word, to be held by another value.
    pub fn new(word: Word) -> AnyWord
        ensures { result ≡ word }
    {
        AnyWord { word }
    }

    /// The word.
    pub fn into_word(self) -> Word
        ensures { result ≡ self }
    {
        let AnyWord { word } = self;
        word
    }
}

/// What a line is answered: a reply, or what a word is answered.
#[derive(Drop)]
pub enum Answered<Q> {
    /// A reply.
    Reply(Q),
    /// What a word is answered.
    Word(Answer),
}

/// The word that a line is which is no request for this reason; or why it is none, if it is no word.
pub fn word_or_why<L: Opening, S: Settlings<L>>(
    alloc: Global,
    settlings: &S,
    line: &[u8],
    why: Refusal,
) -> Result<Word, Refusal>
    requires { why ≢ Refusal.NoMemory → request line.now ≡ Err why }
    ensures { MatchResult result (S.hears line.now) (λ cause. IsReadAs line.now (Err cause)) }
{
    match why {
        Refusal::BadRequest => word_or_none::<L, S>(alloc, settlings, line),
        Refusal::BadLiteral
        | Refusal::Refused(_)
        | Refusal::NoSuchEdit
        | Refusal::NotInForce
        | Refusal::InForce
        | Refusal::Blocked(_)
        | Refusal::RefusedInPlace(_)
        | Refusal::NoMemory
        | Refusal::StrangePass => Err(why),
    }
}

// The word that a line is which is no request, if it is one.
fn word_or_none<L: Opening, S: Settlings<L>>(
    alloc: Global,
    settlings: &S,
    line: &[u8],
) -> Result<Word, Refusal>
    requires { request line.now ≡ Err Refusal.BadRequest }
    ensures { MatchResult result (S.hears line.now) (λ cause. IsReadAs line.now (Err cause)) }
{
    match settlings.word_of(alloc, line) {
        Ok(Some(word)) => Ok(word),
        Ok(None) => Err(Refusal::BadRequest),
        Err(_) => Err(Refusal::NoMemory),
    }
}

/// What a word costs by its answer.
pub fn cost_of_word(answer: &Answer) -> u64
    ensures { result ≡ word_cost answer.now }
{
    match answer {
        Answer::Done(told) => cost_of_many(told.doings.len(), DOING),
        Answer::Seat(_) | Answer::Desk(_) => 0,
    }
}

/// The text of what a word is answered.
pub fn text_of_word(alloc: Global, answer: &Answer) -> Result<Vec<u8>, AllocError>
    ensures { IfOk result (λ text. text.items ≡ answer_text answer.now) }
{
    match wb_company::answer_text(alloc, answer) {
        Ok(text) => Ok(text.into_bytes()),
        Err(_) => Err(AllocError),
    }
}
