ghost use Rattle.std.specs.Prelude.{◌≡◌, None, IfOk};
ghost use Rattle.std.specs.Bool.{Decides};
ghost use Rattle.wb_cells.specs.WellFormed.{IsWellFormed};
ghost use Rattle.wb_edit.specs.Trees.{plain};
ghost use Rattle.wb_edit.specs.declared.refusal.Refusal.TheVariants.{Refused};
ghost use Rattle.wb_history.specs.Queries.{element_or_implicit, get_answer, value_answer, size_answer, count_answer, force_answer};

use crate::piece::Piece;
use std::alloc::Global;
use wb_book::Book;
use wb_cells::{AnyIndex, Cell, EditRefusal, Kind, Name};
use wb_edit::{Note, Refusal, element_or_refusal, has_implicit, judgements, parent_in};
use wb_range::NoMemory;

/// What a query is answered.
#[derive(Debug, Drop)]
pub enum Answer {
    /// An element, or a reduction.
    Value(i64),
    /// How many indices there are.
    Size(usize),
    /// A locale.
    Locale(usize),
    /// The elements on a locale.
    Piece(Piece),
    /// Whether an edit is in force.
    InForce(bool),
    /// The note of an edit, if it has one.
    Note(Option<Note>),
}

impl Answer {
    /// An equal answer, or `NoMemory`.
    pub fn copy(&self, alloc: Global) -> Result<Answer, NoMemory>
        ensures { IfOk result (λ a. a ≡ self.now) }
    {
        match self {
            Answer::Value(value) => Ok(Answer::Value(*value)),
            Answer::Size(size) => Ok(Answer::Size(*size)),
            Answer::Locale(locale) => Ok(Answer::Locale(*locale)),
            Answer::Piece(piece) => Ok(Answer::Piece(piece.copy(alloc)?)),
            Answer::InForce(in_force) => Ok(Answer::InForce(*in_force)),
            Answer::Note(note) => Ok(Answer::Note(Note::copied(alloc, note.as_ref())?)),
        }
    }

    /// Whether the answers are equal.
    pub fn is_same(&self, other: &Answer) -> bool
        ensures { Decides result (self.now ≡ other.now) }
    {
        match (self, other) {
            (Answer::Value(value), Answer::Value(by)) => *value == *by,
            (Answer::Size(size), Answer::Size(by)) => *size == *by,
            (Answer::Locale(locale), Answer::Locale(by)) => *locale == *by,
            (Answer::Piece(piece), Answer::Piece(by)) => piece.is_same(by),
            (Answer::InForce(in_force), Answer::InForce(by)) => *in_force == *by,
            (Answer::Note(note), Answer::Note(by)) => Note::are_same(note, by),
            _ => false,
        }
    }
}

/// The element at an index of an array, or why there is none. One that is there is found by one search.
pub(crate) fn element_of(
    book: &Book,
    array: &Name,
    index: &AnyIndex,
) -> Result<i64, wb_cells::WhyRefused>
    requires { IsWellFormed book.now.cells }
    ensures { result ≡ get_answer book.now.cells array.now index.now }
{
    match book.element(array, index) {
        Some(number) => Ok(number),
        None => looked_up(book, *array, *index),
    }
}

// The same by a look at the array, at its element, and where that is not there, at what stands for it.
fn looked_up(book: &Book, array: Name, index: AnyIndex) -> Result<i64, wb_cells::WhyRefused>
    ensures { result ≡ get_answer book.now.cells array index }
{
    let (domain, kind) = judgements::array_kind(book.get(&Cell::Object(array)))?;
    judgements::fits(kind, index)?;
    match book.get(&Cell::Element(array, index)) {
        Some(value) => element_or_refusal(Some(value)),
        None => implicit_value(book, array, domain, kind, index),
    }
}

// The implicit value of an array over a sparse domain, at an index of its parent.
fn implicit_value(
    book: &Book,
    array: Name,
    domain: Name,
    kind: Kind,
    index: AnyIndex,
) -> Result<i64, wb_cells::WhyRefused>
    ensures { result ≡ element_or_implicit book.now.cells array domain kind index None }
{
    has_implicit(&kind)?;
    let parent = parent_in(book.get(&Cell::Object(domain)))?;
    judgements::is_there(book.get(&Cell::In(parent, index)))?;
    element_or_refusal(book.get(&Cell::Implicit(array)))
}

/// How many indices a domain has, or why there is none.
pub(crate) fn size_of(book: &Book, domain: Name) -> Result<usize, wb_cells::WhyRefused>
    ensures { result ≡ size_answer book.now.cells domain }
{
    judgements::domain_kind(book.get(&Cell::Object(domain)))?;
    Ok(book.size(&domain).unwrap_or(0))
}

/// Why a question has no answer.
pub(crate) fn refused(why: wb_cells::WhyRefused) -> Refusal
    ensures { result ≡ Refused (plain why) }
{
    Refusal::Refused(EditRefusal { why, at: None })
}

pub(crate) fn value_answer(found: Result<i64, wb_cells::WhyRefused>) -> Result<Answer, Refusal>
    ensures { result ≡ value_answer found }
{
    match found {
        Ok(value) => Ok(Answer::Value(value)),
        Err(why) => Err(refused(why)),
    }
}

pub(crate) fn count_answer(found: Result<usize, wb_cells::WhyRefused>) -> Result<Answer, Refusal>
    ensures { result ≡ count_answer found }
{
    match found {
        Ok(count) => Ok(Answer::Size(count)),
        Err(why) => Err(refused(why)),
    }
}

pub(crate) fn force_answer(found: Option<bool>) -> Result<Answer, Refusal>
    ensures { result ≡ force_answer found }
{
    match found {
        Some(in_force) => Ok(Answer::InForce(in_force)),
        None => Err(Refusal::NoSuchEdit),
    }
}
