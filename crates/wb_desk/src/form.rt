//! The forms in which entries are kept: in few bytes, by the place of a name in a table, or whole.

ghost use Rattle.std.specs.Prelude.{◌≡◌, ◌<◌, ◌&&◌, ℕ, List, length, None, false, IfSome};
ghost use Rattle.wb_history.specs.declared.query.Answer.TheVariants as answers;
ghost use Rattle.wb_machine.specs.declared.replies.reply.Reply.TheVariants as replies;
ghost use Rattle.wb_desk.specs.Asked.{plain_request, reply_at, request_at};
ghost use Rattle.wb_desk.specs.Briefs.{request_of, is_new_value};
ghost use Rattle.wb_desk.specs.Records.{IsWithin, is_edited, lent_entry, name_at, shown};
ghost use Rattle.wb_desk.specs.Serving.{entry};

use crate::at_index::{Told, of_edit, reply_at, request_at};
use crate::brief::{Brief, request_of};
use crate::entry::{Entry, LentEntry, LineReply};
use crate::plain::{Plain, plain_request};
use std::alloc::Global;
use std::sync::Arc;
use wb_arrays::Op;
use wb_cells::{AnyIndex, EditRefusal, Name, WhyRefused};
use wb_edit::{Query, Refusal};
use wb_history::Answer;
use wb_machine::Reply;
use wb_requests::Request;

/// How an entry is kept. A name is its place in a table; the seat is that of the list. What takes memory of its own is kept once
/// for two lists.
#[derive(Drop)]
pub(crate) enum Form {
    /// A new value at an integer, the number of its edit, and how many cells that changed.
    Set(u16, i64, i64, u64, usize),
    /// A new value at a pair, the number of its edit, and how many cells that changed.
    SetPair(u16, i32, i32, i64, u64, usize),
    /// The element at an integer.
    Get(u16, i64, i64),
    /// The element at a pair.
    GetPair(u16, i64, i64, i64),
    /// The element at a triple.
    GetTriple(u16, i64, i64, i64, i64),
    /// The locale of an integer.
    Where(u16, i64, usize),
    /// The locale of a pair.
    WherePair(u16, i64, i64, usize),
    /// The locale of a triple.
    WhereTriple(u16, i64, i64, i64, usize),
    /// How many indices there are.
    Size(u16, usize),
    /// A reduction, and its value.
    Reduce(u16, Op, i64),
    /// The number of an edit, and whether it is in force.
    State(u64, bool),
    /// How many edits there are, and how many cells were set.
    Count(u64, u64),
    /// What was asked of a name, and why it was refused.
    Denied(u16, WhyRefused, Brief),
    /// A question at an index that isn't brief, and its answer.
    AtIndex(u16, Told, Arc<AnyIndex, Global>),
    /// The elements on a locale.
    OnLocale(u16, u64, Arc<Reply, Global>),
    /// A question of no name, and why it was refused.
    Unanswered(Plain, Refusal),
    /// A question of no name, and its reply.
    Replied(Plain, Arc<Reply, Global>),
    /// A line that was asked about, and the reply.
    OfLine(Arc<LineReply, Global>),
    /// Any entry, in one list alone.
    Alone(Box<Entry>),
    /// Any entry, in two lists.
    Shared(Arc<Entry, Global>),
}

// A new value that was accepted.
fn edited_form(place: u16, brief: &Brief, number: &u64, count: &usize) -> Option<Form>
    ensures shown { IfSome result (λ f. (seat : ℕ) (names : List (List ℕ)) → shown seat names f ≡ entry seat (request_of (name_at names place) brief.now) (replies.Edited number.now count.now)) }
    ensures within { IfSome result (λ f. (most : ℕ) → place < most → IsWithin most f) }
    ensures none { result ≡ None → is_new_value brief.now ≡ false }
{
    match brief {
        Brief::Set(i, value) => Some(Form::Set(place, *i, *value, *number, *count)),
        Brief::SetPair(i, j, value) => {
            Some(Form::SetPair(place, *i, *j, *value, *number, *count))
        }
        Brief::Get(_)
        | Brief::GetPair(_, _)
        | Brief::GetTriple(_, _, _)
        | Brief::Where(_)
        | Brief::WherePair(_, _)
        | Brief::WhereTriple(_, _, _)
        | Brief::Size
        | Brief::Reduce(_)
        | Brief::Piece(_) => None,
    }
}

// A question that was answered by a value.
fn value_form(place: u16, brief: &Brief, value: &i64) -> Option<Form>
    ensures shown { IfSome result (λ f. (seat : ℕ) (names : List (List ℕ)) → shown seat names f ≡ entry seat (request_of (name_at names place) brief.now) (replies.Answered (answers.Value value.now))) }
    ensures within { IfSome result (λ f. (most : ℕ) → place < most → IsWithin most f) }
{
    match brief {
        Brief::Get(i) => Some(Form::Get(place, *i, *value)),
        Brief::GetPair(i, j) => Some(Form::GetPair(place, *i, *j, *value)),
        Brief::GetTriple(i, j, k) => Some(Form::GetTriple(place, *i, *j, *k, *value)),
        Brief::Reduce(op) => Some(Form::Reduce(place, *op, *value)),
        Brief::Set(_, _)
        | Brief::SetPair(_, _, _)
        | Brief::Where(_)
        | Brief::WherePair(_, _)
        | Brief::WhereTriple(_, _, _)
        | Brief::Size
        | Brief::Piece(_) => None,
    }
}

// A question that was answered by a locale.
fn locale_form(place: u16, brief: &Brief, locale: &usize) -> Option<Form>
    ensures shown { IfSome result (λ f. (seat : ℕ) (names : List (List ℕ)) → shown seat names f ≡ entry seat (request_of (name_at names place) brief.now) (replies.Answered (answers.Locale locale.now))) }
    ensures within { IfSome result (λ f. (most : ℕ) → place < most → IsWithin most f) }
{
    match brief {
        Brief::Where(i) => Some(Form::Where(place, *i, *locale)),
        Brief::WherePair(i, j) => Some(Form::WherePair(place, *i, *j, *locale)),
        Brief::WhereTriple(i, j, k) => Some(Form::WhereTriple(place, *i, *j, *k, *locale)),
        Brief::Set(_, _)
        | Brief::SetPair(_, _, _)
        | Brief::Get(_)
        | Brief::GetPair(_, _)
        | Brief::GetTriple(_, _, _)
        | Brief::Size
        | Brief::Reduce(_)
        | Brief::Piece(_) => None,
    }
}

// A question that was answered by a number of indices.
fn size_form(place: u16, brief: &Brief, size: &usize) -> Option<Form>
    ensures shown { IfSome result (λ f. (seat : ℕ) (names : List (List ℕ)) → shown seat names f ≡ entry seat (request_of (name_at names place) brief.now) (replies.Answered (answers.Size size.now))) }
    ensures within { IfSome result (λ f. (most : ℕ) → place < most → IsWithin most f) }
{
    match brief {
        Brief::Size => Some(Form::Size(place, *size)),
        Brief::Set(_, _)
        | Brief::SetPair(_, _, _)
        | Brief::Get(_)
        | Brief::GetPair(_, _)
        | Brief::GetTriple(_, _, _)
        | Brief::Where(_)
        | Brief::WherePair(_, _)
        | Brief::WhereTriple(_, _, _)
        | Brief::Reduce(_)
        | Brief::Piece(_) => None,
    }
}

// A question that was answered.
fn answered_form(place: u16, brief: &Brief, answer: &Answer) -> Option<Form>
    ensures shown { IfSome result (λ f. (seat : ℕ) (names : List (List ℕ)) → shown seat names f ≡ entry seat (request_of (name_at names place) brief.now) (replies.Answered answer.now)) }
    ensures within { IfSome result (λ f. (most : ℕ) → place < most → IsWithin most f) }
{
    match answer {
        Answer::Value(value) => value_form(place, brief, value),
        Answer::Locale(locale) => locale_form(place, brief, locale),
        Answer::Size(size) => size_form(place, brief, size),
        Answer::Piece(_) | Answer::InForce(_) | Answer::Note(_) => None,
    }
}

// What was asked, and why it was refused.
fn denied_form(place: u16, brief: &Brief, why: &Refusal) -> Option<Form>
    ensures shown { IfSome result (λ f. (seat : ℕ) (names : List (List ℕ)) → shown seat names f ≡ entry seat (request_of (name_at names place) brief.now) (replies.Refused why.now)) }
    ensures within { IfSome result (λ f. (most : ℕ) → place < most → IsWithin most f) }
{
    match why {
        Refusal::Refused(EditRefusal { why, at: None }) => Some(Form::Denied(place, *why, *brief)),
        Refusal::Refused(_)
        | Refusal::BadRequest
        | Refusal::BadLiteral
        | Refusal::NoSuchEdit
        | Refusal::NotInForce
        | Refusal::InForce
        | Refusal::Blocked(_)
        | Refusal::RefusedInPlace(_)
        | Refusal::NoMemory
        | Refusal::StrangePass => None,
    }
}

/// What was asked of the name at a place of a table, and its reply, in few bytes. An accepted new value always is.
pub(crate) fn form_of(place: u16, brief: &Brief, reply: &Reply) -> Option<Form>
    ensures shown { IfSome result (λ f. (seat : ℕ) (names : List (List ℕ)) → shown seat names f ≡ entry seat (request_of (name_at names place) brief.now) reply.now) }
    ensures within { IfSome result (λ f. (most : ℕ) → place < most → IsWithin most f) }
    ensures none { result ≡ None → (is_edited reply.now && is_new_value brief.now) ≡ false }
{
    match reply {
        Reply::Edited(number, count) => edited_form(place, brief, number, count),
        Reply::Answered(answer) => answered_form(place, brief, answer),
        Reply::Refused(why) => denied_form(place, brief, why),
        Reply::Undone(_, _)
        | Reply::Cascaded(_, _)
        | Reply::Redone(_, _)
        | Reply::Listed(_)
        | Reply::Printed(_)
        | Reply::PrintedFrom(_, _)
        | Reply::Counted(_, _)
        | Reply::Explained(_) => None,
    }
}

// How many edits there are, and how many cells were set, if both are below 2^64.
fn count_form(plain: &Plain, edits: &u64, writes: &u128) -> Option<Form>
    ensures shown { IfSome result (λ f. (seat : ℕ) (names : List (List ℕ)) → shown seat names f ≡ entry seat (plain_request plain.now) (replies.Counted edits.now writes.now)) }
    ensures within { IfSome result (λ f. (most : ℕ) → IsWithin most f) }
{
    match plain {
        Plain::Edits => match u64::try_from(*writes) {
            Ok(writes) => Some(Form::Count(*edits, writes)),
            Err(_) => None,
        },
        Plain::State(_)
        | Plain::Dependents(_)
        | Plain::Print
        | Plain::History
        | Plain::HistoryFrom(_) => None,
    }
}

// Whether an edit is in force.
fn state_form(plain: &Plain, answer: &Answer) -> Option<Form>
    ensures shown { IfSome result (λ f. (seat : ℕ) (names : List (List ℕ)) → shown seat names f ≡ entry seat (plain_request plain.now) (replies.Answered answer.now)) }
    ensures within { IfSome result (λ f. (most : ℕ) → IsWithin most f) }
{
    match (plain, answer) {
        (Plain::State(number), Answer::InForce(in_force)) => Some(Form::State(*number, *in_force)),
        _ => None,
    }
}

/// A question that is of no name and of no line, and its reply, in few bytes.
pub(crate) fn nameless_form(plain: &Plain, reply: &Reply) -> Option<Form>
    ensures shown { IfSome result (λ f. (seat : ℕ) (names : List (List ℕ)) → shown seat names f ≡ entry seat (plain_request plain.now) reply.now) }
    ensures within { IfSome result (λ f. (most : ℕ) → IsWithin most f) }
{
    match reply {
        Reply::Refused(why) => Some(Form::Unanswered(*plain, *why)),
        Reply::Answered(answer) => state_form(plain, answer),
        Reply::Counted(edits, writes) => count_form(plain, edits, writes),
        Reply::Edited(_, _)
        | Reply::Undone(_, _)
        | Reply::Cascaded(_, _)
        | Reply::Redone(_, _)
        | Reply::Listed(_)
        | Reply::Printed(_)
        | Reply::PrintedFrom(_, _)
        | Reply::Explained(_) => None,
    }
}

// The name at a place of a table.
fn name_at(names: &[Name], place: u16) -> Name
    requires { place < length names.now }
    ensures { result ≡ name_at names.now place }
{
    names[place as usize]
}

// An entry of what was asked of a name.
fn made(seat: usize, name: Name, brief: Brief, reply: Reply) -> Entry
    ensures { result ≡ entry seat (request_of name brief) reply }
{
    let request = request_of(name, &brief);
    Entry {
        seat,
        request,
        reply,
    }
}

// An entry of an accepted new value.
fn edited(seat: usize, name: Name, brief: Brief, number: u64, count: usize) -> Entry
    ensures { result ≡ entry seat (request_of name brief) (replies.Edited number count) }
{
    made(seat, name, brief, Reply::Edited(number, count))
}

// An entry of a question that was answered by a value.
fn valued(seat: usize, name: Name, brief: Brief, value: &i64) -> Entry
    ensures { result ≡ entry seat (request_of name brief) (replies.Answered (answers.Value value.now)) }
{
    made(seat, name, brief, Reply::Answered(Answer::Value(*value)))
}

// An entry of a question that was answered by a locale.
fn located(seat: usize, name: Name, brief: Brief, locale: usize) -> Entry
    ensures { result ≡ entry seat (request_of name brief) (replies.Answered (answers.Locale locale)) }
{
    made(seat, name, brief, Reply::Answered(Answer::Locale(locale)))
}

// An entry of a question of no name that was refused.
fn unanswered(seat: usize, plain: &Plain, why: Refusal) -> Entry
    ensures { result ≡ entry seat (plain_request plain.now) (replies.Refused why) }
{
    Entry {
        seat,
        request: plain_request(plain),
        reply: Reply::Refused(why),
    }
}

// An entry of a question at an index.
fn asked_at(seat: usize, name: Name, at: &AnyIndex, told: &Told) -> Entry
    ensures { result ≡ entry seat (request_at name at.now told.now) (reply_at told.now) }
{
    Entry {
        seat,
        request: request_at(name, at, told),
        reply: reply_at(told),
    }
}

/// The entry that a form of a seat stands for, by a table of names.
pub(crate) fn shown<'f>(seat: usize, names: &[Name], form: &'f Form) -> LentEntry<'f>
    requires { IsWithin (length names.now) form.now }
    ensures { lent_entry result ≡ shown seat names.now form.now }
{
    match form {
        Form::Set(place, i, value, number, count) => {
            let brief = Brief::Set(*i, *value);
            LentEntry::Own(edited(seat, name_at(names, *place), brief, *number, *count))
        }
        Form::SetPair(place, i, j, value, number, count) => {
            let brief = Brief::SetPair(*i, *j, *value);
            LentEntry::Own(edited(seat, name_at(names, *place), brief, *number, *count))
        }
        Form::Get(place, i, value) => {
            LentEntry::Own(valued(seat, name_at(names, *place), Brief::Get(*i), value))
        }
        Form::GetPair(place, i, j, value) => {
            let brief = Brief::GetPair(*i, *j);
            LentEntry::Own(valued(seat, name_at(names, *place), brief, value))
        }
        Form::GetTriple(place, i, j, k, value) => {
            let brief = Brief::GetTriple(*i, *j, *k);
            LentEntry::Own(valued(seat, name_at(names, *place), brief, value))
        }
        Form::Where(place, i, locale) => {
            LentEntry::Own(located(seat, name_at(names, *place), Brief::Where(*i), *locale))
        }
        Form::WherePair(place, i, j, locale) => {
            let brief = Brief::WherePair(*i, *j);
            LentEntry::Own(located(seat, name_at(names, *place), brief, *locale))
        }
        Form::WhereTriple(place, i, j, k, locale) => {
            let brief = Brief::WhereTriple(*i, *j, *k);
            LentEntry::Own(located(seat, name_at(names, *place), brief, *locale))
        }
        Form::Size(place, size) => {
            let reply = Reply::Answered(Answer::Size(*size));
            LentEntry::Own(made(seat, name_at(names, *place), Brief::Size, reply))
        }
        Form::Reduce(place, op, value) => {
            let brief = Brief::Reduce(*op);
            LentEntry::Own(valued(seat, name_at(names, *place), brief, value))
        }
        Form::State(number, in_force) => LentEntry::Own(Entry {
            seat,
            request: Request::Ask(Query::State(*number)),
            reply: Reply::Answered(Answer::InForce(*in_force)),
        }),
        Form::Count(edits, writes) => LentEntry::Own(Entry {
            seat,
            request: Request::Edits,
            reply: Reply::Counted(*edits, u128::from(*writes)),
        }),
        Form::Denied(place, why, brief) => {
            let reply = Reply::Refused(of_edit(*why));
            LentEntry::Own(made(seat, name_at(names, *place), *brief, reply))
        }
        Form::AtIndex(place, told, at) => {
            LentEntry::Own(asked_at(seat, name_at(names, *place), at, told))
        }
        Form::OnLocale(place, locale, reply) => {
            let request = request_of(name_at(names, *place), &Brief::Piece(*locale));
            LentEntry::Replied(seat, request, reply)
        }
        Form::Unanswered(plain, why) => LentEntry::Own(unanswered(seat, plain, *why)),
        Form::Replied(plain, reply) => LentEntry::Replied(seat, plain_request(plain), reply),
        Form::OfLine(told) => LentEntry::OfLine(seat, told),
        Form::Alone(entry) => LentEntry::Lent(entry),
        Form::Shared(entry) => LentEntry::Lent(entry),
    }
}
