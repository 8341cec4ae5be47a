// The texts of replies: compact JSON, keys in ascending order.
ghost use Rattle.std.specs.Prelude.{◌≡◌, ◌++◌, codes, IfOk, string_bytes};
ghost use Rattle.serde_json.specs.Data.{object, number, unsigned, string, member, no_members};
ghost use Rattle.serde_json.specs.View.{view};
ghost use Rattle.serde_json.specs.Written.{compact_text};
ghost use Rattle.wb_edit.specs.declared.refusal.Refusal.TheVariants.{Blocked, Refused, RefusedInPlace};
ghost use Rattle.wb_history.specs.declared.query.Answer.TheVariants.{Note as NoteIs};
ghost use Rattle.wb_machine.specs.Printed.{numbers_text, value_text, size_text, locale_text, in_force_text};
ghost use Rattle.wb_machine.specs.Replies.{edit_code, edit_name, code_of, name_of, refusal_data, answer_data, reply_data, reply_of};
ghost use Rattle.wb_machine.specs.declared.replies.reply.Reply.TheVariants.{Printed, PrintedFrom};

use crate::replies::digits::{push_between, push_number};
use crate::replies::explained_text::explained_text;
use crate::replies::numbers_text::{dependents_text, undone_text};
use crate::replies::pieces::piece_text;
use crate::replies::reply::Reply;
use itoa::Integer;
use serde_json::{Value, json};
use std::alloc::{AllocError, Global};
use wb_cells::EditRefusal;
use wb_edit::{Note, Refusal};
use wb_history::Answer;
use wb_range::NoMemory;

// Room for the reply to most lines and its line end, so that it need not grow.
const SHORT: usize = 64;

fn edit_code(refusal: wb_cells::WhyRefused) -> &'static str
    ensures { result.now ≡ edit_code refusal }
{
    match refusal {
        wb_cells::WhyRefused::NameTaken => "E03",
        wb_cells::WhyRefused::NoSuchName => "E04",
        wb_cells::WhyRefused::WrongKind => "E05",
        wb_cells::WhyRefused::OutOfDomain => "E06",
        wb_cells::WhyRefused::OutOfParent => "E07",
        wb_cells::WhyRefused::InUse => "E08",
        wb_cells::WhyRefused::TooLarge => "E09",
        wb_cells::WhyRefused::Overflow => "E10",
        wb_cells::WhyRefused::BadMapping => "E15",
        wb_cells::WhyRefused::NotEmpty => "E17",
        wb_cells::WhyRefused::Empty => "E18",
    }
}

fn edit_name(refusal: wb_cells::WhyRefused) -> &'static str
    ensures { result.now ≡ edit_name refusal }
{
    match refusal {
        wb_cells::WhyRefused::NameTaken => "name-taken",
        wb_cells::WhyRefused::NoSuchName => "no-such-name",
        wb_cells::WhyRefused::WrongKind => "wrong-kind",
        wb_cells::WhyRefused::OutOfDomain => "out-of-domain",
        wb_cells::WhyRefused::OutOfParent => "out-of-parent",
        wb_cells::WhyRefused::InUse => "in-use",
        wb_cells::WhyRefused::TooLarge => "too-large",
        wb_cells::WhyRefused::Overflow => "overflow",
        wb_cells::WhyRefused::BadMapping => "bad-mapping",
        wb_cells::WhyRefused::NotEmpty => "not-empty",
        wb_cells::WhyRefused::Empty => "empty",
    }
}

/// The code of a refusal.
pub(crate) fn code_of(refusal: Refusal) -> &'static str
    ensures { result.now ≡ code_of refusal }
{
    match refusal {
        Refusal::BadRequest => "E01",
        Refusal::BadLiteral => "E02",
        Refusal::Refused(refused) => edit_code(refused.why),
        Refusal::NoSuchEdit => "E11",
        Refusal::NotInForce => "E12",
        Refusal::InForce => "E13",
        Refusal::Blocked(_) => "E14",
        Refusal::RefusedInPlace(_) => "E16",
        Refusal::NoMemory => "E90",
        Refusal::StrangePass => "E92",
    }
}

/// The name of a refusal.
pub(crate) fn name_of(refusal: Refusal) -> &'static str
    ensures { result.now ≡ name_of refusal }
{
    match refusal {
        Refusal::BadRequest => "bad-request",
        Refusal::BadLiteral => "bad-literal",
        Refusal::Refused(refused) => edit_name(refused.why),
        Refusal::NoSuchEdit => "no-such-edit",
        Refusal::NotInForce => "not-in-force",
        Refusal::InForce => "in-force",
        Refusal::Blocked(_) => "blocked",
        Refusal::RefusedInPlace(_) => "refused-in-place",
        Refusal::NoMemory => "no-memory",
        Refusal::StrangePass => "strange-pass",
    }
}

// The object of a refusal by its code and name alone.
fn named_value(alloc: Global, error: &str, name: &str) -> Result<Value, AllocError>
    ensures { IfOk result (λ v. view v ≡ object (member (codes "error") (string error.now) (member (codes "name") (string name.now) no_members))) }
{
    json!(in alloc; {"error": error, "name": name})
}

// The object of a refused transaction, by the place of its command.
fn placed_value(alloc: Global, at: u64, error: &str, name: &str) -> Result<Value, AllocError>
    ensures { IfOk result (λ v. view v ≡ object (member (codes "at") (number (unsigned at))
        (member (codes "error") (string error.now) (member (codes "name") (string name.now) no_members)))) }
{
    json!(in alloc; {"at": at, "error": error, "name": name})
}

// The object of a refused edit.
fn refused_value(alloc: Global, refused: EditRefusal) -> Result<Value, AllocError>
    ensures { IfOk result (λ v. view v ≡ refusal_data (Refused refused)) }
{
    let error = edit_code(refused.why);
    let name = edit_name(refused.why);
    match refused.at {
        Some(at) => placed_value(alloc, at as u64, error, name),
        None => named_value(alloc, error, name),
    }
}

// The object of a blocked undo or redo, by its blocker.
fn blocked_value(alloc: Global, by: u64) -> Result<Value, AllocError>
    ensures { IfOk result (λ v. view v ≡ refusal_data (Blocked by)) }
{
    json!(in alloc; {"by": by, "error": "E14", "name": "blocked"})
}

// The object of a redo of a transaction which is refused in its place, by the place of its command and the code of why.
fn placed_in_place_value(alloc: Global, at: u64, code: &str) -> Result<Value, AllocError>
    ensures { IfOk result (λ v. view v ≡ object (member (codes "at") (number (unsigned at)) (member (codes "code") (string code.now)
        (member (codes "error") (string (codes "E16")) (member (codes "name") (string (codes "refused-in-place")) no_members))))) }
{
    json!(in alloc; {"at": at, "code": code, "error": "E16", "name": "refused-in-place"})
}

// The object of a redo which is refused in its place, by the code of why.
fn in_place_value(alloc: Global, code: &str) -> Result<Value, AllocError>
    ensures { IfOk result (λ v. view v ≡ object (member (codes "code") (string code.now)
        (member (codes "error") (string (codes "E16")) (member (codes "name") (string (codes "refused-in-place")) no_members)))) }
{
    json!(in alloc; {"code": code, "error": "E16", "name": "refused-in-place"})
}

fn refused_in_place_value(alloc: Global, refused: EditRefusal) -> Result<Value, AllocError>
    ensures { IfOk result (λ v. view v ≡ refusal_data (RefusedInPlace refused)) }
{
    let code = edit_code(refused.why);
    match refused.at {
        Some(at) => placed_in_place_value(alloc, at as u64, code),
        None => in_place_value(alloc, code),
    }
}

fn refusal_value(alloc: Global, refusal: Refusal) -> Result<Value, AllocError>
    ensures { IfOk result (λ v. view v ≡ refusal_data refusal) }
{
    match refusal {
        Refusal::Blocked(by) => blocked_value(alloc, by),
        Refusal::RefusedInPlace(refused) => refused_in_place_value(alloc, refused),
        Refusal::Refused(refused) => refused_value(alloc, refused),
        Refusal::BadRequest
        | Refusal::BadLiteral
        | Refusal::NoSuchEdit
        | Refusal::NotInForce
        | Refusal::InForce
        | Refusal::NoMemory
        | Refusal::StrangePass => named_value(alloc, code_of(refusal), name_of(refusal)),
    }
}

fn refusal_text(alloc: Global, refusal: Refusal) -> Result<String, AllocError>
    ensures { IfOk result (λ s. string_bytes s ≡ compact_text (refusal_data refusal)) }
{
    let value = refusal_value(alloc, refusal)?;
    value.to_string(alloc)
}

// The object of two numbers, each behind what stands before it, written without a value of it in between.
fn numbers_text<N: Integer>(
    alloc: Global,
    first: &str,
    a: u64,
    second: &str,
    b: N,
) -> Result<String, AllocError>
    ensures { IfOk result (λ s. string_bytes s ≡ numbers_text first.now a second.now (N.text b)) }
{
    let mut text = String::with_capacity(alloc, SHORT)?;
    push_between(&mut text, first, a, second)?;
    push_number(&mut text, b)?;
    text.push_str("}")?;
    Ok(text)
}

// The object of a number behind what stands before it.
fn number_text<N: Integer>(alloc: Global, before: &str, number: N) -> Result<String, AllocError>
    ensures { IfOk result (λ s. string_bytes s ≡ before.now ++ (N.text number ++ codes "}")) }
{
    let mut text = String::with_capacity(alloc, SHORT)?;
    push_between(&mut text, before, number, "}")?;
    Ok(text)
}

// The object of an element.
fn value_text(alloc: Global, value: i64) -> Result<String, AllocError>
    ensures { IfOk result (λ s. string_bytes s ≡ value_text value) }
{
    number_text(alloc, "{\"value\":", value)
}

// The object of a number of indices.
fn size_text(alloc: Global, size: u64) -> Result<String, AllocError>
    ensures { IfOk result (λ s. string_bytes s ≡ size_text size) }
{
    number_text(alloc, "{\"size\":", size)
}

// The object of a locale.
fn locale_text(alloc: Global, locale: u64) -> Result<String, AllocError>
    ensures { IfOk result (λ s. string_bytes s ≡ locale_text locale) }
{
    number_text(alloc, "{\"locale\":", locale)
}

fn in_force_text(alloc: Global, in_force: bool) -> Result<String, AllocError>
    ensures { IfOk result (λ s. string_bytes s ≡ in_force_text in_force) }
{
    if in_force {
        String::from_str(alloc, "{\"in_force\":true}")
    } else {
        String::from_str(alloc, "{\"in_force\":false}")
    }
}

// The object of a note, or of none.
fn note_value(alloc: Global, note: &Option<Note>) -> Result<Value, AllocError>
    ensures { IfOk result (λ v. view v ≡ answer_data (NoteIs note.now)) }
{
    match note {
        Some(note) => json!(in alloc; {"note": note.as_str()}),
        None => json!(in alloc; {"note": null}),
    }
}

fn note_text(alloc: Global, note: &Option<Note>) -> Result<String, AllocError>
    ensures { IfOk result (λ s. string_bytes s ≡ compact_text (answer_data (NoteIs note.now))) }
{
    let value = note_value(alloc, note)?;
    value.to_string(alloc)
}

fn answer_text(alloc: Global, answer: &Answer) -> Result<String, AllocError>
    ensures { IfOk result (λ s. string_bytes s ≡ compact_text (answer_data answer.now)) }
{
    match answer {
        Answer::Value(value) => value_text(alloc, *value),
        Answer::Size(size) => size_text(alloc, *size as u64),
        Answer::Locale(locale) => locale_text(alloc, *locale as u64),
        Answer::Piece(piece) => piece_text(alloc, piece),
        Answer::InForce(in_force) => in_force_text(alloc, *in_force),
        Answer::Note(note) => note_text(alloc, note),
    }
}

// The object of the text of a workbook.
fn printed_value(alloc: Global, text: &str) -> Result<Value, AllocError>
    ensures { IfOk result (λ v. view v ≡ reply_data (Printed text.now)) }
{
    json!(in alloc; {"text": text})
}

fn printed_text(alloc: Global, text: &str) -> Result<String, AllocError>
    ensures { IfOk result (λ s. string_bytes s ≡ reply_of (Printed text.now)) }
{
    let value = printed_value(alloc, text)?;
    value.to_string(alloc)
}

// The object of how many edits there are, and the lines of some.
fn printed_from_value(alloc: Global, edits: u64, text: &str) -> Result<Value, AllocError>
    ensures { IfOk result (λ v. view v ≡ reply_data (PrintedFrom edits text.now)) }
{
    json!(in alloc; {"edits": edits, "text": text})
}

fn printed_from_text(alloc: Global, edits: u64, text: &str) -> Result<String, AllocError>
    ensures { IfOk result (λ s. string_bytes s ≡ reply_of (PrintedFrom edits text.now)) }
{
    let value = printed_from_value(alloc, edits, text)?;
    value.to_string(alloc)
}

#[tactic(auto, using(crate::proofs::Texts::edited_is, crate::proofs::Texts::undone_is, crate::proofs::Texts::cascaded_is, crate::proofs::Texts::redone_is, crate::proofs::Texts::listed_is, crate::proofs::Texts::counted_is))]
fn text_of(alloc: Global, reply: &Reply) -> Result<String, AllocError>
    ensures { IfOk result (λ s. string_bytes s ≡ reply_of reply.now) }
{
    match reply {
        Reply::Edited(edit, n) => numbers_text(alloc, "{\"edit\":", *edit, ",\"n\":", *n as u64),
        Reply::Undone(edit, n) => numbers_text(alloc, "{\"n\":", *n as u64, ",\"undone\":", *edit),
        Reply::Cascaded(edits, n) => undone_text(alloc, *n as u64, edits),
        Reply::Redone(edit, n) => numbers_text(alloc, "{\"n\":", *n as u64, ",\"redone\":", *edit),
        Reply::Listed(edits) => dependents_text(alloc, edits),
        Reply::Answered(answer) => answer_text(alloc, answer),
        Reply::Printed(text) => printed_text(alloc, text.as_str()),
        Reply::PrintedFrom(edits, text) => printed_from_text(alloc, *edits, text.as_str()),
        Reply::Counted(edits, writes) => {
            numbers_text(alloc, "{\"edits\":", *edits, ",\"writes\":", *writes)
        }
        Reply::Explained(wrong) => explained_text(alloc, wrong),
        Reply::Refused(refusal) => refusal_text(alloc, *refusal),
    }
}

/// The text of a reply, without a line end: compact JSON (RFC 8259) with its keys in ascending order.
pub fn reply_text(alloc: Global, reply: &Reply) -> Result<String, NoMemory>
    ensures { IfOk result (λ s. string_bytes s ≡ reply_of reply.now) }
{
    Ok(text_of(alloc, reply)?)
}
