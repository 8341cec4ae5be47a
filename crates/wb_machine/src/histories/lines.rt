//! The edits of a history's text, read from its last line up.
ghost use Rattle.std.specs.Prelude.{◌≡◌, ℕ, ◌+◌, ◌<◌, List, [], ◌∷◌, ◌++◌, length, drop, reverse, IfOk, IfSome, OnOk, Some, Ok, option_map, codes};
ghost use Rattle.wb_edit.specs.declared.edit.Edit as command;
ghost use Rattle.wb_history.specs.Restored.{marked};
ghost use Rattle.wb_requests.specs.Requests.{request};
ghost use Rattle.wb_requests.specs.declared.requests.request.Request.TheVariants.{Change};
ghost use Rattle.wb_machine.specs.Histories.Text.{AreAsked};
ghost use Rattle.wb_machine.specs.Histories.Lines.{IsLastLine, marked_at, ReadsEdits, ReadsHistory};

use memchr::memrchr;
use std::alloc::Global;
use wb_edit::{Edit, Refusal};
use wb_literals::after;
use wb_range::NoMemory;
use wb_requests::{Request, read_request};

fn after_place(bytes: &[u8], at: usize) -> &[u8]
    requires { at < length bytes.now }
    ensures { result.now ≡ drop (at + 1) bytes.now }
{
    &bytes[at + 1..]
}

// What comes before the last line end, and the line after it.
fn last_line(bytes: &[u8]) -> Option<(&[u8], &[u8])>
    ensures { IsLastLine bytes.now (option_map (λ x. (x.0.now, x.1.now)) result) }
{
    match memrchr(b'\n', bytes) {
        Some(at) => Some((&bytes[..at], after_place(bytes, at))),
        None => None,
    }
}

/// The mark of an edit's line, and what follows it; other lines have none.
pub fn marked_at(line: &[u8]) -> Option<(bool, &[u8])>
    ensures { option_map (λ x. (x.0, x.1.now)) result ≡ marked_at line.now }
{
    if let Some(rest) = after(b"+ ", line) {
        return Some((true, rest));
    }
    let rest = after(b"- ", line)?;
    Some((false, rest))
}

/// The edit that a line asks for; none where it asks for something else, or is not read.
pub fn edit_of(alloc: Global, line: &[u8]) -> Result<Option<Edit>, NoMemory>
    ensures read { IfOk result (λ r. (e : command.Edit) → request line.now ≡ Ok (Change e) → r ≡ Some e) }
    ensures asked { IfOk result (λ r. IfSome r (λ e. request line.now ≡ Ok (Change e))) }
{
    match read_request(alloc, line) {
        Ok(Request::Change(edit)) => Ok(Some(edit)),
        Ok(
            Request::Undo(_)
            | Request::Redo(_)
            | Request::Cascade(_)
            | Request::Dependents(_)
            | Request::Ask(_)
            | Request::Print
            | Request::History(_)
            | Request::Edits
            | Request::Explain(_),
        ) => Ok(None),
        Err(Refusal::NoMemory) => Err(NoMemory),
        Err(
            Refusal::BadRequest
            | Refusal::BadLiteral
            | Refusal::Refused(_)
            | Refusal::NoSuchEdit
            | Refusal::NotInForce
            | Refusal::InForce
            | Refusal::Blocked(_)
            | Refusal::RefusedInPlace(_)
            | Refusal::StrangePass,
        ) => Ok(None),
    }
}

fn reversed(mut edits: Vec<(Edit, bool)>) -> Vec<(Edit, bool)>
    ensures { result.items ≡ reverse edits.items }
{
    edits.reverse();
    edits
}

fn keep(edits: &mut Vec<(Edit, bool)>, edit: Edit, in_force: bool) -> Result<(), NoMemory>
    ensures { OnOk result (edits.new.items ≡ edits.old.items ++ (edit, in_force) ∷ []) }
{
    edits.push((edit, in_force))?;
    Ok(())
}

// The edits of the last lines, up to one without a mark.
fn edits_below(alloc: Global, bytes: &[u8]) -> Result<Option<Vec<(Edit, bool)>>, NoMemory>
    ensures read { IfOk result (λ r. ReadsEdits bytes.now (option_map (λ v. marked v.items) r)) }
    ensures asked { IfOk result (λ r. IfSome r (λ v. AreAsked (marked v.items))) }
{
    let mut edits = Vec::new(alloc);
    let mut rest = bytes;
    while let Some((before, line)) = last_line(rest) {
        let Some((in_force, request)) = marked_at(line) else {
            return Ok(Some(reversed(edits)));
        };
        let Some(edit) = edit_of(alloc, request)? else {
            return Ok(None);
        };
        keep(&mut edits, edit, in_force)?;
        rest = before;
    }
    Ok(None)
}

// What comes before the last two line ends.
fn without_end(bytes: &[u8]) -> Option<&[u8]>
    ensures { (front : List ℕ) → bytes.now ≡ front ++ codes "\nend\n" → option_map (λ x. x.now) result ≡ Some front }
{
    match last_line(bytes) {
        Some((ended, _)) => match last_line(ended) {
            Some((front, _)) => Some(front),
            None => None,
        },
        None => None,
    }
}

/// The edits of the text of a history, each with its mark.
///
/// Those of the text of every history are read, and each that is read was asked for by its line. Other texts may be read
/// too: to know whether a text is a history's, print the history that the edits make, and compare.
pub(crate) fn read_edits(alloc: Global, text: &str) -> Result<Option<Vec<(Edit, bool)>>, NoMemory>
    ensures read { IfOk result (λ r. ReadsHistory text.now (option_map (λ v. marked v.items) r)) }
    ensures asked { IfOk result (λ r. IfSome r (λ v. AreAsked (marked v.items))) }
{
    match without_end(text.as_bytes()) {
        Some(bytes) => edits_below(alloc, bytes),
        None => Ok(None),
    }
}
