//! Where a text that begins and ends as one of ours is no history's.
ghost use Rattle.std.specs.Prelude.{◌≡◌, ◌+◌, ◌≤◌, ℕ, List, [], ◌∷◌, ◌++◌, true, false, length, drop, IfOk, IfSome, IfNone, string_bytes};
ghost use Rattle.wb_edit.specs.declared.edit.Edit as command;
ghost use Rattle.wb_history.specs.Past.{Numbered};
ghost use Rattle.wb_history.specs.Restored.{one_of, BeginsNone};
ghost use Rattle.wb_lines.specs.Lines.{ended, IsUnbroken};
ghost use Rattle.wb_machine.specs.Histories.Text.{mark, said, IsSaid};
ghost use Rattle.wb_sessions.specs.Places.{line_ends, HasNoCount, LeavesBehind, StandsBelow, WhyAltered};

use crate::reasons::Reason;
use memchr::{memchr, memchr_iter, memmem};
use std::alloc::Global;
use wb_arrays::Mover;
use wb_edit::Edit;
use wb_history::{History, RestoreErr, put_in};
use wb_machine::histories::{edit_of, marked_at};
use wb_range::NoMemory;
use wb_requests::encoding::edit_text;

// What the line begins with that counts the edits, with the line end before it.
const COUNT_WORD: &[u8] = b"\nhistory ";

// The last line of a text of ours.
const LAST_LINE: &[u8] = b"end\n";

// What stands behind the first so many bytes.
fn behind(bytes: &[u8], at: usize) -> &[u8]
    requires { at ≤ length bytes.now }
    ensures { result.now ≡ drop at bytes.now }
{
    &bytes[at..]
}

// The first line, and what stands behind its end.
fn first_line(bytes: &[u8]) -> Option<(&[u8], &[u8])>
    ensures some { IfSome result (λ r. IsUnbroken r.0.now × (bytes.now ≡ ended r.0.now ++ r.1.now)) }
    ensures none { IfNone result (IsUnbroken bytes.now) }
{
    match memchr(b'\n', bytes) {
        Some(at) => Some((&bytes[..at], behind(bytes, at + 1))),
        None => None,
    }
}

// What stands behind the first line that counts the edits.
fn below_count(bytes: &[u8]) -> Option<&[u8]>
    ensures some { IfSome result (λ below. StandsBelow bytes.now below.now) }
    ensures none { IfNone result (HasNoCount bytes.now) }
{
    match memmem::find(bytes, COUNT_WORD) {
        Some(at) => match first_line(behind(bytes, at + COUNT_WORD.len())) {
            Some((_, below)) => Some(below),
            None => None,
        },
        None => None,
    }
}

fn mark(in_force: bool) -> &'static str
    ensures { result.now ≡ mark in_force }
{
    if in_force { "+ " } else { "- " }
}

// What the line of an edit says.
fn said(alloc: Global, edit: &Edit, in_force: bool) -> Result<String, NoMemory>
    ensures { IfOk result (λ s. string_bytes s ≡ said (one_of edit.now in_force)) }
{
    let spelled = edit_text(alloc, edit)?;
    let mut line = String::from_str(alloc, mark(in_force))?;
    line.push_str(spelled.as_str())?;
    Ok(line)
}

// The edit that a line says, with its mark.
fn edit_said(alloc: Global, line: &[u8]) -> Result<Option<(Edit, bool)>, NoMemory>
    ensures some { IfOk result (λ r. IfSome r (λ x. IsSaid x.0 × (line.now ≡ said (one_of x.0 x.1)))) }
    ensures none { IfOk result (λ r. IfNone r ((x : Numbered) → IsSaid x.edit → line.now ≡ said x → ⊥)) }
{
    let Some((in_force, spelled)) = marked_at(line) else {
        return Ok(None);
    };
    let Some(edit) = edit_of(alloc, spelled)? else {
        return Ok(None);
    };
    let canonical = said(alloc, &edit, in_force)?;
    if canonical.as_bytes() == line {
        return Ok(Some((edit, in_force)));
    }
    Ok(None)
}

// Puts the edit of a line in, where a history goes on with it, and says whether one does.
fn goes_on<M: Mover>(
    alloc: Global,
    history: &mut History,
    line: &[u8],
    mover: &M,
) -> Result<bool, NoMemory>
    ensures taken { IfOk result (λ r. r ≡ true → (x : Numbered) × IsSaid x.edit × (line.now ≡ said x)
        × (history.new.entries ≡ history.old.entries ++ x ∷ [])) }
    ensures none { IfOk result (λ r. r ≡ false → (x : Numbered) → IsSaid x.edit → line.now ≡ said x → BeginsNone (history.old.entries ++ x ∷ [])) }
    ensures stays { IfOk result (λ r. r ≡ false → history.new ≡ history.old) }
{
    let (edit, in_force) = match edit_said(alloc, line) {
        Ok(Some(found)) => found,
        Ok(None) => return Ok(false),
        Err(NoMemory) => return Err(NoMemory),
    };
    match put_in(history, edit, in_force, mover) {
        Ok(()) => Ok(true),
        Err(RestoreErr::NotLegal) => Ok(false),
        Err(RestoreErr::NoMemory) => Err(NoMemory),
    }
}

// What is left behind the lines of a history's edits.
fn left_behind<'a, M: Mover>(
    alloc: Global,
    below: &'a [u8],
    mover: &M,
) -> Result<&'a [u8], NoMemory>
    ensures { IfOk result (λ left. LeavesBehind below.now left.now) }
{
    let mut history = History::new(alloc);
    let mut left = below;
    while let Some((line, rest)) = first_line(left) {
        match goes_on(alloc, &mut history, line, mover) {
            Ok(true) => left = rest,
            Ok(false) => {
                // For the proof: the history is legal.
                let _legal = history.book();
                return Ok(left);
            }
            Err(NoMemory) => return Err(NoMemory),
        }
    }
    // For the proof: the history is legal.
    let _legal = history.book();
    Ok(left)
}

// How many lines end before the last so many bytes.
fn lines_before(bytes: &[u8], left: usize) -> usize
    requires { left ≤ length bytes.now }
    ensures { (front back : List ℕ) → bytes.now ≡ front ++ back → length back ≡ left → result ≡ line_ends front }
{
    memchr_iter(b'\n', &bytes[..bytes.len() - left]).count()
}

/// Why bytes are the text of no history that begin and end as a text of ours: the first line, from 0, with which no history goes on, or
/// the lines above the edits.
pub(crate) fn why_altered<M: Mover>(
    alloc: Global,
    bytes: &[u8],
    mover: &M,
) -> Result<Reason, NoMemory>
    ensures { IfOk result (λ why. WhyAltered bytes.now why) }
{
    let Some(below) = below_count(bytes) else {
        return Ok(Reason::Altered);
    };
    match left_behind(alloc, below, mover) {
        Ok(left) => {
            if left == LAST_LINE {
                return Ok(Reason::OtherHeading);
            }
            Ok(Reason::LineNotGranted(lines_before(bytes, left.len())))
        }
        Err(NoMemory) => Err(NoMemory),
    }
}
