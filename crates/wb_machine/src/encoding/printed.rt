//! The text of a whole history, and the lines of its edits from a number on.
ghost use Rattle.std.specs.Prelude.{◌≡◌, ◌++◌, ℕ, List, drop, IfOk, OnOk, codes, string_bytes, Some, option_map};
ghost use Rattle.std.specs.List.{flat_map};
ghost use Rattle.wb_history.specs.Restored.{one_of};
ghost use Rattle.wb_machine.specs.Encoding.Text.{mark, edit_line, objects_text, history_text, lines_from, IsJson, AreJson};

use std::alloc::{AllocError, Global};
use std::fmt::Write;
use wb_book::Book;
use wb_edit::Edit;
use wb_history::History;
use wb_range::NoMemory;
use wb_reading::print_book;
use wb_requests::encoding::edit_text;

/// The lines of objects within the text of a workbook.
pub fn objects_in(text: &str) -> Option<&str>
    ensures { (objects : List ℕ) → text.now ≡ codes "chapel-workbook 1\n" ++ (objects ++ codes "end\n") → option_map (λ x. x.now) result ≡ Some objects }
{
    match text.strip_prefix("chapel-workbook 1\n") {
        Some(rest) => rest.strip_suffix("end\n"),
        None => None,
    }
}

// The lines of a workbook's objects.
fn push_objects(alloc: Global, out: &mut String, book: &Book) -> Result<(), NoMemory>
    ensures { OnOk result (string_bytes out.new ≡ string_bytes out.old ++ objects_text book.now.cells) }
{
    let text = print_book(alloc, book)?;
    match objects_in(text.as_str()) {
        Some(lines) => {
            out.push_str(lines)?;
            Ok(())
        }
        None => unreachable!(),
    }
}

/// The mark of an edit in force, or of one that is not.
pub(crate) fn mark(in_force: bool) -> &'static str
    ensures { result.now ≡ mark in_force }
{
    if in_force { "+ " } else { "- " }
}

/// The line of an edit, with its mark, put at the end of a text.
fn push_edit(alloc: Global, out: &mut String, edit: &Edit, in_force: bool) -> Result<(), NoMemory>
    ensures line { OnOk result (string_bytes out.new ≡ string_bytes out.old ++ edit_line (one_of edit.now in_force)) }
    ensures json { OnOk result (IsJson edit.now) }
{
    let line = edit_text(alloc, edit)?;
    out.push_str(mark(in_force))?;
    out.push_str(line.as_str())?;
    out.push_str("\n")?;
    Ok(())
}

// The lines of the edits behind the first so many, in their order.
fn push_edits(
    alloc: Global,
    out: &mut String,
    history: &History,
    first: u64,
) -> Result<(), NoMemory>
    ensures lines { OnOk result (string_bytes out.new ≡ string_bytes out.old ++ flat_map edit_line (drop first history.now.entries)) }
    ensures json { OnOk result (AreJson (drop first history.now.entries)) }
{
    for before in first..history.len() {
        match history.edit_at(before + 1)? {
            Some((edit, in_force)) => push_edit(alloc, out, edit.as_edit(), in_force)?,
            None => unreachable!(),
        }
    }
    Ok(())
}

/// The lines of the edits from a number on, as the text of the history has them. `NoMemory` where none is left.
pub fn print_edits_from(alloc: Global, history: &History, from: u64) -> Result<String, NoMemory>
    ensures { IfOk result (λ t. string_bytes t ≡ lines_from from history.now.entries) }
{
    let mut out = String::new(alloc);
    push_edits(alloc, &mut out, history, from.saturating_sub(1))?;
    Ok(out)
}

/// The text of a history: the line `chapel-workbook 2`, the lines of its workbook's objects, how many edits there are,
/// a line for each edit with its mark, and the line `end`. `NoMemory` where none is left. The line of each edit is
/// the JSON of its request.
pub fn print_history(alloc: Global, history: &History) -> Result<String, NoMemory>
    ensures text { IfOk result (λ t. string_bytes t ≡ history_text history.now.entries) }
    ensures json { OnOk result (AreJson history.now.entries) }
{
    let count = history.len();
    let mut out = String::new(alloc);
    out.push_str("chapel-workbook 2\n")?;
    push_objects(alloc, &mut out, history.book())?;
    write!(out, "history {count}\n")?;
    push_edits(alloc, &mut out, history, 0)?;
    out.push_str("end\n")?;
    Ok(out)
}
