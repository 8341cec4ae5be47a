// One request after another, each a step of the history.
ghost use Rattle.std.specs.Prelude.{◌≡◌, Some, None};
ghost use Rattle.wb_machine.specs.Machine.{Changes, UndoesNumber, UndoesLatest, Redoes, Cascades, ListsDependents, Answers, Prints, PrintsHistory, PrintsFrom, Counts, Explains, Step};

use crate::encoding::{print_edits_from, print_history};
use crate::replies::edit_numbers::EditNumbers;
use crate::replies::printed_text::PrintedText;
use crate::replies::reply::Reply;
use std::alloc::Global;
use wb_arrays::Mover;
use wb_edit::{Edit, Query, Refusal};
use wb_history::History;
use wb_log::Undoer;
use wb_reading::print_book;
use wb_requests::{LineText, Request, explained};

fn make_edit<M: Mover>(history: &mut History, edit: Edit, mover: &M) -> Reply
    ensures { Changes history.old edit result history.new }
{
    match history.edit(edit, mover) {
        Ok((number, count)) => Reply::Edited(number, count),
        Err(why) => Reply::Refused(why),
    }
}

fn undo_number<M: Mover>(history: &mut History, number: u64, mover: &M) -> Reply
    ensures { UndoesNumber history.old number result history.new }
{
    match history.undo(number, mover) {
        Ok(count) => Reply::Undone(number, count),
        Err(why) => Reply::Refused(why),
    }
}

fn undo_latest<M: Mover>(history: &mut History, mover: &M) -> Reply
    ensures { UndoesLatest history.old result history.new }
{
    match history.undo_last(mover) {
        Ok((number, count)) => Reply::Undone(number, count),
        Err(why) => Reply::Refused(why),
    }
}

fn redo_number<M: Mover>(history: &mut History, number: u64, mover: &M) -> Reply
    ensures { Redoes history.old number result history.new }
{
    match history.redo(number, mover) {
        Ok(count) => Reply::Redone(number, count),
        Err(why) => Reply::Refused(why),
    }
}

fn cascade_number<M: Mover>(history: &mut History, number: u64, mover: &M) -> Reply
    ensures { Cascades history.old number result history.new }
{
    match history.cascade(number, &mut Undoer::new(), mover) {
        Ok((undone, count)) => Reply::Cascaded(EditNumbers::new(undone), count),
        Err(why) => Reply::Refused(why),
    }
}

fn list_dependents(history: &mut History, number: u64) -> Reply
    ensures { ListsDependents history.old number result history.new }
{
    match history.dependents(number) {
        Ok(listed) => Reply::Listed(EditNumbers::new(listed)),
        Err(why) => Reply::Refused(why),
    }
}

fn answer_query<M: Mover>(history: &History, query: &Query, mover: &M) -> Reply
    ensures { Answers history.now query.now result history.now }
{
    match history.query(query, mover) {
        Ok(answer) => Reply::Answered(answer),
        Err(why) => Reply::Refused(why),
    }
}

fn print_workbook(alloc: Global, history: &History) -> Reply
    ensures { Prints history.now result history.now }
{
    match print_book(alloc, history.book()) {
        Ok(text) => Reply::Printed(PrintedText::new(text)),
        Err(_) => Reply::Refused(Refusal::NoMemory),
    }
}

fn print_whole_history(alloc: Global, history: &History) -> Reply
    ensures { PrintsHistory history.now result history.now }
{
    match print_history(alloc, history) {
        Ok(text) => Reply::Printed(PrintedText::new(text)),
        Err(_) => Reply::Refused(Refusal::NoMemory),
    }
}

fn print_from(alloc: Global, history: &History, from: u64) -> Reply
    ensures { PrintsFrom history.now from result history.now }
{
    match print_edits_from(alloc, history, from) {
        Ok(text) => Reply::PrintedFrom(history.len(), PrintedText::new(text)),
        Err(_) => Reply::Refused(Refusal::NoMemory),
    }
}

fn count_edits(history: &History) -> Reply
    ensures { Counts history.now result history.now }
{
    Reply::Counted(history.len(), history.book().writes())
}

fn explain_line(alloc: Global, history: &History, line: &LineText) -> Reply
    ensures { Explains history.now line.now result history.now }
{
    match explained(alloc, line.as_str().as_bytes()) {
        Ok(wrong) => Reply::Explained(wrong),
        Err(_) => Reply::Refused(Refusal::NoMemory),
    }
}

/// Answers a request: an edit, an undo, alone or with dependents, or a redo changes the history; a refusal, a query, a
/// list of dependents, what is told of a line and a print leave it. Pieces that have to move are moved by the mover, which also makes reductions.
pub fn answer_request<M: Mover>(
    alloc: Global,
    history: &mut History,
    request: Request,
    mover: &M,
) -> Reply
    ensures { Step history.old request result history.new }
{
    match request {
        Request::Change(edit) => make_edit(history, edit, mover),
        Request::Undo(Some(number)) => undo_number(history, number, mover),
        Request::Undo(None) => undo_latest(history, mover),
        Request::Redo(number) => redo_number(history, number, mover),
        Request::Cascade(number) => cascade_number(history, number, mover),
        Request::Dependents(number) => list_dependents(history, number),
        Request::Ask(query) => answer_query(history, &query, mover),
        Request::Print => print_workbook(alloc, history),
        Request::History(Some(from)) => print_from(alloc, history, from),
        Request::History(None) => print_whole_history(alloc, history),
        Request::Edits => count_edits(history),
        Request::Explain(line) => explain_line(alloc, history, &line),
    }
}
