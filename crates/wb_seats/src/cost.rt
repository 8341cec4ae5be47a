//! What a line costs while a desk is locked for it, about, in bytes: eight for a cell that it touched, sixteen for a number that it
//! lists, and the text that it printed; and no more than a whole turn may.
ghost use Rattle.std.specs.Prelude.{◌≡◌, ◌+◌, ◌*◌, length, min};
ghost use Rattle.wb_lines.specs.Turns.{cost_limit};
ghost use Rattle.wb_seats.specs.Costs.{answer_cost, told_cost, last_cost, look_cost, command_cost, commands_cost, edit_cost, request_cost, asked_cost};

use wb_desk::{Opening, Pass};
use wb_edit::{Command, Edit, Query, Refusal};
use wb_history::Answer;
use wb_machine::Reply;
use wb_requests::Request;

// As much as a whole turn may.
const WHOLE_TURN: u64 = 65_536;

// A cell has so many bytes.
const CELL: u64 = 8;

// A number of a list is about so many bytes of text.
const NUMBER: u64 = 16;

/// What it costs to answer what a line was read as, beyond what the reply tells of.
pub(crate) fn cost_to_answer(asked: &Result<Request, Refusal>) -> u64
    ensures { result ≡ asked_cost asked.now }
{
    match asked {
        Ok(request) => cost_of_request(request),
        Err(_) => 0,
    }
}

/// What it costs to answer and what the reply tells of, together.
pub fn cost_of_both(to_answer: u64, told: u64) -> u64
    ensures { result ≡ min cost_limit (to_answer + told) }
{
    to_answer.saturating_add(told).min(WHOLE_TURN)
}

/// What the reply tells of that a pass got last.
pub fn cost_of_last<L: Opening>(pass: &Pass<L>) -> u64
    ensures { result ≡ min cost_limit (last_cost pass.now.own) }
{
    match pass.own().last() {
        Some(entry) => cost_of(entry.reply()),
        None => 0,
    }
}

/// What it costs to answer a request, beyond what the reply tells of.
pub fn cost_of_request(request: &Request) -> u64
    ensures { result ≡ request_cost request.now }
{
    match request {
        Request::Ask(query) => cost_to_look(query),
        Request::Dependents(_) | Request::Cascade(_) => WHOLE_TURN,
        Request::Explain(line) => cost_of_many(line.as_str().len(), 1),
        Request::Change(edit) => cost_of_edit(edit),
        Request::Undo(_)
        | Request::Redo(_)
        | Request::Print
        | Request::History(_)
        | Request::Edits => 0,
    }
}

// Several commands may have done much that the reply does not tell of.
fn cost_of_edit(edit: &Edit) -> u64
    ensures { result ≡ edit_cost edit.now }
{
    match edit {
        Edit::Transaction(several) => cost_of_commands(several.commands()),
        Edit::Command(_) | Edit::Load(_) => 0,
    }
}

fn cost_of_commands(commands: &[Command]) -> u64
    ensures { result ≡ min cost_limit (commands_cost commands.now) }
{
    let mut cost = 0;
    for command in commands {
        cost = cost_of_both(cost, cost_of_command(command));
    }
    cost
}

// A command that is about one cell costs little.
fn cost_of_command(command: &Command) -> u64
    ensures { result ≡ command_cost command.now }
{
    match command {
        Command::Set(_, _, _)
        | Command::Irv(_, _)
        | Command::Copy(_, _, _, _, _)
        | Command::Add(_, _)
        | Command::Remove(_, _) => CELL,
        Command::Domain(_, _, _)
        | Command::Remap(_, _)
        | Command::Sparse(_, _)
        | Command::Assoc(_, _)
        | Command::Array(_, _)
        | Command::Fill(_, _, _)
        | Command::Put(_, _)
        | Command::FillAll(_, _)
        | Command::DropArray(_)
        | Command::All(_, _, _)
        | Command::DropDomain(_)
        | Command::Reshape(_, _) => WHOLE_TURN,
    }
}

// A reduction looks at all elements and replies with one.
fn cost_to_look(query: &Query) -> u64
    ensures { result ≡ look_cost query.now }
{
    match query {
        Query::Reduce(_, _) => WHOLE_TURN,
        Query::Get(_, _)
        | Query::Size(_)
        | Query::Where(_, _)
        | Query::Piece(_, _)
        | Query::State(_)
        | Query::Note(_) => 0,
    }
}

/// What a reply tells of.
pub(crate) fn cost_of(reply: &Reply) -> u64
    ensures { result ≡ min cost_limit (told_cost reply.now) }
{
    match reply {
        Reply::Edited(_, cells) => cost_of_many(*cells, CELL),
        Reply::Undone(_, cells) => cost_of_many(*cells, CELL),
        Reply::Cascaded(_, cells) => cost_of_many(*cells, CELL),
        Reply::Redone(_, cells) => cost_of_many(*cells, CELL),
        Reply::Listed(numbers) => cost_of_many(numbers.as_slice().len(), NUMBER),
        Reply::Answered(answer) => cost_of_answer(answer),
        Reply::Printed(text) | Reply::PrintedFrom(_, text) => cost_of_many(text.as_str().len(), 1),
        Reply::Counted(_, _) | Reply::Explained(_) | Reply::Refused(_) => 0,
    }
}

fn cost_of_answer(answer: &Answer) -> u64
    ensures { result ≡ min cost_limit (answer_cost answer.now) }
{
    match answer {
        Answer::Piece(piece) => cost_of_many(piece.pairs().len(), NUMBER),
        Answer::Value(_)
        | Answer::Size(_)
        | Answer::Locale(_)
        | Answer::InForce(_)
        | Answer::Note(_) => 0,
    }
}

/// What so many of a list cost, of which each costs as much.
pub(crate) fn cost_of_many(count: usize, each: u64) -> u64
    ensures { result ≡ min cost_limit (each * count) }
{
    each.saturating_mul(count as u64).min(WHOLE_TURN)
}
