//! Questions that are of no name and of no line.

ghost use Rattle.std.specs.Prelude.{◌≡◌, IfSome};
ghost use Rattle.wb_requests.specs.declared.requests.request.Request.TheVariants as asked;
ghost use Rattle.wb_desk.specs.Asked.{is_of_line, plain_request};

use wb_edit::Query;
use wb_requests::Request;

/// A question that is of no name and of no line.
#[derive(Clone, Copy)]
pub(crate) enum Plain {
    /// Whether the edit of a number is in force.
    State(u64),
    /// Which edits need the edit of a number.
    Dependents(u64),
    /// The text of the workbook.
    Print,
    /// The text of the history.
    History,
    /// The lines of the history from a number on.
    HistoryFrom(u64),
    /// How many edits there are.
    Edits,
}

// A question of the workbook or the history, if it is of no name.
fn plain_query(query: &Query) -> Option<Plain>
    ensures { IfSome result (λ p. plain_request p ≡ asked.Ask query.now) }
{
    match query {
        Query::State(number) => Some(Plain::State(*number)),
        Query::Get(_, _)
        | Query::Size(_)
        | Query::Where(_, _)
        | Query::Piece(_, _)
        | Query::Reduce(_, _)
        | Query::Note(_) => None,
    }
}

// The text of the history, or its lines from a number on.
fn plain_history(from: &Option<u64>) -> Plain
    ensures { plain_request result ≡ asked.History from.now }
{
    match from {
        Some(number) => Plain::HistoryFrom(*number),
        None => Plain::History,
    }
}

/// A request as a question of no name and no line, if it is one.
pub(crate) fn plain_of(request: &Request) -> Option<Plain>
    ensures { IfSome result (λ p. plain_request p ≡ request.now) }
{
    match request {
        Request::Ask(query) => plain_query(query),
        Request::Dependents(number) => Some(Plain::Dependents(*number)),
        Request::Print => Some(Plain::Print),
        Request::History(from) => Some(plain_history(from)),
        Request::Edits => Some(Plain::Edits),
        Request::Change(_)
        | Request::Undo(_)
        | Request::Redo(_)
        | Request::Cascade(_)
        | Request::Explain(_) => None,
    }
}

/// Whether a request asks about a line.
pub(crate) fn is_of_line(request: &Request) -> bool
    ensures { result ≡ is_of_line request.now }
{
    match request {
        Request::Explain(_) => true,
        Request::Change(_)
        | Request::Undo(_)
        | Request::Redo(_)
        | Request::Cascade(_)
        | Request::Dependents(_)
        | Request::Ask(_)
        | Request::Print
        | Request::History(_)
        | Request::Edits => false,
    }
}

/// The request of a question of no name and no line.
pub(crate) fn plain_request(plain: &Plain) -> Request
    ensures { result ≡ plain_request plain.now }
{
    match plain {
        Plain::State(number) => Request::Ask(Query::State(*number)),
        Plain::Dependents(number) => Request::Dependents(*number),
        Plain::Print => Request::Print,
        Plain::History => Request::History(None),
        Plain::HistoryFrom(number) => Request::History(Some(*number)),
        Plain::Edits => Request::Edits,
    }
}
