//! What is asked of an array or a domain, in numbers.

ghost use Rattle.std.specs.Prelude.{◌≡◌, ℕ, List, [], ◌∷◌, IfSome};
ghost use Rattle.wb_edit.specs.declared.command.Command.TheVariants as commands;
ghost use Rattle.wb_edit.specs.declared.edit.Edit.TheVariants as edits;
ghost use Rattle.wb_requests.specs.declared.requests.request.Request.TheVariants as asked;
ghost use Rattle.wb_edit.specs.declared.query.Query.TheVariants as queries;
ghost use Rattle.wb_desk.specs.Briefs.{coordinates_in, point_of, request_of, set_of};

use wb_arrays::Op;
use wb_cells::{AnyIndex, Index, Name, Point};
use wb_edit::{Command, Edit, Query};
use wb_requests::Request;

/// What is asked of an array or a domain, but for its name: a new value of an element, or a question.
#[derive(Clone, Copy)]
pub(crate) enum Brief {
    /// A new value of the element at an integer.
    Set(i64, i64),
    /// A new value of the element at a pair of small integers.
    SetPair(i32, i32, i64),
    /// The element at an integer.
    Get(i64),
    /// The element at a pair.
    GetPair(i64, i64),
    /// The element at a triple.
    GetTriple(i64, i64, i64),
    /// The locale of an integer.
    Where(i64),
    /// The locale of a pair.
    WherePair(i64, i64),
    /// The locale of a triple.
    WhereTriple(i64, i64, i64),
    /// How many indices there are.
    Size,
    /// A reduction.
    Reduce(Op),
    /// The elements on a locale.
    Piece(u64),
}

/// The coordinates of an index.
#[derive(Drop)]
pub(crate) enum Spot {
    /// An integer.
    Single(i64),
    /// A pair.
    Pair(i64, i64),
    /// A triple.
    Triple(i64, i64, i64),
}

// One to three coordinates.
#[tactic(auto, using(crate::proofs::Spots::one_item, crate::proofs::Spots::two_items, crate::proofs::Spots::three_items))]
fn spot_in(coordinates: &[i64]) -> Option<Spot>
    ensures { IfSome result (λ s. coordinates_in s ≡ coordinates.now) }
{
    if coordinates.len() == 1 {
        return Some(Spot::Single(coordinates[0]));
    }
    if coordinates.len() == 2 {
        return Some(Spot::Pair(coordinates[0], coordinates[1]));
    }
    if coordinates.len() == 3 {
        return Some(Spot::Triple(coordinates[0], coordinates[1], coordinates[2]));
    }
    None
}

// The coordinates of an index that is no text.
fn spot_of(at: &AnyIndex) -> Option<Spot>
    ensures { IfSome result (λ s. point_of (coordinates_in s) ≡ at.now) }
{
    match at.index() {
        Index::Point(point) => spot_in(point.coordinates()),
        Index::Text(_) => None,
    }
}

// A new value of an element at a pair, if both integers are small.
fn set_pair(i: &i64, j: &i64, value: &i64) -> Option<Brief>
    ensures { IfSome result (λ b. (a : List ℕ) → request_of a b ≡ set_of a (i.now ∷ j.now ∷ []) value.now) }
{
    let Ok(i) = i32::try_from(*i) else {
        return None;
    };
    let Ok(j) = i32::try_from(*j) else {
        return None;
    };
    Some(Brief::SetPair(i, j, *value))
}

/// A new value of an element.
pub(crate) fn set_brief(at: &AnyIndex, value: &i64) -> Option<Brief>
    ensures { IfSome result (λ b. (a : List ℕ) → request_of a b ≡ asked.Change (edits.Command (commands.Set a at.now value.now))) }
{
    match spot_of(at) {
        Some(Spot::Single(i)) => Some(Brief::Set(i, *value)),
        Some(Spot::Pair(i, j)) => set_pair(&i, &j, value),
        Some(Spot::Triple(_, _, _)) => None,
        None => None,
    }
}

/// A question for an element.
pub(crate) fn get_brief(at: &AnyIndex) -> Option<Brief>
    ensures { IfSome result (λ b. (a : List ℕ) → request_of a b ≡ asked.Ask (queries.Get a at.now)) }
{
    match spot_of(at) {
        Some(Spot::Single(i)) => Some(Brief::Get(i)),
        Some(Spot::Pair(i, j)) => Some(Brief::GetPair(i, j)),
        Some(Spot::Triple(i, j, k)) => Some(Brief::GetTriple(i, j, k)),
        None => None,
    }
}

// A question for a locale.
fn where_brief(at: &AnyIndex) -> Option<Brief>
    ensures { IfSome result (λ b. (a : List ℕ) → request_of a b ≡ asked.Ask (queries.Where a at.now)) }
{
    match spot_of(at) {
        Some(Spot::Single(i)) => Some(Brief::Where(i)),
        Some(Spot::Pair(i, j)) => Some(Brief::WherePair(i, j)),
        Some(Spot::Triple(i, j, k)) => Some(Brief::WhereTriple(i, j, k)),
        None => None,
    }
}

// The name that a question is of, and the rest of it.
fn query_brief(query: &Query) -> Option<(Name, Brief)>
    ensures { IfSome result (λ p. request_of p.0 p.1 ≡ asked.Ask query.now) }
{
    match query {
        Query::Get(array, at) => match get_brief(at) {
            Some(brief) => Some((*array, brief)),
            None => None,
        },
        Query::Where(domain, at) => match where_brief(at) {
            Some(brief) => Some((*domain, brief)),
            None => None,
        },
        Query::Size(domain) => Some((*domain, Brief::Size)),
        Query::Reduce(array, op) => Some((*array, Brief::Reduce(*op))),
        Query::Piece(array, locale) => Some((*array, Brief::Piece(*locale))),
        Query::State(_) | Query::Note(_) => None,
    }
}

// The array that a new value is of, and the rest of it.
fn edit_brief(edit: &Edit) -> Option<(Name, Brief)>
    ensures { IfSome result (λ p. request_of p.0 p.1 ≡ asked.Change edit.now) }
{
    match edit {
        Edit::Command(Command::Set(array, at, value)) => match set_brief(at, value) {
            Some(brief) => Some((*array, brief)),
            None => None,
        },
        _ => None,
    }
}

/// The name that a request is of, and the rest of it, where that is brief.
pub(crate) fn brief_of(request: &Request) -> Option<(Name, Brief)>
    ensures { IfSome result (λ p. request_of p.0 p.1 ≡ request.now) }
{
    match request {
        Request::Change(edit) => edit_brief(edit),
        Request::Ask(query) => query_brief(query),
        Request::Undo(_)
        | Request::Redo(_)
        | Request::Cascade(_)
        | Request::Dependents(_)
        | Request::Print
        | Request::History(_)
        | Request::Edits
        | Request::Explain(_) => None,
    }
}

// An index of rank 1.
fn single(i: &i64) -> AnyIndex
    ensures { result ≡ point_of (i.now ∷ []) }
{
    AnyIndex::new(Index::Point(Point::single(*i)))
}

// An index of rank 2.
fn pair(i: &i64, j: &i64) -> AnyIndex
    ensures { result ≡ point_of (i.now ∷ j.now ∷ []) }
{
    AnyIndex::new(Index::Point(Point::pair(*i, *j)))
}

// An index of rank 3.
fn triple(i: &i64, j: &i64, k: &i64) -> AnyIndex
    ensures { result ≡ point_of (i.now ∷ j.now ∷ k.now ∷ []) }
{
    AnyIndex::new(Index::Point(Point::triple(*i, *j, *k)))
}

/// The request of a name and the rest of it.
pub(crate) fn request_of(name: Name, brief: &Brief) -> Request
    ensures { result ≡ request_of name brief.now }
{
    match brief {
        Brief::Set(i, value) => Request::Change(Edit::Command(Command::Set(
            name,
            single(i),
            *value,
        ))),
        Brief::SetPair(i, j, value) => {
            let at = pair(&i64::from(*i), &i64::from(*j));
            Request::Change(Edit::Command(Command::Set(name, at, *value)))
        }
        Brief::Get(i) => Request::Ask(Query::Get(name, single(i))),
        Brief::GetPair(i, j) => Request::Ask(Query::Get(name, pair(i, j))),
        Brief::GetTriple(i, j, k) => Request::Ask(Query::Get(name, triple(i, j, k))),
        Brief::Where(i) => Request::Ask(Query::Where(name, single(i))),
        Brief::WherePair(i, j) => Request::Ask(Query::Where(name, pair(i, j))),
        Brief::WhereTriple(i, j, k) => Request::Ask(Query::Where(name, triple(i, j, k))),
        Brief::Size => Request::Ask(Query::Size(name)),
        Brief::Reduce(op) => Request::Ask(Query::Reduce(name, *op)),
        Brief::Piece(locale) => Request::Ask(Query::Piece(name, *locale)),
    }
}
