//! Questions at an index that isn't brief, as a label, and what they are answered.

ghost use Rattle.std.specs.Prelude.{◌≡◌, ℕ, List, IfSome};
ghost use Rattle.wb_cells.specs.declared.values.index.Index.{Index as any_index};
ghost use Rattle.wb_edit.specs.Trees.{plain};
ghost use Rattle.wb_edit.specs.declared.query.Query.TheVariants as queries;
ghost use Rattle.wb_edit.specs.declared.refusal.Refusal.TheVariants.{Refused};
ghost use Rattle.wb_requests.specs.declared.requests.request.Request.TheVariants as asked;
ghost use Rattle.wb_desk.specs.Asked.{reply_at, request_at};

use wb_cells::{AnyIndex, EditRefusal, Name, WhyRefused};
use wb_edit::{Query, Refusal};
use wb_history::Answer;
use wb_machine::Reply;
use wb_requests::Request;

/// What was asked at an index, and what that was answered.
#[derive(Clone, Copy)]
pub(crate) enum Told {
    /// The element of an array.
    Element(i64),
    /// The locale of an index of a domain.
    Locale(usize),
    /// Why there is no element.
    NoElement(WhyRefused),
    /// Why there is no locale.
    NoLocale(WhyRefused),
}

/// A question at an index, with its answer.
#[derive(Drop)]
pub(crate) struct AskedAt {
    pub name: Name,
    pub at: AnyIndex,
    pub told: Told,
}

// The reply to a question for an element.
fn element_told(reply: &Reply) -> Option<Told>
    ensures reply { IfSome result (λ t. reply_at t ≡ reply.now) }
    ensures request { IfSome result (λ t. (a : List ℕ) (i : any_index) → request_at a i t ≡ asked.Ask (queries.Get a i)) }
{
    match reply {
        Reply::Answered(Answer::Value(value)) => Some(Told::Element(*value)),
        Reply::Refused(Refusal::Refused(EditRefusal { why, at: None })) => {
            Some(Told::NoElement(*why))
        }
        _ => None,
    }
}

// The reply to a question for a locale.
fn locale_told(reply: &Reply) -> Option<Told>
    ensures reply { IfSome result (λ t. reply_at t ≡ reply.now) }
    ensures request { IfSome result (λ t. (d : List ℕ) (i : any_index) → request_at d i t ≡ asked.Ask (queries.Where d i)) }
{
    match reply {
        Reply::Answered(Answer::Locale(locale)) => Some(Told::Locale(*locale)),
        Reply::Refused(Refusal::Refused(EditRefusal { why, at: None })) => {
            Some(Told::NoLocale(*why))
        }
        _ => None,
    }
}

// A question for an element, with its answer.
fn element_at(name: &Name, at: &AnyIndex, reply: &Reply) -> Option<AskedAt>
    ensures request { IfSome result (λ q. request_at q.name q.at q.told ≡ asked.Ask (queries.Get name.now at.now)) }
    ensures reply { IfSome result (λ q. reply_at q.told ≡ reply.now) }
{
    match element_told(reply) {
        Some(told) => Some(AskedAt {
            name: *name,
            at: *at,
            told,
        }),
        None => None,
    }
}

// A question for a locale, with its answer.
fn locale_at(name: &Name, at: &AnyIndex, reply: &Reply) -> Option<AskedAt>
    ensures request { IfSome result (λ q. request_at q.name q.at q.told ≡ asked.Ask (queries.Where name.now at.now)) }
    ensures reply { IfSome result (λ q. reply_at q.told ≡ reply.now) }
{
    match locale_told(reply) {
        Some(told) => Some(AskedAt {
            name: *name,
            at: *at,
            told,
        }),
        None => None,
    }
}

// A question of the workbook, with its answer, if it is at an index.
fn query_at(query: &Query, reply: &Reply) -> Option<AskedAt>
    ensures request { IfSome result (λ q. request_at q.name q.at q.told ≡ asked.Ask query.now) }
    ensures reply { IfSome result (λ q. reply_at q.told ≡ reply.now) }
{
    match query {
        Query::Get(array, at) => element_at(array, at, reply),
        Query::Where(domain, at) => locale_at(domain, at, reply),
        Query::Size(_)
        | Query::Piece(_, _)
        | Query::Reduce(_, _)
        | Query::State(_)
        | Query::Note(_) => None,
    }
}

/// A question at an index, with its answer, if a request is one.
pub(crate) fn asked_at(request: &Request, reply: &Reply) -> Option<AskedAt>
    ensures request { IfSome result (λ q. request_at q.name q.at q.told ≡ request.now) }
    ensures reply { IfSome result (λ q. reply_at q.told ≡ reply.now) }
{
    match request {
        Request::Ask(query) => query_at(query, reply),
        Request::Change(_)
        | Request::Undo(_)
        | Request::Redo(_)
        | Request::Cascade(_)
        | Request::Dependents(_)
        | Request::Print
        | Request::History(_)
        | Request::Edits
        | Request::Explain(_) => None,
    }
}

/// The question at an index.
pub(crate) fn request_at(name: Name, at: &AnyIndex, told: &Told) -> Request
    ensures { result ≡ request_at name at.now told.now }
{
    match told {
        Told::Element(_) => Request::Ask(Query::Get(name, *at)),
        Told::NoElement(_) => Request::Ask(Query::Get(name, *at)),
        Told::Locale(_) => Request::Ask(Query::Where(name, *at)),
        Told::NoLocale(_) => Request::Ask(Query::Where(name, *at)),
    }
}

/// The refusal of a question, which has no place.
pub(crate) fn of_edit(why: WhyRefused) -> Refusal
    ensures { result ≡ Refused (plain why) }
{
    Refusal::Refused(EditRefusal { why, at: None })
}

/// Its reply.
pub(crate) fn reply_at(told: &Told) -> Reply
    ensures { result ≡ reply_at told.now }
{
    match told {
        Told::Element(value) => Reply::Answered(Answer::Value(*value)),
        Told::Locale(locale) => Reply::Answered(Answer::Locale(*locale)),
        Told::NoElement(why) => Reply::Refused(of_edit(*why)),
        Told::NoLocale(why) => Reply::Refused(of_edit(*why)),
    }
}
