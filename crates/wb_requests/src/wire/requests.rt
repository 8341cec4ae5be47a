// The canonical objects of requests, and their lines.
ghost use Rattle.std.specs.Prelude.{◌≡◌, IfOk, Ok, string_bytes};
ghost use Rattle.serde_json.specs.View.{view};
ghost use Rattle.wb_requests.specs.Requests.{request};
ghost use Rattle.wb_requests.specs.declared.requests.request.Request.TheVariants.{Change, Ask};
ghost use Rattle.wb_requests.specs.Wire.Encoded.{request_data, request_line};
ghost use Rattle.wb_requests.specs.Wire.Proper.{IsProperRequest};
ghost use Rattle.wb_requests.specs.Wire.Table.{reduction_word};

use crate::Request;
use crate::encoding::{edit_value, index_of_domain, line_of, of_domain};
use crate::wire::objects::{by_number, element, from_number, of_line, piece, plain, reduction};
use serde_json::Value;
use std::alloc::{AllocError, Global};
use wb_arrays::Op;
use wb_edit::{Edit, Query};
use wb_range::NoMemory;

// The word for a reduction.
fn reduction_word(how: Op) -> &'static str
    ensures { result.now ≡ reduction_word how }
{
    match how {
        Op::Sum => "+",
        Op::Min => "min",
        Op::Max => "max",
    }
}

fn query_value(alloc: Global, query: &Query) -> Result<Value, AllocError>
    ensures { IfOk result (λ v. view v ≡ request_data (Ask query.now)) }
{
    match query {
        Query::Get(a, i) => element(alloc, a, i),
        Query::Where(d, i) => index_of_domain(alloc, "where", d, i),
        Query::Size(d) => of_domain(alloc, "size", d),
        Query::Piece(a, l) => piece(alloc, a, *l),
        Query::Reduce(a, how) => reduction(alloc, a, reduction_word(*how)),
        Query::State(k) => by_number(alloc, "state", *k),
        Query::Note(k) => by_number(alloc, "note", *k),
    }
}

fn request_value(alloc: Global, request: &Request) -> Result<Value, AllocError>
    ensures { IfOk result (λ v. view v ≡ request_data request.now) }
{
    match request {
        Request::Change(edit) => edit_value(alloc, edit),
        Request::Undo(Some(k)) => by_number(alloc, "undo", *k),
        Request::Undo(None) => plain(alloc, "undo"),
        Request::Redo(k) => by_number(alloc, "redo", *k),
        Request::Cascade(k) => by_number(alloc, "cascade", *k),
        Request::Dependents(k) => by_number(alloc, "dependents", *k),
        Request::Ask(query) => query_value(alloc, query),
        Request::Print => plain(alloc, "print"),
        Request::History(Some(from)) => from_number(alloc, *from),
        Request::History(None) => plain(alloc, "history"),
        Request::Edits => plain(alloc, "edits"),
        Request::Explain(line) => of_line(alloc, line.as_str()),
    }
}

/// The canonical line of a request, without a line end: compact JSON (RFC 8259) with every field, `map` of a new domain
/// too, keys ascending and literals canonical. It is read back as the request, if the request is one that a line can say.
pub fn request_text(alloc: Global, asked: &Request) -> Result<String, NoMemory>
    ensures text { IfOk result (λ s. string_bytes s ≡ request_line asked.now) }
    ensures read_back { IfOk result (λ s. IsProperRequest asked.now → request (string_bytes s) ≡ Ok asked.now) }
{
    let value = request_value(alloc, asked)?;
    match line_of(alloc, &value) {
        Ok(line) => Ok(line),
        Err(_) => Err(NoMemory),
    }
}

/// The canonical line of an edit's request, which is read back as the edit, if a line can say it.
pub fn edit_text(alloc: Global, edit: &Edit) -> Result<String, NoMemory>
    ensures text { IfOk result (λ s. string_bytes s ≡ request_line (Change edit.now)) }
    ensures read_back { IfOk result (λ s. IsProperRequest (Change edit.now) → request (string_bytes s) ≡ Ok (Change edit.now)) }
{
    crate::encoding::edit_text(alloc, edit)
}
