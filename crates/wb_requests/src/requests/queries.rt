// Requests for what the workbook and its history say.
ghost use Rattle.std.specs.Prelude.{◌≡◌, codes};
ghost use Rattle.serde_json.specs.View.{view};
ghost use Rattle.wb_requests.specs.Requests.{get_of, where_of, size_of, piece_of, reduce_of, state_of, note_of, print_of, history_from, history_of, edits_of};

use crate::requests::fields::{
    field_count, has_fields, index_field, name_field, reduction_field, u64_field,
};
use crate::requests::request::Request;
use serde_json::Value;
use wb_edit::{Query, Refusal};

/// The element at an index.
pub(crate) fn get_of(value: &Value) -> Result<Request, Refusal>
    ensures { result ≡ get_of (view value.now) }
{
    has_fields(value, 3)?;
    let name = name_field(value, "a")?;
    let index = index_field(value, "i")?;
    Ok(Request::Ask(Query::Get(name, index)))
}

/// How many indices a domain has.
pub(crate) fn size_of(value: &Value) -> Result<Request, Refusal>
    ensures { result ≡ size_of (view value.now) }
{
    has_fields(value, 2)?;
    let name = name_field(value, "d")?;
    Ok(Request::Ask(Query::Size(name)))
}

/// The elements on a locale.
pub(crate) fn piece_of(value: &Value) -> Result<Request, Refusal>
    ensures { result ≡ piece_of (view value.now) }
{
    has_fields(value, 3)?;
    let array = name_field(value, "a")?;
    let locale = u64_field(value, "l")?;
    Ok(Request::Ask(Query::Piece(array, locale)))
}

/// The sum, the least or the greatest of the elements.
pub(crate) fn reduce_of(value: &Value) -> Result<Request, Refusal>
    ensures { result ≡ reduce_of (view value.now) }
{
    has_fields(value, 3)?;
    let array = name_field(value, "a")?;
    let how = reduction_field(value, "how")?;
    Ok(Request::Ask(Query::Reduce(array, how)))
}

/// Whether an edit is in force.
pub(crate) fn state_of(value: &Value) -> Result<Request, Refusal>
    ensures { result ≡ state_of (view value.now) }
{
    has_fields(value, 2)?;
    let number = u64_field(value, "k")?;
    Ok(Request::Ask(Query::State(number)))
}

/// The note of an edit.
pub(crate) fn note_of(value: &Value) -> Result<Request, Refusal>
    ensures { result ≡ note_of (view value.now) }
{
    has_fields(value, 2)?;
    let number = u64_field(value, "k")?;
    Ok(Request::Ask(Query::Note(number)))
}

/// On which locale an index lies.
pub(crate) fn where_of(value: &Value) -> Result<Request, Refusal>
    ensures { result ≡ where_of (view value.now) }
{
    has_fields(value, 3)?;
    let domain = name_field(value, "d")?;
    let index = index_field(value, "i")?;
    Ok(Request::Ask(Query::Where(domain, index)))
}

/// The text of the workbook.
pub(crate) fn print_of(value: &Value) -> Result<Request, Refusal>
    ensures { result ≡ print_of (view value.now) }
{
    has_fields(value, 1)?;
    Ok(Request::Print)
}

fn history_from(value: &Value) -> Result<Request, Refusal>
    ensures { result ≡ history_from (view value.now) }
{
    has_fields(value, 2)?;
    let number = u64_field(value, "from")?;
    Ok(Request::History(Some(number)))
}

/// The text of the history, or the lines of its edits from a number on.
pub(crate) fn history_of(value: &Value) -> Result<Request, Refusal>
    ensures { result ≡ history_of (view value.now) }
{
    if field_count(value) == 1 {
        Ok(Request::History(None))
    } else {
        history_from(value)
    }
}

/// How many edits there are, and how many cells were set.
pub(crate) fn edits_of(value: &Value) -> Result<Request, Refusal>
    ensures { result ≡ edits_of (view value.now) }
{
    has_fields(value, 1)?;
    Ok(Request::Edits)
}
