// Requests with the text of a workbook.
ghost use Rattle.serde_json.specs.View.{view};
ghost use Rattle.wb_requests.specs.Answers.{IsAnswer};
ghost use Rattle.wb_requests.specs.Literals.{text_of_book};
ghost use Rattle.wb_requests.specs.Requests.{load_of};

use crate::requests::fields::{has_fields, text_field};
use crate::requests::request::Request;
use serde_json::Value;
use std::alloc::Global;
use wb_edit::{Edit, Refusal};
use wb_reading::{BookErr, read_text};
use wb_text::BookText;

/// The text, where it is a workbook's.
pub(crate) fn text_of_book(alloc: Global, text: &str) -> Result<BookText, Refusal>
    ensures { IsAnswer (text_of_book text.now) result }
{
    match read_text(alloc, text) {
        Ok(book) => Ok(book),
        Err(BookErr::Bad) => Err(Refusal::BadLiteral),
        Err(BookErr::NoMemory) => Err(Refusal::NoMemory),
    }
}

/// The workbook of a text.
pub(crate) fn load_of(alloc: Global, value: &Value) -> Result<Request, Refusal>
    ensures { IsAnswer (load_of (view value.now)) result }
{
    has_fields(value, 2)?;
    let text = text_field(value, "text")?;
    let book = text_of_book(alloc, text)?;
    Ok(Request::Change(Edit::Load(book)))
}
