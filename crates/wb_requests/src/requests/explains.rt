// Requests for what is wrong with a line.
ghost use Rattle.serde_json.specs.View.{view};
ghost use Rattle.wb_requests.specs.Answers.{IsAnswer};
ghost use Rattle.wb_requests.specs.Requests.{explain_of};

use crate::requests::fields::{has_fields, text_field};
use crate::requests::line_text::LineText;
use crate::requests::request::Request;
use serde_json::Value;
use std::alloc::Global;
use wb_edit::Refusal;

/// What is wrong with a line.
pub(crate) fn explain_of(alloc: Global, value: &Value) -> Result<Request, Refusal>
    ensures { IsAnswer (explain_of (view value.now)) result }
{
    has_fields(value, 2)?;
    let line = text_field(value, "line")?;
    match String::from_str(alloc, line) {
        Ok(text) => Ok(Request::Explain(LineText::new(text))),
        Err(_) => Err(Refusal::NoMemory),
    }
}
