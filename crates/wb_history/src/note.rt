//! Notes of edits as answers.

ghost use Rattle.std.specs.Prelude.{option_map};
ghost use Rattle.wb_history.specs.Pieces.{OrNoMemory};
ghost use Rattle.wb_history.specs.Queries.{note_told};

use crate::query::Answer;
use std::alloc::Global;
use wb_edit::{Note, Refusal};

/// The note of an edit that was found as an answer, or that none was found, or that memory ran out.
pub(crate) fn note_answer(alloc: Global, found: Option<Option<&Note>>) -> Result<Answer, Refusal>
    ensures { OrNoMemory (note_told (option_map (λ n. option_map (λ m. m.now) n) found.entry)) result }
{
    let Some(note) = found else {
        return Err(Refusal::NoSuchEdit);
    };
    let Some(note) = note else {
        return Ok(Answer::Note(None));
    };
    match note.copy(alloc) {
        Ok(copy) => Ok(Answer::Note(Some(copy))),
        Err(_) => Err(Refusal::NoMemory),
    }
}
