// A history that begins with its text.
ghost use Rattle.std.specs.Prelude.{◌≡◌, ℕ, List, [], true, false, codes, Some, IfOk, IfSome, IfNone, string_bytes, option_map, option_and_then};
ghost use Rattle.std.specs.Str.{is_utf8};
ghost use Rattle.serde_json.specs.Find.{get, as_str};
ghost use Rattle.serde_json.specs.Read.{read};
ghost use Rattle.serde_json.specs.View.{view};
ghost use Rattle.serde_json.specs.Written.{compact_text};
ghost use Rattle.wb_lines.specs.Lines.{IsUnbroken};
ghost use Rattle.wb_history.specs.Past.{Past};
ghost use Rattle.wb_history.specs.Restored.{IsCounted};
ghost use Rattle.wb_machine.specs.Histories.Text.{history_text, AreAsked, IsHistory, IsNoHistory};
ghost use Rattle.wb_keeping.specs.Granting.Granting.{Begins, resume_data};
ghost use Rattle.wb_keeping.specs.Opening.{OpensWith};

use serde_json::{Category, Value, json};
use std::alloc::{AllocError, Global};
use wb_arrays::Mover;
use wb_history::History;
use wb_machine::histories::{HistoryErr, print_history, read_history};

/// The object of `resume` with a text.
fn resume_value(alloc: Global, text: &str) -> Result<Value, AllocError>
    ensures { IfOk result (λ v. view v ≡ resume_data text.now) }
{
    json!(in alloc; {"op": "resume", "text": text})
}

/// The canonical line of `resume` with a text, without a line end.
fn line_of(alloc: Global, text: &str) -> Result<String, AllocError>
    ensures text { IfOk result (λ s. string_bytes s ≡ compact_text (resume_data text.now)) }
    ensures json { IfOk result (λ s. (is_utf8 (string_bytes s) ≡ true) × (read (string_bytes s) ≡ Some (resume_data text.now))) }
{
    let value = resume_value(alloc, text)?;
    let line = value.to_string(alloc)?;
    // For the proof: the line is UTF-8.
    let _line = line.as_str();
    Ok(line)
}

/// A history, and the line that it begins with, without a line end.
#[derive(Drop)]
pub struct Opening {
    /// The history.
    pub history: History,
    /// The line.
    pub line: String,
}

/// The line that a history begins with: it has the text of this one, and no line end. A file that has it alone stands for
/// a history with the same edits, each in force made once.
pub fn resume_line(alloc: Global, history: &History) -> Result<String, AllocError>
    ensures begins { IfOk result (λ s. AreAsked history.now.entries → (q : Past) → q.entries ≡ history.now.entries → IsCounted q → Begins (string_bytes s) q) }
    ensures unbroken { IfOk result (λ s. IsUnbroken (string_bytes s)) }
{
    let Ok(text) = print_history(alloc, history) else {
        return Err(AllocError);
    };
    line_of(alloc, text.as_str())
}

/// The history that has this text, with the line that it begins with; or none, where no history has it.
pub fn opening_of<M: Mover>(
    alloc: Global,
    text: &str,
    mover: &M,
) -> Result<Option<Opening>, AllocError>
    ensures some { IfOk result (λ found. IfSome found (OpensWith text.now)) }
    ensures none { IfOk result (λ found. IfNone found (IsNoHistory text.now)) }
{
    match read_history(alloc, text, mover) {
        Ok(history) => {
            let line = line_of(alloc, text)?;
            Ok(Some(Opening { history, line }))
        }
        Err(HistoryErr::Bad) => Ok(None),
        Err(HistoryErr::NoMemory) => Err(AllocError),
    }
}

/// The value of a line that is JSON.
fn value_of(alloc: Global, line: &[u8]) -> Result<Option<Value>, AllocError>
    ensures { IfOk result (λ found. is_utf8 line.now ≡ true → option_map view found ≡ read line.now) }
{
    match Value::from_slice(alloc, line) {
        Ok(value) => Ok(Some(value)),
        Err(error) if error.classify() == Category::Memory => Err(AllocError),
        Err(_) => Ok(None),
    }
}

/// The text that a value has.
fn text_in(value: &Value) -> Option<&str>
    ensures { option_map (λ s. s.now) result ≡ option_and_then as_str (get (codes "text") (view value.now)) }
{
    value.get("text").and_then(Value::as_str)
}

/// The history that begins with a line, where there is one.
fn history_of<M: Mover>(
    alloc: Global,
    line: &[u8],
    mover: &M,
) -> Result<Option<History>, AllocError>
    ensures some { IfOk result (λ found. IfSome found (λ h. Begins line.now h)) }
    ensures none { IfOk result (λ found. IfNone found ((q : Past) → Begins line.now q → ⊥)) }
{
    let Some(value) = value_of(alloc, line)? else {
        return Ok(None);
    };
    let Some(text) = text_in(&value) else {
        return Ok(None);
    };
    let history = match read_history(alloc, text, mover) {
        Ok(history) => history,
        Err(HistoryErr::Bad) => return Ok(None),
        Err(HistoryErr::NoMemory) => return Err(AllocError),
    };
    let canonical = line_of(alloc, text)?;
    if canonical.as_bytes() == line {
        Ok(Some(history))
    } else {
        Ok(None)
    }
}

/// Begins a history that has no edit with the text of another, and says whether the line is one to begin with.
pub(crate) fn begin<M: Mover>(
    alloc: Global,
    history: &mut History,
    line: &[u8],
    mover: &M,
) -> Result<bool, AllocError>
    ensures granted { IfOk result (λ is. is ≡ true → (history.old.entries ≡ []) × Begins line.now history.new) }
    ensures refused { IfOk result (λ is. is ≡ false → (next : Past) → (history.old.entries ≡ []) × Begins line.now next → ⊥) }
{
    if history.len() != 0 {
        return Ok(false);
    }
    match history_of(alloc, line, mover)? {
        Some(begun) => {
            *history = begun;
            Ok(true)
        }
        None => Ok(false),
    }
}
