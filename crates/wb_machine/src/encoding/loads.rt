//! The line of a load, printed straight from the text of its workbook.
ghost use Rattle.std.specs.Prelude.{◌≡◌, ◌++◌, length, IfOk, OnOk};
ghost use Rattle.json.specs.Tree.{json_tokens};
ghost use Rattle.memchr.specs.Find.{is_byte3, places};
ghost use Rattle.serde_json.specs.Written.{outline};
ghost use Rattle.wb_edit.specs.declared.edit.Edit.TheVariants.{Load};
ghost use Rattle.wb_history.specs.Restored.{one_of};
ghost use Rattle.wb_requests.specs.Encoding.Encoded.{edit_data};
ghost use Rattle.wb_machine.specs.Encoding.Text.{edit_line, IsJson};

use crate::encoding::printed::mark;
use json::Writer;
use memchr::memchr3_iter;
use std::alloc::{AllocError, Global};
use wb_range::NoMemory;

// No less than the length of the line of a load beside its text: mark, members, line end.
const AROUND: usize = 32;

// How many bytes of a text take two in a string of JSON: all that take more than one, where no control character is in it but
// line feeds.
fn escapes_in(text: &str) -> usize
    ensures { result ≡ length (places (is_byte3 10 34 92) text.now) }
{
    memchr3_iter(b'\n', b'"', b'\\', text.as_bytes()).count()
}

// The object of a load's request, written behind what the writer has.
fn write_load(out: &mut Writer, text: &str) -> Result<(), AllocError>
    ensures tokens { OnOk result (out.new.tokens ≡ out.old.tokens ++ json_tokens (outline (edit_data (Load text.now)))) }
    ensures before { OnOk result (out.new.before ≡ out.old.before) }
{
    out.begin_object()?;
    out.key("op")?;
    out.string("load")?;
    out.key("text")?;
    out.string(text)?;
    out.end_object()
}

// The line in room that was made at once, or no memory.
fn line_in_room(alloc: Global, text: &str, in_force: bool) -> Result<Vec<u8>, AllocError>
    ensures line { IfOk result (λ line. line.items ≡ edit_line (one_of (Load text.now) in_force)) }
    ensures json { OnOk result (IsJson (Load text.now)) }
{
    let length = text
        .len()
        .saturating_add(escapes_in(text))
        .saturating_add(AROUND);
    let mut line = Vec::with_capacity(alloc, length)?;
    line.extend_from_slice(mark(in_force).as_bytes())?;
    let mut writer = Writer::new(line);
    write_load(&mut writer, text)?;
    let mut line = writer.into_inner();
    line.extend_from_slice(b"\n")?;
    Ok(line)
}

/// The line of the load of this text, with its mark, as the text of a history has it. It is printed straight from the text:
/// no value of the request is made, and the room for the line is made once. `NoMemory` where none is left.
pub fn load_line(alloc: Global, text: &str, in_force: bool) -> Result<Vec<u8>, NoMemory>
    ensures line { IfOk result (λ line. line.items ≡ edit_line (one_of (Load text.now) in_force)) }
    ensures json { OnOk result (IsJson (Load text.now)) }
{
    match line_in_room(alloc, text, in_force) {
        Ok(line) => Ok(line),
        Err(_) => Err(NoMemory),
    }
}
