// The lines of changes.
ghost use Rattle.std.specs.Prelude.{[], ◌∷◌, OnOk};
ghost use Rattle.wb_lines.specs.Lines.{IsUnbroken};
ghost use Rattle.wb_keeping.specs.Granting.Granting.{AddsIfEdited, AddsLinesOf, undos_made, undos_of};
ghost use Rattle.wb_requests.specs.Wire.Proper.{IsProperRequest};

use std::alloc::{AllocError, Global};
use wb_kept::Changes;
use wb_machine::{EditNumbers, Reply};
use wb_requests::Request;
use wb_requests::wire::request_text;

/// Adds the line, where the reply tells of a new edit.
pub fn push_edit(changes: &mut Changes, reply: &Reply, line: &[u8]) -> Result<(), AllocError>
    requires { IsUnbroken line.now }
    ensures { OnOk result (AddsIfEdited reply.now line.now changes.old changes.new) }
{
    match reply {
        Reply::Edited(_, _) => changes.push(line),
        _ => Ok(()),
    }
}

/// Adds the canonical line of a request.
fn push_request(alloc: Global, changes: &mut Changes, request: &Request) -> Result<(), AllocError>
    requires { IsProperRequest request.now }
    ensures { OnOk result (AddsLinesOf (request.now ∷ []) changes.old changes.new) }
{
    match request_text(alloc, request) {
        Ok(line) => changes.push(line.as_bytes()),
        Err(_) => Err(AllocError),
    }
}

/// Adds the undo of each number.
fn push_undos(alloc: Global, changes: &mut Changes, numbers: &EditNumbers) -> Result<(), AllocError>
    ensures { OnOk result (AddsLinesOf (undos_of numbers.now) changes.old changes.new) }
{
    let each = numbers.as_slice();
    for number in each {
        push_request(alloc, changes, &Request::Undo(Some(*number)))?;
    }
    Ok(())
}

/// Adds the undos and redos that a reply tells of.
pub fn push_made(alloc: Global, changes: &mut Changes, reply: &Reply) -> Result<(), AllocError>
    ensures { OnOk result (AddsLinesOf (undos_made reply.now) changes.old changes.new) }
{
    match reply {
        Reply::Undone(number, _) => push_request(alloc, changes, &Request::Undo(Some(*number))),
        Reply::Redone(number, _) => push_request(alloc, changes, &Request::Redo(*number)),
        Reply::Cascaded(numbers, _) => push_undos(alloc, changes, numbers),
        _ => Ok(()),
    }
}
