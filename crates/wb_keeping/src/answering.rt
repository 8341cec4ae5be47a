// A line answered, with the changes that it made.
ghost use Rattle.std.specs.Prelude.{◌≡◌, ◌⊎◌, ◌++◌, ℕ, List, Ok, IfOk};
ghost use Rattle.wb_keeping.specs.Granting.Granting.{Answers, AddsLinesOf, changes_made, IsOther};
ghost use Rattle.wb_requests.specs.Requests.{request};
ghost use Rattle.wb_requests.specs.declared.requests.request.Request.TheVariants.{Change};
ghost use Rattle.wb_requests.specs.Wire.Proper.{IsProperRequest};
ghost use Rattle.wb_machine.specs.Machine.{Step, StepIfRead, NothingDone};

use crate::lines::{push_edit, push_made};
use crate::stepping::step;
use std::alloc::{AllocError, Global};
use wb_arrays::Mover;
use wb_edit::{Edit, Refusal};
use wb_history::History;
use wb_kept::Changes;
use wb_machine::{Reply, reply_text};
use wb_requests::wire::edit_text;
use wb_requests::{Request, read_request};

/// Answers an edit, and adds its line, which is written before the edit is given away.
fn answer_edit<M: Mover>(
    alloc: Global,
    history: &mut History,
    edit: Edit,
    changes: &mut Changes,
    mover: &M,
) -> Result<Reply, AllocError>
    requires { IsProperRequest (Change edit) }
    ensures { IfOk result (λ reply. (Step history.old (Change edit) reply history.new ⊎ NothingDone history.old reply history.new)
        × AddsLinesOf (changes_made reply (Ok (Change edit))) changes.old changes.new) }
{
    let Ok(line) = edit_text(alloc, &edit) else {
        return Ok(Reply::Refused(Refusal::NoMemory));
    };
    let reply = step(alloc, history, Request::Change(edit), mover);
    push_edit(changes, &reply, line.as_bytes())?;
    Ok(reply)
}

/// Answers a request that is no edit, and adds the changes that it made.
fn answer_other<M: Mover>(
    alloc: Global,
    history: &mut History,
    request: Request,
    changes: &mut Changes,
    mover: &M,
) -> Result<Reply, AllocError>
    requires { IsOther request }
    ensures { IfOk result (λ reply. Step history.old request reply history.new × AddsLinesOf (changes_made reply (Ok request)) changes.old changes.new) }
{
    let reply = step(alloc, history, request, mover);
    push_made(alloc, changes, &reply)?;
    Ok(reply)
}

/// Answers a request, and adds the changes that it made.
fn answer_read<M: Mover>(
    alloc: Global,
    history: &mut History,
    request: Request,
    changes: &mut Changes,
    mover: &M,
) -> Result<Reply, AllocError>
    requires { IsProperRequest request }
    ensures { IfOk result (λ reply. (Step history.old request reply history.new ⊎ NothingDone history.old reply history.new)
        × AddsLinesOf (changes_made reply (Ok request)) changes.old changes.new) }
{
    match request {
        Request::Change(edit) => answer_edit(alloc, history, edit, changes, mover),
        other => answer_other(alloc, history, other, changes, mover),
    }
}

/// The reply to a line.
fn reply_to<M: Mover>(
    alloc: Global,
    history: &mut History,
    line: &[u8],
    changes: &mut Changes,
    mover: &M,
) -> Result<Reply, AllocError>
    ensures { IfOk result (λ reply. (StepIfRead history.old (request line.now) reply history.new ⊎ NothingDone history.old reply history.new)
        × AddsLinesOf (changes_made reply (request line.now)) changes.old changes.new) }
{
    match read_request(alloc, line) {
        Err(why) => Ok(Reply::Refused(why)),
        Ok(request) => answer_read(alloc, history, request, changes, mover),
    }
}

/// Answers a line, and adds the changes that it made. Without memory the history is of no use.
pub fn answer<M: Mover>(
    alloc: Global,
    history: &mut History,
    line: &[u8],
    changes: &mut Changes,
    mover: &M,
) -> Result<Vec<u8>, AllocError>
    ensures { IfOk result (λ reply. (made : List (List ℕ)) × Answers history.old line.now reply.items made history.new
        × (changes.new ≡ changes.old ++ made)) }
{
    let reply = reply_to(alloc, history, line, changes, mover)?;
    match reply_text(alloc, &reply) {
        Ok(text) => Ok(text.into_bytes()),
        Err(_) => Err(AllocError),
    }
}
