// A change made again.
ghost use Rattle.std.specs.Prelude.{◌≡◌, ◌≢◌, true, false, IfOk};
ghost use Rattle.wb_history.specs.Past.{Past};
ghost use Rattle.wb_keeping.specs.Granting.Granting.{Grants, GrantsRequest, IsLogged};

use crate::beginning::begin;
use crate::stepping::step;
use std::alloc::{AllocError, Global};
use wb_arrays::Mover;
use wb_edit::Refusal;
use wb_history::History;
use wb_machine::Reply;
use wb_requests::{Request, read_request};

/// Whether a request is one that a log has.
fn is_logged(request: &Request) -> bool
    ensures yes { result ≡ true → IsLogged request.now }
    ensures no { result ≡ false → IsLogged request.now → ⊥ }
{
    match request {
        Request::Change(_) => true,
        Request::Undo(Some(_)) => true,
        Request::Redo(_) => true,
        _ => false,
    }
}

/// Says that a change is not granted, unless it was memory that was missing.
fn refuse(why: Refusal) -> Result<bool, AllocError>
    ensures { IfOk result (λ is. (is ≡ false) × (why ≢ Refusal.NoMemory)) }
{
    match why {
        Refusal::NoMemory => Err(AllocError),
        _ => Ok(false),
    }
}

/// Makes the change of a request that a log has, and says whether it was granted.
fn make_request<M: Mover>(
    alloc: Global,
    history: &mut History,
    request: Request,
    mover: &M,
) -> Result<bool, AllocError>
    requires { IsLogged request }
    ensures granted { IfOk result (λ is. is ≡ true → GrantsRequest history.old request history.new) }
    ensures refused { IfOk result (λ is. is ≡ false → (next : Past) → GrantsRequest history.old request next → ⊥) }
{
    let reply = step(alloc, history, request, mover);
    match &reply {
        Reply::Refused(why) => refuse(*why),
        _ => Ok(true),
    }
}

/// Makes a change again, and says whether it was granted. If not, or without memory, the history is of no use.
pub fn make<M: Mover>(
    alloc: Global,
    history: &mut History,
    change: &[u8],
    mover: &M,
) -> Result<bool, AllocError>
    ensures granted { IfOk result (λ is. is ≡ true → Grants history.old change.now history.new) }
    ensures refused { IfOk result (λ is. is ≡ false → (next : Past) → Grants history.old change.now next → ⊥) }
{
    let request = match read_request(alloc, change) {
        Ok(request) => request,
        Err(Refusal::NoMemory) => return Err(AllocError),
        Err(_) => return begin(alloc, history, change, mover),
    };
    if !is_logged(&request) {
        return Ok(false);
    }
    make_request(alloc, history, request, mover)
}
