//! The lines of the changes that an answered request made.
ghost use Rattle.std.specs.Prelude.{◌≡◌, true, false, OnOk};
ghost use Rattle.wb_requests.specs.declared.requests.request.Request.{Request};
ghost use Rattle.wb_desk.specs.Entries.{leaves_all};
ghost use Rattle.wb_kept_seats.specs.Lines.{IsSaid, IsAhead, Adds};

use std::alloc::{AllocError, Global};
use wb_keeping::{push_edit, push_made};
use wb_kept::Changes;
use wb_machine::Reply;
use wb_requests::Request;
use wb_requests::wire::edit_text;

/// The line of a request.
#[derive(Drop)]
pub(crate) enum Ahead {
    /// An edit's canonical line.
    Edit(String),
    /// An edit's, for which there was no memory.
    NoMemory,
    /// A request that is no edit: what it changes is told by the reply.
    Other,
}

/// The line of a request.
pub(crate) fn line_ahead(alloc: Global, request: &Request) -> Ahead
    requires { IsSaid request.now }
    ensures { IsAhead request.now result }
{
    match request {
        Request::Change(edit) => {
            match edit_text(alloc, edit) {
                Ok(line) => Ahead::Edit(line),
                Err(_) => Ahead::NoMemory,
            }
        }
        _ => Ahead::Other,
    }
}

/// Whether a reply says that nothing was changed.
fn leaves_all(reply: &Reply) -> bool
    ensures { result ≡ leaves_all reply.now }
{
    match reply {
        Reply::Edited(_, _) => false,
        Reply::Undone(_, _) => false,
        Reply::Cascaded(_, _) => false,
        Reply::Redone(_, _) => false,
        Reply::Listed(_) => true,
        Reply::Answered(_) => true,
        Reply::Printed(_) => true,
        Reply::PrintedFrom(_, _) => true,
        Reply::Counted(_, _) => true,
        Reply::Explained(_) => true,
        Reply::Refused(_) => true,
    }
}

/// Adds the lines of the changes that a reply tells of.
fn push_changes(
    alloc: Global,
    waiting: &mut Changes,
    ahead: &Ahead,
    reply: &Reply,
) -> Result<(), AllocError>
    requires { (asked : Request) × IsAhead asked ahead.now }
    ensures { OnOk result (Adds ahead.now reply.now waiting.old waiting.new) }
{
    match ahead {
        Ahead::Edit(line) => push_edit(waiting, reply, line.as_bytes()),
        Ahead::NoMemory => Err(AllocError),
        Ahead::Other => push_made(alloc, waiting, reply),
    }
}

/// Adds the lines of the changes that a reply tells of to those of a turn, and says whether there may be more turns: not where
/// there is no memory for a line.
pub(crate) fn let_wait(
    alloc: Global,
    waiting: &mut Changes,
    ahead: &Ahead,
    reply: &Reply,
    is_open: bool,
) -> bool
    requires { (asked : Request) × IsAhead asked ahead.now }
    ensures left { leaves_all reply.now ≡ true → (waiting.new ≡ waiting.old) × (result ≡ is_open) }
    ensures told { leaves_all reply.now ≡ false → result ≡ true → (is_open ≡ true) × Adds ahead.now reply.now waiting.old waiting.new }
{
    if leaves_all(reply) {
        return is_open;
    }
    if push_changes(alloc, waiting, ahead, reply).is_err() {
        return false;
    }
    is_open
}
