// A line answered by a history.
ghost use Rattle.std.specs.Prelude.{◌⊎◌, ℕ, List, IfOk, OnErr};
ghost use Rattle.wb_requests.specs.Requests.{request};
ghost use Rattle.wb_machine.specs.Machine.{StepIfRead, NothingDone, AnswersText};

use crate::replies::reply::Reply;
use crate::replies::text::reply_text;
use crate::serving::steps::answer_request;
use std::alloc::{AllocError, Global};
use wb_arrays::Mover;
use wb_history::History;
use wb_requests::read_request;

// The reply to a line.
fn reply_to<M: Mover>(alloc: Global, history: &mut History, line: &[u8], mover: &M) -> Reply
    ensures { StepIfRead history.old (request line.now) result history.new ⊎ NothingDone history.old result history.new }
{
    match read_request(alloc, line) {
        Ok(request) => answer_request(alloc, history, request, mover),
        Err(why) => Reply::Refused(why),
    }
}

/// The text of the reply to a line, and the next history, a step of the machine; where there is no memory for the text, the step
/// was made. It is what a session over a history answers by.
pub fn answer_line<M: Mover>(
    alloc: Global,
    history: &mut History,
    line: &[u8],
    mover: &M,
) -> Result<Vec<u8>, AllocError>
    ensures ok { IfOk result (λ reply. AnswersText history.old line.now reply.items history.new) }
    ensures err { OnErr result ((reply : List ℕ) × AnswersText history.old line.now reply history.new) }
{
    let reply = reply_to(alloc, history, line, mover);
    match reply_text(alloc, &reply) {
        Ok(text) => Ok(text.into_bytes()),
        Err(_) => Err(AllocError),
    }
}
