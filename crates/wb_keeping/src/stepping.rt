// The one call of the machine of requests and replies.
ghost use Rattle.wb_machine.specs.Machine.{Step};

use std::alloc::Global;
use wb_arrays::Mover;
use wb_history::History;
use wb_machine::{Reply, answer_request};
use wb_requests::Request;

/// Answers a request.
pub(crate) fn step<M: Mover>(
    alloc: Global,
    history: &mut History,
    request: Request,
    mover: &M,
) -> Reply
    ensures { Step history.old request result history.new }
{
    answer_request(alloc, history, request, mover)
}
