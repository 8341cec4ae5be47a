// One request answered by a history.
ghost use Rattle.std.specs.Prelude.{◌≡◌, Bool, true, false, None, Ok, IfOk, OnErr};
ghost use Rattle.wb_history.specs.Cascades.{DependentsReply, OfNumber};
ghost use Rattle.wb_history.specs.Past.{meant};
ghost use Rattle.wb_requests.specs.declared.requests.request.Request.TheVariants.{Cascade};
ghost use Rattle.wb_machine.specs.Machine.{Step};
ghost use Rattle.wb_desk.specs.Entries.{is_told, is_entered, is_long, cascade_in};
ghost use Rattle.wb_desk.specs.Records.{is_question};
ghost use Rattle.wb_desk.specs.Serving.{entry};

use crate::entry::Entry;
use std::alloc::Global;
use wb_arrays::Mover;
use wb_edit::Refusal;
use wb_history::History;
use wb_log::Undoer;
use wb_machine::{EditNumbers, Reply, answer_request};
use wb_range::NoMemory;
use wb_requests::Request;

fn is_told(refusal: Refusal) -> bool
    ensures { result ≡ is_told refusal }
{
    match refusal {
        Refusal::NoMemory => false,
        Refusal::StrangePass => false,
        Refusal::BadRequest => true,
        Refusal::BadLiteral => true,
        Refusal::Refused(_) => true,
        Refusal::NoSuchEdit => true,
        Refusal::NotInForce => true,
        Refusal::InForce => true,
        Refusal::Blocked(_) => true,
        Refusal::RefusedInPlace(_) => true,
    }
}

/// Whether a reply is entered.
pub(crate) fn is_entered(reply: &Reply) -> bool
    ensures { result ≡ is_entered reply.now }
{
    match reply {
        Reply::Edited(_, _) => true,
        Reply::Undone(_, _) => true,
        Reply::Cascaded(_, _) => true,
        Reply::Redone(_, _) => true,
        Reply::Listed(_) => true,
        Reply::Answered(_) => true,
        Reply::Printed(_) => true,
        Reply::PrintedFrom(_, _) => true,
        Reply::Counted(_, _) => true,
        Reply::Explained(_) => true,
        Reply::Refused(why) => is_told(*why),
    }
}

// An equal reply. Only an answer, a list, a text or what is told of a line may find no memory.
fn copied(alloc: Global, reply: &Reply) -> Result<Reply, NoMemory>
    ensures ok { IfOk result (λ r. r ≡ reply.now) }
    ensures err { OnErr result (is_long reply.now ≡ true) }
{
    match reply {
        Reply::Edited(edit, count) => Ok(Reply::Edited(*edit, *count)),
        Reply::Undone(edit, count) => Ok(Reply::Undone(*edit, *count)),
        Reply::Cascaded(edits, count) => Ok(Reply::Cascaded(edits.copy(alloc)?, *count)),
        Reply::Redone(edit, count) => Ok(Reply::Redone(*edit, *count)),
        Reply::Listed(edits) => Ok(Reply::Listed(edits.copy(alloc)?)),
        Reply::Answered(answer) => Ok(Reply::Answered(answer.copy(alloc)?)),
        Reply::Printed(text) => Ok(Reply::Printed(text.copy(alloc)?)),
        Reply::PrintedFrom(edits, text) => Ok(Reply::PrintedFrom(*edits, text.copy(alloc)?)),
        Reply::Counted(edits, writes) => Ok(Reply::Counted(*edits, *writes)),
        Reply::Explained(Some(wrong)) => Ok(Reply::Explained(Some(wrong.copy(alloc)?))),
        Reply::Explained(None) => Ok(Reply::Explained(None)),
        Reply::Refused(why) => Ok(Reply::Refused(*why)),
    }
}

// The number of the edit that a request undoes with all that need it.
fn cascade_in(request: &Request) -> Option<u64>
    ensures { result ≡ cascade_in request.now }
{
    match request {
        Request::Cascade(number) => Some(*number),
        Request::Change(_)
        | Request::Undo(_)
        | Request::Redo(_)
        | Request::Dependents(_)
        | Request::Ask(_)
        | Request::Print
        | Request::History(_)
        | Request::Edits
        | Request::Explain(_) => None,
    }
}

// Undo with dependents, which are these: the copies of the list are made before anything is undone.
fn cascade_listed<M: Mover>(
    alloc: Global,
    history: &mut History,
    number: u64,
    listed: EditNumbers,
    mover: &M,
) -> Result<(Reply, Reply, Reply), NoMemory>
    requires { OfNumber (DependentsReply (meant history.old.entries)) number (Ok listed) }
    ensures ok { IfOk result (λ r. (is_entered r.0 ≡ true) × Step history.old (Cascade number) r.0 history.new × (r.1 ≡ r.0) × (r.2 ≡ r.0)) }
    ensures err { OnErr result (history.new ≡ history.old) }
{
    let first = listed.copy(alloc)?;
    let second = listed.copy(alloc)?;
    let (done, count) = history.cascade_listed(
        number,
        listed.as_slice(),
        &mut Undoer::new(),
        mover,
    )?;
    Ok((
        Reply::Cascaded(listed.first(done), count),
        Reply::Cascaded(first.first(done), count),
        Reply::Cascaded(second.first(done), count),
    ))
}

// Undo with dependents: the reply, and two equal ones.
fn replied_to_cascade<M: Mover>(
    alloc: Global,
    history: &mut History,
    number: u64,
    mover: &M,
) -> Result<(Reply, Reply, Reply), NoMemory>
    ensures ok { IfOk result (λ r. (is_entered r.0 ≡ true) × Step history.old (Cascade number) r.0 history.new × (r.1 ≡ r.0) × (r.2 ≡ r.0)) }
    ensures err { OnErr result (history.new ≡ history.old) }
{
    match history.dependents(number) {
        Ok(listed) => cascade_listed(alloc, history, number, EditNumbers::new(listed), mover),
        Err(why) => {
            if !is_told(why) {
                return Err(NoMemory);
            }
            Ok((
                Reply::Refused(why),
                Reply::Refused(why),
                Reply::Refused(why),
            ))
        }
    }
}

// The reply to any other request, and two equal ones.
#[tactic(auto, using(crate::proofs::Replies::unentered_leaves, crate::proofs::Replies::long_leaves))]
fn replied_to_other<M: Mover>(
    alloc: Global,
    history: &mut History,
    request: Request,
    mover: &M,
) -> Result<(Reply, Reply, Reply), NoMemory>
    requires { cascade_in request ≡ None }
    ensures ok { IfOk result (λ r. (is_entered r.0 ≡ true) × Step history.old request r.0 history.new × (r.1 ≡ r.0) × (r.2 ≡ r.0)) }
    ensures err { OnErr result (history.new ≡ history.old) }
{
    let reply = answer_request(alloc, history, request, mover);
    if !is_entered(&reply) {
        return Err(NoMemory);
    }
    let first = copied(alloc, &reply)?;
    let second = copied(alloc, &reply)?;
    Ok((reply, first, second))
}

// Answers a request: the reply, and two equal ones. Where no memory is left, nothing is changed.
fn replied<M: Mover>(
    alloc: Global,
    history: &mut History,
    request: Request,
    mover: &M,
) -> Result<(Reply, Reply, Reply), NoMemory>
    ensures ok { IfOk result (λ r. (is_entered r.0 ≡ true) × Step history.old request r.0 history.new × (r.1 ≡ r.0) × (r.2 ≡ r.0)) }
    ensures err { OnErr result (history.new ≡ history.old) }
{
    match cascade_in(&request) {
        Some(number) => replied_to_cascade(alloc, history, number, mover),
        None => replied_to_other(alloc, history, request, mover),
    }
}

// An entry without its reply yet.
fn opened(alloc: Global, seat: usize, request: Request) -> Result<Box<Entry>, NoMemory>
    ensures { IfOk result (λ b. (b.value.seat ≡ seat) × (b.value.request ≡ request)) }
{
    let reply = Reply::Refused(Refusal::NoMemory);
    Ok(Box::new(
        alloc,
        Entry {
            seat,
            request,
            reply,
        },
    )?)
}

/// Answers any request: the reply, and two entries of it. Memory for these is taken first; where none is left, nothing is
/// changed.
pub(crate) fn boxed<M: Mover>(
    alloc: Global,
    history: &mut History,
    seat: usize,
    request: Request,
    mover: &M,
) -> Result<(Reply, Box<Entry>, Box<Entry>), NoMemory>
    ensures ok { IfOk result (λ r. (is_entered r.0 ≡ true) × Step history.old request r.0 history.new × (r.1.value ≡ entry seat request r.0) ×
        (r.2.value ≡ entry seat request r.0)) }
    ensures err { OnErr result (history.new ≡ history.old) }
{
    let asked = request.copy(alloc)?;
    let told = request.copy(alloc)?;
    let mut first = opened(alloc, seat, asked)?;
    let mut second = opened(alloc, seat, told)?;
    let (reply, one, other) = replied(alloc, history, request, mover)?;
    first.reply = one;
    second.reply = other;
    Ok((reply, first, second))
}

/// Whether a request is a question, which changes nothing.
pub(crate) fn is_question(request: &Request) -> bool
    ensures { result ≡ is_question request.now }
{
    match request {
        Request::Dependents(_)
        | Request::Ask(_)
        | Request::Print
        | Request::History(_)
        | Request::Edits
        | Request::Explain(_) => true,
        Request::Change(_) | Request::Undo(_) | Request::Redo(_) | Request::Cascade(_) => false,
    }
}

/// Answers a question, which leaves the history.
#[tactic(auto, using(crate::proofs::Replies::question_leaves))]
pub(crate) fn answered_question<M: Mover>(
    alloc: Global,
    history: &mut History,
    request: Request,
    mover: &M,
) -> Result<Reply, NoMemory>
    requires { is_question request ≡ true }
    ensures ok { IfOk result (λ r. (is_entered r ≡ true) × Step history.old request r history.new) }
    ensures left { history.new ≡ history.old }
{
    let reply = answer_request(alloc, history, request, mover);
    if !is_entered(&reply) {
        return Err(NoMemory);
    }
    Ok(reply)
}
