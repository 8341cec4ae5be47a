//! A request answered by a history, and entered with its reply in the lists of journal and pass.

ghost use Rattle.std.specs.Prelude.{◌≡◌, ◌&&◌, ◌++◌, ◌∷◌, [], length, true, false, IfOk, IfSome, OnOk, OnErr};
ghost use Rattle.std.specs.Arc.{arc_value};
ghost use Rattle.wb_requests.specs.declared.requests.request.Request.TheVariants as asked;
ghost use Rattle.wb_edit.specs.declared.refusal.Refusal.TheVariants as refusals;
ghost use Rattle.wb_machine.specs.Machine.{Step};
ghost use Rattle.wb_machine.specs.declared.replies.reply.Reply.TheVariants as replies;
ghost use Rattle.wb_desk.specs.declared.brief.Brief.TheVariants as briefs;
ghost use Rattle.wb_desk.specs.Asked.{is_of_line, plain_request, reply_at, request_at};
ghost use Rattle.wb_desk.specs.Briefs.{is_new_value, request_of};
ghost use Rattle.wb_desk.specs.Entries.{is_entered};
ghost use Rattle.wb_desk.specs.Placings.{AreNamed, IsPlaced, BothEnter, BothStay};
ghost use Rattle.wb_desk.specs.Records.{IsKept, IsWithin, entries_in, is_edited, is_question, shown};
ghost use Rattle.wb_desk.specs.Serving.{entry};
ghost use Rattle.wb_desk.specs.Tables.{IsRoomy};

use crate::at_index::{AskedAt, asked_at};
use crate::brief::{Brief, brief_of, request_of};
use crate::entry::{Entry, LineReply};
use crate::form::{Form, form_of, nameless_form};
use crate::placing::{Placed, both_places, latest_places, places_of};
use crate::plain::{Plain, is_of_line, plain_of};
use crate::register::Register;
use crate::replying::{answered_question, boxed, is_entered, is_question};
use std::alloc::Global;
use std::sync::Arc;
use wb_arrays::Mover;
use wb_edit::Refusal;
use wb_history::History;
use wb_machine::{Reply, answer_request};
use wb_range::NoMemory;
use wb_requests::{LineText, Request};

// Enters one entry in two lists, which share it.
fn enter_shared(
    alloc: Global,
    entry: Entry,
    list: &mut Register,
    own: &mut Register,
) -> Result<(), NoMemory>
    requires list { IsKept list.old × IsRoomy list.old }
    requires own { IsKept own.old × IsRoomy own.old }
    ensures kept { IsKept list.new × IsKept own.new }
    ensures ok { OnOk result (BothEnter list.old list.new own.old own.new entry) }
    ensures err { OnErr result (BothStay list.old list.new own.old own.new) }
{
    let Ok(one) = Arc::new(alloc, entry) else {
        return Err(NoMemory);
    };
    let Ok(other) = Arc::try_clone(&one) else {
        return Err(NoMemory);
    };
    list.add(Form::Shared(one));
    own.add(Form::Shared(other));
    Ok(())
}

// Enters a request and its reply whole.
fn enter_whole(
    alloc: Global,
    seat: usize,
    request: Request,
    reply: &Reply,
    list: &mut Register,
    own: &mut Register,
) -> Result<(), NoMemory>
    requires list { IsKept list.old × IsRoomy list.old }
    requires own { IsKept own.old × IsRoomy own.old }
    ensures kept { IsKept list.new × IsKept own.new }
    ensures ok { OnOk result (BothEnter list.old list.new own.old own.new (entry seat request reply.now)) }
    ensures err { OnErr result (BothStay list.old list.new own.old own.new) }
{
    let Ok(reply) = reply.copy(alloc) else {
        return Err(NoMemory);
    };
    let entry = Entry {
        seat,
        request,
        reply,
    };
    enter_shared(alloc, entry, list, own)
}

// Two owners of a copy of a reply.
fn twice(alloc: Global, reply: &Reply) -> Result<(Arc<Reply, Global>, Arc<Reply, Global>), NoMemory>
    ensures { IfOk result (λ p. (arc_value p.0 ≡ reply.now) × (arc_value p.1 ≡ reply.now)) }
{
    let Ok(reply) = reply.copy(alloc) else {
        return Err(NoMemory);
    };
    let Ok(one) = Arc::new(alloc, reply) else {
        return Err(NoMemory);
    };
    match Arc::try_clone(&one) {
        Ok(other) => Ok((one, other)),
        Err(_) => Err(NoMemory),
    }
}

// Enters the elements on a locale.
fn enter_on_locale(
    alloc: Global,
    seat: usize,
    at: &Placed,
    locale: &u64,
    reply: &Reply,
    list: &mut Register,
    own: &mut Register,
) -> Result<(), NoMemory>
    requires placed { IsPlaced seat (request_of at.now.name at.now.brief) list.old own.old at.now }
    requires locale { at.now.brief ≡ briefs.Piece locale.now }
    requires list { IsKept list.old × IsRoomy list.old }
    requires own { IsKept own.old × IsRoomy own.old }
    ensures kept { IsKept list.new × IsKept own.new }
    ensures ok { OnOk result (BothEnter list.old list.new own.old own.new (entry seat (request_of at.now.name at.now.brief) reply.now)) }
    ensures err { OnErr result (BothStay list.old list.new own.old own.new) }
{
    match twice(alloc, reply) {
        Ok((one, other)) => {
            list.add(Form::OnLocale(at.first, *locale, one));
            own.add(Form::OnLocale(at.second, *locale, other));
            Ok(())
        }
        Err(NoMemory) => Err(NoMemory),
    }
}

// Enters a request that is made again of its name and the rest of it, and its reply, whole. (The request is large, and few entries
// need it, so room for it is taken here alone.)
#[inline(never)]
fn enter_whole_again(
    alloc: Global,
    seat: usize,
    at: &Placed,
    reply: &Reply,
    list: &mut Register,
    own: &mut Register,
) -> Result<(), NoMemory>
    requires list { IsKept list.old × IsRoomy list.old }
    requires own { IsKept own.old × IsRoomy own.old }
    ensures kept { IsKept list.new × IsKept own.new }
    ensures ok { OnOk result (BothEnter list.old list.new own.old own.new (entry seat (request_of at.now.name at.now.brief) reply.now)) }
    ensures err { OnErr result (BothStay list.old list.new own.old own.new) }
{
    enter_whole(
        alloc,
        seat,
        request_of(at.name, &at.brief),
        reply,
        list,
        own,
    )
}

// Enters a new value at an integer that was accepted.
fn enter_set(
    seat: usize,
    at: &Placed,
    i: &i64,
    value: &i64,
    number: &u64,
    count: &usize,
    list: &mut Register,
    own: &mut Register,
)
    requires placed { IsPlaced seat (request_of at.now.name at.now.brief) list.old own.old at.now }
    requires brief { at.now.brief ≡ briefs.Set i.now value.now }
    requires list { IsKept list.old × IsRoomy list.old }
    requires own { IsKept own.old × IsRoomy own.old }
    ensures kept { IsKept list.new × IsKept own.new }
    ensures entered { BothEnter list.old list.new own.old own.new (entry seat (request_of at.now.name at.now.brief) (replies.Edited number.now count.now)) }
{
    list.add(Form::Set(at.first, *i, *value, *number, *count));
    own.add(Form::Set(at.second, *i, *value, *number, *count));
}

// Enters what was asked of a name, and its reply. Memory may run out where that is no accepted new value.
fn enter_placed(
    alloc: Global,
    seat: usize,
    at: &Placed,
    reply: &Reply,
    list: &mut Register,
    own: &mut Register,
) -> Result<(), NoMemory>
    requires placed { IsPlaced seat (request_of at.now.name at.now.brief) list.old own.old at.now }
    requires list { IsKept list.old × IsRoomy list.old }
    requires own { IsKept own.old × IsRoomy own.old }
    ensures kept { IsKept list.new × IsKept own.new }
    ensures ok { OnOk result (BothEnter list.old list.new own.old own.new (entry seat (request_of at.now.name at.now.brief) reply.now)) }
    ensures err { OnErr result (BothStay list.old list.new own.old own.new) }
    ensures full { OnErr result ((is_edited reply.now && is_new_value at.now.brief) ≡ false) }
{
    if let Brief::Set(i, value) = &at.brief {
        if let Reply::Edited(number, count) = reply {
            enter_set(seat, at, i, value, number, count, list, own);
            return Ok(());
        }
    }
    if let Some(one) = form_of(at.first, &at.brief, reply) {
        if let Some(other) = form_of(at.second, &at.brief, reply) {
            list.add(one);
            own.add(other);
            return Ok(());
        }
    }
    if let Brief::Piece(locale) = &at.brief {
        return enter_on_locale(alloc, seat, at, locale, reply, list, own);
    }
    enter_whole_again(alloc, seat, at, reply, list, own)
}

/// Lets a request go. It is in a function of its own, so that only the ways that end with it look into the request, and the one that
/// goes on moves it whole.
#[inline(never)]
pub(crate) fn let_go(request: Request) {
    let _ = request;
}

/// The reply that there was no memory.
pub(crate) fn no_memory() -> Reply
    ensures { result ≡ replies.Refused refusals.NoMemory }
{
    Reply::Refused(Refusal::NoMemory)
}

// Answers a request of a name whose places are known. Room is there. (It is a part of each caller, so that the request isn't moved
// once more.)
#[inline(always)]
#[tactic(auto, using(crate::proofs::Replies::unentered_leaves, crate::proofs::Replies::placed_leaves))]
fn answer_placed<M: Mover>(
    alloc: Global,
    history: &mut History,
    seat: usize,
    request: Request,
    at: &Placed,
    list: &mut Register,
    own: &mut Register,
    mover: &M,
) -> Reply
    requires placed { IsPlaced seat request list.old own.old at.now }
    requires list { IsKept list.old × IsRoomy list.old }
    requires own { IsKept own.old × IsRoomy own.old }
    ensures kept { IsKept list.new × IsKept own.new }
    ensures entered { is_entered result ≡ true → Step history.old request result history.new × BothEnter list.old list.new own.old own.new (entry seat request result) }
    ensures stays { is_entered result ≡ false → (result ≡ replies.Refused refusals.NoMemory) × (history.new ≡ history.old) × BothStay list.old list.new own.old own.new }
{
    let reply = answer_request(alloc, history, request, mover);
    if !is_entered(&reply) {
        return no_memory();
    }
    if enter_placed(alloc, seat, at, &reply, list, own).is_err() {
        return no_memory();
    }
    reply
}

// Enters a question of no name and its reply.
fn enter_replied(
    alloc: Global,
    seat: usize,
    plain: &Plain,
    reply: &Reply,
    list: &mut Register,
    own: &mut Register,
) -> Result<(), NoMemory>
    requires seats { (list.old.seat ≡ seat) × (own.old.seat ≡ seat) }
    requires list { IsKept list.old × IsRoomy list.old }
    requires own { IsKept own.old × IsRoomy own.old }
    ensures kept { IsKept list.new × IsKept own.new }
    ensures ok { OnOk result (BothEnter list.old list.new own.old own.new (entry seat (plain_request plain.now) reply.now)) }
    ensures err { OnErr result (BothStay list.old list.new own.old own.new) }
{
    match twice(alloc, reply) {
        Ok((one, other)) => {
            list.add(Form::Replied(*plain, one));
            own.add(Form::Replied(*plain, other));
            Ok(())
        }
        Err(NoMemory) => Err(NoMemory),
    }
}

// Enters a question of no name and its reply, in few bytes where it can.
fn enter_plain(
    alloc: Global,
    seat: usize,
    plain: &Plain,
    reply: &Reply,
    list: &mut Register,
    own: &mut Register,
) -> Result<(), NoMemory>
    requires seats { (list.old.seat ≡ seat) × (own.old.seat ≡ seat) }
    requires list { IsKept list.old × IsRoomy list.old }
    requires own { IsKept own.old × IsRoomy own.old }
    ensures kept { IsKept list.new × IsKept own.new }
    ensures ok { OnOk result (BothEnter list.old list.new own.old own.new (entry seat (plain_request plain.now) reply.now)) }
    ensures err { OnErr result (BothStay list.old list.new own.old own.new) }
{
    if let Some(one) = nameless_form(plain, reply) {
        if let Some(other) = nameless_form(plain, reply) {
            list.add(one);
            own.add(other);
            return Ok(());
        }
    }
    enter_replied(alloc, seat, plain, reply, list, own)
}

// Enters a line that was asked about, and the reply.
fn enter_line(
    alloc: Global,
    seat: usize,
    line: LineText,
    reply: &Reply,
    list: &mut Register,
    own: &mut Register,
) -> Result<(), NoMemory>
    requires seats { (list.old.seat ≡ seat) × (own.old.seat ≡ seat) }
    requires list { IsKept list.old × IsRoomy list.old }
    requires own { IsKept own.old × IsRoomy own.old }
    ensures kept { IsKept list.new × IsKept own.new }
    ensures ok { OnOk result (BothEnter list.old list.new own.old own.new (entry seat (asked.Explain line) reply.now)) }
    ensures err { OnErr result (BothStay list.old list.new own.old own.new) }
{
    let Ok(reply) = reply.copy(alloc) else {
        return Err(NoMemory);
    };
    let Ok(one) = Arc::new(alloc, LineReply { line, reply }) else {
        return Err(NoMemory);
    };
    let Ok(other) = Arc::try_clone(&one) else {
        return Err(NoMemory);
    };
    list.add(Form::OfLine(one));
    own.add(Form::OfLine(other));
    Ok(())
}

// Enters a question at an index, whose name stands at these places.
fn enter_at_index(
    alloc: Global,
    seat: usize,
    question: &AskedAt,
    first: u16,
    second: u16,
    list: &mut Register,
    own: &mut Register,
) -> Result<(), NoMemory>
    requires named { AreNamed seat question.now.name list.old own.old first second }
    requires list { IsKept list.old × IsRoomy list.old }
    requires own { IsKept own.old × IsRoomy own.old }
    ensures kept { IsKept list.new × IsKept own.new }
    ensures ok { OnOk result (BothEnter list.old list.new own.old own.new (entry seat (request_at question.now.name question.now.at question.now.told) (reply_at question.now.told))) }
    ensures err { OnErr result (BothStay list.old list.new own.old own.new) }
{
    let Ok(one) = list.index_of(alloc, &question.at) else {
        return Err(NoMemory);
    };
    let Ok(other) = Arc::try_clone(&one) else {
        return Err(NoMemory);
    };
    list.add(Form::AtIndex(first, question.told, one));
    own.add(Form::AtIndex(second, question.told, other));
    Ok(())
}

// Enters a question at an index, and its reply.
fn enter_asked_at(
    alloc: Global,
    seat: usize,
    request: Request,
    reply: &Reply,
    question: &AskedAt,
    list: &mut Register,
    own: &mut Register,
) -> Result<(), NoMemory>
    requires request { request_at question.now.name question.now.at question.now.told ≡ request }
    requires reply { reply_at question.now.told ≡ reply.now }
    requires list { IsKept list.old × IsRoomy list.old }
    requires own { IsKept own.old × IsRoomy own.old }
    ensures kept { IsKept list.new × IsKept own.new }
    ensures ok { OnOk result (BothEnter list.old list.new own.old own.new (entry seat request reply.now)) }
    ensures err { OnErr result (BothStay list.old list.new own.old own.new) }
{
    match both_places(seat, &question.name, list, own) {
        Ok(Some((first, second))) => {
            enter_at_index(alloc, seat, question, first, second, list, own)
        }
        Ok(None) => enter_whole(alloc, seat, request, reply, list, own),
        Err(NoMemory) => Err(NoMemory),
    }
}

// Enters what was asked about a line, and the reply.
fn enter_explained(
    alloc: Global,
    seat: usize,
    request: Request,
    reply: &Reply,
    list: &mut Register,
    own: &mut Register,
) -> Result<(), NoMemory>
    requires line { is_of_line request ≡ true }
    requires seats { (list.old.seat ≡ seat) × (own.old.seat ≡ seat) }
    requires list { IsKept list.old × IsRoomy list.old }
    requires own { IsKept own.old × IsRoomy own.old }
    ensures kept { IsKept list.new × IsKept own.new }
    ensures ok { OnOk result (BothEnter list.old list.new own.old own.new (entry seat request reply.now)) }
    ensures err { OnErr result (BothStay list.old list.new own.old own.new) }
{
    match request {
        Request::Explain(line) => enter_line(alloc, seat, line, reply, list, own),
        Request::Change(_)
        | Request::Undo(_)
        | Request::Redo(_)
        | Request::Cascade(_)
        | Request::Dependents(_)
        | Request::Ask(_)
        | Request::Print
        | Request::History(_)
        | Request::Edits => unreachable!(),
    }
}

// Enters a question at an index or about a line, and its reply, or any other one.
fn enter_worded(
    alloc: Global,
    seat: usize,
    request: Request,
    reply: &Reply,
    list: &mut Register,
    own: &mut Register,
) -> Result<(), NoMemory>
    requires seats { (list.old.seat ≡ seat) × (own.old.seat ≡ seat) }
    requires list { IsKept list.old × IsRoomy list.old }
    requires own { IsKept own.old × IsRoomy own.old }
    ensures kept { IsKept list.new × IsKept own.new }
    ensures ok { OnOk result (BothEnter list.old list.new own.old own.new (entry seat request reply.now)) }
    ensures err { OnErr result (BothStay list.old list.new own.old own.new) }
{
    if is_of_line(&request) {
        return enter_explained(alloc, seat, request, reply, list, own);
    }
    match asked_at(&request, reply) {
        Some(question) => enter_asked_at(alloc, seat, request, reply, &question, list, own),
        None => enter_whole(alloc, seat, request, reply, list, own),
    }
}

// Enters a question and its reply.
fn enter_question(
    alloc: Global,
    seat: usize,
    request: Request,
    reply: &Reply,
    list: &mut Register,
    own: &mut Register,
) -> Result<(), NoMemory>
    requires list { IsKept list.old × IsRoomy list.old }
    requires own { IsKept own.old × IsRoomy own.old }
    ensures kept { IsKept list.new × IsKept own.new }
    ensures ok { OnOk result (BothEnter list.old list.new own.old own.new (entry seat request reply.now)) }
    ensures err { OnErr result (BothStay list.old list.new own.old own.new) }
{
    if list.seat() != seat {
        return enter_whole(alloc, seat, request, reply, list, own);
    }
    if own.seat() != seat {
        return enter_whole(alloc, seat, request, reply, list, own);
    }
    match plain_of(&request) {
        Some(plain) => enter_plain(alloc, seat, &plain, reply, list, own),
        None => enter_worded(alloc, seat, request, reply, list, own),
    }
}

// Answers a question. Room is there.
fn answer_question<M: Mover>(
    alloc: Global,
    history: &mut History,
    seat: usize,
    request: Request,
    list: &mut Register,
    own: &mut Register,
    mover: &M,
) -> Reply
    requires question { is_question request ≡ true }
    requires list { IsKept list.old × IsRoomy list.old }
    requires own { IsKept own.old × IsRoomy own.old }
    ensures kept { IsKept list.new × IsKept own.new }
    ensures entered { is_entered result ≡ true → Step history.old request result history.new × BothEnter list.old list.new own.old own.new (entry seat request result) }
    ensures stays { is_entered result ≡ false → (result ≡ replies.Refused refusals.NoMemory) × (history.new ≡ history.old) × BothStay list.old list.new own.old own.new }
{
    let Ok(asked) = request.copy(alloc) else {
        return no_memory();
    };
    let Ok(reply) = answered_question(alloc, history, request, mover) else {
        return no_memory();
    };
    if enter_question(alloc, seat, asked, &reply, list, own).is_err() {
        return no_memory();
    }
    reply
}

// Answers any request. Room is there, and memory for both entries is taken first.
fn answer_change<M: Mover>(
    alloc: Global,
    history: &mut History,
    seat: usize,
    request: Request,
    list: &mut Register,
    own: &mut Register,
    mover: &M,
) -> Reply
    requires list { IsKept list.old × IsRoomy list.old }
    requires own { IsKept own.old × IsRoomy own.old }
    ensures kept { IsKept list.new × IsKept own.new }
    ensures entered { is_entered result ≡ true → Step history.old request result history.new × BothEnter list.old list.new own.old own.new (entry seat request result) }
    ensures stays { is_entered result ≡ false → (result ≡ replies.Refused refusals.NoMemory) × (history.new ≡ history.old) × BothStay list.old list.new own.old own.new }
{
    match boxed(alloc, history, seat, request, mover) {
        Ok((reply, one, other)) => {
            list.add(Form::Alone(one));
            own.add(Form::Alone(other));
            reply
        }
        Err(NoMemory) => no_memory(),
    }
}

// Answers a request where there is room for its entry, and looks for its name. (It is in a function of its own, so that requests of
// the latest name make no room for all that it does.)
#[inline(never)]
fn answer_sought<M: Mover>(
    alloc: Global,
    history: &mut History,
    seat: usize,
    request: Request,
    list: &mut Register,
    own: &mut Register,
    mover: &M,
) -> Reply
    requires list { IsKept list.old × IsRoomy list.old }
    requires own { IsKept own.old × IsRoomy own.old }
    ensures kept { IsKept list.new × IsKept own.new }
    ensures entered { is_entered result ≡ true → Step history.old request result history.new × BothEnter list.old list.new own.old own.new (entry seat request result) }
    ensures stays { is_entered result ≡ false → (result ≡ replies.Refused refusals.NoMemory) × (history.new ≡ history.old) × BothStay list.old list.new own.old own.new }
{
    match places_of(seat, &request, list, own) {
        Ok(Some(at)) => answer_placed(alloc, history, seat, request, &at, list, own, mover),
        Ok(None) => {
            if is_question(&request) {
                return answer_question(alloc, history, seat, request, list, own, mover);
            }
            answer_change(alloc, history, seat, request, list, own, mover)
        }
        Err(NoMemory) => {
            let_go(request);
            no_memory()
        }
    }
}

// Answers a request where there is room for its entry.
fn answer_roomy<M: Mover>(
    alloc: Global,
    history: &mut History,
    seat: usize,
    request: Request,
    list: &mut Register,
    own: &mut Register,
    mover: &M,
) -> Reply
    requires list { IsKept list.old × IsRoomy list.old }
    requires own { IsKept own.old × IsRoomy own.old }
    ensures kept { IsKept list.new × IsKept own.new }
    ensures entered { is_entered result ≡ true → Step history.old request result history.new × BothEnter list.old list.new own.old own.new (entry seat request result) }
    ensures stays { is_entered result ≡ false → (result ≡ replies.Refused refusals.NoMemory) × (history.new ≡ history.old) × BothStay list.old list.new own.old own.new }
{
    if let Some(at) = latest_places(seat, &request, list, own) {
        return answer_placed(alloc, history, seat, request, &at, list, own, mover);
    }
    answer_sought(alloc, history, seat, request, list, own, mover)
}

/// Answers a request of a seat, and enters it with the reply in both lists; or in neither, where no memory is left, which is the
/// reply then.
pub(crate) fn answer_in<M: Mover>(
    alloc: Global,
    history: &mut History,
    seat: usize,
    request: Request,
    list: &mut Register,
    own: &mut Register,
    mover: &M,
) -> Reply
    requires list { IsKept list.old }
    requires own { IsKept own.old }
    ensures kept { IsKept list.new × IsKept own.new }
    ensures entered { is_entered result ≡ true → Step history.old request result history.new × BothEnter list.old list.new own.old own.new (entry seat request result) }
    ensures stays { is_entered result ≡ false → (result ≡ replies.Refused refusals.NoMemory) × (history.new ≡ history.old) × BothStay list.old list.new own.old own.new }
{
    if list.make_room().is_err() {
        let_go(request);
        return no_memory();
    }
    if own.make_room().is_err() {
        let_go(request);
        return no_memory();
    }
    answer_roomy(alloc, history, seat, request, list, own, mover)
}

// Adds an entry to a list that has room: in few bytes, or whole.
fn add_alone(alloc: Global, entry: Entry, list: &mut Register) -> Result<(), NoMemory>
    requires { IsKept list.old × IsRoomy list.old }
    ensures kept { IsKept list.new }
    ensures ok { OnOk result (entries_in list.new ≡ entries_in list.old ++ entry ∷ []) }
    ensures err { OnErr result (entries_in list.new ≡ entries_in list.old) }
{
    if list.seat() == entry.seat {
        if let Some(plain) = plain_of(&entry.request) {
            if let Some(form) = nameless_form(&plain, &entry.reply) {
                list.add(form);
                return Ok(());
            }
        }
    }
    match Box::new(alloc, entry) {
        Ok(entry) => {
            list.add(Form::Alone(entry));
            Ok(())
        }
        Err(_) => Err(NoMemory),
    }
}

// The form of an entry in a list, by the place of its name there; none, where it takes more.
fn named_form(entry: &Entry, list: &mut Register) -> Result<Option<Form>, NoMemory>
    requires { IsKept list.old }
    ensures kept { IsKept list.new }
    ensures same { (entries_in list.new ≡ entries_in list.old) × (list.new.forms ≡ list.old.forms) }
    ensures form { IfOk result (λ o. IfSome o (λ f. IsWithin (length list.new.names.items) f × (shown list.new.seat list.new.names.items f ≡ entry.now))) }
{
    let Some((name, brief)) = brief_of(&entry.request) else {
        return Ok(None);
    };
    match list.place_of(entry.seat, &name) {
        Ok(Some(place)) => match form_of(place, &brief, &entry.reply) {
            Some(form) => Ok(Some(form)),
            None => Ok(None),
        },
        Ok(None) => Ok(None),
        Err(NoMemory) => Err(NoMemory),
    }
}

// Adds an entry to a list that has room: by the place of its name, or else.
fn add_named(alloc: Global, entry: Entry, list: &mut Register) -> Result<(), NoMemory>
    requires { IsKept list.old × IsRoomy list.old }
    ensures kept { IsKept list.new }
    ensures ok { OnOk result (entries_in list.new ≡ entries_in list.old ++ entry ∷ []) }
    ensures err { OnErr result (entries_in list.new ≡ entries_in list.old) }
{
    match named_form(&entry, list) {
        Ok(Some(form)) => {
            list.add(form);
            Ok(())
        }
        Ok(None) => add_alone(alloc, entry, list),
        Err(NoMemory) => Err(NoMemory),
    }
}

/// Adds an entry to a list; or none, where no memory is left.
pub(crate) fn enter_alone(alloc: Global, entry: Entry, list: &mut Register) -> Result<(), NoMemory>
    requires { IsKept list.old }
    ensures kept { IsKept list.new }
    ensures ok { OnOk result (entries_in list.new ≡ entries_in list.old ++ entry ∷ []) }
    ensures err { OnErr result (entries_in list.new ≡ entries_in list.old) }
{
    if list.make_room().is_err() {
        return Err(NoMemory);
    }
    add_named(alloc, entry, list)
}
