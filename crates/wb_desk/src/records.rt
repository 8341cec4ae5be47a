//! The records of a seat.

ghost use Rattle.std.specs.Prelude.{◌≡◌, ◌<◌, ◌-◌, ◌++◌, ◌∷◌, [], true, length, false, slice_get, slice_set, IfOk, OnOk, OnErr, MatchOption};
ghost use Rattle.std.specs.Bool.{Decides};
ghost use Rattle.wb_edit.specs.declared.refusal.Refusal.TheVariants as refusals;
ghost use Rattle.wb_machine.specs.Machine.{Step};
ghost use Rattle.wb_machine.specs.declared.replies.reply.Reply.TheVariants as replies;
ghost use Rattle.wb_desk.specs.Courses.{empty_lists, list_of};
ghost use Rattle.wb_desk.specs.Entries.{is_entered};
ghost use Rattle.wb_desk.specs.Records.{lent_in};
ghost use Rattle.wb_desk.specs.Serving.{entry};
ghost use Rattle.wb_desk.specs.Settling.{FirstDifference};

use crate::entering::{answer_in, enter_alone};
use crate::entry::{Entry, LentEntry};
use crate::register::Register;
use std::alloc::Global;
use std::marker::Model;
use wb_arrays::Mover;
use wb_history::History;
use wb_machine::Reply;
use wb_range::NoMemory;
use wb_requests::Request;

/// The entries of a seat that are kept, in order, each in the form that takes the least room. Contracts see the entries.
pub struct Records {
    register: Register,
}

// In a function of its own, so that a crate above need not prove anew how each field is let go.
impl Drop for Records {
    fn drop(self) {
        let Records { register: _ } = self;
    }
}

impl Model for Records {
    ghost use Rattle.std.specs.Prelude.{List};
    ghost use Rattle.wb_desk.specs.declared.entry.Entry.{Entry};
    ghost use Rattle.wb_desk.specs.Records.{IsKept, entries_in};

    ghost Value = { List Entry };

    ghost view = { λ a. entries_in a.register };

    ghost invariant = { λ a. IsKept a.register };
}

impl Records {
    /// No entries. Those of this seat will take the least room.
    pub fn new(alloc: Global, seat: usize) -> Records
        ensures { result ≡ [] }
    {
        Records {
            register: Register::new(alloc, seat),
        }
    }

    /// How many there are.
    pub fn len(&self) -> usize
        ensures { result ≡ length self.now }
    {
        self.register.len()
    }

    /// Whether there are none.
    pub fn is_empty(&self) -> bool
        ensures { Decides result (self.now ≡ []) }
    {
        self.register.len() == 0
    }

    /// The entry at a place, from 0.
    pub fn get(&self, place: usize) -> Option<LentEntry<'_>>
        ensures { lent_in result ≡ slice_get self.now place }
    {
        self.register.entry(place)
    }

    /// The latest entry.
    pub fn last(&self) -> Option<LentEntry<'_>>
        ensures { lent_in result ≡ slice_get self.now (length self.now - 1) }
    {
        let len = self.len();
        if len == 0 {
            return None;
        }
        self.get(len - 1)
    }

    /// Adds an entry at the end; or none, where no memory is left.
    pub fn push(&mut self, alloc: Global, entry: Entry) -> Result<(), NoMemory>
        ensures ok { OnOk result (self.new ≡ self.old ++ entry ∷ []) }
        ensures err { OnErr result (self.new ≡ self.old) }
    {
        enter_alone(alloc, entry, &mut self.register)
    }

    /// All are let go, and their memory with them.
    pub(crate) fn clear(&mut self, alloc: Global)
        ensures { self.new ≡ [] }
    {
        let seat = self.register.seat();
        self.register = Register::new(alloc, seat);
    }
}

/// No records, for each of so many seats.
pub(crate) fn no_records(alloc: Global, seats: usize) -> Result<Vec<Records>, NoMemory>
    ensures { IfOk result (λ v. v.items ≡ empty_lists seats) }
{
    let mut lists = Vec::new(alloc);
    for seat in 0..seats {
        if lists.push(Records::new(alloc, seat)).is_err() {
            return Err(NoMemory);
        }
    }
    Ok(lists)
}

// Answers a request of a seat, and enters it with the reply in two lists; or neither, where no memory is left, which is the
// reply then.
fn answer_into<M: Mover>(
    alloc: Global,
    history: &mut History,
    seat: usize,
    request: Request,
    list: &mut Records,
    own: &mut Records,
    mover: &M,
) -> Reply
    ensures entered { is_entered result ≡ true → Step history.old request result history.new × (list.new ≡ list.old ++ entry seat request result ∷ []) ×
        (own.new ≡ own.old ++ entry seat request result ∷ []) }
    ensures stays { is_entered result ≡ false → (result ≡ replies.Refused refusals.NoMemory) × (history.new ≡ history.old) × (list.new ≡ list.old) × (own.new ≡ own.old) }
{
    answer_in(
        alloc,
        history,
        seat,
        request,
        &mut list.register,
        &mut own.register,
        mover,
    )
}

/// Answers a request of a seat, and enters it with the reply in the seat's list and among its own records; or in neither,
/// where no memory is left, which is the reply then.
pub(crate) fn answer_at<M: Mover>(
    alloc: Global,
    history: &mut History,
    seat: usize,
    request: Request,
    lists: &mut Vec<Records>,
    own: &mut Records,
    mover: &M,
) -> Reply
    requires { seat < length lists.old.items }
    ensures entered { is_entered result ≡ true → Step history.old request result history.new ×
        (lists.new.items ≡ slice_set lists.old.items seat (list_of lists.old.items seat ++ entry seat request result ∷ [])) ×
        (own.new ≡ own.old ++ entry seat request result ∷ []) }
    ensures stays { is_entered result ≡ false → (result ≡ replies.Refused refusals.NoMemory) × (history.new ≡ history.old) × (lists.new.items ≡ lists.old.items) ×
        (own.new ≡ own.old) }
{
    let list = &mut lists[seat];
    answer_into(alloc, history, seat, request, list, own, mover)
}

/// Lets the list of a seat go.
pub(crate) fn clear_at(lists: &mut Vec<Records>, seat: usize, alloc: Global)
    requires { seat < length lists.old.items }
    ensures { lists.new.items ≡ slice_set lists.old.items seat [] }
{
    let list = &mut lists[seat];
    list.clear(alloc);
}

// Whether two lists have the same entry at a place, which both have.
fn is_same_at(entries: &Records, own: &Records, place: usize) -> bool
    requires entries { place < length entries.now }
    requires own { place < length own.now }
    ensures { Decides result (slice_get entries.now place ≡ slice_get own.now place) }
{
    if entries.register.is_alike(&own.register, place) {
        return true;
    }
    match (entries.get(place), own.get(place)) {
        (Some(entry), Some(other)) => entry.is_same(&other),
        _ => unreachable!(),
    }
}

// The first place where two lists differ.
fn first_difference(entries: &Records, own: &Records) -> Option<usize>
    ensures { MatchOption result (entries.now ≡ own.now) (λ i. FirstDifference entries.now own.now i) }
{
    let mut place = 0;
    while place < entries.len() && place < own.len() {
        if !is_same_at(entries, own, place) {
            return Some(place);
        }
        place += 1;
    }
    if place < entries.len() || place < own.len() {
        return Some(place);
    }
    None
}

/// The first place where the list of a seat and another list differ.
pub(crate) fn difference_at(lists: &[Records], seat: usize, own: &Records) -> Option<usize>
    requires { seat < length lists.now }
    ensures { MatchOption result (list_of lists.now seat ≡ own.now) (λ i. FirstDifference (list_of lists.now seat) own.now i) }
{
    first_difference(&lists[seat], own)
}
