//! The entries of a journal.

ghost use Rattle.std.specs.Prelude.{◌≡◌, IfOk};
ghost use Rattle.std.specs.Bool.{Decides};
ghost use Rattle.wb_requests.specs.declared.requests.request.Request.TheVariants as asked;
ghost use Rattle.wb_desk.specs.Records.{lent_entry};

use std::alloc::Global;
use wb_machine::Reply;
use wb_range::NoMemory;
use wb_requests::{LineText, Request};

/// What a seat asked, and what it was replied.
#[derive(Drop)]
pub struct Entry {
    pub seat: usize,
    pub request: Request,
    pub reply: Reply,
}

impl Entry {
    /// Whether the entries are equal.
    pub fn is_same(&self, other: &Entry) -> bool
        ensures { Decides result (self.now ≡ other.now) }
    {
        if self.seat != other.seat {
            return false;
        }
        if !self.request.is_same(&other.request) {
            return false;
        }
        self.reply.is_same(&other.reply)
    }
}

/// A line that was asked about, and the reply.
#[derive(Drop)]
pub struct LineReply {
    pub(crate) line: LineText,
    pub(crate) reply: Reply,
}

/// An entry, lent; or made for the moment, the whole or its request alone.
#[derive(Drop)]
pub enum LentEntry<'a> {
    /// One that was made.
    Own(Entry),
    /// One that is lent.
    Lent(&'a Entry),
    /// A seat, what it asked, and the reply, which is lent.
    Replied(usize, Request, &'a Reply),
    /// A seat that asked about a line, which is lent with the reply.
    OfLine(usize, &'a LineReply),
}

// Whether a request asks about this line.
fn is_about(request: &Request, line: &LineText) -> bool
    ensures { Decides result (request.now ≡ asked.Explain line.now) }
{
    match request {
        Request::Explain(other) => other.is_same(line),
        Request::Change(_)
        | Request::Undo(_)
        | Request::Redo(_)
        | Request::Cascade(_)
        | Request::Dependents(_)
        | Request::Ask(_)
        | Request::Print
        | Request::History(_)
        | Request::Edits => false,
    }
}

impl<'a> LentEntry<'a> {
    /// The seat.
    pub fn seat(&self) -> usize
        ensures { result ≡ (lent_entry self.now).seat }
    {
        match self {
            LentEntry::Own(entry) => entry.seat,
            LentEntry::Lent(entry) => entry.seat,
            LentEntry::Replied(seat, _, _) => *seat,
            LentEntry::OfLine(seat, _) => *seat,
        }
    }

    /// The reply.
    pub fn reply(&self) -> &Reply
        ensures { result.now ≡ (lent_entry self.now).reply }
    {
        match self {
            LentEntry::Own(entry) => &entry.reply,
            LentEntry::Lent(entry) => &entry.reply,
            LentEntry::Replied(_, _, reply) => reply,
            LentEntry::OfLine(_, told) => &told.reply,
        }
    }

    /// Whether this is what was asked.
    pub fn is_of(&self, request: &Request) -> bool
        ensures { Decides result ((lent_entry self.now).request ≡ request.now) }
    {
        match self {
            LentEntry::Own(entry) => entry.request.is_same(request),
            LentEntry::Lent(entry) => entry.request.is_same(request),
            LentEntry::Replied(_, asked, _) => asked.is_same(request),
            LentEntry::OfLine(_, told) => is_about(request, &told.line),
        }
    }

    // Whether it was asked about this line.
    fn is_about(&self, line: &LineText) -> bool
        ensures { Decides result ((lent_entry self.now).request ≡ asked.Explain line.now) }
    {
        match self {
            LentEntry::Own(entry) => is_about(&entry.request, line),
            LentEntry::Lent(entry) => is_about(&entry.request, line),
            LentEntry::Replied(_, asked, _) => is_about(asked, line),
            LentEntry::OfLine(_, told) => told.line.is_same(line),
        }
    }

    // Whether the other one is of the same request.
    fn asks_same(&self, other: &LentEntry<'_>) -> bool
        ensures { Decides result ((lent_entry other.now).request ≡ (lent_entry self.now).request) }
    {
        match self {
            LentEntry::Own(entry) => other.is_of(&entry.request),
            LentEntry::Lent(entry) => other.is_of(&entry.request),
            LentEntry::Replied(_, asked, _) => other.is_of(asked),
            LentEntry::OfLine(_, told) => other.is_about(&told.line),
        }
    }

    /// Whether the entries are equal.
    pub fn is_same(&self, other: &LentEntry<'_>) -> bool
        ensures { Decides result (lent_entry self.now ≡ lent_entry other.now) }
    {
        if self.seat() != other.seat() {
            return false;
        }
        if !self.asks_same(other) {
            return false;
        }
        self.reply().is_same(other.reply())
    }

    // An equal request, or `NoMemory`.
    fn copy_request(&self, alloc: Global) -> Result<Request, NoMemory>
        ensures { IfOk result (λ r. r ≡ (lent_entry self.now).request) }
    {
        match self {
            LentEntry::Own(entry) => entry.request.copy(alloc),
            LentEntry::Lent(entry) => entry.request.copy(alloc),
            LentEntry::Replied(_, asked, _) => asked.copy(alloc),
            LentEntry::OfLine(_, told) => match told.line.copy(alloc) {
                Ok(line) => Ok(Request::Explain(line)),
                Err(NoMemory) => Err(NoMemory),
            },
        }
    }

    /// An equal entry, or `NoMemory`.
    pub fn copy(&self, alloc: Global) -> Result<Entry, NoMemory>
        ensures { IfOk result (λ e. e ≡ lent_entry self.now) }
    {
        let request = self.copy_request(alloc)?;
        let reply = self.reply().copy(alloc)?;
        Ok(Entry {
            seat: self.seat(),
            request,
            reply,
        })
    }
}
