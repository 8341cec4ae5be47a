//! Who is at a desk, and what they did, which all its seats share.
use crate::doings::{Deed, Doing, Doings, Told};
use std::alloc::{AllocError, Global};
use std::fs::{File, Files};
use std::sync::{Mutex, Wait};
use std::time::{Clock, SystemTime, UNIX_EPOCH};
use wb_range::NoMemory;
use wb_sets::Label;

// A seat as the desk knows it.
#[derive(Drop)]
struct Chair {
    // Whether a connection has it.
    is_taken: bool,
    // The name that the connection has said.
    name: Option<Label>,
    // How many edits, undos and redos the connection made.
    edits: u64,
    // How many entries the seat's pass has.
    entries: u64,
}

impl Chair {
    // A seat that nobody has.
    fn free() -> Chair {
        Chair {
            is_taken: false,
            name: None,
            edits: 0,
            entries: 0,
        }
    }
}

// What all seats share.
#[derive(Drop)]
struct Known {
    chairs: Vec<Chair>,
    doings: Doings,
}

impl Known {
    // A connection has a seat.
    fn come(&mut self, seat: usize) {
        if let Some(chair) = self.chairs.get_mut(seat) {
            chair.is_taken = true;
            chair.name = None;
            chair.edits = 0;
        }
    }

    // It has left, and the seat's pass has so many entries.
    fn leave(&mut self, seat: usize, entries: u64) -> Went {
        let Some(chair) = self.chairs.get_mut(seat) else {
            return Went {
                name: None,
                edits: 0,
            };
        };
        let went = Went {
            name: chair.name,
            edits: chair.edits,
        };
        chair.is_taken = false;
        chair.name = None;
        chair.edits = 0;
        chair.entries = entries;
        went
    }

    // It says its name: whether it had said none before.
    fn hello(&mut self, seat: usize, name: Label) -> bool {
        let Some(chair) = self.chairs.get_mut(seat) else {
            return false;
        };
        if chair.name.is_some() {
            return false;
        }
        chair.name = Some(name);
        true
    }

    // A line of it was answered; it did this with the edits of these numbers, and the seat's pass has so many entries.
    fn note(&mut self, seat: usize, entries: u64, deed: Deed, numbers: &[u64]) {
        let name = self.count(seat, entries, numbers.len() as u64);
        for number in numbers {
            self.doings.note(Doing::of(seat, &name, deed, *number));
        }
    }

    // So many edits more of the connection of a seat, whose pass has so many entries: the name that it has said.
    fn count(&mut self, seat: usize, entries: u64, edits: u64) -> Option<Label> {
        match self.chairs.get_mut(seat) {
            Some(chair) => {
                chair.entries = entries;
                chair.edits = chair.edits.saturating_add(edits);
                chair.name
            }
            None => None,
        }
    }

    // How many entries are kept.
    fn entries(&self) -> u64 {
        let mut entries = 0u64;
        for chair in &self.chairs {
            entries = entries.saturating_add(chair.entries);
        }
        entries
    }

    // How many seats nobody has.
    fn free(&self) -> usize {
        self.chairs.iter().filter(|chair| !chair.is_taken).count()
    }

    // Who has said a name.
    fn guests(&self, alloc: Global) -> Result<Vec<Guest>, NoMemory> {
        let mut guests = Vec::new(alloc);
        for seat in 0..self.chairs.len() {
            if let Some(name) = self.chairs[seat].name {
                guests.push(Guest { seat, name })?;
            }
        }
        Ok(guests)
    }
}

/// Who has a seat and has said a name.
#[derive(Drop)]
pub struct Guest {
    /// The seat.
    pub seat: usize,
    /// The name.
    pub name: Label,
}

/// What is known of a connection that has left.
#[derive(Drop)]
pub struct Went {
    /// The name that it had said, if it had said one.
    pub name: Option<Label>,
    /// How many edits, undos and redos it made.
    pub edits: u64,
}

/// How a desk stands.
#[derive(Drop)]
pub struct Standing {
    /// How many entries it keeps.
    pub entries: u64,
    /// How many seats nobody has.
    pub free: usize,
    /// How many bytes its journal has, if it has one.
    pub journal: Option<u64>,
    /// Who has said a name.
    pub guests: Vec<Guest>,
    /// How many seats it has.
    pub seats: usize,
    /// Since when it is there, in seconds since 1970 began (UTC).
    pub since: u64,
}

/// Who is at a desk, and what they did.
#[derive(Drop)]
pub struct Company {
    alloc: Global,
    known: Mutex<Known>,
    // The journal, opened for reading, of which the system tells how long it is.
    journal: Mutex<Option<File>>,
    since: u64,
    is_quiet: bool,
}

impl Company {
    /// A desk of so many seats, at which nobody is yet. Where it is quiet, nothing is told on standard error of who came and left.
    pub fn new<R: Clock>(
        rt: &R,
        alloc: Global,
        seats: usize,
        is_quiet: bool,
    ) -> Result<Company, AllocError> {
        let mut chairs = Vec::with_capacity(alloc, seats)?;
        for _ in 0..seats {
            if chairs.push(Chair::free()).is_err() {
                return Err(AllocError);
            }
        }
        let doings = Doings::new(alloc);
        Ok(Company {
            alloc,
            known: Mutex::new(Known { chairs, doings }),
            journal: Mutex::new(None),
            since: seconds(rt),
            is_quiet,
        })
    }

    /// Whether nothing is told of who came and left.
    pub fn is_quiet(&self) -> bool {
        self.is_quiet
    }

    /// The desk has a journal, at this path. It is kept open, so that a seat, which has no way to files, can ask how long it is.
    pub fn watch<R: Wait + Files<File = File>>(&self, rt: &R, path: &str) {
        *self.journal.lock(rt) = File::open(rt, path).ok();
    }

    /// A connection has a seat.
    pub fn come<R: Wait>(&self, rt: &R, seat: usize) {
        self.known.lock(rt).come(seat);
    }

    /// The connection of a seat has left, whose pass has so many entries: what is known of it.
    pub fn leave<R: Wait>(&self, rt: &R, seat: usize, entries: u64) -> Went {
        self.known.lock(rt).leave(seat, entries)
    }

    /// The connection of a seat says its name: whether it had said none before.
    pub fn hello<R: Wait>(&self, rt: &R, seat: usize, name: Label) -> bool {
        self.known.lock(rt).hello(seat, name)
    }

    /// The connection of a seat did this with the edits of these numbers, and its pass has so many entries.
    pub fn note<R: Wait>(&self, rt: &R, seat: usize, entries: u64, deed: Deed, numbers: &[u64]) {
        self.known.lock(rt).note(seat, entries, deed, numbers);
    }

    /// Who made each edit, undo and redo, from one on.
    pub fn since<R: Wait>(&self, rt: &R, from: u64) -> Result<Told, NoMemory> {
        self.known.lock(rt).doings.since(self.alloc, from)
    }

    /// How the desk stands.
    pub fn standing<R: Wait>(&self, rt: &R) -> Result<Standing, NoMemory> {
        let journal = self.journal_bytes(rt);
        let known = self.known.lock(rt);
        let guests = known.guests(self.alloc)?;
        Ok(Standing {
            entries: known.entries(),
            free: known.free(),
            journal,
            guests,
            seats: known.chairs.len(),
            since: self.since,
        })
    }

    // How many bytes the journal has, as far as the system tells.
    fn journal_bytes<R: Wait>(&self, rt: &R) -> Option<u64> {
        match self.journal.lock(rt).as_ref()?.metadata() {
            Ok(found) => Some(found.len()),
            Err(_) => None,
        }
    }
}

// How many seconds have passed since 1970 began; 0 where the clock tells nothing.
fn seconds<R: Clock>(rt: &R) -> u64 {
    let Ok(now) = SystemTime::now(rt) else {
        return 0;
    };
    match now.duration_since(UNIX_EPOCH) {
        Ok(passed) => passed.as_secs(),
        Err(_) => 0,
    }
}
