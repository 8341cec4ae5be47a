//! Who made each edit, undo and redo.
ghost use Rattle.std.specs.Prelude.{◌≡◌, [], drop, IfOk};
ghost use Rattle.wb_company.specs.Doings.{MakesRoom, Notes, told_since};

use std::alloc::Global;
use std::collections::VecDeque;
use wb_range::NoMemory;
use wb_sets::Label;

/// So many are kept at most.
const MOST_KEPT: usize = 10_000;

/// What was done with an edit.
#[derive(Clone, Copy, Debug, PartialEq, Eq)]
pub enum Deed {
    /// It was made.
    Edited,
    /// It was taken back.
    Undone,
    /// It was made again.
    Redone,
}

/// What a seat did with an edit.
#[derive(Drop)]
pub struct Doing {
    /// The seat.
    pub seat: usize,
    /// The name that its connection had said, if it had said one.
    pub name: Option<Label>,
    /// What was done.
    pub deed: Deed,
    /// The number of the edit.
    pub number: u64,
}

impl Doing {
    /// What a seat, whose connection had said this name, did with the edit of a number.
    pub fn of(seat: usize, name: &Option<Label>, deed: Deed, number: u64) -> Doing
        ensures { result ≡ record { seat = seat; name = name.now; deed = deed; number = number } }
    {
        Doing {
            seat,
            name: *name,
            deed,
            number,
        }
    }

    /// An equal one.
    pub fn copy(&self) -> Doing
        ensures { result ≡ self.now }
    {
        Doing::of(self.seat, &self.name, self.deed, self.number)
    }
}

/// What was done at a desk, in order, from the one of this number on.
#[derive(Drop)]
pub struct Told {
    /// The number of the first; of the next one, where none was done.
    pub first: u64,
    /// What was done.
    pub doings: Vec<Doing>,
}

/// What was done at a desk, in order: the last 10,000 at most, which are numbered from 1 on since the desk began.
#[derive(Drop)]
pub struct Doings {
    first: u64,
    kept: VecDeque<Doing>,
}

impl Doings {
    /// Nothing was done.
    pub fn new(alloc: Global) -> Doings
        ensures { (result.first ≡ 1) × (result.kept.items ≡ []) }
    {
        Doings {
            first: 1,
            kept: VecDeque::new(alloc),
        }
    }

    /// Notes what was done. Where there is no memory for it, nothing is kept of all that was done so far.
    pub fn note(&mut self, doing: Doing)
        ensures { Notes self.old.first self.old.kept.items doing self.new.first self.new.kept.items }
    {
        // (so that the check knows which module holds the type of a name)
        let _ = &doing.name;
        let gone = make_room(&mut self.kept);
        self.first = self.first.saturating_add(gone);
        if self.kept.push_back(doing).is_err() {
            let gone = self.kept.len() as u64;
            self.kept.clear();
            self.first = self.first.saturating_add(gone).saturating_add(1);
        }
    }

    /// What was done from a number on, as far as it is kept.
    pub fn since(&self, alloc: Global, from: u64) -> Result<Told, NoMemory>
        ensures { IfOk result (λ t. (t.first ≡ (told_since self.now.first self.now.kept.items from).0)
            × (t.doings.items ≡ (told_since self.now.first self.now.kept.items from).1)) }
    {
        let there = self.kept.len() as u64;
        let skipped = from.saturating_sub(self.first).min(there);
        let doings = copied_from(alloc, &self.kept, skipped as usize)?;
        Ok(Told {
            first: self.first.saturating_add(skipped),
            doings,
        })
    }
}

// Lets the earliest go where so many are kept as may be: how many have gone.
fn make_room(kept: &mut VecDeque<Doing>) -> u64
    ensures { MakesRoom kept.old.items result kept.new.items }
{
    if kept.len() < MOST_KEPT {
        return 0;
    }
    let _ = kept.pop_front();
    1
}

// Those from a place on.
fn copied_from(alloc: Global, kept: &VecDeque<Doing>, at: usize) -> Result<Vec<Doing>, NoMemory>
    ensures { IfOk result (λ v. v.items ≡ drop at kept.now.items) }
{
    let mut doings = Vec::with_capacity(alloc, kept.len().saturating_sub(at))?;
    for place in at..kept.len() {
        if let Some(doing) = kept.get(place) {
            doings.push(doing.copy())?;
        }
    }
    Ok(doings)
}
