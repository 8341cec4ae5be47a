ghost use Rattle.std.specs.Prelude.{◌≡◌, ℕ, ◌+◌, ◌^◌, ◌<◌, length, [], None, Some, Err, OnOk, OnErr, IfOk, IfErr, IfSome, IfNone};
ghost use Rattle.selective_undo.specs.Changes.{apply, inverse};
ghost use Rattle.wb_cells.specs.Cells.{saturating_add, count_of};
ghost use Rattle.wb_cells.specs.WellFormed.{IsWellFormed};
ghost use Rattle.wb_edit.specs.Edits.{meaning};
ghost use Rattle.wb_edit.specs.Plans.{IsPlan};
ghost use Rattle.wb_footprints.specs.Footprints.{Footprints, with_footprint};
ghost use Rattle.wb_log.specs.Indexed.{Indexes, IsIndexed};
ghost use Rattle.wb_log.specs.Kept.{kept_in, Shows, PlansAgain, redo_blocker, stopped_refusal, entries_meant};
ghost use Rattle.wb_log.specs.Past.{meant, into_force};
ghost use Rattle.wb_log.specs.Replies.{RedoReply, RedoesInPlace};

use crate::entry::EditRecord;
use crate::index::EditIndex;
use crate::log::Log;
use crate::steps::making::make;
use crate::steps::straight;
use std::alloc::Global;
use wb_arrays::Mover;
use wb_book::Book;
use wb_cells::{Changes, Delta};
use wb_edit::{PlanErr, ReadFootprint, Refusal, plan};
use wb_range::NoMemory;

/// What an entry's edit would change in a workbook.
fn plan_of(
    alloc: Global,
    book: &Book,
    entry: &EditRecord,
) -> Result<(Delta, ReadFootprint, usize), PlanErr>
    ensures { IsPlan (meaning entry.now.edit) book.now.cells result }
{
    match entry.edit(alloc) {
        Ok(edit) => plan(alloc, book, edit.as_edit()),
        Err(_) => Err(PlanErr::NoMemory),
    }
}

/// Plans an edit out of force again, unless a later one is in its way.
fn plan_again(
    alloc: Global,
    book: &Book,
    entries: &[EditRecord],
    index: &mut EditIndex,
    at: usize,
) -> Result<(Delta, ReadFootprint, usize), Refusal>
    // The place is in the log, which belongs together with its workbook and its index.
    requires in_log { at < length entries.now }
    requires few { length entries.now < 2 ^ 63 }
    requires indexed { IsIndexed index.old entries.now }
    requires kept { Shows entries.now book.now.cells }

    // The plan, or why there is none; the index is still the log's.
    ensures ok { IfOk result (λ p. PlansAgain entries.now at book.now.cells p.0 p.1 p.2) }
    ensures err { IfErr result (λ why. RedoReply (entries_meant entries.now) at (Err why)) }
    ensures indexed { IsIndexed index.new entries.now }
{
    let entry = &entries[at];
    if entry.is_in_force() {
        return Err(Refusal::InForce);
    }
    match plan_of(alloc, book, entry) {
        Err(stop) => Err(refusal_in_place(entries, index, at, stop)),
        Ok((delta, footprint, count)) => match plan_blocker(
            entries, index, at, &footprint, &delta,
        ) {
            Some(by) => Err(Refusal::Blocked(by)),
            None => Ok((delta, footprint, count)),
        },
    }
}

/// The number of the first later edit that a plan meets.
fn plan_blocker(
    entries: &[EditRecord],
    index: &mut EditIndex,
    at: usize,
    footprint: &ReadFootprint,
    delta: &Delta,
) -> Option<u64>
    requires in_log { at < length entries.now }
    requires few { length entries.now < 2 ^ 63 }
    requires indexed { IsIndexed index.old entries.now }
    ensures first { result ≡ redo_blocker entries.now at footprint.now delta.now }
    ensures indexed { IsIndexed index.new entries.now }
{
    let (reads, runs) = footprint.parts();
    index
        .by_footprint
        .first_to_block_redo(entries, at, reads, runs, delta.changes())
}

/// The number of the first later edit that a refused plan meets, by what it read alone.
fn refused_blocker(
    entries: &[EditRecord],
    index: &mut EditIndex,
    at: usize,
    footprint: &ReadFootprint,
) -> Option<u64>
    requires in_log { at < length entries.now }
    requires few { length entries.now < 2 ^ 63 }
    requires indexed { IsIndexed index.old entries.now }
    ensures first { result ≡ redo_blocker entries.now at footprint.now [] }
    ensures indexed { IsIndexed index.new entries.now }
{
    let (reads, runs) = footprint.parts();
    let none = Changes::new();
    index
        .by_footprint
        .first_to_block_redo(entries, at, reads, runs, &none)
}

/// Why an edit whose plan stopped is not redone.
fn refusal_in_place(
    entries: &[EditRecord],
    index: &mut EditIndex,
    at: usize,
    stop: PlanErr,
) -> Refusal
    requires in_log { at < length entries.now }
    requires few { length entries.now < 2 ^ 63 }
    requires indexed { IsIndexed index.old entries.now }
    ensures why { result ≡ stopped_refusal entries.now at stop }
    ensures indexed { IsIndexed index.new entries.now }
{
    match stop {
        PlanErr::NoMemory => Refusal::NoMemory,
        PlanErr::Refused(why, footprint) => match refused_blocker(entries, index, at, &footprint) {
            Some(by) => Refusal::Blocked(by),
            None => Refusal::RefusedInPlace(why),
        },
    }
}

/// Makes the changes of the edit at a place again. Want of threads is answered as want of memory.
fn put_in<M: Mover>(
    alloc: Global,
    book: &mut Book,
    entry: &mut EditRecord,
    index: &mut EditIndex,
    at: usize,
    delta: Delta,
    footprint: ReadFootprint,
    mover: &M,
) -> Result<(), NoMemory>
    // The changes lead to a well-formed workbook.
    requires few { at < 2 ^ 63 }
    requires well_formed { IsWellFormed (apply delta book.old.cells) }

    // The edit is kept with what takes it back, and the workbook and the index have it.
    ensures entry { OnOk result (entry.new ≡ record {
      edit = entry.old.edit;
      kept =
          Some (record { footprint = footprint; inverse = inverse delta book.old.cells });
    }) }
    ensures cells { OnOk result (book.new.cells ≡ apply delta book.old.cells) }
    ensures writes { OnOk result (book.new.writes ≡ saturating_add book.old.writes (count_of delta)) }
    ensures put { OnOk result ((count : ℕ) (footprints : Footprints) → Indexes index.old count footprints → footprints (at + 1) ≡ None →
        Indexes index.new count (with_footprint footprints (at + 1) (kept_in entry.new))) }

    // Without memory nothing has changed.
    ensures entry_stays { OnErr result (entry.new ≡ entry.old) }
    ensures book_stays { OnErr result (book.new ≡ book.old) }
    ensures index_stays { OnErr result (index.new ≡ index.old) }
{
    match make(alloc, book, entry, delta, footprint, mover) {
        Err(why) => Err(why),
        Ok(()) => match entry.kept() {
            Some(kept) => {
                index.back_in_force(at, &kept);
                Ok(())
            }
            None => unreachable!(),
        },
    }
}

impl Log {
    /// Redoes the edit at a place.
    pub fn redo_at<M: Mover>(&mut self, at: usize, mover: &M) -> Result<usize, Refusal>
        requires { at < length self.old.entries }

        // The answer; the edit is in force in its own place, and the cells that were set are counted.
        ensures reply { RedoReply (meant self.old.entries) at result }
        ensures entries { OnOk result (self.new.entries ≡ into_force at self.old.entries) }
        ensures in_place { OnOk result (RedoesInPlace (meant self.old.entries) at (meant self.new.entries)) }
        ensures writes { IfOk result (λ n. self.new.writes ≡ saturating_add self.old.writes n) }

        // After a refusal nothing has changed.
        ensures err { OnErr result (self.new ≡ self.old) }
    {
        match self.redo_set(at) {
            Some(reply) => reply,
            None => self.redo_planned(at, mover),
        }
    }

    // Redoes a new value of an element that is there, with no plan: the reply. Of another edit, and where there is no such element,
    // nothing is done.
    fn redo_set(&mut self, at: usize) -> Option<Result<usize, Refusal>>
        requires { at < length self.old.entries }

        // The answer; the edit is in force in its own place, and the cells that were set are counted.
        ensures reply { IfSome result (λ r. RedoReply (meant self.old.entries) at r) }
        ensures entries { IfSome result (λ r. OnOk r (self.new.entries ≡ into_force at self.old.entries)) }
        ensures in_place { IfSome result (λ r. OnOk r (RedoesInPlace (meant self.old.entries) at (meant self.new.entries))) }
        ensures writes { IfSome result (λ r. IfOk r (λ n. self.new.writes ≡ saturating_add self.old.writes n)) }

        // After a refusal nothing has changed, nor where there is no answer.
        ensures err { IfSome result (λ r. OnErr r (self.new ≡ self.old)) }
        ensures none { IfNone result (self.new ≡ self.old) }
    {
        match straight::set_to_redo(&self.book, &self.entries, &mut self.index, at) {
            None => None,
            Some(Err(why)) => Some(Err(why)),
            Some(Ok(element)) => {
                if straight::set_again(
                    self.alloc,
                    &mut self.book,
                    &mut self.entries[at],
                    &mut self.index,
                    at,
                    &element,
                ) {
                    Some(Ok(1))
                } else {
                    None
                }
            }
        }
    }

    // Redoes the edit at a place by its plan.
    fn redo_planned<M: Mover>(&mut self, at: usize, mover: &M) -> Result<usize, Refusal>
        requires { at < length self.old.entries }

        // The answer; the edit is in force in its own place, and the cells that were set are counted.
        ensures reply { RedoReply (meant self.old.entries) at result }
        ensures entries { OnOk result (self.new.entries ≡ into_force at self.old.entries) }
        ensures in_place { OnOk result (RedoesInPlace (meant self.old.entries) at (meant self.new.entries)) }
        ensures writes { IfOk result (λ n. self.new.writes ≡ saturating_add self.old.writes n) }

        // After a refusal nothing has changed.
        ensures err { OnErr result (self.new ≡ self.old) }
    {
        match plan_again(self.alloc, &self.book, &self.entries, &mut self.index, at) {
            Err(why) => Err(why),
            Ok((delta, footprint, count)) => {
                match put_in(
                    self.alloc,
                    &mut self.book,
                    &mut self.entries[at],
                    &mut self.index,
                    at,
                    delta,
                    footprint,
                    mover,
                ) {
                    Ok(()) => Ok(count),
                    Err(_) => Err(Refusal::NoMemory),
                }
            }
        }
    }
}
