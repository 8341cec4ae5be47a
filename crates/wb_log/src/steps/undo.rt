ghost use Rattle.std.specs.Prelude.{◌≡◌, ℕ, ◌+◌, ◌-◌, ◌^◌, ◌<◌, length, None, OnOk, OnErr, IfOk, IfErr};
ghost use Rattle.selective_undo.specs.Changes.{apply, AllOnce};
ghost use Rattle.wb_cells.specs.Cells.{cell_cmp, saturating_add, count_of};
ghost use Rattle.wb_cells.specs.WellFormed.{IsWellFormed};
ghost use Rattle.wb_footprints.specs.Footprints.{Footprints, with_footprint};
ghost use Rattle.wb_log.specs.Indexed.{Indexes, IsIndexed};
ghost use Rattle.wb_log.specs.Cascades.{IsFree};
ghost use Rattle.wb_log.specs.Kept.{kept_in, MayUndo, TakenBack, LeavesWellFormed, refusal_of};
ghost use Rattle.wb_log.specs.Past.{meant, out_of_force};
ghost use Rattle.wb_log.specs.Records.{lent_kept};
ghost use Rattle.wb_log.specs.Replies.{UndoReply, LastReply, SetsBack, LeavesOthers, Restores};

use crate::entry::EditRecord;
use crate::index::EditIndex;
use crate::lent::LentKept;
use crate::log::Log;
use crate::steps::straight;
use std::alloc::Global;
use wb_arrays::Mover;
use wb_book::Book;
use wb_cells::Changes;
use wb_edit::Refusal;
use wb_range::NoMemory;

/// Why the edit at a place may not be undone.
fn undo_refusal(entries: &[EditRecord], index: &mut EditIndex, at: usize) -> Option<Refusal>
    requires in_log { at < length entries.now }
    requires few { length entries.now < 2 ^ 63 }
    requires indexed { IsIndexed index.old entries.now }
    ensures refusal { MayUndo entries.now at result }
    ensures indexed { IsIndexed index.new entries.now }
{
    match entries[at].set_in_force() {
        None => undo_refusal_listed(entries, index, at),
        Some(set) => match index.by_footprint.first_to_meet(entries, at, &set.0) {
            Some(by) => Some(Refusal::Blocked(by)),
            None => None,
        },
    }
}

/// Why the edit at a place may not be undone, by the list of what its cells were.
fn undo_refusal_listed(entries: &[EditRecord], index: &mut EditIndex, at: usize) -> Option<Refusal>
    requires in_log { at < length entries.now }
    requires few { length entries.now < 2 ^ 63 }
    requires indexed { IsIndexed index.old entries.now }
    ensures refusal { MayUndo entries.now at result }
    ensures indexed { IsIndexed index.new entries.now }
{
    match entries[at].kept() {
        None => Some(Refusal::NotInForce),
        Some(kept) => match index
            .by_footprint
            .first_to_block_undo(entries, at, &kept.cells())
        {
            Some(by) => Some(Refusal::Blocked(by)),
            None => None,
        },
    }
}

/// Sets back what the edit at a place, which is in force, wrote. Want of threads is answered as want of memory.
fn take_back<M: Mover>(
    alloc: Global,
    book: &mut Book,
    entry: &mut EditRecord,
    index: &mut EditIndex,
    at: usize,
    mover: &M,
) -> Result<usize, Refusal>
    // What the edit wrote can be set back.
    requires few { at < 2 ^ 63 }
    requires well_formed { LeavesWellFormed entry.old book.old.cells }

    // How many cells are set back, or why none is; the index has the edit no more.
    ensures ok { IfOk result (λ n. TakenBack entry.old n entry.new book.old book.new) }
    ensures why { IfErr result (λ e. e ≡ refusal_of entry.old) }
    ensures taken { OnOk result ((count : ℕ) (footprints : Footprints) → Indexes index.old count footprints → footprints (at + 1) ≡ kept_in entry.old →
        Indexes index.new count (with_footprint footprints (at + 1) None)) }

    // After a refusal nothing has changed.
    ensures entry_stays { OnErr result (entry.new ≡ entry.old) }
    ensures book_stays { OnErr result (book.new ≡ book.old) }
    ensures index_stays { OnErr result (index.new ≡ index.old) }
{
    if straight::set_back(book, entry, index, at) {
        return Ok(1);
    }
    take_back_listed(alloc, book, entry, index, at, mover)
}

/// Sets back what the edit at a place, which is in force, wrote, by the list of what the cells were.
fn take_back_listed<M: Mover>(
    alloc: Global,
    book: &mut Book,
    entry: &mut EditRecord,
    index: &mut EditIndex,
    at: usize,
    mover: &M,
) -> Result<usize, Refusal>
    // What the edit wrote can be set back.
    requires few { at < 2 ^ 63 }
    requires well_formed { LeavesWellFormed entry.old book.old.cells }

    // How many cells are set back, or why none is; the index has the edit no more.
    ensures ok { IfOk result (λ n. TakenBack entry.old n entry.new book.old book.new) }
    ensures why { IfErr result (λ e. e ≡ refusal_of entry.old) }
    ensures taken { OnOk result ((count : ℕ) (footprints : Footprints) → Indexes index.old count footprints → footprints (at + 1) ≡ kept_in entry.old →
        Indexes index.new count (with_footprint footprints (at + 1) None)) }

    // After a refusal nothing has changed.
    ensures entry_stays { OnErr result (entry.new ≡ entry.old) }
    ensures book_stays { OnErr result (book.new ≡ book.old) }
    ensures index_stays { OnErr result (index.new ≡ index.old) }
{
    let count = match entry.kept() {
        None => return Err(Refusal::NotInForce),
        Some(kept) => match revert(alloc, book, &kept, mover) {
            Err(_) => return Err(Refusal::NoMemory),
            Ok(count) => {
                index.left_force(at, &kept);
                count
            }
        },
    };
    entry.end();
    Ok(count)
}

/// Sets back the cells of which this is kept: how many. Want of threads is answered as want of memory.
fn revert<M: Mover>(
    alloc: Global,
    book: &mut Book,
    kept: &LentKept<'_>,
    mover: &M,
) -> Result<usize, NoMemory>
    requires { IsWellFormed (apply (lent_kept kept.now).touched book.old.cells) }
    ensures count { IfOk result (λ n. n ≡ count_of (lent_kept kept.now).touched) }
    ensures cells { OnOk result (book.new.cells ≡ apply (lent_kept kept.now).touched book.old.cells) }
    ensures writes { OnOk result (book.new.writes ≡ saturating_add book.old.writes (count_of (lent_kept kept.now).touched)) }
    ensures err { OnErr result (book.new ≡ book.old) }
{
    match kept {
        LentKept::Listed(listed) => revert_list(book, listed.before(), mover),
        LentKept::Filled(filled) => match filled.changes(alloc) {
            Err(why) => Err(why),
            Ok(before) => revert_list(book, &before, mover),
        },
    }
}

/// Sets back the cells of a list: how many.
fn revert_list<M: Mover>(book: &mut Book, before: &Changes, mover: &M) -> Result<usize, NoMemory>
    requires once { AllOnce cell_cmp before.now }
    requires well_formed { IsWellFormed (apply before.now book.old.cells) }
    ensures count { IfOk result (λ n. n ≡ count_of before.now) }
    ensures cells { OnOk result (book.new.cells ≡ apply before.now book.old.cells) }
    ensures writes { OnOk result (book.new.writes ≡ saturating_add book.old.writes (count_of before.now)) }
    ensures err { OnErr result (book.new ≡ book.old) }
{
    match book.revert(before, mover) {
        Err(_) => Err(NoMemory),
        Ok(()) => Ok(before.count()),
    }
}

impl Log {
    /// Undoes the edit at a place.
    pub fn undo_at<M: Mover>(&mut self, at: usize, mover: &M) -> Result<usize, Refusal>
        requires { at < length self.old.entries }

        // The answer; the edit is out of force, its cells are set back and counted, and the others stay.
        ensures reply { UndoReply (meant self.old.entries) at result }
        ensures entries { OnOk result (self.new.entries ≡ out_of_force at self.old.entries) }
        ensures set_back { OnOk result (SetsBack (meant self.old.entries) at (meant self.new.entries)) }
        ensures others { OnOk result (LeavesOthers (meant self.old.entries) at (meant self.new.entries)) }
        ensures writes { IfOk result (λ n. self.new.writes ≡ saturating_add self.old.writes n) }

        // After a refusal nothing has changed.
        ensures err { OnErr result (self.new ≡ self.old) }
    {
        match undo_refusal(&self.entries, &mut self.index, at) {
            Some(why) => Err(why),
            None => self.undo_free(at, mover),
        }
    }

    /// Undoes the latest edit in force, which nothing can block: its number, and how many cells it sets back.
    pub fn undo_latest<M: Mover>(&mut self, mover: &M) -> Result<(u64, usize), Refusal>
        // The answer; the edit is out of force, the workbook is as before it, and the others stay.
        ensures reply { LastReply (meant self.old.entries) result }
        ensures entries { IfOk result (λ r. self.new.entries ≡ out_of_force (r.0 - 1) self.old.entries) }
        ensures restored { IfOk result (λ r. Restores (meant self.old.entries) (r.0 - 1) (meant self.new.entries)) }
        ensures others { IfOk result (λ r. LeavesOthers (meant self.old.entries) (r.0 - 1) (meant self.new.entries)) }
        ensures writes { IfOk result (λ r. self.new.writes ≡ saturating_add self.old.writes r.1) }

        // After a refusal nothing has changed.
        ensures err { OnErr result (self.new ≡ self.old) }
    {
        match self.index.in_force.latest(&self.entries) {
            None => Err(Refusal::NoSuchEdit),
            Some(at) => match self.undo_free(at, mover) {
                Ok(count) => Ok((at as u64 + 1, count)),
                Err(why) => Err(why),
            },
        }
    }

    // Undoes the edit at a place, which may be undone.
    fn undo_free<M: Mover>(&mut self, at: usize, mover: &M) -> Result<usize, Refusal>
        requires { IsFree (meant self.old.entries) at }

        // The answer; the edit is out of force, its cells are set back and counted, and the others stay.
        ensures reply { UndoReply (meant self.old.entries) at result }
        ensures entries { OnOk result (self.new.entries ≡ out_of_force at self.old.entries) }
        ensures set_back { OnOk result (SetsBack (meant self.old.entries) at (meant self.new.entries)) }
        ensures others { OnOk result (LeavesOthers (meant self.old.entries) at (meant self.new.entries)) }
        ensures writes { IfOk result (λ n. self.new.writes ≡ saturating_add self.old.writes n) }

        // After a refusal nothing has changed.
        ensures err { OnErr result (self.new ≡ self.old) }
    {
        take_back(
            self.alloc,
            &mut self.book,
            &mut self.entries[at],
            &mut self.index,
            at,
            mover,
        )
    }
}
