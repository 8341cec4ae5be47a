//! The log of a history: its workbook, the edits that made it, and the index over them. Each step leaves that they belong together.

ghost use Rattle.std.specs.Prelude.{◌≡◌, ◌<◌, [], Some, IfOk, length, option_map, slice_get};
ghost use Rattle.selective_undo.specs.History.{replay, IsLegal};
ghost use Rattle.wb_cells.specs.WellFormed.{IsWellFormed};
ghost use Rattle.wb_edit.specs.Edits.{note_of};
ghost use Rattle.wb_log.specs.Past.{meant};
ghost use Rattle.wb_log.specs.Records.{lent_edit};

use crate::entry::{EditRecord, LentEdit};
use crate::index::EditIndex;
use std::alloc::Global;
use std::marker::Model;
use wb_book::Book;
use wb_edit::Note;
use wb_range::NoMemory;

/// A workbook, the edits that made it, each with what is kept of it while it is in force, and the index over them. An edit stands
/// at its place, from 0.
pub struct Log {
    pub(crate) alloc: Global,
    pub(crate) book: Book,
    pub(crate) entries: Vec<EditRecord>,
    pub(crate) index: EditIndex,
}

// In a function of its own, so that a crate above need not prove anew how each field is let go.
impl Drop for Log {
    fn drop(self) {
        let Log {
            alloc: _,
            book: _,
            entries: _,
            index: _,
        } = self;
    }
}

impl Model for Log {
    ghost use Rattle.wb_log.specs.Past.{Past, past_code};
    ghost use Rattle.wb_log.specs.Kept.{numbered_entries};
    ghost use Rattle.wb_log.specs.Indexed.{Keeps};

    ghost Value = { Past };

    ghost coded = { past_code };

    ghost view = { λ a. record { entries = numbered_entries a.entries.items; writes = a.book.writes } };

    ghost invariant = { λ a. Keeps a.entries.items a.book.cells a.index };
}

impl Log {
    /// The log without edits, of an empty workbook.
    pub fn new(alloc: Global) -> Log
        ensures { result ≡ record { entries = []; writes = 0 } }
    {
        Log {
            alloc,
            book: Book::new(alloc),
            entries: Vec::new(alloc),
            index: EditIndex::new(alloc),
        }
    }

    /// Where its memory comes from.
    pub fn alloc(&self) -> Global {
        self.alloc
    }

    /// How many edits there are, in force and out of force.
    pub fn len(&self) -> usize
        ensures { result ≡ length self.now.entries }
    {
        self.entries.len()
    }

    /// The workbook: what the edits in force make of an empty one, each accepted in its place.
    pub fn book(&self) -> &Book
        ensures legal { IsLegal (meant self.now.entries) }
        ensures formed { IsWellFormed result.now.cells }
        ensures cells { result.now.cells ≡ replay (meant self.now.entries) }
        ensures writes { result.now.writes ≡ self.now.writes }
    {
        &self.book
    }

    /// Whether the edit at a place is in force.
    pub fn is_in_force(&self, at: usize) -> bool
        requires { at < length self.now.entries }
        ensures { Some result ≡ option_map (λ x. x.in_force) (slice_get self.now.entries at) }
    {
        self.entries[at].is_in_force()
    }

    /// The edit at a place; `NoMemory` where none is left for several commands that are made for the moment.
    pub fn edit_at(&self, at: usize) -> Result<LentEdit<'_>, NoMemory>
        requires { at < length self.now.entries }
        ensures { IfOk result (λ edit. Some (lent_edit edit) ≡ option_map (λ x. x.edit) (slice_get self.now.entries at)) }
    {
        self.entries[at].edit(self.alloc)
    }

    /// The note of the edit at a place, if it has one.
    pub fn note_at(&self, at: usize) -> Option<&Note>
        requires { at < length self.now.entries }
        ensures { Some (option_map (λ n. n.now) result) ≡ option_map (λ x. note_of x.edit) (slice_get self.now.entries at) }
    {
        self.entries[at].note()
    }
}
