ghost use Rattle.std.specs.Prelude.{◌≡◌, ℕ, ◌+◌, ◌-◌, ◌<◌, ◌≤◌, length, take, [], ◌∷◌, ◌++◌, OnOk, OnErr, IfOk, IfErr, IfSome, IfNone, None, Ok, Err, true, false, option_map};
ghost use Rattle.selective_undo.specs.History.{replay, IsLegal};
ghost use Rattle.wb_cells.specs.Cells.{saturating_add};
ghost use Rattle.wb_cells.specs.WellFormed.{IsWellFormed};
ghost use Rattle.wb_edit.specs.Edits.{meaning, note_of};
ghost use Rattle.wb_log.specs.Cascades.{DependentsReply, CascadeReply, OfNumber, NoShorter, OthersStay, OtherCellsStay, all_out_of_force, places, set_back};
ghost use Rattle.wb_log.specs.Past.{meant, out_of_force, into_force, force_of};
ghost use Rattle.wb_log.specs.Records.{lent_edit};
ghost use Rattle.wb_log.specs.Replies.{EditReply, UndoReply, LastReply, RedoReply, ByNumber, SetsBack, LeavesOthers, Restores, RedoesInPlace};
ghost use Rattle.wb_log.specs.Wants.{has_wanted};
ghost use Rattle.wb_history.specs.Queries.{QueryReply};
ghost use Rattle.wb_history.specs.Restored.{one_of, numbered_at};

use crate::locale::{locale_answer, locale_of};
use crate::note::note_answer;
use crate::piece::piece_answer;
use crate::query::{Answer, count_answer, element_of, force_answer, size_of, value_answer};
use crate::reduction::reduce_answer;
use std::alloc::Global;
use std::marker::Model;
use wb_arrays::Mover;
use wb_book::Book;
use wb_edit::{Edit, Note, Query, Refusal};
use wb_log::{LentEdit, Log, Undoer};
use wb_range::NoMemory;

/// A workbook, and the edits that made it, each in force or out of force. An edit has a number, from 1.
pub struct History {
    log: Log,
}

// In a function of its own, so that a crate above need not prove anew how its field is let go.
impl Drop for History {
    fn drop(self) {
        let History { log: _ } = self;
    }
}

impl Model for History {
    ghost use Rattle.wb_log.specs.Past.{Past, past_code};

    ghost Value = { Past };

    ghost coded = { past_code };

    ghost view = { λ a. a.log };
}

impl History {
    /// The history without edits, of an empty workbook.
    pub fn new(alloc: Global) -> History
        ensures { result ≡ record { entries = []; writes = 0 } }
    {
        History {
            log: Log::new(alloc),
        }
    }

    // The place of the edit of a number: none has the number 0, or one above their count.
    fn place_of(&self, number: u64) -> Option<usize>
        ensures there { IfSome result (λ at. (0 < number) × (at ≡ number - 1) × (at < length self.now.entries)) }
        ensures none { IfNone result (numbered_at self.now.entries number ≡ None) }
    {
        if number == 0 {
            return None;
        }
        let at = (number - 1) as usize;
        if at >= self.log.len() {
            return None;
        }
        Some(at)
    }

    /// How many edits there are, in force and out of force.
    pub fn len(&self) -> u64
        ensures { result ≡ length self.now.entries }
    {
        self.log.len() as u64
    }

    /// The workbook: what the edits in force make of an empty one, each accepted in its place.
    pub fn book(&self) -> &Book
        ensures legal { IsLegal (meant self.now.entries) }
        ensures formed { IsWellFormed result.now.cells }
        ensures cells { result.now.cells ≡ replay (meant self.now.entries) }
        ensures writes { result.now.writes ≡ self.now.writes }
    {
        self.log.book()
    }

    /// Makes an edit: its number, from 1, and how many cells it changes.
    pub fn edit<M: Mover>(&mut self, edit: Edit, mover: &M) -> Result<(u64, usize), Refusal>
        ensures reply { EditReply (meant self.old.entries) (meaning edit) result }
        ensures entries { OnOk result (self.new.entries ≡ self.old.entries ++ record { edit = edit; in_force = true } ∷ []) }
        ensures writes { IfOk result (λ r. self.new.writes ≡ saturating_add self.old.writes r.1) }
        ensures err { OnErr result (self.new ≡ self.old) }
    {
        self.log.add(edit, mover)
    }

    /// Undoes the edit of a number, where no later edit in force needs it.
    pub fn undo<M: Mover>(&mut self, number: u64, mover: &M) -> Result<usize, Refusal>
        ensures reply { ByNumber (UndoReply (meant self.old.entries)) number result }
        ensures entries { OnOk result (self.new.entries ≡ out_of_force (number - 1) self.old.entries) }
        ensures set_back { OnOk result (SetsBack (meant self.old.entries) (number - 1) (meant self.new.entries)) }
        ensures others { OnOk result (LeavesOthers (meant self.old.entries) (number - 1) (meant self.new.entries)) }
        ensures writes { IfOk result (λ n. self.new.writes ≡ saturating_add self.old.writes n) }
        ensures err { OnErr result (self.new ≡ self.old) }
    {
        match self.place_of(number) {
            None => Err(Refusal::NoSuchEdit),
            Some(at) => self.log.undo_at(at, mover),
        }
    }

    /// Undoes the latest edit in force: its number, and how many cells it sets back.
    pub fn undo_last<M: Mover>(&mut self, mover: &M) -> Result<(u64, usize), Refusal>
        ensures reply { LastReply (meant self.old.entries) result }
        ensures entries { IfOk result (λ r. self.new.entries ≡ out_of_force (r.0 - 1) self.old.entries) }
        ensures restored { IfOk result (λ r. Restores (meant self.old.entries) (r.0 - 1) (meant self.new.entries)) }
        ensures others { IfOk result (λ r. LeavesOthers (meant self.old.entries) (r.0 - 1) (meant self.new.entries)) }
        ensures writes { IfOk result (λ r. self.new.writes ≡ saturating_add self.old.writes r.1) }
        ensures err { OnErr result (self.new ≡ self.old) }
    {
        self.log.undo_latest(mover)
    }

    /// The numbers of the edits that have to be undone with the edit of a number, from the greatest down.
    pub fn dependents(&mut self, number: u64) -> Result<Vec<u64>, Refusal>
        ensures reply { IfOk result (λ v. OfNumber (DependentsReply (meant self.old.entries)) number (Ok v.items)) }
        ensures why { IfErr result (λ e. OfNumber (DependentsReply (meant self.old.entries)) number (Err e)) }
        ensures stays { self.new ≡ self.old }
    {
        match self.place_of(number) {
            None => Err(Refusal::NoSuchEdit),
            Some(at) => self.log.dependents_at(at),
        }
    }

    /// Undoes the edit of a number with all that need it, from the greatest down, each by an undo that is granted on its
    /// own: their numbers, and how many cells are set back. Where an undo wants memory, or its mover has no thread, those
    /// before it are the answer; nothing else leaves one of them in force.
    pub fn cascade<M: Mover>(
        &mut self,
        number: u64,
        undoer: &mut Undoer,
        mover: &M,
    ) -> Result<(Vec<u64>, usize), Refusal>
        // The answer: which edits are undone, or why none is.
        ensures reply { IfOk result (λ r. OfNumber (CascadeReply (meant self.old.entries)) number (Ok (r.0.items, r.1))) }
        ensures why { IfErr result (λ e. OfNumber (CascadeReply (meant self.old.entries)) number (Err e)) }
        ensures whole { IfOk result (λ r. has_wanted undoer.new ≡ false → OfNumber (DependentsReply (meant self.old.entries)) number (Ok r.0.items)) }
        ensures shortest { IfOk result (λ r. NoShorter (meant self.old.entries) (number - 1) r.0.items) }

        // They are out of force; the others stay, with their cells; the cells set back are counted.
        ensures entries { IfOk result (λ r. self.new.entries ≡ all_out_of_force r.0.items self.old.entries) }
        ensures others { IfOk result (λ r. OthersStay (meant self.old.entries) (places r.0.items) (meant self.new.entries)) }
        ensures cells { IfOk result (λ r. OtherCellsStay (meant self.old.entries) (places r.0.items) (meant self.new.entries)) }
        ensures writes { IfOk result (λ r. self.new.writes ≡ saturating_add self.old.writes (set_back (meant self.old.entries) (places r.0.items))) }

        // After a refusal nothing has changed.
        ensures err { OnErr result (self.new ≡ self.old) }
    {
        match self.place_of(number) {
            None => Err(Refusal::NoSuchEdit),
            Some(at) => self.log.cascade_at(at, undoer, mover),
        }
    }

    /// What `cascade` does, where `dependents` answered these numbers: how many of them are undone, from the first, and how
    /// many cells are set back. So a caller can have room for what it keeps of them before anything is undone.
    pub fn cascade_listed<M: Mover>(
        &mut self,
        number: u64,
        listed: &[u64],
        undoer: &mut Undoer,
        mover: &M,
    ) -> Result<(usize, usize), NoMemory>
        // The numbers are those that `dependents` answers.
        requires { OfNumber (DependentsReply (meant self.old.entries)) number (Ok listed.now) }

        // How many are undone; fewer than all only where an undo wanted memory.
        ensures within { IfOk result (λ r. r.0 ≤ length listed.now) }
        ensures reply { IfOk result (λ r. OfNumber (CascadeReply (meant self.old.entries)) number (Ok (take r.0 listed.now, r.1))) }
        ensures whole { IfOk result (λ r. r.0 < length listed.now → has_wanted undoer.new ≡ true) }
        ensures wanted { OnErr result (has_wanted undoer.new ≡ true) }

        // They are out of force; the others stay, with their cells; the cells set back are counted.
        ensures entries { IfOk result (λ r. self.new.entries ≡ all_out_of_force (take r.0 listed.now) self.old.entries) }
        ensures others { IfOk result (λ r. OthersStay (meant self.old.entries) (places (take r.0 listed.now)) (meant self.new.entries)) }
        ensures cells { IfOk result (λ r. OtherCellsStay (meant self.old.entries) (places (take r.0 listed.now)) (meant self.new.entries)) }
        ensures writes { IfOk result (λ r. self.new.writes ≡ saturating_add self.old.writes (set_back (meant self.old.entries) (places (take r.0 listed.now)))) }

        // Without memory nothing has changed.
        ensures err { OnErr result (self.new ≡ self.old) }
    {
        let at = (number - 1) as usize;
        self.log.undo_listed(at, listed, undoer, mover)
    }

    /// Redoes the edit of a number in its own place, where no later edit in force is in its way.
    pub fn redo<M: Mover>(&mut self, number: u64, mover: &M) -> Result<usize, Refusal>
        ensures reply { ByNumber (RedoReply (meant self.old.entries)) number result }
        ensures entries { OnOk result (self.new.entries ≡ into_force (number - 1) self.old.entries) }
        ensures in_place { OnOk result (RedoesInPlace (meant self.old.entries) (number - 1) (meant self.new.entries)) }
        ensures writes { IfOk result (λ n. self.new.writes ≡ saturating_add self.old.writes n) }
        ensures err { OnErr result (self.new ≡ self.old) }
    {
        match self.place_of(number) {
            None => Err(Refusal::NoSuchEdit),
            Some(at) => self.log.redo_at(at, mover),
        }
    }

    /// Whether the edit of a number is in force.
    pub fn in_force(&self, number: u64) -> Option<bool>
        ensures { result ≡ force_of self.now.entries number }
    {
        match self.place_of(number) {
            None => None,
            Some(at) => Some(self.log.is_in_force(at)),
        }
    }

    /// The edit of a number, and whether it is in force; none where no edit has the number. `NoMemory` where none is left for
    /// several commands that are made for the moment.
    pub fn edit_at(&self, number: u64) -> Result<Option<(LentEdit<'_>, bool)>, NoMemory>
        ensures { IfOk result (λ found. option_map (λ x. one_of (lent_edit x.0) x.1) found ≡ numbered_at self.now.entries number) }
    {
        match self.place_of(number) {
            None => Ok(None),
            Some(at) => match self.log.edit_at(at) {
                Ok(edit) => Ok(Some((edit, self.log.is_in_force(at)))),
                Err(why) => Err(why),
            },
        }
    }

    // The note of the edit of a number, if it has one; none where no edit has the number.
    fn note_at(&self, number: u64) -> Option<Option<&Note>>
        ensures { option_map (λ n. option_map (λ m. m.now) n) result ≡ option_map (λ x. note_of x.edit) (numbered_at self.now.entries number) }
    {
        match self.place_of(number) {
            None => None,
            Some(at) => Some(self.log.note_at(at)),
        }
    }

    /// Appends an edit, out of force: nothing is tried or made.
    pub(crate) fn append_undone(&mut self, undone: Edit) -> Result<(), NoMemory>
        ensures entries { OnOk result (self.new.entries ≡ self.old.entries ++ one_of undone false ∷ []) }
        ensures writes { self.new.writes ≡ self.old.writes }
        ensures err { OnErr result (self.new ≡ self.old) }
    {
        self.log.append_undone(undone)
    }

    /// What a query is answered, from the workbook as it is; `NoMemory` may stand for a piece or a note, and for nothing else. A
    /// reduction is made by the threads of the mover, where that pays.
    pub fn query<M: Mover>(&self, query: &Query, mover: &M) -> Result<Answer, Refusal>
        ensures { QueryReply (replay (meant self.now.entries)) self.now.entries query.now result }
    {
        match query {
            Query::Get(array, index) => value_answer(element_of(self.book(), array, index)),
            Query::Size(domain) => count_answer(size_of(self.book(), *domain)),
            Query::Where(domain, index) => {
                locale_answer(locale_of(self.book(), *domain, *index))
            }
            Query::Piece(array, locale) => piece_answer(
                self.log.alloc(),
                self.book(),
                *array,
                *locale,
            ),
            Query::Reduce(array, op) => reduce_answer(self.book(), *array, *op, mover),
            Query::State(number) => force_answer(self.in_force(*number)),
            Query::Note(number) => note_answer(self.log.alloc(), self.note_at(*number)),
        }
    }
}
