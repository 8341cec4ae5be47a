//! The undo of an edit with all that need it, from the greatest down.

ghost use Rattle.std.specs.Prelude.{◌≡◌, ◌<◌, ◌≤◌, true, false, length, take, Ok, Err, OnErr, IfOk, IfErr};
ghost use Rattle.selective_undo.specs.History.{CanUndoAll};
ghost use Rattle.wb_cells.specs.Cells.{saturating_add};
ghost use Rattle.wb_log.specs.Cascades.{DependentsReply, CascadeReply, AreUndone, NoShorter, OthersStay, OtherCellsStay, all_out_of_force, places, set_back};
ghost use Rattle.wb_log.specs.Past.{meant};
ghost use Rattle.wb_log.specs.Wants.{has_wanted};

use crate::log::Log;
use crate::steps::undoer::Undoer;
use wb_arrays::Mover;
use wb_edit::Refusal;
use wb_range::NoMemory;

impl Log {
    /// The numbers of the edits that have to be undone with the one at a place, from the greatest down.
    pub fn dependents_at(&mut self, at: usize) -> Result<Vec<u64>, Refusal>
        requires { at < length self.old.entries }
        ensures reply { IfOk result (λ v. DependentsReply (meant self.old.entries) at (Ok v.items)) }
        ensures why { IfErr result (λ e. DependentsReply (meant self.old.entries) at (Err e)) }
        ensures stays { self.new ≡ self.old }
    {
        if !self.entries[at].is_in_force() {
            return Err(Refusal::NotInForce);
        }
        match self.index.by_footprint.needing(&self.entries, at) {
            Ok(found) => Ok(found),
            Err(_) => Err(Refusal::NoMemory),
        }
    }

    /// Undoes the edit at a place with all that need it, from the greatest down, as far as memory and threads go: the numbers
    /// of those that are undone, and how many cells are set back. One of them stays in force only where an undo wanted memory.
    pub fn cascade_at<M: Mover>(
        &mut self,
        at: usize,
        undoer: &mut Undoer,
        mover: &M,
    ) -> Result<(Vec<u64>, usize), Refusal>
        requires { at < length self.old.entries }

        // The answer: which edits are undone, or why none is.
        ensures reply { IfOk result (λ r. CascadeReply (meant self.old.entries) at (Ok (r.0.items, r.1))) }
        ensures why { IfErr result (λ e. CascadeReply (meant self.old.entries) at (Err e)) }
        ensures whole { IfOk result (λ r. has_wanted undoer.new ≡ false → DependentsReply (meant self.old.entries) at (Ok r.0.items)) }
        ensures shortest { IfOk result (λ r. NoShorter (meant self.old.entries) at r.0.items) }

        // They are out of force; the others stay, with their cells; the cells set back are counted.
        ensures entries { IfOk result (λ r. self.new.entries ≡ all_out_of_force r.0.items self.old.entries) }
        ensures others { IfOk result (λ r. OthersStay (meant self.old.entries) (places r.0.items) (meant self.new.entries)) }
        ensures cells { IfOk result (λ r. OtherCellsStay (meant self.old.entries) (places r.0.items) (meant self.new.entries)) }
        ensures writes { IfOk result (λ r. self.new.writes ≡ saturating_add self.old.writes (set_back (meant self.old.entries) (places r.0.items))) }

        // After a refusal nothing has changed.
        ensures err { OnErr result (self.new ≡ self.old) }
    {
        match self.dependents_at(at) {
            Err(why) => Err(why),
            Ok(mut found) => match self.undo_listed(at, &found, undoer, mover) {
                Err(NoMemory) => Err(Refusal::NoMemory),
                Ok((done, count)) => {
                    found.truncate(done);
                    Ok((found, count))
                }
            },
        }
    }

    /// Undoes the edit at a place with all that need it, whose numbers these are, from the greatest down, as far as memory
    /// and threads go: how many are undone, and how many cells are set back. Fewer than all are undone only where an undo
    /// wanted memory.
    pub fn undo_listed<M: Mover>(
        &mut self,
        at: usize,
        listed: &[u64],
        undoer: &mut Undoer,
        mover: &M,
    ) -> Result<(usize, usize), NoMemory>
        // The numbers are the dependents'.
        requires { DependentsReply (meant self.old.entries) at (Ok listed.now) }

        // How many are undone; fewer than all only where an undo wanted memory.
        ensures within { IfOk result (λ r. r.0 ≤ length listed.now) }
        ensures reply { IfOk result (λ r. CascadeReply (meant self.old.entries) at (Ok (take r.0 listed.now, r.1))) }
        ensures whole { IfOk result (λ r. r.0 < length listed.now → has_wanted undoer.new ≡ true) }
        ensures wanted { OnErr result (has_wanted undoer.new ≡ true) }
        ensures shortest { IfOk result (λ r. NoShorter (meant self.old.entries) at (take r.0 listed.now)) }

        // They are out of force; the others stay, with their cells; the cells set back are counted.
        ensures entries { IfOk result (λ r. self.new.entries ≡ all_out_of_force (take r.0 listed.now) self.old.entries) }
        ensures others { IfOk result (λ r. OthersStay (meant self.old.entries) (places (take r.0 listed.now)) (meant self.new.entries)) }
        ensures cells { IfOk result (λ r. OtherCellsStay (meant self.old.entries) (places (take r.0 listed.now)) (meant self.new.entries)) }
        ensures writes { IfOk result (λ r. self.new.writes ≡ saturating_add self.old.writes (set_back (meant self.old.entries) (places (take r.0 listed.now)))) }

        // Without memory nothing has changed.
        ensures err { OnErr result (self.new ≡ self.old) }
    {
        // For the proof: the history is legal.
        let _legal = self.book();
        let (done, count) = self.undo_each(listed, undoer, mover);
        if done == 0 {
            return Err(NoMemory);
        }
        Ok((done, count))
    }

    // Undoes edits one after another, each of which may be undone then, up to the first whose undo wants memory: how many, and
    // how many cells are set back.
    fn undo_each<M: Mover>(
        &mut self,
        undone: &[u64],
        undoer: &mut Undoer,
        mover: &M,
    ) -> (usize, usize)
        // Each undo is free when its turn comes.
        requires { CanUndoAll (meant self.old.entries) (places undone.now) }

        // How many are undone, from the first; fewer than all only where an undo wanted memory.
        ensures within { result.0 ≤ length undone.now }
        ensures undone { AreUndone self.old.entries self.old.writes (take result.0 undone.now) self.new.entries result.1 self.new.writes }
        ensures whole { result.0 < length undone.now → has_wanted undoer.new ≡ true }
        ensures none { result.0 ≡ 0 → self.new ≡ self.old }
    {
        let mut done = 0;
        let mut count: usize = 0;
        while done < undone.len() {
            let at = undone[done].saturating_sub(1) as usize;
            match undoer.undo(self, at, mover) {
                Ok(more) => count = count.saturating_add(more),
                Err(NoMemory) => return (done, count),
            }
            done += 1;
        }
        (done, count)
    }
}
