ghost use Rattle.std.specs.Prelude.{◌≡◌, ◌+◌, length, [], ◌∷◌, ◌++◌, OnOk, OnErr, IfOk, IfSome, IfNone, Ok, true};
ghost use Rattle.selective_undo.specs.Changes.{apply};
ghost use Rattle.selective_undo.specs.Edit.{outcome, reads};
ghost use Rattle.selective_undo.specs.History.{replay};
ghost use Rattle.wb_cells.specs.Cells.{saturating_add, count_of};
ghost use Rattle.wb_edit.specs.declared.command.Command.TheVariants as command;
ghost use Rattle.wb_edit.specs.declared.edit.Edit.TheVariants.{Command as OneCommand};
ghost use Rattle.wb_edit.specs.Edits.{meaning, IsValid};
ghost use Rattle.wb_log.specs.Kept.{plan_refusal};
ghost use Rattle.wb_log.specs.Past.{meant};
ghost use Rattle.wb_log.specs.Replies.{EditReply};

use crate::entry::{EditRecord, SetRecord};
use crate::log::Log;
use crate::steps::making::make;
use wb_arrays::Mover;
use wb_cells::{AnyIndex, Delta, Name};
use wb_edit::{Command, Edit, PlanErr, ReadFootprint, Refusal, plan};
use wb_range::NoMemory;

fn plan_refusal(stop: PlanErr) -> Refusal
    ensures { result ≡ plan_refusal stop }
{
    match stop {
        PlanErr::Refused(why, _) => Refusal::Refused(why),
        PlanErr::NoMemory => Refusal::NoMemory,
    }
}

impl Log {
    /// Makes an edit, and keeps it as the last: its number, from 1, and how many cells it changes.
    pub fn add<M: Mover>(&mut self, edit: Edit, mover: &M) -> Result<(u64, usize), Refusal>
        // The answer; the edit is the last of the log, and the cells that were set are counted.
        ensures reply { EditReply (meant self.old.entries) (meaning edit) result }
        ensures entries { OnOk result (self.new.entries ≡ self.old.entries ++ record { edit = edit; in_force = true } ∷ []) }
        ensures writes { IfOk result (λ r. self.new.writes ≡ saturating_add self.old.writes r.1) }

        // After a refusal nothing has changed.
        ensures err { OnErr result (self.new ≡ self.old) }
    {
        // For the proof: what every edit is, which the entries are to keep.
        edit.validity();
        match self.set_straight(&edit) {
            Some(number) => Ok((number, 1)),
            None => self.add_planned(edit, mover),
        }
    }

    // Makes a new value of an element that is there, with no plan, and keeps it as the last: its number. Of another edit, and where
    // the log has no room, nothing is done.
    fn set_straight(&mut self, edit: &Edit) -> Option<u64>
        requires { IsValid edit.now }

        // The answer; the edit is the last of the log, and one cell more was set.
        ensures reply { IfSome result (λ k. EditReply (meant self.old.entries) (meaning edit.now) (Ok (k, 1))) }
        ensures entries { IfSome result (λ k. self.new.entries ≡ self.old.entries ++ record { edit = edit.now; in_force = true } ∷ []) }
        ensures writes { IfSome result (λ k. self.new.writes ≡ saturating_add self.old.writes 1) }

        // Else nothing has changed.
        ensures none { IfNone result (self.new ≡ self.old) }
    {
        match edit {
            Edit::Command(Command::Set(array, place, value)) => self.set_there(array, place, value),
            _ => None,
        }
    }

    // Sets an element that is there, and keeps that as the last edit: its number. Where there is no such element, and where the
    // log has no room, nothing is done.
    fn set_there(&mut self, array: &Name, place: &AnyIndex, value: &i64) -> Option<u64>
        requires { IsValid (OneCommand (command.Set array.now place.now value.now)) }

        // The answer; the edit is the last of the log, and one cell more was set.
        ensures reply { IfSome result (λ k. EditReply (meant self.old.entries) (meaning (OneCommand (command.Set array.now place.now value.now))) (Ok (k, 1))) }
        ensures entries { IfSome result (λ k. self.new.entries ≡ self.old.entries ++
            record { edit = OneCommand (command.Set array.now place.now value.now); in_force = true } ∷ []) }
        ensures writes { IfSome result (λ k. self.new.writes ≡ saturating_add self.old.writes 1) }

        // Else nothing has changed.
        ensures none { IfNone result (self.new ≡ self.old) }
    {
        if self.entries.reserve(1).is_err() {
            return None;
        }
        let Ok(record) = SetRecord::undone(self.alloc, array, place, value) else {
            return None;
        };
        match self.book.replace(array, place, *value) {
            None => None,
            Some(was) => match self.entries.push(EditRecord::set(record, &was)) {
                Ok(()) => Some(self.entries.len() as u64),
                Err(_) => unreachable!(),
            },
        }
    }

    // Makes an edit by its plan, and keeps it as the last.
    fn add_planned<M: Mover>(&mut self, edit: Edit, mover: &M) -> Result<(u64, usize), Refusal>
        requires { IsValid edit }

        // The answer; the edit is the last of the log, and the cells that were set are counted.
        ensures reply { EditReply (meant self.old.entries) (meaning edit) result }
        ensures entries { OnOk result (self.new.entries ≡ self.old.entries ++ record { edit = edit; in_force = true } ∷ []) }
        ensures writes { IfOk result (λ r. self.new.writes ≡ saturating_add self.old.writes r.1) }

        // After a refusal nothing has changed.
        ensures err { OnErr result (self.new ≡ self.old) }
    {
        match plan(self.alloc, &self.book, &edit) {
            Err(stop) => Err(plan_refusal(stop)),
            Ok((delta, footprint, count)) => match self.keep_new(edit, delta, footprint, mover) {
                Ok(number) => Ok((number, count)),
                Err(_) => Err(Refusal::NoMemory),
            },
        }
    }

    // Makes the changes of a planned edit, and keeps it as the last: its number. Want of threads is answered as want of memory.
    fn keep_new<M: Mover>(
        &mut self,
        edit: Edit,
        delta: Delta,
        footprint: ReadFootprint,
        mover: &M,
    ) -> Result<u64, NoMemory>
        // The plan is the edit's.
        requires valid { IsValid edit }
        requires outcome { outcome (meaning edit) (replay (meant self.old.entries)) ≡ Ok delta }
        requires reads { footprint ≡ reads (meaning edit) (replay (meant self.old.entries)) }

        // The number; the edit is the last of the log, and the cells that were set are counted.
        ensures number { IfOk result (λ k. k ≡ length self.old.entries + 1) }
        ensures entries { OnOk result (self.new.entries ≡ self.old.entries ++ record { edit = edit; in_force = true } ∷ []) }
        ensures writes { OnOk result (self.new.writes ≡ saturating_add self.old.writes (count_of delta)) }

        // Without memory nothing has changed.
        ensures err { OnErr result (self.new ≡ self.old) }
    {
        if self.entries.reserve(1).is_err() {
            return Err(NoMemory);
        }
        match EditRecord::undone(self.alloc, edit) {
            Err(why) => Err(why),
            Ok(mut entry) => {
                match make(
                    self.alloc,
                    &mut self.book,
                    &mut entry,
                    delta,
                    footprint,
                    mover,
                ) {
                    Err(why) => Err(why),
                    Ok(()) => match self.entries.push(entry) {
                        Ok(()) => Ok(self.entries.len() as u64),
                        Err(_) => unreachable!(),
                    },
                }
            }
        }
    }
}
