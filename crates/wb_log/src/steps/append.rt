ghost use Rattle.std.specs.Prelude.{◌≡◌, [], ◌∷◌, ◌++◌, OnOk, OnErr, false};

use crate::entry::EditRecord;
use crate::log::Log;
use wb_edit::Edit;
use wb_range::NoMemory;

impl Log {
    /// Keeps an edit as the last one, out of force: nothing is tried or made.
    pub fn append_undone(&mut self, edit: Edit) -> Result<(), NoMemory>
        ensures entries { OnOk result (self.new.entries ≡ self.old.entries ++ record { edit = edit; in_force = false } ∷ []) }
        ensures writes { self.new.writes ≡ self.old.writes }
        ensures err { OnErr result (self.new ≡ self.old) }
    {
        // For the proof: what every edit is, which the entries are to keep.
        edit.validity();
        let entry = EditRecord::undone(self.alloc, edit)?;
        self.entries.push(entry)?;
        Ok(())
    }
}
