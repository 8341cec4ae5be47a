//! A new log in place of another, with lines of its own.
ghost use Rattle.std.specs.Prelude.{◌++◌, [], ◌∷◌, ◌≡◌, ◌≢◌, ◌<◌, ◌≤◌, IfOk, IfErr, OnOk, OnErr, IsErrOf};
ghost use Rattle.wb_keep.specs.Disk.Device.{LeavesOnly};
ghost use Rattle.wb_keep.specs.Lines.{lines_of, header, marked, recovered};
ghost use Rattle.wb_keep.specs.Keep.{IsSettled, IsOldOrNew};

use crate::disk::{ReplaceErr, Replaces};
use crate::keep::{HEADER, LineLog};
use crate::lines::block_of;
use std::alloc::{AllocError, Global};

/// Why no new log is put in place of another.
#[derive(Clone, Copy, Debug, PartialEq, Eq)]
pub enum CompactErr {
    /// There was no memory for it. The log is as it was.
    Memory,
    /// Its file could not be made. The log has the same lines, and may go on.
    NotMade,
    /// It is in place, or the old one is. Only `open` says which: make no further call.
    Failed,
}

/// The file of a log at rest that has these lines.
fn file_of(alloc: Global, lines: &[u8]) -> Result<Vec<u8>, AllocError>
    ensures { IfOk result (λ file. file.items ≡ header ++ marked (lines_of lines.now) ++ 35 ∷ []) }
{
    let mut file = HEADER.to_vec(alloc)?;
    let block = block_of(alloc, lines)?;
    file.extend_from_slice(&block)?;
    Ok(file)
}

impl<D: Replaces> LineLog<D> {
    /// Puts a new log in place of this one, with these lines and no other, each ended by a line feed. At `Ok` it is on the
    /// disk.
    pub fn compact(&mut self, alloc: Global, host: &D::Host, lines: &[u8]) -> Result<(), CompactErr>
        requires { IsSettled D.seen D.may_leave self.old }

        ensures compacted { OnOk result (IsSettled D.seen D.may_leave self.new
            × (recovered (D.seen self.new.device) ≡ lines_of lines.now)) }

        // A crash at any moment of the call leaves the lines from before it, or the new ones.
        ensures any_moment { LeavesOnly D.moment D.left_since self.old.device self.new.device
            (IsOldOrNew (recovered (D.seen self.old.device)) (lines_of lines.now)) }

        // Without memory no call is made on the file. Without a new file the old one goes on.
        ensures memory { IsErrOf result CompactErr.Memory → self.new ≡ self.old }
        ensures not_made { IsErrOf result CompactErr.NotMade → IsSettled D.seen D.may_leave self.new
            × (recovered (D.seen self.new.device) ≡ recovered (D.seen self.old.device)) }

        // It doesn't give up by itself.
        ensures failed { IfErr result (λ e. e ≢ CompactErr.Memory → D.faults self.old.device < D.faults self.new.device) }
        ensures faults { D.faults self.old.device ≤ D.faults self.new.device }
    {
        let Ok(file) = file_of(alloc, lines) else {
            return Err(CompactErr::Memory);
        };
        match self.device.replace(host, &file) {
            Ok(()) => {
                self.mark = file.len() - 1;
                self.last = self.mark;
                Ok(())
            }
            Err(ReplaceErr::NotMade) => Err(CompactErr::NotMade),
            Err(ReplaceErr::Unsure) => Err(CompactErr::Failed),
        }
    }
}
