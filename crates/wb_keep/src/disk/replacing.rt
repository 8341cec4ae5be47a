//! A whole new file, put in place of another in one step.
ghost use Rattle.std.specs.Prelude.{◌≡◌, ◌⊎◌, ◌<◌, ◌≤◌, List, ℕ, OnOk, OnErr, IsErrOf};
ghost use Rattle.wb_keep.specs.Disk.Device.{Only, Elapses};

use crate::disk::Device;

/// Why a new file is not put in place of another.
#[derive(Clone, Copy, Debug, PartialEq, Eq)]
pub enum ReplaceErr {
    /// It could not be made. The old file is as it was.
    NotMade,
    /// It was made, and may have the name of the old one or not. Make no further call.
    Unsure,
}

/// A file that a whole new one can be put in place of.
pub trait Replaces: Device {
    /// What the step is made by, beside the file: the runtime of a process.
    type Host;

    /// Makes a new file with these bytes, all of them on the disk, and then puts it in place of this one. A crash at any
    /// moment leaves the one or the other.
    fn replace(&mut self, host: &Self::Host, bytes: &[u8]) -> Result<(), ReplaceErr>
        // At the end the file has the bytes, all of them on the disk.
        ensures replaced { OnOk result (Self.seen self.new ≡ bytes.now) }
        ensures durable { OnOk result (Only bytes.now (Self.may_leave self.new)) }

        // A crash at any moment leaves the old file or the new one.
        ensures crash { (c : List ℕ) → Self.may_leave self.new c → Self.may_leave self.old c ⊎ (c ≡ bytes.now) }
        ensures time { Elapses (Self.moment self.old) (Self.moment self.new) (Self.left_since self.old) (Self.left_since self.new) (Self.may_leave self.new) }

        // Where no new file is made, the old one is as it was.
        ensures seen { IsErrOf result ReplaceErr.NotMade → Self.seen self.new ≡ Self.seen self.old }
        ensures stays { IsErrOf result ReplaceErr.NotMade → (c : List ℕ) → Self.may_leave self.new c → Self.may_leave self.old c }

        // It doesn't give up by itself.
        ensures failed { OnErr result (Self.faults self.old < Self.faults self.new) }
        ensures faults { Self.faults self.old ≤ Self.faults self.new };
}
