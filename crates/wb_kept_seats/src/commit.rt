//! Why changes are not kept.
ghost use Rattle.std.specs.Prelude.{◌≡◌};
ghost use Rattle.wb_kept_seats.specs.Committing.{commit_err};

use wb_keep::AppendErr;
use wb_kept_group::group::KeepErr;

/// Why the changes of a turn are not kept.
#[derive(Clone, Copy, Debug, PartialEq, Eq)]
pub enum CommitErr {
    /// There was no memory, or no room in the file.
    NoMemory,
    /// The file failed. From then on nothing is kept: open the file again.
    DiskFault,
    /// The desk was closed before.
    Closed,
}

impl CommitErr {
    /// Why a desk's file did not take its turns.
    pub(crate) fn of(error: KeepErr<AppendErr>) -> CommitErr
        ensures { result ≡ commit_err error }
    {
        match error {
            KeepErr::Closed => CommitErr::Closed,
            KeepErr::Failed(AppendErr::Failed) => CommitErr::DiskFault,
            KeepErr::Failed(AppendErr::Memory) => CommitErr::NoMemory,
            KeepErr::Failed(AppendErr::Full) => CommitErr::NoMemory,
        }
    }
}
