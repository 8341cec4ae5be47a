// A log that begins with the text of a history.
ghost use Rattle.std.specs.Prelude.{◌≡◌, [], ◌∷◌, IfOk, IfErr, IsTrue, string_bytes};
ghost use Rattle.wb_keep.specs.Disk.Device.{LeavesOnly, Only};
ghost use Rattle.wb_keep.specs.Lines.{recovered, is_ours};
ghost use Rattle.wb_kept.specs.Keeping.{IsKept};
ghost use Rattle.wb_keeping.specs.Granting.Granting.{Grants, no_edit};
ghost use Rattle.wb_keeping.specs.Opening.{IsOpening, IsNoBeginning, IsOldOrBegun};

use crate::beginning::Opening;
use std::alloc::Global;
use wb_history::History;
use wb_keep::disk::Device;
use wb_keep::{AppendErr, OpenErr, read, resume};
use wb_kept::Kept;

/// Why a file is not begun with a history.
#[derive(Clone, Copy, Debug, PartialEq, Eq)]
pub enum BeginErr {
    /// It does not begin with our header, and is not the front of a file that would.
    NotOurs,
    /// It has a line already.
    HasLines,
    /// There was no memory.
    Memory,
    /// The file failed.
    Failed,
}

/// Begins a file that has no line, and that a crash may have left, with the line of a history: at `Ok` it is on the disk. It
/// may crash too. An `Err` hands the device back.
pub fn begin_kept<D: Device>(
    alloc: Global,
    opening: Opening,
    device: D,
    held: &[u8],
) -> Result<Kept<History, D>, (BeginErr, D)>
    requires opening { IsOpening opening }
    requires read { D.Device.seen device ≡ held.now }
    // After a restart, what is read is what is on the disk.
    requires durable { Only (D.Device.seen device) (D.Device.may_leave device) }

    ensures kept { IfOk result (λ kept. IsKept no_edit Grants D.Device.seen D.Device.may_leave kept) }
    ensures begun { IfOk result (λ kept. (kept.state ≡ opening.history)
        × (recovered (D.Device.seen kept.log.device) ≡ string_bytes opening.line ∷ [])) }
    ensures empty { IfOk result (λ _. IsTrue (is_ours held.now) × (recovered held.now ≡ [])) }

    // A crash at any moment leaves the lines from before, or the new one.
    ensures any_moment { IfOk result (λ kept. LeavesOnly D.Device.moment D.Device.left_since device kept.log.device
        (IsOldOrBegun held.now (string_bytes opening.line))) }

    // A file of someone else, and one that has a line, is refused with no call on it. It doesn't give up by itself.
    ensures err { IfErr result (λ e. IsNoBeginning D.Device device held.now (string_bytes opening.line) e.0 e.1) }
{
    let (lines, end) = match read(alloc, held) {
        Ok(read) => read,
        Err(OpenErr::NotOurs) => return Err((BeginErr::NotOurs, device)),
        Err(_) => return Err((BeginErr::Memory, device)),
    };
    if !lines.is_empty() {
        return Err((BeginErr::HasLines, device));
    }
    let mut line = opening.line.into_bytes();
    if line.push(b'\n').is_err() {
        return Err((BeginErr::Memory, device));
    }
    let mut log = match resume(device, end) {
        Ok(log) => log,
        Err(device) => return Err((BeginErr::Failed, device)),
    };
    match log.append(alloc, &line) {
        Ok(()) => Ok(Kept {
            state: opening.history,
            log,
        }),
        Err(AppendErr::Failed) => Err((BeginErr::Failed, log.device)),
        Err(_) => Err((BeginErr::Memory, log.device)),
    }
}
