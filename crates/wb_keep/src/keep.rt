//! The log: a header, batches of lines, and the mark of a line that does not count.
ghost use Rattle.std.specs.Prelude.{◌≡◌, ◌≢◌, ◌<◌, ◌≤◌, ◌^◌, ◌++◌, ◌+◌, max, [], length, take, map, IsTrue, IsFalse, IfOk, IfErr, IsErrAnd, OnOk, OnErr, IsErrOf, Err};
ghost use Rattle.wb_keep.specs.Disk.Device.{Only, LeavesOnly, Torn, Cut, Holds};
ghost use Rattle.wb_keep.specs.Lines.{lines_of, recovered, IsClosed, is_ours};
ghost use Rattle.wb_keep.specs.Keep.{IsSettled, IsBeforeOrAfter};
ghost use Rattle.wb_keep.specs.Run.{lines_in, HasSome};
ghost use Rattle.wb_keep.specs.declared.keep.AppendErr.TheVariants.{Memory, Failed};
ghost use Rattle.wb_keep.specs.Repair.{IsRepairable, StandsForTheSame, tail_at};

use crate::disk::{Device, DeviceFault};
use crate::lines::{CLOSED, block_of, counted_lines, with_room};
use std::alloc::{AllocError, Global};

/// The first line.
pub(crate) const HEADER: [u8; 18] = *b"chapel-workbook 3\n";

/// What a new log begins with.
pub const START: [u8; 19] = *b"chapel-workbook 3\n#";

const MAX_LENGTH: usize = 1 << 60;

/// A log of lines in a file.
#[derive(Drop)]
pub struct LineLog<D: Device> {
    /// The file. Who calls it breaks the log.
    pub device: D,
    /// Where the mark stands that closes the file.
    pub mark: usize,
    /// Where its last byte stands. Behind the mark is room for more.
    pub last: usize,
}

/// Why a file is not opened.
#[derive(Clone, Copy, Debug, PartialEq, Eq)]
pub enum OpenErr {
    /// It does not begin with our header, and is not the front of a file that would.
    NotOurs,
    /// There was no memory for its lines.
    Memory,
    /// The file failed.
    Failed,
}

/// Why lines are not added.
#[derive(Clone, Copy, Debug, PartialEq, Eq)]
pub enum AppendErr {
    /// There was no memory for them. The log is as it was.
    Memory,
    /// The file failed. Only `open` says what it has: make no further call.
    Failed,
    /// The file has no room. The log is as it was.
    Full,
}

impl From<AllocError> for AppendErr {
    ghost from_gives = { λ _ e. e ≡ Memory };

    fn from(_: AllocError) -> Self {
        AppendErr::Memory
    }
}

impl From<DeviceFault> for AppendErr {
    ghost from_gives = { λ _ e. e ≡ Failed };

    fn from(_: DeviceFault) -> Self {
        AppendErr::Failed
    }
}

/// What belongs behind the end of the lines: the start of a file, or the mark that closes it.
fn tail_at(end: usize) -> &'static [u8]
    ensures { result.now ≡ tail_at end }
{
    if end == 0 { &START } else { &[CLOSED] }
}

/// Writes bytes at a place of a file, all of which is on the disk, and syncs. A crash at any moment leaves what a write
/// that is cut short may leave.
fn put<D: Device>(device: &mut D, at: usize, bytes: &[u8]) -> Result<(), DeviceFault>
    // All of the file is on the disk, and the place is within it or at its end.
    requires durable { Only (D.seen device.old) (D.may_leave device.old) }
    requires within { at ≤ length (D.seen device.old) }

    // The bytes stand there, and all is on the disk.
    ensures written { OnOk result (Holds (D.seen device.old) at bytes.now (D.seen device.new)) }
    ensures durable { OnOk result (Only (D.seen device.new) (D.may_leave device.new)) }

    // A crash at any moment leaves what a write that is cut short may leave.
    ensures any_moment { LeavesOnly D.moment D.left_since device.old device.new (Torn at bytes.now (D.seen device.old)) }

    // It doesn't give up by itself.
    ensures failed { OnErr result (D.faults device.old < D.faults device.new) }
    ensures faults { D.faults device.old ≤ D.faults device.new }
{
    device.write_at(at, bytes)?;
    // Before this a crash may leave a part of them.
    device.sync()
}

/// Cuts a file off at a length, all of which is on the disk, and syncs.
fn cut_off<D: Device>(device: &mut D, len: usize) -> Result<(), DeviceFault>
    // All of the file is on the disk, and the length is within it.
    requires durable { Only (D.seen device.old) (D.may_leave device.old) }
    requires within { len ≤ length (D.seen device.old) }

    // That much is left, all of it on the disk.
    ensures cut { OnOk result (D.seen device.new ≡ take len (D.seen device.old)) }
    ensures durable { OnOk result (Only (D.seen device.new) (D.may_leave device.new)) }

    // A crash at any moment leaves some length between.
    ensures any_moment { LeavesOnly D.moment D.left_since device.old device.new (Cut len (D.seen device.old)) }

    // It doesn't give up by itself.
    ensures failed { OnErr result (D.faults device.old < D.faults device.new) }
    ensures faults { D.faults device.old ≤ D.faults device.new }
{
    device.cut(len)?;
    device.sync()
}

/// Puts the end of a file right that a crash may have left. It may crash too.
fn repair<D: Device>(device: &mut D, end: usize) -> Result<(), DeviceFault>
    // All of the file is on the disk, and its end can be put right.
    requires durable { Only (D.seen device.old) (D.may_leave device.old) }
    requires repairable { IsRepairable (D.seen device.old) end }

    // The lines are the same, the file ends with its mark, and all is on the disk.
    ensures at_rest { OnOk result (IsClosed (D.seen device.new) × (recovered (D.seen device.new) ≡ recovered (D.seen device.old))) }
    ensures mark { OnOk result (max end 18 + 1 ≡ length (D.seen device.new)) }
    ensures durable { OnOk result (Only (D.seen device.new) (D.may_leave device.new)) }

    // A crash at any moment leaves the same lines.
    ensures any_moment { LeavesOnly D.moment D.left_since device.old device.new (StandsForTheSame (D.seen device.old)) }

    // It doesn't give up by itself.
    ensures failed { OnErr result (D.faults device.old < D.faults device.new) }
{
    // One sync is enough for both: with the mark, without it and with a part of the old end the file stands for the same.
    device.cut(end)?;
    device.write_at(end, tail_at(end))?;
    device.sync()
}

/// Whether a file begins with our header, or is the front of one that would.
fn is_ours(held: &[u8]) -> bool
    ensures { result ≡ is_ours held.now }
{
    let n = held.len().min(HEADER.len());
    held[..n] == HEADER[..n]
}

/// The lines that a file stands for, and where they end.
fn read_lines(alloc: Global, held: &[u8]) -> Result<(Vec<Vec<u8>>, usize), AllocError>
    requires { IsTrue (is_ours held.now) }
    ensures lines { IfOk result (λ read. map (λ line. line.items) read.0.items ≡ recovered held.now) }
    ensures end { IfOk result (λ read. IsRepairable held.now read.1) }
{
    if held.len() < HEADER.len() {
        return Ok((Vec::new(alloc), 0));
    }
    let (lines, rest) = counted_lines(alloc, &held[HEADER.len()..])?;
    Ok((lines, held.len() - rest.len()))
}

/// The lines that a file stands for, and where they end, for `resume`. It makes no call on the file.
pub fn read(alloc: Global, held: &[u8]) -> Result<(Vec<Vec<u8>>, usize), OpenErr>
    ensures lines { IfOk result (λ read. map (λ line. line.items) read.0.items ≡ recovered held.now) }
    ensures end { IfOk result (λ read. IsRepairable held.now read.1) }
    ensures foreign { IsFalse (is_ours held.now) → result ≡ Err OpenErr.NotOurs }
    ensures ours { IsTrue (is_ours held.now) → IfErr result (λ e. e ≡ OpenErr.Memory) }
{
    if !is_ours(held) {
        return Err(OpenErr::NotOurs);
    }
    match read_lines(alloc, held) {
        Ok(read) => Ok(read),
        Err(_) => Err(OpenErr::Memory),
    }
}

/// Opens a log that a crash may have left, and of which the lines were read, that end there. It may crash too. Where
/// the file fails, it is handed back.
pub fn resume<D: Device>(device: D, end: usize) -> Result<LineLog<D>, D>
    requires repairable { IsRepairable (D.seen device) end }
    // After a restart, what is read is what is on the disk.
    requires durable { Only (D.seen device) (D.may_leave device) }

    ensures settled { IfOk result (λ log. IsSettled D.seen D.may_leave log × (recovered (D.seen log.device) ≡ recovered (D.seen device))) }
    ensures closed { IfOk result (λ log. IsClosed (D.seen log.device)) }

    // A crash at any moment leaves the same lines.
    ensures any_moment { IfOk result (λ log. LeavesOnly D.moment D.left_since device log.device (StandsForTheSame (D.seen device))) }
    ensures any_moment_err { IfErr result (λ left. LeavesOnly D.moment D.left_since device left (StandsForTheSame (D.seen device))) }

    // It doesn't give up by itself.
    ensures failed { IfErr result (λ left. D.faults device < D.faults left) }
{
    let mut device = device;
    match repair(&mut device, end) {
        Ok(()) => Ok(LineLog {
            device,
            mark: end.max(HEADER.len()),
            last: end.max(HEADER.len()),
        }),
        Err(_) => Err(device),
    }
}

/// Opens a log that a crash may have left, and of which `held` was read. It may crash too. An `Err` hands the device
/// back.
pub fn open<D: Device>(
    alloc: Global,
    device: D,
    held: &[u8],
) -> Result<(LineLog<D>, Vec<Vec<u8>>), (OpenErr, D)>
    requires read { D.seen device ≡ held.now }
    // After a restart, what is read is what is on the disk.
    requires durable { Only (D.seen device) (D.may_leave device) }

    ensures lines { IfOk result (λ opened. map (λ line. line.items) opened.1.items ≡ recovered held.now) }
    ensures settled { IfOk result (λ opened. IsSettled D.seen D.may_leave opened.0
        × (recovered (D.seen opened.0.device) ≡ recovered held.now)) }
    ensures closed { IfOk result (λ opened. IsClosed (D.seen opened.0.device)) }

    // A crash at any moment leaves the same lines.
    ensures any_moment { IfOk result (λ opened. LeavesOnly D.moment D.left_since device opened.0.device (StandsForTheSame held.now)) }
    ensures any_moment_err { IfErr result (λ e. LeavesOnly D.moment D.left_since device e.1 (StandsForTheSame held.now)) }

    // A file of someone else is refused, with no call on it.
    ensures foreign { IsFalse (is_ours held.now) → IsErrAnd result (λ e. (e.0 ≡ OpenErr.NotOurs) × (e.1 ≡ device)) }
    ensures ours { IsTrue (is_ours held.now) → IfErr result (λ e. e.0 ≢ OpenErr.NotOurs) }

    // It doesn't give up by itself.
    ensures failed { IfErr result (λ e. e.0 ≡ OpenErr.Failed → D.faults device < D.faults e.1) }
{
    let (lines, end) = match read(alloc, held) {
        Ok(read) => read,
        Err(error) => return Err((error, device)),
    };
    match resume(device, end) {
        Ok(log) => Ok((log, lines)),
        Err(device) => Err((OpenErr::Failed, device)),
    }
}

impl<D: Device> LineLog<D> {
    /// Adds lines, each ended by a line feed; what stands behind the last line feed is no line, and is not kept. At
    /// `Ok` they are acknowledged: from then on each crash leaves a file that has them.
    pub fn append(&mut self, alloc: Global, lines: &[u8]) -> Result<(), AppendErr>
        requires { IsSettled D.seen D.may_leave self.old }

        ensures acknowledged { OnOk result (IsSettled D.seen D.may_leave self.new
            × (recovered (D.seen self.new.device) ≡ recovered (D.seen self.old.device) ++ lines_of lines.now)) }

        // A crash at any moment of the call leaves the lines from before it, with all of the new ones or with none.
        ensures any_moment { LeavesOnly D.moment D.left_since self.old.device self.new.device
            (IsBeforeOrAfter (recovered (D.seen self.old.device)) (lines_of lines.now)) }

        // Without a line no call is made on the file, nor where there is no memory or no room.
        ensures idle { lines_of lines.now ≡ [] → self.new ≡ self.old }
        ensures memory { IsErrOf result AppendErr.Memory → self.new ≡ self.old }
        ensures no_room { IsErrOf result AppendErr.Full → self.new ≡ self.old }

        // It doesn't give up by itself.
        ensures failed { IsErrOf result AppendErr.Failed → D.faults self.old.device < D.faults self.new.device }
        ensures faults { D.faults self.old.device ≤ D.faults self.new.device }
        ensures full { IsErrOf result AppendErr.Full → 2 ^ 60 ≤ self.old.mark }
    {
        self.append_ahead(alloc, lines, 0)
    }

    /// Appends lines as `append` does. Where the file gets longer, it gets so much room behind the new mark; `close` cuts off what is left
    /// of that.
    pub fn append_ahead(
        &mut self,
        alloc: Global,
        lines: &[u8],
        room: usize,
    ) -> Result<(), AppendErr>
        requires { IsSettled D.seen D.may_leave self.old }

        ensures acknowledged { OnOk result (IsSettled D.seen D.may_leave self.new
            × (recovered (D.seen self.new.device) ≡ recovered (D.seen self.old.device) ++ lines_of lines.now)) }

        // A crash at any moment of the call leaves the lines from before it, with all of the new ones or with none.
        ensures any_moment { LeavesOnly D.moment D.left_since self.old.device self.new.device
            (IsBeforeOrAfter (recovered (D.seen self.old.device)) (lines_of lines.now)) }

        // Without a line no call is made on the file, nor where there is no memory or no room.
        ensures idle { lines_of lines.now ≡ [] → self.new ≡ self.old }
        ensures memory { IsErrOf result AppendErr.Memory → self.new ≡ self.old }
        ensures no_room { IsErrOf result AppendErr.Full → self.new ≡ self.old }

        // It doesn't give up by itself.
        ensures failed { IsErrOf result AppendErr.Failed → D.faults self.old.device < D.faults self.new.device }
        ensures faults { D.faults self.old.device ≤ D.faults self.new.device }
        ensures full { IsErrOf result AppendErr.Full → 2 ^ 60 ≤ self.old.mark }
    {
        let block = block_of(alloc, lines)?;
        if block.len() == 1 {
            return Ok(());
        }
        let mark = self.mark;
        if mark >= MAX_LENGTH {
            return Err(AppendErr::Full);
        }
        let more = block.len() - 1;
        let bytes = with_room(block, self.last - mark, room)?;
        put(&mut self.device, mark, &bytes)?;
        self.mark = mark + more;
        self.last = self.last.max(mark + (bytes.len() - 1));
        Ok(())
    }

    /// Cuts off the room behind the mark. The log may go on.
    pub fn close(&mut self) -> Result<(), DeviceFault>
        requires { IsSettled D.seen D.may_leave self.old }

        // The file ends with its mark, has the same lines, and all of it is on the disk.
        ensures closed { OnOk result (IsClosed (D.seen self.new.device)) }
        ensures settled { OnOk result (IsSettled D.seen D.may_leave self.new
            × (recovered (D.seen self.new.device) ≡ recovered (D.seen self.old.device))) }

        // A crash at any moment leaves the same lines.
        ensures any_moment { LeavesOnly D.moment D.left_since self.old.device self.new.device (StandsForTheSame (D.seen self.old.device)) }

        // Without room no call is made.
        ensures idle { self.old.last ≡ self.old.mark → self.new ≡ self.old }

        // It doesn't give up by itself.
        ensures failed { OnErr result (D.faults self.old.device < D.faults self.new.device) }
        ensures faults { D.faults self.old.device ≤ D.faults self.new.device }
    {
        let mark = self.mark;
        if self.last == mark {
            return Ok(());
        }
        cut_off(&mut self.device, mark + 1)?;
        self.last = mark;
        Ok(())
    }

    /// Adds batches of lines in order, each acknowledged before the next is written.
    pub fn append_all(&mut self, alloc: Global, batches: &[Vec<u8>]) -> Result<(), AppendErr>
        requires { IsSettled D.seen D.may_leave self.old }

        ensures acknowledged { OnOk result (IsSettled D.seen D.may_leave self.new
            × (recovered (D.seen self.new.device) ≡ recovered (D.seen self.old.device) ++ lines_in batches.now)) }

        // A crash at any moment leaves the lines of the first so many batches, none skipped and none in part.
        ensures any_moment { LeavesOnly D.moment D.left_since self.old.device self.new.device
            (HasSome (recovered (D.seen self.old.device)) batches.now) }

        // It doesn't give up by itself.
        ensures failed { IsErrOf result AppendErr.Failed → D.faults self.old.device < D.faults self.new.device }
        ensures faults { D.faults self.old.device ≤ D.faults self.new.device }
        // Where there is no room, the log is as the batches before left it.
        ensures full { IsErrOf result AppendErr.Full → IsSettled D.seen D.may_leave self.new × (2 ^ 60 ≤ self.new.mark) }
    {
        for batch in batches {
            self.append(alloc, batch)?;
        }
        Ok(())
    }
}
