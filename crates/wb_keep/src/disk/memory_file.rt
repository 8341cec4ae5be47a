//! A file in memory, which can be cut off in the middle of a call, for tests.
ghost use Rattle.std.specs.Prelude.{◌≡◌, ◌≤◌, IfOk, length};
ghost use Rattle.wb_keep.specs.Disk.Calls.{seen_after, MayLeave, LeftSince, faults_in, IsHeld, laid};
ghost use Rattle.wb_keep.specs.Disk.Laws.{left_now, no_other};

use crate::disk::record::Record;
use crate::disk::{Device, DeviceFault, ReplaceErr, Replaces};
use std::alloc::{AllocError, Global};
use std::mem;

/// A file in memory. After some number of calls it is cut off: the call that comes then fails, as does each later one.
/// A write for which there is no memory fails too, and is not done.
#[derive(Drop)]
pub struct MemoryFile {
    alloc: Global,
    bytes: Vec<u8>,
    calls: Record,
    /// How many calls are still done.
    left_to_do: usize,
    /// How much of the write that is cut off reaches the file.
    torn: usize,
    /// What the crash left, once the file is cut off.
    left: Option<Vec<u8>>,
    ghost kept: { bytes.items ≡ seen_after calls },
}

/// Old with these bytes at this offset.
fn overlaid(alloc: Global, old: &[u8], at: usize, bytes: &[u8]) -> Result<Vec<u8>, AllocError>
    requires { at ≤ length old.now }
    ensures { IfOk result (λ new. new.items ≡ laid old.now at bytes.now) }
{
    let mut new = old[..at].to_vec(alloc)?;
    new.extend_from_slice(bytes)?;
    if bytes.len() < old.len() - at {
        new.extend_from_slice(&old[at + bytes.len()..])?;
    }
    Ok(new)
}

impl MemoryFile {
    /// A file with these bytes, all of them on the disk. It does so many calls, and of the write that comes then the
    /// first `torn` bytes.
    pub fn new(alloc: Global, bytes: Vec<u8>, done: usize, torn: usize) -> Self
        ensures { IsHeld bytes.items result.calls }
    {
        let calls = Record::opened(&bytes);
        MemoryFile {
            alloc,
            bytes,
            calls,
            left_to_do: done,
            torn,
            left: None,
        }
    }

    /// The bytes that a read would return.
    pub fn bytes(&self) -> &[u8]
        ensures { result.now ≡ seen_after self.now.calls }
    {
        &self.bytes
    }

    /// Whether a call more is done.
    fn goes_on(&mut self) -> bool
        ensures calls { self.new.calls ≡ self.old.calls }
        ensures bytes { self.new.bytes ≡ self.old.bytes }
    {
        if self.left_to_do == 0 {
            return false;
        }
        self.left_to_do -= 1;
        true
    }

    /// What the crash left, or what is there.
    pub fn left(&self) -> &[u8] {
        match &self.left {
            Some(left) => left,
            None => &self.bytes,
        }
    }
}

impl Device for MemoryFile {
    ghost seen = { λ f. seen_after f.calls };

    ghost may_leave = { λ f. MayLeave f.calls };

    ghost moment = { λ f. length f.calls };

    ghost left_since = { λ f. LeftSince f.calls };

    ghost faults = { λ f. faults_in f.calls };

    ghost counts_now = { λ f. left_now f.calls };

    ghost only_now = { λ f. no_other f.calls };

    /// So little that some batches of a test have room enough, and others don't.
    const ROOM: usize = 8;

    fn write_at(&mut self, at: usize, bytes: &[u8]) -> Result<(), DeviceFault> {
        if self.left_to_do == 0 {
            if self.left.is_none() {
                let torn = self.torn.min(bytes.len());
                self.left = overlaid(self.alloc, &self.bytes, at, &bytes[..torn]).ok();
            }
            self.calls.write(at, bytes, false);
            return Err(DeviceFault);
        }
        let Ok(new) = overlaid(self.alloc, &self.bytes, at, bytes) else {
            self.calls.write(at, bytes, false);
            return Err(DeviceFault);
        };
        self.left_to_do -= 1;
        self.calls.write(at, bytes, true);
        self.bytes = new;
        Ok(())
    }

    fn cut(&mut self, len: usize) -> Result<(), DeviceFault> {
        if self.left_to_do == 0 {
            self.calls.cut(len, false);
            return Err(DeviceFault);
        }
        self.left_to_do -= 1;
        self.calls.cut(len, true);
        self.bytes.truncate(len);
        Ok(())
    }

    fn sync(&mut self) -> Result<(), DeviceFault> {
        if self.left_to_do == 0 {
            self.calls.sync(false);
            return Err(DeviceFault);
        }
        self.left_to_do -= 1;
        self.calls.sync(true);
        Ok(())
    }
}

impl Replaces for MemoryFile {
    type Host = ();

    /// It takes four calls: the new file is written, synced and named, and then the folder is synced. Where it is cut off
    /// in one of the last two, the crash leaves the new file unless `torn` is 0.
    fn replace(&mut self, _host: &(), bytes: &[u8]) -> Result<(), ReplaceErr> {
        let Ok(new) = bytes.to_vec(self.alloc) else {
            self.calls.make(bytes, false);
            return Err(ReplaceErr::NotMade);
        };
        let is_made = self.goes_on();
        self.calls.make(bytes, is_made);
        if !is_made {
            return Err(ReplaceErr::NotMade);
        }
        let is_synced = self.goes_on();
        self.calls.sync_new(is_synced);
        if !is_synced {
            return Err(ReplaceErr::NotMade);
        }
        let is_named = self.goes_on();
        self.calls.name(is_named);
        if !is_named {
            self.left = (self.torn != 0).then(|| new);
            return Err(ReplaceErr::Unsure);
        }
        let old = mem::replace(&mut self.bytes, new);
        let is_settled = self.goes_on();
        self.calls.sync_folder(is_settled);
        if !is_settled {
            self.left = (self.torn == 0).then(|| old);
            return Err(ReplaceErr::Unsure);
        }
        Ok(())
    }
}
