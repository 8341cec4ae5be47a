//! A file of the operating system. Each method makes one call of it, and then notes the call with its answer.
ghost use Rattle.std.specs.Prelude.{◌≡◌, Err, IfOk, length};
ghost use Rattle.wb_keep.specs.Disk.Calls.{seen_after, MayLeave, LeftSince, faults_in, IsHeld};
ghost use Rattle.wb_keep.specs.Disk.Laws.{left_now, no_other};

use crate::disk::record::Record;
use crate::disk::{Device, DeviceFault, ReplaceErr, Replaces};
use std::alloc::AllocError;
use std::fs::{self, File, OpenOptions, TryLockError};
use std::io::{self, Read};
use std::os::fd::AsRawFd;
use std::os::unix::fs::{FileExt, MetadataExt, chown};
use std::path::Path;
use std::process;

/// An open file, locked against each other process that opens it by `open_file`.
#[derive(Drop)]
pub struct DiskFile {
    file: File,
    path: String,
    /// The path of a new file that is made beside it.
    beside: String,
    calls: Record,
    fault: Option<io::Error>,
    /// Whether a new file may have the name of this one. Then nothing more is synced.
    is_unsure: bool,
}

/// Why a file is not opened.
#[derive(Clone, Copy, Debug)]
pub enum OpenDiskErr {
    /// The system refused a call.
    Io(io::Error),
    /// There was no memory for its bytes.
    Memory,
    /// Another process, or this one, has it open.
    Busy,
    /// It is a folder, or another thing that is no regular file.
    NotAFile,
}

impl From<io::Error> for OpenDiskErr {
    fn from(error: io::Error) -> Self {
        OpenDiskErr::Io(error)
    }
}

impl From<AllocError> for OpenDiskErr {
    fn from(_error: AllocError) -> Self {
        OpenDiskErr::Memory
    }
}

impl From<TryLockError> for OpenDiskErr {
    fn from(error: TryLockError) -> Self {
        match error {
            TryLockError::WouldBlock => OpenDiskErr::Busy,
            TryLockError::Error(error) => OpenDiskErr::Io(error),
        }
    }
}

/// The path of a new file beside the one at a path. No other process that runs makes one with it.
fn beside(rt: &HostRuntime, path: &str) -> Result<String, AllocError> {
    format!(in rt.alloc(); "{path}.{}.new", process::id(rt.process()))
}

/// Makes a file with these bytes. What an earlier process left under the name is taken away
/// first, and not written over, since it may be the same file under a second name.
fn make_beside(rt: &HostRuntime, beside: &str, bytes: &[u8]) -> io::Result<File> {
    match fs::remove_file(rt, beside) {
        Err(error) if error.kind() != io::ErrorKind::NotFound => return Err(error),
        _ => {}
    }
    let file = OpenOptions::new()
        .read(true)
        .write(true)
        .create_new(true)
        .open(rt, beside)?;
    file.write_all_at(bytes, 0)?;
    Ok(file)
}

/// Syncs a new file that is to take the place of an old one, with the owner and the permissions of that, and locks it.
fn sync_like(rt: &HostRuntime, beside: &str, new: &File, old: &File) -> io::Result<()> {
    let made = new.metadata()?;
    let wanted = old.metadata()?;
    if made.uid() != wanted.uid() || made.gid() != wanted.gid() {
        chown(rt, beside, Some(wanted.uid()), Some(wanted.gid()))?;
    }
    new.set_permissions(wanted.permissions())?;
    new.sync_all()?;
    new.try_lock()?;
    Ok(())
}

/// Makes a file with these bytes, all of them on the disk. Where that fails, nothing is left of it.
fn make_whole(rt: &HostRuntime, path: &str, bytes: &[u8]) -> io::Result<()> {
    let made = match make_beside(rt, path, bytes) {
        Ok(file) => file.sync_all(),
        Err(error) => Err(error),
    };
    if made.is_err() {
        let _ = fs::remove_file(rt, path);
    }
    made
}

/// Makes a file that begins with these bytes, unless another process is first. They are on the disk under another
/// name before the file has its own, so that no crash leaves it without them.
fn make(rt: &HostRuntime, path: &str, start: &[u8]) -> Result<(), OpenDiskErr> {
    let other = beside(rt, path)?;
    make_whole(rt, other.as_str(), start)?;
    let linked = fs::hard_link(rt, other.as_str(), path);
    fs::remove_file(rt, other.as_str())?;
    match linked {
        Err(error) if error.kind() != io::ErrorKind::AlreadyExists => Err(OpenDiskErr::Io(error)),
        _ => Ok(()),
    }
}

/// Opens the regular file at a path and locks it, if it still has the path then: another process may have put a new one
/// in its place.
fn open_locked(rt: &HostRuntime, path: &str) -> Result<File, OpenDiskErr> {
    if !fs::metadata(rt, path)?.is_file() {
        return Err(OpenDiskErr::NotAFile);
    }
    let file = OpenOptions::new().read(true).write(true).open(rt, path)?;
    let opened = file.metadata()?;
    if !opened.is_file() {
        return Err(OpenDiskErr::NotAFile);
    }
    file.try_lock()?;
    let named = fs::metadata(rt, path)?;
    if opened.dev() != named.dev() || opened.ino() != named.ino() {
        return Err(OpenDiskErr::Busy);
    }
    Ok(file)
}

/// Opens the file at a path, or makes it with this start, and locks it until it is dropped. Returns the bytes that it
/// held too, which are on the disk.
pub fn open_file(
    rt: &HostRuntime,
    path: &str,
    start: &[u8],
) -> Result<(DiskFile, Vec<u8>), OpenDiskErr>
    ensures { IfOk result (λ opened. IsHeld opened.1.items opened.0.calls) }
{
    if !fs::exists(rt, path)? {
        make(rt, path, start)?;
    }
    // Of a symbolic link it is the file behind it that a new one is put in place of.
    let path = fs::canonicalize(rt, path)?.into_string();
    let beside = beside(rt, path.as_str())?;
    let file = open_locked(rt, path.as_str())?;
    settle(rt, path.as_str(), &file)?;
    let mut bytes = Vec::new(rt.alloc());
    let mut reader = &file;
    reader.read_to_end(&mut bytes)?;
    let calls = Record::opened(&bytes);
    Ok((
        DiskFile {
            file,
            path,
            beside,
            calls,
            fault: None,
            is_unsure: false,
        },
        bytes,
    ))
}

/// Syncs the folder of the file at a path.
fn sync_folder(rt: &HostRuntime, path: &str) -> io::Result<()> {
    let folder = match Path::new(path).parent() {
        Some(folder) if !folder.as_str().is_empty() => folder.as_str(),
        _ => ".",
    };
    File::open(rt, folder)?.sync_all()
}

/// Syncs the file and its folder, and drops the kernel's copies of its pages, which a failed sync of an earlier
/// process may have left other than the disk has them.
fn settle(rt: &HostRuntime, path: &str, file: &File) -> io::Result<()> {
    file.sync_all()?;
    let advised = libc::posix_fadvise(file.as_raw_fd(), 0, 0, libc::POSIX_FADV_DONTNEED);
    if advised != 0 {
        return Err(io::Error::from_raw_os_error(advised));
    }
    sync_folder(rt, path)
}

impl DiskFile {
    /// The system's words for the last failure.
    pub fn fault(&self) -> Option<io::Error> {
        self.fault
    }

    /// Syncs the file, unless a new one may have its name.
    fn sync_named(&self) -> io::Result<()> {
        match self.fault {
            Some(error) if self.is_unsure => Err(error),
            _ => self.file.sync_data(),
        }
    }

    /// Takes away what is left of the new file, and keeps the system's words.
    fn give_up(
        &mut self,
        rt: &HostRuntime,
        error: io::Error,
        why: ReplaceErr,
    ) -> Result<(), ReplaceErr>
        ensures told { result ≡ Err why }
        ensures calls { self.new.calls ≡ self.old.calls }
    {
        let _ = fs::remove_file(rt, self.beside.as_str());
        self.fault = Some(error);
        self.is_unsure |= why == ReplaceErr::Unsure;
        Err(why)
    }
}

impl Device for DiskFile {
    ghost seen = { λ f. seen_after f.calls };

    ghost may_leave = { λ f. MayLeave f.calls };

    ghost moment = { λ f. length f.calls };

    ghost left_since = { λ f. LeftSince f.calls };

    ghost faults = { λ f. faults_in f.calls };

    ghost counts_now = { λ f. left_now f.calls };

    ghost only_now = { λ f. no_other f.calls };

    const ROOM: usize = 16_384;

    fn write_at(&mut self, at: usize, bytes: &[u8]) -> Result<(), DeviceFault> {
        let outcome = self.file.write_all_at(bytes, at as u64);
        self.calls.write(at, bytes, outcome.is_ok());
        if let Err(error) = outcome {
            self.fault = Some(error);
            return Err(DeviceFault);
        }
        Ok(())
    }

    fn cut(&mut self, len: usize) -> Result<(), DeviceFault> {
        let outcome = self.file.set_len(len as u64);
        self.calls.cut(len, outcome.is_ok());
        if let Err(error) = outcome {
            self.fault = Some(error);
            return Err(DeviceFault);
        }
        Ok(())
    }

    fn sync(&mut self) -> Result<(), DeviceFault> {
        let outcome = self.sync_named();
        self.calls.sync(outcome.is_ok());
        if let Err(error) = outcome {
            self.fault = Some(error);
            return Err(DeviceFault);
        }
        Ok(())
    }
}

impl Replaces for DiskFile {
    type Host = HostRuntime;

    /// The new file is written, synced and locked under another name before it is given the name of this one, so that no
    /// other process opens it between. The other name is taken away where that fails.
    fn replace(&mut self, host: &HostRuntime, bytes: &[u8]) -> Result<(), ReplaceErr> {
        let made = make_beside(host, self.beside.as_str(), bytes);
        self.calls.make(bytes, made.is_ok());
        let new = match made {
            Ok(new) => new,
            Err(error) => return self.give_up(host, error, ReplaceErr::NotMade),
        };
        let synced = sync_like(host, self.beside.as_str(), &new, &self.file);
        self.calls.sync_new(synced.is_ok());
        if let Err(error) = synced {
            return self.give_up(host, error, ReplaceErr::NotMade);
        }
        let named = fs::rename(host, self.beside.as_str(), self.path.as_str());
        self.calls.name(named.is_ok());
        if let Err(error) = named {
            return self.give_up(host, error, ReplaceErr::Unsure);
        }
        let settled = sync_folder(host, self.path.as_str());
        self.calls.sync_folder(settled.is_ok());
        if let Err(error) = settled {
            return self.give_up(host, error, ReplaceErr::Unsure);
        }
        self.file = new;
        Ok(())
    }
}
