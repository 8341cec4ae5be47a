//! What a journal is kept in: a file of this machine.
ghost use Rattle.std.specs.Prelude.{◌≡◌, ◌≢◌, ℕ, List, Bool, true, false, Option, Some, IfOk, IfErr, Decides};
ghost use Rattle.wb_keep.specs.Disk.Calls.{IsHeld};
ghost use Rattle.wb_keep.specs.Disk.Device.{Only};

use std::fs;
use std::io::{self, ErrorKind};
use wb_keep::START;
use wb_keep::disk::{DiskFile, OpenDiskErr, Replaces, open_file};

/// Why no journal is kept in a file, where the file is the cause.
#[derive(Clone, Copy, Debug, PartialEq, Eq)]
pub enum FileFault {
    /// It could not be opened, or not be made.
    NotOpened,
    /// Somebody has it open.
    Busy,
    /// It is a folder, or another thing that is no regular file.
    NotAFile,
    /// It is a file of another kind.
    NotOurs,
    /// It has a line already, and no other history begins it.
    HasLines,
    /// This change of it, from 0, is the first that is not granted.
    NotGranted(usize),
    /// It failed.
    Failed,
    /// A growth was refused.
    NoMemory,
    /// Nothing was found at its path, and none is to be made.
    Missing,
}

/// What opens the file of a journal, and is told how that came out.
pub trait OpensFiles<D: Replaces> {
    ghost use Rattle.wb_sessions.specs.declared.files.FileFault.{FileFault};

    // For this path this file came, which held these bytes.
    ghost came: { Self → List ℕ → D → List ℕ → Type 0 };

    // This file was given back.
    ghost closed: { Self → D → Type 0 };

    // What was told of a file last.
    ghost told: { Self → Option FileFault };

    // Nothing was found at the path of the file that was to be opened where there is one.
    ghost missing: { Self → Bool };

    /// Opens the file at a path, which is made where there is none: the file, and what it holds, all of it on the disk.
    fn open(&mut self, path: &str) -> Result<(D, Vec<u8>), FileFault>
        ensures came { IfOk result (λ opened. came self.new path.now opened.0 opened.1.items) }
        ensures held { IfOk result (λ opened. (D.Device.seen opened.0 ≡ opened.1.items) × Only (D.Device.seen opened.0) (D.Device.may_leave opened.0)) }
        ensures told { IfErr result (λ fault. told self.new ≡ Some fault) };

    /// Opens the file at a path, as `open` does, if one is found there. None is made for a path at which nothing is found.
    fn open_found(&mut self, path: &str) -> Result<(D, Vec<u8>), FileFault>
        ensures came { IfOk result (λ opened. came self.new path.now opened.0 opened.1.items) }
        ensures held { IfOk result (λ opened. (D.Device.seen opened.0 ≡ opened.1.items) × Only (D.Device.seen opened.0) (D.Device.may_leave opened.0)) }
        ensures found { IfOk result (λ _. missing self.new ≡ false) }
        ensures missing { IfErr result (λ fault. Decides (missing self.new) (fault ≡ FileFault.Missing)) }
        ensures told { IfErr result (λ fault. told self.new ≡ Some fault) };

    /// What a new file is put in place of another by.
    fn host(&self) -> &D::Host;

    /// Takes a file back, and is told why it kept no journal, or no more of it.
    fn close(&mut self, file: D, fault: Option<FileFault>)
        ensures closed { closed self.new file }
        ensures told { told self.new ≡ fault }
        ensures missing { missing self.new ≡ missing self.old }
        ensures came { (path : List ℕ) (file : D) (held : List ℕ) → came self.old path file held → came self.new path file held };
}

/// The files of this machine.
#[derive(Drop)]
pub struct Files<'a> {
    rt: &'a HostRuntime,
    told: Option<FileFault>,
    cause: Option<io::Error>,
    closed: Option<DiskFile>,
    missing: bool,
}

impl<'a> Files<'a> {
    /// The files, by the program's own handle.
    pub fn of(rt: &'a HostRuntime) -> Files<'a> {
        Files {
            rt,
            told: None,
            cause: None,
            closed: None,
            missing: false,
        }
    }

    /// Why no journal is kept, or no more of it.
    pub fn told(&self) -> Option<FileFault> {
        self.told
    }

    /// The system's words for why no journal is kept, or no more of it.
    pub fn cause(&self) -> Option<io::Error> {
        self.cause
    }
}

// Why a file is not opened, and the system's words for it.
fn fault_of(error: OpenDiskErr) -> (FileFault, Option<io::Error>)
    ensures { result.0 ≢ FileFault.Missing }
{
    match error {
        OpenDiskErr::Memory => (FileFault::NoMemory, None),
        OpenDiskErr::Busy => (FileFault::Busy, None),
        OpenDiskErr::NotAFile => (FileFault::NotAFile, None),
        OpenDiskErr::Io(error) => match error.kind() {
            ErrorKind::OutOfMemory => (FileFault::NoMemory, None),
            _ => (FileFault::NotOpened, Some(error)),
        },
    }
}

impl<'a> Files<'a> {
    // Why a file is not opened, which is told.
    fn not_opened(&mut self, error: OpenDiskErr) -> FileFault
        ensures other { result ≢ FileFault.Missing }
        ensures told { self.new.told ≡ Some result }
        ensures missing { self.new.missing ≡ self.old.missing }
    {
        let (fault, cause) = fault_of(error);
        self.told = Some(fault);
        self.cause = cause;
        fault
    }

    // Opens the file at a path, which is made where there is none.
    fn open_or_make(&mut self, path: &str) -> Result<(DiskFile, Vec<u8>), FileFault>
        ensures held { IfOk result (λ opened. IsHeld opened.1.items opened.0.calls) }
        ensures other { IfErr result (λ fault. fault ≢ FileFault.Missing) }
        ensures told { IfErr result (λ fault. self.new.told ≡ Some fault) }
        ensures missing { self.new.missing ≡ self.old.missing }
    {
        match open_file(self.rt, path, &START) {
            Ok(opened) => Ok(opened),
            Err(error) => Err(self.not_opened(error)),
        }
    }
}

impl<'a> OpensFiles<DiskFile> for Files<'a> {
    ghost use Rattle.std.specs.Prelude.{◌≡◌, Some};
    ghost use Rattle.wb_keep.specs.Disk.Calls.{IsHeld};

    ghost came = { λ s path file held. IsHeld held file.calls };

    ghost closed = { λ s file. s.closed ≡ Some file };

    ghost told = { λ s. s.told };

    ghost missing = { λ s. s.missing };

    fn open(&mut self, path: &str) -> Result<(DiskFile, Vec<u8>), FileFault> {
        self.open_or_make(path)
    }

    // (a file that another process takes away between the look and the opening is made)
    fn open_found(&mut self, path: &str) -> Result<(DiskFile, Vec<u8>), FileFault> {
        self.missing = false;
        match fs::exists(self.rt, path) {
            Ok(true) => self.open_or_make(path),
            Ok(false) => {
                self.missing = true;
                self.told = Some(FileFault::Missing);
                self.cause = None;
                Err(FileFault::Missing)
            }
            Err(error) => Err(self.not_opened(OpenDiskErr::Io(error))),
        }
    }

    fn host(&self) -> &HostRuntime {
        self.rt
    }

    fn close(&mut self, file: DiskFile, fault: Option<FileFault>) {
        self.cause = file.fault();
        self.told = fault;
        self.closed = Some(file);
    }
}
