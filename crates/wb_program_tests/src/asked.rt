//! What a command line asks for with a journal at a path, done with one file in memory.
ghost use Rattle.std.specs.Prelude.{◌≡◌, ◌≢◌, Some, IfErr, IfOk};
ghost use Rattle.wb_keep.specs.Disk.Calls.{IsHeld};

use std::alloc::Global;
use std::process::Abort;
use std::test::Fail;
use wb_arrays::Crew;
use wb_command::{Asked, FilePath};
use wb_connections::Ports;
use wb_keep::START;
use wb_keep::disk::MemoryFile;
use wb_lines::{Input, Output};
use wb_program::do_asked;
use wb_sessions::{FileFault, OpensFiles, PutBack};

// More calls than a session makes here.
const NEVER: usize = 1000;

const LINES: &[u8] =
    b"{\"op\":\"domain\",\"d\":\"D\",\"is\":\"{1..4}\"}\n{\"op\":\"array\",\"a\":\"A\",\"d\":\"D\"}\n{\"op\":\"set\",\"a\":\"A\",\"i\":1,\"v\":5}\n{\"op\":\"copy\",\"a\":\"A\",\"i\":2,\"b\":\"A\",\"j\":1,\"c\":1}\n{\"op\":\"get\",\"a\":\"A\",\"i\":2}\n{\"op\":\"undo\",\"k\":3}\n{\"op\":\"undo\"}\n{\"op\":\"redo\",\"k\":4}\n{\"op\":\"cascade\",\"k\":3}\n";

const REPLIES: &[u8] =
    b"{\"edit\":1,\"n\":3}\n{\"edit\":2,\"n\":7}\n{\"edit\":3,\"n\":1}\n{\"edit\":4,\"n\":1}\n{\"value\":6}\n{\"by\":4,\"error\":\"E14\",\"name\":\"blocked\"}\n{\"n\":1,\"undone\":4}\n{\"n\":1,\"redone\":4}\n{\"n\":2,\"undone\":[4,3]}\n";

// The journal of `LINES` where all of them lie ahead, and their changes are one batch.
const JOURNAL_AT_ONCE: &[u8] =
    b"chapel-workbook 3\n+{\"d\":\"D\",\"is\":\"{1..4}\",\"map\":\"none\",\"op\":\"domain\"}\n+{\"a\":\"A\",\"d\":\"D\",\"op\":\"array\"}\n+{\"a\":\"A\",\"i\":1,\"op\":\"set\",\"v\":5}\n+{\"a\":\"A\",\"b\":\"A\",\"c\":1,\"i\":2,\"j\":1,\"op\":\"copy\"}\n+{\"k\":4,\"op\":\"undo\"}\n+{\"k\":4,\"op\":\"redo\"}\n+{\"k\":4,\"op\":\"undo\"}\n {\"k\":3,\"op\":\"undo\"}\n#";

/// One file in memory, at one path, and how many calls it does.
#[derive(Drop)]
pub struct OneFile {
    alloc: Global,
    held: &'static [u8],
    calls: usize,
    host: (),
    missing: bool,
    /// What was told of it last.
    pub told: Option<FileFault>,
    /// What was given back.
    pub file: Option<MemoryFile>,
}

impl OneFile {
    /// A file that holds these bytes.
    pub fn of(alloc: Global, held: &'static [u8], calls: usize) -> OneFile {
        OneFile {
            alloc,
            held,
            calls,
            host: (),
            missing: false,
            told: None,
            file: None,
        }
    }

    // The file, and what it holds.
    fn came(&mut self) -> Result<(MemoryFile, Vec<u8>), FileFault>
        ensures held { IfOk result (λ opened. IsHeld opened.1.items opened.0.calls) }
        ensures other { IfErr result (λ fault. fault ≢ FileFault.Missing) }
        ensures told { IfErr result (λ fault. self.new.told ≡ Some fault) }
        ensures missing { self.new.missing ≡ self.old.missing }
    {
        let Ok(held) = self.held.to_vec(self.alloc) else {
            self.told = Some(FileFault::NoMemory);
            return Err(FileFault::NoMemory);
        };
        let Ok(bytes) = self.held.to_vec(self.alloc) else {
            self.told = Some(FileFault::NoMemory);
            return Err(FileFault::NoMemory);
        };
        Ok((MemoryFile::new(self.alloc, bytes, self.calls, 0), held))
    }
}

impl OpensFiles<MemoryFile> for OneFile {
    ghost use Rattle.std.specs.Prelude.{◌≡◌, Some};
    ghost use Rattle.wb_keep.specs.Disk.Calls.{IsHeld};

    ghost came = { λ s path file held. IsHeld held file.calls };

    ghost closed = { λ s file. s.file ≡ Some file };

    ghost told = { λ s. s.told };

    ghost missing = { λ s. s.missing };

    fn open(&mut self, path: &str) -> Result<(MemoryFile, Vec<u8>), FileFault> {
        if path != "plan.wb" {
            self.told = Some(FileFault::NotOpened);
            return Err(FileFault::NotOpened);
        }
        self.came()
    }

    fn open_found(&mut self, path: &str) -> Result<(MemoryFile, Vec<u8>), FileFault> {
        self.missing = path != "plan.wb";
        if self.missing {
            self.told = Some(FileFault::Missing);
            return Err(FileFault::Missing);
        }
        self.came()
    }

    fn host(&self) -> &() {
        &self.host
    }

    fn close(&mut self, file: MemoryFile, fault: Option<FileFault>) {
        self.told = fault;
        self.file = Some(file);
    }
}

#[test]
fn a_command_line_keeps_a_journal_at_its_path(rt: HostRuntime) -> Result<(), Fail> {
    let alloc = rt.alloc();
    let alone = Crew::alone(&rt);
    for (path, status, written) in [("plan.wb", 0, REPLIES), ("other.wb", 3, b"".as_slice())] {
        let mut ports = Ports::of(&rt);
        let mut files = OneFile::of(alloc, &START, NEVER);
        let mut output = Vec::new(alloc);
        let ended = do_asked(
            &rt,
            alloc,
            Asked::RunKept {
                journal: FilePath::new(path),
                resume: false,
                workers: 1,
            },
            &mut ports,
            &mut files,
            &mut PutBack::new(alloc, Input::new(LINES)),
            &mut Output::new(&mut output),
            &alone,
            &mut None,
        );
        assert_eq!(rt; ended, status);
        assert_eq!(rt; output.as_slice(), written);
        assert_eq!(rt; files.told.is_some(), ended == 3);
        assert_eq!(rt;
            files
                .file
                .is_some_and(|file| file.bytes() == JOURNAL_AT_ONCE),
            ended == 0
        );
    }
    Ok(())
}
