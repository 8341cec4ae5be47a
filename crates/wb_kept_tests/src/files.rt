//! Files that tests open: logs in memory, and real ones.
ghost use Rattle.std.specs.Prelude.{IfOk};
ghost use Rattle.wb_keep.specs.Disk.Calls.{seen_after, MayLeave};
ghost use Rattle.wb_keep.specs.Keep.{IsSettled};

use std::alloc::{AllocError, Global};
use wb_keep::disk::{MemoryFile, OpenDiskErr, open_file};
use wb_keep::{LineLog, open};

/// More calls than any test makes.
pub const NEVER: usize = 1000;

/// Opens the log of a file that has these bytes, and that is cut off in the call after so many. An `Err` hands the file
/// back.
pub fn opened(
    alloc: Global,
    bytes: &[u8],
    calls: usize,
    torn: usize,
) -> Result<Result<LineLog<MemoryFile>, MemoryFile>, AllocError>
    ensures { IfOk result (λ opened. IfOk opened (λ log. IsSettled (λ f. seen_after f.calls) (λ f. MayLeave f.calls) log)) }
{
    let file = MemoryFile::new(alloc, bytes.to_vec(alloc)?, calls, torn);
    match open(alloc, file, bytes) {
        Ok((log, _)) => Ok(Ok(log)),
        Err((_, file)) => Ok(Err(file)),
    }
}

/// What is left of a file, and a count with it.
pub fn left_with(alloc: Global, left: &[u8], count: usize) -> Result<(Vec<u8>, usize), AllocError> {
    Ok((left.to_vec(alloc)?, count))
}

/// Why a real file is not opened. None if it is.
pub fn refusal(rt: &HostRuntime, path: &str, start: &[u8]) -> Option<OpenDiskErr> {
    match open_file(rt, path, start) {
        Ok(_) => None,
        Err(error) => Some(error),
    }
}
