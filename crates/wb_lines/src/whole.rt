ghost use Rattle.std.specs.Prelude.{◌≡◌, ◌≢◌, ◌++◌, ℕ, List, false, IfOk, IfErr, OnOk, OnErr};
ghost use Rattle.std.specs.Io.KnownBytes.{Consumes, IsAtEnd};
ghost use Rattle.wb_lines.specs.Causes.{FailedAt, RisesBy, StopsReading};
ghost use Rattle.wb_lines.specs.declared.buffer.LineFault.{LineFault};

use crate::buffer::{LineFault, READ_LIMIT};
use crate::source::{ReadErr, Source};
use std::alloc::Global;

// One read asks for so many bytes.
const BLOCK_SIZE: usize = 8192;

/// Reads once more, onto the bytes. Says whether there may be more; a read that a signal interrupted gives nothing.
pub fn read_more<R: Source>(reader: &mut R, bytes: &mut Vec<u8>) -> Result<bool, LineFault>
    ensures read { (got : List ℕ) × Consumes (R.remaining reader.old) (R.remaining reader.new) got
        × OnOk result (bytes.new.items ≡ bytes.old.items ++ got) }
    ensures end { IfOk result (λ more. more ≡ false → IsAtEnd (R.remaining reader.new)) }
    ensures failed { IfErr result (λ fault. FailedAt fault (R.failed reader.new) × (fault ≢ LineFault.TooManyReads)) }
    ensures counted { RisesBy 1 (R.reads reader.old) (R.reads reader.new) }
{
    let mut block = [0; BLOCK_SIZE];
    match reader.read(&mut block) {
        Ok(n) => match bytes.extend_from_slice(&block[..n]) {
            Ok(()) => Ok(n > 0),
            Err(_) => Err(LineFault::NoMemory),
        },
        Err(ReadErr::Interrupted) => Ok(true),
        Err(ReadErr::Failed) => Err(LineFault::ReadFault),
    }
}

/// All bytes of a reader up to the end of input, by at most `READ_LIMIT` reads. After a fault a front of them was read.
pub fn read_all<R: Source>(alloc: Global, reader: &mut R) -> Result<Vec<u8>, LineFault>
    ensures ok { IfOk result (λ bytes. Consumes (R.remaining reader.old) (R.remaining reader.new) bytes.items
        × IsAtEnd (R.remaining reader.new)) }
    ensures err { OnErr result ((got : List ℕ) × Consumes (R.remaining reader.old) (R.remaining reader.new) got) }
    ensures cause { IfErr result (λ fault. StopsReading fault (R.failed reader.new) (R.reads reader.old) (R.reads reader.new)) }
{
    let mut bytes = Vec::new(alloc);
    for _ in 0..READ_LIMIT {
        match read_more(reader, &mut bytes) {
            Ok(true) => {}
            Ok(false) => return Ok(bytes),
            Err(fault) => return Err(fault),
        }
    }
    Err(LineFault::TooManyReads)
}
