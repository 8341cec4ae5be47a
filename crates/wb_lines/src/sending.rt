ghost use Rattle.std.specs.Prelude.{◌≡◌, ℕ, ◌<◌, true, false, length, take, OnOk, OnErr, IsErrOf};
ghost use Rattle.std.specs.Io.KnownBytes.{Appends};
ghost use Rattle.wb_lines.specs.Lines.{ended};

use crate::machine::Stop;
use crate::resting::{Holds, Sends};
use std::convert::Infallible;
use thiserror::Error;

/// A write failed or took nothing.
#[derive(Clone, Copy, Debug, PartialEq, Eq, Error)]
#[error("output failed")]
pub struct WriteFault;

/// Sends the bytes, by as many writes as it takes. After a fault a front of them went out, and not all.
pub fn send<K: Holds, W: Sends<K>>(writer: &mut W, hold: &K, bytes: &[u8]) -> Result<(), WriteFault>
    requires free { K.held hold.now ≡ false }
    ensures sent { OnOk result (Appends (W.contents writer.old) (W.contents writer.new) bytes.now) }
    ensures part { OnErr result ((n : ℕ) × (n < length bytes.now)
        × Appends (W.contents writer.old) (W.contents writer.new) (take n bytes.now)) }
    ensures failed { OnErr result (W.failed writer.new ≡ true) }
{
    let mut sent = 0;
    while sent < bytes.len() {
        match writer.write(hold, &bytes[sent..]) {
            Ok(n) => {
                if n == 0 {
                    return Err(WriteFault);
                }
                sent += n;
            }
            Err(_) => return Err(WriteFault),
        }
    }
    Ok(())
}

// Sends a reply and a line end.
pub(crate) fn send_reply<K: Holds, W: Sends<K>>(
    writer: &mut W,
    hold: &K,
    reply: Vec<u8>,
) -> Result<(), Stop<Infallible>>
    requires free { K.held hold.now ≡ false }
    ensures ok { OnOk result (Appends (W.contents writer.old) (W.contents writer.new) (ended reply.items)) }
    ensures err { OnErr result ((k : ℕ) × (k < length (ended reply.items))
        × Appends (W.contents writer.old) (W.contents writer.new) (take k (ended reply.items))) }
    ensures failed { IsErrOf result Stop.WriteFault → W.failed writer.new ≡ true }
{
    let mut line = reply;
    if line.push(b'\n').is_err() {
        return Err(Stop::NoMemory);
    }
    match send(writer, hold, line.as_slice()) {
        Ok(()) => Ok(()),
        Err(_) => Err(Stop::WriteFault),
    }
}
