//! A text that is told, and the exit status that comes of it.
ghost use Rattle.std.specs.Prelude.{◌≡◌, ℕ, List, true};
ghost use Rattle.std.specs.Io.KnownBytes.{Appends};
ghost use Rattle.wb_statuses.specs.Statuses.{IsPrinted};

use crate::statuses::{DONE, INPUT_OR_OUTPUT_FAILED};
use wb_lines::{NothingHeld, Sink, send};

/// Prints a text: the exit status.
pub fn tell<W: Sink>(whole: &str, writer: &mut W) -> u8
    ensures told { (text : List ℕ) × Appends (W.contents writer.old) (W.contents writer.new) text × IsPrinted whole.now result text }
    ensures flushed { result ≡ 0 → W.flushed writer.new ≡ true }
    ensures failed { result ≡ 3 → W.failed writer.new ≡ true }
{
    if send(writer, &NothingHeld, whole.as_bytes()).is_err() {
        return INPUT_OR_OUTPUT_FAILED;
    }
    if writer.flush().is_err() {
        return INPUT_OR_OUTPUT_FAILED;
    }
    DONE
}
