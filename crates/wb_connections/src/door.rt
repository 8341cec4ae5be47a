//! The door of a desk: of a connection whose first line doesn't begin as a JSON object nothing is heard behind that line.
ghost use Rattle.std.specs.Prelude.{◌≡◌, ◌≢◌, ◌<◌, ◌≤◌, ℕ, List, ◌∷◌, ◌++◌, length, take};
ghost use Rattle.wb_connections.specs.Door.{through, left_at, failed_at, reads_at};

use wb_lines::{ReadErr, Source};

// How far the door is open.
#[derive(Clone, Copy, Debug, PartialEq, Eq)]
enum Way {
    // Nothing but white space came.
    Unread,
    // The first line begins as an object.
    Open,
    // It doesn't, and has not ended.
    Closing,
    // It has ended, and the door was read so often since.
    Shut(u64),
}

/// A source of what is heard of a connection: all that its reader gives, where the first byte that is no space, tab or CR is
/// `{`; else the first line alone, with its end.
#[derive(Drop)]
pub struct Door<R> {
    reader: R,
    way: Way,
}

impl<R> Door<R> {
    /// The door before a reader of a connection, of which nothing was read.
    pub fn of(reader: R) -> Door<R>
        ensures { result ≡ record { reader = reader; way = Way.Unread } }
    {
        Door {
            reader,
            way: Way::Unread,
        }
    }
}

// How far the door is open behind a byte that it lets through.
fn behind(way: Way, byte: u8) -> Way
    requires open { (past : ℕ) → way ≢ Way.Shut past }
    ensures byte { (rest : List ℕ) → through way (byte ∷ rest) ≡ byte ∷ through result rest }
    ensures fresh { (past : ℕ) → result ≡ Way.Shut past → past ≡ 0 }
{
    match way {
        Way::Unread => match byte {
            b' ' | b'\t' | b'\r' => Way::Unread,
            b'{' => Way::Open,
            b'\n' => Way::Shut(0),
            _ => Way::Closing,
        },
        Way::Closing if byte == b'\n' => Way::Shut(0),
        Way::Closing => Way::Closing,
        Way::Open => Way::Open,
        Way::Shut(past) => Way::Shut(past),
    }
}

// How many bytes a door lets through that isn't shut, and how far it is open then.
fn let_through(way: Way, bytes: &[u8]) -> (Way, usize)
    requires open { (past : ℕ) → way ≢ Way.Shut past }
    ensures most { result.1 ≤ length bytes.now }
    ensures some { 0 < length bytes.now → 0 < result.1 }
    ensures fresh { (past : ℕ) → result.0 ≡ Way.Shut past → past ≡ 0 }
    ensures bytes { (rest : List ℕ) → through way (bytes.now ++ rest) ≡ take result.1 bytes.now ++ through result.0 rest }
{
    let mut now = way;
    for place in 0..bytes.len() {
        match now {
            Way::Unread | Way::Closing => {}
            Way::Open => return (Way::Open, bytes.len()),
            Way::Shut(past) => return (Way::Shut(past), place),
        }
        now = behind(now, bytes[place]);
    }
    (now, bytes.len())
}

impl<R: Source> Source for Door<R> {
    ghost remaining = { left_at R.remaining };

    ghost failed = { failed_at R.failed };

    ghost reads = { reads_at R.reads };

    fn read(&mut self, bytes: &mut [u8]) -> Result<usize, ReadErr> {
        if let Way::Shut(past) = self.way {
            if !bytes.is_empty() {
                self.way = Way::Shut(past.saturating_add(1));
            }
            return Ok(0);
        }
        match self.reader.read(bytes) {
            Ok(n) => {
                let (way, heard) = let_through(self.way, &bytes[..n]);
                self.way = way;
                Ok(heard)
            }
            Err(why) => Err(why),
        }
    }
}
