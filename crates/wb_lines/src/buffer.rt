ghost use Rattle.std.specs.Prelude.{◌≡◌, ℕ, ◌+◌, ◌<◌, ◌≤◌, List, [], ◌∷◌, ◌++◌, Bool, true, false, length, take, drop, Some, None, ◌*◌, ◌≢◌, IfOk, IfErr, OnOk, ◌⊎◌};
ghost use Rattle.std.specs.Prelude.{OnErr, IfSome, IfNone, MatchBool, if◌then◌else◌};
ghost use Rattle.std.specs.Io.KnownBytes.{Consumes, Keeps, IsAtEnd};
ghost use Rattle.wb_lines.specs.Lines.{IsUnbroken, BeginsWithLine, ended};
ghost use Rattle.wb_lines.specs.Causes.{CountsReads, FailedAt};
ghost use Rattle.wb_lines.specs.Reading.{IsKept, line_limit, KnowsEnd, Gives, Breaks};

use crate::resting::{Hears, Holds, Sends};
use crate::source::ReadErr;
use memchr::memchr;
use std::alloc::{AllocError, Global};
use std::marker::Model;
use std::mem;
use thiserror::Error;

/// A line has at most so many bytes before its line end.
pub const LINE_LIMIT: usize = 65_536;

/// A reader is read at most so many times through one buffer.
pub const READ_LIMIT: u64 = 4_294_967_296;

// One read asks for so many bytes.
const BLOCK_SIZE: usize = 8192;

/// What was read.
#[derive(Clone, Copy, Debug, PartialEq, Eq)]
pub enum Line {
    /// A line, which the buffer lends.
    Whole,
    /// A line of more than `LINE_LIMIT` bytes, of which nothing is kept.
    TooLong,
    /// The end of input.
    End,
}

/// Why no line can be read.
#[derive(Clone, Copy, Debug, PartialEq, Eq, Error)]
pub enum LineFault {
    /// A read failed.
    #[error("input failed")]
    ReadFault,
    /// The reader was read `READ_LIMIT` times.
    #[error("too many reads")]
    TooManyReads,
    /// A line found no memory.
    #[error("no memory")]
    NoMemory,
}

/// The line that was read last, and the bytes that were read past it.
#[derive(Drop)]
pub struct LineBuffer {
    block: [u8; BLOCK_SIZE],
    start: usize,
    end: usize,
    line: Vec<u8>,
    long: bool,
    reads: u64,
    at_end: bool,
    fault: Option<LineFault>,
    alloc: Global,
}

impl Model for LineBuffer {
    ghost use Rattle.wb_lines.specs.Reading.{Reading};
    ghost use Rattle.wb_lines.specs.Fields.{reading_of, IsInOrder};

    ghost Value = { Reading };

    ghost view = { reading_of };

    ghost invariant = { IsInOrder };
}

impl LineBuffer {
    ghost use Rattle.wb_lines.specs.Reading.{unread, TakesPart, IsSameReader, Refills, FaultLeaves, IsText};
    ghost use Rattle.wb_lines.specs.Turns.{TakesLines};

    /// A buffer for a reader of which nothing was read. It takes no memory.
    pub fn new(alloc: Global) -> LineBuffer
        ensures { result ≡ unread }
    {
        LineBuffer {
            block: [0; BLOCK_SIZE],
            start: 0,
            end: 0,
            line: Vec::new(alloc),
            long: false,
            reads: 0,
            at_end: false,
            fault: None,
            alloc,
        }
    }

    /// The line that was read last.
    pub fn line(&self) -> &[u8]
        ensures { result.now ≡ self.now.line }
    {
        self.line.as_slice()
    }

    /// Whether a line with its end lies ahead, so that the next line needs no read.
    pub fn has_line(&self) -> bool
        ensures { MatchBool result (BeginsWithLine self.now.ahead) (IsUnbroken self.now.ahead) }
    {
        newline_in(self.ahead()).is_some()
    }

    /// Takes the next line where it lies ahead with its end. It reads nothing, and where there is no such line, or no memory
    /// for it, what lies ahead stays.
    pub fn ready_line(&mut self) -> Option<Line>
        ensures some { IfSome result (λ line. (text : List ℕ) × IsText line self.new.line text × TakesLines self.old self.new (text ∷ [])) }
        ensures none { IfNone result (TakesLines self.old self.new []) }
    {
        if !self.has_line() {
            return None;
        }
        self.begin();
        match self.take_part() {
            Ok(true) => Some(self.kind()),
            Ok(false) => None,
            Err(_) => None,
        }
    }

    // Forgets the last line.
    fn begin(&mut self)
        ensures ahead { self.new.ahead ≡ self.old.ahead }
        ensures empty { IsKept [] self.new.line self.new.long }
        ensures same { IsSameReader self.old self.new }
    {
        self.line.clear();
        self.long = false;
    }

    // Moves the next `n` bytes onto the line.
    fn add(&mut self, n: usize) -> Result<(), AllocError>
        requires { n ≤ length self.old.ahead }
        ensures ok { OnOk result (self.new.ahead ≡ drop n self.old.ahead) }
        ensures kept { OnOk result ((text : List ℕ) → IsKept text self.old.line self.old.long
            → IsKept (text ++ take n self.old.ahead) self.new.line self.new.long) }
        ensures err { OnErr result (self.new.ahead ≡ self.old.ahead) }
        ensures same { IsSameReader self.old self.new }
    {
        let end = self.start + n;
        let mut line = mem::replace(&mut self.line, Vec::new(self.alloc));
        let added = add_part(&mut line, self.long, &self.block[self.start..end]);
        self.line = line;
        self.long = added?;
        self.start = end;
        Ok(())
    }

    // Passes over the next byte.
    fn skip(&mut self)
        requires { 0 < length self.old.ahead }
        ensures ahead { self.new.ahead ≡ drop 1 self.old.ahead }
        ensures line { (self.new.line ≡ self.old.line) × (self.new.long ≡ self.old.long) }
        ensures same { IsSameReader self.old self.new }
    {
        self.start += 1;
    }

    // The bytes that were read and belong to no line yet.
    fn ahead(&self) -> &[u8]
        ensures { result.now ≡ self.now.ahead }
    {
        &self.block[self.start..self.end]
    }

    // Takes what lies ahead, up to a line end. Says whether there was one.
    fn take_part(&mut self) -> Result<bool, AllocError>
        ensures ok { IfOk result (TakesPart self.old self.new) }
        ensures err { OnErr result ((self.new.ahead ≡ self.old.ahead) × IsSameReader self.old self.new) }
    {
        match newline_in(self.ahead()) {
            Some(n) => {
                self.add(n)?;
                self.skip();
                Ok(true)
            }
            None => {
                let n = self.ahead().len();
                self.add(n)?;
                Ok(false)
            }
        }
    }

    // What a line with its end is.
    fn kind(&self) -> Line
        ensures { result ≡ (if self.now.long then Line.TooLong else Line.Whole) }
    {
        if self.long {
            Line::TooLong
        } else {
            Line::Whole
        }
    }

    // What is left before the end of input.
    fn last(&self) -> Line
        ensures long { self.now.long ≡ true → result ≡ Line.TooLong }
        ensures whole { self.now.long ≡ false → self.now.line ≢ [] → result ≡ Line.Whole }
        ensures end { self.now.long ≡ false → self.now.line ≡ [] → result ≡ Line.End }
    {
        if self.long {
            return Line::TooLong;
        }
        if self.line.is_empty() {
            Line::End
        } else {
            Line::Whole
        }
    }

    fn fault(&self) -> Option<LineFault>
        ensures { result ≡ self.now.fault }
    {
        self.fault
    }

    fn set_fault(&mut self, fault: LineFault)
        ensures { self.new ≡ record self.old { fault = Some fault } }
    {
        self.fault = Some(fault);
    }

    // Reads once more. Says whether there may be more; a read that a signal interrupted gives nothing.
    fn refill<K: Holds, R: Hears<K, W>, W: Sends<K>>(
        &mut self,
        reader: &mut R,
        writer: &W,
        hold: &K,
    ) -> Result<bool, LineFault>
        // No byte lies ahead; the writer is flushed and nothing is held, since a read may wait.
        requires empty { self.old.ahead ≡ [] }
        requires flushed { W.flushed writer.now ≡ true }
        requires free { K.held hold.now ≡ false }

        // The bytes that come lie ahead then.
        ensures bytes { Consumes (R.remaining reader.old) (R.remaining reader.new) self.new.ahead }
        ensures refills { Refills self.old self.new }

        // Whether there may be more, and where the input ends.
        ensures more { IfOk result (λ b. b ≡ true → self.new.reads ≡ self.old.reads + 1) }
        ensures last { IfOk result (λ b. b ≡ false → (self.new.at_end ≡ true) × (self.new.ahead ≡ [])) }
        ensures end { KnowsEnd self.old (R.remaining reader.old) → KnowsEnd self.new (R.remaining reader.new) }

        // What failed, and how often the reader was read.
        ensures fault { IfErr result (λ f. FaultLeaves f self.old self.new × FailedAt f (R.failed reader.new)) }
        ensures counted { CountsReads self.old self.new (R.reads reader.old) (R.reads reader.new) }
    {
        if self.at_end {
            return Ok(false);
        }
        if self.reads >= READ_LIMIT {
            return Err(LineFault::TooManyReads);
        }
        self.start = 0;
        self.end = 0;
        self.reads += 1;
        match reader.read(writer, hold, &mut self.block) {
            Ok(n) => {
                self.end = n;
                self.at_end = n == 0;
                Ok(n > 0)
            }
            Err(ReadErr::Interrupted) => Ok(true),
            Err(ReadErr::Failed) => Err(LineFault::ReadFault),
        }
    }
}

// The place of the first line end.
fn newline_in(bytes: &[u8]) -> Option<usize>
    ensures found { IfSome result (λ n. (n < length bytes.now) × IsUnbroken (take n bytes.now)
        × (bytes.now ≡ ended (take n bytes.now) ++ drop (n + 1) bytes.now)) }
    ensures none { IfNone result (IsUnbroken bytes.now) }
{
    memchr(b'\n', bytes)
}

// Adds a part of a line, unless it makes the line too long. Says whether it is.
fn add_part(line: &mut Vec<u8>, long: bool, part: &[u8]) -> Result<bool, AllocError>
    ensures { IfOk result (λ now_long. (text : List ℕ) → IsKept text line.old.items long
        → IsKept (text ++ part.now) line.new.items now_long) }
{
    if long || line.len() > LINE_LIMIT || part.len() > LINE_LIMIT - line.len() {
        return Ok(true);
    }
    line.extend_from_slice(part)?;
    Ok(false)
}

// Reads a line, where there was no fault before.
fn read_line<K: Holds, R: Hears<K, W>, W: Sends<K>>(
    reader: &mut R,
    writer: &W,
    hold: &K,
    buffer: &mut LineBuffer,
) -> Result<Line, LineFault>
    // The writer is flushed or a line lies ahead, and nothing is held, since a read may wait.
    requires flushed { (W.flushed writer.now ≡ true) ⊎ BeginsWithLine buffer.old.ahead }
    requires free { K.held hold.now ≡ false }

    // A line or a fault, by the bytes that came.
    ensures ok { IfOk result (λ line. (got : List ℕ)
        × Consumes (R.remaining reader.old) (R.remaining reader.new) got
        × Gives line buffer.old buffer.new got) }
    ensures err { IfErr result (λ fault. (got : List ℕ)
        × Consumes (R.remaining reader.old) (R.remaining reader.new) got
        × Breaks fault buffer.old buffer.new got) }

    // What failed, and how often the reader was read.
    ensures failed { IfErr result (λ fault. FailedAt fault (R.failed reader.new)) }
    ensures counted { CountsReads buffer.old buffer.new (R.reads reader.old) (R.reads reader.new) }

    // What the buffer knows of the end of input is still right, and it keeps its fault.
    ensures end { KnowsEnd buffer.old (R.remaining reader.old) → KnowsEnd buffer.new (R.remaining reader.new) }
    ensures kept { buffer.new.fault ≡ buffer.old.fault }
{
    buffer.begin();
    loop {
        match buffer.take_part() {
            Ok(true) => return Ok(buffer.kind()),
            Ok(false) => {}
            Err(_) => return Err(LineFault::NoMemory),
        }
        match buffer.refill(reader, writer, hold) {
            Ok(true) => {}
            Ok(false) => return Ok(buffer.last()),
            Err(fault) => return Err(fault),
        }
    }
}

/// Reads the next line: of the bytes that lie ahead in the buffer and then come from the reader,
/// those up to a line end, or the last ones. A line that is too long is skipped with its end.
/// After a fault it answers the same fault again. Where no line lies ahead with its end, the writer has to be flushed, since
/// a read may wait.
pub fn next_line<K: Holds, R: Hears<K, W>, W: Sends<K>>(
    reader: &mut R,
    writer: &W,
    hold: &K,
    buffer: &mut LineBuffer,
) -> Result<Line, LineFault>
    // The writer is flushed or a line lies ahead, and nothing is held, since a read may wait.
    requires flushed { (W.flushed writer.now ≡ true) ⊎ BeginsWithLine buffer.old.ahead }
    requires free { K.held hold.now ≡ false }

    // A line, by the bytes that came; there was no fault before.
    ensures ok { IfOk result (λ line. (got : List ℕ)
        × Consumes (R.remaining reader.old) (R.remaining reader.new) got
        × Gives line buffer.old buffer.new got) }
    ensures fresh { IfOk result (λ _. (buffer.old.fault ≡ None) × (buffer.new.fault ≡ None)) }

    // A fault, by the bytes that came; what failed, and how often the reader was read.
    ensures err { buffer.old.fault ≡ None → IfErr result (λ fault. (buffer.new.fault ≡ Some fault)
        × ((got : List ℕ) × Consumes (R.remaining reader.old) (R.remaining reader.new) got
        × Breaks fault buffer.old buffer.new got)) }
    ensures failed { buffer.old.fault ≡ None → IfErr result (λ fault. FailedAt fault (R.failed reader.new)) }
    ensures counted { CountsReads buffer.old buffer.new (R.reads reader.old) (R.reads reader.new) }

    // After a fault the same fault comes again.
    ensures again { IfSome buffer.old.fault (λ fault. (result ≡ Err fault) × (buffer.new ≡ buffer.old)
        × (R.remaining reader.new ≡ R.remaining reader.old)) }

    // What the buffer knows of the end of input is still right.
    ensures end { KnowsEnd buffer.old (R.remaining reader.old) → KnowsEnd buffer.new (R.remaining reader.new) }
{
    if let Some(fault) = buffer.fault() {
        return Err(fault);
    }
    let line = read_line(reader, writer, hold, buffer);
    if let Err(fault) = line {
        buffer.set_fault(fault);
    }
    line
}
