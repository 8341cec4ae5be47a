//! Why an input is refused.
ghost use Rattle.std.specs.Prelude.{◌≡◌, IfOk};
ghost use Rattle.wb_sessions.specs.Reasons.{WhyNoBook, WhyNoHistory, WhyNoText, look_of};

use crate::places::why_altered;
use std::alloc::Global;
use std::str::from_utf8;
use wb_arrays::Mover;
use wb_machine::histories::{HistoryErr, read_history};
use wb_range::NoMemory;
use wb_reading::{BookErr, read_book};

// What each text of ours begins with.
const FIRST_WORD: &[u8] = b"chapel-workbook ";

// The first line of a journal.
const JOURNAL_LINE: &[u8] = b"chapel-workbook 3\n";

// The last line of a text of ours, with the line end before it.
const LAST_LINE: &[u8] = b"\nend\n";

/// Why an input is refused.
#[derive(Clone, Copy, Debug, PartialEq, Eq)]
pub enum Reason {
    /// It is the text of a workbook, and that of a history is wanted.
    Workbook,
    /// It is the text of a history, and that of a workbook is wanted.
    History,
    /// It begins as a journal, and is none, or another text is wanted.
    Journal,
    /// It begins as a text of ours, and does not end as one.
    CutShort,
    /// It begins and ends as a text of ours, and is none.
    Altered,
    /// It does not begin as a text of ours.
    NotOurs,
    /// It has the header of a journal, and this change, from 0, is the first that is not granted.
    NotGranted(usize),
    /// It begins and ends as the text of a history, and this line, from 0, is the first with which none goes on.
    LineNotGranted(usize),
    /// Its edits are those of a history, and the lines above them are not.
    OtherHeading,
}

/// Why these bytes are refused, by how they begin and end.
pub(crate) fn look_of(bytes: &[u8]) -> Reason
    ensures { result ≡ look_of bytes.now }
{
    if bytes.starts_with(JOURNAL_LINE) {
        return Reason::Journal;
    }
    if !bytes.starts_with(FIRST_WORD) {
        return Reason::NotOurs;
    }
    if bytes.ends_with(LAST_LINE) {
        return Reason::Altered;
    }
    Reason::CutShort
}

/// Why these bytes are refused, which are no text of ours: where they are no history's, if they begin and end as one's.
pub(crate) fn why_no_text<M: Mover>(
    alloc: Global,
    bytes: &[u8],
    mover: &M,
) -> Result<Reason, NoMemory>
    ensures { IfOk result (λ why. WhyNoText bytes.now why) }
{
    let look = look_of(bytes);
    match look {
        Reason::Altered => why_altered(alloc, bytes, mover),
        Reason::Workbook
        | Reason::History
        | Reason::Journal
        | Reason::CutShort
        | Reason::NotOurs
        | Reason::NotGranted(_)
        | Reason::LineNotGranted(_)
        | Reason::OtherHeading => Ok(look),
    }
}

/// Why these bytes are refused where the text of a history is wanted, which they are not.
pub(crate) fn why_no_history<M: Mover>(
    alloc: Global,
    bytes: &[u8],
    mover: &M,
) -> Result<Reason, NoMemory>
    ensures { IfOk result (λ why. WhyNoHistory bytes.now why) }
{
    let Ok(text) = from_utf8(bytes) else {
        return why_no_text(alloc, bytes, mover);
    };
    match read_book(alloc, text) {
        Ok(book) => {
            // For the proof: the workbook is well formed.
            let _well_formed = book.writes();
            Ok(Reason::Workbook)
        }
        Err(BookErr::Bad) => why_no_text(alloc, bytes, mover),
        Err(BookErr::NoMemory) => Err(NoMemory),
    }
}

/// Why these bytes are refused where the text of a workbook is wanted, which they are not.
pub(crate) fn why_no_book<M: Mover>(
    alloc: Global,
    bytes: &[u8],
    mover: &M,
) -> Result<Reason, NoMemory>
    ensures { IfOk result (λ why. WhyNoBook bytes.now why) }
{
    let Ok(text) = from_utf8(bytes) else {
        return Ok(look_of(bytes));
    };
    match read_history(alloc, text, mover) {
        Ok(history) => {
            // For the proof: the history is legal.
            let _legal = history.book();
            Ok(Reason::History)
        }
        Err(HistoryErr::Bad) => Ok(look_of(bytes)),
        Err(HistoryErr::NoMemory) => Err(NoMemory),
    }
}
