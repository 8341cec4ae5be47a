//! The text of a workbook.
ghost use Rattle.std.specs.Prelude.{◌≡◌, map, IfOk, codes, option_map, option_and_then};
ghost use Rattle.wb_text.specs.Said.{line_of};
ghost use Rattle.wb_text.specs.Parsed.Lines.{book_of, ReadsLines};

use crate::ObjectLine;
use crate::parsing::lines::lines_of;
use std::alloc::{AllocError, Global};
use wb_literals::after;

// The lines behind the first one.
fn book_of(alloc: Global, bytes: &[u8]) -> Result<Option<Vec<ObjectLine>>, AllocError>
    ensures { IfOk result (λ r. option_map (λ v. map line_of v.items) r ≡ book_of bytes.now) }
{
    match after(b"chapel-workbook 1\n", bytes) {
        Some(rest) => lines_of(alloc, rest),
        None => Ok(None),
    }
}

/// What the lines of a workbook's text say, in their order.
///
/// The lines of the text of every workbook are read. Other texts may be read too, as where spaces stand in a literal: to
/// know whether a text is a workbook's, print the workbook that the lines tell of, and compare.
pub fn read_lines(alloc: Global, text: &str) -> Result<Option<Vec<ObjectLine>>, AllocError>
    ensures whole { IfOk result (λ r. ReadsLines text.now (option_map (λ v. map line_of v.items) r)) }
    ensures lines { IfOk result (λ r. option_map (λ v. map line_of v.items) r ≡ book_of text.now) }
{
    book_of(alloc, text.as_bytes())
}
