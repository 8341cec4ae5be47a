//! A workbook printed, and read from its text.
//!
//! The lines of the text are read, the workbook that they tell of is made, and its own text is compared with the one
//! that was given. So a text is read just where it is the text of a workbook.
#![tactic(auto)]

mod books;
mod compared;
mod objects;
mod printed;
mod workbook;

ghost use Rattle.std.specs.Prelude.{◌≡◌, ◌≢◌, true, false, Some, None, IfOk, IfErr, IfSome, IfNone, option_map, option_and_then};
ghost use Rattle.wb_reading.specs.Reading.{IsNoBook, sound_cells};
ghost use Rattle.wb_text.specs.Lines.{book_text};
ghost use Rattle.wb_text.specs.Parsed.Lines.{book_of as parsed};
ghost use Rattle.wb_text.specs.Texts.Books.{if_text_of, book_in, is_book_text};

use crate::compared::is_text_of;
pub use crate::printed::print_book;
pub use crate::workbook::rebuild;
use std::alloc::Global;
use thiserror::Error;
use wb_book::Book;
use wb_range::NoMemory;
use wb_text::{BookText, read_lines};

/// Why a text is not read.
#[derive(Clone, Copy, Debug, PartialEq, Eq, Error)]
pub enum BookErr {
    /// No workbook has this text.
    #[error("no text of a workbook")]
    Bad,
    /// A growth was refused.
    #[error("no memory")]
    NoMemory,
}

// The text of a workbook is given back with it, and nothing else is.
fn same_text(alloc: Global, book: Book, text: &str) -> Result<Option<Book>, NoMemory>
    ensures same { IfOk result (λ r. IfSome r (λ b. text.now ≡ book_text b.cells)) }
    ensures other { IfOk result (λ r. IfNone r (text.now ≢ book_text book.cells)) }
    ensures kept { IfOk result (λ r. IfSome r (λ b. b ≡ book)) }
{
    if is_text_of(alloc, &book, text)? {
        Ok(Some(book))
    } else {
        Ok(None)
    }
}

// The workbook that the lines of this text tell of, if they are sound, whatever its own text is.
fn told_book(alloc: Global, text: &str) -> Result<Option<Book>, NoMemory>
    ensures { IfOk result (λ r. option_map (λ b. b.cells) r ≡ option_and_then sound_cells (parsed text.now)) }
{
    match read_lines(alloc, text) {
        Ok(Some(lines)) => rebuild(alloc, &lines),
        Ok(None) => Ok(None),
        Err(_) => Err(NoMemory),
    }
}

// A workbook that lines told of, if the text is its text.
fn same_told(alloc: Global, told: Option<Book>, text: &str) -> Result<Option<Book>, NoMemory>
    ensures some { IfOk result (λ r. IfSome r (λ b. text.now ≡ book_text b.cells)) }
    ensures told { IfOk result (λ r. option_map (λ b. b.cells) r ≡ option_and_then (if_text_of text.now) (option_map (λ b. b.cells) told)) }
{
    match told {
        Some(book) => same_text(alloc, book, text),
        None => Ok(None),
    }
}

// The workbook of this text, if there is one. The lines are let go before its own text is printed.
fn book_of(alloc: Global, text: &str) -> Result<Option<Book>, NoMemory>
    ensures some { IfOk result (λ r. IfSome r (λ b. text.now ≡ book_text b.cells)) }
    ensures told { IfOk result (λ r. option_map (λ b. b.cells) r ≡ book_in text.now) }
{
    let told = told_book(alloc, text)?;
    same_told(alloc, told, text)
}

/// The workbook of this text, or `Bad` just where no well-formed workbook has it. No two workbooks share a text, so it is
/// the only one. Nothing is said of `writes()` of a workbook that was read.
pub fn read_book(alloc: Global, text: &str) -> Result<Book, BookErr>
    ensures ok { IfOk result (λ b. text.now ≡ book_text b.cells) }
    ensures told { IfOk result (λ b. book_in text.now ≡ Some b.cells) }
    ensures bad { IfErr result (λ why. why ≡ BookErr.Bad → IsNoBook text.now) }
    ensures none { IfErr result (λ why. why ≡ BookErr.Bad → book_in text.now ≡ None) }
{
    match book_of(alloc, text) {
        Ok(Some(book)) => Ok(book),
        Ok(None) => Err(BookErr::Bad),
        Err(NoMemory) => Err(BookErr::NoMemory),
    }
}

/// The text as that of a workbook, or `Bad` just where it is no workbook's.
pub fn read_text(alloc: Global, text: &str) -> Result<BookText, BookErr>
    ensures ok { IfOk result (λ t. t ≡ text.now) }
    ensures book { IfOk result (λ t. is_book_text text.now ≡ true) }
    ensures bad { IfErr result (λ why. why ≡ BookErr.Bad → is_book_text text.now ≡ false) }
    ensures none { IfErr result (λ why. why ≡ BookErr.Bad → IsNoBook text.now) }
{
    let book = read_book(alloc, text)?;
    // For the proof: the workbook is well formed.
    let _well_formed = book.writes();
    match String::from_str(alloc, text) {
        Ok(copy) => Ok(BookText::new(copy)),
        Err(_) => Err(BookErr::NoMemory),
    }
}
