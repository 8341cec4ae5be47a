//! The text of a workbook.
ghost use Rattle.std.specs.Prelude.{◌≡◌, IfOk, string_bytes};
ghost use Rattle.std.specs.Bool.{Decides};
ghost use Rattle.wb_cells.specs.Cells.{state_of};
ghost use Rattle.wb_text.specs.Texts.Books.{IsBookText, cells_in};

use crate::read_lines;
use crate::value::told::cells_told;
use std::alloc::Global;
use std::marker::Model;
use wb_cells::{StoredCells, Value};
use wb_range::NoMemory;

/// The text of a workbook, and never another text. Contracts see its bytes.
#[derive(Debug, Drop)]
pub struct BookText {
    text: String,
}

impl Model for BookText {
    ghost use Rattle.std.specs.Prelude.{ℕ, List, string_bytes};
    ghost use Rattle.wb_text.specs.Texts.Books.{IsBookText};

    ghost Value = { List ℕ };

    ghost view = { λ a. string_bytes a.text };

    ghost invariant = { λ a. IsBookText (string_bytes a.text) };
}

impl BookText {
    /// The text of a workbook, as such.
    pub fn new(text: String) -> BookText
        requires { IsBookText (string_bytes text) }
        ensures { result ≡ string_bytes text }
    {
        BookText { text }
    }

    /// The text.
    pub fn as_str(&self) -> &str
        ensures same { result.now ≡ self.now }
        ensures book { IsBookText self.now }
    {
        self.text.as_str()
    }

    /// An equal text, or `NoMemory`.
    pub fn copy(&self, alloc: Global) -> Result<BookText, NoMemory>
        ensures { IfOk result (λ t. t ≡ self.now) }
    {
        match String::from_str(alloc, self.as_str()) {
            Ok(text) => Ok(BookText::new(text)),
            Err(_) => Err(NoMemory),
        }
    }

    /// Whether the texts are equal.
    pub fn is_same(&self, other: &BookText) -> bool
        ensures { Decides result (self.now ≡ other.now) }
    {
        self.as_str() == other.as_str()
    }

    /// The cells of the workbook, with their values. It takes memory for each of them, beside that for the lines of the text;
    /// `NoMemory` where none is left.
    pub fn cells(&self, alloc: Global) -> Result<StoredCells, NoMemory>
        ensures { IfOk result (λ m. state_of m ≡ cells_in self.now) }
    {
        match read_lines(alloc, self.as_str()) {
            Ok(Some(lines)) => match cells_told(alloc, &lines)? {
                Some(cells) => Ok(cells),
                None => unreachable!(),
            },
            Ok(None) => unreachable!(),
            Err(_) => Err(NoMemory),
        }
    }
}
