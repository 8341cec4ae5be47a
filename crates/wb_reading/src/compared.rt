//! Whether a text is that of a workbook, told line by line.
ghost use Rattle.std.specs.Prelude.{◌≡◌, ◌≢◌, ◌++◌, ℕ, List, codes, IfOk, IfSome, IfNone};
ghost use Rattle.std.specs.Bool.{Decides};
ghost use Rattle.std.specs.List.{flat_map};
ghost use Rattle.wb_text.specs.Lines.{object_line, book_text};
ghost use Rattle.wb_cells.specs.Readers.{objects};

use crate::books::objects;
use crate::objects::push_object;
use std::alloc::Global;
use wb_book::Book;
use wb_cells::Name;
use wb_range::NoMemory;

// What follows the line of an object at the front.
fn behind_object<'a>(
    alloc: Global,
    book: &Book,
    name: &Name,
    bytes: &'a [u8],
) -> Result<Option<&'a [u8]>, NoMemory>
    ensures some { IfOk result (λ r. IfSome r (λ rest. bytes.now ≡ object_line book.now.cells name.now ++ rest.now)) }
    ensures none { IfOk result (λ r. IfNone r ((rest : List ℕ) → bytes.now ≢ object_line book.now.cells name.now ++ rest)) }
{
    let mut line = String::new(alloc);
    push_object(alloc, &mut line, book, name)?;
    Ok(bytes.strip_prefix(line.as_bytes()))
}

// What follows the lines of the objects of these names at the front.
fn behind_objects<'a>(
    alloc: Global,
    book: &Book,
    names: &[Name],
    bytes: &'a [u8],
) -> Result<Option<&'a [u8]>, NoMemory>
    ensures some { IfOk result (λ r. IfSome r (λ rest. bytes.now ≡ flat_map (object_line book.now.cells) names.now ++ rest.now)) }
    ensures none { IfOk result (λ r. IfNone r ((rest : List ℕ) → bytes.now ≢ flat_map (object_line book.now.cells) names.now ++ rest)) }
{
    let mut rest = bytes;
    for name in names {
        match behind_object(alloc, book, name, rest)? {
            Some(behind) => rest = behind,
            None => return Ok(None),
        }
    }
    Ok(Some(rest))
}

// Whether the last line is all that is left.
fn is_end(bytes: &[u8]) -> bool
    ensures { Decides result (bytes.now ≡ codes "end\n") }
{
    bytes == b"end\n".as_slice()
}

// What follows the first line at the front.
fn behind_first_line(bytes: &[u8]) -> Option<&[u8]>
    ensures some { IfSome result (λ rest. bytes.now ≡ codes "chapel-workbook 1\n" ++ rest.now) }
    ensures none { IfNone result ((rest : List ℕ) → bytes.now ≢ codes "chapel-workbook 1\n" ++ rest) }
{
    bytes.strip_prefix(b"chapel-workbook 1\n")
}

// What follows the first line and those of all objects of a workbook at the front.
fn behind_lines<'a>(
    alloc: Global,
    book: &Book,
    bytes: &'a [u8],
) -> Result<Option<&'a [u8]>, NoMemory>
    ensures some { IfOk result (λ r. IfSome r (λ rest. bytes.now ≡ codes "chapel-workbook 1\n" ++ (flat_map (object_line book.now.cells) (objects book.now.cells) ++ rest.now))) }
    ensures none { IfOk result (λ r. IfNone r ((rest : List ℕ) → bytes.now ≢ codes "chapel-workbook 1\n" ++ (flat_map (object_line book.now.cells) (objects book.now.cells) ++ rest))) }
{
    let Some(rest) = behind_first_line(bytes) else {
        return Ok(None);
    };
    let names = objects(alloc, book)?;
    behind_objects(alloc, book, &names, rest)
}

/// Whether a text is that of a workbook. The line of one object is held at a time; `NoMemory` where none is left.
pub(crate) fn is_text_of(alloc: Global, book: &Book, text: &str) -> Result<bool, NoMemory>
    ensures { IfOk result (λ is. Decides is (text.now ≡ book_text book.now.cells)) }
{
    match behind_lines(alloc, book, text.as_bytes())? {
        Some(rest) => Ok(is_end(rest)),
        None => Ok(false),
    }
}
