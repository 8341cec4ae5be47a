//! The text of a whole workbook.
ghost use Rattle.std.specs.Prelude.{◌≡◌, ◌++◌, IfOk, OnOk, string_bytes};
ghost use Rattle.std.specs.List.{flat_map};
ghost use Rattle.wb_text.specs.Lines.{object_line, book_text};

use crate::books::objects;
use crate::objects::push_object;
use std::alloc::Global;
use wb_book::Book;
use wb_cells::Name;
use wb_range::NoMemory;

// The lines of the objects of these names.
fn push_objects(
    alloc: Global,
    out: &mut String,
    book: &Book,
    names: &[Name],
) -> Result<(), NoMemory>
    ensures { OnOk result (string_bytes out.new ≡ string_bytes out.old ++ flat_map (object_line book.now.cells) names.now) }
{
    for name in names {
        push_object(alloc, out, book, name)?;
    }
    Ok(())
}

/// The text of a workbook: the line `chapel-workbook 1`, a line for each domain and each array, their names ascending
/// by bytes, and the line `end`. Every line ends with a line feed, nothing follows the last one, and each literal is
/// canonical. It takes time in proportion to the text and to how deep the map of the cells is; `NoMemory` where none
/// is left.
pub fn print_book(alloc: Global, book: &Book) -> Result<String, NoMemory>
    ensures { IfOk result (λ t. string_bytes t ≡ book_text book.now.cells) }
{
    let names = objects(alloc, book)?;
    let mut out = String::new(alloc);
    out.push_str("chapel-workbook 1\n")?;
    push_objects(alloc, &mut out, book, &names)?;
    out.push_str("end\n")?;
    Ok(out)
}
