ghost use Rattle.std.specs.Prelude.{◌≡◌};
ghost use Rattle.wb_cells.specs.Cells.{state_of};
ghost use Rattle.wb_edit.specs.Commands.{book_cells, load};
ghost use Rattle.wb_edit.specs.Plans.{Attempts, Makes};
ghost use Rattle.wb_text.specs.Texts.Books.{cells_in};

use crate::attempt_err::AttemptErr;
use crate::commands::writes::put;
use crate::footprint::FootprintBuilder;
use crate::looks::objects;
use std::alloc::Global;
use wb_cells::{Delta, StoredCells};
use wb_layers::Layered;
use wb_text::BookText;

/// The workbook of a text.
pub(crate) fn plan_load(
    alloc: Global,
    book: &Layered<'_>,
    footprint: &mut FootprintBuilder,
    text: &BookText,
) -> Result<Delta, AttemptErr>
    ensures { Attempts (load text.now) book.now.cells footprint.old result footprint.new }
{
    objects::no_object(book, footprint)?;
    load_changes(alloc, text)
}

fn load_changes(alloc: Global, text: &BookText) -> Result<Delta, AttemptErr>
    ensures { Makes (book_cells (cells_in text.now)) result }
{
    match text.cells(alloc) {
        Ok(cells) => changes_of(alloc, &cells),
        Err(_) => Err(AttemptErr::NoMemory),
    }
}

// Each cell gets its value.
fn changes_of(alloc: Global, cells: &StoredCells) -> Result<Delta, AttemptErr>
    ensures { Makes (book_cells (state_of cells.now)) result }
{
    let Ok(listed) = cells.list(alloc) else {
        return Err(AttemptErr::NoMemory);
    };
    let mut delta = Delta::new(alloc);
    for (cell, value) in &listed {
        put(&mut delta, *cell, *value)?;
    }
    Ok(delta)
}
