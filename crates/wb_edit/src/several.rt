//! Several commands as one: each is planned in the workbook that those before it leave, and the workbook stays as it is.

ghost use Rattle.std.specs.Prelude.{◌≡◌, []};
ghost use Rattle.wb_edit.specs.Several.{AttemptsAll, IsPlanOfAll, MakesNext};

use crate::attempt_err::AttemptErr;
use crate::command::Command;
use crate::footprint::{FootprintBuilder, ReadFootprint};
use crate::planning::attempt;
use std::alloc::Global;
use wb_book::Book;
use wb_cells::{Delta, WhyRefused};
use wb_layers::Layered;

/// Why there is no plan of several commands.
#[derive(Drop)]
pub enum PlanAllErr {
    /// The place of the first command that is refused, from 0, why, and what was read up to and with the test that refused it.
    Refused(usize, WhyRefused, ReadFootprint),
    /// No memory was left; they may be planned again.
    NoMemory,
}

/// Why several commands stopped.
#[derive(Clone, Copy, Debug)]
pub(crate) enum AllErr {
    /// The command at this place is refused, and why.
    Refused(usize, WhyRefused),
    /// A growth was refused.
    NoMemory,
}

/// What several commands would change in a workbook together, each cell once, what they read, in order, and how many cells
/// they touch.
///
/// Each is planned in the workbook that those before it would leave. The workbook stays as it is. The count leaves out the
/// cells `In`, which follow from the shapes. They are refused exactly where one of them is, and then they have read what the
/// tests looked at, up to and with the first one that refused.
pub fn plan_all(
    alloc: Global,
    book: &Book,
    commands: &[Command],
) -> Result<(Delta, ReadFootprint, usize), PlanAllErr>
    ensures { IsPlanOfAll commands.now book.now.cells result }
{
    let mut footprint = FootprintBuilder::new(alloc);
    let layered = Layered::of(alloc, book);
    match attempt_all(alloc, layered, &mut footprint, commands) {
        Ok(laid) => match laid.into_delta() {
            Ok(delta) => match footprint.build() {
                Ok(read) => {
                    let count = delta.count();
                    Ok((delta, read, count))
                }
                Err(_) => Err(PlanAllErr::NoMemory),
            },
            Err(_) => Err(PlanAllErr::NoMemory),
        },
        Err(AllErr::Refused(place, why)) => match footprint.build() {
            Ok(read) => Err(PlanAllErr::Refused(place, why, read)),
            Err(_) => Err(PlanAllErr::NoMemory),
        },
        Err(AllErr::NoMemory) => Err(PlanAllErr::NoMemory),
    }
}

// The workbook with the changes of the commands; what they read is added to `footprint`.
fn attempt_all<'a>(
    alloc: Global,
    book: Layered<'a>,
    footprint: &mut FootprintBuilder,
    commands: &[Command],
) -> Result<Layered<'a>, AllErr>
    requires { book.laid ≡ [] }
    ensures { AttemptsAll commands.now book.entry.cells footprint.old result footprint.new }
{
    let mut laid = book;
    for place in 0..commands.len() {
        match make_next(alloc, laid, footprint, place, &commands[place]) {
            Ok(next) => laid = next,
            Err(why) => return Err(why),
        }
    }
    Ok(laid)
}

// The workbook with the changes of one more command, which has a place; what it reads is added to `footprint`.
fn make_next<'a>(
    alloc: Global,
    laid: Layered<'a>,
    footprint: &mut FootprintBuilder,
    place: usize,
    command: &Command,
) -> Result<Layered<'a>, AllErr>
    ensures { MakesNext command.now place laid.entry footprint.old result footprint.new }
{
    // For the proof: the command is valid, and the workbook well formed.
    command.validity();
    laid.is_formed();
    match attempt(alloc, &laid, footprint, command) {
        Ok(delta) => match laid.lay(&delta) {
            Ok(next) => Ok(next),
            Err(_) => Err(AllErr::NoMemory),
        },
        Err(AttemptErr::Refused(why)) => Err(AllErr::Refused(place, why)),
        Err(AttemptErr::NoMemory) => Err(AllErr::NoMemory),
    }
}
