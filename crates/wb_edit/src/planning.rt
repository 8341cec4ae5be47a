ghost use Rattle.std.specs.Prelude.{◌≡◌, ◌≤◌, []};
ghost use Rattle.wb_edit.specs.Commands.{command_meaning};
ghost use Rattle.wb_edit.specs.Commands.Load.{load as load_meaning};
ghost use Rattle.wb_edit.specs.Edits.{meaning, meaning_of_several, placed};
ghost use Rattle.wb_edit.specs.Plans.{Attempts, IsPlan};
ghost use Rattle.wb_cells.specs.Cells.{Cells};
ghost use Rattle.wb_edit.specs.Trees.{Tree, plain};

use crate::attempt_err::AttemptErr;
use crate::command::Command;
use crate::commands::{
    add, all, array, assoc, copy, domain, drop_array, drop_domain, fill, fill_all, irv, load, put,
    remap, remove, reshape, set, sparse,
};
use crate::edit::Edit;
use crate::footprint::{FootprintBuilder, ReadFootprint};
use crate::several::{PlanAllErr, plan_all};
use crate::transaction::Transaction;
use std::alloc::Global;
use wb_book::Book;
use wb_cells::{Delta, EditRefusal, WhyRefused};
use wb_layers::Layered;
use wb_text::BookText;

/// Why there is no plan.
#[derive(Drop)]
pub enum PlanErr {
    /// Why the edit is refused, and what it read up to and with the test that refused it.
    Refused(EditRefusal, ReadFootprint),
    /// No memory was left; it may be planned again.
    NoMemory,
}

/// What an edit would change in a workbook, what it reads, in order, and how many cells it touches.
///
/// The workbook stays as it is. The count leaves out the cells `In`, which follow from the shapes. The edit is
/// refused exactly where its meaning is, and then it has read what its tests looked at, up to and with the one that
/// refused it.
pub fn plan(
    alloc: Global,
    book: &Book,
    edit: &Edit,
) -> Result<(Delta, ReadFootprint, usize), PlanErr>
    ensures { IsPlan (meaning edit.now) book.now.cells result }
{
    match edit {
        Edit::Command(command) => plan_command(alloc, book, command),
        Edit::Transaction(several) => plan_transaction(alloc, book, several),
        Edit::Load(text) => plan_text(alloc, book, text),
    }
}

// What an attempt came to, as a plan of the same tree.
fn plan_of(
    attempted: Result<Delta, AttemptErr>,
    footprint: FootprintBuilder,
) -> Result<(Delta, ReadFootprint, usize), PlanErr>
    ensures { (e : Tree) (s : Cells) → Attempts e s [] attempted footprint → IsPlan e s result }
{
    let Ok(read) = footprint.build() else {
        return Err(PlanErr::NoMemory);
    };
    match attempted {
        Ok(delta) => {
            let count = delta.count();
            Ok((delta, read, count))
        }
        Err(AttemptErr::Refused(why)) => Err(PlanErr::Refused(EditRefusal { why, at: None }, read)),
        Err(AttemptErr::NoMemory) => Err(PlanErr::NoMemory),
    }
}

// The plan of one command.
fn plan_command(
    alloc: Global,
    book: &Book,
    command: &Command,
) -> Result<(Delta, ReadFootprint, usize), PlanErr>
    ensures { IsPlan (command_meaning command.now) book.now.cells result }
{
    let mut footprint = FootprintBuilder::new(alloc);
    let layered = Layered::of(alloc, book);
    let attempted = attempt(alloc, &layered, &mut footprint, command);
    plan_of(attempted, footprint)
}

// The plan that loads a text.
fn plan_text(
    alloc: Global,
    book: &Book,
    text: &BookText,
) -> Result<(Delta, ReadFootprint, usize), PlanErr>
    ensures { IsPlan (load_meaning text.now) book.now.cells result }
{
    let mut footprint = FootprintBuilder::new(alloc);
    let layered = Layered::of(alloc, book);
    let attempted = load::plan_load(alloc, &layered, &mut footprint, text);
    plan_of(attempted, footprint)
}

// The plan of several commands as one.
fn plan_transaction(
    alloc: Global,
    book: &Book,
    several: &Transaction,
) -> Result<(Delta, ReadFootprint, usize), PlanErr>
    ensures { IsPlan (meaning_of_several several.now.0) book.now.cells result }
{
    match plan_all(alloc, book, several.commands()) {
        Ok(plan) => Ok(plan),
        Err(PlanAllErr::Refused(place, why, footprint)) => {
            Err(PlanErr::Refused(placed(place, why), footprint))
        }
        Err(PlanAllErr::NoMemory) => Err(PlanErr::NoMemory),
    }
}

// Why an edit of several commands is refused, whose first refused command has this place.
fn placed(place: usize, why: WhyRefused) -> EditRefusal
    requires { place ≤ 4096 }
    ensures { result ≡ placed place (plain why) }
{
    EditRefusal {
        why,
        at: Some(place as u16),
    }
}

/// The changes of the command; what it reads is added to `footprint`.
pub(crate) fn attempt(
    alloc: Global,
    book: &Layered<'_>,
    footprint: &mut FootprintBuilder,
    command: &Command,
) -> Result<Delta, AttemptErr>
    ensures { Attempts (command_meaning command.now) book.now.cells footprint.old result footprint.new }
{
    match command {
        Command::Domain(name, asked, mapping) => {
            domain::plan_domain(alloc, book, footprint, *name, asked, mapping)
        }
        Command::Remap(domain, mapping) => remap::plan_remap(
            alloc, book, footprint, *domain, mapping,
        ),
        Command::Sparse(name, parent) => sparse::plan_sparse(
            alloc, book, footprint, *name, *parent,
        ),
        Command::Assoc(name, key) => assoc::plan_assoc(alloc, book, footprint, *name, key),
        Command::Array(name, over) => array::plan_array(alloc, book, footprint, *name, *over),
        Command::Set(name, index, value) => {
            set::plan_set(alloc, book, footprint, *name, *index, *value)
        }
        Command::Irv(name, value) => irv::plan_irv(alloc, book, footprint, *name, *value),
        Command::Copy(name, index, source, place, more) => {
            copy::plan_copy(
                alloc,
                book,
                footprint,
                (*name, *index),
                (*source, *place),
                *more,
            )
        }
        Command::Fill(name, on, value) => fill::plan_fill(
            alloc, book, footprint, *name, on, *value,
        ),
        Command::Put(name, asked) => put::plan_put(alloc, book, footprint, *name, asked),
        Command::FillAll(name, value) => {
            fill_all::plan_fill_all(alloc, book, footprint, *name, *value)
        }
        Command::DropArray(name) => drop_array::plan_drop_array(alloc, book, footprint, *name),
        Command::All(name, how, other) => {
            all::plan_all(alloc, book, footprint, *name, how, *other)
        }
        Command::Add(domain, index) => add::plan_add(alloc, book, footprint, *domain, *index),
        Command::Remove(domain, index) => remove::plan_remove(
            alloc, book, footprint, *domain, *index,
        ),
        Command::DropDomain(domain) => drop_domain::plan_drop_domain(
            alloc, book, footprint, *domain,
        ),
        Command::Reshape(domain, source) => {
            reshape::any::plan_reshape(alloc, book, footprint, *domain, source)
        }
    }
}
