//! Looks at one cell: each keeps the pattern that it read.

ghost use Rattle.std.specs.Prelude.{◌≡◌, List, [], ◌∷◌, ◌++◌, IfOk, OnOk};
ghost use Rattle.std.specs.FinMap as map;
ghost use Rattle.wb_edit.specs.Trees.{read};
ghost use Rattle.wb_edit.specs.Looks.{free_name, domain_named, array_named, element};
ghost use Rattle.wb_edit.specs.Plans.{Looks};

use crate::attempt_err::{AttemptErr, or_refused};
use crate::footprint::FootprintBuilder;
use crate::looks::judgements;
use wb_cells::{AnyCell, AnyDomain, AnyIndex, Cell, Kind, Name, Pattern, Value};
use wb_layers::Layered;

/// What a cell holds.
pub(crate) fn read(
    book: &Layered<'_>,
    footprint: &mut FootprintBuilder,
    cell: &Cell,
) -> Result<Option<Value>, AttemptErr>
    ensures { Looks (read cell.now) book.now.cells footprint.old result footprint.new }
{
    match footprint.keep(Pattern::One(AnyCell::new(*cell))) {
        Ok(()) => Ok(book.get(cell)),
        Err(_) => Err(AttemptErr::NoMemory),
    }
}

/// Nothing has the name.
pub(crate) fn free_name(
    book: &Layered<'_>,
    footprint: &mut FootprintBuilder,
    name: Name,
) -> Result<(), AttemptErr>
    ensures { Looks (free_name name) book.now.cells footprint.old result footprint.new }
{
    let object = read(book, footprint, &Cell::Object(name))?;
    or_refused(judgements::is_free(object))
}

/// The name is there, and names a domain: what it is.
pub(crate) fn domain_named(
    book: &Layered<'_>,
    footprint: &mut FootprintBuilder,
    domain: Name,
) -> Result<AnyDomain, AttemptErr>
    ensures { Looks (domain_named domain) book.now.cells footprint.old result footprint.new }
{
    let object = read(book, footprint, &Cell::Object(domain))?;
    or_refused(judgements::domain_kind(object))
}

/// The name is there, and names an array: its domain, and that domain's kind.
pub(crate) fn array_named(
    book: &Layered<'_>,
    footprint: &mut FootprintBuilder,
    array: Name,
) -> Result<(Name, Kind), AttemptErr>
    ensures { Looks (array_named array) book.now.cells footprint.old result footprint.new }
{
    let object = read(book, footprint, &Cell::Object(array))?;
    or_refused(judgements::array_kind(object))
}

/// The element is there.
pub(crate) fn element(
    book: &Layered<'_>,
    footprint: &mut FootprintBuilder,
    array: Name,
    index: AnyIndex,
) -> Result<(), AttemptErr>
    ensures { Looks (element array index) book.now.cells footprint.old result footprint.new }
{
    let element = read(book, footprint, &Cell::Element(array, index))?;
    or_refused(judgements::is_there(element))
}
