//! Looks of commands that give a domain a new value.

ghost use Rattle.std.specs.Prelude.{◌≡◌, List, [], ◌∷◌, ◌++◌, map, ◌||◌, is_some, OnOk, IfOk, IfErr};
ghost use Rattle.std.specs.FinMap.{get};
ghost use Rattle.std.specs.List.{list_any};
ghost use Rattle.wb_cells.specs.declared.cells.cell.Cell.TheVariants.{Member};
ghost use Rattle.wb_edit.specs.Plans.{Looks};
ghost use Rattle.wb_cells.specs.Reads.{one_of};
ghost use Rattle.wb_edit.specs.Reshaping.{shape_in, absent_if, shape, member_cells, none_there};
ghost use Rattle.wb_edit.specs.declared.attempt_err.AttemptErr.TheVariants.{NoMemory};

use crate::attempt_err::{AttemptErr, or_refused};
use crate::footprint::FootprintBuilder;
use crate::looks::one_cell::read;
use crate::looks::rectangles::is_present;
use wb_cells::{AnyIndex, AnyRect, Cell, Name, Value, WhyRefused};
use wb_layers::Layered;

/// The ranges that a cell holds; `WrongKind` where it holds none.
pub(crate) fn shape_in(shape: Option<Value>) -> Result<AnyRect, WhyRefused>
    ensures { result ≡ shape_in shape }
{
    match shape {
        None => Err(WhyRefused::WrongKind),
        Some(value) => match value {
            Value::Ranges(ranges) => Ok(ranges),
            Value::Domain(_) => Err(WhyRefused::WrongKind),
            Value::Array(_, _) => Err(WhyRefused::WrongKind),
            Value::Mapping(_) => Err(WhyRefused::WrongKind),
            Value::Present => Err(WhyRefused::WrongKind),
            Value::Bound(_) => Err(WhyRefused::WrongKind),
            Value::Number(_) => Err(WhyRefused::WrongKind),
        },
    }
}

/// The ranges of a rectangular domain.
pub(crate) fn shape(
    book: &Layered<'_>,
    footprint: &mut FootprintBuilder,
    domain: Name,
) -> Result<AnyRect, AttemptErr>
    ensures { Looks (shape domain) book.now.cells footprint.old result footprint.new }
{
    let ranges = read(book, footprint, &Cell::Shape(domain))?;
    or_refused(shape_in(ranges))
}

/// That none of some cells is there; `InUse` where one is.
pub(crate) fn absent_if(any: bool) -> Result<(), WhyRefused>
    ensures { result ≡ absent_if any }
{
    if any { Err(WhyRefused::InUse) } else { Ok(()) }
}

// One of two answers.
fn either_answer(any: bool, here: bool) -> bool
    ensures { result ≡ (any || here) }
{
    any || here
}

// Whether a domain has one of some indices; each of them is looked at.
fn has_some(
    book: &Layered<'_>,
    footprint: &mut FootprintBuilder,
    domain: Name,
    listed: &[AnyIndex],
) -> Result<bool, AttemptErr>
    ensures read { OnOk result (footprint.new ≡ footprint.old ++ map one_of (map (Member domain) listed.now)) }
    ensures there { IfOk result (λ b. b ≡ list_any is_some (map (get book.now.cells) (map (Member domain) listed.now))) }
    ensures only { IfErr result (λ e. e ≡ NoMemory) }
{
    let mut any = false;
    for index in listed {
        let here = is_present(book, footprint, &Cell::Member(domain, *index))?;
        any = either_answer(any, here);
    }
    Ok(any)
}

// Whether one of some domains has one of some indices; each index is looked at in each domain.
fn some_have(
    book: &Layered<'_>,
    footprint: &mut FootprintBuilder,
    domains: &[Name],
    listed: &[AnyIndex],
) -> Result<bool, AttemptErr>
    ensures read { OnOk result (footprint.new ≡ footprint.old ++ map one_of (member_cells domains.now listed.now)) }
    ensures there { IfOk result (λ b. b ≡ list_any is_some (map (get book.now.cells) (member_cells domains.now listed.now))) }
    ensures only { IfErr result (λ e. e ≡ NoMemory) }
{
    let mut any = false;
    for domain in domains {
        let here = has_some(book, footprint, *domain, listed)?;
        any = either_answer(any, here);
    }
    Ok(any)
}

/// None of some indices is in one of the domains.
pub(crate) fn none_there(
    book: &Layered<'_>,
    footprint: &mut FootprintBuilder,
    domains: &[Name],
    listed: &[AnyIndex],
) -> Result<(), AttemptErr>
    ensures { Looks (none_there domains.now listed.now) book.now.cells footprint.old result footprint.new }
{
    let any = some_have(book, footprint, domains, listed)?;
    or_refused(absent_if(any))
}
