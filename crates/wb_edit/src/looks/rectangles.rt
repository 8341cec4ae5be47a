//! Looks at the rectangle that a command is asked for, and at its indices: whether an array may have them, and whether its
//! elements at all of them are there.

ghost use Rattle.std.specs.Prelude.{◌≡◌, List, [], ◌∷◌, ◌++◌, map, ◌&&◌, true, is_some, length, OnOk, IfOk, IfErr};
ghost use Rattle.std.specs.FinMap.{get};
ghost use Rattle.std.specs.List.{list_all};
ghost use Rattle.std.specs.Map.{keys_of};
ghost use Rattle.wb_cells.specs.Readers.{elements};
ghost use Rattle.wb_cells.specs.Shapes.{indices};
ghost use Rattle.wb_cells.specs.declared.cells.cell.Cell.TheVariants.{Element};
ghost use Rattle.wb_edit.specs.Plans.{Looks, or_refused};
ghost use Rattle.wb_cells.specs.Reads.{one_of};
ghost use Rattle.wb_edit.specs.Rectangles.{ranges_of, is_rectangular_of, of_rank, there_if, all_elements};
ghost use Rattle.wb_edit.specs.declared.attempt_err.AttemptErr.TheVariants.{NoMemory};

use crate::asked_rectangle::AskedRectangle;
use crate::attempt_err::{AttemptErr, or_refused};
use crate::footprint::FootprintBuilder;
use wb_cells::{AnyCell, AnyIndex, AnyRect, Cell, IndexedRow, Kind, Name, Pattern, WhyRefused};
use wb_layers::Layered;

/// The ranges of the rectangle that is asked for; `WrongKind` where a set is in its place.
pub(crate) fn ranges_of(asked: &AskedRectangle) -> Result<AnyRect, WhyRefused>
    ensures { result ≡ ranges_of asked.now }
{
    match asked {
        AskedRectangle::Ranges(ranges) => Ok(*ranges),
        AskedRectangle::Indices => Err(WhyRefused::WrongKind),
    }
}

/// A rectangle is asked for, and no set.
pub(crate) fn asked_ranges(asked: &AskedRectangle) -> Result<AnyRect, AttemptErr>
    ensures { result ≡ or_refused (ranges_of asked.now) }
{
    or_refused(ranges_of(asked))
}

fn is_rectangular_of(rank: u8, kind: Kind) -> bool
    ensures { result ≡ is_rectangular_of rank kind }
{
    match kind {
        Kind::Rectangular(own) => own == rank,
        Kind::Sparse(_) => false,
        Kind::Associative(_) => false,
    }
}

/// The array is over a rectangular domain of the rank.
pub(crate) fn of_rank(rank: u8, kind: Kind) -> Result<(), WhyRefused>
    ensures { result ≡ of_rank rank kind }
{
    if is_rectangular_of(rank, kind) {
        Ok(())
    } else {
        Err(WhyRefused::WrongKind)
    }
}

/// The array is over a rectangular domain of the rank of these ranges.
pub(crate) fn over_rectangle(on: &AnyRect, kind: Kind) -> Result<(), AttemptErr>
    ensures { result ≡ or_refused (of_rank (length on.now) kind) }
{
    or_refused(of_rank(on.rank(), kind))
}

/// All of the elements are there.
pub(crate) fn there_if(all: bool) -> Result<(), WhyRefused>
    ensures { result ≡ there_if all }
{
    if all {
        Ok(())
    } else {
        Err(WhyRefused::OutOfDomain)
    }
}

/// Whether a cell is there; it is looked at.
pub(crate) fn is_present(
    book: &Layered<'_>,
    footprint: &mut FootprintBuilder,
    cell: &Cell,
) -> Result<bool, AttemptErr>
    ensures read { OnOk result (footprint.new ≡ footprint.old ++ one_of cell.now ∷ []) }
    ensures present { IfOk result (λ b. b ≡ is_some (get book.now.cells cell.now)) }
    ensures only { IfErr result (λ e. e ≡ NoMemory) }
{
    match footprint.keep(Pattern::One(AnyCell::new(*cell))) {
        Ok(()) => Ok(book.get(cell).is_some()),
        Err(_) => Err(AttemptErr::NoMemory),
    }
}

// True only where an array has its elements at the indices of these ranges, in their order; false tells nothing.
fn has_ranges(book: &Layered<'_>, array: Name, on: &AnyRect) -> bool
    ensures { result ≡ true → keys_of (elements book.now.cells array) ≡ indices on.now }
{
    match book.rectangle(&array) {
        Some(ranges) => ranges.is_same(on),
        None => false,
    }
}

// Whether an array has an element at an index.
fn has_element(book: &Layered<'_>, array: Name, index: AnyIndex) -> bool
    ensures { result ≡ is_some (get book.now.cells (Element array index)) }
{
    book.get(&Cell::Element(array, index)).is_some()
}

// Whether an array has an element at each index of a rectangle, one after another.
fn each_present(book: &Layered<'_>, array: Name, on: &AnyRect) -> bool
    ensures { result ≡ list_all is_some (map (get book.now.cells) (map (Element array) (indices on.now))) }
{
    let mut all = true;
    for p in 0..on.size() {
        match on.nth(p) {
            Some(index) => {
                let here = has_element(book, array, index);
                all = both_answers(all, here);
            }
            None => {}
        }
    }
    all
}

// Whether an array has an element at each index of a rectangle.
fn all_present(book: &Layered<'_>, array: Name, on: &AnyRect) -> bool
    ensures { result ≡ list_all is_some (map (get book.now.cells) (map (Element array) (indices on.now))) }
{
    if has_ranges(book, array, on) {
        return true;
    }
    each_present(book, array, on)
}

// Whether an array has an element at each index of a rectangle; the footprint keeps that they are looked at.
fn are_present(
    book: &Layered<'_>,
    footprint: &mut FootprintBuilder,
    array: Name,
    on: &AnyRect,
) -> Result<bool, AttemptErr>
    ensures read { OnOk result (footprint.new ≡ footprint.old ++ map one_of (map (Element array) (indices on.now))) }
    ensures present { IfOk result (λ b. b ≡ list_all is_some (map (get book.now.cells) (map (Element array) (indices on.now)))) }
    ensures only { IfErr result (λ e. e ≡ NoMemory) }
{
    match footprint.keep_rectangle(&IndexedRow::Elements(array), on) {
        Ok(()) => Ok(all_present(book, array, on)),
        Err(_) => Err(AttemptErr::NoMemory),
    }
}

/// Both of two answers.
pub(crate) fn both_answers(all: bool, here: bool) -> bool
    ensures { result ≡ (all && here) }
{
    all && here
}

/// An array's elements at the indices of a rectangle.
pub(crate) fn all_elements(
    book: &Layered<'_>,
    footprint: &mut FootprintBuilder,
    array: Name,
    on: &AnyRect,
) -> Result<(), AttemptErr>
    ensures { Looks (all_elements array (indices on.now)) book.now.cells footprint.old result footprint.new }
{
    let all = are_present(book, footprint, array, on)?;
    or_refused(there_if(all))
}
