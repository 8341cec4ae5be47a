ghost use Rattle.std.specs.Prelude.{◌≡◌, T, length};
ghost use Rattle.std.specs.FinMap.{is_sorted};
ghost use Rattle.std.specs.List.{zip};
ghost use Rattle.std.specs.Map.{keys_of};
ghost use Rattle.wb_cells.specs.Cells.{index_cmp};
ghost use Rattle.wb_cells.specs.Readers as readers;
ghost use Rattle.wb_cells.specs.Shapes.{indices};
ghost use Rattle.wb_edit.specs.Changed.{Judges, items_of, numbered, made_of, numbers_within};
ghost use Rattle.wb_edit.specs.Commands.{all, all_results, number_cells};
ghost use Rattle.wb_edit.specs.Elements.{result_of, results, all_within};
ghost use Rattle.wb_edit.specs.Numbers.{fits_integer};
ghost use Rattle.wb_edit.specs.Plans.{Attempts, Makes, or_refused};

use crate::attempt_err::{AttemptErr, or_refused};
use crate::commands::seen::put_elements;
use crate::footprint::FootprintBuilder;
use crate::looks::{elements, numbers, one_cell};
use crate::operation::Operation;
use std::alloc::Global;
use wb_cells::{AnyIndex, AnyRect, Delta, IndexedRow, Name, WhyRefused};
use wb_layers::Layered;

/// Each element of an array becomes what it and another array's element at the same index make.
pub(crate) fn plan_all(
    alloc: Global,
    book: &Layered<'_>,
    footprint: &mut FootprintBuilder,
    array: Name,
    how: &Operation,
    other: Name,
) -> Result<Delta, AttemptErr>
    ensures { Attempts (all array how.now other) book.now.cells footprint.old result footprint.new }
{
    let (domain, _kind) = one_cell::array_named(book, footprint, array)?;
    let (over, _kind_of_other) = one_cell::array_named(book, footprint, other)?;
    or_refused(elements::same_domain(domain, over))?;
    // For the proof: the workbook is well formed, so arrays over one domain have the same indices.
    book.is_formed();
    plan_all_results(alloc, book, footprint, array, how, other)
}

/// Each element of an array becomes what it and another array's element at the same index make, where both arrays are there, over
/// one domain.
fn plan_all_results(
    alloc: Global,
    book: &Layered<'_>,
    footprint: &mut FootprintBuilder,
    array: Name,
    how: &Operation,
    other: Name,
) -> Result<Delta, AttemptErr>
    requires { keys_of (readers.elements book.now.cells array) ≡ keys_of (readers.elements book.now.cells other) }
    ensures { Attempts (all_results array how.now other) book.now.cells footprint.old result footprint.new }
{
    elements::look_at_elements(footprint, array)?;
    elements::look_at_elements(footprint, other)?;
    all_changes(alloc, book, array, how, other)
}

// What the elements of two arrays at the same indices make: by numbers alone where the indices are those of a rectangle.
fn all_changes(
    alloc: Global,
    book: &Layered<'_>,
    array: Name,
    how: &Operation,
    other: Name,
) -> Result<Delta, AttemptErr>
    requires { keys_of (readers.elements book.now.cells array) ≡ keys_of (readers.elements book.now.cells other) }
    ensures { Judges (numbered array (all_within (results how.now (readers.elements book.now.cells array) (readers.elements book.now.cells other)))) result }
{
    match book.rectangle(&array) {
        Some(ranges) => changes_by_numbers(alloc, book, array, how, other, &ranges),
        None => changes_by_elements(alloc, book, array, how, other),
    }
}

// What the elements of two arrays at the same indices make, by numbers alone, where the indices are those of ranges.
fn changes_by_numbers(
    alloc: Global,
    book: &Layered<'_>,
    array: Name,
    how: &Operation,
    other: Name,
    ranges: &AnyRect,
) -> Result<Delta, AttemptErr>
    requires alike { keys_of (readers.elements book.now.cells array) ≡ keys_of (readers.elements book.now.cells other) }
    requires within { keys_of (readers.elements book.now.cells array) ≡ indices ranges.now }
    ensures { Judges (numbered array (all_within (results how.now (readers.elements book.now.cells array) (readers.elements book.now.cells other)))) result }
{
    let Ok(xs) = book.numbers(&array) else {
        return Err(AttemptErr::NoMemory);
    };
    let Ok(ys) = book.numbers(&other) else {
        return Err(AttemptErr::NoMemory);
    };
    let zs = numbers_made(how, xs, &ys)?;
    rectangle_changes(alloc, array, ranges, zs)
}

// What the elements of two arrays at the same indices make, element by element.
fn changes_by_elements(
    alloc: Global,
    book: &Layered<'_>,
    array: Name,
    how: &Operation,
    other: Name,
) -> Result<Delta, AttemptErr>
    requires { keys_of (readers.elements book.now.cells array) ≡ keys_of (readers.elements book.now.cells other) }
    ensures { Judges (numbered array (all_within (results how.now (readers.elements book.now.cells array) (readers.elements book.now.cells other)))) result }
{
    let Ok(xs) = book.elements(&array) else {
        return Err(AttemptErr::NoMemory);
    };
    let Ok(ys) = book.elements(&other) else {
        return Err(AttemptErr::NoMemory);
    };
    let zs = results(alloc, how, &xs, &ys)?;
    number_changes(alloc, array, &zs)
}

fn number_of(element: &(AnyIndex, i64)) -> i64
    ensures { result ≡ element.now.1 }
{
    element.1
}

fn result_of(how: &Operation, x: i64, y: i64) -> Result<i64, WhyRefused>
    ensures { result ≡ fits_integer (result_of how.now x y) }
{
    match how {
        Operation::Assign => Ok(y),
        Operation::Sum => numbers::sum(x, y),
        Operation::Difference => numbers::difference(x, y),
        Operation::Product => numbers::product(x, y),
    }
}

fn result_at(how: &Operation, x: &(AnyIndex, i64), y: &(AnyIndex, i64)) -> Result<i64, AttemptErr>
    ensures { result ≡ or_refused (fits_integer (result_of how.now x.now.1 y.now.1)) }
{
    or_refused(result_of(how, number_of(x), number_of(y)))
}

/// What the elements of two arrays at the same indices make, side by side.
fn results(
    alloc: Global,
    how: &Operation,
    xs: &[(AnyIndex, i64)],
    ys: &[(AnyIndex, i64)],
) -> Result<Vec<(AnyIndex, i64)>, AttemptErr>
    requires alike { keys_of xs.now ≡ keys_of ys.now }
    requires ascending { T (is_sorted index_cmp xs.now) }
    ensures { Judges (all_within (results how.now xs.now ys.now)) (items_of result) }
{
    let mut made = Vec::new(alloc);
    for p in 0..xs.len() {
        let x = &xs[p];
        let y = &ys[p];
        let z = result_at(how, x, y)?;
        if made.push((x.0, z)).is_err() {
            return Err(AttemptErr::NoMemory);
        }
    }
    Ok(made)
}

// What the numbers at each place of two lists make, in the room of the first.
fn numbers_made(how: &Operation, xs: Vec<i64>, ys: &[i64]) -> Result<Vec<i64>, AttemptErr>
    requires { length xs.items ≡ length ys.now }
    ensures { Judges (numbers_within (made_of how.now xs.items ys.now)) (items_of result) }
{
    let mut made = xs;
    for p in 0..ys.len() {
        made[p] = number_made(how, &made[p], &ys[p])?;
    }
    Ok(made)
}

// What two numbers make.
fn number_made(how: &Operation, x: &i64, y: &i64) -> Result<i64, AttemptErr>
    ensures { result ≡ or_refused (fits_integer (result_of how.now x.now y.now)) }
{
    or_refused(result_of(how, *x, *y))
}

/// The elements of an array at the indices of ranges become numbers, one after another.
pub(crate) fn rectangle_changes(
    alloc: Global,
    array: Name,
    ranges: &AnyRect,
    numbers: Vec<i64>,
) -> Result<Delta, AttemptErr>
    ensures { Makes (number_cells array (zip (indices ranges.now) numbers.items)) result }
{
    let mut delta = Delta::new(alloc);
    match delta.put_numbers(&IndexedRow::Elements(array), ranges, numbers) {
        Ok(()) => Ok(delta),
        Err(_) => Err(AttemptErr::NoMemory),
    }
}

fn number_changes(
    alloc: Global,
    array: Name,
    elements: &[(AnyIndex, i64)],
) -> Result<Delta, AttemptErr>
    requires { T (is_sorted index_cmp elements.now) }
    ensures { Makes (number_cells array elements.now) result }
{
    let mut delta = Delta::new(alloc);
    put_elements(&mut delta, array, elements)?;
    Ok(delta)
}
