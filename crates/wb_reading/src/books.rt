//! What the lines of a workbook's objects say, read from the book.
ghost use Rattle.std.specs.Prelude.{◌≡◌, [], IfOk, option_and_then, slice_get, unwrap_or};
ghost use Rattle.std.specs.FinMap as map;
ghost use Rattle.std.specs.List.{filter_map};
ghost use Rattle.wb_cells.specs.Locales.{mapping_in};
ghost use Rattle.wb_cells.specs.Readers.{indices_at, object_of, objects};
ghost use Rattle.wb_cells.specs.Shapes.{indices};
ghost use Rattle.wb_cells.specs.WellFormed.{ranges_in};
ghost use Rattle.wb_cells.specs.declared.cells.cell.Cell.TheVariants.{Shape, Mapping};
ghost use Rattle.wb_text.specs.Lines.{members, indices_in, number_in, element_at, elements_at, implicit_in};

use std::alloc::{AllocError, Global};
use wb_book::Book;
use wb_cells::{
    AnyIndex, AnyLayout, AnyRect, Cell, Kind, MemberWalk, Name, Pattern, Value, object_of,
};
use wb_range::NoMemory;

fn objects_in(alloc: Global, shown: &[(Cell, Value)]) -> Result<Vec<Name>, AllocError>
    ensures { IfOk result (λ v. v.items ≡ filter_map (λ x. object_of x.0) shown.now) }
{
    shown
        .iter()
        .filter_map(
            |x: &(Cell, Value)| -> Option<Name>
                ensures { result ≡ object_of x.now.0 }
            { object_of(&x.0) },
        )
        .collect(alloc)
}

/// The names of the objects, ascending, by one walk over them.
#[tactic(auto, using(wb_text::proofs::ObjectNames::objects_shown))]
pub(crate) fn objects(alloc: Global, book: &Book) -> Result<Vec<Name>, NoMemory>
    ensures { IfOk result (λ v. v.items ≡ objects book.now.cells) }
{
    let shown = book.seen(alloc, &Pattern::Objects)?;
    Ok(objects_in(alloc, &shown)?)
}

/// The ranges of a rectangular domain.
pub(crate) fn ranges_at(book: &Book, domain: &Name) -> Option<AnyRect>
    ensures { result ≡ ranges_in (map.get book.now.cells (Shape domain.now)) }
{
    match book.get(&Cell::Shape(*domain))? {
        Value::Ranges(ranges) => Some(ranges),
        Value::Domain(_)
        | Value::Array(_, _)
        | Value::Mapping(_)
        | Value::Present
        | Value::Bound(_)
        | Value::Number(_) => None,
    }
}

/// The mapping of a rectangular domain.
pub(crate) fn mapping_at(book: &Book, domain: &Name) -> Option<AnyLayout>
    ensures { result ≡ mapping_in (map.get book.now.cells (Mapping domain.now)) }
{
    match book.get(&Cell::Mapping(*domain))? {
        Value::Mapping(layout) => Some(layout),
        Value::Domain(_)
        | Value::Array(_, _)
        | Value::Ranges(_)
        | Value::Present
        | Value::Bound(_)
        | Value::Number(_) => None,
    }
}

fn number_in(value: Option<Value>) -> Option<i64>
    ensures { result ≡ number_in value }
{
    match value? {
        Value::Number(number) => Some(number),
        Value::Domain(_)
        | Value::Array(_, _)
        | Value::Ranges(_)
        | Value::Mapping(_)
        | Value::Present
        | Value::Bound(_) => None,
    }
}

// The element of an array at an index.
fn element_at(book: &Book, array: &Name, index: &AnyIndex) -> Option<i64>
    ensures { result ≡ element_at book.now.cells array.now index.now }
{
    number_in(book.get(&Cell::Element(*array, *index)))
}

// The elements of an array at the members that are left, in their order.
fn elements_along(
    alloc: Global,
    book: &Book,
    array: &Name,
    members: &mut MemberWalk<'_>,
) -> Result<Vec<i64>, NoMemory>
    ensures { IfOk result (λ v. v.items ≡ elements_at book.now.cells array.now members.old) }
{
    let mut elements = Vec::new(alloc);
    while let Some(index) = members.next() {
        if let Some(element) = element_at(book, array, &index) {
            elements.push(element)?;
        }
    }
    Ok(elements)
}

// The element of an array at the index at a place of a rectangle.
fn element_nth(book: &Book, array: &Name, ranges: &AnyRect, p: usize) -> Option<i64>
    ensures { result ≡ option_and_then (element_at book.now.cells array.now) (slice_get (indices ranges.now) p) }
{
    let index = ranges.nth(p)?;
    element_at(book, array, &index)
}

// The elements of an array at the indices of a rectangle, in their order. No index is listed.
fn elements_over(
    alloc: Global,
    book: &Book,
    array: &Name,
    ranges: &AnyRect,
) -> Result<Vec<i64>, NoMemory>
    ensures { IfOk result (λ v. v.items ≡ elements_at book.now.cells array.now (indices ranges.now)) }
{
    let mut elements = Vec::new(alloc);
    for p in 0..ranges.size() {
        if let Some(element) = element_nth(book, array, ranges, p) {
            elements.push(element)?;
        }
    }
    Ok(elements)
}

// The elements of an array over a rectangular domain, in the order of the domain's indices.
fn elements_over_domain(
    alloc: Global,
    book: &Book,
    array: &Name,
    domain: &Name,
) -> Result<Vec<i64>, NoMemory>
    ensures { IfOk result (λ v. v.items ≡ elements_at book.now.cells array.now (unwrap_or (indices_at book.now.cells domain.now) [])) }
{
    match ranges_at(book, domain) {
        None => Ok(Vec::new(alloc)),
        Some(ranges) => elements_over(alloc, book, array, &ranges),
    }
}

// The elements of an array over a sparse or associative domain, in the order of the domain's indices.
fn elements_at_members(
    alloc: Global,
    book: &Book,
    array: &Name,
    domain: &Name,
) -> Result<Vec<i64>, NoMemory>
    ensures { IfOk result (λ v. v.items ≡ elements_at book.now.cells array.now (members book.now.cells domain.now)) }
{
    elements_along(alloc, book, array, &mut book.members(domain))
}

/// The elements of an array over a domain of the kind, in the order of the domain's indices.
pub(crate) fn elements_of(
    alloc: Global,
    book: &Book,
    array: &Name,
    domain: &Name,
    kind: Kind,
) -> Result<Vec<i64>, NoMemory>
    ensures { IfOk result (λ v. v.items ≡ elements_at book.now.cells array.now (indices_in book.now.cells domain.now kind)) }
{
    match kind {
        Kind::Rectangular(_) => elements_over_domain(alloc, book, array, domain),
        Kind::Sparse(_) => elements_at_members(alloc, book, array, domain),
        Kind::Associative(_) => elements_at_members(alloc, book, array, domain),
    }
}

/// The implicit value of an array over a domain of the kind, where it is written.
pub(crate) fn implicit_in(book: &Book, array: &Name, kind: Kind) -> Option<i64>
    ensures { result ≡ implicit_in book.now.cells array.now kind }
{
    match kind {
        Kind::Rectangular(_) => None,
        Kind::Sparse(_) => number_in(book.get(&Cell::Implicit(*array))),
        Kind::Associative(_) => None,
    }
}
