//! The lines of a workbook's objects, by what stands in the book.
ghost use Rattle.std.specs.Prelude.{◌≡◌, ◌++◌, Some, OnOk, string_bytes};
ghost use Rattle.wb_cells.specs.declared.cells.kind.DomainKind.TheVariants.{Rectangular};
ghost use Rattle.wb_text.specs.Lines.{members, indices_in, elements_at, implicit_in, sparse_line, associative_line, array_line, domain_line, text_of_object};
ghost use Rattle.wb_text.specs.Lines.{object_line};

use crate::books::{elements_of, implicit_in, mapping_at, ranges_at};
use std::alloc::Global;
use wb_book::Book;
use wb_cells::{AnyLayout, Cell, DomainKind, KeyType, Kind, Name, Value};
use wb_range::NoMemory;
use wb_text::lines::{
    push_array_line, push_associative_line, push_rectangular_line, push_sparse_line,
};

// The line of a rectangular domain of the book.
fn push_rectangular(
    alloc: Global,
    out: &mut String,
    book: &Book,
    domain: &Name,
    rank: u8,
) -> Result<(), NoMemory>
    ensures { OnOk result (string_bytes out.new ≡ string_bytes out.old ++ domain_line book.now.cells domain.now (Rectangular rank)) }
{
    let ranges = ranges_at(book, domain);
    let layout = mapping_at(book, domain).unwrap_or(AnyLayout::whole());
    push_rectangular_line(alloc, out, domain, &ranges, &layout)?;
    Ok(())
}

// The line of a sparse domain of the book.
fn push_sparse(out: &mut String, book: &Book, domain: &Name, parent: &Name) -> Result<(), NoMemory>
    ensures { OnOk result (string_bytes out.new ≡ string_bytes out.old ++ sparse_line domain.now parent.now (members book.now.cells domain.now)) }
{
    let mut members = book.members(domain);
    push_sparse_line(out, domain, parent, &mut members)?;
    Ok(())
}

// The line of an associative domain of the book.
fn push_associative(
    out: &mut String,
    book: &Book,
    domain: &Name,
    key: KeyType,
) -> Result<(), NoMemory>
    ensures { OnOk result (string_bytes out.new ≡ string_bytes out.old ++ associative_line domain.now key (members book.now.cells domain.now)) }
{
    let mut members = book.members(domain);
    push_associative_line(out, domain, key, &mut members)?;
    Ok(())
}

// The line of a domain of the book, of the kind.
fn push_domain(
    alloc: Global,
    out: &mut String,
    book: &Book,
    domain: &Name,
    kind: DomainKind,
) -> Result<(), NoMemory>
    ensures { OnOk result (string_bytes out.new ≡ string_bytes out.old ++ domain_line book.now.cells domain.now kind) }
{
    match kind {
        DomainKind::Rectangular(rank) => push_rectangular(alloc, out, book, domain, rank),
        DomainKind::Sparse(parent, _) => push_sparse(out, book, domain, &parent),
        DomainKind::Associative(key) => push_associative(out, book, domain, key),
    }
}

// The line of an array of the book, over a domain of the kind.
fn push_array(
    alloc: Global,
    out: &mut String,
    book: &Book,
    array: &Name,
    domain: &Name,
    kind: Kind,
) -> Result<(), NoMemory>
    ensures { OnOk result (string_bytes out.new ≡ string_bytes out.old ++ array_line array.now domain.now
        (elements_at book.now.cells array.now (indices_in book.now.cells domain.now kind)) (implicit_in book.now.cells array.now kind)) }
{
    let kept = &kind;
    let elements = elements_of(alloc, book, array, domain, *kept)?;
    let implicit = implicit_in(book, array, *kept);
    push_array_line(out, array, domain, &elements, implicit)?;
    Ok(())
}

// The line of the object of a name, of which this stands in the book.
fn push_value(
    alloc: Global,
    out: &mut String,
    book: &Book,
    name: &Name,
    value: Value,
) -> Result<(), NoMemory>
    ensures { OnOk result (string_bytes out.new ≡ string_bytes out.old ++ text_of_object book.now.cells name.now (Some value)) }
{
    match value {
        Value::Domain(domain) => push_domain(alloc, out, book, name, domain.domain_kind()),
        Value::Array(domain, kind) => push_array(alloc, out, book, name, &domain, kind),
        Value::Ranges(_)
        | Value::Mapping(_)
        | Value::Present
        | Value::Bound(_)
        | Value::Number(_) => Ok(()),
    }
}

/// The line of the object of a name.
pub(crate) fn push_object(
    alloc: Global,
    out: &mut String,
    book: &Book,
    name: &Name,
) -> Result<(), NoMemory>
    ensures { OnOk result (string_bytes out.new ≡ string_bytes out.old ++ object_line book.now.cells name.now) }
{
    match book.get(&Cell::Object(*name)) {
        None => Ok(()),
        Some(value) => push_value(alloc, out, book, name, value),
    }
}
