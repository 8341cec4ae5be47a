//! The element of an array, or its implicit value.

ghost use Rattle.std.specs.Prelude.{◌≡◌};
ghost use Rattle.wb_edit.specs.Implicit.{has_implicit, parent_in, parent_of, is_in_domain, implicit_value, implicit_inside, implicit_at, implicit, or_implicit};
ghost use Rattle.wb_edit.specs.Implicit.{element_or_implicit};
ghost use Rattle.wb_edit.specs.Plans.{Looks};

use crate::attempt_err::{AttemptErr, or_refused};
use crate::footprint::FootprintBuilder;
use crate::looks::judgements::is_there;
use crate::looks::numbers::element_or_refusal;
use crate::looks::one_cell::read;
use wb_cells::{AnyIndex, Cell, DomainKind, Kind, Name, Value, WhyRefused};
use wb_layers::Layered;

/// That an array over a domain of this kind has an implicit value of its own; `OutOfDomain` where it has none.
pub fn has_implicit(kind: &Kind) -> Result<(), WhyRefused>
    ensures { result ≡ has_implicit kind.now }
{
    match kind {
        Kind::Rectangular(_) => Err(WhyRefused::OutOfDomain),
        Kind::Sparse(_) => Ok(()),
        Kind::Associative(_) => Err(WhyRefused::OutOfDomain),
    }
}

/// The parent of the sparse domain whose object is given; `OutOfDomain` where it is none.
pub fn parent_in(object: Option<Value>) -> Result<Name, WhyRefused>
    ensures { result ≡ parent_in object }
{
    match object {
        None => Err(WhyRefused::OutOfDomain),
        Some(value) => match value {
            Value::Domain(kind) => match kind.domain_kind() {
                DomainKind::Sparse(parent, _) => Ok(parent),
                DomainKind::Rectangular(_) => Err(WhyRefused::OutOfDomain),
                DomainKind::Associative(_) => Err(WhyRefused::OutOfDomain),
            },
            Value::Array(_, _) => Err(WhyRefused::OutOfDomain),
            Value::Ranges(_) => Err(WhyRefused::OutOfDomain),
            Value::Mapping(_) => Err(WhyRefused::OutOfDomain),
            Value::Present => Err(WhyRefused::OutOfDomain),
            Value::Bound(_) => Err(WhyRefused::OutOfDomain),
            Value::Number(_) => Err(WhyRefused::OutOfDomain),
        },
    }
}

// The array of a name over the domain of another one, which is of a kind.
#[derive(Clone, Copy)]
pub(crate) struct ArrayRef {
    pub array: Name,
    pub domain: Name,
    pub kind: Kind,
}

/// The parent of a sparse domain.
pub(crate) fn parent_of(
    book: &Layered<'_>,
    footprint: &mut FootprintBuilder,
    domain: Name,
) -> Result<Name, AttemptErr>
    ensures { Looks (parent_of domain) book.now.cells footprint.old result footprint.new }
{
    let object = read(book, footprint, &Cell::Object(domain))?;
    or_refused(parent_in(object))
}

/// That an index is in a rectangular domain.
fn is_in_domain(
    book: &Layered<'_>,
    footprint: &mut FootprintBuilder,
    domain: Name,
    index: AnyIndex,
) -> Result<(), AttemptErr>
    ensures { Looks (is_in_domain domain index) book.now.cells footprint.old result footprint.new }
{
    let present = read(book, footprint, &Cell::In(domain, index))?;
    or_refused(is_there(present))
}

/// The implicit value of an array.
fn implicit_value(
    book: &Layered<'_>,
    footprint: &mut FootprintBuilder,
    array: Name,
) -> Result<i64, AttemptErr>
    ensures { Looks (implicit_value array) book.now.cells footprint.old result footprint.new }
{
    let value = read(book, footprint, &Cell::Implicit(array))?;
    or_refused(element_or_refusal(value))
}

fn implicit_inside(
    book: &Layered<'_>,
    footprint: &mut FootprintBuilder,
    array: Name,
    parent: Name,
    index: AnyIndex,
) -> Result<i64, AttemptErr>
    ensures { Looks (implicit_inside array parent index) book.now.cells footprint.old result footprint.new }
{
    is_in_domain(book, footprint, parent, index)?;
    implicit_value(book, footprint, array)
}

fn implicit_at(
    book: &Layered<'_>,
    footprint: &mut FootprintBuilder,
    array: Name,
    domain: Name,
    index: AnyIndex,
) -> Result<i64, AttemptErr>
    ensures { Looks (implicit_at array domain index) book.now.cells footprint.old result footprint.new }
{
    let parent = parent_of(book, footprint, domain)?;
    implicit_inside(book, footprint, array, parent, index)
}

/// The implicit value at an index of the parent.
fn implicit(
    book: &Layered<'_>,
    footprint: &mut FootprintBuilder,
    source: &ArrayRef,
    index: AnyIndex,
) -> Result<i64, AttemptErr>
    ensures { Looks (implicit source.now.array source.now.domain source.now.kind index) book.now.cells footprint.old result footprint.new }
{
    or_refused(has_implicit(&source.kind))?;
    implicit_at(book, footprint, source.array, source.domain, index)
}

fn or_implicit(
    book: &Layered<'_>,
    footprint: &mut FootprintBuilder,
    source: &ArrayRef,
    index: AnyIndex,
    element: Option<Value>,
) -> Result<i64, AttemptErr>
    ensures { Looks (or_implicit source.now.array source.now.domain source.now.kind index element) book.now.cells footprint.old result footprint.new }
{
    match element {
        Some(value) => or_refused(element_or_refusal(Some(value))),
        None => implicit(book, footprint, source, index),
    }
}

/// The element at an index, or the implicit value.
pub(crate) fn element_or_implicit(
    book: &Layered<'_>,
    footprint: &mut FootprintBuilder,
    source: &ArrayRef,
    index: AnyIndex,
) -> Result<i64, AttemptErr>
    ensures { Looks (element_or_implicit source.now.array source.now.domain source.now.kind index) book.now.cells footprint.old result footprint.new }
{
    let element = read(book, footprint, &Cell::Element(source.array, index))?;
    or_implicit(book, footprint, source, index, element)
}
