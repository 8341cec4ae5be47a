//! On which locale an index of a domain lies.

ghost use Rattle.std.specs.Prelude.{◌≡◌};
ghost use Rattle.std.specs.FinMap as map;
ghost use Rattle.wb_cells.specs.Cells.{state_of};
ghost use Rattle.wb_cells.specs.Locales.{mapping_in, locale_by, is_held, locale_held};
ghost use Rattle.wb_cells.specs.declared.cells.cell.Cell.TheVariants.{Mapping};

use crate::book::readers::{domain_at, ranges_at};
use crate::book::store::look;
use crate::book::stored::StoredCells;
use crate::cells::cell::Cell;
use crate::cells::kind::{AnyDomain, DomainKind};
use crate::cells::value::Value;
use crate::values::index::AnyIndex;
use crate::values::layout::AnyLayout;
use crate::values::name::Name;

fn mapping_at(cells: &StoredCells, domain: Name) -> Option<AnyLayout>
    ensures { result ≡ mapping_in (map.get (state_of cells.now) (Mapping domain)) }
{
    match look(cells, Cell::Mapping(domain))? {
        Value::Mapping(mapping) => Some(mapping),
        Value::Domain(_)
        | Value::Array(_, _)
        | Value::Ranges(_)
        | Value::Present
        | Value::Bound(_)
        | Value::Number(_) => None,
    }
}

// The locale of an index by the mapping of a rectangular domain, whether the domain has the index or not.
fn locale_by(cells: &StoredCells, domain: Name, index: &AnyIndex) -> Option<usize>
    ensures { result ≡ locale_by (state_of cells.now) domain index.now }
{
    let mapping = mapping_at(cells, domain)?;
    mapping.locale_of(index)
}

// Whether a domain of a kind has an index: by its ranges if it is rectangular, by its members if not.
fn is_held(cells: &StoredCells, domain: Name, index: &AnyIndex, kind: &AnyDomain) -> bool
    ensures { result ≡ is_held (state_of cells.now) domain index.now kind.now }
{
    match kind.domain_kind() {
        DomainKind::Rectangular(_) => match ranges_at(cells, domain) {
            Some(rect) => rect.contains(index),
            None => false,
        },
        DomainKind::Sparse(_, _) => look(cells, Cell::Member(domain, *index)).is_some(),
        DomainKind::Associative(_) => look(cells, Cell::Member(domain, *index)).is_some(),
    }
}

/// The locale of an index of a domain, which has it by its ranges or its members: no cell `In` is looked at.
pub fn locale_at(cells: &StoredCells, domain: Name, index: &AnyIndex) -> Option<usize>
    ensures { result ≡ locale_held (state_of cells.now) domain index.now }
{
    let kind = domain_at(cells, domain)?;
    if !is_held(cells, domain, index, &kind) {
        return None;
    }
    match kind.domain_kind() {
        DomainKind::Rectangular(_) => locale_by(cells, domain, index),
        DomainKind::Sparse(parent, _) => locale_by(cells, parent, index),
        DomainKind::Associative(_) => Some(0),
    }
}
