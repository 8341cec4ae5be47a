//! The stored cells that a line tells of.
ghost use Rattle.std.specs.Prelude.{◌≡◌, ◌==◌, [], Some, unwrap_or, length, map, is_some, true, IfOk, IfSome};
ghost use Rattle.std.specs.List.{list_all};
ghost use Rattle.wb_cells.specs.Cells.{state_of};
ghost use Rattle.wb_cells.specs.Kinds.{is_key};
ghost use Rattle.wb_cells.specs.Layouts.{is_of_rank};
ghost use Rattle.wb_cells.specs.declared.cells.kind.Kind.TheVariants.{Associative as over_associative};
ghost use Rattle.wb_literals.specs.Said.{items};
ghost use Rattle.wb_literals.specs.Limits.Literals.{listed_in};
ghost use Rattle.wb_text.specs.Said.{first_line_of, line_of};
ghost use Rattle.wb_text.specs.FromLines.Found.{Finds};
ghost use Rattle.wb_text.specs.FromLines.Inserted.{inserted};
ghost use Rattle.wb_text.specs.FromLines.Told.{ranges_told, rank_told, kind_told, indices_told, implicit_told, is_domain, are_within, is_sound};
ghost use Rattle.wb_text.specs.FromLines.Told.{rectangular_stored, sparse_cells, associative_cells, array_stored, stored_told};

use crate::ObjectLine;
use crate::number_list::NumberList;
use crate::workbook::finding::find;
use crate::workbook::putting::{index_at, points_of, put, put_members};
use std::alloc::{AllocError, Global};
use std::collections::BTreeMap;
use wb_cells::{
    AnyDomain, AnyIndex, AnyLayout, AnyRect, Binding, Cell, DomainKind, KeyType, Kind, Name,
    StoredCells, Value,
};
use wb_literals::SetLiteral;
use wb_literals::limits::listed_in;
use wb_range::NoMemory;

// ---- what a line tells of a domain to those that are bound to it

// The ranges of the rectangular domain of a name.
fn ranges_of(lines: &[ObjectLine], places: &BTreeMap<Name, usize>, name: &Name) -> Option<AnyRect>
    requires { Finds places.now (map line_of lines.now) (map line_of lines.now) }
    ensures { result ≡ ranges_told (first_line_of name.now (map line_of lines.now)) }
{
    match find(lines, places, name)? {
        ObjectLine::Rectangular(_, ranges, _) => Some(*ranges),
        ObjectLine::Sparse(_, _, _) => None,
        ObjectLine::Associative(_, _, _) => None,
        ObjectLine::Array(_, _, _, _) => None,
    }
}

// How many dimensions the rectangular domain of a name has; 0 where there is none.
fn rank_of(lines: &[ObjectLine], places: &BTreeMap<Name, usize>, name: &Name) -> u8
    requires { Finds places.now (map line_of lines.now) (map line_of lines.now) }
    ensures { result ≡ rank_told (first_line_of name.now (map line_of lines.now)) }
{
    match ranges_of(lines, places, name) {
        Some(ranges) => ranges.rank(),
        None => 0,
    }
}

// The kind of the domain of a name.
fn kind_of(lines: &[ObjectLine], places: &BTreeMap<Name, usize>, name: &Name) -> Option<Kind>
    requires { Finds places.now (map line_of lines.now) (map line_of lines.now) }
    ensures domain { is_some result ≡ is_domain (first_line_of name.now (map line_of lines.now)) }
    ensures kind { IfSome result (λ k. k ≡ kind_told (map line_of lines.now) (first_line_of name.now (map line_of lines.now))) }
{
    match find(lines, places, name)? {
        ObjectLine::Rectangular(_, ranges, _) => Some(Kind::Rectangular(ranges.rank())),
        ObjectLine::Sparse(_, parent, _) => Some(Kind::Sparse(rank_of(lines, places, parent))),
        ObjectLine::Associative(_, key, _) => Some(Kind::Associative(*key)),
        ObjectLine::Array(_, _, _, _) => None,
    }
}

// How many indices the domain of a name has; 0 where it is of no domain.
fn count_of(lines: &[ObjectLine], places: &BTreeMap<Name, usize>, name: &Name) -> usize
    requires { Finds places.now (map line_of lines.now) (map line_of lines.now) }
    ensures { result ≡ length (indices_told (first_line_of name.now (map line_of lines.now))) }
{
    match find(lines, places, name) {
        Some(ObjectLine::Rectangular(_, ranges, _)) => ranges.size(),
        Some(ObjectLine::Sparse(_, _, set)) => set.len(),
        Some(ObjectLine::Associative(_, _, set)) => set.len(),
        Some(ObjectLine::Array(_, _, _, _)) => 0,
        None => 0,
    }
}

/// The indices of the domain of a name, in its order; none where it is of no domain.
pub fn indices_of(
    alloc: Global,
    lines: &[ObjectLine],
    places: &BTreeMap<Name, usize>,
    name: &Name,
) -> Result<Vec<AnyIndex>, AllocError>
    requires { Finds places.now (map line_of lines.now) (map line_of lines.now) }
    ensures { IfOk result (λ v. v.items ≡ indices_told (first_line_of name.now (map line_of lines.now))) }
{
    match find(lines, places, name) {
        Some(ObjectLine::Rectangular(_, ranges, _)) => points_of(alloc, ranges),
        Some(ObjectLine::Sparse(_, _, set)) => listed_in(alloc, set),
        Some(ObjectLine::Associative(_, _, set)) => listed_in(alloc, set),
        Some(ObjectLine::Array(_, _, _, _)) => Ok(Vec::new(alloc)),
        None => Ok(Vec::new(alloc)),
    }
}

// ---- tests of indices

// Whether each index of the set is in the rectangle.
fn are_within(ranges: &AnyRect, set: &SetLiteral) -> bool
    ensures { result ≡ are_within (Some ranges.now) (listed_in (items set.now)) }
{
    for place in 0..set.len() {
        let index = index_at(set, place);
        if !ranges.contains(&index) {
            return false;
        }
    }
    true
}

// Whether each index of the set is of the type.
fn are_keys(key: KeyType, set: &SetLiteral) -> bool
    ensures { result ≡ list_all (is_key (over_associative key)) (listed_in (items set.now)) }
{
    let kind = Kind::Associative(key);
    for place in 0..set.len() {
        let index = index_at(set, place);
        if !kind.is_key(&index.index()) {
            return false;
        }
    }
    true
}

// ---- the cells

// Puts in what is stored of what the line of a rectangular domain tells of. `false` where the mapping isn't for its rank.
fn put_rectangular(
    cells: &mut StoredCells,
    domain: Name,
    ranges: &AnyRect,
    mapping: &AnyLayout,
) -> Result<bool, NoMemory>
    ensures sound { IfOk result (λ b. b ≡ is_of_rank (length ranges.now) mapping.now) }
    ensures cells { IfOk result (λ b. b ≡ true →
        state_of cells.new ≡ inserted (rectangular_stored domain ranges.now mapping.now) (state_of cells.old)) }
{
    let rank = ranges.rank();
    if !mapping.is_of_rank(rank) {
        return Ok(false);
    }
    let kind = AnyDomain::new(DomainKind::Rectangular(rank));
    put(cells, Cell::Object(domain), Value::Domain(kind))?;
    put(cells, Cell::Shape(domain), Value::Ranges(*ranges))?;
    put(cells, Cell::Mapping(domain), Value::Mapping(*mapping))?;
    Ok(true)
}

// Puts in what the line of a sparse domain tells of. `false` where its parent, which has these ranges, is no rectangular
// domain or has not each of the indices.
fn put_sparse(
    cells: &mut StoredCells,
    domain: Name,
    parent: Name,
    ranges: Option<AnyRect>,
    set: &SetLiteral,
) -> Result<bool, NoMemory>
    ensures sound { IfOk result (λ b. b ≡ are_within ranges (listed_in (items set.now))) }
    ensures cells { IfOk result (λ b. b ≡ true →
        state_of cells.new ≡ inserted (sparse_cells domain parent (length (unwrap_or ranges [])) (listed_in (items set.now))) (state_of cells.old)) }
{
    let Some(ranges) = ranges else {
        return Ok(false);
    };
    if !are_within(&ranges, set) {
        return Ok(false);
    }
    let rank = ranges.rank();
    let kind = AnyDomain::new(DomainKind::Sparse(parent, rank));
    put(cells, Cell::Object(domain), Value::Domain(kind))?;
    put(
        cells,
        Cell::Use(parent, domain),
        Value::Bound(Binding::Sparse),
    )?;
    put_members(cells, Kind::Sparse(rank), domain, set)?;
    Ok(true)
}

// Puts in what the line of an associative domain tells of. `false` where an index is of another type.
fn put_associative(
    cells: &mut StoredCells,
    domain: Name,
    key: KeyType,
    set: &SetLiteral,
) -> Result<bool, NoMemory>
    ensures sound { IfOk result (λ b. b ≡ list_all (is_key (over_associative key)) (listed_in (items set.now))) }
    ensures cells { IfOk result (λ b. b ≡ true →
        state_of cells.new ≡ inserted (associative_cells domain key (listed_in (items set.now))) (state_of cells.old)) }
{
    if !are_keys(key, set) {
        return Ok(false);
    }
    let kind = AnyDomain::new(DomainKind::Associative(key));
    put(cells, Cell::Object(domain), Value::Domain(kind))?;
    put_members(cells, Kind::Associative(key), domain, set)?;
    Ok(true)
}

// The implicit value of an array over a domain of the kind: 0 unless that is sparse, and where none is written.
fn implicit_of(kind: Kind, implicit: Option<i64>) -> i64
    ensures { result ≡ implicit_told kind implicit }
{
    match kind {
        Kind::Rectangular(_) => 0,
        Kind::Sparse(_) => implicit.unwrap_or(0),
        Kind::Associative(_) => 0,
    }
}

// Puts in what is stored of what the line of an array tells of, the domain being of the kind and having so many indices.
// `false` where there are not as many elements.
fn put_array(
    cells: &mut StoredCells,
    array: Name,
    domain: Name,
    kind: Kind,
    count: usize,
    elements: &NumberList,
    implicit: Option<i64>,
) -> Result<bool, NoMemory>
    ensures sound { IfOk result (λ b. b ≡ (count == length elements.now)) }
    ensures cells { IfOk result (λ b. b ≡ true →
        state_of cells.new ≡ inserted (array_stored array domain kind implicit) (state_of cells.old)) }
{
    if count != elements.len() {
        return Ok(false);
    }
    let value = implicit_of(kind, implicit);
    put(cells, Cell::Object(array), Value::Array(domain, kind))?;
    put(
        cells,
        Cell::Use(domain, array),
        Value::Bound(Binding::Array),
    )?;
    put(cells, Cell::Implicit(array), Value::Number(value))?;
    Ok(true)
}

/// Puts in the stored cells that a line tells of. `false` where it is not sound, and then the cells are of no use.
pub fn put_stored(
    cells: &mut StoredCells,
    lines: &[ObjectLine],
    places: &BTreeMap<Name, usize>,
    line: &ObjectLine,
) -> Result<bool, NoMemory>
    requires { Finds places.now (map line_of lines.now) (map line_of lines.now) }
    ensures sound { IfOk result (λ b. b ≡ is_sound (map line_of lines.now) (line_of line.now)) }
    ensures cells { IfOk result (λ b. b ≡ true →
        state_of cells.new ≡ inserted (stored_told (map line_of lines.now) (line_of line.now)) (state_of cells.old)) }
{
    match line {
        ObjectLine::Rectangular(domain, ranges, mapping) => {
            put_rectangular(cells, *domain, ranges, mapping)
        }
        ObjectLine::Sparse(domain, parent, set) => {
            let ranges = ranges_of(lines, places, parent);
            put_sparse(cells, *domain, *parent, ranges, set)
        }
        ObjectLine::Associative(domain, key, set) => put_associative(cells, *domain, *key, set),
        ObjectLine::Array(array, domain, elements, implicit) => {
            let Some(kind) = kind_of(lines, places, domain) else {
                return Ok(false);
            };
            let count = count_of(lines, places, domain);
            put_array(cells, *array, *domain, kind, count, elements, *implicit)
        }
    }
}
