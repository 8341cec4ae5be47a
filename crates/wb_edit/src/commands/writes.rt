//! Changes in the making.

ghost use Rattle.std.specs.Prelude.{◌≡◌, ℕ, List, [], ◌∷◌, ◌++◌, true, false, map, slice_get, None, Some, option_map, OnOk, IfErr};
ghost use Rattle.std.specs.Map.{keys_of};
ghost use Rattle.selective_undo.specs.Changes.{changes, AllOnce};
ghost use Rattle.wb_cells.specs.Cells.{cell_cmp};
ghost use Rattle.wb_cells.specs.Readers.{members};
ghost use Rattle.wb_cells.specs.Runs.{cell_of, value_of, changes_in, indexed_change};
ghost use Rattle.wb_cells.specs.Shapes.{indices};
ghost use Rattle.wb_cells.specs.WellFormed.{index_cell};
ghost use Rattle.wb_cells.specs.declared.cells.cell.Cell.{Cell as cell_type};
ghost use Rattle.wb_cells.specs.declared.cells.cell.Cell.TheVariants.{Element, Member};
ghost use Rattle.wb_cells.specs.declared.cells.value.Value.TheVariants.{Number};
ghost use Rattle.wb_cells.specs.declared.values.index.Index.{Index};
ghost use Rattle.wb_range.specs.Domain.{IsListedOnce};
ghost use Rattle.wb_edit.specs.Plans.{indices_in};
ghost use Rattle.wb_edit.specs.Changed.{set_all, AreApart};
ghost use Rattle.wb_edit.specs.Writes.{set_to, put_all};
ghost use Rattle.wb_reshape.specs.Resized.{exchanged, elements_exchanged, resized_cells};
ghost use Rattle.wb_edit.specs.declared.attempt_err.AttemptErr.TheVariants.{NoMemory};

use crate::attempt_err::AttemptErr;
use crate::looks::indices::{Indices, listed_members};
use std::alloc::Global;
use wb_cells::{
    AnyIndex, AnyRect, Cell, Delta, IndexedChange, IndexedRow, Kind, Name, RunForm, Value,
};
use wb_layers::Layered;

/// Adds that a cell, which is not there yet, becomes a value, or absent.
pub(crate) fn change(delta: &mut Delta, cell: Cell, value: Option<Value>) -> Result<(), AttemptErr>
    requires { changes cell_cmp delta.old cell ≡ false }
    ensures ok { OnOk result (delta.new ≡ delta.old ++ record { cell = cell; value = value } ∷ []) }
    ensures only { IfErr result (λ e. e ≡ NoMemory) }
{
    match delta.put(cell, value) {
        Ok(()) => Ok(()),
        Err(_) => Err(AttemptErr::NoMemory),
    }
}

/// Adds that a cell, which is not there yet, gets a value.
pub(crate) fn put(delta: &mut Delta, cell: Cell, value: Value) -> Result<(), AttemptErr>
    requires { changes cell_cmp delta.old cell ≡ false }
    ensures ok { OnOk result (delta.new ≡ delta.old ++ set_to cell value ∷ []) }
    ensures only { IfErr result (λ e. e ≡ NoMemory) }
{
    change(delta, cell, Some(value))
}

/// Adds a change of a cell that has an index and is not there yet.
pub(crate) fn change_indexed(delta: &mut Delta, change: &IndexedChange) -> Result<(), AttemptErr>
    requires { changes cell_cmp delta.old (indexed_change change.now).cell ≡ false }
    ensures ok { OnOk result (delta.new ≡ delta.old ++ indexed_change change.now ∷ []) }
    ensures only { IfErr result (λ e. e ≡ NoMemory) }
{
    match delta.put_indexed(change) {
        Ok(()) => Ok(()),
        Err(_) => Err(AttemptErr::NoMemory),
    }
}

/// The row of the cells that say which indices are in a domain of a kind.
pub(crate) fn membership(kind: &Kind, domain: Name) -> IndexedRow
    ensures { (i : Index) → cell_of result i ≡ index_cell kind.now domain i }
{
    match kind {
        Kind::Rectangular(_) => IndexedRow::Inside(domain),
        Kind::Sparse(_) => IndexedRow::Members(domain),
        Kind::Associative(_) => IndexedRow::Members(domain),
    }
}

// Adds that the cell of an index, which is not there yet, becomes a value, or absent.
fn change_at(
    delta: &mut Delta,
    row: &IndexedRow,
    index: AnyIndex,
    value: &Option<Value>,
) -> Result<(), AttemptErr>
    requires { changes cell_cmp delta.old (cell_of row.now index) ≡ false }
    ensures ok { OnOk result (delta.new ≡ delta.old ++ record { cell = cell_of row.now index; value = value.now } ∷ []) }
    ensures only { IfErr result (λ e. e ≡ NoMemory) }
{
    match row.number(value) {
        Some(number) => change_indexed(
            delta,
            &IndexedChange {
                row: *row,
                index,
                number,
            },
        ),
        None => change(delta, row.cell(index), *value),
    }
}

// Adds that the cells of a row at every index of a rectangle, none of which is there yet, become what a number stands for, or
// absent. However many there are, they take the room of their ranges.
fn become_rectangle(
    delta: &mut Delta,
    row: &IndexedRow,
    ranges: &AnyRect,
    number: Option<i64>,
) -> Result<(), AttemptErr>
    requires { (i : Index) → changes cell_cmp delta.old (cell_of row.now i) ≡ false }
    ensures ok { OnOk result (delta.new ≡ delta.old ++ set_all (map (cell_of row.now) (indices ranges.now)) (option_map (value_of row.now) number)) }
    ensures only { IfErr result (λ e. e ≡ NoMemory) }
{
    match delta.put_rectangle(row, ranges, number) {
        Ok(()) => Ok(()),
        Err(_) => Err(AttemptErr::NoMemory),
    }
}

// Adds that the cell of each index, none of which is there yet, becomes a value, or absent, one after another.
fn become_each(
    delta: &mut Delta,
    row: &IndexedRow,
    ranges: &AnyRect,
    value: &Option<Value>,
) -> Result<(), AttemptErr>
    requires { (i : Index) → changes cell_cmp delta.old (cell_of row.now i) ≡ false }
    ensures ok { OnOk result (delta.new ≡ delta.old ++ set_all (map (cell_of row.now) (indices ranges.now)) value.now) }
    ensures only { IfErr result (λ e. e ≡ NoMemory) }
{
    for p in 0..ranges.size() {
        match ranges.nth(p) {
            Some(index) => {
                change_at(delta, row, index, value)?;
            }
            None => {}
        }
    }
    Ok(())
}

/// Adds that the cell of each index, none of which is there yet, becomes a value, or absent: by the ranges where the value may
/// stand in these cells.
fn become_all(
    delta: &mut Delta,
    row: &IndexedRow,
    ranges: &AnyRect,
    value: &Option<Value>,
) -> Result<(), AttemptErr>
    requires { (i : Index) → changes cell_cmp delta.old (cell_of row.now i) ≡ false }
    ensures ok { OnOk result (delta.new ≡ delta.old ++ set_all (map (cell_of row.now) (indices ranges.now)) value.now) }
    ensures only { IfErr result (λ e. e ≡ NoMemory) }
{
    match row.number(value) {
        Some(number) => become_rectangle(delta, row, ranges, number),
        None => become_each(delta, row, ranges, value),
    }
}

/// Adds that the cell of each index, none of which is there yet, gets a value.
pub(crate) fn put_all(
    delta: &mut Delta,
    row: &IndexedRow,
    ranges: &AnyRect,
    value: &Value,
) -> Result<(), AttemptErr>
    requires { (i : Index) → changes cell_cmp delta.old (cell_of row.now i) ≡ false }
    ensures ok { OnOk result (delta.new ≡ delta.old ++ put_all (map (cell_of row.now) (indices ranges.now)) value.now) }
    ensures only { IfErr result (λ e. e ≡ NoMemory) }
{
    become_all(delta, row, ranges, &Some(*value))
}

/// The domain of a name, with its kind.
#[derive(Clone, Copy)]
pub(crate) struct NamedDomain {
    pub name: Name,
    pub kind: Kind,
}

fn nth(listed: &[AnyIndex], p: usize) -> Option<AnyIndex>
    ensures { result ≡ slice_get listed.now p }
{
    listed.get(p).copied()
}

/// Adds that the cell of each of some indices, each of them once and none there yet, becomes a value, or absent.
fn become_listed(
    delta: &mut Delta,
    row: &IndexedRow,
    listed: &[AnyIndex],
    value: &Option<Value>,
) -> Result<(), AttemptErr>
    requires once { IsListedOnce listed.now }
    requires new { (p : ℕ) (i : Index) → slice_get listed.now p ≡ Some i → changes cell_cmp delta.old (cell_of row.now i) ≡ false }
    ensures ok { OnOk result (delta.new ≡ delta.old ++ set_all (map (cell_of row.now) listed.now) value.now) }
    ensures only { IfErr result (λ e. e ≡ NoMemory) }
{
    for p in 0..listed.len() {
        match nth(listed, p) {
            Some(index) => {
                change_at(delta, row, index, value)?;
            }
            None => {}
        }
    }
    Ok(())
}

// Adds the changes of a run, each of a cell that is not there yet and each cell once.
fn add_run(delta: &mut Delta, form: RunForm) -> Result<(), AttemptErr>
    requires once { AllOnce cell_cmp (changes_in form) }
    requires new { (c : cell_type) → changes cell_cmp (changes_in form) c ≡ true → changes cell_cmp delta.old c ≡ false }
    ensures ok { OnOk result (delta.new ≡ delta.old ++ changes_in form) }
    ensures only { IfErr result (λ e. e ≡ NoMemory) }
{
    match delta.put_run(form) {
        Ok(()) => Ok(()),
        Err(_) => Err(AttemptErr::NoMemory),
    }
}

// Adds that the cells of all members of a domain, none of which is there yet, become absent, one by one.
fn clear_each_member(
    alloc: Global,
    book: &Layered<'_>,
    delta: &mut Delta,
    domain: Name,
) -> Result<(), AttemptErr>
    requires { (i : Index) → changes cell_cmp delta.old (Member domain i) ≡ false }
    ensures ok { OnOk result (delta.new ≡ delta.old ++ set_all (map (Member domain) (members book.now.cells domain)) None) }
    ensures only { IfErr result (λ e. e ≡ NoMemory) }
{
    match listed_members(alloc, book, domain) {
        Ok(listed) => become_listed(delta, &IndexedRow::Members(domain), &listed, &None),
        Err(_) => Err(AttemptErr::NoMemory),
    }
}

/// Adds that the cells of all members of a domain, none of which is there yet, become absent: as one run, where there is one.
pub(crate) fn clear_members(
    alloc: Global,
    book: &Layered<'_>,
    delta: &mut Delta,
    domain: Name,
) -> Result<(), AttemptErr>
    requires { (i : Index) → changes cell_cmp delta.old (Member domain i) ≡ false }
    ensures ok { OnOk result (delta.new ≡ delta.old ++ set_all (map (Member domain) (members book.now.cells domain)) None) }
    ensures only { IfErr result (λ e. e ≡ NoMemory) }
{
    match book.clearing_run(alloc, &domain) {
        Ok(Some(form)) => add_run(delta, form),
        Ok(None) => clear_each_member(alloc, book, delta, domain),
        Err(_) => Err(AttemptErr::NoMemory),
    }
}

/// Adds that the cell of each of some indices, each of them once and none there yet, gets a value.
fn put_listed(
    delta: &mut Delta,
    row: &IndexedRow,
    listed: &[AnyIndex],
    value: &Value,
) -> Result<(), AttemptErr>
    requires once { IsListedOnce listed.now }
    requires new { (p : ℕ) (i : Index) → slice_get listed.now p ≡ Some i → changes cell_cmp delta.old (cell_of row.now i) ≡ false }
    ensures ok { OnOk result (delta.new ≡ delta.old ++ put_all (map (cell_of row.now) listed.now) value.now) }
    ensures only { IfErr result (λ e. e ≡ NoMemory) }
{
    become_listed(delta, row, listed, &Some(*value))
}

/// Adds that of the cells of indices, none of which is there yet, those of the indices that leave become absent, and those of the
/// indices that come get a value.
pub(crate) fn exchange(
    delta: &mut Delta,
    row: &IndexedRow,
    leaving: &[AnyIndex],
    coming: &[AnyIndex],
    value: &Value,
) -> Result<(), AttemptErr>
    requires leaving { IsListedOnce leaving.now }
    requires coming { IsListedOnce coming.now }
    requires apart { AreApart leaving.now coming.now }
    requires new { (i : Index) → changes cell_cmp delta.old (cell_of row.now i) ≡ false }
    ensures ok { OnOk result (delta.new ≡ delta.old ++ exchanged (cell_of row.now) leaving.now coming.now value.now) }
    ensures only { IfErr result (λ e. e ≡ NoMemory) }
{
    become_listed(delta, row, leaving, &None)?;
    put_listed(delta, row, coming, value)
}

// The number beside an array.
fn number_of(fill: &(Name, i64)) -> Value
    ensures { result ≡ Number fill.now.1 }
{
    Value::Number(fill.1)
}

/// Adds that the elements of arrays, none of which is there yet, become absent at the indices that leave, and get the number
/// beside their array at those that come.
fn exchange_elements(
    delta: &mut Delta,
    fills: &[(Name, i64)],
    leaving: &[AnyIndex],
    coming: &[AnyIndex],
) -> Result<(), AttemptErr>
    // Each array and each index is listed once, and none both leaves and comes.
    requires once { IsListedOnce (keys_of fills.now) }
    requires leaving { IsListedOnce leaving.now }
    requires coming { IsListedOnce coming.now }
    requires apart { AreApart leaving.now coming.now }

    // No element is changed yet.
    requires new { (a : List ℕ) (i : Index) → changes cell_cmp delta.old (Element a i) ≡ false }

    // The changes are added, or memory ran out.
    ensures ok { OnOk result (delta.new ≡ delta.old ++ elements_exchanged fills.now leaving.now coming.now) }
    ensures only { IfErr result (λ e. e ≡ NoMemory) }
{
    for fill in fills {
        exchange(
            delta,
            &IndexedRow::Elements(fill.0),
            leaving,
            coming,
            &number_of(fill),
        )?;
    }
    Ok(())
}

/// Adds that indices leave a domain of a kind and others come to it, and so do the elements of the arrays over it.
pub(crate) fn resize(
    delta: &mut Delta,
    domain: &NamedDomain,
    fills: &[(Name, i64)],
    leaving: &[AnyIndex],
    coming: &[AnyIndex],
) -> Result<(), AttemptErr>
    // Each array and each index is listed once, and none both leaves and comes.
    requires once { IsListedOnce (keys_of fills.now) }
    requires leaving { IsListedOnce leaving.now }
    requires coming { IsListedOnce coming.now }
    requires apart { AreApart leaving.now coming.now }

    // No index of the domain and no element is changed yet.
    requires members { (i : Index) → changes cell_cmp delta.old (index_cell domain.now.kind domain.now.name i) ≡ false }
    requires elements { (a : List ℕ) (i : Index) → changes cell_cmp delta.old (Element a i) ≡ false }

    // The changes are added, or memory ran out.
    ensures ok { OnOk result (delta.new ≡ delta.old ++ resized_cells domain.now.kind domain.now.name fills.now leaving.now coming.now) }
    ensures only { IfErr result (λ e. e ≡ NoMemory) }
{
    exchange(
        delta,
        &membership(&domain.kind, domain.name),
        leaving,
        coming,
        &Value::Present,
    )?;
    exchange_elements(delta, fills, leaving, coming)
}

/// Adds that the cell of each index that was found, none of which is there yet, becomes a value, or absent.
pub(crate) fn become_found(
    delta: &mut Delta,
    row: &IndexedRow,
    found: &Indices,
    value: &Option<Value>,
) -> Result<(), AttemptErr>
    requires once { IsListedOnce (indices_in found.now) }
    requires new { (i : Index) → changes cell_cmp delta.old (cell_of row.now i) ≡ false }
    ensures ok { OnOk result (delta.new ≡ delta.old ++ set_all (map (cell_of row.now) (indices_in found.now)) value.now) }
    ensures only { IfErr result (λ e. e ≡ NoMemory) }
{
    match found {
        Indices::Product(ranges) => become_all(delta, row, ranges, value),
        Indices::Listed(listed) => become_listed(delta, row, listed, value),
    }
}

/// Adds that the cell of each index that was found, none of which is there yet, gets a value.
pub(crate) fn put_found(
    delta: &mut Delta,
    row: &IndexedRow,
    found: &Indices,
    value: &Value,
) -> Result<(), AttemptErr>
    requires once { IsListedOnce (indices_in found.now) }
    requires new { (i : Index) → changes cell_cmp delta.old (cell_of row.now i) ≡ false }
    ensures ok { OnOk result (delta.new ≡ delta.old ++ put_all (map (cell_of row.now) (indices_in found.now)) value.now) }
    ensures only { IfErr result (λ e. e ≡ NoMemory) }
{
    become_found(delta, row, found, &Some(*value))
}
