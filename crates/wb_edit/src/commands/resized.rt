//! Indices that leave a sparse or associative domain, and others that come to it.

ghost use Rattle.std.specs.Prelude.{◌≡◌, ℕ, List, [], true, map};
ghost use Rattle.std.specs.Map.{keys_of};
ghost use Rattle.selective_undo.specs.Edit.{write};
ghost use Rattle.wb_range.specs.Domain.{IsListedOnce};
ghost use Rattle.wb_cells.specs.declared.cells.cell.Cell.TheVariants.{Member};
ghost use Rattle.wb_cells.specs.declared.values.index.Index.{Index};
ghost use Rattle.wb_cells.specs.Kinds.{kind_of};
ghost use Rattle.wb_cells.specs.Readers.{members};
ghost use Rattle.wb_cells.specs.WellFormed.{index_cell};
ghost use Rattle.wb_edit.specs.Changed.{AreApart};
ghost use Rattle.wb_edit.specs.Commands.{resized};
ghost use Rattle.wb_edit.specs.Plans.{Attempts, Makes};
ghost use Rattle.wb_edit.specs.Resizing.{fills};
ghost use Rattle.wb_edit.specs.Writes.{clear_all};
ghost use Rattle.wb_reshape.specs.Resized.{resized_cells};

use crate::attempt_err::AttemptErr;
use crate::commands::writes::{NamedDomain, clear_members, resize};
use crate::footprint::FootprintBuilder;
use crate::looks::indices::listed_members;
use crate::looks::resizing::{all_in_parent, fills};
use std::alloc::Global;
use wb_cells::{AnyDomain, AnyIndex, Delta, DomainKind, Name};
use wb_layers::Layered;

/// Indices leave a sparse or associative domain and others come to it.
pub(crate) fn plan_resized(
    alloc: Global,
    book: &Layered<'_>,
    footprint: &mut FootprintBuilder,
    domain: Name,
    kind: &AnyDomain,
    new: &[AnyIndex],
    leaving: &[AnyIndex],
    coming: &[AnyIndex],
) -> Result<Delta, AttemptErr>
    requires leaving { IsListedOnce leaving.now }
    requires coming { IsListedOnce coming.now }
    requires apart { AreApart leaving.now coming.now }
    ensures { Attempts (resized domain kind.now new.now leaving.now coming.now) book.now.cells footprint.old result footprint.new }
{
    all_in_parent(book, footprint, kind, new)?;
    plan_exchanged(alloc, book, footprint, domain, kind, leaving, coming)
}

/// Indices leave a sparse or associative domain, and others, which it may have, come to it.
pub(crate) fn plan_exchanged(
    alloc: Global,
    book: &Layered<'_>,
    footprint: &mut FootprintBuilder,
    domain: Name,
    kind: &AnyDomain,
    leaving: &[AnyIndex],
    coming: &[AnyIndex],
) -> Result<Delta, AttemptErr>
    requires leaving { IsListedOnce leaving.now }
    requires coming { IsListedOnce coming.now }
    requires apart { AreApart leaving.now coming.now }
    ensures { Attempts (fills domain kind.now (λ brought. write (resized_cells (kind_of kind.now) domain brought leaving.now coming.now)))
        book.now.cells footprint.old result footprint.new }
{
    let brought = fills(alloc, book, footprint, domain, kind)?;
    resize_changes(alloc, domain, kind, &brought, leaving, coming)
}

/// All members leave a domain.
pub(crate) fn plan_emptied(
    alloc: Global,
    book: &Layered<'_>,
    footprint: &mut FootprintBuilder,
    domain: Name,
    kind: &AnyDomain,
) -> Result<Delta, AttemptErr>
    ensures { Attempts (fills domain kind.now (λ brought. write (resized_cells (kind_of kind.now) domain brought (members book.now.cells domain) [])))
        book.now.cells footprint.old result footprint.new }
{
    let brought = fills(alloc, book, footprint, domain, kind)?;
    empty_changes(alloc, book, domain, kind, &brought)
}

// Whether, where the members leave a domain, nothing changes but their cells.
fn are_alone(kind: &AnyDomain, brought: &[(Name, i64)]) -> bool
    ensures fills { result ≡ true → brought.now ≡ [] }
    ensures members { result ≡ true → (d : List ℕ) (i : Index) → index_cell (kind_of kind.now) d i ≡ Member d i }
{
    match kind.domain_kind() {
        DomainKind::Rectangular(_) => false,
        DomainKind::Sparse(_, _) => brought.is_empty(),
        DomainKind::Associative(_) => brought.is_empty(),
    }
}

// The cells of all members of a domain become absent.
fn member_changes(alloc: Global, book: &Layered<'_>, domain: Name) -> Result<Delta, AttemptErr>
    ensures { Makes (clear_all (map (Member domain) (members book.now.cells domain))) result }
{
    let mut delta = Delta::new(alloc);
    clear_members(alloc, book, &mut delta, domain)?;
    Ok(delta)
}

// What changes where all members leave a domain: by one run, where no array is over it.
fn empty_changes(
    alloc: Global,
    book: &Layered<'_>,
    domain: Name,
    kind: &AnyDomain,
    brought: &[(Name, i64)],
) -> Result<Delta, AttemptErr>
    requires { IsListedOnce (keys_of brought.now) }
    ensures { Makes (resized_cells (kind_of kind.now) domain brought.now (members book.now.cells domain) []) result }
{
    if are_alone(kind, brought) {
        return member_changes(alloc, book, domain);
    }
    let Ok(leaving) = listed_members(alloc, book, domain) else {
        return Err(AttemptErr::NoMemory);
    };
    resize_changes(alloc, domain, kind, brought, &leaving, &[])
}

/// What changes where indices leave a domain and others come to it.
pub(crate) fn resize_changes(
    alloc: Global,
    domain: Name,
    kind: &AnyDomain,
    brought: &[(Name, i64)],
    leaving: &[AnyIndex],
    coming: &[AnyIndex],
) -> Result<Delta, AttemptErr>
    requires once { IsListedOnce (keys_of brought.now) }
    requires leaving { IsListedOnce leaving.now }
    requires coming { IsListedOnce coming.now }
    requires apart { AreApart leaving.now coming.now }
    ensures { Makes (resized_cells (kind_of kind.now) domain brought.now leaving.now coming.now) result }
{
    let mut delta = Delta::new(alloc);
    let over = NamedDomain {
        name: domain,
        kind: kind.kind(),
    };
    resize(&mut delta, &over, brought, leaving, coming)?;
    Ok(delta)
}
