ghost use Rattle.std.specs.Prelude.{◌≡◌, [], ◌∷◌, ◌++◌, map};
ghost use Rattle.selective_undo.specs.Edit.{write};
ghost use Rattle.wb_range.specs.Domain.{IsListedOnce};
ghost use Rattle.wb_cells.specs.declared.cells.cell.Cell.TheVariants.{Object, Shape, Member, Mapping, Use};
ghost use Rattle.wb_cells.specs.Readers.{members as members_in};
ghost use Rattle.wb_edit.specs.Commands.{drop_domain, dropped_domain_cells, cells_beside_indices};
ghost use Rattle.wb_edit.specs.Looks.{domain_indices, members, points};
ghost use Rattle.wb_edit.specs.Plans.{Attempts, Makes, indices_in};
ghost use Rattle.wb_edit.specs.Writes.{clear_all};

use crate::attempt_err::AttemptErr;
use crate::commands::writes::{become_found, change, clear_members, membership};
use crate::footprint::FootprintBuilder;
use crate::looks::indices::{Indices, look_at_members, points};
use crate::looks::one_cell;
use crate::looks::users::unused;
use std::alloc::Global;
use wb_cells::{AnyDomain, Cell, Delta, DomainKind, Name};
use wb_layers::Layered;

/// The end of a domain.
pub(crate) fn plan_drop_domain(
    alloc: Global,
    book: &Layered<'_>,
    footprint: &mut FootprintBuilder,
    domain: Name,
) -> Result<Delta, AttemptErr>
    ensures { Attempts (drop_domain domain) book.now.cells footprint.old result footprint.new }
{
    let kind = one_cell::domain_named(book, footprint, domain)?;
    unused(alloc, book, footprint, domain)?;
    plan_dropped(alloc, book, footprint, domain, &kind)
}

// The end of a domain of a kind, to which nothing is bound.
fn plan_dropped(
    alloc: Global,
    book: &Layered<'_>,
    footprint: &mut FootprintBuilder,
    domain: Name,
    kind: &AnyDomain,
) -> Result<Delta, AttemptErr>
    ensures { Attempts (domain_indices domain kind.now (λ is. write (dropped_domain_cells domain kind.now is))) book.now.cells footprint.old result footprint.new }
{
    match kind.domain_kind() {
        DomainKind::Rectangular(_) => plan_drop_points(alloc, book, footprint, domain, kind),
        DomainKind::Sparse(_, _) => plan_drop_members(alloc, book, footprint, domain, kind),
        DomainKind::Associative(_) => plan_drop_members(alloc, book, footprint, domain, kind),
    }
}

// The end of a rectangular domain, to which nothing is bound.
fn plan_drop_points(
    alloc: Global,
    book: &Layered<'_>,
    footprint: &mut FootprintBuilder,
    domain: Name,
    kind: &AnyDomain,
) -> Result<Delta, AttemptErr>
    ensures { Attempts (points domain (λ is. write (dropped_domain_cells domain kind.now is))) book.now.cells footprint.old result footprint.new }
{
    let found = points(alloc, book, footprint, domain)?;
    drop_changes(alloc, domain, kind, &found)
}

// The end of a sparse or associative domain, to which nothing is bound.
fn plan_drop_members(
    alloc: Global,
    book: &Layered<'_>,
    footprint: &mut FootprintBuilder,
    domain: Name,
    kind: &AnyDomain,
) -> Result<Delta, AttemptErr>
    ensures { Attempts (members domain (λ is. write (clear_all (cells_beside_indices domain kind.now) ++ clear_all (map (Member domain) is))))
        book.now.cells footprint.old result footprint.new }
{
    look_at_members(footprint, domain)?;
    drop_members(alloc, book, domain, kind)
}

// What there is of a domain besides its indices becomes absent, and then all of its members do.
fn drop_members(
    alloc: Global,
    book: &Layered<'_>,
    domain: Name,
    kind: &AnyDomain,
) -> Result<Delta, AttemptErr>
    ensures { Makes (clear_all (cells_beside_indices domain kind.now) ++ clear_all (map (Member domain) (members_in book.now.cells domain))) result }
{
    let mut delta = own_changes(alloc, domain, kind)?;
    clear_members(alloc, book, &mut delta, domain)?;
    Ok(delta)
}

fn drop_changes(
    alloc: Global,
    domain: Name,
    kind: &AnyDomain,
    found: &Indices,
) -> Result<Delta, AttemptErr>
    requires { IsListedOnce (indices_in found.now) }
    ensures { Makes (dropped_domain_cells domain kind.now (indices_in found.now)) result }
{
    let mut delta = own_changes(alloc, domain, kind)?;
    let indices = membership(&kind.kind(), domain);
    become_found(&mut delta, &indices, found, &None)?;
    Ok(delta)
}

// What there is of a domain besides its indices becomes absent.
fn own_changes(alloc: Global, domain: Name, kind: &AnyDomain) -> Result<Delta, AttemptErr>
    ensures { Makes (clear_all (cells_beside_indices domain kind.now)) result }
{
    match kind.domain_kind() {
        DomainKind::Rectangular(_) => rectangle_changes(alloc, domain),
        DomainKind::Sparse(parent, _) => sparse_changes(alloc, domain, parent),
        DomainKind::Associative(_) => set_changes(alloc, domain),
    }
}

fn rectangle_changes(alloc: Global, domain: Name) -> Result<Delta, AttemptErr>
    ensures { Makes (clear_all (Object domain ∷ Shape domain ∷ Mapping domain ∷ [])) result }
{
    let mut delta = Delta::new(alloc);
    change(&mut delta, Cell::Object(domain), None)?;
    change(&mut delta, Cell::Shape(domain), None)?;
    change(&mut delta, Cell::Mapping(domain), None)?;
    Ok(delta)
}

fn sparse_changes(alloc: Global, domain: Name, parent: Name) -> Result<Delta, AttemptErr>
    ensures { Makes (clear_all (Object domain ∷ Use parent domain ∷ [])) result }
{
    let mut delta = Delta::new(alloc);
    change(&mut delta, Cell::Object(domain), None)?;
    change(&mut delta, Cell::Use(parent, domain), None)?;
    Ok(delta)
}

fn set_changes(alloc: Global, domain: Name) -> Result<Delta, AttemptErr>
    ensures { Makes (clear_all (Object domain ∷ [])) result }
{
    let mut delta = Delta::new(alloc);
    change(&mut delta, Cell::Object(domain), None)?;
    Ok(delta)
}
