//! Looks at what is bound to a domain: the arrays over it, and the sparse domains in it.

ghost use Rattle.std.specs.Prelude.{◌≡◌, IfOk, IfErr};
ghost use Rattle.std.specs.List.{filter_map};
ghost use Rattle.wb_cells.specs.Readers.{seen};
ghost use Rattle.wb_cells.specs.declared.cells.pattern.Pattern.TheVariants.{Uses};
ghost use Rattle.wb_cells.specs.declared.cells.value.Binding.TheVariants.{Array, Sparse};
ghost use Rattle.wb_edit.specs.Changed.{items_of};
ghost use Rattle.wb_edit.specs.Plans.{Looks};
ghost use Rattle.wb_edit.specs.Users.{binding_in, user_in, named, bound, is_unused, uses, unused};
ghost use Rattle.wb_edit.specs.declared.attempt_err.AttemptErr.TheVariants.{NoMemory};

use crate::attempt_err::{AttemptErr, or_refused};
use crate::footprint::FootprintBuilder;
use std::alloc::{AllocError, Global};
use wb_cells::{Binding, Cell, Name, Pattern, Value, WhyRefused};
use wb_layers::Layered;

// How a value says that an object is bound, if it does.
fn binding_in(value: &Value) -> Option<Binding>
    ensures { result ≡ binding_in value.now }
{
    match *value {
        Value::Bound(how) => Some(how),
        Value::Domain(_)
        | Value::Array(_, _)
        | Value::Ranges(_)
        | Value::Mapping(_)
        | Value::Present
        | Value::Number(_) => None,
    }
}

// The user of a domain that a cell with its value tells of, and how it is bound.
fn user_in(shown: &(Cell, Value)) -> Option<(Name, Binding)>
    ensures { result ≡ user_in shown.now }
{
    match shown.0 {
        Cell::Use(_, user) => {
            let how = binding_in(&shown.1)?;
            Some((user, how))
        }
        Cell::Object(_)
        | Cell::Shape(_)
        | Cell::In(_, _)
        | Cell::Member(_, _)
        | Cell::Mapping(_)
        | Cell::Implicit(_)
        | Cell::Element(_, _) => None,
    }
}

fn users_in(alloc: Global, shown: &[(Cell, Value)]) -> Result<Vec<(Name, Binding)>, AllocError>
    ensures { IfOk result (λ v. v.items ≡ filter_map user_in shown.now) }
{
    shown
        .iter()
        .filter_map(
            |x: &(Cell, Value)| -> Option<(Name, Binding)>
                ensures { result ≡ user_in x.now }
            { user_in(x) },
        )
        .collect(alloc)
}

/// What is bound to a domain, and how, by their names.
pub(crate) fn uses(
    alloc: Global,
    book: &Layered<'_>,
    footprint: &mut FootprintBuilder,
    domain: Name,
) -> Result<Vec<(Name, Binding)>, AttemptErr>
    ensures looks { Looks (uses domain) book.now.cells footprint.old (items_of result) footprint.new }
    ensures seen { IfOk result (λ v. v.items ≡ filter_map user_in (seen book.now.cells (Uses domain))) }
{
    let pattern = Pattern::Uses(domain);
    let Ok(shown) = book.seen(alloc, &pattern) else {
        return Err(AttemptErr::NoMemory);
    };
    let Ok(found) = users_in(alloc, &shown) else {
        return Err(AttemptErr::NoMemory);
    };
    match footprint.keep(pattern) {
        Ok(()) => Ok(found),
        Err(_) => Err(AttemptErr::NoMemory),
    }
}

// The name of a user that is an array.
fn named_array(user: &(Name, Binding)) -> Option<Name>
    ensures { result ≡ named Array user.now }
{
    match user.1 {
        Binding::Array => Some(user.0),
        Binding::Sparse => None,
    }
}

fn arrays_in(alloc: Global, users: &[(Name, Binding)]) -> Result<Vec<Name>, AllocError>
    ensures { IfOk result (λ v. v.items ≡ bound Array users.now) }
{
    users
        .iter()
        .filter_map(
            |user: &(Name, Binding)| -> Option<Name>
                ensures { result ≡ named Array user.now }
            { named_array(user) },
        )
        .collect(alloc)
}

/// The names of the users that are arrays.
pub(crate) fn arrays(alloc: Global, users: &[(Name, Binding)]) -> Result<Vec<Name>, AttemptErr>
    ensures same { IfOk result (λ v. v.items ≡ bound Array users.now) }
    ensures only { IfErr result (λ e. e ≡ NoMemory) }
{
    match arrays_in(alloc, users) {
        Ok(names) => Ok(names),
        Err(_) => Err(AttemptErr::NoMemory),
    }
}

// The name of a user that is a sparse domain.
fn named_sparse(user: &(Name, Binding)) -> Option<Name>
    ensures { result ≡ named Sparse user.now }
{
    match user.1 {
        Binding::Array => None,
        Binding::Sparse => Some(user.0),
    }
}

fn sparse_in(alloc: Global, users: &[(Name, Binding)]) -> Result<Vec<Name>, AllocError>
    ensures { IfOk result (λ v. v.items ≡ bound Sparse users.now) }
{
    users
        .iter()
        .filter_map(
            |user: &(Name, Binding)| -> Option<Name>
                ensures { result ≡ named Sparse user.now }
            { named_sparse(user) },
        )
        .collect(alloc)
}

/// The names of the users that are sparse domains.
pub(crate) fn sparse_domains(
    alloc: Global,
    users: &[(Name, Binding)],
) -> Result<Vec<Name>, AttemptErr>
    ensures same { IfOk result (λ v. v.items ≡ bound Sparse users.now) }
    ensures only { IfErr result (λ e. e ≡ NoMemory) }
{
    match sparse_in(alloc, users) {
        Ok(names) => Ok(names),
        Err(_) => Err(AttemptErr::NoMemory),
    }
}

/// That nothing is bound to a domain, by what is; `InUse` where something is.
pub(crate) fn is_unused(users: &[(Name, Binding)]) -> Result<(), WhyRefused>
    ensures { result ≡ is_unused users.now }
{
    if users.is_empty() {
        Ok(())
    } else {
        Err(WhyRefused::InUse)
    }
}

/// Nothing is bound to the domain.
pub(crate) fn unused(
    alloc: Global,
    book: &Layered<'_>,
    footprint: &mut FootprintBuilder,
    domain: Name,
) -> Result<(), AttemptErr>
    ensures { Looks (unused domain) book.now.cells footprint.old result footprint.new }
{
    let users = uses(alloc, book, footprint, domain)?;
    or_refused(is_unused(&users))
}
