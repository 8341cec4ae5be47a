//! Entries of two lists that are seen to be equal by their forms alone.

ghost use Rattle.std.specs.Prelude.{◌≡◌, ℕ, true};
ghost use Rattle.wb_desk.specs.Records.{name_at, shown};

use crate::form::Form;
use wb_cells::Name;

// Whether the names at places of two tables are seen to be equal.
fn are_same_names(names: &[Name], place: u16, others: &[Name], other: u16) -> bool
    ensures { result ≡ true → name_at names.now place ≡ name_at others.now other }
{
    let place = place as usize;
    let other = other as usize;
    if place >= names.len() {
        return false;
    }
    if other >= others.len() {
        return false;
    }
    names[place].is_same(&others[other])
}

// Whether both forms are of the same new value at an integer.
fn are_same_sets(names: &[Name], form: &Form, others: &[Name], other: &Form) -> bool
    ensures { result ≡ true → (seat : ℕ) → shown seat names.now form.now ≡ shown seat others.now other.now }
{
    let Form::Set(first, i, value, number, count) = form else {
        return false;
    };
    let Form::Set(second, at, told, edit, cells) = other else {
        return false;
    };
    if *i != *at || *value != *told {
        return false;
    }
    if *number != *edit || *count != *cells {
        return false;
    }
    are_same_names(names, *first, others, *second)
}

// Whether both forms are of the element at the same integer, with the same value.
fn are_same_gets(names: &[Name], form: &Form, others: &[Name], other: &Form) -> bool
    ensures { result ≡ true → (seat : ℕ) → shown seat names.now form.now ≡ shown seat others.now other.now }
{
    let Form::Get(first, i, found) = form else {
        return false;
    };
    let Form::Get(second, at, told) = other else {
        return false;
    };
    if *i != *at || *found != *told {
        return false;
    }
    are_same_names(names, *first, others, *second)
}

/// Whether two forms, each by its table of names, are seen to stand for the same entry: a new value at an integer, or the element
/// there. `false` tells nothing.
pub(crate) fn are_alike(names: &[Name], form: &Form, others: &[Name], other: &Form) -> bool
    ensures { result ≡ true → (seat : ℕ) → shown seat names.now form.now ≡ shown seat others.now other.now }
{
    match form {
        Form::Set(_, _, _, _, _) => are_same_sets(names, form, others, other),
        Form::Get(_, _, _) => are_same_gets(names, form, others, other),
        _ => false,
    }
}
