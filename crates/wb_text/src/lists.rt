//! Items separated by commas, each after one space but the first.
ghost use Rattle.std.specs.Prelude.{◌≡◌, ◌++◌, codes, OnOk, string_bytes};
ghost use Rattle.std.specs.Fmt.{signed_decimal};
ghost use Rattle.std.specs.List.{flat_map, join_by};
ghost use Rattle.wb_text.specs.Literals.{further, text_of_range, index_text};

use crate::literals::{push_index, push_range};
use std::alloc::AllocError;
use std::fmt::Write;
use wb_cells::{AnyIndex, MemberWalk};
use wb_range::Range;

// Integers, each after a comma.
fn push_more_integers(out: &mut String, rest: &[i64]) -> Result<(), AllocError>
    ensures { OnOk result (string_bytes out.new ≡ string_bytes out.old ++ flat_map (further signed_decimal) rest.now) }
{
    for x in rest {
        write!(out, ", {x}")?;
    }
    Ok(())
}

/// Integers, separated by commas.
pub(crate) fn push_integers(out: &mut String, xs: &[i64]) -> Result<(), AllocError>
    ensures { OnOk result (string_bytes out.new ≡ string_bytes out.old ++ join_by signed_decimal (codes ", ") xs.now) }
{
    match xs {
        [] => Ok(()),
        [first, rest @ ..] => {
            write!(out, "{first}")?;
            push_more_integers(out, rest)
        }
    }
}

// Ranges, each after a comma.
fn push_more_ranges(out: &mut String, rest: &[Range]) -> Result<(), AllocError>
    ensures { OnOk result (string_bytes out.new ≡ string_bytes out.old ++ flat_map (further text_of_range) rest.now) }
{
    for x in rest {
        out.push_str(", ")?;
        push_range(out, x)?;
    }
    Ok(())
}

/// Ranges, separated by commas.
pub(crate) fn push_ranges(out: &mut String, xs: &[Range]) -> Result<(), AllocError>
    ensures { OnOk result (string_bytes out.new ≡ string_bytes out.old ++ join_by text_of_range (codes ", ") xs.now) }
{
    match xs {
        [] => Ok(()),
        [first, rest @ ..] => {
            push_range(out, first)?;
            push_more_ranges(out, rest)
        }
    }
}

// Indices, each after a comma.
fn push_more_indices(out: &mut String, rest: &[AnyIndex]) -> Result<(), AllocError>
    ensures { OnOk result (string_bytes out.new ≡ string_bytes out.old ++ flat_map (further index_text) rest.now) }
{
    for x in rest {
        out.push_str(", ")?;
        push_index(out, x)?;
    }
    Ok(())
}

/// Indices, separated by commas.
pub(crate) fn push_indices(out: &mut String, xs: &[AnyIndex]) -> Result<(), AllocError>
    ensures { OnOk result (string_bytes out.new ≡ string_bytes out.old ++ join_by index_text (codes ", ") xs.now) }
{
    match xs {
        [] => Ok(()),
        [first, rest @ ..] => {
            push_index(out, first)?;
            push_more_indices(out, rest)
        }
    }
}

// The members that are left, each after a comma.
fn push_more_members(out: &mut String, members: &mut MemberWalk<'_>) -> Result<(), AllocError>
    ensures { OnOk result (string_bytes out.new ≡ string_bytes out.old ++ flat_map (further index_text) members.old) }
{
    while let Some(index) = members.next() {
        out.push_str(", ")?;
        push_index(out, &index)?;
    }
    Ok(())
}

/// The members that are left, separated by commas.
pub(crate) fn push_members(out: &mut String, members: &mut MemberWalk<'_>) -> Result<(), AllocError>
    ensures { OnOk result (string_bytes out.new ≡ string_bytes out.old ++ join_by index_text (codes ", ") members.old) }
{
    match members.next() {
        None => Ok(()),
        Some(first) => {
            push_index(out, &first)?;
            push_more_members(out, members)
        }
    }
}
