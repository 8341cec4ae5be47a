// The texts of lists of edits, written without a JSON value of them in between.
ghost use Rattle.std.specs.Prelude.{◌≡◌, ◌++◌, codes, decimal, IfOk, OnOk, string_bytes};
ghost use Rattle.std.specs.List.{flat_map, join_by};
ghost use Rattle.wb_machine.specs.Pieces.{further};
ghost use Rattle.wb_machine.specs.Printed.{undone_text, dependents_text};

use crate::replies::digits::{push_between, push_number};
use crate::replies::edit_numbers::EditNumbers;
use std::alloc::{AllocError, Global};

// Numbers, each after a comma.
fn push_more_numbers(out: &mut String, rest: &[u64]) -> Result<(), AllocError>
    ensures { OnOk result (string_bytes out.new ≡ string_bytes out.old ++ flat_map (further decimal) rest.now) }
{
    for x in rest {
        out.push_str(",")?;
        push_number(out, *x)?;
    }
    Ok(())
}

// Numbers, separated by commas.
fn push_numbers(out: &mut String, xs: &[u64]) -> Result<(), AllocError>
    ensures { OnOk result (string_bytes out.new ≡ string_bytes out.old ++ join_by decimal (codes ",") xs.now) }
{
    match xs {
        [] => Ok(()),
        [first, rest @ ..] => {
            push_number(out, *first)?;
            push_more_numbers(out, rest)
        }
    }
}

// How many cells were set back, up to the numbers of the edits.
fn push_count(out: &mut String, count: u64) -> Result<(), AllocError>
    ensures { OnOk result (string_bytes out.new ≡ string_bytes out.old ++ (codes "{\"n\":" ++ (decimal count ++ codes ",\"undone\":["))) }
{
    push_between(out, "{\"n\":", count, ",\"undone\":[")
}

// Numbers up to the end of the object.
fn push_closed(out: &mut String, xs: &[u64]) -> Result<(), AllocError>
    ensures { OnOk result (string_bytes out.new ≡ string_bytes out.old ++ (join_by decimal (codes ",") xs.now ++ codes "]}")) }
{
    push_numbers(out, xs)?;
    out.push_str("]}")
}

/// The object of the edits that were undone, after how many cells were set back.
#[tactic(auto, using(crate::proofs::Texts::undone_parts))]
pub(crate) fn undone_text(
    alloc: Global,
    count: u64,
    edits: &EditNumbers,
) -> Result<String, AllocError>
    ensures { IfOk result (λ s. string_bytes s ≡ undone_text count edits.now) }
{
    let mut out = String::new(alloc);
    push_count(&mut out, count)?;
    push_closed(&mut out, edits.as_slice())?;
    Ok(out)
}

/// The object of the dependents of an edit.
pub(crate) fn dependents_text(alloc: Global, edits: &EditNumbers) -> Result<String, AllocError>
    ensures { IfOk result (λ s. string_bytes s ≡ dependents_text edits.now) }
{
    let mut out = String::new(alloc);
    out.push_str("{\"dependents\":[")?;
    push_closed(&mut out, edits.as_slice())?;
    Ok(out)
}
