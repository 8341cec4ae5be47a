// The texts of pieces of arrays, written without a JSON value of them in between.
ghost use Rattle.std.specs.Prelude.{◌≡◌, ◌++◌, codes, IfOk, OnOk, string_bytes};
ghost use Rattle.std.specs.Fmt.{signed_decimal};
ghost use Rattle.std.specs.List.{flat_map, join_by};
ghost use Rattle.serde_json.specs.Data.{string};
ghost use Rattle.serde_json.specs.Written.{compact_text};
ghost use Rattle.wb_machine.specs.Pieces.{further, point_text, index_text, pair_text, piece_text};

use crate::replies::digits::{push_between, push_number};
use serde_json::json;
use std::alloc::{AllocError, Global};
use wb_cells::{AnyIndex, Index};
use wb_history::Piece;

// Integers, each after a comma.
fn push_more_integers(out: &mut String, rest: &[i64]) -> Result<(), AllocError>
    ensures { OnOk result (string_bytes out.new ≡ string_bytes out.old ++ flat_map (further signed_decimal) rest.now) }
{
    for x in rest {
        out.push_str(",")?;
        push_number(out, *x)?;
    }
    Ok(())
}

// Integers, separated by commas.
fn push_integers(out: &mut String, xs: &[i64]) -> Result<(), AllocError>
    ensures { OnOk result (string_bytes out.new ≡ string_bytes out.old ++ join_by signed_decimal (codes ",") xs.now) }
{
    match xs {
        [] => Ok(()),
        [first, rest @ ..] => {
            push_number(out, *first)?;
            push_more_integers(out, rest)
        }
    }
}

// An integer alone, or several in brackets.
#[tactic(auto, unfolding(crate::specs::Pieces::point_text))]
fn push_point(out: &mut String, coordinates: &[i64]) -> Result<(), AllocError>
    ensures { OnOk result (string_bytes out.new ≡ string_bytes out.old ++ point_text coordinates.now) }
{
    match coordinates {
        [only] => push_number(out, *only),
        several => {
            out.push_str("[")?;
            push_integers(out, several)?;
            out.push_str("]")
        }
    }
}

// A text as a JSON string.
fn string_text(alloc: Global, text: &str) -> Result<String, AllocError>
    ensures { IfOk result (λ s. string_bytes s ≡ compact_text (string text.now)) }
{
    json!(in alloc; text)?.to_string(alloc)
}

fn push_index(alloc: Global, out: &mut String, index: &AnyIndex) -> Result<(), AllocError>
    ensures { OnOk result (string_bytes out.new ≡ string_bytes out.old ++ index_text index.now) }
{
    match index.index() {
        Index::Point(point) => push_point(out, point.coordinates()),
        Index::Text(label) => {
            let text = string_text(alloc, label.as_str())?;
            out.push_str(&text)
        }
    }
}

// An element after its index.
fn push_pair(alloc: Global, out: &mut String, pair: &(AnyIndex, i64)) -> Result<(), AllocError>
    ensures { OnOk result (string_bytes out.new ≡ string_bytes out.old ++ pair_text pair.now) }
{
    out.push_str("[")?;
    push_index(alloc, out, &pair.0)?;
    push_between(out, ",", pair.1, "]")
}

// Elements after their indices, each of them after a comma.
fn push_more_pairs(
    alloc: Global,
    out: &mut String,
    rest: &[(AnyIndex, i64)],
) -> Result<(), AllocError>
    ensures { OnOk result (string_bytes out.new ≡ string_bytes out.old ++ flat_map (further pair_text) rest.now) }
{
    for x in rest {
        out.push_str(",")?;
        push_pair(alloc, out, x)?;
    }
    Ok(())
}

// Elements after their indices, separated by commas.
fn push_pairs(alloc: Global, out: &mut String, xs: &[(AnyIndex, i64)]) -> Result<(), AllocError>
    ensures { OnOk result (string_bytes out.new ≡ string_bytes out.old ++ join_by pair_text (codes ",") xs.now) }
{
    match xs {
        [] => Ok(()),
        [first, rest @ ..] => {
            push_pair(alloc, out, first)?;
            push_more_pairs(alloc, out, rest)
        }
    }
}

/// The object of a piece.
pub(crate) fn piece_text(alloc: Global, piece: &Piece) -> Result<String, AllocError>
    ensures { IfOk result (λ s. string_bytes s ≡ piece_text piece.now) }
{
    let mut out = String::new(alloc);
    out.push_str("{\"piece\":[")?;
    push_pairs(alloc, &mut out, piece.pairs())?;
    out.push_str("]}")?;
    Ok(out)
}
