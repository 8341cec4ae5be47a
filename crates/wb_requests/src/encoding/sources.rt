// Requests for a new value of a domain, by where it comes from.
ghost use Rattle.std.specs.Prelude.{◌≡◌, IfOk};
ghost use Rattle.serde_json.specs.View.{view};
ghost use Rattle.wb_edit.specs.declared.command.Command.TheVariants.{Reshape};
ghost use Rattle.wb_requests.specs.Encoding.Encoded.{command_data};
ghost use Rattle.wb_reshape.specs.declared.new_indices.NewIndices.TheVariants.{Displace as displace, Combine as combine};

use crate::encoding::literals::{given_text, index_value};
use crate::encoding::objects::{diminished, exchanged, intersected, united};
use serde_json::{Value, json};
use std::alloc::{AllocError, Global};
use wb_cells::{AnyIndex, Index, Name, Point};
use wb_reshape::{Displacement, NewIndices, Operand, SetOperation};

fn displaced(
    alloc: Global,
    d: &Name,
    how: Displacement,
    offsets: &Point,
) -> Result<Value, AllocError>
    ensures { IfOk result (λ v. view v ≡ command_data (Reshape d.now (displace how offsets.now))) }
{
    let offsets = index_value(alloc, &AnyIndex::new(Index::Point(*offsets)))?;
    match how {
        Displacement::Translate => {
            json!(in alloc; {"d": d.as_str(), "op": "reshape", "translate": &offsets})
        }
        Displacement::Expand => {
            json!(in alloc; {"d": d.as_str(), "expand": &offsets, "op": "reshape"})
        }
    }
}

// The object of a set operation, under the key of which the other set stands.
fn combined(
    alloc: Global,
    d: &Name,
    how: SetOperation,
    given: &Operand,
) -> Result<Value, AllocError>
    ensures { IfOk result (λ v. view v ≡ command_data (Reshape d.now (combine how given.now))) }
{
    let given = given_text(alloc, given)?;
    match how {
        SetOperation::Union => united(alloc, d, &given),
        SetOperation::Intersection => intersected(alloc, d, &given),
        SetOperation::Difference => diminished(alloc, d, &given),
        SetOperation::SymmetricDifference => exchanged(alloc, d, &given),
    }
}

/// A new value of a domain.
pub(crate) fn reshaped(alloc: Global, d: &Name, source: &NewIndices) -> Result<Value, AllocError>
    ensures { IfOk result (λ v. view v ≡ command_data (Reshape d.now source.now)) }
{
    match source {
        NewIndices::To(given) => {
            let given = given_text(alloc, given)?;
            json!(in alloc; {"d": d.as_str(), "op": "reshape", "to": &given})
        }
        NewIndices::Slice(given) => {
            let given = given_text(alloc, given)?;
            json!(in alloc; {"d": d.as_str(), "op": "reshape", "slice": &given})
        }
        NewIndices::Displace(how, offsets) => displaced(alloc, d, *how, offsets),
        NewIndices::Combine(how, given) => combined(alloc, d, *how, given),
    }
}
