// Requests for sparse and associative domains.
ghost use Rattle.std.specs.Prelude.{◌≡◌, codes};
ghost use Rattle.serde_json.specs.View.{view};
ghost use Rattle.wb_requests.specs.Requests.{sparse_of, assoc_of, add_of, remove_of};

use crate::requests::fields::{has_fields, index_field, key_type_field, name_field};
use crate::requests::request::Request;
use serde_json::Value;
use wb_edit::{Command, Edit, Refusal};

/// A new sparse domain.
pub(crate) fn sparse_of(value: &Value) -> Result<Request, Refusal>
    ensures { result ≡ sparse_of (view value.now) }
{
    has_fields(value, 3)?;
    let name = name_field(value, "d")?;
    let parent = name_field(value, "of")?;
    Ok(Request::Change(Edit::Command(Command::Sparse(name, parent))))
}

/// A new associative domain.
pub(crate) fn assoc_of(value: &Value) -> Result<Request, Refusal>
    ensures { result ≡ assoc_of (view value.now) }
{
    has_fields(value, 3)?;
    let name = name_field(value, "d")?;
    let key = key_type_field(value, "of")?;
    Ok(Request::Change(Edit::Command(Command::Assoc(name, key))))
}

/// A new index of a sparse or associative domain.
pub(crate) fn add_of(value: &Value) -> Result<Request, Refusal>
    ensures { result ≡ add_of (view value.now) }
{
    has_fields(value, 3)?;
    let name = name_field(value, "d")?;
    let index = index_field(value, "i")?;
    Ok(Request::Change(Edit::Command(Command::Add(name, index))))
}

/// The end of an index of a sparse or associative domain.
pub(crate) fn remove_of(value: &Value) -> Result<Request, Refusal>
    ensures { result ≡ remove_of (view value.now) }
{
    has_fields(value, 3)?;
    let name = name_field(value, "d")?;
    let index = index_field(value, "i")?;
    Ok(Request::Change(Edit::Command(Command::Remove(name, index))))
}
