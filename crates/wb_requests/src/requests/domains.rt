// Requests for rectangular domains and their mappings, and for new values and the end of any domain.
ghost use Rattle.std.specs.Prelude.{◌≡◌, codes, option_map};
ghost use Rattle.serde_json.specs.View.{view};
ghost use Rattle.wb_literals.specs.Domain.{rectangle};
ghost use Rattle.wb_literals.specs.Said.{domain};
ghost use Rattle.wb_requests.specs.Answers.{IsAnswer};
ghost use Rattle.wb_requests.specs.Requests.{domain_with, domain_by, domain_beside, domain_of, reshape_of, drop_domain_of, remap_of};

use crate::requests::fields::{has_fields, has_fields_and, name_field, optional_text, text_field};
use crate::requests::literals::{
    domain_within, literal_domain, literal_mapping, mapping_within, optional_mapping,
};
use crate::requests::request::Request;
use crate::requests::sources::source_of;
use serde_json::Value;
use std::alloc::Global;
use wb_cells::Name;
use wb_edit::{AskedRectangle, Command, Edit, Refusal};
use wb_literals::{DomainLiteral, MappingLiteral, RectangleLiteral};

// A new domain of a rectangle.
fn rectangular(
    name: Name,
    literal: &RectangleLiteral,
    spelled: &MappingLiteral,
) -> Result<Request, Refusal>
    ensures { result ≡ domain_with name (rectangle literal.now) spelled.now }
{
    let ranges = domain_within(literal)?;
    let mapping = mapping_within(spelled)?;
    let asked = AskedRectangle::Ranges(ranges);
    Ok(Request::Change(Edit::Command(Command::Domain(name, asked, mapping))))
}

// A new domain of what a literal spells.
fn domain_with(
    name: Name,
    literal: &DomainLiteral,
    spelled: &MappingLiteral,
) -> Result<Request, Refusal>
    ensures { result ≡ domain_with name (domain literal.now) spelled.now }
{
    match literal {
        DomainLiteral::Rectangle(literal) => rectangular(name, literal, spelled),
        DomainLiteral::Set(_) => {
            let mapping = mapping_within(spelled)?;
            Ok(Request::Change(Edit::Command(Command::Domain(
                name,
                AskedRectangle::Indices,
                mapping,
            ))))
        }
    }
}

// A new domain by its literal and that of its mapping, where there is one.
fn domain_by(alloc: Global, name: Name, text: &str, map: Option<&str>) -> Result<Request, Refusal>
    ensures { IsAnswer (domain_by name text.now (option_map (λ s. s.now) map.entry)) result }
{
    let literal = literal_domain(alloc, text)?;
    let spelled = optional_mapping(map)?;
    let request = domain_with(name, &literal, &spelled)?;
    Ok(request)
}

// A new domain beside the text of its mapping, where there is one.
fn domain_beside(alloc: Global, map: Option<&str>, value: &Value) -> Result<Request, Refusal>
    ensures { IsAnswer (domain_beside (option_map (λ s. s.now) map.entry) (view value.now)) result }
{
    let name = name_field(value, "d")?;
    let text = text_field(value, "is")?;
    domain_by(alloc, name, text, map)
}

/// A new rectangular domain.
pub(crate) fn domain_of(alloc: Global, value: &Value) -> Result<Request, Refusal>
    ensures { IsAnswer (domain_of (view value.now)) result }
{
    let map = optional_text(value, "map")?;
    has_fields_and(value, 3, &map)?;
    domain_beside(alloc, map, value)
}

/// A new value of a domain.
pub(crate) fn reshape_of(alloc: Global, value: &Value) -> Result<Request, Refusal>
    ensures { IsAnswer (reshape_of (view value.now)) result }
{
    has_fields(value, 3)?;
    let name = name_field(value, "d")?;
    let source = source_of(alloc, value)?;
    Ok(Request::Change(Edit::Command(Command::Reshape(name, source))))
}

/// Another mapping of a rectangular domain.
pub(crate) fn remap_of(value: &Value) -> Result<Request, Refusal>
    ensures { result ≡ remap_of (view value.now) }
{
    has_fields(value, 3)?;
    let name = name_field(value, "d")?;
    let text = text_field(value, "map")?;
    let spelled = literal_mapping(text)?;
    let mapping = mapping_within(&spelled)?;
    Ok(Request::Change(Edit::Command(Command::Remap(name, mapping))))
}

/// The end of a domain.
pub(crate) fn drop_domain_of(value: &Value) -> Result<Request, Refusal>
    ensures { result ≡ drop_domain_of (view value.now) }
{
    has_fields(value, 2)?;
    let name = name_field(value, "d")?;
    Ok(Request::Change(Edit::Command(Command::DropDomain(name))))
}
