//! What a cell's value says: tests on what was seen, which look at nothing more.

ghost use Rattle.std.specs.Prelude.{◌≡◌, option_map};
ghost use Rattle.wb_edit.specs.Looks.{is_free, domain_kind, array_kind, is_there, fits, ranges_in};

use wb_cells::{AnyDomain, AnyIndex, AnyRect, Kind, Name, Value, WhyRefused};

/// That nothing has the name whose object is given; `NameTaken` where something has.
pub fn is_free(object: Option<Value>) -> Result<(), WhyRefused>
    ensures { result ≡ is_free object }
{
    match object {
        None => Ok(()),
        Some(_) => Err(WhyRefused::NameTaken),
    }
}

/// What the domain is whose object is given; `NoSuchName` where nothing is there, `WrongKind` where no domain is.
pub fn domain_kind(object: Option<Value>) -> Result<AnyDomain, WhyRefused>
    ensures { result ≡ domain_kind object }
{
    match object {
        None => Err(WhyRefused::NoSuchName),
        Some(value) => match value {
            Value::Domain(kind) => Ok(kind),
            Value::Array(_, _) => Err(WhyRefused::WrongKind),
            Value::Ranges(_) => Err(WhyRefused::WrongKind),
            Value::Mapping(_) => Err(WhyRefused::WrongKind),
            Value::Present => Err(WhyRefused::WrongKind),
            Value::Bound(_) => Err(WhyRefused::WrongKind),
            Value::Number(_) => Err(WhyRefused::WrongKind),
        },
    }
}

/// The domain of the array whose object is given, and that domain's kind; `NoSuchName` where nothing is there,
/// `WrongKind` where no array is.
pub fn array_kind(object: Option<Value>) -> Result<(Name, Kind), WhyRefused>
    ensures { result ≡ array_kind object }
{
    match object {
        None => Err(WhyRefused::NoSuchName),
        Some(value) => match value {
            Value::Array(domain, kind) => Ok((domain, kind)),
            Value::Domain(_) => Err(WhyRefused::WrongKind),
            Value::Ranges(_) => Err(WhyRefused::WrongKind),
            Value::Mapping(_) => Err(WhyRefused::WrongKind),
            Value::Present => Err(WhyRefused::WrongKind),
            Value::Bound(_) => Err(WhyRefused::WrongKind),
            Value::Number(_) => Err(WhyRefused::WrongKind),
        },
    }
}

/// That the element is there; `OutOfDomain` where it is not.
pub fn is_there(element: Option<Value>) -> Result<(), WhyRefused>
    ensures { result ≡ is_there element }
{
    match element {
        None => Err(WhyRefused::OutOfDomain),
        Some(_) => Ok(()),
    }
}

/// That the index is of the rank and type of the indices of a domain of this kind; `WrongKind` where it is not.
pub fn fits(kind: Kind, index: AnyIndex) -> Result<(), WhyRefused>
    ensures { result ≡ fits kind index }
{
    if kind.is_key(&index.index()) {
        Ok(())
    } else {
        Err(WhyRefused::WrongKind)
    }
}

/// The ranges that a cell holds, if it holds ranges.
pub fn ranges_in(shape: Option<Value>) -> Option<AnyRect>
    ensures { result ≡ ranges_in shape }
{
    match shape {
        None => None,
        Some(value) => match value {
            Value::Ranges(ranges) => Some(ranges),
            Value::Domain(_) => None,
            Value::Array(_, _) => None,
            Value::Mapping(_) => None,
            Value::Present => None,
            Value::Bound(_) => None,
            Value::Number(_) => None,
        },
    }
}
