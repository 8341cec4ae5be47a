//! Tests on numbers: the element that is read, and sums within 64 bits.

ghost use Rattle.std.specs.Prelude.{◌≡◌, ◌+ℤ◌, ◌-ℤ◌, ◌*ℤ◌};
ghost use Rattle.wb_edit.specs.Numbers.{element_or_refusal, fits_integer};

use wb_cells::{Value, WhyRefused};

/// The element that a cell holds.
pub fn element_or_refusal(element: Option<Value>) -> Result<i64, WhyRefused>
    ensures { result ≡ element_or_refusal element }
{
    match element {
        None => Err(WhyRefused::OutOfDomain),
        Some(value) => match value {
            Value::Number(number) => Ok(number),
            Value::Domain(_) => Err(WhyRefused::OutOfDomain),
            Value::Array(_, _) => Err(WhyRefused::OutOfDomain),
            Value::Ranges(_) => Err(WhyRefused::OutOfDomain),
            Value::Mapping(_) => Err(WhyRefused::OutOfDomain),
            Value::Present => Err(WhyRefused::OutOfDomain),
            Value::Bound(_) => Err(WhyRefused::OutOfDomain),
        },
    }
}

/// The sum, where it is within 64 bits.
pub(crate) fn sum(x: i64, y: i64) -> Result<i64, WhyRefused>
    ensures { result ≡ fits_integer (x +ℤ y) }
{
    match x.checked_add(y) {
        Some(sum) => Ok(sum),
        None => Err(WhyRefused::Overflow),
    }
}

/// The first number less the second, where that is within 64 bits.
pub(crate) fn difference(x: i64, y: i64) -> Result<i64, WhyRefused>
    ensures { result ≡ fits_integer (x -ℤ y) }
{
    x.checked_sub(y).ok_or(WhyRefused::Overflow)
}

/// The product, where it is within 64 bits.
pub(crate) fn product(x: i64, y: i64) -> Result<i64, WhyRefused>
    ensures { result ≡ fits_integer (x *ℤ y) }
{
    x.checked_mul(y).ok_or(WhyRefused::Overflow)
}
