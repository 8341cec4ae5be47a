// Numbers at the end of a text, by their digits.
ghost use Rattle.std.specs.Prelude.{◌≡◌, ◌++◌, OnOk, string_bytes};

use itoa::{Buffer, Integer};
use std::alloc::AllocError;

/// The digits of a number at the end of a text, behind the sign of a negative one.
pub(crate) fn push_number<N: Integer>(out: &mut String, number: N) -> Result<(), AllocError>
    ensures { OnOk result (string_bytes out.new ≡ string_bytes out.old ++ N.text number) }
{
    let mut digits = Buffer::new();
    out.push_str(digits.format(number))
}

/// The digits of a number between two texts, at the end of a text.
pub(crate) fn push_between<N: Integer>(
    out: &mut String,
    before: &str,
    number: N,
    after: &str,
) -> Result<(), AllocError>
    ensures { OnOk result (string_bytes out.new ≡ string_bytes out.old ++ (before.now ++ (N.text number ++ after.now))) }
{
    out.push_str(before)?;
    push_number(out, number)?;
    out.push_str(after)
}
