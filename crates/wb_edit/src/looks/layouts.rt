//! Tests on mappings: for which rank one is.

ghost use Rattle.std.specs.Prelude.{◌≡◌, length};
ghost use Rattle.wb_edit.specs.Layouts.{for_rank};
ghost use Rattle.wb_edit.specs.Plans.{or_refused};

use crate::attempt_err::{AttemptErr, or_refused};
use wb_cells::{AnyLayout, AnyRect, WhyRefused};

/// That the mapping is for domains of the rank; `BadMapping` where it is not.
pub(crate) fn for_rank(rank: u8, mapping: &AnyLayout) -> Result<(), WhyRefused>
    ensures { result ≡ for_rank rank mapping.now }
{
    if mapping.is_of_rank(rank) {
        Ok(())
    } else {
        Err(WhyRefused::BadMapping)
    }
}

/// The mapping is for domains of the rank of these ranges.
pub(crate) fn for_rectangle(ranges: &AnyRect, mapping: &AnyLayout) -> Result<(), AttemptErr>
    ensures { result ≡ or_refused (for_rank (length ranges.now) mapping.now) }
{
    or_refused(for_rank(ranges.rank(), mapping))
}
