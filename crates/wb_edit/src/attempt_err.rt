ghost use Rattle.std.specs.Prelude.{◌≡◌};
ghost use Rattle.wb_edit.specs.Plans.{or_refused};

use wb_cells::WhyRefused;

/// Why an attempt stopped.
#[derive(Clone, Copy, Debug)]
pub(crate) enum AttemptErr {
    /// The edit is refused.
    Refused(WhyRefused),
    /// A growth was refused.
    NoMemory,
}

/// A judgement, where it may stop an attempt.
pub(crate) fn or_refused<X: Copy>(judgement: Result<X, WhyRefused>) -> Result<X, AttemptErr>
    ensures { result ≡ or_refused judgement }
{
    match judgement {
        Ok(x) => Ok(x),
        Err(why) => Err(AttemptErr::Refused(why)),
    }
}
