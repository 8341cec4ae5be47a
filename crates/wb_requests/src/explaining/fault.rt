ghost use Rattle.std.specs.Prelude.{◌≡◌};
ghost use Rattle.std.specs.Bool.{Decides};
ghost use Rattle.wb_requests.specs.Said.{said_fault};
ghost use Rattle.wb_requests.specs.Wire.Faults.{code, refusal_of};

use crate::requests::literals::of_edit;
use wb_edit::Refusal;

/// What can be wrong with a line, by the code of its refusal.
#[derive(Clone, Copy, Debug)]
pub(crate) enum Fault {
    /// E01: no JSON, a field that is missing, not known or not of its type, or no name.
    BadRequest,
    /// E02: a text that isn't in the grammar of its literal.
    BadLiteral,
    /// E09: a literal beyond a limit.
    TooLarge,
    /// E15: a mapping whose parts don't fit one another.
    BadMapping,
}

impl Fault {
    /// The number of its code.
    pub(crate) fn code(self) -> u8
        ensures { result ≡ code (said_fault self) }
    {
        match self {
            Fault::BadRequest => 1,
            Fault::BadLiteral => 2,
            Fault::TooLarge => 9,
            Fault::BadMapping => 15,
        }
    }

    /// The refusal of a line of which it is the least.
    pub(crate) fn refusal(self) -> Refusal
        ensures { result ≡ refusal_of (said_fault self) }
    {
        match self {
            Fault::BadRequest => Refusal::BadRequest,
            Fault::BadLiteral => Refusal::BadLiteral,
            Fault::TooLarge => of_edit(wb_cells::WhyRefused::TooLarge),
            Fault::BadMapping => of_edit(wb_cells::WhyRefused::BadMapping),
        }
    }

    /// Whether the faults are equal.
    pub(crate) fn is_same(self, other: Fault) -> bool
        ensures { Decides result (self ≡ other) }
    {
        match (self, other) {
            (Fault::BadRequest, Fault::BadRequest) => true,
            (Fault::BadLiteral, Fault::BadLiteral) => true,
            (Fault::TooLarge, Fault::TooLarge) => true,
            (Fault::BadMapping, Fault::BadMapping) => true,
            _ => false,
        }
    }
}
