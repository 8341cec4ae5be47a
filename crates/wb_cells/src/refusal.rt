ghost use Rattle.std.specs.Prelude.{◌≡◌};
ghost use Rattle.std.specs.Bool.{Decides};

use thiserror::Error;

/// Why an edit is refused.
#[derive(Clone, Copy, Debug, PartialEq, Eq, Error)]
pub enum WhyRefused {
    /// E03: an object of that name is there.
    #[error("name-taken")]
    NameTaken,
    /// E04: no object of that name is there.
    #[error("no-such-name")]
    NoSuchName,
    /// E05: a domain where an array is wanted or the reverse, or an index of another rank or type.
    #[error("wrong-kind")]
    WrongKind,
    /// E06: an index that isn't there.
    #[error("out-of-domain")]
    OutOfDomain,
    /// E07: an index of a sparse domain that isn't in its parent.
    #[error("out-of-parent")]
    OutOfParent,
    /// E08: something is bound to the domain.
    #[error("in-use")]
    InUse,
    /// E09: a limit of ranges or domains.
    #[error("too-large")]
    TooLarge,
    /// E10: a result outside the integers of 64 bits.
    #[error("overflow")]
    Overflow,
    /// E15: a mapping for domains of another rank.
    #[error("bad-mapping")]
    BadMapping,
    /// E17: a workbook that has to be empty has an object.
    #[error("not-empty")]
    NotEmpty,
    /// E18: the least or the greatest of no elements. Given by the query for a reduction alone.
    #[error("empty")]
    Empty,
}

impl WhyRefused {
    /// Whether the refusals are equal.
    pub fn is_same(self, other: WhyRefused) -> bool
        ensures { Decides result (self ≡ other) }
    {
        match (self, other) {
            (WhyRefused::NameTaken, WhyRefused::NameTaken) => true,
            (WhyRefused::NoSuchName, WhyRefused::NoSuchName) => true,
            (WhyRefused::WrongKind, WhyRefused::WrongKind) => true,
            (WhyRefused::OutOfDomain, WhyRefused::OutOfDomain) => true,
            (WhyRefused::OutOfParent, WhyRefused::OutOfParent) => true,
            (WhyRefused::InUse, WhyRefused::InUse) => true,
            (WhyRefused::TooLarge, WhyRefused::TooLarge) => true,
            (WhyRefused::Overflow, WhyRefused::Overflow) => true,
            (WhyRefused::BadMapping, WhyRefused::BadMapping) => true,
            (WhyRefused::NotEmpty, WhyRefused::NotEmpty) => true,
            (WhyRefused::Empty, WhyRefused::Empty) => true,
            _ => false,
        }
    }
}

/// Why an edit is refused, and where.
#[derive(Clone, Copy, Debug, PartialEq, Eq, Error)]
#[error("{why}")]
pub struct EditRefusal {
    /// Why its command is refused, or the first one that is, where it has several.
    pub why: WhyRefused,
    /// The place of that command, from 0, where the edit has several.
    pub at: Option<u16>,
}

impl EditRefusal {
    /// Whether the refusals are equal.
    pub fn is_same(self, other: EditRefusal) -> bool
        ensures { Decides result (self ≡ other) }
    {
        if !self.why.is_same(other.why) {
            return false;
        }
        are_same_places(self.at, other.at)
    }
}

fn are_same_places(at: Option<u16>, other: Option<u16>) -> bool
    ensures { Decides result (at ≡ other) }
{
    match (at, other) {
        (None, None) => true,
        (Some(place), Some(by)) => place == by,
        _ => false,
    }
}
