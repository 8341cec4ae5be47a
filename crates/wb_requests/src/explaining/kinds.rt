// What the value of each key has to spell.
ghost use Rattle.std.specs.Prelude.{◌≡◌, option_map};
ghost use Rattle.std.specs.Bool.{Decides};
ghost use Rattle.wb_requests.specs.Said.{said_kind};
ghost use Rattle.wb_requests.specs.Wire.Faults.{kinds, kind_in, kind_of};

/// What a value has to spell.
#[derive(Clone, Copy, Debug)]
pub(crate) enum Kind {
    /// A name.
    Name,
    /// An integer of 64 bits with a sign.
    Integer,
    /// An integer of 64 bits without a sign.
    Number,
    /// An index.
    Index,
    /// An array of integers, however many.
    Integers,
    /// An integer for each dimension.
    Offsets,
    /// The type of an associative domain's indices.
    KeyType,
    /// What becomes of each element of an array.
    Operation,
    /// What becomes of all elements of an array.
    Reduction,
    /// A text, whichever it is.
    AnyText,
    /// The note of a transaction.
    Note,
    /// An array of 1 to 4,096 values.
    Several,
    /// The literal of a rectangle or of a set.
    Domain,
    /// The literal of a mapping.
    Mapping,
    /// A literal, or the name of a domain.
    Source,
    /// The text of a workbook.
    Workbook,
}

impl Kind {
    /// Whether the kinds are equal.
    pub(crate) fn is_same(self, other: Kind) -> bool
        ensures { Decides result (self ≡ other) }
    {
        match (self, other) {
            (Kind::Name, Kind::Name) => true,
            (Kind::Integer, Kind::Integer) => true,
            (Kind::Number, Kind::Number) => true,
            (Kind::Index, Kind::Index) => true,
            (Kind::Integers, Kind::Integers) => true,
            (Kind::Offsets, Kind::Offsets) => true,
            (Kind::KeyType, Kind::KeyType) => true,
            (Kind::Operation, Kind::Operation) => true,
            (Kind::Reduction, Kind::Reduction) => true,
            (Kind::AnyText, Kind::AnyText) => true,
            (Kind::Note, Kind::Note) => true,
            (Kind::Several, Kind::Several) => true,
            (Kind::Domain, Kind::Domain) => true,
            (Kind::Mapping, Kind::Mapping) => true,
            (Kind::Source, Kind::Source) => true,
            (Kind::Workbook, Kind::Workbook) => true,
            _ => false,
        }
    }
}

// In each op that has the key; but for `of` and `how`.
fn kind_in(key: &str) -> Option<Kind>
    ensures { option_map said_kind result ≡ kind_in kinds key.now }
{
    match key {
        "a" => Some(Kind::Name),
        "and" => Some(Kind::Source),
        "b" => Some(Kind::Name),
        "c" => Some(Kind::Integer),
        "d" => Some(Kind::Name),
        "edits" => Some(Kind::Several),
        "expand" => Some(Kind::Offsets),
        "from" => Some(Kind::Number),
        "i" => Some(Kind::Index),
        "is" => Some(Kind::Domain),
        "j" => Some(Kind::Index),
        "k" => Some(Kind::Number),
        "l" => Some(Kind::Number),
        "line" => Some(Kind::AnyText),
        "map" => Some(Kind::Mapping),
        "minus" => Some(Kind::Source),
        "note" => Some(Kind::Note),
        "on" => Some(Kind::Domain),
        "or" => Some(Kind::Source),
        "slice" => Some(Kind::Source),
        "text" => Some(Kind::Workbook),
        "to" => Some(Kind::Source),
        "translate" => Some(Kind::Offsets),
        "v" => Some(Kind::Integer),
        "vs" => Some(Kind::Integers),
        "xor" => Some(Kind::Source),
        _ => None,
    }
}

/// What the value of a key has to spell, in a request of an op.
pub(crate) fn kind_of(op: &str, key: &str) -> Option<Kind>
    ensures { option_map said_kind result ≡ kind_of op.now key.now }
{
    if key == "of" {
        if op == "assoc" {
            return Some(Kind::KeyType);
        }
        return Some(Kind::Name);
    }
    if key == "how" {
        if op == "reduce" {
            return Some(Kind::Reduction);
        }
        return Some(Kind::Operation);
    }
    kind_in(key)
}
