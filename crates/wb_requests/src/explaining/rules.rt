// The rules of lines, and their texts.
ghost use Rattle.std.specs.Prelude.{◌≡◌};
ghost use Rattle.std.specs.Bool.{Decides};
ghost use Rattle.wb_requests.specs.Explained.{literal_rule, spelled_rule, rule_text};
ghost use Rattle.wb_requests.specs.Said.{said_fault, said_kind, said_rule};

use crate::explaining::fault::Fault;
use crate::explaining::kinds::Kind;

/// What is wanted.
#[derive(Clone, Copy, Debug)]
pub(crate) enum Rule {
    /// A line is JSON.
    IsJson,
    /// A line is an object.
    IsObject,
    /// Its op is one.
    NamesOp,
    /// It has no field but those of the op.
    HasNoMore,
    /// It has the fields that the op always has.
    HasAll,
    /// Of fields in the place of one another it has one.
    HasOneOf,
    /// A value spells what its kind says.
    Spells(Kind),
    /// A `put` has as many numbers as indices.
    AreCounted,
    /// The op of a command within a transaction is that of a command.
    NamesCommand,
}

impl Rule {
    /// Whether the rules are equal.
    pub(crate) fn is_same(self, other: Rule) -> bool
        ensures { Decides result (self ≡ other) }
    {
        match (self, other) {
            (Rule::IsJson, Rule::IsJson) => true,
            (Rule::IsObject, Rule::IsObject) => true,
            (Rule::NamesOp, Rule::NamesOp) => true,
            (Rule::HasNoMore, Rule::HasNoMore) => true,
            (Rule::HasAll, Rule::HasAll) => true,
            (Rule::HasOneOf, Rule::HasOneOf) => true,
            (Rule::Spells(kind), Rule::Spells(by)) => kind.is_same(by),
            (Rule::AreCounted, Rule::AreCounted) => true,
            (Rule::NamesCommand, Rule::NamesCommand) => true,
            _ => false,
        }
    }

    /// Its text, by how it is broken.
    pub(crate) fn text(self, fault: Fault) -> &'static str
        ensures { result.now ≡ rule_text (said_rule self) (said_fault fault) }
    {
        match self {
            Rule::IsJson => "JSON in UTF-8",
            Rule::IsObject => "a JSON object",
            Rule::NamesOp => "an op",
            Rule::HasNoMore => "no field that the op does not have",
            Rule::HasAll => "each field that the op has",
            Rule::HasOneOf => {
                "one of the fields to, slice, translate, expand, or, and, minus and xor"
            }
            Rule::Spells(kind) => spelled_rule(kind, fault),
            Rule::AreCounted => "as many numbers as the rectangle has indices",
            Rule::NamesCommand => "an op that changes a domain or an array",
        }
    }
}

// What a literal has to be, by how it fails.
fn literal_rule(
    text: &'static str,
    grammar: &'static str,
    limits: &'static str,
    fault: Fault,
) -> &'static str
    ensures { result.now ≡ literal_rule text.now grammar.now limits.now (said_fault fault) }
{
    match fault {
        Fault::BadRequest => text,
        Fault::BadLiteral => grammar,
        Fault::TooLarge => limits,
        Fault::BadMapping => {
            "parts of one rank, a box of filled ranges with stride 1, block sizes from 1, and a grid of 1 to 256 locales"
        }
    }
}

// What a value has to be, by how it fails.
fn spelled_rule(kind: Kind, fault: Fault) -> &'static str
    ensures { result.now ≡ spelled_rule (said_kind kind) (said_fault fault) }
{
    match kind {
        Kind::Name => "a name: 1 to 32 letters, digits and _, a letter first",
        Kind::Integer => "an integer from -2^63 to 2^63-1, without fraction and exponent",
        Kind::Number => "an integer from 0 to 2^64-1, without fraction and exponent",
        Kind::Index => {
            "an index: an integer, an array of 2 or 3 of them, or a text of at most 64 bytes without quotes, backslashes and control characters"
        }
        Kind::Integers => "an array of integers from -2^63 to 2^63-1",
        Kind::Offsets => "an integer, or an array of 2 or 3 of them",
        Kind::KeyType => "int or text",
        Kind::Operation => "=, +, - or *",
        Kind::Reduction => "+, min or max",
        Kind::AnyText => "a text",
        Kind::Note => {
            "a text of at most 256 bytes without quotes, backslashes and control characters"
        }
        Kind::Several => "an array of 1 to 4096 edits",
        Kind::Domain => literal_rule(
            "a text",
            "a rectangle or a set, as {1..9} or {1, 5}",
            "at most 65536 indices, bounds within 10^18",
            fault,
        ),
        Kind::Mapping => literal_rule(
            "a text",
            "none, blockDist(..), cyclicDist(..) or blockCycDist(..)",
            "a box of at most 65536 indices, bounds within 10^18",
            fault,
        ),
        Kind::Source => literal_rule(
            "a literal in braces, or the name of a domain",
            "a rectangle or a set, as {1..9} or {1, 5}",
            "at most 65536 indices, bounds within 10^18",
            fault,
        ),
        Kind::Workbook => literal_rule(
            "a text",
            "the text of a workbook, as print answers it",
            "",
            fault,
        ),
    }
}
