ghost use Rattle.std.specs.Prelude.{◌≡◌};
ghost use Rattle.std.specs.Bool.{Decides};

use thiserror::Error;
use wb_cells::EditRefusal;

/// Why a request is refused. The text of each is its name in a reply.
#[derive(Clone, Copy, Debug, PartialEq, Eq, Error)]
pub enum Refusal {
    /// E01: no request. Given by the reading of a request alone.
    #[error("bad-request")]
    BadRequest,
    /// E02: a literal outside its grammar, or stride 0. Given by the reading of a request alone.
    #[error("bad-literal")]
    BadLiteral,
    /// E03 to E10, E15, E17 and E18: the edit or the query is refused.
    #[error("{0}")]
    Refused(EditRefusal),
    /// E11: no edit of that number, or nothing in force for undo of the latest.
    #[error("no-such-edit")]
    NoSuchEdit,
    /// E12: undo of an edit that is undone.
    #[error("not-in-force")]
    NotInForce,
    /// E13: redo of an edit that is in force.
    #[error("in-force")]
    InForce,
    /// E14: the edit of this number, the least one, blocks it.
    #[error("blocked")]
    Blocked(u64),
    /// E16: redo of an edit that would be refused now.
    #[error("refused-in-place")]
    RefusedInPlace(EditRefusal),
    /// E90: a growth was refused, or a mover had no thread.
    #[error("no-memory")]
    NoMemory,
    /// E92: a pass that a desk does not know. Given by a desk alone.
    #[error("strange-pass")]
    StrangePass,
}

impl Refusal {
    /// Whether the refusals are equal.
    pub fn is_same(self, other: Refusal) -> bool
        ensures { Decides result (self ≡ other) }
    {
        match (self, other) {
            (Refusal::BadRequest, Refusal::BadRequest) => true,
            (Refusal::BadLiteral, Refusal::BadLiteral) => true,
            (Refusal::Refused(why), Refusal::Refused(by)) => why.is_same(by),
            (Refusal::NoSuchEdit, Refusal::NoSuchEdit) => true,
            (Refusal::NotInForce, Refusal::NotInForce) => true,
            (Refusal::InForce, Refusal::InForce) => true,
            (Refusal::Blocked(number), Refusal::Blocked(by)) => number == by,
            (Refusal::RefusedInPlace(why), Refusal::RefusedInPlace(by)) => why.is_same(by),
            (Refusal::NoMemory, Refusal::NoMemory) => true,
            (Refusal::StrangePass, Refusal::StrangePass) => true,
            _ => false,
        }
    }
}
