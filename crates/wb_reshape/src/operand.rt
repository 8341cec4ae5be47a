ghost use Rattle.std.specs.Prelude.{◌≡◌, IfOk};
ghost use Rattle.std.specs.Bool.{Decides};

use std::alloc::Global;
use wb_cells::{AnyIndex, AnyRect, Name};
use wb_range::NoMemory;
use wb_sets::Assoc;

/// The new value of a domain, or what is joined with its value, as it is given.
#[derive(Drop)]
pub enum Operand {
    /// A rectangle by its ranges.
    Rectangle(AnyRect),
    /// A set of indices.
    Items(Assoc<AnyIndex>),
    /// The value of the domain of this name.
    Named(Name),
}

impl Operand {
    /// What is equally given, or `NoMemory` where none is left for the set of indices.
    pub fn copy(&self, alloc: Global) -> Result<Operand, NoMemory>
        ensures { IfOk result (λ g. g ≡ self.now) }
    {
        match self {
            Operand::Rectangle(ranges) => Ok(Operand::Rectangle(*ranges)),
            Operand::Items(items) => Ok(Operand::Items(items.copy(alloc)?)),
            Operand::Named(domain) => Ok(Operand::Named(*domain)),
        }
    }

    /// Whether the same is given.
    pub fn is_same(&self, other: &Operand) -> bool
        ensures { Decides result (self.now ≡ other.now) }
    {
        match (self, other) {
            (Operand::Rectangle(ranges), Operand::Rectangle(by)) => ranges.is_same(by),
            (Operand::Items(items), Operand::Items(by)) => {
                are_same(items.as_slice(), by.as_slice())
            }
            (Operand::Named(domain), Operand::Named(by)) => domain.is_same(by),
            _ => false,
        }
    }
}

// Whether these are the same indices, in the same order.
fn are_same(indices: &[AnyIndex], others: &[AnyIndex]) -> bool
    ensures { Decides result (indices.now ≡ others.now) }
{
    if indices.len() != others.len() {
        return false;
    }
    for at in 0..indices.len() {
        if !indices[at].is_same(&others[at]) {
            return false;
        }
    }
    true
}
