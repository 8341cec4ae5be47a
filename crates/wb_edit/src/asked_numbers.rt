ghost use Rattle.std.specs.Prelude.{◌≡◌, IfOk};
ghost use Rattle.std.specs.Bool.{Decides};

use crate::numbered_rectangle::NumberedRectangle;
use std::alloc::Global;
use wb_range::NoMemory;

/// The numbers that a command is asked for, and where.
#[derive(Drop)]
pub enum AskedNumbers {
    /// A number for each index of a rectangle.
    Rectangle(NumberedRectangle),
    /// A set of indices in the place of the rectangle: the command is refused.
    Indices,
}

impl AskedNumbers {
    /// What is equally asked for, or `NoMemory` where none is left for the numbers.
    pub fn copy(&self, alloc: Global) -> Result<AskedNumbers, NoMemory>
        ensures { IfOk result (λ r. r ≡ self.now) }
    {
        match self {
            AskedNumbers::Rectangle(numbered) => Ok(AskedNumbers::Rectangle(numbered.copy(alloc)?)),
            AskedNumbers::Indices => Ok(AskedNumbers::Indices),
        }
    }

    /// Whether the same is asked for.
    pub fn is_same(&self, other: &AskedNumbers) -> bool
        ensures { Decides result (self.now ≡ other.now) }
    {
        match (self, other) {
            (AskedNumbers::Rectangle(numbered), AskedNumbers::Rectangle(by)) => {
                numbered.is_same(by)
            }
            (AskedNumbers::Indices, AskedNumbers::Indices) => true,
            _ => false,
        }
    }
}
