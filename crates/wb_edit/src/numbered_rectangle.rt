ghost use Rattle.std.specs.Prelude.{◌≡◌, length, IfNone, IfOk, IfSome};
ghost use Rattle.std.specs.Bool.{Decides};
ghost use Rattle.wb_cells.specs.Shapes.{indices};

use std::alloc::Global;
use std::marker::Model;
use wb_cells::AnyRect;
use wb_range::NoMemory;

/// A rectangle with a number for each of its indices, in their order. Contracts see its ranges and the numbers.
#[derive(Drop)]
pub struct NumberedRectangle {
    ranges: AnyRect,
    numbers: Vec<i64>,
}

impl Model for NumberedRectangle {
    ghost use Rattle.std.specs.Prelude.{◌≡◌, ℤ, List, length};
    ghost use Rattle.wb_cells.specs.Shapes.{Range, indices};

    ghost Value = { List Range × List ℤ };

    ghost view = { λ a. (a.ranges, a.numbers.items) };

    ghost invariant = { λ a. length a.numbers.items ≡ length (indices a.ranges) };
}

impl NumberedRectangle {
    /// The rectangle with the numbers, or `None` where these aren't as many as its indices.
    pub fn new(ranges: AnyRect, numbers: Vec<i64>) -> Option<NumberedRectangle>
        ensures some { IfSome result (λ r. r ≡ (ranges, numbers.items)) }
        ensures as_many { IfSome result (λ r. length numbers.items ≡ length (indices ranges)) }
        ensures none { IfNone result (length numbers.items ≡ length (indices ranges) → ⊥) }
    {
        if numbers.len() == ranges.size() {
            Some(NumberedRectangle { ranges, numbers })
        } else {
            None
        }
    }

    /// The ranges of the rectangle.
    pub fn ranges(&self) -> AnyRect
        ensures { result ≡ self.now.0 }
    {
        self.ranges
    }

    /// The numbers, in the order of the indices.
    pub fn numbers(&self) -> &[i64]
        ensures same { result.now ≡ self.now.1 }
        ensures as_many { length self.now.1 ≡ length (indices self.now.0) }
    {
        self.numbers.as_slice()
    }

    /// An equal rectangle with equal numbers, or `NoMemory`.
    pub fn copy(&self, alloc: Global) -> Result<NumberedRectangle, NoMemory>
        ensures { IfOk result (λ r. r ≡ self.now) }
    {
        match Vec::from_slice(alloc, self.numbers.as_slice()) {
            Ok(numbers) => Ok(NumberedRectangle {
                ranges: self.ranges,
                numbers,
            }),
            Err(_) => Err(NoMemory),
        }
    }

    /// Whether the rectangles are equal, and the numbers.
    pub fn is_same(&self, other: &NumberedRectangle) -> bool
        ensures { Decides result (self.now ≡ other.now) }
    {
        let on = self.ranges();
        let by = other.ranges();
        are_same(&on, self.numbers(), &by, other.numbers())
    }
}

// Whether the rectangles are equal, and the numbers.
fn are_same(on: &AnyRect, numbers: &[i64], by: &AnyRect, others: &[i64]) -> bool
    ensures { Decides result ((on.now ≡ by.now) × (numbers.now ≡ others.now)) }
{
    if !on.is_same(by) {
        return false;
    }
    are_same_numbers(numbers, others)
}

fn are_same_numbers(numbers: &[i64], others: &[i64]) -> bool
    ensures { Decides result (numbers.now ≡ others.now) }
{
    numbers == others
}
