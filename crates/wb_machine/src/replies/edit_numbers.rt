ghost use Rattle.std.specs.Prelude.{◌≡◌, IfOk, take};
ghost use Rattle.std.specs.Bool.{Decides};

use std::alloc::Global;
use std::marker::Model;
use wb_range::NoMemory;

/// The numbers of edits. Contracts see the list of them.
#[derive(Debug, Drop)]
pub struct EditNumbers {
    numbers: Vec<u64>,
}

impl Model for EditNumbers {
    ghost use Rattle.std.specs.Prelude.{ℕ, List};

    ghost Value = { List ℕ };

    ghost view = { λ a. a.numbers.items };
}

impl EditNumbers {
    /// These numbers.
    pub fn new(numbers: Vec<u64>) -> EditNumbers
        ensures { result ≡ numbers.items }
    {
        EditNumbers { numbers }
    }

    /// The numbers.
    pub fn as_slice(&self) -> &[u64]
        ensures { result.now ≡ self.now }
    {
        self.numbers.as_slice()
    }

    /// An equal list, or `NoMemory`.
    pub fn copy(&self, alloc: Global) -> Result<EditNumbers, NoMemory>
        ensures { IfOk result (λ n. n ≡ self.now) }
    {
        Ok(EditNumbers::new(Vec::from_slice(alloc, self.as_slice())?))
    }

    /// So many of the numbers, from the first.
    pub fn first(self, count: usize) -> EditNumbers
        ensures { result ≡ take count self }
    {
        let mut numbers = self.numbers;
        numbers.truncate(count);
        EditNumbers::new(numbers)
    }

    /// Whether the lists are equal.
    pub fn is_same(&self, other: &EditNumbers) -> bool
        ensures { Decides result (self.now ≡ other.now) }
    {
        self.as_slice() == other.as_slice()
    }
}
