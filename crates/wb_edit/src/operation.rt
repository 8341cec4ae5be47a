ghost use Rattle.std.specs.Prelude.{◌≡◌};
ghost use Rattle.std.specs.Bool.{Decides};

/// How the element of one array and that of another one at the same index make a new one.
#[derive(Clone, Copy, Debug, PartialEq, Eq)]
pub enum Operation {
    /// The second one.
    Assign,
    /// Their sum.
    Sum,
    /// The first one less the second.
    Difference,
    /// Their product.
    Product,
}

impl Operation {
    /// Whether the operations are equal.
    pub fn is_same(self, other: Operation) -> bool
        ensures { Decides result (self ≡ other) }
    {
        match (self, other) {
            (Operation::Assign, Operation::Assign) => true,
            (Operation::Sum, Operation::Sum) => true,
            (Operation::Difference, Operation::Difference) => true,
            (Operation::Product, Operation::Product) => true,
            _ => false,
        }
    }
}
