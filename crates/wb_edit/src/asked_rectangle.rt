ghost use Rattle.std.specs.Prelude.{◌≡◌};
ghost use Rattle.std.specs.Bool.{Decides};

use wb_cells::AnyRect;

/// The rectangle that a command is asked for.
#[derive(Clone, Copy)]
pub enum AskedRectangle {
    /// Its ranges.
    Ranges(AnyRect),
    /// A set of indices in its place, which is no rectangle: the command is refused.
    Indices,
}

impl AskedRectangle {
    /// Whether the same is asked for.
    pub fn is_same(&self, other: &AskedRectangle) -> bool
        ensures { Decides result (self.now ≡ other.now) }
    {
        match (self, other) {
            (AskedRectangle::Ranges(ranges), AskedRectangle::Ranges(by)) => ranges.is_same(by),
            (AskedRectangle::Indices, AskedRectangle::Indices) => true,
            _ => false,
        }
    }
}
