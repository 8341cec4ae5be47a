//! Where turns are kept.
ghost use Rattle.std.specs.Prelude.{List, ◌++◌, OnOk, IfErr};

/// A store that has turns, in order. It is asked to add some behind them.
pub trait Store<C, E> {
    /// From now on it has all of these turns, in order, whatever happens.
    ghost has: { Self → List C → Type 0 };

    /// What is left at each moment of a call that adds turns behind those that it has.
    ghost leaves: { Self → Self → List C → List C → Type 0 };

    /// What an error tells of the call that it ended, from the store before it to the one that it left.
    ghost tells: { E → Self → Self → Type 0 };

    /// It is left as it is to be where nothing more is added.
    ghost closed: { Self → Type 0 };

    /// Adds turns behind those that it has. After an `Err`, it is to be opened again.
    fn add(&mut self, turns: &[C]) -> Result<(), E>
        requires { (before : List C) × has self.old before }
        ensures kept { (before : List C) → has self.old before → OnOk result (has self.new (before ++ turns.now)) }
        ensures any_moment { (before : List C) → has self.old before → leaves self.old self.new before turns.now }
        ensures cause { IfErr result (λ e. tells e self.old self.new) };

    /// Adds the last turns, and closes the store.
    fn finish(&mut self, turns: &[C]) -> Result<(), E>
        requires { (before : List C) × has self.old before }
        ensures kept { (before : List C) → has self.old before → OnOk result (has self.new (before ++ turns.now)) }
        ensures closed { OnOk result (closed self.new) }
        ensures any_moment { (before : List C) → has self.old before → leaves self.old self.new before turns.now }
        ensures cause { IfErr result (λ e. tells e self.old self.new) };
}
