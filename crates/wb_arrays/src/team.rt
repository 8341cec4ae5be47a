ghost use Rattle.std.specs.Prelude.{◌≡◌, ◌<◌};

/// The workers of a mover, and what they need.
#[derive(Drop)]
pub struct Team<'a, R, G> {
    pub(crate) rt: &'a R,
    pub(crate) gate: &'a G,
    pub(crate) count: usize,
    ghost some: { 0 < count },
}

impl<'a, R, G> Team<'a, R, G> {
    /// `count` workers, at least one.
    pub fn new(rt: &'a R, gate: &'a G, count: usize) -> Team<'a, R, G>
        requires { 0 < count }
        ensures { result.count ≡ count }
    {
        Team { rt, gate, count }
    }
}
