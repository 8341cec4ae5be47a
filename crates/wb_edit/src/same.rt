// Whether two commands are equal.
ghost use Rattle.std.specs.Prelude.{◌≡◌};
ghost use Rattle.std.specs.Bool.{Decides};

use crate::asked_rectangle::AskedRectangle;
use crate::command::Command;
use wb_cells::{AnyIndex, Name};

fn are_same_names(one: &Name, other: &Name, two: &Name, another: &Name) -> bool
    ensures { Decides result ((one.now ≡ two.now) × (other.now ≡ another.now)) }
{
    if !one.is_same(two) {
        return false;
    }
    other.is_same(another)
}

pub(crate) fn is_same_place(one: &Name, at: &AnyIndex, two: &Name, other: &AnyIndex) -> bool
    ensures { Decides result ((one.now ≡ two.now) × (at.now ≡ other.now)) }
{
    if !one.is_same(two) {
        return false;
    }
    at.is_same(other)
}

fn is_same_part(one: &Name, on: &AskedRectangle, two: &Name, other: &AskedRectangle) -> bool
    ensures { Decides result ((one.now ≡ two.now) × (on.now ≡ other.now)) }
{
    if !one.is_same(two) {
        return false;
    }
    on.is_same(other)
}

impl Command {
    /// Whether the commands are equal.
    pub fn is_same(&self, other: &Command) -> bool
        ensures { Decides result (self.now ≡ other.now) }
    {
        match (self, other) {
            (Command::Domain(a, b, c), Command::Domain(x, y, z)) => {
                if !is_same_part(a, b, x, y) {
                    return false;
                }
                c.is_same(z)
            }
            (Command::Remap(a, b), Command::Remap(x, y)) => {
                if !a.is_same(x) {
                    return false;
                }
                b.is_same(y)
            }
            (Command::Sparse(a, b), Command::Sparse(x, y)) => are_same_names(a, b, x, y),
            (Command::Assoc(a, b), Command::Assoc(x, y)) => {
                if !a.is_same(x) {
                    return false;
                }
                b.is_same(*y)
            }
            (Command::Array(a, b), Command::Array(x, y)) => are_same_names(a, b, x, y),
            (Command::Set(a, b, c), Command::Set(x, y, z)) => {
                if !is_same_place(a, b, x, y) {
                    return false;
                }
                *c == *z
            }
            (Command::Irv(a, b), Command::Irv(x, y)) => {
                if !a.is_same(x) {
                    return false;
                }
                *b == *y
            }
            (Command::Copy(a, b, c, d, e), Command::Copy(v, w, x, y, z)) => {
                if !is_same_place(a, b, v, w) {
                    return false;
                }
                if !is_same_place(c, d, x, y) {
                    return false;
                }
                *e == *z
            }
            (Command::Fill(a, b, c), Command::Fill(x, y, z)) => {
                if !is_same_part(a, b, x, y) {
                    return false;
                }
                *c == *z
            }
            (Command::Put(a, b), Command::Put(x, y)) => {
                if !a.is_same(x) {
                    return false;
                }
                b.is_same(y)
            }
            (Command::FillAll(a, b), Command::FillAll(x, y)) => {
                if !a.is_same(x) {
                    return false;
                }
                *b == *y
            }
            (Command::DropArray(a), Command::DropArray(x)) => a.is_same(x),
            (Command::All(a, b, c), Command::All(x, y, z)) => {
                if !are_same_names(a, c, x, z) {
                    return false;
                }
                b.is_same(*y)
            }
            (Command::Add(a, b), Command::Add(x, y)) => is_same_place(a, b, x, y),
            (Command::Remove(a, b), Command::Remove(x, y)) => is_same_place(a, b, x, y),
            (Command::DropDomain(a), Command::DropDomain(x)) => a.is_same(x),
            (Command::Reshape(a, b), Command::Reshape(x, y)) => {
                if !a.is_same(x) {
                    return false;
                }
                b.is_same(y)
            }
            _ => false,
        }
    }
}
