ghost use Rattle.std.specs.Prelude.{◌≡◌, IfOk, string_bytes};
ghost use Rattle.std.specs.Bool.{Decides};

use std::alloc::Global;
use std::marker::Model;
use wb_range::NoMemory;

/// The text of a line that is asked about. Contracts see its bytes.
#[derive(Debug, Drop)]
pub struct LineText {
    text: String,
}

impl Model for LineText {
    ghost use Rattle.std.specs.Prelude.{ℕ, List, string_bytes};

    ghost Value = { List ℕ };

    ghost view = { λ a. string_bytes a.text };
}

impl LineText {
    /// The line of a text.
    pub fn new(text: String) -> LineText
        ensures { result ≡ string_bytes text }
    {
        LineText { text }
    }

    /// The text.
    pub fn as_str(&self) -> &str
        ensures { result.now ≡ self.now }
    {
        self.text.as_str()
    }

    /// An equal line, or `NoMemory`.
    pub fn copy(&self, alloc: Global) -> Result<LineText, NoMemory>
        ensures { IfOk result (λ t. t ≡ self.now) }
    {
        Ok(LineText::new(String::from_str(alloc, self.as_str())?))
    }

    /// Whether the lines are equal.
    pub fn is_same(&self, other: &LineText) -> bool
        ensures { Decides result (self.now ≡ other.now) }
    {
        self.as_str() == other.as_str()
    }
}
