//! Lines of changes.
ghost use Rattle.std.specs.Prelude.{◌≡◌, [], ◌∷◌, ◌++◌, OnOk, OnErr};
ghost use Rattle.wb_lines.specs.Lines.{IsUnbroken, ended};
ghost use Rattle.wb_keep.specs.Lines.{lines_of};

use std::alloc::{AllocError, Global};
use std::marker::Model;

/// The lines of changes that wait to be kept.
#[derive(Drop)]
pub struct Changes {
    text: Vec<u8>,
}

impl Model for Changes {
    ghost use Rattle.std.specs.Prelude.{List, ℕ};
    ghost use Rattle.wb_kept.specs.Texts.{lines_in, IsWhole};

    ghost Value = { List (List ℕ) };

    ghost view = { λ c. lines_in c.text.items };

    ghost invariant = { λ c. IsWhole c.text.items };
}

impl Changes {
    /// No change yet.
    pub fn new(alloc: Global) -> Changes
        ensures { result ≡ [] }
    {
        Changes {
            text: Vec::new(alloc),
        }
    }

    /// Adds a change. Where there is no memory for it, nothing is added.
    pub fn push(&mut self, line: &[u8]) -> Result<(), AllocError>
        requires { IsUnbroken line.now }
        ensures ok { OnOk result (self.new ≡ self.old ++ line.now ∷ []) }
        ensures err { OnErr result (self.new ≡ self.old) }
    {
        add_line(&mut self.text, line)
    }

    /// Adds all changes of another. Where there is no memory for them, nothing is added.
    pub fn append(&mut self, other: &Changes) -> Result<(), AllocError>
        ensures ok { OnOk result (self.new ≡ self.old ++ other.now) }
        ensures err { OnErr result (self.new ≡ self.old) }
    {
        self.text.extend_from_slice(&other.text)
    }

    /// The lines, each ended by a line feed.
    pub fn as_text(&self) -> &[u8]
        ensures { lines_of result.now ≡ self.now }
    {
        &self.text
    }
}

/// Adds a line with its end. Where there is no memory for it, nothing is added.
pub(crate) fn add_line(text: &mut Vec<u8>, line: &[u8]) -> Result<(), AllocError>
    ensures ok { OnOk result (text.new.items ≡ text.old.items ++ ended line.now) }
    ensures err { OnErr result (text.new.items ≡ text.old.items) }
{
    text.extend_from_slice(line)?;
    if text.push(b'\n').is_err() {
        text.truncate(text.len() - line.len());
        return Err(AllocError);
    }
    Ok(())
}
