ghost use Rattle.std.specs.Prelude.{◌≡◌, IfOk, string_bytes};

use std::alloc::Global;
use std::marker::Model;
use wb_range::NoMemory;

/// The text of a workbook or of a history. Contracts see its bytes.
#[derive(Debug, Drop)]
pub struct PrintedText {
    text: String,
}

impl Model for PrintedText {
    ghost use Rattle.std.specs.Prelude.{ℕ, List, string_bytes};

    ghost Value = { List ℕ };

    ghost view = { λ a. string_bytes a.text };
}

impl PrintedText {
    pub(crate) fn new(text: String) -> PrintedText
        ensures { result ≡ string_bytes text }
    {
        PrintedText { text }
    }

    /// The text.
    pub fn as_str(&self) -> &str
        ensures { result.now ≡ self.now }
    {
        self.text.as_str()
    }

    /// An equal text, or `NoMemory`.
    pub fn copy(&self, alloc: Global) -> Result<PrintedText, NoMemory>
        ensures { IfOk result (λ t. t ≡ self.now) }
    {
        Ok(PrintedText::new(String::from_str(alloc, self.as_str())?))
    }
}
