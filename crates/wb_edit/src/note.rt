ghost use Rattle.std.specs.Prelude.{◌≡◌, true, IfOk, IfSome, is_some, option_map, string_bytes};
ghost use Rattle.std.specs.Bool.{Decides};
ghost use Rattle.wb_edit.specs.Transactions.{is_note};

use std::alloc::Global;
use std::marker::Model;
use wb_range::NoMemory;
use wb_sets::are_plain;

/// A note has at most so many bytes.
const MAX_BYTES: usize = 256;

/// What an edit is for, in words: at most 256 bytes of UTF-8 without `"`, `\`, characters below U+0020 and U+007F.
///
/// Contracts see its bytes.
#[derive(Debug, Drop)]
pub struct Note {
    text: String,
}

impl Model for Note {
    ghost use Rattle.std.specs.Prelude.{◌≡◌, ℕ, true, List, string_bytes};
    ghost use Rattle.wb_edit.specs.Transactions.{is_note};

    ghost Value = { List ℕ };

    ghost view = { λ a. string_bytes a.text };

    ghost invariant = { λ a. is_note (string_bytes a.text) ≡ true };
}

impl Note {
    /// The note with this text, or `None` exactly where the text is none.
    pub fn new(text: String) -> Option<Note>
        ensures value { IfSome result (λ n. n ≡ string_bytes text) }
        ensures accepts { is_some result ≡ is_note (string_bytes text) }
    {
        if !is_note_text(text.as_bytes()) {
            return None;
        }
        Some(Note { text })
    }

    /// The text.
    pub fn as_str(&self) -> &str
        ensures same { result.now ≡ self.now }
        ensures note { is_note self.now ≡ true }
    {
        self.text.as_str()
    }

    /// An equal note, or `NoMemory`.
    pub fn copy(&self, alloc: Global) -> Result<Note, NoMemory>
        ensures { IfOk result (λ n. n ≡ self.now) }
    {
        match String::from_str(alloc, self.as_str()) {
            Ok(text) => Ok(Note { text }),
            Err(_) => Err(NoMemory),
        }
    }

    /// An equal note, if there is one, or `NoMemory`.
    pub fn copied(alloc: Global, note: Option<&Note>) -> Result<Option<Note>, NoMemory>
        ensures { IfOk result (λ n. n ≡ option_map (λ m. m.now) note.entry) }
    {
        match note {
            None => Ok(None),
            Some(note) => match note.copy(alloc) {
                Ok(copy) => Ok(Some(copy)),
                Err(why) => Err(why),
            },
        }
    }

    /// Whether the notes are equal.
    pub fn is_same(&self, other: &Note) -> bool
        ensures { Decides result (self.now ≡ other.now) }
    {
        self.as_str() == other.as_str()
    }

    /// Whether both are equal notes, or neither is there.
    pub fn are_same(note: &Option<Note>, other: &Option<Note>) -> bool
        ensures { Decides result (note.now ≡ other.now) }
    {
        match (note, other) {
            (Some(note), Some(by)) => note.is_same(by),
            (None, None) => true,
            _ => false,
        }
    }
}

// Whether these bytes of a text are those of a note.
fn is_note_text(source: &[u8]) -> bool
    ensures { result ≡ is_note source.now }
{
    if source.len() > MAX_BYTES {
        return false;
    }
    are_plain(source)
}
