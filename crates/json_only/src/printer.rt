// JSON lines, printed again.
ghost use Rattle.std.specs.Prelude.{◌≡◌, ◌⊎◌, IfOk};
ghost use Rattle.wb_lines.specs.Session.{Answered};
ghost use Rattle.json_only.specs.Printing.{PrintsAgain, IsJson, IsOther};

use serde_json::{Category, Value};
use std::alloc::{AllocError, Global};
use wb_lines::Machine;

/// A machine that answers each line with the JSON that it is.
#[derive(Drop)]
pub struct Printer {
    alloc: Global,
}

impl Printer {
    /// The machine; what it answers takes memory there.
    pub fn new(alloc: Global) -> Printer
        ensures { result ≡ record { alloc = alloc } }
    {
        Printer { alloc }
    }
}

// The JSON of a line as its compact text, and nothing for other lines.
fn printed(alloc: Global, line: &[u8]) -> Result<Vec<u8>, AllocError>
    ensures { IfOk result (λ text. IsJson line.now text.items ⊎ IsOther line.now text.items) }
{
    match Value::from_slice(alloc, line) {
        Ok(value) => {
            let text = value.to_string(alloc)?;
            Ok(text.into_bytes())
        }
        Err(error) => {
            if error.classify() == Category::Memory {
                return Err(AllocError);
            }
            Ok(Vec::new(alloc))
        }
    }
}

impl Machine<Printer> for Printer {
    ghost answers = { PrintsAgain };
}

/// What the machine answers to a line.
pub fn answer(printer: &mut Printer, line: &[u8]) -> Result<Vec<u8>, AllocError>
    ensures { Answered PrintsAgain printer.old line.now result printer.new }
{
    printed(printer.alloc, line)
}
