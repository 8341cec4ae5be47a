//! `json_only`: prints each JSON line of standard input again, and does nothing else. `scripts/bench/lines` compares the
//! program with it.
#![tactic(auto)]

mod printer;

ghost use Rattle.json_only.specs.Printing.{PrintsAgain};
ghost use Rattle.wb_lines.specs.Session.{Answered};

use printer::{Printer, answer};
use std::alloc::AllocError;
use std::io::{self, BufWriter};
use wb_lines::{Input, Output, SessionEnd, serve_lines};

fn main(rt: HostRuntime) -> io::Result<()> {
    let alloc = rt.alloc();
    let mut input = Input::new(rt.stdin());
    let mut output = Output::new(BufWriter::new(alloc, rt.stdout())?);
    let answer_line = |printer: &mut Printer, line: &[u8]| -> Result<Vec<u8>, AllocError>
        ensures { Answered PrintsAgain printer.old line.now result printer.new }
    { answer(printer, line) };
    let mut printer = Printer::new(alloc);
    match serve_lines::<Printer, Printer, _, _, _>(
        alloc,
        &mut printer,
        &answer_line,
        &mut input,
        &mut output,
    ) {
        SessionEnd::Done(_) => Ok(()),
        _ => Err(io::ErrorKind::Other.into()),
    }
}
