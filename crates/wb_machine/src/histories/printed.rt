//! The text of a whole history, whose lines are read as its edits.
ghost use Rattle.std.specs.Prelude.{◌≡◌, IfOk, OnOk, string_bytes};
ghost use Rattle.wb_machine.specs.Histories.Text.{history_text, AreSaid, AreProper, AreAsked, IsHistory};

use std::alloc::Global;
use wb_history::History;
use wb_range::NoMemory;

/// The text of a history: the line `chapel-workbook 2`, the lines of its workbook's objects, how many edits there are,
/// a line for each edit with its mark, and the line `end`. `NoMemory` where none is left. The line of each edit is read as
/// its request, if lines can say the members of these. So a history whose edits were asked for by lines is one whose text is
/// read.
pub fn print_history(alloc: Global, history: &History) -> Result<String, NoMemory>
    ensures text { IfOk result (λ t. string_bytes t ≡ history_text history.now.entries) }
    ensures said { OnOk result (AreProper history.now.entries → AreSaid history.now.entries) }
    ensures asked { OnOk result (AreAsked history.now.entries → IsHistory history.now.entries) }
{
    // For the proof: the history is legal.
    let _legal = history.book();
    crate::encoding::print_history(alloc, history)
}
