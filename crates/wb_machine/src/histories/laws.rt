//! What the text of a history tells of it, and that lines leave it readable: each law is the contract of a function that
//! does nothing.

ghost use Rattle.wb_machine.specs.Histories.Laws.{OneTextOneHistory, KeepsAsked};

/// Two histories with one text are the same history: the text tells each edit and whether it is in force.
pub fn one_text_one_history()
    ensures { OneTextOneHistory }
{}

/// A history whose edits were asked for by lines is, after one more line, such a history, whatever the line asks for. So is
/// every history that a session makes, and its text is read.
pub fn keeps_asked()
    ensures { KeepsAsked }
{}
