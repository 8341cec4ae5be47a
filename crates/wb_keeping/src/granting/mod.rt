//! Which lines are changes of a history, and which changes an answered line made (`specs/Granting/Granting.antt`), with six laws, each
//! the contract of a function that does nothing.

ghost use Rattle.wb_keeping.specs.Granting.Granting.{OneHistory, ChangesLead, BeginsNoSession, LinesAsk, EditsInOrder, EachLineCounts};

/// A change leads to one history.
pub fn one_history()
    ensures { OneHistory }
{}

/// The changes that an answer made, granted again one after the other, lead where it led.
pub fn changes_lead()
    ensures { ChangesLead }
{}

/// A line that a history begins with is no request: a session refuses it with E01.
pub fn begins_no_session()
    ensures { BeginsNoSession }
{}

/// The edits of a history to which lines lead were each asked for by a line, so that the history has a text that is read.
pub fn lines_ask()
    ensures { LinesAsk }
{}

/// The edits of a history are those that its lines ask for, in their order. So lines that ask for the edits in another order
/// stand for another history.
pub fn edits_in_order()
    ensures { EditsInOrder }
{}

/// Without any one of its lines a file stands for another history, or for none; so does one that has a line twice.
pub fn each_line_counts()
    ensures { EachLineCounts }
{}
