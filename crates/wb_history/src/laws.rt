//! The laws of undo and redo at the workbook's own cells and commands, and of the answers of a history: each is the
//! contract of a function that does nothing. They name no command.

ghost use Rattle.selective_undo.specs.Laws.{AppendLaw, UndoLaw, SetBackLaw, LastLaw, RedoLaw, UndoAfterRedoLaw, RedoAfterUndoLaw, RedoBackLaw, DependentsLaw};
ghost use Rattle.selective_undo.specs.Laws.{NoShorterLaw, RecordLaw, RunLaw};
ghost use Rattle.wb_cells.specs.Schema.{workbook};
ghost use Rattle.wb_history.specs.ReplyLaws.{EditAnswerLaw, UndoAnswerLaw, LastAnswerLaw, RedoAnswerLaw, DependentsAnswerLaw, UndoAfterRedoAnswerLaw};
ghost use Rattle.wb_history.specs.ReplyLaws.{RedoAfterLastAnswerLaw, RedoBackAnswerLaw};

/// A new edit does at the end of a history what it does in the workbook as it is, and all edits before it stay.
pub fn append()
    ensures { AppendLaw workbook }
{}

/// An edit in force that no later edit in force needs may be undone: the history without it is legal, each other edit
/// does what it did, and the workbook is the one in which the edit's cells are set back.
pub fn undo()
    ensures { UndoLaw workbook }
{}

/// After an undo each cell that the edit touched has its value from before that edit, and every other cell stays.
pub fn set_back()
    ensures { SetBackLaw workbook }
{}

/// The latest edit in force may always be undone, and that gives the replay of the edits in force below it: domains,
/// elements and mappings exactly.
pub fn undo_of_last()
    ensures { LastLaw workbook }
{}

/// An edit out of force that is accepted in the workbook as it is, and neither needs a later edit in force nor is needed
/// by one, may be redone in its own place: it does there what it does now, and all others do what they did.
pub fn redo()
    ensures { RedoLaw workbook }
{}

/// A redo may be undone directly after it, which gives back the history.
pub fn undo_after_redo()
    ensures { UndoAfterRedoLaw workbook }
{}

/// The undo of the latest edit in force may be redone directly after it, which gives back the history.
pub fn redo_after_undo()
    ensures { RedoAfterUndoLaw workbook }
{}

/// Where the undo of any edit may be redone directly after it, that gives back the history, and the edit does what it
/// did.
pub fn redo_back()
    ensures { RedoBackLaw workbook }
{}

/// All dependents of an edit in force may be undone, from the greatest down to the edit itself.
pub fn dependents()
    ensures { DependentsLaw workbook }
{}

/// Nobody undoes an edit without its dependents: any list of undos, each granted in its turn, that has the edit has
/// them all.
pub fn dependents_are_least()
    ensures { NoShorterLaw workbook }
{}

/// What is kept of an edit in force is what it reads, and writes over, when it is done afresh after the edits in force
/// below it.
pub fn records()
    ensures { RecordLaw workbook }
{}

/// After any run of granted edits, undos and redos, for which nothing is ever replayed, the workbook is the replay from
/// empty of the edits in force, the history is legal, and the records are those of the replay.
pub fn run()
    ensures { RunLaw workbook }
{}

// ---- Answers

/// At most one answer to an edit fits a history: its number and count, or its refusal; but memory may run out.
pub fn one_answer_to_edit()
    ensures { EditAnswerLaw }
{}

/// At most one answer to an undo by number fits a history, but that memory may run out: each refusal comes exactly when
/// its cause is there.
pub fn one_answer_to_undo()
    ensures { UndoAnswerLaw }
{}

/// At most one answer to an undo of the latest fits a history, but that memory may run out.
pub fn one_answer_to_undo_of_last()
    ensures { LastAnswerLaw }
{}

/// At most one answer to a redo fits a history, but that memory may run out: each refusal comes exactly when its cause is
/// there.
pub fn one_answer_to_redo()
    ensures { RedoAnswerLaw }
{}

/// At most one answer to the question for the dependents of an edit fits a history, but that memory may run out.
pub fn one_answer_to_dependents()
    ensures { DependentsAnswerLaw }
{}

/// The undo of an edit directly after its redo is refused for want of memory alone, and gives back the edits.
pub fn undo_answered_after_redo()
    ensures { UndoAfterRedoAnswerLaw }
{}

/// The redo directly after the undo of the latest is refused for want of memory alone, and gives back the edits.
pub fn redo_answered_after_undo_of_last()
    ensures { RedoAfterLastAnswerLaw }
{}

/// Where the redo of any edit is granted directly after its undo, it sets as many cells, and gives back the edits.
pub fn redo_answered_after_undo()
    ensures { RedoBackAnswerLaw }
{}
