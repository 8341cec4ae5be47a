ghost use Rattle.wb_laws.specs.Counts.{EditCountLaw, UndoCountLaw, LastCountLaw, RedoCountLaw};
ghost use Rattle.wb_laws.specs.Defaults.{DefaultsLaw};
ghost use Rattle.wb_laws.specs.Pieces.{PiecesLaw};
ghost use Rattle.wb_laws.specs.ReshapeLaw.{ReshapeLaw};

// ---- Workbooks

/// The pieces of an array of a well-formed workbook are the array: each element is in the piece of exactly one locale of its
/// domain's mapping, and a piece has nothing else.
pub fn pieces()
    ensures { PiecesLaw }
{}

/// After an accepted reshape the domain has exactly the indices of the source, and each array over it is reallocated: an element
/// stays where its index was there before, and a new index brings the implicit value, or 0 (Chapel Language Specification,
/// Domains and Arrays).
pub fn reshape()
    ensures { ReshapeLaw }
{}

/// In a well-formed workbook nothing is missing that the readers of a domain look for: what they say of a missing cell is said
/// of no domain.
pub fn defaults()
    ensures { DefaultsLaw }
{}

// ---- Counts

/// The count of an edit is the size of the set of cells that it touches, the cells `In` aside.
pub fn edit_count()
    ensures { EditCountLaw }
{}

/// The count of an undo is the size of the set of cells that the edit touched.
pub fn undo_count()
    ensures { UndoCountLaw }
{}

/// The count of an undo of the latest is the size of the set of cells that its edit touched.
pub fn undo_last_count()
    ensures { LastCountLaw }
{}

/// The count of a redo is the size of the set of cells that the edit touches now.
pub fn redo_count()
    ensures { RedoCountLaw }
{}
