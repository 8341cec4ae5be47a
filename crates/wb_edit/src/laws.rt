//! What holds of every edit: each law is the contract of a function that does nothing.

ghost use Rattle.selective_undo.specs.Laws.{LocalityLaw};
ghost use Rattle.wb_cells.specs.Schema.{workbook};
ghost use Rattle.wb_edit.specs.Laws.{EachCellOnce, KeepsWellFormed};

/// A valid edit, accepted or refused, leaves a well-formed workbook well formed.
///
/// Well formed: each array's domain is there, and its elements have exactly that domain's indices; the
/// cells `In` are exactly those of the shapes; names are names, and all limits hold.
pub fn keeps_well_formed()
    ensures { KeepsWellFormed }
{}

/// What a valid edit writes in a well-formed workbook names each cell once. So the count of a plan is how many cells the
/// edit touches, the cells `In` aside.
pub fn each_cell_once()
    ensures { EachCellOnce }
{}

/// What an edit does depends on what it reads alone: in two workbooks that agree on the cells that it reads in one of
/// them, it is refused alike or writes the same, and reads the same. The law names no command.
pub fn locality()
    ensures { LocalityLaw workbook }
{}
