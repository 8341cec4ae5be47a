//! What holds of every change of a domain's indices, of its end, and of what two sets make: each law is the contract of a function that does nothing.

ghost use Rattle.wb_reshape.specs.Laws.{KeepsRectangles, KeepsSets, KeepsDrops, CombinesSets, SortsIndices};

/// New ranges of a rectangular domain leave a well-formed workbook well formed, where no sparse domain in it has an index
/// outside them, and each array over the domain gets a number of 64 bits as its new elements.
pub fn keeps_rectangles()
    ensures { KeepsRectangles }
{}

/// New indices of a sparse or associative domain leave a well-formed workbook well formed, where each that comes is one
/// that the domain may have, and each array over the domain gets a number of 64 bits as its new elements.
pub fn keeps_sets()
    ensures { KeepsSets }
{}

/// The end of a domain to which nothing is bound leaves a well-formed workbook well formed, where each index that the domain
/// has is among those that go with it.
pub fn keeps_drops()
    ensures { KeepsDrops }
{}

/// What two sets make has each index once, and exactly those that the operation keeps.
pub fn combines_sets()
    ensures { CombinesSets }
{}

/// Indices in ascending order are strictly ascending, and the same ones.
pub fn sorts_indices()
    ensures { SortsIndices }
{}
