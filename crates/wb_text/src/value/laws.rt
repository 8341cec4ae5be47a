//! What holds of the texts of workbooks: the law is the contract of a function that does nothing.

ghost use Rattle.wb_text.specs.Texts.Laws.{FoundInItsText};

/// Each well-formed workbook is found in its text, so a text tells of no other cells than its workbook has.
pub fn found_in_its_text()
    ensures { FoundInItsText }
{}
