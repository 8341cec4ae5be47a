//! What the text of a workbook tells of it: the law is the contract of a function that does nothing.

ghost use Rattle.wb_text.specs.Laws.{OneTextOneWorkbook};

/// Two well-formed workbooks with one text are the same workbook: the text tells every domain, array, index, element,
/// mapping and implicit value.
pub fn one_text_one_workbook()
    ensures { OneTextOneWorkbook }
{}
