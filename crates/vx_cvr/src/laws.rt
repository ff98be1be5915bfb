//! Laws of the rows and of the pieces of a report. These functions do nothing; their contracts are the laws.

ghost use Rattle.vx_cvr.specs.Laws.{EachRowIsOfASheet, OneRowOfAKey, PiecesAreTheReport, RowsAreOfTheSheets};

/// The rows of a report are one for each sheet that was added, and none else, in the order of their
/// keys.
pub fn rows_are_of_the_sheets()
    ensures { RowsAreOfTheSheets }
{}

/// Each row of a report is of a sheet that was added.
pub fn each_row_is_of_a_sheet()
    ensures { EachRowIsOfASheet }
{}

/// A key that one added sheet has, one row of the report has: that sheet's.
pub fn one_row_of_a_key()
    ensures { OneRowOfAKey }
{}

/// The pieces in which a report is written, one after another, are the report.
pub fn pieces_are_the_report()
    ensures { PiecesAreTheReport }
{}
