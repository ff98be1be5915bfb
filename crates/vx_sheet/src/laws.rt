//! Laws of sheets. These functions do nothing; their contracts are the laws.

ghost use Rattle.vx_sheet.specs.Laws.{EitherPageFirst, SheetsFit};
ghost use Rattle.vx_sheet.specs.Margin.{FittingSheetsAreRead};
ghost use Rattle.vx_sheet.specs.Shows.{PairedCanBeAdded, SheetEventsAreKeepable};

use vx_layout::{plans_are_numbered, plans_show_each_option, plans_stand_on_the_grid};
use vx_scan_model::{fitting_scans_are_read, named_pages_stand_on_the_grid};

/// Two readings are the same sheet, whichever comes first.
pub fn either_page_may_come_first()
    ensures { EitherPageFirst }
{}

/// The sheet of two readings of a planned card fits the election: its card is there, its front is odd,
/// and it has a state for each option of each of its contests.
pub fn sheets_fit()
    ensures { SheetsFit }
{
    plans_are_numbered();
    plans_stand_on_the_grid();
}

/// The sheet of two images that were read fits the election, and can be kept in a journal.
fn paired_sheets_can_be_added()
    ensures { PairedCanBeAdded }
{
    sheets_fit();
    named_pages_stand_on_the_grid();
}

/// The event of the sheet of two images fits the election, and has a record.
pub fn sheet_events_are_keepable()
    ensures { SheetEventsAreKeepable }
{
    paired_sheets_can_be_added();
    plans_show_each_option();
}

/// Two images that fit the facing pages of a sheet, in either order, are read and paired as that sheet, with
/// their marks.
pub fn fitting_sheets_are_read()
    ensures { FittingSheetsAreRead }
{
    fitting_scans_are_read();
}
