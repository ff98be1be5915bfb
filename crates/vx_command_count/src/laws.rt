//! What `count` leaves of a journal, and what it keeps of scans that fit. These functions do nothing; their
//! contracts are the laws.

ghost use Rattle.vx_command_count.specs.Added.{SheetsAreAdded};
ghost use Rattle.vx_command_count.specs.Laws.{CountKeepsJournals, CountsEndWell};
ghost use Rattle.vx_command_count.specs.Margin.{
  FittingSheetsAreAdded,
  FittingSheetsAreKept,
  MarkedSheetsSayEachMark,
};

use vx_center::replies_are_done_or_refuse;
use vx_command::{scanned_images_are_whole, taken_elections_are_valid};
use vx_journal::{begun_journals_are_journals, headers_begin_journals, journals_grow};
use vx_layout::{plans_are_numbered, plans_show_each_option, plans_stand_on_the_grid};
use vx_sheet::{fitting_sheets_are_read, sheet_events_are_keepable};

/// A journal stays one behind each record that `count` appends.
pub fn count_keeps_journals()
    ensures { CountKeepsJournals }
{
    taken_elections_are_valid();
    replies_are_done_or_refuse();
    begun_journals_are_journals();
    headers_begin_journals();
    journals_grow();
    sheet_events_are_keepable();
}

/// A `count` whose election can be read, whose cards can be planned and whose journal replays ends, where no
/// device fails, with no device's failure.
pub fn counts_end_well()
    ensures { CountsEndWell }
{}

/// Where each two images of the scans are a sheet, the record of each sheet is appended, in order and nothing
/// else: its keys being new, its numbers at most 999,999 and room being there.
pub fn sheets_are_added()
    ensures { SheetsAreAdded }
{}

/// Two images that fit the facing pages of a sheet, in either order, are counted as that sheet: where its
/// key is new, its number at most 999,999 and the machine not full, its record is appended, and then its
/// lines are written.
pub fn fitting_sheets_are_added()
    ensures { FittingSheetsAreAdded }
{
    fitting_sheets_are_read();
}

/// However far the acts of `count` are done, the record of each such sheet stands in its place among those
/// that it keeps.
pub fn fitting_sheets_are_kept()
    ensures { FittingSheetsAreKept }
{
    taken_elections_are_valid();
    scanned_images_are_whole();
    fitting_sheets_are_read();
}

/// What a sheet that two images fit is counted as says of each bubble of both pages, at its contest and its
/// option, whether it is marked.
pub fn marked_sheets_say_each_mark()
    ensures { MarkedSheetsSayEachMark }
{
    plans_are_numbered();
    plans_show_each_option();
    plans_stand_on_the_grid();
}
