//! Laws of whole runs, from scans to the report. These functions do nothing; their contracts are the laws.

ghost use Rattle.vx_headline.specs.Day.{CentersCountPrints, PrintsAreCounted, PrintsAreExported};
ghost use Rattle.vx_headline.specs.Exported.{MarkedPagesAreExported};
ghost use Rattle.vx_headline.specs.Stacks.{
  CentersCountStacks,
  EndedExportsAreExports,
  KeptSheetsWereAdded,
  StacksAreCounted,
  StacksAreRecounted,
};
ghost use Rattle.vx_headline.specs.Undecided.{
  UndecidedContestsAreExportedAsMarked,
  UndecidedReasonsWait,
  UntouchedContestsAreUndecided,
};

use vx_app::{fitting_sheets_are_in_their_items, runs_add_records, runs_keep_events};
use vx_center::{added_sheets_are_alone, found_sheets_stay, same_keys_are_equal};
use vx_command::{records_in_order, scanned_images_are_whole, taken_elections_are_valid};
use vx_command_center::{centers_keep_their_history, scans_are_items};
use vx_command_count::{
    count_keeps_journals, counts_end_well, fitting_sheets_are_kept, marked_sheets_say_each_mark,
};
use vx_command_export::exports_write_what_was_kept;
use vx_cvr::{each_row_is_of_a_sheet, one_row_of_a_key};
use vx_journal::{
    fronts_are_journals, journals_are_histories, journals_are_their_events, journals_stay,
    records_are_events,
};
use vx_pbm::{images_are_whole, raw_images_join, what_is_written_reads_back};
use vx_records::records_are_read;
use vx_scan_model::clean_prints_fit;
use vx_shared::{first_adds_are_done, interleavings_are_whole};
use vx_sheet::{fitting_sheets_are_read, sheet_events_are_keepable};

/// Of every export that ended well, behind whatever runs for its election: all that it wrote is the report of a
/// history that the journal keeps. Each sheet that a run counted, or two of them of which the first broke off, stands
/// there with exactly its marks, and each of its contests in its row where it is exported, with the last decisions
/// applied.
pub fn marked_pages_are_exported()
    ensures { MarkedPagesAreExported }
{
    taken_elections_are_valid();
    scanned_images_are_whole();
    fitting_sheets_are_read();
    fitting_sheets_are_kept();
    marked_sheets_say_each_mark();
    sheet_events_are_keepable();
    records_are_read();
    images_are_whole();
    fitting_sheets_are_in_their_items();
    exports_write_what_was_kept();
    count_keeps_journals();
    journals_stay();
    journals_are_histories();
    fronts_are_journals();
    records_are_events();
    interleavings_are_whole();
    first_adds_are_done();
    records_in_order();
    centers_keep_their_history();
    scans_are_items();
    counts_end_well();
    runs_add_records();
    added_sheets_are_alone();
    found_sheets_stay();
    same_keys_are_equal();
    one_row_of_a_key();
    each_row_is_of_a_sheet();
}

/// A contest of such a sheet of which no decision is kept, and for which no reason is enabled, stands in the
/// report once, as it was marked: its selections are exactly its marked options, none was ruled, and the numbers
/// of the text are theirs.
pub fn undecided_contests_are_exported_as_marked()
    ensures { UndecidedContestsAreExportedAsMarked }
{
    marked_pages_are_exported();
}

/// A contest of such a sheet of which no decision is kept, and for which a reason is enabled, stands nowhere in
/// the report.
pub fn undecided_reasons_wait()
    ensures { UndecidedReasonsWait }
{
    marked_pages_are_exported();
}

/// A contest of a sheet that runs counted is undecided where no kept event decides it: more isn't asked of it.
pub fn untouched_contests_are_undecided()
    ensures { UntouchedContestsAreUndecided }
{
    same_keys_are_equal();
}

/// Each sheet of a stack of pictures was counted by a `count` of their scans, which didn't break off before that
/// sheet, over a journal that has no sheet under its key and room for it, whatever was run before and behind.
pub fn stacks_are_counted()
    ensures { StacksAreCounted }
{
    raw_images_join();
    what_is_written_reads_back();
}

/// So it was by a `center` of which one item is the scan of the stack, where no item adds another sheet under the key
/// and the journal has room for all events of the items.
pub fn centers_count_stacks()
    ensures { CentersCountStacks }
{
    raw_images_join();
    what_is_written_reads_back();
}

/// So it was by two runs of `count` of the same stack, one directly behind the other, of which the first may have
/// broken off anywhere.
pub fn stacks_are_recounted()
    ensures { StacksAreRecounted }
{
    raw_images_join();
    what_is_written_reads_back();
    runs_keep_events();
    journals_are_their_events();
}

/// A sheet that the journal kept behind the earlier of some runs was added by them.
pub fn kept_sheets_were_added()
    ensures { KeptSheetsWereAdded }
{}

/// An `export` that ended well, behind whatever runs for its election, is one of which the headline speaks.
pub fn ended_exports_are_exports()
    ensures { EndedExportsAreExports }
{}

/// The two pages of a sheet as they are printed, without a mark, are a sheet that a `count` over an empty journal
/// counted: there are sheets of which the headline speaks.
pub fn prints_are_counted()
    ensures { PrintsAreCounted }
{
    clean_prints_fit();
    stacks_are_counted();
}

/// So a `center` of them over an empty journal did.
pub fn centers_count_prints()
    ensures { CentersCountPrints }
{
    clean_prints_fit();
    fitting_sheets_are_read();
    raw_images_join();
    what_is_written_reads_back();
    centers_count_stacks();
}

/// That sheet stands in an export directly behind that `count`, as it was printed.
pub fn prints_are_exported()
    ensures { PrintsAreExported }
{
    prints_are_counted();
    marked_pages_are_exported();
}
