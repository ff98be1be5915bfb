//! What `center` leaves of a journal, and what it reports of it. These functions do nothing; their contracts
//! are the laws.

ghost use Rattle.vx_command_center.specs.Laws.{
  CenterKeepsJournals,
  CenterReportsWhatIsKept,
  CentersKeepTheirHistory,
  CentersMayNotBegin,
  ScansAreItems,
};

use vx_center::{exports_show_what_was_kept, replies_are_done_or_refuse};
use vx_command::{acts_in_order, taken_elections_are_valid};
use vx_journal::{
    begun_journals_are_journals, headers_begin_journals, journals_are_histories, journals_grow,
};
use vx_script::said_events_are_held;
use vx_shared::lists_have_histories;
use vx_sheet::sheet_events_are_keepable;

/// A journal stays one behind each record that `center` appends, where the history is one of its items.
pub fn center_keeps_journals()
    ensures { CenterKeepsJournals }
{
    taken_elections_are_valid();
    replies_are_done_or_refuse();
    begun_journals_are_journals();
    headers_begin_journals();
    journals_grow();
    said_events_are_held();
    sheet_events_are_keepable();
}

/// Where `center` ended well, the last text that it wrote is the report of exactly the events that the journal
/// keeps then, and the report shows what was kept.
pub fn center_reports_what_is_kept()
    ensures { CenterReportsWhatIsKept }
{
    exports_show_what_was_kept();
    journals_are_histories();
    taken_elections_are_valid();
    replies_are_done_or_refuse();
    headers_begin_journals();
    journals_grow();
    said_events_are_held();
    sheet_events_are_keepable();
}

/// Memory may run out before `center` has begun: then none of its acts is done, by some history of its items.
pub fn centers_may_not_begin()
    ensures { CentersMayNotBegin }
{
    acts_in_order();
    lists_have_histories();
}

/// The records of a `center` that can go on: the header where no record was there, and then those of the Done
/// events of its history, in order.
pub fn centers_keep_their_history()
    ensures { CentersKeepTheirHistory }
{}

/// The item of a word that names a scan is that scan, in the word's place.
pub fn scans_are_items()
    ensures { ScansAreItems }
{}
