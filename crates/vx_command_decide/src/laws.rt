//! What `decide` leaves of a journal. This function does nothing; its contract is the law.

ghost use Rattle.vx_command_decide.specs.Laws.{DecideKeepsJournals};

use vx_center::replies_are_done_or_refuse;
use vx_journal::{begun_journals_are_journals, headers_begin_journals, journals_grow};
use vx_script::said_events_are_held;

/// A journal stays one behind each record that `decide` appends.
pub fn decide_keeps_journals()
    ensures { DecideKeepsJournals }
{
    replies_are_done_or_refuse();
    begun_journals_are_journals();
    headers_begin_journals();
    journals_grow();
    said_events_are_held();
}
