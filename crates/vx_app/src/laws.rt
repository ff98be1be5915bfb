//! What runs leave of a journal, what `center` adds of scans that fit printed pages, and which words are no
//! command. These functions do nothing; their contracts are the laws.

ghost use Rattle.vx_app.specs.Adding.{FittingSheetsAreInTheirItems};
ghost use Rattle.vx_app.specs.Runs.{CommandsAreNamed};
ghost use Rattle.vx_app.specs.Journals.{EndedRunsKeepTheirActs, RunsAddRecords, RunsKeepEvents, RunsLeaveJournals};

use vx_command::taken_elections_are_valid;
use vx_command_center::center_keeps_journals;
use vx_command_count::count_keeps_journals;
use vx_command_decide::decide_keeps_journals;
use vx_journal::{fronts_are_journals, journals_are_their_events, journals_stay};
use vx_pbm::images_are_whole;
use vx_sheet::fitting_sheets_are_read;

/// Any list of runs for one election that began without a record leaves a journal of that election,
/// whatever each of them answered: no later command refuses it.
pub fn runs_leave_journals()
    ensures { RunsLeaveJournals }
{
    count_keeps_journals();
    decide_keeps_journals();
    center_keeps_journals();
    journals_stay();
    fronts_are_journals();
}

/// Runs for one election over a journal of it leave a journal that keeps the events that it kept, and perhaps
/// more behind them, whatever each of them answered.
pub fn runs_keep_events()
    ensures { RunsKeepEvents }
{
    count_keeps_journals();
    decide_keeps_journals();
    center_keeps_journals();
    journals_stay();
    fronts_are_journals();
}

/// A run of a command of `run` that ended well, over a journal of its election, has appended exactly the records of
/// its acts, and the journal then keeps the events of these behind those that it kept, in order, and none else.
pub fn ended_runs_keep_their_acts()
    ensures { EndedRunsKeepTheirActs }
{
    runs_keep_events();
    journals_are_their_events();
}

/// Runs for one election leave the records that were there, and perhaps more behind them, whatever each of
/// them answered.
pub fn runs_add_records()
    ensures { RunsAddRecords }
{}

/// Among the events of each scan item that `center` takes, one adds each sheet of two images that fit the
/// facing pages of a card with some marks, as that sheet with those marks; the others add sheets before or
/// behind it.
pub fn fitting_sheets_are_in_their_items()
    ensures { FittingSheetsAreInTheirItems }
{
    taken_elections_are_valid();
    images_are_whole();
    fitting_sheets_are_read();
}

/// Words that begin as a `center` does and are none are no command at all, and neither are others that are
/// none of `run`.
pub fn commands_are_named()
    ensures { CommandsAreNamed }
{}
