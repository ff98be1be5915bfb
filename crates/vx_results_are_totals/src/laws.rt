//! Laws of the results of a journal. These functions do nothing; their contracts are the laws.

ghost use Rattle.vx_results_are_totals.specs.Laws.{ResultsAreTheTotals, ResultsWaitAsQueuesDo};
ghost use Rattle.vx_results_are_totals.specs.Samples.{SamplesAreTheAudits};

use vx_command_queue::queues_list_what_waits;
use vx_report_read::reports_are_read;

/// Of an input that is the export of a journal `totals` takes the input and writes the results of that journal,
/// but for their last line.
pub fn results_are_the_totals()
    ensures { ResultsAreTheTotals }
{
    reports_are_read();
}

/// The last line of the results of a history is that of its queue.
pub fn results_wait_as_queues_do()
    ensures { ResultsWaitAsQueuesDo }
{
    queues_list_what_waits();
}

/// What `sample` does with a journal, once it has read it, is what `audit` does with its export, once it has taken
/// it: both take what hands read, refuse it at the same line or write the same text, and tell the same.
pub fn samples_are_the_audits()
    ensures { SamplesAreTheAudits }
{
    reports_are_read();
}
