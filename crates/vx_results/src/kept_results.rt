//! What `results` and `summary` write of a journal. These functions do nothing; their contracts are the laws.

ghost use Rattle.vx_results.specs.Written.{ResultsAreOfWhatWasKept, SummaryIsOfWhatWasKept};

use vx_journal::texts_are_of_journals;

/// Whatever stands of the acts of `results`: where it ended well, all that it wrote are the results of exactly
/// the events that the journal keeps.
pub fn results_are_of_what_was_kept()
    ensures { ResultsAreOfWhatWasKept }
{
    texts_are_of_journals();
}

/// The same of `summary`: where it ended well, all that it wrote is the summary of exactly the events that the
/// journal keeps.
pub fn summary_is_of_what_was_kept()
    ensures { SummaryIsOfWhatWasKept }
{
    texts_are_of_journals();
}
