//! What the counts of a summary come to. These functions do nothing; their contracts are the laws.

ghost use Rattle.vx_results.specs.SummaryLaws.{EmptySummary, SummaryAddsUp};

use vx_cvr::rows_are_of_the_sheets;
use vx_styles::each_card_has_its_precinct;

/// Summed over all units and kinds, the votes, over votes and undervotes of a contest are those of the report of
/// the same events.
pub fn summary_adds_up()
    ensures { SummaryAddsUp }
{
    rows_are_of_the_sheets();
    each_card_has_its_precinct();
}

/// Of no events each count is 0.
pub fn empty_summary()
    ensures { EmptySummary }
{}
