//! The law of marked pages and their rankings. This function does nothing; its contract is the law.

ghost use Rattle.vx_ranked_as_marked.specs.Ranked.{MarkedPagesAreRanked};

use vx_command::steps_in_order;
use vx_election_model::Election;
use vx_headline::marked_pages_are_exported;
use vx_journal::journals_in_order;
use vx_ranked::undecided_sheets_are_ranked_as_marked;

/// Of whatever runs for an election: each sheet of scans within the margin that they counted is ranked as it
/// was marked, where nothing was decided of its ranked contests.
pub fn marked_pages_are_ranked()
    ensures { MarkedPagesAreRanked }
{
    steps_in_order::<Election>();
    journals_in_order();
    marked_pages_are_exported();
    undecided_sheets_are_ranked_as_marked();
}
