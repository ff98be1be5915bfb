//! Names of members of a report.

ghost use Rattle.std.specs.Prelude.{◌≡◌};
ghost use Rattle.vx_tally.specs.Names as names;

#[tactic(auto, unfolding(crate::specs::Names::contest_selection))]
pub(crate) fn contest_selection() -> &'static str
    ensures { result.now ≡ names.contest_selection }
{
    "ContestSelection"
}

#[tactic(auto, unfolding(crate::specs::Names::ballot_style_unit_id))]
pub(crate) fn ballot_style_unit_id() -> &'static str
    ensures { result.now ≡ names.ballot_style_unit_id }
{
    "BallotStyleUnitId"
}

#[tactic(auto, unfolding(crate::specs::Names::cvr_snapshot))]
pub(crate) fn cvr_snapshot() -> &'static str
    ensures { result.now ≡ names.cvr_snapshot }
{
    "CVRSnapshot"
}

#[tactic(auto, unfolding(crate::specs::Names::cvr_contest))]
pub(crate) fn cvr_contest() -> &'static str
    ensures { result.now ≡ names.cvr_contest }
{
    "CVRContest"
}

#[tactic(auto, unfolding(crate::specs::Names::undervotes))]
pub(crate) fn undervotes() -> &'static str
    ensures { result.now ≡ names.undervotes }
{
    "Undervotes"
}

#[tactic(auto, unfolding(crate::specs::Names::cvr_contest_selection))]
pub(crate) fn cvr_contest_selection() -> &'static str
    ensures { result.now ≡ names.cvr_contest_selection }
{
    "CVRContestSelection"
}

#[tactic(auto, unfolding(crate::specs::Names::contest_selection_id))]
pub(crate) fn contest_selection_id() -> &'static str
    ensures { result.now ≡ names.contest_selection_id }
{
    "ContestSelectionId"
}

#[tactic(auto, unfolding(crate::specs::Names::selection_position))]
pub(crate) fn selection_position() -> &'static str
    ensures { result.now ≡ names.selection_position }
{
    "SelectionPosition"
}

#[tactic(auto, unfolding(crate::specs::Names::number_votes))]
pub(crate) fn number_votes() -> &'static str
    ensures { result.now ≡ names.number_votes }
{
    "NumberVotes"
}
