ghost use Rattle.std.specs.Prelude.{◌≡◌, ◌+◌, ◌^◌, ◌<◌, ◌≤◌, false, length, slice_index_or, option_map, IfSome, MatchOption};
ghost use Rattle.vx_rounds.specs.Rankings.{ranking_at};
ghost use Rattle.vx_rounds.specs.Rounds.{choice_of};
ghost use Rattle.vx_rounds.specs.Piles.{IsPassed, IsChosen};

use crate::ballots::Ballots;
use crate::steps::Steps;
use std::sync::ledger::Ledger;

/// A candidate that stands, and the place of a ranking that names it.
#[derive(Clone, Copy, Debug, Drop)]
pub(crate) struct Choice {
    pub(crate) candidate: u32,
    pub(crate) place: u32,
}

/// Whether a candidate stands.
fn stands(standing: &[bool], candidate: u32) -> bool
    ensures { result ≡ slice_index_or standing.now candidate false }
{
    let place = candidate as usize;
    place < standing.len() && standing[place]
}

/// A ballot's choice of those that stand, where it names none of them before the place `from`: it is
/// asked for that place and on, up to its choice or past its end.
pub(crate) fn choose<L: Ledger>(
    ballots: &Ballots,
    ballot: u32,
    from: u32,
    standing: &[bool],
    steps: &mut Steps<L>,
) -> Option<Choice>
    requires short { length (ranking_at ballots.now ballot) < 2 ^ 32 }
    requires within { from ≤ length (ranking_at ballots.now ballot) }
    requires passed { IsPassed ballots.now (λ c. slice_index_or standing.now c false) ballot from }
    ensures choice { option_map (λ choice. choice.candidate) result
        ≡ choice_of (λ c. slice_index_or standing.now c false) (ranking_at ballots.now ballot) }
    ensures chosen { IfSome result (λ choice.
        IsChosen ballots.now (λ c. slice_index_or standing.now c false) ballot choice) }
    ensures steps { MatchOption result
        (steps.new + from ≡ steps.old + length (ranking_at ballots.now ballot) + 1)
        (λ choice. steps.new + from ≡ steps.old + choice.place + 1) }
{
    let mut place = from;
    while let Some(candidate) = ballots.rank(ballot, place, steps) {
        if stands(standing, candidate) {
            return Some(Choice { candidate, place });
        }
        place += 1;
    }
    None
}
