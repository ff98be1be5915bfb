ghost use Rattle.std.specs.Prelude.{◌≡◌, ◌+◌, ◌<◌, ◌≤◌, length, map, filter, IfOk};
ghost use Rattle.std.specs.List.{range_with_len};
ghost use Rattle.vx_rounds.specs.Rankings.{AreShort, most_steps};
ghost use Rattle.vx_rounds.specs.Rounds.{round_of, winner_of, rounds_of};
ghost use Rattle.vx_rounds.specs.Piles.{pile_at, stands_in, HasPiles, ArePiled};

use crate::ballots::Ballots;
use crate::deciding::decide;
use crate::outcome::{Counts, Round, RoundList, Rounds};
use crate::piles::Piles;
use crate::steps::Steps;
use std::alloc::Global;
use std::sync::ledger::Ledger;
use vx_base::{ListOf, OutOfMemory};

/// A round and the candidate that won in it.
#[derive(Debug, Drop)]
struct Counted {
    round: Round,
    winner: Option<u32>,
}

/// The counts of the candidates that stand: how high their piles are.
fn counts_in(alloc: Global, candidates: u32, piles: &Piles) -> Result<Counts, OutOfMemory>
    requires piles { HasPiles piles.now }
    requires all { length piles.now.standing.items ≡ candidates }
    ensures { IfOk result (λ counts. counts ≡ map (λ c. (c, length (pile_at piles.now c)))
        (filter (stands_in piles.now) (range_with_len 0 candidates))) }
{
    let mut counts = ListOf::new(alloc);
    for candidate in 0..candidates {
        if piles.standing[candidate as usize] {
            counts.push((candidate, piles.piles[candidate as usize].len() as u64))?;
        }
    }
    Ok(counts)
}

/// The round that ballots on their piles make.
fn count_round(
    alloc: Global,
    candidates: u32,
    _ballots: &Ballots,
    piles: &Piles,
) -> Result<Counted, OutOfMemory>
    requires { ArePiled candidates _ballots.now piles.now }
    ensures round { IfOk result (λ counted.
        counted.round ≡ round_of candidates (stands_in piles.now) _ballots.now) }
    ensures winner { IfOk result (λ counted. counted.winner ≡ winner_of counted.round.counts) }
{
    let counts = counts_in(alloc, candidates, piles)?;
    let decision = decide(counts.as_slice());
    let exhausted = piles.exhausted;
    let out = decision.out;
    Ok(Counted {
        round: Round {
            counts,
            exhausted,
            out,
        },
        winner: decision.winner,
    })
}

/// The rounds of a count of these ballots among so many candidates, by numbers from 0. Each ballot
/// is asked at most for every place of its ranking and once past its end. Rankings that name each
/// candidate at most once are short (`rankings_are_short`). The only refusal is want of memory.
pub fn count_rounds<L: Ledger>(
    alloc: Global,
    candidates: u32,
    ballots: &Ballots,
    steps: &mut Steps<L>,
) -> Result<Rounds, OutOfMemory>
    requires some { 0 < candidates }
    requires short { AreShort ballots.now }
    ensures rounds { IfOk result (λ rounds. rounds ≡ rounds_of candidates ballots.now) }
    ensures steps { steps.new ≤ steps.old + most_steps ballots.now }
{
    let mut piles = Piles::of(alloc, candidates, ballots, steps)?;
    let mut rounds = RoundList::new(alloc);
    for _round in 0..candidates {
        let counted = count_round(alloc, candidates, ballots, &piles)?;
        let out = counted.round.out;
        rounds.push(counted.round)?;
        match out {
            None => return Ok(Rounds {
                rounds,
                winner: counted.winner,
            }),
            Some(out) => piles.take_out(alloc, out, ballots, steps)?,
        }
    }
    Ok(Rounds {
        rounds,
        winner: None,
    })
}
