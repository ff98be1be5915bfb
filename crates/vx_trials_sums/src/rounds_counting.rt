//! The rounds of some rankings, as a text.
ghost use Rattle.std.specs.Prelude.{◌≡◌, ◌^◌, ◌<◌, length};
ghost use Rattle.std.specs.Bool.{OnTrue};
ghost use Rattle.vx_rounds.specs.Rankings.{AreShort};

use std::alloc::{AllocError, Global};
use std::marker::Brand;
use std::sync::ledger::{Blank, Ledger};
use vx_rounds::{Ballots, Ranking, Rankings, Round, Rounds, Steps, count_rounds};

/// Whether each ranking is short enough to be counted.
fn are_short(rankings: &[Ranking]) -> bool
    ensures { OnTrue result (AreShort rankings.now) }
{
    for ranking in rankings {
        if ranking.len() >= 4_294_967_296 {
            return false;
        }
    }
    true
}

fn counted<L: Ledger>(
    alloc: Global,
    candidates: u32,
    rankings: Rankings,
    blank: Blank,
) -> Result<Rounds, AllocError>
    requires name { blank.name ≡ L.name }
    requires parts { blank.parts ≡ L.parts }
    requires some { 0 < L.parts }
    requires number { 0 < candidates }
    requires few { length rankings < 2 ^ 32 }
    requires short { AreShort rankings }
{
    let mut steps = Steps::<L>::open(blank);
    count_rounds(alloc, candidates, &Ballots::new(rankings), &mut steps)
}

fn push_round(text: &mut String, round: &Round) -> Result<(), AllocError> {
    for (candidate, count) in round.counts.as_slice() {
        write!(text, "{candidate} {count} ")?;
    }
    write!(text, "exhausted {}", round.exhausted)?;
    match round.out {
        Some(out) => write!(text, " out {out}; ")?,
        None => write!(text, "; ")?,
    }
    Ok(())
}

/// What `count_rounds` answers.
pub(crate) fn rounds_text(
    alloc: Global,
    candidates: u32,
    rankings: Rankings,
) -> Result<String, AllocError> {
    if candidates == 0 || rankings.len() >= 4_294_967_296 || !are_short(rankings.as_slice()) {
        return String::from_str(alloc, "not counted");
    }
    let rounds = counted::<Brand>(alloc, candidates, rankings, Blank::new(1))?;
    let mut text = String::new(alloc);
    for round in rounds.rounds.as_slice() {
        push_round(&mut text, round)?;
    }
    match rounds.winner {
        Some(winner) => write!(text, "winner {winner}")?,
        None => write!(text, "no winner")?,
    }
    Ok(text)
}
