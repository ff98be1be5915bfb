ghost use Rattle.std.specs.Prelude.{◌≡◌, ◌+◌, ◌^◌, ◌<◌, length, slice_get};
ghost use Rattle.vx_rounds.specs.Rankings.{ranking_at};

use crate::steps::Steps;
use std::marker::Model;
use std::sync::ledger::Ledger;
use vx_base::ListOf;

/// The candidates that a ballot names, by their numbers from 0, the first choice first.
pub type Ranking = ListOf<u32>;

/// A ranking for each ballot.
pub type Rankings = ListOf<Ranking>;

/// Ranked ballots, by numbers from 0. Contracts see the list of their rankings; code is shown a
/// ranking by `rank` alone, place by place, and each look is a step.
#[derive(Debug, Drop)]
pub struct Ballots {
    rankings: Rankings,
}

impl Model for Ballots {
    ghost use Rattle.std.specs.Prelude.{◌^◌, ◌<◌, ℕ, List, length};

    ghost Value = { List (List ℕ) };

    ghost view = { λ ballots. ballots.rankings };

    ghost invariant = { λ ballots. length ballots.rankings < 2 ^ 32 };
}

impl Ballots {
    /// The ballots with these rankings; takes no memory.
    pub fn new(rankings: Rankings) -> Self
        requires { length rankings < 2 ^ 32 }
        ensures { result ≡ rankings }
    {
        Ballots { rankings }
    }

    /// The number of ballots.
    pub fn count(&self) -> u32
        ensures { result ≡ length self.now }
    {
        self.rankings.len() as u32
    }

    /// The candidate at a place of a ballot's ranking, from 0 on, and nothing past its end. It is
    /// one step.
    pub fn rank<L: Ledger>(&self, ballot: u32, place: u32, steps: &mut Steps<L>) -> Option<u32>
        requires { ballot < length self.now }
        ensures candidate { result ≡ slice_get (ranking_at self.now ballot) place }
        ensures step { steps.new ≡ steps.old + 1 }
    {
        steps.take_one();
        self.rankings.as_slice()[ballot as usize]
            .as_slice()
            .get(place as usize)
            .copied()
    }
}
