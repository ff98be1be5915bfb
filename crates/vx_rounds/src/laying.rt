ghost use Rattle.std.specs.Prelude.{◌≡◌, ◌+◌, ◌^◌, ◌<◌, ◌≤◌, ◌∷◌, [], true, replicate, length, map, All, IfOk, OnOk};
ghost use Rattle.vx_rounds.specs.Rankings.{ranking_at, most_steps, AreShort};
ghost use Rattle.vx_rounds.specs.Rounds.{without};
ghost use Rattle.vx_rounds.specs.Piles.{stands_in, left_on, left_in, IsPassed, LiesForNone, HasPiles, Laid, ArePiled};

use crate::ballots::Ballots;
use crate::choosing::choose;
use crate::piles::{PiledBallot, Piles};
use crate::steps::Steps;
use std::alloc::Global;
use std::mem;
use std::sync::ledger::Ledger;
use vx_base::{ListOf, OutOfMemory};

/// So many empty piles.
fn empty_piles(alloc: Global, candidates: u32) -> Result<Vec<ListOf<PiledBallot>>, OutOfMemory>
    ensures { IfOk result (λ piles. piles.items ≡ replicate candidates []) }
{
    let mut piles = Vec::new(alloc);
    for _candidate in 0..candidates {
        piles.push(ListOf::new(alloc))?;
    }
    Ok(piles)
}

/// A choice of the ballots of no one: all candidates stand, and no ballot is laid yet.
fn no_ballots(alloc: Global, candidates: u32) -> Result<Piles, OutOfMemory>
    ensures piles { IfOk result (λ piles. piles.piles.items ≡ replicate candidates []) }
    ensures standing { IfOk result (λ piles. piles.standing.items ≡ replicate candidates true) }
    ensures exhausted { IfOk result (λ piles. piles.exhausted ≡ 0) }
{
    Ok(Piles {
        piles: empty_piles(alloc, candidates)?,
        standing: vec![in alloc; true; candidates as usize]?,
        exhausted: 0,
    })
}

impl Piles {
    /// Lays a ballot on the pile of its choice, or counts it as exhausted. It names no standing
    /// candidate before the place `from`.
    fn lay<L: Ledger>(
        &mut self,
        ballots: &Ballots,
        ballot: u32,
        from: u32,
        steps: &mut Steps<L>,
    ) -> Result<(), OutOfMemory>
        requires piles { HasPiles self.old }
        requires short { length (ranking_at ballots.now ballot) < 2 ^ 32 }
        requires within { from ≤ length (ranking_at ballots.now ballot) }
        requires passed { IsPassed ballots.now (stands_in self.old) ballot from }
        requires room { self.old.exhausted < 2 ^ 63 }
        ensures laid { OnOk result
            (Laid ballots.now (stands_in self.old) self.old self.new (ranking_at ballots.now ballot ∷ [])) }
        ensures piles { HasPiles self.new }
        ensures steps { steps.new + left_in ballots.now self.new + from
            ≤ steps.old + left_in ballots.now self.old + length (ranking_at ballots.now ballot) + 1 }
    {
        match choose(ballots, ballot, from, self.standing.as_slice(), steps) {
            None => self.exhausted += 1,
            Some(choice) => {
                let place = choice.place;
                self.piles[choice.candidate as usize].push(PiledBallot { ballot, place })?;
            }
        }
        Ok(())
    }

    /// Lays all ballots, each on the pile of the first candidate that it names.
    fn lay_all<L: Ledger>(
        &mut self,
        ballots: &Ballots,
        steps: &mut Steps<L>,
    ) -> Result<(), OutOfMemory>
        requires piles { HasPiles self.old }
        requires short { AreShort ballots.now }
        requires none { self.old.exhausted ≡ 0 }
        ensures laid { OnOk result
            (Laid ballots.now (stands_in self.old) self.old self.new ballots.now) }
        ensures few { length ballots.now < 2 ^ 32 }
        ensures piles { HasPiles self.new }
        ensures steps { steps.new + left_in ballots.now self.new
            ≤ steps.old + left_in ballots.now self.old + most_steps ballots.now }
    {
        for ballot in 0..ballots.count() {
            self.lay(ballots, ballot, 0, steps)?;
        }
        Ok(())
    }

    /// Lays the ballots of a pile again, each from the place after the one that it lay there for.
    fn lay_again<L: Ledger>(
        &mut self,
        ballots: &Ballots,
        pile: &[PiledBallot],
        steps: &mut Steps<L>,
    ) -> Result<(), OutOfMemory>
        requires piles { HasPiles self.old }
        requires short { AreShort ballots.now }
        requires gone { All (LiesForNone ballots.now (stands_in self.old)) pile.now }
        requires room { self.old.exhausted + length pile.now < 2 ^ 63 }
        ensures laid { OnOk result (Laid ballots.now (stands_in self.old) self.old self.new
            (map (λ piled. ranking_at ballots.now piled.ballot) pile.now)) }
        ensures piles { HasPiles self.new }
        ensures steps { steps.new + left_in ballots.now self.new
            ≤ steps.old + left_in ballots.now self.old + left_on ballots.now pile.now }
    {
        for piled in pile {
            self.lay(ballots, piled.ballot, piled.place + 1, steps)?;
        }
        Ok(())
    }

    /// All ballots on the piles of the first candidates that they name.
    pub(crate) fn of<L: Ledger>(
        alloc: Global,
        candidates: u32,
        ballots: &Ballots,
        steps: &mut Steps<L>,
    ) -> Result<Piles, OutOfMemory>
        requires { AreShort ballots.now }
        ensures piled { IfOk result (ArePiled candidates ballots.now) }
        ensures standing { IfOk result (λ piles. piles.standing.items ≡ replicate candidates true) }
        ensures spent { steps.new ≤ steps.old + most_steps ballots.now }
        ensures steps { IfOk result (λ piles.
            steps.new + left_in ballots.now piles ≤ steps.old + most_steps ballots.now) }
    {
        let mut piles = no_ballots(alloc, candidates)?;
        piles.lay_all(ballots, steps)?;
        Ok(piles)
    }

    /// Takes out a candidate, and lays the ballots of its pile again.
    pub(crate) fn take_out<L: Ledger>(
        &mut self,
        alloc: Global,
        out: u32,
        ballots: &Ballots,
        steps: &mut Steps<L>,
    ) -> Result<(), OutOfMemory>
        requires stands { stands_in self.old out ≡ true }
        requires short { AreShort ballots.now }
        requires piled { ArePiled (length self.old.standing.items) ballots.now self.old }
        ensures piled { OnOk result (ArePiled (length self.old.standing.items) ballots.now self.new) }
        ensures standing { OnOk result (stands_in self.new ≡ without (stands_in self.old) out) }
        ensures steps { steps.new + left_in ballots.now self.new
            ≤ steps.old + left_in ballots.now self.old }
    {
        self.standing[out as usize] = false;
        let pile = mem::replace(&mut self.piles[out as usize], ListOf::new(alloc));
        self.lay_again(ballots, pile.as_slice(), steps)?;
        Ok(())
    }
}
