//! The selections of a contest by how they stand, and the votes of its choices and slots.

ghost use Rattle.std.specs.Prelude.{◌≡◌, ◌<◌, ◌++◌, ◌^◌, IfOk, OnOk, length, map, sum_by};
ghost use Rattle.std.specs.List.{range_with_len};
ghost use Rattle.vx_audit.specs.Sample.{where_held};
ghost use Rattle.vx_election_model.specs.Options.{options_of};
ghost use Rattle.vx_tally.specs.Running.{summed_in};
ghost use Rattle.vx_sampling.specs.Sides as spec;

use crate::standing::stands;
use std::alloc::Global;
use vx_audit::Places;
use vx_base::OutOfMemory;
use vx_election_model::Contest;
use vx_tally::Totals;

/// The selections of a contest: places among those of the contest.
#[derive(Drop)]
pub(crate) struct Sides {
    /// The contest's place among those of the election.
    pub(crate) contest: u32,
    pub(crate) seats: u32,
    /// The choices that win.
    pub(crate) winners: Places,
    /// The choices that lose.
    pub(crate) losers: Places,
    /// The write-in slots.
    pub(crate) slots: Places,
}

/// The write-in slots of a contest.
pub(crate) fn slots_of(alloc: Global, contest: &Contest) -> Result<Places, OutOfMemory>
    requires { options_of contest.now < 2 ^ 32 }
    ensures { IfOk result (λ slots. slots ≡ spec.slots_of contest.now) }
{
    let first = contest.choices.len() as u32;
    let mut slots = Places::new(alloc);
    for slot in 0..contest.options() - first {
        slots.push(first + slot)?;
    }
    Ok(slots)
}

/// The votes of the choices of the contest at a place, in order.
pub(crate) fn choice_votes(
    alloc: Global,
    totals: &Totals,
    place: u32,
    contest: &Contest,
) -> Result<Vec<u64>, OutOfMemory>
    requires { options_of contest.now < 2 ^ 32 }
    ensures { IfOk result (λ votes. votes.items
        ≡ map ((summed_in totals.now).votes place) (range_with_len 0 (length contest.now.choices))) }
{
    let mut votes = Vec::new(alloc);
    for choice in 0..contest.choices.len() as u32 {
        votes.push(totals.total(place, choice))?;
    }
    Ok(votes)
}

/// The votes of the slots of the contest at a place, all together. A sum of 2^64 is told as want of memory, too.
pub(crate) fn slot_votes(totals: &Totals, place: u32, slots: &[u32]) -> Result<u64, OutOfMemory>
    ensures { IfOk result (λ votes. votes ≡ sum_by ((summed_in totals.now).votes place) slots.now) }
{
    let mut votes: u64 = 0;
    for slot in slots {
        votes = votes
            .checked_add(totals.total(place, *slot))
            .ok_or(OutOfMemory)?;
    }
    Ok(votes)
}

/// Puts a choice behind others, where it stands so.
fn push_where(choices: &mut Places, choice: u32, stands: bool) -> Result<(), OutOfMemory>
    ensures { OnOk result (choices.new ≡ choices.old ++ where_held choice stands) }
{
    if stands {
        choices.push(choice)?;
    }
    Ok(())
}

/// The choices that win, or those that lose.
fn choices_where(
    alloc: Global,
    seats: u32,
    votes: &[u64],
    winning: bool,
) -> Result<Places, OutOfMemory>
    requires { length votes.now < 2 ^ 32 }
    ensures { IfOk result (λ choices. choices ≡ spec.choices_where seats votes.now winning) }
{
    let mut choices = Places::new(alloc);
    for choice in 0..votes.len() {
        let is_so = stands(seats, votes, votes[choice], winning);
        push_where(&mut choices, choice as u32, is_so)?;
    }
    Ok(choices)
}

/// The selections of the contest at a place, with the votes of its choices and its slots.
pub(crate) fn sides_of(
    alloc: Global,
    place: u32,
    contest: &Contest,
    votes: &[u64],
    slots: Places,
) -> Result<Sides, OutOfMemory>
    requires few { length votes.now < 2 ^ 32 }
    requires slots { slots ≡ spec.slots_of contest.now }
    ensures { IfOk result (λ sides. sides ≡ spec.sides_of place contest.now votes.now) }
{
    let winners = choices_where(alloc, contest.seats, votes, true)?;
    let losers = choices_where(alloc, contest.seats, votes, false)?;
    Ok(Sides {
        contest: place,
        seats: contest.seats,
        winners,
        losers,
        slots,
    })
}
