//! How a contest stands by the votes of its choices.

ghost use Rattle.std.specs.Prelude.{◌≡◌, IfOk, count_by, fold, max, min, nat_lt};
ghost use Rattle.std.specs.List.{reduce};
ghost use Rattle.vx_sampling.specs.Standing as spec;

use std::alloc::Global;
use vx_base::OutOfMemory;

/// How a contest stands.
#[derive(Clone, Copy)]
pub(crate) enum Standing {
    /// Two choices at the edge of the seats have the same votes.
    Tie,
    /// The write-in slots together have no fewer votes than some winner, or there is no winner.
    WriteIn,
    /// The least difference of votes between a winner and a loser.
    Margin(u64),
}

/// How many choices have more votes.
fn above(votes: &[u64], own: u64) -> usize
    ensures { result ≡ count_by (λ other. nat_lt own other) votes.now }
{
    votes.iter().filter(|other| own < **other).count()
}

/// Whether a choice with those votes wins.
fn wins(seats: u32, votes: &[u64], own: u64) -> bool
    ensures { result ≡ spec.wins seats votes.now own }
{
    above(votes, own) < seats as usize
}

/// Whether it wins, or whether it loses.
pub(crate) fn stands(seats: u32, votes: &[u64], own: u64, winning: bool) -> bool
    ensures { result ≡ spec.is_as winning (spec.wins seats votes.now own) }
{
    if winning {
        wins(seats, votes, own)
    } else {
        !wins(seats, votes, own)
    }
}

/// How many choices win.
fn winners(seats: u32, votes: &[u64]) -> usize
    ensures { result ≡ count_by (spec.wins seats votes.now) votes.now }
{
    votes.iter().filter(|own| wins(seats, votes, **own)).count()
}

/// Whether more choices win than there are seats.
fn is_tied(seats: u32, votes: &[u64]) -> bool
    ensures { result ≡ spec.is_tied seats votes.now }
{
    (seats as usize) < winners(seats, votes)
}

/// The votes of those that win, or of those that lose.
fn votes_where(
    alloc: Global,
    seats: u32,
    votes: &[u64],
    winning: bool,
) -> Result<Vec<u64>, OutOfMemory>
    ensures { IfOk result (λ those. those.items ≡ spec.votes_where seats votes.now winning) }
{
    let mut those = Vec::new(alloc);
    for own in votes {
        if stands(seats, votes, *own, winning) {
            those.push(*own)?;
        }
    }
    Ok(those)
}

/// The most of the losers' votes and of those of the slots.
fn most(slots: u64, losing: &[u64]) -> u64
    ensures { result ≡ fold max slots losing.now }
{
    let mut most = slots;
    for votes in losing {
        most = most.max(*votes);
    }
    most
}

/// How it stands by the least votes of a winner.
fn by_least(slots: u64, most: u64, least: Option<u64>) -> Standing
    ensures { result ≡ spec.by_least slots most least }
{
    match least {
        None => Standing::WriteIn,
        Some(least) => {
            if least <= slots {
                Standing::WriteIn
            } else {
                Standing::Margin(least.saturating_sub(most))
            }
        }
    }
}

/// The least of a number and others.
fn least_from(first: u64, rest: &[u64]) -> u64
    ensures { result ≡ fold min first rest.now }
{
    let mut least = first;
    for votes in rest {
        least = least.min(*votes);
    }
    least
}

/// The least of numbers, if there are any.
fn least(winning: &[u64]) -> Option<u64>
    ensures { result ≡ reduce min winning.now }
{
    match winning {
        [] => None,
        [first, rest @ ..] => Some(least_from(*first, rest)),
    }
}

/// How a contest stands with so many seats, the votes of its choices and those of its slots together.
pub(crate) fn standing_of(
    alloc: Global,
    seats: u32,
    votes: &[u64],
    slots: u64,
) -> Result<Standing, OutOfMemory>
    ensures { IfOk result (λ standing. standing ≡ spec.standing_of seats votes.now slots) }
{
    if is_tied(seats, votes) {
        return Ok(Standing::Tie);
    }
    let losing = votes_where(alloc, seats, votes, false)?;
    let winning = votes_where(alloc, seats, votes, true)?;
    let most = most(slots, losing.as_slice());
    Ok(by_least(slots, most, least(winning.as_slice())))
}
