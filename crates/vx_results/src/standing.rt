//! The units on whose cards a contest stands.

ghost use Rattle.std.specs.Prelude.{◌≡◌, ◌==◌, ◌<◌, IfOk, length, map};
ghost use Rattle.std.specs.List.{list_any, range_with_len};
ghost use Rattle.vx_election_model.specs.Valid.{IsValid};
ghost use Rattle.vx_styles.specs.Cards.{cards_of, contests_of_card};
ghost use Rattle.vx_results.specs.Figures as spec;

use crate::kinds::push_if;
use crate::records::unit_of;
use std::alloc::Global;
use vx_base::OutOfMemory;
use vx_election_model::{Election, Indexes};
use vx_styles::{Card, cards_are_few, contests_of};

/// The contests of each card.
pub(crate) fn card_contests(
    alloc: Global,
    election: &Election,
    cards: &[Card],
) -> Result<Vec<Indexes>, OutOfMemory>
    requires valid { IsValid election.now }
    requires cards { cards.now ≡ cards_of election.now }
    ensures { IfOk result (λ lists. lists.items ≡ spec.card_contests election.now) }
{
    cards_are_few();
    let mut lists = Vec::new(alloc);
    for card in 0..cards.len() {
        lists.push(contests_of(alloc, election, card as u32)?)?;
    }
    Ok(lists)
}

fn is_among(contest: u32, contests: &[u32]) -> bool
    ensures { result ≡ list_any (λ other. contest == other) contests.now }
{
    contests.contains(&contest)
}

/// Whether a card has a contest, which stands among those of each card.
fn has_contest(election: &Election, lists: &[Indexes], contest: u32, card: usize) -> bool
    requires valid { IsValid election.now }
    requires lists { lists.now ≡ spec.card_contests election.now }
    requires there { card < length (cards_of election.now) }
    ensures { result ≡ list_any (λ other. contest == other) (contests_of_card election.now card) }
{
    cards_are_few();
    is_among(contest, lists[card].as_slice())
}

/// Whether a contest stands on a card, and the card is one of a unit.
fn stands_on(
    election: &Election,
    cards: &[Card],
    lists: &[Indexes],
    contest: u32,
    unit: u32,
    card: usize,
) -> bool
    requires valid { IsValid election.now }
    requires cards { cards.now ≡ cards_of election.now }
    requires lists { lists.now ≡ spec.card_contests election.now }
    requires there { card < length (cards_of election.now) }
    ensures { result ≡ spec.stands_on election.now contest unit card }
{
    cards_are_few();
    unit == unit_of(election, cards, card as u32) && has_contest(election, lists, contest, card)
}

/// Whether a contest stands on a card of a unit.
#[tactic(auto, using(crate::proofs::Searching::card_here, crate::proofs::Searching::card_later))]
fn stands_in(
    election: &Election,
    cards: &[Card],
    lists: &[Indexes],
    contest: u32,
    unit: u32,
) -> bool
    requires valid { IsValid election.now }
    requires cards { cards.now ≡ cards_of election.now }
    requires lists { lists.now ≡ spec.card_contests election.now }
    ensures { result ≡ spec.stands_in election.now contest unit }
{
    for card in 0..cards.len() {
        if stands_on(election, cards, lists, contest, unit, card) {
            return true;
        }
    }
    false
}

/// The units on whose cards a contest stands.
pub(crate) fn contest_units(
    alloc: Global,
    election: &Election,
    cards: &[Card],
    lists: &[Indexes],
    contest: u32,
) -> Result<Vec<u32>, OutOfMemory>
    requires valid { IsValid election.now }
    requires cards { cards.now ≡ cards_of election.now }
    requires lists { lists.now ≡ spec.card_contests election.now }
    ensures { IfOk result (λ units. units.items ≡ spec.contest_units election.now contest) }
{
    let mut units = Vec::new(alloc);
    for place in 0..election.precincts.len() {
        let unit = place as u32 + 1;
        let stands = stands_in(election, cards, lists, contest, unit);
        push_if(&mut units, stands, unit)?;
    }
    Ok(units)
}

/// The units of precincts.
pub(crate) fn precinct_units(alloc: Global, election: &Election) -> Result<Vec<u32>, OutOfMemory>
    requires { IsValid election.now }
    ensures { IfOk result (λ units. units.items ≡ spec.precinct_units election.now) }
{
    let mut units = Vec::new(alloc);
    for place in 0..election.precincts.len() {
        units.push(place as u32 + 1)?;
    }
    Ok(units)
}
