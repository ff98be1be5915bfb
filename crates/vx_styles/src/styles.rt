ghost use Rattle.std.specs.Prelude.{◌≡◌, ◌==◌, ◌<◌, ◌≤◌, ◌^◌, ◌+◌, ◌++◌, length, IfOk, OnOk};
ghost use Rattle.std.specs.List.{All, list_any};
ghost use Rattle.vx_election_model.specs.Valid.{IsValid};
ghost use Rattle.vx_styles.specs.Cards.{cards_of_style, cards_from, cards_of, is_open_to, has_contest, contests_from, style_of_card, contests_of_card};

use crate::card::{Card, CardList};
use std::alloc::Global;
use vx_base::OutOfMemory;
use vx_election_model::{Contest, Election, Indexes, Style};

fn card_of(style: u32, precinct: u32) -> Card
    ensures style { result.style ≡ style }
    ensures precinct { result.precinct ≡ precinct }
{
    Card { style, precinct }
}

/// Adds the cards of a style at the end.
fn push_cards(cards: &mut Vec<Card>, style: u32, precincts: &[u32]) -> Result<(), OutOfMemory>
    ensures { OnOk result
        (cards.new.items ≡ cards.old.items ++ cards_of_style style precincts.now) }
{
    for precinct in precincts {
        cards.push(card_of(style, *precinct))?;
    }
    Ok(())
}

/// The cards of an election: its styles in order, and for each its precincts in order.
pub fn cards(alloc: Global, election: &Election) -> Result<CardList, OutOfMemory>
    requires { IsValid election.now }
    ensures exact { IfOk result (λ cards. cards ≡ cards_of election.now) }
    ensures few { IfOk result (λ cards. length cards ≤ 1024) }
{
    Ok(CardList::from_vec(cards_of(alloc, election.styles.as_slice())?))
}

fn cards_of(alloc: Global, styles: &[Style]) -> Result<Vec<Card>, OutOfMemory>
    requires { length styles.now ≤ 1000 }
    ensures { IfOk result (λ cards. cards.items ≡ cards_from 0 styles.now) }
{
    let mut cards = Vec::new(alloc);
    let mut place = 0u32;
    for style in styles {
        push_cards(&mut cards, place, style.precincts.as_slice())?;
        place += 1;
    }
    Ok(cards)
}

fn is_open_to(contest: Option<u32>, style: Option<u32>) -> bool
    ensures { result ≡ is_open_to contest style }
{
    match (contest, style) {
        (None, _) => true,
        (Some(_), None) => false,
        (Some(party), Some(other)) => party == other,
    }
}

fn is_among(district: u32, districts: &[u32]) -> bool
    ensures { result ≡ list_any (λ place. district == place) districts.now }
{
    districts.contains(&district)
}

fn has_contest(style: &Style, contest: &Contest) -> bool
    ensures { result ≡ has_contest style.now contest.now }
{
    is_among(contest.district, style.districts.as_slice()) && is_open_to(contest.party, style.party)
}

fn contests_of_style(
    alloc: Global,
    style: &Style,
    contests: &[Contest],
) -> Result<Vec<u32>, OutOfMemory>
    requires { length contests.now ≤ 500 }
    ensures { IfOk result (λ places. places.items ≡ contests_from style.now 0 contests.now) }
{
    let mut places = Vec::new(alloc);
    let mut place = 0u32;
    for contest in contests {
        if has_contest(style, contest) {
            places.push(place)?;
        }
        place += 1;
    }
    Ok(places)
}

/// The style of a card, found by the number of precincts of those before it.
fn style_of_card(styles: &[Style], card: u32) -> &Style
    requires { card < length (cards_from 0 styles.now) }
    ensures { result.now ≡ style_of_card styles.now card }
{
    let mut place = 0usize;
    let mut left = card as usize;
    while styles[place].precincts.len() <= left {
        left -= styles[place].precincts.len();
        place += 1;
    }
    &styles[place]
}

/// The contests of a card, in the election's order, as their places in its list: those whose
/// district is among the style's, and that have no party or the style's.
pub fn contests_of(alloc: Global, election: &Election, card: u32) -> Result<Indexes, OutOfMemory>
    requires valid { IsValid election.now }
    requires there { card < length (cards_of election.now) }
    ensures exact { IfOk result (λ places. places ≡ contests_of_card election.now card) }
    ensures few { IfOk result (λ places. length places ≤ 500) }
    ensures there { IfOk result (All (λ place. place < length election.now.contests)) }
{
    let style = style_of_card(election.styles.as_slice(), card);
    let places = contests_of_style(alloc, style, election.contests.as_slice())?;
    Ok(Indexes::from_vec(places))
}
