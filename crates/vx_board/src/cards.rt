//! The election's cards.

ghost use Rattle.std.specs.Prelude.{◌≡◌, ◌<◌, IfOk, length, map, slice_index_or};
ghost use Rattle.serde_json.specs.View.{view};
ghost use Rattle.vx_election_model.specs.Valid.{IsValid};
ghost use Rattle.vx_styles.specs.Cards.{cards_of, no_style};
ghost use Rattle.vx_cvr.specs.Report.{no_precinct};
ghost use Rattle.vx_markup.specs.Json.{list, whole};
ghost use Rattle.vx_board.specs.Contests as spec;

use serde_json::{Value, json};
use std::alloc::Global;
use vx_base::OutOfMemory;
use vx_cvr::card_at;
use vx_election_model::Election;
use vx_styles::{Card, cards, contests_of};

/// The id of a style, by its place.
fn style_id(election: &Election, style: u32) -> &str
    ensures { result.now ≡ (slice_index_or election.now.styles style no_style).id }
{
    match election.styles.as_slice().get(style as usize) {
        None => "",
        Some(style) => style.id.as_str(),
    }
}

/// The name of a precinct, by its place.
fn precinct_title(election: &Election, precinct: u32) -> &str
    ensures { result.now ≡ (slice_index_or election.now.precincts precinct no_precinct).name }
{
    match election.precincts.as_slice().get(precinct as usize) {
        None => "",
        Some(precinct) => precinct.name.as_str(),
    }
}

/// Numbers as values.
fn numbers(alloc: Global, given: &[u32]) -> Result<Value, OutOfMemory>
    ensures { IfOk result (λ value. view value ≡ list (map whole given.now)) }
{
    let mut made = Vec::new(alloc);
    for number in given {
        made.push(Value::from(*number))?;
    }
    Ok(Value::Array(made))
}

/// A card by its contests.
fn card_with(
    alloc: Global,
    election: &Election,
    card: Card,
    contests: Value,
) -> Result<Value, OutOfMemory>
    ensures { IfOk result (λ value. view value
        ≡ spec.card_with election.now card (view contests)) }
{
    let precinct = precinct_title(election, card.precinct);
    let style = style_id(election, card.style);
    json!(in alloc; {"contests": contests, "precinct": precinct, "style": style})
}

/// The card with a number; `cards` are the election's.
fn card_value(
    alloc: Global,
    election: &Election,
    cards: &[Card],
    number: u32,
) -> Result<Value, OutOfMemory>
    requires valid { IsValid election.now }
    requires cards { cards.now ≡ cards_of election.now }
    requires there { number < length (cards_of election.now) }
    ensures { IfOk result (λ value. view value ≡ spec.card_data election.now number) }
{
    let places = contests_of(alloc, election, number)?;
    let contests = numbers(alloc, places.as_slice())?;
    card_with(alloc, election, card_at(cards, number), contests)
}

/// The cards of an election, in order.
pub(crate) fn cards_value(alloc: Global, election: &Election) -> Result<Value, OutOfMemory>
    requires { IsValid election.now }
    ensures { IfOk result (λ value. view value ≡ list (spec.cards_data election.now)) }
{
    let cards = cards(alloc, election)?;
    let mut made = Vec::new(alloc);
    for number in 0..cards.len() {
        made.push(card_value(alloc, election, cards.as_slice(), number as u32)?)?;
    }
    Ok(Value::Array(made))
}
