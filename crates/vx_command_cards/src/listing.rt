ghost use Rattle.std.specs.Prelude.{◌≡◌, ◌∷◌, ◌++◌, ◌<◌, ◌≤◌, [], length, IfOk, OnOk, string_bytes};
ghost use Rattle.vx_election_model.specs.Valid.{IsValid};
ghost use Rattle.vx_styles.specs.Cards.{cards_of, card_at};
ghost use Rattle.vx_layout.specs.Plan as plan;
ghost use Rattle.vx_command_cards.specs.Cards as listed;
ghost use Rattle.vx_command_cards.specs.Cards.{card_at_line, card_lines, planned_words};
ghost use Rattle.vx_command_cards.specs.Lines.{GotLines};

use crate::lines::Lines;
use crate::names::told_name;
use std::alloc::Global;
use vx_base::OutOfMemory;
use vx_election_model::Election;
use vx_layout::{CardPlan, LayoutFault, plan_card};
use vx_styles::{Card, cards, contests_of};

/// The id of a style, by its place.
fn style_id(election: &Election, style: u32) -> &str
    ensures { result.now ≡ listed.style_id election.now style }
{
    match election.styles.as_slice().get(style as usize) {
        None => "",
        Some(style) => style.id.as_str(),
    }
}

/// The id of a precinct, by its place.
fn precinct_id(election: &Election, precinct: u32) -> &str
    ensures { result.now ≡ listed.precinct_id election.now precinct }
{
    match election.precincts.as_slice().get(precinct as usize) {
        None => "",
        Some(precinct) => precinct.id.as_str(),
    }
}

/// The name of a precinct, by its place.
fn precinct_name(election: &Election, precinct: u32) -> &str
    ensures { result.now ≡ plan.precinct_name election.now.precincts precinct }
{
    match election.precincts.as_slice().get(precinct as usize) {
        None => "",
        Some(precinct) => precinct.name.as_str(),
    }
}

/// The plan of a card, or why it can't be planned.
fn planned(
    alloc: Global,
    election: &Election,
    number: u32,
) -> Result<Result<CardPlan, LayoutFault>, OutOfMemory>
    requires { IsValid election.now }
    ensures { IfOk result (λ planned. plan.plan_of election.now number ≡ planned) }
{
    match plan_card(alloc, election, number) {
        Ok(plan) => Ok(Ok(plan)),
        Err(LayoutFault::OutOfMemory) => Err(OutOfMemory),
        Err(fault) => Ok(Err(fault)),
    }
}

/// Adds how many pages a card has, or why it can't be planned.
fn push_planned(
    line: &mut String,
    planned: &Result<CardPlan, LayoutFault>,
) -> Result<(), OutOfMemory>
    ensures { OnOk result (string_bytes line.new ≡ string_bytes line.old ++ 32 ∷ planned_words planned.now) }
{
    match planned {
        Ok(plan) => write!(line, " pages {}", plan.pages.len()),
        Err(fault) => write!(line, " layout {fault}"),
    }
}

/// The line of a card before its pages.
fn card_head(
    alloc: Global,
    election: &Election,
    card: Card,
    number: u32,
) -> Result<String, OutOfMemory>
    requires { card ≡ card_at election.now number }
    ensures { IfOk result (λ head. string_bytes head ≡ listed.card_head election.now number) }
{
    let style = style_id(election, card.style);
    let precinct = precinct_id(election, card.precinct);
    format!(in alloc; "card {number} style {style} precinct {precinct}")
}

/// Adds what stands behind a card's pages: how many contests it has, and its precinct's name.
fn push_tail(
    alloc: Global,
    line: &mut String,
    election: &Election,
    card: Card,
    number: u32,
) -> Result<(), OutOfMemory>
    requires valid { IsValid election.now }
    requires there { number < length (cards_of election.now) }
    requires same { card ≡ card_at election.now number }
    ensures { OnOk result (string_bytes line.new
        ≡ string_bytes line.old ++ 32 ∷ listed.card_tail election.now number) }
{
    let contests = contests_of(alloc, election, number)?;
    let name = told_name(alloc, precinct_name(election, card.precinct))?;
    write!(line, " contests {} {name}", contests.len())
}

/// The line of a card.
fn card_line(
    alloc: Global,
    election: &Election,
    card: Card,
    number: u32,
) -> Result<String, OutOfMemory>
    requires valid { IsValid election.now }
    requires there { number < length (cards_of election.now) }
    requires same { card ≡ card_at election.now number }
    ensures { IfOk result (λ line. string_bytes line ≡ listed.card_line election.now number) }
{
    let mut line = card_head(alloc, election, card, number)?;
    let planned = planned(alloc, election, number)?;
    push_planned(&mut line, &planned)?;
    push_tail(alloc, &mut line, election, card, number)?;
    Ok(line)
}

/// Adds the line of a card.
fn push_card(
    alloc: Global,
    lines: &mut Lines,
    election: &Election,
    card: Card,
    number: u32,
) -> Result<(), OutOfMemory>
    requires valid { IsValid election.now }
    requires there { number < length (cards_of election.now) }
    requires same { card ≡ card_at election.now number }
    requires room { lines.old.count ≤ length (string_bytes lines.old.text) }
    ensures lines { OnOk result (GotLines (card_at_line election.now number)
        (string_bytes lines.old.text) (string_bytes lines.new.text) lines.old.count lines.new.count) }
    ensures room { OnOk result (lines.new.count ≤ length (string_bytes lines.new.text)) }
{
    let line = card_line(alloc, election, card, number)?;
    lines.push(line.as_str())?;
    Ok(())
}

/// A line for each card of an election, in order.
pub(crate) fn list_cards(alloc: Global, election: &Election) -> Result<Lines, OutOfMemory>
    requires { IsValid election.now }
    ensures { IfOk result (λ lines. GotLines (card_lines election.now)
        [] (string_bytes lines.text) 0 lines.count) }
{
    let mut lines = Lines::new(alloc);
    let cards = cards(alloc, election)?;
    for number in 0..cards.len() as u32 {
        let card = cards.as_slice()[number as usize];
        push_card(alloc, &mut lines, election, card, number)?;
    }
    Ok(lines)
}
