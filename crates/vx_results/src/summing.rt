//! What is counted of the sheets of a journal, in the order of adding.

ghost use Rattle.std.specs.Prelude.{◌≡◌, ◌+◌, ◌-◌, ◌*◌, ◌<◌, ◌≤◌, [], All, List, IfOk, OnOk, length, replicate, take};
ghost use Rattle.vx_election_model.specs.Valid.{IsValid};
ghost use Rattle.vx_styles.specs.Cards.{cards_of};
ghost use Rattle.vx_events.specs.declared.event.Event.{Event};
ghost use Rattle.vx_center.specs.Sheets.{sheets_in};
ghost use Rattle.vx_cvr.specs.Report.{HasItsContests};
ghost use Rattle.vx_tally.specs.Running.{SumsUp, summed_in};
ghost use Rattle.vx_tally.specs.Totals.{IsCountable};
ghost use Rattle.vx_results.specs.Counted as spec;
ghost use Rattle.vx_results.specs.Kinds.{kind_of as kind_of_sheet};
ghost use Rattle.vx_results.specs.Report as report;

use crate::kinds::kind_of;
use crate::named::add_names;
use crate::records::{record_of, unit_of};
use crate::sums::Sums;
use std::alloc::Global;
use vx_base::OutOfMemory;
use vx_center::{Center, ExportSheet};
use vx_election_model::Election;
use vx_rules::SheetMarks;
use vx_styles::{Card, each_card_has_its_precinct};
use vx_tally::Totals;

/// What is counted of sheets.
#[derive(Drop)]
pub(crate) struct Figures {
    /// What the records of each kind in each unit sum up to, unit after unit.
    pub(crate) piles: Vec<Totals>,
    /// How many sheets each batch has.
    pub(crate) sheets: Sums,
    /// How many contests of each batch wait.
    pub(crate) waits: Sums,
    /// The names that were given in words in each contest, with their votes.
    pub(crate) names: Vec<Sums>,
    /// How many contests wait.
    pub(crate) waiting: u64,
}

/// The sums of no records, so many times.
fn piles_of(alloc: Global, count: usize) -> Result<Vec<Totals>, OutOfMemory>
    ensures count { IfOk result (λ piles. length piles.items ≡ count) }
    ensures none { IfOk result (λ piles. All (SumsUp []) piles.items) }
{
    let mut piles = Vec::new(alloc);
    for place in 0..count {
        let _ = place;
        piles.push(Totals::new(alloc))?;
    }
    Ok(piles)
}

/// So many lists without a name.
#[tactic(auto, using(crate::proofs::Figured::replicate_more))]
fn names_of(alloc: Global, count: usize) -> Result<Vec<Sums>, OutOfMemory>
    ensures { IfOk result (λ names. names.items ≡ replicate count []) }
{
    let mut names = Vec::new(alloc);
    for place in 0..count {
        let _ = place;
        names.push(Sums::new(alloc))?;
    }
    Ok(names)
}

/// What is counted of no sheet.
pub(crate) fn no_figures(alloc: Global, election: &Election) -> Result<Figures, OutOfMemory>
    requires { IsValid election.now }
    ensures { IfOk result (λ figures. (kept : List Event) → spec.AreFigures election.now kept [] figures) }
{
    let piles = piles_of(alloc, 8 * (election.precincts.len() + 1))?;
    let names = names_of(alloc, election.contests.len())?;
    Ok(Figures {
        piles,
        sheets: Sums::new(alloc),
        waits: Sums::new(alloc),
        names,
        waiting: 0,
    })
}

/// Adds the record of a sheet of a kind to the sums of that kind in its unit.
fn add_record(
    alloc: Global,
    piles: &mut Vec<Totals>,
    election: &Election,
    cards: &[Card],
    kind: u32,
    row: &ExportSheet,
) -> Result<(), OutOfMemory>
    requires valid { IsValid election.now }
    requires cards { cards.now ≡ cards_of election.now }
    requires contests { HasItsContests election.now row.now }
    requires there { spec.pile_place kind (report.unit_of election.now row.now) < length piles.old.items }
    requires few { (summed_in (spec.pile_at piles.old.items
        (spec.pile_place kind (report.unit_of election.now row.now)))).count < 1000000000 }
    requires countable { IsCountable (report.record_of election.now row.now) }
    ensures { OnOk result (spec.WithRecord election.now kind row.now piles.old.items piles.new.items) }
{
    let place = 8 * unit_of(election, cards, row.card) as usize + kind as usize;
    let made = record_of(alloc, election, cards, row)?;
    piles[place].add(alloc, &made)?;
    Ok(())
}

/// Counts a sheet, which was read as that, and of which the row is exported.
fn add_row(
    alloc: Global,
    figures: &mut Figures,
    election: &Election,
    cards: &[Card],
    sheet: &SheetMarks,
    row: &ExportSheet,
) -> Result<(), OutOfMemory>
    requires valid { IsValid election.now }
    requires cards { cards.now ≡ cards_of election.now }
    requires contests { HasItsContests election.now row.now }
    requires there { spec.pile_place (kind_of_sheet sheet.now) (report.unit_of election.now row.now)
        < length figures.old.piles.items }
    requires few { (summed_in (spec.pile_at figures.old.piles.items
        (spec.pile_place (kind_of_sheet sheet.now) (report.unit_of election.now row.now)))).count < 1000000000 }
    requires countable { IsCountable (report.record_of election.now row.now) }
    requires finals { length row.now.finals ≤ length sheet.now.contests }
    requires contests_few { length sheet.now.contests ≤ 1000 }
    requires names { length figures.old.names.items ≡ length election.now.contests }
    ensures { OnOk result (spec.IsCounted election.now sheet.now row.now figures.old figures.new) }
{
    let batch = row.key.batch.as_str();
    let left = (sheet.contests.len() - row.finals.len()) as u32;
    add_record(
        alloc,
        &mut figures.piles,
        election,
        cards,
        kind_of(sheet),
        row,
    )?;
    figures.sheets.add(alloc, batch, 1)?;
    figures.waits.add(alloc, batch, left)?;
    add_names(alloc, &mut figures.names, election, row)?;
    figures.waiting = figures
        .waiting
        .checked_add(u64::from(left))
        .ok_or(OutOfMemory)?;
    Ok(())
}

/// Counts the sheet at a place in the order of adding, where those before it are counted.
fn add_sheet(
    alloc: Global,
    figures: &mut Figures,
    election: &Election,
    cards: &[Card],
    center: &Center<'_>,
    place: usize,
) -> Result<(), OutOfMemory>
    requires valid { IsValid election.now }
    requires cards { cards.now ≡ cards_of election.now }
    requires same { center.now.election ≡ election.now }
    requires there { place < length (sheets_in center.now.events) }
    requires so_far { spec.AreFigures election.now center.now.events (take place (sheets_in center.now.events)) figures.old }
    ensures { OnOk result
        (spec.AreFigures election.now center.now.events (take (place + 1) (sheets_in center.now.events)) figures.new) }
{
    let (_kept, _count) = (center.events(), center.sheet_count());
    each_card_has_its_precinct();
    let row = center.row_at(alloc, place)?;
    add_row(
        alloc,
        figures,
        election,
        cards,
        center.sheet_at(place),
        &row,
    )?;
    Ok(())
}

/// Counts all sheets.
pub(crate) fn add_sheets(
    alloc: Global,
    figures: &mut Figures,
    election: &Election,
    cards: &[Card],
    center: &Center<'_>,
) -> Result<(), OutOfMemory>
    requires valid { IsValid election.now }
    requires cards { cards.now ≡ cards_of election.now }
    requires same { center.now.election ≡ election.now }
    requires none { spec.AreFigures election.now center.now.events [] figures.old }
    ensures { OnOk result (spec.AreFigures election.now center.now.events (sheets_in center.now.events) figures.new) }
{
    for place in 0..center.sheet_count() {
        add_sheet(alloc, figures, election, cards, center, place)?;
    }
    Ok(())
}

/// Lets what was counted go.
pub(crate) fn drop_figures(_figures: Figures) {}
