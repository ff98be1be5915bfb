//! What the draws say of a contest.

ghost use Rattle.std.specs.Prelude.{◌≡◌, ◌==◌, ◌<◌, ◌≤◌, ◌||◌, ℕ, All, IfOk, Some, false, length, map, option_copied, slice_get, slice_index_or};
ghost use Rattle.std.specs.List.{list_any};
ghost use Rattle.vx_sampling.specs.Findings as spec;
ghost use Rattle.vx_sampling.specs.Sampled.{IsSample};

use crate::said::{overstatement, rivals_of, said_in};
use crate::sides::Sides;
use std::alloc::Global;
use vx_audit::{Hand, HandLine, Places};
use vx_base::OutOfMemory;
use vx_results::JournalRecords;
use vx_tally::CvrRecord;

/// What a draw says of a contest.
#[derive(Clone, Copy)]
pub(crate) enum Finding {
    /// By how many votes the record overstates the margin: 0, 1 or 2.
    Overstated(u32),
    /// The record has the contest, and there is no line of it.
    Missing,
}

/// The draws, their records, and of which records there are lines.
#[derive(Drop)]
pub(crate) struct Sample {
    /// The places of the records that are drawn.
    pub(crate) draws: Places,
    /// The records that are drawn: one for each draw, in the draws' order.
    pub(crate) drawn: Vec<CvrRecord>,
    /// For each record of the journal whether there is a line of its ballot.
    pub(crate) found: Vec<bool>,
}

/// Lets a sample go.
pub(crate) fn drop_sample(_sample: Sample) {}

/// The records of draws, in their order.
pub(crate) fn drawn_of(
    alloc: Global,
    records: &JournalRecords<'_, '_>,
    draws: &[u32],
) -> Result<Vec<CvrRecord>, OutOfMemory>
    requires { All (λ draw. draw < length records.now) draws.now }
    ensures { IfOk result (λ drawn. map Some drawn.items ≡ map (slice_get records.now) draws.now) }
{
    let mut drawn = Vec::with_capacity(alloc, draws.len())?;
    for draw in draws {
        drawn.push(records.record(alloc, *draw as usize)?)?;
    }
    Ok(drawn)
}

/// Puts the ballot of a line, if it is of one of the records.
#[tactic(auto, using(crate::proofs::Put::put_found, crate::proofs::Put::put_past))]
fn put_found(found: &mut Vec<bool>, ballot: u32)
    ensures sized { length found.new.items ≡ length found.old.items }
    ensures found { (place : ℕ) → place < length found.old.items → slice_index_or found.new.items place false
        ≡ (slice_index_or found.old.items place false || place == ballot) }
{
    let at = ballot as usize;
    if at < found.len() {
        found[at] = true;
    }
}

/// For each of so many records whether there is a line of its ballot.
pub(crate) fn found_in(
    alloc: Global,
    lines: &[HandLine],
    count: usize,
) -> Result<Vec<bool>, OutOfMemory>
    ensures sized { IfOk result (λ found. length found.items ≡ count) }
    ensures found { IfOk result (λ found. (place : ℕ) → place < count →
        slice_index_or found.items place false ≡ list_any (spec.is_of place) lines.now) }
{
    let mut found = vec![in alloc; false; count]?;
    for line in lines {
        put_found(&mut found, line.ballot);
    }
    Ok(found)
}

/// Whether a record has the contest at a place.
fn has_contest(contest: u32, one: &CvrRecord) -> bool
    ensures { result ≡ spec.has_contest contest one.now }
{
    let counted = one.contests.as_slice();
    counted.iter().any(|counted| contest == counted.contest)
}

/// What is found where there is a line with these marks.
fn found_by(
    alloc: Global,
    sides: &Sides,
    one: &CvrRecord,
    marks: &[u32],
) -> Result<Finding, OutOfMemory>
    ensures exact { IfOk result (λ finding. finding ≡ spec.found_by sides.now one.now marks.now) }
    ensures few { IfOk result (λ finding. spec.votes_of finding ≤ 2) }
{
    let (contest, seats) = (sides.contest, sides.seats);
    let winners = said_in(alloc, one, contest, seats, marks, sides.winners.as_slice())?;
    let losers = said_in(alloc, one, contest, seats, marks, sides.losers.as_slice())?;
    let slots = said_in(alloc, one, contest, seats, marks, sides.slots.as_slice())?;
    let rivals = rivals_of(losers, slots.as_slice())?;
    Ok(Finding::Overstated(overstatement(winners.as_slice(), rivals.as_slice())))
}

/// What is found where there is no line.
fn found_without(has_contest: bool, is_found: bool) -> Finding
    ensures exact { result ≡ spec.found_without has_contest is_found }
    ensures few { spec.votes_of result ≤ 2 }
{
    if has_contest {
        Finding::Missing
    } else if is_found {
        Finding::Overstated(0)
    } else {
        Finding::Overstated(1)
    }
}

/// What is found of a record by the hand's line, if there is one.
fn found_for(
    alloc: Global,
    sides: &Sides,
    one: &CvrRecord,
    is_found: bool,
    line: Option<&HandLine>,
) -> Result<Finding, OutOfMemory>
    ensures exact { IfOk result (λ finding. finding
        ≡ spec.found_for sides.now one.now is_found (option_copied line.entry)) }
    ensures few { IfOk result (λ finding. spec.votes_of finding ≤ 2) }
{
    match line {
        None => Ok(found_without(has_contest(sides.contest, one), is_found)),
        Some(line) => found_by(alloc, sides, one, line.marks.as_slice()),
    }
}

/// What is found of a record, which stands at a place.
fn found_at(
    alloc: Global,
    sides: &Sides,
    hand: &Hand,
    found: &[bool],
    ballot: u32,
    one: &CvrRecord,
) -> Result<Finding, OutOfMemory>
    requires within { ballot < length found.now }
    requires found { slice_index_or found.now ballot false ≡ list_any (spec.is_of ballot) hand.now }
    ensures exact { IfOk result (λ finding. finding ≡ spec.found_at sides.now hand.now ballot (Some one.now)) }
    ensures few { IfOk result (λ finding. spec.votes_of finding ≤ 2) }
{
    let is_found = found[ballot as usize];
    let line = hand.line(ballot, sides.contest);
    found_for(alloc, sides, one, is_found, line)
}

/// What a draw says of a contest, by its place among the draws; they are of these records.
fn drawn_at(
    alloc: Global,
    sides: &Sides,
    hand: &Hand,
    _records: &JournalRecords<'_, '_>,
    sample: &Sample,
    at: usize,
) -> Result<Finding, OutOfMemory>
    requires sample { IsSample hand.now _records.now sample.now }
    requires within { at < length sample.now.draws }
    ensures exact { IfOk result (λ finding.
        slice_get (spec.findings_of sides.now hand.now _records.now sample.now.draws) at ≡ Some finding) }
    ensures few { IfOk result (λ finding. spec.votes_of finding ≤ 2) }
{
    let (draws, drawn) = (sample.draws.as_slice(), sample.drawn.as_slice());
    let found = sample.found.as_slice();
    let finding = found_at(alloc, sides, hand, found, draws[at], &drawn[at])?;
    Ok(finding)
}

/// What the draws say of a contest, in their order; they are of these records.
#[tactic(auto, using(crate::proofs::Drawn::one_more, crate::proofs::Drawn::all_found))]
pub(crate) fn findings_of(
    alloc: Global,
    sides: &Sides,
    hand: &Hand,
    records: &JournalRecords<'_, '_>,
    sample: &Sample,
) -> Result<Vec<Finding>, OutOfMemory>
    requires { IsSample hand.now records.now sample.now }
    ensures exact { IfOk result (λ findings. findings.items
        ≡ spec.findings_of sides.now hand.now records.now sample.now.draws) }
    ensures few { IfOk result (λ findings. All (λ finding. spec.votes_of finding ≤ 2) findings.items) }
{
    let mut findings = Vec::new(alloc);
    for at in 0..sample.draws.len() {
        findings.push(drawn_at(alloc, sides, hand, records, sample, at)?)?;
    }
    Ok(findings)
}
