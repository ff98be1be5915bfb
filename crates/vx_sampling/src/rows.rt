//! What is told of each contest.

ghost use Rattle.std.specs.Prelude.{◌≡◌, ◌==◌, ◌<◌, ◌≤◌, ◌^◌, All, IfOk, count_by, length};
ghost use Rattle.vx_election_model.specs.Options.{options_of};
ghost use Rattle.vx_tally.specs.Running.{SumsUp};
ghost use Rattle.vx_sampling.specs.Findings.{findings_of, is_missing, votes_of};
ghost use Rattle.vx_sampling.specs.Rows as spec;
ghost use Rattle.vx_sampling.specs.Sampled.{IsSample};

use crate::finding::{Finding, Sample, findings_of};
use crate::sides::{Sides, choice_votes, sides_of, slot_votes, slots_of};
use crate::standing::{Standing, standing_of};
use std::alloc::Global;
use vx_audit::Hand;
use vx_base::OutOfMemory;
use vx_cvr::contest_name;
use vx_election_model::Contest;
use vx_json::Text;
use vx_results::JournalRecords;
use vx_risk::{Draws, bound_of, enough_draws};
use vx_tally::Totals;

/// The figures of a contest with a margin.
#[derive(Clone, Copy)]
pub(crate) struct Figures {
    /// The margin in votes.
    pub(crate) margin: u64,
    /// How many draws overstate it by one vote.
    pub(crate) one: u32,
    /// How many draws overstate it by two votes.
    pub(crate) two: u32,
    /// How many of these as their line is missing.
    pub(crate) missing: u32,
    /// The bound of the risk in millionths, rounded up.
    pub(crate) millionths: u32,
    /// Whether it is at most the limit.
    pub(crate) is_met: bool,
    /// How many draws without an overstatement are enough, if 10,000 are.
    pub(crate) enough: Option<u32>,
}

/// What is told of a contest.
#[derive(Clone, Copy)]
pub(crate) enum Told {
    Tie,
    WriteIn,
    Risk(Figures),
}

/// A contest by its name in a report, and what is told of it.
#[derive(Drop)]
pub(crate) struct Row {
    pub(crate) name: Text,
    pub(crate) told: Told,
}

/// A finding's overstatement in votes.
fn votes_of(finding: Finding) -> u32
    ensures { result ≡ votes_of finding }
{
    match finding {
        Finding::Overstated(votes) => votes,
        Finding::Missing => 2,
    }
}

/// How many findings overstate by so many votes.
fn how_many(findings: &[Finding], votes: u32) -> u32
    requires { length findings.now < 2 ^ 32 }
    ensures { result ≡ count_by (λ finding. votes_of finding == votes) findings.now }
{
    findings
        .iter()
        .filter(|finding| votes_of(**finding) == votes)
        .count() as u32
}

/// Whether a line is missing.
fn is_missing(finding: Finding) -> bool
    ensures { result ≡ is_missing finding }
{
    match finding {
        Finding::Overstated(_) => false,
        Finding::Missing => true,
    }
}

/// How many lines are missing.
fn missing(findings: &[Finding]) -> u32
    requires { length findings.now < 2 ^ 32 }
    ensures { result ≡ count_by is_missing findings.now }
{
    findings
        .iter()
        .filter(|finding| is_missing(**finding))
        .count() as u32
}

/// The figures of a contest with a margin, of so many records.
fn figures_of(
    alloc: Global,
    records: u32,
    limit: u32,
    margin: u64,
    findings: &[Finding],
) -> Result<Figures, OutOfMemory>
    requires count { length findings.now < 2 ^ 32 }
    requires few { All (λ finding. votes_of finding ≤ 2) findings.now }
    ensures { IfOk result (λ figures. figures ≡ spec.figures_of records limit margin findings.now) }
{
    let one = how_many(findings, 1);
    let two = how_many(findings, 2);
    let missing = missing(findings);
    let draws = Draws {
        records,
        margin,
        drawn: findings.len() as u32,
        one,
        two,
    };
    let bound = bound_of(alloc, draws, limit)?;
    let enough = enough_draws(alloc, records, margin, limit)?;
    Ok(Figures {
        margin,
        one,
        two,
        missing,
        millionths: bound.millionths,
        is_met: bound.is_met,
        enough,
    })
}

/// What is told of the contest at a place that has a margin.
fn risk_of(
    alloc: Global,
    sides: &Sides,
    hand: &Hand,
    records: &JournalRecords<'_, '_>,
    sample: &Sample,
    limit: u32,
    margin: u64,
) -> Result<Told, OutOfMemory>
    requires { IsSample hand.now records.now sample.now }
    ensures { IfOk result (λ told. told ≡ Told.Risk (spec.figures_of (length records.now) limit margin
        (findings_of sides.now hand.now records.now sample.now.draws))) }
{
    let findings = findings_of(alloc, sides, hand, records, sample)?;
    let count = records.len() as u32;
    let figures = figures_of(alloc, count, limit, margin, findings.as_slice())?;
    Ok(Told::Risk(figures))
}

/// What is told of the contest at a place, by how it stands.
fn told_by(
    alloc: Global,
    sides: &Sides,
    hand: &Hand,
    records: &JournalRecords<'_, '_>,
    sample: &Sample,
    limit: u32,
    standing: Standing,
) -> Result<Told, OutOfMemory>
    requires { IsSample hand.now records.now sample.now }
    ensures { IfOk result (λ told. told ≡ spec.told_by records.now hand.now sample.now.draws limit sides.now standing) }
{
    match standing {
        Standing::Tie => Ok(Told::Tie),
        Standing::WriteIn => Ok(Told::WriteIn),
        Standing::Margin(margin) => risk_of(alloc, sides, hand, records, sample, limit, margin),
    }
}

/// What is told of the contest at a place.
fn told_of(
    alloc: Global,
    totals: &Totals,
    hand: &Hand,
    records: &JournalRecords<'_, '_>,
    sample: &Sample,
    limit: u32,
    place: u32,
    contest: &Contest,
) -> Result<Told, OutOfMemory>
    requires options { options_of contest.now < 2 ^ 32 }
    requires summed { SumsUp records.now totals.now }
    requires sample { IsSample hand.now records.now sample.now }
    ensures { IfOk result (λ told. told ≡ spec.told_of records.now hand.now sample.now.draws limit place contest.now) }
{
    let votes = choice_votes(alloc, totals, place, contest)?;
    let slots = slots_of(alloc, contest)?;
    let written = slot_votes(totals, place, slots.as_slice())?;
    let standing = standing_of(alloc, contest.seats, votes.as_slice(), written)?;
    let sides = sides_of(alloc, place, contest, votes.as_slice(), slots)?;
    let told = told_by(alloc, &sides, hand, records, sample, limit, standing)?;
    Ok(told)
}

/// The row of the contest at a place.
fn row_of(
    alloc: Global,
    totals: &Totals,
    hand: &Hand,
    records: &JournalRecords<'_, '_>,
    sample: &Sample,
    limit: u32,
    place: u32,
    contest: &Contest,
) -> Result<Row, OutOfMemory>
    requires options { options_of contest.now < 2 ^ 32 }
    requires summed { SumsUp records.now totals.now }
    requires sample { IsSample hand.now records.now sample.now }
    ensures { IfOk result (λ row. row ≡ spec.row_of records.now hand.now sample.now.draws limit place contest.now) }
{
    let told = told_of(alloc, totals, hand, records, sample, limit, place, contest)?;
    let name = contest_name(alloc, contest.id.as_str())?;
    Ok(Row {
        name: Text::from_string(name),
        told,
    })
}

/// The rows of all contests, in order.
#[tactic(auto, unfolding(crate::specs::Rows::rows_of))]
pub(crate) fn rows_of(
    alloc: Global,
    totals: &Totals,
    hand: &Hand,
    records: &JournalRecords<'_, '_>,
    sample: &Sample,
    limit: u32,
    contests: &[Contest],
) -> Result<Vec<Row>, OutOfMemory>
    requires contests { length contests.now < 2 ^ 32 }
    requires options { All (λ contest. options_of contest < 2 ^ 32) contests.now }
    requires summed { SumsUp records.now totals.now }
    requires sample { IsSample hand.now records.now sample.now }
    ensures { IfOk result (λ rows. rows.items
        ≡ spec.rows_of records.now hand.now sample.now.draws limit contests.now) }
{
    let mut rows = Vec::new(alloc);
    for place in 0..contests.len() {
        let contest = &contests[place];
        let row = row_of(
            alloc,
            totals,
            hand,
            records,
            sample,
            limit,
            place as u32,
            contest,
        )?;
        rows.push(row)?;
    }
    Ok(rows)
}
