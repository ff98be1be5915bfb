//! The record of a row, with the votes of its exported contests.

ghost use Rattle.std.specs.Prelude.{◌≡◌, All, IfOk, map};
ghost use Rattle.vx_election_model.specs.Valid.{IsValid};
ghost use Rattle.vx_styles.specs.Cards.{cards_of};
ghost use Rattle.vx_cvr.specs.Names as names;
ghost use Rattle.vx_cvr.specs.Report.{HasItsContests, IsOfElection};
ghost use Rattle.vx_results.specs.Report as spec;

use std::alloc::Global;
use vx_base::OutOfMemory;
use vx_center::{ExportSheet, Final, Key};
use vx_cvr::{card_at, overvotes, sheet_name, undervotes, voted_for, votes_of};
use vx_election_model::{Contest, Election};
use vx_json::Text;
use vx_styles::{Card, each_card_has_its_precinct};
use vx_tally::{CvrRecord, RecordContest, RecordContests, VoteRow, VoteRows};

/// The votes of a selected option.
fn vote_of(contest: &Contest, counted: &Final, option: u32) -> VoteRow
    ensures { result ≡ spec.vote_of contest.now counted.now option }
{
    VoteRow {
        selection: voted_for(contest, counted, option),
        votes: votes_of(contest, counted, option),
    }
}

/// The votes of all selected options, in order.
fn votes(alloc: Global, contest: &Contest, counted: &Final) -> Result<VoteRows, OutOfMemory>
    ensures { IfOk result (λ votes. votes
        ≡ map (spec.vote_of contest.now counted.now) counted.now.selected) }
{
    let options = counted.selected.as_slice();
    let mut votes = Vec::with_capacity(alloc, options.len())?;
    for option in options {
        votes.push(vote_of(contest, counted, *option))?;
    }
    Ok(VoteRows::from_vec(votes))
}

/// An exported contest of a sheet.
fn counted_of(
    alloc: Global,
    contest: &Contest,
    counted: &Final,
) -> Result<RecordContest, OutOfMemory>
    ensures { IfOk result (λ made. made ≡ spec.counted_of contest.now counted.now) }
{
    Ok(RecordContest {
        contest: counted.contest,
        over: overvotes(contest, counted),
        under: undervotes(contest, counted),
        votes: votes(alloc, contest, counted)?,
    })
}

/// An exported contest of a sheet, which the election has.
fn counted_in(
    alloc: Global,
    election: &Election,
    counted: &Final,
) -> Result<RecordContest, OutOfMemory>
    requires { IsOfElection election.now counted.now }
    ensures { IfOk result (λ made. made ≡ spec.counted_in election.now counted.now) }
{
    let contest = &election.contests.as_slice()[counted.contest as usize];
    counted_of(alloc, contest, counted)
}

/// The exported contests of a sheet, in order.
fn contests_on(
    alloc: Global,
    election: &Election,
    finals: &[Final],
) -> Result<RecordContests, OutOfMemory>
    requires { All (IsOfElection election.now) finals.now }
    ensures { IfOk result (λ made. made ≡ map (spec.counted_in election.now) finals.now) }
{
    let mut made = Vec::with_capacity(alloc, finals.len())?;
    for counted in finals {
        made.push(counted_in(alloc, election, counted)?)?;
    }
    Ok(RecordContests::from_vec(made))
}

/// The id of a sheet's record.
pub(crate) fn unique(alloc: Global, key: &Key) -> Result<Text, OutOfMemory>
    ensures { IfOk result (λ name. name ≡ names.sheet_name key.now) }
{
    let name = sheet_name(alloc, key)?;
    Ok(Text::from_string(name))
}

/// The place of the unit of a card, whose precinct's stands behind that of all of the election.
pub(crate) fn unit_of(election: &Election, cards: &[Card], number: u32) -> u32
    requires valid { IsValid election.now }
    requires cards { cards.now ≡ cards_of election.now }
    ensures { result ≡ spec.unit_at election.now number }
{
    each_card_has_its_precinct();
    let card = card_at(cards, number);
    card.precinct + 1
}

/// The record of a row; `cards` are the election's.
pub(crate) fn record_of(
    alloc: Global,
    election: &Election,
    cards: &[Card],
    row: &ExportSheet,
) -> Result<CvrRecord, OutOfMemory>
    requires valid { IsValid election.now }
    requires cards { cards.now ≡ cards_of election.now }
    requires contests { HasItsContests election.now row.now }
    ensures { IfOk result (λ made. made ≡ spec.record_of election.now row.now) }
{
    Ok(CvrRecord {
        unique: unique(alloc, &row.key)?,
        unit: unit_of(election, cards, row.card),
        contests: contests_on(alloc, election, row.finals.as_slice())?,
    })
}
