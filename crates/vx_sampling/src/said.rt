//! What a record and the hand say of selections, and by how much the record overstates the margin.

ghost use Rattle.std.specs.Prelude.{◌≡◌, ◌∷◌, [], ◌≤◌, ◌==◌, IfOk, fold, map, max, sum_by};
ghost use Rattle.std.specs.List.{list_any};
ghost use Rattle.vx_tally.specs.Totals.{total_of};
ghost use Rattle.vx_sampling.specs.Said as spec;
ghost use Rattle.vx_sampling.specs.Votes as votes;

use std::alloc::Global;
use vx_base::OutOfMemory;
use vx_tally::{CvrRecord, RecordContest, VoteRow};

/// The votes for a selection on one ballot.
#[derive(Clone, Copy)]
pub(crate) struct Said {
    /// Those of its record.
    pub(crate) counted: u32,
    /// Those that a hand read.
    pub(crate) read: u32,
}

/// The votes of a row for a selection.
fn row_votes(row: &VoteRow, selection: u32) -> u32
    ensures { result ≡ votes.row_votes selection row.now }
{
    if selection == row.selection {
        row.votes
    } else {
        0
    }
}

/// The votes of rows for a selection. A sum of 2^32 is told as want of memory, too.
fn rows_votes(rows: &[VoteRow], selection: u32) -> Result<u32, OutOfMemory>
    ensures { IfOk result (λ sum. sum ≡ votes.rows_votes selection rows.now) }
{
    let mut sum: u32 = 0;
    for row in rows {
        sum = sum
            .checked_add(row_votes(row, selection))
            .ok_or(OutOfMemory)?;
    }
    Ok(sum)
}

/// The votes of a contest of a record for a selection of the contest at a place.
fn contest_votes(counted: &RecordContest, contest: u32, selection: u32) -> Result<u32, OutOfMemory>
    ensures { IfOk result (λ sum. sum ≡ votes.contest_votes contest selection counted.now) }
{
    if contest == counted.contest {
        rows_votes(counted.votes.as_slice(), selection)
    } else {
        Ok(0)
    }
}

/// The votes of contests of a record for a selection of the contest at a place. A sum of 2^32 is told as want of
/// memory, too.
fn contests_votes(
    contests: &[RecordContest],
    contest: u32,
    selection: u32,
) -> Result<u32, OutOfMemory>
    ensures { IfOk result (λ sum. sum ≡ sum_by (votes.contest_votes contest selection) contests.now) }
{
    let mut sum: u32 = 0;
    for counted in contests {
        sum = sum
            .checked_add(contest_votes(counted, contest, selection)?)
            .ok_or(OutOfMemory)?;
    }
    Ok(sum)
}

/// A record's votes for a selection of the contest at a place.
fn record_votes(one: &CvrRecord, contest: u32, selection: u32) -> Result<u32, OutOfMemory>
    ensures { IfOk result (λ sum. sum ≡ total_of (one.now ∷ []) contest selection) }
{
    let sum = contests_votes(one.contests.as_slice(), contest, selection)?;
    Ok(sum)
}

/// Whether a selection is among those that are marked.
fn is_marked(marks: &[u32], selection: u32) -> bool
    ensures { result ≡ list_any (λ mark. selection == mark) marks.now }
{
    marks.iter().any(|mark| selection == *mark)
}

/// A hand's votes for a selection, where so many seats are to be filled.
fn hand_votes(seats: u32, marks: &[u32], selection: u32) -> u32
    ensures { result ≡ spec.hand_votes seats marks.now selection }
{
    let is_vote = marks.len() <= seats as usize && is_marked(marks, selection);
    u32::from(is_vote)
}

/// What a record and a line of the hand say of selections of the contest at a place.
pub(crate) fn said_in(
    alloc: Global,
    one: &CvrRecord,
    contest: u32,
    seats: u32,
    marks: &[u32],
    selections: &[u32],
) -> Result<Vec<Said>, OutOfMemory>
    ensures { IfOk result (λ said. said.items ≡ map (spec.said_of one.now contest seats marks.now) selections.now) }
{
    let mut said = Vec::new(alloc);
    for selection in selections {
        said.push(Said {
            counted: record_votes(one, contest, *selection)?,
            read: hand_votes(seats, marks, *selection),
        })?;
    }
    Ok(said)
}

/// Whether the hand has a vote where the record has none.
fn is_missed(said: Said) -> bool
    ensures { result ≡ spec.is_missed said }
{
    said.counted == 0 && 0 < said.read
}

/// Whether the hand has a vote in a slot in which the record has none.
fn any_missed(slots: &[Said]) -> bool
    ensures { result ≡ list_any spec.is_missed slots.now }
{
    slots.iter().any(|said| is_missed(*said))
}

/// All slots as one loser.
fn as_one(slots: &[Said]) -> Said
    ensures { result ≡ spec.as_one slots.now }
{
    if any_missed(slots) {
        Said {
            counted: 0,
            read: 1,
        }
    } else {
        Said {
            counted: 0,
            read: 0,
        }
    }
}

/// Whether the slots are one more loser.
fn slots_count(losers: &[Said], slots: &[Said]) -> bool
    ensures { result ≡ spec.slots_count losers.now slots.now }
{
    losers.is_empty() || !slots.is_empty()
}

/// The losers, and behind them the slots as one more where they are one.
pub(crate) fn rivals_of(losers: Vec<Said>, slots: &[Said]) -> Result<Vec<Said>, OutOfMemory>
    ensures { IfOk result (λ rivals. rivals.items ≡ spec.rivals_of losers.items slots.now) }
{
    let mut rivals = losers;
    if slots_count(rivals.as_slice(), slots) {
        rivals.push(as_one(slots))?;
    }
    Ok(rivals)
}

/// By how many votes the record overstates a winner's lead over a loser.
fn overstated(winner: Said, loser: Said) -> u64
    ensures { result ≡ spec.overstated winner loser }
{
    let counted = u64::from(winner.counted) + u64::from(loser.read);
    let read = u64::from(winner.read) + u64::from(loser.counted);
    counted.saturating_sub(read)
}

/// The greatest of a number and of what the record overstates a winner's lead by over each rival.
fn greatest(before: u64, winner: Said, rivals: &[Said]) -> u64
    ensures { result ≡ fold max before (map (spec.overstated winner) rivals.now) }
{
    let mut most = before;
    for rival in rivals {
        most = most.max(overstated(winner, *rival));
    }
    most
}

/// By how many votes the record overstates the margin: the greatest over all pairs, 2 where it is more.
pub(crate) fn overstatement(winners: &[Said], rivals: &[Said]) -> u32
    ensures exact { result ≡ spec.overstatement winners.now rivals.now }
    ensures few { result ≤ 2 }
{
    let mut most = 0;
    for winner in winners {
        most = greatest(most, *winner, rivals);
    }
    most.min(2) as u32
}
