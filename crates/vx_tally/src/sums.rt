//! Sums that are kept in a map, raised and lowered by the numbers of a record.

ghost use Rattle.std.specs.Prelude.{◌≡◌, ℕ, ◌+◌, ◌<◌, ◌≤◌, ◌^◌, ◌∷◌, [], length};
ghost use Rattle.std.specs.List.{flat_map};
ghost use Rattle.vx_tally.specs.declared.sums.Change.{Change};
ghost use Rattle.vx_tally.specs.Sums.{row_shares, contest_shares, record_shares, sum_at, changed_by, Allows, IsChanged};

use crate::report::{CvrRecord, RecordContest, VoteRow};
use indexmap::IndexMap;

/// What there is a sum of. Contests, selections and units are places.
#[derive(Clone, Copy, PartialEq, Eq, Hash)]
pub(crate) enum Counted {
    /// The votes for a selection of a contest.
    Votes(u32, u32),
    /// The votes in a unit, for a selection of a contest.
    VotesIn(u32, u32, u32),
    /// The overvotes of a contest.
    Over(u32),
    /// The undervotes of a contest.
    Under(u32),
}

/// Whether numbers are added or taken away.
#[derive(Clone, Copy)]
pub(crate) enum Change {
    Raise,
    Lower,
}

/// Sums, by what they are of; one that isn't there is 0.
pub(crate) type Sums = IndexMap<Counted, u64>;

/// The sum of one.
pub(crate) fn sum_at(sums: &Sums, key: Counted) -> u64
    ensures { result ≡ sum_at sums.now key }
{
    sums.get(&key).copied().unwrap_or(0)
}

/// A number behind another, or what is left of it without the other.
fn changed(change: Change, before: u64, number: u32) -> u64
    requires raised { change ≡ Change.Raise → before + number < 2 ^ 64 }
    requires lowered { change ≡ Change.Lower → number ≤ before }
    ensures { result ≡ changed_by change before number }
{
    match change {
        Change::Raise => before + u64::from(number),
        Change::Lower => before - u64::from(number),
    }
}

/// Adds a number to a sum, or takes it away. Taking away takes no memory.
fn change_sum(sums: &mut Sums, change: Change, key: Counted, number: u32)
    requires { Allows change ((key, number) ∷ []) sums.old }
    ensures { IsChanged change ((key, number) ∷ []) sums.old sums.new }
{
    if number == 0 {
        return;
    }
    let before = sum_at(sums, key);
    sums.insert(key, changed(change, before, number)).unwrap();
}

fn change_row(sums: &mut Sums, change: Change, unit: u32, contest: u32, row: VoteRow)
    requires { Allows change (row_shares unit contest row) sums.old }
    ensures { IsChanged change (row_shares unit contest row) sums.old sums.new }
{
    change_sum(
        sums,
        change,
        Counted::Votes(contest, row.selection),
        row.votes,
    );
    change_sum(
        sums,
        change,
        Counted::VotesIn(unit, contest, row.selection),
        row.votes,
    );
}

fn change_rows(sums: &mut Sums, change: Change, unit: u32, contest: u32, rows: &[VoteRow])
    requires { Allows change (flat_map (row_shares unit contest) rows.now) sums.old }
    ensures { IsChanged change (flat_map (row_shares unit contest) rows.now) sums.old sums.new }
{
    for row in rows {
        change_row(sums, change, unit, contest, *row);
    }
}

fn change_contest(sums: &mut Sums, change: Change, unit: u32, counted: &RecordContest)
    requires { Allows change (contest_shares unit counted.now) sums.old }
    ensures { IsChanged change (contest_shares unit counted.now) sums.old sums.new }
{
    change_sum(sums, change, Counted::Over(counted.contest), counted.over);
    change_sum(sums, change, Counted::Under(counted.contest), counted.under);
    change_rows(
        sums,
        change,
        unit,
        counted.contest,
        counted.votes.as_slice(),
    );
}

fn change_contests(sums: &mut Sums, change: Change, unit: u32, contests: &[RecordContest])
    requires { Allows change (flat_map (contest_shares unit) contests.now) sums.old }
    ensures { IsChanged change (flat_map (contest_shares unit) contests.now) sums.old sums.new }
{
    for counted in contests {
        change_contest(sums, change, unit, counted);
    }
}

/// Adds the numbers of a record to their sums, or takes them away. Taking away takes no memory, and
/// adding none beyond the room that there is.
pub(crate) fn change_record(sums: &mut Sums, change: Change, one: &CvrRecord)
    requires { Allows change (record_shares one.now) sums.old }
    ensures { IsChanged change (record_shares one.now) sums.old sums.new }
{
    change_contests(sums, change, one.unit, one.contests.as_slice());
}
