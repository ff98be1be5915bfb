//! The records of a report, with the votes of their first snapshots.

ghost use Rattle.std.specs.Prelude.{◌≡◌, ◌<◌, ◌≤◌, ◌∷◌, [], None, false, codes, length, map, IfOk};
ghost use Rattle.serde_json.specs.View.{view};
ghost use Rattle.vx_base.specs.Refusals.{Gives, GivesAs};
ghost use Rattle.vx_base.specs.Results.{◌>>=◌ as and_then};
ghost use Rattle.vx_json.specs.Paths.{member_path};
ghost use Rattle.vx_tally.specs.Names as names;
ghost use Rattle.vx_tally.specs.Members.{list_member};
ghost use Rattle.vx_tally.specs.Faults.{is_no_memory};
ghost use Rattle.vx_tally.specs.Ids.{place_in, is_among};
ghost use Rattle.vx_tally.specs.Contests.{contest_ids, own_selections};
ghost use Rattle.vx_tally.specs.Records.{votes_in, row_at, rows_in, selections_at, counted_at, counted_list_in, snapshot_in, record_at, record_list_in, records_in};

use crate::contests::Directory;
use crate::fault::ReportFault;
use crate::ids::{Ids, Places};
use crate::members::{
    LIST_LIMIT, RECORD_LIMIT, first_member, first_path, id_member, list_member,
    new_reference_member, reference_member, votes_member,
};
use crate::names;
use crate::report::{CvrRecord, CvrRecords, RecordContest, RecordContests, VoteRow, VoteRows};
use serde_json::Value;
use std::alloc::Global;
use vx_json::{Path, Text};

/// The votes for a selection, those of its first position.
#[tactic(auto, unfolding(crate::specs::Records::votes_in))]
fn votes_of(alloc: Global, value: &Value, path: &Path) -> Result<u32, ReportFault>
    ensures { Gives is_no_memory result (votes_in (view value.now) path.now) }
{
    let position = first_member(alloc, value, path, names::selection_position())?;
    let at = first_path(alloc, path, names::selection_position())?;
    votes_member(alloc, position, &at, names::number_votes())
}

/// A selection of a contest that has those, with its votes.
#[tactic(auto, unfolding(crate::specs::Records::row_at))]
fn row_of(
    alloc: Global,
    selections: &Ids,
    value: &Value,
    path: &Path,
) -> Result<VoteRow, ReportFault>
    requires { length selections.now ≤ 1000000 }
    ensures { Gives is_no_memory result (row_at selections.now path.now (view value.now)) }
{
    let name = names::contest_selection_id();
    let selection = reference_member(alloc, value, path, name, selections)?;
    let votes = votes_of(alloc, value, path)?;
    Ok(VoteRow { selection, votes })
}

/// Puts the selections of a list into a list that has none.
#[tactic(auto, unfolding(crate::specs::Records::rows_in))]
fn push_rows(
    alloc: Global,
    selections: &Ids,
    values: &[Value],
    path: &Path,
    rows: &mut VoteRows,
) -> Result<(), ReportFault>
    requires few { length selections.now ≤ 1000000 }
    requires none { rows.old ≡ [] }
    ensures { GivesAs (λ _. rows.new) is_no_memory result
        (rows_in selections.now path.now (map view values.now)) }
{
    for value in values {
        let at = path.element(alloc, rows.len())?;
        rows.push(row_of(alloc, selections, value, &at)?)?;
    }
    Ok(())
}

/// The selections of a list.
fn rows_of(
    alloc: Global,
    selections: &Ids,
    values: &[Value],
    path: &Path,
) -> Result<VoteRows, ReportFault>
    requires { length selections.now ≤ 1000000 }
    ensures { Gives is_no_memory result (rows_in selections.now path.now (map view values.now)) }
{
    let mut rows = VoteRows::new(alloc);
    push_rows(alloc, selections, values, path, &mut rows)?;
    Ok(rows)
}

/// A contest of a record, where the report has contests with those ids and those selections, and
/// which is none of the contests before it.
#[tactic(auto, unfolding(crate::specs::Records::counted_at))]
fn counted_of(
    alloc: Global,
    contests: &Directory,
    value: &Value,
    path: &Path,
    found: &Places,
) -> Result<RecordContest, ReportFault>
    ensures exact { Gives is_no_memory result (counted_at (contest_ids contests.now)
        (own_selections contests.now) path.now found.now (view value.now)) }
    ensures is_new { IfOk result (λ counted. is_among counted.contest found.now ≡ false) }
{
    let contest = new_reference_member(alloc, value, path, "ContestId", contests.ids(), found)?;
    let over = votes_member(alloc, value, path, "Overvotes")?;
    let under = votes_member(alloc, value, path, names::undervotes())?;
    let list = list_member(
        alloc,
        value,
        path,
        names::cvr_contest_selection(),
        RECORD_LIMIT,
    )?;
    let at = path.member(alloc, names::cvr_contest_selection())?;
    let votes = rows_of(alloc, contests.selections_at(contest), list, &at)?;
    Ok(RecordContest {
        contest,
        over,
        under,
        votes,
    })
}

/// Puts the contests of a list into a list that has none, and their places into another.
#[tactic(auto, unfolding(crate::specs::Records::counted_list_in))]
fn push_counted(
    alloc: Global,
    contests: &Directory,
    values: &[Value],
    path: &Path,
    found: &mut Places,
    counted: &mut RecordContests,
) -> Result<(), ReportFault>
    requires places { found.old ≡ [] }
    requires none { counted.old ≡ [] }
    ensures { GivesAs (λ _. counted.new) is_no_memory result (counted_list_in
        (contest_ids contests.now) (own_selections contests.now) path.now (map view values.now)) }
{
    for value in values {
        let at = path.element(alloc, counted.len())?;
        let one = counted_of(alloc, contests, value, &at, found)?;
        found.push(one.contest)?;
        counted.push(one)?;
    }
    Ok(())
}

/// The contests of a list.
fn counted_list_of(
    alloc: Global,
    contests: &Directory,
    values: &[Value],
    path: &Path,
) -> Result<RecordContests, ReportFault>
    ensures { Gives is_no_memory result (counted_list_in (contest_ids contests.now)
        (own_selections contests.now) path.now (map view values.now)) }
{
    let mut counted = RecordContests::new(alloc);
    let found = &mut Places::new(alloc);
    push_counted(alloc, contests, values, path, found, &mut counted)?;
    Ok(counted)
}

/// The contests of a snapshot.
fn contests_in(
    alloc: Global,
    contests: &Directory,
    snapshot: &Value,
    path: &Path,
) -> Result<RecordContests, ReportFault>
    ensures { Gives is_no_memory result
        (and_then (list_member (view snapshot.now) path.now names.cvr_contest 1000)
        (counted_list_in (contest_ids contests.now) (own_selections contests.now)
        (member_path path.now names.cvr_contest))) }
{
    let name = names::cvr_contest();
    let list = list_member(alloc, snapshot, path, name, RECORD_LIMIT)?;
    counted_list_of(alloc, contests, list, &path.member(alloc, name)?)
}

/// The contests of a record, those of its first snapshot.
#[tactic(auto, unfolding(crate::specs::Records::snapshot_in))]
fn snapshot_of(
    alloc: Global,
    contests: &Directory,
    value: &Value,
    path: &Path,
) -> Result<RecordContests, ReportFault>
    ensures { Gives is_no_memory result (snapshot_in (contest_ids contests.now)
        (own_selections contests.now) (view value.now) path.now) }
{
    let snapshot = first_member(alloc, value, path, names::cvr_snapshot())?;
    let at = first_path(alloc, path, names::cvr_snapshot())?;
    contests_in(alloc, contests, snapshot, &at)
}

/// A record with an id that none of those is.
#[tactic(auto, unfolding(crate::specs::Records::record_at))]
fn record_of(
    alloc: Global,
    units: &Ids,
    contests: &Directory,
    value: &Value,
    path: &Path,
    uniques: &Ids,
) -> Result<CvrRecord, ReportFault>
    requires { length units.now ≤ 1000000 }
    ensures exact { Gives is_no_memory result (record_at units.now (contest_ids contests.now)
        (own_selections contests.now) path.now uniques.now (view value.now)) }
    ensures is_new { IfOk result (λ one. place_in one.unique uniques.now ≡ None) }
{
    let unique = id_member(alloc, value, path, "UniqueId", uniques)?;
    let unit = reference_member(alloc, value, path, names::ballot_style_unit_id(), units)?;
    let unique = Text::from_str(alloc, unique)?;
    let contests = snapshot_of(alloc, contests, value, path)?;
    Ok(CvrRecord {
        unique,
        unit,
        contests,
    })
}

/// Puts the records of a list into a list that has none, and their ids into another.
#[tactic(auto, unfolding(crate::specs::Records::record_list_in))]
fn push_records(
    alloc: Global,
    units: &Ids,
    contests: &Directory,
    values: &[Value],
    path: &Path,
    uniques: &mut Ids,
    records: &mut CvrRecords,
) -> Result<(), ReportFault>
    requires few { length units.now ≤ 1000000 }
    requires ids { uniques.old ≡ [] }
    requires none { records.old ≡ [] }
    ensures { GivesAs (λ _. records.new) is_no_memory result (record_list_in units.now
        (contest_ids contests.now) (own_selections contests.now) path.now (map view values.now)) }
{
    for value in values {
        let at = path.element(alloc, records.len())?;
        let one = record_of(alloc, units, contests, value, &at, uniques)?;
        uniques.push(alloc, one.unique.as_str())?;
        records.push(one)?;
    }
    Ok(())
}

/// The records of a list.
fn record_list_of(
    alloc: Global,
    units: &Ids,
    contests: &Directory,
    values: &[Value],
    path: &Path,
) -> Result<CvrRecords, ReportFault>
    requires { length units.now ≤ 1000000 }
    ensures { Gives is_no_memory result (record_list_in units.now (contest_ids contests.now)
        (own_selections contests.now) path.now (map view values.now)) }
{
    let mut records = CvrRecords::new(alloc);
    let ids = &mut Ids::new(alloc);
    push_records(alloc, units, contests, values, path, ids, &mut records)?;
    Ok(records)
}

/// The records of a report that has those units and contests.
#[tactic(auto, unfolding(crate::specs::Records::records_in))]
pub(crate) fn records_of(
    alloc: Global,
    units: &Ids,
    contests: &Directory,
    value: &Value,
) -> Result<CvrRecords, ReportFault>
    requires { length units.now ≤ 1000000 }
    ensures { Gives is_no_memory result (records_in units.now contests.now (view value.now)) }
{
    let top = Path::root(alloc);
    let list = list_member(alloc, value, &top, "CVR", LIST_LIMIT)?;
    record_list_of(alloc, units, contests, list, &top.member(alloc, "CVR")?)
}
