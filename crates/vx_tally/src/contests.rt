//! The units of a report, and the contests of its election with their selections.

ghost use Rattle.std.specs.Prelude.{◌≡◌, ◌<◌, ◌≤◌, ◌+◌, ◌++◌, ◌∷◌, [], None, codes, length, map, vec_len, vec_capacity, IfOk, OnOk, is_ok, if◌then◌else◌};
ghost use Rattle.serde_json.specs.View.{view};
ghost use Rattle.vx_base.specs.Refusals.{Gives, GivesAs};
ghost use Rattle.vx_tally.specs.Faults.{is_no_memory};
ghost use Rattle.vx_tally.specs.Ids.{place_in};
ghost use Rattle.vx_json.specs.Paths.{member_path, element_path};
ghost use Rattle.vx_base.specs.Results.{◌>>=◌ as and_then};
ghost use Rattle.vx_tally.specs.Names as names;
ghost use Rattle.vx_tally.specs.Members.{id_member, list_member};
ghost use Rattle.vx_tally.specs.Contests.{selection_ids, own_ids_in, units_in, with_contest, contest_list_in, election_path, contests_in};

use crate::fault::ReportFault;
use crate::ids::Ids;
use crate::members::{LIST_LIMIT, first_member, first_path, id_member, list_member};
use crate::names;
use crate::report::{ReportContest, ReportContests};
use serde_json::Value;
use std::alloc::Global;
use std::marker::Model;
use vx_base::OutOfMemory;
use vx_json::{Path, Text};

/// The contests of a report, with the places of their ids and of their selections' ids.
#[derive(Drop)]
pub(crate) struct Directory {
    contests: Vec<ReportContest>,
    ids: Ids,
    selections: Vec<Ids>,
}

impl Model for Directory {
    ghost use Rattle.std.specs.Prelude.{◌≡◌, ◌≤◌, List, length, map};
    ghost use Rattle.vx_tally.specs.declared.report.ReportContest.{ReportContest};
    ghost use Rattle.vx_tally.specs.Contests.{IsIndexed};

    ghost Value = { List ReportContest };

    ghost view = { λ self. self.contests.items };

    ghost invariant = { λ self. IsIndexed self.contests.items self.ids self.selections.items };
}

/// Makes room for one more contest and the ids of its selections.
fn make_room(
    contests: &mut Vec<ReportContest>,
    selections: &mut Vec<Ids>,
) -> Result<(), OutOfMemory>
    ensures contests { contests.new.items ≡ contests.old.items }
    ensures selections { selections.new.items ≡ selections.old.items }
    ensures room { OnOk result (vec_len contests.new < vec_capacity contests.new) }
    ensures selections_room { OnOk result (vec_len selections.new < vec_capacity selections.new) }
{
    contests.reserve(1)?;
    selections.reserve(1)?;
    Ok(())
}

/// The contest with an id and selections of its own.
fn contest_with(alloc: Global, id: &str, own: &Ids) -> Result<ReportContest, OutOfMemory>
    ensures { IfOk result (λ contest. contest ≡ record { id = id.now; selections = own.now }) }
{
    let selections = own.to_texts(alloc)?;
    Ok(ReportContest {
        id: Text::from_str(alloc, id)?,
        selections,
    })
}

impl Directory {
    ghost use Rattle.vx_tally.specs.Contests.{contest_ids, own_selections};
    ghost use Rattle.vx_tally.specs.Records.{selections_at};

    /// No contests; takes no memory.
    fn new(alloc: Global) -> Self
        ensures { result ≡ [] }
    {
        Directory {
            contests: Vec::new(alloc),
            ids: Ids::new(alloc),
            selections: Vec::new(alloc),
        }
    }

    /// Puts a contest with an id and selections of its own behind the others.
    fn push(&mut self, alloc: Global, id: &str, own: Ids) -> Result<(), OutOfMemory>
        requires few { length self.old < 1000000 }
        requires is_new { place_in id.now (contest_ids self.old) ≡ None }
        requires own_few { length own ≤ 1000000 }
        ensures { self.new ≡ (if is_ok result
            then self.old ++ record { id = id.now; selections = own } ∷ [] else self.old) }
    {
        make_room(&mut self.contests, &mut self.selections)?;
        let contest = contest_with(alloc, id, &own)?;
        self.ids.push(alloc, id)?;
        self.contests.push_reserved(contest);
        self.selections.push_reserved(own);
        Ok(())
    }

    fn len(&self) -> usize
        ensures { result ≡ length self.now }
    {
        self.contests.len()
    }

    /// The ids of the contests.
    pub(crate) fn ids(&self) -> &Ids
        ensures value { result.now ≡ contest_ids self.now }
        ensures few { length result.now ≤ 1000000 }
    {
        &self.ids
    }

    /// The ids of the selections of the contest at a place.
    pub(crate) fn selections_at(&self, place: u32) -> &Ids
        requires { place < length self.now }
        ensures value { result.now ≡ selections_at (own_selections self.now) place }
        ensures few { length result.now ≤ 1000000 }
    {
        &self.selections[place as usize]
    }

    /// The contests alone; takes no memory.
    pub(crate) fn into_contests(self) -> ReportContests
        ensures { result ≡ self }
    {
        let Directory {
            contests,
            ids: _ids,
            selections: _selections,
        } = self;
        ReportContests::from_vec(contests)
    }
}

/// Lets a directory go.
pub(crate) fn drop_directory(_directory: Directory) {}

/// The id of the object at a place of a list, lent, that none of those is.
fn own_id_of<'v>(
    alloc: Global,
    value: &'v Value,
    path: &Path,
    place: usize,
    ids: &Ids,
) -> Result<&'v str, ReportFault>
    ensures exact { GivesAs (λ id. id.now) is_no_memory result
        (id_member (view value.now) (element_path path.now place) (codes "@id") ids.now) }
    ensures is_new { IfOk result (λ id. place_in id.now ids.now ≡ None) }
{
    let at = path.element(alloc, place)?;
    id_member(alloc, value, &at, "@id", ids)
}

/// Puts the ids of the objects of a list behind those before, and into a list of their own.
#[tactic(auto, unfolding(crate::specs::Contests::own_ids_in))]
fn push_own_ids(
    alloc: Global,
    values: &[Value],
    path: &Path,
    found: &mut Ids,
    all: &mut Ids,
) -> Result<(), ReportFault>
    requires { found.old ≡ [] }
    ensures exact { GivesAs (λ _. found.new) is_no_memory result
        (own_ids_in path.now all.old (map view values.now)) }
    ensures all { OnOk result (all.new ≡ all.old ++ found.new) }
    ensures count { OnOk result (length found.new ≡ length values.now) }
{
    for value in values {
        let id = own_id_of(alloc, value, path, found.len(), all)?;
        found.push(alloc, id)?;
        all.push(alloc, id)?;
    }
    Ok(())
}

/// The ids of the objects of a list, which none before the list is, nor any before it in the list.
/// They are put behind those before.
fn own_ids_of(
    alloc: Global,
    values: &[Value],
    path: &Path,
    all: &mut Ids,
) -> Result<Ids, ReportFault>
    ensures exact { Gives is_no_memory result (own_ids_in path.now all.old (map view values.now)) }
    ensures all { IfOk result (λ ids. all.new ≡ all.old ++ ids) }
    ensures count { IfOk result (λ ids. length ids ≡ length values.now) }
{
    let mut found = Ids::new(alloc);
    push_own_ids(alloc, values, path, &mut found, all)?;
    Ok(found)
}

/// The units of a report.
#[tactic(auto, unfolding(crate::specs::Contests::units_in))]
pub(crate) fn units_of(alloc: Global, value: &Value) -> Result<Ids, ReportFault>
    ensures exact { Gives is_no_memory result (units_in (view value.now)) }
    ensures few { IfOk result (λ units. length units ≤ 1000000) }
{
    let top = Path::root(alloc);
    let list = list_member(alloc, value, &top, "GpUnit", LIST_LIMIT)?;
    let at = top.member(alloc, "GpUnit")?;
    own_ids_of(alloc, list, &at, &mut Ids::new(alloc))
}

/// The ids of the selections of a contest, which are put behind those before.
fn selections_of(
    alloc: Global,
    value: &Value,
    path: &Path,
    all: &mut Ids,
) -> Result<Ids, ReportFault>
    ensures exact { Gives is_no_memory result
        (and_then (list_member (view value.now) path.now names.contest_selection 1000000)
        (own_ids_in (member_path path.now names.contest_selection) all.old)) }
    ensures all { IfOk result (λ own. all.new ≡ all.old ++ own) }
    ensures few { IfOk result (λ own. length own ≤ 1000000) }
{
    let list = list_member(alloc, value, path, names::contest_selection(), LIST_LIMIT)?;
    let at = path.member(alloc, names::contest_selection())?;
    own_ids_of(alloc, list, &at, all)
}

/// Reads a contest after those of the directory, and puts it behind them.
#[tactic(auto, unfolding(crate::specs::Contests::with_contest, crate::specs::Contests::contest_at))]
fn next_contest(
    alloc: Global,
    value: &Value,
    path: &Path,
    directory: &mut Directory,
    all: &mut Ids,
) -> Result<(), ReportFault>
    requires few { length directory.old < 1000000 }
    requires all { all.old ≡ selection_ids directory.old }
    ensures exact { GivesAs (λ _. directory.new) is_no_memory result
        (with_contest path.now directory.old (view value.now)) }
    ensures all { OnOk result (all.new ≡ selection_ids directory.new) }
    ensures count { OnOk result (length directory.new ≡ length directory.old + 1) }
{
    let id = id_member(alloc, value, path, "@id", directory.ids())?;
    let own = selections_of(alloc, value, path, all)?;
    directory.push(alloc, id, own)?;
    Ok(())
}

/// Puts the contests of a list into a directory that has none, and the ids of their selections
/// into a list.
#[tactic(auto, unfolding(crate::specs::Contests::contest_list_in))]
fn push_contests(
    alloc: Global,
    values: &[Value],
    path: &Path,
    directory: &mut Directory,
    all: &mut Ids,
) -> Result<(), ReportFault>
    requires few { length values.now ≤ 1000000 }
    requires directory { directory.old ≡ [] }
    requires all { all.old ≡ [] }
    ensures { GivesAs (λ _. directory.new) is_no_memory result
        (contest_list_in path.now (map view values.now)) }
{
    for value in values {
        let at = path.element(alloc, directory.len())?;
        next_contest(alloc, value, &at, directory, all)?;
    }
    Ok(())
}

/// The contests of a list.
fn contest_list_of(alloc: Global, values: &[Value], path: &Path) -> Result<Directory, ReportFault>
    requires { length values.now ≤ 1000000 }
    ensures { Gives is_no_memory result (contest_list_in path.now (map view values.now)) }
{
    let mut directory = Directory::new(alloc);
    push_contests(alloc, values, path, &mut directory, &mut Ids::new(alloc))?;
    Ok(directory)
}

/// The contests of an election that stands at a path.
fn contests_at(alloc: Global, election: &Value, path: &Path) -> Result<Directory, ReportFault>
    ensures { Gives is_no_memory result
        (and_then (list_member (view election.now) path.now (codes "Contest") 1000000)
        (contest_list_in (member_path path.now (codes "Contest")))) }
{
    let list = list_member(alloc, election, path, "Contest", LIST_LIMIT)?;
    contest_list_of(alloc, list, &path.member(alloc, "Contest")?)
}

/// The contests of a report, those of its first election.
#[tactic(auto, unfolding(crate::specs::Contests::contests_in))]
pub(crate) fn contests_of(alloc: Global, value: &Value) -> Result<Directory, ReportFault>
    ensures { Gives is_no_memory result (contests_in (view value.now)) }
{
    let top = Path::root(alloc);
    let election = first_member(alloc, value, &top, "Election")?;
    contests_at(alloc, election, &first_path(alloc, &top, "Election")?)
}
