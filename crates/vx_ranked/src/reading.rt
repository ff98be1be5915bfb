//! The groups that bytes give.

ghost use Rattle.std.specs.Prelude.{map};
ghost use Rattle.serde_json.specs.View.{view};
ghost use Rattle.vx_base.specs.Refusals.{Gives, GivesAs};
ghost use Rattle.vx_election_model.specs.Valid.{IsValid};
ghost use Rattle.vx_layout.specs.Plans.{ArePlansOf};
ghost use Rattle.vx_ranked.specs.Faults.{is_no_memory};
ghost use Rattle.vx_ranked.specs.Reading.{new_id_member, contest_at, contests_in, group_at, groups_in, value_in, groups_in_bytes};

use crate::alike::{fits_group, place_of};
use crate::fault::RankedFault;
use crate::groups::{Group, Groups};
use crate::members::{id_of, is_among, is_group, is_named, list_member};
use crate::splits::check_splits;
use serde_json::Value;
use std::alloc::Global;
use vx_election_model::{Election, Indexes};
use vx_json::{Path, Text, need};
use vx_layout::CardPlans;

/// How many groups a file has at most.
const GROUP_LIMIT: usize = 100;
/// How many ranks a group has at most.
const RANK_LIMIT: usize = 10;

/// The id of a group, lent, which none of those has.
#[tactic(auto, unfolding(crate::specs::Reading::new_id_member))]
fn new_id_member<'v>(
    alloc: Global,
    value: &'v Value,
    path: &Path,
    groups: &[Group],
) -> Result<&'v str, RankedFault>
    ensures { GivesAs (λ id. id.now) is_no_memory result
        (new_id_member (view value.now) path.now groups.now) }
{
    let member = need(alloc, value, path, "id")?;
    let at = path.member(alloc, "id")?;
    let id = id_of(alloc, member, &at)?;
    if is_group(groups, id) {
        let text = Text::from_str(alloc, id)?;
        return Err(RankedFault::RepeatedId(at, text));
    }
    Ok(id)
}

/// The place of a contest behind those of its group.
#[tactic(auto, unfolding(crate::specs::Reading::contest_at))]
fn contest_of(
    alloc: Global,
    election: &Election,
    groups: &[Group],
    found: &[u32],
    value: &Value,
    path: &Path,
) -> Result<u32, RankedFault>
    requires { IsValid election.now }
    ensures { Gives is_no_memory result
        (contest_at election.now groups.now found.now path.now (view value.now)) }
{
    let contests = election.contests.as_slice();
    let id = id_of(alloc, value, path)?;
    let Some(place) = place_of(contests, id) else {
        let text = Text::from_str(alloc, id)?;
        return Err(RankedFault::UnknownId(path.copy(alloc)?, text));
    };
    let place = place as u32;
    if is_named(groups, place) || is_among(found, place) {
        let text = Text::from_str(alloc, id)?;
        return Err(RankedFault::RepeatedId(path.copy(alloc)?, text));
    }
    if !fits_group(contests, found, place) {
        return Err(RankedFault::Unlike(path.copy(alloc)?));
    }
    Ok(place)
}

/// The places of the contests of a group.
#[tactic(auto, unfolding(crate::specs::Reading::contests_in))]
fn contests_of(
    alloc: Global,
    election: &Election,
    groups: &[Group],
    values: &[Value],
    path: &Path,
) -> Result<Indexes, RankedFault>
    requires { IsValid election.now }
    ensures { Gives is_no_memory result
        (contests_in election.now groups.now path.now (map view values.now)) }
{
    let mut found = Indexes::new(alloc);
    for value in values {
        let at = path.element(alloc, found.len())?;
        let place = contest_of(alloc, election, groups, found.as_slice(), value, &at)?;
        found.push(place)?;
    }
    Ok(found)
}

/// A group behind those.
#[tactic(auto, unfolding(crate::specs::Reading::group_at))]
fn group_of(
    alloc: Global,
    election: &Election,
    groups: &[Group],
    value: &Value,
    path: &Path,
) -> Result<Group, RankedFault>
    requires { IsValid election.now }
    ensures { Gives is_no_memory result
        (group_at election.now path.now groups.now (view value.now)) }
{
    let id = new_id_member(alloc, value, path, groups)?;
    let list = list_member(alloc, value, path, "contests", 1, RANK_LIMIT)?;
    let at = path.member(alloc, "contests")?;
    let contests = contests_of(alloc, election, groups, list, &at)?;
    let id = Text::from_str(alloc, id)?;
    Ok(Group { id, contests })
}

/// The groups of a file.
#[tactic(auto, unfolding(crate::specs::Reading::groups_in))]
fn groups_of(alloc: Global, election: &Election, value: &Value) -> Result<Groups, RankedFault>
    requires { IsValid election.now }
    ensures { Gives is_no_memory result (groups_in election.now (view value.now)) }
{
    let top = Path::root(alloc);
    let list = list_member(alloc, value, &top, "ranked", 0, GROUP_LIMIT)?;
    let path = top.member(alloc, "ranked")?;
    let mut groups = Groups::new(alloc);
    for one in list {
        let at = path.element(alloc, groups.len())?;
        let group = group_of(alloc, election, groups.as_slice(), one, &at)?;
        groups.push(group)?;
    }
    Ok(groups)
}

/// The value that the bytes are.
#[tactic(auto, unfolding(crate::specs::Reading::value_in))]
fn value_of(alloc: Global, bytes: &[u8]) -> Result<Value, RankedFault>
    ensures { GivesAs (λ value. view value) is_no_memory result (value_in bytes.now) }
{
    let Ok(text) = str::from_utf8(bytes) else {
        return Err(RankedFault::NotJson);
    };
    match Value::from_str(alloc, text) {
        Ok(value) => Ok(value),
        Err(error) if error.is_memory() => Err(RankedFault::OutOfMemory),
        Err(_) => Err(RankedFault::NotJson),
    }
}

/// The groups that the bytes are, or their first fault. The file is read depth first, element by
/// element, and then each card is looked at in order, and on it each group.
#[tactic(auto, unfolding(crate::specs::Reading::groups_in_bytes))]
pub fn read_ranked(
    alloc: Global,
    election: &Election,
    plans: &CardPlans,
    bytes: &[u8],
) -> Result<Groups, RankedFault>
    requires valid { IsValid election.now }
    requires plans { ArePlansOf election.now plans.now }
    ensures { Gives is_no_memory result (groups_in_bytes election.now plans.now bytes.now) }
{
    let value = value_of(alloc, bytes)?;
    let groups = groups_of(alloc, election, &value)?;
    check_splits(alloc, plans.as_slice(), groups.as_slice())?;
    Ok(groups)
}
