//! Members of an object, each of which is needed.

ghost use Rattle.std.specs.Prelude.{◌≡◌, ◌<◌, ◌≤◌, None, false, length, map, nat_le, IfOk, Ok, Err, if◌then◌else◌};
ghost use Rattle.serde_json.specs.View.{view};
ghost use Rattle.vx_base.specs.Refusals.{Gives, GivesAs};
ghost use Rattle.vx_base.specs.Results.{◌>>=◌ as and_then};
ghost use Rattle.vx_json.specs.Paths.{member_path, element_path};
ghost use Rattle.vx_json.specs.Reading.{list_in};
ghost use Rattle.vx_tally.specs.declared.fault.ReportFault.TheVariants.{OutOfRange};
ghost use Rattle.vx_tally.specs.Faults.{is_no_memory, of_json};
ghost use Rattle.vx_tally.specs.Ids.{place_in, is_among};
ghost use Rattle.vx_tally.specs.Members.{id_member, reference_member, new_reference_member, votes_member, list_member, first_member};

use crate::fault::ReportFault;
use crate::ids::{Ids, Places, new_id_of, new_reference_of, reference_of};
use serde_json::Value;
use std::alloc::Global;
use vx_base::OutOfMemory;
use vx_json::{Path, list_of, need, whole_of};

/// How many elements a list has at most.
pub(crate) const LIST_LIMIT: usize = 1_000_000;
/// How many contests a record has at most, and how many selections a contest of it.
pub(crate) const RECORD_LIMIT: usize = 1000;
/// How many votes, overvotes or undervotes there are at most.
const VOTE_LIMIT: u64 = 50;

/// An id, lent, that none of those is.
#[tactic(auto, unfolding(crate::specs::Members::id_member))]
pub(crate) fn id_member<'v>(
    alloc: Global,
    value: &'v Value,
    path: &Path,
    name: &str,
    ids: &Ids,
) -> Result<&'v str, ReportFault>
    ensures exact { GivesAs (λ id. id.now) is_no_memory result
        (id_member (view value.now) path.now name.now ids.now) }
    ensures is_new { IfOk result (λ id. place_in id.now ids.now ≡ None) }
{
    let member = need(alloc, value, path, name)?;
    let at = path.member(alloc, name)?;
    new_id_of(alloc, member, &at, ids)
}

/// A reference to one of those ids, as its place.
#[tactic(auto, unfolding(crate::specs::Members::reference_member))]
pub(crate) fn reference_member(
    alloc: Global,
    value: &Value,
    path: &Path,
    name: &str,
    ids: &Ids,
) -> Result<u32, ReportFault>
    requires { length ids.now ≤ 1000000 }
    ensures { Gives is_no_memory result
        (reference_member (view value.now) path.now name.now ids.now) }
{
    let member = need(alloc, value, path, name)?;
    let at = path.member(alloc, name)?;
    reference_of(alloc, member, &at, ids)
}

/// The same, where none of the places before it is that one.
#[tactic(auto, unfolding(crate::specs::Members::new_reference_member))]
pub(crate) fn new_reference_member(
    alloc: Global,
    value: &Value,
    path: &Path,
    name: &str,
    ids: &Ids,
    found: &Places,
) -> Result<u32, ReportFault>
    requires { length ids.now ≤ 1000000 }
    ensures exact { Gives is_no_memory result
        (new_reference_member (view value.now) path.now name.now ids.now found.now) }
    ensures is_new { IfOk result (λ place. is_among place found.now ≡ false) }
    ensures within { IfOk result (λ place. place < length ids.now) }
{
    let member = need(alloc, value, path, name)?;
    let at = path.member(alloc, name)?;
    new_reference_of(alloc, member, &at, ids, found)
}

/// A number of votes.
#[tactic(auto, unfolding(crate::specs::Members::votes_member))]
pub(crate) fn votes_member(
    alloc: Global,
    value: &Value,
    path: &Path,
    name: &str,
) -> Result<u32, ReportFault>
    ensures { Gives is_no_memory result (votes_member (view value.now) path.now name.now) }
{
    let member = need(alloc, value, path, name)?;
    let at = path.member(alloc, name)?;
    let votes = whole_of(alloc, member, &at, 0, VOTE_LIMIT)?;
    Ok(votes as u32)
}

/// The list that a value is, where it has at most `limit` elements.
fn list_up_to<'v>(
    alloc: Global,
    value: &'v Value,
    path: &Path,
    limit: usize,
) -> Result<&'v [Value], ReportFault>
    ensures exact { GivesAs (λ list. map view list.now) is_no_memory result
        (and_then (of_json (list_in (view value.now) path.now))
        (λ list. if nat_le (length list) limit then Ok list else Err (OutOfRange path.now))) }
    ensures within { IfOk result (λ list. length list.now ≤ limit) }
{
    let list = list_of(alloc, value, path)?;
    if limit < list.len() {
        return Err(ReportFault::OutOfRange(path.copy(alloc)?));
    }
    Ok(list)
}

/// A list with at most `limit` elements.
#[tactic(auto, unfolding(crate::specs::Members::list_member))]
pub(crate) fn list_member<'v>(
    alloc: Global,
    value: &'v Value,
    path: &Path,
    name: &str,
    limit: usize,
) -> Result<&'v [Value], ReportFault>
    ensures exact { GivesAs (λ list. map view list.now) is_no_memory result
        (list_member (view value.now) path.now name.now limit) }
    ensures within { IfOk result (λ list. length list.now ≤ limit) }
{
    let member = need(alloc, value, path, name)?;
    let at = path.member(alloc, name)?;
    list_up_to(alloc, member, &at, limit)
}

/// Where the first element stands of the list that is a member.
pub(crate) fn first_path(alloc: Global, path: &Path, name: &str) -> Result<Path, OutOfMemory>
    ensures { IfOk result (λ at. at ≡ element_path (member_path path.now name.now) 0) }
{
    path.member(alloc, name)?.element(alloc, 0)
}

/// The first element of a list that has one.
#[tactic(auto, unfolding(crate::specs::Members::first_member))]
pub(crate) fn first_member<'v>(
    alloc: Global,
    value: &'v Value,
    path: &Path,
    name: &str,
) -> Result<&'v Value, ReportFault>
    ensures { GivesAs (λ first. view first.now) is_no_memory result
        (first_member (view value.now) path.now name.now) }
{
    let list = list_member(alloc, value, path, name, LIST_LIMIT)?;
    match list.first() {
        Some(first) => Ok(first),
        None => Err(ReportFault::OutOfRange(path.member(alloc, name)?)),
    }
}
