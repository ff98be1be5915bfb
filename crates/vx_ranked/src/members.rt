//! Ids and lists of a file of ranked contests.

ghost use Rattle.std.specs.Prelude.{◌≡◌, ◌≤◌, length, map, IfOk};
ghost use Rattle.std.specs.List.{list_all};
ghost use Rattle.serde_json.specs.View.{view};
ghost use Rattle.vx_base.specs.Refusals.{Gives, GivesAs};
ghost use Rattle.vx_election_model.specs.Ids.{is_id_character, is_id};
ghost use Rattle.vx_ranked.specs.Faults.{is_no_memory};
ghost use Rattle.vx_ranked.specs.Members.{id_in, list_member, is_group, is_among, is_named};

use crate::fault::RankedFault;
use crate::groups::Group;
use serde_json::Value;
use std::alloc::Global;
use vx_json::{Path, list_of, need, string_of};

fn is_id_character(byte: u8) -> bool
    ensures { result ≡ is_id_character byte }
{
    matches!(byte, b'A'..=b'Z' | b'a'..=b'z' | b'0'..=b'9' | b'-' | b'_' | b'.')
}

fn are_id_characters(bytes: &[u8]) -> bool
    ensures { result ≡ list_all is_id_character bytes.now }
{
    bytes.iter().all(|byte| is_id_character(*byte))
}

#[tactic(auto, unfolding(vx_election_model::specs::Ids::is_id))]
fn is_id(text: &str) -> bool
    ensures { result ≡ is_id text.now }
{
    let bytes = text.as_bytes();
    1 <= bytes.len() && bytes.len() <= 64 && are_id_characters(bytes)
}

/// An id, lent.
#[tactic(auto, unfolding(crate::specs::Members::id_in))]
pub(crate) fn id_of<'v>(
    alloc: Global,
    value: &'v Value,
    path: &Path,
) -> Result<&'v str, RankedFault>
    ensures { GivesAs (λ id. id.now) is_no_memory result (id_in (view value.now) path.now) }
{
    let text = string_of(alloc, value, path)?;
    if !is_id(text) {
        return Err(RankedFault::OutOfRange(path.copy(alloc)?));
    }
    Ok(text)
}

/// A list with `low` to `high` elements.
#[tactic(auto, unfolding(crate::specs::Members::list_member))]
pub(crate) fn list_member<'v>(
    alloc: Global,
    value: &'v Value,
    path: &Path,
    name: &str,
    low: usize,
    high: usize,
) -> Result<&'v [Value], RankedFault>
    ensures exact { GivesAs (λ list. map view list.now) is_no_memory result
        (list_member (view value.now) path.now name.now low high) }
    ensures within { IfOk result (λ list. length list.now ≤ high) }
{
    let member = need(alloc, value, path, name)?;
    let at = path.member(alloc, name)?;
    let list = list_of(alloc, member, &at)?;
    if list.len() < low || high < list.len() {
        return Err(RankedFault::OutOfRange(at));
    }
    Ok(list)
}

/// Whether a group has an id.
pub(crate) fn is_group(groups: &[Group], id: &str) -> bool
    ensures { result ≡ is_group groups.now id.now }
{
    groups.iter().any(|group| group.id.as_str() == id)
}

/// Whether a place is among those.
pub(crate) fn is_among(places: &[u32], place: u32) -> bool
    ensures { result ≡ is_among place places.now }
{
    places.iter().any(|other| place == *other)
}

/// Whether a group names the contest at a place.
pub(crate) fn is_named(groups: &[Group], place: u32) -> bool
    ensures { result ≡ is_named groups.now place }
{
    groups
        .iter()
        .any(|group| is_among(group.contests.as_slice(), place))
}
