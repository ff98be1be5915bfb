//! Members of an object: needed ones and optional ones.

ghost use Rattle.std.specs.Prelude.{◌≡◌, ◌≤◌, None, length, map, IfOk};
ghost use Rattle.serde_json.specs.View.{view};
ghost use Rattle.vx_base.specs.Refusals.{Gives, GivesAs};
ghost use Rattle.vx_election.specs.Faults.{is_no_memory};
ghost use Rattle.vx_election.specs.Ids.{place_in};
ghost use Rattle.vx_election.specs.Members.{text_member, optional_text, whole_member, optional_flag, id_member, reference_member, optional_reference, list_up_to, list_member, optional_list};

use crate::fault::ElectionFault;
use crate::ids::{Ids, new_id_of, reference_of};
use serde_json::Value;
use std::alloc::Global;
use vx_json::{Path, Text, flag_of, list_of, need, text_of, whole_of};

/// A needed text with `low` to `high` characters.
#[tactic(auto, unfolding(crate::specs::Members::text_member))]
pub(crate) fn text_member(
    alloc: Global,
    value: &Value,
    path: &Path,
    name: &str,
    low: u32,
    high: u32,
) -> Result<Text, ElectionFault>
    ensures { Gives is_no_memory result (text_member (view value.now) path.now name.now low high) }
{
    let member = need(alloc, value, path, name)?;
    let at = path.member(alloc, name)?;
    Ok(text_of(alloc, member, &at, low, high)?)
}

/// An optional text with `low` to `high` characters, else a text that stands for it.
#[tactic(auto, unfolding(crate::specs::Members::optional_text))]
pub(crate) fn optional_text(
    alloc: Global,
    value: &Value,
    path: &Path,
    name: &str,
    low: u32,
    high: u32,
    otherwise: &str,
) -> Result<Text, ElectionFault>
    ensures { Gives is_no_memory result
        (optional_text (view value.now) path.now name.now low high otherwise.now) }
{
    match value.get(name) {
        None => Ok(Text::from_str(alloc, otherwise)?),
        Some(member) => {
            let at = path.member(alloc, name)?;
            Ok(text_of(alloc, member, &at, low, high)?)
        }
    }
}

/// A needed whole number from `low` to `high`.
#[tactic(auto, unfolding(crate::specs::Members::whole_member))]
pub(crate) fn whole_member(
    alloc: Global,
    value: &Value,
    path: &Path,
    name: &str,
    low: u64,
    high: u64,
) -> Result<u64, ElectionFault>
    ensures exact { Gives is_no_memory result
        (whole_member (view value.now) path.now name.now low high) }
    ensures within { IfOk result (λ number. number ≤ high) }
{
    let member = need(alloc, value, path, name)?;
    let at = path.member(alloc, name)?;
    Ok(whole_of(alloc, member, &at, low, high)?)
}

/// An optional flag, else false.
#[tactic(auto, unfolding(crate::specs::Members::optional_flag))]
pub(crate) fn optional_flag(
    alloc: Global,
    value: &Value,
    path: &Path,
    name: &str,
) -> Result<bool, ElectionFault>
    ensures { Gives is_no_memory result (optional_flag (view value.now) path.now name.now) }
{
    match value.get(name) {
        None => Ok(false),
        Some(member) => {
            let at = path.member(alloc, name)?;
            Ok(flag_of(alloc, member, &at)?)
        }
    }
}

/// The id of an object, lent, that none of those has.
#[tactic(auto, unfolding(crate::specs::Members::id_member))]
pub(crate) fn id_member<'v>(
    alloc: Global,
    value: &'v Value,
    path: &Path,
    ids: &Ids,
) -> Result<&'v str, ElectionFault>
    ensures exact { GivesAs (λ id. id.now) is_no_memory result
        (id_member (view value.now) path.now ids.now) }
    ensures is_new { IfOk result (λ id. place_in id.now ids.now ≡ None) }
{
    let member = need(alloc, value, path, "id")?;
    let at = path.member(alloc, "id")?;
    new_id_of(alloc, member, &at, ids)
}

/// A needed reference to one of those ids, as its place.
#[tactic(auto, unfolding(crate::specs::Members::reference_member))]
pub(crate) fn reference_member(
    alloc: Global,
    value: &Value,
    path: &Path,
    name: &str,
    ids: &Ids,
) -> Result<u32, ElectionFault>
    ensures { Gives is_no_memory result
        (reference_member (view value.now) path.now name.now ids.now) }
{
    let member = need(alloc, value, path, name)?;
    let at = path.member(alloc, name)?;
    reference_of(alloc, member, &at, ids)
}

/// An optional reference to one of those ids, as its place.
#[tactic(auto, unfolding(crate::specs::Members::optional_reference))]
pub(crate) fn optional_reference(
    alloc: Global,
    value: &Value,
    path: &Path,
    name: &str,
    ids: &Ids,
) -> Result<Option<u32>, ElectionFault>
    ensures { Gives is_no_memory result
        (optional_reference (view value.now) path.now name.now ids.now) }
{
    match value.get(name) {
        None => Ok(None),
        Some(member) => {
            let at = path.member(alloc, name)?;
            Ok(Some(reference_of(alloc, member, &at, ids)?))
        }
    }
}

/// A list with at most `limit` elements.
#[tactic(auto, unfolding(crate::specs::Members::list_up_to))]
pub(crate) fn list_up_to<'v>(
    alloc: Global,
    value: &'v Value,
    path: &Path,
    limit: usize,
) -> Result<&'v [Value], ElectionFault>
    ensures exact { GivesAs (λ list. map view list.now) is_no_memory result
        (list_up_to (view value.now) path.now limit) }
    ensures within { IfOk result (λ list. length list.now ≤ limit) }
{
    let list = list_of(alloc, value, path)?;
    if limit < list.len() {
        return Err(ElectionFault::TooMany(path.copy(alloc)?, list.len() as u64));
    }
    Ok(list)
}

/// A needed list with at most `limit` elements.
#[tactic(auto, unfolding(crate::specs::Members::list_member))]
pub(crate) fn list_member<'v>(
    alloc: Global,
    value: &'v Value,
    path: &Path,
    name: &str,
    limit: usize,
) -> Result<&'v [Value], ElectionFault>
    ensures exact { GivesAs (λ list. map view list.now) is_no_memory result
        (list_member (view value.now) path.now name.now limit) }
    ensures within { IfOk result (λ list. length list.now ≤ limit) }
{
    let member = need(alloc, value, path, name)?;
    let at = path.member(alloc, name)?;
    list_up_to(alloc, member, &at, limit)
}

/// An optional list with at most `limit` elements, else the empty one.
#[tactic(auto, unfolding(crate::specs::Members::optional_list))]
pub(crate) fn optional_list<'v>(
    alloc: Global,
    value: &'v Value,
    path: &Path,
    name: &str,
    limit: usize,
) -> Result<&'v [Value], ElectionFault>
    ensures exact { GivesAs (λ list. map view list.now) is_no_memory result
        (optional_list (view value.now) path.now name.now limit) }
    ensures within { IfOk result (λ list. length list.now ≤ limit) }
{
    match value.get(name) {
        None => Ok(&[]),
        Some(member) => {
            let at = path.member(alloc, name)?;
            list_up_to(alloc, member, &at, limit)
        }
    }
}
