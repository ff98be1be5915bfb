ghost use Rattle.std.specs.Prelude.{◌≡◌, map};
ghost use Rattle.serde_json.specs.View.{view};
ghost use Rattle.vx_base.specs.Refusals.{Gives, GivesAs};
ghost use Rattle.vx_json.specs.Faults.{is_no_memory};
ghost use Rattle.vx_json.specs.Reading.{need_in, string_in, is_within, text_in, whole_in, list_in, flag_in};

use crate::fault::JsonFault;
use crate::path::Path;
use crate::text::{Text, characters_of};
use serde_json::Value;
use std::alloc::Global;

/// The member of that name of the object that stands at the path. It lives as long as the value.
pub fn need<'v>(
    alloc: Global,
    value: &'v Value,
    path: &Path,
    name: &str,
) -> Result<&'v Value, JsonFault>
    ensures { GivesAs (λ member. view member.now) is_no_memory result
        (need_in (view value.now) path.now name.now) }
{
    if !value.is_object() {
        return Err(JsonFault::WrongKind(path.copy(alloc)?));
    }
    match value.get(name) {
        Some(member) => Ok(member),
        None => Err(JsonFault::Missing(path.member(alloc, name)?)),
    }
}

/// The text that the value is, of any length. It lives as long as the value.
pub fn string_of<'v>(alloc: Global, value: &'v Value, path: &Path) -> Result<&'v str, JsonFault>
    ensures { GivesAs (λ text. text.now) is_no_memory result
        (string_in (view value.now) path.now) }
{
    match value.as_str() {
        Some(text) => Ok(text),
        None => Err(JsonFault::WrongKind(path.copy(alloc)?)),
    }
}

fn is_within(low: u64, high: u64, number: u64) -> bool
    ensures { result ≡ is_within low high number }
{
    low <= number && number <= high
}

/// The text that the value is, with `low` to `high` characters.
pub fn text_of(
    alloc: Global,
    value: &Value,
    path: &Path,
    low: u32,
    high: u32,
) -> Result<Text, JsonFault>
    ensures { Gives is_no_memory result (text_in (view value.now) path.now low high) }
{
    let text = string_of(alloc, value, path)?;
    if !is_within(u64::from(low), u64::from(high), characters_of(text) as u64) {
        return Err(JsonFault::OutOfRange(path.copy(alloc)?));
    }
    Ok(Text::from_str(alloc, text)?)
}

/// The whole number that the value is, from `low` to `high`.
pub fn whole_of(
    alloc: Global,
    value: &Value,
    path: &Path,
    low: u64,
    high: u64,
) -> Result<u64, JsonFault>
    ensures { Gives is_no_memory result (whole_in (view value.now) path.now low high) }
{
    let Some(number) = value.as_u64() else {
        return Err(JsonFault::WrongKind(path.copy(alloc)?));
    };
    if !is_within(low, high, number) {
        return Err(JsonFault::OutOfRange(path.copy(alloc)?));
    }
    Ok(number)
}

/// The elements of the list that the value is. They live as long as the value.
pub fn list_of<'v>(alloc: Global, value: &'v Value, path: &Path) -> Result<&'v [Value], JsonFault>
    ensures { GivesAs (λ list. map view list.now) is_no_memory result
        (list_in (view value.now) path.now) }
{
    match value.as_array() {
        Some(list) => Ok(list.as_slice()),
        None => Err(JsonFault::WrongKind(path.copy(alloc)?)),
    }
}

/// The flag that the value is.
pub fn flag_of(alloc: Global, value: &Value, path: &Path) -> Result<bool, JsonFault>
    ensures { Gives is_no_memory result (flag_in (view value.now) path.now) }
{
    match value.as_bool() {
        Some(flag) => Ok(flag),
        None => Err(JsonFault::WrongKind(path.copy(alloc)?)),
    }
}
