//! The members of a JSON object. Each call that may run out of memory is a way out of its function, and a proof
//! goes along every one of them, so an object of many members is made by few calls here.

ghost use Rattle.std.specs.Prelude.{◌≡◌, ◌∷◌, [], IfOk, OnOk};
ghost use Rattle.std.specs.List.{fold};
ghost use Rattle.serde_json.specs.Data.{no_members, object, put as with_member};
ghost use Rattle.serde_json.specs.View.{members_view, view};
ghost use Rattle.vx_cvr.specs.Json.{list, text};

use serde_json::{Map, Value, json, put};
use std::alloc::Global;
use vx_base::OutOfMemory;

/// The members of an object, by their names.
pub(crate) type Members = Map<String, Value>;

/// Puts a text among members.
fn put_text(
    members: &mut Members,
    alloc: Global,
    name: &str,
    given: &str,
) -> Result<(), OutOfMemory>
    ensures { OnOk result (members_view members.new.entries
        ≡ with_member name.now (text given.now) (members_view members.old.entries)) }
{
    let value = Value::try_from_str(alloc, given)?;
    put(members, alloc, name, value)
}

/// Members that are texts, each with its name before it.
pub(crate) fn texts(alloc: Global, given: &[(&str, &str)]) -> Result<Members, OutOfMemory>
    ensures { IfOk result (λ members. members_view members.entries ≡ fold (λ others named.
        with_member named.0.now (text named.1.now) others) no_members given.now) }
{
    let mut members = Map::new(alloc);
    for named in given {
        put_text(&mut members, alloc, named.0, named.1)?;
    }
    Ok(members)
}

/// An object of texts, each with its name before it.
pub(crate) fn object_of_texts(alloc: Global, given: &[(&str, &str)]) -> Result<Value, OutOfMemory>
    ensures { IfOk result (λ value. view value ≡ object (fold (λ others named.
        with_member named.0.now (text named.1.now) others) no_members given.now)) }
{
    Ok(Value::Object(texts(alloc, given)?))
}

/// A list of one value.
pub(crate) fn list_of_one(alloc: Global, value: Value) -> Result<Value, OutOfMemory>
    ensures { IfOk result (λ made. view made ≡ list (view value ∷ [])) }
{
    json!(in alloc; [value])
}

/// Puts a list of one value among members.
pub(crate) fn put_list(
    members: &mut Members,
    alloc: Global,
    name: &str,
    value: Value,
) -> Result<(), OutOfMemory>
    ensures { OnOk result (members_view members.new.entries
        ≡ with_member name.now (list (view value ∷ [])) (members_view members.old.entries)) }
{
    let values = list_of_one(alloc, value)?;
    put(members, alloc, name, values)
}
