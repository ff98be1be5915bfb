//! JSON without the bytes that markup is made of.

ghost use Rattle.std.specs.Prelude.{◌≡◌, ◌++◌, ℕ, List, OnOk, true, false};
ghost use Rattle.serde_json.specs.Data.{Data, Members, member, object};
ghost use Rattle.serde_json.specs.View.{view};
ghost use Rattle.serde_json.specs.Written.{comma_if, compact_text, has_float, members_text};
ghost use Rattle.vx_markup.specs.Escaped as spec;

use serde_json::Value;
use std::alloc::Global;
use vx_base::{Bytes, OutOfMemory};

/// Adds a byte of a JSON text, or how it is written where it is markup.
fn push_byte(text: &mut Bytes, byte: u8) -> Result<(), OutOfMemory>
    ensures { OnOk result (text.new ≡ text.old ++ spec.escaped_byte byte) }
{
    if byte == b'<' {
        text.extend_from_slice(b"\\u003c")
    } else if byte == b'>' {
        text.extend_from_slice(b"\\u003e")
    } else if byte == b'&' {
        text.extend_from_slice(b"\\u0026")
    } else {
        text.push(byte)
    }
}

/// Adds a JSON text without markup.
fn push_escaped(text: &mut Bytes, json: &[u8]) -> Result<(), OutOfMemory>
    ensures { OnOk result (text.new ≡ text.old ++ spec.escaped json.now) }
{
    for byte in json {
        push_byte(text, *byte)?;
    }
    Ok(())
}

/// Adds the JSON of a value without markup. It stands in memory of its own only so long.
fn push_value(alloc: Global, text: &mut Bytes, value: &Value) -> Result<(), OutOfMemory>
    requires { has_float (view value.now) ≡ false }
    ensures { OnOk result (text.new ≡ text.old ++ spec.escaped (compact_text (view value.now))) }
{
    let json = value.to_vec(alloc)?;
    push_escaped(text, json.as_slice())
}

/// Adds the line of a value.
pub fn push_line(alloc: Global, text: &mut Bytes, value: &Value) -> Result<(), OutOfMemory>
    requires { has_float (view value.now) ≡ false }
    ensures { OnOk result (text.new ≡ text.old ++ spec.data_line (view value.now)) }
{
    push_value(alloc, text, value)?;
    text.push(b'\n')
}

/// Adds a value behind others of a list, without markup: a comma, where one stands before, and its JSON.
pub fn push_item(
    alloc: Global,
    text: &mut Bytes,
    is_later: bool,
    value: &Value,
) -> Result<(), OutOfMemory>
    requires { has_float (view value.now) ≡ false }
    ensures { OnOk result (text.new
        ≡ text.old ++ (comma_if is_later ++ spec.escaped (compact_text (view value.now)))) }
{
    if is_later {
        text.push(b',')?;
    }
    push_value(alloc, text, value)
}

/// Adds the members of an object behind others, without markup, and its closing brace.
pub fn push_members(alloc: Global, text: &mut Bytes, value: &Value) -> Result<(), OutOfMemory>
    requires { has_float (view value.now) ≡ false }
    ensures { OnOk result ((key : List ℕ) (of : Data) (others : Members) →
        view value.now ≡ object (member key of others) →
        text.new ≡ text.old ++ spec.escaped (members_text true (member key of others))) }
{
    let json = value.to_vec(alloc)?;
    text.push(b',')?;
    match json.as_slice().split_first() {
        Some((_brace, members)) => push_escaped(text, members),
        None => Ok(()),
    }
}
