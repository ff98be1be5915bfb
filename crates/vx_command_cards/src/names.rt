//! A name as it is told within a line.

ghost use Rattle.std.specs.Prelude.{◌≡◌, ◌++◌, IfOk, OnOk, string_bytes};
ghost use Rattle.std.specs.List.{flat_map};
ghost use Rattle.vx_command_cards.specs.Cards as listed;

use crate::printed::characters_in;
use std::alloc::Global;
use vx_base::OutOfMemory;

/// Adds a control character by its code.
fn push_code(line: &mut String, c: char) -> Result<(), OutOfMemory>
    ensures { OnOk result (string_bytes line.new ≡ string_bytes line.old ++ listed.code_word c) }
{
    let code = c as u32;
    write!(line, "\\u{code:04x}")
}

/// Adds a character of a name.
fn push_character(line: &mut String, c: char) -> Result<(), OutOfMemory>
    ensures { OnOk result (string_bytes line.new ≡ string_bytes line.old ++ listed.told_character c) }
{
    if c == '\\' {
        line.push_str("\\\\")?;
        return Ok(());
    }
    if c.is_ascii_control() {
        push_code(line, c)?;
        return Ok(());
    }
    line.push(c)?;
    Ok(())
}

/// Adds characters of a name.
fn push_characters(line: &mut String, characters: &[char]) -> Result<(), OutOfMemory>
    ensures { OnOk result (string_bytes line.new
        ≡ string_bytes line.old ++ flat_map listed.told_character characters.now) }
{
    for c in characters {
        push_character(line, *c)?;
    }
    Ok(())
}

/// A name as it is told.
pub(crate) fn told_name(alloc: Global, name: &str) -> Result<String, OutOfMemory>
    ensures { IfOk result (λ told. string_bytes told ≡ listed.told_name name.now) }
{
    let characters = characters_in(alloc, name)?;
    let mut told = String::new(alloc);
    push_characters(&mut told, characters.as_slice())?;
    Ok(told)
}
