ghost use Rattle.std.specs.Prelude.{◌≡◌, ◌≤◌, length, IfOk, OnOk, string_bytes};
ghost use Rattle.vx_command_cards.specs.Lines.{GotLines};
ghost use Rattle.vx_command_cards.specs.Texts as texts;

use crate::drawn::shows_nothing;
use crate::lines::Lines;
use std::alloc::Global;
use vx_base::OutOfMemory;

/// The line of a text that shows nothing.
fn blank_line(alloc: Global, contest: &str, what: &str) -> Result<String, OutOfMemory>
    ensures { IfOk result (λ line. string_bytes line ≡ texts.blank_line contest.now what.now) }
{
    format!(in alloc; "blank {contest} {what}")
}

/// Adds the line of a text whose characters show nothing.
pub(crate) fn push_blank(
    alloc: Global,
    lines: &mut Lines,
    contest: &str,
    what: &str,
    characters: &[char],
) -> Result<(), OutOfMemory>
    requires { lines.old.count ≤ length (string_bytes lines.old.text) }
    ensures lines { OnOk result (GotLines (texts.blank_lines contest.now what.now characters.now)
        (string_bytes lines.old.text) (string_bytes lines.new.text) lines.old.count lines.new.count) }
    ensures room { OnOk result (lines.new.count ≤ length (string_bytes lines.new.text)) }
{
    if shows_nothing(characters) {
        let line = blank_line(alloc, contest, what)?;
        lines.push(line.as_str())?;
    }
    Ok(())
}
