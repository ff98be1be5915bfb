ghost use Rattle.std.specs.Prelude.{◌≡◌, ◌<◌, ◌≤◌, ◌+◌, ◌-◌, ◌*◌, chars, length, OnOk, IfOk, string_bytes};
ghost use Rattle.std.specs.Fork.{slice_chunk};
ghost use Rattle.vx_layout.specs.Lines.{lines_of};
ghost use Rattle.vx_command_cards.specs.Drawn as drawn;
ghost use Rattle.vx_command_cards.specs.Lines.{GotLines};
ghost use Rattle.vx_command_cards.specs.Texts as texts;

use crate::drawn::{LINE, ends_within};
use crate::lines::Lines;
use crate::words::{end_word, front_word};
use std::alloc::Global;
use vx_base::OutOfMemory;

/// The line of a line that ends within a word: its number, the word before its end, and what of it
/// stands behind.
fn cut_line(
    alloc: Global,
    contest: &str,
    what: &str,
    characters: &[char],
    line: usize,
) -> Result<String, OutOfMemory>
    requires { 29 * (line + 1) < length characters.now }
    ensures { IfOk result (λ told. string_bytes told ≡ texts.cut_line contest.now what.now (line + 1)
        (drawn.end_word (slice_chunk characters.now 29 line))
        (drawn.front_word (slice_chunk characters.now 29 (line + 1)))) }
{
    let before = end_word(alloc, characters, line)?;
    let after = front_word(alloc, characters, line + 1)?;
    format!(in alloc; "cut {contest} {what} {} {before} {after}", line + 1)
}

/// Adds the line for a line of a text, if it ends within a word. The line's number is from 0, and it is
/// told from 1.
fn push_cut(
    alloc: Global,
    lines: &mut Lines,
    contest: &str,
    what: &str,
    text: &str,
    characters: &[char],
    line: usize,
) -> Result<(), OutOfMemory>
    requires same { characters.now ≡ chars text.now }
    requires there { line < lines_of text.now - 1 }
    requires room { lines.old.count ≤ length (string_bytes lines.old.text) }
    ensures lines { OnOk result (GotLines (texts.cut_at contest.now what.now text.now line)
        (string_bytes lines.old.text) (string_bytes lines.new.text) lines.old.count lines.new.count) }
    ensures room { OnOk result (lines.new.count ≤ length (string_bytes lines.new.text)) }
{
    let _ = text;
    if ends_within(characters, line) {
        let told = cut_line(alloc, contest, what, characters, line)?;
        lines.push(told.as_str())?;
    }
    Ok(())
}

/// Adds the lines for all lines of a text that end within a word.
pub(crate) fn push_cuts(
    alloc: Global,
    lines: &mut Lines,
    contest: &str,
    what: &str,
    text: &str,
    characters: &[char],
) -> Result<(), OutOfMemory>
    requires same { characters.now ≡ chars text.now }
    requires room { lines.old.count ≤ length (string_bytes lines.old.text) }
    ensures lines { OnOk result (GotLines (texts.cut_lines contest.now what.now text.now)
        (string_bytes lines.old.text) (string_bytes lines.new.text) lines.old.count lines.new.count) }
    ensures room { OnOk result (lines.new.count ≤ length (string_bytes lines.new.text)) }
{
    for line in 0..characters.len().saturating_sub(1) / LINE {
        push_cut(alloc, lines, contest, what, text, characters, line)?;
    }
    Ok(())
}
