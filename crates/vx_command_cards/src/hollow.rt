ghost use Rattle.std.specs.Prelude.{◌≡◌, ◌++◌, ◌<◌, ◌≤◌, length, IfOk, OnOk, string_bytes};
ghost use Rattle.vx_command_cards.specs.Drawn as drawn;
ghost use Rattle.vx_command_cards.specs.Lines.{GotLines};
ghost use Rattle.vx_command_cards.specs.Texts as texts;

use crate::drawn::is_new_hollow;
use crate::lines::Lines;
use std::alloc::Global;
use vx_base::OutOfMemory;

/// Adds the character at a place, if it is hollow and stands at none before it.
fn push_point(points: &mut Vec<char>, characters: &[char], place: usize) -> Result<(), OutOfMemory>
    requires { place < length characters.now }
    ensures { OnOk result (points.new.items ≡ points.old.items ++ drawn.hollow_at characters.now place) }
{
    if is_new_hollow(characters, place) {
        points.push(characters[place])?;
    }
    Ok(())
}

/// The hollow characters among some, each once, in the order in which they first stand there. Each
/// hollow one is looked for among all before it, so a text of hollow characters alone takes time in
/// proportion to the square of their number.
fn hollow_in(alloc: Global, characters: &[char]) -> Result<Vec<char>, OutOfMemory>
    ensures { IfOk result (λ points. points.items ≡ drawn.hollow_in characters.now) }
{
    let mut points = Vec::new(alloc);
    for place in 0..characters.len() {
        push_point(&mut points, characters, place)?;
    }
    Ok(points)
}

/// Adds a character's code point.
fn push_code(line: &mut String, point: char) -> Result<(), OutOfMemory>
    ensures { OnOk result (string_bytes line.new ≡ string_bytes line.old ++ texts.point_word point) }
{
    let code = point as u32;
    write!(line, " U+{code:04X}")
}

/// The line of a text's hollow characters.
fn hollow_line(
    alloc: Global,
    contest: &str,
    what: &str,
    points: &[char],
) -> Result<String, OutOfMemory>
    ensures { IfOk result (λ line. string_bytes line ≡ texts.hollow_line contest.now what.now points.now) }
{
    let mut line = format!(in alloc; "hollow {contest} {what}")?;
    for point in points {
        push_code(&mut line, *point)?;
    }
    Ok(line)
}

/// Adds the line of a text's hollow characters, where it has some.
pub(crate) fn push_hollow(
    alloc: Global,
    lines: &mut Lines,
    contest: &str,
    what: &str,
    characters: &[char],
) -> Result<(), OutOfMemory>
    requires { lines.old.count ≤ length (string_bytes lines.old.text) }
    ensures lines { OnOk result (GotLines
        (texts.hollow_lines contest.now what.now (drawn.hollow_in characters.now))
        (string_bytes lines.old.text) (string_bytes lines.new.text) lines.old.count lines.new.count) }
    ensures room { OnOk result (lines.new.count ≤ length (string_bytes lines.new.text)) }
{
    let points = hollow_in(alloc, characters)?;
    if points.is_empty() {
        return Ok(());
    }
    let line = hollow_line(alloc, contest, what, points.as_slice())?;
    lines.push(line.as_str())?;
    Ok(())
}
