ghost use Rattle.std.specs.Prelude.{◌≡◌, ◌≤◌, [], chars, length, IfOk, OnOk, string_bytes};
ghost use Rattle.vx_layout.specs.Blocks as blocks;
ghost use Rattle.vx_command_cards.specs.Alike as alike;
ghost use Rattle.vx_command_cards.specs.Drawn as drawn;
ghost use Rattle.vx_command_cards.specs.Lines.{GotLines};

use crate::drawn::are_same_cells;
use crate::lines::Lines;
use crate::printed::{characters_in, choice_id, label_at};
use std::alloc::Global;
use vx_base::OutOfMemory;
use vx_election_model::{Contest, Election};

/// The line of two choices that look alike.
fn alike_line(
    alloc: Global,
    contest: &Contest,
    first: usize,
    second: usize,
) -> Result<String, OutOfMemory>
    ensures { IfOk result (λ line. string_bytes line ≡ alike.alike_line contest.now first second) }
{
    let id = contest.id.as_str();
    let front = choice_id(contest, first);
    let back = choice_id(contest, second);
    format!(in alloc; "alike {id} {front} {back}")
}

/// Whether a choice looks as a row of characters does.
fn looks_so(
    alloc: Global,
    characters: &[char],
    contest: &Contest,
    option: usize,
) -> Result<bool, OutOfMemory>
    ensures { IfOk result (λ same. same
        ≡ drawn.are_same_cells characters.now (chars (blocks.label_at contest.now option))) }
{
    let other = characters_in(alloc, label_at(contest, option))?;
    Ok(are_same_cells(characters, other.as_slice()))
}

/// Adds the line of two choices of which the second stands behind the first, if they look alike.
fn push_pair(
    alloc: Global,
    lines: &mut Lines,
    contest: &Contest,
    first: usize,
    characters: &[char],
    second: usize,
) -> Result<(), OutOfMemory>
    requires same { characters.now ≡ chars (blocks.label_at contest.now first) }
    requires room { lines.old.count ≤ length (string_bytes lines.old.text) }
    ensures lines { OnOk result (GotLines (alike.pair_lines contest.now first second)
        (string_bytes lines.old.text) (string_bytes lines.new.text) lines.old.count lines.new.count) }
    ensures room { OnOk result (lines.new.count ≤ length (string_bytes lines.new.text)) }
{
    if second <= first {
        return Ok(());
    }
    if looks_so(alloc, characters, contest, second)? {
        let line = alike_line(alloc, contest, first, second)?;
        lines.push(line.as_str())?;
    }
    Ok(())
}

/// Adds the lines of a choice with each behind it that looks as it does.
fn push_choice(
    alloc: Global,
    lines: &mut Lines,
    contest: &Contest,
    first: usize,
) -> Result<(), OutOfMemory>
    requires { lines.old.count ≤ length (string_bytes lines.old.text) }
    ensures lines { OnOk result (GotLines (alike.choice_pairs contest.now first)
        (string_bytes lines.old.text) (string_bytes lines.new.text) lines.old.count lines.new.count) }
    ensures room { OnOk result (lines.new.count ≤ length (string_bytes lines.new.text)) }
{
    let characters = characters_in(alloc, label_at(contest, first))?;
    for second in 0..contest.choices.len() {
        push_pair(alloc, lines, contest, first, characters.as_slice(), second)?;
    }
    Ok(())
}

/// Adds the lines of all choices of a contest. Each pair of them is looked at.
fn push_pairs(alloc: Global, lines: &mut Lines, contest: &Contest) -> Result<(), OutOfMemory>
    requires { lines.old.count ≤ length (string_bytes lines.old.text) }
    ensures lines { OnOk result (GotLines (alike.contest_pairs contest.now)
        (string_bytes lines.old.text) (string_bytes lines.new.text) lines.old.count lines.new.count) }
    ensures room { OnOk result (lines.new.count ≤ length (string_bytes lines.new.text)) }
{
    for first in 0..contest.choices.len() {
        push_choice(alloc, lines, contest, first)?;
    }
    Ok(())
}

/// The lines of all choices that look alike, contest by contest.
pub(crate) fn list_alike(alloc: Global, election: &Election) -> Result<Lines, OutOfMemory>
    ensures { IfOk result (λ lines. GotLines (alike.alike_lines election.now)
        [] (string_bytes lines.text) 0 lines.count) }
{
    let mut lines = Lines::new(alloc);
    for contest in election.contests.as_slice() {
        push_pairs(alloc, &mut lines, contest)?;
    }
    Ok(lines)
}
