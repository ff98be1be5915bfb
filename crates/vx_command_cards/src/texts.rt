ghost use Rattle.std.specs.Prelude.{◌≡◌, ◌≤◌, ◌<◌, [], length, IfOk, OnOk, string_bytes};
ghost use Rattle.std.specs.List.{flat_map};
ghost use Rattle.vx_command_cards.specs.Lines.{GotLines};
ghost use Rattle.vx_command_cards.specs.Texts as texts;

use crate::blank::push_blank;
use crate::cut::push_cuts;
use crate::flaw::Flaw;
use crate::foot::push_foot;
use crate::hollow::push_hollow;
use crate::lines::Lines;
use crate::printed::{characters_in, choice_id, description_of, label_at};
use std::alloc::Global;
use vx_base::OutOfMemory;
use vx_election_model::{Contest, Election};

/// Adds what is told of a text, by whose it is and what it is.
pub(crate) fn push_text(
    alloc: Global,
    lines: &mut Lines,
    flaw: Flaw,
    contest: &str,
    what: &str,
    text: &str,
) -> Result<(), OutOfMemory>
    requires { lines.old.count ≤ length (string_bytes lines.old.text) }
    ensures lines { OnOk result (GotLines (texts.text_lines flaw contest.now what.now text.now)
        (string_bytes lines.old.text) (string_bytes lines.new.text) lines.old.count lines.new.count) }
    ensures room { OnOk result (lines.new.count ≤ length (string_bytes lines.new.text)) }
{
    let characters = characters_in(alloc, text)?;
    let characters = characters.as_slice();
    match flaw {
        Flaw::Hollow => push_hollow(alloc, lines, contest, what, characters),
        Flaw::Blank => push_blank(alloc, lines, contest, what, characters),
        Flaw::Cut => push_cuts(alloc, lines, contest, what, text, characters),
    }
}

/// What a description is.
fn description_word() -> &'static str
    ensures { result.now ≡ texts.description_word }
{
    "description"
}

/// What the text of an option is.
fn option_word(alloc: Global, contest: &Contest, option: usize) -> Result<String, OutOfMemory>
    ensures { IfOk result (λ word. string_bytes word ≡ texts.option_word contest.now option) }
{
    let id = choice_id(contest, option);
    format!(in alloc; "option {id}")
}

/// Adds what is told of the text of an option.
fn push_option(
    alloc: Global,
    lines: &mut Lines,
    flaw: Flaw,
    contest: &Contest,
    option: usize,
) -> Result<(), OutOfMemory>
    requires { lines.old.count ≤ length (string_bytes lines.old.text) }
    ensures lines { OnOk result (GotLines (texts.option_lines flaw contest.now option)
        (string_bytes lines.old.text) (string_bytes lines.new.text) lines.old.count lines.new.count) }
    ensures room { OnOk result (lines.new.count ≤ length (string_bytes lines.new.text)) }
{
    let word = option_word(alloc, contest, option)?;
    let label = label_at(contest, option);
    push_text(
        alloc,
        lines,
        flaw,
        contest.id.as_str(),
        word.as_str(),
        label,
    )?;
    Ok(())
}

/// Adds what is told of the texts of a contest's choices, in order.
fn push_choices(
    alloc: Global,
    lines: &mut Lines,
    flaw: Flaw,
    contest: &Contest,
) -> Result<(), OutOfMemory>
    requires { lines.old.count ≤ length (string_bytes lines.old.text) }
    ensures lines { OnOk result (GotLines (texts.choice_lines flaw contest.now)
        (string_bytes lines.old.text) (string_bytes lines.new.text) lines.old.count lines.new.count) }
    ensures room { OnOk result (lines.new.count ≤ length (string_bytes lines.new.text)) }
{
    for option in 0..contest.choices.len() {
        push_option(alloc, lines, flaw, contest, option)?;
    }
    Ok(())
}

/// Adds what is told of the texts of a contest: its title, its description and its choices.
fn push_contest(
    alloc: Global,
    lines: &mut Lines,
    flaw: Flaw,
    contest: &Contest,
) -> Result<(), OutOfMemory>
    requires { lines.old.count ≤ length (string_bytes lines.old.text) }
    ensures lines { OnOk result (GotLines (texts.contest_lines flaw contest.now)
        (string_bytes lines.old.text) (string_bytes lines.new.text) lines.old.count lines.new.count) }
    ensures room { OnOk result (lines.new.count ≤ length (string_bytes lines.new.text)) }
{
    let id = contest.id.as_str();
    push_text(alloc, lines, flaw, id, "title", contest.title.as_str())?;
    push_text(
        alloc,
        lines,
        flaw,
        id,
        description_word(),
        description_of(contest),
    )?;
    push_choices(alloc, lines, flaw, contest)?;
    Ok(())
}

/// Adds what is told of the texts of all contests, in order.
fn push_contests(
    alloc: Global,
    lines: &mut Lines,
    flaw: Flaw,
    election: &Election,
) -> Result<(), OutOfMemory>
    requires { lines.old.count ≤ length (string_bytes lines.old.text) }
    ensures lines { OnOk result (GotLines (flat_map (texts.contest_lines flaw) election.now.contests)
        (string_bytes lines.old.text) (string_bytes lines.new.text) lines.old.count lines.new.count) }
    ensures room { OnOk result (lines.new.count ≤ length (string_bytes lines.new.text)) }
{
    for contest in election.contests.as_slice() {
        push_contest(alloc, lines, flaw, contest)?;
    }
    Ok(())
}

/// What is told of the texts of the foot line and of all contests.
pub(crate) fn list_flaws(
    alloc: Global,
    election: &Election,
    flaw: Flaw,
) -> Result<Lines, OutOfMemory>
    ensures { IfOk result (λ lines. GotLines (texts.flaw_lines flaw election.now)
        [] (string_bytes lines.text) 0 lines.count) }
{
    let mut lines = Lines::new(alloc);
    push_foot(alloc, &mut lines, flaw, election)?;
    push_contests(alloc, &mut lines, flaw, election)?;
    Ok(lines)
}
