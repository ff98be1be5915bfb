//! The texts that an election has in the foot line: its title and the names of its precincts.

ghost use Rattle.std.specs.Prelude.{◌≡◌, ◌≤◌, length, IfOk, OnOk, string_bytes};
ghost use Rattle.std.specs.List.{flat_map};
ghost use Rattle.vx_command_cards.specs.Lines.{GotLines};
ghost use Rattle.vx_command_cards.specs.Texts as texts;

use crate::flaw::Flaw;
use crate::lines::Lines;
use crate::texts::push_text;
use std::alloc::Global;
use vx_base::OutOfMemory;
use vx_election_model::{Election, Named};

/// What stands in the place of a contest's id.
fn election_word() -> &'static str
    ensures { result.now ≡ texts.election_word }
{
    "*"
}

/// What a precinct's name is.
fn precinct_word(alloc: Global, precinct: &Named) -> Result<String, OutOfMemory>
    ensures { IfOk result (λ word. string_bytes word ≡ texts.precinct_word precinct.now) }
{
    let id = precinct.id.as_str();
    format!(in alloc; "precinct {id}")
}

/// Adds what is told of a precinct's name.
fn push_precinct(
    alloc: Global,
    lines: &mut Lines,
    flaw: Flaw,
    precinct: &Named,
) -> Result<(), OutOfMemory>
    requires { lines.old.count ≤ length (string_bytes lines.old.text) }
    ensures lines { OnOk result (GotLines (texts.precinct_lines flaw precinct.now)
        (string_bytes lines.old.text) (string_bytes lines.new.text) lines.old.count lines.new.count) }
    ensures room { OnOk result (lines.new.count ≤ length (string_bytes lines.new.text)) }
{
    let word = precinct_word(alloc, precinct)?;
    let name = precinct.name.as_str();
    push_text(alloc, lines, flaw, election_word(), word.as_str(), name)?;
    Ok(())
}

/// Adds what is told of the names of all precincts, in order.
fn push_precincts(
    alloc: Global,
    lines: &mut Lines,
    flaw: Flaw,
    election: &Election,
) -> Result<(), OutOfMemory>
    requires { lines.old.count ≤ length (string_bytes lines.old.text) }
    ensures lines { OnOk result (GotLines (flat_map (texts.precinct_lines flaw) election.now.precincts)
        (string_bytes lines.old.text) (string_bytes lines.new.text) lines.old.count lines.new.count) }
    ensures room { OnOk result (lines.new.count ≤ length (string_bytes lines.new.text)) }
{
    for precinct in election.precincts.as_slice() {
        push_precinct(alloc, lines, flaw, precinct)?;
    }
    Ok(())
}

/// Adds what is told of the title and of the precincts' names.
fn push_election(
    alloc: Global,
    lines: &mut Lines,
    flaw: Flaw,
    election: &Election,
) -> Result<(), OutOfMemory>
    requires { lines.old.count ≤ length (string_bytes lines.old.text) }
    ensures lines { OnOk result (GotLines (texts.election_lines flaw election.now)
        (string_bytes lines.old.text) (string_bytes lines.new.text) lines.old.count lines.new.count) }
    ensures room { OnOk result (lines.new.count ≤ length (string_bytes lines.new.text)) }
{
    let title = election.title.as_str();
    push_text(alloc, lines, flaw, election_word(), "title", title)?;
    push_precincts(alloc, lines, flaw, election)?;
    Ok(())
}

/// Adds what is told of the texts of the foot line: nothing of cuts.
pub(crate) fn push_foot(
    alloc: Global,
    lines: &mut Lines,
    flaw: Flaw,
    election: &Election,
) -> Result<(), OutOfMemory>
    requires { lines.old.count ≤ length (string_bytes lines.old.text) }
    ensures lines { OnOk result (GotLines (texts.foot_lines flaw election.now)
        (string_bytes lines.old.text) (string_bytes lines.new.text) lines.old.count lines.new.count) }
    ensures room { OnOk result (lines.new.count ≤ length (string_bytes lines.new.text)) }
{
    match flaw {
        Flaw::Hollow | Flaw::Blank => push_election(alloc, lines, flaw, election),
        Flaw::Cut => Ok(()),
    }
}
