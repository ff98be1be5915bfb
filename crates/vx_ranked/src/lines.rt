//! Lines of a count in rounds.

ghost use Rattle.std.specs.Prelude.{◌≡◌, ◌++◌, flat_map, OnOk, string_bytes};
ghost use Rattle.vx_ranked.specs.Texts as lines;

use vx_base::OutOfMemory;
use vx_election_model::Choice;
use vx_rounds::{Round, Rounds};

/// A candidate's id.
fn id_of<'c>(choices: &'c [Choice], candidate: u32) -> &'c str
    ensures { result.now ≡ lines.id_of choices.now candidate }
{
    match choices.get(candidate as usize) {
        Some(choice) => choice.id.as_str(),
        None => "",
    }
}

/// Adds how many sheets of a group have a ranking, and how many wait.
pub(crate) fn push_group(
    text: &mut String,
    id: &str,
    ballots: usize,
    waiting: u64,
) -> Result<(), OutOfMemory>
    ensures { OnOk result (string_bytes text.new
        ≡ string_bytes text.old ++ lines.group_line id.now ballots waiting) }
{
    write!(text, "ranked {id} ballots {ballots} waiting {waiting}\n")
}

/// Adds a candidate with its count.
fn push_count(
    text: &mut String,
    choices: &[Choice],
    candidate: u32,
    count: u64,
) -> Result<(), OutOfMemory>
    ensures { OnOk result (string_bytes text.new
        ≡ string_bytes text.old ++ lines.count_text choices.now (candidate, count)) }
{
    let id = id_of(choices, candidate);
    write!(text, " {id} {count}")
}

/// Adds the candidates that stand, each with its count.
fn push_counts(
    text: &mut String,
    choices: &[Choice],
    counts: &[(u32, u64)],
) -> Result<(), OutOfMemory>
    ensures { OnOk result (string_bytes text.new
        ≡ string_bytes text.old ++ flat_map (lines.count_text choices.now) counts.now) }
{
    for (candidate, count) in counts {
        push_count(text, choices, *candidate, *count)?;
    }
    Ok(())
}

/// Adds the line of a round.
fn push_round(
    text: &mut String,
    choices: &[Choice],
    number: usize,
    round: &Round,
) -> Result<(), OutOfMemory>
    ensures { OnOk result (string_bytes text.new
        ≡ string_bytes text.old ++ lines.round_line choices.now number round.now) }
{
    write!(text, "round {number}")?;
    push_counts(text, choices, round.counts.as_slice())?;
    write!(text, " exhausted {}\n", round.exhausted)?;
    Ok(())
}

/// Adds which candidate goes out, if one does.
fn push_out(text: &mut String, choices: &[Choice], out: Option<u32>) -> Result<(), OutOfMemory>
    ensures { OnOk result (string_bytes text.new ≡ string_bytes text.old ++ lines.out_line choices.now out) }
{
    match out {
        None => Ok(()),
        Some(candidate) => {
            let id = id_of(choices, candidate);
            write!(text, "out {id}\n")
        }
    }
}

/// Adds the lines of all rounds, numbered from 1.
fn push_rounds(text: &mut String, choices: &[Choice], rounds: &[Round]) -> Result<(), OutOfMemory>
    ensures { OnOk result (string_bytes text.new
        ≡ string_bytes text.old ++ lines.round_lines choices.now 1 rounds.now) }
{
    for (index, round) in rounds.iter().enumerate() {
        push_round(text, choices, index + 1, round)?;
        push_out(text, choices, round.out)?;
    }
    Ok(())
}

/// Adds who won.
fn push_winner(
    text: &mut String,
    choices: &[Choice],
    winner: Option<u32>,
) -> Result<(), OutOfMemory>
    ensures { OnOk result (string_bytes text.new
        ≡ string_bytes text.old ++ lines.winner_line choices.now winner) }
{
    match winner {
        None => text.push_str("no winner\n"),
        Some(candidate) => {
            let id = id_of(choices, candidate);
            write!(text, "winner {id}\n")
        }
    }
}

/// Adds a count in rounds.
pub(crate) fn push_counted(
    text: &mut String,
    choices: &[Choice],
    counted: &Rounds,
) -> Result<(), OutOfMemory>
    ensures { OnOk result (string_bytes text.new
        ≡ string_bytes text.old ++ lines.rounds_text choices.now counted.now) }
{
    push_rounds(text, choices, counted.rounds.as_slice())?;
    push_winner(text, choices, counted.winner)
}
