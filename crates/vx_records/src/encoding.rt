ghost use Rattle.std.specs.Prelude.{◌≡◌, ◌++◌, ◌∷◌, IfOk, OnOk, map, string_bytes};
ghost use Rattle.std.specs.Prelude.{[]};
ghost use Rattle.std.specs.List.{flat_map};
ghost use Rattle.std.specs.Fmt.{decimal};
ghost use Rattle.vx_records.specs.Records.{decision_words, header_of, marks_word, name_words, options_word, record_of, spaced, state_letter, words_of};
ghost use Rattle.vx_grid.specs.Kinds.{kind_word as kind_word_of};
ghost use Rattle.vx_records.specs.Records as spelled;

use std::alloc::Global;
use vx_base::{Bytes, OutOfMemory};
use vx_election_model::Election;
use vx_events::{Decision, Event, Key, WriteInName};
use vx_grid::{State, kind_word};
use vx_rules::{ContestMarks, SheetMarks};

/// What an option was read as, in a letter.
fn state_text(state: State) -> &'static str
    ensures { result.now ≡ state_letter state ∷ [] }
{
    match state {
        State::Marked => "m",
        State::Marginal => "g",
        State::Clear => "c",
    }
}

/// Adds a letter for each option.
fn push_states(text: &mut String, states: &[State]) -> Result<(), OutOfMemory>
    ensures { OnOk result (string_bytes text.new ≡ string_bytes text.old ++ map state_letter states.now) }
{
    for state in states {
        text.push_str(state_text(*state))?;
    }
    Ok(())
}

/// Adds a contest that was read, behind a blank.
fn push_marks(text: &mut String, marks: &ContestMarks) -> Result<(), OutOfMemory>
    ensures { OnOk result (string_bytes text.new
        ≡ string_bytes text.old ++ 32 ∷ marks_word marks.now) }
{
    write!(text, " {}:", marks.contest)?;
    push_states(text, marks.states.as_slice())
}

/// Adds the contests that were read, each behind a blank.
fn push_contests(text: &mut String, contests: &[ContestMarks]) -> Result<(), OutOfMemory>
    ensures { OnOk result (string_bytes text.new
        ≡ string_bytes text.old ++ spaced (map marks_word contests.now)) }
{
    for marks in contests {
        push_marks(text, marks)?;
    }
    Ok(())
}

/// Adds the options behind the first, each behind a comma.
fn push_further(text: &mut String, options: &[u32]) -> Result<(), OutOfMemory>
    ensures { OnOk result (string_bytes text.new
        ≡ string_bytes text.old ++ flat_map (λ other. 44 ∷ decimal other) options.now) }
{
    for option in options {
        write!(text, ",{option}")?;
    }
    Ok(())
}

/// Adds options, behind a blank.
fn push_options(text: &mut String, options: &[u32]) -> Result<(), OutOfMemory>
    ensures { OnOk result (string_bytes text.new
        ≡ string_bytes text.old ++ 32 ∷ options_word options.now) }
{
    match options {
        [] => text.push_str(" -"),
        [option, further @ ..] => {
            write!(text, " {option}")?;
            push_further(text, further)
        }
    }
}

/// Adds what a write-in slot's name is.
fn push_name(text: &mut String, name: &WriteInName) -> Result<(), OutOfMemory>
    ensures { OnOk result (string_bytes text.new
        ≡ string_bytes text.old ++ spaced (name_words name.now)) }
{
    match name {
        WriteInName::Words(words) => {
            let words = words.as_str();
            write!(text, " text {words}")
        }
        WriteInName::Candidate(number) => write!(text, " candidate {number}"),
    }
}

/// Adds what stands behind the contest of a decision.
fn push_decision(text: &mut String, decision: &Decision) -> Result<(), OutOfMemory>
    ensures { OnOk result (string_bytes text.new
        ≡ string_bytes text.old ++ spaced (decision_words decision.now)) }
{
    match decision {
        Decision::Selections(options) => push_options(text, options.as_slice()),
        Decision::RuledOvervote | Decision::AcceptRead => Ok(()),
        Decision::NameWriteIn { slot, name } => {
            write!(text, " {slot}")?;
            push_name(text, name)
        }
    }
}

/// A decision's word.
fn decision_name(decision: &Decision) -> &'static str
    ensures { result.now ≡ spelled.decision_name decision.now }
{
    match decision {
        Decision::Selections(_) => "select",
        Decision::RuledOvervote => "overvote",
        Decision::AcceptRead => "accept",
        Decision::NameWriteIn { .. } => "name",
    }
}

/// Adds a key, behind a blank.
fn push_key(text: &mut String, key: &Key) -> Result<(), OutOfMemory>
    ensures { OnOk result (string_bytes text.new
        ≡ string_bytes text.old ++ spaced (key.now.batch ∷ decimal key.now.number ∷ [])) }
{
    let batch = key.batch.as_str();
    write!(text, " {batch} {}", key.number)
}

/// Adds a sheet, behind a blank.
fn push_sheet(text: &mut String, sheet: &SheetMarks) -> Result<(), OutOfMemory>
    ensures { OnOk result (string_bytes text.new ≡ string_bytes text.old ++ spaced (decimal sheet.now.card
        ∷ decimal sheet.now.front ∷ kind_word_of sheet.now.kind sheet.now.test
        ∷ map marks_word sheet.now.contests)) }
{
    let kind = kind_word(sheet.kind, sheet.test);
    write!(text, " {} {} {kind}", sheet.card, sheet.front)?;
    push_contests(text, sheet.contests.as_slice())
}

/// Adds the words of an event, each behind a blank.
fn push_event(text: &mut String, event: &Event) -> Result<(), OutOfMemory>
    ensures { OnOk result (string_bytes text.new ≡ string_bytes text.old ++ spaced (words_of event.now)) }
{
    match event {
        Event::Add { key, sheet } => {
            text.push_str(" add")?;
            push_key(text, key)?;
            push_sheet(text, sheet)
        }
        Event::Claim { station, key } => {
            write!(text, " claim {station}")?;
            push_key(text, key)
        }
        Event::Release { station, key } => {
            write!(text, " release {station}")?;
            push_key(text, key)
        }
        Event::Decide {
            station,
            key,
            contest,
            decision,
        } => {
            let name = decision_name(decision);
            write!(text, " {name} {station}")?;
            push_key(text, key)?;
            write!(text, " {contest}")?;
            push_decision(text, decision)
        }
    }
}

/// The one spelling of an event.
pub fn encode(alloc: Global, event: &Event) -> Result<Bytes, OutOfMemory>
    ensures { IfOk result (λ bytes. bytes ≡ record_of event.now) }
{
    let mut text = String::from_str(alloc, "1")?;
    push_event(&mut text, event)?;
    Ok(Bytes::from_vec(text.into_bytes()))
}

/// The first record of an election's journal, which names its definition.
pub fn header(alloc: Global, election: &Election) -> Result<Bytes, OutOfMemory>
    ensures { IfOk result (λ bytes. bytes ≡ header_of election.now) }
{
    let digest = hex::encode(alloc, election.digest.as_slice())?;
    let mut text = String::from_str(alloc, "1 election ")?;
    text.push_str(digest.as_str())?;
    Ok(Bytes::from_vec(text.into_bytes()))
}
