ghost use Rattle.std.specs.Prelude.{◌≡◌, IfOk, IfSome, MatchOption, Some, None};
ghost use Rattle.vx_election_model.specs.Valid.{IsValid};
ghost use Rattle.vx_events.specs.Fits.{Fits};
ghost use Rattle.vx_script.specs.Script.{asked_in, contest_in, deciding_in, decision_in, ended, event_in, first_read, name_of, naming_in, said_in};

use crate::numbers::selections;
use crate::verbs::Verb;
use crate::words::Words;
use std::alloc::Global;
use vx_base::OutOfMemory;
use vx_election_model::Election;
use vx_events::{Decision, Event, Key, WriteInName, fits};
use vx_json::Text;

/// The contest with an id, by its place in the election.
fn contest_place(election: &Election, id: &str) -> Option<u32>
    requires { IsValid election.now }
    ensures { result ≡ contest_in election.now id.now }
{
    for (place, contest) in election.contests.as_slice().iter().enumerate() {
        if contest.id.as_str() == id {
            return Some(place as u32);
        }
    }
    None
}

/// The contest whose id stands in front.
fn next_contest(election: &Election, words: &mut Words<'_>) -> Option<u32>
    requires { IsValid election.now }
    ensures { MatchOption result (first_read (contest_in election.now) words.old ≡ None)
        (λ contest. first_read (contest_in election.now) words.old ≡ Some (contest, words.new)) }
{
    match words.next() {
        None => None,
        Some(id) => contest_place(election, id),
    }
}

/// Whom a write-in slot names.
fn name(
    alloc: Global,
    form: &str,
    words: &mut Words<'_>,
) -> Result<Option<WriteInName>, OutOfMemory>
    ensures { IfOk result (λ found. found ≡ name_of form.now words.old) }
{
    if form == "text" {
        return Ok(Some(WriteInName::Words(Text::from_str(alloc, words.rest())?)));
    }
    if form == "candidate" {
        return match words.number(999) {
            None => Ok(None),
            Some(number) => Ok(candidate(number, words)),
        };
    }
    Ok(None)
}

/// A candidate with no words behind it.
fn candidate(number: u32, words: &Words<'_>) -> Option<WriteInName>
    ensures { result ≡ ended words.now (WriteInName.Candidate number) }
{
    if words.are_read() {
        Some(WriteInName::Candidate(number))
    } else {
        None
    }
}

/// A write-in slot and its name.
fn naming(alloc: Global, words: &mut Words<'_>) -> Result<Option<Decision>, OutOfMemory>
    ensures { IfOk result (λ found. found ≡ naming_in words.old) }
{
    let Some(slot) = words.number(999) else {
        return Ok(None);
    };
    let Some(form) = words.next() else {
        return Ok(None);
    };
    match name(alloc, form, words)? {
        None => Ok(None),
        Some(name) => Ok(Some(Decision::NameWriteIn { slot, name })),
    }
}

/// A decision with no words behind it.
fn ruling(decision: Decision, words: &Words<'_>) -> Option<Decision>
    ensures { result ≡ ended words.now decision }
{
    if words.are_read() {
        Some(decision)
    } else {
        None
    }
}

/// What is decided of a contest.
fn decision(
    alloc: Global,
    verb: Verb,
    words: &mut Words<'_>,
) -> Result<Option<Decision>, OutOfMemory>
    ensures { IfOk result (λ found. found ≡ decision_in verb words.old) }
{
    match verb {
        Verb::Claim => Ok(None),
        Verb::Release => Ok(None),
        Verb::Select => match selections(alloc, words)? {
            None => Ok(None),
            Some(options) => Ok(Some(Decision::Selections(options))),
        },
        Verb::Overvote => Ok(ruling(Decision::RuledOvervote, words)),
        Verb::Accept => Ok(ruling(Decision::AcceptRead, words)),
        Verb::Name => naming(alloc, words),
    }
}

/// A decision of the contest whose id stands in front.
fn deciding(
    alloc: Global,
    election: &Election,
    verb: Verb,
    station: u32,
    key: Key,
    words: &mut Words<'_>,
) -> Result<Option<Event>, OutOfMemory>
    requires { IsValid election.now }
    ensures { IfOk result (λ found. found ≡ deciding_in election.now verb station key words.old) }
{
    let Some(contest) = next_contest(election, words) else {
        return Ok(None);
    };
    match decision(alloc, verb, words)? {
        None => Ok(None),
        Some(decision) => Ok(Some(Event::Decide {
            station,
            key,
            contest,
            decision,
        })),
    }
}

/// An event with no words behind it.
fn whole(event: Event, words: &Words<'_>) -> Option<Event>
    ensures { result ≡ ended words.now event }
{
    if words.are_read() { Some(event) } else { None }
}

/// What is asked for a sheet.
fn asked(
    alloc: Global,
    election: &Election,
    verb: Verb,
    station: u32,
    key: Key,
    words: &mut Words<'_>,
) -> Result<Option<Event>, OutOfMemory>
    requires { IsValid election.now }
    ensures { IfOk result (λ found. found ≡ asked_in election.now verb station key words.old) }
{
    match verb {
        Verb::Claim => Ok(whole(Event::Claim { station, key }, words)),
        Verb::Release => Ok(whole(Event::Release { station, key }, words)),
        Verb::Select | Verb::Overvote | Verb::Accept | Verb::Name => {
            deciding(alloc, election, verb, station, key, words)
        }
    }
}

/// What the words of a line say.
fn said(
    alloc: Global,
    election: &Election,
    words: &mut Words<'_>,
) -> Result<Option<Event>, OutOfMemory>
    requires { IsValid election.now }
    ensures { IfOk result (λ found. found ≡ said_in election.now words.old) }
{
    let Some(verb) = words.verb() else {
        return Ok(None);
    };
    let Some(station) = words.number(9_999) else {
        return Ok(None);
    };
    let Some(batch) = words.next() else {
        return Ok(None);
    };
    let Some(number) = words.number(999_999) else {
        return Ok(None);
    };
    let key = Key {
        batch: Text::from_str(alloc, batch)?,
        number,
    };
    asked(alloc, election, verb, station, key, words)
}

/// The event of a line; none where the line leaves the grammar of scripts.
#[tactic(auto, unfolding(crate::specs::Script::event_in))]
pub fn event_of(
    alloc: Global,
    election: &Election,
    line: &[u8],
) -> Result<Option<Event>, OutOfMemory>
    requires { IsValid election.now }
    ensures exact { IfOk result (λ found. found ≡ event_in election.now line.now) }
    ensures fits { IfOk result (λ found. IfSome found (Fits election.now)) }
{
    let Ok(text) = str::from_utf8(line) else {
        return Ok(None);
    };
    match said(alloc, election, &mut Words::of(text))? {
        None => Ok(None),
        Some(event) => {
            if fits(election, &event) {
                Ok(Some(event))
            } else {
                Ok(None)
            }
        }
    }
}
