//! The counting machine, a second time. Whatever is asked is looked for among the kept events, from the
//! front.

use vx_center::{Decision, Event, Key, Reply, WriteInName};
use vx_election_model::{Contest, Election};
use vx_grid::State;
use vx_rules::{ContestMarks, SheetMarks};

fn is_same(one: &Key, other: &Key) -> bool {
    one.number == other.number && one.batch.as_str() == other.batch.as_str()
}

/// The place of the sheet with a key, from 0 in the order of adding, and what it was read as.
pub(crate) fn sheet_in<'k>(kept: &'k [Event], key: &Key) -> Option<(u32, &'k SheetMarks)> {
    let mut place = 0u32;
    for event in kept {
        if let Event::Add { key: other, sheet } = event {
            if is_same(other, key) {
                return Some((place, sheet));
            }
            place = place.saturating_add(1);
        }
    }
    None
}

/// The station that took the sheet last, unless the sheet was given back behind that.
pub(crate) fn holder_in(kept: &[Event], key: &Key) -> Option<u32> {
    let mut holder = None;
    for event in kept {
        match event {
            Event::Claim {
                station,
                key: other,
            } => {
                if is_same(other, key) {
                    holder = Some(*station);
                }
            }
            Event::Release { key: other, .. } => {
                if is_same(other, key) {
                    holder = None;
                }
            }
            Event::Add { .. } | Event::Decide { .. } => {}
        }
    }
    holder
}

/// What an event decides of a contest of the sheet with a key.
fn decision_in<'k>(event: &'k Event, sheet: &Key, number: u32) -> Option<&'k Decision> {
    match event {
        Event::Decide {
            key,
            contest,
            decision,
            ..
        } => {
            if *contest == number && is_same(key, sheet) {
                Some(decision)
            } else {
                None
            }
        }
        _ => None,
    }
}

pub(crate) fn is_decided(kept: &[Event], key: &Key, contest: u32) -> bool {
    kept.iter()
        .any(|event| decision_in(event, key, contest).is_some())
}

/// The last decision of a contest that isn't a name.
pub(crate) fn ruling_in<'k>(kept: &'k [Event], key: &Key, contest: u32) -> Option<&'k Decision> {
    let mut ruling = None;
    for event in kept {
        match decision_in(event, key, contest) {
            None | Some(Decision::NameWriteIn { .. }) => {}
            Some(decision) => ruling = Some(decision),
        }
    }
    ruling
}

/// The last name of a write-in slot of a contest.
pub(crate) fn name_in<'k>(
    kept: &'k [Event],
    key: &Key,
    contest: u32,
    number: u32,
) -> Option<&'k WriteInName> {
    let mut last = None;
    for event in kept {
        if let Some(Decision::NameWriteIn { slot, name }) = decision_in(event, key, contest) {
            if *slot == number {
                last = Some(name);
            }
        }
    }
    last
}

/// How many write-in slots a contest has.
pub(crate) fn slots_of(contest: &Contest) -> u32 {
    if contest.write_ins { contest.seats } else { 0 }
}

pub(crate) fn options_of(contest: &Contest) -> usize {
    contest
        .choices
        .len()
        .saturating_add(slots_of(contest) as usize)
}

/// Whether an option counts as selected where the last ruling is this one.
pub(crate) fn is_selected(states: &[State], ruling: Option<&Decision>, option: usize) -> bool {
    match ruling {
        Some(Decision::Selections(options)) => options
            .as_slice()
            .iter()
            .any(|selected| *selected as usize == option),
        _ => matches!(states.get(option), Some(State::Marked)),
    }
}

fn first_marginal(states: &[State]) -> Option<u32> {
    let mut option = 0u32;
    for state in states {
        if matches!(state, State::Marginal) {
            return Some(option);
        }
        option = option.saturating_add(1);
    }
    None
}

fn answer_to_selections(contest: &Contest, options: &[u32]) -> Reply {
    let mut given = 0u32;
    for option in options {
        if *option as usize >= options_of(contest) {
            return Reply::NotAnOption(*option);
        }
        given = given.saturating_add(1);
    }
    if given > contest.seats {
        Reply::OverSeats(given, contest.seats)
    } else {
        Reply::Done
    }
}

fn answer_to_name(
    contest: &Contest,
    states: &[State],
    ruling: Option<&Decision>,
    slot: u32,
    name: &WriteInName,
) -> Reply {
    let candidates = contest.choices.len();
    match (ruling, first_marginal(states), name) {
        (None, Some(option), _) => Reply::StillMarginal(option),
        _ if slot >= slots_of(contest) => Reply::NoWriteIn(slot),
        _ if !is_selected(states, ruling, candidates.saturating_add(slot as usize)) => {
            Reply::NoWriteIn(slot)
        }
        (_, _, WriteInName::Candidate(number)) if *number as usize >= candidates => {
            Reply::NotAnOption(*number)
        }
        _ => Reply::Done,
    }
}

/// The answer to a decision by the station that holds the sheet.
fn answer_to_decision(
    contest: &Contest,
    states: &[State],
    ruling: Option<&Decision>,
    decision: &Decision,
) -> Reply {
    match decision {
        Decision::Selections(options) => answer_to_selections(contest, options.as_slice()),
        Decision::RuledOvervote => Reply::Done,
        Decision::AcceptRead => match first_marginal(states) {
            Some(option) => Reply::StillMarginal(option),
            None => Reply::Done,
        },
        Decision::NameWriteIn { slot, name } => {
            answer_to_name(contest, states, ruling, *slot, name)
        }
    }
}

/// What a contest of the sheet with a key was read as.
fn marks_in<'k>(kept: &'k [Event], key: &Key, contest: u32) -> Option<&'k ContestMarks> {
    let (_, sheet) = sheet_in(kept, key)?;
    sheet
        .contests
        .as_slice()
        .iter()
        .find(|marks| marks.contest == contest)
}

/// Why a station may not act on the sheet with a key; it has to hold it, or no other may.
fn refusal_to(kept: &[Event], key: &Key, station: u32, has_to_hold: bool) -> Option<Reply> {
    if sheet_in(kept, key).is_none() {
        return Some(Reply::NoSheet);
    }
    match holder_in(kept, key) {
        Some(holder) if holder != station => Some(Reply::HeldBy(holder)),
        None if has_to_hold => Some(Reply::NotHeld),
        _ => None,
    }
}

/// The answer to an event.
pub(crate) fn answer_to(election: &Election, kept: &[Event], event: &Event) -> Reply {
    if kept.len() >= 1_000_000 {
        return Reply::Full(1_000_000);
    }
    match event {
        Event::Add { key, .. } => match sheet_in(kept, key) {
            Some((place, _)) => Reply::Repeated(place),
            None => Reply::Done,
        },
        Event::Claim { station, key } => {
            refusal_to(kept, key, *station, false).unwrap_or(Reply::Done)
        }
        Event::Release { station, key } => {
            refusal_to(kept, key, *station, true).unwrap_or(Reply::Done)
        }
        Event::Decide {
            station,
            key,
            contest,
            decision,
        } => {
            if let Some(refusal) = refusal_to(kept, key, *station, true) {
                return refusal;
            }
            match (
                election.contests.as_slice().get(*contest as usize),
                marks_in(kept, key, *contest),
            ) {
                (Some(known), Some(marks)) => answer_to_decision(
                    known,
                    marks.states.as_slice(),
                    ruling_in(kept, key, *contest),
                    decision,
                ),
                _ => Reply::NotOnSheet(*contest),
            }
        }
    }
}
