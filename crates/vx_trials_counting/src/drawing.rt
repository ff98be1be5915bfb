//! Events that are drawn.

use crate::machine::{holder_in, options_of, sheet_in};
use rand_core::Rng;
use rand_pcg::Pcg32;
use std::alloc::Global;
use vx_base::OutOfMemory;
use vx_center::{Decision, Event, Key, Options, WriteInName};
use vx_election_model::Election;
use vx_grid::{Kind, State, States};
use vx_json::Text;
use vx_rules::{ContestMarks, ContestMarksList, SheetMarks};

const BATCHES: [&str; 4] = ["b10", "b2", "B-_", "abcdefghijklmnopqrstuvwxyz012345"];

const WORDS: [&str; 3] = ["Eve", "\u{1d7d8} \u{80}", "eve"];

/// A number below some bound.
pub(crate) fn below(rng: &mut Pcg32, bound: u32) -> u32 {
    rng.next_u32().checked_rem(bound).unwrap_or(0)
}

fn word_of(rng: &mut Pcg32, words: &[&'static str]) -> &'static str {
    let place = below(rng, 4) as usize;
    words.get(place).copied().unwrap_or("b1")
}

/// A key near those of the steps before, or any.
fn key_of(alloc: Global, rng: &mut Pcg32, step: u32) -> Result<Key, OutOfMemory> {
    let number = if below(rng, 8) == 0 {
        below(rng, 80)
    } else {
        (step / 100).saturating_add(below(rng, 4))
    };
    Ok(Key {
        batch: Text::from_str(alloc, word_of(rng, &BATCHES))?,
        number: number.saturating_add(1),
    })
}

/// The station that holds a sheet, or any.
fn station_of(rng: &mut Pcg32, kept: &[Event], key: &Key) -> u32 {
    let any = below(rng, 3).saturating_add(1);
    if below(rng, 8) == 0 {
        return any;
    }
    holder_in(kept, key).unwrap_or(any)
}

/// A state of a sheet that has no marks, marks and marginal ones, or marks alone.
fn state_of(rng: &mut Pcg32, marks: u32) -> State {
    match (marks, below(rng, 8)) {
        (0, _) => State::Clear,
        (_, 0..=2) => State::Marked,
        (1..=2, 3) => State::Marginal,
        _ => State::Clear,
    }
}

fn states_of(
    alloc: Global,
    rng: &mut Pcg32,
    count: usize,
    marks: u32,
) -> Result<States, OutOfMemory> {
    let mut states = Vec::new(alloc);
    for _option in 0..count {
        states.push(state_of(rng, marks))?;
    }
    Ok(States::from_vec(states))
}

/// Some of the contests, in order.
fn contests_of(
    alloc: Global,
    rng: &mut Pcg32,
    election: &Election,
) -> Result<ContestMarksList, OutOfMemory> {
    let marks = below(rng, 4);
    let mut list = Vec::new(alloc);
    let mut number = 0u32;
    for contest in election.contests.as_slice() {
        if below(rng, 4) > 0 {
            list.push(ContestMarks {
                contest: number,
                states: states_of(alloc, rng, options_of(contest), marks)?,
            })?;
        }
        number = number.saturating_add(1);
    }
    Ok(ContestMarksList::from_vec(list))
}

fn sheet_of(
    alloc: Global,
    rng: &mut Pcg32,
    election: &Election,
) -> Result<SheetMarks, OutOfMemory> {
    Ok(SheetMarks {
        card: below(rng, 2),
        front: if below(rng, 2) == 0 { 1 } else { 63 },
        kind: Kind::Absentee,
        test: below(rng, 2) == 0,
        contests: contests_of(alloc, rng, election)?,
    })
}

/// Some options, in order.
pub(crate) fn options_in(
    alloc: Global,
    first: u32,
    second: u32,
    third: u32,
) -> Result<Options, OutOfMemory> {
    if first >= second {
        return Ok(Options::from_ascending(vec![in alloc; first]?));
    }
    if second >= third {
        return Ok(Options::from_ascending(vec![in alloc; first, second]?));
    }
    Ok(Options::from_ascending(vec![in alloc; first, second, third]?))
}

fn selections_of(alloc: Global, rng: &mut Pcg32) -> Result<Options, OutOfMemory> {
    if below(rng, 8) == 0 {
        return Ok(Options::new(alloc));
    }
    options_in(alloc, below(rng, 3), below(rng, 4), below(rng, 6))
}

fn name_of(alloc: Global, rng: &mut Pcg32) -> Result<WriteInName, OutOfMemory> {
    if below(rng, 2) == 0 {
        return Ok(WriteInName::Candidate(below(rng, 4)));
    }
    let words = word_of(rng, &WORDS);
    Ok(WriteInName::Words(Text::from_str(alloc, words)?))
}

fn decision_of(alloc: Global, rng: &mut Pcg32) -> Result<Decision, OutOfMemory> {
    match below(rng, 8) {
        0..=2 => Ok(Decision::Selections(selections_of(alloc, rng)?)),
        3 => Ok(Decision::RuledOvervote),
        4 => Ok(Decision::AcceptRead),
        _ => Ok(Decision::NameWriteIn {
            slot: below(rng, 2),
            name: name_of(alloc, rng)?,
        }),
    }
}

/// An event behind those that are kept. A sheet that isn't there is often added, and one that no station
/// holds often claimed.
pub(crate) fn event_of(
    alloc: Global,
    rng: &mut Pcg32,
    election: &Election,
    kept: &[Event],
    step: u32,
) -> Result<Event, OutOfMemory> {
    let key = key_of(alloc, rng, step)?;
    let station = station_of(rng, kept, &key);
    let is_known = sheet_in(kept, &key).is_some();
    let is_held = holder_in(kept, &key).is_some();
    match (is_known, is_held, below(rng, 16)) {
        (false, _, 0..=11) | (_, _, 0) => Ok(Event::Add {
            key,
            sheet: sheet_of(alloc, rng, election)?,
        }),
        (_, false, 1..=8) | (_, _, 1) => Ok(Event::Claim { station, key }),
        (_, _, 2) => Ok(Event::Release { station, key }),
        _ => Ok(Event::Decide {
            station,
            key,
            contest: below(rng, 6),
            decision: decision_of(alloc, rng)?,
        }),
    }
}
