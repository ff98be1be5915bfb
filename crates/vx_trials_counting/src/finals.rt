//! What waits, what is exported and as what, a second time.

use crate::machine::{is_decided, is_selected, name_in, options_of, ruling_in, sheet_in, slots_of};
use std::alloc::Global;
use vx_base::OutOfMemory;
use vx_center::{Decision, Event, ExportSheet, Final, Key, WriteInName};
use vx_election_model::{Contest, Election, Reason, ReasonSet};
use vx_grid::State;
use vx_rules::{ContestMarks, SheetMarks};

fn count_of(states: &[State], wanted: State) -> usize {
    states.iter().filter(|state| **state == wanted).count()
}

fn is_blank(sheet: &SheetMarks) -> bool {
    sheet.contests.as_slice().iter().all(|marks| count_of(marks.states.as_slice(), State::Clear)
        == marks.states.len())
}

/// Whether a person has to look at a contest.
fn has_reason(contest: &Contest, states: &[State], is_blank: bool, enabled: ReasonSet) -> bool {
    let marked = count_of(states, State::Marked);
    let seats = contest.seats as usize;
    let written_in = states
        .iter()
        .skip(contest.choices.len())
        .any(|state| *state == State::Marked);
    count_of(states, State::Marginal) > 0
        || (marked > seats && enabled.has(Reason::Overvote))
        || (marked < seats && enabled.has(Reason::Undervote))
        || (is_blank && enabled.has(Reason::BlankBallot))
        || (written_in && enabled.has(Reason::WriteIn))
}

/// Whether a contest of the sheet with a key is exported.
fn is_exported(
    election: &Election,
    kept: &[Event],
    key: &Key,
    sheet: &SheetMarks,
    marks: &ContestMarks,
) -> bool {
    match election.contests.as_slice().get(marks.contest as usize) {
        None => false,
        Some(contest) => {
            is_decided(kept, key, marks.contest)
                || !has_reason(
                    contest,
                    marks.states.as_slice(),
                    is_blank(sheet),
                    election.reasons,
                )
        }
    }
}

/// Adds the contests that wait of the sheet that has a place in the order of adding.
fn add_waiting(
    queue: &mut Vec<(u32, u32)>,
    election: &Election,
    kept: &[Event],
    place: u32,
    key: &Key,
    sheet: &SheetMarks,
) -> Result<(), OutOfMemory> {
    let mut number = 0u32;
    for marks in sheet.contests.as_slice() {
        if !is_exported(election, kept, key, sheet, marks) {
            queue.push((place, number))?;
        }
        number = number.saturating_add(1);
    }
    Ok(())
}

/// All that waits, in order.
pub(crate) fn queue_of(
    alloc: Global,
    election: &Election,
    kept: &[Event],
) -> Result<Vec<(u32, u32)>, OutOfMemory> {
    let mut queue = Vec::new(alloc);
    let mut place = 0u32;
    for event in kept {
        if let Event::Add { key, sheet } = event {
            add_waiting(&mut queue, election, kept, place, key, sheet)?;
            place = place.saturating_add(1);
        }
    }
    Ok(queue)
}

fn is_same_name(one: Option<&WriteInName>, other: Option<&WriteInName>) -> bool {
    match (one, other) {
        (None, None) => true,
        (Some(WriteInName::Words(words)), Some(WriteInName::Words(others))) => {
            words.as_str() == others.as_str()
        }
        (Some(WriteInName::Candidate(number)), Some(WriteInName::Candidate(another))) => {
            number == another
        }
        _ => false,
    }
}

/// Whether the names of a contest's slots are the last ones.
fn are_named(kept: &[Event], key: &Key, contest: &Contest, shown: &Final) -> bool {
    let mut slot = 0u32;
    for name in shown.names.as_slice() {
        if !is_same_name(name.as_ref(), name_in(kept, key, shown.contest, slot)) {
            return false;
        }
        slot = slot.saturating_add(1);
    }
    slot == slots_of(contest)
}

/// Whether exactly the options that count as selected are shown.
fn are_selected(
    contest: &Contest,
    marks: &ContestMarks,
    ruling: Option<&Decision>,
    shown: &[u32],
) -> bool {
    let states = marks.states.as_slice();
    let mut at = 0usize;
    for option in 0..options_of(contest) {
        if is_selected(states, ruling, option) {
            match shown.get(at) {
                Some(number) if *number as usize == option => {}
                _ => return false,
            }
            at = at.saturating_add(1);
        }
    }
    at == shown.len()
}

/// Whether a contest is shown as what it counts as.
fn is_final(
    election: &Election,
    kept: &[Event],
    key: &Key,
    marks: &ContestMarks,
    shown: &Final,
) -> bool {
    let Some(contest) = election.contests.as_slice().get(marks.contest as usize) else {
        return false;
    };
    let ruling = ruling_in(kept, key, marks.contest);
    shown.contest == marks.contest
        && are_selected(contest, marks, ruling, shown.selected.as_slice())
        && shown.ruled == matches!(ruling, Some(Decision::RuledOvervote))
        && are_named(kept, key, contest, shown)
        && shown.read.as_slice() == marks.states.as_slice()
        && shown.decided == is_decided(kept, key, marks.contest)
}

/// Whether exactly the exported contests of a sheet are shown, in order.
pub(crate) fn is_row(election: &Election, kept: &[Event], row: &ExportSheet) -> bool {
    let Some((_, sheet)) = sheet_in(kept, &row.key) else {
        return false;
    };
    let finals = row.finals.as_slice();
    let mut at = 0usize;
    for marks in sheet.contests.as_slice() {
        if is_exported(election, kept, &row.key, sheet, marks) {
            match finals.get(at) {
                Some(shown) if is_final(election, kept, &row.key, marks, shown) => {}
                _ => return false,
            }
            at = at.saturating_add(1);
        }
    }
    at == finals.len() && row.card == sheet.card && row.front == sheet.front
}

/// Whether a key comes before another: its batch's bytes are less, or they are the same and its number
/// is less.
pub(crate) fn is_before(one: &Key, other: &Key) -> bool {
    let mut bytes = other.batch.as_str().as_bytes().iter();
    for byte in one.batch.as_str().as_bytes() {
        match bytes.next() {
            None => return false,
            Some(another) if byte == another => {}
            Some(another) => return byte < another,
        }
    }
    bytes.next().is_some() || one.number < other.number
}
