//! What a line names: a ballot by its record, a contest, and selections.

ghost use Rattle.std.specs.Prelude.{◌≡◌, ◌<◌, ◌≤◌, [], ◌==◌, Some, None, IfOk, IfSome, All, MatchOption, bytes_eq, length};
ghost use Rattle.std.specs.List.{list_any, position_from};
ghost use Rattle.vx_audit.specs.Finding.{FindsContests, ballot_in};
ghost use Rattle.vx_audit.specs.Hand.{contest_with, first_read, hand_in_line, hand_in_words, marks_behind as marks_behind_in, marks_in, next_mark as next_mark_in, said_in_words};
ghost use Rattle.vx_audit.specs.Sized.{HasFew};

use crate::finding::Directory;
use crate::hand::HandLine;
use crate::sample::Places;
use crate::words::Words;
use std::alloc::Global;
use vx_base::OutOfMemory;
use vx_json::Text;
use vx_tally::ReportContest;

/// Whether a place is among those.
pub(crate) fn is_among(place: u32, places: &[u32]) -> bool
    ensures { result ≡ list_any (λ other. place == other) places.now }
{
    places.iter().any(|other| place == *other)
}

/// The place of a selection by its id.
fn selection_with(selections: &[Text], id: &str) -> Option<u32>
    requires { length selections.now ≤ 1000000 }
    ensures { result ≡ position_from (bytes_eq id.now) 0 selections.now }
{
    for (place, selection) in selections.iter().enumerate() {
        if id == selection.as_str() {
            return Some(place as u32);
        }
    }
    None
}

/// The selection whose id stands in front, unless it is among those.
fn next_mark(selections: &[Text], found: &[u32], words: &mut Words<'_>) -> Option<u32>
    requires { length selections.now ≤ 1000000 }
    ensures { MatchOption result (first_read (next_mark_in selections.now found.now) words.old ≡ None)
        (λ place. first_read (next_mark_in selections.now found.now) words.old ≡ Some (place, words.new)) }
{
    let place = selection_with(selections, words.next()?)?;
    if is_among(place, found) {
        None
    } else {
        Some(place)
    }
}

/// Distinct selections, all that are named.
fn marks_behind(
    alloc: Global,
    selections: &[Text],
    words: &mut Words<'_>,
) -> Result<Option<Places>, OutOfMemory>
    requires { length selections.now ≤ 1000000 }
    ensures { IfOk result (λ found. found ≡ marks_behind_in selections.now [] words.old) }
{
    let mut places = Places::new(alloc);
    'marks: while !words.are_read() {
        match next_mark(selections, places.as_slice(), words) {
            None => return Ok(None),
            Some(place) => places.push(place)?,
        }
    }
    Ok(Some(places))
}

/// One or more distinct selections, or one `-` in their place.
fn marks(
    alloc: Global,
    selections: &[Text],
    words: &mut Words<'_>,
) -> Result<Option<Places>, OutOfMemory>
    requires { length selections.now ≤ 1000000 }
    ensures { IfOk result (λ found. found ≡ marks_in selections.now words.old) }
{
    if words.are_read() {
        return Ok(None);
    }
    if words.are_dash() {
        return Ok(Some(Places::new(alloc)));
    }
    let found = marks_behind(alloc, selections, words)?;
    Ok(found)
}

/// The ballot whose id stands in front.
fn next_ballot(directory: &Directory, words: &mut Words<'_>) -> Option<u32>
    ensures { MatchOption result (first_read (ballot_in directory.now) words.old ≡ None)
        (λ place. first_read (ballot_in directory.now) words.old ≡ Some (place, words.new)) }
{
    match words.next() {
        None => None,
        Some(id) => directory.ballots.find(id),
    }
}

/// The contest whose id stands in front.
fn next_contest(
    contests: &[ReportContest],
    directory: &Directory,
    words: &mut Words<'_>,
) -> Option<u32>
    requires { FindsContests contests.now directory.now }
    ensures value { MatchOption result (first_read (contest_with contests.now) words.old ≡ None)
        (λ place. first_read (contest_with contests.now) words.old ≡ Some (place, words.new)) }
    ensures within { IfSome result (λ place. place < length contests.now) }
{
    match words.next() {
        None => None,
        Some(id) => directory.contests.find(id),
    }
}

/// What the words behind `hand` say.
fn said(
    alloc: Global,
    contests: &[ReportContest],
    directory: &Directory,
    words: &mut Words<'_>,
) -> Result<Option<HandLine>, OutOfMemory>
    requires sized { All HasFew contests.now }
    requires finds { FindsContests contests.now directory.now }
    ensures { IfOk result (λ found. found ≡ said_in_words contests.now (ballot_in directory.now) words.old) }
{
    let Some(ballot) = next_ballot(directory, words) else {
        return Ok(None);
    };
    let Some(contest) = next_contest(contests, directory, words) else {
        return Ok(None);
    };
    let own = &contests[contest as usize];
    match marks(alloc, own.selections.as_slice(), words)? {
        None => Ok(None),
        Some(marks) => Ok(Some(HandLine {
            ballot,
            contest,
            marks,
        })),
    }
}

/// What the words of a line say.
fn said_by_hand(
    alloc: Global,
    contests: &[ReportContest],
    directory: &Directory,
    words: &mut Words<'_>,
) -> Result<Option<HandLine>, OutOfMemory>
    requires sized { All HasFew contests.now }
    requires finds { FindsContests contests.now directory.now }
    ensures { IfOk result (λ found. found ≡ hand_in_words contests.now (ballot_in directory.now) words.old) }
{
    let Some(word) = words.next() else {
        return Ok(None);
    };
    if word != "hand" {
        return Ok(None);
    }
    let found = said(alloc, contests, directory, words)?;
    Ok(found)
}

/// What a line says.
#[tactic(auto, unfolding(crate::specs::Hand::hand_in_line))]
pub(crate) fn line_said(
    alloc: Global,
    contests: &[ReportContest],
    directory: &Directory,
    line: &[u8],
) -> Result<Option<HandLine>, OutOfMemory>
    requires sized { All HasFew contests.now }
    requires finds { FindsContests contests.now directory.now }
    ensures { IfOk result (λ found. found ≡ hand_in_line contests.now (ballot_in directory.now) line.now) }
{
    let Ok(text) = str::from_utf8(line) else {
        return Ok(None);
    };
    let found = said_by_hand(alloc, contests, directory, &mut Words::of(text))?;
    Ok(found)
}
