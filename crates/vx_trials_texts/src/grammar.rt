//! A second grammar of records: words between blanks, and for each act a table of what they may be.

use crate::words::{Field, is_field, split, value_of};
use std::alloc::{AllocError, Global};
use vx_events::{Decision, Event, Key, WriteInName};
use vx_grid::{Kind, State};
use vx_rules::{ContestMarks, SheetMarks};

const ACTS: [&[u8]; 7] = [
    b"add",
    b"claim",
    b"release",
    b"select",
    b"overvote",
    b"accept",
    b"name",
];

const KINDS: [&[u8]; 8] = [
    b"precinct",
    b"absentee",
    b"provisional",
    b"other",
    b"test-precinct",
    b"test-absentee",
    b"test-provisional",
    b"test-other",
];

/// What stands behind each act, in its order. An `add` has contests behind, a `name` its words or its
/// candidate.
const FIELDS: [&[Field]; 7] = [
    &[
        Field::Batch,
        Field::Number(1, 999_999),
        Field::Number(0, 1_023),
        Field::Front,
        Field::Word(&KINDS),
    ],
    &[
        Field::Number(1, 9_999),
        Field::Batch,
        Field::Number(1, 999_999),
    ],
    &[
        Field::Number(1, 9_999),
        Field::Batch,
        Field::Number(1, 999_999),
    ],
    &[
        Field::Number(1, 9_999),
        Field::Batch,
        Field::Number(1, 999_999),
        Field::Number(0, 499),
        Field::Options,
    ],
    &[
        Field::Number(1, 9_999),
        Field::Batch,
        Field::Number(1, 999_999),
        Field::Number(0, 499),
    ],
    &[
        Field::Number(1, 9_999),
        Field::Batch,
        Field::Number(1, 999_999),
        Field::Number(0, 499),
    ],
    &[
        Field::Number(1, 9_999),
        Field::Batch,
        Field::Number(1, 999_999),
        Field::Number(0, 499),
        Field::Number(0, 999),
        Field::Word(&[b"text", b"candidate"]),
    ],
];

/// The word at a place, or an empty one.
fn word_at<'t>(words: &[&'t [u8]], place: usize) -> &'t [u8] {
    match words.get(place) {
        Some(word) => word,
        None => b"",
    }
}

/// The words of a record. Behind `text` all is one.
fn words_of(alloc: Global, body: &[u8]) -> Result<Vec<&[u8]>, AllocError> {
    let mut words = split(alloc, body, b' ')?;
    if words.len() > 9 && word_at(words.as_slice(), 7) == b"text".as_slice() {
        let mut front = 8usize;
        for word in words.as_slice().iter().take(8) {
            front = front.saturating_add(word.len());
        }
        words.truncate(8);
        words.push(body.get(front..).unwrap_or(&[]))?;
    }
    Ok(words)
}

/// The place of an act in the table.
fn act_of(word: &[u8]) -> Option<usize> {
    for (place, act) in ACTS.iter().enumerate() {
        if *act == word {
            return Some(place);
        }
    }
    None
}

/// The contest of a word with states.
fn contest_in(alloc: Global, word: &[u8]) -> Result<u64, AllocError> {
    let parts = split(alloc, word, b':')?;
    Ok(value_of(word_at(parts.as_slice(), 0)).unwrap_or(0))
}

/// What may stand at a place behind the table's words.
fn field_behind(
    alloc: Global,
    words: &[&[u8]],
    act: &[u8],
    place: usize,
) -> Result<Option<Field>, AllocError> {
    if act == b"add".as_slice() {
        if place == 7 {
            return Ok(Some(Field::Marks(0)));
        }
        let before = contest_in(alloc, word_at(words, place.saturating_sub(1)))?;
        return Ok(Some(Field::Marks(before.wrapping_add(1))));
    }
    if act == b"name".as_slice() && place == 8 {
        if word_at(words, 7) == b"text".as_slice() {
            return Ok(Some(Field::Text));
        }
        return Ok(Some(Field::Number(0, 999)));
    }
    Ok(None)
}

/// What may stand at a place of a record, after the words before it, if anything may.
fn field_at(alloc: Global, words: &[&[u8]], place: usize) -> Result<Option<Field>, AllocError> {
    if place == 0 {
        return Ok(Some(Field::Word(&[b"1"])));
    }
    if place == 1 {
        return Ok(Some(Field::Word(&ACTS)));
    }
    let act = word_at(words, 1);
    let Some(number) = act_of(act) else {
        return Ok(None);
    };
    let Some(fields) = FIELDS.get(number) else {
        return Ok(None);
    };
    match fields.get(place.saturating_sub(2)) {
        Some(field) => Ok(Some(*field)),
        None => field_behind(alloc, words, act, place),
    }
}

/// Whether the word at a place may stand there, whole or begun.
fn is_right(
    alloc: Global,
    words: &[&[u8]],
    place: usize,
    is_whole: bool,
) -> Result<bool, AllocError> {
    match field_at(alloc, words, place)? {
        Some(field) => is_field(alloc, field, word_at(words, place), is_whole),
        None => Ok(false),
    }
}

/// Whether so many of the words are whole.
fn are_whole(alloc: Global, words: &[&[u8]], count: usize) -> Result<bool, AllocError> {
    for place in 0..count {
        if !is_right(alloc, words, place, true)? {
            return Ok(false);
        }
    }
    Ok(true)
}

/// Whether some record begins with these bytes. No limit of a whole record's size is looked at.
fn begins_record(alloc: Global, front: &[u8]) -> Result<bool, AllocError> {
    let words = words_of(alloc, front)?;
    let words = words.as_slice();
    let last = words.len().saturating_sub(1);
    Ok(are_whole(alloc, words, last)? && is_right(alloc, words, last, false)?)
}

/// How many bytes from the front begin a record, where so many do.
pub(crate) fn longest_front(alloc: Global, body: &[u8], known: usize) -> Result<u32, AllocError> {
    let mut longest = known;
    for end in known..body.len() {
        let next = end.saturating_add(1);
        if !begins_record(alloc, body.get(..next).unwrap_or(&[]))? {
            break;
        }
        longest = next;
    }
    Ok(longest.min(100_000) as u32)
}

/// How many words a record of an act has at least.
fn least_words(act: &[u8]) -> usize {
    match act_of(act) {
        Some(6) => 9,
        Some(number) => match FIELDS.get(number) {
            Some(fields) => fields.len().saturating_add(2),
            None => 0,
        },
        None => 0,
    }
}

/// The words of a record, or none where the bytes are none.
pub(crate) fn record_words(alloc: Global, body: &[u8]) -> Result<Option<Vec<&[u8]>>, AllocError> {
    let words = words_of(alloc, body)?;
    let count = words.len();
    let has_all = count > 2 && count >= least_words(word_at(words.as_slice(), 1));
    if has_all && are_whole(alloc, words.as_slice(), count)? {
        Ok(Some(words))
    } else {
        Ok(None)
    }
}

fn says(words: &[&[u8]], place: usize, value: u32) -> bool {
    value_of(word_at(words, place)) == Some(u64::from(value))
}

/// Whether two words say a key.
fn say_key(words: &[&[u8]], place: usize, key: &Key) -> bool {
    word_at(words, place) == key.batch.as_str().as_bytes()
        && says(words, place.saturating_add(1), key.number)
}

/// Whether a word says how a ballot was cast.
fn says_kind(word: &[u8], kind: Kind, test: bool) -> bool {
    let place = match kind {
        Kind::Precinct => 0usize,
        Kind::Absentee => 1,
        Kind::Provisional => 2,
        Kind::Other => 3,
    };
    let place = if test { place + 4 } else { place };
    KINDS.get(place).is_some_and(|kind| *kind == word)
}

/// Whether letters say states.
fn say_states(letters: &[u8], states: &[State]) -> bool {
    for (letter, state) in letters.iter().zip(states.iter()) {
        let own = match state {
            State::Marked => b'm',
            State::Marginal => b'g',
            State::Clear => b'c',
        };
        if own != *letter {
            return false;
        }
    }
    letters.len() == states.len()
}

/// Whether a word says what a contest was read as.
fn says_marks(alloc: Global, word: &[u8], marks: &ContestMarks) -> Result<bool, AllocError> {
    let parts = split(alloc, word, b':')?;
    let parts = parts.as_slice();
    Ok(says(parts, 0, marks.contest) && say_states(word_at(parts, 1), marks.states.as_slice()))
}

fn say_sheet(alloc: Global, words: &[&[u8]], sheet: &SheetMarks) -> Result<bool, AllocError> {
    let contests = sheet.contests.as_slice();
    let mut place = 7usize;
    for marks in contests {
        if !says_marks(alloc, word_at(words, place), marks)? {
            return Ok(false);
        }
        place = place.saturating_add(1);
    }
    Ok(
        place == words.len()
            && says(words, 4, sheet.card)
            && says(words, 5, sheet.front)
            && says_kind(word_at(words, 6), sheet.kind, sheet.test),
    )
}

fn says_options(alloc: Global, word: &[u8], options: &[u32]) -> Result<bool, AllocError> {
    if word == b"-".as_slice() {
        return Ok(options.is_empty());
    }
    let parts = split(alloc, word, b',')?;
    let mut place = 0usize;
    for option in options {
        if !says(parts.as_slice(), place, *option) {
            return Ok(false);
        }
        place = place.saturating_add(1);
    }
    Ok(place == parts.len())
}

fn say_name(words: &[&[u8]], name: &WriteInName) -> bool {
    match name {
        WriteInName::Words(text) => {
            word_at(words, 7) == b"text".as_slice() && word_at(words, 8) == text.as_str().as_bytes()
        }
        WriteInName::Candidate(number) => {
            word_at(words, 7) == b"candidate".as_slice() && says(words, 8, *number)
        }
    }
}

fn say_decision(alloc: Global, words: &[&[u8]], decision: &Decision) -> Result<bool, AllocError> {
    let act = word_at(words, 1);
    match decision {
        Decision::Selections(options) => {
            let is_said = says_options(alloc, word_at(words, 6), options.as_slice())?;
            Ok(is_said && act == b"select".as_slice())
        }
        Decision::RuledOvervote => Ok(act == b"overvote".as_slice()),
        Decision::AcceptRead => Ok(act == b"accept".as_slice()),
        Decision::NameWriteIn { slot, name } => {
            Ok(act == b"name".as_slice() && says(words, 6, *slot) && say_name(words, name))
        }
    }
}

/// Whether the words of a record say an event.
pub(crate) fn say_event(alloc: Global, words: &[&[u8]], event: &Event) -> Result<bool, AllocError> {
    let act = word_at(words, 1);
    match event {
        Event::Add { key, sheet } => {
            let is_said = say_sheet(alloc, words, sheet)?;
            Ok(act == b"add".as_slice() && say_key(words, 2, key) && is_said)
        }
        Event::Claim { station, key } => {
            Ok(act == b"claim".as_slice() && says(words, 2, *station) && say_key(words, 3, key))
        }
        Event::Release { station, key } => {
            Ok(act == b"release".as_slice() && says(words, 2, *station) && say_key(words, 3, key))
        }
        Event::Decide {
            station,
            key,
            contest,
            decision,
        } => {
            let is_said = say_decision(alloc, words, decision)?;
            let are_said = says(words, 2, *station) && say_key(words, 3, key);
            Ok(are_said && says(words, 5, *contest) && is_said)
        }
    }
}

/// The words of a header before its digest.
const HEADER: &[u8] = b"1 election ";

/// The digits of a digest, two for each of its 32 bytes.
const DIGITS: &[u8] = b"0123456789abcdef";

/// How many bytes from the front begin a header.
pub(crate) fn longest_header_front(body: &[u8]) -> u32 {
    let mut longest = 0u32;
    for (place, byte) in body.iter().take(75).enumerate() {
        let is_right = match HEADER.get(place) {
            Some(own) => *own == *byte,
            None => DIGITS.iter().any(|digit| *digit == *byte),
        };
        if !is_right {
            break;
        }
        longest = longest.saturating_add(1);
    }
    longest
}

/// Whether the digits of a header say the bytes of a digest.
pub(crate) fn says_digest(header: &[u8], digest: &[u8]) -> bool {
    let digits = header.get(11..).unwrap_or(&[]);
    for (place, byte) in digest.iter().enumerate() {
        let first = place.saturating_mul(2);
        let high = DIGITS.get(usize::from(*byte / 16)).copied();
        let low = DIGITS.get(usize::from(*byte % 16)).copied();
        if digits.get(first).copied() != high
            || digits.get(first.saturating_add(1)).copied() != low
        {
            return false;
        }
    }
    digits.len() == 64 && digest.len() == 32
}
