//! How far a command has come: its acts in order, and behind how many of them it stands.

use crate::devices::Answer;
use vx_io::Records;

/// How many bytes a printed page has.
const PAGE: usize = 468_613;

/// What a command does to the outside: it appends a record, writes so many lines as one text, writes
/// what stands before a text, or writes a printed page.
#[derive(Clone, Copy)]
pub(crate) enum Act {
    Append,
    Lines(usize),
    Before(&'static str),
    Page,
}

/// The place behind so many lines of a text, from a place on.
fn behind_lines(text: &[u8], from: usize, lines: usize) -> usize {
    let mut left = lines;
    for place in from..text.len() {
        if left == 0 {
            return place;
        }
        if text[place] == b'\n' {
            left -= 1;
        }
    }
    text.len()
}

/// The place of a text within another, from a place on; the end where it isn't there.
fn place_of(text: &[u8], from: usize, next: &str) -> usize {
    for place in from..text.len() {
        if text[place..].starts_with(next.as_bytes()) {
            return place;
        }
    }
    text.len()
}

/// How many records and bytes stand behind an act, of a command that writes this text in all.
fn behind(act: Act, text: &[u8], records: usize, bytes: usize) -> (usize, usize) {
    match act {
        Act::Append => (records.saturating_add(1), bytes),
        Act::Lines(lines) => (records, behind_lines(text, bytes, lines)),
        Act::Before(next) => (records, place_of(text, bytes, next)),
        Act::Page => (records, bytes.saturating_add(PAGE)),
    }
}

/// Behind how many acts so many records and bytes stand; none where they do behind no act.
fn acts_behind(acts: &[Act], text: &[u8], records: usize, bytes: usize) -> Option<usize> {
    let mut stand = (0, 0);
    for (done, act) in acts.iter().enumerate() {
        if stand == (records, bytes) {
            return Some(done);
        }
        stand = behind(*act, text, stand.0, stand.1);
    }
    if stand == (records, bytes) {
        Some(acts.len())
    } else {
        None
    }
}

/// Whether records begin others.
fn begin(front: &Records, whole: &Records) -> bool {
    for index in 0..front.len() {
        if index >= whole.len() {
            return false;
        }
        if front.record(index).as_slice() != whole.record(index).as_slice() {
            return false;
        }
    }
    true
}

/// Whether two commands left the same records.
pub(crate) fn same_records(first: &Answer, second: &Answer) -> bool {
    first.records.len() == second.records.len() && begin(&first.records, &second.records)
}

/// Whether two answers are the same, with all that stands.
pub(crate) fn are_same(first: &Answer, second: &Answer) -> bool {
    first.status.as_str() == second.status.as_str()
        && first.text.as_slice() == second.text.as_slice()
        && same_records(first, second)
}

/// Behind how many of its acts a command stands, over so many records before it, by what it leaves
/// where nothing fails; none where what it leaves is no front of that.
pub(crate) fn stand_of(acts: &[Act], before: usize, whole: &Answer, now: &Answer) -> Option<usize> {
    let text = whole.text.as_slice();
    if !text.starts_with(now.text.as_slice()) || !begin(&now.records, &whole.records) {
        return None;
    }
    let appended = now.records.len().checked_sub(before)?;
    acts_behind(acts, text, appended, now.text.len())
}
