//! What `center` refuses: nothing is written then, and nothing appended.

use crate::centers::{DEVICE, MOMENT, ONE_SHEET, assert_left, center, files_of};
use crate::devices::Failing;
use crate::trial_gates::TrialGate;
use std::alloc::{AllocError, Global};
use std::process::Abort;
use std::sync::Wait;
use std::test::Fail;
use std::thread::Threads;
use vx_town::records_of;

/// A journal of another election.
const OTHERS: &[&str] = &[
    "1 election 0000000000000000000000000000000000000000000000000000000000000000",
];

/// Words, with `M` and `D` for a moment and a device, and the status.
const ROWS: &str = "center -> usage
center e M D -> usage
center e D M script:b -> usage
queue e -> usage
center -e M D script:b -> usage
center e 2024-02-30T00:00:00Z D script:b -> usage
center e M D  -> usage
center e M D b -> usage
center e M D script: -> usage
center e M D Script:b -> usage
center e M D scan:a -> usage
center e M D scan:b1: -> usage
center e M D scan::a -> usage
center e M D scan:b.1:a -> usage
center e M D script:b -script:b -> usage
center u M D script:u -> no input 1
center y M D script:u -> election 1
center e M D script:b scan:b1:u -> no input 5
center e M D scan:b1:b1:a -> no input 4
center e M D script::a -> no input 4
center e M D script:l -> too long 4 1048577
center e M D script:b scan:b1:x -> pbm 5 1 0
center e M D script:u script:y scan:b1:x -> no input 4
center e M D script:y scan:b1:x script:u -> decision line 2 bad
center e M D scan:b1:x script:u script:y -> pbm 4 1 0";

/// A `center` over these records is refused so, and leaves them as they were.
fn assert_refused<R: Threads + Wait + Sync + AllocGlobal + Abort>(
    rt: &R,
    script: &[u8],
    words: &[&str],
    before: &[&str],
    status: &str,
) -> Result<(), Fail> {
    let files = files_of(b"", script);
    let answer = center(rt, &files, before, words, Failing::NONE, &TrialGate::open())?;
    let records = records_of(rt.alloc(), before)?;
    assert_left(rt, &answer, status, b"", &records, before.len(), words);
    Ok(())
}

/// A word of a row.
fn word_of(word: &str) -> &str {
    if word == "M" {
        MOMENT
    } else if word == "D" {
        DEVICE
    } else {
        word
    }
}

/// The words of a row.
fn words_in<'x>(alloc: Global, row: &'x str) -> Result<Vec<&'x str>, AllocError> {
    let mut words = Vec::new(alloc);
    for word in row.split(' ') {
        words.push(word_of(word))?;
    }
    Ok(words)
}

/// The words of a `center` that has one item so many times.
fn words_with(
    alloc: Global,
    item: &'static str,
    times: usize,
) -> Result<Vec<&'static str>, AllocError> {
    let mut words = Vec::from_slice(alloc, &["center", "e", MOMENT, DEVICE])?;
    for _ in 0..times {
        words.push(item)?;
    }
    Ok(words)
}

/// A script of the same line so many times.
fn script_of(alloc: Global, line: &[u8], times: usize) -> Result<Vec<u8>, AllocError> {
    let mut script = Vec::new(alloc);
    for _ in 0..times {
        script.extend_from_slice(line)?;
    }
    Ok(script)
}

#[test]
fn what_is_refused_leaves_nothing(rt: HostRuntime) -> Result<(), Fail> {
    let long = script_of(rt.alloc(), b"\n", 1_048_577)?;
    let journals: [&[&str]; 2] = [&[], ONE_SHEET];
    for row in ROWS.lines() {
        let (line, status) = row.split_once(" -> ").ok_or("a row")?;
        let words = words_in(rt.alloc(), line)?;
        for before in journals {
            assert_refused(&rt, long.as_slice(), words.as_slice(), before, status)?;
        }
    }
    assert_refused(&rt, b"", &[], ONE_SHEET, "usage")?;
    // The journal is read behind the election, and before the items.
    let words = ["center", "e", MOMENT, DEVICE, "script:u"];
    assert_refused(&rt, b"", &words, OTHERS, "journal 0 other election")
}

#[test]
fn a_center_has_16_items_at_most(rt: HostRuntime) -> Result<(), Fail> {
    for (items, status) in [(16, "no input 4"), (17, "usage")] {
        let words = words_with(rt.alloc(), "script:u", items)?;
        assert_refused(&rt, b"", words.as_slice(), ONE_SHEET, status)?;
    }
    Ok(())
}

#[test]
fn twelve_of_the_longest_scripts_may_have_too_many_events(rt: HostRuntime) -> Result<(), Fail> {
    let script = script_of(rt.alloc(), b"claim 1 b 1\n", 87_381)?;
    let words = words_with(rt.alloc(), "script:l", 12)?;
    let status = "too many events 15 1048572";
    assert_refused(&rt, script.as_slice(), words.as_slice(), ONE_SHEET, status)
}
