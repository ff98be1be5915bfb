//! What the three commands leave.

use crate::failing_trials::EXPORT;
use crate::rows::{BLANK, ONE_SHEET, Row, assert_rows, make_scan};
use std::alloc::{AllocError, Global};
use std::test::Fail;
use vx_town::TOWN_HEADER;

/// What a count of one blank sheet writes.
pub(crate) const ADDED: &str =
    "sheet b1 1 added card 0 pages 1 2\nreason b1 1 mayor BlankBallot\ncounted 1 added 0 repeated 0 unread\n";

/// What the same count writes again.
const REPEATED: &str = "sheet b1 1 repeated\ncounted 0 added 1 repeated 0 unread\n";

/// A journal of another election.
const OTHER: &[&str] = &[
    "1 election 0000000000000000000000000000000000000000000000000000000000000000",
];

/// A script that decides the contest of a blank sheet.
const SCRIPT: &[u8] = b"claim 1 b1 1\nselect 1 b1 1 mayor 1\nrelease 1 b1 1\n";

/// What the script keeps.
const DECIDED: &[&str] = &[
    TOWN_HEADER,
    BLANK,
    "1 claim 1 b1 1",
    "1 select 1 b1 1 0 1",
    "1 release 1 b1 1",
];

/// A count by so many workers, over no record.
fn first_count<'x>(words: &'x [&'x str]) -> Row<'x> {
    Row {
        words,
        before: &[],
        text: ADDED,
        status: "ok",
        after: ONE_SHEET,
    }
}

/// The same count again.
fn second_count<'x>(words: &'x [&'x str]) -> Row<'x> {
    Row {
        words,
        before: ONE_SHEET,
        text: REPEATED,
        status: "ok",
        after: ONE_SHEET,
    }
}

#[test]
fn a_count_is_the_same_with_any_workers(rt: HostRuntime) -> Result<(), Fail> {
    let scan = make_scan(&rt)?;
    for workers in ["1", "2", "64"] {
        let words = ["count", "e", "b1", workers, "s"];
        let rows = [first_count(&words), second_count(&words)];
        assert_rows(&rt, scan.as_slice(), b"", &rows)?;
    }
    Ok(())
}

/// A command that is refused, and leaves its records as they were.
fn refused<'x>(words: &'x [&'x str], before: &'x [&'x str], status: &'x str) -> Row<'x> {
    Row {
        words,
        before,
        text: "",
        status,
        after: before,
    }
}

#[test]
fn a_journal_of_another_election_stays(rt: HostRuntime) -> Result<(), Fail> {
    let scan = make_scan(&rt)?;
    let status = "journal 0 other election";
    let rows = [
        refused(&["count", "e", "b1", "1", "s"], OTHER, status),
        refused(&["decide", "e", "d"], OTHER, status),
        refused(&["queue", "e"], OTHER, status),
        refused(EXPORT, OTHER, status),
        // It is read behind the election, and before the other inputs.
        refused(&["count", "u", "b1", "1", "s"], OTHER, "no input 1"),
        refused(&["queue", "d"], OTHER, "election 1"),
        refused(&["count", "e", "b1", "1", "u"], OTHER, status),
        refused(&["decide", "e", "u"], OTHER, status),
        refused(&["decide", "e", "u"], ONE_SHEET, "no input 2"),
        refused(&["count", "e", "b1", "1", "d"], ONE_SHEET, "pbm 4 1 0"),
    ];
    assert_rows(&rt, scan.as_slice(), SCRIPT, &rows)
}

/// A count of so many scans, none of which is there.
fn count_of(alloc: Global, scans: usize) -> Result<Vec<&'static str>, AllocError> {
    let mut words = Vec::from_slice(alloc, &["count", "e", "b1", "1"])?;
    for _ in 0..scans {
        words.push("u")?;
    }
    Ok(words)
}

#[test]
fn a_count_has_64_scans_at_most(rt: HostRuntime) -> Result<(), Fail> {
    let most = count_of(rt.alloc(), 64)?;
    let more = count_of(rt.alloc(), 65)?;
    let rows = [
        refused(most.as_slice(), ONE_SHEET, "no input 4"),
        refused(more.as_slice(), ONE_SHEET, "usage"),
    ];
    assert_rows(&rt, b"", b"", &rows)
}

/// A script of so many bytes, each of them an empty line.
fn empty_lines(alloc: Global, bytes: usize) -> Result<Vec<u8>, AllocError> {
    let mut script = Vec::new(alloc);
    for _ in 0..bytes {
        script.push(b'\n')?;
    }
    Ok(script)
}

#[test]
fn a_script_has_a_mebibyte_at_most(rt: HostRuntime) -> Result<(), Fail> {
    for (bytes, status) in [(1_048_576, "ok"), (1_048_577, "too long 2 1048577")] {
        let script = empty_lines(rt.alloc(), bytes)?;
        let rows = [refused(&["decide", "e", "d"], ONE_SHEET, status)];
        assert_rows(&rt, b"", script.as_slice(), &rows)?;
    }
    Ok(())
}

/// A script that claims the blank sheet, and then has one line that fills it up to a mebibyte.
fn one_long_line(alloc: Global, front: &[u8]) -> Result<Vec<u8>, AllocError> {
    let mut script = Vec::from_slice(alloc, b"claim 1 b1 1\n")?;
    script.extend_from_slice(front)?;
    for _ in script.len()..1_048_576 {
        script.push(b'x')?;
    }
    Ok(script)
}

#[test]
fn a_line_of_a_mebibyte_is_bad(rt: HostRuntime) -> Result<(), Fail> {
    let row = Row {
        words: &["decide", "e", "d"],
        before: ONE_SHEET,
        text: "line 1 done\n",
        status: "decision line 2 bad",
        after: &[TOWN_HEADER, BLANK, "1 claim 1 b1 1"],
    };
    for front in ["", "name 1 b1 1 mayor 0 text ", "select 1 b1 1 mayor 0 "] {
        let script = one_long_line(rt.alloc(), front.as_bytes())?;
        assert_rows(&rt, b"", script.as_slice(), &[row])?;
    }
    Ok(())
}

#[test]
fn a_contest_waits_until_it_is_decided(rt: HostRuntime) -> Result<(), Fail> {
    let waits = Row {
        words: &["queue", "e"],
        before: ONE_SHEET,
        text: "wait b1 1 mayor BlankBallot holder -\nwaiting 1\n",
        status: "ok",
        after: ONE_SHEET,
    };
    let decides = Row {
        words: &["decide", "e", "d"],
        before: ONE_SHEET,
        text: "line 1 done\nline 2 done\nline 3 done\n",
        status: "ok",
        after: DECIDED,
    };
    let is_decided = Row {
        words: &["queue", "e"],
        before: DECIDED,
        text: "waiting 0\n",
        status: "ok",
        after: DECIDED,
    };
    assert_rows(&rt, b"", SCRIPT, &[waits, decides, is_decided])
}
