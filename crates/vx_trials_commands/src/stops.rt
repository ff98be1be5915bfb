//! A count of five blank sheets whose third append fails, and the same count again.

use crate::devices::Failing;
use crate::rows::{Row, assert_row, assert_rows, files_of, make_scan};
use std::process::Abort;
use std::test::Fail;
use std::thread::Threads;
use vx_town::TOWN_HEADER;

/// What stands before the count, behind its second record, behind its third and behind its last.
const NONE: &[&str] = &[TOWN_HEADER];

const TWO: &[&str] = &[
    TOWN_HEADER,
    "1 add b1 1 0 1 precinct 0:cc",
    "1 add b1 2 0 1 precinct 0:cc",
];

const THREE: &[&str] = &[
    TOWN_HEADER,
    "1 add b1 1 0 1 precinct 0:cc",
    "1 add b1 2 0 1 precinct 0:cc",
    "1 add b1 3 0 1 precinct 0:cc",
];

const FIVE: &[&str] = &[
    TOWN_HEADER,
    "1 add b1 1 0 1 precinct 0:cc",
    "1 add b1 2 0 1 precinct 0:cc",
    "1 add b1 3 0 1 precinct 0:cc",
    "1 add b1 4 0 1 precinct 0:cc",
    "1 add b1 5 0 1 precinct 0:cc",
];

/// The lines of the first two sheets.
const LINES: &str =
    "sheet b1 1 added card 0 pages 1 2\nreason b1 1 mayor BlankBallot\nsheet b1 2 added card 0 pages 1 2\nreason b1 2 mayor BlankBallot\n";

/// What the count writes over two records.
const AFTER_TWO: &str =
    "sheet b1 1 repeated\nsheet b1 2 repeated\nsheet b1 3 added card 0 pages 1 2\nreason b1 3 mayor BlankBallot\nsheet b1 4 added card 0 pages 1 2\nreason b1 4 mayor BlankBallot\nsheet b1 5 added card 0 pages 1 2\nreason b1 5 mayor BlankBallot\ncounted 3 added 2 repeated 0 unread\n";

/// What it writes over three.
const AFTER_THREE: &str =
    "sheet b1 1 repeated\nsheet b1 2 repeated\nsheet b1 3 repeated\nsheet b1 4 added card 0 pages 1 2\nreason b1 4 mayor BlankBallot\nsheet b1 5 added card 0 pages 1 2\nreason b1 5 mayor BlankBallot\ncounted 2 added 3 repeated 0 unread\n";

/// A count whose third append fails, so that these stand.
fn stops<'x>(words: &'x [&'x str], stand: &'x [&'x str]) -> Row<'x> {
    Row {
        words,
        before: NONE,
        text: LINES,
        status: "keeper fault",
        after: stand,
    }
}

/// The same count over them.
fn goes_on<'x>(words: &'x [&'x str], stand: &'x [&'x str], text: &'x str) -> Row<'x> {
    Row {
        words,
        before: stand,
        text,
        status: "ok",
        after: FIVE,
    }
}

/// The third append fails, and keeps its record or not. The keeper is asked for the number of its records
/// and for the header before the first.
fn assert_stops<R: Threads + Sync + AllocGlobal + Abort>(
    rt: &R,
    scan: &[u8],
    row: &Row<'_>,
    kept: bool,
) -> Result<(), Fail> {
    let files = files_of(scan, b"");
    let failing = Failing {
        keeps: &[(5, kept)],
        ..Failing::NONE
    };
    assert_row(rt, &files, row, failing)
}

#[test]
fn a_count_that_stopped_goes_on_where_it_stopped(rt: HostRuntime) -> Result<(), Fail> {
    let scan = make_scan(&rt)?;
    for workers in ["1", "2", "64"] {
        let words = ["count", "e", "b1", workers, "s", "s", "s", "s", "s"];
        assert_stops(&rt, scan.as_slice(), &stops(&words, TWO), false)?;
        assert_stops(&rt, scan.as_slice(), &stops(&words, THREE), true)?;
        let again = [
            goes_on(&words, TWO, AFTER_TWO),
            goes_on(&words, THREE, AFTER_THREE),
        ];
        assert_rows(&rt, scan.as_slice(), b"", &again)?;
    }
    Ok(())
}
