//! Commands over the town's election, with what each leaves.

use crate::devices::{Answer, Failing, Held, attempt};
use std::alloc::{AllocError, Global};
use std::process::Abort;
use std::test::Fail;
use std::thread::Threads;
use vx_io::Records;
use vx_town::{TOWN, TOWN_HEADER, records_of};

/// The record of a blank sheet.
pub(crate) const BLANK: &str = "1 add b1 1 0 1 precinct 0:cc";

/// A journal with a blank sheet.
pub(crate) const ONE_SHEET: &[&str] = &[TOWN_HEADER, BLANK];

/// A command, the records before it, and its text, its status and the records behind it.
#[derive(Clone, Copy)]
pub(crate) struct Row<'a> {
    pub(crate) words: &'a [&'a str],
    pub(crate) before: &'a [&'a str],
    pub(crate) text: &'a str,
    pub(crate) status: &'a str,
    pub(crate) after: &'a [&'a str],
}

/// The town's election, a scan and a script, as `e`, `s` and `d`.
pub(crate) fn files_of<'x>(scan: &'x [u8], script: &'x [u8]) -> [(&'x str, &'x [u8]); 3] {
    [("e", TOWN.as_bytes()), ("s", scan), ("d", script)]
}

/// Prints the town's card over records.
fn print_over<R: Threads + Sync + AllocGlobal>(
    rt: &R,
    records: &Records,
) -> Result<Answer, AllocError> {
    let files = files_of(b"", b"");
    let held = Held {
        files: &files,
        records,
    };
    attempt(rt, held, &["print", "e", "0", "precinct"], Failing::NONE)
}

/// Both pages of the town's card, by its own `print`.
pub(crate) fn make_scan<R: Threads + Sync + AllocGlobal>(rt: &R) -> Result<Vec<u8>, Fail> {
    let none = Records::new(rt.alloc());
    Ok(print_over(rt, &none)?.text)
}

/// Adds bytes as characters.
fn push_bytes(text: &mut String, bytes: &[u8]) -> Result<(), AllocError> {
    for byte in bytes {
        text.push(char::from(*byte))?;
    }
    Ok(())
}

/// A text, a status and records as one text.
pub(crate) fn told(
    alloc: Global,
    text: &[u8],
    status: &str,
    records: &Records,
) -> Result<String, AllocError> {
    let mut told = String::new(alloc);
    push_bytes(&mut told, text)?;
    told.push_str(status)?;
    for index in 0..records.len() {
        told.push('\n')?;
        push_bytes(&mut told, records.record(index).as_slice())?;
    }
    Ok(told)
}

/// What a row says as one text.
fn told_of_row(alloc: Global, row: &Row<'_>) -> Result<String, AllocError> {
    let after = records_of(alloc, row.after)?;
    told(alloc, row.text.as_bytes(), row.status, &after)
}

/// An answer as one text.
fn told_of(alloc: Global, answer: &Answer) -> Result<String, AllocError> {
    let status = answer.status.as_str();
    told(alloc, answer.text.as_slice(), status, &answer.records)
}

/// A command ended so, and left such records.
pub(crate) fn assert_told<R: AllocGlobal + Abort>(
    rt: &R,
    row: &Row<'_>,
    answer: &Answer,
) -> Result<(), Fail> {
    let expected = told_of_row(rt.alloc(), row)?;
    let left = told_of(rt.alloc(), answer)?;
    assert_eq!(rt; left.as_str(), expected.as_str(), "{:?}", row.words);
    Ok(())
}

/// A command over files, while calls fail, leaves what its row says.
pub(crate) fn assert_row<R: Threads + Sync + AllocGlobal + Abort>(
    rt: &R,
    files: &[(&str, &[u8])],
    row: &Row<'_>,
    failing: Failing<'_>,
) -> Result<(), Fail> {
    let records = records_of(rt.alloc(), row.before)?;
    let held = Held {
        files,
        records: &records,
    };
    let answer = attempt(rt, held, row.words, failing)?;
    assert_told(rt, row, &answer)
}

/// Each command leaves what its row says.
pub(crate) fn assert_rows<R: Threads + Sync + AllocGlobal + Abort>(
    rt: &R,
    scan: &[u8],
    script: &[u8],
    rows: &[Row<'_>],
) -> Result<(), Fail> {
    let files = files_of(scan, script);
    for row in rows {
        assert_row(rt, &files, row, Failing::NONE)?;
    }
    Ok(())
}
