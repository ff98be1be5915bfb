//! Counts with a journal in a file and with one in memory, as the program does them.

use crate::files::{Paths, remove_files, write_files};
use crate::runs::{count, run_named};
use sqlite::types::ValueRef;
use sqlite::{Connection, File, FileStore, params};
use std::fs;
use std::process::Abort;
use std::rt::HostRuntime;
use std::sync::Wait;
use std::test::Fail;
use std::thread::Threads;
use vx_town::TOWN_HEADER;

/// The rows of a journal of which two runs counted the town's blank sheet, as two batches.
const ROWS: [(i64, &str); 3] = [
    (0, TOWN_HEADER),
    (1, "1 add b1 1 0 1 precinct 0:cc"),
    (2, "1 add b2 1 0 1 precinct 0:cc"),
];

/// The row in a place is this one, as SQLite reads the file.
fn assert_row<R: Abort>(
    rt: &R,
    connection: &mut Connection<FileStore<File>>,
    place: i64,
    expected: &str,
) -> Result<(), Fail> {
    let row = connection
        .query_row("SELECT body FROM journal WHERE place = ?1", params![place])
        .map_err(|_| "there is no such row")?;
    match row.get_ref(0).map_err(|_| "it has no body")? {
        ValueRef::Blob(body) => assert_eq!(rt; body, expected.as_bytes()),
        _ => return Err(Fail::from("it isn't a blob")),
    }
    Ok(())
}

/// The file has exactly the rows.
fn assert_rows<R: Abort>(host: &HostRuntime, rt: &R, journal: &str) -> Result<(), Fail> {
    let mut connection = Connection::open(host, journal).map_err(|_| "the file isn't opened")?;
    for (place, expected) in ROWS {
        assert_row(rt, &mut connection, place, expected)?;
    }
    let more = connection.query_row("SELECT body FROM journal WHERE place > 2", &[]);
    assert!(rt; more.is_err());
    Ok(())
}

/// Counts two batches into the journal's file, one run after the other.
pub(crate) fn count_two<R: Threads + Wait + Sync + Abort>(
    host: &HostRuntime,
    rt: &R,
    paths: &Paths,
) -> Result<(), Fail> {
    let journal = paths.journal.as_str();
    assert_eq!(rt; count(host, rt, paths, journal, "b1")?, 0);
    assert_eq!(rt; count(host, rt, paths, journal, "b2")?, 0);
    Ok(())
}

/// A `queue` of a journal that isn't there, and a count with a journal in memory.
fn make_none<R: Threads + Wait + Sync + Abort>(
    host: &HostRuntime,
    rt: &R,
    paths: &Paths,
) -> Result<(), Fail> {
    let queue = run_named(host, rt, paths, "queue")?;
    assert!(rt; queue.is(0, "waiting 0\n"));
    assert_eq!(rt; count(host, rt, paths, "-", "b1")?, 0);
    Ok(())
}

/// What a run counts into a file the next one finds, and SQLite reads it as it was kept. A `queue` of a
/// journal that isn't there makes no file, and neither does a count with a journal in memory.
#[test]
fn counts_stand_in_the_file_that_was_named(rt: HostRuntime) -> Result<(), Fail> {
    let paths = write_files(&rt, "counts")?;
    make_none(&rt, &rt, &paths)?;
    assert_eq!(rt; fs::exists(&rt, paths.journal.as_str())?, false);
    assert_eq!(rt; fs::exists(&rt, "-")?, false);
    count_two(&rt, &rt, &paths)?;
    assert_rows(&rt, &rt, paths.journal.as_str())?;
    remove_files(&rt, &paths)
}
