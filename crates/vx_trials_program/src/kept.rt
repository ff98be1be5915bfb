//! The keeper of a file over real files: what is told as kept, and what isn't.

use crate::files::{Paths, log_of, remove_files, write_files};
use sqlite::Connection;
use std::fs;
use std::rt::HostRuntime;
use std::test::*;
use vx_base::Bytes;
use vx_io::{Keeper, KeeperError};
use vx_keep_sqlite::SqliteKeeper;

/// Makes a journal whose only record stands in the second place.
fn make_with_gap(rt: &HostRuntime, paths: &Paths) -> Result<(), Fail> {
    let mut connection = Connection::open(rt, paths.journal.as_str()).map_err(
        |_| "the file isn't opened",
    )?;
    let made = connection.execute_batch(
        "CREATE TABLE journal (place INTEGER PRIMARY KEY, body BLOB NOT NULL); INSERT INTO journal (place, body) VALUES (1, x'61')",
    );
    Ok(made.map_err(|_| "the table isn't made")?)
}

/// A record whose place is taken isn't told as kept.
#[test]
fn a_taken_place_is_refused(rt: HostRuntime) -> Result<(), Fail> {
    let paths = write_files(&rt, "taken")?;
    make_with_gap(&rt, &paths)?;
    let mut keeper = SqliteKeeper::new(&rt, paths.journal.as_str())?;
    assert!(rt; keeper.count() == Ok(1));
    assert!(rt; keeper.append(b"b") == Err(KeeperError::Failed));
    remove_files(&rt, &paths)
}

/// Copies the files as they lie on the disk while the keeper has them open, which is what is left of them where
/// the process is killed.
fn copy_files(rt: &HostRuntime, paths: &Paths) -> Result<String, Fail> {
    let copy = format!(in rt.alloc(); "{}-copy", paths.journal.as_str())?;
    let log = format!(in rt.alloc(); "{}-wal", copy.as_str())?;
    fs::copy(rt, paths.journal.as_str(), copy.as_str())?;
    fs::copy(rt, log_of(rt, paths)?.as_str(), log.as_str())?;
    Ok(copy)
}

/// The file has these two records, and takes none where it is only read.
fn assert_two<R: std::process::Abort>(host: &HostRuntime, rt: &R, path: &str) -> Result<(), Fail> {
    let mut keeper = SqliteKeeper::reading(host, path)?;
    let mut body = Bytes::new(host.alloc());
    assert!(rt; keeper.count() == Ok(2));
    assert!(rt; keeper.fetch(1, &mut body) == Ok(()));
    assert_eq!(rt; body.as_slice(), b"second".as_slice());
    assert!(rt; keeper.append(b"third") == Err(KeeperError::Failed));
    Ok(())
}

/// A record that is told as kept lies on the disk: another one reads it, though the keeper isn't let go.
#[test]
fn a_record_that_is_told_as_kept_is_on_the_disk(rt: HostRuntime) -> Result<(), Fail> {
    let paths = write_files(&rt, "told")?;
    let mut keeper = SqliteKeeper::new(&rt, paths.journal.as_str())?;
    assert!(rt; keeper.append(b"first") == Ok(()));
    assert!(rt; keeper.append(b"second") == Ok(()));
    let copy = copy_files(&rt, &paths)?;
    assert_two(&rt, &rt, copy.as_str())?;
    assert!(rt; keeper.count() == Ok(2));
    remove_files(&rt, &paths)
}
