//! The keeper of a file by itself: records that one appended are told by another.

use std::process::Abort;
use std::rt::HostRuntime;
use std::test::Fail;
use std::{env, fs, process};
use vx_base::Bytes;
use vx_io::{Keeper, KeeperError};
use vx_keep_sqlite::SqliteKeeper;

/// The records of these tests.
const BODIES: [&str; 3] = ["1 claim 7 b1 1", "", "1 name 7 b1 1 0 2 text Zo\u{eb}"];

/// The path of a journal that isn't there yet.
fn file_of(rt: &HostRuntime) -> Result<String, Fail> {
    let folder = env::temp_dir(rt)?;
    let number = process::id(rt.process());
    Ok(format!(in rt.alloc(); "{}/vx_keep_sqlite_{number}", folder.as_str())?)
}

/// Appends the records.
fn append_all(rt: &HostRuntime, file: &str) -> Result<(), Fail> {
    let mut keeper = SqliteKeeper::new(rt, file)?;
    for body in BODIES {
        keeper.append(body.as_bytes()).map_err(|_| "it isn't kept")?;
    }
    Ok(())
}

/// A keeper tells each record.
fn assert_records<R: Abort + AllocGlobal>(rt: &R, keeper: &mut SqliteKeeper<'_>) {
    let mut record = Bytes::new(rt.alloc());
    for at in 0..3 {
        assert_eq!(rt; keeper.fetch(at, &mut record), Ok(()));
        assert_eq!(rt; record.as_slice(), BODIES[at as usize].as_bytes());
    }
}

/// Behind its last record a keeper has failed.
fn assert_fails<R: Abort + AllocGlobal>(rt: &R, keeper: &mut SqliteKeeper<'_>) {
    let mut record = Bytes::new(rt.alloc());
    assert_eq!(rt; keeper.fetch(3, &mut record), Err(KeeperError::Failed));
    assert_eq!(rt; record.len(), 0);
    assert_eq!(rt; keeper.count(), Err(KeeperError::Failed));
}

/// Removes the file and its log.
fn remove(rt: &HostRuntime, file: &str) -> Result<(), Fail> {
    let log = format!(in rt.alloc(); "{file}-wal")?;
    fs::remove_file(rt, log.as_str())?;
    Ok(fs::remove_file(rt, file)?)
}

/// Records that were appended are found by another keeper on the same file, also where the first
/// one just ended.
#[test]
fn records_stand_in_the_file(rt: HostRuntime) -> Result<(), Fail> {
    let file = file_of(&rt)?;
    append_all(&rt, file.as_str())?;
    let mut again = SqliteKeeper::new(&rt, file.as_str())?;
    assert_eq!(rt; again.count(), Ok(3));
    assert_records(&rt, &mut again);
    assert_fails(&rt, &mut again);
    remove(&rt, file.as_str())
}
