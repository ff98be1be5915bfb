//! Journals that may not be written, in a folder that may not.

use crate::files::{Paths, give_leave, log_of, remove_files, set_modes, write_files};
use crate::journals::count_two;
use crate::reading::WAIT;
use crate::runs::run_named;
use sqlite::Connection;
use std::fs;
use std::process::Abort;
use std::rt::HostRuntime;
use std::sync::Wait;
use std::test::Fail;
use std::thread::Threads;

/// A `queue` of the sealed journal tells both sheets.
fn assert_tells<R: Threads + Wait + Sync + Abort>(
    host: &HostRuntime,
    rt: &R,
    paths: &Paths,
) -> Result<(), Fail> {
    set_modes(host, paths, 0o444, 0o555)?;
    let queue = run_named(host, rt, paths, "queue")?;
    give_leave(host, paths)?;
    assert!(rt; queue.is(0, WAIT));
    Ok(())
}

/// With its log; both have the same bytes afterwards.
fn assert_with_log<R: Threads + Wait + Sync + Abort>(
    host: &HostRuntime,
    rt: &R,
    paths: &Paths,
) -> Result<(), Fail> {
    let log = log_of(host, paths)?;
    let file_before = fs::read(host, paths.journal.as_str())?;
    let log_before = fs::read(host, log.as_str())?;
    assert_tells(host, rt, paths)?;
    assert!(rt; fs::read(host, paths.journal.as_str())?.as_slice() == file_before.as_slice());
    assert!(rt; fs::read(host, log.as_str())?.as_slice() == log_before.as_slice());
    Ok(())
}

/// Copies the log into the file, and removes it.
fn remove_log(host: &HostRuntime, paths: &Paths) -> Result<(), Fail> {
    let connection = Connection::open(host, paths.journal.as_str()).map_err(
        |_| "the file isn't opened",
    )?;
    connection.close().map_err(|_| "the log isn't copied")?;
    let log = log_of(host, paths)?;
    Ok(fs::remove_file(host, log.as_str())?)
}

/// Without one; none is made, and the file has the same bytes afterwards.
fn assert_without_log<R: Threads + Wait + Sync + Abort>(
    host: &HostRuntime,
    rt: &R,
    paths: &Paths,
) -> Result<(), Fail> {
    let log = log_of(host, paths)?;
    let file_before = fs::read(host, paths.journal.as_str())?;
    assert_tells(host, rt, paths)?;
    assert!(rt; fs::read(host, paths.journal.as_str())?.as_slice() == file_before.as_slice());
    assert_eq!(rt; fs::exists(host, log.as_str())?, false);
    Ok(())
}

/// A sealed journal is read, and nothing is written to it or beside it.
#[test]
fn sealed_journals_are_read(rt: HostRuntime) -> Result<(), Fail> {
    let paths = write_files(&rt, "sealed")?;
    count_two(&rt, &rt, &paths)?;
    assert_with_log(&rt, &rt, &paths)?;
    remove_log(&rt, &paths)?;
    assert_without_log(&rt, &rt, &paths)?;
    remove_files(&rt, &paths)
}
