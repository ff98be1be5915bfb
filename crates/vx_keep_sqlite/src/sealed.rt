//! A journal's file and its log as they stand, read into memory: nothing is written to them or beside
//! them, so they may lie where nothing can be written.

ghost use Rattle.std.specs.Prelude.{◌≡◌, ◌<◌, ◌≤◌, length, IsTrue, IfOk};
ghost use Rattle.sqlite_disk.specs.Disk.{Holds};
ghost use Rattle.sqlite_disk.specs.Memory.{memory_bytes, memory_is_usable};
ghost use Rattle.vx_keep_sqlite.specs.Sealed as told;

use crate::shelf::Shelf;
use sqlite::{Connection, Error, ErrorCode, FileStore, Files, Options};
use sqlite_disk::{Disk, Memory};
use std::alloc::Global;
use std::io::ErrorKind;
use std::os::unix::fs::MetadataExt;
use std::path::PathBuf;
use std::rt::HostRuntime;
use std::{fs, io};

const CANNOT_OPEN: Error = Error::SqliteFailure(ErrorCode::CannotOpen);

const NO_MEMORY: Error = Error::SqliteFailure(ErrorCode::OutOfMemory);

/// What the system's answer about a file is told as.
fn system_told<T>(answer: io::Result<T>) -> Result<T, Error>
    ensures { result ≡ told.system_told answer }
{
    match answer {
        Ok(value) => Ok(value),
        Err(error) if error.kind() == ErrorKind::OutOfMemory => Err(NO_MEMORY),
        Err(_) => Err(CANNOT_OPEN),
    }
}

/// The same of a file that may be missing.
fn found_told<T>(answer: io::Result<T>) -> Result<Option<T>, Error>
    ensures { result ≡ told.found_told answer }
{
    match answer {
        Ok(value) => Ok(Some(value)),
        Err(error) if error.kind() == ErrorKind::NotFound => Ok(None),
        Err(error) if error.kind() == ErrorKind::OutOfMemory => Err(NO_MEMORY),
        Err(_) => Err(CANNOT_OPEN),
    }
}

/// The path with no link in it: the log lies beside the file itself. SQLite's names for what is no file
/// are refused.
fn real_path(rt: &HostRuntime, path: &str) -> Result<PathBuf, Error> {
    if path == ":memory:" || path.starts_with("file:") {
        return Err(CANNOT_OPEN);
    }
    system_told(fs::canonicalize(rt, path))
}

/// Refuses all but a regular file with one name: the log of another name would be missed.
fn check_alone(rt: &HostRuntime, path: &str) -> Result<(), Error> {
    let found = system_told(fs::symlink_metadata(rt, path))?;
    if found.is_file() && found.nlink() == 1 {
        Ok(())
    } else {
        Err(CANNOT_OPEN)
    }
}

/// The bytes of a regular file beside the journal, none where it isn't there.
fn bytes_beside(rt: &HostRuntime, path: &str) -> Result<Vec<u8>, Error> {
    match found_told(fs::symlink_metadata(rt, path))? {
        None => Ok(Vec::new(rt.alloc())),
        Some(found) if found.is_file() => system_told(fs::read(rt, path)),
        Some(_) => Err(CANNOT_OPEN),
    }
}

/// Refuses a file beside which SQLite left a rollback journal, which only it can play back.
fn check_settled(rt: &HostRuntime, real: &str) -> Result<(), Error> {
    let name = format!(in rt.alloc(); "{real}-journal")?;
    let journal = bytes_beside(rt, name.as_str())?;
    if journal.is_empty() || journal[0] == 0 {
        Ok(())
    } else {
        Err(CANNOT_OPEN)
    }
}

/// A disk in memory that holds these bytes.
fn disk_of(alloc: Global, bytes: &[u8]) -> Result<Memory, Error>
    ensures usable { IfOk result (λ disk. IsTrue (memory_is_usable disk)) }
    ensures holds { IfOk result (λ disk. 0 < length bytes.now → Holds (memory_bytes disk) 0 bytes.now) }
    ensures no_longer { IfOk result (λ disk. length (memory_bytes disk) ≤ length bytes.now) }
{
    let mut disk = Memory::new(alloc);
    system_told(disk.write_at(0, bytes))?;
    Ok(disk)
}

/// The bytes of the log beside the file.
fn log_at(rt: &HostRuntime, real: &str) -> Result<Vec<u8>, Error> {
    let name = format!(in rt.alloc(); "{real}-wal")?;
    bytes_beside(rt, name.as_str())
}

/// The file itself.
fn file_at(rt: &HostRuntime, real: &str) -> Result<Memory, Error>
    ensures { IfOk result (λ disk. IsTrue (memory_is_usable disk)) }
{
    let bytes = system_told(fs::read(rt, real))?;
    disk_of(rt.alloc(), bytes.as_slice())
}

/// The file, if the log beside it is still this one when it has been read.
fn file_beside(rt: &HostRuntime, real: &str, log: &[u8]) -> Result<Memory, Error>
    ensures { IfOk result (λ disk. IsTrue (memory_is_usable disk)) }
{
    let db = file_at(rt, real)?;
    let now = log_at(rt, real)?;
    if now.as_slice() == log {
        Ok(db)
    } else {
        Err(Error::SqliteFailure(ErrorCode::DatabaseBusy))
    }
}

/// Both as they were at one moment. While the log stays as it is nothing comes into the file but what
/// the log has; a log that grew or was begun anew meanwhile is told.
fn both_at(rt: &HostRuntime, real: &str) -> Result<Files<Memory>, Error>
    ensures log { IfOk result (λ files. IsTrue (memory_is_usable files.log)) }
    ensures db { IfOk result (λ files. IsTrue (memory_is_usable files.db)) }
{
    check_alone(rt, real)?;
    check_settled(rt, real)?;
    let bytes = log_at(rt, real)?;
    let db = file_beside(rt, real, bytes.as_slice())?;
    let log = disk_of(rt.alloc(), bytes.as_slice())?;
    Ok(Files { log, db })
}

/// A connection to the database that the file and its log hold. What it writes stays in memory.
fn open_sealed(rt: &HostRuntime, path: &str) -> Result<Connection<FileStore<Memory>>, Error> {
    let real = real_path(rt, path)?;
    let files = both_at(rt, real.as_str())?;
    match Connection::open_files(rt.alloc(), files, Options::new(0)) {
        Ok(connection) => Ok(connection),
        Err((error, _left)) => Err(error),
    }
}

/// The records that the file and its log hold.
pub(crate) fn sealed_records(rt: &HostRuntime, path: &str) -> Result<Shelf, Error> {
    let connection = open_sealed(rt, path)?;
    Shelf::over(rt.alloc(), connection)
}
