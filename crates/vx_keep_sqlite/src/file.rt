ghost use Rattle.std.specs.Prelude.{◌≡◌, Err, IfOk, IsTrue};

use crate::sealed::sealed_records;
use crate::shelf::Shelf;
use crate::table::Table;
use sqlite::{Alter, Connection, Error, ErrorCode, File, FileStore};
use std::alloc::{AllocError, Global};
use std::marker::Model;
use std::rt::HostRuntime;
use vx_base::Bytes;

/// A store that is opened by a path. What stands above is proved for any, since a proof that has the store
/// of a file before it takes its clauses along.
pub(crate) trait Opens: Alter + Drop {
    fn open(rt: &HostRuntime, path: &str) -> Result<Connection<Self>, Error>;
}

impl Opens for FileStore<File> {
    /// Opens the file, or makes it.
    fn open(rt: &HostRuntime, path: &str) -> Result<Connection<FileStore<File>>, Error> {
        Connection::open(rt, path)
    }
}

/// What a journal's file is asked: how many records there are, the record at an index, behind what is
/// there, or to keep one more.
#[derive(Drop)]
pub(crate) enum Act<'a> {
    Count,
    Fetch { index: u64, into: &'a mut Bytes },
    Append { body: &'a [u8] },
}

/// An open file: one that takes records, or the records of one that is only read.
#[derive(Drop)]
pub(crate) enum OpenFile<S: Alter> {
    Kept(Table<S>),
    Sealed(Shelf),
}

/// Opens a file to add records, or makes it.
fn open_kept<S: Opens>(rt: &HostRuntime, path: &str) -> Result<OpenFile<S>, Error> {
    let table = Table::over(S::open(rt, path)?)?;
    Ok(OpenFile::Kept(table))
}

/// Opens the file in the way that it is used.
fn open_at<S: Opens>(rt: &HostRuntime, path: &str, only_reads: bool) -> Result<OpenFile<S>, Error> {
    if only_reads {
        Ok(OpenFile::Sealed(sealed_records(rt, path)?))
    } else {
        open_kept(rt, path)
    }
}

impl<S: Alter> OpenFile<S> {
    /// How many records there are.
    fn count(&self) -> Result<u64, Error> {
        match self {
            OpenFile::Kept(table) => table.count(),
            OpenFile::Sealed(shelf) => shelf.count(),
        }
    }

    /// Copies the record at an index behind what is there.
    fn fetch(&mut self, index: u64, into: &mut Bytes) -> Result<(), Error> {
        match self {
            OpenFile::Kept(table) => table.fetch(index, into),
            OpenFile::Sealed(shelf) => shelf.fetch(index, into),
        }
    }

    /// Adds a record at the end of a file that takes records.
    fn append(&mut self, body: &[u8]) -> Result<(), Error> {
        match self {
            OpenFile::Kept(table) => table.append(body),
            OpenFile::Sealed(_) => Err(Error::SqliteFailure(ErrorCode::CannotOpen)),
        }
    }

    /// Does what is asked; the answer is a count, or 0.
    fn act(&mut self, act: Act<'_>) -> Result<u64, Error> {
        match act {
            Act::Count => self.count(),
            Act::Fetch { index, into } => zero(self.fetch(index, into)),
            Act::Append { body } => zero(self.append(body)),
        }
    }
}

/// The answer of an act that counts nothing.
fn zero(done: Result<(), Error>) -> Result<u64, Error> {
    match done {
        Ok(()) => Ok(0),
        Err(error) => Err(error),
    }
}

/// The file that is open, which is opened, or made, at the first call.
fn opened<'t, S: Opens>(
    rt: &HostRuntime,
    path: &str,
    only_reads: bool,
    open: &'t mut Option<OpenFile<S>>,
) -> Result<&'t mut OpenFile<S>, Error> {
    if open.is_none() {
        *open = Some(open_at(rt, path, only_reads)?);
    }
    open.as_mut()
        .ok_or(Error::SqliteFailure(ErrorCode::CannotOpen))
}

/// The path that a journal's file was made with. No call is handed one, so each is about that one.
#[derive(Drop)]
pub(crate) struct FilePath {
    path: String,
}

impl Model for FilePath {
    ghost use Rattle.std.specs.Prelude.{List, ℕ, string_bytes};

    ghost Value = { List ℕ };

    ghost view = { λ file. string_bytes file.path };
}

impl FilePath {
    /// A copy of a path. It takes memory for that alone.
    pub(crate) fn new(alloc: Global, path: &str) -> Result<FilePath, AllocError>
        ensures { IfOk result (λ file. file ≡ path.now) }
    {
        Ok(FilePath {
            path: String::from_str(alloc, path)?,
        })
    }

    fn as_str(&self) -> &str {
        self.path.as_str()
    }
}

/// The journal's file: its path, and what is open of it.
#[derive(Drop)]
pub(crate) struct JournalFile<S: Alter> {
    pub(crate) path: FilePath,
    pub(crate) open: Option<OpenFile<S>>,
}

impl<S: Alter> Model for JournalFile<S> {
    ghost use Rattle.std.specs.Prelude.{List, ℕ};

    ghost Value = { List ℕ };

    ghost view = { λ file. file.path };
}

impl<S: Opens> JournalFile<S> {
    /// Does what is asked; the answer is a count, or 0. The file is opened at the first call.
    pub(crate) fn act(
        &mut self,
        rt: &HostRuntime,
        only_reads: bool,
        act: Act<'_>,
    ) -> Result<u64, Error>
        ensures path { self.new ≡ self.old }
    {
        opened(rt, self.path.as_str(), only_reads, &mut self.open)?.act(act)
    }
}
