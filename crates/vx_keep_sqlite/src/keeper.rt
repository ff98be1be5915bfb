ghost use Rattle.std.specs.Prelude.{◌≡◌, ◌<◌, [], None, Err, IfOk, IsTrue, OnOk, OnErr, nat_lt, true, false, if◌then◌else◌};
ghost use Rattle.vx_io.specs.Fakes.{raised};
ghost use Rattle.vx_io.specs.Keeping.{has_failed};
ghost use Rattle.vx_io.specs.Outside.{Appends, CountsFaults, IsCountOf, IsRecordAt, MayAppend};

use crate::file::{Act, FilePath, JournalFile};
use crate::refusal::told;
use sqlite::{File, FileStore};
use std::alloc::AllocError;
use std::marker::Model;
use std::rt::HostRuntime;
use vx_base::Bytes;
use vx_io::{Keeper, KeeperError, count_fault};

/// A journal in a file that SQLite reads. It tells nothing of its records; it keeps to the path that it
/// was made with, and counts its faults: after the first each later call is one more.
#[derive(Drop)]
pub struct SqliteKeeper<'r> {
    rt: &'r HostRuntime,
    file: JournalFile<FileStore<File>>,
    only_reads: bool,
    faults: u64,
}

impl<'r> Model for SqliteKeeper<'r> {
    ghost use Rattle.vx_keep_sqlite.specs.OnFile.{OnFile};

    ghost Value = { OnFile };

    ghost view = { λ keeper. record { file = record { path = keeper.file; only_reads = keeper.only_reads }; faults = keeper.faults } };
}

impl<'r> SqliteKeeper<'r> {
    /// The keeper of the file at a path, which is opened, or made, at the first call. It takes memory for
    /// the path alone.
    pub fn new(rt: &'r HostRuntime, path: &str) -> Result<SqliteKeeper<'r>, AllocError>
        ensures { IfOk result (λ keeper. keeper ≡ record { file = record { path = path.now; only_reads = false }; faults = 0 }) }
    {
        SqliteKeeper::at(rt, path, false)
    }

    /// The keeper of a file that is only read: neither it nor its log is written, and none is made. It
    /// takes no record.
    pub fn reading(rt: &'r HostRuntime, path: &str) -> Result<SqliteKeeper<'r>, AllocError>
        ensures { IfOk result (λ keeper. keeper ≡ record { file = record { path = path.now; only_reads = true }; faults = 0 }) }
    {
        SqliteKeeper::at(rt, path, true)
    }

    /// The keeper is put together here: a call that is generic in the store has its clauses taken along.
    fn at(rt: &'r HostRuntime, path: &str, only_reads: bool) -> Result<SqliteKeeper<'r>, AllocError>
        ensures { IfOk result (λ keeper. keeper ≡ record { file = record { path = path.now; only_reads = only_reads }; faults = 0 }) }
    {
        Ok(SqliteKeeper {
            rt,
            file: JournalFile {
                path: FilePath::new(rt.alloc(), path)?,
                open: None,
            },
            only_reads,
            faults: 0,
        })
    }

    /// Whether there was a fault, after which the file isn't used again.
    fn has_given_up(&self) -> bool
        ensures { result ≡ nat_lt 0 self.now.faults }
    {
        self.faults > 0
    }

    /// Asks the file, unless there was a fault before, and counts one. No other call names the store of a
    /// file, whose clauses make a proof dear.
    fn act(&mut self, act: Act<'_>) -> Result<u64, KeeperError>
        ensures cause { CountsFaults (has_failed result) self.old.faults self.new.faults }
        ensures counted { self.new.faults ≡ (if has_failed result then raised self.old.faults else self.old.faults) }
        ensures given_up { 0 < self.old.faults → result ≡ Err KeeperError.Failed }
        ensures path { self.new.file ≡ self.old.file }
    {
        let done = if self.has_given_up() {
            Err(KeeperError::Failed)
        } else {
            told(self.file.act(self.rt, self.only_reads, act))
        };
        count_fault(&mut self.faults, done == Err(KeeperError::Failed));
        done
    }

    /// Refuses a record of a journal that is only read, which is a fault.
    fn refuse(&mut self) -> Result<(), KeeperError>
        ensures failed { result ≡ Err KeeperError.Failed }
        ensures cause { CountsFaults (has_failed result) self.old.faults self.new.faults }
        ensures counted { self.new.faults ≡ raised self.old.faults }
        ensures path { self.new.file ≡ self.old.file }
    {
        count_fault(&mut self.faults, true);
        Err(KeeperError::Failed)
    }
}

/// Lets a keeper go. That this is safe is proved here; a crate that calls it needn't prove it again.
pub fn drop_keeper(_keeper: SqliteKeeper<'_>) {}

impl Keeper for SqliteKeeper<'_> {
    ghost held = { λ _. None };

    ghost faults = { λ keeper. keeper.faults };

    fn count(&mut self) -> Result<u64, KeeperError>
        ensures count { IfOk result (IsCountOf None) }
        ensures cause { CountsFaults (has_failed result) self.old.faults self.new.faults }
        ensures counted { self.new.faults ≡ (if has_failed result then raised self.old.faults else self.old.faults) }
        ensures given_up { 0 < self.old.faults → result ≡ Err KeeperError.Failed }
        ensures path { self.new.file ≡ self.old.file }
    {
        self.act(Act::Count)
    }

    fn fetch(&mut self, index: u64, into: &mut Bytes) -> Result<(), KeeperError>
        ensures fetched { OnOk result (IsRecordAt None index into.new) }
        ensures refused { OnErr result (into.new ≡ []) }
        ensures cause { CountsFaults (has_failed result) self.old.faults self.new.faults }
        ensures counted { self.new.faults ≡ (if has_failed result then raised self.old.faults else self.old.faults) }
        ensures given_up { 0 < self.old.faults → result ≡ Err KeeperError.Failed }
        ensures path { self.new.file ≡ self.old.file }
    {
        into.clear();
        match self.act(Act::Fetch { index, into }) {
            Ok(_) => Ok(()),
            Err(refused) => {
                into.clear();
                Err(refused)
            }
        }
    }

    fn append(&mut self, body: &[u8]) -> Result<(), KeeperError>
        ensures appended { OnOk result (Appends None None body.now) }
        ensures failed { result ≡ Err KeeperError.Failed → MayAppend None None body.now }
        ensures sealed { IsTrue self.old.file.only_reads → result ≡ Err KeeperError.Failed }
        ensures cause { CountsFaults (has_failed result) self.old.faults self.new.faults }
        ensures counted { self.new.faults ≡ (if has_failed result then raised self.old.faults else self.old.faults) }
        ensures given_up { 0 < self.old.faults → result ≡ Err KeeperError.Failed }
        ensures path { self.new.file ≡ self.old.file }
    {
        if self.only_reads {
            return self.refuse();
        }
        match self.act(Act::Append { body }) {
            Ok(_) => Ok(()),
            Err(refused) => Err(refused),
        }
    }
}
