//! Which journal a command works on.

ghost use Rattle.std.specs.Prelude.{◌≡◌, ◌≢◌, ◌↔◌, Some, codes, false, IfOk, IsTrue, slice_get};
ghost use Rattle.vx_program.specs.Journals.{only_reads, place_found};
ghost use Rattle.vx_words.specs.declared.command.Command.{Command as CommandOf};
ghost use Rattle.vx_words.specs.Words.{Spells};

use std::alloc::{AllocError, Global};
use std::{fs, io};
use vx_io::{KeeperCalls, MemKeeper, Records, Words};
use vx_keep_sqlite::SqliteKeeper;
use vx_words::{Command, UsageFault, parse, words_spell_one_command};

/// Whether the first word is this one.
pub fn begins_with(words: &Words, name: &str) -> bool
    ensures { IsTrue result ↔ (slice_get words.now 0 ≡ Some name.now) }
{
    words.count() > 0 && words.word(0) == name
}

/// Whether a command reads the journal and appends nothing to it.
fn only_reads(command: &Command) -> bool
    ensures { result ≡ only_reads command.now }
{
    match command {
        Command::Queue { .. }
        | Command::Export { .. }
        | Command::Results { .. }
        | Command::Sample { .. }
        | Command::Desk { .. }
        | Command::Summary { .. }
        | Command::Board { .. }
        | Command::Risk { .. } => true,
        Command::Print { .. }
        | Command::Read { .. }
        | Command::Check { .. }
        | Command::Count { .. }
        | Command::Decide { .. }
        | Command::Demo { .. }
        | Command::Center { .. }
        | Command::Try { .. }
        | Command::Cards { .. } => false,
    }
}

/// Whether the words spell a command that only reads. Reading them takes memory.
pub(crate) fn words_only_read(alloc: Global, words: &Words) -> Result<bool, AllocError>
    ensures { IfOk result (λ reads. (command : CommandOf) → Spells words.now command → reads ≡ only_reads command) }
{
    words_spell_one_command();
    match parse(alloc, words) {
        Ok(command) => Ok(only_reads(&command)),
        Err(UsageFault::Usage) => Ok(false),
        Err(UsageFault::OutOfMemory) => Err(AllocError),
    }
}

/// Where the journal of a command is.
#[derive(Clone, Copy)]
pub(crate) enum Place {
    /// In memory, for this run.
    Memory,
    /// In a file that is only read.
    ReadFile,
    /// In a file, which is made where it isn't there.
    File,
}

/// The journal of a command that only reads, by what the system says of whether its file is there. Such
/// a file that isn't there is an empty journal, and isn't made; one that can't be looked at is opened,
/// and what that answers counts.
fn place_found(is_there: io::Result<bool>) -> Place
    ensures { result ≡ place_found is_there }
{
    match is_there {
        Ok(false) => Place::Memory,
        Ok(true) | Err(_) => Place::ReadFile,
    }
}

/// Where the journal of this name is for a command that only reads, or for another one: in memory where
/// it is called `-`.
pub(crate) fn place_of(rt: &HostRuntime, journal: &str, only_reads: bool) -> Place
    ensures memory { journal.now ≡ codes "-" → result ≡ Place.Memory }
    ensures file { journal.now ≢ codes "-" → only_reads ≡ false → result ≡ Place.File }
{
    if journal == "-" {
        Place::Memory
    } else if only_reads {
        place_found(fs::exists(rt, journal))
    } else {
        Place::File
    }
}

/// An empty journal in memory.
pub(crate) fn empty_journal(rt: &HostRuntime) -> MemKeeper {
    MemKeeper::new(Records::new(rt.alloc()), KeeperCalls::new(rt.alloc()))
}

/// The journal in the file of this name, which is only read, or else made where it isn't there.
pub(crate) fn file_journal<'r>(
    rt: &'r HostRuntime,
    journal: &str,
    only_reads: bool,
) -> Result<SqliteKeeper<'r>, AllocError>
    ensures { IfOk result (λ keeper. keeper ≡ record { file = record { path = journal.now; only_reads = only_reads }; faults = 0 }) }
{
    if only_reads {
        SqliteKeeper::reading(rt, journal)
    } else {
        SqliteKeeper::new(rt, journal)
    }
}
