ghost use Rattle.std.specs.Prelude.{◌≡◌, ◌↔◌, ◌⊎◌};
ghost use Rattle.vx_words.specs.Words.{NoCommand};

use crate::journal::{Place, empty_journal, file_journal, place_of, words_only_read};
use std::alloc::Global;
use std::sync::Wait;
use std::thread::Threads;
use vx_app::{commands_are_named, is_center, run, run_center};
use vx_command::Status;
use vx_io::{Inputs, Keeper, Sink, StdInputs, StdSink, Words};
use vx_keep_sqlite::drop_keeper;
use vx_workers::OpenGate;

/// Does a command: `center` alone may wait.
fn run_command<R: Threads + Wait + Sync, I: Inputs, S: Sink, K: Keeper>(
    threads: &R,
    alloc: Global,
    words: &Words,
    inputs: &mut I,
    out: &mut S,
    keeper: &mut K,
) -> Status
    ensures { (result ≡ Status.Usage) ↔ NoCommand words.now }
{
    commands_are_named();
    if is_center(words) {
        run_center(threads, alloc, words, inputs, out, keeper, &OpenGate)
    } else {
        run(threads, alloc, words, inputs, out, keeper)
    }
}

/// Does a command with a journal in memory, which lasts for this run.
fn run_in_memory<R: Threads + Wait + Sync, S: Sink>(
    rt: &HostRuntime,
    threads: &R,
    words: &Words,
    out: &mut S,
) -> Status
    ensures { (result ≡ Status.Usage) ↔ NoCommand words.now }
{
    let mut inputs = StdInputs::new(rt);
    let mut keeper = empty_journal(rt);
    run_command(threads, rt.alloc(), words, &mut inputs, out, &mut keeper)
}

/// Does a command with a journal in the file of this name, which is only read, or else made where it
/// isn't there.
fn run_on_file<R: Threads + Wait + Sync, S: Sink>(
    rt: &HostRuntime,
    threads: &R,
    journal: &str,
    only_reads: bool,
    words: &Words,
    out: &mut S,
) -> Status
    ensures usage { result ≡ Status.Usage → NoCommand words.now }
    ensures no_command { NoCommand words.now →
        (result ≡ Status.Usage) ⊎ (result ≡ Status.NoMemory) }
{
    let mut inputs = StdInputs::new(rt);
    match file_journal(rt, journal, only_reads) {
        Ok(mut keeper) => {
            let status = run_command(threads, rt.alloc(), words, &mut inputs, out, &mut keeper);
            drop_keeper(keeper);
            status
        }
        Err(_refused) => Status::NoMemory,
    }
}

/// The same with the journal where it is for a command that only reads, or for another one.
fn run_at<R: Threads + Wait + Sync, S: Sink>(
    rt: &HostRuntime,
    threads: &R,
    journal: &str,
    only_reads: bool,
    words: &Words,
    out: &mut S,
) -> Status
    ensures usage { result ≡ Status.Usage → NoCommand words.now }
    ensures no_command { NoCommand words.now →
        (result ≡ Status.Usage) ⊎ (result ≡ Status.NoMemory) }
{
    match place_of(rt, journal, only_reads) {
        Place::Memory => run_in_memory(rt, threads, words, out),
        Place::ReadFile => run_on_file(rt, threads, journal, true, words, out),
        Place::File => run_on_file(rt, threads, journal, false, words, out),
    }
}

/// Does the command that the words spell, with the journal of this name, and writes to a sink: what
/// `run_with` does, for trials that look at the text.
pub fn run_into<R: Threads + Wait + Sync, S: Sink>(
    rt: &HostRuntime,
    threads: &R,
    journal: &str,
    words: &Words,
    out: &mut S,
) -> Status
    ensures usage { result ≡ Status.Usage → NoCommand words.now }
    ensures no_command { NoCommand words.now →
        (result ≡ Status.Usage) ⊎ (result ≡ Status.NoMemory) }
{
    match words_only_read(rt.alloc(), words) {
        Ok(only_reads) => run_at(rt, threads, journal, only_reads, words, out),
        Err(_no_memory) => Status::NoMemory,
    }
}

/// Does the command that the words spell, with the journal of this name: one in memory where it is `-`,
/// or a file, which is made where it isn't there. A command that only reads the journal writes nothing
/// to the file or beside it; where there is none it finds an empty journal, and makes no file. Inputs
/// are real files, and the text goes to standard output.
///
/// Usage comes exactly where the words spell no command; but for want of memory, which may come first.
pub fn run_with<R: Threads + Wait + Sync>(
    rt: &HostRuntime,
    threads: &R,
    journal: &str,
    words: &Words,
) -> Status
    ensures usage { result ≡ Status.Usage → NoCommand words.now }
    ensures no_command { NoCommand words.now →
        (result ≡ Status.Usage) ⊎ (result ≡ Status.NoMemory) }
{
    let mut out = StdSink::new(rt);
    run_into(rt, threads, journal, words, &mut out)
}
