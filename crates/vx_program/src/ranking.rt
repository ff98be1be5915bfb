ghost use Rattle.std.specs.Prelude.{◌≡◌, ◌⊎◌};
ghost use Rattle.vx_ranked.specs.Words.{NoRanked};

use crate::journal::{Place, empty_journal, file_journal, place_of};
use vx_io::{Sink, StdInputs, StdSink, Words};
use vx_keep_sqlite::drop_keeper;
use vx_ranked::{RankedStatus, run_ranked};

/// Does the command `ranked` with a journal in memory, which is empty.
fn rank_in_memory<S: Sink>(rt: &HostRuntime, words: &Words, out: &mut S) -> RankedStatus
    ensures usage { result ≡ RankedStatus.Usage → NoRanked words.now }
    ensures no_command { NoRanked words.now →
        (result ≡ RankedStatus.Usage) ⊎ (result ≡ RankedStatus.NoMemory) }
{
    let mut inputs = StdInputs::new(rt);
    let mut keeper = empty_journal(rt);
    run_ranked(rt.alloc(), words, &mut inputs, out, &mut keeper)
}

/// Does it with the journal in the file of this name, which is only read.
fn rank_on_file<S: Sink>(
    rt: &HostRuntime,
    journal: &str,
    words: &Words,
    out: &mut S,
) -> RankedStatus
    ensures usage { result ≡ RankedStatus.Usage → NoRanked words.now }
    ensures no_command { NoRanked words.now →
        (result ≡ RankedStatus.Usage) ⊎ (result ≡ RankedStatus.NoMemory) }
{
    let mut inputs = StdInputs::new(rt);
    match file_journal(rt, journal, true) {
        Ok(mut keeper) => {
            let status = run_ranked(rt.alloc(), words, &mut inputs, out, &mut keeper);
            drop_keeper(keeper);
            status
        }
        Err(_refused) => RankedStatus::NoMemory,
    }
}

/// Does the command `ranked` with the journal of this name, and writes to a sink, as `run_into` does.
pub fn rank_into<S: Sink>(
    rt: &HostRuntime,
    journal: &str,
    words: &Words,
    out: &mut S,
) -> RankedStatus
    ensures usage { result ≡ RankedStatus.Usage → NoRanked words.now }
    ensures no_command { NoRanked words.now →
        (result ≡ RankedStatus.Usage) ⊎ (result ≡ RankedStatus.NoMemory) }
{
    match place_of(rt, journal, true) {
        Place::Memory => rank_in_memory(rt, words, out),
        Place::ReadFile | Place::File => rank_on_file(rt, journal, words, out),
    }
}

/// Does the command `ranked` with the journal of this name, as `run_with` does the others.
///
/// Usage comes exactly where the words are no `ranked`; but for want of memory, which may come first.
pub fn rank_with(rt: &HostRuntime, journal: &str, words: &Words) -> RankedStatus
    ensures usage { result ≡ RankedStatus.Usage → NoRanked words.now }
    ensures no_command { NoRanked words.now →
        (result ≡ RankedStatus.Usage) ⊎ (result ≡ RankedStatus.NoMemory) }
{
    let mut out = StdSink::new(rt);
    rank_into(rt, journal, words, &mut out)
}
