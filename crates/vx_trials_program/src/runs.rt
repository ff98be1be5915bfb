//! Runs of the program's top calls over real files, whose text is kept.

use crate::files::Paths;
use std::alloc::AllocError;
use std::rt::HostRuntime;
use std::sync::Wait;
use std::test::Fail;
use std::thread::Threads;
use vx_app::run;
use vx_io::{Calls, KeeperCalls, MemKeeper, MemSink, StdInputs};
use vx_program::{rank_into, run_into};
use vx_town::{records_of, words_of};

pub(crate) const MOMENT: &str = "2024-11-06T08:00:00Z";

pub(crate) const DEVICE: &str = "00000000-0000-4000-8000-000000000001";

/// The number that a run ended with, and what it wrote.
#[derive(Drop)]
pub(crate) struct Ran {
    pub(crate) number: u8,
    out: MemSink,
}

impl Ran {
    /// Whether it ended with this number, and wrote this text.
    pub(crate) fn is(&self, number: u8, text: &str) -> bool {
        self.number == number && self.out.held() == text.as_bytes()
    }

    /// What it wrote.
    pub(crate) fn text(&self) -> &[u8] {
        self.out.held()
    }
}

/// A sink with room for all texts of these trials.
fn sink(rt: &HostRuntime) -> Result<MemSink, AllocError> {
    MemSink::new(rt.alloc(), 100_000, Calls::new(rt.alloc()))
}

/// Does a command with the journal of this name.
pub(crate) fn run_line<R: Threads + Wait + Sync>(
    rt: &HostRuntime,
    threads: &R,
    journal: &str,
    line: &[&str],
) -> Result<Ran, Fail> {
    let words = words_of(rt.alloc(), line)?;
    let mut out = sink(rt)?;
    let status = run_into(rt, threads, journal, &words, &mut out);
    Ok(Ran {
        number: status.number(),
        out,
    })
}

/// Does a `ranked` with the trial's journal.
pub(crate) fn rank(rt: &HostRuntime, paths: &Paths) -> Result<Ran, Fail> {
    let line = ["ranked", paths.election.as_str(), paths.ranked.as_str()];
    let words = words_of(rt.alloc(), &line)?;
    let mut out = sink(rt)?;
    let status = rank_into(rt, paths.journal.as_str(), &words, &mut out);
    Ok(Ran {
        number: status.number(),
        out,
    })
}

/// Counts the scan as a batch, with one worker, into the journal of this name.
pub(crate) fn count<R: Threads + Wait + Sync>(
    rt: &HostRuntime,
    threads: &R,
    paths: &Paths,
    journal: &str,
    batch: &str,
) -> Result<u8, Fail> {
    let (election, scan) = (paths.election.as_str(), paths.scan.as_str());
    let ran = run_line(rt, threads, journal, &["count", election, batch, "1", scan])?;
    Ok(ran.number)
}

/// Does a command that has the election alone behind its name, with the trial's journal.
pub(crate) fn run_named<R: Threads + Wait + Sync>(
    rt: &HostRuntime,
    threads: &R,
    paths: &Paths,
    name: &str,
) -> Result<Ran, Fail> {
    run_line(
        rt,
        threads,
        paths.journal.as_str(),
        &[name, paths.election.as_str()],
    )
}

/// Does a command with a journal in memory that has these records.
pub(crate) fn run_on_records<R: Threads + Wait + Sync>(
    rt: &HostRuntime,
    threads: &R,
    records: &[&str],
    line: &[&str],
) -> Result<Ran, Fail> {
    let words = words_of(rt.alloc(), line)?;
    let mut out = sink(rt)?;
    let mut inputs = StdInputs::new(rt);
    let records = records_of(rt.alloc(), records)?;
    let mut keeper = MemKeeper::new(records, KeeperCalls::new(rt.alloc()));
    let status = run(
        threads,
        rt.alloc(),
        &words,
        &mut inputs,
        &mut out,
        &mut keeper,
    );
    Ok(Ran {
        number: status.number(),
        out,
    })
}
