//! Commands that read a journal's file, byte by byte. The texts are those of the guides for one sheet or two on
//! which nothing was marked.

use crate::files::{Paths, give_leave, remove_files, set_modes, write_files};
use crate::journals::count_two;
use crate::runs::{DEVICE, MOMENT, rank, run_line, run_named, run_on_records};
use std::process::Abort;
use std::rt::HostRuntime;
use std::sync::Wait;
use std::test::Fail;
use std::thread::Threads;
use vx_town::TOWN_HEADER;

/// Both sheets wait.
pub(crate) const WAIT: &str = "wait b1 1 mayor BlankBallot holder -\n\
     wait b2 1 mayor BlankBallot holder -\n\
     waiting 2\n";

const DONE: &str = "line 1 done\nline 2 done\nline 3 done\nline 4 done\nline 5 done\nline 6 done\n";

/// Each has a vote for the first candidate.
const RESULTS: &str = "contest contest-mayor over 0 under 0\n\
     total contest-mayor selection-mayor-0 2\n\
     total contest-mayor selection-mayor-1 0\n\
     unit precinct-p selection-mayor-0 2\n\
     records 2\n\
     waiting 0\n";

const ROUNDS: &str = "ranked m ballots 2 waiting 0\nround 1 a 2 b 0 exhausted 0\nwinner a\n";

/// The records of both counts and of the script.
const RECORDS: [&str; 9] = [
    TOWN_HEADER,
    "1 add b1 1 0 1 precinct 0:cc",
    "1 add b2 1 0 1 precinct 0:cc",
    "1 claim 1 b1 1",
    "1 select 1 b1 1 0 0",
    "1 release 1 b1 1",
    "1 claim 1 b2 1",
    "1 select 1 b2 1 0 0",
    "1 release 1 b2 1",
];

/// A `queue` tells the sheets that were counted, and a `decide` takes its script.
fn assert_decides<R: Threads + Wait + Sync + Abort>(
    host: &HostRuntime,
    rt: &R,
    paths: &Paths,
) -> Result<(), Fail> {
    let queue = run_named(host, rt, paths, "queue")?;
    assert!(rt; queue.is(0, WAIT));
    let words = ["decide", paths.election.as_str(), paths.script.as_str()];
    let decided = run_line(host, rt, paths.journal.as_str(), &words)?;
    assert!(rt; decided.is(0, DONE));
    Ok(())
}

/// The results and the rounds are those of the two votes.
fn assert_results<R: Threads + Wait + Sync + Abort>(
    host: &HostRuntime,
    rt: &R,
    paths: &Paths,
) -> Result<(), Fail> {
    let results = run_named(host, rt, paths, "results")?;
    assert!(rt; results.is(0, RESULTS));
    let rounds = rank(host, paths)?;
    assert!(rt; rounds.is(0, ROUNDS));
    Ok(())
}

/// An `export` of the file is that of a journal in memory with these records.
fn assert_exports<R: Threads + Wait + Sync + Abort>(
    host: &HostRuntime,
    rt: &R,
    paths: &Paths,
) -> Result<(), Fail> {
    let line = ["export", paths.election.as_str(), MOMENT, DEVICE];
    let expected = run_on_records(host, rt, &RECORDS, &line)?;
    let exported = run_line(host, rt, paths.journal.as_str(), &line)?;
    assert_eq!(rt; exported.number, 0);
    assert!(rt; exported.text() == expected.text());
    Ok(())
}

/// What counts and a script kept in a file, the commands that read it tell.
#[test]
fn commands_read_the_file_that_counts_filled(rt: HostRuntime) -> Result<(), Fail> {
    let paths = write_files(&rt, "reading")?;
    count_two(&rt, &rt, &paths)?;
    assert_decides(&rt, &rt, &paths)?;
    assert_results(&rt, &rt, &paths)?;
    assert_exports(&rt, &rt, &paths)?;
    remove_files(&rt, &paths)
}

/// A `center` of the scan with the trial's journal.
fn center<R: Threads + Wait + Sync>(
    host: &HostRuntime,
    threads: &R,
    paths: &Paths,
) -> Result<u8, Fail> {
    let item = format!(in host.alloc(); "scan:b1:{}", paths.scan.as_str())?;
    let line = [
        "center",
        paths.election.as_str(),
        MOMENT,
        DEVICE,
        item.as_str(),
    ];
    let ran = run_line(host, threads, paths.journal.as_str(), &line)?;
    Ok(ran.number)
}

/// What a `center` keeps in a new file the next run finds.
#[test]
fn a_center_fills_a_new_file(rt: HostRuntime) -> Result<(), Fail> {
    let paths = write_files(&rt, "center")?;
    assert_eq!(rt; center(&rt, &rt, &paths)?, 0);
    let queue = run_named(&rt, &rt, &paths, "queue")?;
    assert!(rt; queue.is(0, "wait b1 1 mayor BlankBallot holder -\nwaiting 1\n"));
    remove_files(&rt, &paths)
}

/// A journal below a file can't be looked at, so it isn't an empty one; and one in a folder without leave is
/// read where the leave isn't asked, and else refused.
#[test]
fn a_journal_that_cannot_be_looked_at_is_no_empty_one(rt: HostRuntime) -> Result<(), Fail> {
    let paths = write_files(&rt, "without_leave")?;
    count_two(&rt, &rt, &paths)?;
    let below = format!(in rt.alloc(); "{}/journal", paths.scan.as_str())?;
    let line = ["queue", paths.election.as_str()];
    assert!(rt; run_line(&rt, &rt, below.as_str(), &line)?.is(12, ""));
    set_modes(&rt, &paths, 0o644, 0)?;
    let queue = run_named(&rt, &rt, &paths, "queue")?;
    assert!(rt; queue.is(12, "") || queue.is(0, WAIT));
    give_leave(&rt, &paths)?;
    remove_files(&rt, &paths)
}
