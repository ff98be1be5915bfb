//! A count that is stopped at an append: from it on each call of the keeper fails. Over what the keeper
//! then holds, the same count gives the records of one that wasn't stopped.

use crate::devices::{Answer, Failing};
use crate::failing::reading_calls;
use crate::failing_fronts::{Act, same_records};
use crate::failing_trials::{COUNTS, Day, Trial, make_day, run_over, run_trial};
use std::alloc::{AllocError, Global};
use std::process::Abort;
use std::test::Fail;
use std::thread::Threads;

/// Twenty calls of the keeper from one on, of which the first may keep its record.
fn calls_from(alloc: Global, first: u64, kept: bool) -> Result<Vec<(u64, bool)>, AllocError> {
    let mut calls = Vec::new(alloc);
    calls.push((first, kept))?;
    for more in 1..20u64 {
        calls.push((first.saturating_add(more), false))?;
    }
    Ok(calls)
}

/// Runs a trial while these calls of the keeper fail.
fn run_stopped<R: Threads + Sync + AllocGlobal>(
    rt: &R,
    day: &Day,
    trial: &Trial,
    keeps: &[(u64, bool)],
) -> Result<Answer, Fail> {
    let failing = Failing {
        reads: &[],
        writes: &[],
        keeps,
        room: 10_000_000,
    };
    run_trial(rt, day, trial, failing)
}

/// A command ended so.
fn assert_status<R: Abort>(rt: &R, answer: &Answer, status: &str) {
    assert_eq!(rt; answer.status.as_str(), status);
}

/// What the count answers that is stopped at a call.
fn stopped_at<R: Threads + Sync + AllocGlobal>(
    rt: &R,
    day: &Day,
    trial: &Trial,
    call: u64,
    kept: bool,
) -> Result<Answer, Fail> {
    let calls = calls_from(rt.alloc(), call, kept)?;
    run_stopped(rt, day, trial, calls.as_slice())
}

/// The second run ended as the trial does, and left the records of the whole.
fn assert_restarted<R: Abort>(rt: &R, trial: &Trial, whole: &Answer, again: &Answer, call: u64) {
    assert_status(rt, again, trial.ends);
    assert!(rt; same_records(again, whole), "{call}");
}

/// The count, stopped at a call and run again, gives the records of one that wasn't stopped.
fn assert_restarts<R: Threads + Sync + AllocGlobal + Abort>(
    rt: &R,
    day: &Day,
    trial: &Trial,
    whole: &Answer,
    call: u64,
    kept: bool,
) -> Result<(), Fail> {
    let stopped = stopped_at(rt, day, trial, call, kept)?;
    assert_status(rt, &stopped, "keeper fault");
    let again = run_over(rt, day, &stopped.records, trial.words, Failing::NONE)?;
    assert_restarted(rt, trial, whole, &again, call);
    Ok(())
}

/// The count, stopped at each of its appends.
fn stop_at_each_append<R: Threads + Sync + AllocGlobal + Abort>(
    rt: &R,
    day: &Day,
    trial: &Trial,
) -> Result<(), Fail> {
    let whole = run_trial(rt, day, trial, Failing::NONE)?;
    let mut call = reading_calls(trial);
    for act in trial.acts {
        if matches!(act, Act::Append) {
            call = call.saturating_add(1);
            assert_restarts(rt, day, trial, &whole, call, false)?;
            assert_restarts(rt, day, trial, &whole, call, true)?;
        }
    }
    Ok(())
}

#[test]
fn a_stopped_count_is_run_again(rt: HostRuntime) -> Result<(), Fail> {
    let day = make_day(&rt)?;
    for trial in &COUNTS {
        stop_at_each_append(&rt, &day, trial)?;
    }
    Ok(())
}
