//! Each call of each device fails in turn: the status is that device's fault, and what stands is what
//! was done before the call; a refused append may have kept its record. The call behind the last one
//! is never made.

use crate::devices::{Answer, Failing};
use crate::failing_fronts::{Act, are_same, stand_of};
use crate::failing_trials::{COUNTS, Day, JOURNALS, READERS, Trial, make_day, run_trial};
use std::process::Abort;
use std::test::Fail;
use std::thread::Threads;
use vx_town::asked_in_order;

/// The command asked its inputs, one after the other, for their size and their bytes, and nothing else.
fn assert_asked<R: AllocGlobal + Abort>(rt: &R, trial: &Trial, whole: &Answer) -> Result<(), Fail> {
    let asked = asked_in_order(rt.alloc(), trial.asks)?;
    assert_eq!(rt; whole.asked.as_str(), asked.as_str(), "{:?}", trial.words);
    Ok(())
}

/// The command, undisturbed, does all its acts and ends as it should.
fn undisturbed<R: Threads + Sync + AllocGlobal + Abort>(
    rt: &R,
    day: &Day,
    trial: &Trial,
) -> Result<Answer, Fail> {
    let whole = run_trial(rt, day, trial, Failing::NONE)?;
    assert_eq!(rt; whole.status.as_str(), trial.ends, "{:?}", trial.words);
    assert_stand(rt, trial, &whole, &whole, trial.acts.len());
    assert_asked(rt, trial, &whole)?;
    Ok(whole)
}

/// What stands is what so many acts leave.
fn assert_stand<R: Abort>(rt: &R, trial: &Trial, whole: &Answer, now: &Answer, acts: usize) {
    let stand = stand_of(trial.acts, trial.before.len(), whole, now);
    assert_eq!(rt; stand, Some(acts), "{:?}", trial.words);
}

/// With these calls failing the command ends with a device's fault, and so many acts stand.
fn assert_fails<R: Threads + Sync + AllocGlobal + Abort>(
    rt: &R,
    day: &Day,
    trial: &Trial,
    whole: &Answer,
    failing: Failing<'_>,
    fault: &str,
    acts: usize,
) -> Result<(), Fail> {
    let now = run_trial(rt, day, trial, failing)?;
    assert_eq!(rt; now.status.as_str(), fault, "{:?}", trial.words);
    assert_stand(rt, trial, whole, &now, acts);
    Ok(())
}

/// With these calls failing the command does as if none did.
fn assert_undisturbed<R: Threads + Sync + AllocGlobal + Abort>(
    rt: &R,
    day: &Day,
    trial: &Trial,
    whole: &Answer,
    failing: Failing<'_>,
) -> Result<(), Fail> {
    let now = run_trial(rt, day, trial, failing)?;
    assert!(rt; are_same(&now, whole), "{:?}", trial.words);
    Ok(())
}

/// The first lines of a text.
fn first_lines(text: &str, lines: u64) -> &str {
    let mut left = lines;
    for (place, character) in text.char_indices() {
        if left == 0 {
            return text.get(..place).unwrap_or(text);
        }
        if character == '\n' {
            left -= 1;
        }
    }
    text
}

/// Nothing was asked behind so many calls of the inputs.
fn assert_asked_no_more<R: Abort>(rt: &R, whole: &Answer, now: &Answer, calls: u64) {
    assert_eq!(rt;
        now.asked.as_str(),
        first_lines(whole.asked.as_str(), calls)
    );
}

/// The command ended with the fault of its inputs, so many acts stand, and nothing was asked behind that call.
fn assert_read_failed<R: Abort>(
    rt: &R,
    trial: &Trial,
    whole: &Answer,
    now: &Answer,
    call: u64,
    acts: usize,
) {
    assert_eq!(rt; now.status.as_str(), "read fault", "{:?}", trial.words);
    assert_stand(rt, trial, whole, now, acts);
    assert_asked_no_more(rt, whole, now, call);
}

/// With this call of the inputs failing the command ends with their fault, so many acts stand, and nothing is
/// asked behind that call.
fn assert_read_fails<R: Threads + Sync + AllocGlobal + Abort>(
    rt: &R,
    day: &Day,
    trial: &Trial,
    whole: &Answer,
    failing: Failing<'_>,
    call: u64,
    acts: usize,
) -> Result<(), Fail> {
    let now = run_trial(rt, day, trial, failing)?;
    assert_read_failed(rt, trial, whole, &now, call, acts);
    Ok(())
}

/// Each call of the inputs fails.
fn reads_fail<R: Threads + Sync + AllocGlobal + Abort>(
    rt: &R,
    day: &Day,
    trial: &Trial,
    whole: &Answer,
) -> Result<(), Fail> {
    let mut call: u64 = 1;
    for acts in trial.takes {
        for _ in 0..2 {
            let failing = Failing {
                reads: &[call],
                ..Failing::NONE
            };
            assert_read_fails(rt, day, trial, whole, failing, call, *acts)?;
            call = call.saturating_add(1);
        }
    }
    let failing = Failing {
        reads: &[call],
        ..Failing::NONE
    };
    assert_undisturbed(rt, day, trial, whole, failing)
}

/// Each call of the sink fails.
fn writes_fail<R: Threads + Sync + AllocGlobal + Abort>(
    rt: &R,
    day: &Day,
    trial: &Trial,
    whole: &Answer,
) -> Result<(), Fail> {
    let mut call: u64 = 1;
    for (acts, act) in trial.acts.iter().enumerate() {
        if matches!(act, Act::Append) {
            continue;
        }
        let failing = Failing {
            writes: &[call],
            ..Failing::NONE
        };
        assert_fails(rt, day, trial, whole, failing, "write fault", acts)?;
        call = call.saturating_add(1);
    }
    let failing = Failing {
        writes: &[call],
        ..Failing::NONE
    };
    assert_undisturbed(rt, day, trial, whole, failing)
}

/// A call of the keeper fails, and would keep its record or not.
fn assert_keeper_fails<R: Threads + Sync + AllocGlobal + Abort>(
    rt: &R,
    day: &Day,
    trial: &Trial,
    whole: &Answer,
    call: u64,
    stands: [usize; 2],
) -> Result<(), Fail> {
    let [lost, kept] = stands;
    for (keeps, acts) in [(false, lost), (true, kept)] {
        let failing = Failing {
            keeps: &[(call, keeps)],
            ..Failing::NONE
        };
        assert_fails(rt, day, trial, whole, failing, "keeper fault", acts)?;
    }
    Ok(())
}

/// How many calls of the keeper read the journal.
pub(crate) fn reading_calls(trial: &Trial) -> u64 {
    if trial.reads_journal {
        trial.before.len() as u64 + 1
    } else {
        0
    }
}

/// Each call of the keeper fails.
fn keeps_fail<R: Threads + Sync + AllocGlobal + Abort>(
    rt: &R,
    day: &Day,
    trial: &Trial,
    whole: &Answer,
) -> Result<(), Fail> {
    let mut call: u64 = 1;
    for _ in 0..reading_calls(trial) {
        assert_keeper_fails(rt, day, trial, whole, call, [0, 0])?;
        call = call.saturating_add(1);
    }
    for (acts, act) in trial.acts.iter().enumerate() {
        if matches!(act, Act::Append) {
            assert_keeper_fails(rt, day, trial, whole, call, [acts, acts + 1])?;
            call = call.saturating_add(1);
        }
    }
    let failing = Failing {
        keeps: &[(call, true)],
        ..Failing::NONE
    };
    assert_undisturbed(rt, day, trial, whole, failing)
}

/// Each call of each device fails in turn, beside the undisturbed command.
fn each_device_fails<R: Threads + Sync + AllocGlobal + Abort>(
    rt: &R,
    day: &Day,
    trial: &Trial,
) -> Result<(), Fail> {
    let whole = undisturbed(rt, day, trial)?;
    reads_fail(rt, day, trial, &whole)?;
    writes_fail(rt, day, trial, &whole)?;
    keeps_fail(rt, day, trial, &whole)
}

/// Each call of each device fails in turn, over these commands.
fn each_call_fails<R: Threads + Sync + AllocGlobal + Abort>(
    rt: &R,
    trials: &[Trial],
) -> Result<(), Fail> {
    let day = make_day(rt)?;
    for trial in trials {
        each_device_fails(rt, &day, trial)?;
    }
    Ok(())
}

#[test]
fn commands_without_a_journal_end_with_the_device_s_fault(rt: HostRuntime) -> Result<(), Fail> {
    each_call_fails(&rt, &READERS)
}

#[test]
fn counts_end_with_the_device_s_fault(rt: HostRuntime) -> Result<(), Fail> {
    each_call_fails(&rt, &COUNTS)
}

#[test]
fn commands_on_a_journal_end_with_the_device_s_fault(rt: HostRuntime) -> Result<(), Fail> {
    each_call_fails(&rt, &JOURNALS)
}
