//! Each call of each device fails in turn: the status is that device's fault, and what stands is a front of the
//! records, or all of them and a front of the text. The call behind the last one is never made. The items of
//! each `center` leave the same, whichever comes first.

use crate::centers::{DEVICE, MOMENT, ONE_SHEET, assert_left, center, files_of, make_scan};
use crate::devices::{Answer, Failing};
use crate::trial_gates::TrialGate;
use std::process::Abort;
use std::sync::Wait;
use std::test::Fail;
use std::thread::Threads;

/// Words, the records before them, how many calls of the inputs, the sink and the keeper are made, and what the
/// inputs are asked.
///
/// An input is asked for its size and then read in one piece, those of items for their sizes once before. A text is
/// written in one piece: a line of the history, the lines of the other sheets, the line before the report, the
/// report. The journal is asked for the number of its records, and then for each.
const TRIALS: [(&[&str], &[&str], [u64; 3], &str); 2] = [
    (
        &["center", "e", MOMENT, DEVICE, "scan:b1:a"],
        &[],
        [5, 5, 4],
        "size e\nread e 0\nsize a\nsize a\nread a 0\n",
    ),
    (
        &["center", "e", MOMENT, DEVICE, "script:t", "script:t"],
        ONE_SHEET,
        [8, 4, 3],
        "size e\nread e 0\nsize t\nsize t\nsize t\nread t 0\nsize t\nread t 0\n",
    ),
];

const FAULTS: [&str; 3] = ["read fault", "write fault", "keeper fault"];

/// A call of one of the devices fails.
fn failing_at<'x>(device: usize, call: &'x [u64], keeps: &'x [(u64, bool)]) -> Failing<'x> {
    match device {
        0 => Failing {
            reads: call,
            ..Failing::NONE
        },
        1 => Failing {
            writes: call,
            ..Failing::NONE
        },
        _ => Failing {
            keeps,
            ..Failing::NONE
        },
    }
}

/// A `center` that is tried: its files, the records before it, its words, and what it asks its inputs.
#[derive(Clone, Copy)]
struct Trial<'x> {
    files: &'x [(&'x str, &'x [u8])],
    before: &'x [&'x str],
    words: &'x [&'x str],
    asked: &'x str,
}

/// Runs a trial while calls fail.
fn run_trial<R: Threads + Wait + Sync + AllocGlobal>(
    rt: &R,
    trial: Trial<'_>,
    failing: Failing<'_>,
) -> Result<Answer, Fail> {
    let Trial {
        files,
        before,
        words,
        ..
    } = trial;
    center(rt, files, before, words, failing, &TrialGate::open())
}

/// The status is the device's fault. Behind one of the inputs nothing was done; behind one of the sink's all
/// records stand, and behind one of the keeper's no text does.
fn assert_front<R: Abort>(rt: &R, device: usize, trial: Trial<'_>, whole: &Answer, now: &Answer) {
    let words = trial.words;
    let (text, many) = (now.text.as_slice(), now.records.len());
    let fault = FAULTS.get(device).copied().unwrap_or("");
    assert_left(rt, now, fault, text, &whole.records, many, words);
    assert!(rt; whole.text.as_slice().starts_with(text), "{words:?}");
    let stands = match device {
        0 => many == trial.before.len() && text.is_empty(),
        1 => many == whole.records.len(),
        _ => text.is_empty(),
    };
    assert!(rt; stands, "{words:?}");
}

/// What is left where no call fails.
fn assert_whole<R: Abort>(rt: &R, trial: Trial<'_>, whole: &Answer, now: &Answer) {
    let (text, records) = (whole.text.as_slice(), &whole.records);
    assert_left(rt, now, "ok", text, records, records.len(), trial.words);
}

/// A call of a device fails, the keeper's with its record kept and not; or it is never made.
fn one_fails<R: Threads + Wait + Sync + AllocGlobal + Abort>(
    rt: &R,
    trial: Trial<'_>,
    whole: &Answer,
    device: usize,
    call: u64,
    is_made: bool,
) -> Result<(), Fail> {
    for kept in [false, true] {
        let (one, keeps) = ([call], [(call, kept)]);
        let now = run_trial(rt, trial, failing_at(device, &one, &keeps))?;
        if is_made {
            assert_front(rt, device, trial, whole, &now);
        } else {
            assert_whole(rt, trial, whole, &now);
        }
    }
    Ok(())
}

/// Each call of a device fails, and then the one behind the last.
fn each_fails<R: Threads + Wait + Sync + AllocGlobal + Abort>(
    rt: &R,
    trial: Trial<'_>,
    device: usize,
    calls: u64,
) -> Result<(), Fail> {
    let whole = run_trial(rt, trial, Failing::NONE)?;
    assert_eq!(rt; whole.asked.as_str(), trial.asked, "{:?}", trial.words);
    for call in 1..calls.saturating_add(2) {
        one_fails(rt, trial, &whole, device, call, call <= calls)?;
    }
    Ok(())
}

#[test]
fn a_center_ends_with_the_device_s_fault(rt: HostRuntime) -> Result<(), Fail> {
    let scan = make_scan(&rt)?;
    let files = files_of(scan.as_slice(), b"");
    for (words, before, calls, asked) in TRIALS {
        let trial = Trial {
            files: &files,
            before,
            words,
            asked,
        };
        for (device, count) in calls.iter().enumerate() {
            each_fails(&rt, trial, device, *count)?;
        }
    }
    Ok(())
}
