//! A gate that shows that the workers of a count read its images side by side, and one that answers false.

ghost use Rattle.vx_app.specs.Counting.{IsCount};

use crate::devices::{Answer, Devices, Failing, Held, answer_of};
use crate::rows::{ONE_SHEET, Row, assert_told, files_of, make_scan};
use crate::trial_gates::TrialGate;
use crate::trials::ADDED;
use std::alloc::AllocError;
use std::process::Abort;
use std::test::Fail;
use std::thread::Threads;
use vx_app::run_count;
use vx_io::{Records, Words};
use vx_town::words_of;
use vx_words::{Command, parse};

/// Runs a count over devices through a gate, and answers its status, as the program says it.
fn status_of<R: Threads + Sync + AllocGlobal>(
    rt: &R,
    words: &Words,
    devices: &mut Devices,
    gate: &TrialGate,
) -> Result<String, AllocError>
    requires { IsCount words.now }
{
    let Devices {
        inputs,
        out,
        keeper,
    } = devices;
    let status = run_count(rt, rt.alloc(), words, inputs, out, keeper, gate);
    format!(in rt.alloc(); "{status}")
}

/// Runs a count through a gate.
fn counted<R: Threads + Sync + AllocGlobal>(
    rt: &R,
    held: Held<'_>,
    words: &Words,
    gate: &TrialGate,
) -> Result<Answer, Fail>
    requires { IsCount words.now }
{
    let mut devices = Devices::new(rt.alloc(), held, Failing::NONE)?;
    let status = status_of(rt, words, &mut devices, gate)?;
    Ok(answer_of(rt.alloc(), status, &devices)?)
}

/// Runs a count through a gate; none where the words are no count.
fn count_through<R: Threads + Sync + AllocGlobal>(
    rt: &R,
    held: Held<'_>,
    line: &[&str],
    gate: &TrialGate,
) -> Result<Option<Answer>, Fail> {
    let words = words_of(rt.alloc(), line)?;
    if let Ok(Command::Count { .. }) = parse(rt.alloc(), &words) {
        return Ok(Some(counted(rt, held, &words, gate)?));
    }
    Ok(None)
}

/// A count of one sheet by two workers.
const COUNT: Row<'static> = Row {
    words: &["count", "e", "b1", "2", "s"],
    before: &[],
    text: ADDED,
    status: "ok",
    after: ONE_SHEET,
};

/// Counts a scan through a gate.
fn scan_through<R: Threads + Sync + AllocGlobal>(
    rt: &R,
    scan: &[u8],
    gate: &TrialGate,
) -> Result<Answer, Fail> {
    let records = Records::new(rt.alloc());
    let files = files_of(scan, b"");
    let held = Held {
        files: &files,
        records: &records,
    };
    let answer = count_through(rt, held, COUNT.words, gate)?;
    Ok(answer.ok_or("no count")?)
}

/// Counts the sheet through a gate, which has to come to the row.
fn assert_counted<R: Threads + Sync + AllocGlobal + Abort>(
    rt: &R,
    gate: &TrialGate,
) -> Result<(), Fail> {
    let scan = make_scan(rt)?;
    let answer = scan_through(rt, scan.as_slice(), gate)?;
    assert_told(rt, &COUNT, &answer)
}

#[test]
fn two_workers_read_a_sheet_side_by_side(rt: HostRuntime) -> Result<(), Fail> {
    let meeting = TrialGate::meeting();
    assert_counted(&rt, &meeting)?;
    assert!(rt; meeting.is_met());
    Ok(())
}

#[test]
fn a_gate_that_answers_false_changes_nothing(rt: HostRuntime) -> Result<(), Fail> {
    assert_counted(&rt, &TrialGate::shut())
}
