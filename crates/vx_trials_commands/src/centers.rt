//! A `center` over the town's election and devices in memory.

use crate::devices::{Answer, Devices, Failing, Held, answer_of};
use crate::rows;
use crate::trial_gates::TrialGate;
use std::alloc::AllocError;
use std::process::Abort;
use std::sync::Wait;
use std::test::Fail;
use std::thread::Threads;
use vx_app::run_center;
use vx_io::{Records, Words};
use vx_town::{TOWN, TOWN_HEADER, records_of, words_of};

pub(crate) const MOMENT: &str = "2024-11-06T08:00:00Z";

pub(crate) const DEVICE: &str = "00000000-0000-4000-8000-000000000001";

/// A journal with a blank sheet.
pub(crate) const ONE_SHEET: &[&str] = &[TOWN_HEADER, "1 add b0 1 0 1 precinct 0:cc"];

/// Three light images of 8 by 1 pixels.
const SMALL: &[u8] = b"P4\n8 1\n\0P4\n8 1\n\0P4\n8 1\n\0";

/// The town's election as `e`, a scan as `a`, a script as `l`, those of two stations as `b` and `c`, one of a
/// single line as `t`, one whose second line is none as `y`, and bytes that are no bitmap as `x`.
pub(crate) fn files_of<'x>(scan: &'x [u8], script: &'x [u8]) -> [(&'x str, &'x [u8]); 8] {
    [
        ("e", TOWN.as_bytes()),
        ("a", scan),
        ("l", script),
        (
            "b",
            b"claim 1 b0 1\nselect 1 b0 1 mayor 1\n\nrelease 1 b0 1\nclaim 1 b1 2\n",
        ),
        (
            "c",
            b"claim 2 b0 1\naccept 2 b0 1 mayor\nclaim 2 b1 1\nrelease 2 b0 1",
        ),
        ("t", b"claim 1 b 1\n"),
        ("y", b"claim 1 b 1\nclaim 1 b 1 \n"),
        ("x", b"no bitmap"),
    ]
}

/// Both pages of the town's card twice, and three small images: two sheets that can be read, one that can't,
/// and a single image.
pub(crate) fn make_scan<R: Threads + Sync + AllocGlobal>(rt: &R) -> Result<Vec<u8>, Fail> {
    let mut scan = rows::make_scan(rt)?;
    push_pages(rt, &mut scan)?;
    scan.extend_from_slice(SMALL)?;
    Ok(scan)
}

/// Adds both pages of the town's card.
fn push_pages<R: Threads + Sync + AllocGlobal>(rt: &R, scan: &mut Vec<u8>) -> Result<(), Fail> {
    let pages = rows::make_scan(rt)?;
    scan.extend_from_slice(pages.as_slice())?;
    Ok(())
}

/// Runs a `center` over devices through a gate, and answers its status, as the program says it.
fn status_of<R: Threads + Wait + Sync + AllocGlobal>(
    rt: &R,
    words: &Words,
    devices: &mut Devices,
    gate: &TrialGate,
) -> Result<String, AllocError> {
    let Devices {
        inputs,
        out,
        keeper,
    } = devices;
    let status = run_center(rt, rt.alloc(), words, inputs, out, keeper, gate);
    format!(in rt.alloc(); "{status}")
}

/// Runs the words of a `center` over devices through a gate.
fn answer_over<R: Threads + Wait + Sync + AllocGlobal>(
    rt: &R,
    line: &[&str],
    devices: &mut Devices,
    gate: &TrialGate,
) -> Result<Answer, AllocError> {
    let words = words_of(rt.alloc(), line)?;
    let status = status_of(rt, &words, devices, gate)?;
    answer_of(rt.alloc(), status, devices)
}

/// Runs a `center` over files and records through a gate, while calls fail.
pub(crate) fn center<R: Threads + Wait + Sync + AllocGlobal>(
    rt: &R,
    files: &[(&str, &[u8])],
    before: &[&str],
    line: &[&str],
    failing: Failing<'_>,
    gate: &TrialGate,
) -> Result<Answer, Fail> {
    let records = records_of(rt.alloc(), before)?;
    let held = Held {
        files,
        records: &records,
    };
    let mut devices = Devices::new(rt.alloc(), held, failing)?;
    Ok(answer_over(rt, line, &mut devices, gate)?)
}

/// Records are the first so many of these.
fn assert_records<R: Abort>(
    rt: &R,
    left: &Records,
    records: &Records,
    many: usize,
    words: &[&str],
) {
    assert_eq!(rt; left.len(), many, "{words:?}");
    for index in 0..left.len() {
        assert!(rt; index < records.len(), "{words:?}");
        let record = left.record(index).as_slice();
        assert_eq!(rt; record, records.record(index).as_slice(), "{words:?}");
    }
}

/// It ended so, with this text, and the first so many of these records.
pub(crate) fn assert_left<R: Abort>(
    rt: &R,
    answer: &Answer,
    status: &str,
    text: &[u8],
    records: &Records,
    many: usize,
    words: &[&str],
) {
    assert_eq!(rt; answer.status.as_str(), status, "{words:?}");
    assert_eq!(rt; answer.text.as_slice(), text, "{words:?}");
    assert_records(rt, &answer.records, records, many, words);
}
