//! Reports that are refused, inputs that are too long, and devices that fail.

use crate::audit_reports::{NOUGHT, WORKED};
use crate::devices::{Answer, Failing, audit, is_answer};
use std::process::Abort;
use std::test::*;

const HAND: &[u8] = b"hand b1-1 contest-mayor selection-mayor-1";

const TEXT: &[u8] = b"sampled b1-1
sample 1 compared 1 differs 0 missing 0
";

/// A report, what hands read, and the status of its audit, which writes nothing: the report is refused before what
/// hands read is looked for.
const REPORTS: [(&[u8], &str); 5] = [
    (b"", "report 1"),
    (b"\xff", "report 1"),
    (b"[]", "report 3 "),
    (b"{}", "report 2 GpUnit"),
    (
        br#"{"GpUnit":[{"@id":"u"},{"@id":"u"}]}"#,
        "report 5 GpUnit[1].@id u",
    ),
];

/// An answer is this status with this text.
fn assert_answer<R: Abort>(rt: &R, answer: &Answer, status: &str, text: &[u8]) {
    assert!(rt;
        is_answer(answer, status, text),
        "{status}: {}",
        answer.status
    );
}

/// An audit of these files is refused, and writes nothing.
fn assert_refused<R: AllocGlobal + Abort>(
    rt: &R,
    files: &[(&str, &[u8])],
    status: &str,
) -> Result<(), Fail> {
    let line = ["audit", "R", NOUGHT, "1", "H"];
    let answer = audit(rt.alloc(), files, &line, Failing::NONE)?;
    assert_answer(rt, &answer, status, b"");
    Ok(())
}

#[test]
fn reports_are_refused_before_what_hands_read(rt: HostRuntime) -> Result<(), Fail> {
    for (report, status) in REPORTS {
        assert_refused(&rt, &[("R", report)], status)?;
    }
    Ok(())
}

#[test]
fn long_inputs_are_refused(rt: HostRuntime) -> Result<(), Fail> {
    let long = vec![in rt.alloc(); b' '; 67_108_865]?;
    let files = [("R", long.as_slice()), ("H", HAND)];
    assert_refused(&rt, &files, "too long 1 67108865")?;
    let files = [("R", WORKED), ("H", long.as_slice())];
    assert_refused(&rt, &files, "too long 4 67108865")
}

/// The calls that fail, the sink's room, the status and the text: each call of the inputs and of the sink in
/// turn, and the one behind the last.
const FAILS: [(&[u64], &[u64], u64, &str, &[u8]); 10] = [
    (&[1], &[], 1000, "read fault", b""),
    (&[2], &[], 1000, "read fault", b""),
    (&[3], &[], 1000, "read fault", b""),
    (&[4], &[], 1000, "read fault", b""),
    (&[5], &[], 1000, "ok", TEXT),
    (&[], &[1], 1000, "write fault", b""),
    (&[], &[2], 1000, "ok", TEXT),
    (&[], &[], 0, "write fault", b""),
    (&[], &[], 12, "write fault", b"sampled b1-1"),
    (&[], &[], 53, "ok", TEXT),
];

#[test]
fn failing_devices_are_told(rt: HostRuntime) -> Result<(), Fail> {
    let files = [("R", WORKED), ("H", HAND)];
    let line = ["audit", "R", NOUGHT, "1", "H"];
    for (reads, writes, room, status, text) in FAILS {
        let failing = Failing {
            reads,
            writes,
            room,
            ..Failing::NONE
        };
        let answer = audit(rt.alloc(), &files, &line, failing)?;
        assert_answer(&rt, &answer, status, text);
    }
    Ok(())
}

const TOTALS: &[u8] = b"contest contest-mayor over 0 under 0
total contest-mayor selection-mayor-0 0
total contest-mayor selection-mayor-1 1
unit precinct-p selection-mayor-1 1
records 1
";

/// The same of a `totals`.
const TOTALS_FAILS: [(&[u64], &[u64], &str, &[u8]); 5] = [
    (&[1], &[], "read fault", b""),
    (&[2], &[], "read fault", b""),
    (&[3], &[], "ok", TOTALS),
    (&[], &[1], "write fault", b""),
    (&[], &[2], "ok", TOTALS),
];

#[test]
fn failing_devices_are_told_of_totals(rt: HostRuntime) -> Result<(), Fail> {
    for (reads, writes, status, text) in TOTALS_FAILS {
        let failing = Failing {
            reads,
            writes,
            room: 1000,
            ..Failing::NONE
        };
        let answer = audit(rt.alloc(), &[("R", WORKED)], &["totals", "R"], failing)?;
        assert_answer(&rt, &answer, status, text);
    }
    Ok(())
}
