//! Texts that were worked by hand.

use crate::audit_reports::{NOUGHT, THREE, WORKED};
use crate::devices::{Failing, audit, is_answer};
use std::test::*;

const WORKED_TOTALS: &[u8] = b"contest contest-mayor over 0 under 0
total contest-mayor selection-mayor-0 0
total contest-mayor selection-mayor-1 1
unit precinct-p selection-mayor-1 1
records 1
";

// The units stand in the report's order, and what has no votes in a unit isn't told of it.
const THREE_TOTALS: &[u8] = b"contest c1 over 0 under 3
total c1 s1 1
total c1 s2 2
contest c2 over 1 under 0
total c2 t1 0
unit z s1 1
unit z s2 2
records 3
";

#[test]
fn totals_are_as_worked_by_hand(rt: HostRuntime) -> Result<(), Fail> {
    let alloc = rt.alloc();
    for (report, text) in [(WORKED, WORKED_TOTALS), (THREE, THREE_TOTALS)] {
        let answer = audit(alloc, &[("R", report)], &["totals", "R"], Failing::NONE)?;
        assert!(rt; is_answer(&answer, "ok", text), "{}", answer.status);
    }
    Ok(())
}

/// What hands read of the worked report, and the text of its audit.
const WORKED_AUDITS: [(&[u8], &[u8]); 2] = [
    (
        b"hand b1-1 contest-mayor selection-mayor-0",
        b"sampled b1-1
differs b1-1 contest-mayor record selection-mayor-1 hand selection-mayor-0
sample 1 compared 1 differs 1 missing 0
",
    ),
    (
        b"",
        b"sampled b1-1
missing b1-1 contest-mayor
sample 1 compared 0 differs 0 missing 1
",
    ),
];

#[test]
fn the_worked_report_is_audited(rt: HostRuntime) -> Result<(), Fail> {
    for (hand, text) in WORKED_AUDITS {
        let files = [("R", WORKED), ("H", hand)];
        let line = ["audit", "R", NOUGHT, "3", "H"];
        let answer = audit(rt.alloc(), &files, &line, Failing::NONE)?;
        assert!(rt; is_answer(&answer, "ok", text), "{}", answer.status);
    }
    Ok(())
}

// The first ballot's selections stand in another order, the second's overvote is no vote, and the third's record
// lacks the second contest.
const HAND: &[u8] = b"hand b1-1 c1 s2 s1
hand b1-3 c2 t1
hand b1-2 c1 -
hand b1-2 c2 t1
";

/// How many words are drawn, and the text of the audit: a record that is drawn again stands once, in the report's
/// order, and lines of records that aren't drawn are passed over.
const AUDITS: [(&str, &[u8]); 4] = [
    (
        "1",
        b"sampled b1-1
sample 1 compared 1 differs 0 missing 0
",
    ),
    (
        "3",
        b"sampled b1-1
sample 1 compared 1 differs 0 missing 0
",
    ),
    (
        "4",
        b"sampled b1-1
sampled b1-3
missing b1-3 c1
differs b1-3 c2 record none hand t1
sample 2 compared 2 differs 1 missing 1
",
    ),
    (
        "10000",
        b"sampled b1-1
sampled b1-2
differs b1-2 c2 record - hand t1
sampled b1-3
missing b1-3 c1
differs b1-3 c2 record none hand t1
sample 3 compared 4 differs 2 missing 1
",
    ),
];

#[test]
fn samples_are_as_worked_by_hand(rt: HostRuntime) -> Result<(), Fail> {
    for (size, text) in AUDITS {
        let files = [("R", THREE), ("H", HAND)];
        let line = ["audit", "R", NOUGHT, size, "H"];
        let answer = audit(rt.alloc(), &files, &line, Failing::NONE)?;
        assert!(rt; is_answer(&answer, "ok", text), "{size}: {}", answer.status);
    }
    Ok(())
}
