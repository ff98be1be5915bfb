//! Words that are neither a `totals` nor an `audit`, and some that are.

use crate::audit_reports::{NOUGHT, WORKED};
use crate::devices::{Failing, audit};
use std::test::*;

const FILES: [(&str, &[u8]); 2] = [("R", WORKED), ("H", b"")];

/// Words, and the status by them.
const LINES: [(&[&str], &str); 22] = [
    (&[], "usage"),
    (&["totals"], "usage"),
    (&["totals", "R", "R"], "usage"),
    (&["totals", ""], "usage"),
    (&["totals", "-R"], "usage"),
    (&["totals", "--help"], "usage"),
    (&["Totals", "R"], "usage"),
    (&["total", "R"], "usage"),
    (&["audit", "R"], "usage"),
    (&["audit", "R", NOUGHT, "1"], "usage"),
    (&["audit", "R", NOUGHT, "1", "H", "H"], "usage"),
    (&["audit", "", NOUGHT, "1", "H"], "usage"),
    (&["audit", "R", NOUGHT, "1", ""], "usage"),
    (&["audit", "R", NOUGHT, "1", "-"], "usage"),
    (&["audit", "-", NOUGHT, "1", "H"], "usage"),
    (&["totals", "R", NOUGHT, "1", "H"], "usage"),
    (&["totals", "R"], "ok"),
    (&["totals", "Q"], "no input 1"),
    (&["audit", "R", NOUGHT, "1", "H"], "ok"),
    (&["audit", "R", NOUGHT, "1", "Q"], "no input 4"),
    (&["audit", "Q", NOUGHT, "1", "H"], "no input 1"),
    (&["audit", "Q", NOUGHT, "1", "P"], "no input 1"),
];

#[test]
fn words_are_read(rt: HostRuntime) -> Result<(), Fail> {
    for (line, status) in LINES {
        let answer = audit(rt.alloc(), &FILES, line, Failing::NONE)?;
        assert!(rt; answer.status.as_str() == status, "{}", answer.status);
    }
    Ok(())
}

/// Seeds of 63 and of 65 digits, in upper case, and with a letter that is no digit; and one that is sound.
const SEEDS: [(&str, &str); 6] = [
    (
        "000000000000000000000000000000000000000000000000000000000000000",
        "usage",
    ),
    (
        "00000000000000000000000000000000000000000000000000000000000000000",
        "usage",
    ),
    (
        "A000000000000000000000000000000000000000000000000000000000000000",
        "usage",
    ),
    (
        "000000000000000000000000000000000000000000000000000000000000000g",
        "usage",
    ),
    ("", "usage"),
    (
        "a1234567890bcdefa1234567890bcdefa1234567890bcdefa1234567890bcdef",
        "ok",
    ),
];

#[test]
fn seeds_are_read(rt: HostRuntime) -> Result<(), Fail> {
    for (seed, status) in SEEDS {
        let line = ["audit", "R", seed, "1", "H"];
        let answer = audit(rt.alloc(), &FILES, &line, Failing::NONE)?;
        assert!(rt;
            answer.status.as_str() == status,
            "{seed}: {}",
            answer.status
        );
    }
    Ok(())
}

const SIZES: [(&str, &str); 11] = [
    ("0", "usage"),
    ("10001", "usage"),
    ("01", "usage"),
    ("+1", "usage"),
    ("-1", "usage"),
    ("1.0", "usage"),
    ("", "usage"),
    ("4294967297", "usage"),
    ("99999999999999999999", "usage"),
    ("1", "ok"),
    ("10000", "ok"),
];

#[test]
fn sizes_are_read(rt: HostRuntime) -> Result<(), Fail> {
    for (size, status) in SIZES {
        let line = ["audit", "R", NOUGHT, size, "H"];
        let answer = audit(rt.alloc(), &FILES, &line, Failing::NONE)?;
        assert!(rt;
            answer.status.as_str() == status,
            "{size}: {}",
            answer.status
        );
    }
    Ok(())
}
