//! What hands read: the first line that leaves its form is told by its number, counted from 1.

use crate::audit_reports::{NOUGHT, THREE};
use crate::devices::{Failing, audit, is_answer};
use std::test::*;

/// What hands read, and the status of an audit with it.
const HANDS: [(&[u8], &str); 32] = [
    (b"", "ok"),
    (b"hand b1-1 c1 s1", "ok"),
    (b"hand b1-1 c1 s1\n", "ok"),
    (b"hand b1-1 c1 s1\nhand b1-1 c2 -", "ok"),
    (b"hand b1-1 c1 s2 s1\n", "ok"),
    (b"\n", "hand 1"),
    (b"hand b1-1 c1 s1\n\n", "hand 2"),
    (b"hand b1-1 c1 s1\r\n", "hand 1"),
    (b"hand b1-1 c1 -\r\n", "hand 1"),
    (b"hand b1-1 c1\n", "hand 1"),
    (b"hand b1-1 c1 \n", "hand 1"),
    (b"hand b1-1\n", "hand 1"),
    (b"hand\n", "hand 1"),
    (b"hands b1-1 c1 s1\n", "hand 1"),
    (b"Hand b1-1 c1 s1\n", "hand 1"),
    (b" hand b1-1 c1 s1\n", "hand 1"),
    (b"hand  b1-1 c1 s1\n", "hand 1"),
    (b"hand\tb1-1 c1 s1\n", "hand 1"),
    (b"hand b1-1 c1 s1 \n", "hand 1"),
    (b"hand b1-9 c1 s1\n", "hand 1"),
    (b"hand b1-1 c9 s1\n", "hand 1"),
    (b"hand b1-1 c1 s9\n", "hand 1"),
    (b"hand b1-1 c1 t1\n", "hand 1"),
    (b"hand b1-1 c1 s1 s1\n", "hand 1"),
    (b"hand b1-1 c1 s1 s2 s1\n", "hand 1"),
    (b"hand b1-1 c1 - s1\n", "hand 1"),
    (b"hand b1-1 c1 s1 -\n", "hand 1"),
    (b"hand b1-1 c1 - -\n", "hand 1"),
    (b"hand b1-1 c1 \xff\n", "hand 1"),
    (b"hand b1-1 c1 s1\nhand b1-1 c1 s2\n", "hand 2"),
    (
        b"hand b1-1 c1 s1\nhand b1-2 c1 s1\nhand b1-1 c1 -\nx\n",
        "hand 3",
    ),
    (
        b"hand b1-1 c1 s1\nhand b1-2 c1 s1\nhand b1-9 c1 -\n\n",
        "hand 3",
    ),
];

#[test]
fn lines_are_read(rt: HostRuntime) -> Result<(), Fail> {
    for (hand, status) in HANDS {
        let files = [("R", THREE), ("H", hand)];
        let line = ["audit", "R", NOUGHT, "1", "H"];
        let answer = audit(rt.alloc(), &files, &line, Failing::NONE)?;
        assert!(rt; answer.status.as_str() == status, "{}", answer.status);
        assert!(rt;
            status == "ok" || answer.text.is_empty(),
            "nothing is written"
        );
    }
    Ok(())
}

#[test]
fn a_line_of_a_megabyte_is_refused(rt: HostRuntime) -> Result<(), Fail> {
    let alloc = rt.alloc();
    let mut hand = String::from_str(alloc, "hand b1-1 c1")?;
    for _again in 0..350_000 {
        hand.push_str(" s1")?;
    }
    let files = [("R", THREE), ("H", hand.as_bytes())];
    let line = ["audit", "R", NOUGHT, "1", "H"];
    let answer = audit(alloc, &files, &line, Failing::NONE)?;
    assert!(rt; is_answer(&answer, "hand 1", b""), "{}", answer.status);
    Ok(())
}
