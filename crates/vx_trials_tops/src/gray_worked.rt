//! Images that were worked by hand.

use crate::devices::{Failing, gray, is_answer};
use std::test::*;

/// The bytes of a scan, the status and the text of its `gray`.
const ROWS: [(&[u8], &str, &[u8]); 8] = [
    (b"P5\n2 1\n255\n\x3f\x80", "ok", b"P4\n2 1\n\x80"),
    (b"P5\n2 1\n255\n\x40\x80", "ok", b"P4\n2 1\n\x00"),
    (b"P5\n2 1\n65535\n\x00\x3f\x00\x80", "pgm 1 7 65535", b""),
    (b"P5\n2 1\n10\n\x3f\x80", "ok", b"P4\n2 1\n\x80"),
    (b"P5#255\n2\t1 #\r1 \x3f\x80", "ok", b"P4\n2 1\n\x80"),
    (
        b"P5 1 1 255 \x07P5 2 1 255 \x3f\x80",
        "ok",
        b"P4\n1 1\n\x00P4\n2 1\n\x80",
    ),
    (
        b"P5 9 1 255 \x3f\x3f\x3f\x3f\x3f\x3f\x3f\x3f\x80",
        "ok",
        b"P4\n9 1\n\xff\x00",
    ),
    (b"", "ok", b""),
];

#[test]
fn images_are_as_worked_by_hand(rt: HostRuntime) -> Result<(), Fail> {
    for (scan, status, text) in ROWS {
        let answer = gray(rt.alloc(), &[("A", scan)], &["gray", "A"], Failing::NONE)?;
        assert!(rt; is_answer(&answer, status, text), "{status}");
    }
    Ok(())
}
