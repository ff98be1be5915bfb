//! Inputs that leave the grammar, words that are no `gray`, inputs that aren't there, and devices that fail.

use crate::devices::{Failing, gray, is_answer};
use std::test::*;

/// The bytes of a scan, and the status of its `gray`, which writes nothing.
const BAD: [(&[u8], &str); 15] = [
    (b"P", "pgm 1 1 0"),
    (b"P5", "pgm 1 2 2"),
    (b"P5 0 5", "pgm 1 2 3"),
    (b"P5 1234567890 1 255 ", "pgm 1 2 3"),
    (b"P5 1 1\n", "pgm 1 2 7"),
    (b"P5 1 1 0 a", "pgm 1 2 7"),
    (b"P5 1 1 255", "pgm 1 2 10"),
    (b"P5 1 1 255#a\na", "pgm 1 2 10"),
    (b"P5 1 1 256 a", "pgm 1 7 256"),
    (b"P5 4097 1 255 a", "pgm 1 3 4097 1"),
    (b"P5 1 4097 255 a", "pgm 1 3 1 4097"),
    (b"P5 4097 1 256 a", "pgm 1 7 256"),
    (b"P5 2 2 255 abc", "pgm 1 4 3 4"),
    (b"P2 1 1 255 0", "pgm 1 1 0"),
    (b"P4 1 1 a", "pgm 1 1 0"),
];

const DARK: &[u8] = b"P5 2 1 255 \x3f\x80";

const DARK_TEXT: &[u8] = b"P4\n2 1\n\x80";

#[test]
fn bad_scans_are_refused(rt: HostRuntime) -> Result<(), Fail> {
    for (scan, status) in BAD {
        let answer = gray(rt.alloc(), &[("A", scan)], &["gray", "A"], Failing::NONE)?;
        assert!(rt; is_answer(&answer, status, b""), "{status}");
    }
    Ok(())
}

#[test]
fn what_stands_before_a_refusal_is_written(rt: HostRuntime) -> Result<(), Fail> {
    let alloc = rt.alloc();
    let second = [("A", b"P5 2 1 255 \x3f\x80P6".as_slice())];
    let answer = gray(alloc, &second, &["gray", "A", "B"], Failing::NONE)?;
    assert!(rt;
        is_answer(&answer, "pgm 1 1 13", DARK_TEXT),
        "another magic"
    );
    let two = [("A", DARK), ("B", b"".as_slice())];
    let answer = gray(alloc, &two, &["gray", "A", "B", "C"], Failing::NONE)?;
    assert!(rt;
        is_answer(&answer, "no input 3", DARK_TEXT),
        "a missing third scan"
    );
    Ok(())
}

#[test]
fn words_are_read(rt: HostRuntime) -> Result<(), Fail> {
    let alloc = rt.alloc();
    let empty = [("A", b"".as_slice())];
    let mut line = ["A"; 66];
    line[0] = "gray";
    for (words, status) in [
        (&["gray"][..], "usage"),
        (&[][..], "usage"),
        (&["grey", "A"][..], "usage"),
        (&["gray", "A", ""][..], "usage"),
        (&["gray", "--help"][..], "usage"),
        (&line[..], "usage"),
        (&line[..65], "ok"),
    ] {
        let answer = gray(alloc, &empty, words, Failing::NONE)?;
        assert!(rt; is_answer(&answer, status, b""), "{status}");
    }
    Ok(())
}

#[test]
fn sixty_four_scans_are_written(rt: HostRuntime) -> Result<(), Fail> {
    let mut line = ["A"; 65];
    line[0] = "gray";
    let answer = gray(rt.alloc(), &[("A", DARK)], &line, Failing::NONE)?;
    assert!(rt; answer.status.as_str() == "ok", "64 scans");
    assert!(rt; answer.text.len() == 64 * 8, "all of them");
    for piece in answer.text.chunks(8) {
        assert!(rt; piece == DARK_TEXT, "one of them");
    }
    Ok(())
}

/// The calls that fail, the sink's room, the status and the text: each call of the inputs and of the sink in
/// turn, and the one behind the last.
const FAILS: [(&[u64], &[u64], u64, &str, &[u8]); 11] = [
    (&[1], &[], 100, "read fault", b""),
    (&[2], &[], 100, "read fault", b""),
    (&[3], &[], 100, "read fault", DARK_TEXT),
    (&[4], &[], 100, "read fault", DARK_TEXT),
    (&[5], &[], 100, "ok", b"P4\n2 1\n\x80P4\n2 1\n\x80"),
    (&[], &[1], 100, "write fault", b""),
    (&[], &[2], 100, "write fault", DARK_TEXT),
    (&[], &[3], 100, "ok", b"P4\n2 1\n\x80P4\n2 1\n\x80"),
    (&[], &[], 3, "write fault", b"P4\n"),
    (&[], &[], 15, "write fault", b"P4\n2 1\n\x80P4\n2 1\n"),
    (&[], &[], 16, "ok", b"P4\n2 1\n\x80P4\n2 1\n\x80"),
];

#[test]
fn failing_devices_are_told(rt: HostRuntime) -> Result<(), Fail> {
    let alloc = rt.alloc();
    let files = [("A", DARK), ("B", DARK)];
    for (reads, writes, room, status, text) in FAILS {
        let failing = Failing {
            reads,
            writes,
            room,
            ..Failing::NONE
        };
        let answer = gray(alloc, &files, &["gray", "A", "B"], failing)?;
        assert!(rt; is_answer(&answer, status, text), "{status}");
    }
    Ok(())
}
