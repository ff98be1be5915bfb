//! Words that are no `ranked`, inputs that aren't there, journals that can't be read, and devices that fail.

use crate::devices::{Failing, is_answer, ranked};
use crate::ranked_elections::{AB, AB_HEADER, ABC_HEADER};
use std::test::*;

const FILE: &str = r#"{"ranked":[{"id":"g","contests":["m1"]}]}"#;

const TEXT: &str = "ranked g ballots 1 waiting 0\nround 1 a 1 b 0 exhausted 0\nwinner a\n";

const SHEET: &str = "1 add b 1 0 1 precinct 0:mc 1:cc";

#[test]
fn words_are_read(rt: HostRuntime) -> Result<(), Fail> {
    let alloc = rt.alloc();
    let files = [("E", AB.as_bytes()), ("R", FILE.as_bytes())];
    for (words, status) in [
        (&[][..], "usage"),
        (&["ranked"][..], "usage"),
        (&["ranked", "E"][..], "usage"),
        (&["ranked", "E", "R", "R"][..], "usage"),
        (&["rank", "E", "R"][..], "usage"),
        (&["ranked", "", "R"][..], "usage"),
        (&["ranked", "E", ""][..], "usage"),
        (&["ranked", "-E", "R"][..], "usage"),
        (&["ranked", "E", "--help"][..], "usage"),
        (&["ranked", "F", "R"][..], "no input 1"),
        (&["ranked", "E", "F"][..], "no input 2"),
        (&["ranked", "R", "E"][..], "election 2 title"),
    ] {
        let answer = ranked(alloc, &files, &[], words, Failing::NONE)?;
        assert!(rt; is_answer(&answer, status, b""), "{status}");
    }
    Ok(())
}

/// The records of a journal, and the status of a `ranked` whose file isn't even JSON.
const JOURNALS: [(&[&str], &str); 5] = [
    (&[ABC_HEADER], "journal 0 other election"),
    (&["1 election 00"], "journal 0 bad 13"),
    (&[AB_HEADER, "1 add b 1 0 1 precinct 0:mc"], "ranked 1"),
    (&[AB_HEADER, SHEET, SHEET], "journal 2 1 repeated 0"),
    (
        &[AB_HEADER, "1 add b 1 1 1 precinct 0:mc 1:cc"],
        "journal 1 unfit",
    ),
];

#[test]
fn journals_come_before_files(rt: HostRuntime) -> Result<(), Fail> {
    let alloc = rt.alloc();
    let files = [("E", AB.as_bytes()), ("R", b"".as_slice())];
    for (records, status) in JOURNALS {
        let line = ["ranked", "E", "R"];
        let answer = ranked(alloc, &files, records, &line, Failing::NONE)?;
        assert!(rt; is_answer(&answer, status, b""), "{status}");
        assert!(rt; answer.records == records.len(), "records");
    }
    Ok(())
}

/// The calls that fail, the sink's room, the status and the text.
const FAILS: [(&[u64], &[u64], &[(u64, bool)], u64, &str, &str); 10] = [
    (&[1], &[], &[], 1000, "read fault", ""),
    (&[2], &[], &[], 1000, "read fault", ""),
    (&[3], &[], &[], 1000, "read fault", ""),
    (&[4], &[], &[], 1000, "read fault", ""),
    (&[], &[], &[(1, true)], 1000, "keeper fault", ""),
    (&[], &[], &[(2, true)], 1000, "keeper fault", ""),
    (&[], &[], &[(3, false)], 1000, "keeper fault", ""),
    (&[], &[1], &[], 1000, "write fault", ""),
    (&[], &[], &[], 12, "write fault", "ranked g bal"),
    (&[5], &[], &[(4, true)], 1000, "ok", TEXT),
];

#[test]
fn failing_devices_are_told(rt: HostRuntime) -> Result<(), Fail> {
    let alloc = rt.alloc();
    let files = [("E", AB.as_bytes()), ("R", FILE.as_bytes())];
    for (reads, writes, keeps, room, status, text) in FAILS {
        let failing = Failing {
            reads,
            writes,
            keeps,
            room,
        };
        let line = ["ranked", "E", "R"];
        let answer = ranked(alloc, &files, &[AB_HEADER, SHEET], &line, failing)?;
        assert!(rt; is_answer(&answer, status, text.as_bytes()), "{status}");
        assert!(rt; answer.records == 2, "records");
    }
    Ok(())
}
