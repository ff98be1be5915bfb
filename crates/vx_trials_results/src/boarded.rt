//! Pages for those who hold the paper, whose data were written by hand, and devices that fail.

use crate::devices::{Answer, Failing};
use crate::drawing::boarded;
use crate::worked::{DAY, HEADER};
use std::alloc::{AllocError, Global};
use std::test::*;

/// What stands right before the data, and right behind them.
const OPENING: &str = "<script type=\"text/plain\" id=\"data\">\n";

const CLOSING: &str = "</script>\n<noscript>";

/// The first line up to the number of records.
const FRONT: &str =
    r#"{"cards":[{"contests":[0,1],"precinct":"South","style":"s"},{"contests":[0,1],"precinct":"North","style":"s"}],"contests":[{"name":"contest-mayor","options":[{"label":"A","name":"selection-mayor-0","slot":0},{"label":"B","name":"selection-mayor-1","slot":0},{"label":"C","name":"selection-mayor-2","slot":0},{"label":"","name":"selection-mayor-3","slot":1},{"label":"","name":"selection-mayor-4","slot":2}],"seats":2,"title":"Mayor"},{"name":"contest-park","options":[{"label":"Yes","name":"selection-park-0","slot":0},{"label":"No","name":"selection-park-1","slot":0}],"seats":1,"title":"Park"}],"election":"Town","records":"#;

const BOTH: &str =
    r#"6,"seed":"0000000000000000000000000000000000000000000000000000000000000000","size":4}
{"batch":"a","card":1,"name":"a-1","number":1}
{"batch":"b","card":1,"name":"b-5","number":5}
{"ballots":2}
"#;

const ONE: &str =
    r#"6,"seed":"0000000000000000000000000000000000000000000000000000000000000000","size":3}
{"batch":"a","card":1,"name":"a-1","number":1}
{"ballots":1}
"#;

const NONE: &str =
    r#"0,"seed":"0000000000000000000000000000000000000000000000000000000000000000","size":7}
{"ballots":0}
"#;

/// The day's ballots, marked otherwise, and nothing decided.
const OTHERWISE: [&str; 7] = [
    HEADER,
    "1 add b 1 0 1 precinct 0:ccccc 1:cc",
    "1 add b 2 1 1 precinct 0:mmmmm 1:mm",
    "1 add b 3 0 1 precinct 0:ccccc 1:mc",
    "1 add a 1 1 1 precinct 0:ccccm 1:gc",
    "1 add b 4 0 1 precinct 0:mcccc 1:cc",
    "1 add b 5 1 1 precinct 0:ggggg 1:mc",
];

/// Whether a text has another within it.
fn has(text: &[u8], part: &[u8]) -> bool {
    let length = part.len();
    if length == 0 {
        return true;
    }
    text.windows(length).any(|some| some == part)
}

/// The data of a page by their end, between what stands around them.
fn wanted(alloc: Global, end: &str) -> Result<String, AllocError> {
    format!(in alloc; "{OPENING}{FRONT}{end}{CLOSING}")
}

/// Whether an answer is a page with these data.
fn has_data(alloc: Global, answer: &Answer, end: &str) -> Result<bool, AllocError> {
    let data = wanted(alloc, end)?;
    Ok(answer.status.as_str() == "ok" && has(answer.text.as_slice(), data.as_str().as_bytes()))
}

/// A journal, how many words are drawn, and the end of the data. With a key of zeros the first four words draw the
/// places 0, 0, 0 and 5 of six.
const PAGES: [(&[&str], u32, &str); 3] = [(&DAY, 4, BOTH), (&DAY, 3, ONE), (&[HEADER], 7, NONE)];

#[test]
fn pages_have_the_data_written_by_hand(rt: HostRuntime) -> Result<(), Fail> {
    for (records, size, end) in PAGES {
        let answer = boarded(rt.alloc(), records, size, Failing::NONE)?;
        assert!(rt; has_data(rt.alloc(), &answer, end)?, "{}", answer.status);
    }
    Ok(())
}

#[test]
fn marks_and_decisions_change_no_byte(rt: HostRuntime) -> Result<(), Fail> {
    let one = boarded(rt.alloc(), &DAY, 100, Failing::NONE)?;
    let other = boarded(rt.alloc(), &OTHERWISE, 100, Failing::NONE)?;
    assert!(rt; one.status.as_str() == "ok");
    assert!(rt; one.text.as_slice() == other.text.as_slice());
    Ok(())
}

/// The calls that fail, the journal, and the status: the page isn't begun.
const FAILS: [(&[u64], &[u64], &[(u64, bool)], &[&str], &str); 4] = [
    (&[1], &[], &[], &DAY, "read fault"),
    (&[], &[], &[(1, true)], &DAY, "keeper fault"),
    (&[], &[1], &[], &DAY, "write fault"),
    (&[], &[], &[], &["1 election 00"], "journal 0 bad 13"),
];

#[test]
fn failing_devices_of_boards_are_told(rt: HostRuntime) -> Result<(), Fail> {
    for (reads, writes, keeps, records, status) in FAILS {
        let failing = Failing {
            reads,
            writes,
            keeps,
            room: 1_000_000,
        };
        let answer = boarded(rt.alloc(), records, 4, failing)?;
        assert!(rt;
            answer.status.as_str() == status,
            "{status}: {}",
            answer.status
        );
        assert!(rt; answer.text.as_slice().is_empty(), "{status}");
    }
    Ok(())
}
