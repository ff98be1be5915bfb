//! The risk that a sample leaves, beside lines that a second program worked out with exact fractions, journals and files
//! of hands that are refused, and devices that fail.

use crate::devices::{Failing, is_answer};
use crate::drawing::risked;
use crate::sampled::HAND;
use crate::worked::{DAY, HEADER};
use std::test::*;

/// What hands read of the day otherwise than it was counted. Of the record `b-3` there is no line, and in `b-5` more
/// are marked than there are seats.
const OTHER: &str = "hand a-1 contest-mayor selection-mayor-0
hand b-1 contest-mayor selection-mayor-2
hand b-2 contest-mayor -
hand b-4 contest-mayor selection-mayor-3
hand b-5 contest-mayor selection-mayor-0 selection-mayor-1 selection-mayor-2
";

/// One sheet, on which no choice loses but one without a vote.
const ALONE: [&str; 2] = [HEADER, "1 add b 1 0 1 precinct 0:mmccc 1:mc"];

/// Two votes for names stand against one for each winner.
const NAMED: [&str; 6] = [
    HEADER,
    "1 add b 1 0 1 precinct 0:mmccc 1:mc",
    "1 add b 2 0 1 precinct 0:cccmm 1:cc",
    "1 claim 1 b 2",
    "1 name 1 b 2 0 0 text Ann",
    "1 name 1 b 2 0 1 text Bob",
];

const THREE: &str = "contest contest-mayor margin 1 one 0 two 0 missing 0 risk 0.778177 open
contest contest-park tie
enough contest-mayor 36
draws 3 records 6 met 0 open 1 tie 1 write-in 0
";

const NOT_ENOUGH: &str = "contest contest-mayor margin 1 one 0 two 0 missing 0 risk 0.053610 open
contest contest-park tie
enough contest-mayor 36
draws 35 records 6 met 0 open 1 tie 1 write-in 0
";

const ENOUGH: &str = "contest contest-mayor margin 1 one 0 two 0 missing 0 risk 0.049311 met
contest contest-park tie
enough contest-mayor 36
draws 36 records 6 met 1 open 0 tie 1 write-in 0
";

const MOST: &str = "contest contest-mayor margin 1 one 0 two 0 missing 0 risk 0.000001 met
contest contest-park tie
enough contest-mayor 83
draws 10000 records 6 met 1 open 0 tie 1 write-in 0
";

const UNREAD: &str = "contest contest-mayor margin 1 one 0 two 4 missing 4 risk 1.000000 open
contest contest-park tie
enough contest-mayor 1
draws 4 records 6 met 0 open 1 tie 1 write-in 0
";

const DIFFERENT: &str = "contest contest-mayor margin 1 one 8 two 1 missing 0 risk 1.000000 open
contest contest-park tie
enough contest-mayor 36
draws 12 records 6 met 0 open 1 tie 1 write-in 0
";

const WRITTEN_IN: &str = "contest contest-mayor write-in
contest contest-park margin 1 one 0 two 0 missing 0 risk 0.252546 open
enough contest-park 9
draws 5 records 2 met 0 open 1 tie 0 write-in 1
";

const UNCONTESTED: &str = "contest contest-mayor margin 1 one 0 two 0 missing 0 risk 0.037581 met
contest contest-park margin 1 one 0 two 0 missing 0 risk 0.037581 met
enough contest-mayor 4
enough contest-park 4
draws 5 records 1 met 2 open 0 tie 0 write-in 0
";

const NOTHING: &str = "contest contest-mayor tie
contest contest-park tie
draws 7 records 0 met 0 open 0 tie 2 write-in 0
";

/// What hands read of the two sheets of `NAMED`, a mark of which the record of the second hasn't.
const TWO: &str =
    "hand b-1 contest-park selection-park-0\nhand b-2 contest-park selection-park-0\n";

/// What hands read of the first of them.
const ONE: &str =
    "hand b-1 contest-park selection-park-0\nhand b-1 contest-mayor selection-mayor-0 selection-mayor-1\n";

/// The journal, how many words are drawn, what hands read, the limit in thousandths, and the text.
const WORKED: [(&[&str], u32, &str, u32, &str); 9] = [
    (&DAY, 3, HAND, 50, THREE),
    (&DAY, 35, HAND, 50, NOT_ENOUGH),
    (&DAY, 36, HAND, 50, ENOUGH),
    (&DAY, 10_000, HAND, 1, MOST),
    (&DAY, 4, "", 999, UNREAD),
    (&DAY, 12, OTHER, 50, DIFFERENT),
    (&NAMED, 5, TWO, 100, WRITTEN_IN),
    (&ALONE, 5, ONE, 100, UNCONTESTED),
    (&[HEADER], 7, "", 50, NOTHING),
];

#[test]
fn risks_are_those_of_exact_fractions(rt: HostRuntime) -> Result<(), Fail> {
    for (records, size, hand, limit, text) in WORKED {
        let answer = risked(rt.alloc(), records, size, hand, "H", limit, Failing::NONE)?;
        assert!(rt;
            is_answer(&answer, "ok", text),
            "{size} {limit}: {}",
            answer.status
        );
    }
    Ok(())
}

/// The journal, what hands read, its name, and the status.
const REFUSED: [(&[&str], &str, &str, &str); 4] = [
    (&["1 election 00"], "no line\n", "N", "journal 0 bad 13"),
    (&DAY, "", "N", "no input 4"),
    (&DAY, "no line\n", "H", "hand 1"),
    (&DAY, "hand a-1 contest-park -\n\n", "H", "hand 2"),
];

#[test]
fn risks_are_refused(rt: HostRuntime) -> Result<(), Fail> {
    for (records, hand, name, status) in REFUSED {
        let answer = risked(rt.alloc(), records, 5, hand, name, 50, Failing::NONE)?;
        assert!(rt;
            is_answer(&answer, status, ""),
            "{status}: {}",
            answer.status
        );
    }
    Ok(())
}

/// The calls that fail, the sink's room, the status and the text: each call of each device in turn, and the one behind
/// the last.
const FAILS: [(&[u64], &[u64], &[(u64, bool)], u64, &str, &str); 11] = [
    (&[1], &[], &[], 2000, "read fault", ""),
    (&[2], &[], &[], 2000, "read fault", ""),
    (&[], &[], &[(1, true)], 2000, "keeper fault", ""),
    (&[], &[], &[(2, true)], 2000, "keeper fault", ""),
    (&[], &[], &[(16, false)], 2000, "keeper fault", ""),
    (&[3], &[], &[], 2000, "read fault", ""),
    (&[4], &[], &[], 2000, "read fault", ""),
    (&[], &[1], &[], 2000, "write fault", ""),
    (&[], &[], &[], 8, "write fault", "contest "),
    (&[], &[2], &[], 2000, "ok", ENOUGH),
    (&[5], &[], &[(17, true)], 2000, "ok", ENOUGH),
];

#[test]
fn failing_devices_of_risks_are_told(rt: HostRuntime) -> Result<(), Fail> {
    for (reads, writes, keeps, room, status, text) in FAILS {
        let failing = Failing {
            reads,
            writes,
            keeps,
            room,
        };
        let answer = risked(rt.alloc(), &DAY, 36, HAND, "H", 50, failing)?;
        assert!(rt;
            is_answer(&answer, status, text),
            "{status}: {}",
            answer.status
        );
    }
    Ok(())
}
