//! Samples of journals, compared by hand, those that are refused, and devices that fail.

use crate::devices::{Failing, exported, is_answer};
use crate::drawing::{audit_of, sampled};
use crate::worked::{DAY, ELECTION, HEADER};
use std::test::*;

/// What hands read of the day: as it was counted, but for a contest that was passed over, one that waits and one that
/// they read otherwise.
pub(crate) const HAND: &str = "hand a-1 contest-mayor selection-mayor-1
hand a-1 contest-park selection-park-0
hand b-1 contest-mayor selection-mayor-1 selection-mayor-0
hand b-2 contest-mayor selection-mayor-0
hand b-2 contest-park -
hand b-3 contest-mayor -
hand b-3 contest-park selection-park-0
hand b-4 contest-mayor selection-mayor-2
hand b-5 contest-mayor -
hand b-5 contest-park selection-park-1
";

const ALL: &str = "sampled a-1
sampled b-1
missing b-1 contest-park
sampled b-2
sampled b-3
differs b-3 contest-mayor record none hand -
differs b-3 contest-park record selection-park-1 hand selection-park-0
sampled b-4
sampled b-5
sample 6 compared 10 differs 2 missing 1
";

const UNREAD: &str = "sampled a-1
missing a-1 contest-mayor
missing a-1 contest-park
sampled b-5
missing b-5 contest-mayor
missing b-5 contest-park
sample 2 compared 0 differs 0 missing 4
";

const FIRST: &str = "sampled a-1
sample 1 compared 2 differs 0 missing 0
";

const NONE: &str = "sample 0 compared 0 differs 0 missing 0
";

/// How many words are drawn, what hands read, and the text. ChaCha20 with a key of zeros begins with the words ade0b876,
/// 903df1a0, e56a5d40 and 28bd8653, which are 0, 0, 0 and 5 modulo 6.
const DRAWN: [(u32, &str, &str); 4] = [
    (10_000, HAND, ALL),
    (4, "", UNREAD),
    (3, HAND, FIRST),
    (1, HAND, FIRST),
];

#[test]
fn samples_are_compared_as_by_hand(rt: HostRuntime) -> Result<(), Fail> {
    for (size, hand, text) in DRAWN {
        let answer = sampled(rt.alloc(), &DAY, size, hand, "H", Failing::NONE)?;
        assert!(rt; is_answer(&answer, "ok", text), "{}", answer.status);
    }
    Ok(())
}

#[test]
fn a_sample_of_nothing_is_empty(rt: HostRuntime) -> Result<(), Fail> {
    let rows: [&[&str]; 2] = [&[HEADER], &[]];
    for records in rows {
        let answer = sampled(rt.alloc(), records, 7, "", "H", Failing::NONE)?;
        assert!(rt; is_answer(&answer, "ok", NONE), "{}", answer.status);
    }
    Ok(())
}

/// How many records of the day are kept, how many words are drawn, and what hands read: with lines that are refused.
const ALIKE: [(usize, u32, &str); 7] = [
    (2, 1, ""),
    (5, 100, ""),
    (7, 7, "hand b-1 contest-mayor selection-mayor-2\n"),
    (9, 20, "hand b-4 contest-park -\nhand b-4 contest-park -\n"),
    (11, 2, "hand b-5 contest-park -\n"),
    (15, 10_000, HAND),
    (15, 5, "hand b-4 contest-park none\n"),
];

#[test]
fn samples_are_the_audits_of_the_export(rt: HostRuntime) -> Result<(), Fail> {
    let alloc = rt.alloc();
    for (count, size, hand) in ALIKE {
        let records = &DAY[..count];
        let answer = sampled(alloc, records, size, hand, "H", Failing::NONE)?;
        let report = exported(alloc, ELECTION, records)?;
        let audit = audit_of(alloc, report.text.as_slice(), size, hand)?;
        assert_eq!(rt; answer.status.as_str(), audit.status.as_str());
        assert!(rt; answer.text.as_slice() == audit.text.as_slice(), "{hand}");
    }
    Ok(())
}

/// The journal, what hands read, its name, and the status.
const REFUSED: [(&[&str], &str, &str, &str); 7] = [
    (&["1 election 00"], "no line\n", "N", "journal 0 bad 13"),
    (&DAY, "", "N", "no input 4"),
    (&DAY, "no line\n", "H", "hand 1"),
    (
        &DAY,
        "hand a-1 contest-park -\nhand a-1 contest-mayor -\nhand a-1 contest-park -\n",
        "H",
        "hand 3",
    ),
    (
        &DAY,
        "hand a-1 contest-park -\nhand a-2 contest-park -\n",
        "H",
        "hand 2",
    ),
    (&DAY, "hand a-1 contest-park -\n\n", "H", "hand 2"),
    (&[HEADER], "hand a-1 contest-park -\n", "H", "hand 1"),
];

#[test]
fn samples_are_refused(rt: HostRuntime) -> Result<(), Fail> {
    for (records, hand, name, status) in REFUSED {
        let answer = sampled(rt.alloc(), records, 5, hand, name, Failing::NONE)?;
        assert!(rt;
            is_answer(&answer, status, ""),
            "{status}: {}",
            answer.status
        );
    }
    Ok(())
}

/// The calls that fail, the sink's room, the status and the text: each call of each device in turn, and the one behind
/// the last.
const FAILS: [(&[u64], &[u64], &[(u64, bool)], u64, &str, &str); 11] = [
    (&[1], &[], &[], 2000, "read fault", ""),
    (&[2], &[], &[], 2000, "read fault", ""),
    (&[], &[], &[(1, true)], 2000, "keeper fault", ""),
    (&[], &[], &[(2, true)], 2000, "keeper fault", ""),
    (&[], &[], &[(16, false)], 2000, "keeper fault", ""),
    (&[3], &[], &[], 2000, "read fault", ""),
    (&[4], &[], &[], 2000, "read fault", ""),
    (&[], &[1], &[], 2000, "write fault", ""),
    (&[], &[], &[], 12, "write fault", "sampled a-1\n"),
    (&[], &[2], &[], 2000, "ok", ALL),
    (&[5], &[], &[(17, true)], 2000, "ok", ALL),
];

#[test]
fn failing_devices_of_samples_are_told(rt: HostRuntime) -> Result<(), Fail> {
    for (reads, writes, keeps, room, status, text) in FAILS {
        let failing = Failing {
            reads,
            writes,
            keeps,
            room,
        };
        let answer = sampled(rt.alloc(), &DAY, 10_000, HAND, "H", failing)?;
        assert!(rt;
            is_answer(&answer, status, text),
            "{status}: {}",
            answer.status
        );
    }
    Ok(())
}
