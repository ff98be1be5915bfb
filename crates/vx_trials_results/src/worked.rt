//! Journals that were counted by hand, those of other elections, and devices that fail.

use crate::devices::{Answer, Failing, attempt, exported, is_answer, totals_of};
use std::alloc::{AllocError, Global};
use std::test::*;

/// Two precincts, whose cards stand the other way round; a contest of two seats with write-ins, and a yes/no contest.
pub(crate) const ELECTION: &str =
    r#"{"title":"Town","date":"2026-11-03","districts":[{"id":"d","name":"d"}],"precincts":[{"id":"p","name":"North"},{"id":"q","name":"South"}],"contests":[{"id":"mayor","type":"candidate","districtId":"d","title":"Mayor","seats":2,"candidates":[{"id":"a","name":"A"},{"id":"b","name":"B"},{"id":"c","name":"C"}],"allowWriteIns":true},{"id":"park","type":"yesno","districtId":"d","title":"Park"}],"ballotStyles":[{"id":"s","precincts":["q","p"],"districts":["d"]}],"vxReasons":["Overvote","MarginalMark","WriteIn"]}"#;

/// Its journal's header.
pub(crate) const HEADER: &str =
    "1 election f3c38ac2ffa08b6cbd56113fe5d7208b8700f479b265a19849cff74423cad05c";

pub(crate) const DAY: [&str; 15] = [
    HEADER,
    "1 add b 1 0 1 precinct 0:mmccc 1:mc",
    "1 add b 2 1 1 precinct 0:mcccc 1:cc",
    "1 add b 3 0 1 precinct 0:mmmcc 1:cm",
    "1 add a 1 1 1 precinct 0:cgccc 1:mc",
    "1 claim 1 a 1",
    "1 select 1 a 1 0 0,2",
    "1 select 1 a 1 0 1",
    "1 add b 4 0 1 precinct 0:cccmc 1:mm",
    "1 claim 2 b 4",
    "1 name 2 b 4 0 0 candidate 2",
    "1 release 2 b 4",
    "1 add b 5 1 1 precinct 0:mmmcc 1:cm",
    "1 claim 2 b 5",
    "1 overvote 2 b 5 0",
];

const TEXT: &str = "contest contest-mayor over 2 under 3
total contest-mayor selection-mayor-0 2
total contest-mayor selection-mayor-1 2
total contest-mayor selection-mayor-2 1
total contest-mayor selection-mayor-3 0
total contest-mayor selection-mayor-4 0
contest contest-park over 0 under 1
total contest-park selection-park-0 2
total contest-park selection-park-1 2
unit precinct-p selection-mayor-0 1
unit precinct-p selection-mayor-1 1
unit precinct-p selection-park-0 1
unit precinct-p selection-park-1 1
unit precinct-q selection-mayor-0 1
unit precinct-q selection-mayor-1 1
unit precinct-q selection-mayor-2 1
unit precinct-q selection-park-0 1
unit precinct-q selection-park-1 1
records 6
waiting 2
";

const NOTHING: &str = "contest contest-mayor over 0 under 0
total contest-mayor selection-mayor-0 0
total contest-mayor selection-mayor-1 0
total contest-mayor selection-mayor-2 0
total contest-mayor selection-mayor-3 0
total contest-mayor selection-mayor-4 0
contest contest-park over 0 under 0
total contest-park selection-park-0 0
total contest-park selection-park-1 0
records 0
waiting 0
";

#[test]
fn journals_are_counted_as_by_hand(rt: HostRuntime) -> Result<(), Fail> {
    let rows: [(&[&str], &str); 3] = [(&DAY, TEXT), (&[HEADER], NOTHING), (&[], NOTHING)];
    for (records, text) in rows {
        let answer = attempt(rt.alloc(), ELECTION, records, "E", Failing::NONE)?;
        assert!(rt; is_answer(&answer, "ok", text), "{}", answer.status);
    }
    Ok(())
}

/// How many contests wait once so many records of the day are kept.
const WAITS: [(usize, &str); 6] = [
    (3, "waiting 0\n"),
    (4, "waiting 1\n"),
    (6, "waiting 2\n"),
    (7, "waiting 1\n"),
    (9, "waiting 3\n"),
    (11, "waiting 2\n"),
];

/// The totals of a journal's export, and a line behind them.
fn totals_behind(alloc: Global, records: &[&str], line: &str) -> Result<Answer, AllocError> {
    let report = exported(alloc, ELECTION, records)?;
    let mut totals = totals_of(alloc, report.text.as_slice())?;
    totals.text.extend_from_slice(line.as_bytes())?;
    Ok(totals)
}

#[test]
fn results_are_the_totals_of_the_export(rt: HostRuntime) -> Result<(), Fail> {
    let alloc = rt.alloc();
    for (count, waiting) in WAITS {
        let records = &DAY[..count];
        let answer = attempt(alloc, ELECTION, records, "E", Failing::NONE)?;
        let totals = totals_behind(alloc, records, waiting)?;
        assert!(rt; totals.status.as_str() == "ok", "{}", totals.status);
        assert!(rt;
            answer.text.as_slice() == totals.text.as_slice(),
            "{waiting}"
        );
    }
    Ok(())
}

/// The word, the journal, and the status.
pub(crate) const REFUSED: [(&str, &[&str], &str); 5] = [
    ("F", &[HEADER], "no input 1"),
    ("E", &["1 election 00"], "journal 0 bad 13"),
    (
        "E",
        &["1 election 8434be1f04707c08359ee9ea1bcef9a780454b0d91baed806e9118ab9baee5a5"],
        "journal 0 other election",
    ),
    (
        "E",
        &[HEADER, "1 add b 1 0 1 precinct 0:mc"],
        "journal 1 unfit",
    ),
    ("E", &[HEADER, "1 claim 1 b 1"], "journal 1 2 no sheet"),
];

#[test]
fn journals_are_refused(rt: HostRuntime) -> Result<(), Fail> {
    for (name, records, status) in REFUSED {
        let answer = attempt(rt.alloc(), ELECTION, records, name, Failing::NONE)?;
        assert!(rt;
            is_answer(&answer, status, ""),
            "{status}: {}",
            answer.status
        );
    }
    Ok(())
}

/// The calls that fail, the sink's room, the status and the text: each call of each device in turn, and the one behind
/// the last.
const FAILS: [(&[u64], &[u64], &[(u64, bool)], u64, &str, &str); 9] = [
    (&[1], &[], &[], 2000, "read fault", ""),
    (&[2], &[], &[], 2000, "read fault", ""),
    (&[], &[], &[(1, true)], 2000, "keeper fault", ""),
    (&[], &[], &[(2, true)], 2000, "keeper fault", ""),
    (&[], &[], &[(16, false)], 2000, "keeper fault", ""),
    (&[], &[1], &[], 2000, "write fault", ""),
    (&[], &[], &[], 12, "write fault", "contest cont"),
    (&[], &[2], &[], 2000, "ok", TEXT),
    (&[3], &[], &[(17, true)], 2000, "ok", TEXT),
];

#[test]
fn failing_devices_are_told(rt: HostRuntime) -> Result<(), Fail> {
    for (reads, writes, keeps, room, status, text) in FAILS {
        let failing = Failing {
            reads,
            writes,
            keeps,
            room,
        };
        let answer = attempt(rt.alloc(), ELECTION, &DAY, "E", failing)?;
        assert!(rt;
            is_answer(&answer, status, text),
            "{status}: {}",
            answer.status
        );
    }
    Ok(())
}
