//! Journals whose summary was made by hand, and those that are refused.

use crate::devices::{Failing, is_answer, summarized};
use crate::worked::{ELECTION, HEADER, REFUSED};
use std::test::*;

/// Sheets of two batches: two with an over vote, of which one was ruled and one has a name, one that was cast as a test,
/// a name that was given twice, a slot that names a candidate, and a contest that waits.
const DAY: [&str; 20] = [
    HEADER,
    "1 add b 1 0 1 precinct 0:mmccc 1:mc",
    "1 add b 2 1 1 absentee 0:mcccc 1:cc",
    "1 add a 1 0 1 test-precinct 0:ccmcc 1:cm",
    "1 add b 3 0 1 provisional 0:mmmcc 1:cm",
    "1 add b 4 1 1 precinct 0:cccmm 1:mc",
    "1 add b 5 0 1 absentee 0:cccmc 1:cc",
    "1 add a 2 1 1 absentee 0:mcccm 1:mm",
    "1 add b 6 1 1 absentee 0:mmcmc 1:mc",
    "1 claim 1 b 3",
    "1 overvote 1 b 3 0",
    "1 claim 2 b 4",
    "1 name 2 b 4 0 0 text Zoe",
    "1 name 2 b 4 0 1 text Zoe",
    "1 claim 3 b 5",
    "1 name 3 b 5 0 0 text Al Bo",
    "1 claim 4 a 2",
    "1 name 4 a 2 0 1 candidate 1",
    "1 claim 5 b 6",
    "1 name 5 b 6 0 0 text Zoe",
];

const TEXT: &str = "sheets precinct-p precinct 1
sheets precinct-p absentee 3
sheets precinct-p provisional 0
sheets precinct-p test-precinct 0
sheets precinct-q precinct 1
sheets precinct-q absentee 1
sheets precinct-q provisional 1
sheets precinct-q test-precinct 1
batch b sheets 6 waiting 0
batch a sheets 2 waiting 1
votes contest-mayor precinct-p precinct selection-mayor-0 0
votes contest-mayor precinct-p precinct selection-mayor-1 0
votes contest-mayor precinct-p precinct selection-mayor-2 0
votes contest-mayor precinct-p precinct selection-mayor-3 1
votes contest-mayor precinct-p precinct selection-mayor-4 1
votes contest-mayor precinct-p absentee selection-mayor-0 2
votes contest-mayor precinct-p absentee selection-mayor-1 1
votes contest-mayor precinct-p absentee selection-mayor-2 0
votes contest-mayor precinct-p absentee selection-mayor-3 0
votes contest-mayor precinct-p absentee selection-mayor-4 0
votes contest-mayor precinct-p provisional selection-mayor-0 0
votes contest-mayor precinct-p provisional selection-mayor-1 0
votes contest-mayor precinct-p provisional selection-mayor-2 0
votes contest-mayor precinct-p provisional selection-mayor-3 0
votes contest-mayor precinct-p provisional selection-mayor-4 0
votes contest-mayor precinct-p test-precinct selection-mayor-0 0
votes contest-mayor precinct-p test-precinct selection-mayor-1 0
votes contest-mayor precinct-p test-precinct selection-mayor-2 0
votes contest-mayor precinct-p test-precinct selection-mayor-3 0
votes contest-mayor precinct-p test-precinct selection-mayor-4 0
votes contest-mayor precinct-q precinct selection-mayor-0 1
votes contest-mayor precinct-q precinct selection-mayor-1 1
votes contest-mayor precinct-q precinct selection-mayor-2 0
votes contest-mayor precinct-q precinct selection-mayor-3 0
votes contest-mayor precinct-q precinct selection-mayor-4 0
votes contest-mayor precinct-q absentee selection-mayor-0 0
votes contest-mayor precinct-q absentee selection-mayor-1 0
votes contest-mayor precinct-q absentee selection-mayor-2 0
votes contest-mayor precinct-q absentee selection-mayor-3 1
votes contest-mayor precinct-q absentee selection-mayor-4 0
votes contest-mayor precinct-q provisional selection-mayor-0 0
votes contest-mayor precinct-q provisional selection-mayor-1 0
votes contest-mayor precinct-q provisional selection-mayor-2 0
votes contest-mayor precinct-q provisional selection-mayor-3 0
votes contest-mayor precinct-q provisional selection-mayor-4 0
votes contest-mayor precinct-q test-precinct selection-mayor-0 0
votes contest-mayor precinct-q test-precinct selection-mayor-1 0
votes contest-mayor precinct-q test-precinct selection-mayor-2 1
votes contest-mayor precinct-q test-precinct selection-mayor-3 0
votes contest-mayor precinct-q test-precinct selection-mayor-4 0
over contest-mayor precinct-p precinct 0
over contest-mayor precinct-p absentee 2
over contest-mayor precinct-p provisional 0
over contest-mayor precinct-p test-precinct 0
over contest-mayor precinct-q precinct 0
over contest-mayor precinct-q absentee 0
over contest-mayor precinct-q provisional 2
over contest-mayor precinct-q test-precinct 0
under contest-mayor precinct-p precinct 0
under contest-mayor precinct-p absentee 1
under contest-mayor precinct-p provisional 0
under contest-mayor precinct-p test-precinct 0
under contest-mayor precinct-q precinct 0
under contest-mayor precinct-q absentee 1
under contest-mayor precinct-q provisional 0
under contest-mayor precinct-q test-precinct 1
named contest-mayor Zoe 2
named contest-mayor Al Bo 1
votes contest-park precinct-p precinct selection-park-0 1
votes contest-park precinct-p precinct selection-park-1 0
votes contest-park precinct-p absentee selection-park-0 1
votes contest-park precinct-p absentee selection-park-1 0
votes contest-park precinct-p provisional selection-park-0 0
votes contest-park precinct-p provisional selection-park-1 0
votes contest-park precinct-p test-precinct selection-park-0 0
votes contest-park precinct-p test-precinct selection-park-1 0
votes contest-park precinct-q precinct selection-park-0 1
votes contest-park precinct-q precinct selection-park-1 0
votes contest-park precinct-q absentee selection-park-0 0
votes contest-park precinct-q absentee selection-park-1 0
votes contest-park precinct-q provisional selection-park-0 0
votes contest-park precinct-q provisional selection-park-1 1
votes contest-park precinct-q test-precinct selection-park-0 0
votes contest-park precinct-q test-precinct selection-park-1 1
over contest-park precinct-p precinct 0
over contest-park precinct-p absentee 0
over contest-park precinct-p provisional 0
over contest-park precinct-p test-precinct 0
over contest-park precinct-q precinct 0
over contest-park precinct-q absentee 0
over contest-park precinct-q provisional 0
over contest-park precinct-q test-precinct 0
under contest-park precinct-p precinct 0
under contest-park precinct-p absentee 1
under contest-park precinct-p provisional 0
under contest-park precinct-p test-precinct 0
under contest-park precinct-q precinct 0
under contest-park precinct-q absentee 1
under contest-park precinct-q provisional 0
under contest-park precinct-q test-precinct 0
waiting 1
";

const NOTHING: &str = "sheets precinct-p precinct 0
sheets precinct-p absentee 0
sheets precinct-p provisional 0
sheets precinct-q precinct 0
sheets precinct-q absentee 0
sheets precinct-q provisional 0
votes contest-mayor precinct-p precinct selection-mayor-0 0
votes contest-mayor precinct-p precinct selection-mayor-1 0
votes contest-mayor precinct-p precinct selection-mayor-2 0
votes contest-mayor precinct-p precinct selection-mayor-3 0
votes contest-mayor precinct-p precinct selection-mayor-4 0
votes contest-mayor precinct-p absentee selection-mayor-0 0
votes contest-mayor precinct-p absentee selection-mayor-1 0
votes contest-mayor precinct-p absentee selection-mayor-2 0
votes contest-mayor precinct-p absentee selection-mayor-3 0
votes contest-mayor precinct-p absentee selection-mayor-4 0
votes contest-mayor precinct-p provisional selection-mayor-0 0
votes contest-mayor precinct-p provisional selection-mayor-1 0
votes contest-mayor precinct-p provisional selection-mayor-2 0
votes contest-mayor precinct-p provisional selection-mayor-3 0
votes contest-mayor precinct-p provisional selection-mayor-4 0
votes contest-mayor precinct-q precinct selection-mayor-0 0
votes contest-mayor precinct-q precinct selection-mayor-1 0
votes contest-mayor precinct-q precinct selection-mayor-2 0
votes contest-mayor precinct-q precinct selection-mayor-3 0
votes contest-mayor precinct-q precinct selection-mayor-4 0
votes contest-mayor precinct-q absentee selection-mayor-0 0
votes contest-mayor precinct-q absentee selection-mayor-1 0
votes contest-mayor precinct-q absentee selection-mayor-2 0
votes contest-mayor precinct-q absentee selection-mayor-3 0
votes contest-mayor precinct-q absentee selection-mayor-4 0
votes contest-mayor precinct-q provisional selection-mayor-0 0
votes contest-mayor precinct-q provisional selection-mayor-1 0
votes contest-mayor precinct-q provisional selection-mayor-2 0
votes contest-mayor precinct-q provisional selection-mayor-3 0
votes contest-mayor precinct-q provisional selection-mayor-4 0
over contest-mayor precinct-p precinct 0
over contest-mayor precinct-p absentee 0
over contest-mayor precinct-p provisional 0
over contest-mayor precinct-q precinct 0
over contest-mayor precinct-q absentee 0
over contest-mayor precinct-q provisional 0
under contest-mayor precinct-p precinct 0
under contest-mayor precinct-p absentee 0
under contest-mayor precinct-p provisional 0
under contest-mayor precinct-q precinct 0
under contest-mayor precinct-q absentee 0
under contest-mayor precinct-q provisional 0
votes contest-park precinct-p precinct selection-park-0 0
votes contest-park precinct-p precinct selection-park-1 0
votes contest-park precinct-p absentee selection-park-0 0
votes contest-park precinct-p absentee selection-park-1 0
votes contest-park precinct-p provisional selection-park-0 0
votes contest-park precinct-p provisional selection-park-1 0
votes contest-park precinct-q precinct selection-park-0 0
votes contest-park precinct-q precinct selection-park-1 0
votes contest-park precinct-q absentee selection-park-0 0
votes contest-park precinct-q absentee selection-park-1 0
votes contest-park precinct-q provisional selection-park-0 0
votes contest-park precinct-q provisional selection-park-1 0
over contest-park precinct-p precinct 0
over contest-park precinct-p absentee 0
over contest-park precinct-p provisional 0
over contest-park precinct-q precinct 0
over contest-park precinct-q absentee 0
over contest-park precinct-q provisional 0
under contest-park precinct-p precinct 0
under contest-park precinct-p absentee 0
under contest-park precinct-p provisional 0
under contest-park precinct-q precinct 0
under contest-park precinct-q absentee 0
under contest-park precinct-q provisional 0
waiting 0
";

#[test]
fn summaries_are_made_as_by_hand(rt: HostRuntime) -> Result<(), Fail> {
    let rows: [(&[&str], &str); 3] = [(&DAY, TEXT), (&[HEADER], NOTHING), (&[], NOTHING)];
    for (records, text) in rows {
        let answer = summarized(rt.alloc(), ELECTION, records, "E", Failing::NONE)?;
        assert!(rt; is_answer(&answer, "ok", text), "{}", answer.status);
    }
    Ok(())
}

#[test]
fn summaries_are_refused_as_results_are(rt: HostRuntime) -> Result<(), Fail> {
    for (name, records, status) in REFUSED {
        let answer = summarized(rt.alloc(), ELECTION, records, name, Failing::NONE)?;
        assert!(rt;
            is_answer(&answer, status, ""),
            "{status}: {}",
            answer.status
        );
    }
    Ok(())
}
