//! Counts that were worked by hand.

use crate::devices::{is_answer, rank};
use crate::ranked_elections::{AB, AB_HEADER, ABC, ABC_HEADER, MAYOR, MAYOR_HEADER};
use std::test::*;

const TWO_RANKS: &str = r#"{"ranked":[{"id":"mayor","contests":["m1","m2"]}]}"#;

const THREE_RANKS: &str =
    r#"{"ranked":[{"id":"mayor","contests":["mayor-1","mayor-2","mayor-3"]}]}"#;

/// The election, the file, the journal, and the text.
const ROWS: [(&str, &str, &[&str], &str); 8] = [
    (
        ABC,
        TWO_RANKS,
        &[
            ABC_HEADER,
            "1 add b 1 0 1 precinct 0:mcc 1:ccc",
            "1 add b 2 0 1 precinct 0:mcc 1:ccc",
            "1 add b 3 0 1 precinct 0:cmc 1:ccm",
            "1 add b 4 0 1 precinct 0:ccm 1:cmc",
            "1 add b 5 0 1 precinct 0:ccm 1:cmc",
        ],
        "ranked mayor ballots 5 waiting 0\n\
         round 1 a 2 b 1 c 2 exhausted 0\n\
         out b\n\
         round 2 a 2 c 3 exhausted 0\n\
         winner c\n",
    ),
    (
        AB,
        TWO_RANKS,
        &[
            AB_HEADER,
            "1 add b 1 0 1 precinct 0:mc 1:cc",
            "1 add b 2 0 1 precinct 0:cm 1:cc",
        ],
        "ranked mayor ballots 2 waiting 0\n\
         round 1 a 1 b 1 exhausted 0\n\
         out b\n\
         round 2 a 1 exhausted 1\n\
         winner a\n",
    ),
    (
        AB,
        TWO_RANKS,
        &[AB_HEADER],
        "ranked mayor ballots 0 waiting 0\n\
         round 1 a 0 b 0 exhausted 0\n\
         no winner\n",
    ),
    (
        AB,
        TWO_RANKS,
        &[],
        "ranked mayor ballots 0 waiting 0\n\
         round 1 a 0 b 0 exhausted 0\n\
         no winner\n",
    ),
    (AB, r#"{"ranked":[]}"#, &[AB_HEADER], ""),
    (
        MAYOR,
        THREE_RANKS,
        &[
            MAYOR_HEADER,
            "1 add b 1 0 1 precinct 0:mccc 1:cmcc 2:cccm",
            "1 add b 2 0 1 precinct 0:mccc 1:ccmc 2:cccc",
            "1 add b 3 0 1 precinct 0:cmcc 1:cmcc 2:mccc",
            "1 add b 4 0 1 precinct 0:ccmc 1:cmcc 2:mccc",
            "1 add b 5 0 1 precinct 0:ccmc 1:cccm 2:cccc",
            "1 add b 6 0 1 precinct 0:cccm 1:cmcc 2:cccc",
            "1 add b 7 0 1 precinct 0:cccm 1:cccc 2:cccc",
            "1 add b 8 0 1 precinct 0:ccmc 1:mccm 2:cmcc",
            "1 add b 9 0 1 precinct 0:cmcc 1:cccc 2:mccc",
            "1 add b 10 0 1 precinct 0:mcmc 1:cccc 2:cccc",
            "1 claim 1 b 8",
            "1 overvote 1 b 8 1",
        ],
        "ranked mayor ballots 9 waiting 1\n\
         round 1 okafor 2 lindqvist 2 reyes 3 novak 2 exhausted 0\n\
         out novak\n\
         round 2 okafor 2 lindqvist 3 reyes 3 exhausted 1\n\
         out okafor\n\
         round 3 lindqvist 4 reyes 4 exhausted 1\n\
         out reyes\n\
         round 4 lindqvist 5 exhausted 4\n\
         winner lindqvist\n",
    ),
    (
        ABC,
        r#"{"ranked":[{"id":"first","contests":["m2"]},{"id":"second","contests":["m1"]}]}"#,
        &[
            ABC_HEADER,
            "1 add b 1 0 1 precinct 0:mcc 1:gcc",
            "1 add b 2 0 1 precinct 0:mmc 1:cmc",
            "1 claim 7 b 2",
            "1 select 7 b 2 0 1",
        ],
        "ranked first ballots 1 waiting 1\n\
         round 1 a 0 b 1 c 0 exhausted 0\n\
         winner b\n\
         ranked second ballots 2 waiting 0\n\
         round 1 a 1 b 1 c 0 exhausted 0\n\
         out c\n\
         round 2 a 1 b 1 exhausted 0\n\
         out b\n\
         round 3 a 1 exhausted 1\n\
         winner a\n",
    ),
    (
        ABC,
        r#"{"ranked":[{"contests":["m2","m1"],"id":"turned","more":0}],"id":1}"#,
        &[ABC_HEADER, "1 add b 1 0 1 precinct 0:mcc 1:ccm"],
        "ranked turned ballots 1 waiting 0\n\
         round 1 a 0 b 0 c 1 exhausted 0\n\
         winner c\n",
    ),
];

#[test]
fn counts_are_as_worked_by_hand(rt: HostRuntime) -> Result<(), Fail> {
    for (election, file, records, text) in ROWS {
        let answer = rank(rt.alloc(), election, file, records)?;
        assert!(rt; is_answer(&answer, "ok", text.as_bytes()), "{text}");
        assert!(rt; answer.records == records.len(), "records");
    }
    Ok(())
}
