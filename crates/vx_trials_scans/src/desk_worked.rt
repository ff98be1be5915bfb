//! Rows of `desk` that were worked by hand.

use crate::desk_printed::{Sheet, sheet_of};
use crate::desks::{Asked, attempt, begun_page, is_answer, page_of, sum_without};
use crate::devices::Failing;
use std::alloc::{AllocError, Global};
use std::test::*;
use vx_base::Bytes;
use vx_town::asked_in_order;

/// A definition of one question on one card, whose title has markup.
const VILLAGE: &str =
    r#"{"title":"Ash & <Elm>","date":"2026-11-03","districts":[{"id":"d","name":"Village"}],"precincts":[{"id":"p","name":"All"}],"contests":[{"id":"well","type":"yesno","districtId":"d","title":"A new well"}],"ballotStyles":[{"id":"s","precincts":["p"],"districts":["d"]}]}"#;

/// The header of its journal.
const HEADER: &str = "1 election 634b38ee29bc4cccf020b682e9f1827193da134e7766bd1f495e20803b5585f6";

/// One contest of one seat with a write-in slot, on legal paper.
const LEGAL: &str =
    r#"{"title":"Town","date":"2026-11-03","districts":[{"id":"d","name":"Town"}],"precincts":[{"id":"p","name":"All"}],"contests":[{"id":"mayor","type":"candidate","districtId":"d","title":"Mayor","seats":1,"candidates":[{"id":"a","name":"Ada"},{"id":"b","name":"Bo"}],"allowWriteIns":true}],"ballotStyles":[{"id":"s","precincts":["p"],"districts":["d"]}],"vxPaper":"legal"}"#;

const LEGAL_HEADER: &str =
    "1 election d9f2eba6d97076c70837add5b2cc9e20bde3f42b684dfdebd1e3fb2761ca42c2";

/// A row's records behind the header, its batch, its scans, the status and the data behind the first line.
type Row = (
    &'static [&'static str],
    &'static str,
    &'static [&'static str],
    &'static str,
    &'static str,
);

/// The first line of data for batch b.
const FIRST: &str = "{\"batch\":\"b\",\"election\":\"Ash \\u0026 \\u003cElm\\u003e\"}\n";

/// Sheets of village records: blank, with a marginal option, marked.
const BLANK_1: &str = "1 add b 1 0 1 precinct 0:cc";

const BLANK_2: &str = "1 add b 2 0 1 precinct 0:cc";

const MARGINAL_1: &str = "1 add b 1 0 1 precinct 0:gc";

const MARGINAL_2: &str = "1 add b 2 0 1 precinct 0:gc";

const MARKED_1: &str = "1 add b 1 0 1 precinct 0:mc";

const NOTHING: &str = "{\"missing\":[],\"waiting\":0}\n";

const ROWS: [Row; 13] = [
    (&[], "b", &["none"], "ok", NOTHING),
    // Nothing of this batch waits; that of another does.
    (
        &[MARKED_1, "1 add a 1 0 1 precinct 0:cc"],
        "b",
        &["sheet"],
        "ok",
        NOTHING,
    ),
    // No scan has them.
    (
        &[BLANK_1, BLANK_2],
        "b",
        &["none", "none"],
        "ok",
        "{\"missing\":[1,2],\"waiting\":2}\n",
    ),
    // An image that is left at the end is passed over.
    (
        &[BLANK_1],
        "b",
        &["front"],
        "ok",
        "{\"missing\":[1],\"waiting\":1}\n",
    ),
    // The sheet was kept with another mark.
    (
        &[MARGINAL_1],
        "b",
        &["sheet"],
        "ok",
        "{\"differs\":true,\"holder\":null,\"number\":1,\"scan\":\"sheet\"}\n{\"missing\":[],\"waiting\":1}\n",
    ),
    (
        &[MARGINAL_1, "1 claim 7 b 1"],
        "b",
        &["front", "none", "back"],
        "ok",
        "{\"differs\":true,\"holder\":7,\"number\":1,\"scan\":\"back\"}\n{\"missing\":[],\"waiting\":1}\n",
    ),
    // Images that can't be read aren't the sheet's.
    (
        &[BLANK_1],
        "b",
        &["small", "back"],
        "ok",
        "{\"differs\":true,\"holder\":null,\"number\":1,\"scan\":\"back\"}\n{\"missing\":[],\"waiting\":1}\n",
    ),
    // The first sheet doesn't wait, the second is numbered over both scans, the third isn't there.
    (
        &[MARKED_1, MARGINAL_2, "1 add b 3 0 1 precinct 0:cc"],
        "b",
        &["small", "small", "sheet"],
        "ok",
        "{\"differs\":true,\"holder\":null,\"number\":2,\"scan\":\"sheet\"}\n{\"missing\":[3],\"waiting\":2}\n",
    ),
    // What is decided waits no longer.
    (
        &[BLANK_1, "1 claim 1 b 1", "1 select 1 b 1 0 1"],
        "b",
        &["sheet"],
        "ok",
        NOTHING,
    ),
    (&[BLANK_1], "b", &["bad"], "pbm 3 1 0", ""),
    (&[BLANK_1], "b", &["front", "bad"], "pbm 4 1 0", ""),
    (&[BLANK_1], "b", &["gone"], "no input 3", ""),
    (
        &[MARGINAL_1],
        "b",
        &["sheet", "gone"],
        "no input 4",
        "{\"differs\":true,\"holder\":null,\"number\":1,\"scan\":\"sheet\"}\n",
    ),
];

/// The records of a row behind the header.
fn behind_header<'a>(
    alloc: Global,
    header: &'a str,
    records: &[&'a str],
) -> Result<Vec<&'a str>, AllocError> {
    let mut all = Vec::new(alloc);
    all.push(header)?;
    for record in records {
        all.push(*record)?;
    }
    Ok(all)
}

/// The page of these data behind the first line, or what of it was written before the command halted.
fn wanted(alloc: Global, status: &str, lines: &str) -> Result<Bytes, Fail> {
    let data = format!(in alloc; "{FIRST}{lines}")?;
    if status == "ok" {
        page_of(alloc, data.as_str())
    } else {
        begun_page(alloc, data.as_str())
    }
}

/// Whether a row is answered so.
fn is_row(alloc: Global, sheet: &Sheet, row: Row) -> Result<bool, Fail> {
    let (records, batch, scans, status, lines) = row;
    let records = behind_header(alloc, HEADER, records)?;
    let asked = Asked {
        election: VILLAGE,
        records: records.as_slice(),
        batch,
        scans,
    };
    let answer = attempt(alloc, asked, sheet, Failing::NONE)?;
    Ok(is_answer(&answer, status, &wanted(alloc, status, lines)?))
}

#[test]
fn rows_are_answered(rt: HostRuntime) -> Result<(), Fail> {
    let sheet = sheet_of(rt.alloc(), VILLAGE)?;
    for row in ROWS {
        assert!(rt; is_row(rt.alloc(), &sheet, row)?, "{}", row.4);
    }
    Ok(())
}

/// The election, its journal, the scans, the member with the name of the scan that has the second image, and the sum of
/// the data without that member, which was worked out from the printed pages by another program: the lines, and in them the
/// pixels round the contest's block.
type Pictured = (
    &'static str,
    &'static [&'static str],
    &'static [&'static str],
    &'static str,
    [u8; 32],
);

const IN_SHEET: &str = ",\"scan\":\"sheet\"";

const IN_FRONT: &str = ",\"scan\":\"front\"";

const IN_BACK: &str = ",\"scan\":\"back\"";

const VILLAGE_SUM: [u8; 32] = [
    0x4a, 0x4e, 0x19, 0x10, 0x2b, 0x23, 0xad, 0x9b, 0xcd, 0x0b, 0x4b, 0x9d, 0x9e, 0x4f, 0x82, 0xb1,
    0xb1, 0xa4, 0x28, 0x9e, 0x98, 0xb0, 0xc4, 0x6c, 0xf2, 0x2e, 0x75, 0x02, 0x38, 0xbf, 0xa2, 0x72,
];

const LEGAL_SUM: [u8; 32] = [
    0xde, 0x6d, 0x1f, 0xe5, 0x79, 0x2b, 0xaa, 0x19, 0x8e, 0x51, 0x70, 0x6e, 0xaf, 0x77, 0xdf, 0x23,
    0x26, 0x99, 0x31, 0x7c, 0xae, 0xc5, 0x3a, 0x1d, 0xcb, 0x98, 0x52, 0x8b, 0xda, 0xc2, 0xfc, 0x16,
];

const LEGAL_DAY: [&str; 2] = [LEGAL_HEADER, "1 add b 1 0 1 precinct 0:ccc"];

const PICTURED: [Pictured; 5] = [
    (
        VILLAGE,
        &[HEADER, BLANK_1],
        &["sheet"],
        IN_SHEET,
        VILLAGE_SUM,
    ),
    (
        VILLAGE,
        &[HEADER, BLANK_1],
        &["back", "front"],
        IN_FRONT,
        VILLAGE_SUM,
    ),
    (
        VILLAGE,
        &[HEADER, BLANK_1],
        &["over", "back"],
        IN_BACK,
        VILLAGE_SUM,
    ),
    (LEGAL, &LEGAL_DAY, &["front", "back"], IN_BACK, LEGAL_SUM),
    (LEGAL, &LEGAL_DAY, &["over", "back"], IN_BACK, LEGAL_SUM),
];

/// Whether the data of a page have this sum.
fn is_pictured(alloc: Global, pictured: Pictured) -> Result<bool, Fail> {
    let (election, records, scans, member, sum) = pictured;
    let asked = Asked {
        election,
        records,
        batch: "b",
        scans,
    };
    let sheet = sheet_of(alloc, election)?;
    let answer = attempt(alloc, asked, &sheet, Failing::NONE)?;
    let found = sum_without(alloc, answer.text.as_slice(), member)?;
    Ok(answer.status.as_str() == "ok" && found == sum)
}

#[test]
fn a_contest_s_picture_is_the_page_s(rt: HostRuntime) -> Result<(), Fail> {
    for pictured in PICTURED {
        assert!(rt; is_pictured(rt.alloc(), pictured)?, "{}", pictured.0);
    }
    Ok(())
}

#[test]
fn the_election_and_then_the_scans_are_asked(rt: HostRuntime) -> Result<(), Fail> {
    let alloc = rt.alloc();
    let sheet = sheet_of(alloc, VILLAGE)?;
    let asked = Asked {
        election: VILLAGE,
        records: &[HEADER, BLANK_1],
        batch: "b",
        scans: &["front", "back", "small"],
    };
    let answer = attempt(alloc, asked, &sheet, Failing::NONE)?;
    let names = asked_in_order(alloc, &["e", "front", "back", "small"])?;
    assert_eq!(rt; answer.heard.as_str(), names.as_str());
    Ok(())
}

/// The election's name, its journal, and the status, before which nothing is written.
const REFUSED: [(&str, &[&str], &str); 3] = [
    ("{}", &[HEADER], "election 2 title"),
    (VILLAGE, &[LEGAL_HEADER], "journal 0 other election"),
    (VILLAGE, &[HEADER, "1 claim 1 b 1"], "journal 1 2 no sheet"),
];

#[test]
fn nothing_is_written_of_what_is_refused(rt: HostRuntime) -> Result<(), Fail> {
    let alloc = rt.alloc();
    let sheet = sheet_of(alloc, VILLAGE)?;
    let nothing = Bytes::new(alloc);
    for (election, records, status) in REFUSED {
        let asked = Asked {
            election,
            records,
            batch: "b",
            scans: &["sheet"],
        };
        let answer = attempt(alloc, asked, &sheet, Failing::NONE)?;
        assert!(rt; is_answer(&answer, status, &nothing), "{}", answer.status);
    }
    Ok(())
}

const TOLD: &str = "{\"differs\":true,\"holder\":null,\"number\":1,\"scan\":\"sheet\"}\n";

const ALL: &str =
    "{\"differs\":true,\"holder\":null,\"number\":1,\"scan\":\"sheet\"}\n{\"missing\":[],\"waiting\":1}\n";

/// How far the page was written.
#[derive(Clone, Copy)]
enum Written {
    Nothing,
    Begun(&'static str),
    Whole(&'static str),
}

use Written::{Begun, Nothing, Whole};

/// The calls that fail, the status, and what was written: each call of each device in turn, and the one behind the last.
const FAILS: [(&[u64], &[u64], &[(u64, bool)], &str, Written); 14] = [
    (&[1], &[], &[], "read fault", Nothing),
    (&[2], &[], &[], "read fault", Nothing),
    (&[3], &[], &[], "read fault", Begun("")),
    (&[4], &[], &[], "read fault", Begun("")),
    (&[5], &[], &[], "read fault", Begun(TOLD)),
    (&[6], &[], &[], "ok", Whole(ALL)),
    (&[], &[1], &[], "write fault", Nothing),
    (&[], &[2], &[], "write fault", Begun("")),
    (&[], &[3], &[], "write fault", Begun(TOLD)),
    (&[], &[4], &[], "ok", Whole(ALL)),
    (&[], &[], &[(1, false)], "keeper fault", Nothing),
    (&[], &[], &[(2, false)], "keeper fault", Nothing),
    (&[], &[], &[(3, false)], "keeper fault", Nothing),
    (&[], &[], &[(4, false)], "ok", Whole(ALL)),
];

fn text_of(alloc: Global, written: Written) -> Result<Bytes, Fail> {
    match written {
        Nothing => Ok(Bytes::new(alloc)),
        Begun(lines) => wanted(alloc, "", lines),
        Whole(lines) => wanted(alloc, "ok", lines),
    }
}

#[test]
fn failing_devices_are_told(rt: HostRuntime) -> Result<(), Fail> {
    let alloc = rt.alloc();
    let sheet = sheet_of(alloc, VILLAGE)?;
    let asked = Asked {
        election: VILLAGE,
        records: &[HEADER, MARGINAL_1],
        batch: "b",
        scans: &["sheet", "none"],
    };
    for (reads, writes, keeps, status, written) in FAILS {
        let failing = Failing {
            reads,
            writes,
            keeps,
            room: 1_000_000,
        };
        let answer = attempt(alloc, asked, &sheet, failing)?;
        let text = text_of(alloc, written)?;
        assert!(rt; is_answer(&answer, status, &text), "{}", answer.status);
    }
    Ok(())
}
