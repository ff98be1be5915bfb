//! Files of ranked contests that are refused.

use crate::devices::{Answer, is_answer, rank};
use crate::ranked_elections::MIXED;
use std::alloc::{AllocError, Global};
use std::test::*;

/// The bytes of a file, and the status of its `ranked`, which writes nothing.
const BAD: [(&str, &str); 36] = [
    ("", "ranked 1"),
    ("{\"ranked\":[]", "ranked 1"),
    ("[]", "ranked 3 "),
    ("{}", "ranked 2 ranked"),
    (r#"{"ranked":1}"#, "ranked 3 ranked"),
    (r#"{"ranked":[1]}"#, "ranked 3 ranked[0]"),
    (r#"{"ranked":[{}]}"#, "ranked 2 ranked[0].id"),
    (r#"{"ranked":[{"id":1}]}"#, "ranked 3 ranked[0].id"),
    (r#"{"ranked":[{"id":""}]}"#, "ranked 4 ranked[0].id"),
    (r#"{"ranked":[{"id":"a b"}]}"#, "ranked 4 ranked[0].id"),
    (
        r#"{"ranked":[{"id":"ggggggggggggggggggggggggggggggggggggggggggggggggggggggggggggggggg"}]}"#,
        "ranked 4 ranked[0].id",
    ),
    (r#"{"ranked":[{"id":"g"}]}"#, "ranked 2 ranked[0].contests"),
    (
        r#"{"ranked":[{"id":"g","contests":"m1"}]}"#,
        "ranked 3 ranked[0].contests",
    ),
    (
        r#"{"ranked":[{"id":"g","contests":[]}]}"#,
        "ranked 4 ranked[0].contests",
    ),
    (
        r#"{"ranked":[{"id":"g","contests":[0,1,2,3,4,5,6,7,8,9,10]}]}"#,
        "ranked 4 ranked[0].contests",
    ),
    (
        r#"{"ranked":[{"id":"g","contests":[0,1,2,3,4,5,6,7,8,9]}]}"#,
        "ranked 3 ranked[0].contests[0]",
    ),
    (
        r#"{"ranked":[{"id":"g","contests":["m1",null]}]}"#,
        "ranked 3 ranked[0].contests[1]",
    ),
    (
        r#"{"ranked":[{"id":"g","contests":["m 1"]}]}"#,
        "ranked 4 ranked[0].contests[0]",
    ),
    (
        r#"{"ranked":[{"id":"g","contests":[""]}]}"#,
        "ranked 4 ranked[0].contests[0]",
    ),
    (
        r#"{"ranked":[{"id":"g","contests":["m3"]}]}"#,
        "ranked 6 ranked[0].contests[0] m3",
    ),
    (
        r#"{"ranked":[{"id":"g","contests":["m1","m1"]}]}"#,
        "ranked 5 ranked[0].contests[1] m1",
    ),
    (
        r#"{"ranked":[{"id":"g","contests":["m1"]},{"id":"h","contests":["m1"]}]}"#,
        "ranked 5 ranked[1].contests[0] m1",
    ),
    (
        r#"{"ranked":[{"id":"g","contests":["m1"]},{"id":"g","contests":["m2"]}]}"#,
        "ranked 5 ranked[1].id g",
    ),
    (
        r#"{"ranked":[{"id":"g","contests":["m1"]},{"id":"g"}]}"#,
        "ranked 5 ranked[1].id g",
    ),
    (
        r#"{"ranked":[{"id":"g","contests":["two"]}]}"#,
        "ranked 7 ranked[0].contests[0]",
    ),
    (
        r#"{"ranked":[{"id":"g","contests":["write"]}]}"#,
        "ranked 7 ranked[0].contests[0]",
    ),
    (
        r#"{"ranked":[{"id":"g","contests":["yes"]}]}"#,
        "ranked 7 ranked[0].contests[0]",
    ),
    (
        r#"{"ranked":[{"id":"g","contests":["none"]}]}"#,
        "ranked 7 ranked[0].contests[0]",
    ),
    (
        r#"{"ranked":[{"id":"g","contests":["m1","other"]}]}"#,
        "ranked 7 ranked[0].contests[1]",
    ),
    (
        r#"{"ranked":[{"id":"g","contests":["m1","fewer"]}]}"#,
        "ranked 7 ranked[0].contests[1]",
    ),
    (
        r#"{"ranked":[{"id":"g","contests":["fewer","m1"]}]}"#,
        "ranked 7 ranked[0].contests[1]",
    ),
    (
        r#"{"ranked":[{"id":"g","contests":["m1","party"]}]}"#,
        "ranked 7 ranked[0].contests[1]",
    ),
    (
        r#"{"ranked":[{"id":"g","contests":["party","m1"]}]}"#,
        "ranked 7 ranked[0].contests[1]",
    ),
    (
        r#"{"ranked":[{"id":"g","contests":["m1","far"]}]}"#,
        "ranked 7 ranked[0].contests[1]",
    ),
    (
        r#"{"ranked":[{"id":"g","contests":["m1","two"]},{"id":"g"}]}"#,
        "ranked 7 ranked[0].contests[1]",
    ),
    (
        r#"{"ranked":[{"id":"g","contests":["m1","m1","two"]}]}"#,
        "ranked 5 ranked[0].contests[1] m1",
    ),
];

#[test]
fn bad_files_are_refused(rt: HostRuntime) -> Result<(), Fail> {
    for (file, status) in BAD {
        let answer = rank(rt.alloc(), MIXED, file, &[])?;
        assert!(rt; is_answer(&answer, status, b""), "{status}");
    }
    Ok(())
}

/// A file with so many groups, of none of which anything is said.
fn groups(alloc: Global, count: u32) -> Result<String, AllocError> {
    let mut file = String::from_str(alloc, "{\"ranked\":[0")?;
    for _group in 1..count {
        file.push_str(",0")?;
    }
    file.push_str("]}")?;
    Ok(file)
}

/// What is answered to a file with so many groups.
fn ranked_groups(alloc: Global, count: u32) -> Result<Answer, AllocError> {
    let file = groups(alloc, count)?;
    rank(alloc, MIXED, file.as_str(), &[])
}

#[test]
fn a_file_has_at_most_a_hundred_groups(rt: HostRuntime) -> Result<(), Fail> {
    for (count, status) in [(100, "ranked 3 ranked[0]"), (101, "ranked 4 ranked")] {
        let answer = ranked_groups(rt.alloc(), count)?;
        assert!(rt; is_answer(&answer, status, b""), "{count} groups");
    }
    Ok(())
}

/// An election with so many contests of 25 candidates each, all of them on one card.
fn tall(alloc: Global, contests: u32) -> Result<String, AllocError> {
    let mut text = String::from_str(
        alloc,
        "{\"title\":\"Tall\",\"date\":\"2026-11-03\",\"districts\":[{\"id\":\"d\",\"name\":\"D\"}],\
         \"precincts\":[{\"id\":\"p\",\"name\":\"P\"}],\"contests\":[",
    )?;
    for contest in 0..contests {
        if contest > 0 {
            text.push_str(",")?;
        }
        push_tall(&mut text, contest)?;
    }
    text.push_str(
        "],\"ballotStyles\":[{\"id\":\"s\",\"precincts\":[\"p\"],\"districts\":[\"d\"]}]}",
    )?;
    Ok(text)
}

fn push_tall(text: &mut String, contest: u32) -> Result<(), AllocError> {
    write!(
        text,
        "{{\"id\":\"m{contest}\",\"type\":\"candidate\",\"districtId\":\"d\",\"title\":\"M\","
    )?;
    text.push_str("\"seats\":1,\"candidates\":[{\"id\":\"c\",\"name\":\"C\"}")?;
    for candidate in 1..25u32 {
        write!(text, ",{{\"id\":\"c{candidate}\",\"name\":\"C\"}}")?;
    }
    text.push_str("]}")
}

#[test]
fn a_group_on_two_sheets_is_refused(rt: HostRuntime) -> Result<(), Fail> {
    let alloc = rt.alloc();
    let election = tall(alloc, 8)?;
    for (file, status) in [
        (
            r#"{"ranked":[{"id":"near","contests":["m0","m1"]},{"id":"g","contests":["m2","m7"]}]}"#,
            "ranked 8 0 g",
        ),
        (
            r#"{"ranked":[{"id":"g","contests":["m7","m2"]},{"id":"h","contests":["m6","m1"]}]}"#,
            "ranked 8 0 g",
        ),
    ] {
        let answer = rank(alloc, election.as_str(), file, &[])?;
        assert!(rt; is_answer(&answer, status, b""), "{status}");
    }
    Ok(())
}
