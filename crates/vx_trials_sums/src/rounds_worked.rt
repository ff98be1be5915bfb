// Rounds that were worked by hand.
use crate::rounds_counting::rounds_text;
use crate::rounds_plain::plain_text;
use std::alloc::{AllocError, Global};
use std::test::*;
use vx_base::ListOf;
use vx_rounds::{Ranking, Rankings};

const ROWS: [(u32, &[&[u32]], &str); 6] = [
    (
        3,
        &[&[0], &[0], &[1, 2], &[2, 1], &[2, 1]],
        "0 2 1 1 2 2 exhausted 0 out 1; 0 2 2 3 exhausted 0; winner 2",
    ),
    (
        2,
        &[&[0], &[1]],
        "0 1 1 1 exhausted 0 out 1; 0 1 exhausted 1; winner 0",
    ),
    (2, &[], "0 0 1 0 exhausted 0; no winner"),
    (1, &[&[0], &[]], "0 1 exhausted 1; winner 0"),
    (
        3,
        &[&[0], &[1], &[2]],
        "0 1 1 1 2 1 exhausted 0 out 2; 0 1 1 1 exhausted 1 out 1; 0 1 exhausted 2; winner 0",
    ),
    (2, &[&[], &[]], "0 0 1 0 exhausted 2; no winner"),
];

fn rankings_of(alloc: Global, rows: &[&[u32]]) -> Result<Rankings, AllocError> {
    let mut rankings = ListOf::new(alloc);
    for row in rows {
        let ranking: Ranking = ListOf::from_vec(Vec::from_slice(alloc, row)?);
        rankings.push(ranking)?;
    }
    Ok(rankings)
}

fn is_same(text: &str, expected: &str) -> bool {
    text == expected
}

#[test]
fn rounds_are_as_worked_by_hand(rt: HostRuntime) -> Result<(), Fail> {
    let alloc = rt.alloc();
    for (candidates, rows, expected) in ROWS {
        let rankings = rankings_of(alloc, rows)?;
        let plain = plain_text(alloc, candidates, &rankings)?;
        let text = rounds_text(alloc, candidates, rankings)?;
        assert!(rt; is_same(text.as_str(), expected), "{text}");
        assert!(rt; is_same(plain.as_str(), expected), "{plain}");
    }
    Ok(())
}
