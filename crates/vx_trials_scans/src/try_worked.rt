//! Rows of `try` that were worked by hand.

use crate::devices::{Answer, Failing};
use crate::tries::{attempt, card_of, files_of, is_answer};
use std::alloc::Global;
use std::test::*;
use vx_grid::Kind;
use vx_town::asked_in_order;

/// Scans, and the status and the text of their `try`.
const ROWS: [(&[&str], &str, &str); 14] = [
    (&["none"], "ok", "tried 0 sheets 0 images\n"),
    (
        &["sheet", "sheet"],
        "ok",
        "sheet 1 card 0 pages 1 2\nsheet 2 card 0 pages 1 2\ntried 2 sheets 4 images\n",
    ),
    // An image waits for the next scan's first, and the back may come before the front.
    (
        &["back", "none", "front"],
        "ok",
        "sheet 1 card 0 pages 1 2\ntried 1 sheets 2 images\n",
    ),
    // A back is missing: nothing behind that is told, nor taken.
    (
        &["sheet", "front", "sheet", "sheet"],
        "sheet 2 unpaired",
        "sheet 1 card 0 pages 1 2\nsheet 2 unpaired 2 PagesNotFacing 1 1\n",
    ),
    (
        &["back", "back", "gone"],
        "sheet 1 unpaired",
        "sheet 1 unpaired 2 PagesNotFacing 2 2\n",
    ),
    (
        &["front", "other"],
        "sheet 1 unpaired",
        "sheet 1 unpaired 3 KindsDiffer precinct absentee\n",
    ),
    (
        &["small", "back", "sheet"],
        "sheet 1 unread",
        "sheet 1 unread 1 1 FrameSize 8 1\n",
    ),
    (
        &["sheet", "front", "small"],
        "sheet 2 unread",
        "sheet 1 card 0 pages 1 2\nsheet 2 unread 4 1 FrameSize 8 1\n",
    ),
    (
        &["sheet", "front"],
        "sheet 2 single",
        "sheet 1 card 0 pages 1 2\nsheet 2 single\n",
    ),
    // A last image is told as single, whether it can be read or not.
    (&["small"], "sheet 1 single", "sheet 1 single\n"),
    (&["bad"], "pbm 2 1 0", ""),
    (
        &["behind", "gone"],
        "pbm 2 1 937226",
        "sheet 1 card 0 pages 1 2\n",
    ),
    (&["gone"], "no input 2", ""),
    (
        &["sheet", "gone"],
        "no input 3",
        "sheet 1 card 0 pages 1 2\n",
    ),
];

/// Tries scans over the files of two cards.
fn tried(
    alloc: Global,
    cards: [&[u8]; 2],
    scans: &[&str],
    failing: Failing<'_>,
) -> Result<Answer, Fail> {
    let [card, other] = cards;
    attempt(alloc, files_of(alloc, card, other)?, scans, failing)
}

#[test]
fn rows_are_answered(rt: HostRuntime) -> Result<(), Fail> {
    let alloc = rt.alloc();
    let card = card_of(alloc, Kind::Precinct)?;
    let other = card_of(alloc, Kind::Absentee)?;
    for (scans, status, text) in ROWS {
        let cards = [card.as_slice(), other.as_slice()];
        let answer = tried(alloc, cards, scans, Failing::NONE)?;
        assert!(rt; is_answer(&answer, status, text), "{status}");
    }
    Ok(())
}

#[test]
fn the_election_and_then_the_scans_are_asked(rt: HostRuntime) -> Result<(), Fail> {
    let alloc = rt.alloc();
    let card = card_of(alloc, Kind::Precinct)?;
    let cards = [card.as_slice(), card.as_slice()];
    let answer = tried(alloc, cards, &["front", "back"], Failing::NONE)?;
    let asked = asked_in_order(alloc, &["e", "front", "back"])?;
    assert_eq!(rt; answer.heard.as_str(), asked.as_str());
    Ok(())
}

const ONE: &str = "sheet 1 card 0 pages 1 2\n";

const BOTH: &str = "sheet 1 card 0 pages 1 2\nsheet 2 card 0 pages 1 2\n";

const ALL: &str = "sheet 1 card 0 pages 1 2\nsheet 2 card 0 pages 1 2\ntried 2 sheets 4 images\n";

/// The calls that fail, the sink's room, the status and the text: each call of the inputs and of the sink in turn,
/// and the one behind the last.
const FAILS: [(&[u64], &[u64], u64, &str, &str); 12] = [
    (&[1], &[], 100, "read fault", ""),
    (&[2], &[], 100, "read fault", ""),
    (&[3], &[], 100, "read fault", ""),
    (&[4], &[], 100, "read fault", ""),
    (&[5], &[], 100, "read fault", ONE),
    (&[6], &[], 100, "read fault", ONE),
    (&[7], &[], 100, "ok", ALL),
    (&[], &[1], 100, "write fault", ""),
    (&[], &[2], 100, "write fault", ONE),
    (&[], &[3], 100, "write fault", BOTH),
    (&[], &[4], 100, "ok", ALL),
    (&[], &[], 24, "write fault", "sheet 1 card 0 pages 1 2"),
];

#[test]
fn failing_devices_are_told(rt: HostRuntime) -> Result<(), Fail> {
    let alloc = rt.alloc();
    let card = card_of(alloc, Kind::Precinct)?;
    for (reads, writes, room, status, text) in FAILS {
        let failing = Failing {
            reads,
            writes,
            keeps: &[],
            room,
        };
        let cards = [card.as_slice(), card.as_slice()];
        let answer = tried(alloc, cards, &["sheet", "sheet"], failing)?;
        assert!(rt; is_answer(&answer, status, text), "{status}");
    }
    Ok(())
}

#[test]
fn a_sheet_that_is_none_is_told_or_the_sink_failed(rt: HostRuntime) -> Result<(), Fail> {
    let alloc: Global = rt.alloc();
    let card = card_of(alloc, Kind::Precinct)?;
    let failing = Failing {
        reads: &[],
        writes: &[1],
        keeps: &[],
        room: 100,
    };
    let cards = [card.as_slice(), card.as_slice()];
    let answer = tried(alloc, cards, &["front", "front"], failing)?;
    assert!(rt; is_answer(&answer, "write fault", ""), "its line");
    Ok(())
}
