//! Readings that leave their form, or don't fit the scans. What is expected was worked out by hand from the
//! form of readings.

use crate::scans::{Answer, assert_answer, both_pages, checked};
use crate::texts::{both_blocks, with_piece};
use std::process::Abort;
use std::test::Fail;

/// What is written of the first page, and of both.
const FIRST: &str = "page 1 certified\n";

const BOTH: &str = "page 1 certified\npage 2 certified\n";

/// Changes of the readings of both clean pages, with the status and what is written before it.
const CHANGES: [(&str, &str, &str, &str); 18] = [
    // A line ends with a line feed alone.
    ("precinct\n", "precinct\r\n", "line 1", ""),
    ("clear\nend\n", "clear\nend\r\n", "line 5", ""),
    // Numbers have 32 bits, and no sign but that of a place below 0.
    (
        "bubble 0 0 0 0 ",
        "bubble 0 0 0 4294967295 ",
        "page 1 5 0 4294967295 0",
        "",
    ),
    ("bubble 0 0 0 0 ", "bubble 0 0 0 4294967296 ", "line 3", ""),
    ("bubble 0 0 0 0 ", "bubble 0 0 0 -0 ", "line 3", ""),
    ("card 0 ", "card 4294967296 ", "line 1", ""),
    ("card 0 ", "card 00 ", "line 1", ""),
    ("border 56,59 ", "border -0,59 ", "line 2", ""),
    ("border 56,59 ", "border +56,59 ", "line 2", ""),
    ("border 56,59 ", "border 2147483648,59 ", "line 2", ""),
    ("border 56,59 ", "border -7,59 ", "page 1 3 -7 59", ""),
    // There are 146 places, with one blank between two of them.
    ("border 56,59 ", "border ", "line 2", ""),
    ("border 56,59 ", "border 56,59 56,59 ", "line 2", ""),
    ("border 56,59 ", "border 56,59  ", "line 2", ""),
    // Bubbles are numbered in order, and pages too.
    ("bubble 1 0 1 0 ", "bubble 2 0 1 0 ", "line 4", ""),
    ("page 2 ", "page 1 ", "line 6", FIRST),
    ("page 2 ", "page 3 ", "line 6", FIRST),
    // A word that is none of the form's.
    ("clear\nend", "Clear\nend", "line 4", ""),
];

/// Readings of pages are no certificate, for this fault, and this is written before it.
fn assert_told<R: AllocGlobal + Abort>(
    rt: &R,
    pages: &[u8],
    readings: &[u8],
    fault: &str,
    wanted: &str,
) -> Result<(), Fail> {
    let status = format!(in rt.alloc(); "not certified {fault}")?;
    let answer = checked(rt, pages, readings)?;
    assert_answer(rt, &answer, status.as_str(), wanted.as_bytes(), fault);
    Ok(())
}

#[test]
fn a_changed_line_is_told(rt: HostRuntime) -> Result<(), Fail> {
    let alloc = rt.alloc();
    let pages = both_pages(&rt)?;
    let text = both_blocks(alloc)?;
    for (old, new, fault, wanted) in CHANGES {
        let readings = with_piece(alloc, text.as_str(), old, new)?;
        assert_told(&rt, pages.as_slice(), readings.as_bytes(), fault, wanted)?;
    }
    Ok(())
}

/// The first lines of a text, so many of them.
fn front_of(text: &[u8], lines: u32) -> &[u8] {
    let mut ended = 0u32;
    for (place, byte) in text.iter().enumerate() {
        if ended == lines {
            return text.get(..place).unwrap_or(text);
        }
        if *byte == b'\n' {
            ended = ended.saturating_add(1);
        }
    }
    text
}

/// How many lines are left of the readings of both clean pages, what stands behind them, the status, and what
/// is written before it.
const CUTS: [(u32, &[u8], &str, &str); 20] = [
    (0, b"", "not certified pages 0 2", ""),
    (1, b"", "not certified line 2", ""),
    (2, b"", "not certified line 3", ""),
    (3, b"", "not certified line 4", ""),
    (4, b"", "not certified line 5", ""),
    (5, b"", "not certified pages 1 2", FIRST),
    (6, b"", "not certified line 7", FIRST),
    (7, b"", "not certified line 8", FIRST),
    (8, b"", "ok", BOTH),
    // The last line feed may be missing.
    (7, b"end", "ok", BOTH),
    (4, b"end", "not certified pages 1 2", FIRST),
    // What is told of a fault isn't looked at, but there is something.
    (0, b"page 1 fault ", "not certified line 1", ""),
    (0, b"page 1 fault \n", "not certified line 1", ""),
    (0, b"page 1 fault", "not certified line 1", ""),
    (
        0,
        b"page 1 fault ?",
        "not certified pages 1 2",
        "page 1 no reading\n",
    ),
    (
        0,
        b"page 1 fault \xff\xc0 \xfe\npage 2 fault  \n",
        "ok",
        "page 1 no reading\npage 2 no reading\n",
    ),
    // More pages than there are images, and lines behind them.
    (8, b"page 3 fault ?\n", "not certified pages 3 2", BOTH),
    (8, b"page 4 fault ?\n", "not certified line 9", BOTH),
    (8, b"\n", "not certified line 9", BOTH),
    (0, b"\n", "not certified line 1", ""),
];

/// What `check` answers of readings of which these are the front, and those behind it.
fn checked_with<R: AllocGlobal>(
    rt: &R,
    pages: &[u8],
    front: &[u8],
    behind: &[u8],
) -> Result<Answer, Fail> {
    let mut readings = Vec::from_slice(rt.alloc(), front)?;
    readings.extend_from_slice(behind)?;
    checked(rt, pages, readings.as_slice())
}

#[test]
fn a_cut_text_is_told(rt: HostRuntime) -> Result<(), Fail> {
    let alloc = rt.alloc();
    let pages = both_pages(&rt)?;
    let text = both_blocks(alloc)?;
    for (lines, behind, status, wanted) in CUTS {
        let front = front_of(text.as_bytes(), lines);
        let answer = checked_with(&rt, pages.as_slice(), front, behind)?;
        assert_answer(&rt, &answer, status, wanted.as_bytes(), wanted);
    }
    Ok(())
}
