//! Worked rows of `check`. What is expected was worked out by hand from the rules of a certificate.

use crate::scans::{
    answer_of, assert_answer, both_pages, checked, first_page, marked_page, turned,
};
use crate::texts::{CLEAR, MARKED, both_blocks, first_block, with_piece};
use std::process::Abort;
use std::test::Fail;

/// What is written of both pages of the town.
const CERTIFIED: &str = "page 1 certified\npage 2 certified\n";

/// Changes of the readings of both clean pages, with the status and what is written.
const CHANGES: [(&str, &str, &str, &str); 5] = [
    ("border 56,59 ", "border 56,59 ", "ok", CERTIFIED),
    (
        " 297,59 ",
        " 302,59 ",
        "not certified page 1 1 5 302 59 60",
        "",
    ),
    (" 297,59 ", " 298,59 ", "ok", CERTIFIED),
    (
        "bubble 1 0 1 0 ",
        "bubble 1 0 1 4 ",
        "not certified page 1 5 1 4 0",
        "",
    ),
    (
        "bubble 1 0 1 0 clear",
        "bubble 1 0 1 0 marked",
        "not certified page 1 6 1",
        "",
    ),
];

#[test]
fn clean_pages_are_certified_or_not(rt: HostRuntime) -> Result<(), Fail> {
    let alloc = rt.alloc();
    let pages = both_pages(&rt)?;
    let text = both_blocks(alloc)?;
    for (old, new, status, wanted) in CHANGES {
        let readings = with_piece(alloc, text.as_str(), old, new)?;
        let answer = checked(&rt, pages.as_slice(), readings.as_bytes())?;
        assert_answer(&rt, &answer, status, wanted.as_bytes(), new);
    }
    Ok(())
}

/// Readings of a page that lies upside down or not, that is marked or not: the word behind the first line,
/// the bubbles, and the status.
const WAYS: [(bool, bool, &str, &str, &str); 9] = [
    (false, false, "", CLEAR, "ok"),
    (true, false, " turned", CLEAR, "ok"),
    (true, false, "", CLEAR, "not certified page 1 4 0"),
    (false, false, " turned", CLEAR, "not certified page 1 4 0"),
    (false, true, "", MARKED, "ok"),
    (true, true, " turned", MARKED, "ok"),
    (
        true,
        true,
        " turned",
        CLEAR,
        "not certified page 1 5 1 0 96",
    ),
    (
        true,
        true,
        " turned",
        "bubble 0 0 0 96 marked\nbubble 1 0 1 0 clear\n",
        "not certified page 1 5 0 96 0",
    ),
    (true, true, "", MARKED, "not certified page 1 4 0"),
];

/// The first page, marked or not.
fn page_of<R: AllocGlobal>(rt: &R, is_marked: bool) -> Result<Vec<u8>, Fail> {
    if is_marked {
        marked_page(rt)
    } else {
        first_page(rt)
    }
}

/// The first page, marked or not, upside down or not.
fn lying<R: AllocGlobal>(rt: &R, is_over: bool, is_marked: bool) -> Result<Vec<u8>, Fail> {
    let page = page_of(rt, is_marked)?;
    if is_over {
        turned(rt.alloc(), page.as_slice())
    } else {
        Ok(page)
    }
}

#[test]
fn turned_pages_are_certified_as_they_lie(rt: HostRuntime) -> Result<(), Fail> {
    for (is_over, is_marked, word, bubbles, status) in WAYS {
        let scan = lying(&rt, is_over, is_marked)?;
        let readings = first_block(rt.alloc(), word, bubbles)?;
        let answer = checked(&rt, scan.as_slice(), readings.as_bytes())?;
        assert_eq!(rt; answer.status.as_str(), status, "{word} {bubbles}");
    }
    Ok(())
}

#[test]
fn a_turned_page_has_its_bubbles_in_the_page_s_order(rt: HostRuntime) -> Result<(), Fail> {
    let page = lying(&rt, true, true)?;
    let wanted = first_block(rt.alloc(), " turned", MARKED)?;
    let answer = answer_of(&rt, &["read", "e", "s"], page.as_slice(), &[])?;
    assert_eq!(rt; answer.text.as_slice(), wanted.as_bytes());
    assert_certified(
        &rt,
        page.as_slice(),
        answer.text.as_slice(),
        "page 1 certified\n",
    )
}

/// Readings of scans are a certificate, with this text.
fn assert_certified<R: AllocGlobal + Abort>(
    rt: &R,
    scans: &[u8],
    readings: &[u8],
    text: &str,
) -> Result<(), Fail> {
    let answer = checked(rt, scans, readings)?;
    assert_answer(rt, &answer, "ok", text.as_bytes(), text);
    Ok(())
}

#[test]
fn what_read_wrote_is_certified(rt: HostRuntime) -> Result<(), Fail> {
    let mut scans = both_pages(&rt)?;
    // A light image of 8 by 1 pixels is no page.
    scans.extend_from_slice(b"P4\n8 1\n\0")?;
    let told = answer_of(&rt, &["read", "e", "s"], scans.as_slice(), &[])?;
    let wanted = "page 1 certified\npage 2 certified\npage 3 no reading\n";
    assert_certified(&rt, scans.as_slice(), told.text.as_slice(), wanted)
}
