//! Pages of the town, clean and changed, and what `read` writes of them. What is expected was worked
//! out by hand from the rules of a scan, or made by another program.

ghost use Rattle.std.specs.Prelude.{◌<◌, ◌^◌};

use crate::town::{definition_on, town_on};
use std::alloc::Global;
use std::process::Abort;
use std::test::Fail;
use vx_base::Bytes;
use vx_bits::{BitPage, BitView};
use vx_code::{PageCode, tag_of, version_of};
use vx_command_read::read;
use vx_election_model::Election;
use vx_grid::{Kind, Paper};
use vx_io::{Calls, MemInputs, MemSink, NamedBytes};
use vx_json::{Text, Texts};
use vx_layout::plan_card;
use vx_pbm::write_p4;
use vx_raster::paint;
use vx_town::BORDER;

/// The timing marks of a clean page on legal paper.
const LEGAL_BORDER: &str =
    "border 56,73 105,73 153,73 201,73 249,73 297,73 345,73 393,73 441,73 489,73 537,73 585,73 633,73 681,73 729,73 777,73 825,73 873,73 921,73 969,73 1017,73 1065,73 1113,73 1161,73 1209,73 1257,73 1305,73 1353,73 1401,73 1449,73 1497,73 1545,73 1593,73 1641,73 1641,125 1641,177 1641,229 1641,281 1641,333 1641,385 1641,437 1641,489 1641,541 1641,593 1641,645 1641,697 1641,749 1641,801 1641,853 1641,905 1641,957 1641,1009 1641,1061 1641,1113 1641,1165 1641,1217 1641,1269 1641,1321 1641,1373 1641,1425 1641,1477 1641,1529 1641,1581 1641,1633 1641,1685 1641,1737 1641,1789 1641,1841 1641,1893 1641,1945 1641,1997 1641,2049 1641,2101 1641,2153 1641,2205 1641,2257 1641,2309 1641,2361 1641,2413 1641,2465 1641,2517 1641,2569 1641,2621 1641,2673 1641,2725 57,125 57,177 57,229 57,281 57,333 57,385 57,437 57,489 57,541 57,593 57,645 57,697 57,749 57,801 57,853 57,905 57,957 57,1009 57,1061 57,1113 57,1165 57,1217 57,1269 57,1321 57,1373 57,1425 57,1477 57,1529 57,1581 57,1633 57,1685 57,1737 57,1789 57,1841 57,1893 57,1945 57,1997 57,2049 57,2101 57,2153 57,2205 57,2257 57,2309 57,2361 57,2413 57,2465 57,2517 57,2569 57,2621 57,2673 57,2725 105,2725 153,2725 201,2725 249,2725 297,2725 345,2725 393,2725 441,2725 489,2725 537,2725 585,2725 633,2725 681,2725 729,2725 777,2725 825,2725 873,2725 921,2725 969,2725 1017,2725 1065,2725 1113,2725 1161,2725 1209,2725 1257,2725 1305,2725 1353,2725 1401,2725 1449,2725 1497,2725 1545,2725 1593,2725\n";

/// The first page without a mark.
pub(crate) const CLEAR: &str = "bubble 0 0 0 0 clear\nbubble 1 0 1 0 clear\n";

/// What is painted on a page: its paper, which page of the card, and the card, the page and the tag of
/// its code.
#[derive(Clone, Copy)]
pub(crate) struct Painted {
    pub(crate) paper: Paper,
    pub(crate) page: usize,
    pub(crate) card: u32,
    pub(crate) number: u32,
    pub(crate) is_other: bool,
}

/// The first page.
pub(crate) const FIRST: Painted = Painted {
    paper: Paper::Letter,
    page: 0,
    card: 0,
    number: 1,
    is_other: false,
};

/// The election's tag, or that of another.
fn tag_on(election: &Election, is_other: bool) -> u32
    ensures { result < 2 ^ 20 }
{
    if is_other {
        0xabcde
    } else {
        tag_of(&election.digest)
    }
}

/// A page of the town's card.
pub(crate) fn paint_page(alloc: Global, painted: Painted) -> Result<BitPage, Fail> {
    let election = town_on(alloc, painted.paper)?;
    let plan = plan_card(alloc, &election, 0).map_err(|_| "no plan")?;
    let page = plan.pages.as_slice().get(painted.page).ok_or("no page")?;
    let code = PageCode {
        version: version_of(painted.paper),
        test: false,
        kind: Kind::Precinct,
        card: painted.card % 1024,
        page: painted.number % 64,
        tag: tag_on(&election, painted.is_other),
    };
    Ok(paint(alloc, &election, page, &code)?)
}

/// The text that `read` writes of a page of the town on letter paper.
fn read_text(alloc: Global, page: &BitPage) -> Result<Vec<u8>, Fail> {
    read_on(alloc, Paper::Letter, page)
}

/// The town's definition on a paper as `e`, and a page as the scan `s`.
fn inputs_on(alloc: Global, paper: Paper, page: &BitPage) -> Result<MemInputs, Fail> {
    let mut files = NamedBytes::new(alloc);
    push_scan(alloc, &mut files, page)?;
    push_definition(alloc, &mut files, paper)?;
    Ok(MemInputs::new(files, Calls::new(alloc)))
}

/// Adds a page as the scan `s`.
fn push_scan(alloc: Global, files: &mut NamedBytes, page: &BitPage) -> Result<(), Fail> {
    let mut scan = Bytes::new(alloc);
    write_p4(&page.view(), &mut scan)?;
    Ok(files.push("s", scan)?)
}

/// Adds the town's definition on a paper as `e`.
fn push_definition(alloc: Global, files: &mut NamedBytes, paper: Paper) -> Result<(), Fail> {
    let definition = definition_on(alloc, paper)?;
    let bytes = Bytes::from_slice(alloc, definition.as_bytes())?;
    Ok(files.push("e", bytes)?)
}

/// The text that `read` writes of a page of the town on a paper.
pub(crate) fn read_on(alloc: Global, paper: Paper, page: &BitPage) -> Result<Vec<u8>, Fail> {
    let mut inputs = inputs_on(alloc, paper, page)?;
    let mut out = MemSink::new(alloc, 10_000, Calls::new(alloc))?;
    read_into(alloc, &mut inputs, &mut out)?;
    Ok(Vec::from_slice(alloc, out.held())?)
}

/// Reads the scan.
fn read_into(alloc: Global, inputs: &mut MemInputs, out: &mut MemSink) -> Result<(), Fail> {
    let mut scans = Texts::new(alloc);
    scans.push(Text::from_str(alloc, "s")?)?;
    Ok(read(alloc, "e", &scans, inputs, out).map_err(|_| "it halts")?)
}

/// Makes pixels of a row light, from column `left` on.
fn lighten(page: &mut BitPage, left: u32, y: u32, width: u32) {
    for i in 0..width.min(4096) {
        let x = left.saturating_add(i);
        if x < page.width() && y < page.height() {
            page.set_dark(x, y, false);
        }
    }
}

/// The text of a page of the town that reads.
fn block(alloc: Global, side: u32, bubbles: &str) -> Result<String, Fail> {
    Ok(format!(in alloc; "page 1 card 0 side {side} kind precinct\n{BORDER}{bubbles}end\n")?)
}

/// The first page, with 19 pixels within the second bubble and so many beside it.
pub(crate) fn marked_beside(alloc: Global, beside: u32) -> Result<BitPage, Fail> {
    let mut page = paint_page(alloc, FIRST)?;
    page.darken(246, 524, 10, 1);
    page.darken(246, 525, 9, 1);
    page.darken(224, 511, beside, 1);
    Ok(page)
}

/// The first page, with 87 pixels within the second bubble, and 12 of its outline light.
pub(crate) fn marked_within(alloc: Global) -> Result<BitPage, Fail> {
    let mut page = paint_page(alloc, FIRST)?;
    page.darken(246, 524, 10, 8);
    page.darken(246, 532, 7, 1);
    lighten(&mut page, 245, 515, 10);
    lighten(&mut page, 241, 516, 2);
    Ok(page)
}

/// A page is read with these bubbles.
fn assert_scored<R: AllocGlobal + Abort>(
    rt: &R,
    page: &BitPage,
    side: u32,
    bubbles: &str,
) -> Result<(), Fail> {
    let wanted = block(rt.alloc(), side, bubbles)?;
    let text = read_text(rt.alloc(), page)?;
    assert_eq!(rt; text.as_slice(), wanted.as_bytes(), "{bubbles}");
    Ok(())
}

#[test]
fn pages_are_read_and_scored(rt: HostRuntime) -> Result<(), Fail> {
    let alloc = rt.alloc();
    let back = Painted {
        page: 1,
        number: 2,
        ..FIRST
    };
    assert_scored(&rt, &paint_page(alloc, back)?, 2, "")?;
    let mut inside = paint_page(alloc, FIRST)?;
    // A timing mark within the page changes nothing.
    inside.darken(832, 1194, 36, 12);
    assert_scored(&rt, &inside, 1, CLEAR)
}

#[test]
fn marks_beside_a_bubble_are_scored(rt: HostRuntime) -> Result<(), Fail> {
    for (beside, bubbles) in [
        (12, "bubble 0 0 0 0 clear\nbubble 1 0 1 31 clear\n"),
        (13, "bubble 0 0 0 0 clear\nbubble 1 0 1 32 marginal\n"),
    ] {
        assert_scored(&rt, &marked_beside(rt.alloc(), beside)?, 1, bubbles)?;
    }
    let within = "bubble 0 0 0 0 clear\nbubble 1 0 1 75 marked\n";
    assert_scored(&rt, &marked_within(rt.alloc())?, 1, within)
}

/// The first page with a timing mark of its top cut.
fn torn(alloc: Global) -> Result<BitPage, Fail> {
    let mut page = paint_page(alloc, FIRST)?;
    for y in 59..62 {
        lighten(&mut page, 295, y, 7);
    }
    Ok(page)
}

/// The first page with both boxes of its first pair dark.
fn paired(alloc: Global) -> Result<BitPage, Fail> {
    let mut page = paint_page(alloc, FIRST)?;
    page.darken(236, 1870, 28, 20);
    Ok(page)
}

/// A page has this fault.
fn assert_fault<R: AllocGlobal + Abort>(rt: &R, page: &BitPage, fault: &str) -> Result<(), Fail> {
    let wanted = format!(in rt.alloc(); "page 1 fault {fault}\n")?;
    let text = read_text(rt.alloc(), page)?;
    assert_eq!(rt; text.as_slice(), wanted.as_bytes(), "{fault}");
    Ok(())
}

#[test]
fn the_first_fault_of_a_scan_is_said(rt: HostRuntime) -> Result<(), Fail> {
    let alloc = rt.alloc();
    for (width, height, fault) in [
        (1500, 2200, "1 FrameSize 1500 2200"),
        (1600, 2400, "2.1 NoCorner"),
    ] {
        assert_fault(&rt, &BitPage::new(alloc, width, height)?, fault)?;
    }
    assert_fault(&rt, &torn(alloc)?, "2.2 NoMark top 5 297 59")?;
    assert_fault(&rt, &paired(alloc)?, "3.1 BadPair 0 560 560")
}

#[test]
fn the_first_fault_of_a_code_is_said(rt: HostRuntime) -> Result<(), Fail> {
    let none = Painted { number: 0, ..FIRST };
    let third = Painted { number: 3, ..FIRST };
    let card = Painted { card: 1, ..third };
    let other = Painted {
        is_other: true,
        ..card
    };
    for (painted, fault) in [
        (other, "4 OtherElection 703710"),
        (card, "5 NoCard 1"),
        (third, "6 NoPage 3"),
        (none, "6 NoPage 0"),
    ] {
        assert_fault(&rt, &paint_page(rt.alloc(), painted)?, fault)?;
    }
    Ok(())
}

/// Darkens the pixels of a page that stand opposite to the dark ones in row `y` of another.
fn turn_row(page: &BitView<'_>, y: u32, back: &mut BitPage)
    requires { y < 4096 }
{
    let (width, height) = (back.width(), back.height());
    for x in 0..width {
        if page.dark(x as i32, y as i32) {
            let top = (height - 1).saturating_sub(y);
            back.darken(u64::from(width - 1 - x), u64::from(top), 1, 1);
        }
    }
}

/// A page turned by 180 degrees.
pub(crate) fn turned(alloc: Global, page: &BitPage) -> Result<BitPage, Fail> {
    let (width, height) = (page.width(), page.height());
    let mut back = BitPage::new(alloc, width, height)?;
    for y in 0..height {
        turn_row(&page.view(), y, &mut back);
    }
    Ok(back)
}

/// A page that is upside down is read so.
fn assert_over<R: AllocGlobal + Abort>(rt: &R, page: &BitPage, wanted: &str) -> Result<(), Fail> {
    let over = turned(rt.alloc(), page)?;
    let text = read_text(rt.alloc(), &over)?;
    assert_eq!(rt; text.as_slice(), wanted.as_bytes());
    Ok(())
}

#[test]
fn a_page_is_read_upside_down(rt: HostRuntime) -> Result<(), Fail> {
    let alloc = rt.alloc();
    let bubbles = "bubble 0 0 0 0 clear\nbubble 1 0 1 75 marked\n";
    let wanted = format!(in alloc;
        "page 1 card 0 side 1 kind precinct turned\n{BORDER}{bubbles}end\n"
    )?;
    assert_over(&rt, &marked_within(alloc)?, wanted.as_str())?;
    // Where it has a fault both ways, the one of the scan as it lies is told: its code rows are blank.
    assert_over(&rt, &paired(alloc)?, "page 1 fault 3.1 BadPair 0 0 0\n")
}

/// A page on legal paper is read with this line.
fn assert_legal<R: AllocGlobal + Abort>(
    rt: &R,
    page: &BitPage,
    line: &str,
    bubbles: &str,
) -> Result<(), Fail> {
    let alloc = rt.alloc();
    let wanted = format!(in alloc; "page 1 card 0 {line}\n{LEGAL_BORDER}{bubbles}end\n")?;
    let text = read_on(alloc, Paper::Legal, page)?;
    assert_eq!(rt; text.as_slice(), wanted.as_bytes(), "{line}");
    Ok(())
}

#[test]
fn legal_pages_are_read(rt: HostRuntime) -> Result<(), Fail> {
    let alloc = rt.alloc();
    let legal = Painted {
        paper: Paper::Legal,
        ..FIRST
    };
    let back = Painted {
        page: 1,
        number: 2,
        ..legal
    };
    assert_legal(&rt, &paint_page(alloc, back)?, "side 2 kind precinct", "")?;
    let first = paint_page(alloc, legal)?;
    assert_legal(&rt, &first, "side 1 kind precinct", CLEAR)?;
    let over = turned(alloc, &first)?;
    assert_legal(&rt, &over, "side 1 kind precinct turned", CLEAR)
}

/// Where the town is on a paper, a page is read so.
fn assert_read<R: AllocGlobal + Abort>(
    rt: &R,
    paper: Paper,
    painted: Painted,
    wanted: &str,
) -> Result<(), Fail> {
    let page = paint_page(rt.alloc(), painted)?;
    let text = read_on(rt.alloc(), paper, &page)?;
    assert_eq!(rt; text.as_slice(), wanted.as_bytes());
    Ok(())
}

#[test]
fn a_page_of_the_other_paper_is_no_frame(rt: HostRuntime) -> Result<(), Fail> {
    let on_letter = "page 1 fault 1 FrameSize 1700 2200\n";
    assert_read(&rt, Paper::Legal, FIRST, on_letter)?;
    let legal = Painted {
        paper: Paper::Legal,
        ..FIRST
    };
    let on_legal = "page 1 fault 1 FrameSize 1700 2800\n";
    assert_read(&rt, Paper::Letter, legal, on_legal)
}
