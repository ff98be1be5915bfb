//! Pages of the town that lie in their scans as far off as they may and a little further, and bubbles
//! with as little and as much ink as they may have. What is expected was worked out by hand.

ghost use Rattle.std.specs.Prelude.{◌<◌, ◌≤◌};

use crate::readings::{
    CLEAR, FIRST, Painted, marked_beside, marked_within, paint_page, read_on, turned,
};
use std::alloc::Global;
use std::process::Abort;
use std::test::Fail;
use vx_bits::BitPage;
use vx_grid::Paper;

/// How a page lies in its scan: so many columns to the right and rows down, each row of the scan by
/// `a` parts of 4096 further to the right, each column of the page by `b` parts further down.
#[derive(Clone, Copy)]
struct Lie {
    right: i32,
    down: i32,
    a: i32,
    b: i32,
}

/// The steepest lie of a page in a frame of 1800 by 2240: it takes 58, 60 to 112, 100, and the other
/// outer marks to 1696, 75, to 145, 2180 and to 1728, 2155.
const STEEP: Lie = Lie {
    right: 53,
    down: 41,
    a: 64,
    b: -64,
};

/// A page that is moved.
fn moved(right: i32, down: i32) -> Lie {
    Lie {
        right,
        down,
        a: 0,
        b: 0,
    }
}

/// Darkens the pixel of a scan that shows a pixel of the page.
fn show(lie: Lie, x: u32, y: u32, scan: &mut BitPage)
    requires x { x < 4096 }
    requires y { y < 4096 }
{
    let fallen = lie.b.wrapping_mul(x as i32).div_euclid(4096);
    let v = (y as i32).wrapping_add(lie.down).wrapping_add(fallen);
    let pushed = lie.a.wrapping_mul(v).div_euclid(4096);
    let u = (x as i32).wrapping_add(lie.right).wrapping_add(pushed);
    if 0 <= u && 0 <= v {
        scan.darken(u as u64, v as u64, 1, 1);
    }
}

/// Shows the dark pixels of a byte of a page's row.
fn show_byte(lie: Lie, byte: u8, x: u32, y: u32, scan: &mut BitPage)
    requires x { x < 4000 }
    requires y { y < 4096 }
{
    for bit in 0..8 {
        if byte.wrapping_shr(7 - bit) & 1 == 1 {
            show(lie, x + bit, y, scan);
        }
    }
}

/// Shows the dark pixels of a page's row.
fn show_row(lie: Lie, row: &[u8], y: u32, scan: &mut BitPage)
    requires { y < 4096 }
{
    for (k, byte) in row.iter().enumerate() {
        if *byte != 0 && k < 400 {
            show_byte(lie, *byte, 8 * k as u32, y, scan);
        }
    }
}

/// The scan of a page that lies so in a frame.
fn scan_of(
    alloc: Global,
    page: &BitPage,
    lie: Lie,
    width: u32,
    height: u32,
) -> Result<BitPage, Fail>
    requires width { (0 < width) × (width ≤ 4096) }
    requires height { (0 < height) × (height ≤ 4096) }
{
    let mut scan = BitPage::new(alloc, width, height)?;
    let view = page.view();
    for y in 0..page.height() {
        show_row(lie, view.row_bytes(y), y, &mut scan);
    }
    Ok(scan)
}

/// The scan of a page on letter paper.
fn letter_scan(alloc: Global, page: &BitPage, lie: Lie) -> Result<BitPage, Fail> {
    scan_of(alloc, page, lie, 1800, 2240)
}

/// A page that lies steeply is read, and its text ends so.
fn assert_steep<R: AllocGlobal + Abort>(rt: &R, page: &BitPage, ending: &str) -> Result<(), Fail> {
    let scan = letter_scan(rt.alloc(), page, STEEP)?;
    let text = read_on(rt.alloc(), Paper::Letter, &scan)?;
    let head = b"page 1 card 0 side 1 kind precinct\nborder ";
    assert!(rt; text.as_slice().starts_with(head), "{ending}");
    assert!(rt; text.as_slice().ends_with(ending.as_bytes()), "{ending}");
    Ok(())
}

#[test]
fn steep_pages_are_read_at_the_bounds_of_ink(rt: HostRuntime) -> Result<(), Fail> {
    let alloc = rt.alloc();
    assert_steep(&rt, &marked_within(alloc)?, "bubble 1 0 1 75 marked\nend\n")?;
    assert_steep(&rt, &marked_beside(alloc, 12)?, " clear\nend\n")?;
    let clear = format!(in alloc; "{CLEAR}end\n")?;
    assert_steep(&rt, &paint_page(alloc, FIRST)?, clear.as_str())
}

/// How the text of a page begins whose corner lies in the last column of its region.
const LAST_CORNER: &[u8] = b"page 1 card 0 side 1 kind precinct\nborder 116,99 165,99 ";

/// The same of a page that is upside down.
const LAST_TURNED: &[u8] = b"page 1 card 0 side 1 kind precinct turned\nborder 116,99 165,99 ";

/// The text of a scan begins so, and that of the scan turned by 180 degrees so.
fn assert_begins<R: AllocGlobal + Abort>(
    rt: &R,
    scan: &BitPage,
    begins: &[u8],
    over: &[u8],
) -> Result<(), Fail> {
    assert_starts(rt, scan, begins)?;
    let back = turned(rt.alloc(), scan)?;
    assert_starts(rt, &back, over)
}

/// The text of a scan begins so.
fn assert_starts<R: AllocGlobal + Abort>(
    rt: &R,
    scan: &BitPage,
    begins: &[u8],
) -> Result<(), Fail> {
    let text = read_on(rt.alloc(), Paper::Letter, scan)?;
    assert!(rt; text.as_slice().starts_with(begins));
    Ok(())
}

/// The first page as it lies in a frame.
fn first_scan(alloc: Global, lie: Lie) -> Result<BitPage, Fail> {
    let page = paint_page(alloc, FIRST)?;
    letter_scan(alloc, &page, lie)
}

/// The text of a scan.
fn assert_text<R: AllocGlobal + Abort>(rt: &R, scan: &BitPage, wanted: &[u8]) -> Result<(), Fail> {
    let text = read_on(rt.alloc(), Paper::Letter, scan)?;
    assert_eq!(rt; text.as_slice(), wanted);
    Ok(())
}

#[test]
fn a_page_is_read_up_to_the_last_corner(rt: HostRuntime) -> Result<(), Fail> {
    let last = first_scan(rt.alloc(), moved(60, 40))?;
    assert_begins(&rt, &last, LAST_CORNER, LAST_TURNED)
}

#[test]
fn a_page_past_the_last_corner_is_none(rt: HostRuntime) -> Result<(), Fail> {
    let past = first_scan(rt.alloc(), moved(61, 40))?;
    assert_text(&rt, &past, b"page 1 fault 2.1 NoCorner\n")?;
    // Upside down it has its marks as it lies, and reserved rows where its code would be.
    let over = turned(rt.alloc(), &past)?;
    assert_text(&rt, &over, b"page 1 fault 3.1 BadPair 0 0 0\n")
}

/// What is read of a page on legal paper that lies so in a frame.
fn read_legal(alloc: Global, page: &BitPage, lie: Lie) -> Result<Vec<u8>, Fail> {
    let scan = scan_of(alloc, page, lie, 1800, 2840)?;
    read_on(alloc, Paper::Legal, &scan)
}

#[test]
fn a_legal_page_is_read_up_to_the_last_corner(rt: HostRuntime) -> Result<(), Fail> {
    let alloc = rt.alloc();
    let legal = Painted {
        paper: Paper::Legal,
        ..FIRST
    };
    let page = paint_page(alloc, legal)?;
    for (lie, begins) in [
        (
            moved(60, 31),
            "page 1 card 0 side 1 kind precinct\nborder 116,104 165,104 ",
        ),
        (moved(61, 31), "page 1 fault 2.1 NoCorner\n"),
        (moved(60, 32), "page 1 fault 2.1 NoCorner\n"),
    ] {
        let text = read_legal(alloc, &page, lie)?;
        assert!(rt; text.as_slice().starts_with(begins.as_bytes()), "{begins}");
    }
    Ok(())
}
