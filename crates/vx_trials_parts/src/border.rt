use std::alloc::{AllocError, Global};
use std::test::Fail;
use vx_bits::BitPage;
use vx_border::trace;
use vx_count::Counter;
use vx_grid::{Paper, Point, Side, mark_of, marks};
use vx_mark_model::BorderFault;

/// A page with the timing marks, moved by some columns and rows.
fn page_with_marks(
    alloc: Global,
    width: u32,
    height: u32,
    right: u32,
    down: u32,
) -> Result<BitPage, AllocError> {
    let mut page = BitPage::new(alloc, width.clamp(1, 4096), height.clamp(1, 4096))?;
    for k in 0..marks(Paper::Letter) {
        let (column, row) = mark_of(Paper::Letter, k);
        let left = (40 + 48 * column.min(33)).saturating_add(right);
        let top = (54 + 52 * row.min(40)).saturating_add(down);
        if left <= 4000 && top <= 4000 && left + 36 <= page.width() && top + 12 <= page.height() {
            page.darken(left.into(), top.into(), 36, 12);
        }
    }
    Ok(page)
}

/// Makes a pixel of the page dark or light.
fn paint(page: &mut BitPage, x: u32, y: u32, dark: bool) {
    if x < page.width() && y < page.height() {
        page.set_dark(x, y, dark);
    }
}

fn place(u: i32, v: i32) -> Point {
    Point { u, v }
}

#[test]
fn a_clean_page_has_its_border(rt: HostRuntime) -> Result<(), Fail> {
    let mut page = page_with_marks(rt.alloc(), 1700, 2200, 0, 0)?;
    // what stands inside the page changes nothing
    if page.width() == 1700 && page.height() == 2200 {
        page.darken(832, 1194, 36, 12);
    }
    let counter = Counter::new(rt.alloc(), &page.view())?;
    let border = trace(&counter, Paper::Letter).map_err(|_| "no border")?;
    let expected = [
        (0, place(56, 59)),
        (1, place(105, 59)),
        (2, place(153, 59)),
        (34, place(1641, 111)),
        (74, place(57, 111)),
        (114, place(105, 2139)),
    ];
    for (k, there) in expected {
        if k < 146 {
            assert_eq!(rt; border.at(k), there, "mark {k}");
        }
    }
    Ok(())
}

/// Why a page has no border.
fn fault_of(alloc: Global, page: &BitPage) -> Result<Option<BorderFault>, Fail> {
    let (_width, _height) = (page.width(), page.height());
    let counter = Counter::new(alloc, &page.view())?;
    Ok(trace(&counter, Paper::Letter).err())
}

/// Where marks 0, 1 and 5 of a page's border stand.
fn places_on(alloc: Global, page: &BitPage) -> Result<[Point; 3], Fail> {
    let (_width, _height) = (page.width(), page.height());
    let counter = Counter::new(alloc, &page.view())?;
    let border = trace(&counter, Paper::Letter).map_err(|_| "no border")?;
    Ok([border.at(0), border.at(1), border.at(5)])
}

#[test]
fn a_shifted_page_has_its_border_up_to_the_bound(rt: HostRuntime) -> Result<(), Fail> {
    let beyond = page_with_marks(rt.alloc(), 1800, 2240, 61, 40)?;
    assert_eq!(rt; fault_of(rt.alloc(), &beyond)?, Some(BorderFault::NoCorner));
    let within = page_with_marks(rt.alloc(), 1800, 2240, 60, 40)?;
    let [corner, beside, _] = places_on(rt.alloc(), &within)?;
    assert_eq!(rt; (corner, beside), (place(116, 99), place(165, 99)));
    Ok(())
}

#[test]
fn a_mark_with_a_hole_is_not_found(rt: HostRuntime) -> Result<(), Fail> {
    let mut page = page_with_marks(rt.alloc(), 1700, 2200, 0, 0)?;
    for v in 59..62 {
        for u in 295..302 {
            paint(&mut page, u, v, false);
        }
    }
    assert_eq!(rt;
        fault_of(rt.alloc(), &page)?,
        Some(BorderFault::NoMark(Side::Top, 5, place(297, 59)))
    );
    paint(&mut page, 298, 60, true);
    let [_, _, sixth] = places_on(rt.alloc(), &page)?;
    assert_eq!(rt; sixth, place(297, 59));
    Ok(())
}
