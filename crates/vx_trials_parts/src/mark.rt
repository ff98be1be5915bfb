ghost use Rattle.std.specs.Prelude.{◌≤◌};

use std::alloc::Global;
use std::test::Fail;
use vx_bits::BitPage;
use vx_count::Counter;
use vx_grid::Point;
use vx_mark::{accepted, best_near, deficit, first_corner};

/// A scan with the shape of a timing mark round each of two places.
fn scan(alloc: Global, u: u32, v: u32, other_u: u32, other_v: u32) -> Result<Counter, Fail>
    requires left { 18 ≤ u }
    requires right { u ≤ 380 }
    requires top { 6 ≤ v }
    requires bottom { v ≤ 190 }
    requires other_left { 18 ≤ other_u }
    requires other_right { other_u ≤ 380 }
    requires other_top { 6 ≤ other_v }
    requires other_bottom { other_v ≤ 190 }
{
    let mut page = BitPage::new(alloc, 400, 200)?;
    page.darken(u64::from(u - 18), u64::from(v - 6), 36, 12);
    page.darken(u64::from(other_u - 18), u64::from(other_v - 6), 36, 12);
    Ok(Counter::new(alloc, &page.view())?)
}

fn at(u: i32, v: i32) -> Point {
    Point { u, v }
}

#[test]
fn the_first_marks_of_a_row(rt: HostRuntime) -> Result<(), Fail> {
    let counter = scan(rt.alloc(), 58, 60, 106, 60)?;
    assert_eq!(rt; first_corner(&counter), Some(at(56, 59)));
    assert_eq!(rt;
        best_near(&counter, Point { u: 104, v: 59 }),
        Some(at(105, 59))
    );
    assert_eq!(rt; best_near(&counter, Point { u: 153, v: 59 }), None);
    Ok(())
}

#[test]
fn a_mark_with_a_hole(rt: HostRuntime) -> Result<(), Fail> {
    let mut page = BitPage::new(rt.alloc(), 400, 200)?;
    page.darken(280, 54, 36, 5);
    page.darken(280, 59, 15, 3);
    page.darken(302, 59, 14, 3);
    page.darken(280, 62, 36, 4);
    let counter = Counter::new(rt.alloc(), &page.view())?;
    assert_eq!(rt; deficit(&counter, Point { u: 297, v: 59 }), 21);
    assert!(rt; !accepted(&counter, Point { u: 297, v: 59 }));
    assert_eq!(rt; best_near(&counter, Point { u: 297, v: 59 }), None);
    page.set_dark(298, 60, true);
    let counter = Counter::new(rt.alloc(), &page.view())?;
    assert_eq!(rt; deficit(&counter, Point { u: 297, v: 59 }), 20);
    assert!(rt; accepted(&counter, Point { u: 297, v: 59 }));
    assert_eq!(rt;
        best_near(&counter, Point { u: 297, v: 59 }),
        Some(at(297, 59))
    );
    Ok(())
}
