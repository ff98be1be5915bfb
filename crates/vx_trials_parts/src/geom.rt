use vx_geom::*;
use vx_grid::Point;

/// The steepest shear of a page in a frame of 1800 by 2240.
const STEEP: Shear = Shear {
    sx: 53,
    sy: 41,
    a: 64,
    b: -64,
};

fn at(u: i32, v: i32) -> Point {
    Point { u, v }
}

#[test]
fn the_outer_marks_are_sheared_and_found_again(rt: HostRuntime) {
    assert_eq!(rt; STEEP.to_scan(Point { u: 58, v: 60 }), at(112, 100));
    assert_eq!(rt; STEEP.to_scan(Point { u: 1642, v: 60 }), at(1696, 75));
    assert_eq!(rt; STEEP.to_scan(Point { u: 58, v: 2140 }), at(145, 2180));
    assert_eq!(rt; STEEP.to_scan(Point { u: 1642, v: 2140 }), at(1728, 2155));
    assert_eq!(rt; STEEP.to_paper(Point { u: 112, v: 100 }), at(58, 60));
    assert_eq!(rt; STEEP.to_paper(Point { u: 1696, v: 75 }), at(1642, 60));
    assert_eq!(rt; STEEP.to_paper(Point { u: 145, v: 2180 }), at(58, 2140));
    assert_eq!(rt; STEEP.to_paper(Point { u: 1728, v: 2155 }), at(1642, 2140));
}
