ghost use Rattle.std.specs.Prelude.{◌≡◌, ◌+ℤ◌, ◌-ℤ◌, ◌*ℤ◌};
ghost use Rattle.vx_grid.specs.Places.{IsWithin, IsPointWithin};
ghost use Rattle.vx_geom.specs.Slants.{whole_of, slant_of, to_scan_of, to_paper_of};

use vx_grid::Point;

/// How a page lies in its scan: moved by `sx` columns and `sy` rows, then each column of the paper by
/// `b` parts of 4096 further down, and each row of the scan by `a` parts of 4096 further to the right.
#[derive(Clone, Copy, Debug, PartialEq, Eq)]
pub struct Shear {
    pub sx: i32,
    pub sy: i32,
    /// From -64 to 64.
    pub a: i32,
    /// From -64 to 64.
    pub b: i32,
}

/// So many whole pixels for a slope in parts of 4096 along a way, rounded towards minus infinity.
pub fn rise(slope: i32, along: i32) -> i32
    requires slope { IsWithin 64 slope }
    requires along { IsWithin 30000 along }
    ensures value { result ≡ whole_of (slope *ℤ along) }
    ensures bound { IsWithin 500 result }
    // A short way rises little.
    ensures short { IsWithin 200 along → IsWithin 5 result }
{
    let parts = slope * along;
    parts.div_euclid(4096)
}

/// A coordinate moved by an offset and a rise.
fn moved(z: i32, offset: i32, rise: i32) -> i32
    requires z { IsWithin 10000 z }
    requires offset { IsWithin 10000 offset }
    requires rise { IsWithin 500 rise }
    ensures value { result ≡ z +ℤ (offset +ℤ rise) }
    ensures bound { IsWithin 30000 result }
{
    z + (offset + rise)
}

/// A coordinate moved back.
fn moved_back(z: i32, offset: i32, rise: i32) -> i32
    requires z { IsWithin 10000 z }
    requires offset { IsWithin 10000 offset }
    requires rise { IsWithin 500 rise }
    ensures value { result ≡ z -ℤ (offset +ℤ rise) }
    ensures bound { IsWithin 30000 result }
{
    z - (offset + rise)
}

impl Shear {
    /// Where a place of the paper is in the scan.
    pub fn to_scan(&self, p: Point) -> Point
        requires a { IsWithin 64 self.now.a }
        requires b { IsWithin 64 self.now.b }
        requires sx { IsWithin 10000 self.now.sx }
        requires sy { IsWithin 10000 self.now.sy }
        requires p { IsPointWithin 10000 p }
        ensures { result ≡ to_scan_of (slant_of self.now) p }
    {
        let Shear { sx, sy, a, b } = *self;
        let v = moved(p.v, sy, rise(b, p.u));
        let u = moved(p.u, sx, rise(a, v));
        Point { u, v }
    }

    /// Which place of the paper is at a place of the scan.
    pub fn to_paper(&self, p: Point) -> Point
        requires a { IsWithin 64 self.now.a }
        requires b { IsWithin 64 self.now.b }
        requires sx { IsWithin 10000 self.now.sx }
        requires sy { IsWithin 10000 self.now.sy }
        requires p { IsPointWithin 10000 p }
        ensures { result ≡ to_paper_of (slant_of self.now) p }
    {
        let Shear { sx, sy, a, b } = *self;
        let u = moved_back(p.u, sx, rise(a, p.v));
        let v = moved_back(p.v, sy, rise(b, u));
        Point { u, v }
    }
}
