ghost use Rattle.std.specs.Prelude.{◌≡◌, ◌≤◌, ◌+ℤ◌, ◌-ℤ◌, ◌≤ℤ◌, pos};
ghost use Rattle.vx_grid.specs.Places.{IsWithin};
ghost use Rattle.vx_mark.specs.Search.{place_of, IsFirst, IsPast};

use vx_grid::Point;

/// A pixel of the frame.
#[derive(Clone, Copy)]
pub(crate) struct Pixel {
    pub(crate) u: u32,
    pub(crate) v: u32,
}

/// The columns or rows from `first` on and before `past`.
#[derive(Clone, Copy)]
pub(crate) struct Span {
    pub(crate) first: u32,
    pub(crate) past: u32,
}

/// The place of a pixel.
pub(crate) fn point(pixel: Pixel) -> Point
    requires u { pixel.u ≤ 9000 }
    requires v { pixel.v ≤ 9000 }
    ensures { result ≡ place_of pixel }
{
    Point {
        u: pixel.u as i32,
        v: pixel.v as i32,
    }
}

/// A coordinate that isn't negative.
pub(crate) fn unsigned(z: i32) -> u32
    requires { pos 0 ≤ℤ z }
    ensures { pos result ≡ z }
{
    z as u32
}

/// The first column or row that is at least `low` and has `before` pixels before it.
pub(crate) fn first_of(low: i32, before: u32) -> u32
    requires low { IsWithin 9900 low }
    requires before { before ≤ 100 }
    ensures { IsFirst low before result }
{
    if low <= 0 {
        before
    } else {
        unsigned(low).max(before)
    }
}

/// The column or row past the last one that is at most `high` and has `after` pixels from it on
/// in a line of `size`.
pub(crate) fn past_of(high: i32, after: u32, size: u32) -> u32
    requires high { IsWithin 9900 high }
    requires after { after ≤ 100 }
    requires size { size ≤ 4096 }
    ensures { IsPast high after size result }
{
    if high < 0 {
        0
    } else {
        (unsigned(high) + 1).min((size + 1).saturating_sub(after))
    }
}
