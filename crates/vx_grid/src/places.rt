ghost use Rattle.std.specs.Prelude.{◌≡◌, ◌≤◌, ◌+ℤ◌, ◌-ℤ◌, pos};
ghost use Rattle.vx_grid.specs.Places.{IsWithin, bubble_window_of, code_window_of, rect_round};

use crate::sizes::{BUBBLE_WINDOW, CODE_WINDOW, HalfSides};

/// A pixel of a scan or of the plane round it: column `u` to the right, row `v` downwards.
#[derive(Clone, Copy, Debug, PartialEq, Eq)]
pub struct Point {
    pub u: i32,
    pub v: i32,
}

/// A rectangle of pixels, by its left top pixel and its sides.
#[derive(Clone, Copy, Debug, PartialEq, Eq)]
pub struct Rect {
    pub left: i32,
    pub top: i32,
    pub width: u32,
    pub height: u32,
}

impl Rect {
    /// The rectangle whose left top pixel is `left` columns and `top` rows off a place.
    pub fn around(place: Point, left: i32, top: i32, width: u32, height: u32) -> Rect
        requires u { IsWithin 10000 place.u }
        requires v { IsWithin 10000 place.v }
        requires left { IsWithin 100 left }
        requires top { IsWithin 100 top }
        ensures { result
            ≡ record { left = place.u +ℤ left; top = place.v +ℤ top; width = width; height = height } }
    {
        Rect {
            left: place.u + left,
            top: place.v + top,
            width,
            height,
        }
    }

    /// The rectangle that has so many columns and rows on each side of a place.
    pub fn round(place: Point, half: HalfSides) -> Rect
        requires u { IsWithin 10000 place.u }
        requires v { IsWithin 10000 place.v }
        requires across { half.across ≤ 100 }
        requires down { half.down ≤ 100 }
        ensures { result ≡ rect_round half place }
    {
        Rect {
            left: place.u - half.across as i32,
            top: place.v - half.down as i32,
            width: half.across + half.across,
            height: half.down + half.down,
        }
    }
}

/// Where a bubble that was printed round `place` is looked for.
pub fn bubble_window(place: Point) -> Rect
    requires u { IsWithin 10000 place.u }
    requires v { IsWithin 10000 place.v }
    ensures { result ≡ bubble_window_of place }
{
    Rect::round(place, BUBBLE_WINDOW)
}

/// Where a box of the page code that was printed round `place` is looked for.
pub fn code_window(place: Point) -> Rect
    requires u { IsWithin 10000 place.u }
    requires v { IsWithin 10000 place.v }
    ensures { result ≡ code_window_of place }
{
    Rect::round(place, CODE_WINDOW)
}
