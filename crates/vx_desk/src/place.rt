//! Where a grid place of a scanned page is, whatever its border is.

ghost use Rattle.std.specs.Prelude.{◌≡◌, ◌≤◌, ◌<◌, ◌^◌, ◌-ℤ◌};
ghost use Rattle.vx_grid.specs.Places.{IsWithin, point_at};
ghost use Rattle.vx_fit.specs.Fit as fit;
ghost use Rattle.vx_grid.specs.Paper.{last_row as last_row_of};

use vx_grid::{Border, Paper, Point, last_row};

/// A coordinate with room for sums.
fn wide(a: i32) -> i64
    ensures value { result ≡ a }
    ensures near { IsWithin 2147483648 result }
{
    i64::from(a)
}

/// How far it is from `a` to `b`.
fn distance(a: i64, b: i64) -> i64
    requires a { IsWithin 2147483648 a }
    requires b { IsWithin 2147483648 b }
    ensures value { result ≡ b -ℤ a }
    ensures near { IsWithin 4294967296 result }
{
    b - a
}

/// So many of 33 equal parts of a distance, rounded towards minus infinity.
fn part(distance: i64, steps: u32) -> i64
    requires distance { IsWithin 4294967296 distance }
    requires steps { steps ≤ 33 }
    ensures { result ≡ fit.part_of distance steps }
{
    let way = distance * steps as i64;
    way.div_euclid(33)
}

/// So many of 33 equal steps from `a` to `b`, rounded towards minus infinity.
fn step(a: i64, b: i64, steps: u32) -> i64
    requires a { IsWithin 2147483648 a }
    requires b { IsWithin 2147483648 b }
    requires steps { steps ≤ 33 }
    ensures value { result ≡ fit.between a b steps }
    ensures near { IsWithin 2147483648 result }
{
    a + part(distance(a, b), steps)
}

/// The same of coordinates.
fn between(a: i32, b: i32, steps: u32) -> i64
    requires { steps ≤ 33 }
    ensures value { result ≡ fit.between a b steps }
    ensures near { IsWithin 2147483648 result }
{
    step(wide(a), wide(b), steps)
}

/// The place of the timing mark with a number, and the origin where there is none.
fn mark_at(border: &Border, number: u64) -> Point
    ensures { result ≡ point_at border.now.places number }
{
    // For the proof alone: there are no more marks.
    let _first = border.at(0);
    let marks = 66 + 2 * last_row(border.paper());
    if number < u64::from(marks) {
        border.at(number as u32)
    } else {
        Point { u: 0, v: 0 }
    }
}

/// The number of the timing mark at the left end of a grid row.
fn left_mark(paper: Paper, row: u64) -> u64
    requires { row < 2 ^ 40 }
    ensures { result ≡ fit.left_mark (last_row_of paper) row }
{
    if row == 0 {
        0
    } else {
        33 + u64::from(last_row(paper)) + row
    }
}

/// The column of a grid point, in pixels of the upright page.
pub(crate) fn place_u(border: &Border, column: u32, row: u64) -> i64
    requires column { column ≤ 33 }
    requires row { row < 2 ^ 40 }
    ensures value { result ≡ (fit.place_of border.now column row).u }
    ensures near { IsWithin 2147483648 result }
{
    let left = mark_at(border, left_mark(border.paper(), row));
    let right = mark_at(border, 33 + row);
    between(left.u, right.u, column)
}

/// The row of a grid point, in pixels of the upright page.
pub(crate) fn place_v(border: &Border, column: u32, row: u64) -> i64
    requires column { column ≤ 33 }
    requires row { row < 2 ^ 40 }
    ensures value { result ≡ (fit.place_of border.now column row).v }
    ensures near { IsWithin 2147483648 result }
{
    let left = mark_at(border, left_mark(border.paper(), row));
    let right = mark_at(border, 33 + row);
    between(left.v, right.v, column)
}
