ghost use Rattle.std.specs.Prelude.{◌≡◌, ◌≤◌, ◌<◌, ◌-ℤ◌};
ghost use Rattle.vx_grid.specs.Paper.{last_row as last_row_of};
ghost use Rattle.vx_grid.specs.Marks.{marks as marks_of};
ghost use Rattle.vx_grid.specs.Places.{IsWithin, IsPointWithin, AreWithin};
ghost use Rattle.vx_fit.specs.Fit.{part_of, between as between_of, left_mark as left_mark_of, place_between, place_of};

use vx_grid::{Border, Paper, Point, last_row};

/// How far it is from `a` to `b`.
fn distance(a: i32, b: i32) -> i32
    requires a { IsWithin 9000 a }
    requires b { IsWithin 9000 b }
    ensures { result ≡ b -ℤ a }
{
    b - a
}

/// So many of 33 equal parts of a distance, rounded towards minus infinity.
fn part(distance: i32, steps: u32) -> i32
    requires distance { IsWithin 18000 distance }
    requires steps { steps ≤ 33 }
    ensures { result ≡ part_of distance steps }
{
    let way = distance * steps as i32;
    way.div_euclid(33)
}

/// So many of 33 equal steps from `a` to `b`, rounded towards minus infinity.
fn between(a: i32, b: i32, steps: u32) -> i32
    requires a { IsWithin 9000 a }
    requires b { IsWithin 9000 b }
    requires steps { steps ≤ 33 }
    ensures value { result ≡ between_of a b steps }
    ensures bound { IsWithin 9000 result }
{
    a + part(distance(a, b), steps)
}

/// The number of the timing mark at the left end of a grid row.
fn left_mark(paper: Paper, row: u32) -> u32
    requires { row ≤ last_row_of paper }
    ensures value { result ≡ left_mark_of (last_row_of paper) row }
    ensures bound { result < marks_of paper }
{
    if row == 0 {
        0
    } else {
        33 + last_row(paper) + row
    }
}

/// The place of the grid point in column `col`, 0 to 33, and row `row`, 0 to the last row of the
/// border's paper, in pixels of the scan.
pub fn place(border: &Border, col: u32, row: u32) -> Point
    requires col { col ≤ 33 }
    requires row { row ≤ last_row_of border.now.paper }
    requires border { AreWithin 9000 border.now.places }
    ensures value { result ≡ place_of border.now col row }
    ensures bound { IsPointWithin 9000 result }
{
    let left = border.at(left_mark(border.paper(), row));
    let right = border.at(33 + row);
    Point {
        u: between(left.u, right.u, col),
        v: between(left.v, right.v, col),
    }
}
